//! Faults of tools.

use plan_printing::{PlanFault, concatenate};
use plan_text::{Memory, SinkFault};
use plan_tools::{OrderFault, TreeFault};
use std::alloc::{AllocError, AllocFailed, Global};

/// The reason why a tool is refused.
#[derive(Drop)]
pub enum ToolFault {
    /// Memory ran out.
    Memory,
    /// Standard output can't be written.
    LostOutput,
    /// The manifest is refused, or a file can't be read or written.
    Plan(PlanFault),
    /// Another reason, as a sentence.
    Said(Vec<u8>),
}

impl From<Memory> for ToolFault {
    fn from(_fault: Memory) -> ToolFault {
        ToolFault::Memory
    }
}

impl From<AllocError> for ToolFault {
    fn from(_fault: AllocError) -> ToolFault {
        ToolFault::Memory
    }
}

impl<T: Drop> From<AllocFailed<T>> for ToolFault {
    fn from(_fault: AllocFailed<T>) -> ToolFault {
        ToolFault::Memory
    }
}

impl From<SinkFault> for ToolFault {
    fn from(_fault: SinkFault) -> ToolFault {
        ToolFault::LostOutput
    }
}

impl From<TreeFault> for ToolFault {
    fn from(fault: TreeFault) -> ToolFault {
        match fault {
            TreeFault::Memory => ToolFault::Memory,
            TreeFault::Sink => ToolFault::LostOutput,
        }
    }
}

impl From<OrderFault> for ToolFault {
    fn from(_fault: OrderFault) -> ToolFault {
        ToolFault::Memory
    }
}

/// Returns a fault with a sentence of these texts, or `Memory` if memory runs out.
pub fn fault_of(alloc: Global, parts: &[&[u8]]) -> ToolFault {
    match concatenate(alloc, parts) {
        Ok(text) => ToolFault::Said(text),
        Err(_) => ToolFault::Memory,
    }
}
