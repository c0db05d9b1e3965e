//! Memory for the lists of layouts.

use crate::layout::{CommandLayout, EdgeLayout, GatherLayout, Input, Output};
use plan_text::Items;
use std::alloc::Global;

/// The lists of a layout. The lists of the next edge overwrite them, so they are allocated only once. Their
/// contents have no meaning.
#[derive(Drop)]
pub(crate) struct Lists {
    pub(crate) named: Vec<Input>,
    pub(crate) order_only: Vec<u32>,
    pub(crate) outputs: Vec<Output>,
    pub(crate) flags: Vec<u32>,
}

/// Creates lists without memory, except that of these outputs.
fn with_outputs(alloc: Global, outputs: Items<Output>) -> Lists {
    Lists {
        named: Vec::new(alloc),
        order_only: Vec::new(alloc),
        outputs: outputs.into_vec(),
        flags: Vec::new(alloc),
    }
}

impl Lists {
    /// Creates lists without memory.
    pub(crate) fn new(alloc: Global) -> Lists {
        with_outputs(alloc, Items::empty(alloc))
    }

    /// Returns the lists of a layout that is no longer used.
    pub(crate) fn of(alloc: Global, layout: EdgeLayout) -> Lists {
        match layout {
            EdgeLayout::Command(command) => Lists::of_command(command),
            EdgeLayout::Gather(gather) => Lists::of_gather(gather),
            EdgeLayout::Alone(outputs) => with_outputs(alloc, outputs),
        }
    }

    fn of_command(layout: CommandLayout) -> Lists {
        let CommandLayout {
            named,
            order_only,
            outputs,
            flags,
            ..
        } = layout;
        Lists {
            named: named.into_vec(),
            order_only: order_only.into_vec(),
            outputs: outputs.into_vec(),
            flags: flags.into_vec(),
        }
    }

    fn of_gather(layout: GatherLayout) -> Lists {
        let GatherLayout {
            named,
            order_only,
            outputs,
            flags,
            ..
        } = layout;
        Lists {
            named: named.into_vec(),
            order_only: order_only.into_vec(),
            outputs: outputs.into_vec(),
            flags: flags.into_vec(),
        }
    }
}
