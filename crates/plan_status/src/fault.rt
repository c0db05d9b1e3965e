//! Why a text wasn't printed.

use plan_text::SinkFault;
use std::alloc::{AllocError, AllocFailed};

/// The reason why a text wasn't printed to its end.
#[derive(Clone, Copy, PartialEq, Eq)]
pub enum PrintFault {
    /// Memory ran out. A prefix of the text may be printed.
    Memory,
    /// A write failed. A prefix of the text may be printed.
    Write,
}

impl From<SinkFault> for PrintFault {
    ghost use Rattle.std.specs.Prelude.{◌≡◌};
    ghost use Rattle.plan_status.specs.declared.fault.PrintFault.TheVariants.{Write};

    ghost from_gives = { λ _ e. e ≡ Write };

    fn from(_fault: SinkFault) -> Self {
        PrintFault::Write
    }
}

impl From<AllocError> for PrintFault {
    ghost use Rattle.std.specs.Prelude.{◌≡◌};
    ghost use Rattle.plan_status.specs.declared.fault.PrintFault.TheVariants.{Memory};

    ghost from_gives = { λ _ e. e ≡ Memory };

    fn from(_error: AllocError) -> Self {
        PrintFault::Memory
    }
}

impl<T: Drop> From<AllocFailed<T>> for PrintFault {
    ghost use Rattle.std.specs.Prelude.{◌≡◌};
    ghost use Rattle.plan_status.specs.declared.fault.PrintFault.TheVariants.{Memory};

    ghost from_gives = { λ _ e. e ≡ Memory };

    fn from(_error: AllocFailed<T>) -> Self {
        PrintFault::Memory
    }
}
