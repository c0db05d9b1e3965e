//! The reasons why a text is no trace.

use std::alloc::{AllocError, AllocFailed};

/// The reason why a text is no trace.
#[derive(Clone, Copy, PartialEq, Eq)]
pub enum TraceFault {
    /// A line is not allowed at its place. Holds its number, counted from 1.
    BadTrace(u64),
    /// Memory ran out. This fault does not depend on the text.
    Memory,
}

impl From<AllocError> for TraceFault {
    ghost use Rattle.std.specs.Prelude.{◌≡◌};
    ghost use Rattle.plan_trace.specs.declared.fault.TraceFault.TheVariants.{Memory};

    ghost from_gives = { λ _ e. e ≡ Memory };

    fn from(_error: AllocError) -> Self {
        TraceFault::Memory
    }
}

impl<T: Drop> From<AllocFailed<T>> for TraceFault {
    ghost use Rattle.std.specs.Prelude.{◌≡◌};
    ghost use Rattle.plan_trace.specs.declared.fault.TraceFault.TheVariants.{Memory};

    ghost from_gives = { λ _ e. e ≡ Memory };

    fn from(_error: AllocFailed<T>) -> Self {
        TraceFault::Memory
    }
}
