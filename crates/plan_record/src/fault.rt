//! The reasons why an entry is refused.

ghost use Rattle.std.specs.Prelude.{◌≡◌};
ghost use Rattle.plan_record.specs.declared.fault.EntryFault.TheVariants.{Memory};

use std::alloc::{AllocError, AllocFailed};

/// The reason why some parts form no entry.
#[derive(Clone, Copy, PartialEq, Eq)]
pub enum EntryFault {
    /// A path is empty or has more than 4,096 bytes, the command has more than 1,048,576 bytes, there are 2^32
    /// paths or more, or the body has 2^32 bytes or more.
    OutsideLimits,
    /// Memory ran out. This fault does not depend on the parts.
    Memory,
}

impl From<AllocError> for EntryFault {
    ghost from_gives = { λ _ e. e ≡ Memory };

    fn from(_e: AllocError) -> EntryFault {
        EntryFault::Memory
    }
}

impl<T: Drop> From<AllocFailed<T>> for EntryFault {
    ghost from_gives = { λ _ e. e ≡ Memory };

    fn from(_e: AllocFailed<T>) -> EntryFault {
        EntryFault::Memory
    }
}
