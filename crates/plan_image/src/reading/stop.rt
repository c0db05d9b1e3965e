//! The reasons why reading a part fails.

ghost use Rattle.std.specs.Prelude.{◌≡◌, length};
ghost use Rattle.plan_image.specs.declared.reading.stop.ReadFault.TheVariants.{Memory};

use crate::fault::Cause;
use std::alloc::{AllocError, AllocFailed};

/// The place at which a reader stops: the cause, and the number of bytes that are left.
#[derive(Clone, Copy, PartialEq, Eq)]
pub(crate) struct Stop {
    pub cause: Cause,
    pub left: usize,
}

/// The reason why reading a part fails.
#[derive(Drop)]
pub(crate) enum ReadFault {
    Memory,
    Stop(Stop),
}

impl From<plan_text::Memory> for ReadFault {
    ghost from_gives = { λ _ e. e ≡ Memory };

    fn from(_e: plan_text::Memory) -> ReadFault {
        ReadFault::Memory
    }
}

impl From<AllocError> for ReadFault {
    ghost from_gives = { λ _ e. e ≡ Memory };

    fn from(_e: AllocError) -> ReadFault {
        ReadFault::Memory
    }
}

impl<T: Drop> From<AllocFailed<T>> for ReadFault {
    ghost from_gives = { λ _ e. e ≡ Memory };

    fn from(_e: AllocFailed<T>) -> ReadFault {
        ReadFault::Memory
    }
}

/// Returns the fault of a reader that stops when these bytes are left.
pub(crate) fn stop_at(cause: Cause, rest: &[u8]) -> ReadFault
    ensures { result ≡ ReadFault.Stop (record { cause = cause; left = length rest.now }) }
{
    ReadFault::Stop(Stop {
        cause,
        left: rest.len(),
    })
}
