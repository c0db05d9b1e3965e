//! Why a scan ends early.

use std::alloc::{AllocError, AllocFailed};

/// Why a scan ends early.
#[derive(Clone, Copy, PartialEq, Eq)]
pub(crate) enum Doubt {
    /// An edge is out of date, or it isn't known whether it is.
    NotShown,
    /// Memory ran out.
    Memory,
}

impl From<AllocError> for Doubt {
    fn from(_error: AllocError) -> Doubt {
        Doubt::Memory
    }
}

impl<T: Drop> From<AllocFailed<T>> for Doubt {
    fn from(_error: AllocFailed<T>) -> Doubt {
        Doubt::Memory
    }
}
