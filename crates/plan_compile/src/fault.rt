//! The reasons why a manifest has no image.

ghost use Rattle.std.specs.Prelude.{◌≡◌};
ghost use Rattle.plan_compile.specs.Faults.{number_of};
ghost use Rattle.plan_compile.specs.declared.fault.CompileFault.TheVariants as fault;

use plan_text::Memory;
use std::alloc::{AllocError, AllocFailed};

/// The reason why a manifest has no image.
#[derive(Clone, Copy, PartialEq, Eq)]
pub enum CompileFault {
    /// The image would exceed a limit of images. docs/rules/image.md lists them.
    Limit,
    /// Memory ran out. This fault does not depend on the manifest.
    Memory,
}

impl CompileFault {
    /// Returns the number that a program prints for the fault: 100 or 101.
    pub fn number(&self) -> u8
        ensures { result ≡ number_of self.now }
    {
        match self {
            CompileFault::Limit => 100,
            CompileFault::Memory => 101,
        }
    }
}

impl From<AllocError> for CompileFault {
    ghost from_gives = { λ _ e. e ≡ fault.Memory };

    fn from(_e: AllocError) -> CompileFault {
        CompileFault::Memory
    }
}

impl<T: Drop> From<AllocFailed<T>> for CompileFault {
    ghost from_gives = { λ _ e. e ≡ fault.Memory };

    fn from(_e: AllocFailed<T>) -> CompileFault {
        CompileFault::Memory
    }
}

impl From<Memory> for CompileFault {
    ghost from_gives = { λ _ e. e ≡ fault.Memory };

    fn from(_e: Memory) -> CompileFault {
        CompileFault::Memory
    }
}
