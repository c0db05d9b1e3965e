//! The reasons why a call is refused.

use std::alloc::{AllocError, AllocFailed};

/// The reason why an image wasn't opened, or an event wasn't applied.
#[derive(Clone, Copy, PartialEq, Eq)]
pub enum Refused {
    /// The event isn't enabled.
    NotEnabled,
    /// Memory ran out. Nothing changed.
    Memory,
    /// A target is no edge of the image.
    BadTarget,
}

impl Refused {
    ghost use Rattle.std.specs.Prelude.{◌≡◌};
    ghost use Rattle.plan_machine.specs.Faults.{number_of};

    /// Returns the number that a program prints for the refusal, from 110 to 112 in the order of the variants.
    /// The numbers are this project's own choice.
    pub fn number(&self) -> u8
        ensures { result ≡ number_of self.now }
    {
        match self {
            Refused::NotEnabled => 110,
            Refused::Memory => 111,
            Refused::BadTarget => 112,
        }
    }
}

impl From<AllocError> for Refused {
    ghost use Rattle.std.specs.Prelude.{◌≡◌};
    ghost use Rattle.plan_machine.specs.declared.run.refused.Refused.TheVariants.{Memory};

    ghost from_gives = { λ _ e. e ≡ Memory };

    fn from(_error: AllocError) -> Self {
        Refused::Memory
    }
}

impl<T: Drop> From<AllocFailed<T>> for Refused {
    ghost use Rattle.std.specs.Prelude.{◌≡◌};
    ghost use Rattle.plan_machine.specs.declared.run.refused.Refused.TheVariants.{Memory};

    ghost from_gives = { λ _ e. e ≡ Memory };

    fn from(_error: AllocFailed<T>) -> Self {
        Refused::Memory
    }
}
