//! The reasons why a text is refused.

ghost use Rattle.std.specs.Prelude.{◌≡◌};
ghost use Rattle.plan_text.specs.declared.fault.TextFault.TheVariants.{Memory};
ghost use Rattle.plan_text.specs.Faults.{number_of, offset_of};

use std::alloc::{AllocError, AllocFailed};

/// The reason why a text is refused.
///
/// An offset counts bytes from 0. It is the offset of the first byte that no rule accepts. Apart from escapes
/// that the Ninja manual doesn't list, the choice of refused bytes is this project's own.
#[derive(Clone, Copy, PartialEq, Eq)]
pub enum TextFault {
    /// A tab that is in a path, or between the spaces that begin a line and its first word. In a comment or a
    /// value, a tab is an ordinary byte. Holds the offset of the tab.
    TabBlank(u64),
    /// A NUL byte, anywhere. Holds its offset.
    NulByte(u64),
    /// A `$` that begins none of the escapes of the Ninja manual's section "Lexical syntax". Holds the offset
    /// of the `$`.
    BadEscape(u64),
    /// A text of more than 16,777,216 bytes (16 MiB). Holds the offset of the first byte after the limit, which
    /// is that number.
    SourceTooLong(u64),
    /// Memory ran out. This fault does not depend on the text.
    Memory,
    /// An empty path.
    EmptyPath,
}

impl TextFault {
    /// Returns the number that a program prints for the fault, from 1 to 6 in the order of the variants. The
    /// numbers are this project's own choice.
    pub fn number(&self) -> u8
        ensures { result ≡ number_of self.now }
    {
        match self {
            TextFault::TabBlank(_) => 1,
            TextFault::NulByte(_) => 2,
            TextFault::BadEscape(_) => 3,
            TextFault::SourceTooLong(_) => 4,
            TextFault::Memory => 5,
            TextFault::EmptyPath => 6,
        }
    }

    /// Returns the offset of the first byte that no rule accepts. Returns None for `Memory` and `EmptyPath`.
    pub fn offset(&self) -> Option<u64>
        ensures { result ≡ offset_of self.now }
    {
        match self {
            TextFault::TabBlank(at)
            | TextFault::NulByte(at)
            | TextFault::BadEscape(at)
            | TextFault::SourceTooLong(at) => Some(*at),
            TextFault::Memory | TextFault::EmptyPath => None,
        }
    }
}

impl From<AllocError> for TextFault {
    ghost from_gives = { λ _ e. e ≡ Memory };

    fn from(_e: AllocError) -> TextFault {
        TextFault::Memory
    }
}

impl<T: Drop> From<AllocFailed<T>> for TextFault {
    ghost from_gives = { λ _ e. e ≡ Memory };

    fn from(_e: AllocFailed<T>) -> TextFault {
        TextFault::Memory
    }
}
