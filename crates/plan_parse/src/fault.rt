//! The reasons why a text is no list of statements.

ghost use Rattle.std.specs.Prelude.{◌≡◌};
ghost use Rattle.plan_parse.specs.declared.fault.ParseFault.TheVariants.{Memory};
ghost use Rattle.plan_parse.specs.Faults.{number_of, offset_of};

use plan_text::TextFault;
use std::alloc::{AllocError, AllocFailed};

/// The reason why a text is no list of statements. An offset counts bytes from 0. It is that of the byte at
/// which the missing item was expected, or at which the wrong item is.
#[derive(Clone, Copy, PartialEq, Eq)]
pub enum ParseFault {
    /// A statement, a rule, a pool or a variable has no name.
    ExpectedName(u64),
    /// The name of a variable isn't followed by `=`.
    ExpectedEquals(u64),
    /// The outputs of a build line aren't followed by `:`.
    ExpectedColon(u64),
    /// A build line has no output, `default` has no target, or `include` or `subninja` has no file.
    ExpectedPath(u64),
    /// A line is indented, but is not below a rule, a pool or a build line.
    UnexpectedIndent(u64),
    /// A rule binds a variable that rules may not bind.
    UnknownRuleVariable(u64),
    /// A rule has no `command`, or has a second one.
    NoCommand(u64),
    /// A pool has no `depth`, has a second one, or binds another variable.
    BadPool(u64),
    /// A validation: `|@` after the inputs.
    Validation(u64),
    /// A line continues after the end of its statement.
    ExpectedLineEnd(u64),
    /// Memory ran out.
    Memory,
    /// A fault of the text itself, other than running out of memory.
    Text(TextFault),
}

impl ParseFault {
    /// Returns the number that a program prints for the fault: 10 to 19, 22 for memory, or the number of the
    /// text's fault.
    pub fn number(&self) -> u8
        ensures { result ≡ number_of self.now }
    {
        match self {
            ParseFault::ExpectedName(_) => 10,
            ParseFault::ExpectedEquals(_) => 11,
            ParseFault::ExpectedColon(_) => 12,
            ParseFault::ExpectedPath(_) => 13,
            ParseFault::UnexpectedIndent(_) => 14,
            ParseFault::UnknownRuleVariable(_) => 15,
            ParseFault::NoCommand(_) => 16,
            ParseFault::BadPool(_) => 17,
            ParseFault::Validation(_) => 18,
            ParseFault::ExpectedLineEnd(_) => 19,
            ParseFault::Memory => 22,
            ParseFault::Text(fault) => fault.number(),
        }
    }

    /// Returns the offset of the byte at which the missing item was expected, or at which the wrong item is.
    /// Returns None for `Memory`.
    pub fn offset(&self) -> Option<u64>
        ensures { result ≡ offset_of self.now }
    {
        match self {
            ParseFault::ExpectedName(at)
            | ParseFault::ExpectedEquals(at)
            | ParseFault::ExpectedColon(at)
            | ParseFault::ExpectedPath(at)
            | ParseFault::UnexpectedIndent(at)
            | ParseFault::UnknownRuleVariable(at)
            | ParseFault::NoCommand(at)
            | ParseFault::BadPool(at)
            | ParseFault::Validation(at)
            | ParseFault::ExpectedLineEnd(at) => Some(*at),
            ParseFault::Memory => None,
            ParseFault::Text(fault) => fault.offset(),
        }
    }
}

impl From<AllocError> for ParseFault {
    ghost from_gives = { λ _ e. e ≡ Memory };

    fn from(_e: AllocError) -> ParseFault {
        ParseFault::Memory
    }
}

impl<T: Drop> From<AllocFailed<T>> for ParseFault {
    ghost from_gives = { λ _ e. e ≡ Memory };

    fn from(_e: AllocFailed<T>) -> ParseFault {
        ParseFault::Memory
    }
}
