//! Faults of manifests.

ghost use Rattle.std.specs.Prelude.{◌≡◌};
ghost use Rattle.plan_scope.specs.Faults.{cause_number, number_of};
ghost use Rattle.plan_scope.specs.declared.fault.StatementFault.TheVariants as statement;
ghost use Rattle.plan_scope.specs.declared.fault.ScopeFault.TheVariants as scope;

use plan_parse::ParseFault;
use plan_text::Items;
use std::alloc::{AllocError, AllocFailed};

/// The reason why a statement is refused.
#[derive(Clone, Copy, PartialEq, Eq)]
pub enum Cause {
    /// 64 files are open already: the statement's own and those that include it.
    IncludeDepth,
    /// A rule with this name is above in the same scope, or the name is `phony`.
    DuplicateRule,
    /// No visible rule above has this name.
    UnknownRule,
    /// A pool with this name is above, or the name is `console`.
    DuplicatePool,
    /// The tree has no pool with this name.
    UnknownPool,
    /// A variable of a rule refers to itself, directly or through other variables.
    RuleCycle,
    /// A path has no bytes.
    EmptyPath,
    /// A `dyndep` isn't empty.
    Dyndep,
    /// An `rspfile` isn't empty.
    Rspfile,
    /// A `deps` is neither empty nor `gcc`.
    DepsKind,
    /// A path has more than 4,096 bytes.
    PathTooLong,
    /// A text has more than 1,048,576 bytes.
    TextTooLong,
    /// A `depth` isn't one to seven digits, or is above 1,000,000.
    BadDepth,
}

impl Cause {
    /// Returns the number under which the cause is printed.
    pub fn number(&self) -> u8
        ensures { result ≡ cause_number self.now }
    {
        match self {
            Cause::IncludeDepth => 21,
            Cause::DuplicateRule => 30,
            Cause::UnknownRule => 31,
            Cause::DuplicatePool => 32,
            Cause::UnknownPool => 33,
            Cause::RuleCycle => 34,
            Cause::EmptyPath => 35,
            Cause::Dyndep => 36,
            Cause::Rspfile => 37,
            Cause::DepsKind => 38,
            Cause::PathTooLong => 39,
            Cause::TextTooLong => 40,
            Cause::BadDepth => 42,
        }
    }
}

/// The reason why a manifest can't be loaded or evaluated.
#[derive(Drop)]
pub enum ScopeFault {
    /// The file at this path is missing or can't be read.
    SourceMissing(Items<u8>),
    /// The bytes of the file at this path aren't a list of statements. Running out of memory is reported as
    /// `LoadMemory`.
    Parse(Items<u8>, ParseFault),
    /// The statement at this offset of the file at this path is refused.
    Refused(Items<u8>, u64, Cause),
    /// Memory ran out while the files were loaded.
    LoadMemory,
    /// Memory ran out while the statements were evaluated.
    Memory,
}

impl ScopeFault {
    /// Returns the number under which the fault is printed: 20 for a missing file, 22 and 41 for memory, or else the
    /// number of the parser's fault or of the cause.
    pub fn number(&self) -> u8
        ensures { result ≡ number_of self.now }
    {
        match self {
            ScopeFault::SourceMissing(_) => 20,
            ScopeFault::Parse(_, fault) => fault.number(),
            ScopeFault::Refused(_, _, cause) => cause.number(),
            ScopeFault::LoadMemory => 22,
            ScopeFault::Memory => 41,
        }
    }
}

/// The reason why a statement adds nothing.
#[derive(Clone, Copy)]
pub enum StatementFault {
    /// The statement is refused.
    Refused(Cause),
    /// Memory ran out.
    Memory,
}

impl From<AllocError> for StatementFault {
    ghost from_gives = { λ _ e. e ≡ statement.Memory };

    fn from(_e: AllocError) -> StatementFault {
        StatementFault::Memory
    }
}

impl<T: Drop> From<AllocFailed<T>> for StatementFault {
    ghost from_gives = { λ _ e. e ≡ statement.Memory };

    fn from(_e: AllocFailed<T>) -> StatementFault {
        StatementFault::Memory
    }
}

impl From<AllocError> for ScopeFault {
    ghost from_gives = { λ _ e. e ≡ scope.Memory };

    fn from(_e: AllocError) -> ScopeFault {
        ScopeFault::Memory
    }
}

/// The reason why the statements of a file can't be read.
#[derive(Clone, Copy)]
pub enum ReadFault {
    /// The file is missing or can't be read.
    Missing,
    /// Its bytes aren't a list of statements.
    Parse(ParseFault),
    /// Memory ran out.
    Memory,
}
