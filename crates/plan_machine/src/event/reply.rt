//! Replies: answers from outside to the question of an edge.

ghost use Rattle.std.specs.Prelude.{◌≡◌, IfOk};
ghost use Rattle.plan_depfile.specs.Depfile.{depfile_of};

use plan_depfile::{DepFault, Parsed, Paths};
use plan_verify::{PathList, Words};
use std::alloc::{AllocError, Global};
use std::marker::Model;
use std::sync::Arc;

/// The parts of the record's entry for an output.
#[derive(Drop)]
pub(crate) struct RecordedParts {
    command: Words,
    basis: u64,
    paths: PathList,
}

/// The record's entry for an output: its command, its basis (the greatest stamp that the command read), and its
/// dependencies. Copies share it.
#[derive(Drop)]
pub struct Recorded {
    parts: Arc<RecordedParts, Global>,
}

impl Model for Recorded {
    ghost use Rattle.std.specs.Arc.{arc_value};
    ghost use Rattle.plan_machine.specs.Recording.{Recording};

    ghost Value = { Recording };

    ghost view = { λ r. record { command = (arc_value r.parts).command; basis = (arc_value r.parts).basis; paths = (arc_value r.parts).paths } };
}

impl Recorded {
    /// Creates an entry from its parts.
    pub fn new(
        alloc: Global,
        command: Words,
        basis: u64,
        paths: PathList,
    ) -> Result<Recorded, AllocError>
        ensures { IfOk result (λ r. r ≡ record { command = command; basis = basis; paths = paths }) }
    {
        let parts = Arc::new(
            alloc,
            RecordedParts {
                command,
                basis,
                paths,
            },
        )?;
        Ok(Recorded { parts })
    }

    /// Borrows the command.
    pub fn command(&self) -> &Words
        ensures { result.now ≡ self.now.command }
    {
        &self.parts.command
    }

    /// Returns the basis: the greatest stamp that the command read.
    pub fn basis(&self) -> u64
        ensures { result ≡ self.now.basis }
    {
        self.parts.basis
    }

    /// Borrows the dependencies.
    pub fn paths(&self) -> &PathList
        ensures { result.now ≡ self.now.paths }
    {
        &self.parts.paths
    }

    /// Returns a copy, which shares the parts.
    pub fn copy(&self) -> Result<Recorded, AllocError>
        ensures { IfOk result (λ r. r ≡ self.now) }
    {
        Ok(Recorded {
            parts: Arc::try_clone(&self.parts)?,
        })
    }
}

/// The parts of a depfile: its bytes, and the result of parsing them, if it is stored.
#[derive(Drop)]
pub(crate) struct DepfileParts {
    bytes: Words,
    result: Option<Result<PathList, DepFault>>,
}

/// A depfile. A contract sees its bytes. It also stores the result of parsing them, unless it is a journal's
/// copy, which has only the bytes. Copies share both.
#[derive(Drop)]
pub struct Depfile {
    parts: Arc<DepfileParts, Global>,
}

impl Model for Depfile {
    ghost use Rattle.std.specs.Prelude.{◌≡◌, IfSome, List, ℕ};
    ghost use Rattle.std.specs.Arc.{arc_value};
    ghost use Rattle.plan_depfile.specs.Depfile.{depfile_of};

    ghost Value = { List ℕ };

    ghost view = { λ d. (arc_value d.parts).bytes };

    ghost invariant = { λ d. IfSome (arc_value d.parts).result (λ r. r ≡ depfile_of (arc_value d.parts).bytes) };
}

/// Converts the result of parsing a depfile to one whose paths can be shared.
fn shared_result(
    alloc: Global,
    found: Result<Paths, DepFault>,
) -> Result<Result<PathList, DepFault>, AllocError>
    ensures { IfOk result (λ r. r ≡ found) }
{
    match found {
        Ok(paths) => Ok(Ok(PathList::new(alloc, paths.into_rows())?)),
        Err(fault) => Ok(Err(fault)),
    }
}

/// Parses the bytes of a depfile.
fn read_result(alloc: Global, bytes: &[u8]) -> Result<Result<PathList, DepFault>, AllocError>
    ensures { IfOk result (λ r. r ≡ depfile_of bytes.now) }
{
    match Parsed::of(alloc, Vec::from_slice(alloc, bytes)?) {
        Ok(parsed) => shared_result(alloc, parsed.into_parts().1),
        Err(_) => Err(AllocError),
    }
}

impl Depfile {
    /// Creates a depfile that can be shared.
    pub fn new(alloc: Global, parsed: Parsed) -> Result<Depfile, AllocError>
        ensures { IfOk result (λ d. d ≡ parsed) }
    {
        let (bytes, result) = parsed.into_parts();
        let bytes = Words::new(alloc, bytes)?;
        let result = Some(shared_result(alloc, result)?);
        let parts = Arc::new(alloc, DepfileParts { bytes, result })?;
        Ok(Depfile { parts })
    }

    /// Borrows the bytes.
    pub fn bytes(&self) -> &[u8]
        ensures { result.now ≡ self.now }
    {
        self.parts.bytes.as_slice()
    }

    /// Returns its paths, which are shared, or its fault. If the depfile doesn't store them, it is parsed
    /// again.
    ///
    /// # Errors
    ///
    /// Memory ran out.
    pub fn result(&self, alloc: Global) -> Result<Result<PathList, DepFault>, AllocError>
        ensures { IfOk result (λ r. r ≡ depfile_of self.now) }
    {
        match &self.parts.result {
            Some(Ok(paths)) => Ok(Ok(paths.copy()?)),
            Some(Err(fault)) => Ok(Err(*fault)),
            None => read_result(alloc, self.bytes()),
        }
    }

    /// Returns a copy, which shares the parts.
    pub fn copy(&self) -> Result<Depfile, AllocError>
        ensures { IfOk result (λ d. d ≡ self.now) }
    {
        Ok(Depfile {
            parts: Arc::try_clone(&self.parts)?,
        })
    }

    /// Returns a copy without the parsed paths, which shares the bytes.
    ///
    /// # Errors
    ///
    /// Memory ran out.
    pub(crate) fn bytes_alone(&self, alloc: Global) -> Result<Depfile, AllocError>
        ensures { IfOk result (λ d. d ≡ self.now) }
    {
        let bytes = self.parts.bytes.copy()?;
        let result = None;
        let parts = Arc::new(alloc, DepfileParts { bytes, result })?;
        Ok(Depfile { parts })
    }
}

/// An answer from outside to the question of an edge. It takes 16 bytes.
#[derive(Drop)]
pub enum Reply {
    /// The time at which a file was last changed, or 0 if it is missing.
    Stamp(u64),
    /// The record's entry for an output.
    Entry(Recorded),
    /// The record has no entry for the output, or there is no depfile.
    Nothing,
    /// A command ended with this status.
    Exit(u8),
    /// A signal ended a command.
    Signal,
    /// A command couldn't be started.
    NotStarted,
    /// A depfile.
    Bytes(Depfile),
    /// The entry was written to the record.
    Kept,
    /// A file's stamp, a depfile or the record couldn't be read or written.
    Fault,
}

impl Reply {
    /// Returns a copy, which shares entries and depfiles.
    pub fn copy(&self) -> Result<Reply, AllocError>
        ensures { IfOk result (λ r. r ≡ self.now) }
    {
        match self {
            Reply::Stamp(stamp) => Ok(Reply::Stamp(*stamp)),
            Reply::Entry(recorded) => Ok(Reply::Entry(recorded.copy()?)),
            Reply::Nothing => Ok(Reply::Nothing),
            Reply::Exit(status) => Ok(Reply::Exit(*status)),
            Reply::Signal => Ok(Reply::Signal),
            Reply::NotStarted => Ok(Reply::NotStarted),
            Reply::Bytes(depfile) => Ok(Reply::Bytes(depfile.copy()?)),
            Reply::Kept => Ok(Reply::Kept),
            Reply::Fault => Ok(Reply::Fault),
        }
    }

    /// Returns a copy for a journal: a depfile loses its parsed paths. It shares entries and the bytes of
    /// depfiles.
    ///
    /// # Errors
    ///
    /// Memory ran out.
    pub fn copy_for_journal(&self, alloc: Global) -> Result<Reply, AllocError>
        ensures { IfOk result (λ r. r ≡ self.now) }
    {
        match self {
            Reply::Bytes(depfile) => Ok(Reply::Bytes(depfile.bytes_alone(alloc)?)),
            reply => reply.copy(),
        }
    }
}
