//! Errors of the real world.

ghost use Rattle.std.specs.Prelude.{◌≡◌, ◌↔◌, IfOk, IsErr};
ghost use Rattle.std.specs.IoError.{error_kind};
ghost use Rattle.plan_world.specs.Faults.{IsToldOf};

use plan_machine::Reply;
use plan_record::EntryFault;
use plan_text::Memory as NoMemory;
use std::alloc::{AllocError, AllocFailed};
use std::fmt::{self, Display, Formatter};
use std::io::{self, ErrorKind};
use thiserror::Error;

/// The reason why a record can't be opened.
#[derive(Clone, Copy, Debug, PartialEq, Eq, Error)]
pub enum OpenFault {
    /// Memory ran out. The record may be intact.
    #[error("memory ran out")]
    Memory,
    /// The record's file can't be created, read or cut.
    #[error("the record can't be opened")]
    Device,
}

impl From<DeviceFault> for OpenFault {
    ghost use Rattle.std.specs.Prelude.{◌≡◌, ◌↔◌};
    ghost use Rattle.plan_world.specs.declared.fault.DeviceFault.TheVariants as device;
    ghost use Rattle.plan_world.specs.declared.fault.OpenFault.TheVariants.{Memory};

    ghost from_gives = { λ x e. (e ≡ Memory) ↔ (x ≡ device.Memory) };

    fn from(fault: DeviceFault) -> OpenFault {
        match fault {
            DeviceFault::Memory => OpenFault::Memory,
            _ => OpenFault::Device,
        }
    }
}

/// The reason why a file can't be read or written.
#[derive(Clone, Copy, Debug, PartialEq, Eq, Error)]
pub(crate) enum DeviceFault {
    /// Memory ran out. The file may be intact.
    #[error("memory ran out")]
    Memory,
    /// The call was refused for this reason. The number is that of the system's error, or 0 if the system wasn't asked.
    #[error("{words}", words = Words(*.0, *.1))]
    System(ErrorKind, i32),
    /// One of the parts is too long for an entry.
    #[error("a path or a command is too long")]
    TooLong,
    /// The file isn't empty, and doesn't begin like a record.
    #[error("it is no build record")]
    NoRecord,
    /// The record can't be written any more: its file was removed, or an earlier cut of the file failed.
    #[error("the build record was lost")]
    Lost,
    /// The lock of the record is a symbolic link.
    #[error("its lock is a symbolic link")]
    LinkedLock,
    /// The builder that holds the lock of the record waits for this one, in another folder.
    #[error("the build that uses it waits for this one")]
    Circle,
}

impl From<AllocError> for DeviceFault {
    ghost use Rattle.std.specs.Prelude.{◌≡◌};
    ghost use Rattle.plan_world.specs.declared.fault.DeviceFault.TheVariants.{Memory};

    ghost from_gives = { λ _ e. e ≡ Memory };

    fn from(_fault: AllocError) -> DeviceFault {
        DeviceFault::Memory
    }
}

impl<T: Drop> From<AllocFailed<T>> for DeviceFault {
    ghost use Rattle.std.specs.Prelude.{◌≡◌};
    ghost use Rattle.plan_world.specs.declared.fault.DeviceFault.TheVariants.{Memory};

    ghost from_gives = { λ _ e. e ≡ Memory };

    fn from(_fault: AllocFailed<T>) -> DeviceFault {
        DeviceFault::Memory
    }
}

impl From<NoMemory> for DeviceFault {
    ghost use Rattle.std.specs.Prelude.{◌≡◌};
    ghost use Rattle.plan_world.specs.declared.fault.DeviceFault.TheVariants.{Memory};

    ghost from_gives = { λ _ e. e ≡ Memory };

    fn from(_fault: NoMemory) -> DeviceFault {
        DeviceFault::Memory
    }
}

impl From<EntryFault> for DeviceFault {
    ghost use Rattle.std.specs.Prelude.{◌≡◌, ◌↔◌};
    ghost use Rattle.plan_record.specs.declared.fault.EntryFault.TheVariants as entry;
    ghost use Rattle.plan_world.specs.declared.fault.DeviceFault.TheVariants.{Memory};

    ghost from_gives = { λ x e. (e ≡ Memory) ↔ (x ≡ entry.Memory) };

    fn from(fault: EntryFault) -> DeviceFault {
        match fault {
            EntryFault::OutsideLimits => DeviceFault::TooLong,
            EntryFault::Memory => DeviceFault::Memory,
        }
    }
}

impl From<io::Error> for DeviceFault {
    ghost use Rattle.std.specs.Prelude.{◌≡◌, ◌↔◌};
    ghost use Rattle.std.specs.IoError.{error_kind};
    ghost use Rattle.std.specs.declared.io.ErrorKind.TheVariants.{OutOfMemory};
    ghost use Rattle.plan_world.specs.declared.fault.DeviceFault.TheVariants.{Memory};

    ghost from_gives = { λ x e. (e ≡ Memory) ↔ (error_kind x ≡ OutOfMemory) };

    fn from(error: io::Error) -> DeviceFault {
        match error.kind() {
            ErrorKind::OutOfMemory => DeviceFault::Memory,
            kind => DeviceFault::System(kind, error.raw_os_error().unwrap_or(0)),
        }
    }
}

/// Writes a reason of the system: in the words of the C library, with the number, or in those of the kind if there is
/// no number.
#[derive(Clone, Copy)]
struct Words(ErrorKind, i32);

impl Display for Words {
    fn fmt<W: fmt::Write>(&self, f: &mut Formatter<W>) -> fmt::Result {
        if self.1 == 0 {
            return self.0.fmt(f);
        }
        io::Error::from_raw_os_error(self.1).fmt(f)
    }
}

impl DeviceFault {
    /// Returns the reply to a question that failed with this fault: `otherwise`, or an error if memory ran out.
    pub(crate) fn or_reply(self, otherwise: Reply) -> Result<Reply, AllocError>
        ensures memory { IsErr result ↔ (self ≡ DeviceFault.Memory) }
        ensures device { IfOk result (λ r. r ≡ otherwise) }
    {
        match self {
            DeviceFault::Memory => Err(AllocError),
            _ => Ok(otherwise),
        }
    }
}

/// Returns the reply for a file that can't be read or looked up: `missing` if it doesn't exist, otherwise `Fault`.
pub(crate) fn without(error: io::Error, missing: Reply) -> Result<Reply, AllocError>
    ensures memory { IsErr result ↔ (error_kind error ≡ ErrorKind.OutOfMemory) }
    ensures told { IfOk result (λ r. IsToldOf (error_kind error) missing r) }
{
    match error.kind() {
        ErrorKind::NotFound | ErrorKind::NotADirectory => Ok(missing),
        ErrorKind::OutOfMemory => Err(AllocError),
        _ => Ok(Reply::Fault),
    }
}
