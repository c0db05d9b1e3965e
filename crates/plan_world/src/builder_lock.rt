//! The lock that keeps a second builder from a record, and files that several processes use at once.

use crate::fault::DeviceFault;
use crate::holders::{holds_by_input, is_nested};
use crate::processes::{FileName, name_in, own_process};
use crate::stamp::stamp_at;
use crate::waiting::wait_for;
use std::alloc::Global;
use std::env::{self, Env, VarError};
use std::fs::{self, File, Metadata, OpenFile, OpenOptions, TryLockError};
use std::io::{self, ErrorKind, Seek, SeekFrom, Write};
use std::os::unix::fs::MetadataExt;
use std::process::Stdio;
use std::rt::Files;
use std::time::Clock;

/// The environment variable that names the builders above a command. Each name is `DEVICE:INODE:PROCESS:START`, with
/// blanks between the names: the device and the inode of the lock's file, the number of the builder's process, and the
/// time at which that process began.
pub const VARIABLE: &str = "PLAN_NINJA_RECORDS";

/// The lock of a record, held until this value is dropped or released, or the permission to work without the lock
/// because a builder above this one holds it. Commands share the lock.
#[derive(Drop)]
pub(crate) struct BuilderLock<F> {
    /// The file next to the record. None if a builder above holds its lock.
    file: Option<F>,
    /// The value of the variable for commands of this builder.
    names: String,
    /// Whether the standard input of this program holds the lock, so that its commands can hold it too.
    inherits: bool,
    /// The reason why the record may only be read, if no lock was taken for this reason.
    unwritable: Option<ErrorKind>,
    /// When the record was opened, if no lock was taken.
    opened: Option<u64>,
}

/// Returns the name of this builder, with the lock of a file. The last two numbers are 0 if the system doesn't show its
/// processes.
fn own_name<R: Files + AllocGlobal>(rt: &R, file: FileName) -> Result<String, DeviceFault> {
    let FileName { device, inode } = file;
    let (process, start) = match own_process(rt) {
        Some(own) => (own.number, own.start),
        None => (0, 0),
    };
    Ok(format!(in rt.alloc(); "{device}:{inode}:{process}:{start}")?)
}

/// Returns the names of the builders above.
fn names_above<R: Env + AllocGlobal>(rt: &R) -> Result<String, DeviceFault> {
    match env::var(rt, VARIABLE) {
        Ok(names) => Ok(names),
        Err(VarError::OutOfMemory) => Err(DeviceFault::Memory),
        Err(_) => Ok(String::new(rt.alloc())),
    }
}

/// Adds a name to others.
fn names_with(alloc: Global, names: &str, name: &str) -> Result<String, DeviceFault> {
    if names.is_empty() {
        return Ok(String::from_str(alloc, name)?);
    }
    Ok(format!(in alloc; "{names} {name}")?)
}

/// Refuses a lock that is a symbolic link, so that no file is created where the link points. A link that can't be read
/// can't be followed either.
fn refuse_link<R: Files + AllocGlobal>(rt: &R, path: &str) -> Result<(), DeviceFault> {
    match fs::read_link(rt, path) {
        Ok(_) => Err(DeviceFault::LinkedLock),
        Err(error) if error.kind() == ErrorKind::OutOfMemory => Err(DeviceFault::Memory),
        Err(_) => Ok(()),
    }
}

/// Opens the file of a lock, and creates it if it is missing. Commands read from its end on, so that they read nothing.
fn open_lock<R: Files + AllocGlobal>(rt: &R, path: &str) -> Result<R::File, DeviceFault>
where
    R::File: Seek + Drop,
{
    refuse_link(rt, path)?;
    let (file, _) = open_shared(rt, path)?;
    let mut file = file;
    file.seek(SeekFrom::End(0))?;
    Ok(file)
}

/// Takes the lock of a file unless a builder above this one holds it. Waits for any other builder, and for the commands
/// of a builder that was killed. Returns whether the lock was taken.
fn take_or_share<R: Files + Clock + Eprint + AllocGlobal + Clone + Drop>(
    rt: &R,
    record: &str,
    file: &R::File,
    name: FileName,
    above: &str,
) -> Result<bool, DeviceFault>
where
    R::File: SharedFile + Write + Drop,
{
    if file.try_lock()? {
        return Ok(true);
    }
    if is_nested(rt, above, name)? {
        return Ok(false);
    }
    wait_for(rt, record, file, name, above)?;
    Ok(true)
}

/// Takes the lock of a record, whose folder must exist. If another builder holds the lock, this builder waits. But if
/// it was started by a command of that builder, it goes on without the lock, since that builder waits for the command.
///
/// # Errors
/// `Device` if the lock's file, RECORD.lock, can't be opened or locked, if it is a symbolic link, or if the builder
/// that holds it waits for this one in another folder, and `Memory`.
pub(crate) fn take_lock<R: Files + Env + Clock + Eprint + AllocGlobal + Clone + Drop>(
    rt: &R,
    record: &str,
) -> Result<BuilderLock<R::File>, DeviceFault>
where
    R::File: Write + Seek + OpenFile + SharedFile + Drop,
{
    let path = format!(in rt.alloc(); "{record}.lock")?;
    let file = open_lock(rt, path.as_str())?;
    let above = names_above(rt)?;
    let name = name_in(&file.metadata()?);
    let is_taken = take_or_share(rt, record, &file, name, &above)?;
    let own = own_name(rt, name)?;
    let names = names_with(rt.alloc(), &above, &own)?;
    if is_taken {
        return Ok(BuilderLock::held(file, names));
    }
    drop(file);
    let inherits = inherits(rt, name)?;
    Ok(BuilderLock::shared(names, inherits))
}

/// Checks whether the standard input of this process holds the lock of a file.
fn inherits<R: Files + AllocGlobal>(rt: &R, file: FileName) -> Result<bool, DeviceFault> {
    match own_process(rt) {
        Some(own) => Ok(holds_by_input(rt, own.number, file)?),
        None => Ok(false),
    }
}

impl<F> BuilderLock<F> {
    /// Returns the lock of a file that was locked.
    fn held(file: F, names: String) -> BuilderLock<F> {
        BuilderLock {
            file: Some(file),
            names,
            inherits: false,
            unwritable: None,
            opened: None,
        }
    }

    /// Returns the permission to work without the lock.
    fn shared(names: String, inherits: bool) -> BuilderLock<F> {
        BuilderLock {
            file: None,
            names,
            inherits,
            unwritable: None,
            opened: None,
        }
    }

    /// Returns the permission to read the record at any time, and not to write it. `opened` is the time now, if it is
    /// known.
    pub(crate) fn reading(
        alloc: Global,
        unwritable: ErrorKind,
        opened: Option<u64>,
    ) -> BuilderLock<F> {
        BuilderLock {
            file: None,
            names: String::new(alloc),
            inherits: false,
            unwritable: Some(unwritable),
            opened,
        }
    }

    /// Returns the reason why the record may only be read, if no lock was taken for this reason.
    pub(crate) fn unwritable(&self) -> Option<ErrorKind> {
        self.unwritable
    }

    /// Checks whether this builder itself holds the lock, rather than a builder above it.
    pub(crate) fn is_held(&self) -> bool {
        self.file.is_some()
    }

    /// Returns the value of the variable for the commands of this builder.
    pub(crate) fn names(&self) -> &str {
        &self.names
    }
}

impl<F: OpenFile> BuilderLock<F> {
    /// Returns the time now, by the clock from which files of this file system get their stamps: that of the lock's
    /// file after it was set to the length that it has. For a builder that only reads, it is the time at which it
    /// opened the record. Returns None if a builder above holds the lock, or if that fails.
    pub(crate) fn now(&self) -> Option<u64> {
        let Some(file) = &self.file else {
            return self.opened;
        };
        match set_again(file) {
            Ok(found) => Some(stamp_at(found.mtime(), found.mtime_nsec())),
            Err(_) => None,
        }
    }
}

/// Sets a file to the length that it has, so that it counts as changed now. Returns its metadata after that.
fn set_again<F: OpenFile>(file: &F) -> io::Result<Metadata> {
    file.set_len(file.metadata()?.len())?;
    file.metadata()
}

impl<F: SharedFile> BuilderLock<F> {
    /// Returns the standard input of a command: the file of the lock, which the command then shares. So no other
    /// builder takes the lock until this one has released it, or until the last command has ended, if this builder is
    /// killed. A builder without the lock shares it by its own standard input, if that holds it.
    pub(crate) fn input(&self) -> io::Result<Stdio> {
        match &self.file {
            Some(file) => file.as_input(),
            None if self.inherits => Ok(Stdio::inherit()),
            None => Ok(Stdio::null()),
        }
    }

    /// Releases the lock, also for processes that commands left running.
    pub(crate) fn release(&self) {
        if let Some(file) = &self.file {
            let _ = file.unlock();
        }
    }
}

/// A file with a lock that one process holds at a time, or several that share the open file. The lock ends when it is
/// released, or when the last of them has closed the file, also if it is killed. A file system without locks grants
/// each one.
pub trait SharedFile {
    /// Waits for the lock and takes it.
    fn lock(&self) -> io::Result<()>;

    /// Takes the lock, and returns false if another process holds it.
    fn try_lock(&self) -> io::Result<bool>;

    /// Releases the lock, for all processes that share it.
    fn unlock(&self) -> io::Result<()>;

    /// Returns this file as the standard input of a process, which then shares the lock.
    fn as_input(&self) -> io::Result<Stdio>;
}

/// Checks whether this kind of error means that a file may not be written.
pub(crate) fn is_unwritable(kind: ErrorKind) -> bool {
    kind == ErrorKind::PermissionDenied || kind == ErrorKind::ReadOnlyFilesystem
}

/// Opens a file to read it and to append to it, and creates it if it is missing. A file that may not be written is
/// opened only to be read, and the reason is returned.
pub(crate) fn open_shared<R: Files>(
    rt: &R,
    path: &str,
) -> io::Result<(R::File, Option<ErrorKind>)> {
    let mut options = OpenOptions::new();
    options.read(true).append(true).create(true);
    match options.open(rt, path) {
        Ok(file) => Ok((file, None)),
        Err(error) if is_unwritable(error.kind()) => match fs::open(rt, path) {
            Ok(file) => Ok((file, Some(error.kind()))),
            Err(_) => Err(error),
        },
        Err(error) => Err(error),
    }
}

/// Turns the error of a file system that has no locks into success.
fn allow_lockless(locked: io::Result<()>) -> io::Result<()> {
    match locked {
        Err(error) if error.kind() == ErrorKind::Unsupported => Ok(()),
        locked => locked,
    }
}

impl SharedFile for File {
    fn lock(&self) -> io::Result<()> {
        allow_lockless(File::lock(self))
    }

    fn try_lock(&self) -> io::Result<bool> {
        match File::try_lock(self) {
            Ok(()) => Ok(true),
            Err(TryLockError::WouldBlock) => Ok(false),
            Err(TryLockError::Error(error)) => {
                allow_lockless(Err(error))?;
                Ok(true)
            }
        }
    }

    fn unlock(&self) -> io::Result<()> {
        allow_lockless(File::unlock(self))
    }

    fn as_input(&self) -> io::Result<Stdio> {
        Ok(Stdio::from(self.try_clone()?))
    }
}
