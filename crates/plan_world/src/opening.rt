//! Opens records: takes their locks, and looks at their stamps.

use crate::builder_lock::{BuilderLock, SharedFile, is_unwritable, take_lock};
use crate::fault::DeviceFault;
use crate::record_file::{RecordFile, open_file, open_record, read_as_is};
use crate::rewriting::compact_grown;
use crate::stamp::stamp_at;
use std::env::Env;
use std::fs::{self, OpenFile};
use std::io::{ErrorKind, Read, Seek, Write};
use std::os::unix::fs::MetadataExt;
use std::rt::Files;
use std::time::{Clock, SystemTime, UNIX_EPOCH};

/// A record of this many bytes or more isn't read when it is opened.
const LONG: u64 = 65_536;

/// Opens a record that is locked, reads it, and compacts it if it has grown. If no lock was taken, since the record
/// isn't written, it is only read.
pub(crate) fn open_locked<R: Files + AllocGlobal>(
    rt: &R,
    record: &str,
    lock: &BuilderLock<R::File>,
) -> Result<RecordFile<R::File>, DeviceFault>
where
    R::File: Read + Write + Seek + OpenFile + SharedFile + Drop,
{
    if let Some(unwritable) = lock.unwritable() {
        return read_as_is(rt, record, unwritable);
    }
    let file = open_record(rt, record)?;
    compact_grown(rt, record, lock, file)
}

/// A record that was opened for a build.
#[derive(Drop)]
pub(crate) struct Opened<F> {
    pub path: String,
    pub lock: BuilderLock<F>,
    /// The stamp that the record had before this builder changed it. None if it was missing or empty.
    pub stamp: Option<u64>,
    /// The record, or None if it is long and wasn't read.
    pub file: Option<RecordFile<F>>,
}

/// Returns the stamp of the record at a path. Returns None if it is missing or empty. A builder that holds the lock
/// writes the record and replaces its file.
fn written_stamp<R: Files>(rt: &R, record: &str) -> Result<Option<u64>, DeviceFault> {
    match fs::metadata(rt, record) {
        Ok(found) if found.len() > 0 => Ok(Some(stamp_at(found.mtime(), found.mtime_nsec()))),
        Ok(_) => Ok(None),
        Err(error) => match error.kind() {
            ErrorKind::NotFound => Ok(None),
            _ => Err(DeviceFault::from(error)),
        },
    }
}

/// Takes the lock of a record. Refuses folders, devices and pipes before it creates a lock. If the record or its lock
/// is missing and may not be created, no lock is taken, and the record is only read. Also returns whether the record
/// was long.
fn lock_or_read<R: Files + Env + Clock + Eprint + AllocGlobal + Clone + Drop>(
    rt: &R,
    record: &str,
) -> Result<(BuilderLock<R::File>, bool), DeviceFault>
where
    R::File: Read + Write + Seek + OpenFile + SharedFile + Drop,
{
    match lock_of(rt, record) {
        Err(DeviceFault::System(kind, _)) if is_unwritable(kind) => {
            Ok((BuilderLock::reading(rt.alloc(), kind, time_now(rt)), false))
        }
        taken => taken,
    }
}

/// Takes the lock of a record, and creates an empty record if it is missing. Also returns whether the record was long.
fn lock_of<R: Files + Env + Clock + Eprint + AllocGlobal + Clone + Drop>(
    rt: &R,
    record: &str,
) -> Result<(BuilderLock<R::File>, bool), DeviceFault>
where
    R::File: Read + Write + Seek + OpenFile + SharedFile + Drop,
{
    let (found, _) = open_file(rt, record)?;
    let is_long = found.metadata()?.len() >= LONG;
    drop(found);
    Ok((take_lock(rt, record)?, is_long))
}

/// Returns the time now as a stamp. Returns None if it isn't known.
fn time_now<R: Clock>(rt: &R) -> Option<u64> {
    let now = SystemTime::now(rt).ok()?;
    let since = now.duration_since(UNIX_EPOCH).ok()?;
    u64::try_from(since.as_nanos()).ok()
}

/// Looks at the stamp of a record, and reads the record if it is short. Takes no lock and creates nothing.
pub(crate) fn open_for_reading<R: Files + Clock + Eprint + AllocGlobal>(
    rt: &R,
    record: &str,
) -> Result<Opened<R::File>, DeviceFault>
where
    R::File: Read + Write + Seek + OpenFile + SharedFile + Drop,
{
    let lock = BuilderLock::reading(rt.alloc(), ErrorKind::PermissionDenied, time_now(rt));
    let stamp = written_stamp(rt, record)?;
    opened_with(rt, record, lock, stamp, is_long(rt, record))
}

/// Checks whether a record is so long that it isn't read when it is opened.
fn is_long<R: Files>(rt: &R, record: &str) -> bool {
    match fs::metadata(rt, record) {
        Ok(found) => found.len() >= LONG,
        Err(_) => false,
    }
}

/// Reads a record unless it was found to be long.
fn opened_with<R: Files + AllocGlobal>(
    rt: &R,
    record: &str,
    lock: BuilderLock<R::File>,
    stamp: Option<u64>,
    is_long: bool,
) -> Result<Opened<R::File>, DeviceFault>
where
    R::File: Read + Write + Seek + OpenFile + SharedFile + Drop,
{
    let path = String::from_str(rt.alloc(), record)?;
    let mut file = None;
    if !is_long {
        file = Some(open_locked(rt, record, &lock)?);
    }
    Ok(Opened {
        path,
        lock,
        stamp,
        file,
    })
}

/// Takes the lock of a record, looks at the record's stamp if it is asked for, and reads the record if it is short. A
/// nested builder doesn't look at the stamp, since the builder above it writes the record meanwhile.
pub(crate) fn open_for_building<R: Files + Env + Clock + Eprint + AllocGlobal + Clone + Drop>(
    rt: &R,
    record: &str,
    wants_stamp: bool,
) -> Result<Opened<R::File>, DeviceFault>
where
    R::File: Read + Write + Seek + OpenFile + SharedFile + Drop,
{
    let (lock, is_long) = lock_or_read(rt, record)?;
    let mut stamp = None;
    if wants_stamp && (lock.is_held() || lock.unwritable().is_some()) {
        stamp = written_stamp(rt, record)?;
    }
    opened_with(rt, record, lock, stamp, is_long)
}
