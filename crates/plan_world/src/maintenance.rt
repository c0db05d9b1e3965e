//! Rewrites records between builds, and lists their outputs.

use crate::builder_lock::{BuilderLock, SharedFile, is_unwritable, take_lock};
use crate::fault::{DeviceFault, OpenFault};
use crate::reasons::say;
use crate::record_file::{RecordFile, open_file, open_record, read_as_is};
use crate::record_sink::read_among;
use crate::rewriting::{compact, restate};
use plan_text::{PathFilter, RowList};
use std::alloc::{AllocError, Global};
use std::env::Env;
use std::fs::{self, OpenFile};
use std::io::{ErrorKind, Read, Seek, Write};
use std::rt::Files;
use std::time::Clock;

/// Takes the lock of a record, and opens the record. If it isn't a file, no lock is created.
pub(crate) fn locked_record<R: Files + Env + Clock + Eprint + AllocGlobal + Clone + Drop>(
    rt: &R,
    record: &str,
) -> Result<(BuilderLock<R::File>, RecordFile<R::File>), DeviceFault>
where
    R::File: Read + Write + Seek + OpenFile + SharedFile + Drop,
{
    drop(open_file(rt, record)?);
    let lock = take_lock(rt, record)?;
    Ok((lock, open_record(rt, record)?))
}

/// How a record is opened to be read between builds.
#[derive(Clone, Copy, PartialEq, Eq)]
pub enum ReadingMode {
    /// Waits while a builder uses the record, unless its lock may not be created.
    Waiting,
    /// Reads the record as it is now, also while a builder uses it. Creates no lock.
    AsIs,
}

/// Opens a record to read it.
fn opened_to_read<R: Files + Env + Clock + Eprint + AllocGlobal + Clone + Drop>(
    rt: &R,
    record: &str,
    mode: ReadingMode,
) -> Result<RecordFile<R::File>, DeviceFault>
where
    R::File: Read + Write + Seek + OpenFile + SharedFile + Drop,
{
    if mode == ReadingMode::AsIs {
        return read_as_is(rt, record, ErrorKind::PermissionDenied);
    }
    match locked_record(rt, record) {
        Ok((_lock, file)) => Ok(file),
        Err(DeviceFault::System(kind, _)) if is_unwritable(kind) => read_as_is(rt, record, kind),
        Err(fault) => Err(fault),
    }
}

/// Returns the result of a request. If the record can't be changed or read, reports the reason on standard error.
fn report_fault<T, R: Eprint>(
    rt: &R,
    what: &str,
    record: &str,
    done: Result<T, DeviceFault>,
) -> Result<T, OpenFault> {
    match done {
        Ok(done) => Ok(done),
        Err(fault) => {
            say(rt, what, record.as_bytes(), fault);
            Err(OpenFault::from(fault))
        }
    }
}

/// Compacts a record, if it exists.
fn recompact_file<R: Files + Env + Clock + Eprint + AllocGlobal + Clone + Drop>(
    rt: &R,
    record: &str,
) -> Result<(), DeviceFault>
where
    R::File: Read + Write + Seek + OpenFile + SharedFile + Drop,
{
    if !fs::exists(rt, record)? {
        return Ok(());
    }
    let (lock, mut file) = locked_record(rt, record)?;
    if lock.is_held() {
        compact(rt, record, &mut file)?;
    }
    Ok(())
}

/// Rewrites a record, so that it has only the last entry of each output. If there is no record, none is created.
///
/// Waits while a builder uses the record. If this program was started by a command of that builder, the record stays as
/// it is.
///
/// # Errors
/// `Device` if the record or its lock can't be opened, read or locked, or if the new file can't be written, and
/// `Memory`. After an error the record is unchanged.
pub fn recompact<R: Files + Env + Clock + Eprint + AllocGlobal + Clone + Drop>(
    rt: &R,
    record: &str,
) -> Result<(), OpenFault>
where
    R::File: Read + Write + Seek + OpenFile + SharedFile + Drop,
{
    report_fault(
        rt,
        "can't rewrite the record",
        record,
        recompact_file(rt, record),
    )
}

/// Restates a record, if it exists.
fn restat_file<R: Files + Env + Clock + Eprint + AllocGlobal + Clone + Drop>(
    rt: &R,
    record: &str,
    outputs: &[&[u8]],
) -> Result<(), DeviceFault>
where
    R::File: Read + Write + Seek + OpenFile + SharedFile + Drop,
{
    if !fs::exists(rt, record)? {
        return Ok(());
    }
    let (lock, mut file) = locked_record(rt, record)?;
    if lock.is_held() {
        restate(rt, record, &mut file, outputs)?;
    }
    Ok(())
}

/// Rewrites a record as `recompact` does. The basis of the last entry of each of these outputs, or of all outputs if
/// none is named, becomes the stamp that the output's file has now, or 0 if it is missing. An entry that says that its
/// edge was begun stays as it is.
///
/// # Errors
/// As for `recompact`, and `Device` if the stamp of an output can't be determined.
pub fn restat<R: Files + Env + Clock + Eprint + AllocGlobal + Clone + Drop>(
    rt: &R,
    record: &str,
    outputs: &[&[u8]],
) -> Result<(), OpenFault>
where
    R::File: Read + Write + Seek + OpenFile + SharedFile + Drop,
{
    report_fault(
        rt,
        "can't rewrite the record",
        record,
        restat_file(rt, record, outputs),
    )
}

/// Returns the outputs of a record. Returns no outputs if it doesn't exist.
fn outputs_of_file<R: Files + Env + Clock + Eprint + AllocGlobal + Clone + Drop>(
    rt: &R,
    record: &str,
    mode: ReadingMode,
) -> Result<RowList<u8>, DeviceFault>
where
    R::File: Read + Write + Seek + OpenFile + SharedFile + Drop,
{
    if !fs::exists(rt, record)? {
        return Ok(RowList::new(rt.alloc()));
    }
    opened_to_read(rt, record, mode)?.outputs(rt.alloc())
}

/// Returns the outputs that a record has entries of, each once, in the order of their last entries. If the record
/// doesn't exist, returns no outputs, and creates no record.
///
/// If it waits, it doesn't wait for a builder by whose command this program was started.
///
/// # Errors
/// `Device` if the record or its lock can't be opened, read or locked, and `Memory`.
pub fn recorded_outputs<R: Files + Env + Clock + Eprint + AllocGlobal + Clone + Drop>(
    rt: &R,
    record: &str,
    mode: ReadingMode,
) -> Result<RowList<u8>, OpenFault>
where
    R::File: Read + Write + Seek + OpenFile + SharedFile + Drop,
{
    report_fault(
        rt,
        "can't read the record",
        record,
        outputs_of_file(rt, record, mode),
    )
}

/// Appends some paths to others.
fn push_all(paths: &RowList<u8>, all: &mut RowList<u8>) -> Result<(), AllocError> {
    for number in 0..paths.len() {
        all.push(paths.row(number))?;
    }
    Ok(())
}

/// Appends those paths of the last entry of an output that may be in a set. A start entry has those that it keeps.
fn push_recorded<F>(
    alloc: Global,
    file: &RecordFile<F>,
    output: &[u8],
    wanted: &PathFilter,
    found: &mut RowList<u8>,
) -> Result<(), DeviceFault> {
    let Some(entry) = file.last(alloc, output)? else {
        return Ok(());
    };
    let paths = read_among(alloc, &entry, wanted)?;
    Ok(push_all(&paths, found)?)
}

/// Returns those paths of the last entries of these outputs in a record that may be in a set.
fn paths_of_record<F>(
    alloc: Global,
    file: &RecordFile<F>,
    outputs: &RowList<u8>,
    wanted: &PathFilter,
) -> Result<RowList<u8>, DeviceFault> {
    let mut found = RowList::new(alloc);
    for number in 0..outputs.len() {
        push_recorded(alloc, file, outputs.row(number), wanted, &mut found)?;
    }
    Ok(found)
}

/// Returns those paths of the last entries of these outputs that may be in a set. Returns none if the record doesn't
/// exist.
fn paths_of_file<R: Files + Env + Clock + Eprint + AllocGlobal + Clone + Drop>(
    rt: &R,
    record: &str,
    mode: ReadingMode,
    outputs: &RowList<u8>,
    wanted: &PathFilter,
) -> Result<RowList<u8>, DeviceFault>
where
    R::File: Read + Write + Seek + OpenFile + SharedFile + Drop,
{
    if !fs::exists(rt, record)? {
        return Ok(RowList::new(rt.alloc()));
    }
    let file = opened_to_read(rt, record, mode)?;
    paths_of_record(rt.alloc(), &file, outputs, wanted)
}

/// Returns those paths that may be in a set and that the last commands of the edges with these first outputs read: the
/// paths of their entries, in order. The set may say too often that it has a path. If a command failed or didn't end,
/// these are the paths that its start entry keeps. If the record doesn't exist, returns no paths, and creates no record.
///
/// Waits like `recorded_outputs`.
///
/// # Errors
/// As for `recorded_outputs`.
pub fn recorded_paths<R: Files + Env + Clock + Eprint + AllocGlobal + Clone + Drop>(
    rt: &R,
    record: &str,
    mode: ReadingMode,
    outputs: &RowList<u8>,
    wanted: &PathFilter,
) -> Result<RowList<u8>, OpenFault>
where
    R::File: Read + Write + Seek + OpenFile + SharedFile + Drop,
{
    report_fault(
        rt,
        "can't read the record",
        record,
        paths_of_file(rt, record, mode, outputs, wanted),
    )
}
