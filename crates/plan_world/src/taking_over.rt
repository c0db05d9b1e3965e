//! Moves the entries of a manifest from the record that it used before to a record of its own.

use crate::builder_lock::{BuilderLock, SharedFile};
use crate::fault::{DeviceFault, OpenFault};
use crate::maintenance::locked_record;
use crate::ninja_log::NinjaLog;
use crate::reasons::say;
use crate::record_file::RecordFile;
use crate::record_sink::outputs_of;
use crate::replacing::{Changed, create_like, put_in_place, replace_file};
use plan_record::{Entry, spellings};
use plan_text::PathFilter;
use std::alloc::Global;
use std::env::Env;
use std::fs::{self, Metadata, OpenFile};
use std::io::{Read, Seek, Write};
use std::rt::Files;
use std::time::Clock;

/// The entries of a record in two lists.
#[derive(Drop)]
struct Parted {
    /// The entries that another record takes over.
    taken: Vec<Entry>,
    /// The entries that stay.
    left: Vec<Entry>,
}

/// Parts entries by whether their outputs may be in a set.
fn part(alloc: Global, entries: Vec<Entry>, own: &PathFilter) -> Result<Parted, DeviceFault> {
    let mut taken = Vec::new(alloc);
    let mut left = Vec::new(alloc);
    for entry in entries {
        if own.may_have(entry.output()) {
            taken.push(entry)?;
        } else {
            left.push(entry)?;
        }
    }
    Ok(Parted { taken, left })
}

/// Replaces a record's file by one with these entries, and with its date. Removes it if there are none.
fn leave<R: Files + AllocGlobal>(
    rt: &R,
    record: &str,
    entries: &[Entry],
    like: &Metadata,
) -> Result<(), DeviceFault> {
    if entries.is_empty() {
        fs::remove_file(rt, record)?;
        return Ok(());
    }
    let bytes = spellings(rt.alloc(), entries)?;
    replace_file(rt, record, &bytes, like, Changed::AsBefore)
}

/// Creates a record with these entries, after they were taken out of another one. So no entry is ever in both.
fn put<R: Files + AllocGlobal>(
    rt: &R,
    from: &str,
    to: &str,
    parted: &Parted,
    like: &Metadata,
) -> Result<(), DeviceFault> {
    let new = format!(in rt.alloc(); "{to}.new")?;
    let bytes = spellings(rt.alloc(), &parted.taken)?;
    let written = create_like(rt, new.as_str(), &bytes, like, Changed::AsBefore)?;
    match leave(rt, from, &parted.left, like) {
        Ok(()) => put_in_place(rt, new.as_str(), to, written),
        Err(fault) => {
            let _ = fs::remove_file(rt, new.as_str());
            Err(fault)
        }
    }
}

/// Moves those entries of a record whose outputs may be in a set to a new one. The caller must hold the lock of the
/// record and that of its file. The new record has the date of the old one: no command ran, so an output that is later
/// was still written by something else. In the folder of the new record, ninja's log has no lines of these outputs yet.
fn move_entries<R: Files + AllocGlobal>(
    rt: &R,
    from: &str,
    to: &str,
    own: &PathFilter,
    file: &mut RecordFile<R::File>,
) -> Result<(), DeviceFault>
where
    R::File: Read + Write + Seek + OpenFile + SharedFile + Drop,
{
    let alloc = rt.alloc();
    file.catch_up(alloc)?;
    let parted = part(alloc, file.last_entries(alloc)?, own)?;
    let outputs = outputs_of(alloc, &parted.taken)?;
    NinjaLog::next_to(alloc, to)?.mark(rt, &outputs)?;
    put(rt, from, to, &parted, &file.metadata()?)
}

/// Moves entries like `take_over`, from a record whose lock this builder has asked for. Does nothing if a builder above
/// this one holds it.
fn take_held<R: Files + AllocGlobal>(
    rt: &R,
    from: &str,
    to: &str,
    own: &PathFilter,
    lock: &BuilderLock<R::File>,
    file: &mut RecordFile<R::File>,
) -> Result<(), DeviceFault>
where
    R::File: Read + Write + Seek + OpenFile + SharedFile + Drop,
{
    if !lock.is_held() || fs::exists(rt, to)? {
        return Ok(());
    }
    file.lock()?;
    let moved = move_entries(rt, from, to, own, file);
    file.unlock();
    moved
}

/// Moves entries like `take_over`, from a record that is there. Asks for its lock first.
fn take_locked<R: Files + Env + Clock + Eprint + AllocGlobal + Clone + Drop>(
    rt: &R,
    from: &str,
    to: &str,
    own: &PathFilter,
) -> Result<(), DeviceFault>
where
    R::File: Read + Write + Seek + OpenFile + SharedFile + Drop,
{
    let (lock, mut file) = locked_record(rt, from)?;
    take_held(rt, from, to, own, &lock, &mut file)
}

/// Moves entries like `take_over`.
fn take<R: Files + Env + Clock + Eprint + AllocGlobal + Clone + Drop>(
    rt: &R,
    from: &str,
    to: &str,
    own: &PathFilter,
) -> Result<(), DeviceFault>
where
    R::File: Read + Write + Seek + OpenFile + SharedFile + Drop,
{
    if fs::exists(rt, to)? || !fs::exists(rt, from)? {
        return Ok(());
    }
    take_locked(rt, from, to, own)
}

/// Moves the entries of the outputs in a set from one record to another one, which must not exist yet. The set may say
/// too often that it has an output. The other entries stay. If none stays, the old record is removed. The outputs that
/// are moved become out of date for ninja, if its log is next to the new record.
///
/// Does nothing if the new record exists, if there is no old record, or if a builder above this one uses it. Otherwise
/// waits while another builder uses the old record. A kill at any time leaves no entry in both records.
///
/// # Errors
/// `Device` if a record can't be locked, read or written, and `Memory`. The reason is reported on standard error.
pub fn take_over<R: Files + Env + Clock + Eprint + AllocGlobal + Clone + Drop>(
    rt: &R,
    from: &str,
    to: &str,
    own: &PathFilter,
) -> Result<(), OpenFault>
where
    R::File: Read + Write + Seek + OpenFile + SharedFile + Drop,
{
    match take(rt, from, to, own) {
        Ok(()) => Ok(()),
        Err(fault) => {
            say(rt, "can't take over the record", from.as_bytes(), fault);
            Err(OpenFault::from(fault))
        }
    }
}
