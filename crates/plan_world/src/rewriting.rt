//! Rewrites a record, so that it has only the last entry of each output.

ghost use Rattle.std.specs.Prelude.{◌≡◌, List, ℕ, length, IfOk};
ghost use Rattle.std.specs.List.{flat_map};
ghost use Rattle.plan_record.specs.Compaction.{last_entries};
ghost use Rattle.plan_record.specs.Entries.{spelling};
ghost use Rattle.plan_text.specs.Reducing.{texts};
ghost use Rattle.plan_world.specs.Recording.{Grows};
ghost use Rattle.plan_world.specs.Rewriting.{restated};

use crate::builder_lock::{BuilderLock, SharedFile};
use crate::fault::DeviceFault;
use crate::record_file::{RecordFile, open_record};
use crate::replacing::{Changed, replace_file};
use crate::restating::{restate_entries, stamps_for};
use plan_record::spellings;
use std::fs::OpenFile;
use std::io::{Read, Seek, Write};
use std::rt::Files;

/// Replaces a record's file by one with its last entries. It keeps its date: no command ran, so an output that is later
/// was still written by something else. The caller must hold the file's lock.
fn compact_locked<R: Files + AllocGlobal>(
    rt: &R,
    path: &str,
    file: &mut RecordFile<R::File>,
) -> Result<(), DeviceFault>
where
    R::File: Read + Write + Seek + OpenFile + SharedFile,
    ensures { Grows file.old.entries file.new.entries }
{
    file.catch_up(rt.alloc())?;
    let bytes = file.compacted_bytes(rt.alloc())?;
    replace_file(rt, path, &bytes, &file.metadata()?, Changed::AsBefore)
}

/// Replaces a record's file by one with its last entries, while no builder appends to it. The caller must hold the
/// record's lock.
pub(crate) fn compact<R: Files + AllocGlobal>(
    rt: &R,
    path: &str,
    file: &mut RecordFile<R::File>,
) -> Result<(), DeviceFault>
where
    R::File: Read + Write + Seek + OpenFile + SharedFile,
    ensures { Grows file.old.entries file.new.entries }
{
    file.lock()?;
    let done = compact_locked(rt, path, file);
    file.unlock();
    done
}

/// Returns the bytes of a record whose last entries are restated.
fn restated_bytes<R: Files + AllocGlobal>(
    rt: &R,
    file: &RecordFile<R::File>,
    outputs: &[&[u8]],
) -> Result<Vec<u8>, DeviceFault>
where
    R::File: Read + Write + Seek + OpenFile + SharedFile,
    ensures { IfOk result (λ bytes. (stamps : List ℕ) × (length stamps ≡ length (last_entries file.now.entries)) × (bytes.items ≡ flat_map spelling (restated (texts outputs.now) stamps (last_entries file.now.entries)))) }
{
    let entries = file.last_entries(rt.alloc())?;
    let stamps = stamps_for(rt, outputs, &entries)?;
    let made = restate_entries(rt.alloc(), outputs, &stamps, &entries)?;
    Ok(spellings(rt.alloc(), &made)?)
}

/// Replaces a record's file by one with its last entries, restated. The caller must hold the file's lock.
fn restate_locked<R: Files + AllocGlobal>(
    rt: &R,
    path: &str,
    file: &mut RecordFile<R::File>,
    outputs: &[&[u8]],
) -> Result<(), DeviceFault>
where
    R::File: Read + Write + Seek + OpenFile + SharedFile,
{
    file.catch_up(rt.alloc())?;
    let bytes = restated_bytes(rt, file, outputs)?;
    replace_file(rt, path, &bytes, &file.metadata()?, Changed::Now)
}

/// Replaces a record's file by one with its last entries, restated, while no builder appends to it. The caller must
/// hold the record's lock.
pub(crate) fn restate<R: Files + AllocGlobal>(
    rt: &R,
    path: &str,
    file: &mut RecordFile<R::File>,
    outputs: &[&[u8]],
) -> Result<(), DeviceFault>
where
    R::File: Read + Write + Seek + OpenFile + SharedFile,
{
    file.lock()?;
    let done = restate_locked(rt, path, file, outputs);
    file.unlock();
    done
}

/// Compacts a record that has grown, if this builder holds its lock. If that fails, the record stays as it is.
pub(crate) fn compact_grown<R: Files + AllocGlobal>(
    rt: &R,
    path: &str,
    lock: &BuilderLock<R::File>,
    file: RecordFile<R::File>,
) -> Result<RecordFile<R::File>, DeviceFault>
where
    R::File: Read + Write + Seek + OpenFile + SharedFile + Drop,
{
    let mut file = file;
    if lock.is_held() & file.has_grown() {
        if compact(rt, path, &mut file).is_ok() {
            return open_record(rt, path);
        }
    }
    Ok(file)
}
