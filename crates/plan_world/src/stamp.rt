//! Stamps: the times at which files were last changed.

ghost use Rattle.std.specs.Prelude.{◌≡◌, ◌≤◌, ◌↔◌, List, ℕ, IfErr, IfOk, IsErr, IsOkAnd, IsUtf8, Ok, OnOk};
ghost use Rattle.std.specs.IoError.{error_kind};
ghost use Rattle.plan_machine.specs.declared.event.reply.Reply.TheVariants.{Fault, Stamp};
ghost use Rattle.plan_verify.specs.Turn.{Stat};
ghost use Rattle.plan_world.specs.Answers.{IsAnswer, IsStampOf};
ghost use Rattle.plan_world.specs.Faults.{IsMissing, IsToldOf};
ghost use Rattle.plan_world.specs.Stamps.{stamp_of};

use crate::disk::{Disk, ModificationTime};
use crate::fault::{DeviceFault, without};
use plan_machine::Reply;
use std::alloc::AllocError;
use std::fs::Metadata;
use std::io::{self, ErrorKind};
use std::os::unix::fs::MetadataExt;
use std::rt::Files;
use std::{fs, str};

/// The number of nanoseconds in a second.
const SECOND: u64 = 1_000_000_000;

/// Returns a time in nanoseconds since 1970, at least 1 and at most the greatest stamp.
pub(crate) fn stamp_at(seconds: i64, nanoseconds: i64) -> u64
    ensures stamp { result ≡ stamp_of seconds nanoseconds }
    ensures there { 1 ≤ result }
{
    let (Ok(seconds), Ok(nanoseconds)) = (u64::try_from(seconds), u64::try_from(nanoseconds)) else {
        return 1;
    };
    seconds
        .saturating_mul(SECOND)
        .saturating_add(nanoseconds)
        .max(1)
}

/// Returns the reply for a file that was looked up.
fn seen(found: io::Result<ModificationTime>) -> Result<Reply, AllocError>
    ensures there { IfOk found (λ time. result ≡ Ok (Stamp (stamp_of time.seconds time.nanoseconds))) }
    ensures memory { IfErr found (λ e. IsErr result ↔ (error_kind e ≡ ErrorKind.OutOfMemory)) }
    ensures told { IfErr found (λ e. IfOk result (λ r. IsToldOf (error_kind e) (Stamp 0) r)) }
    ensures suits { (path : List ℕ) → IfOk result (λ r. IsAnswer (Stat path) r) }
{
    match found {
        Ok(time) => Ok(Reply::Stamp(stamp_at(time.seconds, time.nanoseconds))),
        Err(error) => without(error, Reply::Stamp(0)),
    }
}

/// Returns the stamp of the file at a path, in nanoseconds since 1970, or 0 if it is missing. Links are followed.
///
/// # Errors
/// `AllocError` if memory runs out. If the path isn't UTF-8 or the file can't be looked up, the reply is `Fault`.
pub(crate) fn stat<D: Disk>(disk: &D, path: &[u8]) -> Result<Reply, AllocError>
    ensures suits { IfOk result (λ r. IsAnswer (Stat path.now) r) }
    ensures no_text { ¬ (IsUtf8 path.now) → result ≡ Ok Fault }
    ensures looked { IfOk result (λ r. IsStampOf D.looked path.now r) }
{
    let Ok(path) = str::from_utf8(path) else {
        return Ok(Reply::Fault);
    };
    seen(disk.modified(path))
}

/// Returns the stamp of a file that was looked up, or 0 if it is missing.
fn found_stamp(found: io::Result<Metadata>) -> Result<u64, DeviceFault>
    ensures there { OnOk found (IsOkAnd result (λ stamp. 1 ≤ stamp)) }
    ensures missing { IfErr found (λ e. IsMissing (error_kind e) → result ≡ Ok 0) }
    ensures unknown { IfErr found (λ e. ¬ (IsMissing (error_kind e)) → IsErr result) }
{
    match found {
        Ok(file) => Ok(stamp_at(file.mtime(), file.mtime_nsec())),
        Err(error) => match error.kind() {
            ErrorKind::NotFound | ErrorKind::NotADirectory => Ok(0),
            _ => Err(DeviceFault::from(error)),
        },
    }
}

/// Returns the stamp of the file at a path, as `stat` does, or the reason why it can't be determined.
pub(crate) fn stamp_of<R: Files>(rt: &R, path: &[u8]) -> Result<u64, DeviceFault>
    ensures { ¬ (IsUtf8 path.now) → IsErr result }
{
    match str::from_utf8(path) {
        Ok(path) => found_stamp(fs::metadata(rt, path)),
        Err(_) => Err(DeviceFault::System(ErrorKind::InvalidFilename, 0)),
    }
}

/// Checks whether there is a file at a path. Folders and symbolic links aren't files.
pub(crate) fn is_file<R: Files>(rt: &R, path: &[u8]) -> bool {
    match str::from_utf8(path) {
        Ok(path) => match fs::symlink_metadata(rt, path) {
            Ok(found) => found.is_file(),
            Err(_) => false,
        },
        Err(_) => false,
    }
}
