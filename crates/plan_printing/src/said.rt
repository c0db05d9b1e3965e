//! Lines and error messages of plan_build.

ghost use Rattle.std.specs.Prelude.{◌≡◌, IfErr, OnOk};

use crate::waiting::write_whole;
use std::alloc::{AllocError, Global};
use std::io::{self, ErrorKind};
use std::rt::Clock;

/// The exit status of plan_build if the command line or a manifest is refused, or if a build fails.
pub const REFUSED: u8 = 1;

/// The error message for a failed write to standard output.
pub const LOST_OUTPUT: &[u8] = b"ninja: error: standard output can't be written [133 FileFault]\n";

/// The error message if memory runs out for another message.
pub const NO_ROOM: &[u8] = b"ninja: fatal: out of memory [131 Memory]\n";

/// Concatenates texts.
///
/// # Errors
/// If memory runs out.
pub fn concatenate(alloc: Global, parts: &[&[u8]]) -> Result<Vec<u8>, AllocError> {
    let mut text = Vec::new(alloc);
    for part in parts {
        text.extend_from_slice(*part)?;
    }
    Ok(text)
}

/// Returns the digits of a number, or `?` if memory ran out.
pub fn digits_in(digits: &Result<String, AllocError>) -> &[u8] {
    match digits {
        Ok(digits) => digits.as_bytes(),
        Err(_) => b"?",
    }
}

/// Writes texts to standard error in one piece. If memory runs out, reports that instead.
pub fn complain<E: Print>(alloc: Global, errors: &E, parts: &[&[u8]]) {
    let _ = match concatenate(alloc, parts) {
        Ok(text) => errors.write_all(&text),
        Err(_) => errors.write_all(NO_ROOM),
    };
}

/// Reports on standard error what can't be done with a file, and the reason.
pub fn complain_of<'a, E: Print>(
    alloc: Global,
    errors: &E,
    before: &'a [u8],
    file: &'a [u8],
    between: &'a [u8],
    reason: &'a [u8],
) {
    complain(alloc, errors, &[before, file, between, reason, b"\n"]);
}

/// Writes texts to standard output in one piece.
///
/// # Errors
/// The exit status 1 if the texts can't be written. The reason is reported on standard error.
pub fn say<R: Print + Clock + AllocGlobal, E: Print>(
    rt: &R,
    errors: &E,
    parts: &[&[u8]],
) -> Result<(), u8>
    ensures { IfErr result (λ status. status ≡ 1) }
{
    let alloc = rt.alloc();
    let written = match concatenate(alloc, parts) {
        Ok(text) => write_whole(rt, rt, &text).is_ok(),
        Err(_) => false,
    };
    if written {
        return Ok(());
    }
    complain(alloc, errors, &[LOST_OUTPUT]);
    Err(REFUSED)
}

/// Returns the exit status after the last output: `status` if it was written, and otherwise the status of its error.
pub fn status_after(said: Result<(), u8>, status: u8) -> u8
    ensures written { OnOk said (result ≡ status) }
    ensures lost { IfErr said (λ refused. result ≡ refused) }
{
    match said {
        Ok(()) => status,
        Err(refused) => refused,
    }
}

/// Returns the text of C's strerror for an error of a file, also for numbers that have no kind in the kit.
pub fn reason_of_error(error: &io::Error) -> &'static [u8] {
    match error.raw_os_error() {
        Some(1) => b"Operation not permitted",
        Some(6) => b"No such device or address",
        Some(19) => b"No such device",
        Some(23) => b"Too many open files in system",
        Some(24) => b"Too many open files",
        _ => reason_of(error.kind()),
    }
}

/// Returns the text of C's strerror for an error of a file.
pub fn reason_of(kind: ErrorKind) -> &'static [u8] {
    match kind {
        ErrorKind::NotFound => b"No such file or directory",
        ErrorKind::AlreadyExists => b"File exists",
        ErrorKind::NotADirectory => b"Not a directory",
        ErrorKind::IsADirectory => b"Is a directory",
        ErrorKind::DirectoryNotEmpty => b"Directory not empty",
        ErrorKind::PermissionDenied => b"Permission denied",
        ErrorKind::ReadOnlyFilesystem => b"Read-only file system",
        ErrorKind::ResourceBusy => b"Device or resource busy",
        ErrorKind::InvalidFilename => b"File name too long",
        ErrorKind::OutOfMemory => b"Cannot allocate memory",
        ErrorKind::FilesystemLoop => b"Too many levels of symbolic links",
        ErrorKind::StorageFull => b"No space left on device",
        ErrorKind::QuotaExceeded => b"Disk quota exceeded",
        ErrorKind::FileTooLarge => b"File too large",
        ErrorKind::ExecutableFileBusy => b"Text file busy",
        ErrorKind::StaleNetworkFileHandle => b"Stale file handle",
        ErrorKind::TimedOut => b"Connection timed out",
        ErrorKind::TooManyLinks => b"Too many links",
        ErrorKind::WouldBlock => b"Resource temporarily unavailable",
        ErrorKind::InvalidInput => b"Invalid argument",
        _ => b"Input/output error",
    }
}
