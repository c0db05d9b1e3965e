//! Depfiles, as replies.

ghost use Rattle.std.specs.Prelude.{◌≡◌, IfOk, IsUtf8, Ok};
ghost use Rattle.plan_machine.specs.declared.event.reply.Reply.TheVariants.{Bytes, Fault};
ghost use Rattle.plan_verify.specs.Turn.{Deps};
ghost use Rattle.plan_world.specs.Answers.{IsAnswer, IsReadOf};

use crate::disk::Disk;
use crate::fault::without;
use plan_depfile::Parsed;
use plan_machine::{Depfile, Reply};
use std::alloc::{AllocError, Global};
use std::str;

/// The most bytes that are read of a depfile: one more than it may have, so that a depfile that is too long is noticed.
const MOST: usize = 16_777_217;

/// Returns the bytes of a depfile as a reply.
fn depfile_reply(alloc: Global, bytes: Vec<u8>) -> Result<Reply, AllocError>
    ensures { IfOk result (λ r. r ≡ Bytes bytes.items) }
{
    match Parsed::of(alloc, bytes) {
        Ok(parsed) => Ok(Reply::Bytes(Depfile::new(alloc, parsed)?)),
        Err(_) => Err(AllocError),
    }
}

/// Returns the depfile at a path, but at most one byte more than a depfile may have. Returns `Nothing` if it is missing.
///
/// # Errors
/// `AllocError` if memory runs out. If the path isn't UTF-8 or the file can't be read, the reply is `Fault`.
pub(crate) fn read_depfile<D: Disk>(
    disk: &D,
    alloc: Global,
    path: &[u8],
) -> Result<Reply, AllocError>
    ensures suits { IfOk result (λ r. IsAnswer (Deps path.now) r) }
    ensures no_text { ¬ (IsUtf8 path.now) → result ≡ Ok Fault }
    ensures held { IfOk result (λ r. IsReadOf D.held path.now r) }
{
    let Ok(path) = str::from_utf8(path) else {
        return Ok(Reply::Fault);
    };
    match disk.read(path, MOST) {
        Ok(bytes) => depfile_reply(alloc, bytes),
        Err(error) => without(error, Reply::Nothing),
    }
}

/// Returns how many paths the depfile in a reply names. A missing one names none. Returns None if it can't be read or is
/// malformed.
pub(crate) fn count_named(alloc: Global, reply: &Reply) -> Result<Option<u32>, AllocError> {
    match reply {
        Reply::Nothing => Ok(Some(0)),
        Reply::Bytes(depfile) => match depfile.result(alloc)? {
            Ok(paths) => Ok(Some(paths.len())),
            Err(_) => Ok(None),
        },
        _ => Ok(None),
    }
}
