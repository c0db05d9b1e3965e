//! Files that are replaced as a whole.

ghost use Rattle.std.specs.Prelude.{◌≡◌, IfOk, OnOk};
ghost use Rattle.std.specs.Io.KnownBytes.{Appends};

use crate::fault::DeviceFault;
use std::fs::{self, FileTimes, Metadata, OpenFile, OpenOptions};
use std::io::{ErrorKind, Write};
use std::marker::Model;
use std::os::unix::fs::{MetadataExt, chown};
use std::rt::Files;

/// A token: all of these bytes were written to a file and flushed to the disk. Nothing else creates this token.
/// Contracts see the bytes.
#[derive(Drop)]
pub(crate) struct Written<'a> {
    bytes: &'a [u8],
}

impl<'a> Model for Written<'a> {
    ghost use Rattle.std.specs.Prelude.{List, ℕ};

    ghost Value = { List ℕ };

    ghost view = { λ w. w.bytes.now };
}

/// Writes all bytes, and waits until they are on the disk.
fn write_whole<'a, F: Write + OpenFile>(
    file: &mut F,
    bytes: &'a [u8],
) -> Result<Written<'a>, DeviceFault>
    ensures written { OnOk result (Appends (F.contents file.old) (F.contents file.new) bytes.now) }
    ensures proof { IfOk result (λ w. w ≡ bytes.now) }
{
    file.write_all(bytes)?;
    file.sync_all()?;
    Ok(Written { bytes })
}

/// When a file that replaces another one counts as changed.
#[derive(Clone, Copy, PartialEq, Eq)]
pub(crate) enum Changed {
    /// When it was written.
    Now,
    /// When the file that it replaces was changed.
    AsBefore,
}

/// Gives a file the date of another file, if it counts as changed when that one was.
fn set_date<F: OpenFile>(file: &F, changed: Changed, like: &Metadata) -> Result<(), DeviceFault> {
    if changed == Changed::AsBefore {
        file.set_times(FileTimes::new().set_modified(like.modified()?))?;
    }
    Ok(())
}

/// Creates a file with these bytes, and with the owner and the permissions of another file. Removes an old file at this
/// path.
pub(crate) fn create_like<'a, R: Files>(
    rt: &R,
    path: &str,
    bytes: &'a [u8],
    like: &Metadata,
    changed: Changed,
) -> Result<Written<'a>, DeviceFault>
    ensures { IfOk result (λ w. w ≡ bytes.now) }
{
    let _ = fs::remove_file(rt, path);
    let mut file = OpenOptions::new()
        .write(true)
        .create_new(true)
        .open(rt, path)?;
    chown(rt, path, Some(like.uid()), Some(like.gid()))?;
    file.set_permissions(like.permissions())?;
    let written = write_whole(&mut file, bytes)?;
    set_date(&file, changed, like)?;
    Ok(written)
}

/// Renames a file that was written, so that it replaces another file.
pub(crate) fn put_in_place<R: Files>(
    rt: &R,
    new: &str,
    path: &str,
    _written: Written<'_>,
) -> Result<(), DeviceFault> {
    fs::rename(rt, new, path)?;
    Ok(())
}

/// Creates a file with these bytes, and renames it, so that it replaces another file.
fn create_in_place<R: Files>(
    rt: &R,
    new: &str,
    path: &str,
    bytes: &[u8],
    like: &Metadata,
    changed: Changed,
) -> Result<(), DeviceFault> {
    let written = create_like(rt, new, bytes, like, changed)?;
    put_in_place(rt, new, path, written)
}

/// Replaces a file by a new one with these bytes, with the same owner and permissions, and maybe with its date. The new
/// file is PATH.new until it is complete, so a kill at any time leaves the old file or the new one at the path. A
/// builder that has the old file open notices that it has no name any more. So a file with several names is refused.
///
/// # Errors
/// `System` if the new file can't be created, written or renamed, or if the file has several names, and `Memory`.
pub(crate) fn replace_file<R: Files + AllocGlobal>(
    rt: &R,
    path: &str,
    bytes: &[u8],
    like: &Metadata,
    changed: Changed,
) -> Result<(), DeviceFault> {
    if like.nlink() > 1 {
        return Err(DeviceFault::System(ErrorKind::TooManyLinks, 0));
    }
    let new = format!(in rt.alloc(); "{path}.new")?;
    let replaced = create_in_place(rt, new.as_str(), path, bytes, like, changed);
    if replaced.is_err() {
        let _ = fs::remove_file(rt, new.as_str());
    }
    replaced
}
