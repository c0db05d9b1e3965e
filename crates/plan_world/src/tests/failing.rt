//! Records whose file fails, or is changed by another builder.

use super::*;
use crate::recompact;
use crate::record_file::{RecordFile, load_file};
use std::fs::{File, Metadata, OpenOptions};
use std::io::{self, ErrorKind, SeekFrom};
use std::process::Stdio;
use std::sync::atomic::{AtomicU64, Ordering};

/// A file that takes a number of bytes and then fails once, and that can't be cut a number of times.
#[derive(Drop)]
struct Failing {
    file: File,
    left: usize,
    uncut: AtomicU64,
}

impl Read for Failing {
    fn read(&mut self, bytes: &mut [u8]) -> io::Result<usize> {
        self.file.read(bytes)
    }
}

impl Write for Failing {
    fn write(&mut self, bytes: &[u8]) -> io::Result<usize> {
        if self.left == 0 {
            self.left = usize::MAX;
            return Err(io::Error::from(ErrorKind::StorageFull));
        }
        let n = bytes.len().min(self.left);
        self.left -= n;
        self.file.write(&bytes[..n])
    }

    fn flush(&mut self) -> io::Result<()> {
        self.file.flush()
    }
}

impl Seek for Failing {
    fn seek(&mut self, to: SeekFrom) -> io::Result<u64> {
        self.file.seek(to)
    }
}

impl OpenFile for Failing {
    fn metadata(&self) -> io::Result<Metadata> {
        self.file.metadata()
    }

    fn set_len(&self, size: u64) -> io::Result<()> {
        let uncut = self.uncut.load(Ordering::SeqCst);
        if uncut > 0 {
            self.uncut.store(uncut - 1, Ordering::SeqCst);
            return Err(io::Error::from(ErrorKind::PermissionDenied));
        }
        self.file.set_len(size)
    }

    fn sync_all(&self) -> io::Result<()> {
        self.file.sync_all()
    }

    fn sync_data(&self) -> io::Result<()> {
        self.file.sync_data()
    }
}

impl SharedFile for Failing {
    fn lock(&self) -> io::Result<()> {
        Ok(())
    }

    fn try_lock(&self) -> io::Result<bool> {
        Ok(true)
    }

    fn unlock(&self) -> io::Result<()> {
        Ok(())
    }

    fn as_input(&self) -> io::Result<Stdio> {
        Ok(Stdio::null())
    }
}

/// Opens a record that takes `left` bytes before a write fails, and whose file can't be cut `uncut` times.
fn failing_record(
    rt: &HostRuntime,
    path: &str,
    left: usize,
    uncut: u64,
) -> Result<RecordFile<Failing>, Fail> {
    let file = OpenOptions::new()
        .read(true)
        .append(true)
        .create(true)
        .open(rt, path)?;
    let failing = Failing {
        file,
        left,
        uncut: AtomicU64::new(uncut),
    };
    match load_file(rt.alloc(), failing, None) {
        Ok(record) => Ok(record),
        Err(_) => Err(Fail::from(AllocError)),
    }
}

/// Keeps the entry of 24 bytes, and returns whether it was kept.
fn keeps(alloc: Global, record: &mut RecordFile<Failing>) -> Result<bool, Fail> {
    let none = PathList::empty(alloc)?;
    let order = order_of(alloc, b"a", b"t", 7, &none)?;
    Ok(record.keep_edge(alloc, &order, order.basis()).is_ok())
}

/// Checks whether each of the next entries is kept.
fn keeps_as(
    rt: &impl Abort,
    alloc: Global,
    record: &mut RecordFile<Failing>,
    kept: &[bool],
) -> Result<(), Fail> {
    for kept in kept {
        let found = keeps(alloc, record)?;
        assert_eq!(rt; found, *kept);
    }
    Ok(())
}

/// Checks that an entry that was written in part is cut off, and that the next entry is kept.
#[test]
fn torn_write_is_cut_off(rt: HostRuntime) -> Result<(), Fail> {
    let folder = folder(&rt, "torn_write")?;
    let path = format!(in rt.alloc(); "{folder}/record")?;
    let mut record = failing_record(&rt, path.as_str(), 30, 0)?;
    keeps_as(&rt, rt.alloc(), &mut record, [true, false].as_slice())?;
    file_is(&rt, path.as_str(), ENTRY.as_slice())?;
    keeps_as(&rt, rt.alloc(), &mut record, [false, true].as_slice())?;
    has_entries(&rt, path.as_str(), 2)?;
    drop(record);
    remove(&rt, folder);
    Ok(())
}

/// Checks that nothing more is kept after a cut failed, even if the file could be cut and written again.
#[test]
fn nothing_is_kept_after_a_failed_cut(rt: HostRuntime) -> Result<(), Fail> {
    let folder = folder(&rt, "failed_cut")?;
    let path = format!(in rt.alloc(); "{folder}/record")?;
    let mut record = failing_record(&rt, path.as_str(), 30, 1)?;
    keeps_as(&rt, rt.alloc(), &mut record, [true, false].as_slice())?;
    length_is(&rt, path.as_str(), 30)?;
    keeps_as(&rt, rt.alloc(), &mut record, [false, false].as_slice())?;
    length_is(&rt, path.as_str(), 30)?;
    drop(record);
    remove(&rt, folder);
    Ok(())
}

/// Appends an entry and a part of one to a record, as another builder.
fn append_torn<R: Files + AllocGlobal>(rt: &R, path: &str) -> Result<(), Fail> {
    let mut other = OpenOptions::new().append(true).open(rt, path)?;
    other.write_all(&BEGUN_ENTRY)?;
    other.write_all(&ENTRY[..10])?;
    Ok(())
}

/// Checks that the entry of another builder is recalled after the next keep, and not before.
fn recalls_after_keep(
    rt: &impl Abort,
    alloc: Global,
    record: &mut RecordFile<Failing>,
) -> Result<(), Fail> {
    let none = PathList::empty(alloc)?;
    let order = order_of(alloc, b"b", b"t", 7, &none)?;
    assert!(rt; record.last(alloc, b"a")?.is_none());
    assert!(rt; record.keep_edge(alloc, &order, order.basis()).is_ok());
    match record.last(alloc, b"a")? {
        Some(entry) => assert_eq!(rt; entry.command(), b"\0".as_slice()),
        None => panic!(rt; "no entry"),
    }
    Ok(())
}

/// Checks that a record has the entry of output `a` whose edge was begun, and after it the entry of output `b`.
fn has_both<R: Files + Abort + AllocGlobal>(rt: &R, record: &str) -> Result<(), Fail> {
    let mut bytes = Vec::from_slice(rt.alloc(), &BEGUN_ENTRY)?;
    bytes.extend_from_slice(&ENTRY)?;
    bytes[BEGUN_ENTRY.len() + 6] = b'b';
    file_is(rt, record, &bytes)
}

/// Checks that entries of another builder are recalled after the next keep, and that its incomplete entry is cut off.
#[test]
fn entries_of_another_builder(rt: HostRuntime) -> Result<(), Fail> {
    let folder = folder(&rt, "another_builder")?;
    let path = format!(in rt.alloc(); "{folder}/record")?;
    let mut record = failing_record(&rt, path.as_str(), usize::MAX, 0)?;
    append_torn(&rt, path.as_str())?;
    recalls_after_keep(&rt, rt.alloc(), &mut record)?;
    has_both(&rt, path.as_str())?;
    drop(record);
    remove(&rt, folder);
    Ok(())
}

/// Checks that a builder keeps nothing more after its record was replaced.
#[test]
fn replaced_record(rt: HostRuntime) -> Result<(), Fail> {
    let folder = folder(&rt, "replaced_record")?;
    let path = format!(in rt.alloc(); "{folder}/record")?;
    let mut record = failing_record(&rt, path.as_str(), usize::MAX, 0)?;
    keeps_as(&rt, rt.alloc(), &mut record, [true].as_slice())?;
    recompact(&rt, path.as_str())?;
    keeps_as(&rt, rt.alloc(), &mut record, [false].as_slice())?;
    file_is(&rt, path.as_str(), ENTRY.as_slice())?;
    drop(record);
    remove(&rt, folder);
    Ok(())
}
