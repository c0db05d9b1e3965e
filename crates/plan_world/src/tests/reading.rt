//! Records that are only read, and records that are taken over.

use super::begins::stricter_world_in;
use super::*;
use crate::take_over;
use plan_text::PathFilter;
use std::os::unix::fs::MetadataExt;

/// Opens a world that only reads the record in a folder.
fn reading_world_in(rt: &HostRuntime, folder: &str) -> Result<SystemWorld, Fail> {
    let record = format!(in rt.alloc(); "{folder}/record")?;
    let shells = SystemShells::new(rt.clone()?);
    Ok(RealWorld::open_reading(
        rt.clone()?,
        shells,
        SystemDisk::new(rt.clone()?),
        record.as_str(),
    )?)
}

/// Checks that a world starts no command and keeps no entry, and knows the time.
fn only_reads<R: Files + Print + Eprint + Wait + AllocGlobal, S: Shells, D: Disk>(
    rt: &impl Abort,
    alloc: Global,
    world: &RealWorld<R, S, D>,
) -> Result<(), Fail>
where
    R::File: Read + Write + Seek + OpenFile + SharedFile + Drop,
{
    let outputs = rows(alloc, &[b"a"])?;
    start_is(rt, alloc, world, b"true", false, &outputs, "not started")?;
    keep_is(rt, alloc, world, b"a", &PathList::empty(alloc)?, "fault")?;
    assert!(rt; world.first_begin().is_none());
    assert!(rt; world.now().unwrap_or(0) > 1_000_000_000_000_000_000);
    Ok(())
}

/// Checks that a world that only reads creates neither a record nor a lock.
#[test]
fn missing_record_is_read(rt: HostRuntime) -> Result<(), Fail> {
    let folder = folder(&rt, "missing_read")?;
    let world = reading_world_in(&rt, folder.as_str())?;
    assert!(rt; world.has_read_record());
    assert!(rt; world.record_stamp().is_none());
    recall_is(&rt, rt.alloc(), &world, "nothing")?;
    only_reads(&rt, rt.alloc(), &world)?;
    drop(world);
    for name in ["record", "record.lock"] {
        let path = format!(in rt.alloc(); "{folder}/{name}")?;
        assert!(rt; !fs::exists(&rt, path.as_str())?);
    }
    remove(&rt, folder);
    Ok(())
}

/// Checks that a world that only reads has the entries and the date of a record whose end is torn, leaves it as it is,
/// and doesn't wait for the builder that holds the lock.
#[test]
fn locked_record_is_read(rt: HostRuntime) -> Result<(), Fail> {
    let folder = folder(&rt, "locked_read")?;
    let record = format!(in rt.alloc(); "{folder}/record")?;
    let builder = stricter_world_in(&rt, folder.as_str())?;
    let mut bytes = entries(rt.alloc(), 1)?;
    bytes.extend_from_slice(&ENTRY[..9])?;
    fs::write(&rt, record.as_str(), bytes.as_slice())?;
    let world = reading_world_in(&rt, folder.as_str())?;
    assert_eq!(rt; basis_of(&world, b"a")?, 7);
    assert_eq!(rt; world.record_stamp(), world.stat_ahead(record.as_bytes()));
    only_reads(&rt, rt.alloc(), &world)?;
    drop(world);
    file_is(&rt, record.as_str(), &bytes)?;
    drop(builder);
    remove(&rt, folder);
    Ok(())
}

/// Returns a set that has one path.
fn set_of(alloc: Global, path: &[u8]) -> Result<PathFilter, AllocError> {
    let mut set = PathFilter::new(alloc, 1)?;
    set.add(path);
    Ok(set)
}

/// Returns the bytes of a start entry of `b`.
fn begun_b(alloc: Global) -> Result<Vec<u8>, AllocError> {
    let mut bytes = Vec::from_slice(alloc, &BEGUN_ENTRY)?;
    bytes[6] = b'b';
    Ok(bytes)
}

/// Returns when a file was last changed.
fn stamp_of(rt: &HostRuntime, path: &str) -> Result<i64, Fail> {
    let found = fs::metadata(rt, path)?;
    Ok(found.mtime() * 1_000_000_000 + found.mtime_nsec())
}

/// Checks that the entries of some outputs are moved to a new record, and the others stay. Both records have the date of
/// the old one.
#[test]
fn entries_are_taken_over(rt: HostRuntime) -> Result<(), Fail> {
    let folder = folder(&rt, "taken_over")?;
    let from = format!(in rt.alloc(); "{folder}/record")?;
    let to = format!(in rt.alloc(); "{folder}/own")?;
    let left = begun_b(rt.alloc())?;
    let mut bytes = entries(rt.alloc(), 2)?;
    bytes.extend_from_slice(&left)?;
    take_over(&rt, from.as_str(), to.as_str(), &set_of(rt.alloc(), b"a")?)?;
    assert!(rt; !fs::exists(&rt, to.as_str())?);
    fs::write(&rt, from.as_str(), bytes.as_slice())?;
    let stamp = stamp_of(&rt, from.as_str())?;
    take_over(&rt, from.as_str(), to.as_str(), &set_of(rt.alloc(), b"a")?)?;
    file_is(&rt, to.as_str(), &ENTRY)?;
    file_is(&rt, from.as_str(), &left)?;
    assert_eq!(rt; stamp_of(&rt, from.as_str())?, stamp);
    assert_eq!(rt; stamp_of(&rt, to.as_str())?, stamp);
    remove(&rt, folder);
    Ok(())
}

/// Checks that a record that is there takes nothing over, and that an old record of which nothing stays is removed.
#[test]
fn old_record_is_removed(rt: HostRuntime) -> Result<(), Fail> {
    let folder = folder(&rt, "old_record")?;
    let from = format!(in rt.alloc(); "{folder}/record")?;
    let to = format!(in rt.alloc(); "{folder}/own")?;
    write_entries(&rt, from.as_str(), 1)?;
    fs::write(&rt, to.as_str(), b"")?;
    take_over(&rt, from.as_str(), to.as_str(), &set_of(rt.alloc(), b"a")?)?;
    file_is(&rt, to.as_str(), b"")?;
    file_is(&rt, from.as_str(), &ENTRY)?;
    fs::remove_file(&rt, to.as_str())?;
    take_over(&rt, from.as_str(), to.as_str(), &set_of(rt.alloc(), b"a")?)?;
    file_is(&rt, to.as_str(), &ENTRY)?;
    assert!(rt; !fs::exists(&rt, from.as_str())?);
    remove(&rt, folder);
    Ok(())
}
