//! Records of builds.

use super::*;
use crate::{OpenFault, ReadingMode, recompact, recorded_outputs, recorded_paths, restat};
use plan_text::PathFilter;
use std::fs::{FileTimes, OpenOptions};
use std::os::unix::fs::MetadataExt;
use std::time::{Duration, UNIX_EPOCH};

/// Returns why a record can't be opened, or `None` if it can.
fn open_fault(rt: &HostRuntime, record: &str) -> Result<Option<OpenFault>, Fail> {
    match RealWorld::open(
        rt.clone()?,
        SystemShells::new(rt.clone()?),
        SystemDisk::new(rt.clone()?),
        record,
    ) {
        Ok(world) => {
            drop(world);
            Ok(None)
        }
        Err(fault) => Ok(Some(fault)),
    }
}

/// Keeps two entries of the output `a`, and between them one with an empty path, which is refused.
fn keeps_two<W: World>(rt: &impl Abort, alloc: Global, world: &W) -> Result<(), Fail> {
    let none = PathList::empty(alloc)?;
    keep_is(rt, alloc, world, b"a", &none, "kept")?;
    let no_path = PathList::new(alloc, rows(alloc, &[b""])?)?;
    keep_is(rt, alloc, world, b"a", &no_path, "fault")?;
    keep_is(rt, alloc, world, b"a", &none, "kept")
}

#[test]
fn torn_record(rt: HostRuntime) -> Result<(), Fail> {
    let folder = folder(&rt, "torn_record")?;
    let record = format!(in rt.alloc(); "{folder}/record")?;
    let mut bytes = Vec::from_slice(rt.alloc(), &ENTRY)?;
    bytes.extend_from_slice(&ENTRY[..10])?;
    fs::write(&rt, record.as_str(), bytes.as_slice())?;
    let world = world_in(&rt, folder.as_str())?;
    file_is(&rt, record.as_str(), ENTRY.as_slice())?;
    keeps_two(&rt, rt.alloc(), &world)?;
    has_entries(&rt, record.as_str(), 3)?;
    drop(world);
    remove(&rt, folder);
    for path in [record.as_str(), "/dev/null", "/tmp"] {
        assert_eq!(rt; open_fault(&rt, path)?, Some(OpenFault::Device));
    }
    Ok(())
}

/// Checks that a record has the entry of 24 bytes, and after it the entry of output `a` whose edge was begun.
fn has_begun<R: Files + Abort + AllocGlobal>(rt: &R, record: &str) -> Result<(), Fail> {
    let mut bytes = Vec::from_slice(rt.alloc(), &ENTRY)?;
    bytes.extend_from_slice(&BEGUN_ENTRY)?;
    file_is(rt, record, &bytes)
}

/// Keeps an entry of the output `a`, and then starts a command for `a` that copies the record and fails. Returns what
/// the record has for `a` after that.
fn failed_edge<R: Files + Print + Eprint + Wait + AllocGlobal, S: Shells, D: Disk>(
    rt: &impl Abort,
    alloc: Global,
    world: &RealWorld<R, S, D>,
    command: &[u8],
) -> Result<Recorded, Fail>
where
    R::File: Read + Write + Seek + OpenFile + SharedFile + Drop,
{
    let none = PathList::empty(alloc)?;
    let outputs = rows(alloc, &[b"a"])?;
    recall_is(rt, alloc, world, "nothing")?;
    keep_is(rt, alloc, world, b"a", &none, "kept")?;
    start_is(rt, alloc, world, command, false, &outputs, "exit 1")?;
    recalled(world, b"a")
}

/// Checks that an entry says that its edge was begun.
fn is_begun(rt: &impl Abort, begun: &Recorded) {
    assert_eq!(rt; begun.command().as_slice(), b"\0".as_slice());
    assert_eq!(rt; begun.paths().path(0), b"/dev/null/begun".as_slice());
}

/// Keeps an entry of the output `a` with these paths, which must be exactly one, and checks that it is recalled.
fn keeps_after_begun<W: World>(
    rt: &impl Abort,
    alloc: Global,
    world: &W,
    paths: &PathList,
) -> Result<(), Fail> {
    let begun = recalled(world, b"a")?;
    assert_eq!(rt; begun.command().as_slice(), b"\0".as_slice());
    let order = order_of(alloc, b"a", b"u", 9, paths)?;
    let answer = said(alloc, world.keep(0, &order)?)?;
    assert_eq!(rt; answer.as_str(), "kept");
    let kept = recalled(world, b"a")?;
    assert_eq!(rt; kept.command().as_slice(), b"u".as_slice());
    assert_eq!(rt; kept.basis(), 9);
    assert_eq!(rt; kept.paths().len(), 1);
    Ok(())
}

#[test]
fn failed_is_begun(rt: HostRuntime) -> Result<(), Fail> {
    let folder = folder(&rt, "failed_is_begun")?;
    let record = format!(in rt.alloc(); "{folder}/record")?;
    let copy = format!(in rt.alloc(); "{folder}/copy")?;
    let command = format!(in rt.alloc(); "cp {record} {copy}; exit 1")?;
    let world = world_in(&rt, folder.as_str())?;
    let begun = failed_edge(&rt, rt.alloc(), &world, command.as_bytes())?;
    has_begun(&rt, copy.as_str())?;
    has_begun(&rt, record.as_str())?;
    is_begun(&rt, &begun);
    drop(world);
    let again = world_in(&rt, folder.as_str())?;
    keeps_after_begun(&rt, rt.alloc(), &again, begun.paths())?;
    drop(again);
    remove(&rt, folder);
    Ok(())
}

/// Checks that nothing more is kept in a record that was removed while it is open: its path may now name another file.
#[test]
fn removed_record(rt: HostRuntime) -> Result<(), Fail> {
    let folder = folder(&rt, "removed_record")?;
    let record = format!(in rt.alloc(); "{folder}/record")?;
    let none = PathList::empty(rt.alloc())?;
    let world = world_in(&rt, folder.as_str())?;
    fs::remove_file(&rt, record.as_str())?;
    keep_is(&rt, rt.alloc(), &world, b"a", &none, "fault")?;
    drop(world);
    remove(&rt, folder);
    Ok(())
}

/// Keeps an entry with this path, and checks the reply, in words, to a question for it.
fn recalls_with<W: World>(
    rt: &impl Abort,
    alloc: Global,
    world: &W,
    path: &[u8],
    reply: &str,
) -> Result<(), Fail> {
    let paths = PathList::new(alloc, rows(alloc, &[b"first", path])?)?;
    keep_is(rt, alloc, world, b"a", &paths, "kept")?;
    recall_is(rt, alloc, world, reply)
}

/// Checks entries with a name of 255 bytes and of 256, and with a path of 4,095 bytes and of 4,096.
fn recalls_long_paths<W: World>(rt: &impl Abort, alloc: Global, world: &W) -> Result<(), Fail> {
    let name = vec![in alloc; b'n'; 256]?;
    recalls_with(rt, alloc, world, &name[..255], "entry")?;
    recalls_with(rt, alloc, world, &name, "nothing")?;
    let mut path = vec![in alloc; b'/'; 4096]?;
    path[4095] = b'p';
    recalls_with(rt, alloc, world, &path[1..], "entry")?;
    recalls_with(rt, alloc, world, &path, "nothing")
}

/// Checks that an entry isn't recalled if the system can't be asked about one of its paths.
#[test]
fn spoilt_paths(rt: HostRuntime) -> Result<(), Fail> {
    let folder = folder(&rt, "spoilt_paths")?;
    let world = world_in(&rt, folder.as_str())?;
    recalls_with(&rt, rt.alloc(), &world, b"dir/name", "entry")?;
    recalls_with(&rt, rt.alloc(), &world, b"\xc3\xa9", "entry")?;
    recalls_with(&rt, rt.alloc(), &world, b"\xff", "nothing")?;
    recalls_with(&rt, rt.alloc(), &world, b"a\0b", "nothing")?;
    recalls_long_paths(&rt, rt.alloc(), &world)?;
    drop(world);
    remove(&rt, folder);
    Ok(())
}

/// Checks that a record has the basis 7 for the output `a`, and this length.
fn is_grown<W: World, R: Files + Abort + AllocGlobal>(
    rt: &R,
    world: &W,
    record: &str,
    len: usize,
) -> Result<(), Fail> {
    assert_eq!(rt; basis_of(world, b"a")?, 7);
    length_is(rt, record, len)
}

/// Checks that opening compacts a record that has more than 100 entries, and more than three for each output.
#[test]
fn grown_record(rt: HostRuntime) -> Result<(), Fail> {
    let folder = folder(&rt, "grown_record")?;
    let record = format!(in rt.alloc(); "{folder}/record")?;
    for (count, left) in [(100, 2400), (101, 24), (5, 120)] {
        write_entries(&rt, record.as_str(), count)?;
        let world = world_in(&rt, folder.as_str())?;
        let seen = is_grown(&rt, &world, record.as_str(), left);
        drop(world);
        seen?;
    }
    remove(&rt, folder);
    Ok(())
}

/// Checks that a long record is compacted by the first caller that needs it, or earlier.
fn is_read_once<R: Files + Print + Eprint + Wait + AllocGlobal, S: Shells, D: Disk>(
    rt: &(impl Files + Abort + AllocGlobal),
    world: &RealWorld<R, S, D>,
    record: &str,
    is_asked: bool,
) -> Result<(), Fail>
where
    R::File: Read + Write + Seek + OpenFile + SharedFile + Drop,
{
    length_is(rt, record, 72_000)?;
    if is_asked {
        assert_eq!(rt; basis_of(world, b"a")?, 7);
    } else {
        world.read_record()?;
    }
    length_is(rt, record, 24)?;
    world.read_record()?;
    assert_eq!(rt; basis_of(world, b"a")?, 7);
    Ok(())
}

/// Checks that a long record is read by the first caller that needs it, or earlier.
#[test]
fn long_record(rt: HostRuntime) -> Result<(), Fail> {
    let folder = folder(&rt, "long_record")?;
    let record = format!(in rt.alloc(); "{folder}/record")?;
    for is_asked in [false, true] {
        write_entries(&rt, record.as_str(), 3_000)?;
        let world = world_in(&rt, folder.as_str())?;
        let read = is_read_once(&rt, &world, record.as_str(), is_asked);
        drop(world);
        read?;
    }
    remove(&rt, folder);
    Ok(())
}

/// Checks that the only output of a long record is `a`, and that the record was read when the entries are returned.
fn entries_are_read<R: Files + Eprint + Wait + AllocGlobal, S, D>(
    rt: &impl Abort,
    world: &RealWorld<R, S, D>,
) -> Result<(), Fail>
where
    R::File: Read + Write + Seek + OpenFile + SharedFile + Drop,
{
    let entries = world.last_entries()?;
    assert_eq!(rt; entries.len(), 1);
    for entry in entries.as_slice() {
        assert_eq!(rt; entry.output(), b"a".as_slice());
    }
    assert_eq!(rt; world.has_read_record(), true);
    Ok(())
}

/// Checks that the last entry of each output of a long record is returned, and that the record is read for it.
#[test]
fn entries_of_a_long_record(rt: HostRuntime) -> Result<(), Fail> {
    let folder = folder(&rt, "entries_of_a_long_record")?;
    let record = format!(in rt.alloc(); "{folder}/record")?;
    write_entries(&rt, record.as_str(), 3_000)?;
    let world = world_in(&rt, folder.as_str())?;
    assert_eq!(rt; world.has_read_record(), false);
    entries_are_read(&rt, &world)?;
    entries_are_read(&rt, &world)?;
    drop(world);
    remove(&rt, folder);
    Ok(())
}

/// Checks that a world starts no command and fails to recall an entry if its record can't be read.
fn is_lost<R: Files + Print + Eprint + Wait + AllocGlobal, S: Shells, D: Disk>(
    rt: &impl Abort,
    alloc: Global,
    world: &RealWorld<R, S, D>,
) -> Result<(), Fail>
where
    R::File: Read + Write + Seek + OpenFile + SharedFile + Drop,
{
    let outputs = rows(alloc, &[b"out"])?;
    assert_eq!(rt; world.read_record(), Err(OpenFault::Device));
    assert_eq!(rt; world.has_read_record(), false);
    recall_is(rt, alloc, world, "fault")?;
    start_is(rt, alloc, world, b"true", false, &outputs, "not started")
}

/// Checks that no command is started and a recall fails if a long record can't be read when it is needed.
#[test]
fn long_record_is_lost(rt: HostRuntime) -> Result<(), Fail> {
    let folder = folder(&rt, "long_record_is_lost")?;
    let record = format!(in rt.alloc(); "{folder}/record")?;
    write_entries(&rt, record.as_str(), 3_000)?;
    let world = world_in(&rt, folder.as_str())?;
    fs::remove_file(&rt, record.as_str())?;
    fs::create_dir(&rt, record.as_str())?;
    is_lost(&rt, rt.alloc(), &world)?;
    drop(world);
    remove(&rt, folder);
    Ok(())
}

/// Gives a file an old date.
fn date_back(rt: &HostRuntime, path: &str) -> Result<(), Fail> {
    let file = OpenOptions::new().write(true).open(rt, path)?;
    let date = UNIX_EPOCH + Duration::from_millis(1_000_500);
    file.set_times(FileTimes::new().set_modified(date))?;
    Ok(())
}

/// Checks whether a file has that old date.
fn is_dated_back(rt: &HostRuntime, path: &str) -> Result<bool, Fail> {
    let found = fs::metadata(rt, path)?;
    Ok((found.mtime(), found.mtime_nsec()) == (1_000, 500_000_000))
}

/// Checks that a record that is compacted keeps its date, and that one whose entries are restated doesn't.
#[test]
fn dates_of_rewritten_records(rt: HostRuntime) -> Result<(), Fail> {
    let folder = folder(&rt, "dates_of_records")?;
    let record = format!(in rt.alloc(); "{folder}/record")?;
    write_entries(&rt, record.as_str(), 2)?;
    date_back(&rt, record.as_str())?;
    recompact(&rt, record.as_str())?;
    has_entries(&rt, record.as_str(), 1)?;
    assert!(rt; is_dated_back(&rt, record.as_str())?);
    restat(&rt, record.as_str(), &[])?;
    assert!(rt; !is_dated_back(&rt, record.as_str())?);
    remove(&rt, folder);
    Ok(())
}

/// Keeps an entry of `a`, which names `x` and `y`, and one of `b`, which names `z`, and begins `b` again.
fn keeps_and_begins<R: Files + Print + Eprint + Wait + AllocGlobal, S: Shells, D: Disk>(
    rt: &impl Abort,
    alloc: Global,
    world: &RealWorld<R, S, D>,
) -> Result<(), Fail>
where
    R::File: Read + Write + Seek + OpenFile + SharedFile + Drop,
{
    let paths = PathList::new(alloc, rows(alloc, &[b"x", b"y"])?)?;
    keep_is(rt, alloc, world, b"a", &paths, "kept")?;
    let paths = PathList::new(alloc, rows(alloc, &[b"z"])?)?;
    keep_is(rt, alloc, world, b"b", &paths, "kept")?;
    let outputs = rows(alloc, &[b"b"])?;
    start_is(rt, alloc, world, b"true", false, &outputs, "exit 0")
}

/// Checks that the wanted paths of entries are listed, except those of commands that didn't end.
#[test]
fn paths_of_a_record(rt: HostRuntime) -> Result<(), Fail> {
    let folder = folder(&rt, "paths_of_a_record")?;
    let record = format!(in rt.alloc(); "{folder}/record")?;
    let outputs = rows(rt.alloc(), &[b"b", b"c", b"a"])?;
    let mut wanted = PathFilter::new(rt.alloc(), 2)?;
    wanted.add(b"y");
    wanted.add(b"z");
    let mode = ReadingMode::Waiting;
    assert_eq!(rt;
        recorded_paths(&rt, record.as_str(), mode, &outputs, &wanted)?.len(),
        0
    );
    assert!(rt; !fs::exists(&rt, record.as_str())?);
    let world = world_in(&rt, folder.as_str())?;
    keeps_and_begins(&rt, rt.alloc(), &world)?;
    let found = recorded_paths(&rt, record.as_str(), ReadingMode::AsIs, &outputs, &wanted)?;
    assert_eq!(rt; found.len(), 1);
    drop(world);
    let found = recorded_paths(&rt, record.as_str(), mode, &outputs, &wanted)?;
    assert_eq!(rt; found.len(), 1);
    assert_eq!(rt; found.row(0), b"y".as_slice());
    remove(&rt, folder);
    Ok(())
}

/// Checks that `recompact` compacts a record of any length, and creates none.
#[test]
fn recompacted(rt: HostRuntime) -> Result<(), Fail> {
    let folder = folder(&rt, "recompacted")?;
    let record = format!(in rt.alloc(); "{folder}/record")?;
    recompact(&rt, record.as_str())?;
    restat(&rt, record.as_str(), &[])?;
    assert_eq!(rt;
        recorded_outputs(&rt, record.as_str(), ReadingMode::Waiting)?.len(),
        0
    );
    assert!(rt; !fs::exists(&rt, record.as_str())?);
    write_entries(&rt, record.as_str(), 2)?;
    recompact(&rt, record.as_str())?;
    file_is(&rt, record.as_str(), ENTRY.as_slice())?;
    assert_eq!(rt; recompact(&rt, folder.as_str()), Err(OpenFault::Device));
    remove(&rt, folder);
    Ok(())
}

/// Checks that each output is listed once, in the order of the last entries.
#[test]
fn outputs_of_a_record(rt: HostRuntime) -> Result<(), Fail> {
    let folder = folder(&rt, "outputs_of_a_record")?;
    let path = format!(in rt.alloc(); "{folder}/record")?;
    let mut bytes = entries(rt.alloc(), 2)?;
    bytes.extend_from_slice(&BEGUN_ENTRY)?;
    bytes[ENTRY.len() + 6] = b'b';
    fs::write(&rt, path.as_str(), bytes.as_slice())?;
    let outputs = recorded_outputs(&rt, path.as_str(), ReadingMode::Waiting)?;
    assert_eq!(rt; outputs.len(), 2);
    assert_eq!(rt; outputs.row(0), b"b".as_slice());
    assert_eq!(rt; outputs.row(1), b"a".as_slice());
    remove(&rt, folder);
    Ok(())
}

/// Keeps an entry of each of two outputs.
fn keeps_both<W: World>(
    rt: &impl Abort,
    alloc: Global,
    world: &W,
    first: &[u8],
    second: &[u8],
) -> Result<(), Fail> {
    let none = PathList::empty(alloc)?;
    keep_is(rt, alloc, world, first, &none, "kept")?;
    keep_is(rt, alloc, world, second, &none, "kept")
}

/// Returns the bases that the record has for two outputs.
fn bases_of<W: World>(world: &W, first: &[u8], second: &[u8]) -> Result<(u64, u64), Fail> {
    Ok((basis_of(world, first)?, basis_of(world, second)?))
}

/// Checks that the basis of a named output becomes the stamp of its file, or 0 if the file is missing, and that other
/// bases stay.
#[test]
fn restated_outputs(rt: HostRuntime) -> Result<(), Fail> {
    let folder = folder(&rt, "restated_outputs")?;
    let record = format!(in rt.alloc(); "{folder}/record")?;
    let missing = format!(in rt.alloc(); "{folder}/missing")?;
    let world = world_in(&rt, folder.as_str())?;
    keeps_both(
        &rt,
        rt.alloc(),
        &world,
        folder.as_bytes(),
        missing.as_bytes(),
    )?;
    drop(world);
    restat(&rt, record.as_str(), &[missing.as_bytes()])?;
    let world = world_in(&rt, folder.as_str())?;
    let bases = bases_of(&world, missing.as_bytes(), folder.as_bytes())?;
    drop(world);
    assert_eq!(rt; bases, (0, 7));
    restat(&rt, record.as_str(), &[])?;
    let world = world_in(&rt, folder.as_str())?;
    let basis = basis_of(&world, folder.as_bytes())?;
    drop(world);
    assert!(rt; basis > 1_000_000_000);
    remove(&rt, folder);
    Ok(())
}

/// Checks that an entry whose edge was begun stays as it is.
#[test]
fn begun_is_not_restated(rt: HostRuntime) -> Result<(), Fail> {
    let folder = folder(&rt, "begun_not_restated")?;
    let path = format!(in rt.alloc(); "{folder}/record")?;
    fs::write(&rt, path.as_str(), BEGUN_ENTRY.as_slice())?;
    restat(&rt, path.as_str(), &[])?;
    file_is(&rt, path.as_str(), BEGUN_ENTRY.as_slice())?;
    remove(&rt, folder);
    Ok(())
}
