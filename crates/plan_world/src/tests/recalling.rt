//! What the record says about outputs besides their entries.

use super::begins::{makes, stricter_world_in};
use super::*;
use crate::{PermittedShell, Printed};
use plan_text::PathFilter;
use std::io::{self, ErrorKind};
use std::process::ExitStatus;
use std::sync::atomic::{AtomicU64, Ordering};

/// Runs a command in a world, which gives the file at a path an old date. Checks that the world has seen no stamp,
/// since its record was new.
fn dates_back<R: Files + Print + Eprint + Wait + AllocGlobal, S: Shells, D: Disk>(
    rt: &impl Abort,
    alloc: Global,
    world: &RealWorld<R, S, D>,
    file: &str,
) -> Result<(), Fail>
where
    R::File: Read + Write + Seek + OpenFile + SharedFile + Drop,
{
    let command = format!(in alloc; "touch -d @1000000000.5 {file}")?;
    let outputs = rows(alloc, &[b"a"])?;
    start_is(
        rt,
        alloc,
        world,
        command.as_bytes(),
        false,
        &outputs,
        "exit 0",
    )?;
    assert!(rt; world.record_stamp().is_none());
    Ok(())
}

/// Checks that the stamp of a record is the one before it was opened, although it was compacted and written.
#[test]
fn stamp_of_the_opened_record(rt: HostRuntime) -> Result<(), Fail> {
    let folder = folder(&rt, "opened_stamp")?;
    let record = format!(in rt.alloc(); "{folder}/record")?;
    let other = format!(in rt.alloc(); "{folder}/other")?;
    fs::create_dir_all(&rt, other.as_str())?;
    write_entries(&rt, record.as_str(), 301)?;
    let world = world_in(&rt, other.as_str())?;
    dates_back(&rt, rt.alloc(), &world, record.as_str())?;
    drop(world);
    let world = stricter_world_in(&rt, folder.as_str())?;
    has_entries(&rt, record.as_str(), 1)?;
    makes(&rt, rt.alloc(), &world, &[b"a"], b"a")?;
    assert_eq!(rt; world.record_stamp(), Some(1_000_000_000_500_000_000));
    drop(world);
    remove(&rt, folder);
    Ok(())
}

/// Checks whether a world says that these outputs were last made by the edge of `a`.
fn made_with<W: World>(rt: &impl Abort, world: &W, answers: &[(&[u8], bool)]) -> Result<(), Fail> {
    for (output, answer) in answers {
        assert_eq!(rt; world.is_made_with(*output, b"a")?, *answer);
    }
    Ok(())
}

/// Makes `a` and `b` by the edge of `a`, and then `b` by an edge of its own. Checks the makers.
fn makers_change<R: Files + Print + Eprint + Wait + AllocGlobal, S: Shells, D: Disk>(
    rt: &impl Abort,
    alloc: Global,
    world: &RealWorld<R, S, D>,
) -> Result<(), Fail>
where
    R::File: Read + Write + Seek + OpenFile + SharedFile + Drop,
{
    makes(rt, alloc, world, &[b"a", b"b"], b"a")?;
    made_with(rt, world, &[(b"a", true), (b"b", true), (b"c", false)])?;
    assert!(rt; !world.is_made_with(b"b", b"c")?);
    makes(rt, alloc, world, &[b"b"], b"b")?;
    made_with(rt, world, &[(b"a", true), (b"b", false), (b"c", false)])
}

/// Checks that the record tells which edge made an output last.
#[test]
fn makers_of_outputs(rt: HostRuntime) -> Result<(), Fail> {
    let folder = folder(&rt, "makers")?;
    let world = stricter_world_in(&rt, folder.as_str())?;
    makers_change(&rt, rt.alloc(), &world)?;
    drop(world);
    let world = world_in(&rt, folder.as_str())?;
    made_with(&rt, &world, &[(b"a", true), (b"b", true), (b"c", true)])?;
    drop(world);
    remove(&rt, folder);
    Ok(())
}

/// Returns the paths of the entry of an output that are in the set of `y` and a path that isn't UTF-8.
fn wanted_among<W: World>(
    alloc: Global,
    world: &W,
    output: &[u8],
) -> Result<Option<RowList<u8>>, Fail> {
    let mut wanted = PathFilter::new(alloc, 2)?;
    wanted.add(b"y");
    wanted.add(b"\xff");
    Ok(world.recorded_among(alloc, output, &wanted)?)
}

/// Checks which paths of the entry of an output are in the set of `y` and a path that isn't UTF-8.
fn among_is<W: World>(
    rt: &impl Abort,
    alloc: Global,
    world: &W,
    output: &[u8],
    paths: &[&[u8]],
) -> Result<(), Fail> {
    match wanted_among(alloc, world, output)? {
        Some(found) => {
            assert_eq!(rt; found.len(), paths.len());
            for number in 0..paths.len() {
                assert_eq!(rt; found.row(number), paths[number]);
            }
        }
        None => panic!(rt; "no entry"),
    }
    Ok(())
}

/// Checks that no entry of an output tells its paths.
fn no_entry_tells<W: World>(
    rt: &impl Abort,
    alloc: Global,
    world: &W,
    output: &[u8],
) -> Result<(), Fail> {
    assert!(rt; wanted_among(alloc, world, output)?.is_none());
    Ok(())
}

/// Keeps an entry of an output that has these paths.
fn keeps_paths<W: World>(
    rt: &impl Abort,
    alloc: Global,
    world: &W,
    output: &[u8],
    paths: &[&[u8]],
) -> Result<(), Fail> {
    let paths = PathList::new(alloc, rows(alloc, paths)?)?;
    keep_is(rt, alloc, world, output, &paths, "kept")
}

/// Checks which paths of entries are found: as many before an entry has ended as after that.
fn wanted_paths_are_found<W: World>(rt: &impl Abort, alloc: Global, world: &W) -> Result<(), Fail> {
    keeps_paths(rt, alloc, world, b"a", &[b"x", b"y", b"z"])?;
    keeps_paths(rt, alloc, world, b"b", &[b"y", b"\xff"])?;
    keeps_paths(rt, alloc, world, b"d", &[b"x"])?;
    keeps_paths(rt, alloc, world, b"e", &[])?;
    among_is(rt, alloc, world, b"a", &[b"y"])?;
    no_entry_tells(rt, alloc, world, b"b")?;
    no_entry_tells(rt, alloc, world, b"c")?;
    among_is(rt, alloc, world, b"d", &[])?;
    no_entry_tells(rt, alloc, world, b"e")?;
    world.forget(b"a", b"")?;
    among_is(rt, alloc, world, b"a", &[b"y"])
}

/// Checks that the wanted paths of an entry are found, unless the entry is spoilt or has no paths.
#[test]
fn wanted_paths(rt: HostRuntime) -> Result<(), Fail> {
    let folder = folder(&rt, "wanted_paths")?;
    let world = world_in(&rt, folder.as_str())?;
    wanted_paths_are_found(&rt, rt.alloc(), &world)?;
    drop(world);
    remove(&rt, folder);
    Ok(())
}

/// Checks that a start entry tells no paths, although it names the first output of its edge.
#[test]
fn start_entry_tells_no_paths(rt: HostRuntime) -> Result<(), Fail> {
    let folder = folder(&rt, "no_wanted_paths")?;
    let world = stricter_world_in(&rt, folder.as_str())?;
    makes(&rt, rt.alloc(), &world, &[b"y", b"b"], b"y")?;
    no_entry_tells(&rt, rt.alloc(), &world, b"b")?;
    drop(world);
    remove(&rt, folder);
    Ok(())
}

/// Runs commands for `a` and for `b`, of which the first takes longer than a tick of the file system's clock. Checks
/// that none has begun before, and returns when the first one began.
fn first_of_two<R: Files + Print + Eprint + Wait + AllocGlobal, S: Shells, D: Disk>(
    rt: &impl Abort,
    alloc: Global,
    world: &RealWorld<R, S, D>,
) -> Result<u64, Fail>
where
    R::File: Read + Write + Seek + OpenFile + SharedFile + Drop,
{
    assert!(rt; world.first_begin().is_none());
    let outputs = rows(alloc, &[b"a"])?;
    start_is(rt, alloc, world, b"sleep 0.05", false, &outputs, "exit 0")?;
    let first = world.first_begin().unwrap_or(0);
    makes(rt, alloc, world, &[b"b"], b"b")?;
    assert_eq!(rt; world.first_begin(), Some(first));
    Ok(first)
}

/// Checks that a world of the stricter rule knows when its first command began: not before the record was written last.
#[test]
fn first_command_begins(rt: HostRuntime) -> Result<(), Fail> {
    let folder = folder(&rt, "first_command_begins")?;
    let record = format!(in rt.alloc(); "{folder}/record")?;
    write_entries(&rt, record.as_str(), 1)?;
    let world = stricter_world_in(&rt, folder.as_str())?;
    let first = first_of_two(&rt, rt.alloc(), &world)?;
    let opened = world.record_stamp().unwrap_or(u64::MAX);
    drop(world);
    assert!(rt; first >= opened);
    assert!(rt; first > 1_000_000_000_000_000_000);
    remove(&rt, folder);
    Ok(())
}

/// Checks that no command begins in a world of the specified rule.
#[test]
fn no_first_command(rt: HostRuntime) -> Result<(), Fail> {
    let folder = folder(&rt, "no_first_command")?;
    let world = world_in(&rt, folder.as_str())?;
    makes(&rt, rt.alloc(), &world, &[b"a"], b"a")?;
    let first = world.first_begin();
    drop(world);
    assert!(rt; first.is_none());
    remove(&rt, folder);
    Ok(())
}

/// Checks that a world knows the time now: not before a file that was just written, and not after one that is written
/// next. A world that doesn't hold the lock doesn't know it.
#[test]
fn time_of_files(rt: HostRuntime) -> Result<(), Fail> {
    let folder = folder(&rt, "time_of_files")?;
    let (before, after) = (
        format!(in rt.alloc(); "{folder}/before")?,
        format!(in rt.alloc(); "{folder}/after")?,
    );
    let world = stricter_world_in(&rt, folder.as_str())?;
    let outputs = rows(rt.alloc(), &[b"a"])?;
    start_is(
        &rt,
        rt.alloc(),
        &world,
        b"sleep 0.05",
        false,
        &outputs,
        "exit 0",
    )?;
    fs::write(&rt, before.as_str(), b"b")?;
    let now = world.now().unwrap_or(0);
    fs::write(&rt, after.as_str(), b"a")?;
    assert!(rt; world.stat_ahead(before.as_bytes()).unwrap_or(u64::MAX) <= now);
    assert!(rt; now <= world.stat_ahead(after.as_bytes()).unwrap_or(0));
    drop(world);
    remove(&rt, folder);
    Ok(())
}

/// Checks which of a folder, a file in it, a missing file and a path that isn't UTF-8 are files.
fn files_are<W: World>(
    rt: &impl Abort,
    alloc: Global,
    world: &W,
    folder: &str,
) -> Result<(), Fail> {
    let (file, missing) = (
        format!(in alloc; "{folder}/record")?,
        format!(in alloc; "{folder}/missing")?,
    );
    assert!(rt; !world.is_file(folder.as_bytes()));
    assert!(rt; world.is_file(file.as_bytes()));
    assert!(rt; !world.is_file(missing.as_bytes()));
    assert!(rt; !world.is_file(b"\xff"));
    Ok(())
}

/// Checks that a world tells files from folders.
#[test]
fn files_and_folders(rt: HostRuntime) -> Result<(), Fail> {
    let folder = folder(&rt, "folders")?;
    let world = world_in(&rt, folder.as_str())?;
    files_are(&rt, rt.alloc(), &world, folder.as_str())?;
    drop(world);
    remove(&rt, folder);
    Ok(())
}

/// Reads depfiles as a check before a build and as edges. Checks which of them have a start entry then.
fn read_depfiles<W: World>(
    rt: &impl Abort,
    world: &W,
    depfiles: &[(&[u8], u64, bool)],
) -> Result<(), Fail> {
    for (path, number, is_marked) in depfiles {
        drop(world.read_depfile(*number, *path)?);
        let reply = world.recall(0, *path)?;
        assert_eq!(rt; matches!(reply, Reply::Entry(_)), *is_marked);
        drop(reply);
    }
    Ok(())
}

/// Checks that a depfile which is missing or names nothing has a start entry once an edge has read it.
#[test]
fn depfiles_that_were_read(rt: HostRuntime) -> Result<(), Fail> {
    let folder = folder(&rt, "read_depfiles")?;
    let (missing, none, some) = (
        format!(in rt.alloc(); "{folder}/missing")?,
        format!(in rt.alloc(); "{folder}/none")?,
        format!(in rt.alloc(); "{folder}/some")?,
    );
    fs::write(&rt, none.as_str(), b"a:\n")?;
    fs::write(&rt, some.as_str(), b"a: b\n")?;
    let world = stricter_world_in(&rt, folder.as_str())?;
    let depfiles = [
        (missing.as_bytes(), 0, false),
        (none.as_bytes(), 0, false),
        (missing.as_bytes(), 1, true),
        (none.as_bytes(), 1, true),
        (some.as_bytes(), 1, false),
    ];
    read_depfiles(&rt, &world, &depfiles)?;
    drop(world);
    remove(&rt, folder);
    Ok(())
}

/// Shells that can't be started, and that count the bytes of the last reason.
#[derive(Drop)]
struct CountsReason<'a> {
    len: &'a AtomicU64,
}

impl Shells for CountsReason<'_> {
    ghost ended = { λ _ _. ⊥ };

    fn output(&self, _shell: PermittedShell, _edge: &[u8]) -> io::Result<Printed> {
        Err(io::Error::from(ErrorKind::NotFound))
    }

    fn explain(&self, _edge: &[u8], reason: &[u8]) {
        self.len.store(reason.len() as u64, Ordering::SeqCst);
    }

    fn wait_for_label(&self, _edge: &[u8]) {}

    fn status(&self, _shell: PermittedShell) -> io::Result<ExitStatus> {
        Err(io::Error::from(ErrorKind::NotFound))
    }
}

/// Checks that a reason of eight bytes is shown with this many bytes.
fn reason_has<W: World>(rt: &impl Abort, world: &W, output: &[u8], len: &AtomicU64, bytes: u64) {
    world.explain(output, b"observed");
    assert_eq!(rt; len.load(Ordering::SeqCst), bytes);
}

/// Checks that the reason why an entry ended is shown until the command of its edge has begun.
fn reasons_are_shown<R: Files + Print + Eprint + Wait + AllocGlobal, S: Shells, D: Disk>(
    rt: &impl Abort,
    alloc: Global,
    world: &RealWorld<R, S, D>,
    len: &AtomicU64,
) -> Result<(), Fail>
where
    R::File: Read + Write + Seek + OpenFile + SharedFile + Drop,
{
    reason_has(rt, world, b"a", len, 8);
    world.forget(b"a", b"why")?;
    world.forget(b"b", b"")?;
    reason_has(rt, world, b"a", len, 3);
    reason_has(rt, world, b"b", len, 8);
    let outputs = rows(alloc, &[b"a"])?;
    start_is(rt, alloc, world, b"true", false, &outputs, "not started")?;
    reason_has(rt, world, b"a", len, 8);
    Ok(())
}

/// Checks that the reason why an entry ended is shown instead of the one that the edge observed.
#[test]
fn reason_of_an_ended_entry(rt: HostRuntime) -> Result<(), Fail> {
    let folder = folder(&rt, "ended_reason")?;
    let record = format!(in rt.alloc(); "{folder}/record")?;
    let len = AtomicU64::new(0);
    let shells = CountsReason { len: &len };
    let world = RealWorld::open(
        rt.clone()?,
        shells,
        SystemDisk::new(rt.clone()?),
        record.as_str(),
    )?;
    reasons_are_shown(&rt, rt.alloc(), &world, &len)?;
    drop(world);
    remove(&rt, folder);
    Ok(())
}
