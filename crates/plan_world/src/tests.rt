//! Tests with real files and commands. Each test has its own folder.

mod begins;
mod commands;
mod disk;
mod failing;
mod kept_paths;
mod ninja_deps;
mod ninja_log;
mod ninja_runs;
mod orders;
mod reading;
mod recalling;
mod record;

use crate::holders::{BuilderName, builder_named, holder_in_line};
use crate::processes::{FileName, process_in};
use crate::tests::orders::{order_of, permit_of};
use crate::{
    Disk, Process, RealWorld, SharedFile, Shells, SystemDisk, SystemShells, all_processes,
    own_process, with_below,
};
use plan_lanes::World;
use plan_machine::{Depfile, Recorded, Reply};
use plan_text::RowList;
use plan_verify::PathList;
use std::alloc::{AllocError, Global};
use std::fs::OpenFile;
use std::io::{Read, Seek, Write};
use std::process::Abort;
use std::rt::Files;
use std::sync::Wait;
use std::test::Fail;
use std::{fs, process};

/// A world of the system's shells and files.
type SystemWorld = RealWorld<HostRuntime, SystemShells<HostRuntime>, SystemDisk<HostRuntime>>;

/// The entry of output `a`, command `t`, basis 7 and no paths.
const ENTRY: [u8; 24] = [
    0, 0, 0, 20, 0, 1, b'a', 0, 0, 0, 1, b't', 0, 0, 0, 0, 0, 0, 0, 7, 0, 0, 0, 0,
];

/// The entry of output `a` whose edge was begun.
const BEGUN_ENTRY: [u8; 41] =
    *b"\0\0\0\x25\0\x01a\0\0\0\x01\0\0\0\0\0\0\0\0\0\0\0\0\x01\0\x0f/dev/null/begun";

/// Creates an empty folder for this test.
fn folder(rt: &HostRuntime, name: &str) -> Result<String, Fail> {
    let path = format!(in rt.alloc(); "/tmp/plan_world-{name}-{}", process::id(rt.process()))?;
    let _ = fs::remove_dir_all(rt, path.as_str());
    fs::create_dir_all(rt, path.as_str())?;
    Ok(path)
}

/// Removes the folder of a test.
fn remove<R: Files + Abort + AllocGlobal>(rt: &R, folder: String) {
    assert!(rt; fs::remove_dir_all(rt, folder.as_str()).is_ok());
}

/// Returns these paths as rows, in order.
fn rows(alloc: Global, paths: &[&[u8]]) -> Result<RowList<u8>, AllocError> {
    let mut rows = RowList::new(alloc);
    for path in paths {
        rows.push(*path)?;
    }
    Ok(rows)
}

/// Returns a reply in words.
fn said(alloc: Global, reply: Reply) -> Result<String, AllocError> {
    match reply {
        Reply::Stamp(stamp) => format!(in alloc; "stamp {stamp}"),
        Reply::Entry(_) => format!(in alloc; "entry"),
        Reply::Nothing => format!(in alloc; "nothing"),
        Reply::Exit(status) => format!(in alloc; "exit {status}"),
        Reply::Signal => format!(in alloc; "signal"),
        Reply::NotStarted => format!(in alloc; "not started"),
        Reply::Bytes(_) => format!(in alloc; "bytes"),
        Reply::Kept => format!(in alloc; "kept"),
        Reply::Fault => format!(in alloc; "fault"),
    }
}

/// Opens a world with its record in a folder.
fn world_in(rt: &HostRuntime, folder: &str) -> Result<SystemWorld, Fail> {
    let record = format!(in rt.alloc(); "{folder}/record")?;
    Ok(RealWorld::open(
        rt.clone()?,
        SystemShells::new(rt.clone()?),
        SystemDisk::new(rt.clone()?),
        record.as_str(),
    )?)
}

/// Returns the bytes of a record that has the entry of 24 bytes this many times.
fn entries(alloc: Global, count: usize) -> Result<Vec<u8>, AllocError> {
    let mut bytes = Vec::new(alloc);
    for _ in 0..count {
        bytes.extend_from_slice(&ENTRY)?;
    }
    Ok(bytes)
}

/// Writes a record that has the entry of 24 bytes this many times.
fn write_entries(rt: &HostRuntime, record: &str, count: usize) -> Result<(), Fail> {
    let bytes = entries(rt.alloc(), count)?;
    fs::write(rt, record, bytes.as_slice())?;
    Ok(())
}

/// Checks the reply, in words, to a question for a stamp.
fn stat_is<W: World>(
    rt: &impl Abort,
    alloc: Global,
    world: &W,
    path: &[u8],
    reply: &str,
) -> Result<(), Fail> {
    let answer = said(alloc, world.stat(0, path)?)?;
    assert_eq!(rt; answer.as_str(), reply);
    Ok(())
}

/// Checks that a path has a stamp other than 0.
fn has_stamp<W: World>(rt: &impl Abort, alloc: Global, world: &W, path: &[u8]) -> Result<(), Fail> {
    let answer = said(alloc, world.stat(0, path)?)?;
    assert_ne!(rt; answer.as_str(), "stamp 0");
    Ok(())
}

/// Checks the reply, in words, to a command.
fn start_is<R: Files + Print + Eprint + Wait + AllocGlobal, S: Shells, D: Disk>(
    rt: &impl Abort,
    alloc: Global,
    world: &RealWorld<R, S, D>,
    command: &[u8],
    console: bool,
    outputs: &RowList<u8>,
    reply: &str,
) -> Result<(), Fail>
where
    R::File: Read + Write + Seek + OpenFile + SharedFile + Drop,
{
    let permit = permit_of(alloc, command, console)?;
    let answer = said(alloc, world.start(permit, outputs)?)?;
    assert_eq!(rt; answer.as_str(), reply);
    Ok(())
}

/// Checks the reply, in words, to an entry of an output with the command `t`, the basis 7 and these paths.
fn keep_is<W: World>(
    rt: &impl Abort,
    alloc: Global,
    world: &W,
    output: &[u8],
    paths: &PathList,
    reply: &str,
) -> Result<(), Fail> {
    let order = order_of(alloc, output, b"t", 7, paths)?;
    let answer = said(alloc, world.keep(0, &order)?)?;
    assert_eq!(rt; answer.as_str(), reply);
    Ok(())
}

/// Checks the reply, in words, to a question for what the record has for the output `a`.
fn recall_is<W: World>(rt: &impl Abort, alloc: Global, world: &W, reply: &str) -> Result<(), Fail> {
    let answer = said(alloc, world.recall(0, b"a")?)?;
    assert_eq!(rt; answer.as_str(), reply);
    Ok(())
}

/// Returns what the record has for an output.
fn recalled<W: World>(world: &W, output: &[u8]) -> Result<Recorded, Fail> {
    match world.recall(0, output)? {
        Reply::Entry(recorded) => Ok(recorded),
        _ => Err(Fail::from(AllocError)),
    }
}

/// Returns the basis that the record has for an output.
fn basis_of<W: World>(world: &W, output: &[u8]) -> Result<u64, Fail> {
    Ok(recalled(world, output)?.basis())
}

/// Checks that a file has these bytes.
fn file_is<R: Files + Abort + AllocGlobal>(rt: &R, path: &str, bytes: &[u8]) -> Result<(), Fail> {
    let found = fs::read(rt, path)?;
    assert_eq!(rt; found.as_slice(), bytes);
    Ok(())
}

/// Checks that a file has the entry of 24 bytes this many times.
fn has_entries<R: Files + Abort + AllocGlobal>(
    rt: &R,
    path: &str,
    count: usize,
) -> Result<(), Fail> {
    let bytes = entries(rt.alloc(), count)?;
    file_is(rt, path, &bytes)
}

/// Checks that a file has this length.
fn length_is<R: Files + Abort + AllocGlobal>(rt: &R, path: &str, len: usize) -> Result<(), Fail> {
    let found = fs::read(rt, path)?;
    assert_eq!(rt; found.len(), len);
    Ok(())
}

/// Checks at compile time that several lanes may share a world.
fn shared<W: World + Send + Sync>(_world: &W) {}

/// Checks that threads can borrow a world.
#[test]
fn lent_to_lanes(rt: HostRuntime) -> Result<(), Fail> {
    let folder = folder(&rt, "lent")?;
    let world = world_in(&rt, folder.as_str())?;
    shared(&world);
    drop(world);
    remove(&rt, folder);
    Ok(())
}

/// Checks the stamp of a file after a command set its date.
fn dates_are_stamps<R: Files + Print + Eprint + Wait + AllocGlobal, S: Shells, D: Disk>(
    rt: &impl Abort,
    alloc: Global,
    world: &RealWorld<R, S, D>,
    file: &str,
) -> Result<(), Fail>
where
    R::File: Read + Write + Seek + OpenFile + SharedFile + Drop,
{
    let outputs = rows(alloc, &[file.as_bytes()])?;
    for (date, stamp) in [
        ("1000000000.000000007", "stamp 1000000000000000007"),
        ("13569465600", "stamp 13569465600000000000"),
        ("0", "stamp 1"),
        ("-5", "stamp 1"),
    ] {
        let command = format!(in alloc; "touch -d @{date} {file}")?;
        start_is(
            rt,
            alloc,
            world,
            command.as_bytes(),
            false,
            &outputs,
            "exit 0",
        )?;
        stat_is(rt, alloc, world, file.as_bytes(), stamp)?;
    }
    Ok(())
}

/// Checks the stamps of paths without a file, of a folder, and of a path that the system can't be asked about.
fn other_stamps<W: World>(
    rt: &impl Abort,
    alloc: Global,
    world: &W,
    folder: &str,
) -> Result<(), Fail> {
    let missing = format!(in alloc; "{folder}/missing")?;
    stat_is(rt, alloc, world, missing.as_bytes(), "stamp 0")?;
    let below = format!(in alloc; "{folder}/file/below")?;
    stat_is(rt, alloc, world, below.as_bytes(), "stamp 0")?;
    stat_is(rt, alloc, world, b"/dev/null/begun", "stamp 0")?;
    has_stamp(rt, alloc, world, folder.as_bytes())?;
    stat_is(rt, alloc, world, b"\xff", "fault")
}

#[test]
fn stamps(rt: HostRuntime) -> Result<(), Fail> {
    let folder = folder(&rt, "stamps")?;
    let file = format!(in rt.alloc(); "{folder}/file")?;
    let world = world_in(&rt, folder.as_str())?;
    dates_are_stamps(&rt, rt.alloc(), &world, file.as_str())?;
    other_stamps(&rt, rt.alloc(), &world, folder.as_str())?;
    drop(world);
    remove(&rt, folder);
    Ok(())
}

/// Returns a depfile that is longer than a buffer, with the path `ab` at its end.
fn long_depfile(alloc: Global) -> Result<Vec<u8>, AllocError> {
    let mut text = vec![in alloc; b' '; 65_537]?;
    text[0] = b'o';
    text[1] = b':';
    text[65_535] = b'a';
    text[65_536] = b'b';
    Ok(text)
}

/// Checks that a depfile has these bytes and the path `ab`.
fn is_depfile(rt: &impl Abort, alloc: Global, depfile: &Depfile, text: &[u8]) -> Result<(), Fail> {
    assert_eq!(rt; depfile.bytes(), text);
    match depfile.result(alloc)? {
        Ok(paths) => {
            assert_eq!(rt; paths.len(), 1);
            assert_eq!(rt; paths.path(0), b"ab".as_slice());
            Ok(())
        }
        Err(_) => panic!(rt; "a fault"),
    }
}

/// Checks that the depfile at a path has these bytes and the path `ab`.
fn has_depfile<W: World>(
    rt: &impl Abort,
    alloc: Global,
    world: &W,
    path: &[u8],
    text: &[u8],
) -> Result<(), Fail> {
    match world.read_depfile(0, path)? {
        Reply::Bytes(depfile) => is_depfile(rt, alloc, &depfile, text),
        _ => panic!(rt; "no bytes"),
    }
}

/// Checks the reply, in words, to a question for a depfile.
fn depfile_is<W: World>(
    rt: &impl Abort,
    alloc: Global,
    world: &W,
    path: &[u8],
    reply: &str,
) -> Result<(), Fail> {
    let answer = said(alloc, world.read_depfile(0, path)?)?;
    assert_eq!(rt; answer.as_str(), reply);
    Ok(())
}

#[test]
fn depfiles(rt: HostRuntime) -> Result<(), Fail> {
    let folder = folder(&rt, "depfiles")?;
    let path = format!(in rt.alloc(); "{folder}/out.d")?;
    let missing = format!(in rt.alloc(); "{folder}/missing.d")?;
    let text = long_depfile(rt.alloc())?;
    fs::write(&rt, path.as_str(), text.as_slice())?;
    let world = world_in(&rt, folder.as_str())?;
    has_depfile(&rt, rt.alloc(), &world, path.as_bytes(), &text)?;
    depfile_is(&rt, rt.alloc(), &world, missing.as_bytes(), "nothing")?;
    depfile_is(&rt, rt.alloc(), &world, folder.as_bytes(), "fault")?;
    depfile_is(&rt, rt.alloc(), &world, b"\xff", "fault")?;
    drop(world);
    remove(&rt, folder);
    Ok(())
}

/// Checks what is read in a line of /proc/PID/stat. The name of the process has blanks and parentheses.
#[test]
fn lines_of_processes(rt: HostRuntime) -> Result<(), Fail> {
    let line = b"31 (a) b (c) S 7 30 29 0 -1 4 5 6 7 8 9 10 11 12 20 0 1 0 987 1 2".as_slice();
    let process = Process {
        number: 31,
        parent: 7,
        session: 29,
        start: 987,
    };
    assert!(rt; process_in(line) == Some(process));
    assert!(rt;
        process_in(b"31 (a) Z 7 30 29 0 -1 4 5 6 7 8 9 10 11 12 20 0 1 0 987 1 2").is_none()
    );
    assert!(rt; process_in(b"31 (a) S 7 30").is_none());
    assert!(rt; process_in(b"").is_none());
    Ok(())
}

/// Checks who holds a lock by a line of /proc/locks.
#[test]
fn lines_of_locks(rt: HostRuntime) -> Result<(), Fail> {
    let held = b"7: FLOCK  ADVISORY  WRITE 1234 fe:00:567 0 EOF".as_slice();
    assert!(rt; holder_in_line(held, 567) == Some(1234));
    assert!(rt; holder_in_line(held, 56).is_none());
    assert!(rt;
        holder_in_line(b"7: -> FLOCK  ADVISORY  WRITE 1234 fe:00:567 0 EOF", 567).is_none()
    );
    assert!(rt; holder_in_line(b"7: POSIX  ADVISORY  WRITE 1234 fe:00:567 0 EOF", 567).is_none());
    assert!(rt; holder_in_line(b"", 567).is_none());
    Ok(())
}

/// Checks which builder a name is of.
#[test]
fn names_of_builders(rt: HostRuntime) -> Result<(), Fail> {
    let builder = BuilderName {
        lock: FileName {
            device: 1,
            inode: 2,
        },
        process: 34,
        start: 56,
    };
    assert!(rt; builder_named(b"1:2:34:56") == Some(builder));
    assert!(rt; builder_named(b"1:2").is_none());
    assert!(rt; builder_named(b"").is_none());
    Ok(())
}

/// Checks that this process is found among all, and that what is below a process is found.
#[test]
fn own_process_is_shown(rt: HostRuntime) -> Result<(), Fail> {
    let Some(own) = own_process(&rt) else {
        return Err(Fail::from(AllocError));
    };
    let all = all_processes(&rt)?;
    let below = with_below(rt.alloc(), &all, &[own.parent])?;
    assert_eq!(rt; own.number, u64::from(process::id(rt.process())));
    assert!(rt; all.contains(&own));
    assert!(rt; below.contains(&own.number));
    Ok(())
}
