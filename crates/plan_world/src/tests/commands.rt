//! Commands that are started by the shell.

use super::*;
use crate::fault::DeviceFault;
use crate::running_shells::open_files_in;
use crate::{PermittedShell, Printed};
use std::io::{self, ErrorKind};
use std::process::ExitStatus;

/// Checks the replies, in words, to commands with these outputs. Each case states whether its command is a console
/// command.
fn starts_are<R: Files + Print + Eprint + Wait + AllocGlobal, S: Shells, D: Disk>(
    rt: &impl Abort,
    alloc: Global,
    world: &RealWorld<R, S, D>,
    outputs: &RowList<u8>,
    cases: &[(&[u8], bool, &str)],
) -> Result<(), Fail>
where
    R::File: Read + Write + Seek + OpenFile + SharedFile + Drop,
{
    for (command, console, reply) in cases {
        start_is(rt, alloc, world, *command, *console, outputs, *reply)?;
    }
    Ok(())
}

/// Checks that a console command writes to this program's own standard output, and that another command doesn't.
#[test]
fn console_commands(rt: HostRuntime) -> Result<(), Fail> {
    let folder = folder(&rt, "console_commands")?;
    let outputs = rows(rt.alloc(), &[b"out"])?;
    let same = b"test \"$(readlink /proc/$$/fd/1)\" = \"$(readlink /proc/$PPID/fd/1)\"".as_slice();
    let cases = [
        (same, true, "exit 0"),
        (same, false, "exit 1"),
        (b"exit 3".as_slice(), true, "exit 3"),
        (b"kill -9 $$".as_slice(), true, "signal"),
    ];
    let world = world_in(&rt, folder.as_str())?;
    starts_are(&rt, rt.alloc(), &world, &outputs, cases.as_slice())?;
    drop(world);
    remove(&rt, folder);
    Ok(())
}

/// Checks that a command isn't started if a folder of an output can't be created, or if there is no output.
fn needs_folders<R: Files + Print + Eprint + Wait + AllocGlobal, S: Shells, D: Disk>(
    rt: &impl Abort,
    alloc: Global,
    world: &RealWorld<R, S, D>,
    file: &[u8],
    below: &[u8],
) -> Result<(), Fail>
where
    R::File: Read + Write + Seek + OpenFile + SharedFile + Drop,
{
    let outputs = rows(alloc, &[below])?;
    start_is(rt, alloc, world, b"true", false, &outputs, "not started")?;
    let outputs = rows(alloc, &[file, b"\xff/out"])?;
    start_is(rt, alloc, world, b"true", false, &outputs, "not started")?;
    let outputs = rows(alloc, &[])?;
    start_is(rt, alloc, world, b"true", false, &outputs, "not started")
}

#[test]
fn commands(rt: HostRuntime) -> Result<(), Fail> {
    let folder = folder(&rt, "commands")?;
    let deep = format!(in rt.alloc(); "{folder}/one/two/out")?;
    let below = format!(in rt.alloc(); "{deep}/below")?;
    let outputs = rows(rt.alloc(), &[deep.as_bytes()])?;
    let write = format!(in rt.alloc(); "cat; pwd > {deep}; exit 3")?;
    let cases = [
        (b"kill -9 $$".as_slice(), false, "signal"),
        (b"-x".as_slice(), false, "exit 127"),
        (b"exit 255".as_slice(), false, "exit 255"),
        (b"true \xff".as_slice(), false, "not started"),
        (b"true \0".as_slice(), false, "not started"),
    ];
    let world = world_in(&rt, folder.as_str())?;
    start_is(
        &rt,
        rt.alloc(),
        &world,
        write.as_bytes(),
        false,
        &outputs,
        "exit 3",
    )?;
    starts_are(&rt, rt.alloc(), &world, &outputs, cases.as_slice())?;
    has_stamp(&rt, rt.alloc(), &world, deep.as_bytes())?;
    needs_folders(&rt, rt.alloc(), &world, deep.as_bytes(), below.as_bytes())?;
    drop(world);
    remove(&rt, folder);
    Ok(())
}

/// Shells that can't be started.
#[derive(Drop)]
struct NoShells;

impl Shells for NoShells {
    ghost ended = { λ _ _. ⊥ };

    fn output(&self, _shell: PermittedShell, _edge: &[u8]) -> io::Result<Printed> {
        Err(io::Error::from(ErrorKind::NotFound))
    }

    fn wait_for_label(&self, _edge: &[u8]) {}

    fn status(&self, _shell: PermittedShell) -> io::Result<ExitStatus> {
        Err(io::Error::from(ErrorKind::NotFound))
    }
}

/// Checks that a command counts as not started if its shell can't be started.
#[test]
fn no_shells(rt: HostRuntime) -> Result<(), Fail> {
    let folder = folder(&rt, "no_shells")?;
    let record = format!(in rt.alloc(); "{folder}/record")?;
    let outputs = rows(rt.alloc(), &[b"out"])?;
    let cases = [
        (b"true".as_slice(), false, "not started"),
        (b"true".as_slice(), true, "not started"),
    ];
    let world = RealWorld::open(
        rt.clone()?,
        NoShells,
        SystemDisk::new(rt.clone()?),
        record.as_str(),
    )?;
    starts_are(&rt, rt.alloc(), &world, &outputs, cases.as_slice())?;
    drop(world);
    remove(&rt, folder);
    Ok(())
}

/// Checks that the output of a command stays in its order if the command writes to both of its streams.
#[test]
fn both_streams_in_order(rt: HostRuntime) -> Result<(), Fail> {
    let alloc = rt.alloc();
    let command = b"echo a; echo b >&2; echo c; echo d >&2; exit 7";
    let permit = permit_of(alloc, command.as_slice(), false)?;
    let Ok(shell) = PermittedShell::of(alloc, permit, "", None) else {
        return Err(Fail::from(AllocError));
    };
    let shells = SystemShells::new(rt.clone()?);
    let Printed { status, text } = shells.output(shell, b"out")?;
    assert_eq!(rt; status.code(), Some(7));
    assert_eq!(rt; text.as_slice(), b"a\nb\nc\nd\n".as_slice());
    Ok(())
}

/// Checks that the limit of open files is found in the text of /proc/self/limits.
#[test]
fn limit_of_open_files(rt: HostRuntime) {
    let lines =
        b"Limit          Soft Limit   Hard Limit   Units     \nMax open files 1024  4096  files     \nMax 7\n";
    assert_eq!(rt; open_files_in(lines), Some(1024));
    assert_eq!(rt;
        open_files_in(b"Max open files      unlimited      unlimited      files\n"),
        None
    );
    assert_eq!(rt;
        open_files_in(b"Max processes       5              6              processes\n"),
        None
    );
    assert_eq!(rt; open_files_in(b"Max open files"), None);
}

/// Checks that reasons of the system are in the words of the C library, and others in those of their kind.
#[test]
fn reasons_in_words(rt: HostRuntime) -> Result<(), Fail> {
    for (number, words) in [
        (24i32, "Too many open files (os error 24)"),
        (28, "No space left on device (os error 28)"),
        (11, "Resource temporarily unavailable (os error 11)"),
    ] {
        let fault = DeviceFault::from(io::Error::from_raw_os_error(number));
        assert_eq!(rt; format!(in rt.alloc(); "{fault}")?.as_str(), words);
    }
    let fault = DeviceFault::System(ErrorKind::PermissionDenied, 0);
    assert_eq!(rt;
        format!(in rt.alloc(); "{fault}")?.as_str(),
        "permission denied"
    );
    let fault = DeviceFault::from(io::Error::from_raw_os_error(12));
    assert!(rt; fault == DeviceFault::Memory);
    Ok(())
}
