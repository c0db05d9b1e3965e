//! Runs commands by shells, and the trait of the shells.

ghost use Rattle.std.specs.Prelude.{◌≡◌, ◌↔◌, true, IfErr, IfOk, IsErr, IsUtf8, Ok, OnOk, Some, slice_get};
ghost use Rattle.std.specs.Io.KnownBytes.{Appends};
ghost use Rattle.plan_machine.specs.declared.event.reply.Reply.TheVariants.{NotStarted};
ghost use Rattle.plan_verify.specs.Turn.{Run};
ghost use Rattle.plan_world.specs.Answers.{IsAnswer, IsByShell};
ghost use Rattle.plan_world.specs.Shells.{AreTexts, HasRun, ending};

use crate::builder_lock::{BuilderLock, SharedFile};
use crate::fault::DeviceFault;
use crate::permitted_shell::PermittedShell;
use crate::reasons::say;
use crate::record_file::StartRecorded;
use crate::running_shells::RunningShells;
use plan_lanes::Permit;
use plan_machine::Reply;
use plan_output::shown_output;
use plan_text::RowList;
use std::alloc::{AllocError, Global};
use std::io::{self, ErrorKind, PipeReader, Read, Write};
use std::path::Path;
use std::process::{Child, ExitStatus, OpenProcess, Processes};
use std::rt::Files;
use std::sync::{Mutex, Wait};
use std::{fs, str};

/// Returns the reply to a command whose shell ended with this exit code, or by a signal if there is none.
fn exit_reply(code: Option<i32>) -> Reply
    ensures { result ≡ ending code }
{
    match code {
        Some(code) => match u8::try_from(code) {
            Ok(code) => Reply::Exit(code),
            Err(_) => Reply::Signal,
        },
        None => Reply::Signal,
    }
}

/// Returns the reply to a command, by how its shell ended or why it could not be run.
fn reply_of_shell(ended: Result<Option<i32>, DeviceFault>) -> Result<Reply, AllocError>
    ensures run { IfOk ended (λ code. result ≡ Ok (ending code)) }
    ensures not { IfErr ended (λ _. IfOk result (λ r. r ≡ NotStarted)) }
    ensures memory { IfErr ended (λ e. IsErr result ↔ (e ≡ DeviceFault.Memory)) }
{
    match ended {
        Ok(code) => Ok(exit_reply(code)),
        Err(fault) => fault.or_reply(Reply::NotStarted),
    }
}

/// Writes the output of a command.
fn write_printed<W: Write>(out: &mut W, text: &[u8]) -> io::Result<()>
    ensures { OnOk result (Appends (W.contents out.old) (W.contents out.new) text.now) }
{
    out.write_all(text)?;
    out.flush()
}

/// Writes the output of a command to this program's standard output, and a line feed if its last line has none. Locks
/// the screen meanwhile, so that no other command's output comes between. A write that fails is ignored here: the
/// status lines that follow fail as well, and report it.
fn show<R: Print + Wait + AllocGlobal>(
    rt: &R,
    screen: &Mutex<()>,
    text: Vec<u8>,
) -> Result<(), AllocError> {
    if text.is_empty() {
        return Ok(());
    }
    let text = shown_output(rt.alloc(), text, true)?;
    let guard = screen.lock(rt);
    let mut out = io::writer(rt);
    let _ = write_printed(&mut out, &text);
    drop(guard);
    Ok(())
}

/// Creates the folder of a path if it is missing.
fn create_folder<R: Files>(rt: &R, path: &str) -> Result<(), DeviceFault> {
    match Path::new(path).parent() {
        Some(folder) if !folder.as_str().is_empty() => Ok(fs::create_dir_all(rt, folder)?),
        _ => Ok(()),
    }
}

/// Creates the folder of a file if it is missing, and returns whether it exists now. If it can't be created, reports
/// the reason on standard error.
fn make_folder<R: Files + Eprint>(rt: &R, file: &[u8]) -> bool
    ensures { result ≡ true → IsUtf8 file.now }
{
    let Ok(path) = str::from_utf8(file) else {
        return false;
    };
    match create_folder(rt, path) {
        Ok(()) => true,
        Err(fault) => {
            say(rt, "can't create the folder of", file, fault);
            false
        }
    }
}

/// Creates the missing folders of files, and returns whether all exist now.
pub(crate) fn make_folders<R: Files + Eprint>(rt: &R, files: &RowList<u8>) -> bool
    ensures { result ≡ true → AreTexts files.now }
{
    for number in 0..files.len() {
        if !make_folder(rt, files.row(number)) {
            return false;
        }
    }
    true
}

/// Runs a shell, shows the output of its command, and returns its exit code. Returns None if a signal ended it.
fn run_aside<R: Print + Wait + AllocGlobal, S: Shells>(
    rt: &R,
    screen: &Mutex<()>,
    shells: &S,
    shell: PermittedShell,
    edge: &[u8],
) -> Result<Option<i32>, DeviceFault>
    ensures { IfOk result (λ code. S.ended shell.shell code) }
{
    let Printed { status, text } = shells.output(shell, edge)?;
    show(rt, screen, text)?;
    Ok(status.code())
}

/// Runs a shell whose command has this program's own standard input, output and error, and returns its exit code.
/// Returns None if a signal ended it. Locks the screen while the shell runs, so that nothing else is printed.
fn run_on_terminal<R: Wait, S: Shells>(
    rt: &R,
    screen: &Mutex<()>,
    shells: &S,
    shell: PermittedShell,
    edge: &[u8],
) -> Result<Option<i32>, DeviceFault>
    ensures { IfOk result (λ code. S.ended shell.shell code) }
{
    shells.wait_for_label(edge);
    let guard = screen.lock(rt);
    let status = shells.status(shell)?;
    drop(guard);
    Ok(status.code())
}

/// Reports on standard error why the shell of an edge's command could not be run, if it could not. Reports nothing if
/// nobody reads what commands print: then no command is started, and the program says so when it ends.
fn say_if_lost<R: Eprint>(rt: &R, output: &[u8], ended: Result<Option<i32>, DeviceFault>) {
    match ended {
        Ok(_) | Err(DeviceFault::System(ErrorKind::BrokenPipe, _)) => {}
        Err(fault) => say(rt, "can't start the command of", output, fault),
    }
}

/// Runs the command of a permit by a shell whose standard input is the file of the lock, and shows its output.
///
/// # Errors
/// The file can't be given to the shell, the shell can't be started or waited for, and `Memory`.
fn run_with<R: Print + Wait + AllocGlobal, S: Shells, F: SharedFile>(
    rt: &R,
    screen: &Mutex<()>,
    shells: &S,
    permit: Permit,
    records: &str,
    lock: &BuilderLock<F>,
    edge: &[u8],
) -> Result<Option<i32>, DeviceFault>
    ensures { IfOk result (λ code. HasRun S.ended permit.command code) }
{
    let input = match lock.input() {
        Ok(input) => input,
        Err(error) => {
            permit.spend();
            return Err(DeviceFault::from(error));
        }
    };
    let shell = PermittedShell::of(rt.alloc(), permit, records, Some(input))?;
    run_aside(rt, screen, shells, shell, edge)
}

/// Runs a command like `run_with`, when one more shell may run.
fn run_in_turn<R: Print + Wait + AllocGlobal, S: Shells, F: SharedFile>(
    rt: &R,
    screen: &Mutex<()>,
    shells: &S,
    permit: Permit,
    records: &str,
    lock: &BuilderLock<F>,
    edge: &[u8],
) -> Result<Option<i32>, DeviceFault>
    ensures { IfOk result (λ code. HasRun S.ended permit.command code) }
{
    shells.wait_for_turn();
    let ended = run_with(rt, screen, shells, permit, records, lock, edge);
    shells.end_turn();
    ended
}

/// Runs the command of a permit by a shell, on the terminal if it is a console command.
fn run_permitted<R: Print + Wait + AllocGlobal, S: Shells, F: SharedFile>(
    rt: &R,
    screen: &Mutex<()>,
    shells: &S,
    permit: Permit,
    lock: &BuilderLock<F>,
    edge: &[u8],
) -> Result<Option<i32>, DeviceFault>
    ensures { IfOk result (λ code. HasRun S.ended permit.command code) }
{
    let records = lock.names();
    if permit.console() {
        let shell = PermittedShell::of(rt.alloc(), permit, records, None)?;
        return run_on_terminal(rt, screen, shells, shell, edge);
    }
    run_in_turn(rt, screen, shells, permit, records, lock, edge)
}

/// Runs the command of a permit, whose edge has its start entry in the record. A console command runs on the terminal.
/// The standard input of any other command is the empty file of the lock, which it then shares, and its output is shown
/// when it has ended. If the shell can't be started, reports the reason on standard error.
///
/// # Errors
/// `AllocError` if memory runs out. If it ran out for the output of the command, the command was killed.
pub(crate) fn run_shell<R: Print + Eprint + Wait + AllocGlobal, S: Shells, F: SharedFile>(
    rt: &R,
    screen: &Mutex<()>,
    shells: &S,
    permit: Permit,
    outputs: &RowList<u8>,
    lock: &BuilderLock<F>,
    begun: StartRecorded<'_>,
) -> Result<Reply, AllocError>
    requires { slice_get outputs.now 0 ≡ Some begun }
    ensures suits { IfOk result (λ r. IsAnswer (Run permit.command outputs.now) r) }
    ensures no_text { ¬ (IsUtf8 permit.command) → result ≡ Ok NotStarted }
    ensures ran { IfOk result (λ r. IsByShell S.ended permit.command r) }
{
    if str::from_utf8(permit.command()).is_err() {
        permit.spend();
        return Ok(Reply::NotStarted);
    }
    let ended = run_permitted(rt, screen, shells, permit, lock, outputs.row(0));
    say_if_lost(rt, outputs.row(0), ended);
    reply_of_shell(ended)
}

/// The output of a command, and the exit status of its shell.
#[derive(Drop)]
pub struct Printed {
    /// The exit status of the shell.
    pub status: ExitStatus,
    /// The bytes that the command wrote to its standard output and its standard error, in the order in which it wrote
    /// them.
    pub text: Vec<u8>,
}

/// Starts shells, and waits until they have ended. `RealWorld` learns only from this trait how a command ended. Its
/// proofs hold for every implementation, whatever its `ended` means.
pub trait Shells {
    ghost use Rattle.std.specs.Prelude.{IfOk, Option, ℤ};
    ghost use Rattle.std.specs.Process.{exit_code};
    ghost use Rattle.std.specs.declared.alloc.Global.{Global};
    ghost use Rattle.std.specs.declared.process.command.Command.{Command as Shell};

    /// This shell, which a permit started, was waited for. It ended with this status, or without a status if a signal
    /// ended it.
    ghost ended: { Shell Global → Option ℤ → Type 0 };

    /// Runs the shell of an edge with the standard input that it has. Returns its exit status, and the part of its
    /// output that the caller has to show now. `edge` is the first output of the edge.
    ///
    /// # Errors
    /// The shell can't be started or waited for, or memory runs out for its output. Then the shell was killed.
    fn output(&self, shell: PermittedShell, edge: &[u8]) -> io::Result<Printed>
        ensures { IfOk result (λ printed. Self.ended shell.shell (exit_code printed.status)) };

    /// Shows the reason why the command of an edge is going to run. `edge` is the first output of the edge. The screen
    /// isn't locked.
    fn explain(&self, _edge: &[u8], _reason: &[u8]) {}

    /// Waits until one more shell may run, before a call of `output`.
    fn wait_for_turn(&self) {}

    /// Notes that the shell that waited for its turn has ended, or can't be started.
    fn end_turn(&self) {}

    /// Waits until the label of an edge whose command gets the terminal is shown, or until it can no longer be
    /// expected. `edge` is the first output of the edge. The screen isn't locked.
    fn wait_for_label(&self, edge: &[u8]);

    /// Runs a shell with this program's own standard input, output and error, and returns its exit status.
    ///
    /// # Errors
    /// The shell can't be started or waited for.
    fn status(&self, shell: PermittedShell) -> io::Result<ExitStatus>
        ensures { IfOk result (λ status. Self.ended shell.shell (exit_code status)) };
}

/// The system's shells. The kit's contracts say nothing about a process that was started. So `ended` allows everything
/// here, and it is trusted, not proved, that the two calls run the given shells.
#[derive(Drop)]
pub struct SystemShells<R> {
    rt: R,
    running: RunningShells,
}

impl<R> SystemShells<R> {
    /// Returns the shells of a runtime.
    pub fn new(rt: R) -> SystemShells<R> {
        SystemShells {
            rt,
            running: RunningShells::new(),
        }
    }

    /// Borrows the runtime.
    pub fn runtime(&self) -> &R {
        &self.rt
    }
}

/// Reads from a pipe until each process has closed it, and waits for a child. If the read fails, kills the child.
fn read_until_end<P: OpenProcess, R: Read>(
    child: &mut Child<P>,
    pipe: &mut R,
    text: &mut Vec<u8>,
) -> io::Result<ExitStatus> {
    match pipe.read_to_end(text) {
        Ok(_) => child.wait(),
        Err(error) => {
            if child.kill().is_ok() {
                let _ = child.wait();
            }
            Err(error)
        }
    }
}

/// Starts a shell whose standard output and standard error are one pipe, so that bytes which are written to both stay
/// in their order. Returns the reading end of the pipe, too. This program's writing ends are closed then, so reading
/// ends when the command has.
fn started<R: Processes + Files>(
    rt: &R,
    shell: PermittedShell,
) -> io::Result<(Child<R::Started>, PipeReader)> {
    let mut shell = shell.into_shell();
    let (reader, writer) = io::pipe(rt)?;
    shell.stdout(writer.try_clone()?);
    shell.stderr(writer);
    let child = shell.spawn(rt)?;
    Ok((child, reader))
}

/// Returns what a shell prints to a pipe, and its exit status, when it has ended.
fn printed_by<P: OpenProcess + Drop>(
    alloc: Global,
    child: Child<P>,
    reader: PipeReader,
) -> io::Result<Printed> {
    let (mut child, mut reader) = (child, reader);
    let mut text = Vec::new(alloc);
    let status = read_until_end(&mut child, &mut reader, &mut text)?;
    Ok(Printed { status, text })
}

impl<R: Processes + Files + Wait + Eprint + AllocGlobal> Shells for SystemShells<R> {
    ghost ended = { λ _ _. Unit {0} };

    fn output(&self, shell: PermittedShell, _edge: &[u8]) -> io::Result<Printed> {
        self.running.begin_start(&self.rt);
        let started = started(&self.rt, shell);
        self.running.end_start(&self.rt);
        let (child, reader) = started?;
        printed_by(self.rt.alloc(), child, reader)
    }

    fn wait_for_turn(&self) {
        self.running.begin(&self.rt);
    }

    fn end_turn(&self) {
        self.running.end(&self.rt);
    }

    /// Returns at once, since labels come after commands.
    fn wait_for_label(&self, _edge: &[u8]) {}

    fn status(&self, shell: PermittedShell) -> io::Result<ExitStatus> {
        let mut shell = shell.into_shell();
        shell.status(&self.rt)
    }
}
