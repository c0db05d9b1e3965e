//! A process that waits for the end of this builder. If the builder ends early, it stops the commands that still run.

use plan_world::{Process, VARIABLE, all_processes, own_process, with_below};
use std::alloc::{AllocError, Global};
use std::io::{self, PipeReader, PipeWriter, Write};
use std::process::{Command, Processes, Stdio};
use std::rt::{Clock, Files};
use std::sync::{Mutex, Wait};
use std::time::Duration;
use std::{fs, thread};

/// The word of the command line by which the process stops commands. The name of their builder follows.
pub const STOP_COMMANDS: &str = "--stop-commands-of";

/// Waits for a line, or for the end of its input. A key of the terminal reaches commands too, so nothing is left to do.
/// Other signals that end a builder don't end this shell. `$1` is the path of this program, and `$2` the name of the
/// builder.
const SCRIPT: &str =
    "trap 'exit 0' INT QUIT; trap '' TERM HUP PIPE; read -r line && exit 0; exec \"$1\" --stop-commands-of \"$2\"";

/// The process that waits, if it was started.
#[derive(Drop)]
enum Watch {
    /// No command has begun.
    Idle,
    /// The process waits at the other end of this pipe.
    Waiting(PipeWriter),
    /// The process can't be started. A build goes on without it.
    Missing,
}

/// Is told of each shell before it starts. The shells of a build reach what it does only by this trait, so they can't
/// start a process of their own.
pub trait ShellWatcher {
    /// Notes that this shell is about to start.
    fn begin(&self, shell: &Command);
}

/// Starts the process that waits before the first command begins.
#[derive(Drop)]
pub struct Watcher<'a, R> {
    rt: &'a R,
    watch: Mutex<Watch>,
}

/// Returns the last of the names in the variable: the builder's own.
fn last_name(names: &str) -> &str {
    match names.rsplit_once(' ') {
        Some((_, name)) => name,
        None => names,
    }
}

/// Returns the names of the builders above a command, its own builder last.
fn names_in(shell: &Command) -> Option<&str> {
    for (key, value) in shell.get_envs() {
        if key == VARIABLE {
            return value;
        }
    }
    None
}

/// Adds the words of the shell that waits.
fn add_words(shell: &mut Command, program: &str, name: &str) -> io::Result<()> {
    shell.arg("-c")?.arg(SCRIPT)?.arg("plan_build")?;
    shell.arg(program)?.arg(name)?;
    Ok(())
}

/// Returns the shell that waits for the end of the builder with this name. It shows nothing.
fn waiting_shell<R: AllocGlobal>(rt: &R, program: &str, name: &str) -> io::Result<Command> {
    let mut shell = Command::new(rt.alloc(), "/bin/sh")?;
    shell.stdout(Stdio::null());
    shell.stderr(Stdio::null());
    add_words(&mut shell, program, name)?;
    Ok(shell)
}

/// Starts a shell with this standard input.
fn spawn<R: Processes>(rt: &R, shell: Command, input: PipeReader) -> io::Result<()> {
    let mut shell = shell;
    shell.stdin(input);
    let _child = shell.spawn(rt)?;
    Ok(())
}

/// Starts the shell that waits for the end of the builder with this name.
fn start<R: Processes + Files + AllocGlobal>(rt: &R, name: &str) -> io::Result<PipeWriter> {
    let program = fs::read_link(rt, "/proc/self/exe")?;
    let shell = waiting_shell(rt, program.as_str(), name)?;
    let (reader, writer) = io::pipe(rt)?;
    spawn(rt, shell, reader)?;
    Ok(writer)
}

impl<'a, R> Watcher<'a, R> {
    /// Returns a watcher that has started no process.
    pub fn new(rt: &'a R) -> Watcher<'a, R> {
        Watcher {
            rt,
            watch: Mutex::new(Watch::Idle),
        }
    }
}

impl<R: Processes + Files + Wait + AllocGlobal> ShellWatcher for Watcher<'_, R> {
    /// Starts the process before the first command begins.
    fn begin(&self, shell: &Command) {
        let mut watch = self.watch.lock(self.rt);
        if let Watch::Idle = *watch {
            *watch = match names_in(shell) {
                Some(names) => started(self.rt, last_name(names)),
                None => Watch::Missing,
            };
        }
    }
}

impl<R: Wait> Watcher<'_, R> {
    /// Ends the process, since all commands have ended.
    pub fn end(&self) {
        let mut watch = self.watch.lock(self.rt);
        if let Watch::Waiting(writer) = &mut *watch {
            let _ = writer.write_all(b"\n");
        }
    }
}

/// Starts the process for the builder with this name.
fn started<R: Processes + Files + AllocGlobal>(rt: &R, name: &str) -> Watch {
    match start(rt, name) {
        Ok(writer) => Watch::Waiting(writer),
        Err(_) => Watch::Missing,
    }
}

/// Checks whether a list of names, with blanks between them, has a name.
fn has_name(names: &[u8], name: &[u8]) -> bool {
    names.split(|byte| *byte == b' ').any(|one| one == name)
}

/// Checks whether one of the variables of an environment names a builder. Each variable ends at a NUL byte.
fn names_builder(environment: &[u8], name: &[u8]) -> bool {
    for variable in environment.split(|byte| *byte == 0) {
        if let Some(value) = variable.strip_prefix(VARIABLE.as_bytes()) {
            if let Some(names) = value.strip_prefix(b"=") {
                return has_name(names, name);
            }
        }
    }
    false
}

/// Checks whether the environment of a process names a builder. Other users' processes can't be looked at.
fn is_started_by<R: Files + AllocGlobal>(
    rt: &R,
    process: &Process,
    name: &str,
) -> Result<bool, AllocError> {
    let number = process.number;
    let path = format!(in rt.alloc(); "/proc/{number}/environ")?;
    match fs::read(rt, path.as_str()) {
        Ok(environment) => Ok(names_builder(&environment, name.as_bytes())),
        Err(_) => Ok(false),
    }
}

/// Returns the processes that the commands of a builder have started and that are in the session of this process.
/// Daemons have a session of their own.
fn left_running<R: Files + AllocGlobal + Clone + Drop>(
    rt: &R,
    name: &str,
) -> Result<Vec<u64>, AllocError> {
    let mut tops = Vec::new(rt.alloc());
    let all = all_processes(rt)?;
    for process in &all {
        if is_started_by(rt, process, name)? {
            tops.push(process.number)?;
        }
    }
    let below = with_below(rt.alloc(), &all, &tops)?;
    in_own_session(rt, &all, &below)
}

/// Returns those of these processes that are in the session of this process.
fn in_own_session<R: Files + AllocGlobal>(
    rt: &R,
    all: &[Process],
    numbers: &[u64],
) -> Result<Vec<u64>, AllocError> {
    let mut found = Vec::new(rt.alloc());
    let Some(own) = own_process(rt) else {
        return Ok(found);
    };
    for process in all {
        let is_wanted = numbers.contains(&process.number) & (process.number != own.number);
        if is_wanted & (process.session == own.session) {
            found.push(process.number)?;
        }
    }
    Ok(found)
}

/// A signal that ends a process.
#[derive(Clone, Copy, PartialEq, Eq)]
enum Ending {
    /// The process may remove its files first.
    Terminate,
    Kill,
}

impl Ending {
    /// Returns the command that sends the signal to the processes whose numbers follow.
    fn command(self) -> &'static str {
        match self {
            Ending::Terminate => "kill -TERM",
            Ending::Kill => "kill -KILL",
        }
    }
}

/// Returns the command that sends a signal to processes.
fn kill_command(alloc: Global, ending: Ending, processes: &[u64]) -> Result<String, AllocError> {
    let mut text = String::from_str(alloc, ending.command())?;
    for process in processes {
        text = format!(in alloc; "{text} {process}")?;
    }
    Ok(text)
}

/// Adds the words of a shell that runs a command.
fn add_command(shell: &mut Command, text: &str) -> io::Result<()> {
    shell.arg("-c")?.arg("--")?.arg(text)?;
    Ok(())
}

/// Sends a signal to processes.
fn send<R: Processes + Files + AllocGlobal>(
    rt: &R,
    ending: Ending,
    processes: &[u64],
) -> io::Result<()> {
    let text = kill_command(rt.alloc(), ending, processes)?;
    let mut shell = Command::new(rt.alloc(), "/bin/sh")?;
    add_command(&mut shell, text.as_str())?;
    let _ = shell.status(rt)?;
    Ok(())
}

/// How often processes are looked for.
const LOOKS: u32 = 120;

/// The look from which on processes are killed: after two seconds.
const FIRST_KILL: u32 = 40;

/// The time between two looks, in milliseconds.
const PAUSE: u64 = 50;

/// Returns the signal that is sent after a look.
fn ending_after(look: u32) -> Option<Ending> {
    match look {
        0 => Some(Ending::Terminate),
        look if look >= FIRST_KILL => Some(Ending::Kill),
        _ => None,
    }
}

/// Stops the commands that a builder left running, and everything below them: by SIGTERM, and by SIGKILL if they still
/// run after two seconds.
pub fn stop_commands<R: Processes + Files + Clock + AllocGlobal + Clone + Drop>(
    rt: &R,
    name: &str,
) {
    for look in 0..LOOKS {
        let Ok(left) = left_running(rt, name) else {
            return;
        };
        if left.is_empty() {
            return;
        }
        if let Some(ending) = ending_after(look) {
            let _ = send(rt, ending, &left);
        }
        thread::sleep(rt, Duration::from_millis(PAUSE));
    }
}
