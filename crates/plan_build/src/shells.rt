//! The shells of a build, and how the outputs of their commands are shown.

use crate::held_outputs::HeldOutputs;
use crate::watcher::ShellWatcher;
use plan_output::{shown_output, signal_line};
use plan_printing::concatenate;
use plan_world::{PermittedShell, Printed, Shells};
use std::alloc::{AllocError, Global};
use std::io::{self, ErrorKind, IsTerminal};
use std::os::unix::process::ExitStatusExt;
use std::process::ExitStatus;
use std::rt::{Clock, Env};
use std::sync::Wait;
use std::{env, str};

/// The shells of a build, over other shells, which start them. These can start no process by themselves. The output of a
/// command is held until its mark is shown. If escape sequences aren't wanted, they are removed from the output.
#[derive(Drop)]
pub struct BuildShells<'a, R, S, C> {
    alloc: Global,
    rt: &'a R,
    shells: S,
    outputs: &'a HeldOutputs<'a, R>,
    escapes: bool,
    /// Whether standard output and standard error are the same kind of terminal, on which lines are written over.
    clears: bool,
    /// Is told of each shell before it starts.
    watcher: &'a C,
}

impl<'a, R, S, C> BuildShells<'a, R, S, C> {
    /// Creates the shells of a build over other shells. The outputs of commands go into `outputs`. If `escapes` is
    /// false, removes escape sequences. `watcher` is told of each shell before it starts.
    pub fn new(
        alloc: Global,
        rt: &'a R,
        shells: S,
        outputs: &'a HeldOutputs<'a, R>,
        escapes: bool,
        clears: bool,
        watcher: &'a C,
    ) -> BuildShells<'a, R, S, C> {
        BuildShells {
            alloc,
            rt,
            shells,
            outputs,
            escapes,
            clears,
            watcher,
        }
    }
}

/// If a signal ended a command, appends the signal to the output of the command.
fn add_signal(text: &mut Vec<u8>, status: &ExitStatus) -> Result<(), AllocError> {
    match status.signal() {
        Some(signal) => text.extend_from_slice(signal_line(u8::try_from(signal).unwrap_or(0))),
        None => Ok(()),
    }
}

impl<R: Wait + Clock, S, C> BuildShells<'_, R, S, C> {
    /// Checks that a command may begin: somebody may read standard output. If nobody does, the build stops as it does
    /// after a failed command.
    ///
    /// # Errors
    /// `BrokenPipe` if nobody reads standard output any more.
    fn check_output(&self) -> io::Result<()> {
        if self.outputs.is_closed() {
            return Err(io::Error::from(ErrorKind::BrokenPipe));
        }
        Ok(())
    }
}

/// The text that is shown instead of a reason that isn't UTF-8.
const NOT_SHOWN: &str = "ninja explain: a path that isn't UTF-8\n";

/// Returns the line that explains why the command of an edge runs, with ninja's prefix. On a terminal the line is
/// written over the status line.
fn explanation(
    alloc: Global,
    clears: bool,
    edge: &[u8],
    reason: &[u8],
) -> Result<Vec<u8>, AllocError> {
    let begin: &[u8] = if clears { b"\r\x1b[K" } else { b"" };
    concatenate(
        alloc,
        &[begin, b"ninja explain: ", edge, b": ", reason, b"\n"],
    )
}

impl<R: Wait + Clock + Eprint, S: Shells, C: ShellWatcher> Shells for BuildShells<'_, R, S, C> {
    ghost ended = { S.ended };

    fn explain(&self, edge: &[u8], reason: &[u8]) {
        let Ok(line) = explanation(self.alloc, self.clears, edge, reason) else {
            return;
        };
        let _ = self.rt.eprint(str::from_utf8(&line).unwrap_or(NOT_SHOWN));
    }

    fn output(&self, shell: PermittedShell, edge: &[u8]) -> io::Result<Printed> {
        self.check_output()?;
        self.watcher.begin(shell.shell());
        let Printed { status, text } = self.shells.output(shell, edge)?;
        let mut text = shown_output(self.alloc, text, self.escapes)?;
        add_signal(&mut text, &status)?;
        let text = match self.outputs.hold(edge, text) {
            None => Vec::new(self.alloc),
            // Without memory it is shown now, before its label.
            Some(text) => text,
        };
        Ok(Printed { status, text })
    }

    fn wait_for_turn(&self) {
        self.shells.wait_for_turn();
    }

    fn end_turn(&self) {
        self.shells.end_turn();
    }

    fn wait_for_label(&self, edge: &[u8]) {
        self.outputs.wait_for_label(edge);
    }

    fn status(&self, shell: PermittedShell) -> io::Result<ExitStatus> {
        self.check_output()?;
        self.watcher.begin(shell.shell());
        self.shells.status(shell)
    }
}

/// Checks whether an environment variable is set to a value other than this one.
fn is_set_otherwise<R: Env + AllocGlobal>(rt: &R, name: &str, value: &str) -> bool {
    match env::var(rt, name) {
        Ok(found) => found.as_str() != value,
        Err(_) => false,
    }
}

/// Checks whether standard output is a terminal that understands escape sequences: `TERM` is set, but not to `dumb`.
pub fn is_smart_terminal(rt: &HostRuntime) -> bool {
    rt.stdout().is_terminal() && is_set_otherwise(rt, "TERM", "dumb")
}

/// Checks whether standard output is a terminal on which lines are written over, and standard error is a terminal too.
pub fn shares_terminal(rt: &HostRuntime) -> bool {
    is_smart_terminal(rt) && rt.stderr().is_terminal()
}

/// Checks whether escape sequences are wanted, as ninja does: on a terminal that understands them, or if
/// `CLICOLOR_FORCE` is set and isn't `0`.
pub fn wants_escapes(rt: &HostRuntime) -> bool {
    is_smart_terminal(rt) || is_set_otherwise(rt, "CLICOLOR_FORCE", "0")
}
