//! Shells that only permits start.

ghost use Rattle.std.specs.Prelude.{◌≡◌, IfOk};
ghost use Rattle.plan_world.specs.Shells.{IsShellOf};

use crate::builder_lock::VARIABLE;
use crate::fault::DeviceFault;
use plan_lanes::Permit;
use plan_text::Items;
use std::alloc::{AllocError, Global};
use std::io::ErrorKind;
use std::process::{Command, Stdio};
use std::str;

/// The shell of a permitted command, which wasn't started yet. Only `of` creates one, and spends the permit. So each
/// permit starts at most one shell, and this shell runs exactly its command. Contracts see the shell and the command.
#[derive(Drop)]
pub struct PermittedShell {
    shell: Command,
    command: Items<u8>,
}

/// Returns the shell with a command as its argument, and with these names of builders in its environment. A
/// command that begins with a hyphen isn't taken as an option.
fn shell_of(alloc: Global, text: &str, records: &str) -> Result<Command, AllocError>
    ensures { IfOk result (λ command. IsShellOf command text.now records.now) }
{
    let mut shell = Command::new(alloc, "/bin/sh")?;
    shell.arg("-c")?.arg("--")?.arg(text)?;
    shell.env(VARIABLE, records)?;
    Ok(shell)
}

/// Returns such a shell with this standard input.
fn shell_with(alloc: Global, text: &str, records: &str, input: Stdio) -> Result<Command, AllocError>
    ensures { IfOk result (λ command. IsShellOf command text.now records.now) }
{
    let mut shell = shell_of(alloc, text, records)?;
    shell.stdin(input);
    Ok(shell)
}

/// Returns such a shell with this standard input, or with that of this program.
fn shell_on(
    alloc: Global,
    text: &str,
    records: &str,
    input: Option<Stdio>,
) -> Result<Command, AllocError>
    ensures { IfOk result (λ command. IsShellOf command text.now records.now) }
{
    match input {
        Some(input) => shell_with(alloc, text, records, input),
        None => shell_of(alloc, text, records),
    }
}

impl PermittedShell {
    ghost use Rattle.std.specs.Prelude.{◌≡◌};

    /// Spends a permit for the shell of its command, with these names of builders in the shell's environment. The shell
    /// has this standard input, or that of this program.
    ///
    /// # Errors
    /// `System` with `InvalidInput` if the command isn't UTF-8, and `Memory`. No shell has this permit then.
    pub(crate) fn of(
        alloc: Global,
        permit: Permit,
        records: &str,
        input: Option<Stdio>,
    ) -> Result<PermittedShell, DeviceFault>
        ensures command { IfOk result (λ p. p.command ≡ permit.command) }
        ensures shell { IfOk result (λ p. IsShellOf p.shell permit.command records.now) }
    {
        let command = permit.into_command();
        let Ok(text) = str::from_utf8(command.as_slice()) else {
            return Err(DeviceFault::System(ErrorKind::InvalidInput, 0));
        };
        let shell = shell_on(alloc, text, records, input)?;
        Ok(PermittedShell { shell, command })
    }

    /// Borrows the shell.
    pub fn shell(&self) -> &Command
        ensures { result.now ≡ self.now.shell }
    {
        &self.shell
    }

    /// Returns the shell, to start it.
    pub fn into_shell(self) -> Command
        ensures { result ≡ self.shell }
    {
        let PermittedShell { shell, command } = self;
        drop(command);
        shell
    }
}
