//! Waits for the lock of a record, and says for whom.

use crate::builder_lock::SharedFile;
use crate::circles::waits_for_this;
use crate::fault::DeviceFault;
use crate::holders::{commands_with, holder_of};
use crate::processes::FileName;
use std::alloc::{AllocError, Global};
use std::fs::{self, OpenOptions};
use std::io::Write;
use std::rt::Files;
use std::thread;
use std::time::{Clock, Duration};

/// How often a builder looks for the lock before it says that it waits.
const LOOKS: u64 = 100;

/// The time between two looks, in milliseconds.
const PAUSE: u64 = 10;

/// How often a builder looks before it says which commands of a killed builder hold the lock.
const LOOKS_BEFORE_NAMES: u64 = 1_000;

/// How often in a row the builder that holds a lock must be seen to wait for this one. What is seen once may be a
/// builder that has only begun.
const SIGHTS: u32 = 3;

/// Waits until no other builder holds the lock of a record. After a second, reports for whom it waits, and after ten
/// seconds which commands of a killed builder hold the lock. Looks once a second whether that builder waits for this
/// one, since both would wait for ever.
///
/// # Errors
/// `Circle` if the builder that holds the lock waits for this one.
pub(crate) fn wait_for<R: Files + Clock + Eprint + AllocGlobal + Clone + Drop>(
    rt: &R,
    record: &str,
    file: &R::File,
    name: FileName,
    above: &str,
) -> Result<(), DeviceFault>
where
    R::File: SharedFile + Write + Drop,
{
    let mut sights = 0;
    for look in 1..u64::MAX {
        thread::sleep(rt, Duration::from_millis(PAUSE));
        if file.try_lock()? {
            return Ok(());
        }
        if look % LOOKS == 0 {
            report(rt, record, name, look)?;
            sights = sights_with(sights, waits_for_this(rt, name, above)?);
            if sights == SIGHTS {
                return Err(DeviceFault::Circle);
            }
        }
    }
    Err(DeviceFault::Lost)
}

/// Returns how often in a row something was seen, after one more look.
fn sights_with(before: u32, is_seen: bool) -> u32 {
    if is_seen { before.saturating_add(1) } else { 0 }
}

/// Reports for whom this builder waits, if this is the time for it.
fn report<R: Files + Eprint + AllocGlobal + Clone + Drop>(
    rt: &R,
    record: &str,
    name: FileName,
    look: u64,
) -> Result<(), DeviceFault>
where
    R::File: Write + Drop,
{
    if look == LOOKS {
        say_for_whom(rt, record, name)?;
    }
    if look == LOOKS_BEFORE_NAMES {
        say_what_holds(rt, record, name)?;
    }
    Ok(())
}

/// Reports for whom this builder waits.
fn say_for_whom<R: Files + Eprint + AllocGlobal + Clone + Drop>(
    rt: &R,
    record: &str,
    name: FileName,
) -> Result<(), DeviceFault>
where
    R::File: Write + Drop,
{
    let alloc = rt.alloc();
    if let Some(holder) = holder_of(rt, name)? {
        let number = holder.number;
        say_everywhere(
            rt,
            &format!(in alloc;
                "plan_ninja: waiting for another build that uses {record} (process {number})\n"
            )?,
        );
        return Ok(());
    }
    let commands = commands_with(rt, name)?;
    if commands.is_empty() {
        say_everywhere(
            rt,
            &format!(in alloc; "plan_ninja: waiting for another build that uses {record}\n")?,
        );
        return Ok(());
    }
    let processes = numbers(alloc, &commands)?;
    say_everywhere(
        rt,
        &format!(in alloc;
            "plan_ninja: waiting for commands of a build that was stopped and used {record} ({processes})\n"
        )?,
    );
    Ok(())
}

/// Reports which commands of a killed builder hold the lock. Reports nothing if the builder that holds it lives.
fn say_what_holds<R: Files + Eprint + AllocGlobal + Clone + Drop>(
    rt: &R,
    record: &str,
    name: FileName,
) -> Result<(), DeviceFault>
where
    R::File: Write + Drop,
{
    if holder_of(rt, name)?.is_some() {
        return Ok(());
    }
    let commands = commands_with(rt, name)?;
    if commands.is_empty() {
        return Ok(());
    }
    let alloc = rt.alloc();
    let processes = numbers(alloc, &commands)?;
    say_everywhere(
        rt,
        &format!(in alloc;
            "plan_ninja: {record} is free when these have ended, or were killed: {processes}\n"
        )?,
    );
    Ok(())
}

/// Returns the words `process` or `processes`, and the numbers.
fn numbers(alloc: Global, processes: &[u64]) -> Result<String, AllocError> {
    let mut text = String::from_str(alloc, "process")?;
    if processes.len() > 1 {
        text.push_str("es")?;
    }
    let mut before = " ";
    for process in processes {
        text = format!(in alloc; "{text}{before}{process}")?;
        before = ", ";
    }
    Ok(text)
}

/// Checks whether a path is that of a terminal.
fn is_terminal(path: &str) -> bool {
    path.starts_with("/dev/pts/") | path.starts_with("/dev/tty") | path.starts_with("/dev/console")
}

/// Checks whether standard error is a terminal.
fn shows_errors<R: Files + AllocGlobal>(rt: &R) -> bool {
    match fs::read_link(rt, "/proc/self/fd/2") {
        Ok(path) => is_terminal(path.as_str()),
        Err(_) => true,
    }
}

/// Writes a line to standard error, and to the terminal of this process if standard error is none. A builder above
/// this one may hold the line back until this one has ended.
fn say_everywhere<R: Files + Eprint + AllocGlobal>(rt: &R, line: &str)
where
    R::File: Write + Drop,
{
    let _ = rt.eprint(line);
    if shows_errors(rt) {
        return;
    }
    if let Ok(mut terminal) = OpenOptions::new().write(true).open(rt, "/dev/tty") {
        let _ = terminal.write_all(line.as_bytes());
    }
}
