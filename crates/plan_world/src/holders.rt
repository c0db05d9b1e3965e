//! Who holds the lock of a record, and whether that builder waits for this one.

use crate::parts::part_at;
use crate::processes::{
    FileName, Process, all_processes, has_opened, number_in, own_line, process_with, reads_from,
};
use std::alloc::AllocError;
use std::fs;
use std::rt::Files;

/// Returns the words of a line, in which blanks are between them.
fn word_at(line: &[u8], place: usize) -> Option<&[u8]> {
    line.split(|byte| *byte == b' ')
        .filter(|word| !word.is_empty())
        .nth(place)
}

/// Returns the text after the last colon of a word.
fn after_colon(word: &[u8]) -> Option<&[u8]> {
    word.rsplit(|byte| *byte == b':').next()
}

/// Checks whether a line of /proc/locks, or of the descriptor of a process, shows that a lock of a whole file is held.
fn is_held_lock(line: &[u8]) -> bool {
    match word_at(line, 1) {
        Some(kind) => kind == b"FLOCK".as_slice(),
        None => false,
    }
}

/// Returns the number of the process that took the lock of a file with this inode, if a line of /proc/locks shows that.
/// The line of a process that waits for a lock has an arrow before the kind of the lock.
pub(crate) fn holder_in_line(line: &[u8], inode: u64) -> Option<u64> {
    if !is_held_lock(line) {
        return None;
    }
    let process = number_in(word_at(line, 4)?)?;
    let found = number_in(after_colon(word_at(line, 5)?)?)?;
    if found == inode { Some(process) } else { None }
}

/// Returns the process that holds the lock of a file: it took the lock, lives, and has opened the file. None if it has
/// ended or isn't shown, because the lock is held by its commands, or by a process elsewhere.
pub(crate) fn holder_of<R: Files + AllocGlobal>(
    rt: &R,
    file: FileName,
) -> Result<Option<Process>, AllocError> {
    let Ok(locks) = fs::read(rt, "/proc/locks") else {
        return Ok(None);
    };
    for line in locks.split(|byte| *byte == b'\n') {
        if let Some(process) = holder_by(rt, line, file)? {
            return Ok(Some(process));
        }
    }
    Ok(None)
}

/// Returns the process that holds the lock of a file by a line of /proc/locks.
fn holder_by<R: Files + AllocGlobal>(
    rt: &R,
    line: &[u8],
    file: FileName,
) -> Result<Option<Process>, AllocError> {
    let Some(number) = holder_in_line(line, file.inode) else {
        return Ok(None);
    };
    let Some(process) = process_with(rt, number) else {
        return Ok(None);
    };
    if has_opened(rt, number, 0, file, true)? {
        return Ok(Some(process));
    }
    Ok(None)
}

/// Checks whether a process holds the lock of this file by its standard input, as commands do.
pub(crate) fn holds_by_input<R: Files + AllocGlobal>(
    rt: &R,
    process: u64,
    file: FileName,
) -> Result<bool, AllocError> {
    if !reads_from(rt, process, file)? {
        return Ok(false);
    }
    let path = format!(in rt.alloc(); "/proc/{process}/fdinfo/0")?;
    let Ok(shown) = fs::read(rt, path.as_str()) else {
        return Ok(false);
    };
    for line in shown.split(|byte| *byte == b'\n') {
        if is_held_lock(line) {
            return Ok(true);
        }
    }
    Ok(false)
}

/// Checks whether this process or one above it holds the lock of a file by its standard input.
fn is_below_input<R: Files + AllocGlobal>(
    rt: &R,
    line: &[u64],
    file: FileName,
) -> Result<bool, AllocError> {
    for process in line {
        if holds_by_input(rt, *process, file)? {
            return Ok(true);
        }
    }
    Ok(false)
}

/// Returns the numbers of the processes that hold the lock of a file by their standard inputs.
pub(crate) fn commands_with<R: Files + AllocGlobal + Clone + Drop>(
    rt: &R,
    file: FileName,
) -> Result<Vec<u64>, AllocError> {
    let mut found = Vec::new(rt.alloc());
    for process in &all_processes(rt)? {
        if holds_by_input(rt, process.number, file)? {
            found.push(process.number)?;
        }
    }
    Ok(found)
}

/// A builder as the variable names it: the file of its lock, and its process.
#[derive(Clone, Copy, Debug, PartialEq, Eq)]
pub(crate) struct BuilderName {
    pub(crate) lock: FileName,
    pub(crate) process: u64,
    pub(crate) start: u64,
}

/// Returns the number at a place of a name, whose numbers have colons between them.
fn number_at(name: &[u8], place: usize) -> Option<u64> {
    number_in(part_at(name, b':', place)?)
}

/// Returns the builder that a name in the variable is of.
pub(crate) fn builder_named(name: &[u8]) -> Option<BuilderName> {
    Some(BuilderName {
        lock: FileName {
            device: number_at(name, 0)?,
            inode: number_at(name, 1)?,
        },
        process: number_at(name, 2)?,
        start: number_at(name, 3)?,
    })
}

/// Checks whether a process is this builder.
fn is_builder(builder: &BuilderName, process: &Process) -> bool {
    (builder.process == process.number) & (builder.start == process.start)
}

/// Checks whether names have a builder that has this lock, and that is this process.
fn names_process(names: &str, file: FileName, process: &Process) -> bool {
    for name in names.as_bytes().split(|byte| *byte == b' ') {
        if let Some(builder) = builder_named(name) {
            if (builder.lock == file) & is_builder(&builder, process) {
                return true;
            }
        }
    }
    false
}

/// Checks whether names have a builder that has this lock and lives.
fn names_living<R: Files + AllocGlobal>(rt: &R, names: &str, file: FileName) -> bool {
    for name in names.as_bytes().split(|byte| *byte == b' ') {
        if let Some(builder) = builder_named(name) {
            if builder.lock == file {
                if let Some(process) = process_with(rt, builder.process) {
                    if is_builder(&builder, &process) {
                        return true;
                    }
                }
            }
        }
    }
    false
}

/// Checks whether names have a builder that has this lock.
fn names_lock(names: &str, file: FileName) -> bool {
    for name in names.as_bytes().split(|byte| *byte == b' ') {
        if let Some(builder) = builder_named(name) {
            if builder.lock == file {
                return true;
            }
        }
    }
    false
}

/// Checks whether the builder that holds a lock waits for this one. If that builder lives, this one is below it, or
/// `names` has it. If it was killed, or if it isn't shown, then this builder is below one of its commands, or `names`
/// has a builder of this lock that lives. If the system shows no processes, `names` has a builder of this lock.
pub(crate) fn is_nested<R: Files + AllocGlobal>(
    rt: &R,
    names: &str,
    file: FileName,
) -> Result<bool, AllocError> {
    let line = own_line(rt)?;
    if line.is_empty() {
        return Ok(names_lock(names, file));
    }
    match holder_of(rt, file)? {
        Some(holder) => Ok(line.contains(&holder.number) | names_process(names, file, &holder)),
        None => Ok(is_below_input(rt, &line, file)? | names_living(rt, names, file)),
    }
}
