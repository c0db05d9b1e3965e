//! The processes of the system, as the files in /proc show them.

use crate::parts::part_at;
use std::alloc::{AllocError, Global};
use std::fs::{self, Metadata};
use std::io::ErrorKind;
use std::os::unix::fs::MetadataExt;
use std::rt::Files;
use std::str;

/// A process that hasn't ended.
#[derive(Clone, Copy, Debug, PartialEq, Eq)]
pub struct Process {
    /// The number of the process.
    pub number: u64,
    /// The number of the process that started it, or of the one that took it over.
    pub parent: u64,
    /// The number of its session.
    pub session: u64,
    /// The time at which it began, in ticks since the system was started. It differs between two processes that have
    /// the same number one after the other.
    pub start: u64,
}

/// Returns the text after the name of a process, in its line of /proc/PID/stat. The name ends at the last `)`.
fn after_name(line: &[u8]) -> Option<&[u8]> {
    line.rsplit(|byte| *byte == b')').next()
}

/// Returns a number that is written in decimal digits.
pub(crate) fn number_in(word: &[u8]) -> Option<u64> {
    match str::from_utf8(word) {
        Ok(text) => text.parse::<u64>().ok(),
        Err(_) => None,
    }
}

/// Returns a field after the name of a process, in its line of /proc/PID/stat: the state is field 1, its parent field
/// 2.
fn field(line: &[u8], place: usize) -> Option<&[u8]> {
    part_at(after_name(line)?, b' ', place)
}

/// Returns the number in a field after the name of a process.
fn number_at(line: &[u8], place: usize) -> Option<u64> {
    number_in(field(line, place)?)
}

/// Returns the number before the name of a process, in its line of /proc/PID/stat.
fn own_number(line: &[u8]) -> Option<u64> {
    number_in(part_at(line, b' ', 0)?)
}

/// Checks whether a line of /proc/PID/stat is of a process that has ended and that its parent hasn't waited for.
fn has_ended(line: &[u8]) -> bool {
    match field(line, 1) {
        Some(state) => state == b"Z".as_slice(),
        None => true,
    }
}

/// Returns the process of a line of /proc/PID/stat. None if it has ended.
pub(crate) fn process_in(line: &[u8]) -> Option<Process> {
    if has_ended(line) {
        return None;
    }
    Some(Process {
        number: own_number(line)?,
        parent: number_at(line, 2)?,
        session: number_at(line, 4)?,
        start: number_at(line, 20)?,
    })
}

/// Returns the process in a folder of /proc: a number, or `self` for this process. None if there is none.
fn process_at<R: Files + AllocGlobal>(rt: &R, name: &str) -> Option<Process> {
    let Ok(path) = format!(in rt.alloc(); "/proc/{name}/stat") else {
        return None;
    };
    match fs::read(rt, path.as_str()) {
        Ok(line) => process_in(&line),
        Err(_) => None,
    }
}

/// Returns this process. None if the system doesn't show it.
pub fn own_process<R: Files + AllocGlobal>(rt: &R) -> Option<Process> {
    process_at(rt, "self")
}

/// Returns the process with a number. None if there is none.
pub(crate) fn process_with<R: Files + AllocGlobal>(rt: &R, number: u64) -> Option<Process> {
    let Ok(name) = format!(in rt.alloc(); "{number}") else {
        return None;
    };
    process_at(rt, name.as_str())
}

/// Returns all processes that the system shows. Empty if it shows none.
///
/// # Errors
/// `AllocError` if memory runs out.
pub fn all_processes<R: Files + AllocGlobal + Clone + Drop>(
    rt: &R,
) -> Result<Vec<Process>, AllocError> {
    let mut found = Vec::new(rt.alloc());
    let Ok(folder) = fs::read_dir(rt, "/proc") else {
        return Ok(found);
    };
    for entry in folder {
        let Ok(entry) = entry else {
            return Ok(found);
        };
        if number_in(entry.file_name().as_bytes()).is_some() {
            if let Some(process) = process_at(rt, entry.file_name()) {
                found.push(process)?;
            }
        }
    }
    Ok(found)
}

/// The greatest number of steps from a process to one above it that are taken.
const GENERATIONS: u32 = 256;

/// Returns the numbers of this process and of those above it, from below.
pub(crate) fn own_line<R: Files + AllocGlobal>(rt: &R) -> Result<Vec<u64>, AllocError> {
    let mut line = Vec::new(rt.alloc());
    let mut below = own_process(rt);
    for _ in 0..GENERATIONS {
        let Some(process) = below else {
            return Ok(line);
        };
        line.push(process.number)?;
        below = process_with(rt, process.parent);
    }
    Ok(line)
}

/// Returns these processes and all processes below them. `all` has all processes.
///
/// # Errors
/// `AllocError` if memory runs out.
pub fn with_below(alloc: Global, all: &[Process], tops: &[u64]) -> Result<Vec<u64>, AllocError> {
    let mut found = Vec::new(alloc);
    for top in tops {
        found.push(*top)?;
    }
    for _ in 0..GENERATIONS {
        let before = found.len();
        add_children(all, &mut found)?;
        if found.len() == before {
            return Ok(found);
        }
    }
    Ok(found)
}

/// Adds the processes whose parents are among these, unless they are there.
fn add_children(all: &[Process], found: &mut Vec<u64>) -> Result<(), AllocError> {
    for process in all {
        if found.contains(&process.parent) & !found.contains(&process.number) {
            found.push(process.number)?;
        }
    }
    Ok(())
}

/// A file, by its device and its inode.
#[derive(Clone, Copy, Debug, PartialEq, Eq)]
pub(crate) struct FileName {
    pub(crate) device: u64,
    pub(crate) inode: u64,
}

/// Returns the device and the inode of a file.
pub(crate) fn name_in(found: &Metadata) -> FileName {
    FileName {
        device: found.dev(),
        inode: found.ino(),
    }
}

/// What a descriptor of a process shows.
#[derive(Clone, Copy, Debug, PartialEq, Eq)]
enum Descriptor {
    /// This process may not look at it.
    Hidden,
    /// It isn't open.
    Closed,
    File(FileName),
}

/// Returns what a descriptor of a process shows.
fn shown_by<R: Files + AllocGlobal>(
    rt: &R,
    process: u64,
    number: u32,
) -> Result<Descriptor, AllocError> {
    let path = format!(in rt.alloc(); "/proc/{process}/fd/{number}")?;
    match fs::metadata(rt, path.as_str()) {
        Ok(found) => Ok(Descriptor::File(name_in(&found))),
        Err(error) if error.kind() == ErrorKind::PermissionDenied => Ok(Descriptor::Hidden),
        Err(_) => Ok(Descriptor::Closed),
    }
}

/// Checks whether the standard input of a process is this file.
pub(crate) fn reads_from<R: Files + AllocGlobal>(
    rt: &R,
    process: u64,
    file: FileName,
) -> Result<bool, AllocError> {
    Ok(shown_by(rt, process, 0)? == Descriptor::File(file))
}

/// The descriptors that are looked at. A builder opens its lock early, so that its descriptor has a small number.
const DESCRIPTORS: u32 = 256;

/// Checks whether a process has opened this file, on a descriptor from the given one on. A process that may not be
/// looked at counts as `hidden` says.
pub(crate) fn has_opened<R: Files + AllocGlobal>(
    rt: &R,
    process: u64,
    first: u32,
    file: FileName,
    hidden: bool,
) -> Result<bool, AllocError> {
    for number in first..DESCRIPTORS {
        match shown_by(rt, process, number)? {
            Descriptor::File(found) if found == file => return Ok(true),
            Descriptor::Hidden => return Ok(hidden),
            _ => {}
        }
    }
    Ok(false)
}
