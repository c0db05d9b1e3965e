//! Builders of two folders that wait for each other.

use crate::holders::{builder_named, holder_of};
use crate::processes::{FileName, Process, all_processes, has_opened, own_line, with_below};
use std::alloc::AllocError;
use std::rt::Files;

/// Checks whether the builder that holds this lock waits for this builder: it, or a process below it, waits for the
/// lock of a builder that is above this one. `above` has the names of the builders above.
pub(crate) fn waits_for_this<R: Files + AllocGlobal + Clone + Drop>(
    rt: &R,
    file: FileName,
    above: &str,
) -> Result<bool, AllocError> {
    if above.is_empty() {
        return Ok(false);
    }
    let Some(holder) = holder_of(rt, file)? else {
        return Ok(false);
    };
    let all = all_processes(rt)?;
    let line = own_line(rt)?;
    let below = with_below(rt.alloc(), &all, &[holder.number])?;
    for name in above.as_bytes().split(|byte| *byte == b' ') {
        if waits_for_one(rt, &all, &below, &line, name)? {
            return Ok(true);
        }
    }
    Ok(false)
}

/// Checks whether one of these processes waits for the lock of a builder that is above this one.
fn waits_for_one<R: Files + AllocGlobal>(
    rt: &R,
    all: &[Process],
    waiting: &[u64],
    line: &[u64],
    name: &[u8],
) -> Result<bool, AllocError> {
    let Some(builder) = builder_named(name) else {
        return Ok(false);
    };
    if !line.contains(&builder.process) {
        return Ok(false);
    }
    let own = with_below(rt.alloc(), all, &[builder.process])?;
    for process in waiting {
        if !own.contains(process) & waits_for(rt, *process, builder.lock)? {
            return Ok(true);
        }
    }
    Ok(false)
}

/// Checks whether a process has opened the file of a lock, but not as its standard input. A builder has done so while
/// it waits for the lock.
fn waits_for<R: Files + AllocGlobal>(
    rt: &R,
    process: u64,
    lock: FileName,
) -> Result<bool, AllocError> {
    has_opened(rt, process, 1, lock, false)
}
