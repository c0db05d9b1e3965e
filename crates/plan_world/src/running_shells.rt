//! The shells of a builder that run at once. Each needs an open file, and three more while it is started.

use crate::processes::number_in;
use std::fs;
use std::rt::Files;
use std::sync::{Condvar, Mutex, MutexGuard, Wait};

/// The greatest number of shells that are being started at once.
const MOST_STARTING: u32 = 16;

/// This many shells may run at once, whatever the limit of open files is.
const FEW: u32 = 64;

/// The number of open files that are left for other uses than the pipes of commands.
const RESERVE: u32 = 192;

/// The file with the limits of this process (proc(5)).
const LIMITS: &str = "/proc/self/limits";

/// The line with the limit of open files begins so.
const OPEN_FILES: &[u8] = b"Max open files";

/// The counts of shells.
#[derive(Drop)]
struct Counts {
    /// The number of shells that run or are being started.
    running: u32,
    /// The number of shells that are being started.
    starting: u32,
    /// The greatest number of shells that run at once. None before it is needed.
    most: Option<u32>,
    /// Whether it was reported that a shell waited for others to end.
    has_warned: bool,
}

impl Counts {
    /// Returns the greatest number of shells that run at once.
    fn most<R: Files + AllocGlobal>(&mut self, rt: &R) -> u32 {
        let most = match self.most {
            Some(most) => most,
            None => most_shells(rt),
        };
        self.most = Some(most);
        most
    }

    /// Checks whether one more shell may run.
    fn may_run<R: Files + AllocGlobal>(&mut self, rt: &R) -> bool {
        self.running < FEW || self.running < self.most(rt)
    }
}

/// Returns the first word of a text.
fn first_word(text: &[u8]) -> Option<&[u8]> {
    text.split(|byte| *byte == b' ')
        .find(|word| !word.is_empty())
}

/// Returns the number of files that may be open at once, by the text of /proc/self/limits. Returns None if there is no
/// limit, or if it isn't known.
pub(crate) fn open_files_in(limits: &[u8]) -> Option<u64> {
    for line in limits.split(|byte| *byte == b'\n') {
        if let Some(rest) = line.strip_prefix(OPEN_FILES) {
            return number_in(first_word(rest)?);
        }
    }
    None
}

/// Returns how many shells may run at once if this many files may be open.
fn shells_for(files: u32) -> u32 {
    files.saturating_sub(RESERVE).max(files / 2).max(FEW)
}

/// Returns how many shells may run at once by the limit of open files.
fn most_shells<R: Files + AllocGlobal>(rt: &R) -> u32 {
    let Ok(limits) = fs::read(rt, LIMITS) else {
        return u32::MAX;
    };
    match open_files_in(&limits) {
        Some(files) => shells_for(u32::try_from(files).unwrap_or(u32::MAX)),
        None => u32::MAX,
    }
}

/// Counts the shells of a builder, so that no more run or are started at once than the system lets open files.
#[derive(Drop)]
pub(crate) struct RunningShells {
    counts: Mutex<Counts>,
    /// Notified when a shell was started.
    started: Condvar,
    /// Notified when a shell has ended.
    ended: Condvar,
}

impl RunningShells {
    /// Returns the counts of no shells.
    pub(crate) fn new() -> RunningShells {
        let counts = Counts {
            running: 0,
            starting: 0,
            most: None,
            has_warned: false,
        };
        RunningShells {
            counts: Mutex::new(counts),
            started: Condvar::new(),
            ended: Condvar::new(),
        }
    }

    /// Takes the lock when one more shell may run. Reports on standard error once that shells wait.
    fn lock_to_run<R: Files + Wait + Eprint + AllocGlobal>(
        &self,
        rt: &R,
    ) -> MutexGuard<'_, Counts> {
        let mut counts = self.counts.lock(rt);
        for _ in rt.forever() {
            if counts.may_run(rt) {
                return counts;
            }
            if !counts.has_warned {
                counts.has_warned = true;
                warn(rt, counts.most(rt));
            }
            counts = self.ended.wait(rt, counts);
        }
        counts
    }

    /// Waits until one more shell may run, and counts it.
    pub(crate) fn begin<R: Files + Wait + Eprint + AllocGlobal>(&self, rt: &R) {
        let mut counts = self.lock_to_run(rt);
        counts.running = counts.running.saturating_add(1);
    }

    /// Counts that a shell has ended, or couldn't be started.
    pub(crate) fn end<R: Wait>(&self, rt: &R) {
        let mut counts = self.counts.lock(rt);
        counts.running = counts.running.saturating_sub(1);
        drop(counts);
        self.ended.notify_one();
    }

    /// Takes the lock when one more shell may be started.
    fn lock_to_start<R: Wait>(&self, rt: &R) -> MutexGuard<'_, Counts> {
        let mut counts = self.counts.lock(rt);
        for _ in rt.forever() {
            if counts.starting < MOST_STARTING {
                return counts;
            }
            counts = self.started.wait(rt, counts);
        }
        counts
    }

    /// Waits until one more shell may be started, and counts it.
    pub(crate) fn begin_start<R: Wait>(&self, rt: &R) {
        let mut counts = self.lock_to_start(rt);
        counts.starting = counts.starting.saturating_add(1);
    }

    /// Counts that a shell was started, or couldn't be.
    pub(crate) fn end_start<R: Wait>(&self, rt: &R) {
        let mut counts = self.counts.lock(rt);
        counts.starting = counts.starting.saturating_sub(1);
        drop(counts);
        self.started.notify_one();
    }
}

/// Reports on standard error that no more shells than this run at once.
fn warn<R: Eprint>(rt: &R, most: u32) {
    let _ = eprintln!(rt;
        "plan_ninja: warning: no more than {most} commands run at once, by the limit of open files (ulimit -n)"
    );
}
