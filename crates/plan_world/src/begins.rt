//! When the commands of edges began, and warnings of files that are of the future.

ghost use Rattle.std.specs.Prelude.{◌≤◌};

use crate::fault::DeviceFault;
use crate::ninja_deps::NinjaDeps;
use crate::ninja_log::NinjaLog;
use crate::ninja_runs::NinjaRuns;
use crate::stamp::stamp_of;
use indexmap::IndexMap;
use plan_verify::PathList;
use std::alloc::Global;
use std::rt::Files;
use std::str;
use std::sync::atomic::{AtomicBool, AtomicU64, Ordering};
use std::sync::{Mutex, Wait};

/// How much later than the file system's clock a stamp may be, in nanoseconds, before a warning is printed.
const TOLERANCE: u64 = 2_000_000_000;

/// The edges whose commands have begun, by their first outputs, each with the stamp that a file would have got then.
#[derive(Drop)]
pub(crate) struct Begins {
    alloc: Global,
    /// The stamps, or 0 once they were taken.
    stamps: Mutex<IndexMap<Vec<u8>, AtomicU64>>,
    /// The stamp of the first begin, or 0 if no command has begun.
    first: AtomicU64,
    /// Whether a warning of a file of the future was printed.
    has_warned: AtomicBool,
    /// ninja's own log, in which their outputs are marked.
    ninja_log: NinjaLog,
    /// ninja's own record of what its commands read.
    ninja_deps: NinjaDeps,
    /// The commands by which ninja made outputs.
    ninja_runs: NinjaRuns,
}

/// Returns the basis of the entry of a command that began at a stamp: what it read is at most as new as its begin.
pub(crate) fn basis_from(begin: Option<u64>, basis: u64) -> u64
    ensures { result ≤ basis }
{
    match begin {
        Some(begin) if begin < basis => begin,
        _ => basis,
    }
}

/// Checks whether a stamp is later than a time of the file system's clock, by more than its inaccuracy.
pub(crate) fn is_later(stamp: u64, now: u64) -> bool {
    stamp > now.saturating_add(TOLERANCE)
}

impl Begins {
    /// Creates an empty list, with ninja's own files in the folder of a record.
    pub(crate) fn next_to(alloc: Global, record: &str) -> Result<Begins, DeviceFault> {
        Ok(Begins {
            alloc,
            stamps: Mutex::new(IndexMap::new(alloc)),
            first: AtomicU64::new(0),
            has_warned: AtomicBool::new(false),
            ninja_log: NinjaLog::next_to(alloc, record)?,
            ninja_deps: NinjaDeps::next_to(alloc, record)?,
            ninja_runs: NinjaRuns::next_to(alloc, record)?,
        })
    }

    /// Returns ninja's log.
    pub(crate) fn ninja_log(&self) -> &NinjaLog {
        &self.ninja_log
    }

    /// Returns ninja's record of what its commands read.
    pub(crate) fn ninja_deps(&self) -> &NinjaDeps {
        &self.ninja_deps
    }

    /// Returns the commands by which ninja made outputs.
    pub(crate) fn ninja_runs(&self) -> &NinjaRuns {
        &self.ninja_runs
    }

    /// Adds the begin of the command of an edge.
    pub(crate) fn add<R: Wait>(&self, rt: &R, edge: &[u8], begin: u64) -> Result<(), DeviceFault> {
        let edge = Vec::from_slice(self.alloc, edge)?;
        let mut stamps = self.stamps.lock(rt);
        if self.first.load(Ordering::SeqCst) == 0 {
            self.first.store(begin, Ordering::SeqCst);
        }
        match stamps.insert(edge, AtomicU64::new(begin)) {
            Ok(_) => Ok(()),
            Err(_) => Err(DeviceFault::Memory),
        }
    }

    /// Returns the begin of the first command. Returns None if none has begun.
    pub(crate) fn first(&self) -> Option<u64> {
        match self.first.load(Ordering::SeqCst) {
            0 => None,
            begin => Some(begin),
        }
    }

    /// Checks whether the command of an edge has begun.
    pub(crate) fn have<R: Wait>(&self, rt: &R, edge: &[u8]) -> bool {
        self.stamps.lock(rt).contains_key(edge)
    }

    /// Returns the begin of the command of an edge, if it has begun and nobody took its begin.
    pub(crate) fn take<R: Wait>(&self, rt: &R, edge: &[u8]) -> Option<u64> {
        let stamps = self.stamps.lock(rt);
        match stamps.get(edge)?.swap(0, Ordering::SeqCst) {
            0 => None,
            begin => Some(begin),
        }
    }

    /// Reports on standard error, once, that an edge read a file whose stamp is later than this time of the file
    /// system's clock. Names the first of these paths with such a stamp, or else the edge.
    pub(crate) fn warn<R: Files + Eprint>(&self, rt: &R, edge: &[u8], paths: &PathList, now: u64) {
        if self.has_warned.swap(true, Ordering::SeqCst) {
            return;
        }
        let _ = match first_later(rt, paths, now) {
            Some(path) => {
                eprintln!(rt;
                    "plan_ninja: {path} has a date in the future, so commands that read it run again"
                )
            }
            None => {
                let edge = name_of(edge);
                eprintln!(rt;
                    "plan_ninja: an input of {edge} has a date in the future, so its command runs again"
                )
            }
        };
    }
}

/// Returns a path as text.
fn name_of(path: &[u8]) -> &str {
    str::from_utf8(path).unwrap_or("a file")
}

/// Returns the first of these paths whose file has a stamp that is later than this time.
fn first_later<'a, R: Files>(rt: &R, paths: &'a PathList, now: u64) -> Option<&'a str> {
    for number in 0..paths.len() {
        match stamp_of(rt, paths.path(number)) {
            Ok(stamp) if is_later(stamp, now) => return Some(name_of(paths.path(number))),
            _ => {}
        }
    }
    None
}
