//! A world that counts the questions for stamps.

use plan_lanes::{KeepOrder, Permit, World};
use plan_machine::{Recorded, Reply};
use plan_text::RowList;
use plan_verify::{PathList, Words};
use std::alloc::{AllocError, Global};
use std::rt::Clock;
use std::sync::atomic::{AtomicU64, Ordering};
use std::thread;
use std::time::Duration;

/// The stamp of each file whose path isn't empty.
pub const STAMP: u64 = 7;

/// A world that counts questions for stamps. An empty path is a fault. The record has an entry of the output
/// `recorded`, with the paths `first` and `second`. Each command exits with 0, or with 99 after it waited about 5 s:
///
/// - A command with two outputs waits until enough questions were asked.
/// - A command with three outputs waits until one with two outputs has begun.
#[derive(Drop)]
pub struct CountingWorld<C> {
    clock: C,
    enough: u64,
    asked: AtomicU64,
    /// The number of commands with two outputs that have begun.
    begun: AtomicU64,
}

/// Returns the only entry of the record.
fn entry_in(alloc: Global) -> Result<Recorded, AllocError> {
    let mut paths = RowList::new(alloc);
    for path in [b"first".as_slice(), b"second"] {
        paths.push(path)?;
    }
    let command = Words::of(alloc, b"true")?;
    Recorded::new(alloc, command, 1, PathList::new(alloc, paths)?)
}

impl<C> CountingWorld<C> {
    /// Creates a world in which a command with two outputs waits for `enough` questions.
    pub fn new(clock: C, enough: u64) -> CountingWorld<C> {
        CountingWorld {
            clock,
            enough,
            asked: AtomicU64::new(0),
            begun: AtomicU64::new(0),
        }
    }

    /// Returns the number of questions for stamps that were asked.
    pub fn asked(&self) -> u64 {
        self.asked.load(Ordering::SeqCst)
    }

    /// Checks whether a command with this many outputs may end.
    fn may_end(&self, outputs: usize) -> bool {
        match outputs {
            2 => self.asked() >= self.enough,
            3 => self.begun.load(Ordering::SeqCst) > 0,
            _ => true,
        }
    }
}

impl<C: Clock + AllocGlobal> World for CountingWorld<C> {
    ghost use Rattle.std.specs.Prelude.{⊤};

    ghost allows = { λ number request reply. ⊤ };

    fn keeps_journal() -> bool {
        false
    }

    fn observes() -> bool {
        false
    }

    fn stat(&self, _number: u64, path: &[u8]) -> Result<Reply, AllocError> {
        self.asked.fetch_add(1, Ordering::SeqCst);
        if path.is_empty() {
            Ok(Reply::Fault)
        } else {
            Ok(Reply::Stamp(STAMP))
        }
    }

    fn stat_ahead(&self, path: &[u8]) -> Option<u64> {
        self.asked.fetch_add(1, Ordering::SeqCst);
        if path.is_empty() { None } else { Some(STAMP) }
    }

    fn recall(&self, _number: u64, output: &[u8]) -> Result<Reply, AllocError> {
        if output == b"recorded".as_slice() {
            return Ok(Reply::Entry(entry_in(self.clock.alloc())?));
        }
        Ok(Reply::Nothing)
    }

    fn run(
        &self,
        _number: u64,
        outputs: &RowList<u8>,
        permit: Permit,
    ) -> Result<Reply, AllocError> {
        permit.spend();
        if outputs.len() == 2 {
            self.begun.fetch_add(1, Ordering::SeqCst);
        }
        for _ in 0..5_000 {
            if self.may_end(outputs.len()) {
                return Ok(Reply::Exit(0));
            }
            thread::sleep(&self.clock, Duration::from_millis(1));
        }
        Ok(Reply::Exit(99))
    }

    fn read_depfile(&self, _number: u64, _path: &[u8]) -> Result<Reply, AllocError> {
        Ok(Reply::Nothing)
    }

    fn keep(&self, _number: u64, _order: &KeepOrder) -> Result<Reply, AllocError> {
        Ok(Reply::Kept)
    }
}
