//! The outputs of commands that wait until their labels are shown, and the time.

use crate::watched_screen::{WriteEnd, WriteWatcher};
use indexmap::IndexMap;
use plan_progress::{Outputs, Stopwatch};
use std::alloc::Global;
use std::rt::Clock;
use std::sync::{Condvar, CondvarTimeouts, Mutex, MutexGuard, Wait};
use std::time::{Duration, Instant};

/// The number of bytes of held outputs. Above it, the end of a command waits until some of them are printed.
const MOST_BYTES: usize = 64 << 20;

/// The longest time that a console command waits for its label, in milliseconds.
const LABEL_WAIT: u64 = 1000;

/// The time after which the end of a command stops waiting if nothing is being written, in milliseconds.
const IDLE_WAIT: u64 = 1000;

/// The contents of a store of outputs, under its lock.
#[derive(Drop)]
struct Held {
    /// The outputs that wait, by the first output of their edge.
    texts: IndexMap<Vec<u8>, Vec<u8>>,
    /// The number of bytes of these outputs.
    bytes: usize,
    /// The edge whose console command begins after the next write.
    announced: Option<Vec<u8>>,
    /// The edge whose console command may begin, because its label was written.
    ready: Option<Vec<u8>>,
    /// Whether a write is going on.
    writing: bool,
    /// Whether a write failed. If so, nothing more is written.
    failed: bool,
    /// Whether nobody reads the output any more.
    closed: bool,
}

impl Held {
    /// Checks whether an output can be held, or need not be held.
    fn has_room(&self) -> bool {
        (self.bytes <= MOST_BYTES) | self.failed
    }

    /// Checks whether the console command of an edge may begin.
    fn may_begin(&self, edge: &[u8]) -> bool {
        match &self.ready {
            Some(ready) => (ready.as_slice() == edge) | self.failed,
            None => self.failed,
        }
    }

    /// Takes the output of an edge. Returns None if nothing waits for it.
    fn take(&mut self, edge: &[u8]) -> Option<Vec<u8>> {
        let text = self.texts.swap_remove(edge)?;
        self.bytes = self.bytes.saturating_sub(text.len());
        Some(text)
    }

    /// Holds the output of an edge. Returns the text if there is no memory to hold it.
    fn put(&mut self, edge: Vec<u8>, text: Vec<u8>) -> Option<Vec<u8>> {
        let count = text.len();
        match self.texts.insert(edge, text) {
            Ok(_) => {
                self.bytes = self.bytes.saturating_add(count);
                None
            }
            Err(failed) => Some(failed.value.1),
        }
    }
}

/// The outputs of commands that have ended and whose marks weren't printed yet, by the first output of their edge.
#[derive(Drop)]
pub struct HeldOutputs<'a, R> {
    alloc: Global,
    rt: &'a R,
    held: Mutex<Held>,
    /// Notified when a write has ended, and when an output is taken.
    moved: Condvar,
    /// When the build began. None if the clock can't be read.
    begun: Option<Instant>,
}

impl<'a, R: Wait + Clock> HeldOutputs<'a, R> {
    /// Creates the store. No output waits, and the build begins now.
    pub fn new(alloc: Global, rt: &'a R) -> HeldOutputs<'a, R> {
        let held = Held {
            texts: IndexMap::new(alloc),
            bytes: 0,
            announced: None,
            ready: None,
            writing: false,
            failed: false,
            closed: false,
        };
        HeldOutputs {
            alloc,
            rt,
            held: Mutex::new(held),
            moved: Condvar::new(),
            begun: Instant::now(rt).ok(),
        }
    }
}

impl<R: Wait + Clock> HeldOutputs<'_, R> {
    /// Takes the lock when an output can be held. If nothing is being written, waits no longer than `IDLE_WAIT`, since
    /// the marks of the held outputs may come only after this command has ended.
    fn lock_with_room(&self) -> MutexGuard<'_, Held> {
        let mut held = self.held.lock(self.rt);
        for _ in self.rt.forever() {
            if held.has_room() {
                return held;
            }
            let pause = Duration::from_millis(IDLE_WAIT);
            let (guard, waited) = self.moved.wait_timeout(self.rt, held, pause);
            held = guard;
            if waited.timed_out() & !held.writing {
                return held;
            }
        }
        held
    }

    /// Holds the output of the command of an edge. Waits while too much is held that is being written. If a write
    /// failed, holds nothing. Returns the text if there is no memory to hold it.
    pub fn hold(&self, edge: &[u8], text: Vec<u8>) -> Option<Vec<u8>> {
        let Ok(edge) = Vec::from_slice(self.alloc, edge) else {
            return Some(text);
        };
        let mut held = self.lock_with_room();
        if held.failed {
            return None;
        }
        held.put(edge, text)
    }

    /// Checks whether nobody reads standard output any more. If so, no further command begins.
    pub fn is_closed(&self) -> bool {
        self.held.lock(self.rt).closed
    }

    /// Waits until the label of a console command was written, or a write failed, but at most for `LABEL_WAIT`.
    pub fn wait_for_label(&self, edge: &[u8]) {
        let held = self.held.lock(self.rt);
        let longest = Duration::from_millis(LABEL_WAIT);
        let (mut held, _) = self
            .moved
            .wait_timeout_while(self.rt, held, longest, |held| !held.may_begin(edge));
        held.ready = None;
    }
}

impl<R: Wait> Outputs for HeldOutputs<'_, R> {
    ghost taken = { λ _ _ _. Unit {0} };

    fn take(&self, edge: &[u8]) -> Option<Vec<u8>> {
        let text = self.held.lock(self.rt).take(edge);
        self.moved.notify_all();
        text
    }

    fn begin_console(&self, edge: &[u8], text: &[u8]) {
        let edge = Vec::from_slice(self.alloc, edge).ok();
        let mut held = self.held.lock(self.rt);
        if text.is_empty() {
            held.ready = edge;
            self.moved.notify_all();
        } else {
            held.announced = edge;
        }
    }
}

impl<R: Wait> WriteWatcher for HeldOutputs<'_, R> {
    fn begin_write(&self) {
        self.held.lock(self.rt).writing = true;
    }

    fn end_write(&self, end: WriteEnd) {
        let mut held = self.held.lock(self.rt);
        held.writing = false;
        if let Some(edge) = held.announced.take() {
            held.ready = Some(edge);
        }
        if end != WriteEnd::Whole {
            held.failed = true;
            held.closed = end == WriteEnd::Closed;
            held.texts = IndexMap::new(self.alloc);
            held.bytes = 0;
        }
        self.moved.notify_all();
    }
}

impl<R: Clock> Stopwatch for HeldOutputs<'_, R> {
    ghost showed = { λ _ _. Unit {0} };

    fn elapsed(&self) -> u64 {
        match self.begun {
            Some(begun) => match begun.elapsed(self.rt) {
                Ok(elapsed) => u64::try_from(elapsed.as_millis()).unwrap_or(u64::MAX),
                Err(_) => 0,
            },
            None => 0,
        }
    }
}
