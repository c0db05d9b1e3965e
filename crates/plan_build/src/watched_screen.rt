//! Standard output whose writes are reported.

ghost use Rattle.std.specs.Prelude.{◌≡◌};

use plan_printing::write_whole;
use plan_text::{GhostCounter, Sink, SinkFault};
use std::io::{self, ErrorKind};
use std::rt::Clock;
use std::sync::{Mutex, Wait};

/// Gets notified when a write begins, and when it has ended.
pub trait WriteWatcher {
    /// Notes that a write begins.
    fn begin_write(&self);

    /// Notes how a write has ended.
    fn end_write(&self, end: WriteEnd);
}

/// The end of a write.
#[derive(Clone, Copy, PartialEq, Eq)]
pub enum WriteEnd {
    /// All bytes were written.
    Whole,
    /// Nobody reads the pipe any more.
    Closed,
    /// The write failed for another reason, such as a full disk.
    Lost,
}

/// Returns how a write ended that had this result.
fn end_of(written: &io::Result<()>) -> WriteEnd {
    match written {
        Ok(()) => WriteEnd::Whole,
        Err(error) => match error.kind() {
            ErrorKind::BrokenPipe => WriteEnd::Closed,
            _ => WriteEnd::Lost,
        },
    }
}

/// Standard output that is locked during each write, like plan_commands' `Screen`. A watcher is notified of each write.
/// This type doesn't wrap a `Screen`, since the kit doesn't find `Send` for a counter that is nested two structs deep.
#[derive(Drop)]
pub struct WatchedScreen<'a, R, H> {
    rt: &'a R,
    lock: &'a Mutex<()>,
    watcher: &'a H,
    failures: GhostCounter,
}

impl<'a, R: Print + Wait + Clock, H: WriteWatcher> WatchedScreen<'a, R, H> {
    /// Creates a sink for the standard output of a runtime. Holds the lock during each write.
    pub fn new(rt: &'a R, lock: &'a Mutex<()>, watcher: &'a H) -> WatchedScreen<'a, R, H>
        ensures { result.failures.count ≡ 0 }
    {
        WatchedScreen {
            rt,
            lock,
            watcher,
            failures: GhostCounter::new(),
        }
    }
}

impl<R: Print + Wait + Clock, H: WriteWatcher> Sink for WatchedScreen<'_, R, H> {
    ghost use Rattle.std.specs.Prelude.{None};

    ghost failures = { λ s. s.failures.count };

    ghost taken = { λ _. None };

    fn write(&mut self, bytes: &[u8]) -> Result<usize, SinkFault> {
        self.watcher.begin_write();
        let guard = self.lock.lock(self.rt);
        let written = write_whole(self.rt, self.rt, bytes);
        drop(guard);
        self.watcher.end_write(end_of(&written));
        match written {
            Ok(()) => Ok(bytes.len()),
            Err(_) => {
                self.failures = self.failures.next();
                Err(SinkFault)
            }
        }
    }
}
