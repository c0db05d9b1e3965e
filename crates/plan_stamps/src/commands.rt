//! The numbers of commands that have begun and that have ended.

ghost use Rattle.std.specs.Prelude.{◌≡◌, IfSome};

use std::sync::atomic::{AtomicU64, Ordering};

/// A moment in which no command was running: the numbers of commands that had begun and that had ended by then.
#[derive(Clone, Copy)]
pub struct Moment {
    begun: u64,
    ended: u64,
}

/// Returns the moment of two numbers of commands. Returns None if a command was running.
fn moment_of(begun: u64, ended: u64) -> Option<Moment>
    ensures { IfSome result (λ m. (m.begun ≡ begun) × (m.begun ≡ m.ended)) }
{
    if begun == ended {
        Some(Moment { begun, ended })
    } else {
        None
    }
}

impl Moment {
    /// Returns how many commands had begun.
    pub fn begun_count(&self) -> u64
        ensures { result ≡ self.now.begun }
    {
        self.begun
    }
}

/// A command that has begun and has not ended. It can't be copied or dropped.
pub struct Running {
    begun: u64,
}

/// The number of commands that have begun, and of those that have ended. Both numbers only grow.
#[derive(Drop)]
pub struct Commands {
    begun: AtomicU64,
    ended: AtomicU64,
}

impl Commands {
    /// Creates the counters, both 0.
    pub fn new() -> Commands {
        Commands {
            begun: AtomicU64::new(0),
            ended: AtomicU64::new(0),
        }
    }

    /// Returns a moment within this call in which no command was running. Returns None if it found none. The number of
    /// ended commands is read first. If the number of begun commands is the same after that, no command was running at
    /// that time.
    pub fn quiet(&self) -> Option<Moment>
        ensures { IfSome result (λ m. m.begun ≡ m.ended) }
    {
        let ended = self.ended.load(Ordering::SeqCst);
        let begun = self.begun.load(Ordering::SeqCst);
        moment_of(begun, ended)
    }

    /// Returns how many commands have begun.
    pub fn count(&self) -> u64 {
        self.begun.load(Ordering::SeqCst)
    }

    /// Counts a command that is about to start.
    pub fn begin(&self) -> Running {
        let begun = self.begun.fetch_add(1, Ordering::SeqCst);
        Running { begun }
    }

    /// Counts a command that has ended.
    pub fn end(&self, running: Running) {
        let Running { begun } = running;
        let _ = begun;
        self.ended.fetch_add(1, Ordering::SeqCst);
    }
}
