//! Stamps that are asked for ahead of a build.

use crate::cache::StampCache;
use crate::kept::hash_of;
use plan_lanes::World;
use plan_record::Entry;
use std::alloc::{AllocError, Global};
use std::sync::Wait;
use std::sync::atomic::{AtomicBool, AtomicUsize, Ordering};
use std::thread;
use std::thread::Threads;

/// The number of entries that a thread takes at once.
const SOME: usize = 32;

/// Takes the next entries, some at a time. Returns the index of the first one, and the index after the last one.
/// Returns None if no entry is left.
fn next_of(taken: &AtomicUsize, count: usize) -> Option<(usize, usize)> {
    let first = taken.fetch_add(SOME, Ordering::SeqCst);
    if first >= count {
        return None;
    }
    Some((first, first.saturating_add(SOME).min(count)))
}

/// The number of hashes that a thread remembers, a power of two.
const REMEMBERED: usize = 16_384;

/// The hashes of paths that a thread asked for lately, each at its own place. Most entries name the same headers as
/// others. A hash is a hint only: if two paths have the same hash, the build asks for one of them.
#[derive(Drop)]
struct AskedPaths {
    hashes: Vec<u64>,
}

impl AskedPaths {
    /// Remembers no path.
    fn new(alloc: Global) -> Result<AskedPaths, AllocError> {
        let hashes = vec![in alloc; 0; REMEMBERED]?;
        Ok(AskedPaths { hashes })
    }

    /// Checks whether a path isn't remembered, and remembers it.
    fn is_new(&mut self, path: &[u8]) -> bool {
        let hash = hash_of(path);
        let Some(place) = self.hashes.get_mut(hash as usize & (REMEMBERED - 1)) else {
            return true;
        };
        let is_new = *place != hash;
        *place = hash;
        is_new
    }
}

impl<R: Wait, W: World> StampCache<'_, R, W> {
    /// Asks for the stamps of an entry's output and of the paths that its command read, except those that are
    /// remembered. If memory runs out, leaves paths to the build.
    fn ask_for(&self, entry: &Entry, asked: &mut AskedPaths) {
        self.stat_ahead(entry.output());
        let Ok(paths) = entry.paths() else {
            return;
        };
        let Ok(paths) = paths.into_rows(self.alloc()) else {
            return;
        };
        for number in 0..paths.len() {
            if asked.is_new(paths.row(number)) {
                self.stat_ahead(paths.row(number));
            }
        }
    }

    /// Asks for the stamps of these entries. Stops if a command has begun, or if `is_over` is set.
    fn ask_for_each(&self, entries: &[Entry], asked: &mut AskedPaths, is_over: &AtomicBool) {
        for entry in entries {
            if self.has_begun() || is_over.load(Ordering::SeqCst) {
                return;
            }
            self.ask_for(entry, asked);
        }
    }

    /// Asks for the stamps of entries that other threads have not taken, as long as there are any.
    fn ask_for_rest(&self, entries: &[Entry], taken: &AtomicUsize, is_over: &AtomicBool) {
        let Ok(mut asked) = AskedPaths::new(self.alloc()) else {
            return;
        };
        for _ in 0..entries.len() {
            let Some((first, end)) = next_of(taken, entries.len()) else {
                return;
            };
            if let Some(some) = entries.get(first..end) {
                self.ask_for_each(some, &mut asked, is_over);
            }
        }
    }
}

impl<R: Threads + Wait + Sync, W: World + Send + Sync> StampCache<'_, R, W> {
    /// Asks for the stamps of the outputs and the paths of these entries, by this many threads. So a build that begins
    /// meanwhile finds these stamps. Returns when all were asked for, when a command begins, since a build asks again
    /// from then on, or when `is_over` is set. If a stamp can't be determined, the build asks for it.
    pub fn ask_ahead(&self, entries: &[Entry], threads: usize, is_over: &AtomicBool) {
        let taken = AtomicUsize::new(0);
        thread::scope(thread::scope_env(), self.rt(), |scope| {
            for _ in 0..threads {
                let _ = scope.spawn(|| self.ask_for_rest(entries, &taken, is_over));
            }
        });
    }
}
