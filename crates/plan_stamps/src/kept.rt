//! Stamps that are kept.

ghost use Rattle.std.specs.Prelude.{◌≡◌, IfOk, IfSome, true};
ghost use Rattle.plan_machine.specs.declared.event.reply.Reply.TheVariants.{Stamp};
ghost use Rattle.plan_stamps.specs.Stamps.{AllowsOnce};
ghost use Rattle.plan_verify.specs.Turn.{Stat};

use crate::asked::AskedReply;
use crate::commands::Moment;
use plan_lanes::World;
use std::alloc::{AllocError, Global};
use std::hash::{FoldHasher, Hasher};
use std::marker::{Model, PhantomData};
use std::sync::Wait;
use std::sync::atomic::{AtomicU64, Ordering};

/// A stamp that the world allows for a path, and how many commands had begun when it was asked for.
#[derive(Drop)]
pub struct KeptStamp<W: World> {
    path: Vec<u8>,
    stamp: u64,
    begun: u64,
    world: PhantomData<W>,
}

impl<W: World> Model for KeptStamp<W> {
    ghost use Rattle.plan_machine.specs.declared.event.reply.Reply.TheVariants.{Stamp};
    ghost use Rattle.plan_stamps.specs.Stamps.{AllowsOnce, Kept};
    ghost use Rattle.plan_verify.specs.Turn.{Stat};

    ghost Value = { Kept };

    ghost view = { λ k. record { path = k.path.items; stamp = k.stamp; begun = k.begun } };

    ghost invariant = { λ k. AllowsOnce W.allows (Stat k.path.items) (Stamp k.stamp) };
}

impl<W: World> KeptStamp<W> {
    /// Creates a copy of a path with the stamp that was asked for in a moment without commands. Returns None if the
    /// reply was no stamp.
    pub fn of(alloc: Global, asked: &AskedReply<'_, W>) -> Result<Option<KeptStamp<W>>, AllocError>
        ensures { IfOk result (λ kept. IfSome kept (λ k. asked.now ≡ record { path = k.path; reply = Stamp k.stamp; begun = k.begun })) }
    {
        let Some(stamp) = asked.stamp() else {
            return Ok(None);
        };
        let path = Vec::from_slice(alloc, asked.path())?;
        Ok(Some(KeptStamp {
            path,
            stamp,
            begun: asked.begun_count(),
            world: PhantomData,
        }))
    }

    /// Checks whether the stamp is of this path, and no command has begun between its question and a moment.
    pub fn answers(&self, path: &[u8], moment: &Moment) -> bool
        ensures { result ≡ true → (self.now.path ≡ path.now) × (self.now.begun ≡ moment.now.begun) }
    {
        self.begun == moment.begun_count() && self.path.as_slice() == path
    }

    /// Checks whether the stamp is of this path.
    pub fn is_of(&self, path: &[u8]) -> bool
        ensures { result ≡ true → self.now.path ≡ path.now }
    {
        self.path.as_slice() == path
    }

    /// Returns the stamp.
    pub fn stamp(&self) -> u64
        ensures same { result ≡ self.now.stamp }
        ensures allowed { AllowsOnce W.allows (Stat self.now.path) (Stamp result) }
    {
        self.stamp
    }
}

/// A hash table of stamps. Entries are only added, so it is read without a lock. An entry is a word and an item of the
/// list: half of the path's hash, and the item's index. Words are hints only: the item's own path and number are
/// compared. Paths that are asked for often, such as those of headers, are found by `recent` words, which take few
/// pages of memory.
#[derive(Drop)]
pub struct StampTable<W: World> {
    words: Vec<AtomicU64>,
    /// One less than the number of rows of words, which is a power of two.
    last_row: usize,
    /// The words of paths that were found in their rows, each at the place for its hash.
    recent: Vec<AtomicU64>,
    /// One less than the number of recent words, which is a power of two.
    last_recent: usize,
    list: boxcar::Vec<KeptStamp<W>>,
    /// How many commands had begun when a stamp was last offered, and how many stamps were offered since.
    begun: AtomicU64,
    offered: AtomicU64,
}

/// The number of words that are tried for a path.
const WAYS: usize = 8;

/// The greatest number of recent words, a power of two. There are no more of them than rows.
const RECENT: usize = 16_384;

/// The number of stamps after a command that are not kept. There are few questions between most commands, and a kept
/// stamp takes memory until the end.
const SHORT: u64 = 1_024;

/// Returns the hash of a path.
pub(crate) fn hash_of(path: &[u8]) -> u64 {
    let mut hasher = FoldHasher::default();
    hasher.write(path);
    hasher.finish()
}

/// Returns this many empty words.
fn empty_words(alloc: Global, count: usize) -> Result<Vec<AtomicU64>, AllocError> {
    let mut words = Vec::with_capacity(alloc, count)?;
    for _ in 0..count {
        words.push(AtomicU64::new(0))?;
    }
    Ok(words)
}

/// Returns the number of rows for this many stamps, a power of two.
fn rows_for(room: usize) -> usize {
    let mut rows = 1usize;
    for _ in 0..40 {
        if rows >= room / WAYS {
            return rows;
        }
        rows = rows.saturating_mul(2);
    }
    rows
}

/// Returns the word of a hash and an index: the upper half of the hash, and one more than the index.
fn word_of(hash: u64, index: usize) -> u64 {
    hash >> 32 << 32 | (index as u64).wrapping_add(1) & 0xffff_ffff
}

impl<W: World + Drop> StampTable<W> {
    /// Creates an empty table with room for this many stamps, or some more.
    ///
    /// # Errors
    /// `AllocError` if memory runs out.
    pub fn new(alloc: Global, room: usize) -> Result<StampTable<W>, AllocError> {
        let rows = rows_for(room);
        let words = empty_words(alloc, rows.saturating_mul(WAYS))?;
        let recents = rows.min(RECENT);
        let recent = empty_words(alloc, recents)?;
        Ok(StampTable {
            words,
            last_row: rows.wrapping_sub(1),
            recent,
            last_recent: recents.wrapping_sub(1),
            list: boxcar::Vec::new(alloc)?,
            begun: AtomicU64::new(0),
            offered: AtomicU64::new(0),
        })
    }
}

impl<W: World> StampTable<W> {
    /// Returns a word of the row of a hash.
    fn word(&self, hash: u64, way: usize) -> Option<&AtomicU64> {
        let row = hash as usize & self.last_row;
        self.words.get(row.wrapping_mul(WAYS).wrapping_add(way))
    }

    /// Returns the item of a word.
    fn item(&self, word: u64) -> Option<&KeptStamp<W>> {
        self.list
            .get(((word & 0xffff_ffff) as usize).wrapping_sub(1))
    }

    /// Returns the place for the recent word of a hash.
    fn recent_word(&self, hash: u64) -> Option<&AtomicU64> {
        self.recent.get(hash as usize & self.last_recent)
    }

    /// Stores the word of a path that was found in its row as a recent one, unless another path has its place.
    fn remember(&self, hash: u64, word: u64) {
        if let Some(place) = self.recent_word(hash) {
            let other = place.load(Ordering::SeqCst);
            if other == 0 || other >> 32 == word >> 32 {
                place.store(word, Ordering::SeqCst);
            }
        }
    }

    /// Returns the item of a word, if it is the kept stamp of a path with this hash that was asked for in this moment.
    #[inline(always)]
    fn item_for(&self, word: u64, hash: u64, path: &[u8], moment: &Moment) -> Option<&KeptStamp<W>>
        ensures { IfSome result (λ k. (k.now.path ≡ path.now) × (k.now.begun ≡ moment.now.begun)) }
    {
        if word >> 32 != hash >> 32 {
            return None;
        }
        let kept = self.item(word)?;
        if kept.answers(path, moment) {
            Some(kept)
        } else {
            None
        }
    }

    /// Returns the kept stamp of a path that was asked for in this moment, if a word of its row has it.
    fn find_in_row(&self, hash: u64, path: &[u8], moment: &Moment) -> Option<&KeptStamp<W>>
        ensures { IfSome result (λ k. (k.now.path ≡ path.now) × (k.now.begun ≡ moment.now.begun)) }
    {
        for way in 0..WAYS {
            let word = self.word(hash, way)?.load(Ordering::SeqCst);
            if let Some(kept) = self.item_for(word, hash, path, moment) {
                self.remember(hash, word);
                return Some(kept);
            }
        }
        None
    }

    /// Returns the kept stamp of a path that was asked for in this moment. Returns None if there is none.
    pub fn find(&self, path: &[u8], moment: &Moment) -> Option<&KeptStamp<W>>
        ensures { IfSome result (λ k. (k.now.path ≡ path.now) × (k.now.begun ≡ moment.now.begun)) }
    {
        let hash = hash_of(path);
        let word = self.recent_word(hash)?.load(Ordering::SeqCst);
        match self.item_for(word, hash, path, moment) {
            Some(kept) => Some(kept),
            None => self.find_in_row(hash, path, moment),
        }
    }

    /// Counts a stamp that is offered, and checks whether to keep it: before the first command, or if many stamps were
    /// offered in the moment in which this many commands had begun.
    pub fn is_wanted(&self, begun_count: u64) -> bool {
        if begun_count == 0 {
            return true;
        }
        if self.begun.load(Ordering::SeqCst) != begun_count {
            self.begun.store(begun_count, Ordering::SeqCst);
            self.offered.store(0, Ordering::SeqCst);
        }
        self.offered.fetch_add(1, Ordering::SeqCst) >= SHORT
    }

    /// Checks whether a word is free for the stamp of a path: it is empty, or of the same path.
    fn is_free(&self, word: u64, hash: u64, path: &[u8]) -> bool {
        if word == 0 {
            return true;
        }
        if word >> 32 != hash >> 32 {
            return false;
        }
        match self.item(word) {
            Some(kept) => kept.is_of(path),
            None => false,
        }
    }

    /// Adds a stamp, if one of the words of its path is free. The list has no more items than there are words.
    pub fn add<R: Wait>(&self, rt: &R, kept: KeptStamp<W>) {
        if self.list.count() >= self.words.len() {
            return;
        }
        let hash = hash_of(kept.path.as_slice());
        for way in 0..WAYS {
            let Some(place) = self.word(hash, way) else {
                return;
            };
            let word = place.load(Ordering::SeqCst);
            if self.is_free(word, hash, kept.path.as_slice()) {
                if let Ok(at) = self.list.push(rt, kept) {
                    place.store(word_of(hash, at), Ordering::SeqCst);
                }
                return;
            }
        }
    }
}
