//! A set of paths that may say too often that a path is in it, and never too seldom.

ghost use Rattle.std.specs.Prelude.{◌≡◌, ◌↔◌, ◌<◌, ◌+◌, ◌*◌, ◌%◌, ◌^◌, ◌++◌, ◌∷◌, [], Contains, IfOk, false, fold, length, true};
ghost use Rattle.plan_text.specs.PathFilters.{HasBit, bit_of, ends_of, hash_of, number_of, place_of, with_bit};

use crate::ghost_paths::{GhostPaths, GivenPath};
use std::alloc::{AllocError, Global};
use std::marker::Model;

/// A set of paths that may say too often that a path is in it, and never too seldom: a Bloom filter with one bit for
/// each path, and one for its first and last byte. A contract sees the list of the paths that were added.
#[derive(Drop)]
pub struct PathFilter {
    /// The bits of hashes, sixty-four each. There is at least one word.
    words: Vec<u64>,
    /// The bits of first and last bytes, sixty-four each. Most paths differ there from all that were added, and need no
    /// hash.
    ends: Vec<u64>,
    added: GhostPaths,
}

impl Model for PathFilter {
    ghost use Rattle.std.specs.Prelude.{◌<◌, List, ℕ, length};
    ghost use Rattle.plan_text.specs.PathFilters.{HaveBits, ends_of, hash_of};

    ghost Value = { List (List ℕ) };

    ghost view = { λ f. f.added.paths };

    ghost invariant = { λ f. ((0 < length f.words.items) × HaveBits hash_of f.words.items f.added.paths) × ((0 < length f.ends.items) × HaveBits ends_of f.ends.items f.added.paths) };
}

/// Returns the bytes of a path as a number of base 256.
fn short_number(path: &[u8]) -> u128
    ensures { result ≡ fold (λ n b. n % 2 ^ 120 * 256 + b) 0 path.now }
{
    let mut number = 0u128;
    for byte in path {
        number = number % (1 << 120) * 256 + u128::from(*byte);
    }
    number
}

/// Returns the last sixteen bytes of a path as a number of base 256, the first and the last eight of a shorter path, or
/// all bytes of a path of fewer than eight.
#[tactic(auto, unfolding(crate::specs::PathFilters::number_of))]
fn number_of(path: &[u8]) -> u128
    ensures { result ≡ number_of path.now }
{
    if let Some(last) = path.last_chunk::<16>() {
        return u128::from_be_bytes(*last);
    }
    match (path.first_chunk::<8>(), path.last_chunk::<8>()) {
        (Some(first), Some(last)) => {
            u128::from(u64::from_be_bytes(*first)) << 64 | u128::from(u64::from_be_bytes(*last))
        }
        _ => short_number(path),
    }
}

/// Returns the hash of a path.
#[tactic(auto, unfolding(crate::specs::PathFilters::hash_of))]
fn hash_of(path: &[u8]) -> u64
    ensures { result ≡ hash_of path.now }
{
    let number = number_of(path);
    let high = (number >> 64) * 0x4cf5_ad43_2745_937f;
    let low = number % (1 << 64) * 0x87c3_7b91_1142_53d5;
    let sum = high + low + path.len() as u128 * 0x1656_67b1_9e37_79f9;
    (sum % (1 << 64)) as u64
}

/// Returns the hash of the first and the last byte of a path.
#[tactic(auto, unfolding(crate::specs::PathFilters::ends_of))]
fn ends_of(path: &[u8]) -> u64
    ensures { result ≡ ends_of path.now }
{
    match (path.first(), path.last()) {
        (Some(first), Some(last)) => {
            let (first, last) = (u64::from(*first), u64::from(*last));
            first * (1 << 56) + last / 64 * (1 << 54) + last % 64 * (1 << 32)
        }
        _ => 0,
    }
}

/// Returns the number of the word in which a hash has its bit.
#[tactic(auto, unfolding(crate::specs::PathFilters::place_of))]
fn place_of(words: usize, hash: u64) -> usize
    requires { 0 < words }
    ensures place { result ≡ place_of words hash }
    ensures within { result < words }
{
    let place = (hash as u128 * words as u128) >> 64;
    (place as usize).min(words - 1)
}

/// Returns the word that has only the bit of a hash.
#[tactic(auto, unfolding(crate::specs::PathFilters::bit_of))]
fn bit_of(hash: u64) -> u64
    ensures { result ≡ bit_of hash }
{
    1 << (hash >> 32) % 64
}

/// Sets the bit of a hash.
fn set_bit(words: &mut [u64], hash: u64)
    requires { 0 < length words.old }
    ensures words { words.new ≡ with_bit words.old hash }
    ensures within { place_of (length words.old) hash < length words.old }
{
    let place = place_of(words.len(), hash);
    words[place] |= bit_of(hash);
}

/// Checks whether the bit of a hash is set.
fn has_bit(words: &[u64], hash: u64) -> bool
    requires { 0 < length words.now }
    ensures { (result ≡ true) ↔ HasBit words.now hash }
{
    let bit = bit_of(hash);
    words[place_of(words.len(), hash)] & bit == bit
}

/// Returns the number of words for this many paths: a word for each two paths, from 64 to 1,048,576 words.
fn word_count(paths: usize) -> usize
    ensures { 0 < result }
{
    (paths / 2 + 64).min(1_048_576)
}

/// The number of words for the ends of paths: a bit for each pair of bytes.
const ENDS: usize = 1_024;

impl PathFilter {
    /// Creates an empty set with room for this many paths: 32 bits for each, from 4,096 to 67,108,864 bits, and 65,536
    /// bits for the ends of paths. More paths may be added, and the answers are then less exact.
    ///
    /// # Errors
    ///
    /// `AllocError` if memory runs out.
    pub fn new(alloc: Global, paths: usize) -> Result<PathFilter, AllocError>
        ensures { IfOk result (λ filter. filter ≡ []) }
    {
        let mut words = Vec::new(alloc);
        words.resize(word_count(paths), 0u64)?;
        let mut ends = Vec::new(alloc);
        ends.resize(ENDS, 0u64)?;
        Ok(PathFilter {
            words,
            ends,
            added: GhostPaths::new(),
        })
    }

    /// Adds a path.
    pub fn add(&mut self, path: &[u8])
        ensures { self.new ≡ self.old ++ path.now ∷ [] }
    {
        set_bit(&mut self.words, hash_of(path));
        set_bit(&mut self.ends, ends_of(path));
        self.added = self.added.and(&GivenPath { bytes: path });
    }

    /// Checks whether a path may be in the set. A path that was added is always found.
    pub fn may_have(&self, path: &[u8]) -> bool
        ensures { result ≡ false → Contains self.now path.now → ⊥ }
    {
        has_bit(&self.ends, ends_of(path)) && has_bit(&self.words, hash_of(path))
    }
}
