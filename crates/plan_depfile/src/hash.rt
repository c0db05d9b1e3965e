//! Hashes of paths, and their slots in a hash table.

ghost use Rattle.std.specs.Prelude.{◌≡◌, ◌≤◌, ◌<◌};
ghost use Rattle.plan_depfile.specs.PathSets.{hash_of, start_of, code_of, most_paths};

use plan_text::feed_words;
use std::hash::{FoldHasher, Hasher};

/// Returns the hash of a path.
#[tactic(auto, unfolding(crate::specs::PathSets::hash_of))]
pub fn hash_of(path: &[u8]) -> u64
    ensures { result ≡ hash_of path.now }
{
    let mut hasher = FoldHasher::default();
    feed_words(path, &mut hasher);
    hasher.finish()
}

/// Returns the slot from which on a hash is searched, in a table of `size` slots.
#[tactic(auto, unfolding(crate::specs::PathSets::start_of))]
pub fn start_of(size: usize, hash: u64) -> usize
    ensures start { result ≡ start_of size hash }
    ensures within { result ≤ size }
{
    let place = (hash as u128 * size as u128) >> 64;
    (place as usize).min(size)
}

/// Returns the code that is stored in the slot of a path: eight bits of the hash, and the number of the path
/// plus one.
#[tactic(auto, unfolding(crate::specs::PathSets::code_of))]
pub fn code_of(number: usize, hash: u64) -> u32
    requires { number < most_paths }
    ensures code { result ≡ code_of number hash }
    ensures filled { 0 < result }
{
    (hash % 256) as u32 * 16_777_216 + (number as u32 + 1)
}
