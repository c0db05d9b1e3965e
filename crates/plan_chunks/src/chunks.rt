//! Lists of chunks.

ghost use Rattle.std.specs.Prelude.{◌≡◌, [], IfOk, IfSome, Some, get_or, length, slice_get, true};
ghost use Rattle.plan_chunks.specs.Joining.{HasMore, Keeps};

use indexmap::IndexMap;
use plan_text::{RowList, feed_words};
use std::alloc::{AllocError, Global};
use std::hash::{FoldHasher, Hasher};
use std::marker::Model;

/// A list of chunks, each of which is held once unless hashes collide. A contract sees it as a list of lists.
///
/// The chunks are stored consecutively in one vector. If they would have more than 4,294,967,295 bytes, `put` fails as
/// if memory had run out.
#[derive(Drop)]
pub struct Chunks {
    /// The bytes of each chunk.
    rows: RowList<u8>,
    /// The number of the chunk that was appended last with a hash. It is only a hint: the chunk's bytes are compared
    /// too.
    numbers: IndexMap<u64, u32>,
}

impl Model for Chunks {
    ghost use Rattle.std.specs.Prelude.{List, ℕ};

    ghost Value = { List (List ℕ) };

    ghost view = { λ c. c.rows };
}

/// Returns the hash of a chunk.
fn hash_of(chunk: &[u8]) -> u64 {
    let mut hasher = FoldHasher::default();
    feed_words(chunk, &mut hasher);
    hasher.finish()
}

/// Returns the number of rows. Returns `AllocError` if it doesn't fit in four bytes.
fn row_count(rows: &RowList<u8>) -> Result<u32, AllocError>
    ensures { IfOk result (λ count. count ≡ length rows.now) }
{
    match u32::try_from(rows.len()) {
        Ok(count) => Ok(count),
        Err(_) => Err(AllocError),
    }
}

/// Checks whether the row with this number has these bytes.
fn is_at(rows: &RowList<u8>, number: u32, chunk: &[u8]) -> bool
    ensures { result ≡ true → slice_get rows.now number ≡ Some chunk.now }
{
    match rows.get(number as usize) {
        Some(row) => row == chunk,
        None => false,
    }
}

/// Returns the number of an equal row if it is the number of this hash.
fn find(rows: &RowList<u8>, numbers: &IndexMap<u64, u32>, hash: u64, chunk: &[u8]) -> Option<u32>
    ensures { IfSome result (λ number. slice_get rows.now number ≡ Some chunk.now) }
{
    match numbers.get(&hash) {
        Some(number) => {
            if is_at(rows, *number, chunk) {
                Some(*number)
            } else {
                None
            }
        }
        None => None,
    }
}

/// Appends a row and returns its number.
fn push(
    rows: &mut RowList<u8>,
    numbers: &mut IndexMap<u64, u32>,
    hash: u64,
    chunk: &[u8],
) -> Result<u32, AllocError>
    ensures chunk { IfOk result (λ number. slice_get rows.new number ≡ Some chunk.now) }
    ensures more { HasMore rows.old rows.new }
{
    let number = row_count(rows)?;
    numbers.insert(hash, number)?;
    rows.push(chunk)?;
    Ok(number)
}

/// Returns the number of a row with these bytes. Appends the row if it isn't found.
fn find_or_push(
    rows: &mut RowList<u8>,
    numbers: &mut IndexMap<u64, u32>,
    chunk: &[u8],
) -> Result<u32, AllocError>
    ensures chunk { IfOk result (λ number. slice_get rows.new number ≡ Some chunk.now) }
    ensures more { HasMore rows.old rows.new }
{
    let hash = hash_of(chunk);
    match find(rows, numbers, hash, chunk) {
        Some(number) => Ok(number),
        None => push(rows, numbers, hash, chunk),
    }
}

impl Chunks {
    /// Creates an empty list.
    pub fn new(alloc: Global) -> Chunks
        ensures { result ≡ [] }
    {
        Chunks {
            rows: RowList::new(alloc),
            numbers: IndexMap::new(alloc),
        }
    }

    /// Returns the number of chunks.
    pub fn len(&self) -> usize
        ensures { result ≡ length self.now }
    {
        self.rows.len()
    }

    /// Returns the chunk with this number, counted from 0. If there is no such chunk, returns an empty one.
    pub fn chunk(&self, number: usize) -> &[u8]
        ensures { result.now ≡ get_or self.now number [] }
    {
        self.rows.row(number)
    }

    /// Returns the number of a chunk. Appends the chunk if the list doesn't find it. The numbers of other chunks stay
    /// valid, even if the call is refused.
    ///
    /// # Errors
    ///
    /// `AllocError` if memory runs out.
    pub fn put(&mut self, chunk: &[u8]) -> Result<u32, AllocError>
        ensures chunk { IfOk result (λ number. slice_get self.new number ≡ Some chunk.now) }
        ensures more { HasMore self.old self.new }
        ensures keeps { Keeps self.old self.new }
    {
        find_or_push(&mut self.rows, &mut self.numbers, chunk)
    }
}
