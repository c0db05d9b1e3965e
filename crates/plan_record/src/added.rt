//! The entries that were added to a record after it was read.

ghost use Rattle.std.specs.Prelude.{◌≡◌, ◌≤◌, ◌<◌, ◌++◌, ◌∷◌, [], IfOk, OnErr, OnOk, length, slice_get, take};
ghost use Rattle.plan_chunks.specs.Joining.{AreBelow, Keeps, joined};
ghost use Rattle.plan_record.specs.Added.{AreHeld, entries_from};
ghost use Rattle.plan_record.specs.Entry.{IsPlaced, data_of};
ghost use Rattle.plan_record.specs.Reading.{entry_at};

use crate::entry::Entry;
use crate::reading::{entry_head, read_path};
use plan_chunks::Chunks;
use plan_text::{Memory, RowList};
use std::alloc::{AllocError, Global};
use std::marker::Model;
use std::sync::Arc;

/// A list of entries. A contract sees the list. The spelling of an entry is cut into chunks: what comes before its
/// paths, and each path. Equal chunks of all entries are held once unless hashes collide.
#[derive(Drop)]
pub(crate) struct AddedEntries {
    chunks: Chunks,
    /// The chunk numbers of each entry.
    numbers: RowList<u32>,
}

impl Model for AddedEntries {
    ghost use Rattle.std.specs.Prelude.{List};
    ghost use Rattle.plan_record.specs.Added.{AreHeld, entries_from};
    ghost use Rattle.plan_record.specs.Entries.{EntryData};

    ghost Value = { List EntryData };

    ghost view = { λ a. entries_from a.chunks a.numbers };

    ghost invariant = { λ a. AreHeld a.chunks a.numbers };
}

/// Returns the number of bytes before a rest of some bytes. If the rest isn't shorter, returns the number of all bytes.
fn front_len(bytes: &[u8], rest: &[u8]) -> usize
    ensures within { result ≤ length bytes.now }
    ensures some { 0 < length bytes.now → 0 < result }
{
    if rest.len() < bytes.len() {
        return bytes.len() - rest.len();
    }
    bytes.len()
}

/// Returns the number of bytes of a spelling before its paths.
fn head_len(spelling: &[u8]) -> usize
    ensures within { result ≤ length spelling.now }
    ensures some { 0 < length spelling.now → 0 < result }
{
    match entry_head(spelling) {
        Some((_, paths)) => front_len(spelling, paths),
        None => spelling.len(),
    }
}

/// Returns the number of bytes of the spelling of the first path.
fn path_len(paths: &[u8]) -> usize
    ensures within { result ≤ length paths.now }
    ensures some { 0 < length paths.now → 0 < result }
{
    match read_path(paths) {
        Some((_, rest)) => front_len(paths, rest),
        None => paths.len(),
    }
}

/// Cuts a spelling into chunks, and puts those into `chunks` that it doesn't find. Appends the numbers of all chunks of
/// the spelling, in order, to `numbers`, which must be empty.
fn cut_spelling(
    chunks: &mut Chunks,
    spelling: &[u8],
    numbers: &mut Vec<u32>,
) -> Result<(), AllocError>
    requires { numbers.old.items ≡ [] }
    ensures spelled { OnOk result (joined chunks.new numbers.new.items ≡ spelling.now) }
    ensures below { OnOk result (AreBelow (length chunks.new) numbers.new.items) }
    ensures keeps { Keeps chunks.old chunks.new }
{
    let mut rest = spelling;
    let mut len = head_len(spelling);
    while !rest.is_empty() {
        numbers.push(chunks.put(&rest[..len])?)?;
        rest = &rest[len..];
        len = path_len(rest);
    }
    Ok(())
}

/// Appends the chunk numbers of a spelling.
fn push_spelling(
    alloc: Global,
    chunks: &mut Chunks,
    rows: &mut RowList<u32>,
    spelling: &[u8],
) -> Result<(), AllocError>
    requires held { AreHeld chunks.old rows.old }
    requires placed { IsPlaced spelling.now 0 }
    ensures held { AreHeld chunks.new rows.new }
    ensures added { OnOk result (entries_from chunks.new rows.new ≡ entries_from chunks.old rows.old ++ data_of (entry_at spelling.now) ∷ []) }
    ensures unchanged { OnErr result (entries_from chunks.new rows.new ≡ entries_from chunks.old rows.old) }
{
    let mut numbers = Vec::new(alloc);
    cut_spelling(chunks, spelling, &mut numbers)?;
    rows.push(&numbers)?;
    Ok(())
}

/// Returns the joined chunks with these numbers.
fn join(alloc: Global, chunks: &Chunks, numbers: &[u32]) -> Result<Vec<u8>, AllocError>
    ensures { IfOk result (λ bytes. bytes.items ≡ joined chunks.now numbers.now) }
{
    let mut bytes = Vec::new(alloc);
    for number in numbers {
        bytes.extend_from_slice(chunks.chunk(*number as usize))?;
    }
    Ok(bytes)
}

/// Returns entry `number`. Returns None if there is no such entry.
fn entry_at_row(
    alloc: Global,
    chunks: &Chunks,
    rows: &RowList<u32>,
    number: usize,
) -> Result<Option<Entry>, Memory>
    requires { AreHeld chunks.now rows.now }
    ensures { IfOk result (λ entry. entry ≡ slice_get (entries_from chunks.now rows.now) number) }
{
    match rows.get(number) {
        Some(numbers) => {
            let file = Arc::new(alloc, join(alloc, chunks, numbers)?)?;
            Ok(Some(Entry::at_place(file, 0)))
        }
        None => Ok(None),
    }
}

impl AddedEntries {
    /// Creates an empty list.
    pub(crate) fn new(alloc: Global) -> AddedEntries
        ensures { result ≡ [] }
    {
        AddedEntries {
            chunks: Chunks::new(alloc),
            numbers: RowList::new(alloc),
        }
    }

    /// Returns the number of entries.
    pub(crate) fn len(&self) -> usize
        ensures { result ≡ length self.now }
    {
        self.numbers.len()
    }

    /// Appends an entry. An error changes nothing.
    pub(crate) fn push(&mut self, alloc: Global, entry: &Entry) -> Result<(), AllocError>
        ensures added { OnOk result (self.new ≡ self.old ++ entry.now ∷ []) }
        ensures unchanged { OnErr result (self.new ≡ self.old) }
    {
        push_spelling(alloc, &mut self.chunks, &mut self.numbers, entry.spelling())
    }

    /// Keeps the first `count` entries and drops the others.
    pub(crate) fn truncate(&mut self, count: usize)
        ensures { self.new ≡ take count self.old }
    {
        self.numbers.truncate(count);
    }

    /// Returns entry `number`, with bytes of its own. Returns None if there is no such entry.
    pub(crate) fn get(&self, alloc: Global, number: usize) -> Result<Option<Entry>, Memory>
        ensures { IfOk result (λ entry. entry ≡ slice_get self.now number) }
    {
        entry_at_row(alloc, &self.chunks, &self.numbers, number)
    }
}
