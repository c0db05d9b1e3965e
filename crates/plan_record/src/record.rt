//! The entries of a record file.

ghost use Rattle.std.specs.Prelude.{◌≡◌, ◌≤◌, ◌<◌, ◌+◌, ◌++◌, ◌∷◌, [], ℕ, IfOk, None, OnOk, OnErr, Some, List, length, drop, not, option_map, option_to_list, slice_get, if◌then◌else◌};
ghost use Rattle.std.specs.Arc.{arc_value};
ghost use Rattle.std.specs.List.{flat_map};
ghost use Rattle.plan_record.specs.Compaction.{has_entry, last_entries};
ghost use Rattle.plan_record.specs.Entries.{EntryData, IsGoodFront, last_of, spelling};
ghost use Rattle.plan_record.specs.Outputs.{HasOneEach, IsIndexOf};

use crate::added::AddedEntries;
use crate::entry::{Entry, bytes_from};
use crate::reading::skip_entry;
use indexmap::IndexMap;
use plan_text::Memory;
use std::alloc::{AllocError, Global};
use std::marker::Model;
use std::sync::Arc;

/// The entries of a record file, in the file's order. A contract sees the list. The entries that were read share the
/// bytes of the file. Equal paths of the others are held once.
#[derive(Drop)]
pub struct Record {
    /// The entries that were read.
    loaded: Vec<Entry>,
    /// The entries that were added after them.
    added: AddedEntries,
    /// The index of the last entry of each output.
    numbers: IndexMap<Vec<u8>, usize>,
}

impl Model for Record {
    ghost use Rattle.std.specs.Prelude.{◌++◌, List};
    ghost use Rattle.plan_record.specs.Entries.{EntryData};
    ghost use Rattle.plan_record.specs.Outputs.{IsIndexed};

    ghost Value = { List EntryData };

    ghost view = { λ r. r.loaded.items ++ r.added };

    ghost invariant = { λ r. IsIndexed r.numbers.entries (r.loaded.items ++ r.added) };
}

/// Returns the entries of the good front of a record file, which is its longest prefix of whole entries, and the
/// length of that front in bytes. The bytes after it are ignored. The entries share the bytes. The only error is
/// running out of memory.
pub fn read_entries(alloc: Global, bytes: Vec<u8>) -> Result<(Vec<Entry>, u64), Memory>
    ensures { IfOk result (λ r. IsGoodFront bytes.items r.0.items r.1) }
{
    let file = Arc::new(alloc, bytes)?;
    let mut entries = Vec::new(alloc);
    let mut start = 0usize;
    while let Some(rest) = skip_entry(bytes_from(&file, start)) {
        let entry = Entry::at_place(Arc::try_clone(&file)?, start);
        let end = file.len() - rest.len();
        entries.push(entry)?;
        start = end;
    }
    Ok((entries, start as u64))
}

/// Returns, by output, the index of its last entry.
fn numbers_of(alloc: Global, entries: &[Entry]) -> Result<IndexMap<Vec<u8>, usize>, Memory>
    ensures { IfOk result (λ numbers. IsIndexOf numbers.entries entries.now × HasOneEach numbers.entries entries.now) }
{
    let mut numbers = IndexMap::new(alloc);
    for number in 0..entries.len() {
        let mut output = Vec::new(alloc);
        output.extend_from_slice(entries[number].output())?;
        numbers.insert(output, number)?;
    }
    Ok(numbers)
}

/// Returns what `read_entries` returns, as a record.
pub fn load(alloc: Global, bytes: Vec<u8>) -> Result<(Record, u64), Memory>
    ensures { IfOk result (λ r. IsGoodFront bytes.items r.0 r.1) }
{
    let (loaded, len) = read_entries(alloc, bytes)?;
    let numbers = numbers_of(alloc, &loaded)?;
    let record = Record {
        loaded,
        added: AddedEntries::new(alloc),
        numbers,
    };
    Ok((record, len))
}

/// Returns entry `number` of those that were read, followed by those that were added. Returns None if there is no such
/// entry.
fn nth_entry(
    alloc: Global,
    loaded: &[Entry],
    added: &AddedEntries,
    number: usize,
) -> Result<Option<Entry>, Memory>
    ensures { IfOk result (λ entry. entry ≡ slice_get (loaded.now ++ added.now) number) }
{
    if number < loaded.len() {
        return Ok(Some(loaded[number].copy()?));
    }
    added.get(alloc, number - loaded.len())
}

/// Checks whether this is the number of the output's last entry.
fn is_last(numbers: &IndexMap<Vec<u8>, usize>, output: &[u8], number: usize) -> bool
    ensures { (entries : List EntryData) (x : EntryData) → IsIndexOf numbers.now.entries entries → output.now ≡ x.output → slice_get entries number ≡ Some x → result ≡ not (has_entry x.output (drop (number + 1) entries)) }
{
    match numbers.get(output) {
        Some(last) => *last == number,
        None => false,
    }
}

/// Returns entry `number` if it is the last one of its output.
fn last_at(
    alloc: Global,
    numbers: &IndexMap<Vec<u8>, usize>,
    loaded: &[Entry],
    added: &AddedEntries,
    number: usize,
) -> Result<Option<Entry>, Memory>
    requires { IsIndexOf numbers.now.entries (loaded.now ++ added.now) }
    ensures { IfOk result (λ last. (x : EntryData) → slice_get (loaded.now ++ added.now) number ≡ Some x → last ≡ (if has_entry x.output (drop (number + 1) (loaded.now ++ added.now)) then None else Some x)) }
{
    match nth_entry(alloc, loaded, added, number)? {
        Some(entry) => {
            if is_last(numbers, entry.output(), number) {
                Ok(Some(entry))
            } else {
                Ok(None)
            }
        }
        None => Ok(None),
    }
}

/// Appends an entry if there is one.
fn push_some(entries: &mut Vec<Entry>, entry: Option<Entry>) -> Result<(), AllocError>
    ensures { OnOk result (entries.new.items ≡ entries.old.items ++ option_to_list entry) }
{
    match entry {
        Some(entry) => Ok(entries.push(entry)?),
        None => Ok(()),
    }
}

/// Copies those of the first `count` entries that are the last ones of their outputs, if there are so many entries.
fn copy_last(
    alloc: Global,
    numbers: &IndexMap<Vec<u8>, usize>,
    loaded: &[Entry],
    added: &AddedEntries,
    count: usize,
) -> Result<Vec<Entry>, Memory>
    requires index { IsIndexOf numbers.now.entries (loaded.now ++ added.now) }
    requires all { count ≡ length (loaded.now ++ added.now) }
    ensures { IfOk result (λ last. last.items ≡ last_entries (loaded.now ++ added.now)) }
{
    let mut last = Vec::new(alloc);
    for number in 0..count {
        push_some(&mut last, last_at(alloc, numbers, loaded, added, number)?)?;
    }
    Ok(last)
}

/// Returns the spellings of entries, one after the other: the bytes of a record file.
pub fn spellings(alloc: Global, entries: &[Entry]) -> Result<Vec<u8>, Memory>
    ensures { IfOk result (λ bytes. bytes.items ≡ flat_map spelling entries.now) }
{
    let mut bytes = Vec::new(alloc);
    for entry in entries {
        bytes.extend_from_slice(entry.spelling())?;
    }
    Ok(bytes)
}

impl Record {
    /// Returns the number of entries.
    pub fn count(&self) -> usize
        ensures { result ≡ length self.now }
    {
        self.loaded.len() + self.added.len()
    }

    /// Returns entry `number` in the file's order, counted from 0. Returns None if there is no such entry.
    pub fn nth(&self, alloc: Global, number: usize) -> Result<Option<Entry>, Memory>
        ensures { IfOk result (λ entry. entry ≡ slice_get self.now number) }
    {
        nth_entry(alloc, &self.loaded, &self.added, number)
    }

    /// Returns the last entry of an output. Returns None if there is none.
    pub fn entry(&self, alloc: Global, output: &[u8]) -> Result<Option<Entry>, Memory>
        ensures { IfOk result (λ entry. entry ≡ last_of output.now self.now) }
    {
        match self.numbers.get(output) {
            Some(number) => nth_entry(alloc, &self.loaded, &self.added, *number),
            None => Ok(None),
        }
    }

    /// Returns the number of outputs that have entries.
    pub fn count_outputs(&self) -> usize
        ensures { result ≡ length (last_entries self.now) }
    {
        self.numbers.len()
    }

    /// Returns the last entry of each output, in the file's order.
    pub fn last_entries(&self, alloc: Global) -> Result<Vec<Entry>, Memory>
        ensures { IfOk result (λ entries. entries.items ≡ last_entries self.now) }
    {
        let count = self.count();
        copy_last(alloc, &self.numbers, &self.loaded, &self.added, count)
    }

    /// Returns the bytes of the record's file after compaction: the last entry of each output, in their order.
    pub fn compacted_bytes(&self, alloc: Global) -> Result<Vec<u8>, Memory>
        ensures { IfOk result (λ bytes. bytes.items ≡ flat_map spelling (last_entries self.now)) }
    {
        let entries = self.last_entries(alloc)?;
        spellings(alloc, &entries)
    }

    /// Appends an entry, as if it had been appended to the file. If memory runs out, nothing changes. It counts as
    /// running out of memory if the different parts of all added entries have more than 4,294,967,295 bytes.
    pub fn add(&mut self, alloc: Global, entry: &Entry) -> Result<(), Memory>
        ensures added { OnOk result (self.new ≡ self.old ++ entry.now ∷ []) }
        ensures unchanged { OnErr result (self.new ≡ self.old) }
    {
        let number = self.count();
        if number == usize::MAX {
            return Err(Memory);
        }
        let output = Vec::from_slice(alloc, entry.output())?;
        let before = self.added.len();
        self.added.push(alloc, entry)?;
        match self.numbers.insert(output, number) {
            Ok(_) => Ok(()),
            Err(_) => {
                self.added.truncate(before);
                Err(Memory)
            }
        }
    }
}
