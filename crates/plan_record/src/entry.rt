//! Entries of a record.

ghost use Rattle.std.specs.Prelude.{◌≡◌, ◌≤◌, ◌-◌, [], Some, length, take, drop};
ghost use Rattle.plan_record.specs.Entries.{spelling};
ghost use Rattle.plan_record.specs.Entry.{data_of, IsPlaced};
ghost use Rattle.plan_record.specs.Heads.{head_data};
ghost use Rattle.plan_record.specs.Paths.{paths_in, ArePaths};
ghost use Rattle.plan_record.specs.Reading.{entry_at, head_of, some_paths_at};

use crate::fault::EntryFault;
use crate::paths::Paths;
use crate::reading::{Head, entry_head, skip_entry};
use crate::spelling::spell;
use plan_text::{Items, Memory};
use std::alloc::Global;
use std::marker::Model;
use std::sync::Arc;

/// The entry of an edge that ran: its first output, its command, the greatest stamp that it read, and the paths
/// that its depfile named. A contract sees these. The entry stores where its spelling begins in the bytes of a
/// file, which all entries of a record share.
#[derive(Drop)]
pub struct Entry {
    file: Arc<Vec<u8>, Global>,
    start: usize,
}

impl Model for Entry {
    ghost use Rattle.std.specs.Prelude.{drop};
    ghost use Rattle.std.specs.Arc.{arc_value};
    ghost use Rattle.plan_record.specs.Entries.{EntryData};
    ghost use Rattle.plan_record.specs.Reading.{entry_at};
    ghost use Rattle.plan_record.specs.Entry.{data_of, IsPlaced};

    ghost Value = { EntryData };

    ghost view = { λ e. data_of (entry_at (drop e.start (arc_value e.file).items)) };

    ghost invariant = { λ e. IsPlaced (arc_value e.file).items e.start };
}

/// Returns the bytes from a place on. Returns none if there are fewer bytes.
pub(crate) fn bytes_from(bytes: &[u8], start: usize) -> &[u8]
    ensures { result.now ≡ drop start bytes.now }
{
    match bytes.get(start..) {
        Some(rest) => rest,
        None => &[],
    }
}

/// Returns the head of the entry at a place, which must have one.
fn placed_head(bytes: &[u8], start: usize) -> Head<'_>
    requires { IsPlaced bytes.now start }
    ensures { head_data result ≡ head_of (data_of (entry_at (drop start bytes.now))) }
{
    match entry_head(bytes_from(bytes, start)) {
        Some((head, _)) => head,
        None => Head {
            output: &[],
            command: &[],
            basis: 0,
            count: 0,
        },
    }
}

/// The number of bytes of an entry before its paths, without its output and its command: the lengths of its
/// body (4), its output (2) and its command (4), its basis (8) and the number of its paths (4).
const FIXED_LEN: usize = 22;

/// Returns the place at which the paths of the entry at `start` begin, and their number. There must be an
/// entry.
fn placed_paths(bytes: &[u8], start: usize) -> (usize, u32)
    requires { IsPlaced bytes.now start }
    ensures there { ArePaths result.1 (drop result.0 bytes.now) }
    ensures paths { paths_in (some_paths_at result.1 (drop result.0 bytes.now)) ≡ (data_of (entry_at (drop start bytes.now))).paths }
{
    let head = placed_head(bytes, start);
    let front = FIXED_LEN + head.output.len() + head.command.len();
    let paths = bytes_from(bytes_from(bytes, start), front);
    (bytes.len() - paths.len(), head.count)
}

/// Returns the bytes except the last `last` ones.
fn front_before(bytes: &[u8], last: usize) -> &[u8]
    requires { last ≤ length bytes.now }
    ensures { result.now ≡ take (length bytes.now - last) bytes.now }
{
    &bytes[..bytes.len() - last]
}

/// Returns the spelling of the entry at a place, which must have one.
fn placed_spelling(bytes: &[u8], start: usize) -> &[u8]
    requires { IsPlaced bytes.now start }
    ensures spelled { result.now ≡ spelling (data_of (entry_at (drop start bytes.now))) }
    ensures read { entry_at result.now ≡ Some (data_of (entry_at (drop start bytes.now)), []) }
{
    let placed = bytes_from(bytes, start);
    match skip_entry(placed) {
        Some(rest) => front_before(placed, rest.len()),
        None => &[],
    }
}

impl Entry {
    ghost use Rattle.std.specs.Prelude.{◌≡◌, ◌≢◌, [], drop, IfOk, IfErr, OnOk, Some};
    ghost use Rattle.std.specs.Arc.{arc_value};
    ghost use Rattle.plan_record.specs.Entries.{spelling, HasSpelling};
    ghost use Rattle.plan_record.specs.Entry.{data_of, IsPlaced};
    ghost use Rattle.plan_record.specs.Reading.{entry_at};

    /// Creates an entry from its parts. It has bytes of its own.
    ///
    /// # Errors
    ///
    /// - `OutsideLimits` if and only if the parts have no spelling, unless memory runs out first.
    /// - `Memory` if memory runs out.
    pub fn new(
        alloc: Global,
        output: &[u8],
        command: &[u8],
        basis: u64,
        paths: &[Items<u8>],
    ) -> Result<Entry, EntryFault>
        ensures made { IfOk result (λ entry. entry ≡ record { output = output.now; command = command.now; basis = basis; paths = paths.now }) }
        ensures within { OnOk result (HasSpelling (record { output = output.now; command = command.now; basis = basis; paths = paths.now })) }
        ensures outside { IfErr result (λ f. f ≢ EntryFault.Memory → HasSpelling (record { output = output.now; command = command.now; basis = basis; paths = paths.now }) → ⊥) }
    {
        let bytes = spell(alloc, output, command, basis, paths)?;
        let file = Arc::new(alloc, bytes)?;
        Ok(Entry { file, start: 0 })
    }

    /// Creates the entry at a place of a file, which must have one.
    pub(crate) fn at_place(file: Arc<Vec<u8>, Global>, start: usize) -> Entry
        requires { IsPlaced (arc_value file).items start }
        ensures { result ≡ data_of (entry_at (drop start (arc_value file).items)) }
    {
        Entry { file, start }
    }

    /// Returns the path of its first output, which is canonical and has 1 to 4,096 bytes.
    pub fn output(&self) -> &[u8]
        ensures { result.now ≡ self.now.output }
    {
        placed_head(&self.file, self.start).output
    }

    /// Returns the command that it ran, of at most 1,048,576 bytes.
    pub fn command(&self) -> &[u8]
        ensures { result.now ≡ self.now.command }
    {
        placed_head(&self.file, self.start).command
    }

    /// Returns the greatest stamp that it read, or 0 if it read none.
    pub fn basis(&self) -> u64
        ensures { result ≡ self.now.basis }
    {
        placed_head(&self.file, self.start).basis
    }

    /// Returns the paths that its depfile named, in their order. They share the bytes.
    pub fn paths(&self) -> Result<Paths, Memory>
        ensures { IfOk result (λ paths. paths ≡ self.now.paths) }
    {
        let (first, count) = placed_paths(&self.file, self.start);
        Ok(Paths::at_place(Arc::try_clone(&self.file)?, first, count))
    }

    /// Returns a copy, which shares the bytes.
    pub fn copy(&self) -> Result<Entry, Memory>
        ensures { IfOk result (λ entry. entry ≡ self.now) }
    {
        Ok(Entry {
            file: Arc::try_clone(&self.file)?,
            start: self.start,
        })
    }

    /// Returns the bytes of its spelling.
    pub(crate) fn spelling(&self) -> &[u8]
        ensures spelled { result.now ≡ spelling self.now }
        ensures read { entry_at result.now ≡ Some (self.now, []) }
    {
        placed_spelling(&self.file, self.start)
    }
}
