//! Reads items of one kind, one after another.

ghost use Rattle.plan_image.specs.Reading.{Gives, items_at, table_at, ascending_at, numbers_at};
ghost use Rattle.std.specs.Prelude.{◌≡◌, ◌+◌, ◌*◌, ◌^◌, ◌<◌, ◌≤◌, length, IfOk, OnOk};

use crate::fault::Cause;
use crate::reading::fields::{read_u32, read_u32_up_to};
use crate::reading::stop::{ReadFault, stop_at};
use plan_text::Items;
use std::alloc::Global;

/// An item that a table can consist of.
pub(crate) trait Spelled: Drop {
    ghost use Rattle.std.specs.Prelude.{List, ℕ};
    ghost use Rattle.plan_image.specs.Reading.{Read, Gives};

    ghost read_at: { List ℕ → Read Self };

    /// Returns the length of the shortest item, in bytes.
    fn shortest() -> usize
        ensures { 0 < result };

    fn read(alloc: Global, bytes: &[u8]) -> Result<(Self, &[u8]), ReadFault>
        ensures { Gives (λ x. (x.0, x.1.now)) result (read_at bytes.now) };
}

/// A reader of the items of a list, one after another. Reading an item may depend on the items before it.
pub(crate) trait InTurn {
    ghost use Rattle.std.specs.Prelude.{List, ℕ, IfOk, ◌≡◌, ◌≤◌};
    ghost use Rattle.plan_image.specs.Reading.{Read, Gives};

    type Item: Drop;

    ghost item_at: { Self → ℕ → List ℕ → Read Self.Item };

    ghost next: { Self → ℕ → Self.Item → ℕ };
    /// The upper limit of each state.
    ghost most: { Self → ℕ };

    /// Returns the length of the shortest item, in bytes.
    fn shortest(&self) -> usize
        ensures { 0 < result };

    fn read<'a>(
        &self,
        alloc: Global,
        before: u64,
        bytes: &'a [u8],
    ) -> Result<(Self::Item, u64, &'a [u8]), ReadFault>
        requires { before ≤ most self.now }
        ensures item { Gives (λ x. (x.0, x.2.now)) result (item_at self.now before bytes.now) }
        ensures next { IfOk result (λ x. x.1 ≡ next self.now before x.0) }
        ensures most { IfOk result (λ x. x.1 ≤ most self.now) };
}

/// A reader of numbers in ascending order.
pub(crate) struct Ascending;

impl InTurn for Ascending {
    ghost use Rattle.std.specs.Prelude.{◌+◌, ◌^◌};
    ghost use Rattle.plan_image.specs.Reading.{next_at};

    type Item = u32;

    ghost item_at = { λ _. next_at };

    ghost next = { λ _ least n. n + 1 };

    ghost most = { λ _. 2 ^ 32 };

    fn shortest(&self) -> usize {
        4
    }

    #[tactic(auto, unfolding(crate::specs::Reading::next_at))]
    fn read<'a>(
        &self,
        _alloc: Global,
        before: u64,
        bytes: &'a [u8],
    ) -> Result<(u32, u64, &'a [u8]), ReadFault> {
        let (number, rest) = read_u32(bytes)?;
        if u64::from(number) < before {
            return Err(stop_at(Cause::BadOrder, bytes));
        }
        Ok((number, u64::from(number) + 1, rest))
    }
}

/// Returns the number of items to reserve room for: at most `count`, and at most as many as the bytes can hold.
pub(crate) fn room(count: usize, rest: &[u8], shortest: usize) -> usize
    requires { 0 < shortest }
    ensures fits { result * shortest ≤ length rest.now }
{
    count.min(rest.len() / shortest)
}

/// Reads `count` items and overwrites the former ones.
pub(crate) fn fill_items<'a, T: Spelled>(
    alloc: Global,
    count: usize,
    items: &mut Vec<T>,
    bytes: &'a [u8],
) -> Result<&'a [u8], ReadFault>
    ensures items { Gives (λ rest. (items.new.items, rest.now)) result (items_at (λ (s : Unit {0}). T.read_at) (λ s x. s) tt count bytes.now) }
    ensures len { OnOk result (length items.new.items ≡ count) }
{
    items.clear();
    items.reserve(room(count, bytes, T::shortest()))?;
    let mut rest = bytes;
    for _ in 0..count {
        let (item, after) = T::read(alloc, rest)?;
        items.push(item)?;
        rest = after;
    }
    Ok(rest)
}

pub(crate) fn read_items<T: Spelled>(
    alloc: Global,
    count: usize,
    bytes: &[u8],
) -> Result<(Items<T>, &[u8]), ReadFault>
    ensures items { Gives (λ x. (x.0, x.1.now)) result (items_at (λ (s : Unit {0}). T.read_at) (λ s x. s) tt count bytes.now) }
    ensures len { IfOk result (λ x. length x.0 ≡ count) }
{
    let mut items = Vec::new(alloc);
    let rest = fill_items(alloc, count, &mut items, bytes)?;
    Ok((Items::new(items), rest))
}

/// Reads `count` items in turn and overwrites the former ones.
pub(crate) fn fill_in_turn<'a, R: InTurn>(
    alloc: Global,
    reader: &R,
    start: u64,
    count: u32,
    items: &mut Vec<R::Item>,
    bytes: &'a [u8],
) -> Result<&'a [u8], ReadFault>
    requires { start ≤ R.most reader.now }
    ensures { Gives (λ rest. (items.new.items, rest.now)) result (items_at (R.item_at reader.now) (R.next reader.now) start count bytes.now) }
{
    items.clear();
    items.reserve(room(count as usize, bytes, reader.shortest()))?;
    let mut rest = bytes;
    let mut before = start;
    for _ in 0..count {
        let (item, next, after) = reader.read(alloc, before, rest)?;
        items.push(item)?;
        rest = after;
        before = next;
    }
    Ok(rest)
}

pub(crate) fn read_in_turn<'a, R: InTurn>(
    alloc: Global,
    reader: &R,
    start: u64,
    count: u32,
    bytes: &'a [u8],
) -> Result<(Items<R::Item>, &'a [u8]), ReadFault>
    requires { start ≤ R.most reader.now }
    ensures { Gives (λ x. (x.0, x.1.now)) result (items_at (R.item_at reader.now) (R.next reader.now) start count bytes.now) }
{
    let mut items = Vec::new(alloc);
    let rest = fill_in_turn(alloc, reader, start, count, &mut items, bytes)?;
    Ok((Items::new(items), rest))
}

#[tactic(auto, unfolding(crate::specs::Reading::table_at))]
pub(crate) fn read_table<T: Spelled>(
    alloc: Global,
    most: u32,
    bytes: &[u8],
) -> Result<(Items<T>, &[u8]), ReadFault>
    ensures { Gives (λ x. (x.0, x.1.now)) result (table_at T.read_at most bytes.now) }
{
    let (count, rest) = read_u32_up_to(most, bytes)?;
    read_items(alloc, count as usize, rest)
}

impl Spelled for u32 {
    ghost use Rattle.std.specs.Int.{w32};
    ghost use Rattle.plan_image.specs.Reading.{number_at};

    ghost read_at = { number_at w32 };

    fn shortest() -> usize {
        4
    }

    fn read(_alloc: Global, bytes: &[u8]) -> Result<(u32, &[u8]), ReadFault> {
        read_u32(bytes)
    }
}

/// Reads a count and that many numbers, in any order, and overwrites the former ones.
#[tactic(auto, unfolding(crate::specs::Reading::numbers_at))]
pub(crate) fn fill_numbers<'a>(
    alloc: Global,
    numbers: &mut Vec<u32>,
    bytes: &'a [u8],
) -> Result<&'a [u8], ReadFault>
    ensures { Gives (λ rest. (numbers.new.items, rest.now)) result (numbers_at bytes.now) }
{
    let (count, rest) = read_u32(bytes)?;
    fill_items(alloc, count as usize, numbers, rest)
}

/// Reads a count and that many numbers, in ascending order, and overwrites the former ones.
#[tactic(auto, unfolding(crate::specs::Reading::ascending_at))]
pub(crate) fn fill_ascending<'a>(
    alloc: Global,
    numbers: &mut Vec<u32>,
    bytes: &'a [u8],
) -> Result<&'a [u8], ReadFault>
    ensures { Gives (λ rest. (numbers.new.items, rest.now)) result (ascending_at bytes.now) }
{
    let (count, rest) = read_u32(bytes)?;
    fill_in_turn(alloc, &Ascending, 0, count, numbers, rest)
}

pub(crate) fn read_ascending(alloc: Global, bytes: &[u8]) -> Result<(Items<u32>, &[u8]), ReadFault>
    ensures { Gives (λ x. (x.0, x.1.now)) result (ascending_at bytes.now) }
{
    let mut numbers = Vec::new(alloc);
    let rest = fill_ascending(alloc, &mut numbers, bytes)?;
    Ok((Items::new(numbers), rest))
}
