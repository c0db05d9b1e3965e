//! Placing paths in slots.

ghost use Rattle.std.specs.Prelude.{◌≡◌, ◌≤◌, ◌<◌, ◌+◌, ◌++◌, ◌∷◌, [], length, OnOk, OnErr};
ghost use Rattle.plan_depfile.specs.PathSets.{hash_of, most_paths, ArePlaced, IsFilled, IsVacant, start_of};

use crate::hash::{code_of, hash_of, start_of};
use crate::lookup::vacant;
use crate::slot_table::SlotTable;
use plan_text::RowList;
use std::alloc::AllocError;

/// The number of paths whose slots are read at once.
pub const AHEAD: usize = 32;

/// The number of slots from which on slots are read ahead. Fewer slots take less than 128 KiB.
pub const FEW_SLOTS: usize = 32_768;

/// Fills an empty slot, or appends one.
fn fill(slots: &mut Vec<u32>, at: usize, code: u32) -> Result<(), AllocError>
    requires { at ≤ length slots.old.items }
    ensures filled { OnOk result (IsFilled slots.old.items at code slots.new.items) }
    ensures same { OnErr result (slots.new.items ≡ slots.old.items) }
{
    if at < slots.len() {
        slots[at] = code;
        return Ok(());
    }
    slots.push(code)?;
    Ok(())
}

/// Replaces the slots by `size` empty ones. An error changes nothing.
fn empty_slots(slots: &mut Vec<u32>, size: usize) -> Result<(), AllocError>
    ensures len { OnOk result (length slots.new.items ≡ size) }
    ensures same { OnErr result (slots.new.items ≡ slots.old.items) }
{
    slots.reserve_exact(size.saturating_sub(slots.len()))?;
    slots.clear();
    slots.resize(size, 0)?;
    Ok(())
}

/// Returns the slots at which the searches for the next paths begin.
fn next_starts(paths: &RowList<u8>, from: usize, size: usize) -> [usize; AHEAD] {
    let mut starts = [0; AHEAD];
    let mut number = from;
    for start in starts.iter_mut() {
        *start = start_of(size, hash_of(paths.row(number)));
        number = number.saturating_add(1);
    }
    starts
}

/// Reads the slots at which the searches for the next paths begin. The result has no meaning, and only keeps
/// these reads from being optimized away.
pub fn read_ahead(paths: &RowList<u8>, from: usize, table: &SlotTable) -> u32 {
    if table.size < FEW_SLOTS {
        return 0;
    }
    let starts = next_starts(paths, from, table.size);
    let mut seen = 0;
    for start in starts.iter() {
        if *start < table.codes.len() {
            seen ^= table.codes[*start];
        }
    }
    seen
}

/// Places the next path in its slot.
fn place_next(paths: &RowList<u8>, table: &mut SlotTable) -> Result<(), AllocError>
    requires next { table.old.placed < length paths.now }
    requires placed { ArePlaced paths.now table.old }
    ensures placed { ArePlaced paths.now table.new }
    ensures one { OnOk result (table.new.placed ≡ table.old.placed + 1) }
{
    let number = table.placed;
    let hash = hash_of(paths.row(number));
    let at = vacant(&table.codes, start_of(table.size, hash));
    fill(&mut table.codes, at, code_of(number, hash))?;
    table.placed = number + 1;
    Ok(())
}

/// Places the paths that have no slot yet.
fn place_rest(paths: &RowList<u8>, table: &mut SlotTable) -> Result<(), AllocError>
    requires placed { ArePlaced paths.now table.old }
    ensures placed { ArePlaced paths.now table.new }
    ensures all { OnOk result (length paths.now ≤ table.new.placed) }
{
    while table.placed < paths.len() {
        if table.placed % AHEAD == 0 {
            table.ahead = read_ahead(paths, table.placed, table);
        }
        place_next(paths, table)?;
    }
    Ok(())
}

/// Creates more slots, in which no path is placed yet. An error keeps the paths that are placed.
fn widen(paths: &RowList<u8>, table: &mut SlotTable) -> Result<(), AllocError>
    requires placed { ArePlaced paths.now table.old }
    ensures placed { ArePlaced paths.now table.new }
{
    let len = paths.len();
    let room = len / 2 + 57;
    let size = (len + room) / 7 * 8;
    empty_slots(&mut table.codes, size)?;
    table.size = size;
    table.placed = 0;
    table.room = room;
    Ok(())
}

/// Ensures that there is room for one more path, and that each path has its slot.
pub fn make_ready(paths: &RowList<u8>, table: &mut SlotTable) -> Result<(), AllocError>
    requires placed { ArePlaced paths.now table.old }
    ensures placed { ArePlaced paths.now table.new }
    ensures all { OnOk result (length paths.now ≤ table.new.placed) }
{
    if table.room == 0 {
        widen(paths, table)?;
    }
    place_rest(paths, table)
}

/// Adds a path that no slot refers to, and places it in this empty slot.
pub fn add(
    paths: &mut RowList<u8>,
    table: &mut SlotTable,
    at: usize,
    hash: u64,
    path: &[u8],
) -> Result<(), AllocError>
    requires hash { hash ≡ hash_of path.now }
    requires vacant { IsVacant table.old.codes.items (start_of table.old.size hash) at }
    requires placed { ArePlaced paths.old table.old }
    requires all { length paths.old ≤ table.old.placed }
    ensures placed { ArePlaced paths.new table.new }
    ensures more { OnOk result (paths.new ≡ paths.old ++ path.now ∷ []) }
    ensures same { OnErr result (paths.new ≡ paths.old) }
{
    let number = paths.len();
    if number >= 16_777_215 {
        return Err(AllocError);
    }
    fill(&mut table.codes, at, code_of(number, hash))?;
    paths.push(path)?;
    table.placed = number + 1;
    table.room = table.room.saturating_sub(1);
    Ok(())
}
