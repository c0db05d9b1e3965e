//! The set of the paths found so far.

ghost use Rattle.std.specs.Prelude.{◌≡◌, [], OnOk, OnErr, length, take, true};
ghost use Rattle.plan_depfile.specs.Depfile.{with_path, with_paths};
ghost use Rattle.plan_depfile.specs.PathSets.{ArePlaced, IsPlace, all_found};

use crate::hash::{hash_of, start_of};
use crate::lookup::find;
use crate::place::Place;
use crate::placing::{AHEAD, FEW_SLOTS, add, make_ready, read_ahead};
use crate::slot_table::SlotTable;
use plan_text::RowList;
use std::alloc::{AllocError, Global};
use std::marker::Model;

/// A set of paths in the order in which they were added. Their bytes are stored consecutively. Each path takes
/// four bytes more, and about five to seven for the slots by which it is found. Some paths are queued until
/// there are several, so that all their slots are read at once. A contract sees both lists.
#[derive(Drop)]
pub struct PathSet {
    paths: RowList<u8>,
    waiting: RowList<u8>,
    table: SlotTable,
}

impl Model for PathSet {
    ghost use Rattle.plan_depfile.specs.PathSets.{ArePlaced, Found};

    ghost Value = { Found };

    ghost view = { λ s. record { listed = s.paths; waiting = s.waiting } };

    ghost invariant = { λ s. ArePlaced s.paths s.table };
}

/// Adds a path unless it is in the set.
fn insert_into(
    paths: &mut RowList<u8>,
    table: &mut SlotTable,
    path: &[u8],
) -> Result<(), AllocError>
    requires placed { ArePlaced paths.old table.old }
    ensures placed { ArePlaced paths.new table.new }
    ensures added { OnOk result (paths.new ≡ with_path paths.old path.now) }
    ensures same { OnErr result (paths.new ≡ paths.old) }
{
    make_ready(paths, table)?;
    let hash = hash_of(path);
    let start = start_of(table.size, hash);
    match find(paths, &table.codes, start, hash, path) {
        Place::Listed => Ok(()),
        Place::Vacant(at) => {
            add(paths, table, at, hash, path)?;
            Ok(())
        }
    }
}

/// Adds each of these paths unless it is in the set. After an error, some of them may have been added.
fn insert_all(
    paths: &mut RowList<u8>,
    table: &mut SlotTable,
    more: &RowList<u8>,
) -> Result<(), AllocError>
    requires placed { ArePlaced paths.old table.old }
    ensures placed { ArePlaced paths.new table.new }
    ensures added { OnOk result (paths.new ≡ with_paths paths.old more.now) }
    ensures stays { take (length paths.old) paths.new ≡ paths.old }
{
    table.ahead = read_ahead(more, 0, table);
    for number in 0..more.len() {
        insert_into(paths, table, more.row(number))?;
    }
    Ok(())
}

/// Adds the queued paths. An error changes nothing.
fn list_waiting(
    paths: &mut RowList<u8>,
    table: &mut SlotTable,
    waiting: &mut RowList<u8>,
) -> Result<(), AllocError>
    requires placed { ArePlaced paths.old table.old }
    ensures placed { ArePlaced paths.new table.new }
    ensures listed { OnOk result (paths.new ≡ with_paths paths.old waiting.old) }
    ensures none { OnOk result (waiting.new ≡ []) }
    ensures same { OnErr result (paths.new ≡ paths.old) }
    ensures still { OnErr result (waiting.new ≡ waiting.old) }
    ensures stays { take (length paths.old) paths.new ≡ paths.old }
{
    let len = paths.len();
    match insert_all(paths, table, waiting) {
        Ok(()) => {
            waiting.truncate(0);
            Ok(())
        }
        Err(want) => {
            cut(paths, table, len);
            Err(want)
        }
    }
}

/// Returns whether there are so few slots that reading ahead doesn't pay, and no path is queued.
fn are_at_hand(table: &SlotTable, waiting: &RowList<u8>) -> bool
    ensures { result ≡ true → waiting.now ≡ [] }
{
    (table.size < FEW_SLOTS) & (waiting.len() == 0)
}

/// Adds a path unless it is in the set, or queues it. If the queue is full, its paths are added first.
fn put_off(
    paths: &mut RowList<u8>,
    table: &mut SlotTable,
    waiting: &mut RowList<u8>,
    path: &[u8],
) -> Result<(), AllocError>
    requires placed { ArePlaced paths.old table.old }
    ensures placed { ArePlaced paths.new table.new }
    ensures added { OnOk result (with_paths paths.new waiting.new ≡ with_path (with_paths paths.old waiting.old) path.now) }
    ensures same { OnErr result (with_paths paths.new waiting.new ≡ with_paths paths.old waiting.old) }
    ensures stays { take (length paths.old) paths.new ≡ paths.old }
{
    if are_at_hand(table, waiting) {
        insert_into(paths, table, path)?;
        return Ok(());
    }
    if waiting.len() < AHEAD {
        waiting.push(path)?;
        return Ok(());
    }
    list_waiting(paths, table, waiting)?;
    waiting.push(path)?;
    Ok(())
}

/// Keeps the first `len` paths.
fn cut(paths: &mut RowList<u8>, table: &SlotTable, len: usize)
    requires placed { ArePlaced paths.old table.now }
    ensures placed { ArePlaced paths.new table.now }
    ensures cut { paths.new ≡ take len paths.old }
{
    let _ = table;
    paths.truncate(len);
}

impl PathSet {
    /// Creates an empty set. It takes no memory.
    pub fn new(alloc: Global) -> Self
        ensures { result ≡ record { listed = []; waiting = [] } }
    {
        PathSet {
            paths: RowList::new(alloc),
            waiting: RowList::new(alloc),
            table: SlotTable {
                codes: Vec::new(alloc),
                size: 0,
                placed: 0,
                room: 0,
                ahead: 0,
            },
        }
    }

    /// Returns the number of listed paths.
    pub fn len(&self) -> usize
        ensures { result ≡ length self.now.listed }
    {
        self.paths.len()
    }

    /// Adds a path unless it is in the set. An error adds nothing.
    pub fn insert(&mut self, path: &[u8]) -> Result<(), AllocError>
        ensures added { OnOk result (all_found self.new ≡ with_path (all_found self.old) path.now) }
        ensures same { OnErr result (all_found self.new ≡ all_found self.old) }
        ensures stays { take (length self.old.listed) self.new.listed ≡ self.old.listed }
    {
        put_off(&mut self.paths, &mut self.table, &mut self.waiting, path)
    }

    /// Lists the queued paths. An error changes nothing.
    pub fn settle(&mut self) -> Result<(), AllocError>
        ensures settled { OnOk result (self.new ≡ record { listed = all_found self.old; waiting = [] }) }
        ensures same { all_found self.new ≡ all_found self.old }
        ensures stays { take (length self.old.listed) self.new.listed ≡ self.old.listed }
    {
        list_waiting(&mut self.paths, &mut self.table, &mut self.waiting)
    }

    /// Keeps the first `len` listed paths, and drops the others and those that are queued. Their slots stay
    /// occupied until the table grows.
    pub fn truncate(&mut self, len: usize)
        ensures { self.new ≡ record { listed = take len self.old.listed; waiting = [] } }
    {
        cut(&mut self.paths, &self.table, len);
        self.waiting.truncate(0);
    }

    /// Returns the listed paths as rows.
    pub fn into_rows(self) -> RowList<u8>
        ensures { result ≡ self.listed }
    {
        let PathSet {
            paths,
            waiting: _,
            table: _,
        } = self;
        paths
    }
}
