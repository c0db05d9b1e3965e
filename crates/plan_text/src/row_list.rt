//! Lists of rows that are stored in one vector.

ghost use Rattle.std.specs.Prelude.{◌≡◌, ◌≤◌, ◌+◌, [], ◌∷◌, ◌++◌, OnOk, OnErr, IfOk, get_or, length, option_map, slice_get, slice_range, take};

use std::alloc::{AllocError, Global};
use std::marker::Model;

/// A list of rows. A contract sees it as a list of lists.
///
/// The rows are stored consecutively in one vector, so a row takes its items and four bytes. A push that would
/// bring the number of all items above 4,294,967,295 fails as if memory had run out.
#[derive(Drop)]
pub struct RowList<T> {
    items: Vec<T>,
    /// The end of each row, as an index into `items`.
    ends: Vec<u32>,
}

impl<T> Model for RowList<T> {
    ghost use Rattle.std.specs.Prelude.{List, length};
    ghost use Rattle.plan_text.specs.RowLists.{AreEnds, rows_from};

    ghost Value = { List (List T) };

    ghost view = { λ r. rows_from 0 r.items.items r.ends.items };

    ghost invariant = { λ r. AreEnds 0 r.ends.items (length r.items.items) };
}

/// Returns the index of the first item of row `number`.
fn start_of(ends: &[u32], number: usize) -> usize
    requires { number ≤ length ends.now }
    ensures { result ≡ get_or (0 ∷ ends.now) number 0 }
{
    if number == 0 {
        return 0;
    }
    ends[number - 1] as usize
}

/// Returns `len + more`, or an error if the sum needs more than four bytes.
fn end_behind(len: usize, more: usize) -> Result<u32, AllocError>
    ensures { IfOk result (λ end. end ≡ len + more) }
{
    if len > 4_294_967_295 || more > 4_294_967_295 - len {
        return Err(AllocError);
    }
    Ok((len + more) as u32)
}

/// Returns the items from `start` up to `end`.
fn cut<T>(items: &[T], start: usize, end: usize) -> &[T]
    requires { (start ≤ end) × (end ≤ length items.now) }
    ensures { result.now ≡ slice_range items.now start end }
{
    &items[start..end]
}

impl<T: Copy> RowList<T> {
    /// Creates an empty list of rows.
    pub fn new(alloc: Global) -> Self
        ensures { result ≡ [] }
    {
        RowList {
            items: Vec::new(alloc),
            ends: Vec::new(alloc),
        }
    }

    /// Reserves room for `rows` further rows. An error changes nothing.
    pub fn reserve(&mut self, rows: usize) -> Result<(), AllocError>
        ensures { self.new ≡ self.old }
    {
        self.ends.reserve(rows)
    }

    /// Appends a row. An error changes nothing.
    pub fn push(&mut self, row: &[T]) -> Result<(), AllocError>
        ensures more { OnOk result (self.new ≡ self.old ++ row.now ∷ []) }
        ensures refused { OnErr result (self.new ≡ self.old) }
    {
        let end = end_behind(self.items.len(), row.len())?;
        self.ends.reserve(1)?;
        self.items.extend_from_slice(row)?;
        self.ends.push(end)?;
        Ok(())
    }

    /// Keeps the first `rows` rows and drops the others.
    pub fn truncate(&mut self, rows: usize)
        ensures { self.new ≡ take rows self.old }
    {
        if rows >= self.len() {
            return;
        }
        let end = start_of(&self.ends, rows);
        self.ends.truncate(rows);
        self.items.truncate(end);
    }

    /// Returns the number of rows.
    pub fn len(&self) -> usize
        ensures { result ≡ length self.now }
    {
        self.ends.len()
    }

    /// Returns row `number`, counted from 0. If there is no such row, returns an empty one.
    pub fn row(&self, number: usize) -> &[T]
        ensures { result.now ≡ get_or self.now number [] }
    {
        if number >= self.ends.len() {
            return &[];
        }
        let start = start_of(&self.ends, number);
        cut(&self.items, start, self.ends[number] as usize)
    }

    /// Returns row `number`, counted from 0. Returns None if there is no such row.
    pub fn get(&self, number: usize) -> Option<&[T]>
        ensures { option_map (λ row. row.now) result ≡ slice_get self.now number }
    {
        if number >= self.len() {
            return None;
        }
        Some(self.row(number))
    }

    /// Creates a copy with the same rows.
    pub fn copy(&self, alloc: Global) -> Result<Self, AllocError>
        ensures { IfOk result (λ rows. rows ≡ self.now) }
    {
        let items = Vec::from_slice(alloc, &self.items)?;
        let ends = Vec::from_slice(alloc, &self.ends)?;
        Ok(RowList { items, ends })
    }
}
