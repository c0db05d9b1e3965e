//! Ranges of paths.

ghost use Rattle.std.specs.Prelude.{◌≡◌, ◌≤◌, [], get_or, length};
ghost use Rattle.plan_parse.specs.PathLists.{between};

use plan_text::RowList;
use std::marker::Model;

/// Consecutive paths in the rows of all edges. Contracts see their list.
#[derive(Drop)]
pub struct PathRange<'a> {
    rows: &'a RowList<u8>,
    start: usize,
    end: usize,
}

impl<'a> Model for PathRange<'a> {
    ghost use Rattle.std.specs.Prelude.{◌≤◌, length, List};
    ghost use Rattle.plan_parse.specs.PathLists.{between};
    ghost use Rattle.plan_scope.specs.Scopes.{Text};

    ghost Value = { List Text };

    ghost view = { λ r. between r.start r.end r.rows.now };

    ghost invariant = { λ r. (r.start ≤ r.end) × (r.end ≤ length r.rows.now) };
}

impl<'a> PathRange<'a> {
    /// Creates the range of the paths with the numbers from `start` up to, but not including, `end`.
    pub(crate) fn new(rows: &'a RowList<u8>, start: usize, end: usize) -> PathRange<'a>
        requires ascend { start ≤ end }
        requires within { end ≤ length rows.now }
        ensures { result ≡ between start end rows.now }
    {
        PathRange { rows, start, end }
    }

    /// Returns the number of paths.
    pub fn len(&self) -> usize
        ensures { result ≡ length self.now }
    {
        self.end - self.start
    }

    /// Returns the path with this number, counted from 0, or an empty slice if there is no such path.
    pub fn path(&self, number: usize) -> &'a [u8]
        ensures { result.now ≡ get_or self.now number [] }
    {
        if number >= self.end - self.start {
            return &[];
        }
        self.rows.row(self.start + number)
    }
}
