//! The paths of a depfile.

ghost use Rattle.std.specs.Prelude.{◌≡◌, [], IfOk, get_or, length};

use plan_text::{Memory, RowList};
use std::alloc::Global;
use std::marker::Model;

/// The canonical paths of a depfile in order of first appearance, without repetitions. A contract sees a list
/// of texts. Their bytes are stored consecutively.
#[derive(Drop)]
pub struct Paths {
    rows: RowList<u8>,
}

impl Model for Paths {
    ghost use Rattle.std.specs.Prelude.{List, ℕ};

    ghost Value = { List (List ℕ) };

    ghost view = { λ p. p.rows };
}

impl Paths {
    /// Wraps rows as paths.
    pub(crate) fn of(rows: RowList<u8>) -> Self
        ensures { result ≡ rows }
    {
        Paths { rows }
    }

    /// Returns the number of paths.
    pub fn len(&self) -> usize
        ensures { result ≡ length self.now }
    {
        self.rows.len()
    }

    /// Returns path `number`, counted from 0. If there is no such path, returns an empty one.
    pub fn path(&self, number: usize) -> &[u8]
        ensures { result.now ≡ get_or self.now number [] }
    {
        self.rows.row(number)
    }

    /// Returns the paths as rows.
    pub fn into_rows(self) -> RowList<u8>
        ensures { result ≡ self }
    {
        let Paths { rows } = self;
        rows
    }

    /// Returns a copy.
    pub fn copy(&self, alloc: Global) -> Result<Self, Memory>
        ensures { IfOk result (λ paths. paths ≡ self.now) }
    {
        let rows = self.rows.copy(alloc)?;
        Ok(Paths { rows })
    }
}
