//! Files that tools remove.

ghost use Rattle.std.specs.Prelude.{◌≡◌, ◌++◌, ◌∷◌, [], OnOk, length, option_map, slice_get};

use plan_text::{Memory, RowList};
use std::alloc::Global;
use std::marker::Model;

/// The path of a file that a tool may remove. Only `RemovableFiles` has such paths. A contract sees its bytes.
#[derive(Drop)]
pub struct Removable<'a> {
    path: &'a [u8],
}

impl<'a> Model for Removable<'a> {
    ghost use Rattle.std.specs.Prelude.{List, ℕ};

    ghost Value = { List ℕ };

    ghost view = { λ r. r.path.now };
}

impl Removable<'_> {
    /// Returns the path.
    pub fn path(&self) -> &[u8]
        ensures { result.now ≡ self.now }
    {
        self.path
    }
}

/// Files that a tool may remove, in an order. A contract sees their paths. Other crates can't add a path that isn't
/// removable: only the calls of this crate that choose files do that.
#[derive(Drop)]
pub struct RemovableFiles {
    paths: RowList<u8>,
}

impl Model for RemovableFiles {
    ghost use Rattle.std.specs.Prelude.{List, ℕ};

    ghost Value = { List (List ℕ) };

    ghost view = { λ f. f.paths };
}

impl RemovableFiles {
    /// Creates an empty list.
    pub fn new(alloc: Global) -> RemovableFiles
        ensures { result ≡ [] }
    {
        RemovableFiles {
            paths: RowList::new(alloc),
        }
    }

    /// Creates the list of paths that this crate chose.
    pub(crate) fn of(paths: RowList<u8>) -> RemovableFiles
        ensures { result ≡ paths }
    {
        RemovableFiles { paths }
    }

    /// Appends a file.
    ///
    /// # Errors
    /// If memory runs out.
    pub fn push(&mut self, file: &Removable<'_>) -> Result<(), Memory>
        ensures { OnOk result (self.new ≡ self.old ++ file.now ∷ []) }
    {
        self.paths.push(file.path)?;
        Ok(())
    }

    /// Returns the number of files.
    pub fn len(&self) -> usize
        ensures { result ≡ length self.now }
    {
        self.paths.len()
    }

    /// Returns the file at an index. Returns None if there is none.
    pub fn get(&self, index: usize) -> Option<Removable<'_>>
        ensures { result ≡ slice_get self.now index }
    {
        match self.paths.get(index) {
            Some(path) => Some(Removable { path }),
            None => None,
        }
    }

    /// Returns the paths of the files.
    pub fn paths(&self) -> &RowList<u8>
        ensures { result.now ≡ self.now }
    {
        &self.paths
    }
}
