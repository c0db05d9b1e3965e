//! The table of the paths that build lines name. Its keys are texts with their hashes.

ghost use Rattle.std.specs.Prelude.{◌≡◌, ◌<◌, [], IfOk, OnOk, Option, Some, None, if◌then◌else◌, length, option_map, slice_get, bytes_eq};
ghost use Rattle.plan_scope.specs.Edges.{is_among};
ghost use Rattle.plan_graph.specs.Files.{Path, file_at, file_of, producer_at, producer_in, number_of, paths_in, with_file};
ghost use Rattle.std.specs.Cmp.{on_equiv, on_per, partial_equiv_from_equiv};
ghost use Rattle.std.specs.Cmp.Lexicographic.{nat_list_eq_equiv};
ghost use Rattle.plan_text.specs.HashWords.{words};
ghost use Rattle.plan_graph.specs.Keys.{same_fed};

use indexmap::IndexSet;
use plan_text::feed_words;
use std::alloc::{AllocError, Global};
use std::hash::{Hash, Hasher};
use std::marker::Model;

/// The facts about a path.
#[derive(Clone, Copy)]
pub struct File {
    /// The edge that produces it.
    pub producer: Option<u32>,
    /// Whether it is an input of an edge.
    pub is_used: bool,
}

/// The facts about a path that no build line names.
const UNKNOWN: File = File {
    producer: None,
    is_used: false,
};

/// Converts a number to 32 bits. Fails as if memory had run out if it doesn't fit.
pub(crate) fn narrow(number: usize) -> Result<u32, AllocError>
    ensures { IfOk result (λ n. n ≡ number) }
{
    match u32::try_from(number) {
        Ok(number) => Ok(number),
        Err(_) => Err(AllocError),
    }
}

/// Paths, without repetitions, in the order in which they were first named. Their numbers count from 0.
#[derive(Drop)]
pub struct Files<'a> {
    paths: IndexSet<Key<'a>>,
    /// The facts about each path, by its number.
    known: Vec<File>,
}

impl<'a> Model for Files<'a> {
    ghost use Rattle.std.specs.Prelude.{◌≡◌, length, map};
    ghost use Rattle.std.specs.List.{zip};
    ghost use Rattle.plan_graph.specs.Files.{Table};

    ghost Value = { Table };

    ghost view = { λ f. zip (map (λ k. k.bytes.now) f.paths.keys) f.known.items };

    ghost invariant = { λ f. length f.known.items ≡ length f.paths.keys };
}

impl<'a> Files<'a> {
    /// Creates an empty table.
    pub(crate) fn new(alloc: Global) -> Self
        ensures { result ≡ [] }
    {
        Files {
            paths: IndexSet::new(alloc),
            known: Vec::new(alloc),
        }
    }

    /// Reserves room for `paths` further paths.
    pub(crate) fn reserve(&mut self, paths: usize) -> Result<(), AllocError>
        ensures { self.new ≡ self.old }
    {
        self.known.reserve(paths)?;
        self.paths.reserve(paths)
    }

    /// Returns the number of a path, which is added unless it is in the table.
    pub(crate) fn intern(&mut self, path: &'a [u8]) -> Result<usize, AllocError>
        ensures table { OnOk result (self.new ≡ with_file self.old path.now (file_of path.now self.old)) }
        ensures number { IfOk result (λ n. n ≡ number_of (paths_in self.old) path.now) }
        ensures within { IfOk result (λ n. n < length self.new) }
    {
        self.known.reserve(1)?;
        let (number, is_new) = self.paths.insert_full(Key { bytes: path })?;
        if is_new {
            self.known.push(UNKNOWN)?;
        }
        Ok(number)
    }

    /// Returns the facts about path `number`.
    pub(crate) fn at(&self, number: usize) -> File
        ensures { result ≡ file_at number self.now }
    {
        match self.known.get(number) {
            Some(file) => *file,
            None => UNKNOWN,
        }
    }

    /// Stores the facts about path `number`.
    pub(crate) fn set(&mut self, number: usize, file: File)
        requires { number < length self.old }
        ensures { (path : Path) → number ≡ number_of (paths_in self.old) path → self.new ≡ with_file self.old path file }
    {
        self.known[number] = file;
    }

    /// Returns the facts about a path.
    pub(crate) fn get(&self, path: &[u8]) -> File
        ensures { result ≡ file_of path.now self.now }
    {
        match self.number(path) {
            Some(number) => self.at(number),
            None => UNKNOWN,
        }
    }

    /// Returns the number of paths.
    pub fn len(&self) -> usize
        ensures { result ≡ length self.now }
    {
        self.paths.len()
    }

    /// Returns the number of a path. Returns None if it isn't in the table.
    pub fn number(&self, path: &[u8]) -> Option<usize>
        ensures { result ≡ (if is_among (paths_in self.now) path.now then Some (number_of (paths_in self.now) path.now) else None) }
    {
        self.paths.get_index_of(&Key { bytes: path })
    }

    /// Returns path `number`. Returns None if there is no such path.
    pub fn path(&self, number: usize) -> Option<&'a [u8]>
        ensures { option_map (λ p. p.now) result ≡ slice_get (paths_in self.now) number }
    {
        match self.paths.get_index(number) {
            Some(key) => Some(key.bytes),
            None => None,
        }
    }

    /// Returns the edge that produces a path. Returns None if there is none.
    pub fn producer(&self, path: &[u8]) -> Option<u32>
        ensures { result ≡ producer_in self.now path.now }
    {
        self.get(path).producer
    }

    /// Returns the edge that produces path `number`. Returns None if there is none.
    pub fn producer_at(&self, number: usize) -> Option<u32>
        ensures { result ≡ producer_at self.now number }
    {
        self.at(number).producer
    }
}

/// A text, such as a path, that is hashed eight bytes at a time. A slice would be hashed byte by byte.
#[derive(Clone, Copy)]
pub struct Key<'a> {
    /// The text.
    pub bytes: &'a [u8],
}

impl<'a> PartialEq for Key<'a> {
    ghost eq = { λ x y. bytes_eq x.bytes.now y.bytes.now };

    ghost laws = { on_per (λ x. x.bytes.now) (partial_equiv_from_equiv nat_list_eq_equiv) };

    fn eq(&self, other: &Key<'a>) -> bool {
        self.bytes == other.bytes
    }
}

impl<'a> Eq for Key<'a> {
    ghost laws = { on_equiv (λ x. x.bytes.now) nat_list_eq_equiv };
}

impl<'a> Hash for Key<'a> {
    ghost hash_input = { λ x. words x.bytes.now };

    ghost respects_eq = { λ x y. same_fed x.bytes.now y.bytes.now };

    fn hash<H: Hasher>(&self, state: &mut H) {
        feed_words(self.bytes, state);
    }
}
