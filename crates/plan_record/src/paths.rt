//! The paths of an entry.

ghost use Rattle.std.specs.Prelude.{◌≡◌, ◌≤◌, ◌<◌, ◌-◌, IfOk, OnOk, Some, length, drop, map, option_map, slice_get, take};
ghost use Rattle.plan_text.specs.SharedRows.{row_in};
ghost use Rattle.plan_record.specs.Among.{AddsWanted, AreAmong};
ghost use Rattle.plan_record.specs.Paths.{paths_in, ArePaths};
ghost use Rattle.plan_record.specs.Reading.{some_paths_at};

use crate::entry::bytes_from;
use crate::reading::read_path;
use plan_text::{PathFilter, Place, RowList, SharedRows};
use std::alloc::{AllocError, Global};
use std::marker::Model;
use std::sync::Arc;

/// The remaining paths of an entry. A contract sees a list. They are read from the bytes of a file, which the
/// entries of a record share.
#[derive(Drop)]
pub struct Paths {
    file: Arc<Vec<u8>, Global>,
    /// The place at which the spelling of the first one begins.
    start: usize,
    /// The number of paths.
    count: u32,
}

impl Model for Paths {
    ghost use Rattle.std.specs.Prelude.{List, ℕ, drop};
    ghost use Rattle.std.specs.Arc.{arc_value};
    ghost use Rattle.plan_record.specs.Paths.{paths_in, ArePaths};
    ghost use Rattle.plan_record.specs.Reading.{some_paths_at};

    ghost Value = { List (List ℕ) };

    ghost view = { λ p. paths_in (some_paths_at p.count (drop p.start (arc_value p.file).items)) };

    ghost invariant = { λ p. ArePaths p.count (drop p.start (arc_value p.file).items) };
}

/// Returns the first of `count` paths, which must be there. Returns None if `count` is 0.
fn first_path(bytes: &[u8], count: u32) -> Option<&[u8]>
    requires { ArePaths count bytes.now }
    ensures { option_map (λ p. p.now) result ≡ slice_get (paths_in (some_paths_at count bytes.now)) 0 }
{
    if count == 0 {
        return None;
    }
    match read_path(bytes) {
        Some((path, _)) => Some(path),
        None => None,
    }
}

/// Returns the number of bytes of the first of `count` paths, which must be there.
fn first_len(bytes: &[u8], count: u32) -> usize
    requires there { ArePaths count bytes.now }
    requires some { 0 < count }
    ensures within { result ≤ length bytes.now }
    ensures there { ArePaths (count - 1) (drop result bytes.now) }
    ensures left { paths_in (some_paths_at (count - 1) (drop result bytes.now)) ≡ drop 1 (paths_in (some_paths_at count bytes.now)) }
    ensures front { 2 ≤ result }
    ensures first { slice_get (paths_in (some_paths_at count bytes.now)) 0 ≡ Some (take (result - 2) (drop 2 bytes.now)) }
{
    match read_path(bytes) {
        Some((path, _)) => 2 + path.len(),
        None => 0,
    }
}

/// Returns the place of each of `count` paths, which must be there.
fn places_of(alloc: Global, bytes: &[u8], count: u32) -> Result<Vec<Place>, AllocError>
    requires { ArePaths count bytes.now }
    ensures { IfOk result (λ places. map (row_in bytes.now) places.items ≡ paths_in (some_paths_at count bytes.now)) }
{
    let mut places = Vec::with_capacity(alloc, count as usize)?;
    let mut start = 0usize;
    for taken in 0..count {
        let len = first_len(bytes_from(bytes, start), count - taken);
        let place = Place::new(start + 2, len - 2)?;
        places.push(place)?;
        start += len;
    }
    Ok(places)
}

/// Appends a path if it may be in a set.
fn push_wanted(found: &mut RowList<u8>, path: &[u8], wanted: &PathFilter) -> Result<(), AllocError>
    ensures { OnOk result (AddsWanted wanted.now path.now found.old found.new) }
{
    if wanted.may_have(path) {
        found.push(path)?;
    }
    Ok(())
}

/// Returns those of `count` paths, which must be there, that may be in a set.
#[tactic(auto, using(crate::proofs::AmongLemmas::none_found))]
fn among_of(
    alloc: Global,
    bytes: &[u8],
    count: u32,
    wanted: &PathFilter,
) -> Result<RowList<u8>, AllocError>
    requires { ArePaths count bytes.now }
    ensures { IfOk result (λ found. AreAmong wanted.now (paths_in (some_paths_at count bytes.now)) found) }
{
    let mut found = RowList::new(alloc);
    let mut start = 0usize;
    for taken in 0..count {
        let rest = bytes_from(bytes, start);
        let len = first_len(rest, count - taken);
        push_wanted(&mut found, &rest[2..len], wanted)?;
        start += len;
    }
    Ok(found)
}

impl Paths {
    ghost use Rattle.std.specs.Arc.{arc_value};

    /// Creates the list of `count` paths at a place of a file, which must be there.
    pub(crate) fn at_place(file: Arc<Vec<u8>, Global>, start: usize, count: u32) -> Paths
        requires { ArePaths count (drop start (arc_value file).items) }
        ensures { result ≡ paths_in (some_paths_at count (drop start (arc_value file).items)) }
    {
        Paths { file, start, count }
    }

    /// Returns the first remaining path, which is canonical and has 1 to 4,096 bytes. Returns None if none
    /// remains.
    pub fn first(&self) -> Option<&[u8]>
        ensures { option_map (λ p. p.now) result ≡ slice_get self.now 0 }
    {
        first_path(bytes_from(&self.file, self.start), self.count)
    }

    /// Skips one path. If none remains, nothing changes.
    pub fn advance(&mut self)
        ensures { self.new ≡ drop 1 self.old }
    {
        if self.count == 0 {
            return;
        }
        let len = first_len(bytes_from(&self.file, self.start), self.count);
        self.start += len;
        self.count -= 1;
    }

    /// Returns those of the remaining paths that may be in a set, in their order. The set may say too often that it
    /// has a path.
    ///
    /// # Errors
    ///
    /// `AllocError` if memory runs out.
    pub fn among(&self, alloc: Global, wanted: &PathFilter) -> Result<RowList<u8>, AllocError>
        ensures { IfOk result (λ found. AreAmong wanted.now self.now found) }
    {
        among_of(
            alloc,
            bytes_from(&self.file, self.start),
            self.count,
            wanted,
        )
    }

    /// Returns the paths as rows of the same bytes.
    ///
    /// # Errors
    ///
    /// Memory ran out, or a path is more than 4,294,967,293 bytes after the first.
    pub fn into_rows(self, alloc: Global) -> Result<SharedRows, AllocError>
        ensures { IfOk result (λ rows. rows ≡ self) }
    {
        let Paths { file, start, count } = self;
        let places = places_of(alloc, bytes_from(&file, start), count)?;
        Ok(SharedRows::new(file, start, places))
    }
}
