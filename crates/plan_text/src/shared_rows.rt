//! Lists of rows that are parts of shared bytes.

ghost use Rattle.std.specs.Prelude.{◌≡◌, ◌<◌, ◌≤◌, [], IfOk, IfSome, get_or, length, map, take, drop, true};
ghost use Rattle.std.specs.Arc.{arc_value};
ghost use Rattle.plan_text.specs.SharedRows.{AreWithin, IsWithin, row_in};

use std::alloc::{AllocError, Global};
use std::marker::Model;
use std::sync::Arc;

/// The location of a row in some bytes.
#[derive(Clone, Copy)]
pub struct Place {
    /// The index of its first byte, counted from 0.
    pub start: u32,
    /// The number of its bytes.
    pub len: u32,
}

impl Place {
    /// Creates the place of a row of `len` bytes that begins at `start`. If one of the two numbers does not fit
    /// into four bytes, this fails as if memory had run out.
    pub fn new(start: usize, len: usize) -> Result<Place, AllocError>
        ensures { IfOk result (λ place. (place.start ≡ start) × (place.len ≡ len)) }
    {
        if start > 4_294_967_295 || len > 4_294_967_295 {
            return Err(AllocError);
        }
        Ok(Place {
            start: start as u32,
            len: len as u32,
        })
    }
}

/// A list of rows of bytes. A contract sees it as a list of lists. The bytes are shared with other owners, so a
/// row takes eight bytes, whatever its length is.
#[derive(Drop)]
pub struct SharedRows {
    bytes: Arc<Vec<u8>, Global>,
    /// The index of the byte from which the starts of places count.
    first: usize,
    places: Vec<Place>,
}

impl Model for SharedRows {
    ghost use Rattle.std.specs.Prelude.{List, ℕ, drop, map};
    ghost use Rattle.std.specs.Arc.{arc_value};
    ghost use Rattle.plan_text.specs.SharedRows.{row_in};

    ghost Value = { List (List ℕ) };

    ghost view = { λ r. map (row_in (drop r.first (arc_value r.bytes).items)) r.places.items };
}

/// Returns the bytes from index `start` on. Returns none if there are fewer bytes.
fn behind(bytes: &[u8], start: usize) -> &[u8]
    ensures { result.now ≡ drop start bytes.now }
{
    match bytes.get(start..) {
        Some(rest) => rest,
        None => &[],
    }
}

/// Returns the first `len` bytes. Returns all bytes if there are fewer.
fn front(bytes: &[u8], len: usize) -> &[u8]
    ensures { result.now ≡ take len bytes.now }
{
    match bytes.get(..len) {
        Some(front) => front,
        None => bytes,
    }
}

/// Returns the larger number.
fn larger(first: usize, second: usize) -> usize
    ensures first { first ≤ result }
    ensures second { second ≤ result }
{
    if first < second { second } else { first }
}

/// Returns the index after the last byte of a row, if two lists have the same place for it. Returns none if the
/// places differ.
fn end_of_both(first: &[Place], second: &[Place], number: usize) -> Option<usize>
    requires first_inside { number < length first.now }
    requires second_inside { number < length second.now }
    ensures { IfSome result (λ end. IsWithin end first.now second.now number) }
{
    let place = first[number];
    let other = second[number];
    if (place.start != other.start) | (place.len != other.len) {
        return None;
    }
    Some(place.start as usize + place.len as usize)
}

/// Returns an index that no row passes, if two lists have the same places. Returns none if the places differ.
fn common_end(first: &[Place], second: &[Place]) -> Option<usize>
    ensures { IfSome result (λ end. (length first.now ≡ length second.now) × AreWithin end first.now second.now (length first.now)) }
{
    if first.len() != second.len() {
        return None;
    }
    let mut end = 0;
    for number in 0..first.len() {
        match end_of_both(first, second, number) {
            Some(next) => end = larger(end, next),
            None => return None,
        }
    }
    Some(end)
}

/// Checks whether the places are the same, and all bytes up to the end of the last row.
fn are_same_parts(bytes: &[u8], places: &[Place], others: &[u8], other_places: &[Place]) -> bool
    ensures { result ≡ true → map (row_in bytes.now) places.now ≡ map (row_in others.now) other_places.now }
{
    match common_end(places, other_places) {
        Some(end) => front(bytes, end) == front(others, end),
        None => false,
    }
}

impl SharedRows {
    /// Creates the list of the rows at these places, which count from the byte `first`. A row that begins after
    /// the end of the bytes is empty. A row that ends after them is cut off at their end.
    pub fn new(bytes: Arc<Vec<u8>, Global>, first: usize, places: Vec<Place>) -> SharedRows
        ensures { result ≡ map (row_in (drop first (arc_value bytes).items)) places.items }
    {
        SharedRows {
            bytes,
            first,
            places,
        }
    }

    /// Returns the number of rows.
    pub fn len(&self) -> usize
        ensures { result ≡ length self.now }
    {
        self.places.len()
    }

    /// Returns row `number`, counted from 0. If there is no such row, returns an empty one.
    pub fn row(&self, number: usize) -> &[u8]
        ensures { result.now ≡ get_or self.now number [] }
    {
        let Some(place) = self.places.get(number) else {
            return &[];
        };
        let bytes = behind(&self.bytes, self.first);
        front(behind(bytes, place.start as usize), place.len as usize)
    }

    /// Checks whether row `number` is the same in both lists.
    fn has_same_row(&self, other: &SharedRows, number: usize) -> bool
        ensures on { result ≡ true → get_or self.now number [] ≡ get_or other.now number [] }
        ensures must { self.now ≡ other.now → result ≡ true }
    {
        self.row(number) == other.row(number)
    }

    /// Checks whether the rows are the same, one after the other.
    fn has_same_rows(&self, other: &SharedRows) -> bool
        ensures on { result ≡ true → self.now ≡ other.now }
        ensures must { self.now ≡ other.now → result ≡ true }
    {
        if self.len() != other.len() {
            return false;
        }
        for number in 0..self.len() {
            if !self.has_same_row(other, number) {
                return false;
            }
        }
        true
    }

    /// Checks whether the places are the same, and all bytes up to the end of the last row.
    fn has_same_parts(&self, other: &SharedRows) -> bool
        ensures { result ≡ true → self.now ≡ other.now }
    {
        let bytes = behind(&self.bytes, self.first);
        let others = behind(&other.bytes, other.first);
        are_same_parts(bytes, &self.places, others, &other.places)
    }

    /// Checks whether both lists have the same rows. If their places are the same, it compares their bytes at once.
    /// It compares the rows one after the other only if that finds a difference.
    pub fn is_same(&self, other: &SharedRows) -> bool
        ensures on { result ≡ true → self.now ≡ other.now }
        ensures must { self.now ≡ other.now → result ≡ true }
    {
        self.has_same_parts(other) || self.has_same_rows(other)
    }
}
