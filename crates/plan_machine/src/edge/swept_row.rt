//! Rows of a sweep: the stamps of several paths, received at once.

ghost use Rattle.std.specs.Prelude.{◌≡◌, ◌<◌, ◌≤◌, ◌+◌, ◌^◌, ℕ, [], IfSome, IsSome, Some, drop, length, slice_get, take, true};
ghost use Rattle.std.specs.List.{fold};
ghost use Rattle.plan_verify.specs.Members.{is_member};
ghost use Rattle.plan_verify.specs.Turn.{Local, later, question};
ghost use Rattle.plan_machine.specs.State.{Active};
ghost use Rattle.plan_machine.specs.Sweeping.{AwaitsSwept, HasMergedRow, IsMergedRow, StandsSweptTo};
ghost use Rattle.plan_machine.specs.Working.{IsSweeping};

use crate::edge::active_edge::ActiveEdge;
use crate::edge::stack::Stack;
use crate::edge::status::{EdgeState, Status};
use plan_image::{Image, Instr};
use plan_verify::{PathList, Value};

/// Returns whether the paths at two places are the same.
fn is_same_path(first: &PathList, at: u32, second: &PathList, from: u32) -> bool
    requires first_inside { at < length first.now }
    requires second_inside { from < length second.now }
    ensures on { result ≡ true → slice_get first.now at ≡ slice_get second.now from }
    ensures must { slice_get first.now at ≡ slice_get second.now from → result ≡ true }
{
    first.path(at) == second.path(from)
}

/// Checks whether two lists are the same, if they have at most about four times `most` paths. Returns false for longer
/// lists: comparing them whole for each row of a sweep would take quadratic time.
fn are_short_and_same(first: &PathList, second: &PathList, most: u32) -> bool
    ensures on { result ≡ true → first.now ≡ second.now }
{
    first.len() / 4 <= most && first.is_same(second)
}

/// Returns how many of the next `most` paths are the same in two lists, each from its own place on. If the places
/// are the same, short lists are first compared as a whole.
fn count_same(first: &PathList, at: u32, second: &PathList, from: u32, most: u32) -> u32
    requires first_inside { at + most ≤ length first.now }
    requires second_inside { from + most ≤ length second.now }
    requires fits { (at + most < 2 ^ 32) × (from + most < 2 ^ 32) }
    ensures most { result ≤ most }
    ensures same { (k : ℕ) → k < result → slice_get first.now (at + k) ≡ slice_get second.now (from + k) }
    ensures must { first.now ≡ second.now → at ≡ from → result ≡ most }
{
    if at == from && are_short_and_same(first, second, most) {
        return most;
    }
    for number in 0..most {
        if !is_same_path(first, at + number, second, from + number) {
            return number;
        }
    }
    most
}

/// Returns the least of three numbers.
fn least(first: u32, second: u32, third: usize) -> u32
    ensures first { result ≤ first }
    ensures second { result ≤ second }
    ensures third { result ≤ third }
    ensures must { result < third → result < second → result ≡ first }
{
    let low = if first < second { first } else { second };
    if third < low as usize {
        third as u32
    } else {
        low
    }
}

/// Returns how many stamps of a row can be merged. The paths of the row, from a place of their list on, must be
/// the next ones to be swept, and another path must be left after them.
fn row_len(all: &PathList, swept: u32, paths: &PathList, from: u32, stamps: usize) -> u32
    requires { swept < length all.now }
    ensures few { result ≤ stamps }
    ensures left { swept + result < length all.now }
    ensures same { (k : ℕ) → k < result → slice_get all.now (swept + k) ≡ slice_get paths.now (from + k) }
    ensures must { all.now ≡ paths.now → swept ≡ from → result < stamps → length paths.now ≡ from + result + 1 }
{
    if paths.len() <= from {
        return 0;
    }
    let most = least(all.len() - swept - 1, paths.len() - from, stamps);
    count_same(all, swept, paths, from, most)
}

/// Returns the latest of these stamps and the first one.
fn latest_of(first: u64, stamps: &[u64]) -> u64
    ensures { result ≡ fold later first stamps.now }
{
    let mut latest = first;
    for stamp in stamps {
        latest = latest.max(*stamp);
    }
    latest
}

/// Returns whether one of the stamps is 0, which means that its file is missing.
fn has_missing(stamps: &[u64]) -> bool
    ensures { result ≡ is_member 0 stamps.now }
{
    stamps.iter().any(|stamp| *stamp == 0)
}

impl Stack {
    /// Merges the stamps of a row whose paths are in a list, from a place on. Returns how many were merged.
    pub(crate) fn merge_row(&mut self, paths: &PathList, from: u32, stamps: &[u64]) -> usize
        requires { IsSweeping self.old }
        ensures most { result ≤ length stamps.now }
        ensures few { length self.old ≤ 64 }
        ensures merged { IsMergedRow (drop from paths.now) (take result stamps.now) self.old self.new }
        ensures must { slice_get self.old 0 ≡ Some (Value.Paths from paths.now) → result < length stamps.now → length paths.now ≡ from + result + 1 }
    {
        let _depth = self.len();
        let (swept, all) = self.pop_paths();
        let missing = self.pop_flag();
        let newest = self.pop_stamp();
        let count = row_len(&all, swept, paths, from, stamps.len());
        let row = &stamps[..count as usize];
        self.push(Value::Stamp(latest_of(newest, row)));
        self.push(Value::Flag(missing | has_missing(row)));
        self.push(Value::Paths(swept + count, all));
        count as usize
    }
}

impl ActiveEdge {
    /// Returns the paths of a sweep and how many of them have a stamp, if the edge awaits the stamp of the next
    /// one. Returns None otherwise.
    #[tactic(auto, using(crate::proofs::AskingLemmas::sweeps_in, crate::proofs::SweepLemmas::sweeping_has))]
    pub(crate) fn sweeping(&self, image: &Image, edge: u32) -> Option<(&PathList, u32)>
        requires asks { self.now.asked ≡ true → IsSome (question image.now edge [] self.now) }
        ensures some { IfSome result (λ r. AwaitsSwept image.now edge self.now × (slice_get self.now.stack 0 ≡ Some (Value.Paths r.1 r.0.now))) }
        ensures must { AwaitsSwept image.now edge self.now → IsSome result }
    {
        if !self.asked {
            return None;
        }
        if !self.stack.has_paths() {
            return None;
        }
        match image.instr(edge, self.place) {
            Some(Instr::Sweep) => {
                let (swept, paths) = self.stack.paths_at();
                Some((paths, swept))
            }
            _ => None,
        }
    }

    /// Takes the stamps of a row, and asks for the next path after each. Returns how many were taken.
    pub(crate) fn merge_row(
        &mut self,
        _image: &Image,
        _edge: u32,
        paths: &PathList,
        from: u32,
        stamps: &[u64],
    ) -> usize
        requires { AwaitsSwept _image.now _edge self.old }
        ensures most { result ≤ length stamps.now }
        ensures row { HasMergedRow (drop from paths.now) (take result stamps.now) self.old self.new }
        ensures must { slice_get self.old.stack 0 ≡ Some (Value.Paths from paths.now) → result < length stamps.now → length paths.now ≡ from + result + 1 }
    {
        self.stack.merge_row(paths, from, stamps)
    }
}

impl Status {
    /// Returns the paths of a sweep and how many of them have a stamp, if the edge awaits the stamp of the next
    /// one. Returns None otherwise.
    pub(crate) fn sweeping(&self, image: &Image, edge: u32) -> Option<(&PathList, u32)>
        requires asks { (l : Local) → self.now ≡ Active l → l.asked ≡ true → IsSome (question image.now edge [] l) }
        ensures some { IfSome result (λ r. StandsSweptTo image.now edge self.now r.0.now r.1) }
        ensures must { (l : Local) → self.now ≡ Active l → AwaitsSwept image.now edge l → IsSome result }
    {
        match &self.stage {
            EdgeState::Active(active_edge) => active_edge.sweeping(image, edge),
            _ => None,
        }
    }

    /// Takes the stamps of a row, and asks for the next path after each. Returns how many were taken.
    pub(crate) fn merge_row(
        &mut self,
        image: &Image,
        edge: u32,
        paths: &PathList,
        from: u32,
        stamps: &[u64],
    ) -> usize
        requires { (l : Local) × (self.old ≡ Active l) × AwaitsSwept image.now edge l }
        ensures most { result ≤ length stamps.now }
        ensures row { (l : Local) → self.old ≡ Active l → (m : Local) × (self.new ≡ Active m) × HasMergedRow (drop from paths.now) (take result stamps.now) l m }
        ensures must { StandsSweptTo image.now edge self.old paths.now from → result < length stamps.now → length paths.now ≡ from + result + 1 }
    {
        match &mut self.stage {
            EdgeState::Active(active_edge) => active_edge.merge_row(
                image, edge, paths, from, stamps,
            ),
            _ => unreachable!(),
        }
    }
}
