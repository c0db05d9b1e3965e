//! Stamps of the paths of a sweep, which a lane asks for one after another.

ghost use Rattle.std.specs.Prelude.{◌≡◌, ◌+◌, ◌≤◌, ◌<◌, ◌⊎◌, ℕ, [], IfSome, None, Some, drop, get_or, length, slice_get};
ghost use Rattle.plan_machine.specs.declared.event.reply.Reply.TheVariants.{Stamp};
ghost use Rattle.plan_verify.specs.Turn.{Stat};
ghost use Rattle.plan_lanes.specs.Questions.{shown};
ghost use Rattle.plan_lanes.specs.StampRows.{HaveStamps};

use crate::batch::{OwnedRequest, Question};
use crate::world::World;
use plan_machine::Reply;
use plan_verify::PathList;
use std::alloc::Global;
use std::marker::{Model, PhantomData};

/// Stamps of paths that an edge goes through, beginning with the path of its question. The world allows each stamp for
/// its path, under any number. Only `ask` creates a row, nothing copies a row, and a board takes it by value. So each
/// stamp is applied at most once, to the edge that asked for it.
#[derive(Drop)]
pub struct StampRow<W: World> {
    edge: u32,
    number: u64,
    paths: PathList,
    from: u32,
    stamps: Vec<u64>,
    world: PhantomData<W>,
}

impl<W: World> Model for StampRow<W> {
    ghost use Rattle.plan_lanes.specs.StampRows.{IsRow, Stamps, stamps_of};

    ghost Value = { Stamps };

    ghost view = { λ r. stamps_of r.edge r.number r.paths r.from r.stamps.items };

    ghost invariant = { λ r. IsRow W.allows (stamps_of r.edge r.number r.paths r.from r.stamps.items) };
}

/// The most paths in a row. It bounds how long a command waits for the other questions of its lane.
const MOST: u32 = 64;

/// Returns the index at which a row ends that begins at an index of a list.
fn row_end(paths: &PathList, from: u32) -> u32
    ensures { result ≤ length paths.now }
{
    let end = from.saturating_add(MOST);
    if end < paths.len() { end } else { paths.len() }
}

/// Returns the number of paths of a row that begins at an index of a list.
pub fn row_len(paths: &PathList, from: u32) -> usize {
    row_end(paths, from).saturating_sub(from) as usize
}

/// Asks the world for the stamps of the paths of a list from an index on, one after another. Ends before the first path
/// without a stamp.
fn stamps_from<W: World>(alloc: Global, world: &W, paths: &PathList, from: u32) -> Vec<u64>
    ensures within { result.items ≡ [] ⊎ (from + length result.items ≤ length paths.now) }
    ensures allowed { HaveStamps W.allows (drop from paths.now) result.items }
{
    let end = row_end(paths, from);
    let mut stamps = Vec::new(alloc);
    if stamps.reserve(row_len(paths, from)).is_err() {
        return stamps;
    }
    for place in from..end {
        let Some(stamp) = world.stat_ahead(paths.path(place)) else {
            return stamps;
        };
        if stamps.push(stamp).is_err() {
            return stamps;
        }
    }
    stamps
}

impl<W: World> StampRow<W> {
    /// Asks the world for the stamps of at most 64 paths of a sweep, beginning with the path that the edge asked for.
    /// Returns None if that path has no stamp, or if the question isn't part of a sweep.
    pub fn ask(alloc: Global, world: &W, edge: u32, question: &Question) -> Option<StampRow<W>>
        ensures edge { IfSome result (λ r. r.edge ≡ edge) }
        ensures question { IfSome result (λ r. (r.number ≡ question.now.number) × (Stat (get_or r.paths r.from []) ≡ shown question.now.request)) }
    {
        let OwnedRequest::Sweep(paths, from) = &question.request else {
            return None;
        };
        let stamps = stamps_from(alloc, world, paths, *from);
        if stamps.is_empty() {
            return None;
        }
        let Ok(paths) = paths.copy() else {
            return None;
        };
        Some(StampRow {
            edge,
            number: question.number,
            paths,
            from: *from,
            stamps,
            world: PhantomData,
        })
    }

    /// Returns the edge that goes through the paths.
    pub fn edge(&self) -> u32
        ensures { result ≡ self.now.edge }
    {
        self.edge
    }

    /// Returns the number of the question.
    pub fn number(&self) -> u64
        ensures { result ≡ self.now.number }
    {
        self.number
    }

    /// Returns the paths.
    pub fn paths(&self) -> &PathList
        ensures { result.now ≡ self.now.paths }
    {
        &self.paths
    }

    /// Returns the index of the path that the question asks for.
    pub fn from(&self) -> u32
        ensures { result ≡ self.now.from }
    {
        self.from
    }

    /// Returns the stamps, at least one.
    pub fn stamps(&self) -> &[u64]
        ensures same { result.now ≡ self.now.stamps }
        ensures some { 0 < length result.now }
        ensures allowed { HaveStamps W.allows (drop self.now.from self.now.paths) result.now }
    {
        &self.stamps
    }

    /// Returns the stamp at an index of the row, with a question of this number for its path. Returns None if the row
    /// has no more stamps.
    pub fn into_reply(self, place: usize, number: u64) -> Option<(Question, Reply)>
        ensures question { IfSome result (λ x. (x.0.number ≡ number) × (shown x.0.request ≡ Stat (get_or self.paths (self.from + place) []))) }
        ensures reply { IfSome result (λ x. (stamp : ℕ) × (slice_get self.stamps place ≡ Some stamp) × (x.1 ≡ Stamp stamp)) }
        ensures allowed { IfSome result (λ x. W.allows number (shown x.0.request) x.1) }
        ensures none { result ≡ None → length self.stamps ≤ place }
    {
        let StampRow {
            paths,
            from,
            stamps,
            ..
        } = self;
        let stamp = match stamps.get(place) {
            Some(stamp) => *stamp,
            None => return None,
        };
        let request = OwnedRequest::Sweep(paths, from + place as u32);
        Some((Question { number, request }, Reply::Stamp(stamp)))
    }
}
