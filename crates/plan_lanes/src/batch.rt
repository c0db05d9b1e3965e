//! Batches: the questions that a lane holds while it doesn't have the lock.

ghost use Rattle.std.specs.Prelude.{◌≡◌, ◌≢◌, ◌≤◌, ◌⊎◌, ◌++◌, ◌∷◌, [], IfErr, IfOk, IfSome, None, false, length, true, ◌↔◌, IsTrue};
ghost use Rattle.plan_machine.specs.Requests.{asked_at, shown as request_shown};
ghost use Rattle.plan_lanes.specs.Batches.{AppliesReply, IsHeldOpen, held};
ghost use Rattle.plan_lanes.specs.Proceeds.{Proceeds};
ghost use Rattle.plan_lanes.specs.Questions.{shown, is_run};
ghost use Rattle.plan_lanes.specs.LocalRuns.{GoesOn};

use crate::board::{Advance, KeepOrder};
use crate::shared_run::{RunBrand, SharedRun, Stopped};
use crate::stamp_row::{StampRow, row_len};
use crate::world::World;
use plan_machine::{Outputs, Refused, Reply, Request};
use plan_text::{Items, RowList};
use plan_verify::PathList;
use std::alloc::{AllocError, Global};
use std::collections::VecDeque;
use std::marker::Model;

/// A question of an edge. Once the world was asked, the item also has the reply, or the stamps of a row of paths that
/// begins with the path of the question. The world's rule allows them for this question.
#[derive(Drop)]
pub struct BatchItem<W: World> {
    edge: u32,
    question: Question,
    asked: bool,
    reply: Option<Reply>,
    row: Option<StampRow<W>>,
}

impl<W: World> Model for BatchItem<W> {
    ghost use Rattle.plan_lanes.specs.Batches.{Held, IsHeard, held};
    ghost use Rattle.plan_lanes.specs.Questions.{shown};

    ghost Value = { Held };

    ghost view = { λ m. held m.edge m.question.number (shown m.question.request) };

    ghost invariant = { λ m. IsHeard W.allows (held m.edge m.question.number (shown m.question.request)) m.reply m.row };
}

/// Returns the world's reply to a question that doesn't ask to run a command. Returns None if memory ran out.
fn reply_of<W: World>(world: &W, question: &Question) -> Option<Reply>
    ensures { IfSome result (λ r. W.allows question.now.number (shown question.now.request) r) }
{
    let number = question.number;
    let reply = match &question.request {
        OwnedRequest::Stat(path) => world.stat(number, path.as_slice()),
        OwnedRequest::Sweep(paths, place) => world.stat(number, paths.path(*place)),
        OwnedRequest::Recall(output) => world.recall(number, output.as_slice()),
        OwnedRequest::Deps(path) => world.read_depfile(number, path.as_slice()),
        OwnedRequest::Keep(order) => world.keep(number, order),
        OwnedRequest::Run(..) => return None,
    };
    reply.ok()
}

impl<W: World> BatchItem<W> {
    /// Creates a question without a reply.
    pub fn open(edge: u32, question: Question) -> BatchItem<W>
        ensures { result ≡ held edge question.number (shown question.request) }
    {
        BatchItem {
            edge,
            question,
            asked: false,
            reply: None,
            row: None,
        }
    }

    /// Creates a question for which the world was asked, with its reply. The reply is None if memory ran out.
    pub fn with_reply(edge: u32, question: Question, reply: Option<Reply>) -> BatchItem<W>
        requires { IfSome reply (λ r. W.allows question.number (shown question.request) r) }
        ensures { result ≡ held edge question.number (shown question.request) }
    {
        BatchItem {
            edge,
            question,
            asked: true,
            reply,
            row: None,
        }
    }

    /// Checks whether the world was asked.
    pub fn is_asked(&self) -> bool {
        self.asked
    }

    /// Returns the number of questions to the world that this item needs.
    pub fn count(&self) -> usize {
        self.question.request.count()
    }

    /// Asks the world.
    pub fn ask(&mut self, alloc: Global, world: &W)
        ensures { self.new ≡ self.old }
    {
        self.asked = true;
        self.row = StampRow::ask(alloc, world, self.edge, &self.question);
        if self.row.is_none() {
            self.reply = reply_of(world, &self.question);
        }
    }

    /// Applies the reply or the stamps. If the edge then asks for the next path of a sweep, that question becomes the
    /// question of the item, and the result is true. If there is neither a reply nor a stamp, lanes stop.
    pub fn apply_replies<J: RunBrand>(&mut self, shared: &mut SharedRun<'_, W, J>) -> bool
        ensures goes { GoesOn shared.old.run shared.new.run }
        ensures edge { self.new.edge ≡ self.old.edge }
        ensures asks { result ≡ true → IsHeldOpen shared.new.run self.new }
        ensures applied { result ≡ false → (shared.new.stopped ≢ Stopped.No) ⊎ AppliesReply W.allows shared.old.run shared.new.run self.old }
    {
        self.asked = false;
        let reply = self.reply.take();
        if let Some(row) = self.row.take() {
            return shared.answer_row(&mut self.question, row);
        }
        let Some(reply) = reply else {
            shared.stop(Stopped::Memory);
            return false;
        };
        shared.answer(self.edge, &self.question, reply);
        false
    }

    /// Applies the reply or the stamps, and makes the local steps of the edge. If the edge then asks a question, that
    /// question becomes the question of the item, and the result is true. If there is neither a reply nor a stamp,
    /// lanes stop.
    pub fn follow<J: RunBrand>(&mut self, shared: &mut SharedRun<'_, W, J>) -> bool
        ensures goes { GoesOn shared.old.run shared.new.run }
        ensures edge { self.new.edge ≡ self.old.edge }
        ensures asks { result ≡ true → IsHeldOpen shared.new.run self.new }
        ensures rests { result ≡ false → (shared.new.stopped ≢ Stopped.No) ⊎ (asked_at shared.new.run.opened.parts shared.new.run.state self.old.edge ≡ None) }
    {
        self.asked = false;
        let reply = self.reply.take();
        if let Some(row) = self.row.take() {
            return shared.follow_row(&mut self.question, row);
        }
        let Some(reply) = reply else {
            shared.stop(Stopped::Memory);
            return false;
        };
        shared.follow(self.edge, &mut self.question, reply)
    }
}

/// Asks the world up to `most` questions that it wasn't asked yet. A row of paths may exceed that number. Returns
/// whether unasked questions are left.
fn ask_some<W: World>(
    requests: &mut VecDeque<BatchItem<W>>,
    alloc: Global,
    world: &W,
    most: usize,
) -> bool {
    let mut count = 0usize;
    for at in 0..requests.len() {
        let Some(pending) = requests.get_mut(at) else {
            return false;
        };
        if pending.is_asked() {
            continue;
        }
        if count >= most {
            return true;
        }
        count = count.saturating_add(pending.count());
        pending.ask(alloc, world);
    }
    false
}

/// Moves the request at an index to the requests whose reply was applied. The first request takes its place.
fn set_aside<W: World>(
    requests: &mut VecDeque<BatchItem<W>>,
    applied: &mut Vec<BatchItem<W>>,
    at: usize,
) {
    if let Some(pending) = requests.swap_remove_front(at) {
        let _ = applied.push(pending);
    }
}

/// Applies the replies of all requests. If an edge then asks for the next path of a sweep, its request stays, with that
/// question. All other requests move to `applied`. Takes the number of questions to the world that the requests need,
/// and returns that number for the requests that stay.
fn answer_all<W: World, J: RunBrand>(
    requests: &mut VecDeque<BatchItem<W>>,
    applied: &mut Vec<BatchItem<W>>,
    mut count: usize,
    shared: &mut SharedRun<'_, W, J>,
) -> usize {
    let mut kept = 0;
    for at in 0..requests.len() {
        let Some(pending) = requests.get_mut(kept) else {
            return count;
        };
        count = count.saturating_sub(pending.count());
        if pending.apply_replies(shared) {
            count = count.saturating_add(pending.count());
            kept += 1;
        } else {
            set_aside(requests, applied, kept);
        }
    }
    count
}

/// Applies the replies of the first requests, up to the first one for which the world wasn't asked, and makes the local
/// steps of their edges. If an edge then asks a question, its request stays, with that question, before the requests
/// for which the world wasn't asked. Each other applied request moves to `applied`. Takes the number of questions to
/// the world that the requests need, and returns that number for the requests that stay.
fn follow_all<W: World, J: RunBrand>(
    requests: &mut VecDeque<BatchItem<W>>,
    applied: &mut Vec<BatchItem<W>>,
    mut count: usize,
    shared: &mut SharedRun<'_, W, J>,
) -> usize {
    let mut kept = 0;
    for at in 0..requests.len() {
        let Some(pending) = requests.get_mut(kept) else {
            return count;
        };
        if !pending.is_asked() {
            return count;
        }
        count = count.saturating_sub(pending.count());
        if pending.follow(shared) {
            count = count.saturating_add(pending.count());
            kept += 1;
        } else {
            set_aside(requests, applied, kept);
        }
    }
    count
}

/// The number of questions that a lane asks before it tries to take the lock again. A row of paths may exceed it.
const QUESTIONS: usize = 64;

/// The number of questions at which a batch is full.
const FULL: usize = 256;

/// The requests that a lane holds, and the requests whose reply was applied. The lane drops the applied requests after
/// it released the lock. A contract sees only the requests that the lane holds.
#[derive(Drop)]
pub struct Batch<W: World> {
    alloc: Global,
    held: VecDeque<BatchItem<W>>,
    applied: Vec<BatchItem<W>>,
    /// The number of questions to the world that the held requests need.
    count: usize,
}

impl<W: World> Model for Batch<W> {
    ghost use Rattle.std.specs.Prelude.{List};
    ghost use Rattle.plan_lanes.specs.Batches.{Held};

    ghost Value = { List Held };

    ghost view = { λ h. h.held.items };
}

impl<W: World> Batch<W> {
    /// Creates an empty batch.
    pub fn new(alloc: Global) -> Result<Batch<W>, AllocError>
        ensures { IfOk result (λ h. h ≡ []) }
    {
        let held = VecDeque::with_capacity(alloc, QUESTIONS)?;
        let mut applied = Vec::new(alloc);
        applied.reserve(QUESTIONS)?;
        Ok(Batch {
            alloc,
            held,
            applied,
            count: 0,
        })
    }

    /// Checks whether the batch holds no question.
    pub fn is_empty(&self) -> bool {
        self.held.is_empty()
    }

    /// Checks whether the batch holds at least as many questions as it should, or questions of this many edges.
    pub fn is_full(&self, edges: usize) -> bool {
        self.count >= FULL || self.held.len() >= edges
    }

    /// Adds a question. Returns false if memory ran out.
    pub fn push(&mut self, pending: BatchItem<W>) -> bool
        ensures { result ≡ true → self.new ≡ self.old ++ pending ∷ [] }
    {
        self.count = self.count.saturating_add(pending.count());
        self.held.push_back(pending).is_ok()
    }

    /// Asks the world all questions.
    pub fn ask(&mut self, world: &W) {
        ask_some(&mut self.held, self.alloc, world, usize::MAX);
    }

    /// Asks the world some of the questions that it wasn't asked yet. Returns whether unasked questions are left.
    pub fn ask_some(&mut self, world: &W) -> bool {
        ask_some(&mut self.held, self.alloc, world, QUESTIONS)
    }

    /// Applies the replies of all held requests. Keeps the next question of each sweep that continues.
    pub fn apply_replies<J: RunBrand>(&mut self, shared: &mut SharedRun<'_, W, J>) {
        self.count = answer_all(&mut self.held, &mut self.applied, self.count, shared);
    }

    /// Applies the replies of the requests that the world was asked for, and makes the local steps of their edges.
    /// Keeps the questions that these edges then ask.
    pub fn follow<J: RunBrand>(&mut self, shared: &mut SharedRun<'_, W, J>) {
        self.count = follow_all(&mut self.held, &mut self.applied, self.count, shared);
    }

    /// Does what can be done next without a reply.
    pub fn advance<J: RunBrand>(
        &mut self,
        shared: &mut SharedRun<'_, W, J>,
    ) -> Result<Advance, Refused>
        ensures goes { GoesOn shared.old.run shared.new.run }
        ensures ok { IfOk result (λ a. Proceeds shared.old.run shared.new.run a) }
        ensures memory { IfErr result (λ r. r ≡ Refused.Memory) }
        ensures named { shared.new.run.opened ≡ J.run }
        ensures stopped { shared.new.stopped ≡ shared.old.stopped }
        ensures same { self.new ≡ self.old }
    {
        shared.advance()
    }

    /// Drops the requests whose reply was applied.
    pub fn drop_applied(&mut self)
        ensures { self.new ≡ self.old }
    {
        self.applied.clear();
    }
}

/// A request of an edge, with texts and paths of its own.
#[derive(Drop)]
pub enum OwnedRequest {
    /// Asks when the file of this path was last changed.
    Stat(Items<u8>),
    /// Asks the same about the path at this index of a list that the edge goes through.
    Sweep(PathList, u32),
    /// Asks for the entry that the record has for this output.
    Recall(Items<u8>),
    /// Asks to run this command, which makes these files.
    Run(Items<u8>, RowList<u8>),
    /// Asks for the depfile at this path.
    Deps(Items<u8>),
    /// Asks to keep the entry of this order.
    Keep(KeepOrder),
}

/// A question: the request of an edge, and the position in the journal, from 0, of the event that asked.
#[derive(Drop)]
pub struct Question {
    pub number: u64,
    pub request: OwnedRequest,
}

/// Returns a copy of the bytes.
pub(crate) fn bytes_of(alloc: Global, bytes: &[u8]) -> Result<Items<u8>, AllocError>
    ensures { IfOk result (λ items. items ≡ bytes.now) }
{
    Ok(Items::new(Vec::from_slice(alloc, bytes)?))
}

/// The room for a path that a question has at least, in bytes. Most paths of a build fit into it, so that the next
/// question of the same edge can use it.
const PATH_ROOM: usize = 96;

/// Returns a copy of a path in these bytes, which are replaced.
pub(crate) fn path_in(bytes: Vec<u8>, path: &[u8]) -> Result<Items<u8>, AllocError>
    ensures { IfOk result (λ items. items ≡ path.now) }
{
    let mut bytes = bytes;
    bytes.clear();
    if bytes.capacity() < path.len() {
        bytes.reserve(path.len().max(PATH_ROOM))?;
    }
    bytes.extend_from_slice(path)?;
    Ok(Items::new(bytes))
}

/// Returns the paths of the files that an edge makes.
pub(crate) fn paths_of(alloc: Global, outputs: &Outputs<'_>) -> Result<RowList<u8>, AllocError>
    ensures { IfOk result (λ rows. rows ≡ outputs.now) }
{
    let mut rows = RowList::new(alloc);
    for i in 0..outputs.len() {
        rows.push(outputs.path(i))?;
    }
    Ok(rows)
}

/// Checks whether rows are these paths.
#[tactic(auto, using(crate::proofs::AlikeLemmas::none_alike, crate::proofs::AlikeLemmas::one_more_alike, crate::proofs::AlikeLemmas::all_alike, crate::proofs::AlikeLemmas::one_apart, crate::proofs::AlikeLemmas::lengths_apart))]
fn are_outputs(rows: &RowList<u8>, outputs: &Outputs<'_>) -> bool
    ensures { IsTrue result ↔ (rows.now ≡ outputs.now) }
{
    if rows.len() != outputs.len() {
        return false;
    }
    for i in 0..outputs.len() {
        if rows.row(i) != outputs.path(i) {
            return false;
        }
    }
    true
}

/// Checks whether two lists have the same paths.
#[tactic(auto, using(crate::proofs::AlikeLemmas::none_alike, crate::proofs::AlikeLemmas::one_more_alike, crate::proofs::AlikeLemmas::all_alike, crate::proofs::AlikeLemmas::one_apart, crate::proofs::AlikeLemmas::lengths_apart))]
fn are_paths(one: &PathList, other: &PathList) -> bool
    ensures { IsTrue result ↔ (one.now ≡ other.now) }
{
    if one.len() != other.len() {
        return false;
    }
    for i in 0..one.len() {
        if one.path(i) != other.path(i) {
            return false;
        }
    }
    true
}

impl OwnedRequest {
    /// Returns the bytes of its path, if it only has a path, and otherwise none.
    pub(crate) fn into_room(self, alloc: Global) -> Vec<u8> {
        match self {
            OwnedRequest::Stat(path) | OwnedRequest::Recall(path) | OwnedRequest::Deps(path) => {
                path.into_vec()
            }
            _ => Vec::new(alloc),
        }
    }

    /// Checks whether it is a copy of a request.
    pub(crate) fn is_of(&self, request: &Request<'_>) -> bool
        ensures { IsTrue result ↔ (shown self.now ≡ request_shown request.now) }
    {
        match (self, request) {
            (OwnedRequest::Stat(path), Request::Stat(other)) => path.as_slice() == *other,
            (OwnedRequest::Sweep(paths, place), Request::Stat(other)) => paths.path(*place)
                == *other,
            (OwnedRequest::Recall(output), Request::Recall(other)) => output.as_slice() == *other,
            (OwnedRequest::Run(command, paths), Request::Run(other, outputs)) => {
                command.as_slice() == *other && are_outputs(paths, outputs)
            }
            (OwnedRequest::Deps(path), Request::Deps(other)) => path.as_slice() == *other,
            (OwnedRequest::Keep(order), Request::Keep(output, command, basis, paths)) => {
                order.output() == *output
                    && order.command() == *command
                    && order.basis() == *basis
                    && are_paths(order.paths(), paths)
            }
            _ => false,
        }
    }

    /// Returns the number of questions that a lane may ask for it at once: those of a row of paths, or one.
    pub(crate) fn count(&self) -> usize {
        match self {
            OwnedRequest::Sweep(paths, place) => row_len(paths, *place),
            _ => 1,
        }
    }

    /// Checks whether it asks to run a command.
    pub fn is_run(&self) -> bool
        ensures { result ≡ is_run (shown self.now) }
    {
        matches!(self, OwnedRequest::Run(..))
    }
}
