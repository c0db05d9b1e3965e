//! The statuses of edges and the values of slots, without the schedule.

ghost use Rattle.std.specs.Prelude.{◌≡◌, ◌≢◌, ◌<◌, ◌^◌, ◌&&◌, Err, IfOk, IfSome, IsSome, None, Ok, OnErr, Option, Some, length, map, option_map, replicate, slice_get, ◌≤◌, ℕ};
ghost use Rattle.std.specs.List.{list_all};
ghost use Rattle.plan_image.specs.Code.{code};
ghost use Rattle.plan_verify.specs.Members.{is_member};
ghost use Rattle.plan_verify.specs.Tables.{waits_of};
ghost use Rattle.plan_verify.specs.Turn.{Local, heard, turn};
ghost use Rattle.plan_verify.specs.declared.value.Value.{Value as Item};
ghost use Rattle.plan_machine.specs.declared.event.Event.TheVariants.{Reply as Hear, Skip, Start, Step, Stop};
ghost use Rattle.plan_machine.specs.declared.edge.turns.Turned.TheVariants as turned;
ghost use Rattle.plan_machine.specs.Applying.{Applied, CanTurn, HasTurned, Settles, is_active, is_unbegun, may_step_by, may_stop_by};
ghost use Rattle.plan_machine.specs.Hearing.{CanHear, HasHeard, SettlesReply};
ghost use Rattle.plan_machine.specs.Kept.{phase_in};
ghost use Rattle.plan_machine.specs.Places.{is_spent};
ghost use Rattle.plan_machine.specs.Requests.{asked_at, shown, step_asks};
ghost use Rattle.plan_machine.specs.Runs.{at_first, Runs};
ghost use Rattle.plan_machine.specs.State.{Active, is_unsuccessful, has_succeeded, outcome_at, passes, stands, with_status, State as Stands};
ghost use Rattle.plan_machine.specs.Depfile.{depfile};
ghost use Rattle.plan_machine.specs.Step.{NotEnabled, answer_of, step};
ghost use Rattle.plan_machine.specs.Total.{is_wanted, total_of};
ghost use Rattle.plan_machine.specs.Working.{Works};
ghost use Rattle.plan_machine.specs.Replaying.{RunsTo};
ghost use Rattle.plan_machine.specs.LocalRuns.{CanStepLocally, HasRunLocallyOn, moves_of, local_run_events, local_run_marks, steps_of};

use crate::edge::stack::{Slot, Stack};
use crate::edge::status::Status;
use crate::edge::turns::{Heard, Turned, edge_count, has_command};
use crate::event::reply::Reply;
use crate::event::{Mark, Outcome, Request};
use crate::run::local_runs::LocalRun;
use crate::run::refused::Refused;
use crate::run::state::Options;
use plan_image::{CodeView, Image, Parts};
use plan_schedule::Phase;
use std::alloc::{AllocError, Global};
use std::marker::Model;
use std::mem::replace;

/// The most stacks that are kept for other edges.
const MOST_SPARE: usize = 256;

/// A running image: the options that it was opened with, the status of each edge, and the value of each slot.
#[derive(Drop)]
pub(crate) struct Machine {
    pub(crate) options: Options,
    pub(crate) edges: Vec<Status>,
    pub(crate) slots: Vec<Slot>,
    /// Stacks of edges that have ended, for edges that begin.
    spare: Vec<Stack>,
}

impl Model for Machine {
    ghost use Rattle.plan_machine.specs.RunState.{RunState};

    ghost Value = { RunState };

    ghost view = { λ s. record { limits = s.options; now = record { edges = s.edges.items; slots = s.slots.items } } };
}

/// Returns the status of each edge at the start.
fn first_statuses(alloc: Global, wanted: &[bool]) -> Result<Vec<Status>, AllocError>
    ensures { IfOk result (λ edges. edges.items ≡ map at_first wanted.now) }
{
    let mut edges = Vec::with_capacity(alloc, wanted.len())?;
    for is_wanted in wanted {
        edges.push(Status::at_first(*is_wanted))?;
    }
    Ok(edges)
}

/// Returns a list of slots that aren't set.
fn unset_slots(alloc: Global, len: usize) -> Result<Vec<Slot>, AllocError>
    ensures { IfOk result (λ slots. slots.items ≡ replicate {A = Option Item} len None) }
{
    let mut slots = Vec::with_capacity(alloc, len)?;
    for _i in 0..len {
        slots.push(Slot::unset())?;
    }
    Ok(slots)
}

impl Machine {
    /// Creates the machine before any event, with these edges wanted and this number of slots.
    pub(crate) fn open(
        alloc: Global,
        options: Options,
        wanted: &[bool],
        slots: usize,
    ) -> Result<Machine, AllocError>
        ensures { IfOk result (λ m. m ≡ record { limits = options; now = record { edges = map at_first wanted.now; slots = replicate {A = Option Item} slots None } }) }
    {
        Ok(Machine {
            options,
            edges: first_statuses(alloc, wanted)?,
            slots: unset_slots(alloc, slots)?,
            spare: Vec::new(alloc),
        })
    }

    /// Returns the most edges that may hold a job token at once.
    pub(crate) fn jobs(&self) -> u32
        ensures same { result ≡ self.now.limits.jobs }
        ensures some { 0 < result }
    {
        self.options.jobs() as u32
    }

    /// Returns the failure limit: the number of failures after which no more edges begin. 0 means no limit.
    pub(crate) fn keep(&self) -> u32
        ensures { result ≡ self.now.limits.keep }
    {
        self.options.keep()
    }

    /// Returns whether an edge hasn't begun.
    pub(crate) fn is_unbegun(&self, edge: u32) -> bool
        ensures { result ≡ passes is_unbegun (slice_get self.now.now.edges edge) }
    {
        match self.edges.as_slice().get(edge as usize) {
            Some(status) => status.is_unbegun(),
            None => false,
        }
    }

    /// Returns whether an edge failed, was skipped or was stopped.
    pub(crate) fn is_unsuccessful(&self, edge: u32) -> bool
        ensures { result ≡ stands is_unsuccessful self.now.now edge }
    {
        match self.edges.as_slice().get(edge as usize) {
            Some(status) => status.is_unsuccessful(),
            None => false,
        }
    }

    /// Returns whether an edge may be stopped when the failure limit has been reached.
    pub(crate) fn is_before_run(&self, image: &Image, edge: u32) -> bool
        ensures { result ≡ may_stop_by image.now edge (slice_get self.now.now.edges edge) }
    {
        match self.edges.as_slice().get(edge as usize) {
            Some(status) => status.is_before_run(image, edge),
            None => false,
        }
    }

    /// Returns the phase of an edge, which the schedule stores.
    pub(crate) fn phase(&self, image: &Image, edge: u32) -> Phase
        ensures { result ≡ phase_in image.now edge (slice_get self.now.now.edges edge) }
    {
        match self.edges.as_slice().get(edge as usize) {
            Some(status) => status.phase(image, edge),
            None => Phase::NotWanted,
        }
    }

    /// Returns whether a target needs an edge.
    fn is_wanted(&self, edge: u32) -> bool
        ensures { result ≡ stands is_wanted self.now.now edge }
    {
        match self.edges.as_slice().get(edge as usize) {
            Some(status) => status.is_wanted(),
            None => false,
        }
    }

    /// Returns the number of wanted edges that have a command.
    pub(crate) fn total(&self, parts: &Parts) -> u64
        requires { length parts.now.edges < 2 ^ 32 }
        ensures { result ≡ total_of parts.now self.now.now }
    {
        let mut total = 0u64;
        for edge in 0..edge_count(parts) as u32 {
            if has_command(parts, edge) & self.is_wanted(edge) {
                total += 1;
            }
        }
        total
    }

    /// Returns the outcome of an edge. Returns None if it has none yet.
    pub(crate) fn outcome(&self, edge: u32) -> Option<Outcome>
        ensures { result ≡ outcome_at (slice_get self.now.now.edges edge) }
    {
        match self.edges.as_slice().get(edge as usize) {
            Some(status) => status.outcome(),
            None => None,
        }
    }

    /// Returns the question of an edge that awaits a reply. Returns None for other edges.
    pub(crate) fn awaited_request<'a>(&'a self, image: &'a Image, edge: u32) -> Option<Request<'a>>
        requires { (l : Local) → slice_get self.now.now.edges edge ≡ Some (Active l) → Works (turn image.now edge self.now.now.slots l) }
        ensures { option_map shown result ≡ asked_at image.now self.now.now edge }
    {
        match self.edges.as_slice().get(edge as usize) {
            Some(status) => status.awaited_request(image, edge, &self.slots),
            None => None,
        }
    }

    /// Returns the question of an edge's next step. Returns None if it asks nothing.
    pub(crate) fn step_request<'a>(&'a self, image: &'a Image, edge: u32) -> Option<Request<'a>>
        requires { (l : Local) → slice_get self.now.now.edges edge ≡ Some (Active l) → Works (turn image.now edge self.now.now.slots l) }
        ensures { option_map shown result ≡ step_asks image.now edge self.now.now.slots (slice_get self.now.now.edges edge) }
    {
        match self.edges.as_slice().get(edge as usize) {
            Some(status) => status.step_request(image, edge, &self.slots),
            None => None,
        }
    }

    /// Sets the status of an edge. If the edge had a stack, keeps it for another edge, unless enough are kept.
    fn put(&mut self, edge: u32, status: Status)
        requires { edge < length self.old.now.edges }
        ensures { self.new ≡ record { limits = self.old.limits; now = with_status self.old.now edge status } }
    {
        let before = replace(&mut self.edges[edge as usize], status);
        if let Some(stack) = before.into_stack() {
            if self.spare.len() < MOST_SPARE {
                let _ = self.spare.push(stack);
            }
        }
    }

    /// Starts an edge if `may` is true.
    #[tactic(auto, using(crate::proofs::Applies::start_is, crate::proofs::Applies::start_not, crate::proofs::Applies::start_within, crate::proofs::RefusalLemmas::start_can))]
    pub(crate) fn start(&mut self, _image: &Image, edge: u32, may: bool) -> Result<Mark, Refused>
        requires { may ≡ (passes is_unbegun (slice_get self.old.now.edges edge) && list_all (stands has_succeeded self.old.now) (waits_of _image.now edge)) }
        ensures applied { Applied _image.now self.old (Start edge) result self.new }
        ensures frugal { result ≢ Err Refused.Memory }
        ensures memory { result ≡ Err Refused.Memory → step depfile _image.now self.old.limits self.old.now (Start edge) ≢ NotEnabled }
    {
        if !may {
            return Err(Refused::NotEnabled);
        }
        self.put(edge, Status::active());
        Ok(Mark::Started(edge))
    }

    /// Skips an edge if `may` is true.
    #[tactic(auto, using(crate::proofs::Applies::skip_is, crate::proofs::Applies::skip_not, crate::proofs::Applies::skip_within))]
    pub(crate) fn skip(
        &mut self,
        _image: &Image,
        edge: u32,
        wait: u32,
        may: bool,
    ) -> Result<Mark, Refused>
        requires { may ≡ (passes is_unbegun (slice_get self.old.now.edges edge) && (is_member wait (waits_of _image.now edge) && stands is_unsuccessful self.old.now wait)) }
        ensures applied { Applied _image.now self.old (Skip edge wait) result self.new }
        ensures frugal { result ≢ Err Refused.Memory }
    {
        if !may {
            return Err(Refused::NotEnabled);
        }
        self.put(edge, Status::with_outcome(Outcome::Skipped(wait)));
        Ok(Mark::Skipped(edge, wait))
    }

    /// Stops an edge if `may` is true.
    #[tactic(auto, using(crate::proofs::Applies::stop_is, crate::proofs::Applies::stop_not, crate::proofs::Applies::stop_within))]
    pub(crate) fn stop(&mut self, _image: &Image, edge: u32, may: bool) -> Result<Mark, Refused>
        requires { may ≡ (is_spent self.old.limits self.old.now && may_stop_by _image.now edge (slice_get self.old.now.edges edge)) }
        ensures applied { Applied _image.now self.old (Stop edge) result self.new }
        ensures frugal { result ≢ Err Refused.Memory }
    {
        if !may {
            return Err(Refused::NotEnabled);
        }
        self.put(edge, Status::with_outcome(Outcome::Stopped));
        Ok(Mark::Stopped(edge))
    }

    /// Frees the stack of an edge that awaits no reply and has no values.
    pub(crate) fn rest(&mut self, edge: u32)
        ensures { self.new ≡ self.old }
    {
        if (edge as usize) < self.edges.len() {
            self.edges[edge as usize].rest();
        }
    }

    /// Makes one turn of a running edge.
    fn make_turn(&mut self, alloc: Global, image: &Image, edge: u32) -> Result<Turned, AllocError>
        requires short { length (code image.now edge) < 2 ^ 32 }
        requires active { (l : Local) × (slice_get self.old.now.edges edge ≡ Some (Active l)) × CanTurn image.now self.old.now.slots edge l }
        ensures ok { IfOk result (λ r. HasTurned image.now self.old edge r self.new) }
        ensures err { OnErr result (self.new ≡ self.old) }
    {
        let status = &mut self.edges[edge as usize];
        status.step(alloc, image, edge, &mut self.slots)
    }

    /// Returns whether the command of a running edge has run.
    fn has_run(&self, edge: u32) -> bool
        ensures { (l : Local) → slice_get self.now.now.edges edge ≡ Some (Active l) → result ≡ l.ran }
    {
        match self.edges.as_slice().get(edge as usize) {
            Some(status) => status.has_run(),
            None => false,
        }
    }

    /// Ends an edge successfully.
    fn finish(&mut self, edge: u32) -> Mark
        requires { edge < length self.old.now.edges }
        ensures { Settles self.old edge turned.Ended result self.new }
    {
        let ran = self.has_run(edge);
        let outcome = if ran { Outcome::Ran } else { Outcome::Clean };
        self.put(edge, Status::with_outcome(outcome));
        Mark::Ended(edge, ran)
    }

    /// Updates the status of an edge after a turn, and returns the mark.
    fn settle(&mut self, edge: u32, turned: Turned) -> Mark
        requires { edge < length self.old.now.edges }
        ensures { Settles self.old edge turned result self.new }
    {
        match turned {
            Turned::Moved | Turned::Stored => Mark::Moved(edge),
            Turned::Took => Mark::Took(edge),
            Turned::Released => Mark::Released(edge),
            Turned::Asked => Mark::Asked(edge),
            Turned::Ended => self.finish(edge),
            Turned::Failed(cause) => {
                self.put(edge, Status::with_outcome(Outcome::Failed(cause)));
                Mark::Failed(edge, cause)
            }
        }
    }

    /// Makes one step of an edge if `may` is true.
    #[tactic(auto, using(crate::proofs::Applies::step_is, crate::proofs::Applies::step_not, crate::proofs::Applies::step_active, crate::proofs::Applies::settle_within, crate::proofs::RefusalLemmas::step_can))]
    pub(crate) fn step(
        &mut self,
        alloc: Global,
        image: &Image,
        edge: u32,
        may: bool,
    ) -> Result<Mark, Refused>
        requires short { length (code image.now edge) < 2 ^ 32 }
        requires may { may ≡ may_step_by image.now self.old.limits self.old.now edge (slice_get self.old.now.edges edge) }
        requires turns { (l : Local) → slice_get self.old.now.edges edge ≡ Some (Active l) → CanTurn image.now self.old.now.slots edge l }
        ensures applied { Applied image.now self.old (Step edge) result self.new }
        ensures memory { result ≡ Err Refused.Memory → step depfile image.now self.old.limits self.old.now (Step edge) ≢ NotEnabled }
    {
        if !may {
            return Err(Refused::NotEnabled);
        }
        let turned = self.make_turn(alloc, image, edge)?;
        Ok(self.settle(edge, turned))
    }

    /// Returns whether an edge has begun and not ended.
    pub(crate) fn is_under_way(&self, edge: u32) -> bool
        ensures { result ≡ passes is_active (slice_get self.now.now.edges edge) }
    {
        match self.edges.as_slice().get(edge as usize) {
            Some(status) => status.is_active(),
            None => false,
        }
    }

    /// Passes a reply to a running edge.
    fn make_answer(
        &mut self,
        alloc: Global,
        image: &Image,
        edge: u32,
        reply: Reply,
    ) -> Result<Heard, AllocError>
        requires short { length (code image.now edge) < 2 ^ 32 }
        requires active { (l : Local) × (slice_get self.old.now.edges edge ≡ Some (Active l)) × CanHear image.now edge (answer_of reply) l }
        ensures ok { IfOk result (λ r. HasHeard image.now self.old edge (answer_of reply) r self.new) }
        ensures fits { OnErr result ((l : Local) → slice_get self.old.now.edges edge ≡ Some (Active l) → IsSome (heard depfile image.now edge l (answer_of reply))) }
        ensures err { OnErr result (self.new ≡ self.old) }
    {
        let status = &mut self.edges[edge as usize];
        status.hear(alloc, image, edge, reply)
    }

    /// Updates the status of an edge after a reply, and returns the mark. Returns an error if the reply doesn't
    /// match the question.
    fn settle_reply(&mut self, edge: u32, heard: Heard) -> Result<Mark, Refused>
        requires { edge < length self.old.now.edges }
        ensures { SettlesReply self.old edge heard result self.new }
    {
        match heard {
            Heard::On => Ok(Mark::Answered(edge)),
            Heard::Failed(cause) => {
                self.put(edge, Status::with_outcome(Outcome::Failed(cause)));
                Ok(Mark::Failed(edge, cause))
            }
            Heard::Unfit => Err(Refused::NotEnabled),
        }
    }

    /// Gives a reply to an edge.
    #[tactic(auto, using(crate::proofs::HearingLemmas::hear_not, crate::proofs::HearingLemmas::hear_active, crate::proofs::HearingLemmas::reply_within))]
    pub(crate) fn hear(
        &mut self,
        alloc: Global,
        image: &Image,
        edge: u32,
        reply: Reply,
    ) -> Result<Mark, Refused>
        requires short { length (code image.now edge) < 2 ^ 32 }
        requires hears { (l : Local) → slice_get self.old.now.edges edge ≡ Some (Active l) → CanHear image.now edge (answer_of reply) l }
        ensures applied { Applied image.now self.old (Hear edge reply) result self.new }
        ensures memory { result ≡ Err Refused.Memory → step depfile image.now self.old.limits self.old.now (Hear edge reply) ≢ NotEnabled }
    {
        if !self.is_under_way(edge) {
            return Err(Refused::NotEnabled);
        }
        let heard = self.make_answer(alloc, image, edge, reply)?;
        self.settle_reply(edge, heard)
    }
}

impl Machine {
    /// Makes local steps of an edge that has begun and not ended.
    fn make_local_steps(
        &mut self,
        alloc: Global,
        image: &Image,
        edge: u32,
        view: &CodeView<'_>,
    ) -> LocalRun
        requires short { length (code image.now edge) < 2 ^ 32 }
        requires view { view.now ≡ code image.now edge }
        requires active { (l : Local) × (slice_get self.old.now.edges edge ≡ Some (Active l)) × CanStepLocally image.now edge l self.old.now.slots }
        ensures ran_locally { HasRunLocallyOn image.now self.old edge result self.new }
        ensures most { result.steps ≤ 64 }
    {
        let status = &mut self.edges[edge as usize];
        status.local_step_on(alloc, image, edge, view, &mut self.slots, &mut self.spare)
    }

    /// Makes local steps of an edge, up to one that asks. Such steps depend on no other edge.
    pub(crate) fn run_local_steps(&mut self, alloc: Global, image: &Image, edge: u32) -> LocalRun
        requires short { length (code image.now edge) < 2 ^ 32 }
        requires turns { (n : ℕ) (s : Stands) → Runs depfile image.now self.old.limits self.old.now (steps_of edge n) (moves_of edge n) s → (l : Local) → slice_get s.edges edge ≡ Some (Active l) → CanTurn image.now s.slots edge l }
        ensures runs { RunsTo image.now self.old (local_run_events edge result) (local_run_marks edge result) self.new }
        ensures most { result.steps ≤ 64 }
    {
        if !self.is_under_way(edge) {
            return LocalRun {
                steps: 0,
                asked: false,
            };
        }
        let view = image.edge_code(edge);
        self.make_local_steps(alloc, image, edge, &view)
    }
}
