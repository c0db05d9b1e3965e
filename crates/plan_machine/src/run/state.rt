//! The state of a running image, with its schedule and its options.

ghost use Rattle.std.specs.Prelude.{◌≡◌, ◌≢◌, ◌<◌, ◌^◌, ◌&&◌, ◌⊎◌, ℕ, Err, IfErr, IfOk, OnErr, Some, count_by, false, length, slice_get, true, ◌≤◌, None, if◌then◌else◌, nat_lt, nat_le};
ghost use Rattle.std.specs.List.{list_all};
ghost use Rattle.plan_image.specs.declared.image.Parts.{Parts};
ghost use Rattle.plan_image.specs.Code.{code};
ghost use Rattle.plan_verify.specs.Members.{is_member};
ghost use Rattle.plan_verify.specs.Tables.{waits_of};
ghost use Rattle.plan_verify.specs.Turn.{Local, Reply as Answer};
ghost use Rattle.plan_machine.specs.Applying.{Applied, CanTurn, is_frugal, is_unbegun, may_step_by, may_stop_by};
ghost use Rattle.plan_machine.specs.Depfile.{depfile};
ghost use Rattle.plan_machine.specs.Hearing.{CanHear};
ghost use Rattle.plan_machine.specs.Kept.{AreKept, IsBehind, IsStateOf, phase_in};
ghost use Rattle.plan_machine.specs.Places.{has_room, holders_from, is_free, is_spent};
ghost use Rattle.plan_machine.specs.Runs.{Opens};
ghost use Rattle.plan_machine.specs.State.{Active, has_ended, has_failed, is_holder, is_unsuccessful, has_succeeded, outcome_at, passes, stands};
ghost use Rattle.plan_machine.specs.Step.{NotEnabled, step};
ghost use Rattle.plan_machine.specs.Total.{total_of};
ghost use Rattle.plan_machine.specs.Wanted.{any_outside};

use crate::edge::turns::{pool, waits};
use crate::event::{Event, Mark, Outcome};
use crate::laws::turn_laws;
use crate::run::machine::Machine;
use crate::run::refused::Refused;
use crate::run::wanted::{any_outside, image_plan, wanted_edges};
use plan_image::Image;
use plan_schedule::{Phase, Plan, Schedule};
use plan_verify::{Verified, codes_are_short};
use std::alloc::Global;
use std::marker::Model;

/// A running image: the options that it was opened with, the status of each edge, the value of each slot, and a
/// schedule of the events that can happen next. With the schedule, no call has to search all edges.
#[derive(Drop)]
pub struct State {
    pub(crate) alloc: Global,
    pub(crate) machine: Machine,
    pub(crate) plan: Plan,
    pub(crate) schedule: Schedule,
    /// The number of wanted edges that have a command.
    pub(crate) total: u64,
}

impl Model for State {
    ghost use Rattle.plan_machine.specs.Hearing.{CanHear};
    ghost use Rattle.plan_machine.specs.Kept.{Running};

    ghost Value = { Running };

    ghost view = { λ s. record { run_state = s.machine; plan = s.plan; schedule = s.schedule; total = s.total } };
}

/// Returns whether an edge is among these.
fn is_among(edge: u32, waits: &[u32]) -> bool
    ensures { result ≡ is_member edge waits.now }
{
    waits.iter().any(|wait| *wait == edge)
}

/// Returns the phase of an edge. Returns None if there is no such edge.
fn phase_at(phases: &[Phase], edge: u32) -> Option<Phase>
    ensures { result ≡ slice_get phases.now edge }
{
    phases.get(edge as usize).copied()
}

impl State {
    /// Creates the opening state. Each edge that the targets need hasn't begun, no other edge is wanted, and no
    /// slot is set. If there are no targets, the image's defaults are used. All memory that the schedule ever
    /// needs is reserved.
    pub fn open(
        alloc: Global,
        image: &Verified,
        options: Options,
        targets: &[u32],
    ) -> Result<State, Refused>
        ensures opens { IfOk result (λ s. Opens image.now targets.now s.run_state.now × (s.run_state.limits ≡ options)) }
        ensures state { IfOk result (λ s. IsStateOf image.now s) }
        ensures inside { IfOk result (λ s. any_outside image.now targets.now ≡ false) }
        ensures refused { IfErr result (λ r. ((r ≡ Refused.Memory) × (any_outside image.now targets.now ≡ false)) ⊎ ((r ≡ Refused.BadTarget) × (any_outside image.now targets.now ≡ true))) }
    {
        let parts = image.image().parts();
        if any_outside(parts, targets) {
            return Err(Refused::BadTarget);
        }
        let wanted = wanted_edges(alloc, parts, targets)?;
        let plan = image_plan(alloc, parts)?;
        let schedule = plan_schedule::open(alloc, &plan, &wanted)?;
        let machine = Machine::open(alloc, options, &wanted, parts.slots.len())?;
        let total = machine.total(parts);
        Ok(State {
            alloc,
            machine,
            plan,
            schedule,
            total,
        })
    }

    /// Returns the outcome of an edge. Returns None if it has none yet.
    pub fn outcome(&self, edge: u32) -> Option<Outcome>
        ensures { result ≡ outcome_at (slice_get self.now.run_state.now.edges edge) }
    {
        self.machine.outcome(edge)
    }

    /// Returns whether each edge has an outcome.
    pub fn ended(&self) -> bool
        ensures { (p : Parts) → IsStateOf p self.now → result ≡ has_ended self.now.run_state.now }
    {
        self.schedule.counts.open_edges == 0
    }

    /// Returns the number of wanted edges that have a command.
    pub fn total(&self) -> u64
        ensures { (p : Parts) → IsStateOf p self.now → result ≡ total_of p self.now.run_state.now }
    {
        self.total
    }

    /// Returns the number of edges that failed.
    fn failures(&self, _image: &Image) -> u32
        requires { AreKept _image.now self.now.run_state.now self.now.plan self.now.schedule }
        ensures { result ≡ count_by has_failed self.now.run_state.now.edges }
    {
        self.schedule.counts.failures
    }

    /// Returns the number of edges that hold a job token.
    fn holders(&self, _image: &Image) -> u32
        requires { AreKept _image.now self.now.run_state.now self.now.plan self.now.schedule }
        ensures { result ≡ count_by is_holder self.now.run_state.now.edges }
    {
        self.schedule.counts.holders
    }

    /// Returns the number of edges of a pool that hold a job token.
    fn holders_of(&self, _image: &Image, pool: u32) -> u32
        requires kept { AreKept _image.now self.now.run_state.now self.now.plan self.now.schedule }
        requires inside { pool < length _image.now.pools }
        ensures { result ≡ holders_from _image.now pool 0 self.now.run_state.now.edges }
    {
        self.schedule.counts.pool_holders[pool as usize + 1]
    }

    /// Returns whether all edges that this one waits for succeeded.
    fn are_waits_well(&self, _image: &Image, edge: u32) -> bool
        requires kept { AreKept _image.now self.now.run_state.now self.now.plan self.now.schedule }
        requires here { edge < length self.now.run_state.now.edges }
        ensures { result ≡ list_all (stands has_succeeded self.now.run_state.now) (waits_of _image.now edge) }
    {
        self.schedule.waiting[edge as usize] == 0
    }

    /// Returns whether the failure limit has been reached.
    fn is_spent(&self, image: &Image) -> bool
        requires { AreKept image.now self.now.run_state.now self.now.plan self.now.schedule }
        ensures { result ≡ is_spent self.now.run_state.limits self.now.run_state.now }
    {
        let keep = self.machine.keep();
        keep > 0 && keep <= self.failures(image)
    }

    /// Returns whether a pool has a free job token.
    fn has_room(&self, image: &Image, pool: Option<u32>) -> bool
        requires { AreKept image.now self.now.run_state.now self.now.plan self.now.schedule }
        ensures { result ≡ has_room image.now self.now.run_state.now pool }
    {
        let Some(number) = pool else {
            return true;
        };
        match image.parts().pools.as_slice().get(number as usize) {
            Some(row) => row.depth == 0 || self.holders_of(image, number) < row.depth,
            None => true,
        }
    }

    /// Returns whether an edge may take a job token.
    fn is_free(&self, image: &Image, edge: u32) -> bool
        requires { AreKept image.now self.now.run_state.now self.now.plan self.now.schedule }
        ensures { result ≡ is_free image.now self.now.run_state.limits self.now.run_state.now edge }
    {
        self.has_room(image, pool(image.parts(), edge))
            && self.holders(image) < self.machine.jobs()
            && !self.is_spent(image)
    }

    /// Returns whether an edge may be started.
    #[tactic(auto, using(crate::proofs::Applies::passes_within))]
    fn can_start(&self, image: &Image, edge: u32) -> bool
        requires { AreKept image.now self.now.run_state.now self.now.plan self.now.schedule }
        ensures { result ≡ (passes is_unbegun (slice_get self.now.run_state.now.edges edge) && list_all (stands has_succeeded self.now.run_state.now) (waits_of image.now edge)) }
    {
        self.machine.is_unbegun(edge) && self.are_waits_well(image, edge)
    }

    /// Returns whether an edge may be skipped because of another one. It searches the waits of the edge.
    fn can_skip(&self, image: &Image, edge: u32, wait: u32) -> bool
        ensures { result ≡ (passes is_unbegun (slice_get self.now.run_state.now.edges edge) && (is_member wait (waits_of image.now edge) && stands is_unsuccessful self.now.run_state.now wait)) }
    {
        self.machine.is_unbegun(edge)
            && (is_among(wait, waits(image.parts(), edge)) && self.machine.is_unsuccessful(wait))
    }

    /// Returns whether an edge may be stopped.
    fn can_stop(&self, image: &Image, edge: u32) -> bool
        requires { AreKept image.now self.now.run_state.now self.now.plan self.now.schedule }
        ensures { result ≡ (is_spent self.now.run_state.limits self.now.run_state.now && may_stop_by image.now edge (slice_get self.now.run_state.now.edges edge)) }
    {
        self.is_spent(image) && self.machine.is_before_run(image, edge)
    }

    /// Returns the phase of an edge that the schedule has.
    pub(crate) fn phase(&self, _image: &Image, edge: u32) -> Phase
        requires { AreKept _image.now self.now.run_state.now self.now.plan self.now.schedule }
        ensures { result ≡ phase_in _image.now edge (slice_get self.now.run_state.now.edges edge) }
    {
        match phase_at(&self.schedule.phases, edge) {
            Some(phase) => phase,
            None => Phase::NotWanted,
        }
    }

    /// Returns whether an edge may make a step.
    pub(crate) fn can_step(&self, image: &Image, edge: u32) -> bool
        requires { AreKept image.now self.now.run_state.now self.now.plan self.now.schedule }
        ensures { result ≡ may_step_by image.now self.now.run_state.limits self.now.run_state.now edge (slice_get self.now.run_state.now.edges edge) }
    {
        match self.phase(image, edge) {
            Phase::Runnable(_) => true,
            Phase::AtTake(_) => self.is_free(image, edge),
            _ => false,
        }
    }

    /// Applies an event to the edges and slots, but not to the schedule.
    pub(crate) fn change(&mut self, image: &Image, event: Event) -> Result<Mark, Refused>
        requires short { (e : ℕ) → length (code image.now e) < 2 ^ 32 }
        requires kept { AreKept image.now self.old.run_state.now self.old.plan self.old.schedule }
        requires turns { (e : ℕ) (l : Local) → slice_get self.old.run_state.now.edges e ≡ Some (Active l) → CanTurn image.now self.old.run_state.now.slots e l }
        requires hears { (e : ℕ) (r : Answer) (l : Local) → slice_get self.old.run_state.now.edges e ≡ Some (Active l) → CanHear image.now e r l }
        ensures applied { Applied image.now self.old.run_state event result self.new.run_state }
        ensures plan { self.new.plan ≡ self.old.plan }
        ensures schedule { self.new.schedule ≡ self.old.schedule }
        ensures total { self.new.total ≡ self.old.total }
        ensures frugal { is_frugal event ≡ true → result ≢ Err Refused.Memory }
        ensures memory { result ≡ Err Refused.Memory → step depfile image.now self.old.run_state.limits self.old.run_state.now event ≢ NotEnabled }
    {
        match event {
            Event::Start(edge) => {
                let may = self.can_start(image, edge);
                self.machine.start(image, edge, may)
            }
            Event::Skip(edge, wait) => {
                let may = self.can_skip(image, edge, wait);
                self.machine.skip(image, edge, wait, may)
            }
            Event::Stop(edge) => {
                let may = self.can_stop(image, edge);
                self.machine.stop(image, edge, may)
            }
            Event::Step(edge) => {
                let may = self.can_step(image, edge);
                self.machine.step(self.alloc, image, edge, may)
            }
            Event::Reply(edge, reply) => self.machine.hear(self.alloc, image, edge, reply),
        }
    }

    /// Updates the schedule to the present status of an edge, and returns its phase.
    fn reschedule(&mut self, image: &Image, edge: u32) -> Phase
        requires { IsBehind image.now self.old edge }
        ensures run_state { self.new.run_state ≡ self.old.run_state }
        ensures total { self.new.total ≡ self.old.total }
        ensures kept { AreKept image.now self.new.run_state.now self.new.plan self.new.schedule }
    {
        let phase = self.machine.phase(image, edge);
        self.schedule.change(&self.plan, edge, phase);
        phase
    }

    /// Frees the stack of an edge that waits for a job token and has no values.
    fn rest(&mut self, edge: u32, phase: Phase)
        ensures { self.new ≡ self.old }
    {
        if matches!(phase, Phase::AtTake(_)) {
            self.machine.rest(edge);
        }
    }

    /// Updates the schedule to the present status of an edge, and frees its stack if it waits for a job token.
    pub(crate) fn note(&mut self, image: &Image, edge: u32)
        requires { IsBehind image.now self.old edge }
        ensures run_state { self.new.run_state ≡ self.old.run_state }
        ensures total { self.new.total ≡ self.old.total }
        ensures kept { AreKept image.now self.new.run_state.now self.new.plan self.new.schedule }
    {
        let phase = self.reschedule(image, edge);
        self.rest(edge, phase);
    }

    /// Applies an event, as the table of events defines it, and returns its mark. It reads no other edges than
    /// those that wait for an edge which ends, and the waits of an edge that is skipped.
    ///
    /// # Errors
    ///
    /// - `NotEnabled` if and only if the table doesn't enable the event.
    /// - `Memory` if memory runs out. The event is enabled then. Skips and stops take no memory.
    ///
    /// After an error nothing has changed.
    #[tactic(auto, using(crate::proofs::RefusalLemmas::refused_so))]
    pub fn apply(&mut self, image: &Verified, event: Event) -> Result<Mark, Refused>
        requires { IsStateOf image.now self.old }
        ensures applied { Applied image.now self.old.run_state event result self.new.run_state }
        ensures same { OnErr result (self.new ≡ self.old) }
        ensures frugal { is_frugal event ≡ true → result ≢ Err Refused.Memory }
        ensures refused { step depfile image.now self.old.run_state.limits self.old.run_state.now event ≡ NotEnabled → result ≡ Err Refused.NotEnabled }
        ensures state { IsStateOf image.now self.new }
    {
        turn_laws();
        codes_are_short();
        let tables = image.image();
        let _parts = tables.parts();
        let edge = event.edge();
        let mark = self.change(tables, event)?;
        self.note(tables, edge);
        Ok(mark)
    }
}

/// The most edges that may hold a job token at once (1 to 1,024), and the failure limit (0 means no limit).
#[derive(Clone, Copy)]
pub struct Options {
    jobs: u16,
    keep: u32,
}

impl Model for Options {
    ghost use Rattle.plan_machine.specs.Limits.{Limits};
    ghost use Rattle.std.specs.Prelude.{◌<◌, ◌≤◌};

    ghost Value = { Limits };

    ghost view = { λ o. record { jobs = o.jobs; keep = o.keep } };

    ghost inverse = { λ l. record { jobs = l.jobs; keep = l.keep } };

    ghost invariant = { λ o. (0 < o.jobs) × (o.jobs ≤ 1024) };
}

impl Options {
    /// Creates options. Returns None if `jobs` isn't 1 to 1,024. This limit is the project's own choice.
    pub fn new(jobs: u16, keep: u32) -> Option<Options>
        ensures { result ≡ (if nat_lt 0 jobs && nat_le jobs 1024 then Some (record { jobs = jobs; keep = keep }) else None) }
    {
        if jobs > 0 && jobs <= 1024 {
            Some(Options { jobs, keep })
        } else {
            None
        }
    }

    /// Returns the most edges that may hold a job token at once.
    pub fn jobs(&self) -> u16
        ensures same { result ≡ self.now.jobs }
        ensures some { 0 < result }
        ensures few { result ≤ 1024 }
    {
        self.jobs
    }

    /// Returns the failure limit. 0 means no limit.
    pub fn keep(&self) -> u32
        ensures { result ≡ self.now.keep }
    {
        self.keep
    }
}
