//! Local runs: consecutive steps of one edge, after which the schedule is updated once.

ghost use Rattle.std.specs.Prelude.{◌≡◌, ◌≢◌, ◌<◌, ◌≤◌, ◌+◌, ◌∷◌, ◌^◌, ℕ, Err, IfErr, IfOk, OnErr, Some, length, slice_get};
ghost use Rattle.plan_image.specs.Code.{code};
ghost use Rattle.plan_verify.specs.Turn.{Local};
ghost use Rattle.plan_machine.specs.declared.event.Event.TheVariants.{Reply as Hear};
ghost use Rattle.plan_machine.specs.Applying.{CanTurn};
ghost use Rattle.plan_machine.specs.Depfile.{depfile};
ghost use Rattle.plan_machine.specs.Kept.{IsStateOf};
ghost use Rattle.plan_machine.specs.Replaying.{RunsTo};
ghost use Rattle.plan_machine.specs.Runs.{Runs};
ghost use Rattle.plan_machine.specs.LocalRuns.{is_still, moves_of, local_run_events, local_run_marks, steps_of};
ghost use Rattle.plan_machine.specs.State.{Active, State as Stands};
ghost use Rattle.plan_machine.specs.Step.{NotEnabled, step};

use crate::event::reply::Reply;
use crate::event::{Event, Mark};
use crate::laws::turn_laws;
use crate::run::refused::Refused;
use crate::run::state::State;
use plan_image::Image;
use plan_verify::{Verified, codes_are_short};

impl LocalRun {
    /// Returns whether no step was made.
    pub fn is_still(self) -> bool
        ensures { result ≡ is_still self }
    {
        self.steps == 0 && !self.asked
    }

    /// Returns the number of steps that were made.
    pub fn count(self) -> u32
        requires { self.steps ≤ 64 }
        ensures steps { (e : ℕ) → local_run_events e self ≡ steps_of e result }
        ensures count { result ≤ self.steps + 1 }
    {
        if self.asked {
            return self.steps + 1;
        }
        self.steps
    }
}

impl State {
    /// Makes local steps of an edge, up to one that asks. The schedule isn't updated.
    fn run_local_steps(&mut self, image: &Image, edge: u32) -> LocalRun
        requires short { length (code image.now edge) < 2 ^ 32 }
        requires turns { (n : ℕ) (s : Stands) → Runs depfile image.now self.old.run_state.limits self.old.run_state.now (steps_of edge n) (moves_of edge n) s → (l : Local) → slice_get s.edges edge ≡ Some (Active l) → CanTurn image.now s.slots edge l }
        ensures runs { RunsTo image.now self.old.run_state (local_run_events edge result) (local_run_marks edge result) self.new.run_state }
        ensures most { result.steps ≤ 64 }
        ensures plan { self.new.plan ≡ self.old.plan }
        ensures schedule { self.new.schedule ≡ self.old.schedule }
        ensures total { self.new.total ≡ self.old.total }
    {
        self.machine.run_local_steps(self.alloc, image, edge)
    }

    /// Makes consecutive steps of an edge without a reply, up to one that asks, and applies these events at
    /// once. The schedule is updated after the last. At most 64 steps are made, not counting the one that asks.
    /// The local run stops before a step that depends on another edge, takes or releases a job token, joins
    /// texts, asks to run a command, or can't get memory. `apply` makes such a step, or returns the reason why
    /// it can't.
    pub fn run_locally(&mut self, image: &Verified, edge: u32) -> LocalRun
        requires { IsStateOf image.now self.old }
        ensures runs { RunsTo image.now self.old.run_state (local_run_events edge result) (local_run_marks edge result) self.new.run_state }
        ensures most { result.steps ≤ 64 }
        ensures state { IsStateOf image.now self.new }
    {
        turn_laws();
        codes_are_short();
        let tables = image.image();
        let _parts = tables.parts();
        let local_run = self.run_local_steps(tables, edge);
        if local_run.is_still() {
            return local_run;
        }
        self.note(tables, edge);
        local_run
    }

    /// Gives a reply to an edge, and then makes a local run of it.
    ///
    /// # Errors
    ///
    /// The same as `apply` of the reply. Nothing changed then.
    pub fn follow(
        &mut self,
        image: &Verified,
        edge: u32,
        reply: Reply,
    ) -> Result<(Mark, LocalRun), Refused>
        requires { IsStateOf image.now self.old }
        ensures runs { IfOk result (λ x. RunsTo image.now self.old.run_state (Hear edge reply ∷ local_run_events edge x.1) (x.0 ∷ local_run_marks edge x.1) self.new.run_state) }
        ensures most { IfOk result (λ x. x.1.steps ≤ 64) }
        ensures same { OnErr result (self.new ≡ self.old) }
        ensures enabled { IfErr result (λ r. r ≡ Refused.NotEnabled → step depfile image.now self.old.run_state.limits self.old.run_state.now (Hear edge reply) ≡ NotEnabled) }
        ensures inside { IfErr result (λ r. r ≢ Refused.BadTarget) }
        ensures refused { step depfile image.now self.old.run_state.limits self.old.run_state.now (Hear edge reply) ≡ NotEnabled → result ≡ Err Refused.NotEnabled }
        ensures state { IsStateOf image.now self.new }
    {
        turn_laws();
        codes_are_short();
        let tables = image.image();
        let _parts = tables.parts();
        let mark = self.change(tables, Event::Reply(edge, reply))?;
        let local_run = self.run_local_steps(tables, edge);
        self.note(tables, edge);
        Ok((mark, local_run))
    }
}

/// The length of a local run of an edge: the number of steps that asked nothing, and whether one more step
/// asked.
#[derive(Clone, Copy, PartialEq, Eq)]
pub struct LocalRun {
    pub steps: u32,
    pub asked: bool,
}
