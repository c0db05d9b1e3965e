//! Changes of the phase of an edge.

ghost use Rattle.std.specs.Prelude.{◌≡◌, ◌<◌, false, true, length, slice_set};
ghost use Rattle.plan_schedule.specs.Scheduling.{IsSchedule, IsPlan, edges_of};
ghost use Rattle.plan_schedule.specs.Phases.{is_unsuccessful, has_succeeded, phase_at};

use crate::phase::Phase;
use crate::plan::Plan;
use crate::schedule::Schedule;

impl Schedule {
    /// Changes the phase of an edge that goes on: it begins, comes to Take, takes or releases a job token, asks
    /// a question, or receives a reply.
    pub fn go(&mut self, plan: &Plan, edge: u32, phase: Phase)
        requires plan { IsPlan plan.now }
        requires here { edge < edges_of plan.now }
        requires schedule { IsSchedule plan.now self.old }
        requires well { has_succeeded (phase_at self.old.phases.items edge) ≡ has_succeeded phase }
        requires ill { is_unsuccessful (phase_at self.old.phases.items edge) ≡ is_unsuccessful phase }
        ensures schedule { IsSchedule plan.now self.new }
        ensures phases { self.new.phases.items ≡ slice_set self.old.phases.items edge phase }
    {
        self.enter(plan, edge, phase);
    }

    /// Ends an edge successfully, and decrements the number of unfinished waits of the edges that wait for it.
    pub fn end_successfully(&mut self, plan: &Plan, edge: u32)
        requires plan { IsPlan plan.now }
        requires here { edge < edges_of plan.now }
        requires schedule { IsSchedule plan.now self.old }
        requires well { has_succeeded (phase_at self.old.phases.items edge) ≡ false }
        requires ill { is_unsuccessful (phase_at self.old.phases.items edge) ≡ false }
        ensures schedule { IsSchedule plan.now self.new }
        ensures phases { self.new.phases.items ≡ slice_set self.old.phases.items edge Phase.Succeeded }
    {
        self.enter(plan, edge, Phase::Succeeded);
        let dependents = plan.dependents[edge as usize].as_slice();
        for dependent in dependents {
            self.decrement_unfinished_waits(plan, *dependent);
        }
    }

    /// Ends an edge that failed, was skipped or was stopped, and records this for the edges that wait for it.
    pub fn end_unsuccessfully(&mut self, plan: &Plan, edge: u32, next: Phase)
        requires plan { IsPlan plan.now }
        requires here { edge < edges_of plan.now }
        requires schedule { IsSchedule plan.now self.old }
        requires well { has_succeeded (phase_at self.old.phases.items edge) ≡ false }
        requires ill { is_unsuccessful (phase_at self.old.phases.items edge) ≡ false }
        requires next { is_unsuccessful next ≡ true }
        ensures schedule { IsSchedule plan.now self.new }
        ensures phases { self.new.phases.items ≡ slice_set self.old.phases.items edge next }
    {
        self.enter(plan, edge, next);
        let dependents = plan.dependents[edge as usize].as_slice();
        for dependent in dependents {
            self.note_failed_wait(plan, *dependent, edge);
        }
    }

    /// Changes an edge without an outcome to any phase.
    #[tactic(auto, using(crate::proofs::PhaseLemmas::not_well, crate::proofs::PhaseLemmas::stays))]
    pub fn change(&mut self, plan: &Plan, edge: u32, next: Phase)
        requires plan { IsPlan plan.now }
        requires here { edge < edges_of plan.now }
        requires schedule { IsSchedule plan.now self.old }
        requires well { has_succeeded (phase_at self.old.phases.items edge) ≡ false }
        requires ill { is_unsuccessful (phase_at self.old.phases.items edge) ≡ false }
        ensures schedule { IsSchedule plan.now self.new }
        ensures phases { self.new.phases.items ≡ slice_set self.old.phases.items edge next }
    {
        if self.phases[edge as usize] == next {
            return;
        }
        match next {
            Phase::Succeeded => self.end_successfully(plan, edge),
            _ => {
                if next.is_unsuccessful() {
                    self.end_unsuccessfully(plan, edge, next);
                } else {
                    self.go(plan, edge, next);
                }
            }
        }
    }
}
