//! Changes the phase of an edge, with its counts and buckets.

ghost use Rattle.std.specs.Prelude.{◌≡◌, ◌<◌, ◌-◌, ℕ, Some, length, slice_index, slice_set};
ghost use Rattle.plan_schedule.specs.Scheduling.{IsKept, IsPlan, edges_of};
ghost use Rattle.plan_schedule.specs.Phases.{AreAlike, phase_at};

use crate::bucket_rules::{move_edge, move_pool};
use crate::phase::Phase;
use crate::plan::Plan;
use crate::schedule::Schedule;

impl Schedule {
    /// Changes the phase of an edge to one that is counted in the same way. The counts and the bucket of its
    /// pool stay the same.
    fn change_uncounted(&mut self, plan: &Plan, edge: u32, next: Phase)
        requires plan { IsPlan plan.now }
        requires here { edge < edges_of plan.now }
        requires kept { IsKept plan.now self.old }
        requires alike { AreAlike (phase_at self.old.phases.items edge) next }
        ensures kept { IsKept plan.now self.new }
        ensures phases { self.new.phases.items ≡ slice_set self.old.phases.items edge next }
        ensures waiting { self.new.waiting.items ≡ self.old.waiting.items }
        ensures failed_wait { self.new.failed_wait.items ≡ self.old.failed_wait.items }
    {
        let pool_count = plan.depths.len();
        self.phases[edge as usize] = next;
        move_edge(
            &mut self.buckets,
            &plan.pools,
            &self.phases,
            &self.waiting,
            &self.failed_wait,
            pool_count,
            edge,
        );
    }

    /// Changes the phase of an edge to any other one, and updates the counts and the bucket of its pool.
    fn recount(&mut self, plan: &Plan, edge: u32, next: Phase)
        requires plan { IsPlan plan.now }
        requires here { edge < edges_of plan.now }
        requires kept { IsKept plan.now self.old }
        ensures kept { IsKept plan.now self.new }
        ensures phases { self.new.phases.items ≡ slice_set self.old.phases.items edge next }
        ensures waiting { self.new.waiting.items ≡ self.old.waiting.items }
        ensures failed_wait { self.new.failed_wait.items ≡ self.old.failed_wait.items }
    {
        let pool = plan.pools[edge as usize];
        let pool_count = plan.depths.len();
        self.counts.change(&plan.pools, &self.phases, edge, next);
        self.phases[edge as usize] = next;
        move_edge(
            &mut self.buckets,
            &plan.pools,
            &self.phases,
            &self.waiting,
            &self.failed_wait,
            pool_count,
            edge,
        );
        move_pool(
            &mut self.pool_buckets,
            &self.buckets,
            &self.counts.pool_holders,
            &plan.depths,
            pool,
        );
        self.ready.update(pool, edge, &self.phases);
    }

    /// Changes the phase of an edge, but does not update the edges that wait for it.
    pub(crate) fn enter(&mut self, plan: &Plan, edge: u32, next: Phase)
        requires plan { IsPlan plan.now }
        requires here { edge < edges_of plan.now }
        requires kept { IsKept plan.now self.old }
        ensures kept { IsKept plan.now self.new }
        ensures phases { self.new.phases.items ≡ slice_set self.old.phases.items edge next }
        ensures waiting { self.new.waiting.items ≡ self.old.waiting.items }
        ensures failed_wait { self.new.failed_wait.items ≡ self.old.failed_wait.items }
    {
        if self.phases[edge as usize].is_uncounted_change(next) {
            self.change_uncounted(plan, edge, next);
        } else {
            self.recount(plan, edge, next);
        }
    }

    /// Decrements the number of unfinished waits of `dependent`.
    pub(crate) fn decrement_unfinished_waits(&mut self, plan: &Plan, dependent: u32)
        requires plan { IsPlan plan.now }
        requires here { dependent < edges_of plan.now }
        requires kept { IsKept plan.now self.old }
        requires some { 0 < slice_index self.old.waiting.items dependent }
        ensures kept { IsKept plan.now self.new }
        ensures phases { self.new.phases.items ≡ self.old.phases.items }
        ensures waiting { self.new.waiting.items ≡ slice_set self.old.waiting.items dependent (slice_index self.old.waiting.items dependent - 1) }
        ensures failed_wait { self.new.failed_wait.items ≡ self.old.failed_wait.items }
    {
        let pool_count = plan.depths.len();
        let left = self.waiting[dependent as usize] - 1;
        self.waiting[dependent as usize] = left;
        move_edge(
            &mut self.buckets,
            &plan.pools,
            &self.phases,
            &self.waiting,
            &self.failed_wait,
            pool_count,
            dependent,
        );
    }

    /// Records that `dependent` waits for an edge that failed, was skipped or was stopped.
    pub(crate) fn note_failed_wait(&mut self, plan: &Plan, dependent: u32, edge: u32)
        requires plan { IsPlan plan.now }
        requires here { dependent < edges_of plan.now }
        requires kept { IsKept plan.now self.old }
        ensures kept { IsKept plan.now self.new }
        ensures phases { self.new.phases.items ≡ self.old.phases.items }
        ensures waiting { self.new.waiting.items ≡ self.old.waiting.items }
        ensures failed_wait { self.new.failed_wait.items ≡ slice_set self.old.failed_wait.items dependent (Some edge) }
    {
        let pool_count = plan.depths.len();
        self.failed_wait[dependent as usize] = Some(edge);
        move_edge(
            &mut self.buckets,
            &plan.pools,
            &self.phases,
            &self.waiting,
            &self.failed_wait,
            pool_count,
            dependent,
        );
    }
}
