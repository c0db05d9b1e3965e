//! The next event without a reply.

ghost use Rattle.std.specs.Prelude.{◌≡◌, ◌≢◌, ◌<◌, ◌≤◌, ◌⊎◌, Bool, ℕ, IfNone, IfSome, IsTrue, IsFalse, length, slice_index};
ghost use Rattle.plan_schedule.specs.BucketRules.{edge_row, pool_row};
ghost use Rattle.plan_schedule.specs.Scheduling.{IsSchedule, IsPlan, edges_of};
ghost use Rattle.plan_schedule.specs.Phases.{phase_at};
ghost use Rattle.plan_schedule.specs.Picking.{AtTakeStays, IsEnabled, IsEnabledStart, NoEdgeIn, NoPoolIn, StartsWait, StepsFirst, UnbegunStays, is_spent};

use crate::bucket_rules::{EdgeBucket, PoolBucket};
use crate::phase::Phase;
use crate::plan::Plan;
use crate::schedule::Schedule;

/// An event that can happen next without a reply from outside.
#[derive(Clone, Copy, PartialEq, Eq)]
pub enum Pick {
    /// An edge begins.
    Start(u32),
    /// An edge is skipped, because an edge that it waits for (the second number) failed, was skipped or was
    /// stopped.
    Skip(u32, u32),
    /// An edge is stopped.
    Stop(u32),
    /// An edge makes a step.
    Step(u32),
}

impl Schedule {
    /// Returns whether the failure limit has been reached.
    fn is_spent(&self, plan: &Plan, keep: u32) -> bool
        requires { IsSchedule plan.now self.now }
        ensures { result ≡ is_spent keep self.now.phases.items }
    {
        keep > 0 && keep <= self.counts.failures
    }

    /// Returns an edge in a bucket of edges that aren't at Take. Returns None if the bucket is empty.
    #[inline]
    fn edge_in_bucket(&self, plan: &Plan, bucket: EdgeBucket) -> Option<u32>
        requires schedule { IsSchedule plan.now self.now }
        requires bucket { edge_row bucket < 5 }
        ensures some { IfSome result (λ e. (e < edges_of plan.now) × (slice_index self.now.buckets.bucket e ≡ edge_row bucket)) }
        ensures none { IfNone result (NoEdgeIn self.now bucket) }
    {
        self.buckets.top(bucket.row())
    }

    /// Returns an edge of a pool that is at Take: the one that should take a job token first, if it is known. Returns
    /// None if there is none.
    fn first_at_take(&self, plan: &Plan, pool: u32) -> Option<u32>
        requires plan { IsPlan plan.now }
        requires schedule { IsSchedule plan.now self.now }
        requires pool { pool < length plan.now.depths.items }
        ensures some { IfSome result (λ e. (e < edges_of plan.now) × (slice_index self.now.buckets.bucket e ≡ edge_row (EdgeBucket.AtTakeOf pool))) }
        ensures none { IfNone result (NoEdgeIn self.now (EdgeBucket.AtTakeOf pool)) }
    {
        let row = EdgeBucket::AtTakeOf(pool).row();
        if let Some(edge) = self.ready.first(pool) {
            if (edge as usize) < self.phases.len() && self.buckets.bucket(edge) == row {
                return Some(edge);
            }
        }
        self.buckets.top(row)
    }

    /// Returns an edge at Take whose pool is in this bucket of pools. Returns None if the bucket is empty.
    #[inline]
    fn at_take(&self, plan: &Plan, pool_bucket: PoolBucket) -> Option<u32>
        requires plan { IsPlan plan.now }
        requires schedule { IsSchedule plan.now self.now }
        requires taken { pool_bucket ≢ PoolBucket.Idle }
        ensures some { IfSome result (λ e. (e < edges_of plan.now) × ((h : Bool) × (phase_at self.now.phases.items e ≡ Phase.AtTake h)) × (slice_index self.now.pool_buckets.bucket (slice_index plan.now.pools.items e) ≡ pool_row pool_bucket)) }
        ensures none { IfNone result (NoPoolIn self.now pool_bucket) }
    {
        match self.pool_buckets.top(pool_bucket.row()) {
            Some(pool) => self.first_at_take(plan, pool),
            None => None,
        }
    }

    /// Returns the event of an edge at Take that can take a job token, or that can be stopped because the
    /// failure limit has been reached.
    fn pick_at_take(&self, plan: &Plan, jobs: u32, keep: u32) -> Option<Pick>
        requires plan { IsPlan plan.now }
        requires schedule { IsSchedule plan.now self.now }
        ensures some { IfSome result (λ pick. IsEnabled plan.now self.now.phases.items jobs keep pick) }
        ensures steps { NoEdgeIn self.now EdgeBucket.Steppable → IfSome result (λ pick. StepsFirst plan.now self.now.phases.items jobs keep pick) }
        ensures none { IfNone result (AtTakeStays plan.now self.now jobs keep) }
    {
        if self.is_spent(plan, keep) {
            return match self.at_take(plan, PoolBucket::Free) {
                Some(edge) => Some(Pick::Stop(edge)),
                None => match self.at_take(plan, PoolBucket::Full) {
                    Some(edge) => Some(Pick::Stop(edge)),
                    None => None,
                },
            };
        }
        if self.counts.holders >= jobs {
            return None;
        }
        match self.at_take(plan, PoolBucket::Free) {
            Some(edge) => Some(Pick::Step(edge)),
            None => None,
        }
    }

    /// Returns the event of an edge that hasn't begun and can start, be skipped or be stopped.
    fn pick_unbegun(&self, plan: &Plan, jobs: u32, keep: u32) -> Option<Pick>
        requires plan { IsPlan plan.now }
        requires schedule { IsSchedule plan.now self.now }
        ensures some { IfSome result (λ pick. IsEnabled plan.now self.now.phases.items jobs keep pick) }
        ensures none { IfNone result (UnbegunStays self.now keep) }
    {
        if let Some(edge) = self.edge_in_bucket(plan, EdgeBucket::Skippable) {
            return match self.failed_wait[edge as usize] {
                Some(wait) => Some(Pick::Skip(edge, wait)),
                None => unreachable!(),
            };
        }
        let spent = self.is_spent(plan, keep);
        match self.edge_in_bucket(plan, EdgeBucket::Startable) {
            Some(edge) => {
                if spent {
                    return Some(Pick::Stop(edge));
                }
                Some(Pick::Start(edge))
            }
            None => {
                if !spent {
                    return None;
                }
                match self.edge_in_bucket(plan, EdgeBucket::Pending) {
                    Some(edge) => Some(Pick::Stop(edge)),
                    None => None,
                }
            }
        }
    }

    /// Returns the start of an edge, if no edge can make a step but those at Take, and the failure limit hasn't been
    /// reached. So edges can start before another one takes a job token.
    pub fn pick_start(&self, plan: &Plan, keep: u32) -> Option<Pick>
        requires plan { IsPlan plan.now }
        requires schedule { IsSchedule plan.now self.now }
        ensures some { IfSome result (λ pick. IsEnabledStart plan.now self.now.phases.items keep pick) }
        ensures none { IfNone result (StartsWait plan.now self.now.phases.items keep) }
    {
        if self.is_spent(plan, keep) {
            return None;
        }
        match self.edge_in_bucket(plan, EdgeBucket::Steppable) {
            Some(_) => None,
            None => match self.edge_in_bucket(plan, EdgeBucket::Startable) {
                Some(edge) => Some(Pick::Start(edge)),
                None => None,
            },
        }
    }

    /// Returns an enabled Start, Skip, Stop or Step: a Step if one is enabled. Returns None if nothing is
    /// enabled. Edges that have begun come before those that haven't.
    pub fn pick(&self, plan: &Plan, jobs: u32, keep: u32) -> Option<Pick>
        requires plan { IsPlan plan.now }
        requires schedule { IsSchedule plan.now self.now }
        ensures some { IfSome result (λ pick. IsEnabled plan.now self.now.phases.items jobs keep pick) }
        ensures steps { IfSome result (λ pick. StepsFirst plan.now self.now.phases.items jobs keep pick) }
        ensures none { IfNone result ((pick : Pick) → IsEnabled plan.now self.now.phases.items jobs keep pick → ⊥) }
    {
        match self.edge_in_bucket(plan, EdgeBucket::Steppable) {
            Some(edge) => Some(Pick::Step(edge)),
            None => match self.pick_at_take(plan, jobs, keep) {
                Some(pick) => Some(pick),
                None => self.pick_unbegun(plan, jobs, keep),
            },
        }
    }
}
