//! Creates the schedule of a run that has not begun.

ghost use Rattle.std.specs.Prelude.{◌≡◌, ◌<◌, ◌≤◌, ◌+◌, ◌^◌, [], ℕ, false, All, IfOk, None, count_by, get_or, length, map, replicate, slice_index};
ghost use Rattle.plan_schedule.specs.BucketContents.{bucket_len};
ghost use Rattle.plan_schedule.specs.Scheduling.{IsSchedule, IsPlan, edges_of};
ghost use Rattle.plan_schedule.specs.BucketRules.{ArePoolBuckets, AreBuckets, edge_row};
ghost use Rattle.plan_schedule.specs.Phases.{is_open};
ghost use Rattle.plan_schedule.specs.Opening.{opening_phase, opening_bucket};

use crate::bucket_rules::{Counts, EdgeBucket};
use crate::buckets::Buckets;
use crate::numbers::{Numbers, dependents_of};
use crate::phase::Phase;
use crate::plan::Plan;
use crate::ready::ReadyQueues;
use crate::schedule::Schedule;
use std::alloc::{AllocError, Global};

/// Creates a plan from the waits, the pools and the depths of the pools.
pub fn plan_of(
    alloc: Global,
    waits: Vec<Numbers>,
    pools: Vec<u32>,
    depths: Vec<u32>,
) -> Result<Plan, AllocError>
    requires few { length waits.items + 1 < 2 ^ 32 }
    requires pools { length pools.items ≡ length waits.items }
    requires in_pools { (e : ℕ) → e < length waits.items → slice_index pools.items e < length depths.items }
    requires few_pools { length depths.items + 5 < 2 ^ 32 }
    requires inside { (e : ℕ) → All (λ w. w < length waits.items) (get_or waits.items e []) }
    requires short { (e : ℕ) → length (get_or waits.items e []) < 2 ^ 32 }
    ensures rows { IfOk result (λ p. (p.waits.items ≡ waits.items) × (p.pools.items ≡ pools.items) × (p.depths.items ≡ depths.items)) }
    ensures plan { IfOk result (λ p. IsPlan p) }
{
    let dependents = dependents_of(alloc, &waits)?;
    Ok(Plan {
        waits,
        dependents,
        pools,
        depths,
    })
}

/// Returns the phase of an edge that is wanted or not.
fn opening_phase(wanted: bool) -> Phase
    ensures { result ≡ opening_phase wanted }
{
    if wanted {
        return Phase::Unbegun;
    }
    Phase::NotWanted
}

/// Returns the bucket of an edge that is wanted or not, given the number of its waits.
#[inline]
fn opening_bucket(wanted: bool, waiting: u32) -> EdgeBucket
    ensures { result ≡ opening_bucket wanted waiting }
{
    if !wanted {
        return EdgeBucket::Resting;
    }
    if waiting == 0 {
        return EdgeBucket::Startable;
    }
    EdgeBucket::Pending
}

/// Returns the phase of each edge.
fn phases_of(alloc: Global, wanted: &[bool]) -> Result<Vec<Phase>, AllocError>
    ensures { IfOk result (λ v. v.items ≡ map opening_phase wanted.now) }
{
    let mut phases = Vec::with_capacity(alloc, wanted.len())?;
    for is in wanted {
        phases.push(opening_phase(*is))?;
    }
    Ok(phases)
}

/// Returns the number of waits of each edge.
fn waiting_of(alloc: Global, waits: &[Numbers]) -> Result<Vec<u32>, AllocError>
    requires { (e : ℕ) → length (get_or waits.now e []) < 2 ^ 32 }
    ensures { IfOk result (λ v. v.items ≡ map length waits.now) }
{
    let mut waiting = Vec::with_capacity(alloc, waits.len())?;
    for row in waits {
        waiting.push(row.as_slice().len() as u32)?;
    }
    Ok(waiting)
}

/// Returns the capacities of the rows, with room for all edges in each of the first five, and none in those of the
/// pools.
fn common_capacities(alloc: Global, edges: u32, pool_count: usize) -> Result<Vec<u32>, AllocError>
    requires { pool_count + 5 < 2 ^ 32 }
    ensures len { IfOk result (λ v. length v.items ≡ 5 + pool_count) }
    ensures common { IfOk result (λ v. (s : ℕ) → s < 5 → slice_index v.items s ≡ edges) }
    ensures others { IfOk result (λ v. (s : ℕ) → 5 ≤ s → slice_index v.items s ≡ 0) }
{
    let mut capacities = vec![in alloc; 0; 5 + pool_count]?;
    for bucket in 0..5 {
        capacities[bucket] = edges;
    }
    Ok(capacities)
}

/// Returns the capacity of each row: room for all edges in each of the first five, and for the edges of its pool
/// in each other one.
fn capacities_of(alloc: Global, pools: &[u32], pool_count: usize) -> Result<Vec<u32>, AllocError>
    requires few_pools { pool_count + 5 < 2 ^ 32 }
    requires few { length pools.now < 2 ^ 32 }
    requires inside { All (λ p. p < pool_count) pools.now }
    ensures len { IfOk result (λ v. length v.items ≡ 5 + pool_count) }
    ensures common { IfOk result (λ v. (s : ℕ) → s < 5 → slice_index v.items s ≡ length pools.now) }
    ensures pools { IfOk result (λ v. (p : ℕ) → p < pool_count → slice_index v.items (5 + p) ≡ bucket_len p pools.now) }
{
    let mut capacities = common_capacities(alloc, pools.len() as u32, pool_count)?;
    for pool in pools {
        capacities[5 + *pool as usize] += 1;
    }
    Ok(capacities)
}

/// Returns the number of edges that have no outcome.
fn open_count(phases: &[Phase]) -> u32
    requires { length phases.now < 2 ^ 32 }
    ensures { result ≡ count_by is_open phases.now }
{
    let mut count = 0;
    for phase in phases {
        if phase.is_open() {
            count += 1;
        }
    }
    count
}

/// Creates the buckets, with each edge in its bucket.
fn fill_buckets(
    alloc: Global,
    pools: &[u32],
    pool_count: usize,
    wanted: &[bool],
    waiting: &[u32],
) -> Result<Buckets, AllocError>
    requires few_pools { pool_count + 5 < 2 ^ 32 }
    requires few { length pools.now < 2 ^ 32 }
    requires inside { All (λ p. p < pool_count) pools.now }
    requires wanted { length wanted.now ≡ length pools.now }
    requires waiting { length waiting.now ≡ length pools.now }
    ensures buckets { IfOk result (λ f. AreBuckets (length pools.now) pool_count pools.now f) }
    ensures filed { IfOk result (λ f. (e : ℕ) → e < length pools.now → slice_index f.bucket e ≡ edge_row (opening_bucket (get_or wanted.now e false) (slice_index waiting.now e))) }
{
    let edges = pools.len() as u32;
    let capacities = capacities_of(alloc, pools, pool_count)?;
    let mut buckets = Buckets::new(alloc, edges, &capacities)?;
    for edge in 0..edges {
        let row = opening_bucket(wanted[edge as usize], waiting[edge as usize]).row();
        buckets.put(edge, row);
    }
    Ok(buckets)
}

/// Creates a list of `len` zeros.
fn zeros(alloc: Global, len: usize) -> Result<Vec<u32>, AllocError>
    ensures { IfOk result (λ v. v.items ≡ replicate len 0) }
{
    vec![in alloc; 0; len]
}

/// Creates a list of `len` edges without a failed wait.
fn no_failed_waits(alloc: Global, len: usize) -> Result<Vec<Option<u32>>, AllocError>
    ensures { IfOk result (λ v. v.items ≡ replicate len None) }
{
    let mut failed_wait = Vec::with_capacity(alloc, len)?;
    for edge in 0..len {
        let _ = edge;
        failed_wait.push(None)?;
    }
    Ok(failed_wait)
}

/// Creates the buckets of pools, with all pools in the first one.
fn fill_pool_buckets(alloc: Global, pools: usize) -> Result<Buckets, AllocError>
    requires { pools + 5 < 2 ^ 32 }
    ensures bucket { IfOk result (λ f. f.bucket ≡ replicate pools 0) }
    ensures buckets { IfOk result (λ f. ArePoolBuckets pools f) }
{
    let capacities = [pools as u32, pools as u32, pools as u32];
    Buckets::new(alloc, pools as u32, &capacities)
}

/// Creates the schedule of a run that has not begun.
pub fn open(alloc: Global, plan: &Plan, wanted: &[bool]) -> Result<Schedule, AllocError>
    requires plan { IsPlan plan.now }
    requires wanted { length wanted.now ≡ edges_of plan.now }
    ensures schedule { IfOk result (λ b. IsSchedule plan.now b) }
    ensures phases { IfOk result (λ b. b.phases.items ≡ map opening_phase wanted.now) }
{
    let pools = plan.depths.len();
    let phases = phases_of(alloc, wanted)?;
    let waiting = waiting_of(alloc, &plan.waits)?;
    let failed_wait = no_failed_waits(alloc, wanted.len())?;
    let pool_holders = zeros(alloc, pools)?;
    let buckets = fill_buckets(alloc, &plan.pools, pools, wanted, &waiting)?;
    let pool_buckets = fill_pool_buckets(alloc, pools)?;
    let open_edges = open_count(&phases);
    let ready = ReadyQueues::open(alloc, plan)?;
    Ok(Schedule {
        phases,
        waiting,
        failed_wait,
        buckets,
        pool_buckets,
        counts: Counts {
            pool_holders,
            holders: 0,
            failures: 0,
            open_edges,
        },
        ready,
    })
}
