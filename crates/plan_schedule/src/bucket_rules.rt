//! The bucket of each edge and of each pool, and the counts of edges that hold a job token, failed, or have no outcome.

ghost use Rattle.std.specs.Prelude.{◌≡◌, ◌≢◌, ◌<◌, ◌≤◌, ◌+◌, ◌^◌, ℕ, length, slice_index, slice_set, IsTrue};
ghost use Rattle.plan_schedule.specs.BucketContents.{bucket_len};
ghost use Rattle.plan_schedule.specs.BucketRules.{AreBuckets, ArePoolBuckets, bucket_for, edge_row, pool_bucket_for, pool_row, pool_row_for, row_of, unbegun_bucket};
ghost use Rattle.plan_schedule.specs.Counts.{AreCounts, one};
ghost use Rattle.plan_schedule.specs.Phases.{has_failed, holds, is_open, phase_at};

use crate::buckets::Buckets;
use crate::phase::Phase;

/// The bucket of an edge, by what the edge can do.
#[derive(Clone, Copy)]
pub(crate) enum EdgeBucket {
    /// It can do nothing by itself: it awaits a reply, has an outcome, or isn't wanted.
    Resting,
    /// It hasn't begun, and an edge that it waits for has no outcome.
    Pending,
    /// It hasn't begun, and all edges that it waits for succeeded.
    Startable,
    /// It hasn't begun, and an edge that it waits for failed, was skipped or was stopped.
    Skippable,
    /// It has begun, and can make a step.
    Steppable,
    /// It is at Take, and is in this pool.
    AtTakeOf(u32),
}

impl EdgeBucket {
    /// Returns the row of the bucket.
    #[inline]
    pub(crate) fn row(self) -> u32
        requires { edge_row self < 2 ^ 32 }
        ensures { result ≡ edge_row self }
    {
        match self {
            EdgeBucket::Resting => 0,
            EdgeBucket::Pending => 1,
            EdgeBucket::Startable => 2,
            EdgeBucket::Skippable => 3,
            EdgeBucket::Steppable => 4,
            EdgeBucket::AtTakeOf(pool) => 5 + pool,
        }
    }
}

/// The bucket of a pool, by what its edges at Take can do.
#[derive(Clone, Copy)]
pub(crate) enum PoolBucket {
    /// None of its edges is at Take.
    Idle,
    /// Some of its edges are at Take, and it has a free job token.
    Free,
    /// Some of its edges are at Take, and it has no free job token.
    Full,
}

impl PoolBucket {
    /// Returns the row of the bucket.
    #[inline]
    pub(crate) fn row(self) -> u32
        ensures row { result ≡ pool_row self }
        ensures low { result < 3 }
    {
        match self {
            PoolBucket::Idle => 0,
            PoolBucket::Free => 1,
            PoolBucket::Full => 2,
        }
    }
}

/// Returns the bucket of an edge that hasn't begun.
#[inline]
fn unbegun_bucket(waiting: u32, failed_wait: Option<u32>) -> EdgeBucket
    ensures { result ≡ unbegun_bucket waiting failed_wait }
{
    match failed_wait {
        Some(_) => EdgeBucket::Skippable,
        None => {
            if waiting == 0 {
                EdgeBucket::Startable
            } else {
                EdgeBucket::Pending
            }
        }
    }
}

/// Returns the bucket of an edge.
#[inline]
fn bucket_for(phase: Phase, waiting: u32, failed_wait: Option<u32>, pool: u32) -> EdgeBucket
    ensures { result ≡ bucket_for phase waiting failed_wait pool }
{
    match phase {
        Phase::Unbegun => unbegun_bucket(waiting, failed_wait),
        Phase::Runnable(_) => EdgeBucket::Steppable,
        Phase::AtTake(_) => EdgeBucket::AtTakeOf(pool),
        Phase::Waiting(_) => EdgeBucket::Resting,
        Phase::Succeeded => EdgeBucket::Resting,
        Phase::Failed => EdgeBucket::Resting,
        Phase::Abandoned => EdgeBucket::Resting,
        Phase::NotWanted => EdgeBucket::Resting,
    }
}

/// Returns the bucket of a pool, given the number of its edges at Take, the number of its edges that hold a job
/// token, and its depth (0 for no limit).
#[inline]
fn pool_bucket_for(at_take: u32, holders: u32, depth: u32) -> PoolBucket
    ensures { result ≡ pool_bucket_for at_take holders depth }
{
    if at_take == 0 {
        return PoolBucket::Idle;
    }
    if depth == 0 || holders < depth {
        return PoolBucket::Free;
    }
    PoolBucket::Full
}

/// Moves an edge to its bucket.
pub fn move_edge(
    buckets: &mut Buckets,
    pools: &[u32],
    phases: &[Phase],
    waiting: &[u32],
    failed_wait: &[Option<u32>],
    pool_count: usize,
    edge: u32,
)
    requires here { edge < length phases.now }
    requires waiting { length waiting.now ≡ length phases.now }
    requires failed_wait { length failed_wait.now ≡ length phases.now }
    requires pools { length pools.now ≡ length phases.now }
    requires pool { slice_index pools.now edge < pool_count }
    requires few { pool_count + 5 < 2 ^ 32 }
    requires buckets { AreBuckets (length phases.now) pool_count pools.now buckets.old }
    requires filed { (e : ℕ) → e < length phases.now → e ≢ edge → slice_index buckets.old.bucket e ≡ row_of pools.now phases.now waiting.now failed_wait.now e }
    ensures { buckets.new ≡ record buckets.old { bucket = slice_set buckets.old.bucket edge (row_of pools.now phases.now waiting.now failed_wait.now edge) } }
{
    let at = edge as usize;
    let bucket = bucket_for(phases[at], waiting[at], failed_wait[at], pools[at]);
    let row = bucket.row();
    buckets.put(edge, row);
}

/// Moves a pool to its bucket.
pub fn move_pool(
    pool_buckets: &mut Buckets,
    buckets: &Buckets,
    holders: &[u32],
    depths: &[u32],
    pool: u32,
)
    requires here { pool < length depths.now }
    requires few { length depths.now + 5 < 2 ^ 32 }
    requires holders { length holders.now ≡ length depths.now }
    requires buckets { length buckets.now.capacity ≡ 5 + length depths.now }
    requires pool_buckets { ArePoolBuckets (length depths.now) pool_buckets.old }
    ensures { pool_buckets.new ≡ record pool_buckets.old { bucket = slice_set pool_buckets.old.bucket pool (pool_row_for (bucket_len (edge_row (EdgeBucket.AtTakeOf pool)) buckets.now.bucket) (slice_index holders.now pool) (slice_index depths.now pool)) } }
{
    let at_take_row = EdgeBucket::AtTakeOf(pool).row();
    let at_take = buckets.len(at_take_row);
    let bucket = pool_bucket_for(at_take, holders[pool as usize], depths[pool as usize]);
    let row = bucket.row();
    pool_buckets.put(pool, row);
}

/// The number of edges that hold a job token, failed, or have no outcome.
#[derive(Drop)]
pub struct Counts {
    /// The number of edges of each pool that hold a job token.
    pub pool_holders: Vec<u32>,
    /// The number of edges that hold a job token.
    pub holders: u32,
    /// The number of edges that failed.
    pub failures: u32,
    /// The number of edges that have no outcome.
    pub open_edges: u32,
}

/// Updates a count for an edge that was or wasn't counted, and is or isn't now.
fn update_count(count: u32, was: bool, is: bool) -> u32
    requires some { IsTrue was → 0 < count }
    requires small { count + 1 < 2 ^ 32 }
    ensures { result + one was ≡ count + one is }
{
    match (was, is) {
        (true, false) => count - 1,
        (false, true) => count + 1,
        _ => count,
    }
}

impl Counts {
    /// Updates the counts for an edge whose phase changes to `next`.
    pub fn change(&mut self, pools: &[u32], phases: &[Phase], edge: u32, next: Phase)
        requires here { edge < length phases.now }
        requires sized { length pools.now ≡ length phases.now }
        requires small { length phases.now + 1 < 2 ^ 32 }
        requires pool { slice_index pools.now edge < length self.old.pool_holders.items }
        requires counts { AreCounts pools.now phases.now self.old.pool_holders.items self.old.holders self.old.failures self.old.open_edges }
        ensures counts { AreCounts pools.now (slice_set phases.now edge next) self.new.pool_holders.items self.new.holders self.new.failures self.new.open_edges }
        ensures sized { length self.new.pool_holders.items ≡ length self.old.pool_holders.items }
        ensures others { (p : ℕ) → p ≢ slice_index pools.now edge → slice_index self.new.pool_holders.items p ≡ slice_index self.old.pool_holders.items p }
    {
        let last = phases[edge as usize];
        let pool = pools[edge as usize] as usize;
        let in_pool = update_count(self.pool_holders[pool], last.holds(), next.holds());
        self.holders = update_count(self.holders, last.holds(), next.holds());
        self.failures = update_count(self.failures, last.has_failed(), next.has_failed());
        self.open_edges = update_count(self.open_edges, last.is_open(), next.is_open());
        self.pool_holders[pool] = in_pool;
    }
}
