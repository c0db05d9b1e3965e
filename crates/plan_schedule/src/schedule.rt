//! The schedule of a run.

pub(crate) mod edge_end;
pub(crate) mod phase_change;
pub(crate) mod picking;

use crate::bucket_rules::Counts;
use crate::buckets::Buckets;
use crate::phase::Phase;
use crate::ready::ReadyQueues;

/// The schedule: counters of the edges of a plan, and buckets of edges by what they can do.
#[derive(Drop)]
pub struct Schedule {
    /// The phase of each edge.
    pub phases: Vec<Phase>,
    /// For each edge, the number of its waits that haven't succeeded.
    pub waiting: Vec<u32>,
    /// For each edge, one of its waits that failed, was skipped or was stopped.
    pub failed_wait: Vec<Option<u32>>,
    /// The edges, each in the bucket for what it can do.
    pub buckets: Buckets,
    /// The pools, each in the bucket for what its edges at Take can do.
    pub pool_buckets: Buckets,
    /// The number of edges that hold a job token, failed, or have no outcome.
    pub counts: Counts,
    /// Which edge at Take is to take a job token first.
    pub ready: ReadyQueues,
}
