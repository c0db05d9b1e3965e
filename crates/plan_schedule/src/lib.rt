//! The schedule of edges while they run: how many hold a job token, failed, or have no outcome, and which of
//! them can go on.
//!
//! - `Plan` is the fixed data: the waits of each edge, the edges that wait for it, and the pools with their
//!   depths. `plan_of` creates it.
//! - `Schedule` is the schedule. It has the `Phase` of each edge, with counts and buckets that always agree with
//!   the phases. `open` creates the schedule of a run that has not begun. `go`, `end_successfully` and
//!   `end_unsuccessfully` change the phase of one edge and take no memory. `pick` finds a `Pick`, which is the
//!   next event without a reply, and `pick_start` the start of an edge that may come before it. `ReadyQueues` says
//!   which of several edges should take a job token first.
//! - `Buckets` is a set of buckets. Each number is in one bucket, and some number of each bucket can be found
//!   in constant time.
#![tactic(auto)]

mod bucket_rules;
mod buckets;
mod numbers;
mod opening;
mod phase;
mod plan;
mod ready;
mod schedule;

pub use bucket_rules::Counts;
pub use buckets::Buckets;
pub use numbers::Numbers;
pub use opening::{open, plan_of};
pub use phase::Phase;
pub use plan::Plan;
pub use ready::ReadyQueues;
pub use schedule::Schedule;
pub use schedule::picking::Pick;
