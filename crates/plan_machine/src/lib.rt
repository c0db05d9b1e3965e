//! Runs many edges at once: defines which events are enabled in a state of an image, and what each event does.
//!
//! - `State` holds the status of each edge of an image, and a schedule of the events that can happen next.
//!   `open` creates a state, `apply` applies an `Event`, and `pick` finds an event that needs no reply.
//!   `request` and `asks` return a `Request`: the question that an edge is waiting on, or that an event would
//!   ask. `outcome`, `ended` and `total` describe the progress. `Refused` is the reason why a call is refused.
//!   `replay` applies the events of a whole run. `same_end` compares the ends of two runs.
//! - `Event` is what may happen next, and `Reply`, with `Recorded` and `Depfile`, is an answer from outside.
//!   `Mark` is the effect of an event. `Outcome` is the end of an edge, and `Cause` (of plan_verify) is the
//!   reason why it failed.
//! - `Options` has the number of jobs and the failure limit. `wanted_edges` returns the edges that targets need.
//! - The laws are about every run of a well-shaped image. It never goes wrong (`never_wrong`), its marks are
//!   orderly (`marks_are_orderly`), it never gets stuck (`never_stuck`), and its number of events is bounded
//!   (`stays_in_budget`). If there is no failure limit, the order of events doesn't matter
//!   (`interleavings_agree`).
//!
//! docs/rules/machine.md lists the rules.
#![tactic(auto)]

mod edge;
mod event;
mod laws;
mod run;

pub use event::reply::{Depfile, Recorded, Reply};
pub use event::{Event, Mark, Outcome, Outputs, Request};
pub use laws::{
    depfiles_are_frugal, each_ran_by_itself, interleavings_agree, marks_are_orderly, never_stuck,
    never_wrong, slots_stay, stays_in_budget,
};
pub use plan_verify::Cause;
pub use run::ends::same_end;
pub use run::loads::LoadedSlot;
pub use run::local_runs::LocalRun;
pub use run::refused::Refused;
pub use run::replaying::replay;
pub use run::state::{Options, State};
pub use run::wanted::wanted_edges;
