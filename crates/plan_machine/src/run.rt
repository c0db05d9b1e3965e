//! A run: the states of all edges, the schedule, and the events that can happen next.

pub(crate) mod ends;
pub(crate) mod loads;
pub(crate) mod local_runs;
pub(crate) mod machine;
pub(crate) mod picking;
pub(crate) mod refused;
pub(crate) mod replaying;
pub(crate) mod sameness;
pub(crate) mod state;
pub(crate) mod swept_row;
pub(crate) mod wanted;
