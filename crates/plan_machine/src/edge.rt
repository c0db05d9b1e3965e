//! One edge in a run: its state, the steps that it makes, and the replies that it receives.

pub(crate) mod active_edge;
pub(crate) mod asking;
pub(crate) mod local_steps;
pub(crate) mod replies;
pub(crate) mod stack;
pub(crate) mod status;
pub(crate) mod swept_row;
pub(crate) mod turns;
