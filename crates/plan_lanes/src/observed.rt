//! Observations of edges.

use plan_machine::{LoadedSlot, Reply};
use plan_text::Items;

/// The observations of an edge of a run: the replies that it received, in their order, and the slots that its code
/// loads, in the order of the code. They determine all that the edge has done so far.
#[derive(Drop)]
pub struct Observed {
    pub replies: Items<Reply>,
    pub slots: Items<LoadedSlot>,
}
