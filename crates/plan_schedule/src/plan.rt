//! The fixed data of a run.

use crate::numbers::Numbers;

/// The data of edges and pools that don't change in a run.
#[derive(Drop)]
pub struct Plan {
    /// The waits of each edge.
    pub waits: Vec<Numbers>,
    /// The edges that wait for each edge.
    pub dependents: Vec<Numbers>,
    /// The pool of each edge, or 0 for none.
    pub pools: Vec<u32>,
    /// The depth of each pool, or 0 for no limit. That of pool 0 is 0.
    pub depths: Vec<u32>,
}
