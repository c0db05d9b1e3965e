//! Paths that are added to an edge.

use plan_text::RowList;

/// Paths that are added to an edge after its build line was read. They are canonical.
#[derive(Drop)]
pub struct Addition {
    /// The number of the edge, counted from 0. Nothing is added if there is no such edge.
    pub edge: u32,
    /// The outputs that are added to the implicit outputs.
    pub outputs: RowList<u8>,
    /// The inputs that are added to the implicit inputs.
    pub inputs: RowList<u8>,
    /// The inputs that are added to the order-only inputs.
    pub order_only: RowList<u8>,
}
