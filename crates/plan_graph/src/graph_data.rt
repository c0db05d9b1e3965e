//! The graph of a manifest.

use crate::files::Files;
use plan_text::{Items, RowList};

/// The most edges of a manifest.
pub const MAX_EDGES: usize = 1_048_576;

/// The graph of a manifest: the files and waits of its edges. Edges are named by their numbers in the manifest,
/// from 0.
#[derive(Drop)]
pub struct Graph<'a> {
    /// The paths that build lines name, in the order in which they are first named, outputs before inputs.
    pub files: Files<'a>,
    /// The numbers of the outputs of each edge, explicit before implicit.
    pub outputs: RowList<u32>,
    /// The numbers of the inputs of each edge: explicit, then implicit, then order-only.
    pub inputs: RowList<u32>,
    /// The edges that each edge waits for, in ascending order.
    pub waits: RowList<u32>,
    /// The rank of each edge: 0 if it waits for none, or one more than the greatest rank that it waits for.
    pub ranks: Items<u32>,
    /// The edges that are built by default if no target is given, in ascending order.
    pub defaults: Items<u32>,
}
