//! What the reasons need to know of an edge.

use plan_compile::Baseline;
use plan_text::Items;
use plan_verify::Words;

/// An explicit or an implicit input.
#[derive(Clone, Copy, PartialEq, Eq)]
pub enum NamedInput {
    /// A source file.
    SourceFile,
    /// An output of an edge: the stamp that this edge left, and whether it changed the output.
    Made(u64, bool),
}

/// An edge with a command.
#[derive(Drop)]
pub struct Facts {
    /// The explicit and the implicit inputs, in order.
    pub named: Items<NamedInput>,
    /// The number of order-only source files that are asked for.
    pub order_only: usize,
    /// The number of outputs.
    pub outputs: usize,
    pub command: Words,
    pub generator: bool,
    pub baseline: Baseline,
}
