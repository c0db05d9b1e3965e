//! Slot patterns: how the outputs of an edge share slots for their stamps and flags.

/// The way in which the outputs of an edge share slots. It depends on the sort of the edge.
#[derive(Clone, Copy, PartialEq, Eq)]
pub enum SlotPattern {
    /// The edge has a command and isn't restat: its outputs change together.
    OneFlag,
    /// The edge has a command and is restat: each output changes by itself.
    OwnFlags,
    /// The edge is a phony with inputs: its outputs have the stamp and the flag of these inputs.
    Gathers,
    /// The edge is a phony without inputs: each output has the stamp of its own file.
    Alone,
}
