//! Layouts: edges by their numbers in the tables of an image.

use crate::baseline::Baseline;
use plan_text::Items;

/// The source of an input's stamp.
#[derive(Clone, Copy, PartialEq, Eq)]
pub enum Input {
    /// A source file, by its number. The code asks for its stamp.
    File(u32),
    /// An output of another edge, by the stamp slot and the flag slot that its producer sets.
    Made(u32, u32),
}

/// An output: its file, and the slots of its stamp and of its changed flag.
#[derive(Clone, Copy, PartialEq, Eq)]
pub struct Output {
    pub file: u32,
    pub stamp: u32,
    pub changed: u32,
}

/// An edge with a command.
#[derive(Drop)]
pub struct CommandLayout {
    /// The explicit and the implicit inputs, in order.
    pub named: Items<Input>,
    /// The order-only source files that aren't also named inputs.
    pub order_only: Items<u32>,
    /// The outputs, at least one. Each has a stamp slot of its own. They share a flag slot unless the edge is
    /// restat.
    pub outputs: Items<Output>,
    /// The flag slots among the named inputs, without repetitions, in any order.
    pub flags: Items<u32>,
    /// The slot for the greatest stamp of the named inputs.
    pub newest: u32,
    /// The number of the command's text.
    pub command: u32,
    /// Whether the command may be the empty text.
    pub blank: bool,
    /// The number of the text of the depfile's path, which isn't empty.
    pub depfile: Option<u32>,
    pub restat: bool,
    pub generator: bool,
    pub baseline: Baseline,
}

/// A phony with inputs of any sort. Its outputs have the newest stamp of the named inputs and of its own files, and the
/// flag of the named inputs. They share two slots.
#[derive(Drop)]
pub struct GatherLayout {
    pub named: Items<Input>,
    /// The order-only source files that aren't also named inputs.
    pub order_only: Items<u32>,
    pub outputs: Items<Output>,
    /// The flag slots among the named inputs, without repetitions, in any order.
    pub flags: Items<u32>,
    /// The stamp slot of all outputs.
    pub stamp: u32,
    /// The flag slot of all outputs.
    pub changed: u32,
    /// The baseline of the edge. If it is `Outputs`, the files of the outputs aren't asked for.
    pub baseline: Baseline,
}

/// An edge of any sort.
#[derive(Drop)]
pub enum EdgeLayout {
    Command(CommandLayout),
    /// A phony with inputs.
    Gather(GatherLayout),
    /// A phony without inputs, by its outputs. Each output has the stamp of its own file, and two slots of its
    /// own.
    Alone(Items<Output>),
}
