//! What an edge observed.

use plan_machine::Recorded;
use plan_text::Items;

/// What an edge observed before its command. A missing file has the stamp 0.
#[derive(Drop)]
pub struct Observed {
    /// The stamps of the order-only source files.
    pub order_only: Items<u64>,
    /// The stamps of the named inputs.
    pub named: Items<u64>,
    /// The stamps of the outputs.
    pub outputs: Items<u64>,
    /// The recorded entry, if there is one.
    pub entry: Option<Recorded>,
    /// The stamps of the recorded paths.
    pub recorded: Items<u64>,
}
