//! Traces.

use plan_machine::{Event, Options};
use plan_text::Items;

/// A run: its options, the given targets (none if the image's defaults are used), and its events in their
/// order.
#[derive(Drop)]
pub struct Trace {
    pub options: Options,
    pub targets: Items<u32>,
    pub events: Items<Event>,
}
