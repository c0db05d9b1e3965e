//! Journals: the events of a run in their order.
//!
//! - `JournalBuilder`: a journal that grows and is cut back at its end. If `Keeping` says so, it has the replies of
//!   each edge at hand.
//! - `Journal`: the events of a run. A program sees only their number.
//! - `KeptJournal`: the same events in columns, to be read. There is one if `Keeping` says so.
//! - `Events`: the events of a kept journal that aren't read yet. `ReadEvent`: an event that was read.
#![tactic(auto)]

mod column_builder;
mod edge_replies;
mod events;
mod journal;
mod journal_builder;
mod keeping;
mod kept_journal;
mod read_event;
mod sort;
#[cfg(test)]
mod tests;

pub use events::Events;
pub use journal::Journal;
pub use journal_builder::JournalBuilder;
pub use keeping::Keeping;
pub use kept_journal::KeptJournal;
pub use read_event::ReadEvent;
