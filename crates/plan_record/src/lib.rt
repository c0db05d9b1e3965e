//! Build records: an entry for each edge that ran, stored from one build to the next.
#![tactic(auto)]

mod added;
mod entry;
mod fault;
mod laws;
mod paths;
mod reading;
mod record;
mod spelling;

pub use entry::Entry;
pub use fault::EntryFault;
pub use laws::{compaction_law, entry_law};
pub use paths::Paths;
pub use record::{Record, load, read_entries, spellings};
pub use spelling::{WriteFault, append};
