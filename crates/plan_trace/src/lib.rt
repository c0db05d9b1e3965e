//! Traces: the text of a run, with its options, targets and events.
//!
//! - `Trace` is a run. `read_trace` reads a trace from a text, or returns its first bad line (`TraceFault`).
//!   `write_trace` writes the text of a trace. `write_run` writes the text of a run whose events are in a
//!   journal. Writing takes no memory.
//! - `traces_are_spelled_once` and `traces_are_read_again` are laws about all traces, for the proofs of the
//!   crates above.
//!
//! The format is this project's own choice. docs/rules/replay.md lists its rules.
#![tactic(auto)]

mod events;
mod fault;
mod hex;
mod laws;
mod line_writer;
mod number;
mod reading;
mod replies;
mod trace;
mod word_writer;
mod words;
mod writing;

pub use fault::TraceFault;
pub use laws::{traces_are_read_again, traces_are_spelled_once};
pub use reading::read_trace;
pub use trace::Trace;
pub use writing::{write_run, write_trace};
