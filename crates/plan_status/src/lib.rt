//! What the marks of a run report to its user, as lines of text.
//!
//! - `status_lines`: the status lines of a run's marks. `print` writes them to a sink.
//! - `print_outcomes`: a line for each edge that says how it ended. `all_done`: whether all wanted edges succeeded.
//! - `PrintFault`: why a text wasn't printed to its end.
//! - `Format`: text for marks, one after another. `StatusLines` is the format of these lines.
//! - `live`: a ring through which marks are printed while a run goes on. Lanes fill its `Feed` by a `LineProgress`.
//!   Another thread prints from its `Tap` by a format, and `settle` prints the rest when lanes are done. `print_by`
//!   prints all marks at once.
//! - `is_console`, `free_marks`: edges whose commands have the terminal, and how many marks are reported meanwhile.
//! - `lines_join`, `lines_are_printed`, `prints_join`, `marks_may_come`, `ends_stay`: laws about all lines, prints and
//!   rings, for the proofs of the crates above.
//!
//! The lines are this project's own. docs/rules/replay.md describes each of them.
#![tactic(auto)]

mod consoles;
mod fault;
mod format;
mod laws;
mod lines;
mod outcomes;
mod printing;
mod tap;

pub use consoles::{Consoles, free_marks, in_console, is_console};
pub use fault::PrintFault;
pub use format::{Format, LineProgress, StatusLines, lines_are_printed};
pub use laws::{ends_stay, lines_join, marks_may_come, prints_join};
pub use outcomes::{all_done, print_outcomes};
pub use printing::{print, status_lines};
pub use tap::{Feed, Tap, live, print_by};
