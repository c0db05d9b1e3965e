//! The text that the programs print, and the files that they read and write.
//!
//! - `PlanFault`: the reason why a program refuses, with the line that is printed. `printed_fault` and
//!   `printed_graph_fault` convert faults of a manifest. `file_fault`, `write_fault`, `output_fault`, `lost_output`,
//!   `unknown_target`, `no_source` and `no_memory` create faults.
//! - `Standard`, `Screen`: standard output for one thread, and for several threads. `Buffer`: a sink that buffers bytes
//!   for another sink. `ended` finishes the output of a command. `open_streams`: opens the standard streams that are
//!   closed when the program starts.
//! - `write_whole`: writes to a stream that may be in non-blocking mode. `ErrorStream`: standard error, written this
//!   way.
//! - `FileSource`, `NewFile`: the files of the system.
//! - `say`, `complain`, `complain_of`: print lines of plan_build, and its error messages. `reason_of_error` has the
//!   system's words for an error of a file.
//!
//! docs/using/refusals.md has the faults one by one.
#![tactic(auto)]

mod fault;
mod files;
mod graph_fault;
mod said;
mod screen;
mod waiting;

pub use fault::{
    PlanFault, file_fault, lost_output, no_memory, no_source, output_fault, printed_fault,
    unknown_target, write_fault,
};
pub use files::{FileSource, IMAGE_BYTES, MANIFEST_BYTES, NewFile, TRACE_BYTES};
pub use graph_fault::printed_graph_fault;
pub use said::{
    LOST_OUTPUT, NO_ROOM, REFUSED, complain, complain_of, concatenate, digits_in, reason_of,
    reason_of_error, say, status_after,
};
pub use screen::{Buffer, Screen, Standard, ended, open_streams};
pub use waiting::{ErrorStream, write_whole};
