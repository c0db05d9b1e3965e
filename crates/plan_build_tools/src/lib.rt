//! The tools of plan_build, which `-t` runs. plan_tools chooses the files that a tool removes and writes the lines that
//! it prints. This crate reads manifests and the record, removes files, and prints.
//!
//! - `Tool`, `tool_named`, `unknown_tool`: the tools by their names.
//! - `Request`, `request_in`: the words of a command line for a tool.
//! - `run_tool`: runs a tool on the files of a build (`BuildFiles`). It removes files in a `Manner`.
//! - `named_in`: the targets that words name in a manifest. `slices_of`: the rows of a list as slices.
//! - `second_producer`, `largest_statement`: the places of build statements that messages are about.
//! - `ToolFault`: the reason why a tool is refused.
//!
//! docs/rules/tools.md and docs/rules/command-line.md have the rules one by one.
#![tactic(auto)]

mod clean;
mod fault;
mod listing;
mod loaded;
mod path_lists;
mod paths;
mod record;
mod statements;
mod tool;
mod words;

pub use clean::Manner;
pub use fault::ToolFault;
pub use loaded::StatementPlace;
pub use paths::{named_in, slices_of};
pub use statements::{LargeStatement, largest_statement, second_producer};
pub use tool::{BuildFiles, Tool, run_tool, tool_named, unknown_tool};
pub use words::{Request, request_in};
