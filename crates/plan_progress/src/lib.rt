//! The text of a build: a line for each command that ends, as ninja shows it, with the command's output.
//! On a terminal a line is written over the one before it, and is also shown when a command starts.
//!
//! - `BuildLines` is the format of this text, for the calls of plan_status that print marks.
//! - `Display`: the style, whether a terminal shows the text, and the template of the text before a label.
//! - `unknown_placeholder` finds an unknown placeholder in a template.
//! - `Style`: whether an edge is shown by its label or by its command, or only if it fails.
//! - `Outputs`: the outputs of commands that wait to be shown. The caller implements it.
//! - `Stopwatch`: the time that the build has taken. The caller implements it.
//! - `Counts`: how many command edges have started, how many have ended, and how.
//!
//! specs/BuildLines.antt defines the text, and specs/Template.antt that of a template.
#![tactic(auto)]

mod build_lines;
mod counting;
mod counts;
mod display;
mod edge_command;
mod eliding;
mod failures;
mod line_feeds;
mod lines;
mod names;
mod numbers;
mod outputs;
mod pace;
mod running;
mod stopwatch;
mod style;
mod template;
#[cfg(test)]
mod tests;

pub use build_lines::BuildLines;
pub use counts::Counts;
pub use display::Display;
pub use outputs::Outputs;
pub use stopwatch::Stopwatch;
pub use style::Style;
pub use template::unknown_placeholder;
