//! Reads ninja's command line.
//!
//! - `CommandLine`: the options, the targets and the words of a tool in a command line, in their order, as ninja's
//!   getopt_long reads them, and their meaning together.
//! - `Command`: what a command line asks for: to end, to run a tool, or to build targets (`Build`, in a `Mode`, with or
//!   without `Reasons`).
//! - `Argument`: one of them. `Flag` and `Setting` are the options without and with a value, and `Misuse` is the reason
//!   why a word isn't understood.
//! - `Stop`: the reason why ninja ends at an argument before it does anything else.
//! - `integer_in`: reads the number in a value.
//! - `option_letters`, `operands`: return the options and the other words among a tool's words.
//!
//! The options are those of ninja 1.11 (`ninja -h`). The Ninja manual's section "Running Ninja" names some of them.
#![tactic(auto)]

mod argument;
mod command;
mod command_line;
mod expected;
mod form;
mod integer;
mod letters;
mod long_option;
mod reader;
mod stop;
mod tool_words;

pub use argument::{Argument, Flag, Misuse, Setting};
pub use command::{Build, Command, Mode, Reasons};
pub use command_line::CommandLine;
pub use integer::{Integer, integer_in};
pub use long_option::{flags_named, long_name_in, name_of};
pub use stop::{Stop, stop_of};
pub use tool_words::{operands, option_letters};
