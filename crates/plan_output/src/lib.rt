//! What a program shows of what commands print.
//!
//! - `shown_output` returns the text of a command's output as it is shown: without the escape sequences of terminals,
//!   if they aren't wanted, and with a line feed at its end.
//! - `signal_line` returns the line that says which signal ended a command.
#![tactic(auto)]

mod escapes;
mod signals;
#[cfg(test)]
mod tests;

pub use escapes::shown_output;
pub use signals::signal_line;
