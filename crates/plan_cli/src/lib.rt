//! The command line of plan_ninja, and the requests that it makes.
//!
//! - `words_in` returns the words that the program was started with.
//! - `request_in` returns the request that the words make, or a `EarlyExit`: the text of the help, or the reason why
//!   the words are refused.
//!
//! The commands, the options and their help are this project's own (docs/developing/architecture.md). clap parses the
//! words and lays out the texts. No contract specifies the meaning of the words. The rows of tests/rows test it.
#![tactic(auto)]

mod commands;
mod request;

pub use commands::RunWords;
pub use request::{EarlyExit, FileRequest, Request, request_in, words_in};
