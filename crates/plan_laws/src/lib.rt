//! Laws that relate a run of the image of a manifest to the manifest. This crate has no code.
//!
//! - `runs_keep_to_manifest`, `nothing_else_runs`: the questions of each edge follow the out-of-date rule, and the edge
//!   runs no command but its own.
//! - `commands_are_explained`: an edge that asks to run its command has a reason.
//! - `ends_are_plain`, `commands_run_once`: an edge that succeeded was clean and ran nothing, or its own command was
//!   asked for once, and ran to exit status 0.
//! - `finished_edges_are_right`, `finished_runs_are_right`: the meaning of the success of an edge, and of a run.
#![tactic(auto)]

mod laws;

pub use laws::{
    commands_are_explained, commands_run_once, ends_are_plain, finished_edges_are_right,
    finished_runs_are_right, nothing_else_runs, runs_keep_to_manifest,
};
