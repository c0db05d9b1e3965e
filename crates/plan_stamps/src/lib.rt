//! Wraps another world, and asks it for the stamp of a path only once while no command runs.
#![tactic(auto)]

mod ahead;
mod asked;
mod cache;
mod commands;
mod kept;

pub use cache::StampCache;
