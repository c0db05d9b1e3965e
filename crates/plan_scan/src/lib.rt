//! Finds out whether anything is to do, before a build compiles its manifest.
//!
//! - `has_nothing_to_do` asks a world about all files of a graph and about the entries of all wanted edges, and checks
//!   each edge by the stricter out-of-date rule. If it returns true, each wanted edge follows the rule to its end and
//!   runs nothing (`HasNothingToDo`). It may return false although nothing is to do, as it does if the stamp of a file
//!   can't be determined.
//! - `Found` is what a scan has found of a file.
//!
//! docs/rules/out-of-date.md has the rule.
#![tactic(auto)]

mod by_threads;
mod commands;
mod doubt;
mod entries;
mod files;
mod found;
mod inputs;
mod phonies;
mod scan;
mod wanted;

pub use found::Found;
pub use scan::has_nothing_to_do;
