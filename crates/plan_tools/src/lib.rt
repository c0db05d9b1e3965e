//! What a manifest is asked for beside a build: its targets, its commands, a compilation database, and the files that
//! its commands make.
//!
//! - `rules_of`: the rule of each edge, by the name that its build line gives.
//! - `write_all_targets`, `write_sources`, `write_target_tree`, `write_rule_targets`: the listings of `-t targets`.
//! - `root_paths`, `default_paths`: the paths that a build without targets makes.
//! - `chosen_edges`, `write_compilation_database`: the JSON text of `-t compdb`.
//! - `build_order`: what targets need, each edge behind those that it waits for; `write_build_commands`: their
//!   commands.
//! - `needed_paths`: the paths that targets need.
//! - `files_of_commands`, `files_of_rules`, `files_of_paths`: the files that `-t clean` removes. `dead_outputs`: those
//!   that `-t cleandead` removes.
//! - `Removable`, `RemovableFiles`: the files that these calls chose. Nothing else creates them.
//! - `closest`, `closest_path`: the word that is meant by another one.
//!
//! Edges are named by their numbers in the manifest, from 0; paths by their numbers in the graph. Source: ninja's own
//! tools (Ninja manual, "Extra tools").
#![tactic(auto)]

mod cleaning;
mod commands;
mod compilation_database;
mod json;
mod need;
mod order;
mod parts;
mod removable;
mod roots;
mod rule_listing;
mod rules;
mod suggestion;
mod targets;
mod tree;
mod tree_fault;

pub use cleaning::{dead_outputs, files_of_commands, files_of_paths, files_of_rules};
pub use commands::write_build_commands;
pub use compilation_database::{chosen_edges, write_compilation_database};
pub use need::needed_paths;
pub use order::{OrderFault, build_order};
pub use removable::{Removable, RemovableFiles};
pub use roots::{default_paths, root_paths};
pub use rule_listing::write_rule_targets;
pub use rules::rules_of;
pub use suggestion::{closest, closest_path};
pub use targets::{write_all_targets, write_sources};
pub use tree::write_target_tree;
pub use tree_fault::TreeFault;
