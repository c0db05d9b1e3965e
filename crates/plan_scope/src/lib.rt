//! Evaluates the statements of a manifest into its edges and their commands.
#![tactic(auto)]

mod edge;
mod fault;
mod laws;
mod manifest;
mod scope;
mod tree;

pub use edge::addition::Addition;
pub use edge::edge_list::{EdgeList, EdgePaths, EdgeRef};
pub use edge::text_list::{EdgeText, write_text};
pub use fault::{Cause, ScopeFault};
pub use laws::{
    extended_is_sound, extended_runs_the_same, loaded_manifests_are_sound, manifests_are_sound,
    trees_are_whole,
};
pub use manifest::commands::{WriteFault, write_commands};
pub use manifest::evaluator::evaluate;
pub use manifest::{DefaultTarget, Manifest, Pool};
pub use scope::cow_text::CowText;
pub use scope::path_range::PathRange;
pub use tree::loader::load;
pub use tree::parsed::Statements;
pub use tree::source::{Source, SourceFault};
pub use tree::{Said, Tree, TreeStatement};
