//! Compiles manifests to images: the code of each edge asks, compares, runs and records what the out-of-date
//! rule requires.
//!
//! - `compile` returns the image of a manifest with its graph, or a `CompileFault`.
//! - `collect_names` returns the `EdgeNames` of a manifest, which don't depend on its graph, and `compile_with`
//!   compiles with them. So another thread can build the graph meanwhile. `compile_with` generates the codes of edges
//!   in up to four threads.
//! - `EdgeLayout` is an edge by its numbers in an image's tables. It has one variant for each sort of edge:
//!   `CommandLayout`, `GatherLayout`, or the outputs of a phony without inputs. `Input` and `Output` are its
//!   inputs and outputs. `layouts` returns the layouts of the edges of a manifest, and by law
//!   `layouts_are_facts` the layout of an edge with a command means the facts that the rule is applied to.
//! - `OutOfDateRule` is the rule that an image is compiled for, and `Baseline` is the baseline of an edge under
//!   it.
//! - `edge_code` returns the code of an edge, or a `CompileFault`.
//! - `command_means`, `phony_means`, `runs_keep_to_rule`, `command_shaped` and `phony_shaped` are laws about
//!   the code of every edge, for the proofs of the crates above: it follows the out-of-date rule, and the
//!   verifier accepts it.
//! - `stricter_is_no_laxer`, `changes_are_seen` and `unchanged_is_clean` compare the stricter rule with the
//!   specified one.
//!
//! The rule is Ninja's, as far as the manual states it. The order of an edge's questions is this project's own.
//! docs/rules/out-of-date.md lists the rules.
#![tactic(auto)]

mod all_layouts;
mod baseline;
mod bodies;
mod body_table;
mod build;
mod code;
mod collecting;
mod command;
mod compiling;
mod edge_layout;
mod edge_names;
mod edges;
mod emitting;
mod fault;
mod file_numbers;
mod generator;
mod halves;
mod image_laws;
mod inputs;
mod laws;
mod layout;
mod lists;
mod lookups;
mod names;
mod numbers;
mod opcodes;
mod outputs;
mod slot_pattern;
mod slots;
mod text_key;

pub use all_layouts::layouts;
pub use baseline::{Baseline, OutOfDateRule};
pub use collecting::collect_names;
pub use compiling::{compile, compile_with};
pub use edge_names::EdgeNames;
pub use emitting::edge_code;
pub use fault::CompileFault;
pub use image_laws::{
    image_is_faithful, image_is_laid_out, image_is_shaped, image_is_spelled, image_keeps_to_rule,
    image_means, inputs_are_loaded, layouts_are_facts, manifests_are_sound, one_assignment,
};
pub use laws::{
    changes_are_seen, command_means, command_shaped, phony_means, phony_shaped, runs_keep_to_rule,
    stricter_is_no_laxer, unchanged_is_clean,
};
pub use layout::{CommandLayout, EdgeLayout, GatherLayout, Input, Output};
pub use slot_pattern::SlotPattern;
