//! Builds the graph of a manifest: the files and waits of its edges, their ranks, and the edges that are built
//! by default.
#![tactic(auto)]

mod build_graph;
mod cycle;
mod edge_reader;
mod fault;
mod files;
mod further_waits;
mod graph_data;
mod laws;
mod walk;

pub use build_graph::graph;
pub use fault::GraphFault;
pub use files::{Files, Key};
pub use further_waits::{Wait, cycle_with};
pub use graph_data::{Graph, MAX_EDGES};
pub use laws::{
    defaults_ascend, files_complete, files_distinct, producers_numbered, producers_waited,
    ranked_unless_cyclic, ranks_rise, waits_ascend,
};
