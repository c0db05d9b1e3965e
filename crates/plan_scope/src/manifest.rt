//! Manifests: the evaluated form of a tree's statements.

mod additions;
pub(crate) mod commands;
mod defaults;
pub(crate) mod evaluator;
mod pools;
pub(crate) mod rules;

use crate::edge::edge_list::EdgeList;
use plan_text::{Items, SmallText};

/// A pool, which limits the number of its edges that run at once.
#[derive(Drop)]
pub struct Pool {
    /// The name by which edges refer to it.
    pub name: Items<u8>,
    /// The number of its edges that may run at once, at most 1,000,000. 0 means no limit.
    pub depth: u64,
}

/// A target of a `default` statement.
#[derive(Drop)]
pub struct DefaultTarget {
    /// Its canonical path.
    pub path: SmallText,
    /// The number of build lines above the statement.
    pub edges_above: usize,
}

/// The meaning of a tree: its edges, pools and default targets.
#[derive(Drop)]
pub struct Manifest {
    /// One edge for each build line, in their order.
    pub edges: EdgeList,
    /// The pool `console`, and then the declared pools in their order.
    pub pools: Items<Pool>,
    /// The targets of all `default` statements in their order.
    pub defaults: Items<DefaultTarget>,
}
