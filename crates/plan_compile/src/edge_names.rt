//! The texts and the pools of edges, and the numbers of each edge.

use crate::names::Texts;
use crate::numbers::Numbers;

/// The texts of all edges, the names of the pools that edges use, and the numbers of each edge.
#[derive(Drop)]
pub struct EdgeNames<'a> {
    pub(crate) texts: Texts<'a>,
    pub(crate) pools: Texts<'a>,
    pub(crate) numbers: Vec<Numbers>,
}
