//! The numbers of the texts and the pool of an edge.

/// The numbers of an edge's texts and of its pool.
#[derive(Clone, Copy)]
pub(crate) struct Numbers {
    pub(crate) label: u32,
    /// 0 if the edge is a phony.
    pub(crate) command: u32,
    pub(crate) depfile: Option<u32>,
    pub(crate) pool: Option<u32>,
}
