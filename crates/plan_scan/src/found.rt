//! What a scan has found of a file.

/// What a scan has found of an output: what its edge leaves for other edges.
#[derive(Clone, Copy, PartialEq, Eq)]
pub struct Found {
    /// The stamp, in nanoseconds since 1970. 0 if the file is missing.
    pub stamp: u64,
    /// Whether it counts as changed.
    pub changed: bool,
}
