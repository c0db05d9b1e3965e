//! Counts of command edges.

/// The number of edges that have started so far, and of those that have ended, by how they ended. All fields but
/// `failed` count only command edges.
#[derive(Clone, Copy, PartialEq, Eq)]
pub struct Counts {
    /// They have started, or an input of them is missing.
    pub started: u64,
    /// Their commands ran, or they failed.
    pub finished: u64,
    /// They succeeded without running a command.
    pub clean: u64,
    /// They were skipped because of another edge.
    pub skipped: u64,
    /// They were stopped, because the failure limit had been reached.
    pub not_started: u64,
    /// The number of edges that failed, with or without a command.
    pub failed: u64,
    /// The number of edges that have started, or failed for another reason than a missing input. If it is 0, nothing
    /// ran.
    pub tried: u64,
}
