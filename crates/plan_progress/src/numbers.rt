//! The numbers of a progress line.

/// The numbers that a progress line can show: how many command edges there are of each kind, and the time.
#[derive(Clone, Copy, PartialEq, Eq)]
pub struct Numbers {
    /// They have started, or an input of them is missing.
    pub started: u64,
    /// The targets need them, and they aren't clean.
    pub total: u64,
    /// Their commands run. The command whose end is shown is among them.
    pub running: u64,
    /// Their commands ran, or they failed.
    pub finished: u64,
    /// The milliseconds since the build began.
    pub elapsed: u64,
    /// How many finish in ten seconds, by the last ones that did. None if it isn't known.
    pub recent: Option<u64>,
}
