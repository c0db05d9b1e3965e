//! Reasons why an edge is out of date.

/// Why an edge is dirty. Positions are counted from 0.
#[derive(Clone, Copy, PartialEq, Eq)]
pub enum Reason {
    /// An output is missing: its position among the outputs.
    OutputMissing(usize),
    /// An edge changed a named input: its position among the named inputs.
    InputChanged(usize),
    /// The record has no entry.
    NeverBuilt,
    /// The command was started and has not succeeded: the record has a start entry.
    NotFinished,
    /// The record has another command.
    OtherCommand,
    /// A recorded path is missing: its position among the recorded paths.
    PathMissing(usize),
    /// A file is later than the baseline: its position among the named inputs and, after these, the recorded paths; and
    /// the baseline.
    Newer(usize, u64),
}
