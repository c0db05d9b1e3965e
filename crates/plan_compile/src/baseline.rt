//! The out-of-date rule that an image is compiled for, and the baseline of an edge under it.

/// The out-of-date rule that an image is compiled for.
#[derive(Clone, Copy, PartialEq, Eq)]
pub enum OutOfDateRule {
    /// An edge compares its newest input with its oldest output, or with the recorded basis if it is restat.
    Specified,
    /// An edge that is neither restat nor a generator compares its newest input with both. A phony with inputs asks for
    /// the files of its outputs too.
    Stricter,
}

/// The stamp that the newest input of an edge must not exceed. Without a recorded entry it is that of the
/// oldest output.
#[derive(Clone, Copy, PartialEq, Eq)]
pub enum Baseline {
    /// The stamp of the oldest output.
    Outputs,
    /// The recorded basis.
    Basis,
    /// The earlier of the stamp of the oldest output and the recorded basis.
    OutputsAndBasis,
}
