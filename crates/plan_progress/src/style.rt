//! How the text of a build shows commands.

/// How the text of a build shows a command that ended.
#[derive(Clone, Copy, PartialEq, Eq)]
pub enum Style {
    /// By the label of its edge.
    Labels,
    /// By the text of the command, as `-v` wants it.
    Commands,
    /// Only if it failed, as `--quiet` wants it.
    Failures,
}
