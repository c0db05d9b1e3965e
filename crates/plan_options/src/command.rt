//! The command that a command line gives.

use crate::argument::Argument;

/// Whether commands run in a build.
#[derive(Clone, Copy, PartialEq, Eq)]
pub enum Mode {
    /// Commands run.
    Real,
    /// No command runs. It is printed which commands would run.
    Dry,
}

/// Whether the reason for each command is shown.
#[derive(Clone, Copy, PartialEq, Eq)]
pub enum Reasons {
    /// It is shown.
    Shown,
    /// It isn't shown.
    Hidden,
}

/// A build of targets.
#[derive(Clone, Copy, PartialEq, Eq)]
pub enum Build {
    /// A build of the targets of the command line.
    Targets(Mode, Reasons),
    /// The tool `explain`: a dry build that shows reasons. Its targets are the words of the tool.
    Explain,
}

/// What a command line asks for.
#[derive(Clone, Copy)]
pub enum Command<'a> {
    /// To end at this argument: to print what it asks for, or to report why it is refused.
    Stop(&'a Argument),
    /// To run the tool with this name, on the words of the tool.
    Tool(&'a [u8]),
    /// To build targets.
    Build(Build),
}
