//! How the text of a build is shown.

use crate::style::Style;

/// How the text of a build is shown.
#[derive(Clone, Copy)]
pub struct Display<'a> {
    /// How commands are shown.
    pub style: Style,
    /// A terminal shows the text: each progress line is written over the one before it.
    pub on_terminal: bool,
    /// Escape sequences are wanted, so that `FAILED:` is red.
    pub colours: bool,
    /// The template of the text before a label, as ninja's `NINJA_STATUS`: a percent sign and the byte after it are a
    /// placeholder. An unknown placeholder has no text.
    pub template: &'a [u8],
    /// The number of columns of the terminal. A progress line that is longer is cut in its middle. If it is 0, the
    /// number isn't known, and the terminal cuts the line at its end.
    pub width: usize,
}
