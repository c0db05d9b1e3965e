//! Line feeds after progress lines on a terminal.

ghost use Rattle.std.specs.Prelude.{◌≡◌, IfOk};
ghost use Rattle.plan_progress.specs.BuildLines as defined;

use std::alloc::{AllocError, Global};

/// Checks whether a text has a byte.
fn has_text(text: &[u8]) -> bool
    ensures { result ≡ defined.has_text text.now }
{
    match text {
        [] => false,
        [_, ..] => true,
    }
}

/// Checks whether a line is open after this progress line, which may be empty.
pub(crate) fn is_open(on_terminal: bool, line_open: bool, line: &[u8]) -> bool
    ensures { result ≡ defined.is_open on_terminal line_open line.now }
{
    line_open | (on_terminal & has_text(line))
}

/// Checks whether an open line ends before this text. `ends` says whether it ends even if the text is empty.
fn ends_line(ends: bool, below: &[u8]) -> bool
    ensures { result ≡ defined.ends_line ends below.now }
{
    ends | has_text(below)
}

/// Returns a line feed, or nothing.
fn feed_if(ends: bool) -> &'static [u8]
    ensures { result.now ≡ defined.feed_if ends }
{
    if ends { b"\n" } else { &[] }
}

/// Joins a progress line and the text below it.
pub(crate) fn joined(
    alloc: Global,
    line_open: bool,
    ends: bool,
    line: &[u8],
    below: &[u8],
) -> Result<Vec<u8>, AllocError>
    ensures { IfOk result (λ text. text.items ≡ defined.joined line_open ends line.now below.now) }
{
    let mut text = Vec::from_slice(alloc, line)?;
    text.extend_from_slice(feed_if(line_open & ends_line(ends, below)))?;
    text.extend_from_slice(below)?;
    Ok(text)
}

/// Checks whether a line is open after a progress line and the text below it.
pub(crate) fn stays_open(line_open: bool, ends: bool, below: &[u8]) -> bool
    ensures { result ≡ defined.stays_open line_open ends below.now }
{
    line_open & !ends_line(ends, below)
}
