//! Lines that are cut in their middle, so that they fit a terminal.

ghost use Rattle.std.specs.Prelude.{◌≡◌, ◌≤◌, IfOk, length};
ghost use Rattle.std.specs.List.{list_all};
ghost use Rattle.plan_progress.specs.Eliding as defined;

use crate::lines::concatenate;
use std::alloc::{AllocError, Global};

/// Checks whether a byte is shown in one column: it is a printable byte of ASCII.
fn takes_a_column(byte: u8) -> bool
    ensures { result ≡ defined.takes_a_column byte }
{
    (32 <= byte) & (byte <= 126)
}

/// Checks whether each byte of a text is shown in one column.
fn is_plain(text: &[u8]) -> bool
    ensures { result ≡ list_all defined.takes_a_column text.now }
{
    text.iter().all(|byte| takes_a_column(*byte))
}

/// Checks whether a text isn't cut: it is short enough, or a width isn't known.
fn fits(width: usize, text: &[u8]) -> bool
    ensures { result ≡ defined.fits width text.now }
{
    (width == 0) | (text.len() <= width) | !is_plain(text)
}

/// Returns the number of bytes that are shown on each side of the gap.
fn side_of(width: usize) -> usize
    ensures { result ≡ defined.side_of width }
{
    width.saturating_sub(3) / 2
}

/// Returns a text whose middle is left out.
fn with_gap(alloc: Global, side: usize, text: &[u8]) -> Result<Vec<u8>, AllocError>
    requires { side ≤ length text.now }
    ensures { IfOk result (λ shown. shown.items ≡ defined.with_gap side text.now) }
{
    let back = text.len() - side;
    concatenate(alloc, &[&text[..side], b"...", &text[back..]])
}

/// Returns a text that is cut to a width.
pub(crate) fn elided(alloc: Global, width: usize, text: &[u8]) -> Result<Vec<u8>, AllocError>
    ensures { IfOk result (λ shown. shown.items ≡ defined.elided width text.now) }
{
    if fits(width, text) {
        return Ok(Vec::from_slice(alloc, text)?);
    }
    with_gap(alloc, side_of(width), text)
}
