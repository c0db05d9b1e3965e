//! Status lines of a run's marks.

ghost use Rattle.std.specs.Prelude.{◌≡◌, ◌<◌, ◌≤◌, ◌+◌, if◌then◌else◌, IfOk, drop, length, take};
ghost use Rattle.std.specs.Result.{result_err};
ghost use Rattle.plan_status.specs.Lines as defined;
ghost use Rattle.plan_status.specs.Lines.{lines_behind, lines_of};
ghost use Rattle.plan_status.specs.Printing.{Prints};

use crate::fault::PrintFault;
use crate::laws::join_laws;
use crate::lines::{line_of, tells_end};
use plan_image::Parts;
use plan_machine::Mark;
use plan_text::{Sink, write_all};
use plan_verify::Verified;
use std::alloc::{AllocError, Global};

/// Returns the number of command edges that have ended, after one more mark.
pub(crate) fn counted_on(parts: &Parts, n: u64, mark: Mark) -> u64
    requires { n < 18446744073709551615 }
    ensures { result ≡ (if defined.tells_end parts.now mark then 1 else 0) + n }
{
    if tells_end(parts, mark) { n + 1 } else { n }
}

/// Returns the status lines of the marks of a run, from the first to the last. `total` is the number of command edges
/// that the run may come to. An edge whose command ran gives `[n/m] LABEL`: `n` counts the marks so far that say how a
/// command edge ended, and `m` is the total. A failed edge gives `FAILED NAME: CAUSE`, and a command edge that was
/// skipped or stopped `SKIPPED NAME: needs NAME` or `STOPPED NAME`. A mark that names an edge or a file outside the
/// image gives no line, and isn't counted.
///
/// # Errors
/// `AllocError` if memory runs out.
pub fn status_lines(
    alloc: Global,
    image: &Verified,
    total: u64,
    marks: &[Mark],
) -> Result<Vec<u8>, AllocError>
    ensures { IfOk result (λ text. text.items ≡ lines_of image.now total marks.now) }
{
    let parts = image.image().parts();
    let mut text = Vec::new(alloc);
    let mut n = 0u64;
    for mark in marks {
        n = counted_on(parts, n, *mark);
        let line = line_of(alloc, parts, total, n, *mark)?;
        text.extend_from_slice(&line)?;
    }
    Ok(text)
}

/// Writes the line of a mark. `n` is the number of command edges that have ended, with this one.
fn print_line<W: Sink>(
    alloc: Global,
    parts: &Parts,
    total: u64,
    n: u64,
    mark: Mark,
    out: &mut W,
) -> Result<(), PrintFault>
    ensures { Prints (defined.line_of parts.now total n mark) (result_err result) (W.failures out.old, W.taken out.old) (W.failures out.new, W.taken out.new) }
{
    let line = line_of(alloc, parts, total, n, mark)?;
    write_all(out, &line)?;
    Ok(())
}

/// Writes the lines of the marks from index `from` on. `n` of the marks before them say how a command edge ended.
pub(crate) fn print_behind<W: Sink>(
    alloc: Global,
    image: &Verified,
    total: u64,
    marks: &[Mark],
    from: usize,
    n: u64,
    out: &mut W,
) -> Result<(), PrintFault>
    requires within { from ≤ length marks.now }
    requires counted { n ≡ defined.ends image.now (take from marks.now) }
    ensures { Prints (lines_behind image.now total (take from marks.now) (drop from marks.now)) (result_err result) (W.failures out.old, W.taken out.old) (W.failures out.new, W.taken out.new) }
{
    join_laws();
    let parts = image.image().parts();
    let mut n = n;
    for at in from..marks.len() {
        n = counted_on(parts, n, marks[at]);
        match print_line(alloc, parts, total, n, marks[at], out) {
            Ok(()) => {}
            Err(fault) => return Err(fault),
        }
    }
    Ok(())
}

/// Writes the status lines of the marks of a run, as `status_lines` returns them. It holds one line at a time.
///
/// # Errors
/// `Memory` or `Write`. Then the sink took a prefix of the lines.
pub fn print<W: Sink>(
    alloc: Global,
    image: &Verified,
    total: u64,
    marks: &[Mark],
    out: &mut W,
) -> Result<(), PrintFault>
    ensures { Prints (lines_of image.now total marks.now) (result_err result) (W.failures out.old, W.taken out.old) (W.failures out.new, W.taken out.new) }
{
    print_behind(alloc, image, total, marks, 0, 0, out)
}
