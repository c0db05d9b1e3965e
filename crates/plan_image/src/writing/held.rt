//! A buffer of bytes before a sink.

ghost use Rattle.std.specs.Prelude.{◌≡◌, ◌+◌, ◌≤◌, ◌++◌, [], length, OnOk, is_ok, vec_capacity, vec_len};
ghost use Rattle.plan_text.specs.Sinks.{Writes};
ghost use Rattle.plan_image.specs.Printing.{FailedPrintStays, Prints, PrintsJoin};

use crate::lister::WriteFault;
use plan_text::{Sink, write_all, writes_join};

/// States how consecutive prints combine. A complete print followed by another one counts as one print of all
/// bytes. A failed print of some bytes also counts as a failed print of more bytes.
pub(crate) fn prints_join()
    ensures join { PrintsJoin }
    ensures failed { FailedPrintStays }
{
    writes_join();
}

/// Writes the buffered bytes and empties the buffer.
pub(crate) fn hand_on<W: Sink>(held: &mut Vec<u8>, out: &mut W) -> Result<(), WriteFault>
    ensures written { Writes (is_ok result) (W.failures out.old, W.taken out.old) (W.failures out.new, W.taken out.new) held.old.items }
    ensures emptied { OnOk result (held.new.items ≡ []) }
{
    write_all(out, held)?;
    held.clear();
    Ok(())
}

/// Appends bytes to the buffer, in which they must fit.
#[inline(always)]
fn append(held: &mut Vec<u8>, bytes: &[u8])
    requires { vec_len held.old + length bytes.now ≤ vec_capacity held.old }
    ensures { held.new.items ≡ held.old.items ++ bytes.now }
{
    let Ok(()) = held.extend_from_slice(bytes) else {
        unreachable!()
    };
}

/// Prints bytes that do not fit into the buffer. Writes the buffered bytes first.
fn print_behind<W: Sink>(bytes: &[u8], held: &mut Vec<u8>, out: &mut W) -> Result<(), WriteFault>
    ensures { Prints (is_ok result) (held.old.items, (W.failures out.old, W.taken out.old)) (held.new.items, (W.failures out.new, W.taken out.new)) bytes.now }
{
    writes_join();
    hand_on(held, out)?;
    if bytes.len() <= held.capacity() - held.len() {
        append(held, bytes);
        return Ok(());
    }
    write_all(out, bytes)?;
    Ok(())
}

/// Prints bytes. They are buffered if they fit.
#[inline(always)]
pub(crate) fn print_bytes<W: Sink>(
    bytes: &[u8],
    held: &mut Vec<u8>,
    out: &mut W,
) -> Result<(), WriteFault>
    ensures { Prints (is_ok result) (held.old.items, (W.failures out.old, W.taken out.old)) (held.new.items, (W.failures out.new, W.taken out.new)) bytes.now }
{
    if bytes.len() <= held.capacity() - held.len() {
        append(held, bytes);
        return Ok(());
    }
    print_behind(bytes, held, out)
}
