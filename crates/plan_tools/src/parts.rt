//! Texts written part by part.

ghost use Rattle.std.specs.Prelude.{is_ok, map};
ghost use Rattle.std.specs.List.{flat_map};
ghost use Rattle.plan_text.specs.Sinks.{Writes};

use plan_text::{Sink, SinkFault, write_all, writes_join};

/// Writes some texts, one behind another.
pub(crate) fn write_parts<W: Sink>(parts: &[&[u8]], out: &mut W) -> Result<(), SinkFault>
    ensures { Writes (is_ok result) (W.failures out.old, W.taken out.old) (W.failures out.new, W.taken out.new) (flat_map (λ p. p.now) parts.now) }
{
    writes_join();
    for part in parts {
        match write_all(out, part) {
            Ok(()) => {}
            Err(fault) => return Err(fault),
        }
    }
    Ok(())
}
