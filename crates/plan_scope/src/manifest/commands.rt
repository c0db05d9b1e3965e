//! Writes the commands of a manifest.

ghost use Rattle.std.specs.Prelude.{◌≡◌, [], ◌∷◌, ◌++◌, is_ok};
ghost use Rattle.plan_text.specs.Bytes.{line_feed};
ghost use Rattle.plan_text.specs.Sinks.{Writes};
ghost use Rattle.plan_scope.specs.Edges.{command_line, commands_of};
ghost use Rattle.plan_scope.specs.TextLists.{whole};

use crate::edge::edge_list::EdgeRef;
use crate::edge::text_list::{EdgeText, write_text};
use crate::manifest::Manifest;
use plan_text::{Sink, SinkFault, write_all, writes_join};

/// A write to the sink failed.
#[derive(Clone, Copy, PartialEq, Eq)]
pub struct WriteFault;

impl From<SinkFault> for WriteFault {
    fn from(_fault: SinkFault) -> WriteFault {
        WriteFault
    }
}

/// Writes a text and a newline.
fn write_line<W: Sink>(statement: &EdgeText<'_>, out: &mut W) -> Result<(), WriteFault>
    ensures { Writes (is_ok result) (W.failures out.old, W.taken out.old) (W.failures out.new, W.taken out.new) (whole statement.now ++ line_feed ∷ []) }
{
    writes_join();
    write_text(statement, out)?;
    write_all(out, b"\n")?;
    Ok(())
}

/// Writes the command of an edge and a newline. Writes nothing for a phony edge.
fn write_command<W: Sink>(edge: &EdgeRef<'_>, out: &mut W) -> Result<(), WriteFault>
    ensures { Writes (is_ok result) (W.failures out.old, W.taken out.old) (W.failures out.new, W.taken out.new) (command_line edge.now) }
{
    if edge.is_phony() {
        return Ok(());
    }
    write_line(&edge.command(), out)
}

/// Writes the command of each edge that isn't phony, in order, with a newline after each.
///
/// # Errors
///
/// `WriteFault` at the first failed write. The sink has then taken only bytes before it.
pub fn write_commands<W: Sink>(manifest: &Manifest, out: &mut W) -> Result<(), WriteFault>
    ensures { Writes (is_ok result) (W.failures out.old, W.taken out.old) (W.failures out.new, W.taken out.new) (commands_of manifest.now) }
{
    writes_join();
    for number in 0..manifest.edges.len() {
        write_command(&manifest.edges.edge(number), out)?;
    }
    Ok(())
}
