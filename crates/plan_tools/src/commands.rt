//! The commands of `-t commands`.

ghost use Rattle.std.specs.Prelude.{◌≡◌, is_ok, option_map, slice_get};
ghost use Rattle.std.specs.List.{flat_map};
ghost use Rattle.plan_text.specs.Sinks.{Writes};
ghost use Rattle.plan_scope.specs.TextLists.{whole};
ghost use Rattle.plan_tools.specs.Commands as defined;
ghost use Rattle.plan_tools.specs.CompilationDatabase.{command_of};
ghost use Rattle.plan_tools.specs.Listings.{line};

use plan_scope::{EdgeText, Manifest, write_text};
use plan_text::{Sink, SinkFault, write_all, writes_join};

/// Returns the command of an edge; none if there is no such edge.
pub(crate) fn command_at(manifest: &Manifest, edge: usize) -> Option<EdgeText<'_>>
    ensures { defined.text_or_none result ≡ command_of (slice_get manifest.now.edges edge) }
{
    if edge >= manifest.edges.len() {
        return None;
    }
    Some(manifest.edges.edge(edge).command())
}

/// Returns the command of an edge; none of a phony, or if there is no such edge.
fn command_to_list(manifest: &Manifest, edge: usize) -> Option<EdgeText<'_>>
    ensures { option_map whole result ≡ defined.command_in (slice_get manifest.now.edges edge) }
{
    if edge >= manifest.edges.len() {
        return None;
    }
    let edge = manifest.edges.edge(edge);
    if edge.is_phony() {
        return None;
    }
    Some(edge.command())
}

/// Writes a text on a line.
fn write_text_line<W: Sink>(text: &EdgeText<'_>, out: &mut W) -> Result<(), SinkFault>
    ensures { Writes (is_ok result) (W.failures out.old, W.taken out.old) (W.failures out.new, W.taken out.new) (line (whole text.now)) }
{
    writes_join();
    match write_text(text, out) {
        Ok(()) => write_all(out, b"\n"),
        Err(fault) => Err(fault),
    }
}

/// Writes the command of an edge on a line, if it has one.
fn write_command<W: Sink>(manifest: &Manifest, edge: u32, out: &mut W) -> Result<(), SinkFault>
    ensures { Writes (is_ok result) (W.failures out.old, W.taken out.old) (W.failures out.new, W.taken out.new) (defined.command_line manifest.now edge) }
{
    match command_to_list(manifest, edge as usize) {
        Some(command) => write_text_line(&command, out),
        None => Ok(()),
    }
}

/// Writes the command of each of these edges that isn't a phony, in their order, a newline after each.
///
/// # Errors
/// A write failed: then the sink took a front of the text.
pub fn write_build_commands<W: Sink>(
    manifest: &Manifest,
    edges: &[u32],
    out: &mut W,
) -> Result<(), SinkFault>
    ensures { Writes (is_ok result) (W.failures out.old, W.taken out.old) (W.failures out.new, W.taken out.new) (flat_map (defined.command_line manifest.now) edges.now) }
{
    writes_join();
    for edge in edges {
        match write_command(manifest, *edge, out) {
            Ok(()) => {}
            Err(fault) => return Err(fault),
        }
    }
    Ok(())
}
