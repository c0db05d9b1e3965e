//! The JSON text of `-t compdb`.

ghost use Rattle.std.specs.Prelude.{◌≡◌, ◌++◌, ◌<◌, IfOk, OnOk, codes, is_ok, length, map, slice_get};
ghost use Rattle.plan_text.specs.Sinks.{Writes};
ghost use Rattle.plan_tools.specs.Commands.{text_or_none};
ghost use Rattle.plan_tools.specs.CompilationDatabase as defined;
ghost use Rattle.plan_tools.specs.Inputs.{inputs_at};
ghost use Rattle.plan_tools.specs.Listings.{of_first};

use crate::commands::command_at;
use crate::json::{Piece, write_pieces};
use crate::roots::is_made_by;
use crate::targets::path_at;
use plan_graph::Graph;
use plan_scope::{EdgeText, Manifest};
use plan_text::{Memory, RowList, Sink, SinkFault, write_all, writes_join};
use std::alloc::Global;

/// Appends an edge as often as its rule is among these names.
fn add_named(edge: u32, rule: &[u8], names: &[&[u8]], chosen: &mut Vec<u32>) -> Result<(), Memory>
    ensures { OnOk result (chosen.new.items ≡ chosen.old.items ++ defined.named_in (map (λ n. n.now) names.now) rule.now edge) }
{
    for name in names {
        if *name == rule {
            chosen.push(edge)?;
        }
    }
    Ok(())
}

/// Returns the first input of an edge that the edge doesn't make.
fn first_input(graph: &Graph<'_>, edge: usize) -> Option<u32>
    ensures { result ≡ slice_get (inputs_at graph.now edge) 0 }
{
    for input in graph.inputs.row(edge) {
        if !is_made_by(graph, edge, *input) {
            return Some(*input);
        }
    }
    None
}

/// Appends an edge as often as its rule is among these names, once if there are no names; never without inputs.
fn add_chosen(
    graph: &Graph<'_>,
    edge: u32,
    rule: &[u8],
    names: &[&[u8]],
    chosen: &mut Vec<u32>,
) -> Result<(), Memory>
    ensures { OnOk result (chosen.new.items ≡ chosen.old.items ++ defined.if_used (inputs_at graph.now edge) (defined.named_or_all (map (λ n. n.now) names.now) rule.now edge)) }
{
    if first_input(graph, edge as usize).is_none() {
        return Ok(());
    }
    if names.is_empty() {
        chosen.push(edge)?;
        return Ok(());
    }
    add_named(edge, rule, names, chosen)
}

/// Returns the edges of the rules of these names that have inputs, in the order of build lines; all of them if there
/// are no names. An edge whose rule is named twice is there twice, as in ninja.
///
/// # Errors
/// Memory runs out.
pub fn chosen_edges(
    alloc: Global,
    graph: &Graph<'_>,
    rules: &RowList<u8>,
    names: &[&[u8]],
) -> Result<Vec<u32>, Memory>
    ensures { IfOk result (λ chosen. chosen.items ≡ defined.chosen_edges graph.now rules.now (map (λ n. n.now) names.now)) }
{
    let mut chosen = Vec::new(alloc);
    for edge in 0..graph.inputs.len() {
        let Ok(number) = u32::try_from(edge) else {
            return Err(Memory);
        };
        add_chosen(graph, number, rules.row(edge), names, &mut chosen)?;
    }
    Ok(chosen)
}

/// Returns the path of the first input of an edge; empty if there is none.
fn first_input_path<'a>(graph: &Graph<'a>, edge: usize) -> &'a [u8]
    ensures { result.now ≡ defined.first_path graph.now (inputs_at graph.now edge) }
{
    match first_input(graph, edge) {
        Some(input) => path_at(graph, input),
        None => &[],
    }
}

/// Returns the path of the first of some numbers; empty if there is none.
fn first_path<'a>(graph: &Graph<'a>, numbers: &[u32]) -> &'a [u8]
    ensures { result.now ≡ defined.first_path graph.now numbers.now }
{
    match numbers {
        [] => &[],
        [number, ..] => path_at(graph, *number),
    }
}

/// What stands in front of the object of a number: a comma, but for the first.
fn comma_before(number: usize) -> &'static [u8]
    ensures { result.now ≡ defined.comma_before number }
{
    if number == 0 { &[] } else { b"," }
}

/// Writes an object behind what stands in front of it.
fn write_object<'x, W: Sink>(
    front: &'x [u8],
    folder: &'x [u8],
    command: &'x Option<EdgeText<'x>>,
    file: &'x [u8],
    output: &'x [u8],
    out: &mut W,
) -> Result<(), SinkFault>
    ensures { Writes (is_ok result) (W.failures out.old, W.taken out.old) (W.failures out.new, W.taken out.new) (front.now ++ defined.object folder.now (text_or_none command.now) file.now output.now) }
{
    let pieces = [
        Piece::Plain(front),
        Piece::Plain(b"\n  {\n    \"directory\": \""),
        Piece::Json(folder),
        Piece::Plain(b"\",\n    \"command\": \""),
        Piece::JsonText(command),
        Piece::Plain(b"\",\n    \"file\": \""),
        Piece::Json(file),
        Piece::Plain(b"\",\n    \"output\": \""),
        Piece::Json(output),
        Piece::Plain(b"\"\n  }"),
    ];
    write_pieces(&pieces, out)
}

/// Writes the object of a number behind its comma.
fn write_listed<W: Sink>(
    folder: &[u8],
    manifest: &Manifest,
    graph: &Graph<'_>,
    edges: &[u32],
    number: usize,
    out: &mut W,
) -> Result<(), SinkFault>
    requires { number < length edges.now }
    ensures { Writes (is_ok result) (W.failures out.old, W.taken out.old) (W.failures out.new, W.taken out.new) (defined.listed_object folder.now manifest.now graph.now edges.now number) }
{
    let edge = edges[number] as usize;
    write_object(
        comma_before(number),
        folder,
        &command_at(manifest, edge),
        first_input_path(graph, edge),
        first_path(graph, graph.outputs.row(edge)),
        out,
    )
}

/// Writes the objects of edges, a comma between two.
fn write_objects<W: Sink>(
    folder: &[u8],
    manifest: &Manifest,
    graph: &Graph<'_>,
    edges: &[u32],
    out: &mut W,
) -> Result<(), SinkFault>
    ensures { Writes (is_ok result) (W.failures out.old, W.taken out.old) (W.failures out.new, W.taken out.new) (of_first (defined.listed_object folder.now manifest.now graph.now edges.now) (length edges.now)) }
{
    writes_join();
    for number in 0..edges.len() {
        match write_listed(folder, manifest, graph, edges, number, out) {
            Ok(()) => {}
            Err(fault) => return Err(fault),
        }
    }
    Ok(())
}

/// Writes the objects of edges and the end of the array.
fn write_rest<W: Sink>(
    folder: &[u8],
    manifest: &Manifest,
    graph: &Graph<'_>,
    edges: &[u32],
    out: &mut W,
) -> Result<(), SinkFault>
    ensures { Writes (is_ok result) (W.failures out.old, W.taken out.old) (W.failures out.new, W.taken out.new) (of_first (defined.listed_object folder.now manifest.now graph.now edges.now) (length edges.now) ++ codes "\n]\n") }
{
    writes_join();
    match write_objects(folder, manifest, graph, edges, out) {
        Ok(()) => write_all(out, b"\n]\n"),
        Err(fault) => Err(fault),
    }
}

/// Writes the compilation database of some edges: a JSON array that has for each an object with the folder, the
/// command, the first input and the first output.
///
/// # Errors
/// A write failed: then the sink took a front of the text.
pub fn write_compilation_database<W: Sink>(
    folder: &[u8],
    manifest: &Manifest,
    graph: &Graph<'_>,
    edges: &[u32],
    out: &mut W,
) -> Result<(), SinkFault>
    ensures { Writes (is_ok result) (W.failures out.old, W.taken out.old) (W.failures out.new, W.taken out.new) (defined.database folder.now manifest.now graph.now edges.now) }
{
    writes_join();
    match write_all(out, b"[") {
        Ok(()) => write_rest(folder, manifest, graph, edges, out),
        Err(fault) => Err(fault),
    }
}
