//! The listings of `-t targets`.

ghost use Rattle.std.specs.Prelude.{◌≡◌, is_ok};
ghost use Rattle.std.specs.List.{flat_map};
ghost use Rattle.plan_text.specs.Sinks.{Writes};
ghost use Rattle.plan_tools.specs.Listings as defined;

use crate::parts::write_parts;
use plan_graph::Graph;
use plan_text::{RowList, Sink, SinkFault, writes_join};

/// The path of a number; empty if there is none.
pub(crate) fn path_at<'a>(graph: &Graph<'a>, number: u32) -> &'a [u8]
    ensures { result.now ≡ defined.path_at graph.now number }
{
    match graph.files.path(number as usize) {
        Some(path) => path,
        None => &[],
    }
}

/// Writes a line of a path and the rule that makes it.
pub(crate) fn write_rule_line<W: Sink>(
    path: &[u8],
    rule: &[u8],
    out: &mut W,
) -> Result<(), SinkFault>
    ensures { Writes (is_ok result) (W.failures out.old, W.taken out.old) (W.failures out.new, W.taken out.new) (defined.rule_line path.now rule.now) }
{
    write_parts(&[path, b": ", rule, b"\n"], out)
}

/// Writes the line of an output of an edge with this rule.
fn write_output<W: Sink>(
    graph: &Graph<'_>,
    output: u32,
    rule: &[u8],
    out: &mut W,
) -> Result<(), SinkFault>
    ensures { Writes (is_ok result) (W.failures out.old, W.taken out.old) (W.failures out.new, W.taken out.new) (defined.output_line graph.now rule.now output) }
{
    write_rule_line(path_at(graph, output), rule, out)
}

/// Writes a line for each output of an edge.
fn write_outputs<W: Sink>(
    graph: &Graph<'_>,
    outputs: &[u32],
    rule: &[u8],
    out: &mut W,
) -> Result<(), SinkFault>
    ensures { Writes (is_ok result) (W.failures out.old, W.taken out.old) (W.failures out.new, W.taken out.new) (flat_map (defined.output_line graph.now rule.now) outputs.now) }
{
    writes_join();
    for output in outputs {
        match write_output(graph, *output, rule, out) {
            Ok(()) => {}
            Err(fault) => return Err(fault),
        }
    }
    Ok(())
}

/// Writes the lines of the edge of a number.
fn write_edge<W: Sink>(
    graph: &Graph<'_>,
    rules: &RowList<u8>,
    edge: usize,
    out: &mut W,
) -> Result<(), SinkFault>
    ensures { Writes (is_ok result) (W.failures out.old, W.taken out.old) (W.failures out.new, W.taken out.new) (defined.edge_lines graph.now rules.now edge) }
{
    write_outputs(graph, graph.outputs.row(edge), rules.row(edge), out)
}

/// Writes a line for each output of each edge, in the order of build lines: its path, a colon and its rule.
pub fn write_all_targets<W: Sink>(
    graph: &Graph<'_>,
    rules: &RowList<u8>,
    out: &mut W,
) -> Result<(), SinkFault>
    ensures { Writes (is_ok result) (W.failures out.old, W.taken out.old) (W.failures out.new, W.taken out.new) (defined.all_targets graph.now rules.now) }
{
    writes_join();
    for edge in 0..graph.outputs.len() {
        match write_edge(graph, rules, edge, out) {
            Ok(()) => {}
            Err(fault) => return Err(fault),
        }
    }
    Ok(())
}

/// Writes a text on a line.
pub(crate) fn write_line<W: Sink>(text: &[u8], out: &mut W) -> Result<(), SinkFault>
    ensures { Writes (is_ok result) (W.failures out.old, W.taken out.old) (W.failures out.new, W.taken out.new) (defined.line text.now) }
{
    write_parts(&[text, b"\n"], out)
}

/// Writes an input on a line, if no edge makes it.
fn write_source<W: Sink>(graph: &Graph<'_>, input: u32, out: &mut W) -> Result<(), SinkFault>
    ensures { Writes (is_ok result) (W.failures out.old, W.taken out.old) (W.failures out.new, W.taken out.new) (defined.source_line graph.now input) }
{
    if graph.files.producer_at(input as usize).is_some() {
        return Ok(());
    }
    write_line(path_at(graph, input), out)
}

/// Writes the inputs of an edge that no edge makes.
fn write_made_by_none<W: Sink>(
    graph: &Graph<'_>,
    inputs: &[u32],
    out: &mut W,
) -> Result<(), SinkFault>
    ensures { Writes (is_ok result) (W.failures out.old, W.taken out.old) (W.failures out.new, W.taken out.new) (flat_map (defined.source_line graph.now) inputs.now) }
{
    writes_join();
    for input in inputs {
        match write_source(graph, *input, out) {
            Ok(()) => {}
            Err(fault) => return Err(fault),
        }
    }
    Ok(())
}

/// Writes the inputs of the edge of a number that no edge makes.
fn write_edge_sources<W: Sink>(graph: &Graph<'_>, edge: usize, out: &mut W) -> Result<(), SinkFault>
    ensures { Writes (is_ok result) (W.failures out.old, W.taken out.old) (W.failures out.new, W.taken out.new) (defined.edge_sources graph.now edge) }
{
    write_made_by_none(graph, graph.inputs.row(edge), out)
}

/// Writes each input that no edge makes, as often as build lines name it, in their order.
pub fn write_sources<W: Sink>(graph: &Graph<'_>, out: &mut W) -> Result<(), SinkFault>
    ensures { Writes (is_ok result) (W.failures out.old, W.taken out.old) (W.failures out.new, W.taken out.new) (defined.sources graph.now) }
{
    writes_join();
    for edge in 0..graph.inputs.len() {
        match write_edge_sources(graph, edge, out) {
            Ok(()) => {}
            Err(fault) => return Err(fault),
        }
    }
    Ok(())
}
