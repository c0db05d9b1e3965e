//! Checks edges with commands.

ghost use Rattle.std.specs.Prelude.{◌≡◌, ◌-◌, [], IfOk, None, OnOk, false, get_or, length, map, take, true};
ghost use Rattle.std.specs.List.{list_all, list_any};
ghost use Rattle.plan_compile.specs.Builds.{build_at, named_count};
ghost use Rattle.plan_compile.specs.Rule.{baseline_by, first};
ghost use Rattle.plan_compile.specs.declared.baseline.OutOfDateRule.TheVariants.{Stricter};
ghost use Rattle.plan_reasons.specs.Reasons.{reason_by};
ghost use Rattle.plan_reasons.specs.Replies.{seen};
ghost use Rattle.plan_scan.specs.Scans.{IsUpToDate, path_of};
ghost use Rattle.plan_scan.specs.Steps.{AreFactsOf, AreStamps, Sees, is_missing, keeps_stamp};

use crate::doubt::Doubt;
use crate::entries::{entry_of, recorded_stamps};
use crate::found::Found;
use crate::inputs::{file_stamps, found_at, input_stamps, named_inputs, some_missing, stamp_at};
use plan_compile::Baseline;
use plan_graph::Graph;
use plan_lanes::World;
use plan_reasons::{Facts, Observed, first_reason, reasons_are_causes};
use plan_scope::EdgeRef;
use plan_text::Items;
use plan_verify::Words;
use std::alloc::{AllocError, Global};

/// Returns the named inputs of an edge: all of these inputs but the last ones, which are order-only.
fn named_of(inputs: &[u32], order_only: usize) -> &[u32]
    ensures { result.now ≡ take (length inputs.now - order_only) inputs.now }
{
    let count = inputs.len().saturating_sub(order_only);
    if count < inputs.len() {
        &inputs[..count]
    } else {
        inputs
    }
}

/// Returns the named inputs of the edge with this number in a graph.
pub(crate) fn named_row<'a>(graph: &'a Graph<'_>, edge: &EdgeRef<'_>, number: usize) -> &'a [u32]
    ensures { result.now ≡ take (named_count edge.now (get_or graph.now.inputs number [])) (get_or graph.now.inputs number []) }
{
    named_of(graph.inputs.row(number), edge.order_only_inputs().len())
}

/// Checks whether what was found of an output is its own stamp.
fn keeps_stamp(stamps: &[u64], found: &[Found], file: u32) -> bool
    ensures { result ≡ keeps_stamp stamps.now found.now file }
{
    let left = found_at(found, file);
    ((file as usize) < stamps.len()) & (left.stamp == stamp_at(stamps, file)) & !left.changed
}

/// Checks whether what was found of all these outputs is their own stamps.
fn keep_stamps(stamps: &[u64], found: &[Found], files: &[u32]) -> bool
    ensures { result ≡ list_all (keeps_stamp stamps.now found.now) files.now }
{
    for file in files {
        if !keeps_stamp(stamps, found, *file) {
            return false;
        }
    }
    true
}

/// Returns the path of a file.
#[tactic(auto, using(crate::proofs::CommandLemmas::path_is))]
fn path_of<'a>(graph: &Graph<'a>, file: u32) -> Result<&'a [u8], Doubt>
    ensures { IfOk result (λ path. path.now ≡ path_of graph.now file) }
{
    match graph.files.path(file as usize) {
        Some(path) => Ok(path),
        None => Err(Doubt::NotShown),
    }
}

/// Returns the path of the first of these outputs, which is the name of their edge in the record.
fn name_of<'a>(graph: &Graph<'a>, outputs: &[u32]) -> Result<&'a [u8], Doubt>
    ensures { IfOk result (λ name. name.now ≡ first (map (path_of graph.now) outputs.now)) }
{
    match outputs {
        [] => Err(Doubt::NotShown),
        [file, ..] => path_of(graph, *file),
    }
}

/// Returns the baseline of an edge by the stricter rule.
fn baseline_of(edge: &EdgeRef<'_>) -> Baseline
    ensures { result ≡ baseline_by edge.now.restat edge.now.generator Stricter }
{
    if edge.has_restat() {
        return Baseline::Basis;
    }
    if edge.is_generator() {
        return Baseline::Outputs;
    }
    Baseline::OutputsAndBasis
}

/// Returns what the reasons need to know of an edge with these named inputs.
fn facts_of<'a>(
    alloc: Global,
    graph: &Graph<'a>,
    found: &[Found],
    edge: &EdgeRef<'_>,
    named: &[u32],
) -> Result<Facts, AllocError>
    ensures { IfOk result (AreFactsOf graph.now found.now edge.now named.now) }
{
    let named = named_inputs(alloc, graph, found, named)?;
    let command = edge.command().join(alloc)?;
    let command = Words::of(alloc, command.as_slice())?;
    Ok(Facts {
        named,
        order_only: 0,
        outputs: 0,
        command,
        generator: edge.is_generator(),
        baseline: baseline_of(edge),
    })
}

/// Returns what an edge with this name, these named inputs and these outputs observes.
fn observe<'a, W: World>(
    alloc: Global,
    world: &W,
    graph: &Graph<'a>,
    stamps: &[u64],
    found: &[Found],
    named: &[u32],
    outputs: &[u32],
    name: &[u8],
) -> Result<Observed, Doubt>
    ensures { IfOk result (λ o. Sees W.allows graph.now stamps.now found.now named.now outputs.now name.now (seen o)) }
{
    let named = input_stamps(alloc, graph, stamps, found, named)?;
    let outputs = file_stamps(alloc, stamps, outputs)?;
    let entry = entry_of(world, name)?;
    let recorded = recorded_stamps(alloc, world, &entry)?;
    Ok(Observed {
        order_only: Items::empty(alloc),
        named,
        outputs,
        entry,
        recorded,
    })
}

/// Checks whether the files of an edge are others than those of a clean edge: a source file is missing, or what was found
/// of an output isn't its own stamp.
fn lacks_files<'a>(
    graph: &Graph<'a>,
    stamps: &[u64],
    found: &[Found],
    inputs: &[u32],
    outputs: &[u32],
) -> bool
    ensures sources { result ≡ false → list_any (is_missing graph.now stamps.now) inputs.now ≡ false }
    ensures outputs { result ≡ false → list_all (keeps_stamp stamps.now found.now) outputs.now ≡ true }
{
    some_missing(graph, stamps, inputs) || !keep_stamps(stamps, found, outputs)
}

/// Returns an error if there is a reason to run the command.
fn check_reason(facts: &Facts, observed: &Observed) -> Result<(), Doubt>
    ensures { OnOk result (reason_by facts.now (seen observed.now).named (seen observed.now).outputs (seen observed.now).entry (seen observed.now).recorded ≡ None) }
{
    match first_reason(facts, observed) {
        Some(_reason) => Err(Doubt::NotShown),
        None => Ok(()),
    }
}

/// Checks whether an edge with a command is up to date. `number` is its number in the graph.
pub(crate) fn check_command<'a, W: World>(
    alloc: Global,
    world: &W,
    graph: &Graph<'a>,
    stamps: &[u64],
    found: &[Found],
    edge: &EdgeRef<'_>,
    number: usize,
) -> Result<(), Doubt>
    requires stamps { AreStamps W.allows graph.now stamps.now }
    requires command { edge.now.phony ≡ false }
    ensures { OnOk result (IsUpToDate W.allows graph.now found.now (build_at Stricter graph.now number edge.now)) }
{
    reasons_are_causes();
    let inputs = graph.inputs.row(number);
    let outputs = graph.outputs.row(number);
    if lacks_files(graph, stamps, found, inputs, outputs) {
        return Err(Doubt::NotShown);
    }
    let named = named_row(graph, edge, number);
    let name = name_of(graph, outputs)?;
    let facts = facts_of(alloc, graph, found, edge, named)?;
    let observed = observe(alloc, world, graph, stamps, found, named, outputs, name)?;
    check_reason(&facts, &observed)
}
