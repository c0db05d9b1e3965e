//! Checks phony edges, and finds what they leave.

ghost use Rattle.std.specs.Prelude.{◌≡◌, ◌==◌, [], OnOk, false, get_or, map, true};
ghost use Rattle.std.specs.List.{list_all, list_any};
ghost use Rattle.plan_compile.specs.Builds.{build_at};
ghost use Rattle.plan_compile.specs.Rule.{greatest_from, some_changed};
ghost use Rattle.plan_compile.specs.declared.baseline.OutOfDateRule.TheVariants.{Stricter};
ghost use Rattle.plan_verify.specs.Members.{is_member};
ghost use Rattle.plan_verify.specs.Turn.{later};
ghost use Rattle.plan_scan.specs.Scans.{IsUpToDate, given};
ghost use Rattle.plan_scan.specs.Steps.{AreStamps, agree, input_stamp, is_gathered, is_missing, stamp_at, stands_alone};

use crate::commands::named_row;
use crate::doubt::Doubt;
use crate::found::Found;
use crate::inputs::{found_at, input_stamp, is_changed, some_missing, stamp_at};
use plan_graph::Graph;
use plan_lanes::World;
use plan_scope::EdgeRef;

/// Returns the later of two stamps.
fn later(first: u64, second: u64) -> u64
    ensures { result ≡ later first second }
{
    if first <= second { second } else { first }
}

/// Returns the greatest of a stamp and those of inputs.
fn greatest_input<'a>(
    graph: &Graph<'a>,
    stamps: &[u64],
    found: &[Found],
    stamp: u64,
    files: &[u32],
) -> u64
    ensures { result ≡ greatest_from stamp (map (input_stamp graph.now stamps.now found.now) files.now) }
{
    let mut greatest = stamp;
    for file in files {
        greatest = later(greatest, input_stamp(graph, stamps, found, *file));
    }
    greatest
}

/// Returns the greatest of a stamp and those of files.
fn greatest_file(stamps: &[u64], stamp: u64, files: &[u32]) -> u64
    ensures { result ≡ greatest_from stamp (map (stamp_at stamps.now) files.now) }
{
    let mut greatest = stamp;
    for file in files {
        greatest = later(greatest, stamp_at(stamps, *file));
    }
    greatest
}

/// Checks whether one of these inputs counts as changed.
fn some_changed<'a>(graph: &Graph<'a>, found: &[Found], files: &[u32]) -> bool
    ensures { result ≡ some_changed (map (given graph.now found.now) files.now) }
{
    for file in files {
        if is_changed(graph, found, *file) {
            return true;
        }
    }
    false
}

/// Returns what a phony edge with these named inputs and outputs leaves for each output.
pub(crate) fn gathered<'a>(
    graph: &Graph<'a>,
    stamps: &[u64],
    found: &[Found],
    named: &[u32],
    outputs: &[u32],
) -> Found
    ensures stamp { result.stamp ≡ greatest_from (greatest_from 0 (map (input_stamp graph.now stamps.now found.now) named.now)) (map (stamp_at stamps.now) outputs.now) }
    ensures changed { result.changed ≡ some_changed (map (given graph.now found.now) named.now) }
{
    let greatest = greatest_input(graph, stamps, found, 0, named);
    Found {
        stamp: greatest_file(stamps, greatest, outputs),
        changed: some_changed(graph, found, named),
    }
}

/// Returns what a phony edge without inputs leaves for an output.
pub(crate) fn alone(stamps: &[u64], file: u32) -> Found
    ensures stamp { result.stamp ≡ stamp_at stamps.now file }
    ensures changed { result.changed ≡ (stamp_at stamps.now file == 0) }
{
    let stamp = stamp_at(stamps, file);
    Found {
        stamp,
        changed: stamp == 0,
    }
}

/// Checks whether two flags are the same.
fn agree(flag: bool, other: bool) -> bool
    ensures { result ≡ agree flag other }
{
    if flag { other } else { !other }
}

/// Checks whether what was found of an output is its own stamp, as of a phony edge without inputs.
fn stands_alone(stamps: &[u64], found: &[Found], file: u32) -> bool
    ensures { result ≡ stands_alone stamps.now found.now file }
{
    let (stamp, left) = (stamp_at(stamps, file), found_at(found, file));
    ((file as usize) < stamps.len()) & (left.stamp == stamp) & agree(stamp == 0, left.changed)
}

/// Checks whether what was found of all these outputs is their own stamps.
fn stand_alone(stamps: &[u64], found: &[Found], files: &[u32]) -> bool
    ensures { result ≡ list_all (stands_alone stamps.now found.now) files.now }
{
    for file in files {
        if !stands_alone(stamps, found, *file) {
            return false;
        }
    }
    true
}

/// Checks whether this was found of an output.
fn is_gathered(stamps: &[u64], found: &[Found], left: Found, file: u32) -> bool
    ensures { result ≡ is_gathered stamps.now found.now left.stamp left.changed file }
{
    let other = found_at(found, file);
    ((file as usize) < stamps.len())
        & (other.stamp == left.stamp)
        & agree(left.changed, other.changed)
}

/// Checks whether this was found of all these outputs.
fn are_gathered(stamps: &[u64], found: &[Found], left: Found, files: &[u32]) -> bool
    ensures { result ≡ list_all (is_gathered stamps.now found.now left.stamp left.changed) files.now }
{
    for file in files {
        if !is_gathered(stamps, found, left, *file) {
            return false;
        }
    }
    true
}

/// Checks whether a phony edge names one of its own outputs as an input.
fn names_own(inputs: &[u32], outputs: &[u32]) -> bool
    ensures { result ≡ list_any (λ f. is_member f outputs.now) inputs.now }
{
    for file in inputs {
        if has_number(outputs, *file) {
            return true;
        }
    }
    false
}

/// Checks whether a number is among others.
fn has_number(numbers: &[u32], number: u32) -> bool
    ensures { result ≡ is_member number numbers.now }
{
    for other in numbers {
        if *other == number {
            return true;
        }
    }
    false
}

/// Returns an error unless this was shown.
fn if_shown(is_shown: bool) -> Result<(), Doubt>
    ensures { OnOk result (is_shown ≡ true) }
{
    if is_shown {
        return Ok(());
    }
    Err(Doubt::NotShown)
}

/// Checks a phony edge without inputs like `check_phony`.
fn check_alone<'a, W: World>(
    graph: &Graph<'a>,
    stamps: &[u64],
    found: &[Found],
    edge: &EdgeRef<'_>,
    number: usize,
) -> Result<(), Doubt>
    requires stamps { AreStamps W.allows graph.now stamps.now }
    requires phony { edge.now.phony ≡ true }
    requires none { get_or graph.now.inputs number [] ≡ [] }
    ensures { OnOk result (IsUpToDate W.allows graph.now found.now (build_at Stricter graph.now number edge.now)) }
{
    if_shown(stand_alone(stamps, found, graph.outputs.row(number)))
}

/// Checks a phony edge with inputs like `check_phony`.
fn check_gathered<'a, W: World>(
    graph: &Graph<'a>,
    stamps: &[u64],
    found: &[Found],
    edge: &EdgeRef<'_>,
    number: usize,
) -> Result<(), Doubt>
    requires stamps { AreStamps W.allows graph.now stamps.now }
    requires phony { edge.now.phony ≡ true }
    requires plain { edge.now.generator ≡ false }
    requires own { list_any (λ f. is_member f (get_or graph.now.outputs number [])) (get_or graph.now.inputs number []) ≡ false }
    requires some { get_or graph.now.inputs number [] ≡ [] → ⊥ }
    requires there { list_any (is_missing graph.now stamps.now) (get_or graph.now.inputs number []) ≡ false }
    ensures { OnOk result (IsUpToDate W.allows graph.now found.now (build_at Stricter graph.now number edge.now)) }
{
    let outputs = graph.outputs.row(number);
    let named = named_row(graph, edge, number);
    let left = gathered(graph, stamps, found, named, outputs);
    if_shown(are_gathered(stamps, found, left, outputs))
}

/// Checks whether there is no number.
fn is_empty(numbers: &[u32]) -> bool
    ensures none { result ≡ true → numbers.now ≡ [] }
    ensures some { result ≡ false → numbers.now ≡ [] → ⊥ }
{
    match numbers {
        [] => true,
        [_first, ..] => false,
    }
}

/// Checks whether what was found of the outputs of a phony edge is what the edge leaves. `number` is its number in the
/// graph. An edge that names its own outputs, or is a generator, isn't shown.
pub(crate) fn check_phony<'a, W: World>(
    graph: &Graph<'a>,
    stamps: &[u64],
    found: &[Found],
    edge: &EdgeRef<'_>,
    number: usize,
) -> Result<(), Doubt>
    requires stamps { AreStamps W.allows graph.now stamps.now }
    requires phony { edge.now.phony ≡ true }
    ensures { OnOk result (IsUpToDate W.allows graph.now found.now (build_at Stricter graph.now number edge.now)) }
{
    let (inputs, outputs) = (graph.inputs.row(number), graph.outputs.row(number));
    if is_empty(inputs) {
        return check_alone::<W>(graph, stamps, found, edge, number);
    }
    if names_own(inputs, outputs) {
        return Err(Doubt::NotShown);
    }
    if edge.is_generator() {
        return Err(Doubt::NotShown);
    }
    if some_missing(graph, stamps, inputs) {
        return Err(Doubt::NotShown);
    }
    check_gathered::<W>(graph, stamps, found, edge, number)
}
