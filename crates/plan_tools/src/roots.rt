//! The paths that a build without targets makes.

ghost use Rattle.std.specs.Prelude.{◌≡◌, ◌++◌, ◌∷◌, [], IfOk, OnOk, ℕ, List, filter, get_or, length, not};
ghost use Rattle.plan_graph.specs.Files.{producer_at};
ghost use Rattle.plan_tools.specs.Inputs.{inputs_at, is_edge};
ghost use Rattle.plan_tools.specs.Roots as defined;
ghost use Rattle.plan_tools.specs.Roots.{AreFlagsOf, AreInputFlags};

use plan_graph::Graph;
use plan_scope::{DefaultTarget, Manifest};
use plan_text::Memory;
use std::alloc::Global;

/// Checks whether an edge makes a path.
pub(crate) fn is_made_by(graph: &Graph<'_>, edge: usize, path: u32) -> bool
    ensures { result ≡ is_edge edge (producer_at graph.now.files path) }
{
    match graph.files.producer_at(path as usize) {
        Some(maker) => maker as usize == edge,
        None => false,
    }
}

/// Sets the flag of an input of an edge, unless the edge makes it.
fn flag_input(graph: &Graph<'_>, edge: usize, input: u32, flags: &mut [bool])
    ensures sized { length flags.new ≡ length flags.old }
    ensures set { (paths : List ℕ) → AreFlagsOf paths flags.old → AreFlagsOf (paths ++ filter (λ i. not (is_edge edge (producer_at graph.now.files i))) (input ∷ [])) flags.new }
{
    let place = input as usize;
    if place < flags.len() && !is_made_by(graph, edge, input) {
        flags[place] = true;
    }
}

/// Sets the flags of the inputs of an edge.
fn flag_inputs(graph: &Graph<'_>, edge: usize, flags: &mut [bool])
    ensures sized { length flags.new ≡ length flags.old }
    ensures set { (paths : List ℕ) → AreFlagsOf paths flags.old → AreFlagsOf (paths ++ inputs_at graph.now edge) flags.new }
{
    for input in graph.inputs.row(edge) {
        flag_input(graph, edge, *input, flags);
    }
}

/// Returns a flag for each path of the graph, set if an edge has it as an input.
fn input_flags(alloc: Global, graph: &Graph<'_>) -> Result<Vec<bool>, Memory>
    ensures { IfOk result (λ flags. AreInputFlags graph.now flags.items) }
{
    let mut flags = vec![in alloc; false; graph.files.len()]?;
    for edge in 0..graph.inputs.len() {
        flag_inputs(graph, edge, &mut flags);
    }
    Ok(flags)
}

/// Checks whether a path of the graph is an input of no edge.
fn is_last(graph: &Graph<'_>, flags: &[bool], path: u32) -> bool
    requires { AreInputFlags graph.now flags.now }
    ensures { result ≡ defined.is_last graph.now path }
{
    let place = path as usize;
    place < graph.files.len() && !flags[place]
}

/// Appends those outputs that are inputs of no edge.
fn add_last(
    graph: &Graph<'_>,
    flags: &[bool],
    outputs: &[u32],
    roots: &mut Vec<u32>,
) -> Result<(), Memory>
    requires { AreInputFlags graph.now flags.now }
    ensures { OnOk result (roots.new.items ≡ roots.old.items ++ filter (defined.is_last graph.now) outputs.now) }
{
    for output in outputs {
        if is_last(graph, flags, *output) {
            roots.push(*output)?;
        }
    }
    Ok(())
}

/// Returns the outputs that are inputs of no edge, in the order of the build lines.
///
/// # Errors
/// Memory runs out.
pub fn root_paths(alloc: Global, graph: &Graph<'_>) -> Result<Vec<u32>, Memory>
    ensures { IfOk result (λ roots. roots.items ≡ defined.root_paths graph.now) }
{
    let flags = input_flags(alloc, graph)?;
    let mut roots = Vec::new(alloc);
    for edge in 0..graph.outputs.len() {
        add_last(graph, &flags, graph.outputs.row(edge), &mut roots)?;
    }
    Ok(roots)
}

/// Appends the number of a path, if it has one.
fn add_number(graph: &Graph<'_>, path: &[u8], numbers: &mut Vec<u32>) -> Result<(), Memory>
    ensures { OnOk result (numbers.new.items ≡ numbers.old.items ++ defined.numbers_of graph.now path.now) }
{
    match graph.files.number(path) {
        None => {}
        Some(number) => match u32::try_from(number) {
            Ok(number) => numbers.push(number)?,
            Err(_) => return Err(Memory),
        },
    }
    Ok(())
}

/// Returns the numbers of the targets of `default` statements.
fn numbers_of(
    alloc: Global,
    graph: &Graph<'_>,
    targets: &[DefaultTarget],
) -> Result<Vec<u32>, Memory>
    ensures { IfOk result (λ numbers. numbers.items ≡ defined.target_paths graph.now targets.now) }
{
    let mut numbers = Vec::new(alloc);
    for target in targets {
        add_number(graph, target.path.as_slice(), &mut numbers)?;
    }
    Ok(numbers)
}

/// Returns the paths that a build without targets makes: the targets of `default` statements in their order, or the
/// roots if there are no such statements.
///
/// # Errors
/// Memory runs out.
pub fn default_paths(
    alloc: Global,
    manifest: &Manifest,
    graph: &Graph<'_>,
) -> Result<Vec<u32>, Memory>
    ensures { IfOk result (λ paths. paths.items ≡ defined.default_paths graph.now manifest.now.defaults) }
{
    match manifest.defaults.as_slice() {
        [] => root_paths(alloc, graph),
        targets => numbers_of(alloc, graph, targets),
    }
}
