//! The tree of `-t targets`.

ghost use Rattle.std.specs.Prelude.{◌≡◌, ◌++◌, ◌∷◌, [], IfOk, OnOk, is_ok, filter, not};
ghost use Rattle.std.specs.List.{flat_map};
ghost use Rattle.plan_graph.specs.Files.{producer_at};
ghost use Rattle.plan_text.specs.Sinks.{Writes};
ghost use Rattle.plan_tools.specs.Inputs.{inputs_at, is_edge};
ghost use Rattle.plan_tools.specs.Listings.{path_at as path_of};
ghost use Rattle.plan_tools.specs.Tree as defined;
ghost use Rattle.plan_tools.specs.Tree.{Lists, Steps, lines_left, tree_of, trees_of};

use crate::parts::write_parts;
use crate::roots::is_made_by;
use crate::targets::{path_at, write_line, write_rule_line};
use crate::tree_fault::TreeFault;
use plan_graph::Graph;
use plan_text::{Memory, RowList, Sink, SinkFault, write_all, writes_join};
use std::alloc::Global;

/// A path of a tree.
#[derive(Clone, Copy)]
pub struct Branch {
    /// The number of the path.
    pub path: u32,
    /// How many paths it is nested under.
    pub indent: usize,
    /// How many levels are listed below it.
    pub below: usize,
}

/// Returns how many levels are listed below the roots.
fn levels_below(graph: &Graph<'_>, depth: u32) -> usize
    ensures { result ≡ defined.levels_below graph.now depth }
{
    if depth == 0 {
        graph.outputs.len()
    } else {
        depth as usize - 1
    }
}

/// Appends an input of an edge, unless the edge makes it.
fn add_input(
    graph: &Graph<'_>,
    edge: u32,
    input: Branch,
    stack: &mut Vec<Branch>,
) -> Result<(), Memory>
    ensures { OnOk result (lines_left graph.now stack.new.items ≡ trees_of graph.now input.below input.indent (filter (λ i. not (is_edge edge (producer_at graph.now.files i))) (input.path ∷ [])) ++ lines_left graph.now stack.old.items) }
{
    if !is_made_by(graph, edge as usize, input.path) {
        stack.push(input)?;
    }
    Ok(())
}

/// Appends the inputs of an edge, the first one last.
fn add_inputs(
    graph: &Graph<'_>,
    edge: u32,
    indent: usize,
    below: usize,
    stack: &mut Vec<Branch>,
) -> Result<(), Memory>
    ensures { OnOk result (lines_left graph.now stack.new.items ≡ trees_of graph.now below indent (inputs_at graph.now edge) ++ lines_left graph.now stack.old.items) }
{
    let inputs = graph.inputs.row(edge as usize);
    for number in (0..inputs.len()).rev() {
        let path = inputs[number];
        add_input(
            graph,
            edge,
            Branch {
                path,
                indent,
                below,
            },
            stack,
        )?;
    }
    Ok(())
}

/// Appends some roots, the first one last.
fn add_roots(
    graph: &Graph<'_>,
    roots: &[u32],
    below: usize,
    stack: &mut Vec<Branch>,
) -> Result<(), Memory>
    ensures { OnOk result (lines_left graph.now stack.new.items ≡ trees_of graph.now below 0 roots.now ++ lines_left graph.now stack.old.items) }
{
    let _paths = graph.files.len();
    for number in (0..roots.len()).rev() {
        stack.push(Branch {
            path: roots[number],
            indent: 0,
            below,
        })?;
    }
    Ok(())
}

/// Appends what is listed below a path.
fn add_below(graph: &Graph<'_>, branch: Branch, stack: &mut Vec<Branch>) -> Result<(), Memory>
    ensures { OnOk result (branch ∷ lines_left graph.now stack.new.items ≡ tree_of graph.now branch.below branch.indent branch.path ++ lines_left graph.now stack.old.items) }
{
    if branch.below == 0 {
        return Ok(());
    }
    match graph.files.producer_at(branch.path as usize) {
        None => Ok(()),
        Some(edge) => match branch.indent.checked_add(1) {
            Some(indent) => add_inputs(graph, edge, indent, branch.below - 1, stack),
            None => Err(Memory),
        },
    }
}

/// Removes the next path of those that are left, and appends what is listed below it.
fn next_branch(graph: &Graph<'_>, stack: &mut Vec<Branch>) -> Result<Option<Branch>, Memory>
    ensures { IfOk result (λ next. Steps (lines_left graph.now stack.old.items) (lines_left graph.now stack.new.items) next) }
{
    let Some(branch) = stack.pop() else {
        return Ok(None);
    };
    add_below(graph, branch, stack)?;
    Ok(Some(branch))
}

/// Writes two blanks for each level.
fn write_blanks<W: Sink>(levels: usize, out: &mut W) -> Result<(), SinkFault>
    ensures { Writes (is_ok result) (W.failures out.old, W.taken out.old) (W.failures out.new, W.taken out.new) (defined.blanks levels) }
{
    writes_join();
    for _level in 0..levels {
        match write_all(out, b"  ") {
            Ok(()) => {}
            Err(fault) => return Err(fault),
        }
    }
    Ok(())
}

/// Writes a path with the rule that makes it, or a source without one.
fn write_target<W: Sink>(
    graph: &Graph<'_>,
    rules: &RowList<u8>,
    path: u32,
    out: &mut W,
) -> Result<(), SinkFault>
    ensures { Writes (is_ok result) (W.failures out.old, W.taken out.old) (W.failures out.new, W.taken out.new) (defined.target_line (path_of graph.now path) rules.now (producer_at graph.now.files path)) }
{
    match graph.files.producer_at(path as usize) {
        Some(edge) => write_rule_line(path_at(graph, path), rules.row(edge as usize), out),
        None => write_line(path_at(graph, path), out),
    }
}

/// Writes a line of a listing.
fn write_branch<W: Sink>(
    graph: &Graph<'_>,
    rules: &RowList<u8>,
    branch: Branch,
    out: &mut W,
) -> Result<(), SinkFault>
    ensures { Writes (is_ok result) (W.failures out.old, W.taken out.old) (W.failures out.new, W.taken out.new) (defined.branch_line graph.now rules.now branch) }
{
    writes_join();
    match write_blanks(branch.indent, out) {
        Ok(()) => write_target(graph, rules, branch.path, out),
        Err(fault) => Err(fault),
    }
}

/// Writes the trees of the paths that are left.
fn write_left<W: Sink>(
    graph: &Graph<'_>,
    rules: &RowList<u8>,
    stack: &mut Vec<Branch>,
    out: &mut W,
) -> Result<(), TreeFault>
    ensures { Lists result (W.failures out.old, W.taken out.old) (W.failures out.new, W.taken out.new) (flat_map (defined.branch_line graph.now rules.now) (lines_left graph.now stack.old.items)) }
{
    writes_join();
    'lines: loop {
        match next_branch(graph, stack) {
            Err(_) => return Err(TreeFault::Memory),
            Ok(None) => return Ok(()),
            Ok(Some(branch)) => match write_branch(graph, rules, branch, out) {
                Ok(()) => {}
                Err(_) => return Err(TreeFault::Sink),
            },
        }
    }
}

/// Writes the trees of some paths: each path on a line, with the rule that makes it, and below it, indented by two
/// blanks more, the trees of the inputs from which it is made. The depth is the number of levels that are listed; 0 is
/// no limit. A tree may have many more lines than the graph has paths; memory holds only the paths that are left.
///
/// # Errors
/// A write failed, or memory ran out: then the sink took a front of the text.
pub fn write_target_tree<W: Sink>(
    alloc: Global,
    graph: &Graph<'_>,
    rules: &RowList<u8>,
    roots: &[u32],
    depth: u32,
    out: &mut W,
) -> Result<(), TreeFault>
    ensures { Lists result (W.failures out.old, W.taken out.old) (W.failures out.new, W.taken out.new) (defined.target_tree graph.now rules.now roots.now depth) }
{
    writes_join();
    let mut stack = Vec::new(alloc);
    match add_roots(graph, roots, levels_below(graph, depth), &mut stack) {
        Ok(()) => write_left(graph, rules, &mut stack, out),
        Err(_) => Err(TreeFault::Memory),
    }
}
