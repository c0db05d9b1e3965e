//! The targets of a rule, of `-t targets rule`.

ghost use Rattle.std.specs.Prelude.{◌≡◌, ◌++◌, IfOk, OnOk, is_ok, map};
ghost use Rattle.std.specs.List.Sorted.{IsPermutation, IsSorted};
ghost use Rattle.std.specs.Cmp.Lexicographic.{slice_cmp};
ghost use Rattle.std.specs.Ordering.{nat_cmp};
ghost use Rattle.plan_text.specs.Sinks.{Writes};
ghost use Rattle.plan_tools.specs.Listings.{path_at as path_of};
ghost use Rattle.plan_tools.specs.RuleTargets as defined;

use crate::targets::{path_at, write_line};
use crate::tree_fault::TreeFault;
use plan_graph::Graph;
use plan_text::{Memory, RowList, Sink, SinkFault, writes_join};
use std::alloc::Global;

/// Appends the paths of some numbers.
fn add_paths<'a>(
    graph: &Graph<'a>,
    numbers: &[u32],
    paths: &mut Vec<&'a [u8]>,
) -> Result<(), Memory>
    ensures { OnOk result (map (λ p. p.now) paths.new.items ≡ map (λ p. p.now) paths.old.items ++ map (path_of graph.now) numbers.now) }
{
    for number in numbers {
        paths.push(path_at(graph, *number))?;
    }
    Ok(())
}

/// Appends the outputs of an edge, if it has a rule.
fn add_outputs_of_rule<'a>(
    graph: &Graph<'a>,
    rules: &RowList<u8>,
    rule: &[u8],
    edge: usize,
    paths: &mut Vec<&'a [u8]>,
) -> Result<(), Memory>
    ensures { OnOk result (map (λ p. p.now) paths.new.items ≡ map (λ p. p.now) paths.old.items ++ defined.outputs_of_rule graph.now rules.now rule.now edge) }
{
    if rules.row(edge) == rule {
        add_paths(graph, graph.outputs.row(edge), paths)?;
    }
    Ok(())
}

/// Returns the outputs of the edges with a rule, in the order of the build lines.
fn targets_of_rule<'a>(
    alloc: Global,
    graph: &Graph<'a>,
    rules: &RowList<u8>,
    rule: &[u8],
) -> Result<Vec<&'a [u8]>, Memory>
    ensures { IfOk result (λ paths. map (λ p. p.now) paths.items ≡ defined.targets_of_rule graph.now rules.now rule.now) }
{
    let mut paths = Vec::new(alloc);
    for edge in 0..graph.outputs.len() {
        add_outputs_of_rule(graph, rules, rule, edge, &mut paths)?;
    }
    Ok(paths)
}

/// Sorts paths by their bytes.
fn sort_paths(paths: &mut Vec<&[u8]>)
    ensures whole { IsPermutation paths.old.items paths.new.items }
    ensures ascending { IsSorted (λ p q. slice_cmp nat_cmp p.now q.now) paths.new.items }
{
    paths.sort_unstable();
}

/// Returns the outputs of the edges with a rule, in ascending order of their bytes.
fn rule_targets<'a>(
    alloc: Global,
    graph: &Graph<'a>,
    rules: &RowList<u8>,
    rule: &[u8],
) -> Result<Vec<&'a [u8]>, Memory>
    ensures { IfOk result (λ paths. defined.AreSorted (defined.targets_of_rule graph.now rules.now rule.now) (map (λ p. p.now) paths.items)) }
{
    let mut paths = targets_of_rule(alloc, graph, rules, rule)?;
    sort_paths(&mut paths);
    Ok(paths)
}

/// Writes some texts, each on a line.
fn write_lines<W: Sink>(texts: &[&[u8]], out: &mut W) -> Result<(), SinkFault>
    ensures { Writes (is_ok result) (W.failures out.old, W.taken out.old) (W.failures out.new, W.taken out.new) (defined.lines_of (map (λ t. t.now) texts.now)) }
{
    writes_join();
    for text in texts {
        match write_line(text, out) {
            Ok(()) => {}
            Err(fault) => return Err(fault),
        }
    }
    Ok(())
}

/// Writes the outputs of the edges with a rule, each on a line, in ascending order of their bytes.
///
/// # Errors
/// A write failed: then the sink took a front of the text. Or memory ran out: then nothing was written.
pub fn write_rule_targets<W: Sink>(
    alloc: Global,
    graph: &Graph<'_>,
    rules: &RowList<u8>,
    rule: &[u8],
    out: &mut W,
) -> Result<(), TreeFault>
    ensures { defined.ListsSorted result (W.failures out.old, W.taken out.old) (W.failures out.new, W.taken out.new) (defined.targets_of_rule graph.now rules.now rule.now) }
{
    let paths = match rule_targets(alloc, graph, rules, rule) {
        Ok(paths) => paths,
        Err(_) => return Err(TreeFault::Memory),
    };
    match write_lines(&paths, out) {
        Ok(()) => Ok(()),
        Err(_) => Err(TreeFault::Sink),
    }
}
