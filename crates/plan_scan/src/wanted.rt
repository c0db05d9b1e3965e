//! The edges that targets need.

ghost use Rattle.std.specs.Prelude.{◌≡◌, Some, get_or, length, slice_get, true};
ghost use Rattle.std.specs.List.{list_all};
ghost use Rattle.plan_scan.specs.Steps.{IsClosedBelow, is_marked};

use plan_graph::Graph;
use plan_text::RowList;
use std::alloc::{AllocError, Global};

/// Marks an edge, and appends it to those whose waits aren't marked yet, unless it was marked before.
fn mark(edge: u32, wanted: &mut [bool], open: &mut Vec<u32>) -> Result<(), AllocError> {
    if let Some(flag) = wanted.get_mut(edge as usize) {
        if !*flag {
            *flag = true;
            open.push(edge)?;
        }
    }
    Ok(())
}

/// Marks edges like `mark`.
fn mark_all(edges: &[u32], wanted: &mut [bool], open: &mut Vec<u32>) -> Result<(), AllocError> {
    for edge in edges {
        mark(*edge, wanted, open)?;
    }
    Ok(())
}

/// Returns for each edge whether targets need it.
pub(crate) fn wanted_by<'a>(
    alloc: Global,
    graph: &Graph<'a>,
    targets: &[u32],
) -> Result<Vec<bool>, AllocError> {
    let mut wanted = vec![in alloc; false; graph.waits.len()]?;
    let mut open = Vec::new(alloc);
    mark_all(targets, &mut wanted, &mut open)?;
    for _ in 0..u64::MAX {
        match open.pop() {
            Some(edge) => mark_all(graph.waits.row(edge as usize), &mut wanted, &mut open)?,
            None => return Ok(wanted),
        }
    }
    Ok(wanted)
}

/// Checks whether an edge is marked.
pub(crate) fn is_marked(wanted: &[bool], edge: usize) -> bool
    ensures { result ≡ is_marked wanted.now edge }
{
    match wanted.get(edge) {
        Some(flag) => *flag,
        None => false,
    }
}

/// Checks whether all these edges are marked.
pub(crate) fn are_marked(wanted: &[bool], edges: &[u32]) -> bool
    ensures { result ≡ list_all (is_marked wanted.now) edges.now }
{
    for edge in edges {
        if !is_marked(wanted, *edge as usize) {
            return false;
        }
    }
    true
}

/// Checks whether all edges are marked for which marked edges wait.
pub(crate) fn is_closed(waits: &RowList<u32>, wanted: &[bool]) -> bool
    ensures { result ≡ true → IsClosedBelow waits.now wanted.now (length wanted.now) }
{
    for edge in 0..wanted.len() {
        if wanted[edge] && !are_marked(wanted, waits.row(edge)) {
            return false;
        }
    }
    true
}
