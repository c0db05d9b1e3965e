//! The cycle that a path closes.

ghost use Rattle.std.specs.Prelude.{◌≡◌, ◌<◌, ◌≤◌, ◌++◌, ◌∷◌, [], ℕ, All, Contains, IfOk, drop, length, slice_index, take};
ghost use Rattle.plan_graph.specs.Cycles.{Chain, IsSimple};
ghost use Rattle.plan_graph.specs.Walking.{TellsCycle};

use crate::fault::GraphFault;
use plan_text::{Items, RowList};
use std::alloc::{AllocError, Global};

/// Returns the index of the least of these numbers.
fn least(numbers: &[usize]) -> usize
    requires { 0 < length numbers.now }
    ensures within { result < length numbers.now }
    ensures least { All (λ n. slice_index numbers.now result ≤ n) numbers.now }
{
    let mut at = 0;
    for other in 0..numbers.len() {
        if numbers[other] < numbers[at] {
            at = other;
        }
    }
    at
}

/// Rotates a cycle so that it begins with its least edge.
fn rotate_to_least(alloc: Global, cycle: &[usize]) -> Result<Items<usize>, AllocError>
    requires { 0 < length cycle.now }
    ensures { IfOk result (λ es. (at : ℕ) × (at < length cycle.now) × All (λ n. slice_index cycle.now at ≤ n) cycle.now × (es ≡ drop at cycle.now ++ take at cycle.now)) }
{
    let (back, front) = cycle.split_at(least(cycle));
    let mut edges = Vec::from_slice(alloc, front)?;
    edges.extend_from_slice(back)?;
    Ok(Items::new(edges))
}

/// Returns the index of an edge on a path.
fn place_of(path: &[usize], edge: usize) -> usize
    requires { Contains path.now edge }
    ensures within { result < length path.now }
    ensures here { slice_index path.now result ≡ edge }
{
    let mut at = 0;
    while path[at] != edge {
        at += 1;
    }
    at
}

/// Returns the cycle that a path closes. Its last edge waits for `edge`, which is on the path.
pub fn cycle_from(alloc: Global, waits: &RowList<u32>, path: &[usize], edge: usize) -> GraphFault
    requires here { Contains path.now edge }
    requires chain { Chain waits.now (path.now ++ edge ∷ []) }
    requires simple { IsSimple path.now }
    ensures { TellsCycle waits.now result }
{
    match rotate_to_least(alloc, &path[place_of(path, edge)..]) {
        Ok(cycle) => GraphFault::Cycle(cycle),
        Err(_) => GraphFault::Memory,
    }
}
