//! Cycles that further waits close in a graph.

ghost use Rattle.std.specs.Prelude.{◌≡◌, ◌<◌, ◌++◌, [], List, ℕ, All, IfOk, IfSome, get_or, length};
ghost use Rattle.plan_graph.specs.Cycles.{IsCycle, WaitsFor};
ghost use Rattle.plan_graph.specs.FurtherWaits.{ClosesCycle, IsFurther, IsRow};
ghost use Rattle.plan_graph.specs.Walking.{TellsCycle};

use crate::fault::GraphFault;
use crate::graph_data::{Graph, MAX_EDGES};
use crate::walk::ranks;
use plan_text::{Items, RowList};
use std::alloc::{AllocError, Global};

/// A wait of an edge for another one, in addition to those of a graph.
#[derive(Clone, Copy)]
pub struct Wait {
    /// The number of the edge that waits.
    pub edge: u32,
    /// The number of the edge that it waits for.
    pub maker: u32,
}

/// Returns the waits of an edge, if these are edges.
fn own_waits(alloc: Global, waits: &RowList<u32>, edge: usize) -> Result<Vec<u32>, AllocError>
    ensures { IfOk result (λ row. All (λ w. (w < length waits.now) × WaitsFor waits.now edge w) row.items) }
{
    let own = waits.row(edge);
    let mut row = Vec::new(alloc);
    for place in 0..own.len() {
        if (own[place] as usize) < waits.len() {
            row.push(own[place])?;
        }
    }
    Ok(row)
}

/// Appends the makers of an edge's further waits, if these are edges: from a place on, up to the first wait of another
/// edge. Returns the place of that wait.
fn push_makers(
    count: usize,
    more: &[Wait],
    edge: usize,
    first: usize,
    row: &mut Vec<u32>,
) -> Result<usize, AllocError>
    ensures { (added : List ℕ) × (row.new.items ≡ row.old.items ++ added) × All (λ w. (w < count) × IsFurther more.now edge w) added }
{
    for place in first..more.len() {
        if more[place].edge as usize != edge {
            return Ok(place);
        }
        if (more[place].maker as usize) < count {
            row.push(more[place].maker)?;
        }
    }
    Ok(more.len())
}

/// Returns the waits of each edge with the further ones.
fn rows_with(alloc: Global, waits: &RowList<u32>, more: &[Wait]) -> Result<RowList<u32>, AllocError>
    ensures rows { IfOk result (λ rows. (e : ℕ) → IsRow waits.now more.now e (get_or rows e [])) }
    ensures len { IfOk result (λ rows. length rows ≡ length waits.now) }
{
    let mut rows = RowList::new(alloc);
    let mut first = 0usize;
    for edge in 0..waits.len() {
        let mut row = own_waits(alloc, waits, edge)?;
        first = push_makers(waits.len(), more, edge, first, &mut row)?;
        rows.push(&row)?;
    }
    Ok(rows)
}

/// Returns the cycle in a fault, or None if it is another one.
fn cycle_in(fault: GraphFault) -> Result<Option<Items<usize>>, AllocError>
    ensures { (waits : List (List ℕ)) → TellsCycle waits fault → IfOk result (λ c. IfSome c (λ es. IsCycle waits es)) }
{
    match fault {
        GraphFault::Cycle(edges) => Ok(Some(edges)),
        GraphFault::Memory => Err(AllocError),
        GraphFault::TwoProducers(_) => Ok(None),
        GraphFault::UnknownDefault(_) => Ok(None),
        GraphFault::TooManyEdges => Ok(None),
    }
}

/// Returns the edges of a cycle of the waits of a graph and of further waits. Returns None if there is none. The
/// further waits must be in ascending order of their edges: others may be left out. Waits for edges that the graph
/// doesn't have are left out, too.
///
/// # Errors
///
/// `AllocError` if memory runs out.
pub fn cycle_with<'a>(
    alloc: Global,
    graph: &Graph<'a>,
    more: &[Wait],
) -> Result<Option<Items<usize>>, AllocError>
    ensures { IfOk result (λ c. IfSome c (λ es. ClosesCycle graph.now.waits more.now es)) }
{
    if graph.waits.len() > MAX_EDGES {
        return Ok(None);
    }
    let rows = rows_with(alloc, &graph.waits, more)?;
    match ranks(alloc, &rows) {
        Ok(ranks) => {
            drop(ranks);
            Ok(None)
        }
        Err(fault) => cycle_in(fault),
    }
}
