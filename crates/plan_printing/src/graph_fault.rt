//! Faults of graphs, as they are printed.

ghost use Rattle.std.specs.Prelude.{◌≡◌, ◌⊎◌, ◌++◌, ◌∷◌, IfOk, OnOk, codes, flat_map};
ghost use Rattle.std.specs.List.{join_by};
ghost use Rattle.plan_text.specs.Bytes.{space};
ghost use Rattle.plan_printing.specs.Faults as defined;

use crate::fault::{PlanFault, no_memory};
use plan_graph::GraphFault;
use plan_scope::{EdgeList, EdgeRef, Manifest};
use plan_text::Items;
use std::alloc::{AllocError, Global};

/// Returns the name of an edge: its first explicit output, or its first implicit output if it has no explicit ones.
fn name_of_edge<'a>(edge: &EdgeRef<'a>) -> &'a [u8]
    ensures { result.now ≡ defined.name_of_edge edge.now }
{
    let outputs = edge.outputs();
    if outputs.len() > 0 {
        return outputs.path(0);
    }
    edge.implicit_outputs().path(0)
}

/// Returns the name of the edge with this number, or an empty name if there is no such edge.
fn edge_name_at(edges: &EdgeList, number: usize) -> &[u8]
    ensures { result.now ≡ defined.edge_name_at edges.now number }
{
    if number >= edges.len() {
        return &[];
    }
    name_of_edge(&edges.edge(number))
}

/// Appends ` -> ` and the name of the edge for each of these numbers.
fn append_names(edges: &EdgeList, numbers: &[usize], text: &mut Vec<u8>) -> Result<(), AllocError>
    ensures { OnOk result (text.new.items ≡ text.old.items ++ flat_map (λ n. codes " -> " ++ defined.edge_name_at edges.now n) numbers.now) }
{
    for number in numbers {
        text.extend_from_slice(b" -> ")?;
        text.extend_from_slice(edge_name_at(edges, *number))?;
    }
    Ok(())
}

/// Returns a space, and the names of the edges with these numbers, separated by ` -> `.
fn cycle_text(alloc: Global, edges: &EdgeList, numbers: &[usize]) -> Result<Vec<u8>, AllocError>
    ensures { IfOk result (λ text. text.items ≡ space ∷ join_by (defined.edge_name_at edges.now) (codes " -> ") numbers.now) }
{
    let mut text = Vec::from_slice(alloc, b" ")?;
    match numbers {
        [] => Ok(text),
        [first, more @ ..] => {
            text.extend_from_slice(edge_name_at(edges, *first))?;
            append_names(edges, more, &mut text)?;
            Ok(text)
        }
    }
}

/// Returns ` PATH`.
fn path_text(alloc: Global, path: &[u8]) -> Result<Vec<u8>, AllocError>
    ensures { IfOk result (λ text. text.items ≡ space ∷ path.now) }
{
    let mut text = Vec::from_slice(alloc, b" ")?;
    text.extend_from_slice(path)?;
    Ok(text)
}

/// Returns the text that is printed after the name of a graph's fault.
fn rest_of_graph(alloc: Global, edges: &EdgeList, fault: &GraphFault) -> Result<Vec<u8>, AllocError>
    ensures { IfOk result (λ rest. rest.items ≡ defined.rest_of_graph edges.now fault.now) }
{
    match fault {
        GraphFault::TwoProducers(output) => path_text(alloc, output.as_slice()),
        GraphFault::Cycle(numbers) => cycle_text(alloc, edges, numbers.as_slice()),
        GraphFault::UnknownDefault(target) => path_text(alloc, target.as_slice()),
        GraphFault::TooManyEdges | GraphFault::Memory => Ok(Vec::new(alloc)),
    }
}

/// Converts the reason why a manifest has no graph into the fault that is printed. Returns `no_memory` if memory runs
/// out.
pub fn printed_graph_fault(alloc: Global, manifest: &Manifest, fault: &GraphFault) -> PlanFault
    ensures { (result ≡ defined.printed_graph_fault manifest.now fault.now) ⊎ (result ≡ defined.no_memory) }
{
    match rest_of_graph(alloc, &manifest.edges, fault) {
        Ok(rest) => PlanFault {
            number: fault.number(),
            rest: Items::new(rest),
        },
        Err(_) => no_memory(alloc),
    }
}
