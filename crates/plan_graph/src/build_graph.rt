//! Builds the graph of a manifest: the waits of edges, and the default edges.

ghost use Rattle.std.specs.Prelude.{◌≡◌, None, Ok, map, not, List, ◌++◌, Some, slice_get};
ghost use Rattle.std.specs.List.{list_any};
ghost use Rattle.plan_text.specs.Outcome.{Meets};
ghost use Rattle.plan_graph.specs.declared.fault.GraphFault.TheVariants.{Memory};
ghost use Rattle.plan_graph.specs.Files.{file_at, paths_in, number_of};
ghost use Rattle.plan_graph.specs.Fitting.{Fits, producers, IsAscending, producers_at, unless_own};
ghost use Rattle.plan_graph.specs.Graph.{GraphIs, default_edges, is_last, numbers_from, outputs_of, rows_of, all_waits, inputs_named, waits_of};
ghost use Rattle.plan_scope.specs.Edge.{Edge as EdgeMeant};

use crate::edge_reader::{is_own, own_of, read_edges};
use crate::fault::GraphFault;
use crate::files::{Files, narrow};
use crate::graph_data::Graph;
use crate::walk::ranks;
use plan_scope::{DefaultTarget, EdgeList, EdgeRef, Manifest};
use plan_text::{Items, RowList};
use std::alloc::Global;

/// Returns whether the file with one of these numbers is no input of any edge.
fn has_unused<'a>(files: &Files<'a>, numbers: &[u32]) -> bool
    ensures { result ≡ list_any (λ n. not (file_at n files.now).is_used) numbers.now }
{
    for number in numbers {
        if !files.at(*number as usize).is_used {
            return true;
        }
    }
    false
}

/// Returns the edges with an output that is no input of any edge, given the numbers of the outputs of each
/// edge.
fn last_edges<'a>(
    alloc: Global,
    files: &Files<'a>,
    outputs: &RowList<u32>,
    edges: &EdgeList,
) -> Result<Items<u32>, GraphFault>
    requires fits { Fits files.now edges.now }
    requires outputs { outputs.now ≡ rows_of outputs_of (paths_in files.now) edges.now }
    ensures { Meets Memory (λ v. v) result (Ok (numbers_from 0 (is_last edges.now) edges.now)) }
{
    let count = narrow(edges.len())?;
    let mut numbers = Vec::new(alloc);
    for number in 0..count {
        if has_unused(files, outputs.row(number as usize)) {
            numbers.push(number)?;
        }
    }
    Ok(Items::new(numbers))
}

/// Returns the producers of the targets of `default` statements, in their order.
fn producers_of_targets<'a>(
    alloc: Global,
    files: &Files<'a>,
    targets: &[DefaultTarget],
) -> Result<Vec<u32>, GraphFault>
    ensures { Meets Memory (λ v. v.items) result (Ok (producers files.now None (map (λ t. t.path) targets.now))) }
{
    let mut numbers = Vec::new(alloc);
    for target in targets {
        add_producer(&mut numbers, None, files.producer(target.path.as_slice()))?;
    }
    Ok(numbers)
}

/// Returns the edges that are built by default, if no target is given.
fn default_edges<'a>(
    alloc: Global,
    files: &Files<'a>,
    outputs: &RowList<u32>,
    edges: &EdgeList,
    defaults: &[DefaultTarget],
) -> Result<Items<u32>, GraphFault>
    requires fits { Fits files.now edges.now }
    requires outputs { outputs.now ≡ rows_of outputs_of (paths_in files.now) edges.now }
    ensures { Meets Memory (λ v. v) result (Ok (default_edges edges.now defaults.now)) }
{
    if defaults.is_empty() {
        return last_edges(alloc, files, outputs, edges);
    }
    let mut numbers = producers_of_targets(alloc, files, defaults)?;
    ascend(&mut numbers);
    Ok(Items::new(numbers))
}

/// Builds the graph of a manifest.
///
/// An edge waits for each edge that produces one of its inputs, of any sort. The outputs of a phony are removed
/// from its own inputs. If the manifest has `default` statements, the edges that produce their targets are
/// built by default. Otherwise each edge with an output that is no input of any edge is built by default (Ninja
/// manual, "Build statements" and "Default target statements").
///
/// # Errors
///
/// The first of these faults in the order of reading:
///
/// - `TwoProducers` if a path is an output twice.
/// - `TooManyEdges` if there are more than 1,048,576 edges.
/// - `UnknownDefault` if no build line above a `default` statement produces its target.
///
/// If there is none of them, `Cycle` with the edges of one cycle, if there is one. `Memory` if memory runs out,
/// whatever the manifest is.
pub fn graph<'a>(alloc: Global, manifest: &'a Manifest) -> Result<Graph<'a>, GraphFault>
    ensures { GraphIs manifest.now result }
{
    let read = read_edges(alloc, manifest)?;
    let waits = all_waits(alloc, &read.files, &read.inputs, &manifest.edges)?;
    let ranks = ranks(alloc, &waits)?;
    let defaults = default_edges(
        alloc,
        &read.files,
        &read.outputs,
        &manifest.edges,
        manifest.defaults.as_slice(),
    )?;
    Ok(Graph {
        files: read.files,
        outputs: read.outputs,
        inputs: read.inputs,
        waits,
        ranks,
        defaults,
    })
}

/// Appends the producer of a path, unless it is the edge itself.
pub fn add_producer(
    row: &mut Vec<u32>,
    own: Option<u32>,
    producer: Option<u32>,
) -> Result<(), GraphFault>
    ensures { Meets Memory (λ _. row.new.items) result (Ok (row.old.items ++ unless_own own producer)) }
{
    match producer {
        Some(producer) => {
            if !is_own(Some(producer), own) {
                row.push(producer)?;
            }
            Ok(())
        }
        None => Ok(()),
    }
}

/// Appends the producers of the paths with these numbers, unless they are the edge itself.
fn add_producers<'a>(
    row: &mut Vec<u32>,
    files: &Files<'a>,
    own: Option<u32>,
    numbers: &[u32],
) -> Result<(), GraphFault>
    ensures { Meets Memory (λ _. row.new.items) result (Ok (row.old.items ++ producers_at files.now own numbers.now)) }
{
    for number in numbers {
        add_producer(row, own, files.producer_at(*number as usize))?;
    }
    Ok(())
}

/// Sorts numbers in ascending order, and removes repetitions.
pub fn ascend(numbers: &mut Vec<u32>)
    ensures { IsAscending numbers.old.items numbers.new.items }
{
    numbers.sort_unstable();
    numbers.dedup();
}

/// Computes the waits of edge `number` from the numbers of its inputs. Overwrites the row.
fn waits_of<'a, 'b>(
    row: &mut Vec<u32>,
    files: &Files<'a>,
    number: u32,
    edge: &EdgeRef<'b>,
    inputs: &[u32],
) -> Result<(), GraphFault>
    requires { inputs.now ≡ map (number_of (paths_in files.now)) (inputs_named edge.now) }
    ensures { (edges : List EdgeMeant) → Fits files.now edges → slice_get edges number ≡ Some edge.now → Meets Memory (λ _. row.new.items) result (Ok (waits_of edges edge.now)) }
{
    row.clear();
    add_producers(row, files, own_of(number, edge), inputs)?;
    ascend(row);
    Ok(())
}

/// Returns the waits of each edge, given the numbers of its inputs.
pub fn all_waits<'a>(
    alloc: Global,
    files: &Files<'a>,
    inputs: &RowList<u32>,
    edges: &EdgeList,
) -> Result<RowList<u32>, GraphFault>
    requires fits { Fits files.now edges.now }
    requires inputs { inputs.now ≡ rows_of inputs_named (paths_in files.now) edges.now }
    ensures { Meets Memory (λ rows. rows) result (Ok (all_waits edges.now)) }
{
    let count = narrow(edges.len())?;
    let mut waits = RowList::new(alloc);
    waits.reserve(edges.len())?;
    let mut row = Vec::new(alloc);
    for number in 0..count {
        let edge = edges.edge(number as usize);
        waits_of(&mut row, files, number, &edge, inputs.row(number as usize))?;
        waits.push(&row)?;
    }
    Ok(waits)
}
