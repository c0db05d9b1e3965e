//! Build statements that messages are about.

use crate::loaded::{Loaded, StatementPlace, load_manifest};
use plan_scope::{EdgeList, EdgeRef, PathRange};
use plan_text::Items;
use std::alloc::Global;
use std::rt::Files;

/// A build statement with many paths.
#[derive(Drop)]
pub struct LargeStatement {
    pub place: StatementPlace,
    /// Its first output.
    pub output: Items<u8>,
    /// The number of its inputs and outputs.
    pub paths: usize,
}

/// Returns how often a path is in a list.
fn times_in(paths: PathRange<'_>, wanted: &[u8]) -> usize {
    let mut times = 0usize;
    for number in 0..paths.len() {
        if paths.path(number) == wanted {
            times = times.saturating_add(1);
        }
    }
    times
}

/// Returns the number of the edge that has an output which an edge above it has, or which it has twice itself.
fn second_maker(edges: &EdgeList, output: &[u8]) -> Option<usize> {
    let mut times = 0usize;
    for number in 0..edges.len() {
        let edge = edges.edge(number);
        let own = times_in(edge.outputs(), output);
        let implicit = times_in(edge.implicit_outputs(), output);
        times = times.saturating_add(own).saturating_add(implicit);
        if times > 1 {
            return Some(number);
        }
    }
    None
}

/// Returns the number of inputs and outputs of an edge.
fn paths_of(edge: &EdgeRef<'_>) -> usize {
    let outputs = edge
        .outputs()
        .len()
        .saturating_add(edge.implicit_outputs().len());
    let inputs = edge
        .inputs()
        .len()
        .saturating_add(edge.implicit_inputs().len());
    outputs
        .saturating_add(inputs)
        .saturating_add(edge.order_only_inputs().len())
}

/// Returns the number of the edge with the most paths.
fn largest_edge(edges: &EdgeList) -> Option<usize> {
    let mut most = 0usize;
    let mut found = None;
    for number in 0..edges.len() {
        let paths = paths_of(&edges.edge(number));
        if paths > most {
            most = paths;
            found = Some(number);
        }
    }
    found
}

/// Returns the first output of an edge. Empty if it has only implicit ones.
fn first_output<'a>(edge: &EdgeRef<'a>) -> &'a [u8] {
    let outputs = edge.outputs();
    if outputs.len() > 0 {
        return outputs.path(0);
    }
    &[]
}

/// Returns the place of the build statement of a loaded manifest that makes an output for the second time.
fn second_in(alloc: Global, loaded: &Loaded, output: &[u8]) -> Option<StatementPlace> {
    let number = second_maker(&loaded.manifest.edges, output)?;
    loaded.build_statement(alloc, number)
}

/// Returns the largest build statement of a loaded manifest.
fn largest_in(alloc: Global, loaded: &Loaded) -> Option<LargeStatement> {
    let edges = &loaded.manifest.edges;
    let number = largest_edge(edges)?;
    if number >= edges.len() {
        return None;
    }
    let edge = edges.edge(number);
    let output = Vec::from_slice(alloc, first_output(&edge)).ok()?;
    Some(LargeStatement {
        place: loaded.build_statement(alloc, number)?,
        output: Items::new(output),
        paths: paths_of(&edge),
    })
}

/// Returns the place of the build statement that makes an output which a statement above it makes. None if there is no
/// such statement in the manifest at a path, or memory runs out.
pub fn second_producer<R: Files + Eprint + AllocGlobal>(
    rt: &R,
    manifest: &[u8],
    output: &[u8],
) -> Option<StatementPlace> {
    match load_manifest(rt, manifest) {
        Ok(loaded) => second_in(rt.alloc(), &loaded, output),
        Err(_) => None,
    }
}

/// Returns the build statement with the most paths in the manifest at a path. None if there is none, or memory runs
/// out.
pub fn largest_statement<R: Files + Eprint + AllocGlobal>(
    rt: &R,
    manifest: &[u8],
) -> Option<LargeStatement> {
    match load_manifest(rt, manifest) {
        Ok(loaded) => largest_in(rt.alloc(), &loaded),
        Err(_) => None,
    }
}
