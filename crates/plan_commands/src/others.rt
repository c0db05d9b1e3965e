//! The files of a manifest that stay when depfiles are removed.

use crate::recorded::add_paths;
use plan_lanes::World;
use plan_scope::{EdgeList, EdgeRef};
use plan_text::PathFilter;
use std::alloc::{AllocError, Global};

/// Checks whether an edge has a depfile that may be removed.
fn has_deps(edges: &EdgeList) -> bool {
    for number in 0..edges.len() {
        if edges.edge(number).has_deps() {
            return true;
        }
    }
    false
}

/// Adds the paths of the inputs of an edge, and of a depfile that stands for itself.
fn add_others<'a>(
    alloc: Global,
    edge: &EdgeRef<'a>,
    others: &mut PathFilter,
) -> Result<(), AllocError> {
    add_paths(others, &edge.inputs());
    add_paths(others, &edge.implicit_inputs());
    add_paths(others, &edge.order_only_inputs());
    if !edge.has_deps() && !edge.depfile().is_empty() {
        others.add(edge.depfile().join(alloc)?.as_slice());
    }
    Ok(())
}

/// Returns the set of the inputs of all edges, and of the depfiles that stand for themselves.
fn others_of(alloc: Global, edges: &EdgeList) -> Result<PathFilter, AllocError> {
    let mut others = PathFilter::new(alloc, edges.len())?;
    for number in 0..edges.len() {
        add_others(alloc, &edges.edge(number), &mut others)?;
    }
    Ok(others)
}

/// Tells a world which files of a manifest stay when depfiles are removed, besides those that edges make: inputs, and
/// depfiles that stand for themselves. All files stay if no edge has `deps`.
///
/// # Errors
/// `AllocError` if memory runs out.
pub(crate) fn tell_others<W: World>(
    alloc: Global,
    world: &W,
    edges: &EdgeList,
) -> Result<(), AllocError> {
    let mut others = None;
    if has_deps(edges) {
        others = Some(others_of(alloc, edges)?);
    }
    world.take_others(others);
    Ok(())
}
