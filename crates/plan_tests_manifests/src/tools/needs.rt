//! Tests of the paths that targets need, the paths that are built by default, and outputs that the manifest lacks.

use crate::tools::project::{are_rows, graph_of, manifest_of, tree_of};
use plan_text::RowList;
use plan_tools::*;
use std::alloc::Global;

/// Checks whether a target needs these paths. `expected` has one flag for each path of the graph.
fn needed_are(alloc: Global, target: u32, expected: &[bool]) -> Option<bool> {
    let tree = tree_of(alloc)?;
    let manifest = manifest_of(alloc, &tree)?;
    let graph = graph_of(alloc, &manifest)?;
    let needed = needed_paths(alloc, &graph, &[target]).ok()?;
    Some(needed.as_slice() == expected)
}

/// Checks that a target needs itself and the inputs of its edge, including indirect ones, and that a source needs only
/// itself.
#[test]
fn needed(rt: HostRuntime) {
    let of_app = [true, false, true, true, true, false, false, false];
    assert!(rt; needed_are(rt.alloc(), 4, &of_app) == Some(true));
    let of_source = [false, false, true, false, false, false, false, false];
    assert!(rt; needed_are(rt.alloc(), 2, &of_source) == Some(true));
}

/// Checks whether `clean` of a target removes these files.
fn cleaned_of_target_are(alloc: Global, target: u32, expected: &[&[u8]]) -> Option<bool> {
    let tree = tree_of(alloc)?;
    let manifest = manifest_of(alloc, &tree)?;
    let graph = graph_of(alloc, &manifest)?;
    let needed = needed_paths(alloc, &graph, &[target]).ok()?;
    let files = files_of_paths(alloc, &manifest, &graph, &needed).ok()?;
    Some(are_rows(files.paths(), expected))
}

/// Checks that `clean` of a target removes the outputs that the target needs and the depfiles of their edges.
#[test]
fn cleaned_files_of_a_target(rt: HostRuntime) {
    let of_all: [&[u8]; 4] = [b"a.o", b"a.o.d", b"app", b"app.d"];
    assert!(rt; cleaned_of_target_are(rt.alloc(), 5, &of_all) == Some(true));
}

/// Checks whether these paths are the roots and also the default targets.
fn roots_are(alloc: Global, expected: &[u32]) -> Option<bool> {
    let tree = tree_of(alloc)?;
    let manifest = manifest_of(alloc, &tree)?;
    let graph = graph_of(alloc, &manifest)?;
    let roots = root_paths(alloc, &graph).ok()?;
    let defaults = default_paths(alloc, &manifest, &graph).ok()?;
    Some(roots.as_slice() == expected && defaults.as_slice() == expected)
}

/// Checks that the outputs that no edge uses are the roots, and that they are the default targets of a manifest without
/// `default`.
#[test]
fn roots(rt: HostRuntime) {
    assert!(rt; roots_are(rt.alloc(), &[1, 5, 6]) == Some(true));
}

/// Checks whether these are the dead outputs among `a.c`, `old.o` and `a.o`.
fn dead_are(alloc: Global, expected: &[&[u8]]) -> Option<bool> {
    let tree = tree_of(alloc)?;
    let manifest = manifest_of(alloc, &tree)?;
    let graph = graph_of(alloc, &manifest)?;
    let mut outputs = RowList::new(alloc);
    outputs.push(b"a.c").ok()?;
    outputs.push(b"old.o").ok()?;
    outputs.push(b"a.o").ok()?;
    let dead = dead_outputs(alloc, &graph, &outputs).ok()?;
    Some(are_rows(dead.paths(), expected))
}

/// Checks that an output is dead if the manifest doesn't name it.
#[test]
fn dead(rt: HostRuntime) {
    let only: [&[u8]; 1] = [b"old.o"];
    assert!(rt; dead_are(rt.alloc(), &only) == Some(true));
}
