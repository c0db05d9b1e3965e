//! Tests of the suggestions for words that are misspelled.

use crate::tools::project::{graph_of, manifest_of, tree_of};
use plan_tools::*;
use std::alloc::Global;

/// Checks whether this tool is suggested for a word. An empty `expected` means that none is suggested.
fn tool_is(alloc: Global, word: &[u8], expected: &[u8]) -> Option<bool> {
    let tools = [
        b"clean".as_slice(),
        b"compdb".as_slice(),
        b"cleandead".as_slice(),
    ];
    let tool = closest(alloc, &tools, word).ok()?;
    Some(tool.unwrap_or(b"") == expected)
}

/// Checks that the closest tool is suggested, or none if no tool is close.
#[test]
fn tools(rt: HostRuntime) {
    assert!(rt; tool_is(rt.alloc(), b"clena", b"clean") == Some(true));
    assert!(rt; tool_is(rt.alloc(), b"compdbs", b"compdb") == Some(true));
    assert!(rt; tool_is(rt.alloc(), b"targets", b"") == Some(true));
}

/// Checks whether this path is suggested for a word. An empty `expected` means that none is suggested.
fn path_is(alloc: Global, word: &[u8], expected: &[u8]) -> Option<bool> {
    let tree = tree_of(alloc)?;
    let manifest = manifest_of(alloc, &tree)?;
    let graph = graph_of(alloc, &manifest)?;
    let path = closest_path(alloc, &graph, word).ok()?;
    Some(path.unwrap_or(b"") == expected)
}

/// Checks that the closest path is suggested, or none if no path is close.
#[test]
fn paths(rt: HostRuntime) {
    assert!(rt; path_is(rt.alloc(), b"a.hh", b"a.h") == Some(true));
    assert!(rt; path_is(rt.alloc(), b"b.o", b"a.o") == Some(true));
    assert!(rt; path_is(rt.alloc(), b"nothing-like-it", b"") == Some(true));
}
