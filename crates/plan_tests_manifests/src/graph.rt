//! Calls each public function of plan_graph on manifests, as another crate would.

use plan_graph::*;
use plan_scope::{Manifest, Source, SourceFault, evaluate, load};
use plan_text::RowList;
use std::alloc::Global;
use std::test::Fail;

/// A source that returns one text for each path.
#[derive(Drop)]
struct Text {
    bytes: &'static [u8],
}

impl Source for Text {
    ghost gives = { λ _ _ _. Unit {0} };

    ghost fails = { λ _ _. ⊥ };

    ghost failures = { λ _. 0 };

    fn read(&mut self, alloc: Global, _path: &[u8]) -> Result<Vec<u8>, SourceFault> {
        match Vec::from_slice(alloc, self.bytes) {
            Ok(bytes) => Ok(bytes),
            Err(_) => Err(SourceFault::Memory),
        }
    }
}

/// Loads and evaluates a text. Returns `None` if it is refused.
fn manifest_of(alloc: Global, bytes: &'static [u8]) -> Option<Manifest> {
    let Ok(tree) = load(alloc, &mut Text { bytes }, b"build.ninja") else {
        return None;
    };
    match evaluate(alloc, &tree) {
        Ok(manifest) => Some(manifest),
        Err(_) => None,
    }
}

/// Three edges. The first waits for both others, and the last waits for the second.
const THREE: &[u8] = b"rule r\n  command = true\nbuild c: r a b\nbuild a: r\nbuild b: r a\n";

/// Checks whether the rows are these.
fn are_rows(rows: &RowList<u32>, expected: &[&[u32]]) -> bool {
    if rows.len() != expected.len() {
        return false;
    }
    for at in 0..expected.len() {
        if rows.row(at) != expected[at] {
            return false;
        }
    }
    true
}

/// Checks whether the graph of a text has these waits, ranks and default edges.
fn is_graph(
    alloc: Global,
    text: &'static [u8],
    waits: &[&[u32]],
    ranks: &[u32],
    defaults: &[u32],
) -> bool {
    let Some(manifest) = manifest_of(alloc, text) else {
        return false;
    };
    match graph(alloc, &manifest) {
        Ok(graph) => {
            are_rows(&graph.waits, waits)
                && graph.ranks.as_slice() == ranks
                && graph.defaults.as_slice() == defaults
        }
        Err(_) => false,
    }
}

/// Returns the number of the fault of a text's graph, 0 if it has a graph, and 255 if it has no manifest.
fn refusal(alloc: Global, text: &'static [u8]) -> u8 {
    let Some(manifest) = manifest_of(alloc, text) else {
        return 255;
    };
    match graph(alloc, &manifest) {
        Ok(_) => 0,
        Err(fault) => fault.number(),
    }
}

/// Checks whether a text has a cycle of these edges.
fn has_cycle(alloc: Global, text: &'static [u8], edges: &[usize]) -> bool {
    let Some(manifest) = manifest_of(alloc, text) else {
        return false;
    };
    match graph(alloc, &manifest) {
        Err(GraphFault::Cycle(cycle)) => cycle.as_slice() == edges,
        _ => false,
    }
}

/// Returns the edge that produces a path in the graph of `THREE`.
fn producer(alloc: Global, path: &[u8]) -> Option<u32> {
    let manifest = manifest_of(alloc, THREE)?;
    match graph(alloc, &manifest) {
        Ok(graph) => graph.files.producer(path),
        Err(_) => None,
    }
}

/// Checks whether a number has this path in the graph of `THREE`. An empty path means that the number has none.
fn has_path(alloc: Global, number: usize, path: &[u8]) -> bool {
    let Some(manifest) = manifest_of(alloc, THREE) else {
        return false;
    };
    match graph(alloc, &manifest) {
        Ok(graph) => match graph.files.path(number) {
            Some(found) => found == path,
            None => path.is_empty(),
        },
        Err(_) => false,
    }
}

/// Two edges. The first names a path twice, and it names a path that the second produces.
const TWO: &[u8] = b"rule r\n  command = true\nbuild b | c: r a a || d\nbuild d: r e | a\n";

/// Checks whether the graph of `TWO` has these rows of outputs, inputs and waits, and an empty row after the last of
/// each.
fn has_rows(alloc: Global, outputs: &[&[u32]], inputs: &[&[u32]], waits: &[&[u32]]) -> bool {
    let Some(manifest) = manifest_of(alloc, TWO) else {
        return false;
    };
    match graph(alloc, &manifest) {
        Ok(graph) => {
            are_rows(&graph.outputs, outputs)
                && are_rows(&graph.inputs, inputs)
                && are_rows(&graph.waits, waits)
                && graph.outputs.row(2).is_empty()
                && graph.inputs.row(2).is_empty()
                && graph.waits.row(2).is_empty()
        }
        Err(_) => false,
    }
}

/// Returns the number of a path in the graph of `TWO`.
fn number(alloc: Global, path: &[u8]) -> Option<usize> {
    let manifest = manifest_of(alloc, TWO)?;
    match graph(alloc, &manifest) {
        Ok(graph) => graph.files.number(path),
        Err(_) => None,
    }
}

/// Returns the edge that produces the path with a number in the graph of `TWO`.
fn producer_at(alloc: Global, number: usize) -> Option<u32> {
    let manifest = manifest_of(alloc, TWO)?;
    match graph(alloc, &manifest) {
        Ok(graph) => graph.files.producer_at(number),
        Err(_) => None,
    }
}

/// Returns the number of paths in the graph of a text.
fn path_count(alloc: Global, text: &'static [u8]) -> Option<usize> {
    let manifest = manifest_of(alloc, text)?;
    match graph(alloc, &manifest) {
        Ok(graph) => Some(graph.files.len()),
        Err(_) => None,
    }
}

#[test]
fn rows_of_numbers(rt: HostRuntime) -> Result<(), Fail> {
    assert!(rt;
        has_rows(
            rt.alloc(),
            &[&[0, 1], &[3]],
            &[&[2, 2, 3], &[4, 2]],
            &[&[1], &[]]
        )
    );
    Ok(())
}

#[test]
fn numbers_of_paths(rt: HostRuntime) -> Result<(), Fail> {
    assert!(rt; number(rt.alloc(), b"b") == Some(0));
    assert!(rt; number(rt.alloc(), b"d") == Some(3));
    assert!(rt; number(rt.alloc(), b"e") == Some(4));
    assert!(rt; number(rt.alloc(), b"x").is_none());
    Ok(())
}

#[test]
fn producers_by_number(rt: HostRuntime) -> Result<(), Fail> {
    assert!(rt; producer_at(rt.alloc(), 1) == Some(0));
    assert!(rt; producer_at(rt.alloc(), 2).is_none());
    assert!(rt; producer_at(rt.alloc(), 3) == Some(1));
    assert!(rt; producer_at(rt.alloc(), 5).is_none());
    Ok(())
}

#[test]
fn paths_counted(rt: HostRuntime) -> Result<(), Fail> {
    assert!(rt; path_count(rt.alloc(), TWO) == Some(5));
    assert!(rt; path_count(rt.alloc(), THREE) == Some(3));
    assert!(rt; path_count(rt.alloc(), b"rule r\n  command = true\n") == Some(0));
    Ok(())
}

#[test]
fn paths_in_order(rt: HostRuntime) -> Result<(), Fail> {
    assert!(rt; has_path(rt.alloc(), 0, b"c"));
    assert!(rt; has_path(rt.alloc(), 1, b"a"));
    assert!(rt; has_path(rt.alloc(), 2, b"b"));
    assert!(rt; has_path(rt.alloc(), 3, b""));
    Ok(())
}

#[test]
fn three_edges(rt: HostRuntime) -> Result<(), Fail> {
    assert!(rt; is_graph(rt.alloc(), THREE, &[&[1, 2], &[], &[1]], &[2, 0, 1], &[0]));
    Ok(())
}

#[test]
fn producers(rt: HostRuntime) -> Result<(), Fail> {
    assert!(rt; producer(rt.alloc(), b"b") == Some(2));
    assert!(rt; producer(rt.alloc(), b"d").is_none());
    Ok(())
}

#[test]
fn own_phony(rt: HostRuntime) -> Result<(), Fail> {
    assert!(rt; is_graph(rt.alloc(), b"build a: phony a\n", &[&[]], &[0], &[0]));
    Ok(())
}

#[test]
fn named_defaults(rt: HostRuntime) -> Result<(), Fail> {
    let text = b"rule r\n  command = true\nbuild c: r\nbuild a: r c\nbuild b: r\ndefault b c b\n";
    assert!(rt; is_graph(rt.alloc(), text, &[&[], &[0], &[]], &[0, 1, 0], &[0, 2]));
    Ok(())
}

#[test]
fn order_only(rt: HostRuntime) -> Result<(), Fail> {
    let text = b"rule r\n  command = true\nbuild a b: r | d || c\nbuild c: r\nbuild d: r\n";
    assert!(rt; is_graph(rt.alloc(), text, &[&[1, 2], &[], &[]], &[1, 0, 0], &[0]));
    Ok(())
}

#[test]
fn ring(rt: HostRuntime) -> Result<(), Fail> {
    let text = b"rule r\n  command = true\nbuild a: r c\nbuild b: r a\nbuild c: r b\n";
    assert!(rt; has_cycle(rt.alloc(), text, &[0, 2, 1]));
    Ok(())
}

#[test]
fn ring_behind_others(rt: HostRuntime) -> Result<(), Fail> {
    let text =
        b"rule r\n  command = true\nbuild z: r a\nbuild b: r c\nbuild c: r b\nbuild a: r c\n";
    assert!(rt; has_cycle(rt.alloc(), text, &[1, 2]));
    Ok(())
}

#[test]
fn own_input(rt: HostRuntime) -> Result<(), Fail> {
    assert!(rt;
        has_cycle(
            rt.alloc(),
            b"rule r\n  command = true\nbuild a: r || a\n",
            &[0]
        )
    );
    Ok(())
}

#[test]
fn numbers(rt: HostRuntime) -> Result<(), Fail> {
    let alloc = rt.alloc();
    assert!(rt; refusal(alloc, b"rule r\n  command = true\nbuild a: r\nbuild a: r\n") == 50);
    assert!(rt; refusal(alloc, b"rule r\n  command = true\nbuild a: r a\n") == 51);
    assert!(rt; refusal(alloc, b"rule r\n  command = true\ndefault a\nbuild a: r\n") == 52);
    assert!(rt; GraphFault::TooManyEdges.number() == 53);
    assert!(rt; GraphFault::Memory.number() == 54);
    Ok(())
}

#[test]
fn first_fault(rt: HostRuntime) -> Result<(), Fail> {
    let text = b"rule r\n  command = true\nbuild a: r\ndefault b\nbuild a: r\n";
    assert!(rt; refusal(rt.alloc(), text) == 52);
    Ok(())
}

/// Checks which cycle a further wait closes in the graph of three edges. No edges are expected if there is none.
fn closes(alloc: Global, edge: u32, maker: u32, expected: &[usize]) -> bool {
    let Some(manifest) = manifest_of(alloc, THREE) else {
        return false;
    };
    let Ok(graph) = graph(alloc, &manifest) else {
        return false;
    };
    match cycle_with(alloc, &graph, &[Wait { edge, maker }]) {
        Ok(Some(cycle)) => cycle.as_slice() == expected,
        Ok(None) => expected.is_empty(),
        Err(_) => false,
    }
}

/// Checks that a further wait closes a cycle if its edge is waited for, and that a wait for no edge is left out.
#[test]
fn cycles_with_further_waits(rt: HostRuntime) -> Result<(), Fail> {
    assert!(rt; closes(rt.alloc(), 1, 0, &[0, 1]));
    assert!(rt; closes(rt.alloc(), 1, 2, &[1, 2]));
    assert!(rt; closes(rt.alloc(), 1, 1, &[1]));
    assert!(rt; closes(rt.alloc(), 0, 1, &[]));
    assert!(rt; closes(rt.alloc(), 2, 3, &[]));
    Ok(())
}
