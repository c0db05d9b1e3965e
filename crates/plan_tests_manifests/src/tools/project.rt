//! The manifest that the tests share.

use plan_graph::{Graph, graph};
use plan_scope::{Manifest, Source, SourceFault, Tree, evaluate, load};
use plan_text::RowList;
use std::alloc::Global;

/// A source that returns the same text for each path.
#[derive(Drop)]
struct Text {
    bytes: &'static [u8],
}

impl Source for Text {
    ghost gives = { λ _ _ _. Unit {0} };

    ghost fails = { λ _ _. ⊥ };

    ghost failures = { λ _. 0 };

    fn read(&mut self, alloc: Global, _path: &[u8]) -> Result<Vec<u8>, SourceFault> {
        match Vec::from_slice(alloc, self.bytes) {
            Ok(bytes) => Ok(bytes),
            Err(_) => Err(SourceFault::Memory),
        }
    }
}

/// A manifest that builds a program of one source, an alias for it, and the manifest itself. The paths of its graph are
/// a.o, a.lst, a.c, a.h, app, all, build.ninja and conf.
const PROJECT: &[u8] =
    b"rule cc\n  command = cc $in -o $out\n  depfile = $out.d\nrule gen\n  command = gen \"x\"\n  generator = 1\n\
build a.o | a.lst: cc a.c | a.h\nbuild app: cc a.o\nbuild all: phony app\nbuild build.ninja: gen conf\n";

/// Returns the statements of the project.
pub fn tree_of(alloc: Global) -> Option<Tree> {
    match load(alloc, &mut Text { bytes: PROJECT }, b"build.ninja") {
        Ok(tree) => Some(tree),
        Err(_) => None,
    }
}

/// Evaluates the statements of the project.
pub fn manifest_of(alloc: Global, tree: &Tree) -> Option<Manifest> {
    match evaluate(alloc, tree) {
        Ok(manifest) => Some(manifest),
        Err(_) => None,
    }
}

/// Returns the graph of the project's manifest.
pub fn graph_of<'a>(alloc: Global, manifest: &'a Manifest) -> Option<Graph<'a>> {
    match graph(alloc, manifest) {
        Ok(graph) => Some(graph),
        Err(_) => None,
    }
}

/// Checks whether the rows are these.
pub fn are_rows(rows: &RowList<u8>, expected: &[&[u8]]) -> bool {
    if rows.len() != expected.len() {
        return false;
    }
    for at in 0..expected.len() {
        if rows.row(at) != expected[at] {
            return false;
        }
    }
    true
}
