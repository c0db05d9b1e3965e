//! Calls of the public functions on the manifest that the tests share.

mod needs;
mod project;
mod suggestions;
mod trees;

use crate::tools::project::{are_rows, graph_of, manifest_of, tree_of};
use plan_text::Counted;
use plan_tools::*;
use std::alloc::Global;

/// Checks whether the listing of all targets is this text.
fn all_targets_are(alloc: Global, text: &[u8]) -> Option<bool> {
    let tree = tree_of(alloc)?;
    let manifest = manifest_of(alloc, &tree)?;
    let graph = graph_of(alloc, &manifest)?;
    let rules = rules_of(alloc, &tree).ok()?;
    let mut out = Counted::new(Vec::new(alloc));
    write_all_targets(&graph, &rules, &mut out).ok()?;
    Some(out.into_writer().as_slice() == text)
}

/// Checks that each output is listed with the rule of its edge.
#[test]
fn all_targets(rt: HostRuntime) {
    let text = b"a.o: cc\na.lst: cc\napp: cc\nall: phony\nbuild.ninja: gen\n".as_slice();
    assert!(rt; all_targets_are(rt.alloc(), text) == Some(true));
}

/// Checks whether the listing of sources is this text.
fn sources_are(alloc: Global, text: &[u8]) -> Option<bool> {
    let tree = tree_of(alloc)?;
    let manifest = manifest_of(alloc, &tree)?;
    let graph = graph_of(alloc, &manifest)?;
    let mut out = Counted::new(Vec::new(alloc));
    write_sources(&graph, &mut out).ok()?;
    Some(out.into_writer().as_slice() == text)
}

/// Checks that each input that no edge builds is listed.
#[test]
fn sources(rt: HostRuntime) {
    assert!(rt; sources_are(rt.alloc(), b"a.c\na.h\nconf\n".as_slice()) == Some(true));
}

/// Checks whether the compilation database of a rule is this text.
fn database_is(alloc: Global, rule: &[u8], text: &[u8]) -> Option<bool> {
    let tree = tree_of(alloc)?;
    let manifest = manifest_of(alloc, &tree)?;
    let graph = graph_of(alloc, &manifest)?;
    let rules = rules_of(alloc, &tree).ok()?;
    let edges = chosen_edges(alloc, &graph, &rules, &[rule]).ok()?;
    let mut out = Counted::new(Vec::new(alloc));
    write_compilation_database(b"/w", &manifest, &graph, &edges, &mut out).ok()?;
    Some(out.into_writer().as_slice() == text)
}

/// The compilation database of the rule `cc`.
const COMPILED: &[u8] = b"[
  {
    \"directory\": \"/w\",
    \"command\": \"cc a.c -o a.o\",
    \"file\": \"a.c\",
    \"output\": \"a.o\"
  },
  {
    \"directory\": \"/w\",
    \"command\": \"cc a.o -o app\",
    \"file\": \"a.o\",
    \"output\": \"app\"
  }
]
";

/// The compilation database of the rule `gen`, whose command has quotes.
const QUOTED: &[u8] = b"[
  {
    \"directory\": \"/w\",
    \"command\": \"gen \\\"x\\\"\",
    \"file\": \"conf\",
    \"output\": \"build.ninja\"
  }
]
";

/// Checks that the commands of a rule are listed as JSON, and that a rule that doesn't exist has none.
#[test]
fn compilation_database(rt: HostRuntime) {
    assert!(rt; database_is(rt.alloc(), b"cc", COMPILED) == Some(true));
    assert!(rt; database_is(rt.alloc(), b"gen", QUOTED) == Some(true));
    assert!(rt; database_is(rt.alloc(), b"none", b"[\n]\n") == Some(true));
}

/// Checks whether the commands that an edge needs are this text.
fn commands_are(alloc: Global, edge: u32, text: &[u8]) -> Option<bool> {
    let tree = tree_of(alloc)?;
    let manifest = manifest_of(alloc, &tree)?;
    let graph = graph_of(alloc, &manifest)?;
    let edges = build_order(alloc, &graph, &[edge]).ok()?;
    let mut out = Counted::new(Vec::new(alloc));
    write_build_commands(&manifest, &edges, &mut out).ok()?;
    Some(out.into_writer().as_slice() == text)
}

/// Checks that the commands that an edge needs come in build order, and that an edge that the graph lacks is refused.
#[test]
fn commands_in_order(rt: HostRuntime) {
    let both = b"cc a.c -o a.o\ncc a.o -o app\n".as_slice();
    assert!(rt; commands_are(rt.alloc(), 2, both) == Some(true));
    assert!(rt; commands_are(rt.alloc(), 0, b"cc a.c -o a.o\n") == Some(true));
    assert!(rt; commands_are(rt.alloc(), 9, b"").is_none());
}

/// Checks whether the files of all commands are these. The files of generators count only if `generators` is set.
fn cleaned_are(alloc: Global, generators: bool, expected: &[&[u8]]) -> Option<bool> {
    let tree = tree_of(alloc)?;
    let manifest = manifest_of(alloc, &tree)?;
    let graph = graph_of(alloc, &manifest)?;
    let files = files_of_commands(alloc, &manifest, &graph, generators).ok()?;
    Some(are_rows(files.paths(), expected))
}

/// Checks whether the files of a rule are these.
fn cleaned_of_rule_are(alloc: Global, rule: &[u8], expected: &[&[u8]]) -> Option<bool> {
    let tree = tree_of(alloc)?;
    let manifest = manifest_of(alloc, &tree)?;
    let graph = graph_of(alloc, &manifest)?;
    let rules = rules_of(alloc, &tree).ok()?;
    let files = files_of_rules(alloc, &manifest, &graph, &rules, &[rule]).ok()?;
    Some(are_rows(files.paths(), expected))
}

/// Checks that the files of a command are its outputs and its depfile, and that the files of generators are left out
/// unless they are requested.
#[test]
fn cleaned_files(rt: HostRuntime) {
    let without: [&[u8]; 5] = [b"a.o", b"a.lst", b"a.o.d", b"app", b"app.d"];
    let with: [&[u8]; 6] = [b"a.o", b"a.lst", b"a.o.d", b"app", b"app.d", b"build.ninja"];
    assert!(rt; cleaned_are(rt.alloc(), false, &without) == Some(true));
    assert!(rt; cleaned_are(rt.alloc(), true, &with) == Some(true));
}

/// Checks that the files of a rule are those of its commands, and that phony edges have none.
#[test]
fn cleaned_files_of_a_rule(rt: HostRuntime) {
    let all: [&[u8]; 5] = [b"a.o", b"a.lst", b"a.o.d", b"app", b"app.d"];
    assert!(rt; cleaned_of_rule_are(rt.alloc(), b"cc", &all) == Some(true));
    assert!(rt; cleaned_of_rule_are(rt.alloc(), b"phony", &[]) == Some(true));
}
