//! Tests of the trees of targets and of the targets of a rule.

use crate::tools::project::{graph_of, manifest_of, tree_of};
use plan_text::Counted;
use plan_tools::*;
use std::alloc::Global;

/// Checks whether the trees of the roots are this text. They have at most `depth` levels, or all levels if `depth` is
/// 0.
fn trees_are(alloc: Global, depth: u32, text: &[u8]) -> Option<bool> {
    let tree = tree_of(alloc)?;
    let manifest = manifest_of(alloc, &tree)?;
    let graph = graph_of(alloc, &manifest)?;
    let rules = rules_of(alloc, &tree).ok()?;
    let roots = root_paths(alloc, &graph).ok()?;
    let mut out = Counted::new(Vec::new(alloc));
    write_target_tree(alloc, &graph, &rules, &roots, depth, &mut out).ok()?;
    Some(out.into_writer().as_slice() == text)
}

/// The trees with all levels, as ninja 1.11.1 prints them.
const WHOLE: &[u8] = b"a.lst: cc
  a.c
  a.h
all: phony
  app: cc
    a.o: cc
      a.c
      a.h
build.ninja: gen
  conf
";

/// Checks that a tree has the requested number of levels, and that depth 0 means no limit.
#[test]
fn trees(rt: HostRuntime) {
    let roots = b"a.lst: cc\nall: phony\nbuild.ninja: gen\n".as_slice();
    let two =
        b"a.lst: cc\n  a.c\n  a.h\nall: phony\n  app: cc\nbuild.ninja: gen\n  conf\n".as_slice();
    assert!(rt; trees_are(rt.alloc(), 1, roots) == Some(true));
    assert!(rt; trees_are(rt.alloc(), 2, two) == Some(true));
    assert!(rt; trees_are(rt.alloc(), 0, WHOLE) == Some(true));
}

/// Checks whether the targets of a rule are this text.
fn targets_are(alloc: Global, rule: &[u8], text: &[u8]) -> Option<bool> {
    let tree = tree_of(alloc)?;
    let manifest = manifest_of(alloc, &tree)?;
    let graph = graph_of(alloc, &manifest)?;
    let rules = rules_of(alloc, &tree).ok()?;
    let mut out = Counted::new(Vec::new(alloc));
    write_rule_targets(alloc, &graph, &rules, rule, &mut out).ok()?;
    Some(out.into_writer().as_slice() == text)
}

/// Checks that the targets of a rule are listed in the order of their names, and that a rule that doesn't exist has
/// none.
#[test]
fn targets_of_a_rule(rt: HostRuntime) {
    assert!(rt; targets_are(rt.alloc(), b"cc", b"a.lst\na.o\napp\n") == Some(true));
    assert!(rt; targets_are(rt.alloc(), b"none", b"") == Some(true));
}
