//! Manifests that tools read.

ghost use Rattle.std.specs.Prelude.{IfOk};
ghost use Rattle.plan_scope.specs.Sources.{SameFiles};
ghost use Rattle.plan_graph.specs.Graph.{IsGraph};
ghost use Rattle.plan_build_tools.specs.Naming.{MayLoad, MayLoadWith};

use crate::fault::ToolFault;
use plan_graph::{Graph, graph};
use plan_parse::DirectiveKind;
use plan_printing::{FileSource, MANIFEST_BYTES, printed_fault, printed_graph_fault};
use plan_scope::{Manifest, Said, Source, Tree, TreeStatement, evaluate, load};
use plan_text::{Items, RowList};
use plan_tools::rules_of;
use std::alloc::Global;
use std::rt::Files;

/// A manifest that was read.
#[derive(Drop)]
pub struct Loaded {
    tree: Tree,
    /// The evaluated manifest.
    pub manifest: Manifest,
    /// The rule of each edge.
    pub rules: RowList<u8>,
}

/// The place of a statement.
#[derive(Drop)]
pub struct StatementPlace {
    /// The path of its file.
    pub file: Items<u8>,
    /// The number of bytes before it.
    pub offset: u64,
}

/// Returns the place of a statement. None if memory runs out.
fn place_of(alloc: Global, statement: &TreeStatement<'_>) -> Option<StatementPlace> {
    Some(StatementPlace {
        file: Items::new(Vec::from_slice(alloc, statement.path()).ok()?),
        offset: statement.offset(),
    })
}

/// Reads and evaluates the manifest at a path of a source.
///
/// # Errors
/// If it can't be read or is refused, or memory runs out.
pub fn load_from<S: Source>(alloc: Global, source: &mut S, path: &[u8]) -> Result<Loaded, ToolFault>
    ensures loaded { IfOk result (λ loaded. MayLoad (S.gives source.old) (S.fails source.old) path.now loaded.manifest) }
    ensures rules { IfOk result (λ loaded. MayLoadWith (S.gives source.old) (S.fails source.old) path.now loaded.manifest loaded.rules) }
    ensures same { SameFiles (S.gives source.new) (S.fails source.new) (S.gives source.old) (S.fails source.old) }
{
    let tree = match load(alloc, source, path) {
        Ok(tree) => tree,
        Err(fault) => return Err(ToolFault::Plan(printed_fault(alloc, &fault))),
    };
    let manifest = match evaluate(alloc, &tree) {
        Ok(manifest) => manifest,
        Err(fault) => return Err(ToolFault::Plan(printed_fault(alloc, &fault))),
    };
    let rules = rules_of(alloc, &tree)?;
    Ok(Loaded {
        tree,
        manifest,
        rules,
    })
}

/// Reads and evaluates the manifest at a path of the system's files.
///
/// # Errors
/// If it can't be read or is refused, or memory runs out.
pub fn load_manifest<R: Files + Eprint + AllocGlobal>(
    rt: &R,
    path: &[u8],
) -> Result<Loaded, ToolFault> {
    let mut files = FileSource::new(rt, MANIFEST_BYTES);
    load_from(rt.alloc(), &mut files, path)
}

impl Loaded {
    /// Returns the graph of the manifest.
    ///
    /// # Errors
    /// If the manifest has no graph, or memory runs out.
    pub fn graph(&self, alloc: Global) -> Result<Graph<'_>, ToolFault>
        ensures { IfOk result (λ graph. IsGraph self.now.manifest graph) }
    {
        match graph(alloc, &self.manifest) {
            Ok(graph) => Ok(graph),
            Err(fault) => Err(ToolFault::Plan(printed_graph_fault(alloc, &self.manifest, &fault))),
        }
    }

    /// Returns the place of the build statement with this number, from 0. None if there is none, or memory runs out.
    pub fn build_statement(&self, alloc: Global, number: usize) -> Option<StatementPlace> {
        let mut left = number;
        for statement in self.tree.statements() {
            if let Said::Build(_) = statement.said() {
                if left == 0 {
                    return place_of(alloc, &statement);
                }
                left = left.saturating_sub(1);
            }
        }
        None
    }

    /// Checks whether the manifest or a file that it includes has a rule with this name. `phony` is always one.
    pub fn has_rule(&self, name: &[u8]) -> bool {
        for statement in self.tree.statements() {
            if let Said::Directive(DirectiveKind::Rule(rule)) = statement.said() {
                if rule.name.as_slice() == name {
                    return true;
                }
            }
        }
        name == b"phony".as_slice()
    }
}
