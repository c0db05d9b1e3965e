//! Collects the texts and the pools of the edges of a manifest.

ghost use Rattle.std.specs.Prelude.{◌≤◌, IfOk, length};
ghost use Rattle.plan_graph.specs.Graph.{max_edges};
ghost use Rattle.plan_compile.specs.Collected.{AreNames};

use crate::edge_names::EdgeNames;
use crate::names::{Texts, put_names};
use plan_scope::Manifest;
use std::alloc::{AllocError, Global};

/// Collects the texts and the pools of all edges, for `compile_with`. The graph isn't needed, so that it can be built
/// meanwhile.
///
/// # Errors
///
/// `AllocError` if memory runs out.
pub fn collect_names<'a>(alloc: Global, manifest: &'a Manifest) -> Result<EdgeNames<'a>, AllocError>
    requires { length manifest.now.edges ≤ max_edges }
    ensures { IfOk result (AreNames manifest.now.edges) }
{
    let count = manifest.edges.len();
    let mut texts = Texts::new(alloc);
    texts.reserve(count)?;
    let mut pools = Texts::new(alloc);
    let mut numbers = Vec::with_capacity(alloc, count)?;
    for number in 0..count {
        let edge = manifest.edges.edge(number);
        numbers.push(put_names(alloc, &mut texts, &mut pools, &edge)?)?;
    }
    Ok(EdgeNames {
        texts,
        pools,
        numbers,
    })
}
