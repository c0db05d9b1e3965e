//! Finds out before a run whether nothing is to do for a build that names no targets.

ghost use Rattle.std.specs.Prelude.{◌≡◌, IfOk, [], true};
ghost use Rattle.plan_graph.specs.Graph.{IsGraph};
ghost use Rattle.plan_commands.specs.Building.{NeedsNothing, all_targets};
ghost use Rattle.plan_commands.specs.Recorded.{AreRecorded};

use crate::compiling::FEW_EDGES;
use plan_graph::Graph;
use plan_lanes::World;
use plan_scan::has_nothing_to_do;
use plan_scope::Manifest;
use plan_text::{TextFault, canonical};
use std::alloc::{AllocError, Global};
use std::thread::{Threads, join};

/// Checks whether one of the files from one number up to another one is later than a stamp. Until it finds one, it asks a
/// world for their stamps, so that the world has them when a scan asks.
fn is_later_between<'a, W: World>(
    world: &W,
    graph: &Graph<'a>,
    from: usize,
    to: usize,
    stamp: u64,
) -> bool {
    for number in from..to {
        if let Some(path) = graph.files.path(number) {
            match world.stat_ahead(path) {
                Some(found) if found > stamp => return true,
                _ => {}
            }
        }
    }
    false
}

/// Checks files like `is_later_between`, by two threads.
fn is_later_by_two<'a, R: Threads + Sync, W: World + Send + Sync>(
    rt: &R,
    world: &W,
    graph: &Graph<'a>,
    from: usize,
    to: usize,
    stamp: u64,
) -> bool {
    let middle = from / 2 + to / 2;
    let (first, second) = join(
        rt,
        || is_later_between(world, graph, from, middle, stamp),
        || is_later_between(world, graph, middle, to, stamp),
    );
    first | second
}

/// Checks whether a file of a graph is later than a stamp, by four threads if there are many files.
fn is_some_later<'a, R: Threads + Sync, W: World + Send + Sync>(
    rt: &R,
    world: &W,
    graph: &Graph<'a>,
    stamp: u64,
) -> bool {
    let count = graph.files.len();
    if count < FEW_EDGES {
        return is_later_between(world, graph, 0, count, stamp);
    }
    let middle = count / 2;
    let (first, second) = join(
        rt,
        || is_later_by_two(rt, world, graph, 0, middle, stamp),
        || is_later_by_two(rt, world, graph, middle, count, stamp),
    );
    first | second
}

/// Checks whether a file of a graph was edited since the record was kept: something is to do then, most likely.
fn is_some_edited<'a, R: Threads + Sync, W: World + Send + Sync>(
    rt: &R,
    world: &W,
    graph: &Graph<'a>,
) -> bool {
    let stamp = match world.record_stamp() {
        Some(stamp) => stamp,
        None => u64::MAX,
    };
    is_some_later(rt, world, graph, stamp)
}

/// Returns the edges that a build without named targets brings up to date: the defaults of its manifest, and the edge
/// that makes the manifest at this path.
fn all_targets<'a>(alloc: Global, graph: &Graph<'a>, path: &[u8]) -> Result<Vec<u32>, TextFault>
    ensures { IfOk result (λ edges. edges.items ≡ all_targets graph.now path.now) }
{
    let path = canonical(alloc, path)?;
    let mut targets = Vec::new(alloc);
    targets.extend_from_slice(graph.defaults.as_slice())?;
    if let Some(maker) = graph.files.producer(&path) {
        targets.push(maker)?;
    }
    Ok(targets)
}

/// Checks whether nothing is to do for a build of the manifest at this path that names no targets. The record adds
/// nothing to the manifest. Doesn't look at edges if a file was edited since the last build.
pub(crate) fn needs_nothing<'a, R: Threads + Sync, W: World + Send + Sync>(
    rt: &R,
    alloc: Global,
    world: &W,
    manifest: &Manifest,
    graph: &Graph<'a>,
    path: &[u8],
) -> Result<bool, AllocError>
    requires graph { IsGraph manifest.now graph.now }
    requires recorded { AreRecorded W.allows manifest.now [] }
    ensures { IfOk result (λ nothing. nothing ≡ true → NeedsNothing W.allows manifest.now path.now) }
{
    let targets = match all_targets(alloc, graph, path) {
        Ok(targets) => targets,
        Err(TextFault::Memory) => return Err(AllocError),
        Err(_) => return Ok(false),
    };
    if is_some_edited(rt, world, graph) {
        return Ok(false);
    }
    has_nothing_to_do(rt, alloc, world, manifest, graph, &targets)
}
