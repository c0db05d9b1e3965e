//! Asks for the stamps of all files of a graph.

ghost use Rattle.std.specs.Prelude.{◌≤◌, IfOk};
ghost use Rattle.plan_scan.specs.Steps.{AreStamps, AreStampsBetween, IsStampOf};

use crate::doubt::Doubt;
use plan_graph::Graph;
use plan_lanes::World;
use std::alloc::Global;

/// Asks for the stamp of a file.
fn stamp_of<'a, W: World>(world: &W, graph: &Graph<'a>, number: usize) -> Result<u64, Doubt>
    ensures { IfOk result (IsStampOf W.allows graph.now number) }
{
    let Some(path) = graph.files.path(number) else {
        return Err(Doubt::NotShown);
    };
    match world.stat_ahead(path) {
        Some(stamp) => Ok(stamp),
        None => Err(Doubt::NotShown),
    }
}

/// Asks for the stamps of the files from one number up to another one.
fn stamps_between<'a, W: World>(
    alloc: Global,
    world: &W,
    graph: &Graph<'a>,
    from: usize,
    to: usize,
) -> Result<Vec<u64>, Doubt>
    requires { from ≤ to }
    ensures { IfOk result (λ stamps. AreStampsBetween W.allows graph.now from to stamps.items) }
{
    let mut stamps = Vec::new(alloc);
    for number in from..to {
        let stamp = stamp_of(world, graph, number)?;
        stamps.push(stamp)?;
    }
    Ok(stamps)
}

/// Asks for the stamps of all files of a graph.
pub(crate) fn all_stamps<'a, W: World>(
    alloc: Global,
    world: &W,
    graph: &Graph<'a>,
) -> Result<Vec<u64>, Doubt>
    ensures { IfOk result (λ stamps. AreStamps W.allows graph.now stamps.items) }
{
    let stamps = stamps_between(alloc, world, graph, 0, graph.files.len())?;
    Ok(stamps)
}
