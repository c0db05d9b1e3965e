//! Checks edges by four threads.

ghost use Rattle.std.specs.Prelude.{◌≡◌, ◌≤◌, OnOk, length};
ghost use Rattle.std.specs.Thread.{IsSend, IsSync};
ghost use Rattle.plan_scan.specs.Steps.{AreStamps, AreUpToDate};

use crate::doubt::Doubt;
use crate::scan::{Scan, check_between};
use plan_graph::Graph;
use plan_lanes::World;
use plan_scope::Manifest;
use std::alloc::Global;
use std::thread::{Threads, join};

/// The number of edges below which one thread checks them all, since starting a thread takes longer than it saves.
const FEW: usize = 500;

/// A type of graphs whose edges can be checked. Nothing is known of what a closure returns that borrows a value of a type
/// with a lifetime, as `Graph` is. So the type of the graph is a parameter of what starts threads.
pub(crate) trait HasEdges {
    ghost use Rattle.std.specs.Prelude.{◌≤◌, OnOk, length};
    ghost use Rattle.plan_graph.specs.declared.graph_data.Graph.{Graph};
    ghost use Rattle.plan_scan.specs.Steps.{AreStamps, AreUpToDate};

    /// The graph.
    ghost meant: { Self → Graph };

    /// Checks whether those edges from one number up to another one that are wanted are up to date.
    fn check_between<W: World>(
        alloc: Global,
        world: &W,
        manifest: &Manifest,
        graph: &Self,
        scan: &Scan,
        from: usize,
        to: usize,
    ) -> Result<(), Doubt>
        requires stamps { AreStamps W.allows (meant graph.now) scan.now.stamps.items }
        requires within { to ≤ length manifest.now.edges }
        ensures { OnOk result (AreUpToDate W.allows manifest.now (meant graph.now) scan.now.found.items scan.now.wanted.items from to) };
}

impl<'a> HasEdges for Graph<'a> {
    ghost meant = { λ graph. graph };

    fn check_between<W: World>(
        alloc: Global,
        world: &W,
        manifest: &Manifest,
        graph: &Self,
        scan: &Scan,
        from: usize,
        to: usize,
    ) -> Result<(), Doubt> {
        check_between(alloc, world, manifest, graph, scan, from, to)
    }
}

/// Checks the edges below a number, and those from there on, side by side.
fn check_apart<R: Threads, W: World + Send + Sync, G: HasEdges + Sync>(
    rt: &R,
    alloc: Global,
    world: &W,
    manifest: &Manifest,
    graph: &G,
    scan: &Scan,
    from: usize,
    middle: usize,
    to: usize,
) -> (Result<(), Doubt>, Result<(), Doubt>)
    requires stamps { AreStamps W.allows (G.meant graph.now) scan.now.stamps.items }
    requires middle { middle ≤ length manifest.now.edges }
    requires within { to ≤ length manifest.now.edges }
    ensures first { OnOk result.0 (AreUpToDate W.allows manifest.now (G.meant graph.now) scan.now.found.items scan.now.wanted.items from middle) }
    ensures second { OnOk result.1 (AreUpToDate W.allows manifest.now (G.meant graph.now) scan.now.found.items scan.now.wanted.items middle to) }
{
    join(
        rt,
        || -> Result<(), Doubt>
            requires { IsSend W.row × IsSync W.row × IsSync G.row × AreStamps W.allows (G.meant graph.now) scan.now.stamps.items × (middle ≤ length manifest.now.edges) }
            ensures { OnOk result (AreUpToDate W.allows manifest.entry.now (G.meant graph.entry.now) scan.entry.now.found.items scan.entry.now.wanted.items from middle) }
        { G::check_between(alloc, world, manifest, graph, scan, from, middle) },
        || -> Result<(), Doubt>
            requires { IsSend W.row × IsSync W.row × IsSync G.row × AreStamps W.allows (G.meant graph.now) scan.now.stamps.items × (to ≤ length manifest.now.edges) }
            ensures { OnOk result (AreUpToDate W.allows manifest.entry.now (G.meant graph.entry.now) scan.entry.now.found.items scan.entry.now.wanted.items middle to) }
        { G::check_between(alloc, world, manifest, graph, scan, middle, to) },
    )
}

/// Returns a number between two others.
fn middle_of(from: usize, to: usize) -> usize
    ensures { result ≤ to }
{
    let middle = from / 2 + to / 2;
    if middle <= to { middle } else { to }
}

/// Checks edges like `HasEdges::check_between`, by two threads.
#[tactic(auto, using(crate::proofs::WantedLemmas::both_checked))]
fn check_by_two<R: Threads, W: World + Send + Sync, G: HasEdges + Sync>(
    rt: &R,
    alloc: Global,
    world: &W,
    manifest: &Manifest,
    graph: &G,
    scan: &Scan,
    from: usize,
    to: usize,
) -> Result<(), Doubt>
    requires stamps { AreStamps W.allows (G.meant graph.now) scan.now.stamps.items }
    requires within { to ≤ length manifest.now.edges }
    ensures { OnOk result (AreUpToDate W.allows manifest.now (G.meant graph.now) scan.now.found.items scan.now.wanted.items from to) }
{
    let middle = middle_of(from, to);
    let (first, second) = check_apart(rt, alloc, world, manifest, graph, scan, from, middle, to);
    first?;
    second
}

/// Checks the edges below a number, and those from there on, by four threads.
fn check_farther<R: Threads + Sync, W: World + Send + Sync, G: HasEdges + Sync>(
    rt: &R,
    alloc: Global,
    world: &W,
    manifest: &Manifest,
    graph: &G,
    scan: &Scan,
    middle: usize,
    to: usize,
) -> (Result<(), Doubt>, Result<(), Doubt>)
    requires stamps { AreStamps W.allows (G.meant graph.now) scan.now.stamps.items }
    requires middle { middle ≤ length manifest.now.edges }
    requires within { to ≤ length manifest.now.edges }
    ensures first { OnOk result.0 (AreUpToDate W.allows manifest.now (G.meant graph.now) scan.now.found.items scan.now.wanted.items 0 middle) }
    ensures second { OnOk result.1 (AreUpToDate W.allows manifest.now (G.meant graph.now) scan.now.found.items scan.now.wanted.items middle to) }
{
    join(
        rt,
        || -> Result<(), Doubt>
            requires { IsSync R.row × IsSend W.row × IsSync W.row × IsSync G.row × AreStamps W.allows (G.meant graph.now) scan.now.stamps.items × (middle ≤ length manifest.now.edges) }
            ensures { OnOk result (AreUpToDate W.allows manifest.entry.now (G.meant graph.entry.now) scan.entry.now.found.items scan.entry.now.wanted.items 0 middle) }
        { check_by_two(rt, alloc, world, manifest, graph, scan, 0, middle) },
        || -> Result<(), Doubt>
            requires { IsSync R.row × IsSend W.row × IsSync W.row × IsSync G.row × AreStamps W.allows (G.meant graph.now) scan.now.stamps.items × (to ≤ length manifest.now.edges) }
            ensures { OnOk result (AreUpToDate W.allows manifest.entry.now (G.meant graph.entry.now) scan.entry.now.found.items scan.entry.now.wanted.items middle to) }
        { check_by_two(rt, alloc, world, manifest, graph, scan, middle, to) },
    )
}

/// Checks edges like `HasEdges::check_between`, by four threads.
#[tactic(auto, using(crate::proofs::WantedLemmas::both_checked))]
fn check_by_four<R: Threads + Sync, W: World + Send + Sync, G: HasEdges + Sync>(
    rt: &R,
    alloc: Global,
    world: &W,
    manifest: &Manifest,
    graph: &G,
    scan: &Scan,
    to: usize,
) -> Result<(), Doubt>
    requires stamps { AreStamps W.allows (G.meant graph.now) scan.now.stamps.items }
    requires within { to ≤ length manifest.now.edges }
    ensures { OnOk result (AreUpToDate W.allows manifest.now (G.meant graph.now) scan.now.found.items scan.now.wanted.items 0 to) }
{
    let middle = middle_of(0, to);
    let (first, second) = check_farther(rt, alloc, world, manifest, graph, scan, middle, to);
    first?;
    second
}

/// Checks whether all wanted edges below a number are up to date, by four threads if they are many.
pub(crate) fn check_below<R: Threads + Sync, W: World + Send + Sync, G: HasEdges + Sync>(
    rt: &R,
    alloc: Global,
    world: &W,
    manifest: &Manifest,
    graph: &G,
    scan: &Scan,
    to: usize,
) -> Result<(), Doubt>
    requires stamps { AreStamps W.allows (G.meant graph.now) scan.now.stamps.items }
    requires within { to ≤ length manifest.now.edges }
    ensures { OnOk result (AreUpToDate W.allows manifest.now (G.meant graph.now) scan.now.found.items scan.now.wanted.items 0 to) }
{
    if to < FEW {
        return G::check_between(alloc, world, manifest, graph, scan, 0, to);
    }
    check_by_four(rt, alloc, world, manifest, graph, scan, to)
}
