//! Checks all edges that targets need.

ghost use Rattle.std.specs.Prelude.{◌≡◌, ◌<◌, ◌≤◌, IfOk, OnOk, length, true};
ghost use Rattle.std.specs.List.{list_all};
ghost use Rattle.plan_compile.specs.Builds.{build_at};
ghost use Rattle.plan_compile.specs.declared.baseline.OutOfDateRule.TheVariants.{Stricter};
ghost use Rattle.plan_scan.specs.Scans.{HasNothingToDo, IsUpToDate};
ghost use Rattle.plan_scan.specs.Steps.{AreStamps, AreUpToDate, IsClosedBelow, IsUpToDateAt, is_marked};

use crate::by_threads::check_below;
use crate::commands::{check_command, named_row};
use crate::doubt::Doubt;
use crate::files::all_stamps;
use crate::found::Found;
use crate::phonies::{alone, check_phony, gathered};
use crate::wanted::{are_marked, is_closed, is_marked, wanted_by};
use plan_graph::Graph;
use plan_lanes::World;
use plan_scope::{EdgeRef, Manifest};
use std::alloc::{AllocError, Global};
use std::thread::Threads;

/// Returns the phony edges in the order of their ranks.
fn phonies_of<'a>(
    alloc: Global,
    manifest: &Manifest,
    graph: &Graph<'a>,
) -> Result<Vec<(u32, usize)>, AllocError> {
    let mut phonies = Vec::new(alloc);
    for number in 0..manifest.edges.len() {
        if manifest.edges.edge(number).is_phony() {
            let rank = graph.ranks.as_slice().get(number).copied().unwrap_or(0);
            phonies.push((rank, number))?;
        }
    }
    phonies.sort_unstable();
    Ok(phonies)
}

/// Stores what was found of a file.
fn put(found: &mut [Found], file: u32, left: Found) {
    if let Some(place) = found.get_mut(file as usize) {
        *place = left;
    }
}

/// Stores what a phony edge leaves.
fn put_phony<'a>(
    manifest: &Manifest,
    graph: &Graph<'a>,
    stamps: &[u64],
    found: &mut [Found],
    number: usize,
) {
    if number >= manifest.edges.len() {
        return;
    }
    let edge = manifest.edges.edge(number);
    let (inputs, outputs) = (graph.inputs.row(number), graph.outputs.row(number));
    let named = named_row(graph, &edge, number);
    let left = gathered(graph, stamps, &*found, named, outputs);
    for file in outputs {
        if inputs.is_empty() {
            put(found, *file, alone(stamps, *file));
        } else {
            put(found, *file, left);
        }
    }
}

/// Returns the own stamp of each file, as what was found of it.
fn own_stamps(alloc: Global, stamps: &[u64]) -> Result<Vec<Found>, AllocError> {
    let mut found = Vec::with_capacity(alloc, stamps.len())?;
    for stamp in stamps {
        found.push(Found {
            stamp: *stamp,
            changed: false,
        })?;
    }
    Ok(found)
}

/// Returns what all edges leave if nothing is to do.
fn found_of<'a>(
    alloc: Global,
    manifest: &Manifest,
    graph: &Graph<'a>,
    stamps: &[u64],
) -> Result<Vec<Found>, AllocError> {
    let mut found = own_stamps(alloc, stamps)?;
    let phonies = phonies_of(alloc, manifest, graph)?;
    for (_rank, number) in phonies {
        put_phony(manifest, graph, stamps, &mut found, number);
    }
    Ok(found)
}

/// What edges are checked by.
#[derive(Drop)]
pub(crate) struct Scan {
    /// The stamp of each file.
    pub stamps: Vec<u64>,
    /// What was found of each file.
    pub found: Vec<Found>,
    /// Whether each edge is wanted.
    pub wanted: Vec<bool>,
}

/// Checks whether an edge is up to date.
fn check_edge<'a, W: World>(
    alloc: Global,
    world: &W,
    graph: &Graph<'a>,
    stamps: &[u64],
    found: &[Found],
    edge: &EdgeRef<'_>,
    number: usize,
) -> Result<(), Doubt>
    requires { AreStamps W.allows graph.now stamps.now }
    ensures { OnOk result (IsUpToDate W.allows graph.now found.now (build_at Stricter graph.now number edge.now)) }
{
    if edge.is_phony() {
        return check_phony::<W>(graph, stamps, found, edge, number);
    }
    check_command(alloc, world, graph, stamps, found, edge, number)
}

/// Checks whether the edge with a number is up to date, if it is wanted.
#[tactic(auto, using(crate::proofs::WantedLemmas::not_wanted, crate::proofs::WantedLemmas::wanted_edge))]
fn check_at<'a, W: World>(
    alloc: Global,
    world: &W,
    manifest: &Manifest,
    graph: &Graph<'a>,
    scan: &Scan,
    number: usize,
) -> Result<(), Doubt>
    requires stamps { AreStamps W.allows graph.now scan.now.stamps.items }
    requires within { number < length manifest.now.edges }
    ensures { OnOk result (IsUpToDateAt W.allows manifest.now graph.now scan.now.found.items scan.now.wanted.items number) }
{
    if !is_marked(&scan.wanted, number) {
        return Ok(());
    }
    let edge = manifest.edges.edge(number);
    check_edge(
        alloc,
        world,
        graph,
        &scan.stamps,
        &scan.found,
        &edge,
        number,
    )
}

/// Checks whether those edges from one number up to another one that are wanted are up to date.
#[tactic(auto, using(crate::proofs::WantedLemmas::none_checked, crate::proofs::WantedLemmas::one_more_edge, crate::proofs::WantedLemmas::fewer_checked))]
pub(crate) fn check_between<'a, W: World>(
    alloc: Global,
    world: &W,
    manifest: &Manifest,
    graph: &Graph<'a>,
    scan: &Scan,
    from: usize,
    to: usize,
) -> Result<(), Doubt>
    requires stamps { AreStamps W.allows graph.now scan.now.stamps.items }
    requires within { to ≤ length manifest.now.edges }
    ensures { OnOk result (AreUpToDate W.allows manifest.now graph.now scan.now.found.items scan.now.wanted.items from to) }
{
    for number in from..to {
        check_at(alloc, world, manifest, graph, scan, number)?;
    }
    Ok(())
}

/// Checks whether all targets are marked as wanted, and all edges for which marked edges wait.
fn check_marks<'a>(graph: &Graph<'a>, scan: &Scan, targets: &[u32]) -> Result<(), Doubt>
    ensures marked { OnOk result (list_all (is_marked scan.now.wanted.items) targets.now ≡ true) }
    ensures closed { OnOk result (IsClosedBelow graph.now.waits scan.now.wanted.items (length scan.now.wanted.items)) }
{
    if are_marked(&scan.wanted, targets) {
        if is_closed(&graph.waits, &scan.wanted) {
            return Ok(());
        }
    }
    Err(Doubt::NotShown)
}

/// Checks whether all wanted edges are up to date.
fn check_all<'a, R: Threads + Sync, W: World + Send + Sync>(
    rt: &R,
    alloc: Global,
    world: &W,
    manifest: &Manifest,
    graph: &Graph<'a>,
    scan: &Scan,
    targets: &[u32],
) -> Result<(), Doubt>
    requires { AreStamps W.allows graph.now scan.now.stamps.items }
    ensures { OnOk result (HasNothingToDo W.allows manifest.now graph.now targets.now) }
{
    check_marks(graph, scan, targets)?;
    check_below(
        rt,
        alloc,
        world,
        manifest,
        graph,
        scan,
        manifest.edges.len(),
    )
}

/// Asks for all stamps, finds what edges leave and which edges are wanted, and checks whether these are up to date.
fn check_targets<'a, R: Threads + Sync, W: World + Send + Sync>(
    rt: &R,
    alloc: Global,
    world: &W,
    manifest: &Manifest,
    graph: &Graph<'a>,
    targets: &[u32],
) -> Result<(), Doubt>
    ensures { OnOk result (HasNothingToDo W.allows manifest.now graph.now targets.now) }
{
    let stamps = all_stamps(alloc, world, graph)?;
    let found = found_of(alloc, manifest, graph, &stamps)?;
    let wanted = wanted_by(alloc, graph, targets)?;
    let scan = Scan {
        stamps,
        found,
        wanted,
    };
    check_all(rt, alloc, world, manifest, graph, &scan, targets)
}

/// Checks whether nothing is to do for these targets, which are edges of the graph: each edge that they need is up to
/// date. Asks the world for the stamps of all files of the graph, and for the entries of these edges, by four threads if
/// there are many edges. Returns false if an edge is out of date, and also if that isn't known.
///
/// # Errors
/// `AllocError` if memory runs out.
pub fn has_nothing_to_do<'a, R: Threads + Sync, W: World + Send + Sync>(
    rt: &R,
    alloc: Global,
    world: &W,
    manifest: &Manifest,
    graph: &Graph<'a>,
    targets: &[u32],
) -> Result<bool, AllocError>
    ensures { IfOk result (λ nothing. nothing ≡ true → HasNothingToDo W.allows manifest.now graph.now targets.now) }
{
    match check_targets(rt, alloc, world, manifest, graph, targets) {
        Ok(()) => Ok(true),
        Err(Doubt::NotShown) => Ok(false),
        Err(Doubt::Memory) => Err(AllocError),
    }
}
