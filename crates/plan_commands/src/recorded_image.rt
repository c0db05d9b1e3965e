//! Compiles a manifest with what the record adds to it.

ghost use Rattle.std.specs.Prelude.{◌≡◌, ◌≤◌, ◌⊎◌, [], IfErr, IfOk, length, option_map, true};
ghost use Rattle.std.specs.Thread.{IsSend, IsSync};
ghost use Rattle.plan_scope.specs.Extended.{AreSoundFor, extended};
ghost use Rattle.plan_scope.specs.Sound.{IsSound};
ghost use Rattle.plan_graph.specs.Graph.{IsGraph, max_edges};
ghost use Rattle.plan_compile.specs.Collected.{AreNames};
ghost use Rattle.plan_compile.specs.declared.baseline.OutOfDateRule.TheVariants as OutOfDateRule;
ghost use Rattle.plan_commands.specs.Building.{AllNeedNothing, IsCompiled, IsPrepared, LacksRecorded};
ghost use Rattle.plan_commands.specs.Commands.{LacksGraph};
ghost use Rattle.plan_commands.specs.Compiling.{IsImageOf, LacksImageOf};
ghost use Rattle.plan_commands.specs.Recorded.{AreRecalled, AreRecorded};
ghost use Rattle.plan_printing.specs.Faults as faults;

use crate::compiling::{FEW_EDGES, graph_and_names, graph_of, image_by, image_with};
use crate::foreign::{check_by_four, check_entries};
use crate::idle::needs_nothing;
use crate::others::tell_others;
use crate::recorded::{needed_inputs, recalled_by_two, recalled_paths};
use plan_compile::{EdgeNames, OutOfDateRule, collect_names};
use plan_graph::{Graph, MAX_EDGES};
use plan_image::Image;
use plan_lanes::World;
use plan_printing::{PlanFault, no_memory};
use plan_scope::{Addition, EdgeList, Manifest, extended_is_sound};
use plan_verify::Verified;
use std::alloc::{AllocError, Global};
use std::thread::{Threads, join};

/// What a manifest compiles to, given the record.
pub(crate) enum Compiled {
    /// The record adds nothing to the manifest. This is its image.
    Image(Image),
    /// The record adds nothing to the manifest, and nothing is to do.
    NothingToDo,
    /// The record adds this to the manifest.
    Lacks(Vec<Addition>),
}

/// The result of reading a manifest.
pub(crate) enum Prepared {
    /// Its image, with what the record adds to it.
    Image(Verified),
    /// Nothing is to do.
    NothingToDo,
}

/// Returns the reason why a manifest of more edges than a graph may have has no graph.
fn refusal_of(alloc: Global, manifest: &Manifest) -> PlanFault
    ensures { LacksGraph manifest.now result }
{
    match graph_of(alloc, manifest) {
        Ok(graph) => {
            drop(graph);
            no_memory(alloc)
        }
        Err(fault) => fault,
    }
}

/// Returns the recorded paths of edges. Ends the entries that don't count, too: a world tells the recorded paths of
/// those as well.
fn recalled_entries<W: World>(
    alloc: Global,
    world: &W,
    edges: &EdgeList,
) -> Result<Vec<Addition>, AllocError>
    requires { length edges.now ≤ max_edges }
    ensures { IfOk result (λ a. AreRecalled W.allows edges.now a.items) }
{
    tell_others(alloc, world, edges)?;
    check_entries(alloc, world, edges)?;
    recalled_paths(alloc, world, edges)
}

/// Tells a world which files of a manifest stay, and ends the entries that don't count, by four threads.
fn tell_and_check<R: Threads + Sync, W: World + Send + Sync>(
    rt: &R,
    alloc: Global,
    world: &W,
    edges: &EdgeList,
) -> Result<(), AllocError> {
    tell_others(alloc, world, edges)?;
    check_by_four(rt, alloc, world, edges)
}

/// Returns the recorded paths of edges like `recalled_entries`, while other threads check the entries.
fn recalled_and_checked<R: Threads + Sync, W: World + Send + Sync>(
    rt: &R,
    alloc: Global,
    world: &W,
    edges: &EdgeList,
) -> Result<Vec<Addition>, AllocError>
    requires { length edges.now ≤ max_edges }
    ensures { IfOk result (λ a. AreRecalled W.allows edges.now a.items) }
{
    let (recalled, checked) = join(
        rt,
        || -> Result<Vec<Addition>, AllocError>
            requires { IsSync R.row × IsSend W.row × IsSync W.row × (length edges.now ≤ max_edges) }
            ensures { IfOk result (λ a. AreRecalled W.allows edges.entry.now a.items) }
        { recalled_by_two(rt, alloc, world, edges) },
        || tell_and_check(rt, alloc, world, edges),
    );
    match checked {
        Ok(()) => recalled,
        Err(error) => {
            drop(recalled);
            Err(error)
        }
    }
}

/// Builds the graph of a manifest, and meanwhile collects its names and asks the record about its edges.
fn graph_beside_paths<'a, R: Threads + Sync, W: World + Send + Sync>(
    rt: &R,
    alloc: Global,
    world: &W,
    manifest: &'a Manifest,
) -> (
    (
        Result<Graph<'a>, PlanFault>,
        Result<EdgeNames<'a>, AllocError>,
    ),
    Result<Vec<Addition>, AllocError>,
)
    requires { length manifest.now.edges ≤ max_edges }
    ensures graph { IfOk result.0.0 (λ g. IsGraph manifest.now g) }
    ensures refused { IfErr result.0.0 (λ fault. LacksGraph manifest.now fault) }
    ensures names { IfOk result.0.1 (AreNames manifest.now.edges) }
    ensures recalled { IfOk result.1 (λ a. AreRecalled W.allows manifest.now.edges a.items) }
{
    join(
        rt,
        || -> (
            Result<Graph<'_>, PlanFault>,
            Result<EdgeNames<'_>, AllocError>,
        )
            requires { IsSync R.row × (length manifest.now.edges ≤ max_edges) }
            ensures { IfOk result.0 (λ g. IsGraph manifest.entry.now g) × IfErr result.0 (λ fault. LacksGraph manifest.entry.now fault) × IfOk result.1 (AreNames manifest.entry.now.edges) }
        { graph_and_names(rt, alloc, manifest) },
        || -> Result<Vec<Addition>, AllocError>
            requires { IsSync R.row × IsSend W.row × IsSync W.row × (length manifest.now.edges ≤ max_edges) }
            ensures { IfOk result (λ a. AreRecalled W.allows manifest.entry.now.edges a.items) }
        { recalled_and_checked(rt, alloc, world, &manifest.edges) },
    )
}

/// Returns the graph of a manifest, its names, and the recorded paths of its edges. If the manifest has few edges, or
/// no thread can be started, finds one after the other.
fn graph_and_paths<'a, R: Threads + Sync, W: World + Send + Sync>(
    rt: &R,
    alloc: Global,
    world: &W,
    manifest: &'a Manifest,
) -> (
    (
        Result<Graph<'a>, PlanFault>,
        Result<EdgeNames<'a>, AllocError>,
    ),
    Result<Vec<Addition>, AllocError>,
)
    requires { length manifest.now.edges ≤ max_edges }
    ensures graph { IfOk result.0.0 (λ g. IsGraph manifest.now g) }
    ensures refused { IfErr result.0.0 (λ fault. LacksGraph manifest.now fault) }
    ensures names { IfOk result.0.1 (AreNames manifest.now.edges) }
    ensures recalled { IfOk result.1 (λ a. AreRecalled W.allows manifest.now.edges a.items) }
{
    if manifest.edges.len() >= FEW_EDGES {
        return graph_beside_paths(rt, alloc, world, manifest);
    }
    let graph = graph_of(alloc, manifest);
    let names = collect_names(alloc, manifest);
    let recalled = recalled_entries(alloc, world, &manifest.edges);
    ((graph, names), recalled)
}

/// Returns what the record adds to a manifest.
fn additions_of<'a, W: World>(
    alloc: Global,
    world: &W,
    manifest: &Manifest,
    graph: &Graph<'a>,
    recalled: Result<Vec<Addition>, AllocError>,
) -> Result<Vec<Addition>, PlanFault>
    requires graph { IsGraph manifest.now graph.now }
    requires recalled { IfOk recalled (λ a. AreRecalled W.allows manifest.now.edges a.items) }
    ensures recorded { IfOk result (λ a. AreRecorded W.allows manifest.now a.items) }
    ensures memory { IfErr result (λ fault. fault ≡ faults.no_memory) }
{
    let Ok(recalled) = recalled else {
        return Err(no_memory(alloc));
    };
    match needed_inputs(alloc, world, manifest, graph, &recalled) {
        Ok(additions) => Ok(additions),
        Err(_) => Err(no_memory(alloc)),
    }
}

/// Checks whether nothing is to do, if there is a path: that of a manifest whose build names no targets.
fn all_need_nothing<'a, R: Threads + Sync, W: World + Send + Sync>(
    rt: &R,
    alloc: Global,
    world: &W,
    manifest: &Manifest,
    graph: &Graph<'a>,
    all: Option<&[u8]>,
) -> Result<bool, AllocError>
    requires graph { IsGraph manifest.now graph.now }
    requires recorded { AreRecorded W.allows manifest.now [] }
    ensures { IfOk result (λ nothing. nothing ≡ true → AllNeedNothing W.allows manifest.now (option_map (λ p. p.now) all.entry)) }
{
    match all {
        Some(path) => needs_nothing(rt, alloc, world, manifest, graph, path),
        None => Ok(false),
    }
}

/// Compiles a manifest to which the record adds nothing, by its graph and its names, unless nothing is to do.
fn compile_alone<'a, R: Threads + Sync, W: World + Send + Sync>(
    rt: &R,
    alloc: Global,
    world: &W,
    manifest: &'a Manifest,
    graph: Graph<'a>,
    names: Result<EdgeNames<'a>, AllocError>,
    all: Option<&[u8]>,
) -> Result<Compiled, PlanFault>
    requires sound { IsSound manifest.now }
    requires graph { IsGraph manifest.now graph }
    requires names { IfOk names (AreNames manifest.now.edges) }
    requires recorded { AreRecorded W.allows manifest.now [] }
    ensures compiled { IfOk result (λ c. IsCompiled W.allows manifest.now (option_map (λ p. p.now) all.entry) c) }
    ensures refused { IfErr result (λ fault. LacksRecorded W.allows manifest.now fault) }
{
    match all_need_nothing(rt, alloc, world, manifest, &graph, all) {
        Ok(true) => Ok(Compiled::NothingToDo),
        Ok(false) => match image_with(rt, alloc, manifest, graph, names, OutOfDateRule::Stricter) {
            Ok(image) => Ok(Compiled::Image(image)),
            Err(fault) => Err(fault),
        },
        Err(_) => Err(no_memory(alloc)),
    }
}

/// Compiles a manifest by its graph and its names, unless the record adds something to it or nothing is to do.
fn compile_with_graph<'a, R: Threads + Sync, W: World + Send + Sync>(
    rt: &R,
    alloc: Global,
    world: &W,
    manifest: &'a Manifest,
    graph: Graph<'a>,
    names: Result<EdgeNames<'a>, AllocError>,
    recalled: Result<Vec<Addition>, AllocError>,
    all: Option<&[u8]>,
) -> Result<Compiled, PlanFault>
    requires sound { IsSound manifest.now }
    requires graph { IsGraph manifest.now graph }
    requires names { IfOk names (AreNames manifest.now.edges) }
    requires recalled { IfOk recalled (λ a. AreRecalled W.allows manifest.now.edges a.items) }
    ensures compiled { IfOk result (λ c. IsCompiled W.allows manifest.now (option_map (λ p. p.now) all.entry) c) }
    ensures refused { IfErr result (λ fault. LacksRecorded W.allows manifest.now fault) }
{
    let additions = match additions_of(alloc, world, manifest, &graph, recalled) {
        Ok(additions) => additions,
        Err(fault) => return Err(fault),
    };
    if !additions.is_empty() {
        return Ok(Compiled::Lacks(additions));
    }
    compile_alone(rt, alloc, world, manifest, graph, names, all)
}

/// Compiles a manifest, unless the record adds something to it or nothing is to do.
fn compile_recorded<R: Threads + Sync, W: World + Send + Sync>(
    rt: &R,
    alloc: Global,
    world: &W,
    manifest: &Manifest,
    all: Option<&[u8]>,
) -> Result<Compiled, PlanFault>
    requires { IsSound manifest.now }
    ensures compiled { IfOk result (λ c. IsCompiled W.allows manifest.now (option_map (λ p. p.now) all.entry) c) }
    ensures refused { IfErr result (λ fault. LacksRecorded W.allows manifest.now fault) }
{
    if manifest.edges.len() > MAX_EDGES {
        return Err(refusal_of(alloc, manifest));
    }
    let ((graph, names), recalled) = graph_and_paths(rt, alloc, world, manifest);
    match graph {
        Ok(graph) => compile_with_graph(rt, alloc, world, manifest, graph, names, recalled, all),
        Err(fault) => Err(fault),
    }
}

/// Adds to a manifest what the record adds to it, and compiles it.
fn compile_extended<R: Threads + Sync>(
    rt: &R,
    alloc: Global,
    manifest: &mut Manifest,
    additions: &[Addition],
) -> Result<Verified, PlanFault>
    requires sound { IsSound manifest.old }
    requires additions { AreSoundFor manifest.old additions.now }
    ensures image { IfOk result (λ image. IsImageOf OutOfDateRule.Stricter (extended additions.now manifest.old) image) }
    ensures sound { IsSound manifest.new }
    ensures refused { IfErr result (λ fault. LacksGraph (extended additions.now manifest.old) fault ⊎ LacksImageOf OutOfDateRule.Stricter (extended additions.now manifest.old) fault) }
{
    extended_is_sound();
    match manifest.extend_all(alloc, additions) {
        Ok(()) => match image_by(rt, alloc, &*manifest, OutOfDateRule::Stricter) {
            Ok(image) => Ok(Verified::of_shaped(image)),
            Err(fault) => Err(fault),
        },
        Err(_) => Err(no_memory(alloc)),
    }
}

/// Adds to a manifest what the record adds to it, and compiles it into an image with the stricter out-of-date rule. The
/// image isn't verified again, since the verifier accepts each image that the compiler makes. `all` is the path of the
/// manifest if the build names no targets. If nothing is to do then, nothing is compiled.
pub(crate) fn image_recorded<R: Threads + Sync, W: World + Send + Sync>(
    rt: &R,
    alloc: Global,
    world: &W,
    manifest: &mut Manifest,
    all: Option<&[u8]>,
) -> Result<Prepared, PlanFault>
    requires { IsSound manifest.old }
    ensures prepared { IfOk result (λ x. IsPrepared W.allows manifest.old (option_map (λ p. p.now) all.entry) x) }
    ensures sound { IsSound manifest.new }
    ensures refused { IfErr result (λ fault. LacksRecorded W.allows manifest.old fault) }
{
    match compile_recorded(rt, alloc, world, &*manifest, all) {
        Ok(Compiled::Image(image)) => Ok(Prepared::Image(Verified::of_shaped(image))),
        Ok(Compiled::NothingToDo) => Ok(Prepared::NothingToDo),
        Ok(Compiled::Lacks(additions)) => {
            match compile_extended(rt, alloc, manifest, &additions) {
                Ok(image) => Ok(Prepared::Image(image)),
                Err(fault) => Err(fault),
            }
        }
        Err(fault) => Err(fault),
    }
}
