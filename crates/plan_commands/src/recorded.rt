//! What the record adds to a manifest: edges wait for the makers of the paths that their entries name.

ghost use Rattle.std.specs.Prelude.{◌≡◌, ◌⊎◌, ◌<◌, ◌≤◌, ◌++◌, ◌∷◌, [], ℕ, All, IfOk, OnOk, false, flat_map, length, take, true};
ghost use Rattle.plan_graph.specs.Graph.{IsGraph, max_edges, outputs_of};
ghost use Rattle.plan_depfile.specs.Depfile.{depfile_of};
ghost use Rattle.plan_lanes.specs.Recalled.{AreAmong};
ghost use Rattle.plan_commands.specs.Recorded.{AreRecalled, AreRecalledBetween, AreRecorded, AreSome, DependsOn, IsMadeIn, IsNeeded, IsRecalled, IsWaitOf, MayLeaveIn, NamesAmong, NamesOwn, ReadsAmong, name_of, ok_or_none, own_paths, paths_for, paths_in};

use crate::depfiles::check_unrecorded;
use plan_graph::{Graph, Wait, cycle_with};
use plan_lanes::{World, paths_among};
use plan_machine::{Depfile, Reply};
use plan_scope::{Addition, EdgeList, EdgeRef, Manifest, PathRange};
use plan_text::{PathFilter, RowList};
use std::alloc::{AllocError, Global};
use std::thread::{Threads, join};

/// Adds paths to a filter.
pub(crate) fn add_paths<'a>(filter: &mut PathFilter, paths: &PathRange<'a>)
    ensures { filter.new ≡ filter.old ++ paths.now }
{
    for place in 0..paths.len() {
        filter.add(paths.path(place));
    }
}

/// Returns the filter of all outputs.
pub(crate) fn filter_of(alloc: Global, edges: &EdgeList) -> Result<PathFilter, AllocError>
    ensures { IfOk result (λ filter. filter ≡ flat_map outputs_of edges.now) }
{
    let mut filter = PathFilter::new(alloc, edges.len())?;
    for number in 0..edges.len() {
        let edge = edges.edge(number);
        add_paths(&mut filter, &edge.outputs());
        add_paths(&mut filter, &edge.implicit_outputs());
    }
    Ok(filter)
}

/// Returns the first output of an edge.
pub(crate) fn first_output<'a>(edge: &EdgeRef<'a>) -> &'a [u8]
    ensures { result.now ≡ name_of edge.now }
{
    let outputs = edge.outputs();
    if outputs.len() > 0 {
        return outputs.path(0);
    }
    edge.implicit_outputs().path(0)
}

/// Returns the paths that a depfile names and that may be outputs. Returns none if it is refused.
fn named_among(
    alloc: Global,
    depfile: &Depfile,
    filter: &PathFilter,
) -> Result<RowList<u8>, AllocError>
    ensures { IfOk result (λ found. AreAmong filter.now (ok_or_none (depfile_of depfile.now)) found) }
{
    match depfile.result(alloc)? {
        Ok(paths) => paths_among(alloc, &paths, filter),
        Err(_) => Ok(RowList::new(alloc)),
    }
}

/// Returns the paths that the depfile in a reply names and that may be outputs. Returns none if the reply is no
/// depfile, or one that is refused.
fn named_in(alloc: Global, reply: Reply, filter: &PathFilter) -> Result<RowList<u8>, AllocError>
    ensures { IfOk result (λ found. AreAmong filter.now (paths_in reply) found) }
{
    match reply {
        Reply::Bytes(depfile) => named_among(alloc, &depfile, filter),
        _other => Ok(RowList::new(alloc)),
    }
}

/// Returns the paths that the depfile of an edge names and that may be outputs. The edge has no entry with paths: if it
/// has one, the entry ends if it doesn't suit the depfile.
fn depfile_paths<'a, W: World>(
    alloc: Global,
    world: &W,
    filter: &PathFilter,
    edge: &EdgeRef<'a>,
) -> Result<RowList<u8>, AllocError>
    ensures { IfOk result (λ found. ReadsAmong W.allows filter.now edge.now found) }
{
    let path = edge.depfile().join(alloc)?;
    let reply = world.read_depfile(0, path.as_slice())?;
    check_unrecorded(alloc, world, edge, path.as_slice(), &reply)?;
    named_in(alloc, reply, filter)
}

/// Returns the paths of two lists, those of the first one first.
pub(crate) fn both_paths(
    mut first: RowList<u8>,
    second: &RowList<u8>,
) -> Result<RowList<u8>, AllocError>
    ensures { IfOk result (λ all. all ≡ first ++ second.now) }
{
    for number in 0..second.len() {
        first.push(second.row(number))?;
    }
    Ok(first)
}

/// Returns the paths that the depfile of an edge names and those that its start entry keeps, if they may be outputs. The
/// edge has no entry with paths, unless it is a start entry.
#[tactic(auto, using(crate::proofs::RecordedLemmas::names_read, crate::proofs::RecordedLemmas::names_both))]
fn unrecorded_paths<'a, W: World>(
    alloc: Global,
    world: &W,
    filter: &PathFilter,
    edge: &EdgeRef<'a>,
) -> Result<RowList<u8>, AllocError>
    ensures { IfOk result (λ found. NamesOwn W.allows filter.now edge.now found) }
{
    let named = depfile_paths(alloc, world, filter, edge)?;
    match world.begun_among(alloc, first_output(edge), filter)? {
        Some(kept) => {
            let all = both_paths(named, &kept)?;
            Ok(all)
        }
        None => Ok(named),
    }
}

/// Returns these paths of an edge, and then those that the record of another builder names for it, if they may be
/// outputs. `is_recorded` says whether these paths are those of its entry.
#[tactic(auto, using(crate::proofs::RecordedLemmas::names_own, crate::proofs::RecordedLemmas::names_others))]
fn with_foreign<'a, W: World>(
    alloc: Global,
    world: &W,
    filter: &PathFilter,
    edge: &EdgeRef<'a>,
    is_recorded: bool,
    own: RowList<u8>,
) -> Result<RowList<u8>, AllocError>
    requires { NamesOwn W.allows filter.now edge.now own }
    ensures { IfOk result (λ paths. NamesAmong W.allows filter.now edge.now paths) }
{
    match world.foreign_among(alloc, first_output(edge), filter, is_recorded)? {
        Some(others) => {
            let all = both_paths(own, &others)?;
            Ok(all)
        }
        None => Ok(own),
    }
}

/// Returns the paths that the last commands of an edge read and that may be outputs: by its entry, or by its depfile and
/// its start entry if there is no entry of a command that ended, or one without paths; and by the record of another
/// builder. Returns none for an edge without a depfile.
#[tactic(auto, using(crate::proofs::RecordedLemmas::names_recalled))]
fn recorded_paths<'a, W: World>(
    alloc: Global,
    world: &W,
    filter: &PathFilter,
    edge: &EdgeRef<'a>,
) -> Result<RowList<u8>, AllocError>
    ensures { IfOk result (λ paths. ((edge.now.depfile ≡ []) × (paths ≡ [])) ⊎ NamesAmong W.allows filter.now edge.now paths) }
{
    if edge.depfile().is_empty() {
        return Ok(RowList::new(alloc));
    }
    match world.recorded_among(alloc, first_output(edge), filter)? {
        Some(paths) => with_foreign(alloc, world, filter, edge, true, paths),
        None => {
            let paths = unrecorded_paths(alloc, world, filter, edge)?;
            with_foreign(alloc, world, filter, edge, false, paths)
        }
    }
}

/// Appends an addition of order-only inputs to an edge, if there are any.
fn push_order_only(
    alloc: Global,
    edge: u32,
    paths: RowList<u8>,
    additions: &mut Vec<Addition>,
) -> Result<(), AllocError>
    ensures paths { OnOk result ((e : ℕ) → paths_for e additions.new.items ≡ paths_for e additions.old.items ++ own_paths e (record { edge = edge; outputs = []; inputs = []; order_only = paths })) }
    ensures added { OnOk result ((additions.new.items ≡ additions.old.items) ⊎ (additions.new.items ≡ additions.old.items ++ record { edge = edge; outputs = []; inputs = []; order_only = paths } ∷ [])) }
{
    if paths.len() == 0 {
        return Ok(());
    }
    let (outputs, inputs) = (RowList::new(alloc), RowList::new(alloc));
    additions.push(Addition {
        edge,
        outputs,
        inputs,
        order_only: paths,
    })?;
    Ok(())
}

/// Returns the recorded paths that may be outputs of the edges from one number up to another one, as order-only inputs.
/// `filter` has all outputs.
fn recalled_between<W: World>(
    alloc: Global,
    world: &W,
    edges: &EdgeList,
    filter: &PathFilter,
    from: usize,
    to: usize,
) -> Result<Vec<Addition>, AllocError>
    requires few { length edges.now ≤ max_edges }
    requires filter { filter.now ≡ flat_map outputs_of edges.now }
    requires order { from ≤ to }
    requires within { to ≤ length edges.now }
    ensures { IfOk result (λ additions. AreRecalledBetween W.allows edges.now from to additions.items) }
{
    let mut additions = Vec::new(alloc);
    for number in from..to {
        let edge = edges.edge(number);
        let paths = recorded_paths(alloc, world, filter, &edge)?;
        push_order_only(alloc, number as u32, paths, &mut additions)?;
    }
    Ok(additions)
}

/// Returns the recorded paths of all edges that may be outputs, as order-only inputs. The world takes the set of outputs.
pub(crate) fn recalled_paths<W: World>(
    alloc: Global,
    world: &W,
    edges: &EdgeList,
) -> Result<Vec<Addition>, AllocError>
    requires { length edges.now ≤ max_edges }
    ensures { IfOk result (λ additions. AreRecalled W.allows edges.now additions.items) }
{
    let filter = filter_of(alloc, edges)?;
    let additions = recalled_between(alloc, world, edges, &filter, 0, edges.len())?;
    world.take_outputs(filter);
    Ok(additions)
}

/// Returns the additions of two lists, those of the first one first.
fn joined(mut first: Vec<Addition>, second: Vec<Addition>) -> Result<Vec<Addition>, AllocError>
    ensures { IfOk result (λ all. all.items ≡ first.items ++ second.items) }
{
    for addition in second {
        first.push(addition)?;
    }
    Ok(first)
}

/// Returns the recorded paths of the edges below a number, and of those from there on, by two threads.
fn recalled_apart<R: Threads, W: World + Send + Sync>(
    rt: &R,
    alloc: Global,
    world: &W,
    edges: &EdgeList,
    filter: &PathFilter,
    half: usize,
    count: usize,
) -> (
    Result<Vec<Addition>, AllocError>,
    Result<Vec<Addition>, AllocError>,
)
    requires few { length edges.now ≤ max_edges }
    requires filter { filter.now ≡ flat_map outputs_of edges.now }
    requires order { half ≤ count }
    requires within { count ≤ length edges.now }
    ensures first { IfOk result.0 (λ a. AreRecalledBetween W.allows edges.now 0 half a.items) }
    ensures second { IfOk result.1 (λ a. AreRecalledBetween W.allows edges.now half count a.items) }
{
    join(
        rt,
        || recalled_between(alloc, world, edges, filter, 0, half),
        || recalled_between(alloc, world, edges, filter, half, count),
    )
}

/// Returns the recorded paths of all edges like `recalled_paths`, by two threads.
pub(crate) fn recalled_by_two<R: Threads, W: World + Send + Sync>(
    rt: &R,
    alloc: Global,
    world: &W,
    edges: &EdgeList,
) -> Result<Vec<Addition>, AllocError>
    requires { length edges.now ≤ max_edges }
    ensures { IfOk result (λ additions. AreRecalled W.allows edges.now additions.items) }
{
    let filter = filter_of(alloc, edges)?;
    let count = edges.len();
    let (first, second) = recalled_apart(rt, alloc, world, edges, &filter, count / 2, count);
    world.take_outputs(filter);
    match second {
        Ok(second) => {
            let all = joined(first?, second)?;
            Ok(all)
        }
        Err(error) => {
            drop(first);
            Err(error)
        }
    }
}

/// The largest number of edges that a search looks at.
const MOST_MET: usize = 64;

/// Appends edges to those that a search has met, as long as these are few.
fn push_met(row: &[u32], met: &mut Vec<u32>) -> Result<(), AllocError>
    ensures { OnOk result ((count : ℕ) × (met.new.items ≡ met.old.items ++ take count row.now)) }
{
    let room = MOST_MET.saturating_sub(met.len());
    let (some, _) = row.split_at(room.min(row.len()));
    met.extend_from_slice(some)?;
    Ok(())
}

/// Checks whether an edge depends on another one, directly or through edges that a short search meets. So it may return
/// false for an edge that depends on the other one through many edges.
fn depends_on(
    waits: &RowList<u32>,
    edge: u32,
    maker: u32,
    met: &mut Vec<u32>,
) -> Result<bool, AllocError>
    ensures { IfOk result (λ depends. depends ≡ true → DependsOn waits.now edge maker) }
{
    met.clear();
    met.push(edge)?;
    for place in 0..MOST_MET {
        if place >= met.len() {
            return Ok(false);
        }
        let row = waits.row(met[place] as usize);
        if row.contains(&maker) {
            return Ok(true);
        }
        push_met(row, met)?;
    }
    Ok(false)
}

/// Checks whether an edge needs a recorded path as an input. It doesn't need one that no other edge makes, one whose
/// maker it depends on, or one whose maker is on this cycle with it.
fn is_needed<'a>(
    graph: &Graph<'a>,
    cycle: &[usize],
    edge: u32,
    path: &[u8],
    met: &mut Vec<u32>,
) -> Result<bool, AllocError>
    ensures made { IfOk result (λ needs. needs ≡ true → IsMadeIn graph.now edge path.now) }
    ensures left { IfOk result (λ needs. needs ≡ false → MayLeaveIn graph.now cycle.now edge path.now) }
{
    let maker = match graph.files.producer(path) {
        Some(maker) => maker,
        None => return Ok(false),
    };
    if maker == edge {
        return Ok(false);
    }
    if cycle.contains(&(edge as usize)) & cycle.contains(&(maker as usize)) {
        return Ok(false);
    }
    let depends = depends_on(&graph.waits, edge, maker, met)?;
    Ok(!depends)
}

/// Returns those recorded paths of an edge that it needs.
fn needed_paths<'a>(
    alloc: Global,
    graph: &Graph<'a>,
    cycle: &[usize],
    addition: &Addition,
    met: &mut Vec<u32>,
) -> Result<RowList<u8>, AllocError>
    ensures some { IfOk result (λ kept. AreSome (MayLeaveIn graph.now cycle.now addition.now.edge) addition.now.order_only kept) }
    ensures made { IfOk result (λ kept. All (IsMadeIn graph.now addition.now.edge) kept) }
{
    let mut kept = RowList::new(alloc);
    for number in 0..addition.order_only.len() {
        let path = addition.order_only.row(number);
        if is_needed(graph, cycle, addition.edge, path, met)? {
            kept.push(path)?;
        }
    }
    Ok(kept)
}

/// Returns those additions that edges need.
fn needed<'a>(
    alloc: Global,
    graph: &Graph<'a>,
    cycle: &[usize],
    additions: &[Addition],
) -> Result<Vec<Addition>, AllocError>
    ensures some { IfOk result (λ kept. (e : ℕ) → AreSome (MayLeaveIn graph.now cycle.now e) (paths_for e additions.now) (paths_for e kept.items)) }
    ensures only { IfOk result (λ kept. (n : ℕ) → All (IsRecalled n) additions.now → All (IsNeeded graph.now n) kept.items) }
{
    let mut met = Vec::new(alloc);
    let mut kept = Vec::new(alloc);
    for number in 0..additions.len() {
        let addition = &additions[number];
        let paths = needed_paths(alloc, graph, cycle, addition, &mut met)?;
        push_order_only(alloc, addition.edge, paths, &mut kept)?;
    }
    Ok(kept)
}

/// Appends the waits for the makers of the paths in one of these additions.
fn push_waits<'a>(
    graph: &Graph<'a>,
    additions: &[Addition],
    number: usize,
    waits: &mut Vec<Wait>,
) -> Result<(), AllocError>
    requires here { number < length additions.now }
    requires waits { All (IsWaitOf graph.now additions.now) waits.old.items }
    ensures { All (IsWaitOf graph.now additions.now) waits.new.items }
{
    let addition = &additions[number];
    for place in 0..addition.order_only.len() {
        match graph.files.producer(addition.order_only.row(place)) {
            Some(maker) => waits.push(Wait {
                edge: addition.edge,
                maker,
            })?,
            None => {}
        }
    }
    Ok(())
}

/// Returns the waits of edges for the makers of the paths that they gain.
fn waits_of<'a>(
    alloc: Global,
    graph: &Graph<'a>,
    additions: &[Addition],
) -> Result<Vec<Wait>, AllocError>
    ensures { IfOk result (λ waits. All (IsWaitOf graph.now additions.now) waits.items) }
{
    let mut waits = Vec::new(alloc);
    for number in 0..additions.len() {
        push_waits(graph, additions, number, &mut waits)?;
    }
    Ok(waits)
}

/// The reason why an edge on a cycle runs, in words.
const ON_CYCLE: &[u8] = b"what its last build read depends on it";

/// Ends the entries of the edges on a cycle that gain inputs, so that their commands run.
fn run_cycle<W: World>(
    world: &W,
    edges: &EdgeList,
    cycle: &[usize],
    additions: &[Addition],
) -> Result<(), AllocError> {
    for addition in additions {
        let number = addition.edge as usize;
        if (number < edges.len()) & cycle.contains(&number) {
            world.forget(first_output(&edges.edge(number)), ON_CYCLE)?;
        }
    }
    Ok(())
}

/// Returns the number of all paths in some additions.
fn count_paths(additions: &[Addition]) -> usize {
    let mut count = 0usize;
    for addition in additions {
        count = count.saturating_add(addition.order_only.len());
    }
    count
}

/// Leaves out the paths whose makers are on a cycle of waits with the edges that would gain them, and lets these edges
/// run. Each turn leaves out at least one path.
fn without_cycles<'a, W: World>(
    alloc: Global,
    world: &W,
    manifest: &Manifest,
    graph: &Graph<'a>,
    additions: Vec<Addition>,
) -> Result<Vec<Addition>, AllocError>
    requires graph { IsGraph manifest.now graph.now }
    requires recorded { AreRecorded W.allows manifest.now additions.items }
    ensures { IfOk result (λ left. AreRecorded W.allows manifest.now left.items) }
{
    let mut left = additions;
    for _ in 0..count_paths(&left) {
        let waits = waits_of(alloc, graph, &left)?;
        match cycle_with(alloc, graph, &waits)? {
            Some(cycle) => {
                run_cycle(world, &manifest.edges, cycle.as_slice(), &left)?;
                left = needed(alloc, graph, cycle.as_slice(), &left)?;
            }
            None => return Ok(left),
        }
    }
    Ok(left)
}

/// Returns what the record adds to a manifest, by the recorded paths of its edges.
pub(crate) fn needed_inputs<'a, W: World>(
    alloc: Global,
    world: &W,
    manifest: &Manifest,
    graph: &Graph<'a>,
    recalled: &[Addition],
) -> Result<Vec<Addition>, AllocError>
    requires graph { IsGraph manifest.now graph.now }
    requires recalled { AreRecalled W.allows manifest.now.edges recalled.now }
    ensures { IfOk result (λ additions. AreRecorded W.allows manifest.now additions.items) }
{
    let additions = needed(alloc, graph, &[], recalled)?;
    without_cycles(alloc, world, manifest, graph, additions)
}
