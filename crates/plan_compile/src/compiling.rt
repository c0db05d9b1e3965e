//! Compiles a manifest to an image.

ghost use Rattle.std.specs.Prelude.{◌≡◌, ◌≤◌, ◌++◌, ◌∷◌, [], All, IfErr, IfOk, length, List, None, OnOk, Some, map, replicate, slice_get, zero, ℕ};
ghost use Rattle.plan_scope.specs.Edges.{max_depth};
ghost use Rattle.plan_scope.specs.Sound.{IsSound};
ghost use Rattle.plan_graph.specs.Files.{paths_in};
ghost use Rattle.plan_graph.specs.Graph.{IsGraph, max_edges};
ghost use Rattle.plan_compile.specs.Assembling.{codes_in, edges_in};
ghost use Rattle.plan_compile.specs.Collected.{AreNames};
ghost use Rattle.plan_compile.specs.Images.{compiled, used_bodies};
ghost use Rattle.plan_compile.specs.Names.{declared};
ghost use Rattle.plan_compile.specs.NamedEdges.{AreNamed, HasFewFiles};
ghost use Rattle.plan_compile.specs.OutputTable.{filled};
ghost use Rattle.plan_compile.specs.Refusals.{IsRefused, RefusesEdges};
ghost use Rattle.plan_compile.specs.Slots.{all_made, newest_from, slots_from};

use crate::baseline::OutOfDateRule;
use crate::bodies::Bodies;
use crate::build::{Build, builds, words};
use crate::collecting::collect_names;
use crate::edge_names::EdgeNames;
use crate::fault::CompileFault;
use crate::generator::{Generator, InOrder, SideBySide};
use crate::image_laws::{image_is_spelled, manifests_are_sound};
use crate::names::pool_table;
use crate::slots::{plan_slots, slot_count};
use plan_graph::{Files, Graph};
use plan_image::{Edges, Image, MAX_FILES, MAX_POOLS, Parts, Pool, Slot};
use plan_scope::Manifest;
use plan_text::{Items, RowList};
use std::alloc::{AllocError, Global};
use std::thread::Threads;

/// Appends the path of file `number`.
fn push_path<'a>(rows: &mut RowList<u8>, files: &Files<'a>, number: usize) -> Result<(), AllocError>
    ensures { (path : List ℕ) → slice_get (paths_in files.now) number ≡ Some path → OnOk result (rows.new ≡ rows.old ++ path ∷ []) }
{
    match files.path(number) {
        Some(path) => {
            rows.push(path)?;
            Ok(())
        }
        None => Ok(()),
    }
}

/// Returns the paths in their order.
fn paths<'a>(alloc: Global, files: &Files<'a>) -> Result<RowList<u8>, AllocError>
    ensures { IfOk result (λ rows. rows ≡ paths_in files.now) }
{
    let mut rows = RowList::new(alloc);
    rows.reserve(files.len())?;
    for number in 0..files.len() {
        push_path(&mut rows, files, number)?;
    }
    Ok(rows)
}

/// The edges of an image, with the numbers of their texts and pools.
#[derive(Drop)]
pub(crate) struct Named<'a> {
    pub(crate) builds: Vec<Build<'a>>,
    pub(crate) names: EdgeNames<'a>,
}

/// Numbers the edges of a manifest, given the names that were collected of them.
pub(crate) fn name_all<'a, 'b>(
    alloc: Global,
    manifest: &'a Manifest,
    graph: &'a Graph<'b>,
    names: Result<EdgeNames<'a>, AllocError>,
    rule: OutOfDateRule,
) -> Result<Named<'a>, AllocError>
    requires graph { IsGraph manifest.now graph.now }
    requires names { IfOk names (AreNames manifest.now.edges) }
    ensures { IfOk result (AreNamed rule manifest.now graph.now) }
{
    let names = names?;
    let builds = builds(alloc, manifest, graph, rule)?;
    Ok(Named { builds, names })
}

/// The slots, the bodies and the edges of an image.
#[derive(Drop)]
struct Coded {
    slots: Vec<Slot>,
    bodies: Bodies,
    edges: Edges,
}

/// Generates the codes of these edges, given the number of files.
fn code_all<'a, G: Generator>(
    alloc: Global,
    generator: &G,
    files: usize,
    named: &Named<'a>,
) -> Result<Coded, CompileFault>
    requires ready { G.ready }
    requires named { length named.now.names.numbers.items ≡ length named.now.builds.items }
    requires few { length named.now.builds.items ≤ max_edges }
    ensures slots { IfOk result (λ c. c.slots.items ≡ slots_from zero named.now.builds.items) }
    ensures bodies { let xs = named.now.builds.items in
        IfOk result (λ c. c.bodies ≡ used_bodies (codes_in (filled (replicate files None) (all_made zero xs)) named.now.names.numbers.items (newest_from zero xs) xs)) }
    ensures edges { let xs = named.now.builds.items in
        let codes = codes_in (filled (replicate files None) (all_made zero xs)) named.now.names.numbers.items (newest_from zero xs) xs in
        IfOk result (λ c. c.edges ≡ edges_in (used_bodies codes) named.now.names.numbers.items codes xs) }
    ensures refused { let xs = named.now.builds.items in
        IfErr result (λ fault. RefusesEdges fault xs (codes_in (filled (replicate files None) (all_made zero xs)) named.now.names.numbers.items (newest_from zero xs) xs)) }
{
    let Some(count) = slot_count(&named.builds) else {
        return Err(CompileFault::Limit);
    };
    let plan = plan_slots(alloc, files, count, &named.builds)?;
    let (edges, bodies) = generator.edges(
        alloc,
        &plan.table,
        &plan.newest,
        &named.names.numbers,
        &named.builds,
    )?;
    Ok(Coded {
        slots: plan.slots,
        bodies,
        edges,
    })
}

/// The tables of an image that don't depend on the codes of edges.
#[derive(Drop)]
struct Tables {
    texts: RowList<u8>,
    files: RowList<u8>,
    pools: Items<Pool>,
    defaults: Items<u32>,
}

/// Returns the texts, files, pools and defaults of a manifest.
fn tables_of<'a, 'b>(
    alloc: Global,
    manifest: &'a Manifest,
    graph: &Graph<'b>,
    names: &EdgeNames<'a>,
) -> Result<Tables, AllocError>
    requires { All (λ p. p.depth ≤ max_depth) manifest.now.pools }
    ensures texts { IfOk result (λ t. t.texts ≡ names.now.texts) }
    ensures files { IfOk result (λ t. t.files ≡ paths_in graph.now.files) }
    ensures pools { IfOk result (λ t. t.pools ≡ map (declared manifest.now.pools) names.now.pools) }
    ensures defaults { IfOk result (λ t. t.defaults ≡ graph.now.defaults) }
{
    let texts = names.texts.rows(alloc)?;
    let files = paths(alloc, &graph.files)?;
    let pools = pool_table(alloc, manifest.pools.as_slice(), &names.pools)?;
    let defaults = words(alloc, graph.defaults.as_slice())?;
    Ok(Tables {
        texts,
        files,
        pools,
        defaults,
    })
}

/// Assembles the tables of the image.
fn assemble(tables: Tables, coded: Coded) -> Parts
    ensures { result ≡ record { texts = tables.texts; files = tables.files; pools = tables.pools; slots = coded.slots.items; bodies = Some coded.bodies; edges = coded.edges; defaults = tables.defaults } }
{
    Parts {
        texts: tables.texts,
        files: tables.files,
        pools: tables.pools,
        slots: Items::new(coded.slots),
        bodies: Some(coded.bodies.into_items()),
        edges: coded.edges,
        defaults: tables.defaults,
    }
}

/// Returns the tables of the image, given the edges with their names. There may be too many pools.
fn parts_of<'a, 'b, G: Generator>(
    alloc: Global,
    generator: &G,
    manifest: &'a Manifest,
    graph: &'a Graph<'b>,
    named: &Named<'a>,
    rule: OutOfDateRule,
) -> Result<Parts, CompileFault>
    requires ready { G.ready }
    requires sound { IsSound manifest.now }
    requires graph { IsGraph manifest.now graph.now }
    requires few { HasFewFiles graph.now }
    requires named { AreNamed rule manifest.now graph.now named.now }
    ensures parts { IfOk result (λ parts. parts ≡ compiled rule manifest.now graph.now) }
    ensures refused { IfErr result (λ fault. IsRefused rule manifest.now graph.now fault) }
{
    manifests_are_sound();
    if named.names.pools.len() > MAX_POOLS {
        return Err(CompileFault::Limit);
    }
    let coded = code_all(alloc, generator, graph.files.len(), named)?;
    let tables = tables_of(alloc, manifest, graph, &named.names)?;
    Ok(assemble(tables, coded))
}

/// Returns the tables of the image.
fn parts<'a, 'b, G: Generator>(
    alloc: Global,
    generator: &G,
    manifest: &'a Manifest,
    graph: &'a Graph<'b>,
    names: Result<EdgeNames<'a>, AllocError>,
    rule: OutOfDateRule,
) -> Result<Parts, CompileFault>
    requires ready { G.ready }
    requires sound { IsSound manifest.now }
    requires graph { IsGraph manifest.now graph.now }
    requires names { IfOk names (AreNames manifest.now.edges) }
    ensures parts { IfOk result (λ parts. parts ≡ compiled rule manifest.now graph.now) }
    ensures refused { IfErr result (λ fault. IsRefused rule manifest.now graph.now fault) }
{
    manifests_are_sound();
    if graph.files.len() > MAX_FILES {
        return Err(CompileFault::Limit);
    }
    let named = name_all(alloc, manifest, graph, names, rule)?;
    parts_of(alloc, generator, manifest, graph, &named, rule)
}

/// Compiles a manifest, given its names, with this generator of codes.
fn image_of<'a, 'b, G: Generator>(
    alloc: Global,
    generator: &G,
    manifest: &'a Manifest,
    graph: &'a Graph<'b>,
    names: Result<EdgeNames<'a>, AllocError>,
    rule: OutOfDateRule,
) -> Result<Image, CompileFault>
    requires ready { G.ready }
    requires sound { IsSound manifest.now }
    requires graph { IsGraph manifest.now graph.now }
    requires names { IfOk names (AreNames manifest.now.edges) }
    ensures image { IfOk result (λ image. image ≡ compiled rule manifest.now graph.now) }
    ensures refused { IfErr result (λ fault. IsRefused rule manifest.now graph.now fault) }
{
    image_is_spelled();
    let parts = parts(alloc, generator, manifest, graph, names, rule)?;
    match Image::new(parts) {
        Ok(image) => Ok(image),
        Err(_refused) => Err(CompileFault::Limit),
    }
}

/// Compiles like `compile`, given the names that `collect_names` returned for the manifest. If it ran out of memory, so
/// does this call. If there are 500 edges or more, two threads generate their codes, and from 1,000 on four. Edges
/// whose thread can't be started are left to another thread.
///
/// # Errors
///
/// As in `compile`.
pub fn compile_with<'a, 'b, R: Threads + Sync>(
    rt: &R,
    alloc: Global,
    manifest: &'a Manifest,
    graph: &'a Graph<'b>,
    names: Result<EdgeNames<'a>, AllocError>,
    rule: OutOfDateRule,
) -> Result<Image, CompileFault>
    requires sound { IsSound manifest.now }
    requires graph { IsGraph manifest.now graph.now }
    requires names { IfOk names (AreNames manifest.now.edges) }
    ensures image { IfOk result (λ image. image ≡ compiled rule manifest.now graph.now) }
    ensures refused { IfErr result (λ fault. IsRefused rule manifest.now graph.now fault) }
{
    let generator = SideBySide { rt };
    image_of(alloc, &generator, manifest, graph, names, rule)
}

/// Compiles a manifest with its graph to an image of version 2, for an out-of-date rule. The edges have the
/// order of the manifest. The bodies are without repetitions, each is used, and they are in the order of first
/// use. The same is true of pools and texts. The time is linear in the manifest.
///
/// # Errors
///
/// - `Limit` only if the image would exceed a limit of images (docs/rules/image.md).
/// - `Memory` if memory runs out. Then there are no more files than an image may have.
pub fn compile<'a>(
    alloc: Global,
    manifest: &Manifest,
    graph: &Graph<'a>,
    rule: OutOfDateRule,
) -> Result<Image, CompileFault>
    requires sound { IsSound manifest.now }
    requires graph { IsGraph manifest.now graph.now }
    ensures image { IfOk result (λ image. image ≡ compiled rule manifest.now graph.now) }
    ensures refused { IfErr result (λ fault. IsRefused rule manifest.now graph.now fault) }
{
    let names = collect_names(alloc, manifest);
    image_of(alloc, &InOrder, manifest, graph, names, rule)
}
