//! The command `compile`.

ghost use Rattle.std.specs.Prelude.{◌≡◌, ◌≤◌, ◌⊎◌, IfOk, IfErr, OnOk, length};
ghost use Rattle.plan_scope.specs.Sound.{IsSound};
ghost use Rattle.plan_graph.specs.Graph.{IsGraph, max_edges};
ghost use Rattle.plan_compile.specs.Collected.{AreNames};
ghost use Rattle.plan_compile.specs.declared.baseline.OutOfDateRule.TheVariants as OutOfDateRule;
ghost use Rattle.plan_image.specs.Spelling.{spelling};
ghost use Rattle.plan_commands.specs.Commands.{LacksGraph, loading_by};
ghost use Rattle.plan_commands.specs.Compiling.{IsImageOf, SpellsImage, LacksImageOf, IsNotCompiled, Compiles, FailsToCompile};

use crate::commands::manifest_at;
use crate::compile_fault::printed_compile_fault;
use plan_compile::{
    EdgeNames, OutOfDateRule, collect_names, compile, compile_with, image_is_shaped,
    manifests_are_sound,
};
use plan_graph::{Graph, MAX_EDGES, graph};
use plan_image::{Image, print_image};
use plan_printing::{PlanFault, no_memory, printed_graph_fault, write_fault};
use plan_scope::{Manifest, Source, loaded_manifests_are_sound};
use plan_text::Sink;
use std::alloc::{AllocError, Global};
use std::mem::forget;
use std::thread::{Threads, join};

/// Returns the graph of a manifest.
pub(crate) fn graph_of<'a>(alloc: Global, manifest: &'a Manifest) -> Result<Graph<'a>, PlanFault>
    ensures graph { IfOk result (λ g. IsGraph manifest.now g) }
    ensures refused { IfErr result (λ fault. LacksGraph manifest.now fault) }
{
    match graph(alloc, manifest) {
        Ok(graph) => Ok(graph),
        Err(fault) => Err(printed_graph_fault(alloc, manifest, &fault)),
    }
}

/// The size of the buffer through which an image is written, in bytes.
const ROOM: usize = 65_536;

/// Compiles a manifest into an image with an out-of-date rule. The verifier accepts the image.
pub fn image_of(alloc: Global, manifest: &Manifest, rule: OutOfDateRule) -> Result<Image, PlanFault>
    requires { IsSound manifest.now }
    ensures spelled { IfOk result (λ image. SpellsImage rule manifest.now (spelling image)) }
    ensures image { IfOk result (λ image. IsImageOf rule manifest.now image) }
    ensures refused { IfErr result (λ fault. LacksGraph manifest.now fault ⊎ LacksImageOf rule manifest.now fault) }
{
    let graph = graph_of(alloc, manifest)?;
    manifests_are_sound();
    image_is_shaped();
    match compile(alloc, manifest, &graph, rule) {
        Ok(image) => Ok(image),
        Err(fault) => Err(printed_compile_fault(alloc, fault)),
    }
}

/// Builds the graph of a manifest, and collects its names meanwhile. If no thread can be started, collects them
/// before or after.
pub(crate) fn graph_and_names<'a, R: Threads + Sync>(
    rt: &R,
    alloc: Global,
    manifest: &'a Manifest,
) -> (
    Result<Graph<'a>, PlanFault>,
    Result<EdgeNames<'a>, AllocError>,
)
    requires { length manifest.now.edges ≤ max_edges }
    ensures graph { IfOk result.0 (λ g. IsGraph manifest.now g) }
    ensures refused { IfErr result.0 (λ fault. LacksGraph manifest.now fault) }
    ensures names { IfOk result.1 (AreNames manifest.now.edges) }
{
    join(
        rt,
        || graph_of(alloc, manifest),
        || collect_names(alloc, manifest),
    )
}

/// Compiles like `image_of`, given the graph of the manifest and its names.
pub(crate) fn image_with<'a, R: Threads + Sync>(
    rt: &R,
    alloc: Global,
    manifest: &'a Manifest,
    graph: Graph<'a>,
    names: Result<EdgeNames<'a>, AllocError>,
    rule: OutOfDateRule,
) -> Result<Image, PlanFault>
    requires sound { IsSound manifest.now }
    requires graph { IsGraph manifest.now graph }
    requires names { IfOk names (AreNames manifest.now.edges) }
    ensures spelled { IfOk result (λ image. SpellsImage rule manifest.now (spelling image)) }
    ensures image { IfOk result (λ image. IsImageOf rule manifest.now image) }
    ensures refused { IfErr result (λ fault. LacksGraph manifest.now fault ⊎ LacksImageOf rule manifest.now fault) }
{
    manifests_are_sound();
    image_is_shaped();
    match compile_with(rt, alloc, manifest, &graph, names, rule) {
        Ok(image) => Ok(image),
        Err(cause) => Err(printed_compile_fault(alloc, cause)),
    }
}

/// The number of edges from which on a second thread saves more time than its start takes.
pub(crate) const FEW_EDGES: usize = 500;

/// Compiles like `image_of`, and fails as it does, but builds the graph of the manifest and collects its names side by
/// side, unless the manifest has few edges.
pub fn image_by<R: Threads + Sync>(
    rt: &R,
    alloc: Global,
    manifest: &Manifest,
    rule: OutOfDateRule,
) -> Result<Image, PlanFault>
    requires { IsSound manifest.now }
    ensures spelled { IfOk result (λ image. SpellsImage rule manifest.now (spelling image)) }
    ensures image { IfOk result (λ image. IsImageOf rule manifest.now image) }
    ensures refused { IfErr result (λ fault. LacksGraph manifest.now fault ⊎ LacksImageOf rule manifest.now fault) }
{
    if manifest.edges.len() < FEW_EDGES {
        return image_of(alloc, manifest, rule);
    }
    if manifest.edges.len() > MAX_EDGES {
        return image_of(alloc, manifest, rule);
    }
    let (graph, names) = graph_and_names(rt, alloc, manifest);
    match graph {
        Ok(graph) => image_with(rt, alloc, manifest, graph, names, rule),
        Err(fault) => Err(fault),
    }
}

/// Writes the image of the manifest at a path, compiled with the specified out-of-date rule. The verifier accepts the
/// image. `output` is the name of the sink's file. Returns the status 0. Then no read and no write failed.
///
/// # Errors
/// - The manifest, or a file that it includes, is missing or refused, or the manifest has no graph or no image: the
///   fault has the cause and the place. Nothing is written.
/// - 133, with `output`: a write failed.
/// - 131 or the number of a lower layer: memory ran out. Nothing is written.
pub fn do_compile<S: Source, W: Sink>(
    alloc: Global,
    source: &mut S,
    path: &[u8],
    output: &[u8],
    out: &mut W,
) -> Result<u8, PlanFault>
    ensures done { let loads = loading_by (S.gives source.old) (S.fails source.old) (S.failures source.old) (S.failures source.new) in
        IfOk result (λ status. (status ≡ 0) × Compiles loads path.now (W.failures out.old, W.taken out.old) (W.failures out.new, W.taken out.new)) }
    ensures read { OnOk result (S.failures source.new ≡ S.failures source.old) }
    ensures refused { let loads = loading_by (S.gives source.old) (S.fails source.old) (S.failures source.old) (S.failures source.new) in
        IfErr result (λ fault. ((out.new ≡ out.old) × IsNotCompiled OutOfDateRule.Specified loads path.now fault)
        ⊎ FailsToCompile loads path.now output.now (W.failures out.old, W.taken out.old) (W.failures out.new, W.taken out.new) fault) }
{
    let Ok(failed) = write_fault(alloc, output) else {
        return Err(no_memory(alloc));
    };
    let Ok(mut room) = Vec::with_capacity(alloc, ROOM) else {
        return Err(no_memory(alloc));
    };
    let manifest = manifest_at(alloc, source, path)?;
    loaded_manifests_are_sound::<S>();
    let image = image_of(alloc, &manifest, OutOfDateRule::Specified);
    // The memory isn't freed, since the program ends soon.
    forget(manifest);
    let image = match image {
        Ok(image) => image,
        Err(fault) => return Err(fault),
    };
    match print_image(&image, &mut room, out) {
        Ok(()) => Ok(0),
        Err(_) => Err(failed),
    }
}
