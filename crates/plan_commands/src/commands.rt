//! The command `commands`.

ghost use Rattle.std.specs.Prelude.{◌≡◌, ◌⊎◌, IfOk, IfErr, OnOk};
ghost use Rattle.plan_scope.specs.Sources.{SameFiles};
ghost use Rattle.plan_commands.specs.Commands.{WritesAll, HasGraph, IsRefused, IsMeant, LacksGraph, FailsToWrite, loading_by};

use plan_graph::graph;
use plan_printing::{PlanFault, no_memory, output_fault, printed_fault, printed_graph_fault};
use plan_scope::{Manifest, Source, evaluate, load, write_commands};
use plan_text::Sink;
use std::alloc::Global;
use std::mem::forget;

/// Reads the manifest at a path, and evaluates it.
pub fn manifest_at<S: Source>(
    alloc: Global,
    source: &mut S,
    path: &[u8],
) -> Result<Manifest, PlanFault>
    ensures meant { let loads = loading_by (S.gives source.old) (S.fails source.old) (S.failures source.old) (S.failures source.new) in
        IfOk result (λ manifest. IsMeant loads path.now manifest) }
    ensures read { OnOk result (S.failures source.new ≡ S.failures source.old) }
    ensures same { SameFiles (S.gives source.new) (S.fails source.new) (S.gives source.old) (S.fails source.old) }
    ensures refused { let loads = loading_by (S.gives source.old) (S.fails source.old) (S.failures source.old) (S.failures source.new) in
        IfErr result (λ fault. IsRefused loads path.now fault) }
{
    let tree = match load(alloc, source, path) {
        Ok(tree) => tree,
        Err(fault) => return Err(printed_fault(alloc, &fault)),
    };
    match evaluate(alloc, &tree) {
        Ok(manifest) => Ok(manifest),
        Err(fault) => Err(printed_fault(alloc, &fault)),
    }
}

/// Refuses a manifest that has no graph.
fn check_graph(alloc: Global, manifest: &Manifest) -> Result<(), PlanFault>
    ensures graph { OnOk result (HasGraph manifest.now) }
    ensures refused { IfErr result (λ fault. LacksGraph manifest.now fault) }
{
    match graph(alloc, manifest) {
        Ok(_) => Ok(()),
        Err(fault) => Err(printed_graph_fault(alloc, manifest, &fault)),
    }
}

/// Writes the command of each edge of the manifest at a path, except phony edges, in order, with a newline after each.
/// Returns the status 0. Then no read and no write failed.
///
/// # Errors
/// - The manifest, or a file that it includes, is missing or refused, or the manifest has no graph: the fault has the
///   cause and the place. Nothing is written.
/// - 133 ` -`: a write failed.
/// - 131 or the number of a lower layer: memory ran out. Nothing is written.
pub fn do_commands<S: Source, W: Sink>(
    alloc: Global,
    source: &mut S,
    path: &[u8],
    out: &mut W,
) -> Result<u8, PlanFault>
    ensures done { let loads = loading_by (S.gives source.old) (S.fails source.old) (S.failures source.old) (S.failures source.new) in
        IfOk result (λ status. (status ≡ 0) × WritesAll loads path.now (W.failures out.old, W.taken out.old) (W.failures out.new, W.taken out.new)) }
    ensures read { OnOk result (S.failures source.new ≡ S.failures source.old) }
    ensures refused { let loads = loading_by (S.gives source.old) (S.fails source.old) (S.failures source.old) (S.failures source.new) in
        IfErr result (λ fault. ((out.new ≡ out.old) × IsRefused loads path.now fault)
        ⊎ FailsToWrite loads path.now (W.failures out.old, W.taken out.old) (W.failures out.new, W.taken out.new) fault) }
{
    let manifest = manifest_at(alloc, source, path)?;
    if let Err(fault) = check_graph(alloc, &manifest) {
        forget(manifest);
        return Err(fault);
    }
    let Ok(failed) = output_fault(alloc) else {
        forget(manifest);
        return Err(no_memory(alloc));
    };
    let written = write_commands(&manifest, out);
    // The memory isn't freed, since the program ends soon.
    forget(manifest);
    match written {
        Ok(()) => Ok(0),
        Err(_) => Err(failed),
    }
}
