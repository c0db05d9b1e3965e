//! The layouts of all edges of a manifest.

ghost use Rattle.std.specs.Prelude.{◌≡◌, ◌<◌, ◌≤◌, None, IfErr, IfOk, length, replicate, zero};
ghost use Rattle.plan_scope.specs.Sound.{IsSound};
ghost use Rattle.plan_graph.specs.Graph.{IsGraph, max_edges};
ghost use Rattle.plan_image.specs.declared.maxima.TheConstants.{MAX_SLOTS};
ghost use Rattle.plan_compile.specs.Assembling.{layouts_in};
ghost use Rattle.plan_compile.specs.Builds.{builds};
ghost use Rattle.plan_compile.specs.Images.{layouts};
ghost use Rattle.plan_compile.specs.OutputTable.{filled};
ghost use Rattle.plan_compile.specs.Slots.{all_made, newest_from, slot_count};
ghost use Rattle.plan_compile.specs.declared.fault.CompileFault.TheVariants as fault;

use crate::baseline::OutOfDateRule;
use crate::build::Build;
use crate::collecting::collect_names;
use crate::compiling::{Named, name_all};
use crate::edge_layout::layout_of;
use crate::edges::numbers_at;
use crate::fault::CompileFault;
use crate::image_laws::manifests_are_sound;
use crate::layout::EdgeLayout;
use crate::numbers::Numbers;
use crate::slots::{Plan, plan_slots, slot_count};
use plan_graph::Graph;
use plan_scope::Manifest;
use std::alloc::{AllocError, Global};

/// Returns the layout of each of these edges.
fn layouts_of<'a>(
    alloc: Global,
    plan: &Plan,
    numbers: &[Numbers],
    builds: &[Build<'a>],
) -> Result<Vec<EdgeLayout>, AllocError>
    requires long { length plan.now.newest.items ≡ length builds.now }
    requires named { length numbers.now ≡ length builds.now }
    ensures { IfOk result (λ ls. ls.items ≡ layouts_in plan.now.table.items numbers.now plan.now.newest.items builds.now) }
{
    let mut layouts = Vec::with_capacity(alloc, builds.len())?;
    for number in 0..builds.len() {
        let build = &builds[number];
        let named = numbers_at(numbers, number);
        let layout = layout_of(alloc, named, &plan.table, plan.newest[number], build)?;
        layouts.push(layout)?;
    }
    Ok(layouts)
}

/// Returns the layouts of edges with their numbers, given the number of files.
fn lay_out<'a>(
    alloc: Global,
    files: usize,
    named: &Named<'a>,
) -> Result<Vec<EdgeLayout>, CompileFault>
    requires named { length named.now.names.numbers.items ≡ length named.now.builds.items }
    requires few { length named.now.builds.items ≤ max_edges }
    ensures layouts { let xs = named.now.builds.items in
        IfOk result (λ ls. ls.items ≡ layouts_in (filled (replicate files None) (all_made zero xs)) named.now.names.numbers.items (newest_from zero xs) xs) }
    ensures refused { IfErr result (λ f. f ≡ fault.Limit → MAX_SLOTS < slot_count named.now.builds.items) }
{
    let Some(count) = slot_count(&named.builds) else {
        return Err(CompileFault::Limit);
    };
    let plan = plan_slots(alloc, files, count, &named.builds)?;
    let layouts = layouts_of(alloc, &plan, &named.names.numbers, &named.builds)?;
    Ok(layouts)
}

/// Returns the layout of each edge of a manifest with its graph, for an out-of-date rule, in the order of the
/// manifest. `compile` generates the codes of the image from these layouts.
///
/// # Errors
///
/// - `Limit` only if the edges have more slots than an image may have.
/// - `Memory` if memory runs out.
pub fn layouts<'a>(
    alloc: Global,
    manifest: &Manifest,
    graph: &Graph<'a>,
    rule: OutOfDateRule,
) -> Result<Vec<EdgeLayout>, CompileFault>
    requires sound { IsSound manifest.now }
    requires graph { IsGraph manifest.now graph.now }
    ensures layouts { IfOk result (λ ls. ls.items ≡ layouts (builds rule manifest.now graph.now).edges) }
    ensures refused { IfErr result (λ f. f ≡ fault.Limit → MAX_SLOTS < slot_count (builds rule manifest.now graph.now).edges) }
{
    manifests_are_sound();
    let names = collect_names(alloc, manifest);
    let named = name_all(alloc, manifest, graph, names, rule)?;
    lay_out(alloc, graph.files.len(), &named)
}
