//! The targets that the command line names, and the edges that make them.

ghost use Rattle.std.specs.Prelude.{◌≡◌, ◌⊎◌, Err, IfErr, IfOk, IfSome, Ok, map, ℕ, List, Some, OnOk, if◌then◌else◌};
ghost use Rattle.plan_printing.specs.Faults as defined;
ghost use Rattle.plan_commands.specs.MakerMaps.{AreMakers, maker_in};
ghost use Rattle.plan_commands.specs.Targets as meant;
ghost use Rattle.std.specs.List.{list_any};
ghost use Rattle.plan_image.specs.Makers.{first_maker, is_named};

use indexmap::IndexMap;
use plan_image::{Image, Parts, edge_of};
use plan_printing::{PlanFault, no_memory, unknown_target};
use plan_text::{TextFault, canonical};
use std::alloc::{AllocError, Global};

/// Returns the edge that makes the file with this name. Uses the map of all makers if there is one.
fn target_of(
    alloc: Global,
    image: &Image,
    makers: &Option<IndexMap<&[u8], u32>>,
    name: &[u8],
) -> Result<u32, PlanFault>
    requires { IfSome makers.now (λ m. AreMakers image.now 0 m) }
    ensures ok { IfOk result (λ edge. meant.target image.now name.now ≡ Ok edge) }
    ensures refused { IfErr result (λ fault. (fault ≡ defined.no_memory) ⊎ (meant.target image.now name.now ≡ Err fault)) }
{
    let path = match canonical(alloc, name) {
        Ok(path) => path,
        Err(TextFault::Memory) => return Err(no_memory(alloc)),
        Err(_) => return Err(unknown_target(alloc, name)),
    };
    match maker_of(image, makers, &path) {
        Some(edge) => Ok(edge),
        None => Err(unknown_target(alloc, name)),
    }
}

/// Returns the edges that make the files with these names, in order, by the map of all makers if there is one.
#[tactic(auto, using(crate::proofs::TargetLemmas::one_refused))]
fn edges_of(
    alloc: Global,
    image: &Image,
    makers: &Option<IndexMap<&[u8], u32>>,
    names: &[&[u8]],
) -> Result<Vec<u32>, PlanFault>
    requires { IfSome makers.now (λ m. AreMakers image.now 0 m) }
    ensures ok { IfOk result (λ edges. meant.targets image.now (map (λ n. n.now) names.now) ≡ Ok edges.items) }
    ensures refused { IfErr result (λ fault. (fault ≡ defined.no_memory) ⊎ (meant.targets image.now (map (λ n. n.now) names.now) ≡ Err fault)) }
{
    let Ok(mut edges) = Vec::with_capacity(alloc, names.len()) else {
        return Err(no_memory(alloc));
    };
    for name in names {
        match target_of(alloc, image, makers, name) {
            Ok(edge) => {
                if edges.push(edge).is_err() {
                    return Err(no_memory(alloc));
                }
            }
            Err(fault) => return Err(fault),
        }
    }
    Ok(edges)
}

/// Returns the edges that make the files with these names, in order. Names are compared in canonical form.
///
/// # Errors
/// - 132, with the name as it was given: no edge makes the file, or the name is empty. The first such name is reported.
/// - 131: memory ran out.
pub fn targets_of(alloc: Global, image: &Image, names: &[&[u8]]) -> Result<Vec<u32>, PlanFault>
    ensures ok { IfOk result (λ edges. meant.targets image.now (map (λ n. n.now) names.now) ≡ Ok edges.items) }
    ensures refused { IfErr result (λ fault. (fault ≡ defined.no_memory) ⊎ (meant.targets image.now (map (λ n. n.now) names.now) ≡ Err fault)) }
{
    let makers = match makers_for(alloc, image, names.len()) {
        Ok(makers) => makers,
        Err(_) => return Err(no_memory(alloc)),
    };
    let edges = edges_of(alloc, image, &makers, names);
    drop(makers);
    edges
}

/// The smallest number of paths for which a map of all outputs is built.
const MANY: usize = 8;

/// Records an edge as the maker of files. Replaces the maker that a file had.
fn put_files<'a>(
    makers: &mut IndexMap<&'a [u8], u32>,
    parts: &'a Parts,
    files: &[u32],
    edge: u32,
) -> Result<(), AllocError>
    ensures { OnOk result ((path : List ℕ) → maker_in makers.new path ≡ (if list_any (λ f. is_named parts.now path f) files.now then Some edge else maker_in makers.old path)) }
{
    for &file in files {
        match parts.files.get(file as usize) {
            Some(path) => {
                makers.insert(path, edge)?;
            }
            None => {}
        }
    }
    Ok(())
}

/// Returns a map from the path of each file to the least edge that makes it.
fn all_makers<'a>(alloc: Global, image: &'a Image) -> Result<IndexMap<&'a [u8], u32>, AllocError>
    ensures { IfOk result (λ makers. AreMakers image.now 0 makers) }
{
    let parts = image.parts();
    let mut makers = IndexMap::new(alloc);
    makers.reserve(parts.edges.len())?;
    for number in (0..parts.edges.len()).rev() {
        let edge = parts.edges.edge(number);
        put_files(&mut makers, parts, edge.outputs, number as u32)?;
    }
    Ok(makers)
}

/// Returns the map of all makers if the number of paths to look up is at least `MANY`, otherwise None.
pub(crate) fn makers_for<'a>(
    alloc: Global,
    image: &'a Image,
    paths: usize,
) -> Result<Option<IndexMap<&'a [u8], u32>>, AllocError>
    ensures { IfOk result (λ makers. IfSome makers (λ m. AreMakers image.now 0 m)) }
{
    if paths < MANY {
        return Ok(None);
    }
    let makers = all_makers(alloc, image)?;
    Ok(Some(makers))
}

/// Returns the least edge that has this path among its outputs. Uses the map of all makers if there is one.
pub(crate) fn maker_of(
    image: &Image,
    makers: &Option<IndexMap<&[u8], u32>>,
    path: &[u8],
) -> Option<u32>
    requires { IfSome makers.now (λ m. AreMakers image.now 0 m) }
    ensures { result ≡ first_maker image.now path.now 0 image.now.edges }
{
    match makers {
        Some(makers) => makers.get(path).copied(),
        None => edge_of(image, path),
    }
}
