//! The paths of a recalled entry that are in a set.

ghost use Rattle.std.specs.Prelude.{IfOk, IfSome, OnOk};
ghost use Rattle.plan_lanes.specs.Recalled.{AddsWanted, AreAmong, paths_of};

use plan_machine::Reply;
use plan_text::{PathFilter, RowList};
use plan_verify::PathList;
use std::alloc::{AllocError, Global};

/// Appends a path if it may be in a set.
fn push_wanted(found: &mut RowList<u8>, path: &[u8], wanted: &PathFilter) -> Result<(), AllocError>
    ensures { OnOk result (AddsWanted wanted.now path.now found.old found.new) }
{
    if wanted.may_have(path) {
        found.push(path)?;
    }
    Ok(())
}

/// Returns those of these paths that may be in a set, in their order. The set may say too often that it has a path.
///
/// # Errors
/// `AllocError` if memory runs out.
#[tactic(auto, using(crate::proofs::RecallingLemmas::none_among, crate::proofs::RecallingLemmas::next_among, crate::proofs::RecallingLemmas::all_among))]
pub fn paths_among(
    alloc: Global,
    paths: &PathList,
    wanted: &PathFilter,
) -> Result<RowList<u8>, AllocError>
    ensures { IfOk result (λ found. AreAmong wanted.now paths.now found) }
{
    let mut found = RowList::new(alloc);
    for number in 0..paths.len() {
        push_wanted(&mut found, paths.path(number), wanted)?;
    }
    Ok(found)
}

/// Returns the paths of the entry in a reply that may be in a set. Returns None if the reply is no entry, or one
/// without paths.
pub(crate) fn replied_among(
    alloc: Global,
    reply: &Reply,
    wanted: &PathFilter,
) -> Result<Option<RowList<u8>>, AllocError>
    ensures { IfOk result (λ found. IfSome found (λ paths. AreAmong wanted.now (paths_of reply.now) paths)) }
{
    match reply {
        Reply::Entry(recorded) if recorded.paths().len() > 0 => {
            let paths = paths_among(alloc, recorded.paths(), wanted)?;
            Ok(Some(paths))
        }
        _ => Ok(None),
    }
}
