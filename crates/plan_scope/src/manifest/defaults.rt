//! Evaluates the targets of `default` statements.

ghost use Rattle.std.specs.Prelude.{◌≡◌, IfOk, map};
ghost use Rattle.plan_scope.specs.Scopes.{Name, Text};
ghost use Rattle.plan_scope.specs.Edges.{paths_of, target_at, targets_by};
ghost use Rattle.plan_scope.specs.Kept.{KeptEqLookup, kept};
ghost use Rattle.plan_scope.specs.Outcomes.{GivesItems};
ghost use Rattle.plan_scope.specs.ScopeNames.{names_in};

use crate::edge::paths::{canonical_path, list_has_empty, list_has_long};
use crate::fault::{Cause, StatementFault};
use crate::manifest::DefaultTarget;
use crate::scope::{Scope, expand_pieces};
use plan_text::{Items, PieceList};
use std::alloc::{AllocError, Global};

/// Expands the paths of targets by the names in `here`.
fn expand_targets<'a>(
    alloc: Global,
    here: Scope<'a>,
    paths: &'a [PieceList],
) -> Result<Items<Items<u8>>, AllocError>
    ensures { IfOk result (λ texts. (m : Name → Text) → KeptEqLookup (names_in here.entry) m → map kept texts ≡ map kept (paths_of m paths.now)) }
{
    let mut texts = Vec::with_capacity(alloc, paths.len())?;
    for path in paths {
        let text = expand_pieces(alloc, here, path.as_slice())?;
        texts.push(Items::new(text))?;
    }
    Ok(Items::new(texts))
}

/// Creates targets with the canonical forms of these paths.
fn targets_at(
    alloc: Global,
    edges_above: usize,
    paths: &[Items<u8>],
) -> Result<Vec<DefaultTarget>, AllocError>
    ensures { IfOk result (λ v. v.items ≡ map (target_at edges_above) paths.now) }
{
    let mut targets = Vec::with_capacity(alloc, paths.len())?;
    for path in paths {
        let path = canonical_path(alloc, path.as_slice())?;
        targets.push(DefaultTarget { path, edges_above })?;
    }
    Ok(targets)
}

/// Evaluates the targets of a `default` statement that has `edges_above` build lines above it.
///
/// # Errors
///
/// `EmptyPath` if an expanded path has no bytes, or else `PathTooLong` if one is too long. `Memory` if memory runs out.
pub fn targets<'a>(
    alloc: Global,
    edges_above: usize,
    here: Scope<'a>,
    targets: &'a [PieceList],
) -> Result<Vec<DefaultTarget>, StatementFault>
    ensures { (h : Name → Text) → KeptEqLookup (names_in here.entry) h → GivesItems result (targets_by edges_above (paths_of h targets.now)) }
{
    let paths = expand_targets(alloc, here, targets)?;
    if list_has_empty(paths.as_slice()) {
        return Err(StatementFault::Refused(Cause::EmptyPath));
    }
    if list_has_long(paths.as_slice()) {
        return Err(StatementFault::Refused(Cause::PathTooLong));
    }
    Ok(targets_at(alloc, edges_above, paths.as_slice())?)
}
