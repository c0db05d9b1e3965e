//! The checks of an edge's tables, and of all edges together.

ghost use Rattle.std.specs.Prelude.{◌≡◌, length, nat_le, Some, slice_get};
ghost use Rattle.std.specs.List.{list_all, list_any};
ghost use Rattle.plan_image.specs.Columns.{lent};
ghost use Rattle.plan_image.specs.declared.image.Slot.{Slot};
ghost use Rattle.plan_verify.specs.Tables.{own_slots, slot_kind, is_outside};
ghost use Rattle.plan_verify.specs.Shape.{ranks_below, lacks_outputs, is_paths, table_refusal_of, image_refusal};

use crate::fault::Refusal;
use crate::place_checks::OwnSlots;
use plan_image::{EdgeRef, Parts};

/// Returns whether an edge is in the table and its rank is less than this one.
fn is_ranked_below(parts: &Parts, edge: u32, rank: u32) -> bool
    ensures { result ≡ ranks_below (slice_get parts.now.edges edge) rank }
{
    match parts.edges.rank(edge as usize) {
        Some(lesser) => lesser < rank,
        None => false,
    }
}

/// Returns whether all edges that are waited for are in the table and have lesser ranks.
fn are_ranked_below(parts: &Parts, waits: &[u32], rank: u32) -> bool
    ensures { result ≡ list_all (λ w. ranks_below (slice_get parts.now.edges w) rank) waits.now }
{
    waits.iter().all(|wait| is_ranked_below(parts, *wait, rank))
}

/// Returns whether a pool is outside the table.
fn is_pool_outside(parts: &Parts, pool: Option<u32>) -> bool
    ensures { result ≡ is_outside parts.now pool }
{
    match pool {
        Some(pool) => parts.pools.len() <= pool as usize,
        None => false,
    }
}

/// Returns whether there is no output, or one of them is outside the table.
fn has_bad_outputs(parts: &Parts, outputs: &[u32]) -> bool
    ensures { result ≡ lacks_outputs parts.now outputs.now }
{
    match outputs {
        [] => true,
        [_, ..] => has_file_outside(parts, outputs),
    }
}

/// Returns whether one of the files is outside the table.
fn has_file_outside(parts: &Parts, files: &[u32]) -> bool
    ensures { result ≡ list_any (λ f. nat_le (length parts.now.files) f) files.now }
{
    files.iter().any(|file| parts.files.len() <= *file as usize)
}

/// Returns the first check of an edge's tables that fails.
pub(crate) fn table_refusal(
    parts: &Parts,
    edge: u32,
    entry: EdgeRef<'_>,
    own: OwnSlots,
) -> Option<Refusal>
    requires own { own.has_paths ≡ list_any (λ s. is_paths (slot_kind parts.now s)) (own_slots parts.now edge) }
    ensures { result ≡ table_refusal_of parts.now edge (Some (lent entry.entry)) }
{
    let _ = edge;
    if !are_ranked_below(parts, entry.waits, entry.rank) {
        return Some(Refusal::BadWait);
    }
    if is_pool_outside(parts, entry.pool) {
        return Some(Refusal::BadPool);
    }
    if parts.texts.len() <= entry.label as usize {
        return Some(Refusal::BadText);
    }
    if has_bad_outputs(parts, entry.outputs) {
        return Some(Refusal::BadFile);
    }
    if own.has_paths {
        return Some(Refusal::PathsInSlot);
    }
    None
}

/// Returns whether one of the edges is outside the table.
fn has_outside(parts: &Parts, edges: &[u32]) -> bool
    ensures { result ≡ list_any (λ e. nat_le (length parts.now.edges) e) edges.now }
{
    edges.iter().any(|edge| parts.edges.len() <= *edge as usize)
}

/// Returns whether the owner of a slot is outside the table of edges.
fn has_owner_outside(parts: &Parts) -> bool
    ensures { result ≡ list_any (λ (s : Slot). nat_le (length parts.now.edges) s.owner) parts.now.slots }
{
    parts
        .slots
        .as_slice()
        .iter()
        .any(|slot| parts.edges.len() <= slot.owner as usize)
}

/// Returns the first check of all edges together that fails.
#[tactic(auto, unfolding(crate::specs::Shape::image_refusal))]
pub(crate) fn refusal_of_all(parts: &Parts) -> Option<Refusal>
    ensures { result ≡ image_refusal parts.now }
{
    if has_outside(parts, parts.defaults.as_slice()) {
        return Some(Refusal::BadWait);
    }
    if has_owner_outside(parts) {
        return Some(Refusal::BadSlot);
    }
    None
}
