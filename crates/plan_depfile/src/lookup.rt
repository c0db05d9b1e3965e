//! Searches for paths in slots.

ghost use Rattle.std.specs.Prelude.{◌≡◌, ◌≤◌, ◌<◌, ℕ, [], length, get_or, nat_eq, true, false};
ghost use Rattle.std.specs.Cmp.Lexicographic.{pointwise};
ghost use Rattle.std.specs.List.{list_any};
ghost use Rattle.plan_depfile.specs.PathSets.{hash_of, code_of, most_paths, IsVacant, IsPlace};

use crate::place::Place;
use plan_text::RowList;

/// Returns whether a slot refers to a path with this hash. The eight bits of the hash in the slot are compared
/// first.
#[tactic(auto, unfolding(crate::specs::PathSets::code_of))]
fn leads_to(paths: &RowList<u8>, code: u32, hash: u64, path: &[u8]) -> bool
    requires { hash ≡ hash_of path.now }
    ensures listed { result ≡ true → list_any (pointwise nat_eq path.now) paths.now ≡ true }
    ensures other { result ≡ false → (number : ℕ) → number < most_paths → number < length paths.now → code ≡ code_of number (hash_of path.now) → pointwise nat_eq path.now (get_or paths.now number []) ≡ false }
{
    if (code / 16_777_216) as u64 != hash % 256 {
        return false;
    }
    let number = (code % 16_777_216).saturating_sub(1) as usize;
    if number >= paths.len() {
        return false;
    }
    path == paths.row(number)
}

/// Searches for a path from one slot on.
pub fn find(paths: &RowList<u8>, slots: &[u32], start: usize, hash: u64, path: &[u8]) -> Place
    requires within { start ≤ length slots.now }
    requires few { length paths.now ≤ most_paths }
    requires hash { hash ≡ hash_of path.now }
    ensures { IsPlace paths.now slots.now start path.now result }
{
    for at in start..slots.len() {
        let code = slots[at];
        if code == 0 {
            return Place::Vacant(at);
        }
        if leads_to(paths, code, hash, path) {
            return Place::Listed;
        }
    }
    Place::Vacant(slots.len())
}

/// Returns the first empty slot from this one on. If there is none, returns the index after the last slot.
pub fn vacant(slots: &[u32], start: usize) -> usize
    requires { start ≤ length slots.now }
    ensures { IsVacant slots.now start result }
{
    for at in start..slots.len() {
        if slots[at] == 0 {
            return at;
        }
    }
    slots.len()
}
