//! Equality of causes, outcomes, values and slots.

ghost use Rattle.std.specs.Prelude.{◌≡◌, ◌<◌, Some, bytes_eq, length, slice_get};
ghost use Rattle.plan_machine.specs.Sameness.{same_at, same_cause, same_ended, same_ends, same_flag, same_outcome, same_paths, same_slot, same_slots, same_status, same_statuses, same_value};
ghost use Rattle.plan_machine.specs.State.{outcome_at};

use crate::edge::stack::{Slot, Stored};
use crate::edge::status::Status;
use crate::event::Outcome;
use crate::run::state::State;
use plan_verify::{Cause, PathList};

/// Returns whether two causes are the same, with their numbers.
fn is_same_cause(first: Cause, second: Cause) -> bool
    ensures { result ≡ same_cause first second }
{
    match (first, second) {
        (Cause::MissingInput(file), Cause::MissingInput(other)) => file == other,
        (Cause::StatFault, Cause::StatFault) => true,
        (Cause::Exit(status), Cause::Exit(other)) => status == other,
        (Cause::Signal, Cause::Signal) => true,
        (Cause::NotStarted, Cause::NotStarted) => true,
        (Cause::DepfileFault, Cause::DepfileFault) => true,
        (Cause::DepfileMalformed(number, at), Cause::DepfileMalformed(other, place)) => {
            number == other && at == place
        }
        (Cause::RecordFault, Cause::RecordFault) => true,
        (Cause::TextTooLong, Cause::TextTooLong) => true,
        _ => false,
    }
}

/// Returns whether two outcomes are the same. Skipped edges may name different edges.
fn is_same_outcome(first: Outcome, second: Outcome) -> bool
    ensures { result ≡ same_outcome first second }
{
    match (first, second) {
        (Outcome::Clean, Outcome::Clean) => true,
        (Outcome::Ran, Outcome::Ran) => true,
        (Outcome::Failed(cause), Outcome::Failed(other)) => is_same_cause(cause, other),
        (Outcome::Skipped(_), Outcome::Skipped(_)) => true,
        (Outcome::Stopped, Outcome::Stopped) => true,
        (Outcome::NotWanted, Outcome::NotWanted) => true,
        _ => false,
    }
}

/// Returns whether two edges have the same outcome. Returns false if one of them has none.
fn is_same_status(first: &Status, second: &Status) -> bool
    ensures { result ≡ same_status first.now second.now }
{
    match (first.outcome(), second.outcome()) {
        (Some(outcome), Some(other)) => is_same_outcome(outcome, other),
        _ => false,
    }
}

/// Returns whether the edges with this number have the same outcome.
fn is_same_status_at(first: &[Status], second: &[Status], edge: usize) -> bool
    requires first { edge < length first.now }
    requires second { edge < length second.now }
    ensures { result ≡ same_at same_status (slice_get first.now edge) (slice_get second.now edge) }
{
    is_same_status(&first[edge], &second[edge])
}

/// Returns whether all edges have outcomes, and the same ones.
#[tactic(auto, using(crate::proofs::PointwiseLemmas::pointwise_on, crate::proofs::PointwiseLemmas::pointwise_off, crate::proofs::PointwiseLemmas::pointwise_done, crate::proofs::PointwiseLemmas::pointwise_long))]
fn are_same_statuses(first: &[Status], second: &[Status]) -> bool
    ensures { result ≡ same_statuses first.now second.now }
{
    if first.len() != second.len() {
        return false;
    }
    for edge in 0..first.len() {
        if !is_same_status_at(first, second, edge) {
            return false;
        }
    }
    true
}

/// Returns whether the paths with this number are the same.
#[tactic(auto, using(crate::proofs::PointwiseLemmas::texts_at))]
fn is_same_path_at(first: &PathList, second: &PathList, number: u32) -> bool
    requires first { number < length first.now }
    requires second { number < length second.now }
    ensures { result ≡ same_at bytes_eq (slice_get first.now number) (slice_get second.now number) }
{
    first.path(number) == second.path(number)
}

/// Returns whether two lists have the same paths, in the same order.
#[tactic(auto, using(crate::proofs::PointwiseLemmas::pointwise_on, crate::proofs::PointwiseLemmas::pointwise_off, crate::proofs::PointwiseLemmas::pointwise_done, crate::proofs::PointwiseLemmas::pointwise_long))]
fn are_same_paths(first: &PathList, second: &PathList) -> bool
    ensures { result ≡ same_paths first.now second.now }
{
    if first.len() != second.len() {
        return false;
    }
    for number in 0..first.len() {
        if !is_same_path_at(first, second, number) {
            return false;
        }
    }
    true
}

/// Returns whether two flags are the same.
fn is_same_flag(first: bool, second: bool) -> bool
    ensures { result ≡ same_flag first second }
{
    if first { second } else { !second }
}

/// Returns whether two slots have the same value, or are both unset.
fn is_same_slot(first: &Slot, second: &Slot) -> bool
    ensures { result ≡ same_slot first.now second.now }
{
    match (first.stored(), second.stored()) {
        (Stored::Unset, Stored::Unset) => true,
        (Stored::Stamp(stamp), Stored::Stamp(other)) => *stamp == *other,
        (Stored::Flag(flag), Stored::Flag(other)) => is_same_flag(*flag, *other),
        (Stored::Text(text), Stored::Text(other)) => text.as_slice() == other.as_slice(),
        (Stored::Paths(swept, paths), Stored::Paths(asked, others)) => {
            *swept == *asked && are_same_paths(paths, others)
        }
        (Stored::Swept(paths), Stored::Swept(others)) => are_same_paths(paths, others),
        _ => false,
    }
}

/// Returns whether the slots with this number have the same value, or are both unset.
fn is_same_slot_at(first: &[Slot], second: &[Slot], slot: usize) -> bool
    requires first { slot < length first.now }
    requires second { slot < length second.now }
    ensures { result ≡ same_at same_slot (slice_get first.now slot) (slice_get second.now slot) }
{
    is_same_slot(&first[slot], &second[slot])
}

/// Returns whether all slots have the same values.
#[tactic(auto, using(crate::proofs::PointwiseLemmas::pointwise_on, crate::proofs::PointwiseLemmas::pointwise_off, crate::proofs::PointwiseLemmas::pointwise_done, crate::proofs::PointwiseLemmas::pointwise_long))]
fn are_same_slots(first: &[Slot], second: &[Slot]) -> bool
    ensures { result ≡ same_slots first.now second.now }
{
    if first.len() != second.len() {
        return false;
    }
    for slot in 0..first.len() {
        if !is_same_slot_at(first, second, slot) {
            return false;
        }
    }
    true
}

/// Returns whether two states have ended, with the same outcomes and the same slots.
pub(crate) fn are_same_ends(first: &State, second: &State) -> bool
    ensures { result ≡ same_ends first.now.run_state.now second.now.run_state.now }
{
    are_same_statuses(&first.machine.edges, &second.machine.edges)
        && are_same_slots(&first.machine.slots, &second.machine.slots)
}
