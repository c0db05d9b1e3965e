//! Comparison of the ends of two runs.

ghost use Rattle.std.specs.Prelude.{◌≡◌, ◌≤◌, [], IfErr, IfOk, length};
ghost use Rattle.plan_machine.specs.Ends.{ComparesEnd, EndsIn, IsEndFault, NeverTellsApart, TellsEnds};
ghost use Rattle.plan_machine.specs.Replaying.{IsReplayFault};

use crate::event::Event;
use crate::laws::interleavings_agree;
use crate::run::refused::Refused;
use crate::run::replaying::replay;
use crate::run::sameness::are_same_ends;
use crate::run::state::{Options, State};
use plan_verify::Verified;
use std::alloc::Global;

/// Returns the state that the events reach from the opening state for the image's defaults.
fn end_of(
    alloc: Global,
    image: &Verified,
    options: Options,
    events: &[Event],
) -> Result<State, (usize, Refused)>
    ensures ends { IfOk result (λ s. EndsIn image.now options events.now s.run_state.now) }
    ensures refused { IfErr result (λ e. IsReplayFault image.now options [] events.now e.0 e.1) }
    ensures within { IfErr result (λ e. e.0 ≤ length events.now) }
{
    match replay(alloc, image, options, &[], events) {
        Ok((state, _marks)) => Ok(state),
        Err(refused) => Err(refused),
    }
}

/// Returns whether the state that the events reach and this one have both ended, with the same outcomes and the same
/// slots.
fn ends_like(
    alloc: Global,
    image: &Verified,
    options: Options,
    end: &State,
    events: &[Event],
) -> Result<bool, (usize, Refused)>
    ensures compares { IfOk result (λ same. ComparesEnd image.now options end.now.run_state.now events.now same) }
    ensures refused { IfErr result (λ e. IsReplayFault image.now options [] events.now e.0 e.1) }
    ensures within { IfErr result (λ e. e.0 ≤ length events.now) }
{
    match end_of(alloc, image, options, events) {
        Ok(other) => Ok(are_same_ends(end, &other)),
        Err(refused) => Err(refused),
    }
}

/// Returns whether two lists of events lead to states that have both ended, with the same outcomes and the same
/// slots. Each list begins at the opening state for the image's defaults. Two outcomes `Skipped` are the same
/// even if they name different edges. If there is no failure limit and each edge got the same replies in both
/// lists, the result is true whenever both have ended.
///
/// # Errors
///
/// An error holds the index of the event that was refused, counted through the first list and then the second.
/// The events before it were applied. `NotEnabled` if the event isn't enabled; `Memory` if memory runs out.
pub fn same_end(
    alloc: Global,
    image: &Verified,
    options: Options,
    first: &[Event],
    second: &[Event],
) -> Result<bool, (usize, Refused)>
    ensures tells { IfOk result (λ same. TellsEnds image.now options first.now second.now same) }
    ensures never_apart { IfOk result (λ same. NeverTellsApart image.now options first.now second.now same) }
    ensures refused { IfErr result (λ e. IsEndFault image.now options first.now second.now e.0 e.1) }
{
    interleavings_agree();
    let _tables = image.image();
    let end = match end_of(alloc, image, options, first) {
        Ok(state) => state,
        Err(refused) => return Err(refused),
    };
    match ends_like(alloc, image, options, &end, second) {
        Ok(same) => Ok(same),
        Err((at, refused)) => Err((first.len() + at, refused)),
    }
}
