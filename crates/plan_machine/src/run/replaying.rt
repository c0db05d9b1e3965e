//! Replays the events of a whole run.

ghost use Rattle.std.specs.Prelude.{◌≡◌, ◌≢◌, ◌+◌, ◌≤◌, [], IfErr, IfOk, OnOk, length};
ghost use Rattle.plan_verify.specs.Budget.{image_budget};
ghost use Rattle.plan_verify.specs.Turn.{Flaw};
ghost use Rattle.plan_machine.specs.declared.event.Event.{Event as Happening};
ghost use Rattle.plan_machine.specs.Depfile.{depfile};
ghost use Rattle.plan_machine.specs.InBudget.{all_bytes};
ghost use Rattle.plan_machine.specs.Kept.{IsStateOf};
ghost use Rattle.plan_machine.specs.Orderly.{IsOrderly};
ghost use Rattle.plan_machine.specs.Replaying.{IsReplayFault, IsStop, RunsTo, Went};
ghost use Rattle.plan_machine.specs.Runs.{Reached};
ghost use Rattle.plan_machine.specs.Step.{NotEnabled, Wrong, step};

use crate::event::{Event, Mark};
use crate::laws::{depfiles_are_frugal, marks_are_orderly, never_wrong, stays_in_budget};
use crate::run::refused::Refused;
use crate::run::state::{Options, State};
use plan_verify::Verified;
use std::alloc::Global;

/// Applies a copy of an event, and appends its mark.
fn go(
    state: &mut State,
    image: &Verified,
    event: &Event,
    marks: &mut Vec<Mark>,
) -> Result<(), Refused>
    requires { IsStateOf image.now state.old }
    ensures ok { OnOk result (Went image.now state.old.run_state event.now marks.old.items state.new.run_state marks.new.items) }
    ensures refused { IfErr result (λ r. r ≡ Refused.NotEnabled → step depfile image.now state.old.run_state.limits state.old.run_state.now event.now ≡ NotEnabled) }
    ensures inside { IfErr result (λ r. r ≢ Refused.BadTarget) }
    ensures state { IsStateOf image.now state.new }
{
    let event = event.copy()?;
    match state.apply(image, event) {
        Ok(mark) => {
            marks.push(mark)?;
            Ok(())
        }
        Err(refused) => Err(refused),
    }
}

/// Applies events in order, and appends their marks. An error holds the index of the event that was refused.
fn go_through(
    state: &mut State,
    image: &Verified,
    events: &[Event],
    marks: &mut Vec<Mark>,
) -> Result<(), (usize, Refused)>
    requires state { IsStateOf image.now state.old }
    requires marks { marks.old.items ≡ [] }
    ensures ok { OnOk result (RunsTo image.now state.old.run_state events.now marks.new.items state.new.run_state) }
    ensures err { IfErr result (λ e. IsStop image.now state.old.run_state.limits state.old.run_state.now events.now e.0 e.1) }
    ensures state { IsStateOf image.now state.new }
{
    for i in 0..events.len() {
        match go(state, image, &events[i], marks) {
            Ok(()) => {}
            Err(refused) => return Err((i, refused)),
        }
    }
    Ok(())
}

/// Returns the state that events reach from another state, and their marks.
fn replay_on(
    alloc: Global,
    image: &Verified,
    state: State,
    events: &[Event],
) -> Result<(State, Vec<Mark>), (usize, Refused)>
    requires { IsStateOf image.now state }
    ensures ok { IfOk result (λ x. RunsTo image.now state.run_state events.now x.1.items x.0.run_state) }
    ensures state { IfOk result (λ x. IsStateOf image.now x.0) }
    ensures err { IfErr result (λ e. IsStop image.now state.run_state.limits state.run_state.now events.now e.0 e.1) }
{
    let mut state = state;
    let mut marks = Vec::new(alloc);
    match go_through(&mut state, image, events, &mut marks) {
        Ok(()) => Ok((state, marks)),
        Err(refused) => Err(refused),
    }
}

/// Returns the state that events reach from the opening state for some targets, and their marks. No event of
/// the run went wrong, and none of that state can. The marks are orderly. The number of events is at most the
/// image's budget plus the number of dependency bytes in the replies.
///
/// # Errors
///
/// An error holds the index of the event that was refused, from 0. The events before it were applied.
/// `NotEnabled` if the event isn't enabled; `Memory` if memory runs out. If the image can't be opened, the
/// index is 0, and the fault is `BadTarget` if a target is no edge, or `Memory`.
pub fn replay(
    alloc: Global,
    image: &Verified,
    options: Options,
    targets: &[u32],
    events: &[Event],
) -> Result<(State, Vec<Mark>), (usize, Refused)>
    ensures reached { IfOk result (λ x. Reached depfile image.now options targets.now events.now x.1.items x.0.run_state.now) }
    ensures limits { IfOk result (λ x. x.0.run_state.limits ≡ options) }
    ensures state { IfOk result (λ x. IsStateOf image.now x.0) }
    ensures safe { IfOk result (λ x. (event : Happening) (flaw : Flaw) → step depfile image.now options x.0.run_state.now event ≢ Wrong flaw) }
    ensures orderly { IfOk result (λ x. IsOrderly image.now options x.1.items) }
    ensures bounded { OnOk result (length events.now ≤ image_budget image.now + all_bytes events.now) }
    ensures refused { IfErr result (λ e. IsReplayFault image.now options targets.now events.now e.0 e.1) }
{
    never_wrong();
    marks_are_orderly();
    stays_in_budget();
    depfiles_are_frugal();
    let _tables = image.image();
    match State::open(alloc, image, options, targets) {
        Ok(state) => replay_on(alloc, image, state, events),
        Err(refused) => Err((0, refused)),
    }
}
