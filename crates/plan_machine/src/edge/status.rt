//! The status of an edge. One that has begun and has no values needs no stack.

ghost use Rattle.std.specs.Prelude.{◌≡◌, ◌<◌, ◌^◌, [], IfOk, IfSome, IsSome, OnErr, Some, length, option_map};
ghost use Rattle.plan_image.specs.Code.{code};
ghost use Rattle.plan_verify.specs.Turn.{Local, begun, heard, turn};
ghost use Rattle.plan_machine.specs.Depfile.{depfile};
ghost use Rattle.plan_machine.specs.Applying.{CanTurn, HasStepped, is_active, is_unbegun, may_stop_by};
ghost use Rattle.plan_machine.specs.Hearing.{CanHear, HasAnswered};
ghost use Rattle.plan_machine.specs.Kept.{phase_of};
ghost use Rattle.plan_machine.specs.Requests.{asked_by, shown, step_asks};
ghost use Rattle.plan_machine.specs.Runs.{at_first};
ghost use Rattle.plan_machine.specs.State.{Active, Over, is_unsuccessful, outcome_at};
ghost use Rattle.plan_machine.specs.Step.{answer_of};
ghost use Rattle.plan_machine.specs.Total.{is_wanted};
ghost use Rattle.plan_machine.specs.Working.{Works};
ghost use Rattle.plan_machine.specs.Places.{at_take};
ghost use Rattle.plan_machine.specs.ParkedLocal.{parked_local};
ghost use Rattle.plan_machine.specs.Turned.{IsTurned};

use crate::edge::active_edge::ActiveEdge;
use crate::edge::stack::{Slot, Stack};
use crate::edge::turns::{Heard, Turned};
use crate::event::reply::Reply;
use crate::event::{Outcome, Request};
use plan_image::{Image, Instr};
use plan_schedule::Phase;
use std::alloc::{AllocError, Global};
use std::marker::Model;

/// The state of an edge, as `Status` stores it.
#[derive(Drop)]
pub(crate) enum EdgeState {
    /// It hasn't begun.
    Unbegun,
    /// It has begun, has no values and awaits no reply.
    Parked(Parked),
    /// It has begun and not ended, and has a stack.
    Active(ActiveEdge),
    /// It has an outcome.
    Over(Outcome),
}

/// The status of an edge. A contract sees it as the definitions do.
#[derive(Drop)]
pub(crate) struct Status {
    pub(crate) stage: EdgeState,
}

impl Model for Status {
    ghost use Rattle.plan_machine.specs.State.{Status as Stands};
    ghost use Rattle.plan_machine.specs.Statuses.{status_of};

    ghost Value = { Stands };

    ghost view = { λ s. status_of s.stage };
}

impl Status {
    /// Returns the status of an edge at the start.
    pub(crate) fn at_first(is_wanted: bool) -> Status
        ensures { result ≡ at_first is_wanted }
    {
        Status {
            stage: if is_wanted {
                EdgeState::Unbegun
            } else {
                EdgeState::Over(Outcome::NotWanted)
            },
        }
    }

    /// Returns the status of an edge that has just begun.
    pub(crate) fn active() -> Status
        ensures { result ≡ Active begun }
    {
        Status {
            stage: EdgeState::Parked(Parked::begin()),
        }
    }

    /// Returns the status of an edge that has this outcome.
    pub(crate) fn with_outcome(outcome: Outcome) -> Status
        ensures { result ≡ Over outcome }
    {
        Status {
            stage: EdgeState::Over(outcome),
        }
    }

    /// Returns the stack, if there is one.
    pub(crate) fn into_stack(self) -> Option<Stack> {
        match self.stage {
            EdgeState::Active(active_edge) => Some(active_edge.stack),
            _ => None,
        }
    }

    /// Returns the outcome. Returns None if there is none yet.
    pub(crate) fn outcome(&self) -> Option<Outcome>
        ensures { result ≡ outcome_at (Some self.now) }
    {
        match &self.stage {
            EdgeState::Over(outcome) => Some(*outcome),
            _ => None,
        }
    }

    /// Returns whether the edge hasn't begun.
    pub(crate) fn is_unbegun(&self) -> bool
        ensures { result ≡ is_unbegun self.now }
    {
        match &self.stage {
            EdgeState::Unbegun => true,
            _ => false,
        }
    }

    /// Returns whether the edge has begun and not ended.
    pub(crate) fn is_active(&self) -> bool
        ensures { result ≡ is_active self.now }
    {
        match &self.stage {
            EdgeState::Parked(_) | EdgeState::Active(_) => true,
            _ => false,
        }
    }

    /// Returns whether the edge failed, was skipped or was stopped.
    pub(crate) fn is_unsuccessful(&self) -> bool
        ensures { result ≡ is_unsuccessful self.now }
    {
        match &self.stage {
            EdgeState::Over(Outcome::Failed(_) | Outcome::Skipped(_) | Outcome::Stopped) => true,
            _ => false,
        }
    }

    /// Returns whether a target needs the edge.
    pub(crate) fn is_wanted(&self) -> bool
        ensures { result ≡ is_wanted self.now }
    {
        match &self.stage {
            EdgeState::Over(Outcome::NotWanted) => false,
            _ => true,
        }
    }

    /// Returns whether the command of a running edge has run.
    pub(crate) fn has_run(&self) -> bool
        ensures { (l : Local) → self.now ≡ Active l → result ≡ l.ran }
    {
        match &self.stage {
            EdgeState::Parked(parked) => parked.ran,
            EdgeState::Active(active_edge) => active_edge.ran,
            _ => false,
        }
    }

    /// Returns whether the edge may be stopped when the failure limit has been reached.
    pub(crate) fn is_before_run(&self, image: &Image, edge: u32) -> bool
        ensures { result ≡ may_stop_by image.now edge (Some self.now) }
    {
        match &self.stage {
            EdgeState::Unbegun => true,
            EdgeState::Parked(parked) => parked.is_at_take(image, edge),
            EdgeState::Active(active_edge) => active_edge.is_at_take(image, edge),
            _ => false,
        }
    }

    /// Returns the phase of the edge, which the schedule stores.
    pub(crate) fn phase(&self, image: &Image, edge: u32) -> Phase
        ensures { result ≡ phase_of image.now edge self.now }
    {
        match &self.stage {
            EdgeState::Unbegun => Phase::Unbegun,
            EdgeState::Parked(parked) => parked.phase(image, edge),
            EdgeState::Active(active_edge) => active_edge.phase(image, edge),
            EdgeState::Over(outcome) => outcome.phase(),
        }
    }

    /// Frees the stack, if the edge awaits no reply and has no values.
    pub(crate) fn rest(&mut self)
        ensures { self.new ≡ self.old }
    {
        match &self.stage {
            EdgeState::Active(active_edge) => match active_edge.rest() {
                Some(parked) => {
                    self.stage = EdgeState::Parked(parked);
                }
                None => {}
            },
            _ => {}
        }
    }

    /// Executes one step of the edge, which has begun and not ended.
    pub(crate) fn step(
        &mut self,
        alloc: Global,
        image: &Image,
        edge: u32,
        slots: &mut Vec<Slot>,
    ) -> Result<Turned, AllocError>
        requires short { length (code image.now edge) < 2 ^ 32 }
        requires turns { (l : Local) × (self.old ≡ Active l) × CanTurn image.now slots.old.items edge l }
        ensures ok { IfOk result (λ r. HasStepped image.now edge r self.old self.new slots.old.items slots.new.items) }
        ensures err { OnErr result ((self.new ≡ self.old) × (slots.new.items ≡ slots.old.items)) }
    {
        match &mut self.stage {
            EdgeState::Parked(parked) => {
                let (active_edge, turned) = parked.step(alloc, image, edge, slots)?;
                self.stage = EdgeState::Active(active_edge);
                Ok(turned)
            }
            EdgeState::Active(active_edge) => active_edge.step(alloc, image, edge, slots),
            _ => unreachable!(),
        }
    }

    /// Gives a reply to the edge, which has begun and not ended.
    #[tactic(auto, using(crate::proofs::HearingLemmas::rests_on))]
    pub(crate) fn hear(
        &mut self,
        alloc: Global,
        image: &Image,
        edge: u32,
        reply: Reply,
    ) -> Result<Heard, AllocError>
        requires short { length (code image.now edge) < 2 ^ 32 }
        requires hears { (l : Local) × (self.old ≡ Active l) × CanHear image.now edge (answer_of reply) l }
        ensures ok { IfOk result (λ r. HasAnswered image.now edge (answer_of reply) r self.old self.new) }
        ensures fits { OnErr result ((l : Local) → self.old ≡ Active l → IsSome (heard depfile image.now edge l (answer_of reply))) }
        ensures err { OnErr result (self.new ≡ self.old) }
    {
        match &mut self.stage {
            EdgeState::Parked(_) => Ok(Heard::Unfit),
            EdgeState::Active(active_edge) => active_edge.hear(alloc, image, edge, reply),
            _ => unreachable!(),
        }
    }

    /// Returns the question of the edge if it awaits a reply. Returns None otherwise.
    pub(crate) fn awaited_request<'a>(
        &'a self,
        image: &'a Image,
        edge: u32,
        slots: &[Slot],
    ) -> Option<Request<'a>>
        requires { (l : Local) → self.now ≡ Active l → Works (turn image.now edge slots.now l) }
        ensures { option_map shown result ≡ asked_by image.now edge slots.now (Some self.now) }
    {
        match &self.stage {
            EdgeState::Active(active_edge) => {
                if !active_edge.asked {
                    return None;
                }
                active_edge.request(image, edge, slots)
            }
            _ => None,
        }
    }

    /// Returns the question of the edge's next step if it has begun and not ended. Returns None if it asks
    /// nothing.
    pub(crate) fn step_request<'a>(
        &'a self,
        image: &'a Image,
        edge: u32,
        slots: &[Slot],
    ) -> Option<Request<'a>>
        requires { (l : Local) → self.now ≡ Active l → Works (turn image.now edge slots.now l) }
        ensures { option_map shown result ≡ step_asks image.now edge slots.now (Some self.now) }
    {
        match &self.stage {
            EdgeState::Parked(parked) => parked.request(image, edge, slots),
            EdgeState::Active(active_edge) => active_edge.request(image, edge, slots),
            _ => None,
        }
    }
}

/// An edge that has begun, has no values and awaits no reply: the place of its next instruction, whether it
/// holds a job token, and whether its command ran. It takes 8 bytes and no heap memory.
#[derive(Clone, Copy)]
pub(crate) struct Parked {
    pub(crate) place: u32,
    pub(crate) holding: bool,
    pub(crate) ran: bool,
}

impl Parked {
    /// Creates an edge at its first place.
    pub(crate) fn begin() -> Parked
        ensures { parked_local result ≡ begun }
    {
        Parked {
            place: 0,
            holding: false,
            ran: false,
        }
    }

    /// Returns the same edge with an empty stack.
    pub(crate) fn wake(self, stack: Stack) -> ActiveEdge
        requires { stack ≡ [] }
        ensures { result ≡ parked_local self }
    {
        ActiveEdge {
            place: self.place,
            holding: self.holding,
            ran: self.ran,
            asked: false,
            stack,
        }
    }

    /// Returns whether its next instruction takes a job token.
    pub(crate) fn is_at_take(self, image: &Image, edge: u32) -> bool
        ensures { result ≡ at_take image.now edge (parked_local self) }
    {
        matches!(image.instr(edge, self.place), Some(Instr::Take))
    }

    /// Returns its phase, which the schedule stores.
    pub(crate) fn phase(self, image: &Image, edge: u32) -> Phase
        ensures { result ≡ phase_of image.now edge (Active (parked_local self)) }
    {
        if self.is_at_take(image, edge) {
            return Phase::AtTake(self.holding);
        }
        Phase::Runnable(self.holding)
    }

    /// Executes one step with a new stack, and returns the edge after it.
    pub(crate) fn step(
        self,
        alloc: Global,
        image: &Image,
        edge: u32,
        slots: &mut Vec<Slot>,
    ) -> Result<(ActiveEdge, Turned), AllocError>
        requires short { length (code image.now edge) < 2 ^ 32 }
        requires place { self.place < length (code image.now edge) }
        requires table { length slots.old.items ≡ length image.now.slots }
        requires works { Works (turn image.now edge slots.old.items (parked_local self)) }
        ensures ok { IfOk result (λ r. IsTurned r.1 (parked_local self) r.0 slots.old.items slots.new.items (turn image.now edge slots.old.items (parked_local self))) }
        ensures err { OnErr result (slots.new.items ≡ slots.old.items) }
    {
        let mut active_edge = self.wake(Stack::new(alloc)?);
        let turned = active_edge.step(alloc, image, edge, slots)?;
        Ok((active_edge, turned))
    }
}
