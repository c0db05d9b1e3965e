//! The events that can happen next: those that need no reply, and the questions that await one.

ghost use Rattle.std.specs.Prelude.{◌≡◌, ◌⊎◌, ℕ, IfNone, IfSome, IsSome, Some, option_map, slice_get, true};
ghost use Rattle.plan_verify.specs.Turn.{Local};
ghost use Rattle.plan_machine.specs.Applying.{CanTurn};
ghost use Rattle.plan_machine.specs.Kept.{AreKept, IsStateOf, phase_in};
ghost use Rattle.plan_machine.specs.NeverStuck.{Awaits, is_own};
ghost use Rattle.plan_machine.specs.Picking.{IsEnabled, StepsFirst, event_of, is_at_take, is_start};
ghost use Rattle.plan_machine.specs.Requests.{Asks, AsksNothing, asked_at, asks_by, shown};
ghost use Rattle.plan_machine.specs.State.{Active, has_ended};

use crate::event::{Event, Request};
use crate::laws::turn_laws;
use crate::run::state::State;
use plan_image::Image;
use plan_schedule::{Phase, Pick};
use plan_verify::Verified;

/// Converts a pick of the schedule to an event.
fn event_of(pick: Pick) -> Event
    ensures { result ≡ event_of pick }
{
    match pick {
        Pick::Start(edge) => Event::Start(edge),
        Pick::Skip(edge, wait) => Event::Skip(edge, wait),
        Pick::Stop(edge) => Event::Stop(edge),
        Pick::Step(edge) => Event::Step(edge),
    }
}

impl State {
    /// Returns an enabled event that needs no reply. It is a step if one is enabled, and else a start, a skip
    /// or a stop. Returns None if and only if no such event is enabled. Then the run has ended, or an edge
    /// awaits a reply. It takes no memory and constant time.
    pub fn pick(&self, image: &Verified) -> Option<Event>
        requires { IsStateOf image.now self.now }
        ensures enabled { IfSome result (λ event. IsEnabled image.now self.now.run_state event) }
        ensures own { IfSome result (λ event. is_own event ≡ true) }
        ensures steps { IfSome result (λ event. StepsFirst image.now self.now.run_state event) }
        ensures none { IfNone result ((event : Event) → is_own event ≡ true → IsEnabled image.now self.now.run_state event → ⊥) }
        ensures waits { IfNone result ((has_ended self.now.run_state.now ≡ true) ⊎ Awaits self.now.run_state.now) }
    {
        turn_laws();
        let _tables = image.image();
        let jobs = self.machine.jobs();
        let keep = self.machine.keep();
        match self.schedule.pick(&self.plan, jobs, keep) {
            Some(pick) => Some(event_of(pick)),
            None => None,
        }
    }

    /// Returns the start of an edge, if no edge can make a step but those that are about to take a job token, and the
    /// failure limit hasn't been reached. So edges can start before another one runs its command. It takes no memory
    /// and constant time.
    pub fn pick_start(&self, image: &Verified) -> Option<Event>
        requires { IsStateOf image.now self.now }
        ensures enabled { IfSome result (λ event. IsEnabled image.now self.now.run_state event) }
        ensures own { IfSome result (λ event. is_own event ≡ true) }
        ensures start { IfSome result (λ event. is_start event ≡ true) }
    {
        turn_laws();
        let _tables = image.image();
        let _jobs = self.machine.jobs();
        let keep = self.machine.keep();
        match self.schedule.pick_start(&self.plan, keep) {
            Some(start) => Some(event_of(start)),
            None => None,
        }
    }

    /// Checks whether an edge is about to take a job token. Returns false if there is no such edge.
    pub fn is_at_take(&self, image: &Verified, edge: u32) -> bool
        requires { IsStateOf image.now self.now }
        ensures { result ≡ is_at_take (phase_in image.now edge (slice_get self.now.run_state.now.edges edge)) }
    {
        let tables = image.image();
        matches!(self.phase(tables, edge), Phase::AtTake(_))
    }

    /// Returns the question of an edge if and only if it awaits a reply. It takes no memory.
    pub fn request<'a>(&'a self, image: &'a Verified, edge: u32) -> Option<Request<'a>>
        requires { IsStateOf image.now self.now }
        ensures asked { option_map shown result ≡ asked_at image.now self.now.run_state.now edge }
        ensures some { (l : Local) → slice_get self.now.run_state.now.edges edge ≡ Some (Active l) → l.asked ≡ true → IsSome result }
    {
        turn_laws();
        let tables = image.image();
        self.machine.awaited_request(tables, edge)
    }

    /// Returns the question that an event would ask, given the status of its edge.
    fn asked_by<'a>(&'a self, image: &'a Image, event: &Event) -> Option<Request<'a>>
        requires kept { AreKept image.now self.now.run_state.now self.now.plan self.now.schedule }
        requires turns { (e : ℕ) (l : Local) → slice_get self.now.run_state.now.edges e ≡ Some (Active l) → CanTurn image.now self.now.run_state.now.slots e l }
        ensures { option_map shown result ≡ asks_by image.now self.now.run_state.limits self.now.run_state.now event.now }
    {
        match event {
            Event::Step(edge) => {
                if !self.can_step(image, *edge) {
                    return None;
                }
                self.machine.step_request(image, *edge)
            }
            _ => None,
        }
    }

    /// Returns the question that an event would ask. Returns None if the event isn't enabled or asks nothing.
    /// Only steps ask. It takes no memory.
    pub fn asks<'a>(&'a self, image: &'a Verified, event: &Event) -> Option<Request<'a>>
        requires { IsStateOf image.now self.now }
        ensures asks { IfSome result (λ r. Asks image.now self.now.run_state event.now (shown r)) }
        ensures none { IfNone result (AsksNothing image.now self.now.run_state event.now) }
    {
        turn_laws();
        let tables = image.image();
        self.asked_by(tables, event)
    }
}
