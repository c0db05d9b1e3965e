//! Journals.

ghost use Rattle.std.specs.Prelude.{◌≡◌, length};

use plan_history::History;
use plan_machine::Event;
use std::marker::Model;

/// The events of a run in their order, which a contract sees as their list. A program sees only how many there are.
/// `KeptJournal` has the events, if they are kept.
#[derive(Drop)]
pub struct Journal {
    count: usize,
    history: History<Event>,
}

impl Model for Journal {
    ghost use Rattle.std.specs.Prelude.{◌≡◌, List, length};
    ghost use Rattle.plan_machine.specs.declared.event.Event.{Event as Happening};

    ghost Value = { List Happening };

    ghost view = { λ j. j.history.items };

    ghost invariant = { λ j. j.count ≡ length j.history.items };
}

impl Journal {
    /// Returns the journal of these events. There are `count` events.
    pub(crate) fn of(count: usize, history: History<Event>) -> Journal
        requires { count ≡ length history.items }
        ensures { result ≡ history.items }
    {
        Journal { count, history }
    }

    /// Returns the number of events.
    pub fn len(&self) -> usize
        ensures { result ≡ length self.now }
    {
        self.count
    }
}
