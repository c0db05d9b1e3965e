//! Events that are read from a journal.

ghost use Rattle.std.specs.Prelude.{◌≡◌};

use plan_machine::Event;
use std::marker::Model;

/// The parts of an event that was read.
#[derive(Drop)]
enum Source<'a> {
    /// The whole event, which the journal keeps.
    Kept(&'a Event),
    /// The event that was built from its sort, its edge and its stamp.
    Made(Event),
}

/// An event that was read from a journal, which a contract sees as the event. It takes no memory: it is borrowed from
/// the journal, or built from a sort, an edge and a stamp.
#[derive(Drop)]
pub struct ReadEvent<'a> {
    source: Source<'a>,
}

impl<'a> Model for ReadEvent<'a> {
    ghost use Rattle.plan_machine.specs.declared.event.Event.{Event as Happening};
    ghost use Rattle.plan_journal.specs.ReadEvents.{event_in};

    ghost Value = { Happening };

    ghost view = { λ e. event_in e.source };
}

impl<'a> ReadEvent<'a> {
    /// Returns an event that the journal keeps whole.
    pub(crate) fn of_whole(event: &'a Event) -> ReadEvent<'a>
        ensures { result ≡ event.now }
    {
        ReadEvent {
            source: Source::Kept(event),
        }
    }

    /// Returns an event that was built from its columns.
    pub(crate) fn of_columns(event: Event) -> ReadEvent<'a>
        ensures { result ≡ event }
    {
        ReadEvent {
            source: Source::Made(event),
        }
    }

    /// Returns the event.
    pub fn event(&self) -> &Event
        ensures { result.now ≡ self.now }
    {
        match &self.source {
            Source::Kept(event) => event,
            Source::Made(event) => event,
        }
    }
}
