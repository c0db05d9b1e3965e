//! Journals whose events are kept.

ghost use Rattle.std.specs.Prelude.{◌≡◌, length};
ghost use Rattle.plan_journal.specs.Columns as columns;
ghost use Rattle.plan_journal.specs.Columns.{Fit};

use crate::events::Events;
use crate::sort::Sort;
use plan_machine::Event;
use std::marker::Model;

/// The events of a run in their order, which a contract sees as their list. An event takes five bytes, one that brings
/// a stamp eight more, and one with another reply, or a skip, 24 more.
#[derive(Drop)]
pub struct KeptJournal {
    sorts: Vec<Sort>,
    edges: Vec<u32>,
    stamps: Vec<u64>,
    wholes: Vec<Event>,
}

impl Model for KeptJournal {
    ghost use Rattle.std.specs.Prelude.{List};
    ghost use Rattle.plan_machine.specs.declared.event.Event.{Event as Happening};
    ghost use Rattle.plan_journal.specs.Columns.{Fit, events};

    ghost Value = { List Happening };

    ghost view = { λ j. events j.sorts.items j.edges.items j.stamps.items j.wholes.items };

    ghost invariant = { λ j. Fit j.sorts.items j.edges.items j.stamps.items j.wholes.items };
}

impl KeptJournal {
    /// Returns the journal of these columns.
    pub(crate) fn of(
        sorts: Vec<Sort>,
        edges: Vec<u32>,
        stamps: Vec<u64>,
        wholes: Vec<Event>,
    ) -> KeptJournal
        requires { Fit sorts.items edges.items stamps.items wholes.items }
        ensures { result ≡ columns.events sorts.items edges.items stamps.items wholes.items }
    {
        KeptJournal {
            sorts,
            edges,
            stamps,
            wholes,
        }
    }

    /// Returns the number of events.
    pub fn len(&self) -> usize
        ensures { result ≡ length self.now }
    {
        self.sorts.len()
    }

    /// Returns the events, to be read from the first on.
    pub fn events(&self) -> Events<'_>
        ensures { result ≡ self.now }
    {
        Events::of(&self.sorts, &self.edges, &self.stamps, &self.wholes)
    }
}
