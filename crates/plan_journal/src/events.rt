//! The events of a journal that are left to be read.

ghost use Rattle.std.specs.Prelude.{◌≡◌, ◌≤◌, ◌<◌, ◌∷◌, [], IfSome, get_or, length};
ghost use Rattle.std.specs.Option.{IfNone};
ghost use Rattle.plan_machine.specs.declared.event.Event.TheVariants.{Start};
ghost use Rattle.plan_journal.specs.Columns as columns;
ghost use Rattle.plan_journal.specs.Columns.{Fit};

use crate::read_event::ReadEvent;
use crate::sort::Sort;
use plan_machine::{Event, Reply};
use std::marker::Model;

/// The events of a kept journal that are left to be read. A contract sees their list.
#[derive(Drop)]
pub struct Events<'a> {
    sorts: &'a [Sort],
    edges: &'a [u32],
    stamps: &'a [u64],
    wholes: &'a [Event],
}

impl<'a> Model for Events<'a> {
    ghost use Rattle.std.specs.Prelude.{List};
    ghost use Rattle.plan_machine.specs.declared.event.Event.{Event as Happening};
    ghost use Rattle.plan_journal.specs.Columns.{Fit, events};

    ghost Value = { List Happening };

    ghost view = { λ e. events e.sorts.now e.edges.now e.stamps.now e.wholes.now };

    ghost invariant = { λ e. Fit e.sorts.now e.edges.now e.stamps.now e.wholes.now };
}

impl<'a> Events<'a> {
    /// Returns the events of these columns.
    pub(crate) fn of(
        sorts: &'a [Sort],
        edges: &'a [u32],
        stamps: &'a [u64],
        wholes: &'a [Event],
    ) -> Events<'a>
        requires { Fit sorts.now edges.now stamps.now wholes.now }
        ensures { result ≡ columns.events sorts.now edges.now stamps.now wholes.now }
    {
        Events {
            sorts,
            edges,
            stamps,
            wholes,
        }
    }

    /// Returns the first event, and the others. It takes no memory: an event that the journal keeps whole is borrowed.
    pub fn split_first(self) -> Option<(ReadEvent<'a>, Events<'a>)>
        ensures some { IfSome result (λ x. self.entry ≡ x.0 ∷ x.1) }
        ensures none { IfNone result (self.entry ≡ []) }
    {
        let Events {
            sorts,
            edges,
            stamps,
            wholes,
        } = self;
        let Some(sort) = sorts.first() else {
            return None;
        };
        let event = first_event(*sort, edges, stamps, wholes);
        let behind = Events {
            sorts: &sorts[1..],
            edges: &edges[1..],
            stamps: &stamps[sort.stamps()..],
            wholes: &wholes[sort.wholes()..],
        };
        Some((event, behind))
    }
}

/// Returns the event of this sort that is first in the columns.
fn first_event<'a>(
    sort: Sort,
    edges: &'a [u32],
    stamps: &'a [u64],
    wholes: &'a [Event],
) -> ReadEvent<'a>
    requires edge { 0 < length edges.now }
    requires stamp { columns.stamps_in sort ≤ length stamps.now }
    requires whole { columns.wholes_in sort ≤ length wholes.now }
    ensures { result ≡ columns.event_of sort (get_or edges.now 0 0) (get_or stamps.now 0 0) (get_or wholes.now 0 (Start 0)) }
{
    match sort {
        Sort::Start => ReadEvent::of_columns(Event::Start(edges[0])),
        Sort::Stop => ReadEvent::of_columns(Event::Stop(edges[0])),
        Sort::Step => ReadEvent::of_columns(Event::Step(edges[0])),
        Sort::Stamp => ReadEvent::of_columns(Event::Reply(edges[0], Reply::Stamp(stamps[0]))),
        Sort::Whole => ReadEvent::of_whole(&wholes[0]),
    }
}
