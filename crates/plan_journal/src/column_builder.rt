//! Columns of events, which grow.

ghost use Rattle.std.specs.Prelude.{◌≡◌, ◌≤◌, ◌++◌, ◌∷◌, ◌+◌, ◌-◌, ℕ, [], OnErr, OnOk, length, take};
ghost use Rattle.plan_machine.specs.declared.event.Event.TheVariants.{Reply as Hear};
ghost use Rattle.plan_machine.specs.declared.event.Event.TheVariants as happens;
ghost use Rattle.plan_machine.specs.declared.event.reply.Reply.TheVariants.{Stamp};
ghost use Rattle.plan_machine.specs.LocalRuns.{steps_of};
ghost use Rattle.plan_machine.specs.Sweeping.{row_events, sweep_events};
ghost use Rattle.plan_journal.specs.Columns.{event_of, stamps_in, wholes_in};
ghost use Rattle.plan_journal.specs.Drafts.{HasRoom, HasRowRoom};

use crate::events::Events;
use crate::kept_journal::KeptJournal;
use crate::sort::Sort;
use plan_machine::{Event, Reply};
use std::alloc::{AllocError, Global};
use std::marker::Model;

/// The events of a run so far, in columns. Room can be reserved before events come. A contract sees their list, and how
/// many more fit in that are known by their sort and their edge. An event takes five bytes, one that brings a stamp
/// eight more, and one with another reply, or a skip, 24 more.
#[derive(Drop)]
pub(crate) struct ColumnBuilder {
    sorts: Vec<Sort>,
    edges: Vec<u32>,
    stamps: Vec<u64>,
    wholes: Vec<Event>,
}

impl Model for ColumnBuilder {
    ghost use Rattle.std.specs.Prelude.{◌-◌, vec_capacity, vec_len};
    ghost use Rattle.plan_journal.specs.Columns.{Fit, events};
    ghost use Rattle.plan_journal.specs.Drafts.{Draft};

    ghost Value = { Draft };

    ghost view = { λ j. record { events = events j.sorts.items j.edges.items j.stamps.items j.wholes.items; sorts_left = vec_capacity j.sorts - vec_len j.sorts; edges_left = vec_capacity j.edges - vec_len j.edges; stamps_left = vec_capacity j.stamps - vec_len j.stamps } };

    ghost invariant = { λ j. Fit j.sorts.items j.edges.items j.stamps.items j.wholes.items };
}

impl ColumnBuilder {
    /// Creates columns without events.
    pub(crate) fn new(alloc: Global) -> ColumnBuilder
        ensures { result.events ≡ [] }
    {
        ColumnBuilder {
            sorts: Vec::new(alloc),
            edges: Vec::new(alloc),
            stamps: Vec::new(alloc),
            wholes: Vec::new(alloc),
        }
    }

    /// Returns the number of events.
    pub(crate) fn len(&self) -> usize
        ensures { result ≡ length self.now.events }
    {
        self.sorts.len()
    }

    /// Returns the events, to be read from the first on.
    pub(crate) fn events(&self) -> Events<'_>
        ensures { result ≡ self.now.events }
    {
        Events::of(&self.sorts, &self.edges, &self.stamps, &self.wholes)
    }

    /// Returns the journal of these events.
    pub(crate) fn finish(self) -> KeptJournal
        ensures { result ≡ self.events }
    {
        let ColumnBuilder {
            sorts,
            edges,
            stamps,
            wholes,
        } = self;
        KeptJournal::of(sorts, edges, stamps, wholes)
    }

    /// Makes room for `count` events. One of them may bring a stamp. The others are known by their sort and their edge.
    ///
    /// # Errors
    /// `AllocError` if memory runs out. Then no event is lost.
    pub(crate) fn reserve(&mut self, count: usize) -> Result<(), AllocError>
        ensures same { self.new.events ≡ self.old.events }
        ensures room { OnOk result (HasRoom count self.new) }
        ensures stamp { OnOk result (1 ≤ self.new.stamps_left) }
    {
        self.sorts.reserve(count)?;
        self.edges.reserve(count)?;
        self.stamps.reserve(1)?;
        Ok(())
    }

    /// Makes room for `stamps` stamps, each followed by a step.
    ///
    /// # Errors
    /// `AllocError` if memory runs out. Then no event is lost.
    pub(crate) fn reserve_row(&mut self, stamps: usize) -> Result<(), AllocError>
        ensures same { self.new.events ≡ self.old.events }
        ensures room { OnOk result (HasRowRoom stamps self.new) }
    {
        let Some(events) = stamps.checked_mul(2) else {
            return Err(AllocError);
        };
        self.sorts.reserve(events)?;
        self.edges.reserve(events)?;
        self.stamps.reserve(stamps)?;
        Ok(())
    }

    /// Appends a step of an edge. It takes no memory.
    pub(crate) fn push_step(&mut self, edge: u32)
        requires { HasRoom 1 self.old }
        ensures events { self.new.events ≡ self.old.events ++ happens.Step edge ∷ [] }
        ensures room { (n : ℕ) → HasRoom (n + 1) self.old → HasRoom n self.new }
        ensures stamps { self.new.stamps_left ≡ self.old.stamps_left }
    {
        self.sorts.push_reserved(Sort::Step);
        self.edges.push_reserved(edge);
    }

    /// Appends a stamp that an edge received. It takes no memory.
    pub(crate) fn push_stamp_within(&mut self, edge: u32, stamp: u64)
        requires room { HasRoom 1 self.old }
        requires stamp { 1 ≤ self.old.stamps_left }
        ensures events { self.new.events ≡ self.old.events ++ Hear edge (Stamp stamp) ∷ [] }
        ensures room { (n : ℕ) → HasRoom (n + 1) self.old → HasRoom n self.new }
        ensures stamps { (n : ℕ) → n + 1 ≤ self.old.stamps_left → n ≤ self.new.stamps_left }
    {
        self.sorts.push_reserved(Sort::Stamp);
        self.edges.push_reserved(edge);
        self.stamps.push_reserved(stamp);
    }

    /// Appends the same event as this one. It shares what its reply brings.
    ///
    /// # Errors
    /// `AllocError` if memory runs out. Then nothing changed.
    pub(crate) fn push(&mut self, event: &Event) -> Result<(), AllocError>
        ensures ok { OnOk result (self.new.events ≡ self.old.events ++ event.now ∷ []) }
        ensures err { OnErr result (self.new.events ≡ self.old.events) }
        ensures room { (n : ℕ) → HasRoom (n + 1) self.old → OnOk result (HasRoom n self.new) }
    {
        match event {
            Event::Start(edge) => self.push_short(Sort::Start, *edge),
            Event::Stop(edge) => self.push_short(Sort::Stop, *edge),
            Event::Step(edge) => self.push_short(Sort::Step, *edge),
            Event::Skip(edge, wait) => self.push_whole(*edge, Event::Skip(*edge, *wait)),
            Event::Reply(edge, reply) => self.push_heard(*edge, reply),
        }
    }

    /// Removes the event that came last, if there is one.
    pub(crate) fn remove_last(&mut self)
        ensures { self.new.events ≡ take (length self.old.events - 1) self.old.events }
    {
        let Some(sort) = self.sorts.pop() else {
            return;
        };
        self.edges.truncate(self.sorts.len());
        let stamps = self.stamps.len() - sort.stamps();
        self.stamps.truncate(stamps);
        let wholes = self.wholes.len() - sort.wholes();
        self.wholes.truncate(wholes);
    }

    /// Appends an event that is known by its sort and its edge.
    fn push_short(&mut self, sort: Sort, edge: u32) -> Result<(), AllocError>
        requires stamps { stamps_in sort ≡ 0 }
        requires wholes { wholes_in sort ≡ 0 }
        ensures ok { OnOk result (self.new.events ≡ self.old.events ++ event_of sort edge 0 (happens.Start 0) ∷ []) }
        ensures err { OnErr result (self.new.events ≡ self.old.events) }
        ensures room { (n : ℕ) → HasRoom (n + 1) self.old → OnOk result (HasRoom n self.new) }
    {
        self.sorts.reserve(1)?;
        self.edges.reserve(1)?;
        self.sorts.push_reserved(sort);
        self.edges.push_reserved(edge);
        Ok(())
    }

    /// Appends a stamp that an edge received.
    fn push_stamp(&mut self, edge: u32, stamp: u64) -> Result<(), AllocError>
        ensures ok { OnOk result (self.new.events ≡ self.old.events ++ Hear edge (Stamp stamp) ∷ []) }
        ensures err { OnErr result (self.new.events ≡ self.old.events) }
        ensures room { (n : ℕ) → HasRoom (n + 1) self.old → OnOk result (HasRoom n self.new) }
    {
        self.sorts.reserve(1)?;
        self.edges.reserve(1)?;
        self.stamps.reserve(1)?;
        self.sorts.push_reserved(Sort::Stamp);
        self.edges.push_reserved(edge);
        self.stamps.push_reserved(stamp);
        Ok(())
    }

    /// Appends an event of an edge that is kept whole.
    fn push_whole(&mut self, edge: u32, event: Event) -> Result<(), AllocError>
        ensures ok { OnOk result (self.new.events ≡ self.old.events ++ event ∷ []) }
        ensures err { OnErr result (self.new.events ≡ self.old.events) }
        ensures room { (n : ℕ) → HasRoom (n + 1) self.old → OnOk result (HasRoom n self.new) }
    {
        self.sorts.reserve(1)?;
        self.edges.reserve(1)?;
        self.wholes.reserve(1)?;
        self.sorts.push_reserved(Sort::Whole);
        self.edges.push_reserved(edge);
        self.wholes.push_reserved(event);
        Ok(())
    }

    /// Appends the same reply as this one, which an edge received.
    ///
    /// # Errors
    /// `AllocError` if memory runs out. Then nothing changed.
    pub(crate) fn push_heard(&mut self, edge: u32, reply: &Reply) -> Result<(), AllocError>
        ensures ok { OnOk result (self.new.events ≡ self.old.events ++ Hear edge reply.now ∷ []) }
        ensures err { OnErr result (self.new.events ≡ self.old.events) }
        ensures room { (n : ℕ) → HasRoom (n + 1) self.old → OnOk result (HasRoom n self.new) }
    {
        match reply {
            Reply::Stamp(stamp) => self.push_stamp(edge, *stamp),
            reply => {
                let kept = reply.copy_for_journal(*self.wholes.allocator())?;
                self.push_whole(edge, Event::Reply(edge, kept))
            }
        }
    }
}
