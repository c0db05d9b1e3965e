//! Journals that are being built.

ghost use Rattle.std.specs.Prelude.{◌≡◌, ◌≤◌, ◌++◌, ◌∷◌, ◌+◌, ◌-◌, ℕ, [], IfOk, IfSome, None, OnErr, OnOk, Some, if◌then◌else◌, is_some, length, take};
ghost use Rattle.plan_machine.specs.declared.event.Event.TheVariants.{Reply as Hear};
ghost use Rattle.plan_machine.specs.declared.event.Event.TheVariants as happens;
ghost use Rattle.plan_machine.specs.declared.event.reply.Reply.TheVariants.{Stamp};
ghost use Rattle.plan_machine.specs.Agreement as agreement;
ghost use Rattle.plan_machine.specs.LocalRuns.{steps_of};
ghost use Rattle.plan_machine.specs.Sweeping.{row_events, sweep_events};
ghost use Rattle.plan_journal.specs.Drafts.{HasRoom, HasRowRoom};

use crate::column_builder::ColumnBuilder;
use crate::edge_replies::EdgeReplies;
use crate::journal::Journal;
use crate::keeping::Keeping;
use crate::kept_journal::KeptJournal;
use plan_history::History;
use plan_machine::{Event, Reply};
use std::alloc::{AllocError, Global};
use std::marker::{Model, PhantomData};

/// What a program has of the events of a journal that is being built.
#[derive(Drop)]
enum Form {
    /// The events, in columns.
    Kept(ColumnBuilder),
    /// Their number.
    Counted(usize),
}

/// The events of a run so far. Room for events can be reserved before they come. A contract sees their list, and how
/// many more fit in that are known by their sort and their edge. If `K` says so, the events are kept in columns.
/// Otherwise they are only counted.
#[derive(Drop)]
pub struct JournalBuilder<K: Keeping> {
    alloc: Global,
    form: Form,
    replies: EdgeReplies,
    history: History<Event>,
    keeping: PhantomData<K>,
}

impl<K: Keeping> Model for JournalBuilder<K> {
    ghost use Rattle.plan_journal.specs.Drafts.{Draft};
    ghost use Rattle.plan_journal.specs.EdgeReplies.{AreKnown};
    ghost use Rattle.plan_journal.specs.Forms.{IsForm, draft};

    ghost Value = { Draft };

    ghost view = { λ j. draft j.form j.history.items };

    ghost invariant = { λ j. IsForm K.keeps j.form j.history.items × AreKnown j.replies j.history.items };
}

impl<K: Keeping> JournalBuilder<K> {
    /// Creates a journal without events.
    pub fn new(alloc: Global) -> JournalBuilder<K>
        ensures { result.events ≡ [] }
    {
        let form = if K::keeps() {
            Form::Kept(ColumnBuilder::new(alloc))
        } else {
            Form::Counted(0)
        };
        let replies = if K::observes() {
            EdgeReplies::Known(Vec::new(alloc))
        } else {
            EdgeReplies::Unknown
        };
        JournalBuilder {
            alloc,
            form,
            replies,
            history: History::new(),
            keeping: PhantomData,
        }
    }

    /// Returns the number of events.
    pub fn len(&self) -> usize
        ensures { result ≡ length self.now.events }
    {
        match &self.form {
            Form::Kept(columns) => columns.len(),
            Form::Counted(count) => *count,
        }
    }

    /// Returns the replies that an edge has received, in their order. Returns None if `K` doesn't keep them.
    ///
    /// # Errors
    /// Memory ran out, now or when a reply was appended, or an event was removed.
    pub fn replies_to(&self, edge: u32) -> Result<Option<Vec<Reply>>, AllocError>
        ensures kept { IfOk result (λ o. is_some o ≡ K.observes) }
        ensures replies { IfOk result (λ o. IfSome o (λ v. v.items ≡ agreement.replies_to edge self.now.events)) }
    {
        if K::observes() {
            Ok(Some(self.replies.of_edge(self.alloc, edge)?))
        } else {
            Ok(None)
        }
    }

    /// Returns the journal of these events, and the events themselves if journals are kept.
    pub fn finish(self) -> (Journal, Option<KeptJournal>)
        ensures journal { result.0 ≡ self.events }
        ensures kept { result.1 ≡ (if K.keeps then Some self.events else None) }
    {
        let JournalBuilder { form, history, .. } = self;
        match form {
            Form::Kept(columns) => {
                let count = columns.len();
                (Journal::of(count, history), Some(columns.finish()))
            }
            Form::Counted(count) => (Journal::of(count, history), None),
        }
    }

    /// Makes room for `count` events. One of them may bring a stamp. The others are known by their sort and their edge.
    ///
    /// # Errors
    /// Memory ran out. Then no event is lost.
    pub fn reserve(&mut self, count: usize) -> Result<(), AllocError>
        ensures same { self.new.events ≡ self.old.events }
        ensures room { OnOk result (HasRoom count self.new) }
        ensures stamp { OnOk result (1 ≤ self.new.stamps_left) }
    {
        match &mut self.form {
            Form::Kept(columns) => columns.reserve(count),
            Form::Counted(counted) => match counted.checked_add(count) {
                Some(_) => Ok(()),
                None => Err(AllocError),
            },
        }
    }

    /// Makes room for `stamps` stamps, each followed by a step.
    ///
    /// # Errors
    /// Memory ran out. Then no event is lost.
    pub fn reserve_row(&mut self, stamps: usize) -> Result<(), AllocError>
        ensures same { self.new.events ≡ self.old.events }
        ensures room { OnOk result (HasRowRoom stamps self.new) }
    {
        let Some(events) = stamps.checked_mul(2) else {
            return Err(AllocError);
        };
        match &mut self.form {
            Form::Kept(columns) => columns.reserve_row(stamps),
            Form::Counted(counted) => match counted.checked_add(events) {
                Some(_) => Ok(()),
                None => Err(AllocError),
            },
        }
    }

    /// Appends a step of an edge. It takes no memory.
    fn push_step(&mut self, edge: u32)
        requires { HasRoom 1 self.old }
        ensures events { self.new.events ≡ self.old.events ++ happens.Step edge ∷ [] }
        ensures room { (n : ℕ) → HasRoom (n + 1) self.old → HasRoom n self.new }
        ensures stamps { self.new.stamps_left ≡ self.old.stamps_left }
    {
        match &mut self.form {
            Form::Kept(columns) => columns.push_step(edge),
            Form::Counted(count) => *count += 1,
        }
        let step = Event::Step(edge);
        self.replies.push_event(self.alloc, &step);
        self.history = self.history.and(&step);
    }

    /// Appends `count` steps of an edge. It takes no memory.
    pub fn push_steps(&mut self, edge: u32, count: u32)
        requires { HasRoom count self.old }
        ensures { self.new.events ≡ self.old.events ++ steps_of edge count }
    {
        for _turn in 0..count {
            self.push_step(edge);
        }
    }

    /// Appends the stamps that an edge received for paths that it sweeps one after another, and after each stamp the
    /// step that asks for the next path. The events take no memory. If memory for the replies of the edge runs out,
    /// `replies_to` fails from here on.
    pub fn push_row(&mut self, edge: u32, stamps: &[u64])
        requires { HasRowRoom (length stamps.now) self.old }
        ensures { self.new.events ≡ self.old.events ++ row_events edge stamps.now }
    {
        for stamp in stamps {
            self.push_swept(edge, *stamp);
        }
    }

    /// Appends the stamp that an edge received for a path that it sweeps, and the step that asks for the next path.
    /// The events take no memory.
    fn push_swept(&mut self, edge: u32, stamp: u64)
        requires room { HasRoom 2 self.old }
        requires stamp { 1 ≤ self.old.stamps_left }
        ensures events { self.new.events ≡ self.old.events ++ sweep_events edge stamp }
        ensures room { (n : ℕ) → HasRowRoom (n + 1) self.old → HasRowRoom n self.new }
    {
        self.push_stamp(edge, stamp);
        self.push_step(edge);
    }

    /// Appends a stamp that an edge received. The event takes no memory.
    fn push_stamp(&mut self, edge: u32, stamp: u64)
        requires room { HasRoom 1 self.old }
        requires stamp { 1 ≤ self.old.stamps_left }
        ensures events { self.new.events ≡ self.old.events ++ Hear edge (Stamp stamp) ∷ [] }
        ensures room { (n : ℕ) → HasRoom (n + 1) self.old → HasRoom n self.new }
        ensures stamps { (n : ℕ) → n + 1 ≤ self.old.stamps_left → n ≤ self.new.stamps_left }
    {
        match &mut self.form {
            Form::Kept(columns) => columns.push_stamp_within(edge, stamp),
            Form::Counted(count) => *count += 1,
        }
        let reply = Reply::Stamp(stamp);
        self.replies.push(self.alloc, edge, &reply);
        self.history = self.history.and(&Event::Reply(edge, reply));
    }

    /// Appends the same event as this one. It shares what its reply brings.
    ///
    /// # Errors
    /// Memory ran out. Then nothing changed.
    pub fn push(&mut self, event: &Event) -> Result<(), AllocError>
        ensures ok { OnOk result (self.new.events ≡ self.old.events ++ event.now ∷ []) }
        ensures err { OnErr result (self.new.events ≡ self.old.events) }
        ensures room { (n : ℕ) → HasRoom (n + 1) self.old → OnOk result (HasRoom n self.new) }
    {
        match &mut self.form {
            Form::Kept(columns) => columns.push(event)?,
            Form::Counted(count) => match count.checked_add(1) {
                Some(more) => *count = more,
                None => return Err(AllocError),
            },
        }
        self.replies.push_event(self.alloc, event);
        self.history = self.history.and(event);
        Ok(())
    }

    /// Appends the same reply as this one, which an edge received.
    ///
    /// # Errors
    /// Memory ran out. Then nothing changed.
    pub fn push_heard(&mut self, edge: u32, reply: &Reply) -> Result<(), AllocError>
        ensures ok { OnOk result (self.new.events ≡ self.old.events ++ Hear edge reply.now ∷ []) }
        ensures err { OnErr result (self.new.events ≡ self.old.events) }
        ensures room { (n : ℕ) → HasRoom (n + 1) self.old → OnOk result (HasRoom n self.new) }
    {
        let heard = reply.copy_for_journal(self.alloc)?;
        self.push(&Event::Reply(edge, heard))
    }

    /// Removes the event that came last, if there is one.
    pub fn remove_last(&mut self)
        ensures { self.new.events ≡ take (length self.old.events - 1) self.old.events }
    {
        match &mut self.form {
            Form::Kept(columns) => columns.remove_last(),
            Form::Counted(count) => *count = count.saturating_sub(1),
        }
        self.replies = EdgeReplies::Unknown;
        self.history = self.history.without_last();
    }
}
