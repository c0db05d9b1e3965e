//! The replies that each edge received.

ghost use Rattle.std.specs.Prelude.{◌≡◌, ◌≤◌, ◌<◌, ◌++◌, ◌∷◌, ℕ, List, [], IfOk, OnErr, OnOk, get_or, length};
ghost use Rattle.plan_machine.specs.declared.event.Event.{Event as Happening};
ghost use Rattle.plan_machine.specs.declared.event.Event.TheVariants.{Reply as Hear};
ghost use Rattle.plan_machine.specs.Agreement as agreement;
ghost use Rattle.plan_journal.specs.EdgeReplies.{AreKnown, replies_for};

use plan_machine::{Event, Reply};
use std::alloc::{AllocError, Global};
use std::marker::Model;

/// The replies that an edge received, in their order. A contract sees their list.
#[derive(Drop)]
pub(crate) struct ReplyList {
    replies: Vec<Reply>,
}

impl Model for ReplyList {
    ghost use Rattle.std.specs.Prelude.{List};
    ghost use Rattle.plan_machine.specs.declared.event.reply.Reply.{Reply as Answer};

    ghost Value = { List Answer };

    ghost view = { λ l. l.replies.items };
}

impl ReplyList {
    /// Creates an empty list.
    fn empty(alloc: Global) -> ReplyList
        ensures { result ≡ [] }
    {
        ReplyList {
            replies: Vec::new(alloc),
        }
    }

    /// Appends a reply. An error changes nothing.
    fn push(&mut self, reply: Reply) -> Result<(), AllocError>
        ensures ok { OnOk result (self.new ≡ self.old ++ reply ∷ []) }
        ensures err { OnErr result (self.new ≡ self.old) }
    {
        self.replies.reserve(1)?;
        self.replies.push_reserved(reply);
        Ok(())
    }

    /// Returns the same replies. They share what they bring.
    fn copy(&self, alloc: Global) -> Result<Vec<Reply>, AllocError>
        ensures { IfOk result (λ v. v.items ≡ self.now) }
    {
        copies_of(alloc, &self.replies)
    }
}

/// Returns the same replies as these. They share what they bring.
fn copies_of(alloc: Global, replies: &[Reply]) -> Result<Vec<Reply>, AllocError>
    ensures { IfOk result (λ v. v.items ≡ replies.now) }
{
    let mut copies = Vec::with_capacity(alloc, replies.len())?;
    for reply in replies {
        copies.push(reply.copy_for_journal(alloc)?)?;
    }
    Ok(copies)
}

/// The replies that each edge received, by the number of the edge.
#[derive(Drop)]
pub(crate) enum EdgeReplies {
    /// Nobody asks for them, or memory ran out, or an event was removed.
    Unknown,
    /// The replies of edges from 0 on. The others received none.
    Known(Vec<ReplyList>),
}

impl EdgeReplies {
    /// Returns the replies that an edge received.
    ///
    /// # Errors
    /// They aren't known, or memory ran out.
    pub(crate) fn of_edge(&self, alloc: Global, edge: u32) -> Result<Vec<Reply>, AllocError>
        ensures { IfOk result (λ v. (events : List Happening) → AreKnown self.now events → v.items ≡ agreement.replies_to edge events) }
    {
        match self {
            EdgeReplies::Known(lists) => match lists.get(edge as usize) {
                Some(list) => list.copy(alloc),
                None => Ok(Vec::new(alloc)),
            },
            EdgeReplies::Unknown => Err(AllocError),
        }
    }

    /// Appends a reply that an edge received.
    fn try_push(&mut self, alloc: Global, edge: u32, reply: &Reply) -> Result<(), AllocError>
        ensures { OnOk result ((events : List Happening) → AreKnown self.old events → AreKnown self.new (events ++ Hear edge reply.now ∷ [])) }
    {
        match self {
            EdgeReplies::Known(lists) => add(lists, alloc, edge as usize, reply),
            EdgeReplies::Unknown => Ok(()),
        }
    }

    /// Appends a reply that an edge received. Without memory, no replies are known from here on.
    fn push_known(&mut self, alloc: Global, edge: u32, reply: &Reply)
        ensures { (events : List Happening) → AreKnown self.old events → AreKnown self.new (events ++ Hear edge reply.now ∷ []) }
    {
        if self.try_push(alloc, edge, reply).is_err() {
            *self = EdgeReplies::Unknown;
        }
    }

    /// Appends a reply that an edge received, if replies are known. Without memory, none are known from here on.
    #[inline(always)]
    pub(crate) fn push(&mut self, alloc: Global, edge: u32, reply: &Reply)
        ensures { (events : List Happening) → AreKnown self.old events → AreKnown self.new (events ++ Hear edge reply.now ∷ []) }
    {
        match self {
            EdgeReplies::Unknown => {}
            EdgeReplies::Known(_) => self.push_known(alloc, edge, reply),
        }
    }

    /// Appends the reply that an event brings, if it brings one. Without memory, no replies are known from here on.
    #[tactic(auto, using(crate::proofs::ReplyLemmas::known_start, crate::proofs::ReplyLemmas::known_skip, crate::proofs::ReplyLemmas::known_stop, crate::proofs::ReplyLemmas::known_step))]
    pub(crate) fn push_event(&mut self, alloc: Global, event: &Event)
        ensures { (events : List Happening) → AreKnown self.old events → AreKnown self.new (events ++ event.now ∷ []) }
    {
        match event {
            Event::Reply(edge, reply) => self.push(alloc, *edge, reply),
            Event::Start(_) => {}
            Event::Skip(_, _) => {}
            Event::Stop(_) => {}
            Event::Step(_) => {}
        }
    }
}

/// Appends empty lists until there are `len` lists.
fn extend(lists: &mut Vec<ReplyList>, alloc: Global, len: usize) -> Result<(), AllocError>
    ensures len { OnOk result (len ≤ length lists.new.items) }
    ensures same { OnOk result ((e : ℕ) → get_or lists.new.items e [] ≡ get_or lists.old.items e []) }
{
    for number in lists.len()..len {
        let _ = number;
        lists.push(ReplyList::empty(alloc))?;
    }
    Ok(())
}

/// Appends a reply to the list of an edge.
fn add(
    lists: &mut Vec<ReplyList>,
    alloc: Global,
    edge: usize,
    reply: &Reply,
) -> Result<(), AllocError>
    requires { edge < 4294967296 }
    ensures { OnOk result ((e : ℕ) → get_or lists.new.items e [] ≡ get_or lists.old.items e [] ++ replies_for e edge reply.now) }
{
    extend(lists, alloc, edge + 1)?;
    let copy = reply.copy_for_journal(alloc)?;
    lists[edge].push(copy)
}
