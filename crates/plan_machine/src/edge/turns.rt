//! Instructions that read the tables or the slots, or take memory, and their effects on an edge.

ghost use Rattle.std.specs.Prelude.{◌≡◌, ◌<◌, ◌+◌, ◌^◌, ◌∷◌, ◌++◌, IfOk, OnErr, false, length, nat_lt, slice_get};
ghost use Rattle.plan_image.specs.declared.body.Instr.TheVariants as op;
ghost use Rattle.plan_verify.specs.Turn.{Goes, Moved, calculate, calculated, loads, stores, sweep, writes};
ghost use Rattle.plan_machine.specs.LocalRuns.{IsLocalStep, asks_by};
ghost use Rattle.plan_machine.specs.Turned.{IsMade, IsTurned};
ghost use Rattle.plan_machine.specs.Working.{Works, filling};
ghost use Rattle.plan_machine.specs.declared.edge.turns.Turned.TheVariants as turned;
ghost use Rattle.plan_verify.specs.Tables.{outputs_of, pool_of, waits_of};
ghost use Rattle.plan_machine.specs.Total.{has_command};

use crate::edge::active_edge::ActiveEdge;
use crate::edge::stack::Slot;
use plan_image::{Image, Parts, Sort};
use plan_verify::{Cause, PathList, Value, Words};
use std::alloc::{AllocError, Global};

/// Returns whether two texts together are too long.
fn is_too_long(first: &[u8], last: &[u8]) -> bool
    ensures { result ≡ nat_lt 1048576 (length first.now + length last.now) }
{
    first.len() > 1_048_576 || 1_048_576 - first.len() < last.len()
}

/// Concatenates two texts.
fn concatenate(alloc: Global, first: &[u8], last: &[u8]) -> Result<Words, AllocError>
    ensures { IfOk result (λ w. w ≡ first.now ++ last.now) }
{
    let mut bytes = Vec::from_slice(alloc, first)?;
    bytes.extend_from_slice(last)?;
    Words::new(alloc, bytes)
}

/// Returns a copy of a slot's value. Returns None if the slot isn't set or doesn't exist.
pub(crate) fn copy_slot(slots: &[Slot], slot: u32) -> Result<Option<Value>, AllocError>
    ensures { IfOk result (λ v. v ≡ filling (slice_get slots.now slot)) }
{
    match slots.get(slot as usize) {
        Some(slot) => slot.load(),
        None => Ok(None),
    }
}

impl ActiveEdge {
    /// Pops the top value and stores it in a slot.
    #[inline(always)]
    pub(crate) fn store(
        &mut self,
        _image: &Image,
        _edge: u32,
        slots: &mut Vec<Slot>,
        slot: u32,
    ) -> Turned
        requires place { self.old.place + 1 < 2 ^ 32 }
        requires table { length slots.old.items ≡ length _image.now.slots }
        requires works { Works (stores self.old _edge slot (slice_get _image.now.slots slot) self.old.stack) }
        ensures stored { result ≡ turned.Stored }
        ensures made { IsTurned result self.old self.new slots.old.items slots.new.items (stores self.old _edge slot (slice_get _image.now.slots slot) self.old.stack) }
    {
        let value = self.stack.pop();
        slots[slot as usize] = Slot::of(value);
        self.place += 1;
        self.asked = false;
        Turned::Stored
    }

    /// Pushes a text of the image, and moves to the next place.
    pub(crate) fn write(
        &mut self,
        alloc: Global,
        image: &Image,
        text: u32,
    ) -> Result<Turned, AllocError>
        requires place { self.old.place + 1 < 2 ^ 32 }
        requires works { Works (writes self.old (slice_get image.now.texts text)) }
        ensures ok { IfOk result (λ r. (r ≡ turned.Moved) × (writes self.old (slice_get image.now.texts text) ≡ Goes Moved self.new)) }
        ensures err { OnErr result (self.new ≡ self.old) }
    {
        match image.parts().texts.get(text as usize) {
            Some(bytes) => {
                let words = Words::of(alloc, bytes)?;
                self.push_on(Value::Text(words));
                Ok(Turned::Moved)
            }
            None => unreachable!(),
        }
    }

    /// Pushes an empty list of paths, and moves to the next place.
    pub(crate) fn no_paths(&mut self, alloc: Global) -> Result<Turned, AllocError>
        requires place { self.old.place + 1 < 2 ^ 32 }
        requires works { Works (calculated self.old (calculate op.NoPaths self.old.stack)) }
        ensures ok { IfOk result (λ r. IsMade r self.old self.new (calculated self.old (calculate op.NoPaths self.old.stack))) }
        ensures err { OnErr result (self.new ≡ self.old) }
    {
        let paths = PathList::empty(alloc)?;
        self.push_on(Value::Swept(paths));
        Ok(Turned::Moved)
    }

    /// Pushes a copy of a slot's value, and moves to the next place.
    #[inline(always)]
    pub(crate) fn load(&mut self, slots: &[Slot], slot: u32) -> Result<Turned, AllocError>
        requires place { self.old.place + 1 < 2 ^ 32 }
        requires works { Works (loads self.old (slice_get slots.now slot)) }
        ensures ok { IfOk result (λ r. (r ≡ turned.Moved) × (loads self.old (slice_get slots.now slot) ≡ Goes Moved self.new)) }
        ensures err { OnErr result (self.new ≡ self.old) }
    {
        match copy_slot(slots, slot)? {
            Some(value) => {
                self.push_on(value);
                Ok(Turned::Moved)
            }
            None => unreachable!(),
        }
    }

    /// Pushes a value, for which there must be room, and moves to the next place.
    fn put_on(&mut self, value: Value)
        requires place { self.old.place + 1 < 2 ^ 32 }
        requires room { length self.old.stack < 64 }
        ensures { self.new ≡ record { place = self.old.place + 1; stack = value ∷ self.old.stack; holding = self.old.holding; ran = self.old.ran; asked = false } }
    {
        self.stack.push(value);
        self.place += 1;
        self.asked = false;
    }

    /// Asks for the stamp of the next path. If none is left, marks the paths as swept and moves to the next
    /// place.
    #[tactic(auto, using(crate::proofs::AskingLemmas::sweep_has, crate::proofs::AskingLemmas::sweep_asks, crate::proofs::AskingLemmas::sweep_ends))]
    pub(crate) fn sweep(&mut self) -> Turned
        requires place { self.old.place + 1 < 2 ^ 32 }
        requires works { Works (sweep self.old self.old.stack) }
        ensures local_step { IsLocalStep result }
        ensures made { IsMade result self.old self.new (sweep self.old self.old.stack) }
    {
        let _len = self.stack.len();
        let (swept, paths) = self.stack.pop_paths();
        if swept < paths.len() {
            self.stack.push(Value::Paths(swept, paths));
            self.asked = true;
            return Turned::Asked;
        }
        self.put_on(Value::Swept(paths));
        Turned::Moved
    }

    /// Replaces the two top texts by whether they are equal, and moves to the next place.
    pub(crate) fn equal(&mut self)
        requires place { self.old.place + 1 < 2 ^ 32 }
        requires works { Works (calculated self.old (calculate op.Equal self.old.stack)) }
        ensures { IsMade turned.Moved self.old self.new (calculated self.old (calculate op.Equal self.old.stack)) }
    {
        self.stack.equal();
        self.place += 1;
        self.asked = false;
    }

    /// Joins the two top texts, and moves to the next place. Fails if the result is too long.
    #[tactic(auto, using(crate::proofs::AskingLemmas::join_first, crate::proofs::AskingLemmas::join_second, crate::proofs::AskingLemmas::join_long, crate::proofs::AskingLemmas::join_is))]
    pub(crate) fn join(&mut self, alloc: Global) -> Result<Turned, AllocError>
        requires place { self.old.place + 1 < 2 ^ 32 }
        requires works { Works (calculated self.old (calculate op.Join self.old.stack)) }
        ensures ok { IfOk result (λ r. IsMade r self.old self.new (calculated self.old (calculate op.Join self.old.stack))) }
        ensures err { OnErr result (self.new ≡ self.old) }
    {
        let _len = self.stack.len();
        let last = self.stack.pop_text();
        let first = self.stack.pop_text();
        if is_too_long(first.as_slice(), last.as_slice()) {
            return Ok(Turned::Failed(Cause::TextTooLong));
        }
        match concatenate(alloc, first.as_slice(), last.as_slice()) {
            Ok(text) => {
                self.put_on(Value::Text(text));
                Ok(Turned::Moved)
            }
            Err(error) => {
                self.stack.push(Value::Text(first));
                self.stack.push(Value::Text(last));
                Err(error)
            }
        }
    }
}

/// Returns the number of edges.
pub(crate) fn edge_count(parts: &Parts) -> usize
    ensures { result ≡ length parts.now.edges }
{
    parts.edges.len()
}

/// Returns the edges that an edge waits for. Returns none if there is no such edge.
pub(crate) fn waits(parts: &Parts, edge: u32) -> &[u32]
    ensures { result.now ≡ waits_of parts.now edge }
{
    match parts.edges.waits(edge as usize) {
        Some(waits) => waits,
        None => &[],
    }
}

/// Returns the pool of an edge. Returns None if it has none or there is no such edge.
pub(crate) fn pool(parts: &Parts, edge: u32) -> Option<u32>
    ensures { result ≡ pool_of parts.now edge }
{
    match parts.edges.get(edge as usize) {
        Some(edge) => edge.pool,
        None => None,
    }
}

/// Returns the files that an edge creates. Returns none if there is no such edge.
pub(crate) fn outputs(parts: &Parts, edge: u32) -> &[u32]
    ensures { result.now ≡ outputs_of parts.now edge }
{
    match parts.edges.get(edge as usize) {
        Some(edge) => edge.outputs,
        None => &[],
    }
}

/// Returns whether an edge has a command.
pub(crate) fn has_command(parts: &Parts, edge: u32) -> bool
    ensures { result ≡ has_command parts.now edge }
{
    match parts.edges.get(edge as usize) {
        Some(edge) => matches!(edge.sort, Sort::Command),
        None => false,
    }
}

/// The effect of a step on an edge.
#[derive(Clone, Copy)]
pub(crate) enum Turned {
    Moved,
    /// It set a slot.
    Stored,
    Took,
    Released,
    Asked,
    Ended,
    Failed(Cause),
}

impl Turned {
    /// Returns whether the step asked a question.
    pub(crate) fn asks(self) -> bool
        ensures { result ≡ asks_by self }
    {
        match self {
            Turned::Asked => true,
            _ => false,
        }
    }
}

/// The effect of a reply on an edge: it goes on, it failed, or the reply doesn't match its question.
#[derive(Clone, Copy)]
pub(crate) enum Heard {
    On,
    Failed(Cause),
    Unfit,
}
