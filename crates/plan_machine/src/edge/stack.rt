//! A stack of values, whose kinds the verifier has checked, and the values of slots.

ghost use Rattle.std.specs.Prelude.{◌≡◌, ◌<◌, ◌≤◌, ◌∷◌, [], IfOk, Some, drop, length, slice_get, None, true};
ghost use Rattle.plan_image.specs.declared.body.Instr.TheVariants as op;
ghost use Rattle.plan_verify.specs.Turn.{calculate, same_text, On};
ghost use Rattle.plan_machine.specs.Requests.{HasPathsAt, HasStampAt, HasSweptAt, HasTextAt};
ghost use Rattle.plan_machine.specs.Working.{Computes, HasFlag, HasPaths, HasStamp, HasText, IsPlain, IsShallow};
ghost use Rattle.plan_machine.specs.Slots.{value_of};

use plan_image::Instr;
use plan_verify::{PathList, Value, Words};
use std::alloc::{AllocError, Global};
use std::marker::Model;

/// A stack of at most 64 values, with room for all of them. A contract sees the top first. Unused room isn't
/// cleared. The box keeps an edge small.
#[derive(Drop)]
pub(crate) struct Stack {
    values: Box<Vec<Value>>,
}

impl Model for Stack {
    ghost use Rattle.std.specs.Prelude.{◌≤◌, List, reverse, vec_capacity, vec_len};
    ghost use Rattle.plan_verify.specs.declared.value.Value.{Value as Item};

    ghost Value = { List Item };

    ghost view = { λ s. reverse s.values.value.items };

    ghost invariant = { λ s. (vec_len s.values.value ≤ 64) × (64 ≤ vec_capacity s.values.value) };
}

/// Returns whether two texts are equal.
#[tactic(auto, using(crate::proofs::AskingLemmas::same_bytes))]
fn same_text(first: &[u8], last: &[u8]) -> bool
    ensures { result ≡ same_text first.now last.now }
{
    first == last
}

impl Stack {
    /// Creates an empty stack.
    pub(crate) fn new(alloc: Global) -> Result<Self, AllocError>
        ensures { IfOk result (λ s. s ≡ []) }
    {
        let values = Vec::with_capacity(alloc, 64)?;
        let values = Box::new(alloc, values)?;
        Ok(Stack { values })
    }

    /// Returns an empty stack: the last of these, if it is empty, or else a new one.
    pub(crate) fn of_spare(alloc: Global, spare: &mut Vec<Stack>) -> Result<Stack, AllocError>
        ensures { IfOk result (λ s. s ≡ []) }
    {
        match spare.pop() {
            Some(stack) if stack.is_empty() => Ok(stack),
            _ => Stack::new(alloc),
        }
    }

    /// Returns whether there is no value.
    fn is_empty(&self) -> bool
        ensures { result ≡ true → self.now ≡ [] }
    {
        self.values.is_empty()
    }

    /// Pushes a value, for which there must be room.
    pub(crate) fn push(&mut self, value: Value)
        requires { length self.old < 64 }
        ensures { self.new ≡ value ∷ self.old }
    {
        self.values.push_reserved(value);
    }

    /// Pops the top value, which must exist.
    pub(crate) fn pop(&mut self) -> Value
        requires { 0 < length self.old }
        ensures { self.old ≡ result ∷ self.new }
    {
        match self.values.pop() {
            Some(value) => value,
            None => unreachable!(),
        }
    }

    /// Returns the number of values.
    pub(crate) fn len(&self) -> usize
        ensures len { result ≡ length self.now }
        ensures few { length self.now ≤ 64 }
    {
        self.values.as_slice().len()
    }

    /// Drops the top value, if there is one.
    pub(crate) fn discard(&mut self)
        ensures { self.new ≡ drop 1 self.old }
    {
        let _ = self.values.pop();
    }

    /// Pops a stamp.
    pub(crate) fn pop_stamp(&mut self) -> u64
        requires { HasStamp self.old }
        ensures { self.old ≡ Value.Stamp result ∷ self.new }
    {
        match self.pop() {
            Value::Stamp(stamp) => stamp,
            _ => unreachable!(),
        }
    }

    /// Pops a flag.
    pub(crate) fn pop_flag(&mut self) -> bool
        requires { HasFlag self.old }
        ensures { self.old ≡ Value.Flag result ∷ self.new }
    {
        match self.pop() {
            Value::Flag(flag) => flag,
            _ => unreachable!(),
        }
    }

    /// Pops a text.
    pub(crate) fn pop_text(&mut self) -> Words
        requires { HasText self.old }
        ensures { self.old ≡ Value.Text result ∷ self.new }
    {
        match self.pop() {
            Value::Text(text) => text,
            _ => unreachable!(),
        }
    }

    /// Pops paths, with the number of those that were swept.
    pub(crate) fn pop_paths(&mut self) -> (u32, PathList)
        requires { HasPaths self.old }
        ensures { self.old ≡ Value.Paths result.0 result.1 ∷ self.new }
    {
        match self.pop() {
            Value::Paths(swept, paths) => (swept, paths),
            _ => unreachable!(),
        }
    }

    /// Replaces the two top texts by whether they are equal.
    pub(crate) fn equal(&mut self)
        requires computes { Computes (calculate op.Equal self.old) }
        requires shallow { IsShallow (calculate op.Equal self.old) }
        ensures { calculate op.Equal self.old ≡ On self.new }
    {
        let last = self.pop_text();
        let first = self.pop_text();
        self.push(Value::Flag(same_text(first.as_slice(), last.as_slice())));
    }

    /// Executes an instruction that calculates without taking memory.
    #[inline(always)]
    pub(crate) fn calculate(&mut self, instr: Instr)
        requires plain { IsPlain instr }
        requires computes { Computes (calculate instr self.old) }
        requires shallow { IsShallow (calculate instr self.old) }
        ensures { calculate instr self.old ≡ On self.new }
    {
        match instr {
            Instr::Older => {
                let last = self.pop_stamp();
                let first = self.pop_stamp();
                self.push(Value::Stamp(first.min(last)));
            }
            Instr::Newer => {
                let last = self.pop_stamp();
                let first = self.pop_stamp();
                self.push(Value::Stamp(first.max(last)));
            }
            Instr::Before => {
                let last = self.pop_stamp();
                let first = self.pop_stamp();
                self.push(Value::Flag(first < last));
            }
            Instr::Same => {
                let last = self.pop_stamp();
                let first = self.pop_stamp();
                self.push(Value::Flag(first == last));
            }
            Instr::IsMissing => {
                let stamp = self.pop_stamp();
                self.push(Value::Flag(stamp == 0));
            }
            Instr::Or => {
                let last = self.pop_flag();
                let first = self.pop_flag();
                self.push(Value::Flag(first || last));
            }
            Instr::Not => {
                let flag = self.pop_flag();
                self.push(Value::Flag(!flag));
            }
            Instr::Flag(flag) => self.push(Value::Flag(flag)),
            Instr::Zero => self.push(Value::Stamp(0)),
            Instr::Drop => {
                let _ = self.pop();
            }
            Instr::Swap => {
                let last = self.pop();
                let first = self.pop();
                self.push(last);
                self.push(first);
            }
            _ => unreachable!(),
        }
    }

    /// Borrows the value at a depth, counted from 0 at the top.
    fn peek(&self, depth: usize) -> &Value
        requires { depth < length self.now }
        ensures { slice_get self.now depth ≡ Some result.now }
    {
        let values = self.values.as_slice();
        &values[values.len() - 1 - depth]
    }

    /// Borrows the text at a depth.
    pub(crate) fn text_at(&self, depth: usize) -> &[u8]
        requires { HasTextAt depth self.now }
        ensures { slice_get self.now depth ≡ Some (Value.Text result.now) }
    {
        match self.peek(depth) {
            Value::Text(text) => text.as_slice(),
            _ => unreachable!(),
        }
    }

    /// Returns the stamp at a depth.
    pub(crate) fn stamp_at(&self, depth: usize) -> u64
        requires { HasStampAt depth self.now }
        ensures { slice_get self.now depth ≡ Some (Value.Stamp result) }
    {
        match self.peek(depth) {
            Value::Stamp(stamp) => *stamp,
            _ => unreachable!(),
        }
    }

    /// Borrows the paths at the top, with the number of those that were swept.
    pub(crate) fn paths_at(&self) -> (u32, &PathList)
        requires { HasPathsAt self.now }
        ensures { slice_get self.now 0 ≡ Some (Value.Paths result.0 result.1.now) }
    {
        match self.peek(0) {
            Value::Paths(swept, paths) => (*swept, paths),
            _ => unreachable!(),
        }
    }

    /// Returns whether there are paths at the top.
    pub(crate) fn has_paths(&self) -> bool
        ensures { HasPathsAt self.now → result ≡ true }
    {
        match self.values.as_slice() {
            [.., Value::Paths(..)] => true,
            _ => false,
        }
    }

    /// Borrows the swept paths at the top.
    pub(crate) fn swept_at(&self) -> &PathList
        requires { HasSweptAt self.now }
        ensures { slice_get self.now 0 ≡ Some (Value.Swept result.now) }
    {
        match self.peek(0) {
            Value::Swept(paths) => paths,
            _ => unreachable!(),
        }
    }
}

/// Nothing, or a value. It takes 16 bytes, whereas an `Option` of a value would take 24.
#[derive(Drop)]
pub(crate) enum Stored {
    /// The slot isn't set.
    Unset,
    /// A stamp.
    Stamp(u64),
    /// A flag.
    Flag(bool),
    /// A text.
    Text(Words),
    /// Paths, and how many of them have been requested.
    Paths(u32, PathList),
    /// Paths that have all been requested.
    Swept(PathList),
}

/// A slot. A contract sees it as a value or None.
#[derive(Drop)]
pub(crate) struct Slot {
    stored: Stored,
}

impl Model for Slot {
    ghost use Rattle.std.specs.Prelude.{Option};
    ghost use Rattle.plan_verify.specs.declared.value.Value.{Value as Item};
    ghost use Rattle.plan_machine.specs.Slots.{value_of};

    ghost Value = { Option Item };

    ghost view = { λ s. value_of s.stored };
}

impl Slot {
    /// Creates a slot that isn't set.
    pub(crate) fn unset() -> Slot
        ensures { result ≡ None }
    {
        Slot {
            stored: Stored::Unset,
        }
    }

    /// Creates a slot with a value.
    pub(crate) fn of(value: Value) -> Slot
        ensures { result ≡ Some value }
    {
        let stored = match value {
            Value::Stamp(stamp) => Stored::Stamp(stamp),
            Value::Flag(flag) => Stored::Flag(flag),
            Value::Text(text) => Stored::Text(text),
            Value::Paths(swept, paths) => Stored::Paths(swept, paths),
            Value::Swept(paths) => Stored::Swept(paths),
        };
        Slot { stored }
    }

    /// Borrows the value.
    pub(crate) fn stored(&self) -> &Stored
        ensures { value_of result.now ≡ self.now }
    {
        &self.stored
    }

    /// Returns a copy of the value. Returns None if the slot isn't set.
    pub(crate) fn load(&self) -> Result<Option<Value>, AllocError>
        ensures { IfOk result (λ v. v ≡ self.now) }
    {
        match &self.stored {
            Stored::Unset => Ok(None),
            Stored::Stamp(stamp) => Ok(Some(Value::Stamp(*stamp))),
            Stored::Flag(flag) => Ok(Some(Value::Flag(*flag))),
            Stored::Text(text) => Ok(Some(Value::Text(text.copy()?))),
            Stored::Paths(swept, paths) => Ok(Some(Value::Paths(*swept, paths.copy()?))),
            Stored::Swept(paths) => Ok(Some(Value::Swept(paths.copy()?))),
        }
    }
}
