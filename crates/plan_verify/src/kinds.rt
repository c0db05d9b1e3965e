//! The kinds of the values on a stack; shapes, which are the verifier's knowledge about an edge at a place; and the
//! effect of an instruction on a shape.

ghost use Rattle.std.specs.Prelude.{◌≡◌, ◌<◌, ◌≤◌, ◌↔◌, IsTrue, ◌∷◌, ◌++◌, [], length, take, drop, slice_get, IfOk, ◌+◌, OnOk};
ghost use Rattle.plan_verify.specs.Stack.{swapped};
ghost use Rattle.plan_verify.specs.Shape.{kinds_after, holding_after, set_after, left};

use crate::place_checks::kind_of_slot;
use crate::slot_tree::SlotSet;
use arrayvec::ArrayVec;
use plan_image::{Instr, Kind, Parts};
use std::alloc::{AllocError, Global};
use std::marker::Model;

/// The most values on the stack of an edge.
pub const MAX_STACK: usize = 64;

/// The kinds of at most `MAX_STACK` values, the top of the stack first.
#[derive(Drop)]
pub struct Kinds {
    held: ArrayVec<Kind, MAX_STACK>,
}

impl Model for Kinds {
    ghost use Rattle.std.specs.Prelude.{List, reverse, length, ◌≤◌};
    ghost use Rattle.plan_image.specs.declared.body.Kind.{Kind};
    ghost use Rattle.plan_verify.specs.declared.kinds.TheConstants.{MAX_STACK};

    ghost Value = { List Kind };

    ghost view = { λ k. reverse k.held.items };

    ghost invariant = { λ k. length k.held.items ≤ MAX_STACK };
}

impl Kinds {
    /// Creates an empty stack.
    pub(crate) fn new() -> Self
        ensures { result ≡ [] }
    {
        Self {
            held: ArrayVec::new(),
        }
    }

    /// Returns the number of kinds.
    pub(crate) fn len(&self) -> usize
        ensures value { result ≡ length self.now }
        ensures fits { result ≤ MAX_STACK }
    {
        self.held.len()
    }

    /// Pushes a kind, which must fit.
    pub(crate) fn push(&mut self, kind: Kind)
        requires { length self.old < MAX_STACK }
        ensures { self.new ≡ kind ∷ self.old }
    {
        self.held.push(kind);
    }

    /// Pops the top kind, if there is one.
    fn pop(&mut self)
        ensures { self.new ≡ drop 1 self.old }
    {
        let _ = self.held.pop();
    }

    /// Pops up to `count` kinds.
    pub(crate) fn cut(&mut self, count: usize)
        ensures { self.new ≡ drop count self.old }
    {
        for _ in 0..count {
            self.pop();
        }
    }

    /// Returns the kind at a depth, counted from 0 at the top. Returns None if the stack is not that deep.
    pub(crate) fn peek(&self, depth: usize) -> Option<Kind>
        ensures { result ≡ slice_get self.now depth }
    {
        let len = self.held.len();
        if depth < len {
            Some(self.held[len - 1 - depth])
        } else {
            None
        }
    }

    /// Swaps the two top kinds, if there are two.
    #[tactic(auto, using(crate::proofs::KindsLemmas::lengths))]
    pub(crate) fn swap(&mut self)
        ensures { self.new ≡ swapped (take 2 self.old) ++ drop 2 self.old }
    {
        let _ = &self.held;
        if let Some(top) = self.peek(0) {
            if let Some(below) = self.peek(1) {
                self.cut(2);
                self.push(top);
                self.push(below);
            }
        }
    }

    /// Returns whether two stacks have the same kinds.
    pub(crate) fn is_same(&self, other: &Kinds) -> bool
        ensures { IsTrue result ↔ (self.now ≡ other.now) }
    {
        are_same(self.held.as_slice(), other.held.as_slice())
    }

    /// Returns a copy.
    pub(crate) fn copy(&self) -> Kinds
        ensures { result ≡ self.now }
    {
        let mut held = ArrayVec::new();
        match held.try_extend_from_slice(self.held.as_slice()) {
            Ok(()) => Kinds { held },
            Err(_) => unreachable!(),
        }
    }
}

fn are_same(a: &[Kind], b: &[Kind]) -> bool
    ensures { IsTrue result ↔ (a.now ≡ b.now) }
{
    a == b
}

/// The kinds on the stack, the top first; whether a job token is held; and the own slots that are set, in
/// ascending order.
#[derive(Drop)]
pub struct Shape {
    pub kinds: Kinds,
    pub holding: bool,
    pub set: SlotSet,
}

impl Shape {
    ghost use Rattle.plan_verify.specs.WellShaped.{at_start};

    /// Returns the shape at the first place: an empty stack, no job token, and no slot set.
    pub(crate) fn start(alloc: Global) -> Shape
        ensures { result ≡ at_start }
    {
        Shape {
            kinds: Kinds::new(),
            holding: false,
            set: SlotSet::new(alloc),
        }
    }

    /// Returns whether two shapes are the same.
    pub(crate) fn is_same(&self, other: &Shape) -> bool
        ensures { IsTrue result ↔ (self.now ≡ other.now) }
    {
        self.kinds.is_same(&other.kinds)
            && self.holding == other.holding
            && self.set.is_same(&other.set)
    }

    /// Returns a copy.
    pub(crate) fn copy(&self, alloc: Global) -> Result<Shape, AllocError>
        ensures { IfOk result (λ s. s ≡ self.now) }
    {
        let kinds = self.kinds.copy();
        let set = self.set.copy(alloc)?;
        Ok(Shape {
            kinds,
            holding: self.holding,
            set,
        })
    }
}

/// Replaces the top `count` kinds by one kind.
fn replace(kinds: &mut Kinds, count: usize, kind: Kind)
    requires { length (drop count kinds.old) < MAX_STACK }
    ensures { kinds.new ≡ kind ∷ drop count kinds.old }
{
    kinds.cut(count);
    kinds.push(kind);
}

/// Pushes the kinds of an entry of the record.
fn push_entry(kinds: &mut Kinds)
    requires { length kinds.old + 4 ≤ MAX_STACK }
    ensures { kinds.new ≡ Kind.Flag ∷ Kind.Text ∷ Kind.Stamp ∷ Kind.Paths ∷ kinds.old }
{
    kinds.push(Kind::Paths);
    kinds.push(Kind::Stamp);
    kinds.push(Kind::Text);
    kinds.push(Kind::Flag);
}

/// Replaces the kinds of unswept paths by those of swept paths.
fn replace_swept(kinds: &mut Kinds)
    requires { length (drop 3 kinds.old) + 3 ≤ MAX_STACK }
    ensures { kinds.new ≡ Kind.Swept ∷ Kind.Flag ∷ Kind.Stamp ∷ drop 3 kinds.old }
{
    kinds.cut(3);
    kinds.push(Kind::Stamp);
    kinds.push(Kind::Flag);
    kinds.push(Kind::Swept);
}

/// Changes the kinds on the stack as an instruction does.
fn change_kinds(parts: &Parts, instr: Instr, kinds: &mut Kinds)
    requires { length (kinds_after parts.now instr kinds.old) ≤ MAX_STACK }
    ensures { kinds.new ≡ kinds_after parts.now instr kinds.old }
{
    match instr {
        Instr::Stat(_) | Instr::Need(_) | Instr::Zero => replace(kinds, 0, Kind::Stamp),
        Instr::Load(slot) => replace(kinds, 0, kind_of_slot(parts, slot)),
        Instr::Flag(_) => replace(kinds, 0, Kind::Flag),
        Instr::NoPaths => replace(kinds, 0, Kind::Swept),
        Instr::Text(_) => replace(kinds, 0, Kind::Text),
        Instr::Older | Instr::Newer => replace(kinds, 2, Kind::Stamp),
        Instr::Before | Instr::Same | Instr::Or | Instr::Equal => replace(kinds, 2, Kind::Flag),
        Instr::Join => replace(kinds, 2, Kind::Text),
        Instr::IsMissing | Instr::Not => replace(kinds, 1, Kind::Flag),
        Instr::Deps => replace(kinds, 1, Kind::Paths),
        Instr::Recall => push_entry(kinds),
        Instr::Sweep => replace_swept(kinds),
        Instr::Store(_) | Instr::JumpIf(_) | Instr::Run | Instr::Drop => kinds.cut(1),
        Instr::Keep => kinds.cut(3),
        Instr::Swap => kinds.swap(),
        Instr::End | Instr::Jump(_) | Instr::Take | Instr::Release => {}
    }
}

/// Returns whether a job token is held after an instruction.
fn holds(instr: Instr, holding: bool) -> bool
    ensures { result ≡ holding_after instr holding }
{
    match instr {
        Instr::Take => true,
        Instr::Release => false,
        _ => holding,
    }
}

/// Adds the slot that an instruction stores to the own slots that are set.
fn change_set(alloc: Global, instr: Instr, set: &mut SlotSet) -> Result<(), AllocError>
    ensures { OnOk result (set.new ≡ set_after instr set.old) }
{
    match instr {
        Instr::Store(slot) => set.insert(alloc, slot),
        _ => Ok(()),
    }
}

/// Changes the shape as an instruction does.
#[tactic(auto, unfolding(crate::specs::Shape::left))]
pub(crate) fn change(
    alloc: Global,
    parts: &Parts,
    instr: Instr,
    shape: &mut Shape,
) -> Result<(), AllocError>
    requires { length (kinds_after parts.now instr shape.old.kinds) ≤ MAX_STACK }
    ensures { OnOk result (shape.new ≡ left parts.now instr shape.old) }
{
    change_set(alloc, instr, &mut shape.set)?;
    change_kinds(parts, instr, &mut shape.kinds);
    shape.holding = holds(instr, shape.holding);
    Ok(())
}
