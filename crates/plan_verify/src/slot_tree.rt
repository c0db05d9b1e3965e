//! Ascending numbers in a tree whose parts are shared, and the set of an edge's own slots that are set.

ghost use Rattle.std.specs.Prelude.{◌≡◌, ◌<◌, ◌≤◌, ◌+◌, ◌++◌, ◌^◌, ◌↔◌, IsTrue, OnOk, IfOk, [], take, drop, length, nat_lt};
ghost use Rattle.std.specs.List.{list_all, prefix_len};
ghost use Rattle.plan_image.specs.Spelling.{AscendsFrom};
ghost use Rattle.plan_verify.specs.Members.{is_member, with_member};
ghost use Rattle.plan_verify.specs.SlotTree.{numbers, AllBelow, IsParted};

use std::alloc::{AllocError, Global};
use std::marker::Model;
use std::mem;
use std::sync::Arc;

/// The most numbers that are kept in one list.
const FEW: usize = 64;

/// The middle of the first fork. Twice this number is greater than the number of slots of any
/// image.
const MIDDLE: u32 = 33_554_432;

/// Numbers in ascending order.
#[derive(Drop)]
pub(crate) enum SlotTree {
    /// A list of at most a few numbers.
    Few(Vec<u32>),
    /// The numbers below a middle, the middle, the other numbers, and the number of all of them. Trees share
    /// the two parts.
    Fork(Arc<SlotTree, Global>, u32, Arc<SlotTree, Global>, usize),
}

fn are_same(a: &[u32], b: &[u32]) -> bool
    ensures { IsTrue result ↔ (a.now ≡ b.now) }
{
    a == b
}

/// Returns whether a number is among ascending numbers.
pub(crate) fn has_number(numbers: &[u32], number: u32) -> bool
    requires { AscendsFrom 0 numbers.now }
    ensures { result ≡ is_member number numbers.now }
{
    match numbers.binary_search(&number) {
        Ok(_) => true,
        Err(_) => false,
    }
}

/// Inserts a number into ascending numbers, unless it is there.
fn insert_number(held: &mut Vec<u32>, number: u32) -> Result<(), AllocError>
    requires { AscendsFrom 0 held.old.items }
    ensures { OnOk result (held.new.items ≡ with_member number held.old.items) }
{
    match held.binary_search(&number) {
        Ok(_) => Ok(()),
        Err(at) => {
            held.insert(at, number)?;
            Ok(())
        }
    }
}

/// Returns how many numbers at the front are below this one.
fn count_below(numbers: &[u32], number: u32) -> usize
    ensures len { result ≡ prefix_len (λ n. nat_lt n number) numbers.now }
    ensures within { result ≤ length numbers.now }
{
    numbers.iter().take_while(|n| **n < number).count()
}

/// Joins two trees at a middle. The first has the numbers below it, and the second the others.
fn fork(
    low: Arc<SlotTree, Global>,
    middle: u32,
    high: Arc<SlotTree, Global>,
) -> Result<SlotTree, AllocError>
    requires low { IsParted low.value }
    requires high { IsParted high.value }
    requires below { AllBelow middle (numbers low.value) }
    requires above { AscendsFrom middle (numbers high.value) }
    ensures parted { IfOk result (λ t. IsParted t) }
    ensures numbers { IfOk result (λ t. numbers t ≡ numbers low.value ++ numbers high.value) }
{
    match low.len().checked_add(high.len()) {
        Some(len) => Ok(SlotTree::Fork(low, middle, high, len)),
        None => Err(AllocError),
    }
}

/// Creates a list on the heap.
fn list_of(alloc: Global, held: &[u32]) -> Result<Arc<SlotTree, Global>, AllocError>
    requires { AscendsFrom 0 held.now }
    ensures parted { IfOk result (λ t. IsParted t.value) }
    ensures numbers { IfOk result (λ t. numbers t.value ≡ held.now) }
{
    let held = Vec::from_slice(alloc, held)?;
    let list = Arc::new(alloc, SlotTree::Few(held))?;
    Ok(list)
}

/// Splits numbers into two lists: those below `middle`, and the others.
fn split_at_number(alloc: Global, held: &[u32], middle: u32) -> Result<SlotTree, AllocError>
    requires { AscendsFrom 0 held.now }
    ensures parted { IfOk result (λ t. IsParted t) }
    ensures numbers { IfOk result (λ t. numbers t ≡ held.now) }
{
    let (below, above) = held.split_at(count_below(held, middle));
    let low = list_of(alloc, below)?;
    let high = list_of(alloc, above)?;
    fork(low, middle, high)
}

/// Adds a number to a list. Splits the list if it becomes too long.
fn list_with(alloc: Global, held: &[u32], middle: u32, number: u32) -> Result<SlotTree, AllocError>
    requires { AscendsFrom 0 held.now }
    ensures parted { IfOk result (λ t. IsParted t) }
    ensures numbers { IfOk result (λ t. numbers t ≡ with_member number held.now) }
{
    let mut more = Vec::from_slice(alloc, held)?;
    insert_number(&mut more, number)?;
    if more.len() <= FEW {
        Ok(SlotTree::Few(more))
    } else {
        split_at_number(alloc, more.as_slice(), middle)
    }
}

impl SlotTree {
    /// Returns the number of numbers.
    pub(crate) fn len(&self) -> usize
        requires { IsParted self.now }
        ensures { result ≡ length (numbers self.now) }
    {
        match self {
            SlotTree::Few(held) => held.len(),
            SlotTree::Fork(_, _, _, len) => *len,
        }
    }

    /// Returns whether a number is in the tree.
    pub(crate) fn contains(&self, number: u32) -> bool
        requires { IsParted self.now }
        ensures { result ≡ is_member number (numbers self.now) }
    {
        match self {
            SlotTree::Few(held) => has_number(held.as_slice(), number),
            SlotTree::Fork(low, middle, high, _) => {
                if number < *middle {
                    low.contains(number)
                } else {
                    high.contains(number)
                }
            }
        }
    }

    /// Returns the tree with one more number. If this makes a list too long, it is split at `middle`. The
    /// middles of the parts below are at half the distance.
    fn with(
        &self,
        alloc: Global,
        middle: u32,
        half: u32,
        number: u32,
    ) -> Result<SlotTree, AllocError>
        requires { IsParted self.now }
        ensures parted { IfOk result (λ t. IsParted t) }
        ensures numbers { IfOk result (λ t. numbers t ≡ with_member number (numbers self.now)) }
    {
        match self {
            SlotTree::Few(held) => list_with(alloc, held.as_slice(), middle, number),
            SlotTree::Fork(low, middle, high, _) => {
                let quarter = half / 2;
                if number < *middle {
                    let low = low.with(alloc, (*middle ^ half) | quarter, quarter, number)?;
                    fork(Arc::new(alloc, low)?, *middle, Arc::try_clone(high)?)
                } else {
                    let high = high.with(alloc, *middle | quarter, quarter, number)?;
                    fork(Arc::try_clone(low)?, *middle, Arc::new(alloc, high)?)
                }
            }
        }
    }

    /// Adds a number to the tree.
    pub(crate) fn into_with(self, alloc: Global, number: u32) -> Result<SlotTree, AllocError>
        requires { IsParted self }
        ensures parted { IfOk result (λ t. IsParted t) }
        ensures numbers { IfOk result (λ t. numbers t ≡ with_member number (numbers self)) }
    {
        match self {
            SlotTree::Few(held) => list_into_with(alloc, held, number),
            fork => fork.with(alloc, MIDDLE, MIDDLE, number),
        }
    }

    /// Returns a copy, which shares the parts of a fork.
    pub(crate) fn copy(&self, alloc: Global) -> Result<SlotTree, AllocError>
        requires { IsParted self.now }
        ensures parted { IfOk result (λ t. IsParted t) }
        ensures numbers { IfOk result (λ t. numbers t ≡ numbers self.now) }
    {
        match self {
            SlotTree::Few(held) => Ok(SlotTree::Few(Vec::from_slice(alloc, held.as_slice())?)),
            SlotTree::Fork(low, middle, high, len) => {
                let low = Arc::try_clone(low)?;
                let high = Arc::try_clone(high)?;
                Ok(SlotTree::Fork(low, *middle, high, *len))
            }
        }
    }

    /// Returns whether each of these numbers is in the other tree.
    fn is_within(&self, other: &SlotTree) -> bool
        requires { IsParted other.now }
        ensures { result ≡ list_all (λ n. is_member n (numbers other.now)) (numbers self.now) }
    {
        match self {
            SlotTree::Few(held) => are_within(held.as_slice(), other),
            SlotTree::Fork(low, _, high, _) => low.is_within(other) & high.is_within(other),
        }
    }

    /// Returns whether two trees have the same numbers, by comparing how many there are and searching each
    /// number in the other tree.
    fn has_all(&self, other: &SlotTree) -> bool
        requires these { IsParted self.now }
        requires others { IsParted other.now }
        ensures { IsTrue result ↔ (numbers self.now ≡ numbers other.now) }
    {
        (self.len() == other.len()) & self.is_within(other)
    }

    /// Returns whether two trees have the same numbers.
    pub(crate) fn is_same(&self, other: &SlotTree) -> bool
        requires these { IsParted self.now }
        requires others { IsParted other.now }
        ensures { IsTrue result ↔ (numbers self.now ≡ numbers other.now) }
    {
        match self {
            SlotTree::Few(held) => match other {
                SlotTree::Few(others) => are_same(held.as_slice(), others.as_slice()),
                SlotTree::Fork(_, _, _, _) => self.has_all(other),
            },
            SlotTree::Fork(low, middle, high, _) => match other {
                SlotTree::Few(_) => self.has_all(other),
                SlotTree::Fork(other_low, other_middle, other_high, _) => {
                    if *middle == *other_middle {
                        low.is_same(other_low) & high.is_same(other_high)
                    } else {
                        self.has_all(other)
                    }
                }
            },
        }
    }
}

/// Adds a number to a list. Splits the list if it becomes too long.
fn list_into_with(alloc: Global, held: Vec<u32>, number: u32) -> Result<SlotTree, AllocError>
    requires { AscendsFrom 0 held.items }
    ensures parted { IfOk result (λ t. IsParted t) }
    ensures numbers { IfOk result (λ t. numbers t ≡ with_member number held.items) }
{
    if held.len() < FEW {
        let mut more = held;
        insert_number(&mut more, number)?;
        Ok(SlotTree::Few(more))
    } else {
        list_with(alloc, held.as_slice(), MIDDLE, number)
    }
}

/// Returns whether each of these numbers is in the tree.
fn are_within(held: &[u32], other: &SlotTree) -> bool
    requires { IsParted other.now }
    ensures { result ≡ list_all (λ n. is_member n (numbers other.now)) held.now }
{
    for place in 0..held.len() {
        if !other.contains(held[place]) {
            return false;
        }
    }
    true
}

/// A set of slot numbers, in ascending order. Copies of a large set share its parts. Inserting a number creates
/// few new parts and shares the others.
#[derive(Drop)]
pub struct SlotSet {
    tree: SlotTree,
}

impl Model for SlotSet {
    ghost use Rattle.std.specs.Prelude.{List, ℕ};
    ghost use Rattle.plan_verify.specs.SlotTree.{numbers, IsParted};

    ghost Value = { List ℕ };

    ghost view = { λ s. numbers s.tree };

    ghost invariant = { λ s. IsParted s.tree };
}

impl SlotSet {
    /// Creates an empty set.
    pub(crate) fn new(alloc: Global) -> Self
        ensures { result ≡ [] }
    {
        Self {
            tree: SlotTree::Few(Vec::new(alloc)),
        }
    }

    /// Returns the number of slots.
    pub(crate) fn len(&self) -> usize
        ensures { result ≡ length self.now }
    {
        self.tree.len()
    }

    /// Returns whether a slot is in the set.
    pub(crate) fn contains(&self, slot: u32) -> bool
        ensures { result ≡ is_member slot self.now }
    {
        self.tree.contains(slot)
    }

    /// Inserts a slot.
    pub(crate) fn insert(&mut self, alloc: Global, slot: u32) -> Result<(), AllocError>
        ensures { OnOk result (self.new ≡ with_member slot self.old) }
    {
        let tree = mem::replace(&mut self.tree, SlotTree::Few(Vec::new(alloc)));
        self.tree = tree.into_with(alloc, slot)?;
        Ok(())
    }

    /// Returns whether two sets have the same slots.
    pub(crate) fn is_same(&self, other: &SlotSet) -> bool
        ensures { IsTrue result ↔ (self.now ≡ other.now) }
    {
        self.tree.is_same(&other.tree)
    }

    /// Returns a copy, which shares the parts of a large set.
    pub(crate) fn copy(&self, alloc: Global) -> Result<SlotSet, AllocError>
        ensures { IfOk result (λ s. s ≡ self.now) }
    {
        let tree = self.tree.copy(alloc)?;
        Ok(SlotSet { tree })
    }
}
