//! The table of bodies.

ghost use Rattle.std.specs.Prelude.{◌≡◌, ◌↔◌, IfOk, IsTrue};

use crate::build::word;
use crate::code::Code;
use indexmap::IndexSet;
use plan_image::Body;
use plan_text::{Items, Memory};
use std::alloc::{AllocError, Global};
use std::marker::Model;

/// Returns whether two keys are equal.
fn is_same(key: &[u64], other: &[u64]) -> bool
    ensures { IsTrue result ↔ (key.now ≡ other.now) }
{
    key == other
}

/// Returns a copy of a key.
fn copy_key(alloc: Global, key: &[u64]) -> Result<Vec<u64>, AllocError>
    ensures { IfOk result (λ copy. copy.items ≡ key.now) }
{
    let mut copy = Vec::new(alloc);
    copy.extend_from_slice(key)?;
    Ok(copy)
}

/// Bodies, without repetitions, in the order in which they were added.
#[derive(Drop)]
pub(crate) struct BodyTable {
    keys: IndexSet<Vec<u64>>,
    bodies: Vec<Body>,
}

impl Model for BodyTable {
    ghost use Rattle.std.specs.Prelude.{◌≡◌, List, map};
    ghost use Rattle.plan_compile.specs.BodyKeys.{Body, key_of};

    ghost Value = { List Body };

    ghost view = { λ b. b.bodies.items };

    ghost invariant = { λ b. map (λ k. k.items) b.keys.keys ≡ map key_of b.bodies.items };
}

impl BodyTable {
    ghost use Rattle.std.specs.Prelude.{◌≡◌, ◌↔◌, ◌≤◌, ◌+◌, [], IfOk, IsTrue, length, map, OnOk, slice_get, Some};
    ghost use Rattle.plan_image.specs.Bodies.{body_of};
    ghost use Rattle.plan_graph.specs.Graph.{max_edges};
    ghost use Rattle.plan_compile.specs.BodyKeys.{key_of, same_body};
    ghost use Rattle.plan_compile.specs.Numbering.{number, with_item, with_items};

    /// Creates an empty table.
    pub(crate) fn new(alloc: Global) -> Self
        ensures { result ≡ [] }
    {
        BodyTable {
            keys: IndexSet::new(alloc),
            bodies: Vec::new(alloc),
        }
    }

    /// Returns whether the table has a body with this number that is the body of a code.
    pub(crate) fn is_at(&self, place: u32, code: &Code) -> bool
        ensures there { IsTrue result ↔ (slice_get self.now place ≡ Some (body_of code.now)) }
        ensures first { IsTrue result → place ≡ number same_body (body_of code.now) self.now }
    {
        match self.keys.as_slice().get(place as usize) {
            Some(key) => is_same(key, code.key()),
            None => false,
        }
    }

    /// Appends a body with this key unless it is in the table, and returns its number.
    fn put_body(&mut self, key: Vec<u64>, body: Body) -> Result<u32, Memory>
        requires key { key.items ≡ key_of body }
        requires few { length self.old ≤ max_edges }
        ensures bodies { OnOk result (self.new ≡ with_item same_body self.old body) }
        ensures number { IfOk result (λ n. n ≡ number same_body body self.new) }
        ensures few { OnOk result (length self.new ≤ length self.old + 1) }
    {
        self.bodies.reserve(1)?;
        let (place, is_new) = self.keys.insert_full(key)?;
        if is_new {
            self.bodies.push(body)?;
            return Ok(word(place));
        }
        Ok(word(place))
    }

    /// Appends the body of a code unless it is in the table, and returns its number.
    pub(crate) fn put(&mut self, alloc: Global, code: &Code) -> Result<u32, Memory>
        requires { length self.old ≤ max_edges }
        ensures bodies { OnOk result (self.new ≡ with_item same_body self.old (body_of code.now)) }
        ensures number { IfOk result (λ n. n ≡ number same_body (body_of code.now) self.new) }
        ensures few { OnOk result (length self.new ≤ length self.old + 1) }
    {
        let key = copy_key(alloc, code.key())?;
        let body = code.body(alloc)?;
        self.put_body(key, body)
    }

    /// Appends bodies with these keys unless they are in the table. Returns their numbers, in their order.
    fn put_bodies(
        &mut self,
        alloc: Global,
        keys: &[Vec<u64>],
        bodies: Vec<Body>,
    ) -> Result<Vec<u32>, Memory>
        requires keys { map (λ k. k.items) keys.now ≡ map key_of bodies.items }
        requires few { length self.old + length bodies.items ≤ max_edges }
        ensures bodies { OnOk result (self.new ≡ with_items same_body self.old bodies.items) }
        ensures numbers { IfOk result (λ ns. ns.items ≡ map (λ b. number same_body b self.new) bodies.items) }
        ensures few { OnOk result (length self.new ≤ length self.old + length bodies.items) }
    {
        let mut numbers = Vec::with_capacity(alloc, bodies.len())?;
        for body in bodies {
            let key = copy_key(alloc, keys[numbers.len()].as_slice())?;
            let number = self.put_body(key, body)?;
            numbers.push(number)?;
        }
        Ok(numbers)
    }

    /// Appends the bodies of another table unless they are in this one. Returns their numbers, in their order.
    pub(crate) fn put_all(&mut self, alloc: Global, others: BodyTable) -> Result<Vec<u32>, Memory>
        requires { length self.old + length others ≤ max_edges }
        ensures bodies { OnOk result (self.new ≡ with_items same_body self.old others) }
        ensures numbers { IfOk result (λ ns. ns.items ≡ map (λ b. number same_body b self.new) others) }
        ensures few { OnOk result (length self.new ≤ length self.old + length others) }
    {
        let BodyTable { keys, bodies } = others;
        self.put_bodies(alloc, keys.as_slice(), bodies)
    }

    /// Returns the bodies in their order.
    pub(crate) fn into_items(self) -> Items<Body>
        ensures { result ≡ self }
    {
        let BodyTable {
            keys: _keys,
            bodies,
        } = self;
        Items::new(bodies)
    }
}
