//! The bodies of codes, in the order of first use.

ghost use Rattle.std.specs.Prelude.{◌<◌};

use crate::body_table::BodyTable;
use crate::code::Code;
use plan_image::Body;
use plan_text::{Items, Memory};
use std::alloc::Global;
use std::marker::Model;

/// The number of bodies that are remembered.
const REMEMBERED: usize = 64;

/// Returns the index under which the body of a code is remembered. Two codes share an index only if their
/// lengths differ by a multiple of 64.
fn memory_place(code: &Code) -> usize
    ensures { result < 64 }
{
    code.len() % REMEMBERED
}

/// The bodies of codes, without repetitions, in the order of first use. Most codes have the same body as the
/// last code of their length. That body is compared first, so in most cases no body is created and no table is
/// searched.
#[derive(Drop)]
pub(crate) struct Bodies {
    table: BodyTable,
    /// The numbers that were given last, indexed by the length of the code. An entry can be any number, because
    /// it is checked before it is used.
    remembered: [u32; REMEMBERED],
}

impl Model for Bodies {
    ghost use Rattle.std.specs.Prelude.{List};
    ghost use Rattle.plan_compile.specs.BodyKeys.{Body};

    ghost Value = { List Body };

    ghost view = { λ b. b.table };
}

impl Bodies {
    ghost use Rattle.std.specs.Prelude.{◌≡◌, ◌≤◌, ◌+◌, [], IfOk, IfSome, length, map, OnOk, slice_get, Some};
    ghost use Rattle.plan_image.specs.Bodies.{body_of};
    ghost use Rattle.plan_graph.specs.Graph.{max_edges};
    ghost use Rattle.plan_compile.specs.BodyKeys.{same_body};
    ghost use Rattle.plan_compile.specs.Numbering.{number, with_item, with_items};

    /// Creates an empty list of bodies.
    pub(crate) fn new(alloc: Global) -> Self
        ensures { result ≡ [] }
    {
        Bodies {
            table: BodyTable::new(alloc),
            remembered: [0; REMEMBERED],
        }
    }

    /// Returns the number of the remembered body if it is the body of a code. Returns None otherwise.
    fn find_remembered(&self, code: &Code) -> Option<u32>
        ensures there { IfSome result (λ n. slice_get self.now n ≡ Some (body_of code.now)) }
        ensures first { IfSome result (λ n. n ≡ number same_body (body_of code.now) self.now) }
    {
        let number = self.remembered[memory_place(code)];
        if self.table.is_at(number, code) {
            Some(number)
        } else {
            None
        }
    }

    /// Appends the body of a code unless it is in the list, and returns its number.
    fn put_other(&mut self, alloc: Global, code: &Code) -> Result<u32, Memory>
        requires { length self.old ≤ max_edges }
        ensures bodies { OnOk result (self.new ≡ with_item same_body self.old (body_of code.now)) }
        ensures number { IfOk result (λ n. n ≡ number same_body (body_of code.now) self.new) }
        ensures few { OnOk result (length self.new ≤ length self.old + 1) }
    {
        let number = self.table.put(alloc, code)?;
        self.remembered[memory_place(code)] = number;
        Ok(number)
    }

    /// Appends the body of a code unless it is in the list, and returns its number.
    pub(crate) fn put(&mut self, alloc: Global, code: &Code) -> Result<u32, Memory>
        requires { length self.old ≤ max_edges }
        ensures bodies { OnOk result (self.new ≡ with_item same_body self.old (body_of code.now)) }
        ensures number { IfOk result (λ n. n ≡ number same_body (body_of code.now) self.new) }
        ensures few { OnOk result (length self.new ≤ length self.old + 1) }
    {
        match self.find_remembered(code) {
            Some(number) => Ok(number),
            None => self.put_other(alloc, code),
        }
    }

    /// Appends other bodies unless they are in the list. Returns their numbers, in their order.
    pub(crate) fn put_all(&mut self, alloc: Global, others: Bodies) -> Result<Vec<u32>, Memory>
        requires { length self.old + length others ≤ max_edges }
        ensures bodies { OnOk result (self.new ≡ with_items same_body self.old others) }
        ensures numbers { IfOk result (λ ns. ns.items ≡ map (λ b. number same_body b self.new) others) }
        ensures few { OnOk result (length self.new ≤ length self.old + length others) }
    {
        self.table.put_all(alloc, others.table)
    }

    /// Returns the bodies in their order.
    pub(crate) fn into_items(self) -> Items<Body>
        ensures { result ≡ self }
    {
        self.table.into_items()
    }
}
