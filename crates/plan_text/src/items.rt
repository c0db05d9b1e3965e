//! Vectors that contracts see as lists.

ghost use Rattle.std.specs.Prelude.{◌≡◌, ◌↔◌, IsTrue, [], length};

use std::alloc::Global;
use std::marker::Model;

/// A vector of values. A contract sees it as the list of the values, so types that hold an `Items` are compared
/// by these values.
#[derive(Drop)]
pub struct Items<T> {
    held: Vec<T>,
}

impl<T> Model for Items<T> {
    ghost use Rattle.std.specs.Prelude.{List};

    ghost Value = { List T };

    ghost view = { λ s. s.held.items };
}

impl<T> Items<T> {
    /// Wraps a vector. The items keep their order.
    pub fn new(held: Vec<T>) -> Self
        ensures { result ≡ held.items }
    {
        Self { held }
    }

    /// Creates an empty list. It takes no memory until its vector grows.
    pub fn empty(alloc: Global) -> Self
        ensures { result ≡ [] }
    {
        Self {
            held: Vec::new(alloc),
        }
    }

    /// Returns the vector of the items, in their order.
    pub fn into_vec(self) -> Vec<T>
        ensures { result.items ≡ self }
    {
        let Items { held } = self;
        held
    }

    /// Returns the number of items.
    pub fn len(&self) -> usize
        ensures { result ≡ length self.now }
    {
        self.held.len()
    }

    /// Returns whether the list is empty.
    pub fn is_empty(&self) -> bool
        ensures { IsTrue result ↔ (self.now ≡ []) }
    {
        self.held.is_empty()
    }

    /// Borrows the items, in their order.
    pub fn as_slice(&self) -> &[T]
        ensures { result.now ≡ self.now }
    {
        &self.held
    }
}
