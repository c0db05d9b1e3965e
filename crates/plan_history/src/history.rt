//! Histories.

ghost use Rattle.std.specs.Prelude.{◌≡◌, ◌-◌, List, [], ◌∷◌, ◌++◌, length, take};
ghost use Rattle.std.specs.Borrow.{ftrue};

use std::marker::{Model, PhantomData};

/// A list of values that only clauses read, as `items`. It has no bytes, and its functions do nothing when a program
/// runs.
///
/// A struct has one if its clauses speak of all that happened so far, and the program needs none of it. The list is a
/// value for which a proof exists, as a value that a clause says to exist: nothing at run time can be asked of it.
#[derive(Drop)]
pub struct History<T> {
    of: PhantomData<T>,
    pub ghost items: { List T },
}

impl<T> Model for History<T> {
    ghost also_owns = { λ _. ftrue };
}

// A history owns nothing.
unsafe impl<T: Send> Send for History<T> {}

impl<T> History<T> {
    /// Returns a history of nothing.
    #[inline(always)]
    pub fn new() -> History<T>
        ensures { result.items ≡ [] }
    {
        History { of: PhantomData }
    }

    /// Returns this history, and a value behind it.
    #[inline(always)]
    pub fn and(&self, item: &T) -> History<T>
        ensures { result.items ≡ self.now.items ++ item.now ∷ [] }
    {
        let _ = item;
        History { of: PhantomData }
    }

    /// Returns this history without its last value, if it has one.
    #[inline(always)]
    pub fn without_last(&self) -> History<T>
        ensures { result.items ≡ take (length self.now.items - 1) self.now.items }
    {
        History { of: PhantomData }
    }
}
