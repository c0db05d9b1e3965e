//! Counts that only proofs read.

ghost use Rattle.std.specs.Prelude.{◌≡◌, ◌+◌, ℕ};
ghost use Rattle.std.specs.Borrow.{ftrue};

use std::marker::Model;

/// A number that only contracts read, as `count`. It takes no memory, has no greatest value, and costs nothing
/// at run time.
///
/// The `GhostCounter` counts only the events for which its owner calls `next`. A ghost member of a trait, such as
/// `failures` of `Sink`, gives the count its meaning.
#[derive(Drop)]
pub struct GhostCounter {
    /// The number.
    pub ghost count: { ℕ },
}

impl Model for GhostCounter {
    ghost also_owns = { λ _. ftrue };
}

impl GhostCounter {
    /// Creates the count 0.
    pub fn new() -> GhostCounter
        ensures { result.count ≡ 0 }
    {
        GhostCounter {}
    }

    /// Returns the count plus one.
    pub fn next(&self) -> GhostCounter
        ensures { result.count ≡ self.now.count + 1 }
    {
        Self {}
    }
}
