//! Adds paths to the edges of a manifest.

ghost use Rattle.std.specs.Prelude.{◌≡◌, ℕ, OnErr, OnOk, take};
ghost use Rattle.plan_scope.specs.Extended.{extended, with_addition};

use crate::edge::addition::Addition;
use crate::manifest::Manifest;
use std::alloc::{AllocError, Global};

impl Manifest {
    /// Adds paths to the edge with the addition's number, if there is one.
    ///
    /// # Errors
    ///
    /// `AllocError` if memory runs out, or if all edges then had more than 4,294,967,295 paths. The manifest stays as
    /// it is.
    pub fn extend(&mut self, alloc: Global, addition: &Addition) -> Result<(), AllocError>
        ensures added { OnOk result (self.new ≡ with_addition self.old addition.now) }
        ensures same { OnErr result (self.new ≡ self.old) }
    {
        self.edges.extend(alloc, addition)
    }

    /// Adds the paths of several additions, one after the other. An edge may have several.
    ///
    /// # Errors
    ///
    /// `AllocError` as for `extend`. The additions before the one that failed were made.
    pub fn extend_all(&mut self, alloc: Global, additions: &[Addition]) -> Result<(), AllocError>
        ensures added { OnOk result (self.new ≡ extended additions.now self.old) }
        ensures some { OnErr result ((count : ℕ) × (self.new ≡ extended (take count additions.now) self.old)) }
    {
        for number in 0..additions.len() {
            self.extend(alloc, &additions[number])?;
        }
        Ok(())
    }
}
