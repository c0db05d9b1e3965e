//! Lists of paths that only proofs read.

ghost use Rattle.std.specs.Prelude.{◌≡◌, List, ℕ, [], ◌∷◌, ◌++◌};
ghost use Rattle.std.specs.Borrow.{ftrue};

use std::marker::Model;

/// A path that is given to a list that only proofs read.
#[derive(Clone, Copy, Drop)]
pub struct GivenPath<'a> {
    /// Its bytes.
    pub bytes: &'a [u8],
}

/// A list of paths that only contracts read, as `paths`. It takes no memory, and costs nothing at run time.
#[derive(Drop)]
pub struct GhostPaths {
    /// The paths.
    pub ghost paths: { List (List ℕ) },
}

impl Model for GhostPaths {
    ghost also_owns = { λ _. ftrue };
}

// A struct with `also_owns` is neither by itself. This one owns nothing.
unsafe impl Send for GhostPaths {}

unsafe impl Sync for GhostPaths {}

impl GhostPaths {
    /// Returns a list of no paths.
    #[inline(always)]
    pub fn new() -> GhostPaths
        ensures { result.paths ≡ [] }
    {
        GhostPaths {}
    }

    /// Returns this list with one more path at its end.
    #[inline(always)]
    pub fn and(&self, _path: &GivenPath<'_>) -> GhostPaths
        ensures { result.paths ≡ self.now.paths ++ _path.now.bytes.now ∷ [] }
    {
        GhostPaths {}
    }
}
