//! Sources of files.

use std::alloc::Global;
use thiserror::Error;

/// The reason why a source returns no bytes.
#[derive(Clone, Copy, Debug, PartialEq, Eq, Error)]
pub enum SourceFault {
    /// There is no such file.
    #[error("no such file")]
    Missing,
    /// The read failed.
    #[error("the read failed")]
    Failed,
    /// Memory ran out.
    #[error("out of memory")]
    Memory,
}

/// A source of files. It may answer differently from one read to the next.
pub trait Source {
    ghost use Rattle.std.specs.Prelude.{◌≡◌, ◌+◌, ℕ, List, Option, if◌then◌else◌};
    ghost use Rattle.plan_scope.specs.Sources.{IsAnswer, SameFiles, is_failed};

    /// The bytes that a read of a path may return, or `None` if the file may be missing.
    ghost gives: { Self → List ℕ → Option (List ℕ) → Type 0 };

    /// Whether a read of this path may fail.
    ghost fails: { Self → List ℕ → Type 0 };

    /// The number of reads that have failed.
    ghost failures: { Self → ℕ };

    /// Reads the file at this path.
    ///
    /// # Errors
    ///
    /// `Missing` if there is no such file, `Failed` if the read failed, `Memory` if memory ran out.
    fn read(&mut self, alloc: Global, path: &[u8]) -> Result<Vec<u8>, SourceFault>
        ensures answer { IsAnswer (gives self.old path.now) (fails self.old path.now) result }
        ensures failures { failures self.new ≡ (if is_failed result then failures self.old + 1 else failures self.old) }
        ensures same { SameFiles (gives self.new) (fails self.new) (gives self.old) (fails self.old) };
}
