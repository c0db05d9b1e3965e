//! The files that a running image asks about, and the trait of what answers.

use std::fs;
use std::io::{self, Read};
use std::os::unix::fs::MetadataExt;
use std::rt::Files;

/// The time at which a file was last changed, since 1970.
#[derive(Clone, Copy)]
pub struct ModificationTime {
    /// The seconds. Below 0 for a time before 1970.
    pub seconds: i64,
    /// The nanoseconds of the last second.
    pub nanoseconds: i64,
}

/// Looks at files, and reads them. `RealWorld` learns only from this trait when a file was changed and what a depfile
/// contains. Its proofs hold for every implementation, whatever its `looked` and `held` mean.
pub trait Disk {
    ghost use Rattle.std.specs.IoError.{error_kind};
    ghost use Rattle.std.specs.Prelude.{◌≤◌, IfErr, IfOk, List, None, Option, Some, length, ℕ};
    ghost use Rattle.plan_world.specs.Faults.{IsMissing};
    ghost use Rattle.plan_world.specs.declared.disk.ModificationTime.{ModificationTime as Time};

    /// A look at just this path found that its file was last changed at this time, or found no file.
    ghost looked: { List ℕ → Option Time → Type 0 };

    /// These are the first bytes that were read of the file at just this path, or no file was found there.
    ghost held: { List ℕ → Option (List ℕ) → Type 0 };

    /// Returns when the file at a path was last changed. Links are followed.
    ///
    /// # Errors
    /// The file is missing, or the system can't look at it.
    fn modified(&self, path: &str) -> io::Result<ModificationTime>
        ensures there { IfOk result (λ time. Self.looked path.now (Some time)) }
        ensures missing { IfErr result (λ e. IsMissing (error_kind e) → Self.looked path.now None) };

    /// Returns the bytes of the file at a path, but only the first ones if there are more than `most`.
    ///
    /// # Errors
    /// The file is missing or can't be read, or memory runs out.
    fn read(&self, path: &str, most: usize) -> io::Result<Vec<u8>>
        ensures bytes { IfOk result (λ bytes. Self.held path.now (Some bytes.items)) }
        ensures few { IfOk result (λ bytes. length bytes.items ≤ most) }
        ensures missing { IfErr result (λ e. IsMissing (error_kind e) → Self.held path.now None) };
}

/// The files of the system. The kit's contracts say nothing about what a file contains or when it was changed. So
/// `looked` and `held` allow everything here, and it is trusted, not proved, that the two calls look at the given path.
#[derive(Drop)]
pub struct SystemDisk<R> {
    rt: R,
}

impl<R> SystemDisk<R> {
    /// Returns the files that a runtime reaches.
    pub fn new(rt: R) -> SystemDisk<R> {
        SystemDisk { rt }
    }
}

/// The room for the bytes of a file that is read. Most depfiles need less.
const ROOM: usize = 16_384;

impl<R: Files + AllocGlobal> Disk for SystemDisk<R> {
    ghost looked = { λ _ _. Unit {0} };

    ghost held = { λ _ _. Unit {0} };

    fn modified(&self, path: &str) -> io::Result<ModificationTime> {
        let found = fs::metadata(&self.rt, path)?;
        Ok(ModificationTime {
            seconds: found.mtime(),
            nanoseconds: found.mtime_nsec(),
        })
    }

    fn read(&self, path: &str, most: usize) -> io::Result<Vec<u8>> {
        let file = fs::open(&self.rt, path)?;
        let mut bytes = Vec::with_capacity(self.rt.alloc(), ROOM)?;
        file.take(most as u64).read_to_end(&mut bytes)?;
        bytes.truncate(most);
        Ok(bytes)
    }
}
