//! The time that a build has taken.

/// The time that a build has taken so far.
pub trait Stopwatch {
    ghost use Rattle.std.specs.Prelude.{ℕ};

    /// The stopwatch showed this number of milliseconds. Formats are proved for every meaning of it, so they show no
    /// time that it didn't show.
    ghost showed: { Self → ℕ → Type 0 };

    /// Returns how many milliseconds have passed since the build began.
    fn elapsed(&self) -> u64
        ensures { Self.showed self.now result };
}
