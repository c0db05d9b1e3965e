//! What is kept of a run.

/// Says whether the journal of a run is kept, so that it can be read when the run is over, and whether the replies that
/// an edge received can be asked for while it grows.
pub trait Keeping {
    ghost use Rattle.std.specs.Prelude.{◌≡◌, Bool};

    /// Journals are kept.
    ghost keeps: { Bool };

    /// Checks whether journals are kept.
    fn keeps() -> bool
        ensures { result ≡ Self.keeps };

    /// The replies of each edge are kept.
    ghost observes: { Bool };

    /// Checks whether the replies of each edge are kept.
    fn observes() -> bool
        ensures { result ≡ Self.observes };
}
