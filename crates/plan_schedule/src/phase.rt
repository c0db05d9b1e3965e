//! Phases of edges.

ghost use Rattle.std.specs.Prelude.{◌≡◌, true};
ghost use Rattle.plan_schedule.specs.Phases.{AreAlike, has_failed, holds, is_unsuccessful, is_open};

/// The phase of an edge, with as much detail as the schedule needs. A flag says whether the edge holds a job
/// token.
#[derive(Clone, Copy, PartialEq, Eq)]
pub enum Phase {
    /// It has not begun.
    Unbegun,
    /// It has begun, awaits no reply and isn't at Take.
    Runnable(bool),
    /// It has begun and is at Take.
    AtTake(bool),
    /// It has asked and awaits a reply.
    Waiting(bool),
    /// It succeeded: its outcome is Clean or Ran.
    Succeeded,
    /// It failed.
    Failed,
    /// It was skipped or stopped.
    Abandoned,
    /// It isn't wanted.
    NotWanted,
}

impl Phase {
    /// Returns whether the edge holds a job token.
    pub fn holds(self) -> bool
        ensures { result ≡ holds self }
    {
        match self {
            Phase::Runnable(holds) | Phase::AtTake(holds) | Phase::Waiting(holds) => holds,
            _ => false,
        }
    }

    /// Returns whether the edge failed.
    pub fn has_failed(self) -> bool
        ensures { result ≡ has_failed self }
    {
        matches!(self, Phase::Failed)
    }

    /// Returns whether the edge has no outcome.
    pub fn is_open(self) -> bool
        ensures { result ≡ is_open self }
    {
        matches!(
            self,
            Phase::Unbegun | Phase::Runnable(_) | Phase::AtTake(_) | Phase::Waiting(_)
        )
    }

    /// Returns whether the edge failed, was skipped or was stopped.
    pub fn is_unsuccessful(self) -> bool
        ensures { result ≡ is_unsuccessful self }
    {
        matches!(self, Phase::Failed | Phase::Abandoned)
    }

    /// Returns whether an edge only asks a question or receives a reply by changing to the next phase. Most
    /// events do so.
    pub(crate) fn is_uncounted_change(self, next: Phase) -> bool
        ensures { result ≡ true → AreAlike self next }
    {
        match (self, next) {
            (Phase::Runnable(true), Phase::Waiting(true)) => true,
            (Phase::Runnable(false), Phase::Waiting(false)) => true,
            (Phase::Waiting(true), Phase::Runnable(true)) => true,
            (Phase::Waiting(false), Phase::Runnable(false)) => true,
            _ => false,
        }
    }
}
