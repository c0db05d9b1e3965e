//! Sorts of events.

ghost use Rattle.std.specs.Prelude.{◌≡◌};
ghost use Rattle.plan_journal.specs.Columns as columns;

/// The sort of an event, which says which columns have a part of it: one byte.
#[derive(Clone, Copy, PartialEq, Eq)]
pub(crate) enum Sort {
    /// An edge begins.
    Start,
    /// An edge is stopped.
    Stop,
    /// An edge makes its next step.
    Step,
    /// An edge receives a stamp.
    Stamp,
    /// Any other event, which is kept whole.
    Whole,
}

impl Sort {
    /// Returns the number of stamps that are kept of such an event.
    pub(crate) fn stamps(self) -> usize
        ensures { result ≡ columns.stamps_in self }
    {
        match self {
            Sort::Stamp => 1,
            _ => 0,
        }
    }

    /// Returns the number of whole events that are kept of it.
    pub(crate) fn wholes(self) -> usize
        ensures { result ≡ columns.wholes_in self }
    {
        match self {
            Sort::Whole => 1,
            _ => 0,
        }
    }
}
