//! How marks are counted.

ghost use Rattle.std.specs.Prelude.{◌≡◌, IfSome};
ghost use Rattle.plan_progress.specs.Counting as defined;

use crate::counts::Counts;
use crate::names::has_command;
use plan_image::Image;
use plan_machine::{Cause, Mark};

/// Returns the counts before the first mark.
pub(crate) fn no_counts() -> Counts
    ensures { result ≡ defined.no_counts }
{
    Counts {
        started: 0,
        finished: 0,
        clean: 0,
        skipped: 0,
        not_started: 0,
        failed: 0,
        tried: 0,
    }
}

/// Checks whether a mark says how a command edge ended.
pub(crate) fn is_end(image: &Image, mark: Mark) -> bool
    ensures { result ≡ defined.is_end image.now mark }
{
    match mark {
        Mark::Ended(edge, _) => has_command(image, edge),
        Mark::Failed(edge, _) => has_command(image, edge),
        Mark::Skipped(edge, _) => has_command(image, edge),
        Mark::Stopped(edge) => has_command(image, edge),
        _ => false,
    }
}

/// Counts one more edge that has finished. Returns None if the number is too large for a `u64`.
fn one_more_finished(counts: Counts) -> Option<Counts>
    ensures { IfSome result (λ c. c ≡ defined.one_more_finished counts) }
{
    Some(Counts {
        started: counts.started,
        finished: counts.finished.checked_add(1)?,
        clean: counts.clean,
        skipped: counts.skipped,
        not_started: counts.not_started,
        failed: counts.failed,
        tried: counts.tried,
    })
}

/// Counts one more clean edge. Returns None if the number is too large for a `u64`.
fn one_more_clean(counts: Counts) -> Option<Counts>
    ensures { IfSome result (λ c. c ≡ defined.one_more_clean counts) }
{
    Some(Counts {
        started: counts.started,
        finished: counts.finished,
        clean: counts.clean.checked_add(1)?,
        skipped: counts.skipped,
        not_started: counts.not_started,
        failed: counts.failed,
        tried: counts.tried,
    })
}

/// Counts one more edge that was skipped. Returns None if the number is too large for a `u64`.
fn one_more_skipped(counts: Counts) -> Option<Counts>
    ensures { IfSome result (λ c. c ≡ defined.one_more_skipped counts) }
{
    Some(Counts {
        started: counts.started,
        finished: counts.finished,
        clean: counts.clean,
        skipped: counts.skipped.checked_add(1)?,
        not_started: counts.not_started,
        failed: counts.failed,
        tried: counts.tried,
    })
}

/// Counts one more edge that was stopped. Returns None if the number is too large for a `u64`.
fn one_more_not_started(counts: Counts) -> Option<Counts>
    ensures { IfSome result (λ c. c ≡ defined.one_more_not_started counts) }
{
    Some(Counts {
        started: counts.started,
        finished: counts.finished,
        clean: counts.clean,
        skipped: counts.skipped,
        not_started: counts.not_started.checked_add(1)?,
        failed: counts.failed,
        tried: counts.tried,
    })
}

/// Counts one more edge that has started. Returns None if the number is too large for a `u64`.
fn one_more_started(counts: Counts) -> Option<Counts>
    ensures { IfSome result (λ c. c ≡ defined.one_more_started counts) }
{
    Some(Counts {
        started: counts.started.checked_add(1)?,
        finished: counts.finished,
        clean: counts.clean,
        skipped: counts.skipped,
        not_started: counts.not_started,
        failed: counts.failed,
        tried: counts.tried,
    })
}

/// Counts one more edge that failed. Returns None if the number is too large for a `u64`.
fn one_more_failed(counts: Counts) -> Option<Counts>
    ensures { IfSome result (λ c. c ≡ defined.one_more_failed counts) }
{
    Some(Counts {
        started: counts.started,
        finished: counts.finished,
        clean: counts.clean,
        skipped: counts.skipped,
        not_started: counts.not_started,
        failed: counts.failed.checked_add(1)?,
        tried: counts.tried,
    })
}

/// Counts one more edge that was tried. Returns None if the number is too large for a `u64`.
fn one_more_tried(counts: Counts) -> Option<Counts>
    ensures { IfSome result (λ c. c ≡ defined.one_more_tried counts) }
{
    Some(Counts {
        started: counts.started,
        finished: counts.finished,
        clean: counts.clean,
        skipped: counts.skipped,
        not_started: counts.not_started,
        failed: counts.failed,
        tried: counts.tried.checked_add(1)?,
    })
}

/// Counts the command edge of a mark that says how it ended. Returns None if a number is too large for a `u64`.
fn one_more(counts: Counts, mark: Mark) -> Option<Counts>
    ensures { IfSome result (λ c. c ≡ defined.one_more counts mark) }
{
    match mark {
        Mark::Ended(_, true) => one_more_finished(counts),
        Mark::Ended(_, false) => one_more_clean(counts),
        Mark::Failed(_, _) => one_more_finished(counts),
        Mark::Skipped(_, _) => one_more_skipped(counts),
        Mark::Stopped(_) => one_more_not_started(counts),
        _ => Some(counts),
    }
}

/// Counts the edge of a mark if it is a command edge that ended. Returns None if a number is too large for a `u64`.
fn with_end(image: &Image, counts: Counts, mark: Mark) -> Option<Counts>
    ensures { IfSome result (λ c. c ≡ defined.with_end image.now counts mark) }
{
    if is_end(image, mark) {
        one_more(counts, mark)
    } else {
        Some(counts)
    }
}

/// Counts the edge of a mark if it failed. Returns None if the number is too large for a `u64`.
fn with_failure(counts: Counts, mark: Mark) -> Option<Counts>
    ensures { IfSome result (λ c. c ≡ defined.with_failure counts mark) }
{
    match mark {
        Mark::Failed(_, _) => one_more_failed(counts),
        _ => Some(counts),
    }
}

/// Checks whether a mark says that a command edge started, or that an input of it is missing.
fn is_start(image: &Image, mark: Mark) -> bool
    ensures { result ≡ defined.is_start image.now mark }
{
    match mark {
        Mark::Took(edge) => has_command(image, edge),
        Mark::Failed(edge, Cause::MissingInput(_)) => has_command(image, edge),
        _ => false,
    }
}

/// Counts the edge of a mark if it started. Returns None if the number is too large for a `u64`.
fn with_start(image: &Image, counts: Counts, mark: Mark) -> Option<Counts>
    ensures { IfSome result (λ c. c ≡ defined.with_start image.now counts mark) }
{
    if is_start(image, mark) {
        one_more_started(counts)
    } else {
        Some(counts)
    }
}

/// Checks whether a mark says that a command edge started, or that an edge failed for another reason than a missing
/// input.
fn is_try(image: &Image, mark: Mark) -> bool
    ensures { result ≡ defined.is_try image.now mark }
{
    match mark {
        Mark::Took(taken) => has_command(image, taken),
        Mark::Failed(_, cause) => is_other_cause(cause),
        _ => false,
    }
}

/// Checks whether a cause isn't a missing input.
fn is_other_cause(cause: Cause) -> bool
    ensures { result ≡ defined.is_other_cause cause }
{
    match cause {
        Cause::MissingInput(_) => false,
        _ => true,
    }
}

/// Counts the edge of a mark if it was tried. Returns None if the number is too large for a `u64`.
fn with_try(image: &Image, counts: Counts, mark: Mark) -> Option<Counts>
    ensures { IfSome result (λ c. c ≡ defined.with_try image.now counts mark) }
{
    if is_try(image, mark) {
        one_more_tried(counts)
    } else {
        Some(counts)
    }
}

/// Returns the counts after one more mark. None if a number is too large for a `u64`.
pub(crate) fn counted(image: &Image, counts: Counts, mark: Mark) -> Option<Counts>
    ensures { IfSome result (λ c. c ≡ defined.counted image.now counts mark) }
{
    let counts = with_end(image, counts, mark)?;
    let counts = with_failure(counts, mark)?;
    let counts = with_start(image, counts, mark)?;
    with_try(image, counts, mark)
}

/// Returns the number of command edges that have ended. None if it is too large for a `u64`.
pub(crate) fn ended(counts: Counts) -> Option<u64>
    ensures { IfSome result (λ n. n ≡ defined.ended counts) }
{
    let ran = counts.finished.checked_add(counts.clean)?;
    let begun = ran.checked_add(counts.skipped)?;
    begun.checked_add(counts.not_started)
}
