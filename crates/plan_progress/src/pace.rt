//! How fast the last commands finished.

ghost use Rattle.std.specs.Prelude.{◌≡◌, IfOk, IfSome};
ghost use Rattle.plan_progress.specs.Pace as defined;

use crate::names::has_command;
use plan_image::Image;
use plan_machine::Mark;
use std::alloc::{AllocError, Global};

/// The time of a line, and how fast commands finished before it.
#[derive(Clone, Copy, PartialEq, Eq)]
pub struct Pace {
    /// The milliseconds since the build began.
    pub elapsed: u64,
    /// How many commands finish in ten seconds, by the last ones that did. None if it isn't known.
    pub rate: Option<u64>,
}

/// Checks whether a mark says that a command ran or failed.
fn is_finish(image: &Image, mark: Mark) -> bool
    ensures { result ≡ defined.is_finish image.now mark }
{
    match mark {
        Mark::Ended(edge, true) => has_command(image, edge),
        Mark::Failed(edge, _) => has_command(image, edge),
        _ => false,
    }
}

/// Returns times without the first one.
fn without_first(times: &[u64]) -> &[u64]
    ensures { result.now ≡ defined.without_first times.now }
{
    match times {
        [] => &[],
        [_, rest @ ..] => rest,
    }
}

/// Returns the times that are kept if one more comes.
fn kept(times: &[u64]) -> &[u64]
    ensures { result.now ≡ defined.kept times.now }
{
    if times.len() < 8 {
        times
    } else {
        without_first(times)
    }
}

/// Returns the times of the last commands that finished, after one more mark.
pub(crate) fn times_then(
    alloc: Global,
    image: &Image,
    times: &[u64],
    mark: Mark,
    elapsed: u64,
) -> Result<Vec<u64>, AllocError>
    ensures { IfOk result (λ all. all.items ≡ defined.times_then image.now times.now mark elapsed) }
{
    if !is_finish(image, mark) {
        return Ok(Vec::from_slice(alloc, times)?);
    }
    let mut all = Vec::from_slice(alloc, kept(times))?;
    all.push(elapsed)?;
    Ok(all)
}

/// Returns how many commands finish in ten seconds, if so many do in a time. None if the time is 0, or if a number is
/// too large for a `u64`.
pub(crate) fn per_ten_seconds(count: u64, time: u64) -> Option<u64>
    ensures { IfSome result (λ n. n ≡ defined.per_ten_seconds count time) }
{
    let finished = count.checked_mul(10)?.checked_mul(1000)?;
    let rounded = finished.checked_add(time / 2)?;
    rounded.checked_div(time)
}

/// Returns the milliseconds between the first of these times and the last.
fn between(times: &[u64]) -> u64
    ensures { result ≡ defined.between times.now }
{
    if times.is_empty() {
        return 0;
    }
    times[times.len() - 1].saturating_sub(times[0])
}

/// Returns how many commands finish in ten seconds, by the times of the last ones. None if it isn't known.
///
/// # Errors
/// A number is too large for a `u64`.
pub(crate) fn recent_rate(times: &[u64]) -> Result<Option<u64>, AllocError>
    ensures { IfOk result (λ rate. rate ≡ defined.recent_rate times.now) }
{
    let time = between(times);
    if time == 0 {
        return Ok(None);
    }
    match per_ten_seconds(times.len() as u64, time) {
        Some(rate) => Ok(Some(rate)),
        None => Err(AllocError),
    }
}
