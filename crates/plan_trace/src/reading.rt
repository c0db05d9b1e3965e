//! Reads traces from their text.

ghost use Rattle.std.specs.Prelude.{◌≡◌, ◌≢◌, ◌<◌, ◌≤◌, ◌+◌, ◌^◌, ℕ, [], ◌∷◌, Err, IfOk, IfSome, Some, length};
ghost use Rattle.std.specs.Option.{IfNone};
ghost use Rattle.plan_text.specs.Outcome.{Meets};
ghost use Rattle.plan_trace.specs.declared.fault.TraceFault.TheVariants.{BadTrace};
ghost use Rattle.plan_trace.specs.Reading as defined;
ghost use Rattle.plan_trace.specs.Words.{parts_at};

use crate::events::{event_in, options_in, target_in};
use crate::fault::TraceFault;
use crate::trace::Trace;
use crate::words::cut_at;
use plan_machine::{Event, Options};
use plan_text::Items;
use std::alloc::{AllocError, Global};

/// Returns the target in the first line, and the text after that line. Returns None if the line is no target.
fn first_target(alloc: Global, text: &[u8]) -> Result<Option<(u32, &[u8])>, AllocError>
    ensures some { IfOk result (λ found. IfSome found (λ x. (defined.targets_of (parts_at 10 text.now) ≡ x.0 ∷ defined.targets_of (parts_at 10 x.1.now))
        × (defined.behind_targets (parts_at 10 text.now) ≡ defined.behind_targets (parts_at 10 x.1.now)) × (length x.1.now < length text.now))) }
    ensures none { IfOk result (λ found. IfNone found ((defined.targets_of (parts_at 10 text.now) ≡ []) × (defined.behind_targets (parts_at 10 text.now) ≡ parts_at 10 text.now))) }
{
    let Some((line, behind)) = cut_at(text, b'\n') else {
        return Ok(None);
    };
    match target_in(alloc, line)? {
        Some(target) => Ok(Some((target, behind))),
        None => Ok(None),
    }
}

/// Returns the targets, and the text after them.
fn read_targets(alloc: Global, text: &[u8]) -> Result<(Vec<u32>, &[u8]), AllocError>
    ensures targets { IfOk result (λ x. x.0.items ≡ defined.targets_of (parts_at 10 text.now)) }
    ensures behind { IfOk result (λ x. parts_at 10 x.1.now ≡ defined.behind_targets (parts_at 10 text.now)) }
    ensures short { IfOk result (λ x. length x.0.items + length x.1.now ≤ length text.now) }
{
    let mut targets = Vec::new(alloc);
    let mut rest = text;
    while !rest.is_empty() {
        match first_target(alloc, rest)? {
            Some((target, behind)) => {
                targets.push(target)?;
                rest = behind;
            }
            None => return Ok((targets, rest)),
        }
    }
    Ok((targets, rest))
}

/// Returns the event in the first line, and the text after that line. Returns None if the line is no event.
fn first_event(alloc: Global, text: &[u8]) -> Result<Option<(Event, &[u8])>, AllocError>
    ensures some { IfOk result (λ found. IfSome found (λ x. ((n : ℕ) → defined.events_of n (parts_at 10 text.now) ≡ defined.then_event n (Some x.0) (defined.events_of (n + 1) (parts_at 10 x.1.now)))
        × (length x.1.now < length text.now))) }
    ensures none { IfOk result (λ found. IfNone found ((n : ℕ) → text.now ≢ [] → defined.events_of n (parts_at 10 text.now) ≡ Err (BadTrace n))) }
{
    let Some((line, behind)) = cut_at(text, b'\n') else {
        return Ok(None);
    };
    match event_in(alloc, line)? {
        Some(event) => Ok(Some((event, behind))),
        None => Ok(None),
    }
}

/// Returns the events in the lines of a text. The first line has this number.
fn read_events(alloc: Global, text: &[u8], number: u64) -> Result<Vec<Event>, TraceFault>
    requires { number + length text.now < 2 ^ 64 }
    ensures { Meets TraceFault.Memory (λ events. events.items) result (defined.events_of number (parts_at 10 text.now)) }
{
    let mut events = Vec::new(alloc);
    let mut rest = text;
    let mut line = number;
    while !rest.is_empty() {
        match first_event(alloc, rest)? {
            Some((event, behind)) => {
                events.push(event)?;
                rest = behind;
                line += 1;
            }
            None => return Err(TraceFault::BadTrace(line)),
        }
    }
    Ok(events)
}

/// Reads the lines after the first one.
fn read_behind(alloc: Global, options: Options, text: &[u8]) -> Result<Trace, TraceFault>
    ensures { Meets TraceFault.Memory (λ trace. trace) result (defined.with_head (Some options) (parts_at 10 text.now)) }
{
    let (targets, rest) = read_targets(alloc, text)?;
    let events = read_events(alloc, rest, targets.len() as u64 + 2)?;
    Ok(Trace {
        options,
        targets: Items::new(targets),
        events: Items::new(events),
    })
}

/// Reads a trace from a text. The first line has its options. Then come lines with one target each, and then
/// lines with one event each. Words are separated by one space, and lines end with a line feed. Numbers are
/// decimal without leading zeros, and bytes are hexadecimal in lower case, or a dash if there are none. A trace
/// therefore has only one spelling.
///
/// # Errors
///
/// - `BadTrace` with the number of the first line that is not allowed at its place.
/// - `Memory` if memory runs out.
pub fn read_trace(alloc: Global, text: &[u8]) -> Result<Trace, TraceFault>
    ensures { Meets TraceFault.Memory (λ trace. trace) result (defined.read_of text.now) }
{
    let Some((line, behind)) = cut_at(text, b'\n') else {
        return Err(TraceFault::BadTrace(1));
    };
    match options_in(alloc, line)? {
        Some(options) => read_behind(alloc, options, behind),
        None => Err(TraceFault::BadTrace(1)),
    }
}
