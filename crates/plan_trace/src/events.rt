//! Reads events, targets and options from lines.

ghost use Rattle.std.specs.Prelude.{◌≡◌, IfOk, Some, map, option_map};
ghost use Rattle.plan_machine.specs.declared.event.Event.TheVariants.{Reply as Hear};
ghost use Rattle.plan_trace.specs.Reading as defined;
ghost use Rattle.plan_trace.specs.Words as words;

use crate::number::{number_of, short_number_of};
use crate::replies::reply_of;
use crate::words::words_of;
use plan_machine::{Event, Options};
use std::alloc::{AllocError, Global};

/// Returns an event of two words. Returns None if the words are no event.
fn plain_event(kind: &[u8], edge: u32) -> Option<Event>
    ensures { result ≡ defined.plain_event kind.now edge }
{
    if kind == b"start".as_slice() {
        Some(Event::Start(edge))
    } else if kind == b"step".as_slice() {
        Some(Event::Step(edge))
    } else if kind == b"stop".as_slice() {
        Some(Event::Stop(edge))
    } else {
        None
    }
}

/// Returns the event that skips an edge because of the edge in these words.
fn skip_of(edge: u32, words: &[&[u8]]) -> Option<Event>
    ensures { result ≡ defined.skip_of edge (map (λ w. w.now) words.now) }
{
    match words {
        [wait] => match short_number_of(wait) {
            Some(wait) => Some(Event::Skip(edge, wait)),
            None => None,
        },
        _ => None,
    }
}

/// Returns the event in which an edge receives the reply in these words.
fn hear_of(alloc: Global, edge: u32, words: &[&[u8]]) -> Result<Option<Event>, AllocError>
    ensures { IfOk result (λ e. e ≡ option_map (Hear edge) (defined.reply_of (map (λ w. w.now) words.now))) }
{
    match reply_of(alloc, words)? {
        Some(reply) => Ok(Some(Event::Reply(edge, reply))),
        None => Ok(None),
    }
}

/// Returns an event of three words or more.
fn event_with(
    alloc: Global,
    kind: &[u8],
    edge: u32,
    words: &[&[u8]],
) -> Result<Option<Event>, AllocError>
    ensures { IfOk result (λ e. e ≡ defined.event_with kind.now edge (map (λ w. w.now) words.now)) }
{
    if kind == b"reply".as_slice() {
        return hear_of(alloc, edge, words);
    }
    if kind == b"skip".as_slice() {
        return Ok(skip_of(edge, words));
    }
    Ok(None)
}

/// Returns an event of an edge.
fn event_by(
    alloc: Global,
    kind: &[u8],
    edge: u32,
    words: &[&[u8]],
) -> Result<Option<Event>, AllocError>
    ensures { IfOk result (λ e. e ≡ defined.event_by kind.now (Some edge) (map (λ w. w.now) words.now)) }
{
    match words {
        [] => Ok(plain_event(kind, edge)),
        [_, ..] => event_with(alloc, kind, edge, words),
    }
}

/// Returns the event in these words. Returns None if they are no event.
fn event_of(alloc: Global, words: &[&[u8]]) -> Result<Option<Event>, AllocError>
    ensures { IfOk result (λ e. e ≡ defined.event_of (map (λ w. w.now) words.now)) }
{
    match words {
        [] => Ok(None),
        [_] => Ok(None),
        [kind, edge, rest @ ..] => match short_number_of(edge) {
            Some(edge) => event_by(alloc, kind, edge, rest),
            None => Ok(None),
        },
    }
}

/// Returns the event in a line. Returns None if the line is no event.
pub(crate) fn event_in(alloc: Global, line: &[u8]) -> Result<Option<Event>, AllocError>
    ensures { IfOk result (λ e. e ≡ defined.event_of (defined.words_of line.now)) }
{
    let words = words_of(alloc, line)?;
    event_of(alloc, &words)
}

/// Returns the target in these words. Returns None if they are no target.
fn target_of(words: &[&[u8]]) -> Option<u32>
    ensures { result ≡ defined.target_of (map (λ w. w.now) words.now) }
{
    match words {
        [kind, edge] => {
            if *kind != b"target".as_slice() {
                return None;
            }
            short_number_of(edge)
        }
        _ => None,
    }
}

/// Returns the target in a line. Returns None if the line is no target.
pub(crate) fn target_in(alloc: Global, line: &[u8]) -> Result<Option<u32>, AllocError>
    ensures { IfOk result (λ e. e ≡ defined.target_of (defined.words_of line.now)) }
{
    let words = words_of(alloc, line)?;
    Ok(target_of(&words))
}

/// The greatest number of jobs in a trace.
const MOST_JOBS: u64 = 64;

/// Returns options with these two numbers. Returns None if a trace can't have as many jobs.
#[tactic(auto, using(crate::proofs::OptionsLemmas::within, crate::proofs::OptionsLemmas::beyond))]
fn options_with(jobs: u64, keep: u32) -> Option<Options>
    ensures { result ≡ defined.options_by (Some jobs) (Some keep) }
{
    if jobs > MOST_JOBS {
        return None;
    }
    Options::new(jobs as u16, keep)
}

/// Returns the options in these two words.
fn options_by(jobs: &[u8], keep: &[u8]) -> Option<Options>
    ensures { result ≡ defined.options_by (words.number_of 255 jobs.now) (words.number_of 4294967295 keep.now) }
{
    match (number_of(jobs, 255), short_number_of(keep)) {
        (Some(jobs), Some(keep)) => options_with(jobs, keep),
        _ => None,
    }
}

/// Returns whether these are the words of the first line that are not numbers.
fn is_head(name: &[u8], version: &[u8], j: &[u8], k: &[u8]) -> bool
    ensures { result ≡ defined.is_head name.now version.now j.now k.now }
{
    name == b"plan-trace".as_slice()
        && version == b"1".as_slice()
        && j == b"j".as_slice()
        && k == b"k".as_slice()
}

/// Returns the options in these words. Returns None if they are no options.
fn options_of(words: &[&[u8]]) -> Option<Options>
    ensures { result ≡ defined.options_of (map (λ w. w.now) words.now) }
{
    match words {
        [name, version, j, jobs, k, keep] => {
            if !is_head(name, version, j, k) {
                return None;
            }
            options_by(jobs, keep)
        }
        _ => None,
    }
}

/// Returns the options in a line. Returns None if the line has none.
pub(crate) fn options_in(alloc: Global, line: &[u8]) -> Result<Option<Options>, AllocError>
    ensures { IfOk result (λ o. o ≡ defined.options_of (defined.words_of line.now)) }
{
    let words = words_of(alloc, line)?;
    Ok(options_of(&words))
}
