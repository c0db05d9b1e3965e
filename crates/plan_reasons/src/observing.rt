//! What an edge observed, by its replies in their order.

ghost use Rattle.std.specs.Prelude.{◌≡◌, IfOk, drop, length, take};
ghost use Rattle.plan_compile.specs.Rule.{paths_in};
ghost use Rattle.plan_reasons.specs.Facts.{source_count};
ghost use Rattle.plan_reasons.specs.Replies.{after_input, entry_in, entry_seen, named_stamps, next_stamp, observed, seen, stamp_in, stamps_in};

use crate::facts::{Facts, NamedInput};
use crate::observed::Observed;
use plan_machine::{Recorded, Reply};
use plan_text::Items;
use std::alloc::{AllocError, Global};

/// Returns the first `count` replies, or all if there are fewer.
fn front(replies: &[Reply], count: usize) -> &[Reply]
    ensures { result.now ≡ take count replies.now }
{
    if count < replies.len() {
        &replies[..count]
    } else {
        replies
    }
}

/// Returns the replies after the first `count`, or none if there are fewer.
fn back(replies: &[Reply], count: usize) -> &[Reply]
    ensures { result.now ≡ drop count replies.now }
{
    if count < replies.len() {
        &replies[count..]
    } else {
        &[]
    }
}

/// Returns the stamp that a reply gives, or 0 if it gives none.
fn stamp_in(reply: &Reply) -> u64
    ensures { result ≡ stamp_in reply.now }
{
    match reply {
        Reply::Stamp(stamp) => *stamp,
        _ => 0,
    }
}

/// Returns the stamps that replies give.
fn stamps_in(alloc: Global, replies: &[Reply]) -> Result<Items<u64>, AllocError>
    ensures { IfOk result (λ stamps. stamps ≡ stamps_in replies.now) }
{
    let mut stamps = Vec::with_capacity(alloc, replies.len())?;
    for reply in replies {
        stamps.push(stamp_in(reply))?;
    }
    Ok(Items::new(stamps))
}

/// Returns the number of source files among named inputs.
fn source_count(named: &[NamedInput]) -> usize
    ensures { result ≡ source_count named.now }
{
    let mut count = 0;
    for input in named {
        match *input {
            NamedInput::SourceFile => count += 1,
            NamedInput::Made(_stamp, _changed) => {}
        }
    }
    count
}

/// Returns the stamp of an input: that of a source file is the first of these replies.
fn next_stamp(input: NamedInput, replies: &[Reply]) -> u64
    ensures { result ≡ next_stamp input replies.now }
{
    match input {
        NamedInput::Made(stamp, _changed) => stamp,
        NamedInput::SourceFile => match replies {
            [] => 0,
            [first, ..] => stamp_in(first),
        },
    }
}

/// Returns the replies after that to the question for an input.
fn after_input(input: NamedInput, replies: &[Reply]) -> &[Reply]
    ensures { result.now ≡ after_input input replies.now }
{
    match input {
        NamedInput::Made(_stamp, _changed) => replies,
        NamedInput::SourceFile => match replies {
            [] => &[],
            [_first, others @ ..] => others,
        },
    }
}

/// Returns the stamps of named inputs. Those of source files are these replies, in order.
fn named_stamps(
    alloc: Global,
    named: &[NamedInput],
    replies: &[Reply],
) -> Result<Items<u64>, AllocError>
    ensures { IfOk result (λ stamps. stamps ≡ named_stamps named.now replies.now) }
{
    let mut stamps = Vec::with_capacity(alloc, named.len())?;
    let mut rest = replies;
    for input in named {
        stamps.push(next_stamp(*input, rest))?;
        rest = after_input(*input, rest);
    }
    Ok(Items::new(stamps))
}

/// Returns a copy of the entry that the first of these replies gives.
fn entry_in(replies: &[Reply]) -> Result<Option<Recorded>, AllocError>
    ensures { IfOk result (λ entry. entry_seen entry ≡ entry_in replies.now) }
{
    match replies {
        [] => Ok(None),
        [first, ..] => match first {
            Reply::Entry(recorded) => Ok(Some(recorded.copy()?)),
            _ => Ok(None),
        },
    }
}

/// Returns the number of recorded paths.
fn path_count(entry: &Option<Recorded>) -> usize
    ensures { result ≡ length (paths_in (entry_seen entry.now)) }
{
    match entry {
        Some(recorded) => recorded.paths().len() as usize,
        None => 0,
    }
}

/// Returns what an edge observed, by its facts and by its replies in the order of its questions. Replies that are
/// missing give no stamps and no entry.
pub fn observe(alloc: Global, facts: &Facts, replies: &[Reply]) -> Result<Observed, AllocError>
    ensures { IfOk result (λ o. seen o ≡ observed facts.now replies.now) }
{
    let from_named = back(replies, facts.order_only);
    let from_outputs = back(from_named, source_count(facts.named.as_slice()));
    let from_entry = back(from_outputs, facts.outputs);
    let order_only = stamps_in(alloc, front(replies, facts.order_only))?;
    let named = named_stamps(alloc, facts.named.as_slice(), from_named)?;
    let outputs = stamps_in(alloc, front(from_outputs, facts.outputs))?;
    let entry = entry_in(from_entry)?;
    let recorded = stamps_in(alloc, front(back(from_entry, 1), path_count(&entry)))?;
    Ok(Observed {
        order_only,
        named,
        outputs,
        entry,
        recorded,
    })
}
