//! Reads replies from the words of a line.

ghost use Rattle.std.specs.Prelude.{◌≡◌, IfOk, map, option_map};
ghost use Rattle.plan_machine.specs.declared.event.reply.Reply.TheVariants as replies;
ghost use Rattle.plan_trace.specs.Reading as defined;
ghost use Rattle.plan_trace.specs.Words as words;

use crate::hex::bytes_of;
use crate::number::number_of;
use plan_depfile::Parsed;
use plan_machine::{Depfile, Recorded, Reply};
use plan_text::RowList;
use plan_verify::{PathList, Words};
use std::alloc::{AllocError, Global};

/// Returns a reply of one word. Returns None if the word is no reply.
fn plain_reply(word: &[u8]) -> Option<Reply>
    ensures { result ≡ defined.plain_reply word.now }
{
    if word == b"none".as_slice() {
        Some(Reply::Nothing)
    } else if word == b"signal".as_slice() {
        Some(Reply::Signal)
    } else if word == b"notstarted".as_slice() {
        Some(Reply::NotStarted)
    } else if word == b"kept".as_slice() {
        Some(Reply::Kept)
    } else if word == b"fault".as_slice() {
        Some(Reply::Fault)
    } else {
        None
    }
}

/// Returns the reply with a depfile of these bytes.
fn depfile_reply(alloc: Global, bytes: Vec<u8>) -> Result<Reply, AllocError>
    ensures { IfOk result (λ r. r ≡ replies.Bytes bytes.items) }
{
    match Parsed::of(alloc, bytes) {
        Ok(parsed) => Ok(Reply::Bytes(Depfile::new(alloc, parsed)?)),
        Err(_) => Err(AllocError),
    }
}

/// Returns the reply with a depfile of the bytes in a word.
fn bytes_reply(alloc: Global, word: &[u8]) -> Result<Option<Reply>, AllocError>
    ensures { IfOk result (λ r. r ≡ option_map replies.Bytes (words.bytes_of word.now)) }
{
    match bytes_of(alloc, word)? {
        Some(bytes) => Ok(Some(depfile_reply(alloc, bytes)?)),
        None => Ok(None),
    }
}

/// Returns the reply with the time at which a file was last changed.
fn stamp_reply(word: &[u8]) -> Option<Reply>
    ensures { result ≡ option_map replies.Stamp (words.number_of 18446744073709551615 word.now) }
{
    match number_of(word, u64::MAX) {
        Some(stamp) => Some(Reply::Stamp(stamp)),
        None => None,
    }
}

/// Returns the reply with the exit status of a command.
fn exit_reply(word: &[u8]) -> Option<Reply>
    ensures { result ≡ option_map replies.Exit (words.number_of 255 word.now) }
{
    match number_of(word, 255) {
        Some(status) => Some(Reply::Exit(status as u8)),
        None => None,
    }
}

/// Returns a reply of two words. Returns None if the words are no reply.
fn reply_with(alloc: Global, word: &[u8], more: &[u8]) -> Result<Option<Reply>, AllocError>
    ensures { IfOk result (λ r. r ≡ defined.reply_with word.now more.now) }
{
    if word == b"stamp".as_slice() {
        return Ok(stamp_reply(more));
    }
    if word == b"exit".as_slice() {
        return Ok(exit_reply(more));
    }
    if word == b"bytes".as_slice() {
        return bytes_reply(alloc, more);
    }
    Ok(None)
}

/// Returns the paths in these words. Returns None if one of the words has another form.
#[tactic(auto, using(crate::proofs::RepliesLemmas::path_more, crate::proofs::RepliesLemmas::no_path))]
fn paths_of(alloc: Global, words: &[&[u8]]) -> Result<Option<RowList<u8>>, AllocError>
    ensures { IfOk result (λ p. p ≡ defined.paths_of (map (λ w. w.now) words.now)) }
{
    let mut paths = RowList::new(alloc);
    for word in words {
        match bytes_of(alloc, word)? {
            Some(path) => paths.push(&path)?,
            None => return Ok(None),
        }
    }
    Ok(Some(paths))
}

/// Returns the reply with an entry of these parts.
fn recorded_reply(
    alloc: Global,
    basis: u64,
    command: Vec<u8>,
    paths: RowList<u8>,
) -> Result<Reply, AllocError>
    ensures { IfOk result (λ r. r ≡ replies.Entry (record { command = command.items; basis = basis; paths = paths })) }
{
    let command = Words::new(alloc, command)?;
    let paths = PathList::new(alloc, paths)?;
    Ok(Reply::Entry(Recorded::new(alloc, command, basis, paths)?))
}

/// Returns the reply with an entry of the record.
fn entry_of(
    alloc: Global,
    basis: &[u8],
    command: &[u8],
    paths: &[&[u8]],
) -> Result<Option<Reply>, AllocError>
    ensures { IfOk result (λ r. r ≡ defined.entry_of basis.now command.now (map (λ w. w.now) paths.now)) }
{
    let Some(basis) = number_of(basis, u64::MAX) else {
        return Ok(None);
    };
    let Some(command) = bytes_of(alloc, command)? else {
        return Ok(None);
    };
    let Some(paths) = paths_of(alloc, paths)? else {
        return Ok(None);
    };
    Ok(Some(recorded_reply(alloc, basis, command, paths)?))
}

/// Returns the reply with an entry of the record, after the word `entry`.
fn worded_entry(
    alloc: Global,
    word: &[u8],
    basis: &[u8],
    command: &[u8],
    paths: &[&[u8]],
) -> Result<Option<Reply>, AllocError>
    ensures { IfOk result (λ r. r ≡ defined.worded_entry word.now basis.now command.now (map (λ w. w.now) paths.now)) }
{
    if word != b"entry".as_slice() {
        return Ok(None);
    }
    entry_of(alloc, basis, command, paths)
}

/// Returns the reply in these words. Returns None if they are no reply.
pub(crate) fn reply_of(alloc: Global, words: &[&[u8]]) -> Result<Option<Reply>, AllocError>
    ensures { IfOk result (λ r. r ≡ defined.reply_of (map (λ w. w.now) words.now)) }
{
    match words {
        [] => Ok(None),
        [word] => Ok(plain_reply(word)),
        [word, more] => reply_with(alloc, word, more),
        [word, basis, command, paths @ ..] => worded_entry(alloc, word, basis, command, paths),
    }
}
