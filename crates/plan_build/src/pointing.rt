//! Error messages with a line of a file, as ninja shows them.

use crate::finding::{Finding, after_word, finding_of, first_line};
use plan_printing::{FileSource, MANIFEST_BYTES};
use plan_scope::Source;
use plan_text::number_in;
use std::alloc::{AllocError, Global};
use std::rt::Files;

/// An offset in a file.
#[derive(Clone, Copy)]
pub struct Place<'a> {
    /// The path of the file.
    pub file: &'a [u8],
    /// The offset in bytes, from 0.
    pub offset: u64,
}

/// The number of bytes of a long line that are shown.
const SHOWN: usize = 120;

/// Parses a place of the form `FILE:OFFSET`. None if the text has another form.
pub fn place_in(text: &[u8]) -> Option<Place<'_>> {
    for back in 1..text.len() {
        let at = text.len() - back;
        if text[at] == b':' {
            return match number_in(&text[at + 1..], u64::MAX) {
                Some(offset) => Some(Place {
                    file: &text[..at],
                    offset,
                }),
                None => None,
            };
        }
    }
    None
}

/// Returns the number of the last line of a text, from 1, and the number of bytes of that line.
fn line_and_column(text: &[u8]) -> (u64, usize) {
    let mut line = 1u64;
    let mut column = 0usize;
    for b in text {
        if *b == b'\n' {
            line = line.saturating_add(1);
            column = 0;
        } else {
            column = column.saturating_add(1);
        }
    }
    (line, column)
}

/// The part of a line that is shown, and the column of the caret.
#[derive(Clone, Copy)]
struct Excerpt<'a> {
    before: &'static [u8],
    shown: &'a [u8],
    after: &'static [u8],
    /// The number of blanks before the caret.
    blanks: usize,
}

/// Returns the part of a line that is shown around a column.
fn excerpt_of(line: &[u8], column: usize) -> Excerpt<'_> {
    let cut = column.saturating_sub(SHOWN / 2).min(line.len());
    let rest = &line[cut..];
    let marks = if cut > 0 { 3 } else { 0 };
    Excerpt {
        before: if cut > 0 { b"..." } else { b"" },
        shown: rest.get(..SHOWN).unwrap_or(rest),
        after: if rest.len() > SHOWN { b"..." } else { b"" },
        blanks: column.saturating_sub(cut).saturating_add(marks),
    }
}

/// A message about a place in a file.
#[derive(Drop)]
pub struct Message {
    /// Its first line, without the newline.
    pub head: Vec<u8>,
    /// The line of the place, and a line with a caret below it.
    pub lines: Vec<u8>,
}

/// Returns the first line of a message about a line of a file, without the newline.
fn head_of(
    alloc: Global,
    file: &[u8],
    number: u64,
    sentence: &[u8],
) -> Result<Vec<u8>, AllocError> {
    let digits = number.to_string(alloc)?;
    let mut head = Vec::from_slice(alloc, b"ninja: error: ")?;
    head.extend_from_slice(file)?;
    head.push(b':')?;
    head.extend_from_slice(digits.as_bytes())?;
    head.extend_from_slice(b": ")?;
    head.extend_from_slice(sentence)?;
    Ok(head)
}

/// Returns the part of a line that is shown, and a line with a caret below it.
fn lines_of(alloc: Global, excerpt: Excerpt<'_>) -> Result<Vec<u8>, AllocError> {
    let mut lines = Vec::from_slice(alloc, excerpt.before)?;
    lines.extend_from_slice(excerpt.shown)?;
    lines.extend_from_slice(excerpt.after)?;
    lines.push(b'\n')?;
    for _ in 0..excerpt.blanks {
        lines.push(b' ')?;
    }
    lines.extend_from_slice(b"^ near here\n")?;
    Ok(lines)
}

/// Returns ninja's message for an error in a file with these bytes. The caret is at this offset.
fn shown(
    alloc: Global,
    file: &[u8],
    bytes: &[u8],
    at: usize,
    sentence: &[u8],
) -> Result<Message, AllocError> {
    let offset = at.min(bytes.len());
    let (number, column) = line_and_column(&bytes[..offset]);
    let line = first_line(&bytes[offset - column.min(offset)..]);
    let head = head_of(alloc, file, number, sentence)?;
    let lines = lines_of(alloc, excerpt_of(line, column))?;
    Ok(Message { head, lines })
}

/// Returns a sentence with a name in quotes after it, or without one if the name is empty.
fn sentence_with(
    alloc: Global,
    sentence: &'static [u8],
    name: &[u8],
) -> Result<Vec<u8>, AllocError> {
    let mut text = Vec::from_slice(alloc, sentence)?;
    if !name.is_empty() {
        text.extend_from_slice(b" '")?;
        text.extend_from_slice(name)?;
        text.push(b'\'')?;
    }
    Ok(text)
}

/// Reads a file again.
///
/// # Errors
/// If memory runs out, or the file can't be read.
fn read_again<R: Files + Eprint + AllocGlobal>(rt: &R, file: &[u8]) -> Result<Vec<u8>, AllocError> {
    let mut files = FileSource::new(rt, MANIFEST_BYTES);
    match files.read(rt.alloc(), file) {
        Ok(bytes) => Ok(bytes),
        Err(_) => Err(AllocError),
    }
}

/// Returns the number of bytes before a place, as a position in a list.
fn position_of(place: Place<'_>) -> usize {
    usize::try_from(place.offset).unwrap_or(usize::MAX)
}

/// Reads a file again, and returns ninja's message for the fault with this number at a place in it.
///
/// # Errors
/// If memory runs out, or the file can't be read.
pub fn error_text<R: Files + Eprint + AllocGlobal>(
    rt: &R,
    place: Place<'_>,
    number: u8,
) -> Result<Message, AllocError> {
    let bytes = read_again(rt, place.file)?;
    let Finding { sentence, name, at } = finding_of(number, &bytes, position_of(place));
    let sentence = sentence_with(rt.alloc(), sentence, name)?;
    shown(rt.alloc(), place.file, &bytes, at, &sentence)
}

/// Reads a file again, and returns a message with this sentence about a statement in it. The caret is after a word of
/// the statement, or at its beginning if it doesn't have the word.
///
/// # Errors
/// If memory runs out, or the file can't be read.
pub fn text_after_word<R: Files + Eprint + AllocGlobal>(
    rt: &R,
    place: Place<'_>,
    word: &[u8],
    sentence: &[u8],
) -> Result<Message, AllocError> {
    let bytes = read_again(rt, place.file)?;
    let at = after_word(&bytes, position_of(place), word);
    shown(rt.alloc(), place.file, &bytes, at, sentence)
}
