//! Escape sequences, by which programs tell a terminal to use colours, to move its cursor or to show a link.

ghost use Rattle.std.specs.Prelude.{◌≡◌, IfOk};
ghost use Rattle.std.specs.List.{list_any};
ghost use Rattle.plan_output.specs.Escapes as defined;

use std::alloc::{AllocError, Global};

/// The state of a terminal between two bytes.
#[derive(Clone, Copy)]
pub enum Reading {
    /// It shows text.
    Text,
    /// It read `ESC`, and perhaps intermediate bytes.
    Escape,
    /// It is in a control sequence, which begins with `ESC [` and ends with a letter or one of `@[\]^_` and `` `{|}~
    /// ``.
    ControlSequence,
    /// It is in a control string, such as a link or a title, which ends with `BEL` or with another escape sequence.
    ControlString,
}

/// Returns the state after a byte that isn't a control character and that follows `ESC`.
fn after_escape(byte: u8) -> Reading
    ensures { result ≡ defined.after_escape byte }
{
    if byte == 91 {
        return Reading::ControlSequence;
    }
    if byte == 93 || byte == 80 || byte == 88 || byte == 94 || byte == 95 {
        return Reading::ControlString;
    }
    if byte < 48 {
        return Reading::Escape;
    }
    Reading::Text
}

/// Returns the state after a byte.
fn next(reading: Reading, byte: u8) -> Reading
    ensures { result ≡ defined.next reading byte }
{
    if byte == 27 {
        return Reading::Escape;
    }
    if byte < 32 {
        return Reading::Text;
    }
    match reading {
        Reading::Text => Reading::Text,
        Reading::Escape => after_escape(byte),
        Reading::ControlSequence => {
            if byte < 64 {
                Reading::ControlSequence
            } else {
                Reading::Text
            }
        }
        Reading::ControlString => Reading::ControlString,
    }
}

/// Checks whether a byte is text, in this state.
fn is_text(reading: Reading, byte: u8) -> bool
    ensures { result ≡ defined.is_text reading byte }
{
    match reading {
        Reading::Text => byte != 27,
        Reading::Escape | Reading::ControlSequence => byte != 27 && (byte < 32 || byte > 126),
        Reading::ControlString => byte != 27 && byte != 7 && byte < 32,
    }
}

/// Returns a text without its escape sequences.
fn without_escapes(alloc: Global, text: &[u8]) -> Result<Vec<u8>, AllocError>
    ensures { IfOk result (λ plain. plain.items ≡ defined.without_escapes text.now) }
{
    let mut plain = Vec::with_capacity(alloc, text.len())?;
    let mut reading = Reading::Text;
    for at in 0..text.len() {
        if is_text(reading, text[at]) {
            plain.push(text[at])?;
        }
        reading = next(reading, text[at]);
    }
    Ok(plain)
}

/// Checks whether a text has the byte with which each escape sequence begins.
fn has_escape(text: &[u8]) -> bool
    ensures { result ≡ list_any defined.is_escape text.now }
{
    text.iter().any(|b| *b == 27)
}

/// Returns a text without its escape sequences. A text that has none isn't copied.
#[tactic(auto, using(crate::proofs::EscapesLemmas::plain_stays))]
fn plain_text(alloc: Global, text: Vec<u8>) -> Result<Vec<u8>, AllocError>
    ensures { IfOk result (λ plain. plain.items ≡ defined.without_escapes text.items) }
{
    if has_escape(&text) {
        return without_escapes(alloc, &text);
    }
    Ok(text)
}

/// Checks whether the last line of a text has no line feed.
fn lacks_line_end(text: &[u8]) -> bool
    ensures { result ≡ defined.lacks_line_end text.now }
{
    match text.last() {
        Some(byte) => *byte != 10,
        None => false,
    }
}

/// Returns a text whose last line has a line feed.
fn with_line_end(text: Vec<u8>) -> Result<Vec<u8>, AllocError>
    ensures { IfOk result (λ ended. ended.items ≡ defined.with_line_end text.items) }
{
    let mut text = text;
    if lacks_line_end(&text) {
        text.push(10)?;
    }
    Ok(text)
}

/// Returns the output of a command as it is shown. If `escapes` is false, its escape sequences (ECMA-48) are removed,
/// those of colours, of the cursor and of links alike. A sequence that isn't complete ends before a control character
/// such as a line feed, so no later line is lost. If the last line has no line feed, it gets one.
///
/// # Errors
/// `AllocError` if memory runs out.
pub fn shown_output(alloc: Global, text: Vec<u8>, escapes: bool) -> Result<Vec<u8>, AllocError>
    ensures { IfOk result (λ shown. shown.items ≡ defined.shown_output escapes text.items) }
{
    if escapes {
        return with_line_end(text);
    }
    let plain = plain_text(alloc, text)?;
    with_line_end(plain)
}
