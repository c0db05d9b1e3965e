//! Splits a text into logical lines, and finds bytes and runs in it.

ghost use Rattle.std.specs.Prelude.{◌≡◌, take, ◌<◌, ◌≤◌, ◌+◌, length, ◌==◌, drop};
ghost use Rattle.plan_text.specs.Lines as syntax;
ghost use Rattle.plan_text.specs.Runs as runs;
ghost use Rattle.plan_text.specs.Outcome.{Meets};
ghost use Rattle.std.specs.List.{position_or_len};
ghost use Rattle.plan_text.specs.Bytes.{nul, begins_with};
ghost use Rattle.plan_text.specs.Runs.{run};

use crate::fault::TextFault;
use crate::limits::MAX_SOURCE;
use memchr::{memchr, memchr3};
use std::alloc::Global;

/// A logical line that is neither blank nor a comment. Offsets and counts are in bytes. Offsets count from 0 at
/// the start of the text.
#[derive(Clone, Copy, PartialEq, Eq)]
pub struct Line {
    /// The number of spaces that it begins with.
    pub indent: u32,
    /// The offset of its first byte after these spaces. If a continuation follows them, this byte is its `$`.
    pub start: u64,
    /// The offset of the newline that ends it, or of the end of the text.
    pub end: u64,
}

/// Returns the length of the newline that a text begins with, in bytes: 1 for LF, 2 for CR LF, and 0 if it
/// begins with none.
///
/// Accepting CR LF as a newline, and a single CR as an ordinary byte, is this project's own choice.
pub fn newline_len(text: &[u8]) -> usize
    ensures len { result ≡ syntax.newline_len text.now }
    ensures within { result ≤ length text.now }
{
    match text {
        [b'\n', ..] => 1,
        [b'\r', b'\n', ..] => 2,
        _ => 0,
    }
}

/// Returns the number of bytes that a `$` escapes at the front of the text after it: the length of a newline,
/// or else 1. Returns 0 if the text is empty.
fn escaped_len(text: &[u8]) -> usize
    ensures len { result ≡ syntax.escaped_len text.now }
    ensures within { result ≤ length text.now }
{
    if text.is_empty() {
        return 0;
    }
    let newline = newline_len(text);
    if newline > 0 { newline } else { 1 }
}

/// A unit of a logical line: a byte, or a `$` with the byte or newline that it escapes.
struct LineUnit;

impl Unit for LineUnit {
    ghost size = { syntax.line_unit };

    fn plain_len(text: &[u8]) -> usize {
        memchr3(b'\n', b'\r', b'$', text).unwrap_or(text.len())
    }

    fn unit_len(text: &[u8]) -> usize {
        if newline_len(text) > 0 {
            return 0;
        }
        match text {
            [] => 0,
            [b'$', rest @ ..] => 1 + escaped_len(rest),
            _ => 1,
        }
    }
}

/// A unit of a gap between words: a space, or a `$` followed by a newline.
struct GapUnit;

impl Unit for GapUnit {
    ghost size = { syntax.gap_unit };

    fn unit_len(text: &[u8]) -> usize {
        match text {
            [b' ', ..] => 1,
            [b'$', rest @ ..] => {
                let newline = newline_len(rest);
                if newline > 0 { 1 + newline } else { 0 }
            }
            _ => 0,
        }
    }
}

/// Returns the number of bytes that a text begins with that belong to a gap between words. A gap consists of
/// spaces and of `$` followed by a newline. (Ninja manual, "Lexical syntax": spaces separate tokens, and a `$`
/// continues a line.)
pub fn gap_len(text: &[u8]) -> usize
    ensures len { result ≡ syntax.gap_len text.now }
    ensures within { result ≤ length text.now }
{
    run_len::<GapUnit>(text)
}

/// Returns the length of a comment that a text begins with, without its newline. Searches for the LF of the
/// newline.
fn comment_len(text: &[u8]) -> usize
    ensures len { result ≡ runs.run syntax.comment_unit text.now }
    ensures within { result ≤ length text.now }
{
    match memchr(b'\n', text) {
        None => text.len(),
        Some(at) => {
            if at > 0 && text[at - 1] == b'\r' {
                at - 1
            } else {
                at
            }
        }
    }
}

/// Returns the number of spaces that a text begins with. A `$` with a newline does not count: an indent
/// consists of spaces only, which is this project's own choice.
pub fn indent_len(text: &[u8]) -> usize
    ensures len { result ≡ syntax.indent_len text.now }
    ensures within { result ≤ length text.now }
{
    text.iter().take_while(|b| **b == b' ').count()
}

/// Returns the number of bytes of the first logical line of a text, without the newline that ends it. A `$`
/// before a newline continues the line, except in a comment. A comment is a line whose first byte after its
/// spaces is `#`. (Ninja manual, "Lexical syntax".)
pub fn logical_len(text: &[u8]) -> usize
    ensures len { result ≡ syntax.logical_len text.now }
    ensures within { result ≤ length text.now }
{
    let indent = indent_len(text);
    let behind = &text[indent..];
    if begins(behind, b'#') {
        indent + comment_len(behind)
    } else {
        run_len::<LineUnit>(text)
    }
}

/// Returns the first logical line of a text, without the newline that ends it, and the length of the line with
/// its newline, in bytes. The text must not be empty.
pub fn split_line(text: &[u8]) -> (&[u8], usize)
    requires { 0 < length text.now }
    ensures line { syntax.IsFirstLine text.now result.0.now result.1 }
    ensures front { result.0.now ≡ take (length result.0.now) text.now }
    ensures goes { 0 < result.1 }
    ensures len { length result.0.now ≤ result.1 }
    ensures within { result.1 ≤ length text.now }
{
    let (line, behind) = text.split_at(logical_len(text));
    (line, line.len() + newline_len(behind))
}

/// Classifies the logical line at this offset. Returns None if it is blank or a comment.
///
/// # Errors
///
/// `TabBlank` if a tab follows the indent, and else `NulByte` if the line has a NUL byte.
fn line_of(at: usize, bytes: &[u8]) -> Result<Option<Line>, TextFault>
    requires { at + length bytes.now ≤ 16777216 }
    ensures { result ≡ syntax.line_of (record { at = at; bytes = bytes.now }) }
{
    let indent = indent_len(bytes);
    let behind = &bytes[indent..];
    let nul = nul_at(bytes);
    if begins(behind, b'\t') {
        Err(TextFault::TabBlank((at + indent) as u64))
    } else if nul < bytes.len() {
        Err(TextFault::NulByte((at + nul) as u64))
    } else if bytes.len() == indent || begins(behind, b'#') {
        Ok(None)
    } else {
        Ok(Some(Line {
            indent: indent as u32,
            start: (at + indent) as u64,
            end: (at + bytes.len()) as u64,
        }))
    }
}

/// Returns the logical lines of a text, without blank lines and comments.
///
/// A newline ends a line, `$` before a newline continues it, and `#` begins a comment (Ninja manual, "Lexical
/// syntax").
///
/// # Errors
///
/// - `SourceTooLong` if the text has more than 16 MiB.
/// - `TabBlank` if a tab follows the indent of a line.
/// - `NulByte` if a line or a comment has a NUL byte.
/// - `Memory` if memory runs out, whatever the text is.
///
/// The first line that has a fault decides, and in that line `TabBlank` comes before `NulByte`. These rules are
/// this project's own choice. Other faults of a line are found by `pieces`.
pub fn lines(alloc: Global, text: &[u8]) -> Result<Vec<Line>, TextFault>
    ensures { Meets TextFault.Memory (λ v. v.items) result (syntax.lines_of text.now) }
{
    if text.len() > MAX_SOURCE {
        return Err(TextFault::SourceTooLong(MAX_SOURCE as u64));
    }
    let mut found = Vec::new(alloc);
    let mut at = 0;
    while at < text.len() {
        let (line, len) = split_line(&text[at..]);
        if let Some(line) = line_of(at, line)? {
            found.push(line)?;
        }
        at += len;
    }
    Ok(found)
}

/// Returns whether a text begins with this byte.
pub fn begins(text: &[u8], b: u8) -> bool
    ensures { result ≡ begins_with b text.now }
{
    match text {
        [] => false,
        [first, ..] => *first == b,
    }
}

/// Returns the index of the first NUL byte. If the text has none, returns its length.
pub fn nul_at(text: &[u8]) -> usize
    ensures { result ≡ position_or_len (λ b. b == nul) text.now }
{
    text.iter().take_while(|b| **b != 0).count()
}

/// A kind of unit that a text may begin with, such as a space, or a `$` with the newline after it. Lengths are
/// in bytes.
pub trait Unit {
    ghost use Rattle.std.specs.Prelude.{◌≡◌, ◌≤◌, ◌+◌, List, ℕ, length, drop};
    ghost use Rattle.plan_text.specs.Runs.{run};

    /// The length of the unit that a text begins with. It is 0 if the text begins with none. `unit_len` returns
    /// it.
    ghost size: { List ℕ → ℕ };

    /// Returns a number of bytes at the front that are units and can be skipped at once. There may be more such
    /// bytes.
    fn plain_len(text: &[u8]) -> usize
        ensures run { run size text.now ≡ result + run size (drop result text.now) }
        ensures within { result ≤ length text.now }
    {
        let _ = text;
        0
    }

    /// Returns the length of the unit that the text begins with. Returns 0 if it begins with none.
    fn unit_len(text: &[u8]) -> usize
        ensures len { result ≡ size text.now }
        ensures within { result ≤ length text.now };
}

/// Returns the number of bytes at the front of a text that are consecutive units.
pub fn run_len<U: Unit>(text: &[u8]) -> usize
    ensures len { result ≡ run U.size text.now }
    ensures within { result ≤ length text.now }
{
    let mut at = 0;
    loop {
        at += U::plain_len(&text[at..]);
        let unit = U::unit_len(&text[at..]);
        if unit == 0 {
            return at;
        }
        at += unit;
    }
}
