//! Reads paths part by part.

ghost use Rattle.std.specs.Prelude.{◌≡◌, ◌≤◌, ◌<◌, ◌+◌, ◌^◌, ◌==◌, ◌||◌, ◌∷◌, Some, IfOk, length};
ghost use Rattle.std.specs.List.{prefix_len};
ghost use Rattle.plan_text.specs.Bytes.{dollar, space, colon, line_feed, carriage_return};
ghost use Rattle.plan_text.specs.Pieces.{escape, escape_size};
ghost use Rattle.plan_parse.specs.Parts.{FailsAs, IsFirstPart, IsShort, escape_unit, first_path, sign_of, unit_at};
ghost use Rattle.plan_parse.specs.PlainPaths.{is_plain};
ghost use Rattle.plan_parse.specs.Reading.{path_len};

use crate::cursor::Cursor;
use crate::reading::{past, plain_len};
use plan_text::{TextFault, escape_len};

/// A part of a path.
#[derive(Clone, Copy)]
pub enum PathPart<'a> {
    /// Bytes that stand for themselves.
    Text(&'a [u8]),
    /// The name of a variable, without `$` and braces.
    Name(&'a [u8]),
}

/// Returns whether a byte after a `$` stands for itself.
fn is_escaped(b: u8) -> bool
    ensures { result ≡ (b == dollar || b == space || b == colon) }
{
    matches!(b, b'$' | b' ' | b':')
}

/// Returns whether a byte after a `$` begins a newline.
fn begins_line_end(b: u8) -> bool
    ensures { result ≡ (b == line_feed || b == carriage_return) }
{
    matches!(b, b'\n' | b'\r')
}

/// Returns the meaning of a `$` whose escape has `len` bytes after it.
fn part_of_escape(text: &[u8], len: usize) -> PathPart<'_>
    requires size { escape_size text.now ≡ Some len }
    requires within { len ≤ length text.now }
    ensures sign { escape text.now ≡ Some (sign_of result, len) }
    ensures short { IsShort result }
{
    let first = text[0];
    if is_escaped(first) {
        PathPart::Text(&text[..1])
    } else if begins_line_end(first) {
        PathPart::Text(&[])
    } else if first == b'{' {
        PathPart::Name(&text[1..len - 1])
    } else {
        PathPart::Name(&text[..len])
    }
}

/// Returns the part that begins with a `$`, given the text after it, and the number of bytes that the part
/// takes.
fn escape_at(text: &[u8], at: usize) -> Result<(PathPart<'_>, usize), TextFault>
    requires { length text.now + 1 < 2 ^ 64 }
    ensures { IsFirstPart at (36 ∷ text.now) result }
{
    match escape_len(text) {
        Some(len) => Ok((part_of_escape(text, len), 1 + len)),
        None => Err(TextFault::BadEscape(at as u64)),
    }
}

/// Returns the first part of a path, which is not empty, and the number of bytes that the part takes. The path
/// is at offset `at`.
///
/// # Errors
///
/// The fault of the path's first byte, which is the first fault of the path.
pub fn part_at(text: &[u8], at: usize) -> Result<(PathPart<'_>, usize), TextFault>
    requires { 0 < length text.now }
    ensures { IsFirstPart at text.now result }
{
    let plain = plain_len(text);
    if plain > 0 {
        return Ok((PathPart::Text(&text[..plain]), plain));
    }
    let first = text[0];
    if first == b'$' {
        escape_at(&text[1..], at)
    } else if first == 0 {
        Err(TextFault::NulByte(at as u64))
    } else if first == b'\t' {
        Err(TextFault::TabBlank(at as u64))
    } else {
        Ok((PathPart::Text(&text[..1]), 1))
    }
}

/// Returns the number of bytes of a `$` with its escape.
fn escape_unit(p: Cursor<'_>, behind: &[u8]) -> Result<usize, TextFault>
    ensures size { result ≡ escape_unit p.entry.at (escape_size behind.now) }
    ensures within { IfOk result (λ len. len ≤ 1 + length behind.now) }
{
    match escape_len(behind) {
        Some(len) => Ok(1 + len),
        None => Err(TextFault::BadEscape(p.at as u64)),
    }
}

/// Returns the number of bytes of the next unit of a path: a `$` with its escape, or one byte. Returns 0 if the
/// path ends.
fn unit_at(p: Cursor<'_>) -> Result<usize, TextFault>
    ensures size { result ≡ unit_at p.entry.at p.entry.bytes.now }
    ensures within { IfOk result (λ len. len ≤ length p.entry.bytes.now) }
{
    match p.bytes {
        [] | [b' ' | b':' | b'|', ..] => Ok(0),
        [b'$', behind @ ..] => escape_unit(p, behind),
        [0, ..] => Err(TextFault::NulByte(p.at as u64)),
        [b'\t', ..] => Err(TextFault::TabBlank(p.at as u64)),
        _ => Ok(1),
    }
}

/// Returns the length of the path at the cursor. Its first `plain` bytes stand for themselves.
///
/// # Errors
///
/// The first fault of the path.
#[inline(never)]
pub fn checked_len(p: Cursor<'_>, plain: usize) -> Result<usize, TextFault>
    requires { plain ≡ prefix_len is_plain p.bytes.now }
    ensures len { IfOk result (λ len. len ≡ path_len p.entry.bytes.now) }
    ensures within { IfOk result (λ len. len ≤ length p.entry.bytes.now) }
    ensures sound { FailsAs (first_path p.entry.at p.entry.bytes.now) result }
{
    let mut len = plain;
    loop {
        let unit = unit_at(past(p, len))?;
        if unit == 0 {
            return Ok(len);
        }
        len += unit;
        len += plain_len(&p.bytes[len..]);
    }
}
