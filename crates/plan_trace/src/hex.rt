//! Reads and writes bytes in hexadecimal digits.

ghost use Rattle.std.specs.Prelude.{◌≡◌, ◌<◌, ◌∷◌, IfOk, IfSome, false, is_ok, length, map, option_map};
ghost use Rattle.std.specs.Option.{IfNone};
ghost use Rattle.std.specs.Fmt.{digit_glyph};
ghost use Rattle.std.specs.List.{concat};
ghost use Rattle.plan_text.specs.Sinks.{Writes};
ghost use Rattle.plan_image.specs.Listing.{hex, hex_byte};
ghost use Rattle.plan_trace.specs.Words as defined;

use plan_text::{Sink, SinkFault, write_all, writes_join};
use std::alloc::{AllocError, Global};

/// Returns the value of a digit. Returns None for other bytes.
fn digit_value(digit: u8) -> Option<u8>
    ensures same { result ≡ defined.digit_value digit }
    ensures small { IfSome result (λ v. v < 16) }
{
    match digit {
        b'0'..=b'9' => Some(digit - b'0'),
        b'a'..=b'f' => Some(digit - 87),
        _ => None,
    }
}

/// Returns the byte of two digits. Returns None if one of them is no digit.
fn byte_of(high: u8, low: u8) -> Option<u8>
    ensures { result ≡ defined.byte_of high low }
{
    match (digit_value(high), digit_value(low)) {
        (Some(high), Some(low)) => Some(high * 16 + low),
        _ => None,
    }
}

/// Returns the first two digits, and the bytes after them. Returns None if there are fewer than two.
fn first_pair(digits: &[u8]) -> Option<(u8, u8, &[u8])>
    ensures some { IfSome result (λ x. digits.now ≡ x.0 ∷ x.1 ∷ x.2.now) }
    ensures none { IfNone result (length digits.now < 2) }
{
    match digits {
        [high, low, behind @ ..] => Some((*high, *low, behind)),
        _ => None,
    }
}

/// Returns the bytes of pairs of digits. Returns None if the text doesn't consist of pairs of digits.
#[tactic(auto, using(crate::proofs::WordsLemmas::byte_more, crate::proofs::WordsLemmas::no_byte, crate::proofs::WordsLemmas::odd))]
fn pairs_of(alloc: Global, digits: &[u8]) -> Result<Option<Vec<u8>>, AllocError>
    ensures { IfOk result (λ bytes. option_map (λ v. v.items) bytes ≡ defined.pairs_of digits.now) }
{
    let mut bytes = Vec::with_capacity(alloc, digits.len() / 2)?;
    let mut rest = digits;
    while let Some((high, low, behind)) = first_pair(rest) {
        match byte_of(high, low) {
            Some(byte) => bytes.push(byte)?,
            None => return Ok(None),
        }
        rest = behind;
    }
    if !rest.is_empty() {
        return Ok(None);
    }
    Ok(Some(bytes))
}

/// Returns the bytes of a word in hexadecimal digits. A dash means no bytes. Returns None if the word has another
/// form.
pub(crate) fn bytes_of(alloc: Global, word: &[u8]) -> Result<Option<Vec<u8>>, AllocError>
    ensures { IfOk result (λ bytes. option_map (λ v. v.items) bytes ≡ defined.bytes_of word.now) }
{
    if word == b"-".as_slice() {
        return Ok(Some(Vec::new(alloc)));
    }
    if word.is_empty() {
        return Ok(None);
    }
    pairs_of(alloc, word)
}

/// Returns the hexadecimal digit of a number below 16.
const fn digit(n: u8) -> u8
    requires { n < 16 }
    ensures { result ≡ digit_glyph false n }
{
    if n < 10 { 48 + n } else { 87 + n }
}

/// Writes the two digits of a byte.
fn write_byte<W: Sink>(byte: u8, out: &mut W) -> Result<(), SinkFault>
    ensures { Writes (is_ok result) (W.failures out.old, W.taken out.old) (W.failures out.new, W.taken out.new) (hex_byte byte) }
{
    write_all(out, &[digit(byte / 16), digit(byte % 16)])
}

/// Writes two digits for each byte. It takes no memory.
fn write_digits<W: Sink>(bytes: &[u8], out: &mut W) -> Result<(), SinkFault>
    ensures { Writes (is_ok result) (W.failures out.old, W.taken out.old) (W.failures out.new, W.taken out.new) (concat (map hex_byte bytes.now)) }
{
    writes_join();
    for byte in bytes {
        match write_byte(*byte, out) {
            Ok(()) => {}
            Err(fault) => return Err(fault),
        }
    }
    Ok(())
}

/// Writes bytes in hexadecimal digits, or a dash if there are none. It takes no memory.
pub(crate) fn write_hex<W: Sink>(bytes: &[u8], out: &mut W) -> Result<(), SinkFault>
    ensures { Writes (is_ok result) (W.failures out.old, W.taken out.old) (W.failures out.new, W.taken out.new) (hex bytes.now) }
{
    match bytes {
        [] => write_all(out, b"-"),
        [_, ..] => write_digits(bytes, out),
    }
}
