//! Texts in JSON.

ghost use Rattle.std.specs.Prelude.{◌≡◌, ◌<◌, is_ok};
ghost use Rattle.std.specs.List.{flat_map};
ghost use Rattle.plan_text.specs.Sinks.{Writes};
ghost use Rattle.plan_scope.specs.TextLists.{whole};
ghost use Rattle.plan_tools.specs.Commands.{text_or_none};
ghost use Rattle.plan_tools.specs.Json as defined;
ghost use Rattle.plan_tools.specs.Pieces as pieces;

use plan_scope::EdgeText;
use plan_text::{Sink, SinkFault, write_all, writes_join};

/// A digit of a number in base 16.
fn digit(number: u8) -> u8
    requires { number < 16 }
    ensures { result ≡ defined.digit number }
{
    if number < 10 {
        48 + number
    } else {
        87 + number
    }
}

/// Writes a byte that has no letter: `\u`, and its number in four digits.
fn write_number<W: Sink>(byte: u8, out: &mut W) -> Result<(), SinkFault>
    requires { byte < 32 }
    ensures { Writes (is_ok result) (W.failures out.old, W.taken out.old) (W.failures out.new, W.taken out.new) (defined.by_number byte) }
{
    write_all(out, &[92, 117, 48, 48, digit(byte / 16), digit(byte % 16)])
}

/// Writes a byte of a text as it stands in a JSON string.
fn write_byte<W: Sink>(byte: u8, out: &mut W) -> Result<(), SinkFault>
    ensures { Writes (is_ok result) (W.failures out.old, W.taken out.old) (W.failures out.new, W.taken out.new) (defined.json_byte byte) }
{
    match byte {
        34 => write_all(out, &[92, 34]),
        92 => write_all(out, &[92, 92]),
        10 => write_all(out, b"\\n"),
        13 => write_all(out, b"\\r"),
        9 => write_all(out, b"\\t"),
        8 => write_all(out, b"\\b"),
        12 => write_all(out, b"\\f"),
        byte if byte < 32 => write_number(byte, out),
        byte => write_all(out, &[byte]),
    }
}

/// Writes a text as it stands between the quotes of a JSON string. Bytes that aren't ASCII stay as they are.
fn write_json_text<W: Sink>(text: &[u8], out: &mut W) -> Result<(), SinkFault>
    ensures { Writes (is_ok result) (W.failures out.old, W.taken out.old) (W.failures out.new, W.taken out.new) (defined.json_text text.now) }
{
    writes_join();
    for byte in text {
        match write_byte(*byte, out) {
            Ok(()) => {}
            Err(fault) => return Err(fault),
        }
    }
    Ok(())
}

/// Writes a text of an edge as it stands between the quotes of a JSON string.
fn write_json_parts<W: Sink>(text: &EdgeText<'_>, out: &mut W) -> Result<(), SinkFault>
    ensures { Writes (is_ok result) (W.failures out.old, W.taken out.old) (W.failures out.new, W.taken out.new) (defined.json_text (whole text.now)) }
{
    writes_join();
    for number in 0..text.len() {
        match write_json_text(text.part(number), out) {
            Ok(()) => {}
            Err(fault) => return Err(fault),
        }
    }
    Ok(())
}

/// Writes a text of an edge, if there is one.
fn write_json_option<W: Sink>(text: &Option<EdgeText<'_>>, out: &mut W) -> Result<(), SinkFault>
    ensures { Writes (is_ok result) (W.failures out.old, W.taken out.old) (W.failures out.new, W.taken out.new) (defined.json_text (text_or_none text.now)) }
{
    match text {
        Some(text) => write_json_parts(text, out),
        None => Ok(()),
    }
}

/// A part of a JSON text.
#[derive(Clone, Copy)]
pub(crate) enum Piece<'a> {
    /// It is written as it is.
    Plain(&'a [u8]),
    /// It stands in a string.
    Json(&'a [u8]),
    /// It stands in a string, if there is one.
    JsonText(&'a Option<EdgeText<'a>>),
}

/// Writes a part of a JSON text.
fn write_piece<W: Sink>(piece: &Piece<'_>, out: &mut W) -> Result<(), SinkFault>
    ensures { Writes (is_ok result) (W.failures out.old, W.taken out.old) (W.failures out.new, W.taken out.new) (pieces.text_of piece.now) }
{
    match piece {
        Piece::Plain(text) => write_all(out, text),
        Piece::Json(text) => write_json_text(text, out),
        Piece::JsonText(text) => write_json_option(text, out),
    }
}

/// Writes the parts of a JSON text, one behind another.
pub(crate) fn write_pieces<W: Sink>(parts: &[Piece<'_>], out: &mut W) -> Result<(), SinkFault>
    ensures { Writes (is_ok result) (W.failures out.old, W.taken out.old) (W.failures out.new, W.taken out.new) (flat_map pieces.text_of parts.now) }
{
    writes_join();
    for part in parts {
        match write_piece(part, out) {
            Ok(()) => {}
            Err(fault) => return Err(fault),
        }
    }
    Ok(())
}
