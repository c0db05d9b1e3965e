//! Parts of a listing: bytes, numbers and names.

ghost use Rattle.std.specs.Prelude.{◌≡◌, ◌<◌, ◌∷◌, false, is_ok};
ghost use Rattle.std.specs.Fmt.{digit_glyph};
ghost use Rattle.plan_text.specs.Sinks.{Writes};
ghost use Rattle.plan_image.specs.Listing.{sort_word, kind_letter, name, operand_number};

use crate::body::{Instr, Kind};
use crate::image::Sort;
use crate::lister::each::{Each, Listed};
use crate::lister::part::{Number, Part, Word, WriteFault, write_behind_space};
use plan_text::{Sink, write_all};

/// Bytes in hexadecimal digits, or a dash if there are none.
#[derive(Drop)]
pub(crate) struct Hex<'a>(pub &'a [u8]);

impl<'a> Part for Hex<'a> {
    ghost use Rattle.plan_image.specs.Listing.{hex};

    ghost text = { λ h. hex h.0.now };

    fn write<W: Sink>(&self, out: &mut W) -> Result<(), WriteFault> {
        match self.0 {
            [] => Word(b"-").write(out),
            [first, rest @ ..] => write_hex(*first, rest, out),
        }
    }
}

/// Writes the digits of a byte, and then those of the others.
fn write_hex<W: Sink>(first: u8, rest: &[u8], out: &mut W) -> Result<(), WriteFault>
    ensures { Writes (is_ok result) (W.failures out.old, W.taken out.old) (W.failures out.new, W.taken out.new) (Rattle.plan_image.specs.Listing.hex (first ∷ rest.now)) }
{
    (Digits(first), Each(rest)).write(out)
}

/// The two digits of one byte.
#[derive(Drop)]
struct Digits(u8);

impl Part for Digits {
    ghost use Rattle.plan_image.specs.Listing.{hex_byte};

    ghost text = { λ d. hex_byte d.0 };

    fn write<W: Sink>(&self, out: &mut W) -> Result<(), WriteFault> {
        write_all(out, &[digit(self.0 / 16), digit(self.0 % 16)])?;
        Ok(())
    }
}

/// The two digits of a byte.
impl Listed for u8 {
    ghost use Rattle.plan_image.specs.Listing.{hex_byte};

    ghost lines = { λ _ b. hex_byte b };

    fn write<W: Sink>(&self, _number: usize, out: &mut W) -> Result<(), WriteFault> {
        Digits(*self).write(out)
    }
}

/// Returns the hexadecimal digit of a number below 16.
const fn digit(n: u8) -> u8
    requires { n < 16 }
    ensures { result ≡ digit_glyph false n }
{
    if n < 10 { 48 + n } else { 87 + n }
}

/// Numbers, separated by spaces, or a dash if there are none.
#[derive(Drop)]
pub(crate) struct Members<'a>(pub &'a [u32]);

impl<'a> Part for Members<'a> {
    ghost use Rattle.plan_image.specs.Listing.{members};

    ghost text = { λ m. members m.0.now };

    fn write<W: Sink>(&self, out: &mut W) -> Result<(), WriteFault> {
        match self.0 {
            [] => Word(b"-").write(out),
            [first, rest @ ..] => write_members(*first, rest, out),
        }
    }
}

/// Writes a number, and then the others, each after a space.
fn write_members<W: Sink>(first: u32, rest: &[u32], out: &mut W) -> Result<(), WriteFault>
    ensures { Writes (is_ok result) (W.failures out.old, W.taken out.old) (W.failures out.new, W.taken out.new) (Rattle.plan_image.specs.Listing.members (first ∷ rest.now)) }
{
    (Number(u64::from(first)), Each(rest)).write(out)
}

/// A number after a space.
impl Listed for u32 {
    ghost use Rattle.std.specs.Prelude.{◌∷◌};
    ghost use Rattle.std.specs.Fmt.{decimal};

    ghost lines = { λ _ n. 32 ∷ decimal n };

    fn write<W: Sink>(&self, _number: usize, out: &mut W) -> Result<(), WriteFault> {
        write_behind_space(&Number(u64::from(*self)), out)
    }
}

/// The number of a pool, or a dash if there is none.
#[derive(Drop)]
pub(crate) struct PoolNumber(pub Option<u32>);

impl Part for PoolNumber {
    ghost use Rattle.plan_image.specs.Listing.{pool_words};

    ghost text = { λ p. pool_words p.0 };

    fn write<W: Sink>(&self, out: &mut W) -> Result<(), WriteFault> {
        match self.0 {
            None => Word(b"-").write(out),
            Some(pool) => Number(u64::from(pool)).write(out),
        }
    }
}

/// An operand after a space, or nothing if there is none.
#[derive(Drop)]
pub(crate) struct Operand(pub Option<u32>);

impl Part for Operand {
    ghost use Rattle.plan_image.specs.Listing.{operand_words};

    ghost text = { λ p. operand_words p.0 };

    fn write<W: Sink>(&self, out: &mut W) -> Result<(), WriteFault> {
        match self.0 {
            None => Word(b"").write(out),
            Some(operand) => write_behind_space(&Number(u64::from(operand)), out),
        }
    }
}

/// Returns the number after an instruction's name. Returns None if the instruction has none.
pub(crate) const fn operand_of(instr: Instr) -> Option<u32>
    ensures { result ≡ operand_number instr }
{
    match instr {
        Instr::Stat(number)
        | Instr::Need(number)
        | Instr::Load(number)
        | Instr::Store(number)
        | Instr::Text(number)
        | Instr::Jump(number)
        | Instr::JumpIf(number) => Some(number),
        Instr::Flag(false) => Some(0),
        Instr::Flag(true) => Some(1),
        _ => None,
    }
}

/// Returns the name of an instruction.
pub(crate) fn name_of(instr: Instr) -> &'static [u8]
    ensures { result.now ≡ name instr }
{
    match instr {
        Instr::End => b"End",
        Instr::Stat(_) => b"Stat",
        Instr::Need(_) => b"Need",
        Instr::Load(_) => b"Load",
        Instr::Store(_) => b"Store",
        Instr::Older => b"Older",
        Instr::Newer => b"Newer",
        Instr::Before => b"Before",
        Instr::Same => b"Same",
        Instr::IsMissing => b"IsMissing",
        Instr::Or => b"Or",
        Instr::Not => b"Not",
        Instr::Flag(_) => b"Flag",
        Instr::Zero => b"Zero",
        Instr::NoPaths => b"NoPaths",
        Instr::Text(_) => b"Text",
        Instr::Join => b"Join",
        Instr::Equal => b"Equal",
        Instr::Recall => b"Recall",
        Instr::Sweep => b"Sweep",
        Instr::Jump(_) => b"Jump",
        Instr::JumpIf(_) => b"JumpIf",
        Instr::Take => b"Take",
        Instr::Release => b"Release",
        Instr::Run => b"Run",
        Instr::Deps => b"Deps",
        Instr::Keep => b"Keep",
        Instr::Drop => b"Drop",
        Instr::Swap => b"Swap",
    }
}

/// Returns the word for a sort of edges.
pub(crate) fn word_of(sort: Sort) -> &'static [u8]
    ensures { result.now ≡ sort_word sort }
{
    match sort {
        Sort::Command => b"command",
        Sort::Phony => b"phony",
    }
}

/// Returns the letter for a kind.
pub(crate) fn letter_of(kind: Kind) -> &'static [u8]
    ensures { result.now ≡ kind_letter kind }
{
    match kind {
        Kind::Stamp => b"S",
        Kind::Flag => b"F",
        Kind::Text => b"T",
        Kind::Paths => b"P",
        Kind::Swept => b"Q",
    }
}
