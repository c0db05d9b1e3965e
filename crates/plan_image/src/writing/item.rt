//! Writes the spelling of the items of all tables before the edges.

ghost use Rattle.std.specs.Prelude.{◌≡◌};
ghost use Rattle.plan_image.specs.Spelling;

use crate::body::{Body, BodyInstr, Instr, Kind, Opening};
use crate::image::{Pool, Slot, Version};
use crate::lister::WriteFault;
use crate::writing::part::{Bytes, Spelled, Table};
use crate::writing::text::{Short, Text};
use plan_text::{Items, Sink};

pub(crate) const fn version_byte(version: Version) -> u8
    ensures { result ≡ Rattle.plan_image.specs.Spelling.version_byte version }
{
    match version {
        Version::One => 1,
        Version::Two => 2,
    }
}

impl Spelled for Pool {
    ghost use Rattle.plan_image.specs.Spelling.{pool, PoolFits};

    ghost spell = { pool };

    ghost fits = { PoolFits };

    fn print<W: Sink>(&self, held: &mut Vec<u8>, out: &mut W) -> Result<(), WriteFault> {
        (Text(self.name.as_slice(), Short), self.depth).print(held, out)
    }
}

const fn kind_byte(kind: Kind) -> u8
    ensures { result ≡ Rattle.plan_image.specs.Spelling.kind_byte kind }
{
    match kind {
        Kind::Stamp => 1,
        Kind::Flag => 2,
        Kind::Text => 3,
        Kind::Paths => 4,
        Kind::Swept => 5,
    }
}

impl Spelled for Slot {
    ghost use Rattle.plan_image.specs.Spelling.{slot};

    ghost spell = { slot };

    ghost fits = { λ _. Unit {0} };

    fn print<W: Sink>(&self, held: &mut Vec<u8>, out: &mut W) -> Result<(), WriteFault> {
        (self.owner, kind_byte(self.kind)).print(held, out)
    }
}

impl Spelled for Instr {
    ghost use Rattle.plan_image.specs.Spelling.{instr};

    ghost spell = { instr };

    ghost fits = { λ _. Unit {0} };

    fn print<W: Sink>(&self, held: &mut Vec<u8>, out: &mut W) -> Result<(), WriteFault> {
        match *self {
            Instr::End => 0u8.print(held, out),
            Instr::Stat(file) => (1u8, file).print(held, out),
            Instr::Need(file) => (2u8, file).print(held, out),
            Instr::Load(slot) => (3u8, slot).print(held, out),
            Instr::Store(slot) => (4u8, slot).print(held, out),
            Instr::Older => 5u8.print(held, out),
            Instr::Newer => 6u8.print(held, out),
            Instr::Before => 7u8.print(held, out),
            Instr::Same => 8u8.print(held, out),
            Instr::IsMissing => 9u8.print(held, out),
            Instr::Or => 10u8.print(held, out),
            Instr::Not => 11u8.print(held, out),
            Instr::Flag(flag) => (12u8, u8::from(flag)).print(held, out),
            Instr::Zero => 13u8.print(held, out),
            Instr::NoPaths => 14u8.print(held, out),
            Instr::Text(text) => (15u8, text).print(held, out),
            Instr::Join => 16u8.print(held, out),
            Instr::Equal => 17u8.print(held, out),
            Instr::Recall => 18u8.print(held, out),
            Instr::Sweep => 19u8.print(held, out),
            Instr::Jump(place) => (20u8, place).print(held, out),
            Instr::JumpIf(place) => (21u8, place).print(held, out),
            Instr::Take => 22u8.print(held, out),
            Instr::Release => 23u8.print(held, out),
            Instr::Run => 24u8.print(held, out),
            Instr::Deps => 25u8.print(held, out),
            Instr::Keep => 26u8.print(held, out),
            Instr::Drop => 27u8.print(held, out),
            Instr::Swap => 28u8.print(held, out),
        }
    }
}

const fn opening_byte(opening: Opening) -> u8
    ensures { result ≡ Rattle.plan_image.specs.Spelling.opening_byte opening }
{
    let (opcode, _zero) = opening.with_number(0).opcode_and_operand();
    opcode
}

impl Spelled for BodyInstr {
    ghost use Rattle.plan_image.specs.Spelling.{body_instr};

    ghost spell = { body_instr };

    ghost fits = { λ _. Unit {0} };

    fn print<W: Sink>(&self, held: &mut Vec<u8>, out: &mut W) -> Result<(), WriteFault> {
        match self {
            BodyInstr::Fixed(instr) => instr.print(held, out),
            BodyInstr::Open(opening) => opening_byte(*opening).print(held, out),
        }
    }
}

impl Spelled for Body {
    ghost use Rattle.plan_image.specs.Spelling.{body, BodyFits};

    ghost spell = { body };

    ghost fits = { BodyFits };

    fn print<W: Sink>(&self, held: &mut Vec<u8>, out: &mut W) -> Result<(), WriteFault> {
        Table(self.as_slice()).print(held, out)
    }
}

/// The table of bodies, if there is one.
#[derive(Drop)]
pub(crate) struct Bodies<'a>(pub &'a Option<Items<Body>>);

impl<'a> Spelled for Bodies<'a> {
    ghost use Rattle.std.specs.Prelude.{IfSome};
    ghost use Rattle.plan_image.specs.Spelling.{bodies, BodiesFit};

    ghost spell = { λ b. bodies b.0.now };

    ghost fits = { λ b. IfSome b.0.now BodiesFit };

    fn print<W: Sink>(&self, held: &mut Vec<u8>, out: &mut W) -> Result<(), WriteFault> {
        match self.0 {
            None => Bytes(b"").print(held, out),
            Some(bodies) => Table(bodies.as_slice()).print(held, out),
        }
    }
}
