//! Reads instructions, and the bodies that edges share.

ghost use Rattle.plan_image.specs.Reading.{Gives, body_table_at, bodies_at, operand_at, bare_of, numbered_of, instr_at, fixed_at, body_instr_at};
ghost use Rattle.std.specs.Prelude.{◌+◌, ◌^◌, ℕ, List, IsSome};

use crate::body::{Body, BodyInstr, Instr, Opening};
use crate::fault::Cause;
use crate::image::Version;
use crate::maxima::{MAX_BODIES, MAX_BODY, MAX_BODY_INSTRS};
use crate::reading::fields::{read_byte, read_flag, read_u32, read_u32_up_to};
use crate::reading::items::{InTurn, Spelled, read_in_turn, read_items};
use crate::reading::stop::{ReadFault, stop_at};
use plan_text::Items;
use std::alloc::Global;

/// A reader of bodies, which limits the number of their instructions in all.
pub(crate) struct Bodies;

impl InTurn for Bodies {
    ghost use Rattle.std.specs.Prelude.{◌+◌, length};
    ghost use Rattle.plan_image.specs.declared.maxima.TheConstants.{MAX_BODY_INSTRS};
    ghost use Rattle.plan_image.specs.Reading.{body_at};

    type Item = Body;

    ghost item_at = { λ _. body_at };

    ghost next = { λ _ used b. used + length b };

    ghost most = { λ _. MAX_BODY_INSTRS };

    fn shortest(&self) -> usize {
        4
    }

    #[tactic(auto, unfolding(crate::specs::Reading::body_at))]
    fn read<'a>(
        &self,
        alloc: Global,
        before: u64,
        bytes: &'a [u8],
    ) -> Result<(Body, u64, &'a [u8]), ReadFault> {
        let (count, rest) = read_u32_up_to(MAX_BODY as u32, bytes)?;
        let left = MAX_BODY_INSTRS - before;
        if left < u64::from(count) {
            return Err(stop_at(Cause::Limit, bytes));
        }
        let (instrs, rest) = read_items(alloc, count as usize, rest)?;
        let body = Body::new(alloc, instrs.into_vec())?;
        Ok((body, before + u64::from(count), rest))
    }
}

#[tactic(auto, unfolding(crate::specs::Reading::body_table_at))]
pub(crate) fn read_body_table(
    alloc: Global,
    bytes: &[u8],
) -> Result<(Items<Body>, &[u8]), ReadFault>
    ensures { Gives (λ x. (x.0, x.1.now)) result (body_table_at bytes.now) }
{
    let (count, rest) = read_u32_up_to(MAX_BODIES as u32, bytes)?;
    read_in_turn(alloc, &Bodies, 0, count, rest)
}

#[tactic(auto, unfolding(crate::specs::Reading::bodies_at))]
pub(crate) fn read_bodies(
    alloc: Global,
    version: Version,
    bytes: &[u8],
) -> Result<(Option<Items<Body>>, &[u8]), ReadFault>
    ensures { Gives (λ x. (x.0, x.1.now)) result (bodies_at version bytes.now) }
{
    match version {
        Version::One => Ok((None, bytes)),
        Version::Two => read_some_bodies(alloc, bytes),
    }
}

#[tactic(auto, unfolding(crate::specs::Reading::bodies_at))]
pub(crate) fn read_some_bodies(
    alloc: Global,
    bytes: &[u8],
) -> Result<(Option<Items<Body>>, &[u8]), ReadFault>
    ensures { Gives (λ x. (x.0, x.1.now)) result (bodies_at Version.Two bytes.now) }
{
    let (bodies, rest) = read_body_table(alloc, bytes)?;
    Ok((Some(bodies), rest))
}

#[tactic(auto, unfolding(crate::specs::Reading::instr_at))]
pub(crate) fn read_instr(bytes: &[u8]) -> Result<(Instr, &[u8]), ReadFault>
    ensures { Gives (λ x. (x.0, x.1.now)) result (instr_at bytes.now) }
{
    let (opcode, rest) = read_byte(bytes)?;
    let bare = match opcode {
        0 => Instr::End,
        5 => Instr::Older,
        6 => Instr::Newer,
        7 => Instr::Before,
        8 => Instr::Same,
        9 => Instr::IsMissing,
        10 => Instr::Or,
        11 => Instr::Not,
        12 => return read_flag(rest),
        13 => Instr::Zero,
        14 => Instr::NoPaths,
        16 => Instr::Join,
        17 => Instr::Equal,
        18 => Instr::Recall,
        19 => Instr::Sweep,
        22 => Instr::Take,
        23 => Instr::Release,
        24 => Instr::Run,
        25 => Instr::Deps,
        26 => Instr::Keep,
        27 => Instr::Drop,
        28 => Instr::Swap,
        1 | 2 | 3 | 4 | 15 | 20 | 21 => return read_operand(opcode, rest),
        _ => return Err(stop_at(Cause::BadTag, bytes)),
    };
    Ok((bare, rest))
}

pub(crate) fn read_operand(opcode: u8, rest: &[u8]) -> Result<(Instr, &[u8]), ReadFault>
    ensures { (bytes : List ℕ) → IsSome (numbered_of opcode) → Gives (λ x. (x.0, x.1.now)) result (operand_at (numbered_of opcode) (bare_of opcode) bytes rest.now) }
{
    let (number, rest) = read_u32(rest)?;
    let instr = match opcode {
        1 => Instr::Stat(number),
        2 => Instr::Need(number),
        3 => Instr::Load(number),
        4 => Instr::Store(number),
        15 => Instr::Text(number),
        20 => Instr::Jump(number),
        _ => Instr::JumpIf(number),
    };
    Ok((instr, rest))
}

#[tactic(auto, unfolding(crate::specs::Reading::body_instr_at))]
pub(crate) fn read_body_instr(bytes: &[u8]) -> Result<(BodyInstr, &[u8]), ReadFault>
    ensures { Gives (λ x. (x.0, x.1.now)) result (body_instr_at bytes.now) }
{
    let (opcode, rest) = read_byte(bytes)?;
    let opening = match opcode {
        1 => Opening::Stat,
        2 => Opening::Need,
        3 => Opening::Load,
        4 => Opening::Store,
        15 => Opening::Text,
        _ => return read_fixed(bytes),
    };
    Ok((BodyInstr::Open(opening), rest))
}

pub(crate) fn read_fixed(bytes: &[u8]) -> Result<(BodyInstr, &[u8]), ReadFault>
    ensures { Gives (λ x. (x.0, x.1.now)) result (fixed_at bytes.now) }
{
    let (instr, rest) = read_instr(bytes)?;
    Ok((BodyInstr::Fixed(instr), rest))
}

impl Spelled for BodyInstr {
    ghost use Rattle.plan_image.specs.Reading.{body_instr_at};

    ghost read_at = { body_instr_at };

    fn shortest() -> usize {
        1
    }

    fn read(_alloc: Global, bytes: &[u8]) -> Result<(BodyInstr, &[u8]), ReadFault> {
        read_body_instr(bytes)
    }
}
