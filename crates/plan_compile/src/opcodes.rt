//! Encodes an instruction of a body as one number, and decodes it.

ghost use Rattle.std.specs.Prelude.{◌≡◌, ◌<◌, ◌+◌, ◌*◌};
ghost use Rattle.plan_image.specs.declared.body.BodyInstr.TheVariants as member;
ghost use Rattle.plan_compile.specs.BodyKeys;
ghost use Rattle.plan_compile.specs.BodyKeys.{IsSmall, member_number};

use plan_image::{BodyInstr, Instr, Opening};

/// The difference between the sort of an open instruction and its opcode. Each opcode is less than this.
const OPEN: u8 = 32;

/// Joins a sort and an operand into one number. The sort takes the last six bits.
#[inline(always)]
fn pack(sort: u8, operand: u32) -> u64
    requires { sort < 64 }
    ensures number { result ≡ operand * 64 + sort }
    ensures small { IsSmall result }
{
    u64::from(operand) * 64 + u64::from(sort)
}

/// Returns the number of an instruction that a body has with its operand.
#[inline(always)]
pub(crate) fn fixed_number(instr: Instr) -> u64
    ensures number { result ≡ member_number (member.Fixed instr) }
    ensures small { IsSmall result }
{
    let (opcode, operand) = instr.opcode_and_operand();
    pack(opcode, operand)
}

/// Returns the number of an instruction that a body leaves open.
#[inline(always)]
pub(crate) fn open_number(opening: Opening) -> u64
    ensures number { result ≡ member_number (member.Open opening) }
    ensures small { IsSmall result }
{
    let (opcode, _zero) = opening.with_number(0).opcode_and_operand();
    pack(opcode + OPEN, 0)
}

/// Returns the instruction of a body with this sort and operand.
fn member_by(sort: u8, operand: u32) -> BodyInstr
    ensures { result ≡ BodyKeys.member_by sort operand }
{
    if sort < OPEN {
        return BodyInstr::Fixed(Instr::from_opcode(sort, operand));
    }
    Instr::from_opcode(sort - OPEN, operand).leave_open()
}

/// Returns the instruction with this number.
pub(crate) fn member_at(number: u64) -> BodyInstr
    requires { IsSmall number }
    ensures { result ≡ BodyKeys.member_at number }
{
    member_by((number % 64) as u8, (number / 64) as u32)
}
