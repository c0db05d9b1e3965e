//! Appends instructions to two columns, one for opcodes and one for operands.

ghost use Rattle.std.specs.Prelude.{◌≡◌, ◌+◌, ◌++◌, ◌∷◌, [], OnOk, length};
ghost use Rattle.plan_image.specs.Columns;

use crate::body::Instr;
use std::alloc::AllocError;

/// Appends an instruction to the two columns.
pub(crate) fn push_instr(
    opcodes: &mut Vec<u8>,
    operands: &mut Vec<u32>,
    instr: Instr,
) -> Result<(), AllocError>
    requires { length opcodes.old.items ≡ length operands.old.items }
    ensures more { OnOk result (Columns.instrs_by opcodes.new.items operands.new.items ≡ Columns.instrs_by opcodes.old.items operands.old.items ++ instr ∷ []) }
    ensures long { OnOk result (length opcodes.new.items ≡ length operands.new.items) }
    ensures len { OnOk result (length opcodes.new.items ≡ length opcodes.old.items + 1) }
{
    let (opcode, operand) = instr.opcode_and_operand();
    opcodes.push(opcode)?;
    operands.push(operand)?;
    Ok(())
}
