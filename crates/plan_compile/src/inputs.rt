//! Generates code over the inputs of an edge.

ghost use Rattle.std.specs.Prelude.{◌≡◌, ◌++◌, OnOk};
ghost use Rattle.plan_compile.specs.Emit.{any_code, input_code, newer_code, newest_code, or_code, order_code};

use crate::code::Code;
use crate::layout::Input;
use plan_image::Instr;
use std::alloc::AllocError;

/// Appends code that requires order-only source files to exist.
pub(crate) fn push_order(code: &mut Code, files: &[u32]) -> Result<(), AllocError>
    ensures { OnOk result (code.new ≡ code.old ++ order_code files.now) }
{
    for file in files {
        code.push(Instr::Need(*file))?;
        code.push(Instr::Drop)?;
    }
    Ok(())
}

/// Returns the instruction that asks for an input's stamp or loads it.
fn stamp_of(input: Input) -> Instr
    ensures { result ≡ input_code input }
{
    match input {
        Input::File(file) => Instr::Need(file),
        Input::Made(stamp, _changed) => Instr::Load(stamp),
    }
}

/// Appends code for the greatest of the stamp on the stack and the inputs' stamps.
fn push_newer(code: &mut Code, inputs: &[Input]) -> Result<(), AllocError>
    ensures { OnOk result (code.new ≡ code.old ++ newer_code inputs.now) }
{
    for input in inputs {
        code.push(stamp_of(*input))?;
        code.push(Instr::Newer)?;
    }
    Ok(())
}

/// Appends code for the greatest stamp of the inputs.
pub(crate) fn push_newest(code: &mut Code, inputs: &[Input]) -> Result<(), AllocError>
    ensures { OnOk result (code.new ≡ code.old ++ newest_code inputs.now) }
{
    match inputs {
        [] => {
            code.push(Instr::Zero)?;
            Ok(())
        }
        [first, others @ ..] => {
            code.push(stamp_of(*first))?;
            push_newer(code, others)
        }
    }
}

/// Appends code that tests whether the flag on the stack or one of these is set.
pub(crate) fn push_or(code: &mut Code, flags: &[u32]) -> Result<(), AllocError>
    ensures { OnOk result (code.new ≡ code.old ++ or_code flags.now) }
{
    for flag in flags {
        code.push(Instr::Load(*flag))?;
        code.push(Instr::Or)?;
    }
    Ok(())
}

/// Appends code that tests whether one of these flags is set.
pub(crate) fn push_any(code: &mut Code, flags: &[u32]) -> Result<(), AllocError>
    ensures { OnOk result (code.new ≡ code.old ++ any_code flags.now) }
{
    match flags {
        [] => {
            code.push(Instr::Flag(false))?;
            Ok(())
        }
        [first, others @ ..] => {
            code.push(Instr::Load(*first))?;
            push_or(code, others)
        }
    }
}

impl Input {
    ghost use Rattle.std.specs.Prelude.{◌≡◌};
    ghost use Rattle.plan_compile.specs.Emit.{is_source_file};

    /// Returns whether the input is a source file.
    fn is_source_file(self) -> bool
        ensures { result ≡ is_source_file self }
    {
        match self {
            Input::File(_file) => true,
            Input::Made(_stamp, _changed) => false,
        }
    }
}

/// Returns whether one of the inputs is a source file.
pub(crate) fn has_source_file(inputs: &[Input]) -> bool
    ensures { result ≡ Rattle.plan_compile.specs.Emit.has_source_file inputs.now }
{
    for input in inputs {
        if input.is_source_file() {
            return true;
        }
    }
    false
}
