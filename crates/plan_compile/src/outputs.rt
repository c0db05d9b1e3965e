//! Generates code over the outputs of an edge.

ghost use Rattle.std.specs.Prelude.{◌≡◌, ◌++◌, false, OnOk};
ghost use Rattle.plan_compile.specs.Emit.{alone_code, files_code, flag_code, holders, older_code, oldest_code, own_files_code, restat_code, stat_code};

use crate::baseline::Baseline;
use crate::code::Code;
use crate::layout::Output;
use plan_image::Instr;
use std::alloc::AllocError;

/// Appends code that asks for the outputs' stamps and stores them.
pub(crate) fn push_stats(code: &mut Code, outputs: &[Output]) -> Result<(), AllocError>
    ensures { OnOk result (code.new ≡ code.old ++ stat_code outputs.now) }
{
    for output in outputs {
        code.push(Instr::Stat(output.file))?;
        code.push(Instr::Store(output.stamp))?;
    }
    Ok(())
}

/// Appends code for the least of the stamp on the stack and the outputs' stamps.
fn push_older(code: &mut Code, outputs: &[Output]) -> Result<(), AllocError>
    ensures { OnOk result (code.new ≡ code.old ++ older_code outputs.now) }
{
    for output in outputs {
        code.push(Instr::Load(output.stamp))?;
        code.push(Instr::Older)?;
    }
    Ok(())
}

/// Appends code for the least stamp of the outputs.
pub(crate) fn push_oldest(code: &mut Code, outputs: &[Output]) -> Result<(), AllocError>
    ensures { OnOk result (code.new ≡ code.old ++ oldest_code outputs.now) }
{
    match outputs {
        [] => {
            code.push(Instr::Zero)?;
            Ok(())
        }
        [first, others @ ..] => {
            code.push(Instr::Load(first.stamp))?;
            push_older(code, others)
        }
    }
}

/// Appends code that stores a flag for each output.
fn push_flags(code: &mut Code, on: bool, outputs: &[Output]) -> Result<(), AllocError>
    ensures { OnOk result (code.new ≡ code.old ++ flag_code on outputs.now) }
{
    for output in outputs {
        code.push(Instr::Flag(on))?;
        code.push(Instr::Store(output.changed))?;
    }
    Ok(())
}

/// Appends code that stores a flag once, for outputs that share its slot.
fn push_shared(code: &mut Code, on: bool, outputs: &[Output]) -> Result<(), AllocError>
    ensures { OnOk result (code.new ≡ code.old ++ flag_code on (holders false outputs.now)) }
{
    match outputs {
        [] => Ok(()),
        [first, ..] => {
            code.push(Instr::Flag(on))?;
            code.push(Instr::Store(first.changed))?;
            Ok(())
        }
    }
}

/// Appends code that stores a flag in each flag slot of the outputs.
pub(crate) fn push_held(
    code: &mut Code,
    on: bool,
    restat: bool,
    outputs: &[Output],
) -> Result<(), AllocError>
    ensures { OnOk result (code.new ≡ code.old ++ flag_code on (holders restat outputs.now)) }
{
    if restat {
        push_flags(code, on, outputs)
    } else {
        push_shared(code, on, outputs)
    }
}

/// Appends code that asks for the new stamps, and stores whether they differ from the old ones.
pub(crate) fn push_restat(code: &mut Code, outputs: &[Output]) -> Result<(), AllocError>
    ensures { OnOk result (code.new ≡ code.old ++ restat_code outputs.now) }
{
    for output in outputs {
        code.push(Instr::Load(output.stamp))?;
        code.push(Instr::Stat(output.file))?;
        code.push(Instr::Store(output.stamp))?;
        code.push(Instr::Load(output.stamp))?;
        code.push(Instr::Same)?;
        code.push(Instr::Not)?;
        code.push(Instr::Store(output.changed))?;
    }
    Ok(())
}

/// Appends code for the greatest of the stamp on the stack and the stamps of the outputs' files.
fn push_files(code: &mut Code, outputs: &[Output]) -> Result<(), AllocError>
    ensures { OnOk result (code.new ≡ code.old ++ files_code outputs.now) }
{
    for output in outputs {
        code.push(Instr::Stat(output.file))?;
        code.push(Instr::Newer)?;
    }
    Ok(())
}

/// Appends code for the same, unless the baseline is that of a phony whose files aren't asked for.
pub(crate) fn push_own_files(
    code: &mut Code,
    baseline: Baseline,
    outputs: &[Output],
) -> Result<(), AllocError>
    ensures { OnOk result (code.new ≡ code.old ++ own_files_code baseline outputs.now) }
{
    match baseline {
        Baseline::Outputs => Ok(()),
        Baseline::Basis => push_files(code, outputs),
        Baseline::OutputsAndBasis => push_files(code, outputs),
    }
}

/// Appends code that gives each output the stamp of its file, and ends.
pub(crate) fn push_alone(code: &mut Code, outputs: &[Output]) -> Result<(), AllocError>
    ensures { OnOk result (code.new ≡ code.old ++ alone_code outputs.now) }
{
    for output in outputs {
        code.push(Instr::Stat(output.file))?;
        code.push(Instr::Store(output.stamp))?;
        code.push(Instr::Load(output.stamp))?;
        code.push(Instr::IsMissing)?;
        code.push(Instr::Store(output.changed))?;
    }
    code.push(Instr::End)?;
    Ok(())
}
