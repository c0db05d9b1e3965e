//! Generates the code of an edge of any sort.

ghost use Rattle.std.specs.Prelude.{◌≡◌, ◌++◌, [], OnOk};
ghost use Rattle.plan_text.specs.Outcome.{Meets, seen_by};
ghost use Rattle.plan_compile.specs.declared.fault.CompileFault.TheVariants as CompileFault;
ghost use Rattle.plan_compile.specs.Emit.{alone_code, code_of, command_code, emitted, gather_code};

use crate::code::Code;
use crate::command::{push_from_entry, push_front};
use crate::fault::CompileFault;
use crate::inputs::{push_any, push_newest, push_order};
use crate::layout::{CommandLayout, EdgeLayout, GatherLayout, Output};
use crate::outputs::{push_alone, push_own_files};
use plan_image::{Instr, MAX_BODY};
use std::alloc::{AllocError, Global};

/// Returns `Limit` if the code has too many places.
fn check_length(code: &Code) -> Result<(), CompileFault>
    ensures { seen_by (λ _. code.now) result ≡ emitted code.now }
{
    if code.len() <= MAX_BODY {
        Ok(())
    } else {
        Err(CompileFault::Limit)
    }
}

fn put_command(code: &mut Code, layout: &CommandLayout) -> Result<(), CompileFault>
    requires { code.old ≡ [] }
    ensures { Meets CompileFault.Memory (λ _. code.new) result (emitted (command_code layout.now)) }
{
    push_front(code, layout)?;
    if code.len() > MAX_BODY {
        return Err(CompileFault::Limit);
    }
    if layout.outputs.len() > MAX_BODY {
        return Err(CompileFault::Limit);
    }
    if layout.flags.len() > MAX_BODY {
        return Err(CompileFault::Limit);
    }
    let at = code.len() as u32;
    push_from_entry(code, layout, at)?;
    check_length(code)
}

fn push_gather(code: &mut Code, layout: &GatherLayout) -> Result<(), AllocError>
    ensures { OnOk result (code.new ≡ code.old ++ gather_code layout.now) }
{
    push_order(code, layout.order_only.as_slice())?;
    push_newest(code, layout.named.as_slice())?;
    push_own_files(code, layout.baseline, layout.outputs.as_slice())?;
    code.push(Instr::Store(layout.stamp))?;
    push_any(code, layout.flags.as_slice())?;
    code.push(Instr::Store(layout.changed))?;
    code.push(Instr::End)?;
    Ok(())
}

fn put_gather(code: &mut Code, layout: &GatherLayout) -> Result<(), CompileFault>
    requires { code.old ≡ [] }
    ensures { Meets CompileFault.Memory (λ _. code.new) result (emitted (gather_code layout.now)) }
{
    push_gather(code, layout)?;
    check_length(code)
}

fn put_alone(code: &mut Code, outputs: &[Output]) -> Result<(), CompileFault>
    requires { code.old ≡ [] }
    ensures { Meets CompileFault.Memory (λ _. code.new) result (emitted (alone_code outputs.now)) }
{
    push_alone(code, outputs)?;
    check_length(code)
}

/// Generates the code of an edge into a buffer.
pub(crate) fn put_code(code: &mut Code, layout: &EdgeLayout) -> Result<(), CompileFault>
    ensures { Meets CompileFault.Memory (λ _. code.new) result (emitted (code_of layout.now)) }
{
    code.clear();
    match layout {
        EdgeLayout::Command(command) => put_command(code, command),
        EdgeLayout::Gather(gather) => put_gather(code, gather),
        EdgeLayout::Alone(outputs) => put_alone(code, outputs.as_slice()),
    }
}

/// Returns the code of an edge: its questions, the condition for running its command, and the entry that it
/// records, by the out-of-date rule of docs/rules/out-of-date.md. The time is linear in the number of inputs
/// and outputs.
///
/// # Errors
///
/// - `Limit` if the code would have more than 65,536 places.
/// - `Memory` if memory runs out before that is known.
pub fn edge_code(alloc: Global, layout: &EdgeLayout) -> Result<Vec<Instr>, CompileFault>
    ensures { Meets CompileFault.Memory (λ v. v.items) result (emitted (code_of layout.now)) }
{
    let mut code = Code::new(alloc);
    put_code(&mut code, layout)?;
    let instrs = code.instrs(alloc)?;
    Ok(instrs)
}
