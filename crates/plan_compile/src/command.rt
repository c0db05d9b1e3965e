//! Generates the code of a command edge.

ghost use Rattle.std.specs.Prelude.{◌≡◌, ◌≤◌, ◌^◌, true, false, ◌++◌, ◌+◌, ◌∷◌, [], length, nat_lt, not, OnOk};
ghost use Rattle.plan_image.specs.declared.maxima.TheConstants.{MAX_BODY};
ghost use Rattle.plan_compile.specs.Emit.{after_code, rerun_flag_code, clean_code, clean_len, command_code, compare_code, compares_basis, deps_code, dirty_code, dirty_place, front, holders, age_test_code, same_command_code, known_place, oldest_code, other_code, pass_code, ready_code, ready_len, from_entry_code, run_code, same_code, same_place, stat_code, under_code, before_sweep_code};
ghost use Rattle.plan_image.specs.declared.body.Instr.TheVariants as op;

use crate::baseline::Baseline;
use crate::code::Code;
use crate::inputs::{has_source_file, push_any, push_newest, push_or, push_order};
use crate::layout::{CommandLayout, Output};
use crate::outputs::{push_held, push_oldest, push_restat, push_stats};
use plan_image::Instr;
use std::alloc::AllocError;

/// Returns whether the recorded basis is compared.
fn compares_basis(baseline: Baseline) -> bool
    ensures { result ≡ compares_basis baseline }
{
    match baseline {
        Baseline::Outputs => false,
        Baseline::Basis => true,
        Baseline::OutputsAndBasis => true,
    }
}

/// Returns whether the rerun flag tests the outputs if the baseline is no later than the oldest output. The test
/// isn't needed if a named input is a source file, which is newer than a missing output.
fn looks_at_outputs(layout: &CommandLayout) -> bool
    ensures { result ≡ not (Rattle.plan_compile.specs.Emit.has_source_file layout.now.named) }
{
    !has_source_file(layout.named.as_slice())
}

// ---- up to the recorded entry

/// Appends code for the rerun flag: whether an output is missing or an input changed. The outputs are tested only if
/// `looks` is true.
fn push_rerun_flag(
    code: &mut Code,
    looks: bool,
    outputs: &[Output],
    flags: &[u32],
) -> Result<(), AllocError>
    ensures { OnOk result (code.new ≡ code.old ++ rerun_flag_code looks outputs.now flags.now) }
{
    if looks {
        push_oldest(code, outputs)?;
        code.push(Instr::IsMissing)?;
        push_or(code, flags)
    } else {
        push_any(code, flags)
    }
}

/// Appends code for the values before the sweep, and the request for the recorded entry.
fn push_before_sweep(code: &mut Code, layout: &CommandLayout) -> Result<(), AllocError>
    ensures { OnOk result (code.new ≡ code.old ++ before_sweep_code (compares_basis layout.now.baseline) layout.now (op.Recall ∷ [])) }
{
    let outputs = layout.outputs.as_slice();
    if compares_basis(layout.baseline) {
        code.push(Instr::Recall)?;
        Ok(())
    } else {
        let looks = looks_at_outputs(layout);
        push_oldest(code, outputs)?;
        code.push(Instr::Load(layout.newest))?;
        push_rerun_flag(code, looks, outputs, layout.flags.as_slice())?;
        code.push(Instr::Recall)?;
        Ok(())
    }
}

/// Appends code for the outputs' stamps, the values before the sweep, and the request for the recorded entry.
fn push_questions(code: &mut Code, layout: &CommandLayout) -> Result<(), AllocError>
    ensures { OnOk result (code.new ≡ code.old ++ (stat_code layout.now.outputs ++ before_sweep_code (compares_basis layout.now.baseline) layout.now (op.Recall ∷ []))) }
{
    push_stats(code, layout.outputs.as_slice())?;
    push_before_sweep(code, layout)
}

/// Appends the code up to the request for the recorded entry.
pub(crate) fn push_front(code: &mut Code, layout: &CommandLayout) -> Result<(), AllocError>
    ensures { OnOk result (code.new ≡ code.old ++ front layout.now []) }
{
    push_order(code, layout.order_only.as_slice())?;
    push_newest(code, layout.named.as_slice())?;
    code.push(Instr::Store(layout.newest))?;
    push_questions(code, layout)
}

// ---- from the command on

/// Appends code that reads the depfile and sweeps its paths.
fn push_deps(code: &mut Code, depfile: Option<u32>) -> Result<(), AllocError>
    ensures { OnOk result (code.new ≡ code.old ++ deps_code depfile) }
{
    match depfile {
        Some(text) => {
            code.push(Instr::Flag(false))?;
            code.push(Instr::Text(text))?;
            code.push(Instr::Deps)?;
            code.push(Instr::Sweep)?;
            code.push(Instr::Swap)?;
            code.push(Instr::Drop)?;
            Ok(())
        }
        None => {
            code.push(Instr::NoPaths)?;
            Ok(())
        }
    }
}

/// Appends code for the outputs after the command, and the end.
fn push_after(code: &mut Code, restat: bool, outputs: &[Output]) -> Result<(), AllocError>
    ensures { OnOk result (code.new ≡ code.old ++ after_code restat outputs.now (op.End ∷ [])) }
{
    if restat {
        push_restat(code, outputs)?;
        code.push(Instr::End)?;
        Ok(())
    } else {
        push_stats(code, outputs)?;
        push_held(code, true, false, outputs)?;
        code.push(Instr::End)?;
        Ok(())
    }
}

/// Appends the code from the request for a job token on.
fn push_run(code: &mut Code, layout: &CommandLayout) -> Result<(), AllocError>
    ensures { OnOk result (code.new ≡ code.old ++ run_code layout.now) }
{
    code.push(Instr::Take)?;
    code.push(Instr::Text(layout.command))?;
    code.push(Instr::Run)?;
    code.push(Instr::Release)?;
    code.push(Instr::Text(layout.command))?;
    code.push(Instr::Load(layout.newest))?;
    push_deps(code, layout.depfile)?;
    code.push(Instr::Keep)?;
    push_after(code, layout.restat, layout.outputs.as_slice())
}

/// Appends the code from the point at which the edge is known to be dirty.
fn push_dirty(code: &mut Code, layout: &CommandLayout) -> Result<(), AllocError>
    ensures { OnOk result (code.new ≡ code.old ++ dirty_code layout.now) }
{
    code.push(Instr::Drop)?;
    code.push(Instr::Drop)?;
    push_run(code, layout)
}

// ---- how long parts are

/// Returns the number of instructions for the least stamp of the outputs.
fn oldest_len(outputs: &[Output]) -> u32
    requires few { length outputs.now ≤ MAX_BODY }
    ensures len { result ≡ length (oldest_code outputs.now) }
    ensures short { result ≤ 2 ^ 18 }
{
    let count = outputs.len() as u32;
    if count == 0 { 1 } else { 2 * count - 1 }
}

/// Returns the number of instructions that store the flags of a clean edge.
fn clean_len(layout: &CommandLayout) -> u32
    requires few { length layout.now.outputs ≤ MAX_BODY }
    ensures len { result ≡ Rattle.plan_compile.specs.Emit.clean_len layout.now }
    ensures short { result ≤ 2 ^ 18 }
{
    let count = layout.outputs.len() as u32;
    if layout.restat {
        2 * count
    } else if count == 0 {
        0
    } else {
        2
    }
}

/// Returns the number of instructions for the rerun flag.
fn rerun_flag_len(layout: &CommandLayout, looks: bool) -> u32
    requires few { length layout.now.outputs ≤ MAX_BODY }
    requires few_flags { length layout.now.flags ≤ MAX_BODY }
    ensures len { result ≡ length (rerun_flag_code looks layout.now.outputs layout.now.flags) }
    ensures short { result ≤ 2 ^ 19 }
{
    let flags = 2 * layout.flags.len() as u32;
    if looks {
        oldest_len(layout.outputs.as_slice()) + 1 + flags
    } else if flags == 0 {
        1
    } else {
        flags - 1
    }
}

/// Returns the number of instructions that prepare the sweep if a baseline is on the stack above the paths.
fn under_len(layout: &CommandLayout, looks: bool) -> u32
    requires few { length layout.now.outputs ≤ MAX_BODY }
    requires few_flags { length layout.now.flags ≤ MAX_BODY }
    ensures len { result ≡ length (under_code looks layout.now []) }
    ensures short { result ≤ 2 ^ 19 + 4 }
{
    rerun_flag_len(layout, looks) + 4
}

/// Returns the number of instructions that prepare the sweep.
fn ready_len(layout: &CommandLayout) -> u32
    requires few { length layout.now.outputs ≤ MAX_BODY }
    requires few_flags { length layout.now.flags ≤ MAX_BODY }
    ensures len { result ≡ Rattle.plan_compile.specs.Emit.ready_len layout.now }
    ensures short { result ≤ 2 ^ 20 }
{
    let oldest = oldest_len(layout.outputs.as_slice());
    match layout.baseline {
        Baseline::Outputs => 1,
        Baseline::Basis => under_len(layout, true),
        Baseline::OutputsAndBasis => {
            let looks = looks_at_outputs(layout);
            oldest + 1 + under_len(layout, looks)
        }
    }
}

/// Returns the number of instructions that compare the command.
fn same_len(layout: &CommandLayout) -> u32
    ensures len { result ≡ length (same_code layout.now.blank layout.now.command) }
    ensures short { result ≤ 7 }
{
    if layout.blank { 7 } else { 3 }
}

/// Returns the number of instructions that sweep if the command differs.
fn other_len(layout: &CommandLayout) -> u32
    ensures len { result ≡ length (other_code layout.now 0 []) }
    ensures short { result ≤ 9 }
{
    if compares_basis(layout.baseline) {
        9
    } else {
        5
    }
}

// ---- from the recorded entry on

/// Appends the flags and the end of a clean edge, and the dirty code.
fn push_clean_exit(code: &mut Code, layout: &CommandLayout) -> Result<(), AllocError>
    ensures { OnOk result (code.new ≡ code.old ++ (clean_code layout.now ++ (op.End ∷ dirty_code layout.now))) }
{
    push_held(code, false, layout.restat, layout.outputs.as_slice())?;
    code.push(Instr::End)?;
    push_dirty(code, layout)
}

/// Appends code that sweeps, compares, and ends if the edge is clean. The code begins at place `at`.
fn push_age_test(code: &mut Code, layout: &CommandLayout, at: u32) -> Result<(), AllocError>
    requires place { at ≤ 2 ^ 25 }
    requires few { length layout.now.outputs ≤ MAX_BODY }
    ensures { OnOk result (code.new ≡ code.old ++ age_test_code layout.now at) }
{
    let clean = clean_len(layout);
    code.push(Instr::Sweep)?;
    code.push(Instr::Drop)?;
    code.push(Instr::JumpIf(at + 6 + clean))?;
    code.push(Instr::Before)?;
    code.push(Instr::JumpIf(at + 8 + clean))?;
    push_clean_exit(code, layout)
}

/// Appends code that prepares the sweep if a baseline is on the stack above the paths.
fn push_under(code: &mut Code, layout: &CommandLayout, looks: bool) -> Result<(), AllocError>
    ensures { OnOk result (code.new ≡ code.old ++ under_code looks layout.now []) }
{
    let outputs = layout.outputs.as_slice();
    code.push(Instr::Swap)?;
    code.push(Instr::Load(layout.newest))?;
    code.push(Instr::Swap)?;
    push_rerun_flag(code, looks, outputs, layout.flags.as_slice())?;
    code.push(Instr::Swap)?;
    Ok(())
}

/// Appends code that prepares the sweep if the recorded basis is on the stack above the paths.
fn push_ready(code: &mut Code, layout: &CommandLayout) -> Result<(), AllocError>
    ensures { OnOk result (code.new ≡ code.old ++ ready_code layout.now.baseline layout.now []) }
{
    match layout.baseline {
        Baseline::Outputs => {
            code.push(Instr::Drop)?;
            Ok(())
        }
        Baseline::Basis => push_under(code, layout, true),
        Baseline::OutputsAndBasis => {
            let looks = looks_at_outputs(layout);
            push_oldest(code, layout.outputs.as_slice())?;
            code.push(Instr::Older)?;
            push_under(code, layout, looks)
        }
    }
}

/// Appends code that prepares the sweep, sweeps and compares. The code begins at place `at`.
fn push_same_command(code: &mut Code, layout: &CommandLayout, at: u32) -> Result<(), AllocError>
    requires place { at ≤ 2 ^ 24 }
    requires few { length layout.now.outputs ≤ MAX_BODY }
    requires few_flags { length layout.now.flags ≤ MAX_BODY }
    ensures { OnOk result (code.new ≡ code.old ++ same_command_code layout.now at) }
{
    let age_test = at + ready_len(layout);
    push_ready(code, layout)?;
    push_age_test(code, layout, age_test)
}

/// Returns the place of the dirty code, if the code that prepares the sweep is at place `at`.
fn dirty_place(layout: &CommandLayout, at: u32) -> u32
    requires place { at ≤ 2 ^ 24 }
    requires few { length layout.now.outputs ≤ MAX_BODY }
    requires few_flags { length layout.now.flags ≤ MAX_BODY }
    ensures { result ≡ Rattle.plan_compile.specs.Emit.dirty_place layout.now at }
{
    at + ready_len(layout) + 6 + clean_len(layout)
}

/// Appends code that sweeps nevertheless and jumps to the dirty code, and then the code that compares, which is
/// at place `judged`.
fn push_swept(code: &mut Code, layout: &CommandLayout, judged: u32) -> Result<(), AllocError>
    requires place { judged ≤ 2 ^ 24 }
    requires few { length layout.now.outputs ≤ MAX_BODY }
    requires few_flags { length layout.now.flags ≤ MAX_BODY }
    ensures { OnOk result (code.new ≡ code.old ++ (op.Sweep ∷ op.Drop ∷ op.Drop ∷ op.Jump (dirty_place layout.now judged) ∷ same_command_code layout.now judged)) }
{
    let dirty = dirty_place(layout, judged);
    code.push(Instr::Sweep)?;
    code.push(Instr::Drop)?;
    code.push(Instr::Drop)?;
    code.push(Instr::Jump(dirty))?;
    push_same_command(code, layout, judged)
}

/// Appends the code for a different recorded command, and then the code that compares, which is at place
/// `judged`.
fn push_other(code: &mut Code, layout: &CommandLayout, judged: u32) -> Result<(), AllocError>
    requires place { judged ≤ 2 ^ 24 }
    requires few { length layout.now.outputs ≤ MAX_BODY }
    requires few_flags { length layout.now.flags ≤ MAX_BODY }
    ensures { OnOk result (code.new ≡ code.old ++ other_code layout.now (dirty_place layout.now judged) (same_command_code layout.now judged)) }
{
    if compares_basis(layout.baseline) {
        code.push(Instr::Swap)?;
        code.push(Instr::Zero)?;
        code.push(Instr::Swap)?;
        code.push(Instr::Flag(false))?;
        code.push(Instr::Swap)?;
        push_swept(code, layout, judged)
    } else {
        code.push(Instr::Drop)?;
        push_swept(code, layout, judged)
    }
}

/// Appends code that tests whether the recorded command is the edge's command.
fn push_same(code: &mut Code, blank: bool, command: u32) -> Result<(), AllocError>
    ensures { OnOk result (code.new ≡ code.old ++ same_code blank command) }
{
    if blank {
        code.push(Instr::Not)?;
        code.push(Instr::Swap)?;
        code.push(Instr::Text(command))?;
        code.push(Instr::Equal)?;
        code.push(Instr::Not)?;
        code.push(Instr::Or)?;
        code.push(Instr::Not)?;
        Ok(())
    } else {
        code.push(Instr::Drop)?;
        code.push(Instr::Text(command))?;
        code.push(Instr::Equal)?;
        Ok(())
    }
}

/// Appends code that compares the recorded command. The code begins at place `at`.
fn push_compare(code: &mut Code, layout: &CommandLayout, at: u32) -> Result<(), AllocError>
    requires place { at ≤ 2 ^ 20 }
    requires few { length layout.now.outputs ≤ MAX_BODY }
    requires few_flags { length layout.now.flags ≤ MAX_BODY }
    ensures { OnOk result (code.new ≡ code.old ++ compare_code layout.now at) }
{
    let judged = at + same_len(layout) + 1 + other_len(layout);
    push_same(code, layout.blank, layout.command)?;
    code.push(Instr::JumpIf(judged))?;
    push_other(code, layout, judged)
}

/// Appends code for the baseline of a generator that compares the basis of its entry. The code begins at place
/// `at`.
fn push_baseline(code: &mut Code, layout: &CommandLayout, at: u32) -> Result<(), AllocError>
    requires place { at ≤ 2 ^ 20 }
    requires few { length layout.now.outputs ≤ MAX_BODY }
    requires few_flags { length layout.now.flags ≤ MAX_BODY }
    ensures { OnOk result (code.new ≡ code.old ++ pass_code true layout.now at) }
{
    let outputs = layout.outputs.as_slice();
    let known = at + 4 + oldest_len(outputs);
    code.push(Instr::JumpIf(known))?;
    code.push(Instr::Drop)?;
    code.push(Instr::Drop)?;
    push_oldest(code, outputs)?;
    code.push(Instr::Jump(known + 1))?;
    code.push(Instr::Drop)?;
    push_same_command(code, layout, known + 1)
}

/// Appends code for a generator, which doesn't compare the command. The code begins at place `at`.
fn push_generator(code: &mut Code, layout: &CommandLayout, at: u32) -> Result<(), AllocError>
    requires place { at ≤ 2 ^ 20 }
    requires few { length layout.now.outputs ≤ MAX_BODY }
    requires few_flags { length layout.now.flags ≤ MAX_BODY }
    ensures { OnOk result (code.new ≡ code.old ++ pass_code (compares_basis layout.now.baseline) layout.now at) }
{
    if compares_basis(layout.baseline) {
        push_baseline(code, layout, at)
    } else {
        code.push(Instr::Drop)?;
        code.push(Instr::Drop)?;
        push_same_command(code, layout, at + 2)
    }
}

/// Appends the code from the recorded entry on. The code begins at place `at`.
pub(crate) fn push_from_entry(
    code: &mut Code,
    layout: &CommandLayout,
    at: u32,
) -> Result<(), AllocError>
    requires place { at ≤ 2 ^ 20 }
    requires few { length layout.now.outputs ≤ MAX_BODY }
    requires few_flags { length layout.now.flags ≤ MAX_BODY }
    ensures { OnOk result (code.new ≡ code.old ++ from_entry_code layout.now.generator layout.now at) }
{
    if layout.generator {
        push_generator(code, layout, at)
    } else {
        push_compare(code, layout, at)
    }
}
