//! The layout of each edge: its numbers in the image.

ghost use Rattle.std.specs.Prelude.{◌≡◌, IfOk};
ghost use Rattle.plan_text.specs.Outcome.{Meets};
ghost use Rattle.plan_compile.specs.declared.fault.CompileFault.TheVariants as CompileFault;
ghost use Rattle.plan_compile.specs.Assembling.{command_in, first_changed, gather_in, layout_in};
ghost use Rattle.plan_compile.specs.Emit.{code_of, emitted};
ghost use Rattle.plan_compile.specs.Images.{is_blank};
ghost use Rattle.plan_compile.specs.Slots.{form_of as form_meant};
ghost use Rattle.plan_scope.specs.TextLists.{whole};

use crate::build::Build;
use crate::code::Code;
use crate::fault::CompileFault;
use crate::layout::{CommandLayout, EdgeLayout, GatherLayout, Output};
use crate::lists::Lists;
use crate::lookups;
use crate::numbers::Numbers;
use crate::slot_pattern::SlotPattern;
use crate::slots::form_of;
use plan_scope::EdgeText;
use std::alloc::{AllocError, Global};

/// Returns whether a text is empty.
fn is_blank(text: &EdgeText<'_>) -> bool
    ensures { result ≡ is_blank (whole text.now) }
{
    text.is_empty()
}

/// Returns the flag slot of the first of these outputs.
fn first_changed(outputs: &[Output]) -> u32
    ensures { result ≡ first_changed outputs.now }
{
    match outputs {
        [] => 0,
        [first, ..] => first.changed,
    }
}

/// Returns the layout of an edge with a command.
fn command_layout<'a>(
    alloc: Global,
    lists: Lists,
    numbers: Numbers,
    table: &[Option<Output>],
    newest: u32,
    build: &Build<'a>,
) -> Result<CommandLayout, AllocError>
    ensures { IfOk result (λ w. w ≡ command_in numbers table.now newest build.now) }
{
    let Lists {
        named,
        order_only,
        outputs,
        flags,
    } = lists;
    let edge = build.edge();
    let named = lookups::inputs(named, table, build.named())?;
    let flags = lookups::flags(flags, named.as_slice())?;
    let order_only = lookups::sources(alloc, order_only, table, build.named(), build.order_only())?;
    let outputs = lookups::outputs(outputs, table, build.outputs())?;
    Ok(CommandLayout {
        named,
        order_only,
        outputs,
        flags,
        newest,
        command: numbers.command,
        blank: is_blank(&edge.command()),
        depfile: numbers.depfile,
        restat: edge.has_restat(),
        generator: edge.is_generator(),
        baseline: build.baseline(),
    })
}

/// Returns the layout of a phony with inputs.
fn gather_layout<'a>(
    alloc: Global,
    lists: Lists,
    table: &[Option<Output>],
    newest: u32,
    build: &Build<'a>,
) -> Result<GatherLayout, AllocError>
    ensures { IfOk result (λ w. w ≡ gather_in table.now newest build.now) }
{
    let Lists {
        named,
        order_only,
        outputs,
        flags,
    } = lists;
    let named = lookups::inputs(named, table, build.named())?;
    let flags = lookups::flags(flags, named.as_slice())?;
    let order_only = lookups::sources(alloc, order_only, table, build.named(), build.order_only())?;
    let outputs = lookups::outputs(outputs, table, build.outputs())?;
    let changed = first_changed(outputs.as_slice());
    Ok(GatherLayout {
        named,
        order_only,
        outputs,
        flags,
        stamp: newest,
        changed,
        baseline: build.baseline(),
    })
}

/// Returns the layout of an edge of any sort. The given lists are overwritten.
fn layout<'a>(
    alloc: Global,
    lists: Lists,
    numbers: Numbers,
    table: &[Option<Output>],
    newest: u32,
    form: SlotPattern,
    build: &Build<'a>,
) -> Result<EdgeLayout, AllocError>
    ensures { IfOk result (λ w. w ≡ layout_in form numbers table.now newest build.now) }
{
    match form {
        SlotPattern::OneFlag | SlotPattern::OwnFlags => {
            let layout = command_layout(alloc, lists, numbers, table, newest, build)?;
            Ok(EdgeLayout::Command(layout))
        }
        SlotPattern::Gathers => {
            let layout = gather_layout(alloc, lists, table, newest, build)?;
            Ok(EdgeLayout::Gather(layout))
        }
        SlotPattern::Alone => {
            let outputs = lookups::outputs(lists.outputs, table, build.outputs())?;
            Ok(EdgeLayout::Alone(outputs))
        }
    }
}

/// Returns the layout of an edge.
pub(crate) fn layout_of<'a>(
    alloc: Global,
    numbers: Numbers,
    table: &[Option<Output>],
    newest: u32,
    build: &Build<'a>,
) -> Result<EdgeLayout, AllocError>
    ensures { IfOk result (λ w. w ≡ layout_in (form_meant build.now) numbers table.now newest build.now) }
{
    layout(
        alloc,
        Lists::new(alloc),
        numbers,
        table,
        newest,
        form_of(build),
        build,
    )
}

/// Generates the code of an edge into a buffer. The given lists are overwritten, used for its layout, and
/// returned.
pub(crate) fn put_code<'a>(
    alloc: Global,
    lists: Lists,
    code: &mut Code,
    numbers: Numbers,
    table: &[Option<Output>],
    newest: u32,
    build: &Build<'a>,
) -> Result<Lists, CompileFault>
    ensures { Meets CompileFault.Memory (λ _. code.new) result (emitted (code_of (layout_in (form_meant build.now) numbers table.now newest build.now))) }
{
    let layout = layout(alloc, lists, numbers, table, newest, form_of(build), build)?;
    crate::emitting::put_code(code, &layout)?;
    Ok(Lists::of(alloc, layout))
}
