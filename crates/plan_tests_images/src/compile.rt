//! Tests `edge_code` on edges made by hand.

mod halves;

use plan_compile::*;
use plan_image::Instr;
use plan_text::Items;
use std::alloc::{AllocError, Global};

fn items<T: Copy>(alloc: Global, values: &[T]) -> Result<Items<T>, AllocError> {
    Ok(Items::new(Vec::from_slice(alloc, values)?))
}

/// Returns an output with the given file and slots.
fn output(file: u32, stamp: u32, changed: u32) -> Output {
    Output {
        file,
        stamp,
        changed,
    }
}

/// Returns a command edge that makes file 0 from file 1, with slots 0 to 2 and text 0.
fn command(alloc: Global, restat: bool, generator: bool) -> Result<CommandLayout, AllocError> {
    Ok(CommandLayout {
        named: items(alloc, [Input::File(1)].as_slice())?,
        order_only: Items::empty(alloc),
        outputs: items(alloc, [output(0, 0, 1)].as_slice())?,
        flags: Items::empty(alloc),
        newest: 2,
        command: 0,
        blank: false,
        depfile: None,
        restat,
        generator,
        baseline: baseline(restat),
    })
}

/// Returns the baseline that the specified out-of-date rule gives an edge.
fn baseline(restat: bool) -> Baseline {
    if restat {
        Baseline::Basis
    } else {
        Baseline::Outputs
    }
}

/// Checks whether the code of the edge is `expected`.
fn is_code(alloc: Global, layout: &EdgeLayout, expected: &[Instr]) -> Result<bool, CompileFault> {
    let code = edge_code(alloc, layout)?;
    Ok(code.as_slice() == expected)
}

fn is_command_code(
    alloc: Global,
    layout: CommandLayout,
    expected: &[Instr],
) -> Result<bool, CompileFault> {
    is_code(alloc, &EdgeLayout::Command(layout), expected)
}

/// Returns a command edge with one source file, one output and a depfile.
fn compiled(alloc: Global) -> Result<CommandLayout, AllocError> {
    let mut layout = command(alloc, false, false)?;
    layout.depfile = Some(1);
    Ok(layout)
}

#[test]
fn source_and_depfile(rt: HostRuntime) -> Result<(), AllocError> {
    let expected = [
        Instr::Need(1),
        Instr::Store(2),
        Instr::Stat(0),
        Instr::Store(0),
        Instr::Load(0),
        Instr::Load(2),
        Instr::Flag(false),
        Instr::Recall,
        Instr::Drop,
        Instr::Text(0),
        Instr::Equal,
        Instr::JumpIf(17),
        Instr::Drop,
        Instr::Sweep,
        Instr::Drop,
        Instr::Drop,
        Instr::Jump(26),
        Instr::Drop,
        Instr::Sweep,
        Instr::Drop,
        Instr::JumpIf(26),
        Instr::Before,
        Instr::JumpIf(28),
        Instr::Flag(false),
        Instr::Store(1),
        Instr::End,
        Instr::Drop,
        Instr::Drop,
        Instr::Take,
        Instr::Text(0),
        Instr::Run,
        Instr::Release,
        Instr::Text(0),
        Instr::Load(2),
        Instr::Flag(false),
        Instr::Text(1),
        Instr::Deps,
        Instr::Sweep,
        Instr::Swap,
        Instr::Drop,
        Instr::Keep,
        Instr::Stat(0),
        Instr::Store(0),
        Instr::Flag(true),
        Instr::Store(1),
        Instr::End,
    ];
    let layout = compiled(rt.alloc())?;
    assert!(rt; is_command_code(rt.alloc(), layout, expected.as_slice()) == Ok(true));
    Ok(())
}

/// Returns a command edge with two inputs that one edge makes, two outputs and an order-only source file.
fn linked(alloc: Global) -> Result<CommandLayout, AllocError> {
    let mut layout = command(alloc, false, false)?;
    layout.named = items(alloc, [Input::Made(0, 1), Input::Made(2, 1)].as_slice())?;
    layout.order_only = items(alloc, [4].as_slice())?;
    layout.outputs = items(alloc, [output(0, 3, 4), output(1, 5, 4)].as_slice())?;
    layout.flags = items(alloc, [1].as_slice())?;
    layout.newest = 6;
    Ok(layout)
}

#[test]
fn made_inputs(rt: HostRuntime) -> Result<(), AllocError> {
    let expected = [
        Instr::Need(4),
        Instr::Drop,
        Instr::Load(0),
        Instr::Load(2),
        Instr::Newer,
        Instr::Store(6),
        Instr::Stat(0),
        Instr::Store(3),
        Instr::Stat(1),
        Instr::Store(5),
        Instr::Load(3),
        Instr::Load(5),
        Instr::Older,
        Instr::Load(6),
        Instr::Load(3),
        Instr::Load(5),
        Instr::Older,
        Instr::IsMissing,
        Instr::Load(1),
        Instr::Or,
        Instr::Recall,
        Instr::Drop,
        Instr::Text(0),
        Instr::Equal,
        Instr::JumpIf(30),
        Instr::Drop,
        Instr::Sweep,
        Instr::Drop,
        Instr::Drop,
        Instr::Jump(39),
        Instr::Drop,
        Instr::Sweep,
        Instr::Drop,
        Instr::JumpIf(39),
        Instr::Before,
        Instr::JumpIf(41),
        Instr::Flag(false),
        Instr::Store(4),
        Instr::End,
        Instr::Drop,
        Instr::Drop,
        Instr::Take,
        Instr::Text(0),
        Instr::Run,
        Instr::Release,
        Instr::Text(0),
        Instr::Load(6),
        Instr::NoPaths,
        Instr::Keep,
        Instr::Stat(0),
        Instr::Store(3),
        Instr::Stat(1),
        Instr::Store(5),
        Instr::Flag(true),
        Instr::Store(4),
        Instr::End,
    ];
    let layout = linked(rt.alloc())?;
    assert!(rt; is_command_code(rt.alloc(), layout, expected.as_slice()) == Ok(true));
    Ok(())
}

#[test]
fn restat_edge(rt: HostRuntime) -> Result<(), AllocError> {
    let expected = [
        Instr::Need(1),
        Instr::Store(2),
        Instr::Stat(0),
        Instr::Store(0),
        Instr::Recall,
        Instr::Drop,
        Instr::Text(0),
        Instr::Equal,
        Instr::JumpIf(18),
        Instr::Swap,
        Instr::Zero,
        Instr::Swap,
        Instr::Flag(false),
        Instr::Swap,
        Instr::Sweep,
        Instr::Drop,
        Instr::Drop,
        Instr::Jump(32),
        Instr::Swap,
        Instr::Load(2),
        Instr::Swap,
        Instr::Load(0),
        Instr::IsMissing,
        Instr::Swap,
        Instr::Sweep,
        Instr::Drop,
        Instr::JumpIf(32),
        Instr::Before,
        Instr::JumpIf(34),
        Instr::Flag(false),
        Instr::Store(1),
        Instr::End,
        Instr::Drop,
        Instr::Drop,
        Instr::Take,
        Instr::Text(0),
        Instr::Run,
        Instr::Release,
        Instr::Text(0),
        Instr::Load(2),
        Instr::NoPaths,
        Instr::Keep,
        Instr::Load(0),
        Instr::Stat(0),
        Instr::Store(0),
        Instr::Load(0),
        Instr::Same,
        Instr::Not,
        Instr::Store(1),
        Instr::End,
    ];
    let layout = command(rt.alloc(), true, false)?;
    assert!(rt; is_command_code(rt.alloc(), layout, expected.as_slice()) == Ok(true));
    Ok(())
}

/// Returns a command edge with one input that an edge makes and two outputs. Its baseline is the earlier of the oldest
/// output and the basis.
fn joined(alloc: Global) -> Result<CommandLayout, AllocError> {
    let mut layout = command(alloc, false, false)?;
    layout.named = items(alloc, [Input::Made(0, 1)].as_slice())?;
    layout.outputs = items(alloc, [output(0, 2, 3), output(1, 4, 3)].as_slice())?;
    layout.flags = items(alloc, [1].as_slice())?;
    layout.newest = 5;
    layout.baseline = Baseline::OutputsAndBasis;
    Ok(layout)
}

#[test]
fn earlier_of_two_baselines(rt: HostRuntime) -> Result<(), AllocError> {
    let expected = [
        Instr::Load(0),
        Instr::Store(5),
        Instr::Stat(0),
        Instr::Store(2),
        Instr::Stat(1),
        Instr::Store(4),
        Instr::Recall,
        Instr::Drop,
        Instr::Text(0),
        Instr::Equal,
        Instr::JumpIf(20),
        Instr::Swap,
        Instr::Zero,
        Instr::Swap,
        Instr::Flag(false),
        Instr::Swap,
        Instr::Sweep,
        Instr::Drop,
        Instr::Drop,
        Instr::Jump(42),
        Instr::Load(2),
        Instr::Load(4),
        Instr::Older,
        Instr::Older,
        Instr::Swap,
        Instr::Load(5),
        Instr::Swap,
        Instr::Load(2),
        Instr::Load(4),
        Instr::Older,
        Instr::IsMissing,
        Instr::Load(1),
        Instr::Or,
        Instr::Swap,
        Instr::Sweep,
        Instr::Drop,
        Instr::JumpIf(42),
        Instr::Before,
        Instr::JumpIf(44),
        Instr::Flag(false),
        Instr::Store(3),
        Instr::End,
        Instr::Drop,
        Instr::Drop,
        Instr::Take,
        Instr::Text(0),
        Instr::Run,
        Instr::Release,
        Instr::Text(0),
        Instr::Load(5),
        Instr::NoPaths,
        Instr::Keep,
        Instr::Stat(0),
        Instr::Store(2),
        Instr::Stat(1),
        Instr::Store(4),
        Instr::Flag(true),
        Instr::Store(3),
        Instr::End,
    ];
    let layout = joined(rt.alloc())?;
    assert!(rt; is_command_code(rt.alloc(), layout, expected.as_slice()) == Ok(true));
    Ok(())
}

/// Returns a phony of file 7 with a named source file, a named output of an edge and an order-only source file.
fn gathering(alloc: Global, baseline: Baseline) -> Result<GatherLayout, AllocError> {
    Ok(GatherLayout {
        named: items(alloc, [Input::File(3), Input::Made(0, 1)].as_slice())?,
        order_only: items(alloc, [4].as_slice())?,
        outputs: items(alloc, [output(7, 2, 3)].as_slice())?,
        flags: items(alloc, [1].as_slice())?,
        stamp: 2,
        changed: 3,
        baseline,
    })
}

#[test]
fn phonies(rt: HostRuntime) -> Result<(), AllocError> {
    let outputs = items(rt.alloc(), [output(7, 0, 1)].as_slice())?;
    let alone = [
        Instr::Stat(7),
        Instr::Store(0),
        Instr::Load(0),
        Instr::IsMissing,
        Instr::Store(1),
        Instr::End,
    ];
    assert!(rt; is_code(rt.alloc(), &EdgeLayout::Alone(outputs), alone.as_slice()) == Ok(true));
    let layout = gathering(rt.alloc(), Baseline::Outputs)?;
    let gathered = [
        Instr::Need(4),
        Instr::Drop,
        Instr::Need(3),
        Instr::Load(0),
        Instr::Newer,
        Instr::Store(2),
        Instr::Load(1),
        Instr::Store(3),
        Instr::End,
    ];
    assert!(rt; is_code(rt.alloc(), &EdgeLayout::Gather(layout), gathered.as_slice()) == Ok(true));
    Ok(())
}

#[test]
fn phony_that_asks_for_its_files(rt: HostRuntime) -> Result<(), AllocError> {
    let gathered = [
        Instr::Need(4),
        Instr::Drop,
        Instr::Need(3),
        Instr::Load(0),
        Instr::Newer,
        Instr::Stat(7),
        Instr::Newer,
        Instr::Stat(8),
        Instr::Newer,
        Instr::Store(2),
        Instr::Load(1),
        Instr::Store(3),
        Instr::End,
    ];
    let mut layout = gathering(rt.alloc(), Baseline::OutputsAndBasis)?;
    layout.outputs = items(rt.alloc(), [output(7, 2, 3), output(8, 2, 3)].as_slice())?;
    assert!(rt; is_code(rt.alloc(), &EdgeLayout::Gather(layout), gathered.as_slice()) == Ok(true));
    Ok(())
}

/// Returns outputs for the files from 0 to `count` - 1.
fn many(alloc: Global, count: u32) -> Result<Items<Output>, AllocError> {
    let mut outputs = Vec::new(alloc);
    for file in 0..count {
        outputs.push(output(file, file, file))?;
    }
    Ok(Items::new(outputs))
}

/// Returns the number of instructions of a phony with `count` outputs and no inputs: five for each output, and one
/// for `End`.
fn len_alone(alloc: Global, count: u32) -> Result<usize, CompileFault> {
    let outputs = many(alloc, count)?;
    let code = edge_code(alloc, &EdgeLayout::Alone(outputs))?;
    Ok(code.len())
}

/// Returns the numbers from 0 to `count` - 1.
fn numbers(alloc: Global, count: u32) -> Result<Items<u32>, AllocError> {
    let mut found = Vec::new(alloc);
    for number in 0..count {
        found.push(number)?;
    }
    Ok(Items::new(found))
}

/// Returns the number of instructions of a command edge with `count` order-only source files.
fn len_ordered(alloc: Global, count: u32) -> Result<usize, CompileFault> {
    let mut layout = command(alloc, false, false)?;
    layout.order_only = numbers(alloc, count)?;
    let code = edge_code(alloc, &EdgeLayout::Command(layout))?;
    Ok(code.len())
}

#[test]
fn places(rt: HostRuntime) {
    assert!(rt; len_alone(rt.alloc(), 13_107) == Ok(65_536));
    assert!(rt; len_alone(rt.alloc(), 13_108) == Err(CompileFault::Limit));
    assert!(rt; len_ordered(rt.alloc(), 0) == Ok(41));
    assert!(rt; len_ordered(rt.alloc(), 32_747) == Ok(65_535));
    assert!(rt; len_ordered(rt.alloc(), 32_748) == Err(CompileFault::Limit));
    assert!(rt; len_ordered(rt.alloc(), 40_000) == Err(CompileFault::Limit));
}
