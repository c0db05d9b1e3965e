//! The edges whose commands run.

ghost use Rattle.std.specs.Prelude.{◌≡◌, ◌++◌, IfOk, OnOk};
ghost use Rattle.plan_progress.specs.Running as defined;

use plan_machine::Mark;
use std::alloc::{AllocError, Global};

/// Appends an edge to others, unless it is `edge`.
fn push_other(others: &mut Vec<u32>, edge: u32, other: u32) -> Result<(), AllocError>
    ensures { OnOk result (others.new.items ≡ others.old.items ++ defined.other_than edge other) }
{
    if other == edge {
        return Ok(());
    }
    others.push(other)?;
    Ok(())
}

/// Returns edges without one of them.
fn without(alloc: Global, edge: u32, running: &[u32]) -> Result<Vec<u32>, AllocError>
    ensures { IfOk result (λ others. others.items ≡ defined.without edge running.now) }
{
    let mut others = Vec::new(alloc);
    for other in running {
        push_other(&mut others, edge, *other)?;
    }
    Ok(others)
}

/// Returns edges and one more.
fn with_one_more(alloc: Global, running: &[u32], edge: u32) -> Result<Vec<u32>, AllocError>
    ensures { IfOk result (λ all. all.items ≡ defined.running_then running.now (Mark.Took edge)) }
{
    let mut all = Vec::from_slice(alloc, running)?;
    all.push(edge)?;
    Ok(all)
}

/// Returns the edges whose commands run after one more mark.
pub(crate) fn running_then(
    alloc: Global,
    running: &[u32],
    mark: Mark,
) -> Result<Vec<u32>, AllocError>
    ensures { IfOk result (λ all. all.items ≡ defined.running_then running.now mark) }
{
    match mark {
        Mark::Took(edge) => with_one_more(alloc, running, edge),
        Mark::Released(edge) => without(alloc, edge, running),
        Mark::Ended(edge, _) => without(alloc, edge, running),
        Mark::Failed(edge, _) => without(alloc, edge, running),
        _ => Ok(Vec::from_slice(alloc, running)?),
    }
}
