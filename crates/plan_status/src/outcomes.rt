//! How the edges of an image ended.

ghost use Rattle.std.specs.Prelude.{◌≡◌, IfOk, Some, length, option_map, slice_get};
ghost use Rattle.std.specs.Result.{result_err};
ghost use Rattle.plan_image.specs.Columns.{lent};
ghost use Rattle.plan_machine.specs.Kept.{IsStateOf};
ghost use Rattle.plan_machine.specs.State.{outcome_at};
ghost use Rattle.plan_status.specs.Outcomes as defined;
ghost use Rattle.plan_status.specs.Printing.{Prints};

use crate::fault::PrintFault;
use crate::laws::join_laws;
use crate::lines::{cause_text, concatenate, first_path};
use plan_image::{EdgeRef, Parts};
use plan_machine::{Cause, Outcome, State};
use plan_text::{Sink, write_all};
use plan_verify::Verified;
use std::alloc::{AllocError, Global};

/// Returns `Failed` and why an edge failed.
fn failed_text(alloc: Global, parts: &Parts, cause: Cause) -> Result<Vec<u8>, AllocError>
    ensures { IfOk result (λ text. text.items ≡ defined.failed_text parts.now cause) }
{
    match cause_text(alloc, parts, cause)? {
        Some(cause) => concatenate(alloc, &[b"Failed ".as_slice(), &cause]),
        None => Vec::from_slice(alloc, b"Failed "),
    }
}

/// Returns `Skipped` and the edge because of which another was skipped.
fn skipped_text(alloc: Global, wait: u32) -> Result<Vec<u8>, AllocError>
    ensures { IfOk result (λ text. text.items ≡ defined.skipped_text wait) }
{
    let wait = wait.to_string(alloc)?;
    concatenate(alloc, &[b"Skipped ".as_slice(), wait.as_bytes()])
}

/// Returns the text of an outcome that has no number, or `Unended` if there is no outcome.
fn plain_text(outcome: Option<Outcome>) -> &'static [u8]
    ensures { result.now ≡ defined.plain_outcome outcome }
{
    match outcome {
        Some(Outcome::Clean) => b"Clean",
        Some(Outcome::Ran) => b"Ran",
        Some(Outcome::Stopped) => b"Stopped",
        Some(Outcome::NotWanted) => b"NotWanted",
        _ => b"Unended",
    }
}

/// Returns the text of an outcome, or `Unended` if there is none.
fn outcome_text(
    alloc: Global,
    parts: &Parts,
    outcome: Option<Outcome>,
) -> Result<Vec<u8>, AllocError>
    ensures { IfOk result (λ text. text.items ≡ defined.outcome_text parts.now outcome) }
{
    match outcome {
        Some(Outcome::Failed(cause)) => failed_text(alloc, parts, cause),
        Some(Outcome::Skipped(wait)) => skipped_text(alloc, wait),
        _ => Vec::from_slice(alloc, plain_text(outcome)),
    }
}

/// Returns the name of an edge. It is empty if its first output isn't in the image.
fn edge_name<'a>(parts: &'a Parts, outputs: &[u32]) -> &'a [u8]
    ensures { result.now ≡ defined.edge_name parts.now outputs.now }
{
    match first_path(parts, outputs) {
        Some(name) => name,
        None => b"",
    }
}

/// Returns `NUMBER NAME OUTCOME`.
fn outcome_line(
    alloc: Global,
    parts: &Parts,
    number: u32,
    outputs: &[u32],
    outcome: Option<Outcome>,
) -> Result<Vec<u8>, AllocError>
    ensures { IfOk result (λ line. line.items ≡ defined.outcome_line number (defined.edge_name parts.now outputs.now) (defined.outcome_text parts.now outcome)) }
{
    let number = number.to_string(alloc)?;
    let outcome = outcome_text(alloc, parts, outcome)?;
    let name = edge_name(parts, outputs);
    concatenate(
        alloc,
        &[number.as_bytes(), b" ", name, b" ", &outcome, b"\n"],
    )
}

/// Writes how an edge ended.
fn print_outcome<W: Sink>(
    alloc: Global,
    parts: &Parts,
    number: u32,
    edge: EdgeRef<'_>,
    outcome: Option<Outcome>,
    out: &mut W,
) -> Result<(), PrintFault>
    ensures { Prints (defined.edge_line parts.now number (lent edge.entry) outcome) (result_err result) (W.failures out.old, W.taken out.old) (W.failures out.new, W.taken out.new) }
{
    let line = outcome_line(alloc, parts, number, edge.outputs, outcome)?;
    write_all(out, &line)?;
    Ok(())
}

/// Writes `NUMBER NAME OUTCOME` for each edge of the image, in their order, with the name of its first output. An
/// outcome is `Clean`, `Ran`, `Failed CAUSE`, `Skipped NUMBER`, `Stopped`, `NotWanted`, or `Unended` if there is none.
///
/// # Errors
/// `Memory` or `Write`. Then the sink took a prefix of the lines.
pub fn print_outcomes<W: Sink>(
    alloc: Global,
    image: &Verified,
    state: &State,
    out: &mut W,
) -> Result<(), PrintFault>
    ensures { Prints (defined.outcomes_of image.now state.now.run_state.now) (result_err result) (W.failures out.old, W.taken out.old) (W.failures out.new, W.taken out.new) }
{
    join_laws();
    let parts = image.image().parts();
    for number in 0..parts.edges.len() {
        let edge = parts.edges.edge(number);
        let outcome = state.outcome(number as u32);
        match print_outcome(alloc, parts, number as u32, edge, outcome, out) {
            Ok(()) => {}
            Err(fault) => return Err(fault),
        }
    }
    Ok(())
}

/// Checks whether an edge succeeded, or isn't wanted.
fn is_done(outcome: Option<Outcome>) -> bool
    ensures { result ≡ defined.is_done outcome }
{
    matches!(
        outcome,
        Some(Outcome::Clean | Outcome::Ran | Outcome::NotWanted)
    )
}

/// Checks whether all wanted edges of the image succeeded.
pub fn all_done(image: &Verified, state: &State) -> bool
    ensures { result ≡ defined.all_done image.now state.now.run_state.now }
{
    let parts = image.image().parts();
    for number in 0..parts.edges.len() {
        if !is_done(state.outcome(number as u32)) {
            return false;
        }
    }
    true
}
