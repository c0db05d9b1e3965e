//! The line of one mark, and what it reads from an image.

ghost use Rattle.std.specs.Prelude.{◌≡◌, [], IfOk, if◌then◌else◌, map, option_map, is_some};
ghost use Rattle.std.specs.List.{concat};
ghost use Rattle.plan_verify.specs.Tables.{first_output, first_path, outputs_of, path_of};
ghost use Rattle.plan_machine.specs.Total.{has_command};
ghost use Rattle.plan_status.specs.Lines as defined;
ghost use Rattle.plan_status.specs.Lines.{label_of};

use plan_image::{Parts, Sort};
use plan_machine::{Cause, Mark};
use std::alloc::{AllocError, Global};

/// Joins texts.
pub(crate) fn concatenate(alloc: Global, texts: &[&[u8]]) -> Result<Vec<u8>, AllocError>
    ensures { IfOk result (λ text. text.items ≡ concat (map (λ t. t.now) texts.now)) }
{
    let mut text = Vec::new(alloc);
    for part in texts {
        text.extend_from_slice(part)?;
    }
    Ok(text)
}

/// Returns why a depfile is refused, and where.
fn malformed_text(alloc: Global, number: u8, offset: u32) -> Result<Vec<u8>, AllocError>
    ensures { IfOk result (λ text. text.items ≡ defined.malformed_text number offset) }
{
    let number = number.to_string(alloc)?;
    let offset = offset.to_string(alloc)?;
    concatenate(
        alloc,
        &[
            b"depfile malformed ".as_slice(),
            number.as_bytes(),
            b" at ",
            offset.as_bytes(),
        ],
    )
}

/// Returns the status that a command ended with, as text.
fn exit_text(alloc: Global, status: u8) -> Result<Vec<u8>, AllocError>
    ensures { IfOk result (λ text. text.items ≡ defined.exit_text status) }
{
    let status = status.to_string(alloc)?;
    concatenate(alloc, &[b"exit ".as_slice(), status.as_bytes()])
}

/// Returns which input is missing. None if the file isn't in the image.
fn missing_text(alloc: Global, parts: &Parts, file: u32) -> Result<Option<Vec<u8>>, AllocError>
    ensures { IfOk result (λ text. option_map (λ t. t.items) text ≡ defined.missing_text parts.now file) }
{
    let Some(path) = path_of(parts, file) else {
        return Ok(None);
    };
    let text = concatenate(alloc, &[b"missing input ".as_slice(), path])?;
    Ok(Some(text))
}

/// Returns the text of a cause that has no number.
fn plain_text(cause: Cause) -> &'static [u8]
    ensures { result.now ≡ defined.plain_text cause }
{
    match cause {
        Cause::StatFault => b"stat fault",
        Cause::Signal => b"signal",
        Cause::NotStarted => b"not started",
        Cause::DepfileFault => b"depfile fault",
        Cause::RecordFault => b"record fault",
        _ => b"text too long",
    }
}

/// Returns why an edge failed. None if the cause names a file that isn't in the image.
pub(crate) fn cause_text(
    alloc: Global,
    parts: &Parts,
    cause: Cause,
) -> Result<Option<Vec<u8>>, AllocError>
    ensures { IfOk result (λ text. option_map (λ t. t.items) text ≡ defined.cause_text parts.now cause) }
{
    match cause {
        Cause::MissingInput(file) => missing_text(alloc, parts, file),
        Cause::Exit(status) => Ok(Some(exit_text(alloc, status)?)),
        Cause::DepfileMalformed(number, offset) => {
            Ok(Some(malformed_text(alloc, number, offset)?))
        }
        _ => Ok(Some(Vec::from_slice(alloc, plain_text(cause))?)),
    }
}

/// Returns `[n/m] LABEL`.
fn ran_line(
    alloc: Global,
    parts: &Parts,
    total: u64,
    n: u64,
    edge: u32,
) -> Result<Vec<u8>, AllocError>
    ensures { IfOk result (λ line. line.items ≡ defined.ran_line n total (defined.label_of parts.now edge)) }
{
    let Some(label) = label_of(parts, edge) else {
        return Ok(Vec::new(alloc));
    };
    let n = n.to_string(alloc)?;
    let total = total.to_string(alloc)?;
    concatenate(
        alloc,
        &[
            b"[".as_slice(),
            n.as_bytes(),
            b"/",
            total.as_bytes(),
            b"] ",
            label,
            b"\n",
        ],
    )
}

/// Returns `FAILED NAME: CAUSE`.
fn failed_line(alloc: Global, parts: &Parts, edge: u32, cause: Cause) -> Result<Vec<u8>, AllocError>
    ensures { IfOk result (λ line. line.items ≡ defined.failed_line (first_output parts.now edge) (defined.cause_text parts.now cause)) }
{
    let cause = cause_text(alloc, parts, cause)?;
    match (name_of(parts, edge), &cause) {
        (Some(name), Some(cause)) => concatenate(
            alloc,
            &[b"FAILED ".as_slice(), name, b": ", cause, b"\n"],
        ),
        _ => Ok(Vec::new(alloc)),
    }
}

/// Returns `SKIPPED NAME: needs NAME` for a command edge.
fn skipped_line(alloc: Global, parts: &Parts, edge: u32, wait: u32) -> Result<Vec<u8>, AllocError>
    ensures { IfOk result (λ line. line.items ≡ (if has_command parts.now edge then defined.skipped_line (first_output parts.now edge) (first_output parts.now wait) else [])) }
{
    if !has_command(parts, edge) {
        return Ok(Vec::new(alloc));
    }
    match (name_of(parts, edge), name_of(parts, wait)) {
        (Some(name), Some(wait)) => concatenate(
            alloc,
            &[b"SKIPPED ".as_slice(), name, b": needs ", wait, b"\n"],
        ),
        _ => Ok(Vec::new(alloc)),
    }
}

/// Returns `STOPPED NAME` for a command edge.
fn stopped_line(alloc: Global, parts: &Parts, edge: u32) -> Result<Vec<u8>, AllocError>
    ensures { IfOk result (λ line. line.items ≡ (if has_command parts.now edge then defined.stopped_line (first_output parts.now edge) else [])) }
{
    if !has_command(parts, edge) {
        return Ok(Vec::new(alloc));
    }
    match name_of(parts, edge) {
        Some(name) => concatenate(alloc, &[b"STOPPED ".as_slice(), name, b"\n"]),
        None => Ok(Vec::new(alloc)),
    }
}

/// Returns the line of a mark. `n` is the number of command edges that have ended, with this one.
pub(crate) fn line_of(
    alloc: Global,
    parts: &Parts,
    total: u64,
    n: u64,
    mark: Mark,
) -> Result<Vec<u8>, AllocError>
    ensures { IfOk result (λ line. line.items ≡ defined.line_of parts.now total n mark) }
{
    match mark {
        Mark::Ended(edge, true) => ran_line(alloc, parts, total, n, edge),
        Mark::Failed(edge, cause) => failed_line(alloc, parts, edge, cause),
        Mark::Skipped(edge, wait) => skipped_line(alloc, parts, edge, wait),
        Mark::Stopped(edge) => stopped_line(alloc, parts, edge),
        _ => Ok(Vec::new(alloc)),
    }
}

/// Checks whether all that a cause names is in the image.
fn is_known(parts: &Parts, cause: Cause) -> bool
    ensures { result ≡ is_some (defined.cause_text parts.now cause) }
{
    match cause {
        Cause::MissingInput(file) => path_of(parts, file).is_some(),
        _ => true,
    }
}

/// Checks whether a mark says how a command edge ended, and all that it names is in the image.
pub(crate) fn tells_end(parts: &Parts, mark: Mark) -> bool
    ensures { result ≡ defined.tells_end parts.now mark }
{
    match mark {
        Mark::Ended(edge, _) | Mark::Stopped(edge) => has_command(parts, edge),
        Mark::Failed(edge, cause) => has_command(parts, edge) && is_known(parts, cause),
        Mark::Skipped(edge, wait) => {
            has_command(parts, edge) && (wait as usize) < parts.edges.len()
        }
        _ => false,
    }
}

/// Returns the path of a file. None if it isn't in the image.
pub(crate) fn path_of(parts: &Parts, file: u32) -> Option<&[u8]>
    ensures { option_map (λ path. path.now) result ≡ path_of parts.now file }
{
    parts.files.get(file as usize)
}

/// Returns the files that an edge makes.
fn outputs(parts: &Parts, edge: u32) -> &[u32]
    ensures { result.now ≡ outputs_of parts.now edge }
{
    match parts.edges.get(edge as usize) {
        Some(edge) => edge.outputs,
        None => &[],
    }
}

/// Returns the path of the first of these files.
pub(crate) fn first_path<'a>(parts: &'a Parts, outputs: &[u32]) -> Option<&'a [u8]>
    ensures { option_map (λ path. path.now) result ≡ first_path parts.now outputs.now }
{
    match outputs {
        [first, ..] => path_of(parts, *first),
        [] => None,
    }
}

/// Returns the name of an edge: the path of its first output.
pub(crate) fn name_of(parts: &Parts, edge: u32) -> Option<&[u8]>
    ensures { option_map (λ path. path.now) result ≡ first_output parts.now edge }
{
    first_path(parts, outputs(parts, edge))
}

/// Returns the label of an edge.
pub(crate) fn label_of(parts: &Parts, edge: u32) -> Option<&[u8]>
    ensures { option_map (λ label. label.now) result ≡ label_of parts.now edge }
{
    match parts.edges.get(edge as usize) {
        Some(edge) => parts.texts.get(edge.label as usize),
        None => None,
    }
}

/// Checks whether an edge has a command.
pub(crate) fn has_command(parts: &Parts, edge: u32) -> bool
    ensures { result ≡ has_command parts.now edge }
{
    match parts.edges.get(edge as usize) {
        Some(edge) => matches!(edge.sort, Sort::Command),
        None => false,
    }
}
