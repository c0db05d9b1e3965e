//! The text of an edge that failed.

ghost use Rattle.std.specs.Prelude.{◌≡◌, IfOk};
ghost use Rattle.plan_status.specs.Lines as status;
ghost use Rattle.plan_progress.specs.BuildLines as defined;

use crate::lines::{command_line, concatenate};
use crate::names::{first_output, outputs_of, path_of};
use plan_image::Image;
use plan_machine::Cause;
use std::alloc::{AllocError, Global};

/// Returns `code=N`.
fn exit_text(alloc: Global, status: u8) -> Result<Vec<u8>, AllocError>
    ensures { IfOk result (λ text. text.items ≡ defined.cause_text (Cause.Exit status)) }
{
    let status = status.to_string(alloc)?;
    concatenate(alloc, &[b"code=".as_slice(), status.as_bytes()])
}

/// Returns why a depfile is refused, and at which offset.
fn malformed_text(alloc: Global, number: u8, offset: u32) -> Result<Vec<u8>, AllocError>
    ensures { IfOk result (λ text. text.items ≡ status.malformed_text number offset) }
{
    let number = number.to_string(alloc)?;
    let offset = offset.to_string(alloc)?;
    concatenate(
        alloc,
        &[
            b"depfile malformed ".as_slice(),
            number.as_bytes(),
            b" at ",
            offset.as_bytes(),
        ],
    )
}

/// Returns the text of a cause that has no number.
fn plain_text(cause: Cause) -> &'static [u8]
    ensures { result.now ≡ status.plain_text cause }
{
    match cause {
        Cause::StatFault => b"stat fault",
        Cause::Signal => b"signal",
        Cause::NotStarted => b"not started",
        Cause::DepfileFault => b"depfile fault",
        Cause::RecordFault => b"record fault",
        _ => b"text too long",
    }
}

/// Returns why an edge failed.
fn cause_text(alloc: Global, cause: Cause) -> Result<Vec<u8>, AllocError>
    ensures { IfOk result (λ text. text.items ≡ defined.cause_text cause) }
{
    match cause {
        Cause::Exit(status) => exit_text(alloc, status),
        Cause::DepfileMalformed(number, offset) => malformed_text(alloc, number, offset),
        _ => Ok(Vec::from_slice(alloc, plain_text(cause))?),
    }
}

/// Returns the paths of files, each with a space after it.
fn paths_text(alloc: Global, image: &Image, files: &[u32]) -> Result<Vec<u8>, AllocError>
    ensures { IfOk result (λ text. text.items ≡ defined.paths_text image.now files.now) }
{
    let mut text = Vec::new(alloc);
    for file in files {
        text.extend_from_slice(path_of(image, *file))?;
        text.push(b' ')?;
    }
    Ok(text)
}

/// Returns `FAILED: `, perhaps in red.
fn failed_word(colours: bool) -> &'static [u8]
    ensures { result.now ≡ defined.failed_word colours }
{
    if colours {
        b"\x1b[31mFAILED: \x1b[0m"
    } else {
        b"FAILED: "
    }
}

/// Returns `FAILED: [CAUSE] OUTPUT OUTPUT `.
fn failed_line(
    alloc: Global,
    image: &Image,
    colours: bool,
    edge: u32,
    cause: Cause,
) -> Result<Vec<u8>, AllocError>
    ensures { IfOk result (λ line. line.items ≡ defined.failed_line colours image.now edge cause) }
{
    let cause = cause_text(alloc, cause)?;
    let paths = paths_text(alloc, image, outputs_of(image, edge))?;
    concatenate(
        alloc,
        &[
            failed_word(colours),
            b"[",
            cause.as_slice(),
            b"] ",
            paths.as_slice(),
            b"\n",
        ],
    )
}

/// Returns the failure of an edge, its command and its output.
fn failed_text(
    alloc: Global,
    image: &Image,
    colours: bool,
    edge: u32,
    cause: Cause,
    output: &[u8],
) -> Result<Vec<u8>, AllocError>
    ensures { IfOk result (λ text. text.items ≡ defined.failed_text colours image.now edge cause output.now) }
{
    let failure = failed_line(alloc, image, colours, edge, cause)?;
    let command = command_line(alloc, image, edge)?;
    concatenate(alloc, &[failure.as_slice(), command.as_slice(), output])
}

/// Returns the line that says which input of an edge is missing.
fn missing_line(alloc: Global, path: &[u8], name: &[u8]) -> Result<Vec<u8>, AllocError>
    ensures { IfOk result (λ line. line.items ≡ defined.missing_line path.now name.now) }
{
    concatenate(
        alloc,
        &[
            b"ninja: error: '".as_slice(),
            path,
            b"', needed by '",
            name,
            b"', missing and no known rule to make it",
            b"\n",
        ],
    )
}

/// Returns the text of an edge that failed.
pub(crate) fn failure_text(
    alloc: Global,
    image: &Image,
    colours: bool,
    edge: u32,
    cause: Cause,
    output: &[u8],
) -> Result<Vec<u8>, AllocError>
    ensures { IfOk result (λ text. text.items ≡ defined.failure_text colours image.now edge cause output.now) }
{
    match cause {
        Cause::MissingInput(file) => {
            missing_line(alloc, path_of(image, file), first_output(image, edge))
        }
        _ => failed_text(alloc, image, colours, edge, cause, output),
    }
}
