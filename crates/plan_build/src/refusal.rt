//! Error messages for a build that is refused.

ghost use Rattle.std.specs.Prelude.{◌≡◌};

use crate::including::place_of_include;
use crate::pointing::{Message, Place, error_text, place_in, text_after_word};
use crate::sentences::{advice_for, sentence_of};
use plan_build_tools::{
    LargeStatement, StatementPlace, ToolFault, largest_statement, second_producer,
};
use plan_printing::{
    LOST_OUTPUT, NO_ROOM, PlanFault, REFUSED, complain, complain_of, concatenate, file_fault,
    lost_output, no_memory, reason_of,
};
use plan_text::Items;
use plan_world::OpenFault;
use std::alloc::{AllocError, Global};
use std::io::ErrorKind;
use std::rt::Files;

/// The first word of a fault's line.
const PLAN: &[u8] = b"plan: ";

/// The numbers of faults that `refuse` reports in their own way.
const SOURCE_MISSING: u8 = 20;

const UNKNOWN_DEFAULT: u8 = 52;

const NO_MEMORY: u8 = 131;

const FILE_FAULT: u8 = 133;

const TWO_PRODUCERS: u8 = 50;

const CYCLE: u8 = 51;

const LIMIT: u8 = 100;

/// The number of paths of a build statement above which it is the reason why an image has too many parts.
const MANY_PATHS: usize = 10_000;

/// The end of the sentence on such a build statement.
const LIMIT_OF_PATHS: &[u8] =
    b" paths; the limit is 65,536 steps for each statement, two or more for each path";

/// The number of the fault that no edge makes a target.
pub const UNKNOWN_TARGET: u8 = 132;

/// The numbers of the fault that a source is missing: one that the targets need, and one that the manifest needs.
const TARGET_SOURCE: u8 = 135;

const MAKER_SOURCE: u8 = 136;

/// Returns the number and the name of a fault, as they end the first line of a message: ` [NUMBER NAME]`.
fn code_of(alloc: Global, number: u8) -> Result<Vec<u8>, AllocError> {
    let fault = PlanFault {
        number,
        rest: Items::empty(alloc),
    };
    let line = fault.line(alloc)?;
    let end = line.len().saturating_sub(1);
    let code = line.get(PLAN.len()..end).unwrap_or(&[]);
    concatenate(alloc, &[b" [", code, b"]\n"])
}

/// Returns the message for a fault: the first line `head` with the fault's number and name, `lines`, and advice if
/// there is any.
fn text_of(alloc: Global, head: &[u8], lines: &[u8], number: u8) -> Result<Vec<u8>, AllocError> {
    let code = code_of(alloc, number)?;
    let mut text = Vec::from_slice(alloc, head)?;
    text.extend_from_slice(&code)?;
    text.extend_from_slice(lines)?;
    text.extend_from_slice(advice_for(number))?;
    Ok(text)
}

/// Writes the message for a fault to standard error in one piece.
fn complain_at<E: Print>(alloc: Global, errors: &E, head: &[u8], lines: &[u8], number: u8) {
    let _ = match text_of(alloc, head, lines, number) {
        Ok(text) => errors.write_all(&text),
        Err(_) => errors.write_all(NO_ROOM),
    };
}

/// Writes the message for a fault to standard error in one piece. These texts are its first line.
fn complain_with<E: Print>(alloc: Global, errors: &E, head: &[&[u8]], number: u8) {
    match concatenate(alloc, head) {
        Ok(head) => complain_at(alloc, errors, &head, &[], number),
        Err(_) => {
            let _ = errors.write_all(NO_ROOM);
        }
    }
}

/// Reports that a manifest can't be loaded, in ninja's words, and returns the exit status.
pub fn refuse_loading<E: Print>(alloc: Global, errors: &E, path: &[u8], kind: ErrorKind) -> u8
    ensures { result ≡ 1 }
{
    let reason = reason_of(kind);
    complain_of(
        alloc,
        errors,
        b"ninja: error: loading '",
        path,
        b"': ",
        reason,
    );
    REFUSED
}

/// Reports that a file that a manifest includes is missing, without the statement that includes it.
fn refuse_include_simply<E: Print>(alloc: Global, errors: &E, path: &[u8]) {
    let head: &[&[u8]] = &[
        b"ninja: error: loading '",
        &*path,
        b"': No such file or directory",
    ];
    complain_with(alloc, errors, head, SOURCE_MISSING);
}

/// Returns the message that a file which a manifest includes is missing, with the statement that includes it. None if
/// the statement isn't found.
///
/// # Errors
/// If memory runs out, or a file can't be read again.
fn include_text<R: Files + Eprint + AllocGlobal>(
    rt: &R,
    manifest: &[u8],
    path: &[u8],
) -> Result<Option<Message>, AllocError> {
    let Some(found) = place_of_include(rt, manifest, path)? else {
        return Ok(None);
    };
    let mut sentence = Vec::from_slice(rt.alloc(), b"loading '")?;
    sentence.extend_from_slice(path)?;
    sentence.extend_from_slice(b"': No such file or directory")?;
    let place = Place {
        file: &found.file,
        offset: found.offset,
    };
    Ok(Some(text_after_word(rt, place, path, &sentence)?))
}

/// Reports that a file that a manifest includes is missing.
fn refuse_include<R: Files + Eprint + AllocGlobal, E: Print>(
    rt: &R,
    errors: &E,
    manifest: &[u8],
    path: &[u8],
) {
    match include_text(rt, manifest, path) {
        Ok(Some(Message { head, lines })) => {
            complain_at(rt.alloc(), errors, &head, &lines, SOURCE_MISSING);
        }
        _ => refuse_include_simply(rt.alloc(), errors, path),
    }
}

/// Returns the message that two build statements make an output, with the second of them. None if it isn't found.
///
/// # Errors
/// If memory runs out, or a file can't be read again.
fn two_producers_text<R: Files + Eprint + AllocGlobal>(
    rt: &R,
    manifest: &[u8],
    output: &[u8],
) -> Result<Option<Message>, AllocError> {
    let Some(found) = second_producer(rt, manifest, output) else {
        return Ok(None);
    };
    let mut sentence = Vec::from_slice(rt.alloc(), sentence_of(TWO_PRODUCERS))?;
    sentence.push(b' ')?;
    sentence.extend_from_slice(output)?;
    Ok(Some(text_after_word(rt, place_of(&found), output, &sentence)?))
}

/// Returns the place of a statement.
fn place_of(statement: &StatementPlace) -> Place<'_> {
    Place {
        file: statement.file.as_slice(),
        offset: statement.offset,
    }
}

/// Reports that two build statements make an output. `rest` is a blank and the output.
fn refuse_second_producer<R: Files + Eprint + AllocGlobal, E: Print>(
    rt: &R,
    errors: &E,
    manifest: &[u8],
    name: &[u8],
    rest: &[u8],
) {
    let alloc = rt.alloc();
    match two_producers_text(rt, manifest, name) {
        Ok(Some(Message { head, lines })) => {
            complain_at(alloc, errors, &head, &lines, TWO_PRODUCERS);
        }
        _ => refuse_simply(
            alloc,
            errors,
            sentence_of(TWO_PRODUCERS),
            rest,
            TWO_PRODUCERS,
        ),
    }
}

/// Returns the message that a build statement has too many paths for an image, with the statement.
///
/// # Errors
/// If memory runs out, or a file can't be read again.
fn limit_text<R: Files + Eprint + AllocGlobal>(
    rt: &R,
    large: &LargeStatement,
) -> Result<Message, AllocError> {
    let digits = u64::try_from(large.paths)
        .unwrap_or(u64::MAX)
        .to_string(rt.alloc())?;
    let output = large.output.as_slice();
    let mut sentence = Vec::from_slice(rt.alloc(), b"the build statement of ")?;
    sentence.extend_from_slice(output)?;
    sentence.extend_from_slice(b" has ")?;
    sentence.extend_from_slice(digits.as_bytes())?;
    sentence.extend_from_slice(LIMIT_OF_PATHS)?;
    text_after_word(rt, place_of(&large.place), output, &sentence)
}

/// Reports that a manifest has too many parts for an image. Names the build statement that has too many, if one has.
fn refuse_limit<R: Files + Eprint + AllocGlobal, E: Print>(rt: &R, errors: &E, manifest: &[u8]) {
    let alloc = rt.alloc();
    let text = match largest_statement(rt, manifest) {
        Some(large) if large.paths > MANY_PATHS => limit_text(rt, &large),
        _ => Err(AllocError),
    };
    match text {
        Ok(Message { head, lines }) => complain_at(alloc, errors, &head, &lines, LIMIT),
        Err(_) => refuse_simply(alloc, errors, sentence_of(LIMIT), &[], LIMIT),
    }
}

/// Reports that no edge makes a target, in ninja's words.
fn refuse_target<E: Print>(alloc: Global, errors: &E, name: &[u8]) {
    if name.is_empty() {
        complain(alloc, errors, &[b"ninja: error: empty path\n"]);
    } else {
        complain(
            alloc,
            errors,
            &[b"ninja: error: unknown target '", &*name, b"'\n"],
        );
    }
}

/// Reports that a source is missing, in ninja's words. `sentence` has the paths of the source and of an output.
fn refuse_source<E: Print>(alloc: Global, errors: &E, sentence: &[u8]) {
    complain(alloc, errors, &[b"ninja: error: ", &*sentence, b"\n"]);
}

/// Reports that a source is missing that the edge needs which makes the manifest, in ninja's words.
fn refuse_source_of_manifest<E: Print>(
    alloc: Global,
    errors: &E,
    manifest: &[u8],
    sentence: &[u8],
) {
    complain_of(
        alloc,
        errors,
        b"ninja: error: rebuilding '",
        manifest,
        b"': ",
        sentence,
    );
}

/// Reports that no edge makes a default target, in ninja's words.
fn refuse_default<E: Print>(alloc: Global, errors: &E, name: &[u8]) {
    let head: &[&[u8]] = &[b"ninja: error: unknown target '", &*name, b"'"];
    complain_with(alloc, errors, head, UNKNOWN_DEFAULT);
}

/// Reports that a file can't be read or written. The path `-` is standard output.
fn refuse_file<E: Print>(alloc: Global, errors: &E, path: &[u8]) {
    if path == b"-".as_slice() {
        complain(alloc, errors, &[LOST_OUTPUT]);
    } else {
        let head: &[&[u8]] = &[b"ninja: error: can't read or write ", &*path];
        complain_with(alloc, errors, head, FILE_FAULT);
    }
}

/// Reports why a build is refused, in ninja's words if it has them, and returns the exit status. A fault of a manifest
/// is shown with its line.
pub fn refuse<R: Files + Eprint + AllocGlobal, E: Print>(
    rt: &R,
    errors: &E,
    manifest: &[u8],
    fault: &PlanFault,
) -> u8
    ensures { result ≡ 1 }
{
    let alloc = rt.alloc();
    let rest = fault.rest.as_slice();
    let name = if rest.is_empty() { rest } else { &rest[1..] };
    match (fault.number, place_in(name)) {
        (UNKNOWN_TARGET, _) => refuse_target(alloc, errors, name),
        (UNKNOWN_DEFAULT, _) => refuse_default(alloc, errors, name),
        (TARGET_SOURCE, _) => refuse_source(alloc, errors, name),
        (MAKER_SOURCE, _) => refuse_source_of_manifest(alloc, errors, manifest, name),
        (SOURCE_MISSING, Some(place)) if place.file == manifest => {
            return refuse_loading(alloc, errors, manifest, ErrorKind::NotFound);
        }
        (SOURCE_MISSING, Some(place)) => refuse_include(rt, errors, manifest, place.file),
        (TWO_PRODUCERS, _) => refuse_second_producer(rt, errors, manifest, name, rest),
        (CYCLE, _) => refuse_simply(alloc, errors, sentence_of(CYCLE), rest, CYCLE),
        (LIMIT, _) => refuse_limit(rt, errors, manifest),
        (FILE_FAULT, _) => refuse_file(alloc, errors, name),
        (NO_MEMORY, _) => complain_at(
            alloc,
            errors,
            b"ninja: fatal: out of memory",
            &[],
            NO_MEMORY,
        ),
        (number, Some(place)) => point_at(rt, errors, place, number, rest),
        (number, None) => refuse_simply(alloc, errors, sentence_of(number), rest, number),
    }
    REFUSED
}

/// Reports why a tool is refused, and returns the exit status.
pub fn refuse_tool<R: Files + Eprint + AllocGlobal, E: Print>(
    rt: &R,
    errors: &E,
    manifest: &[u8],
    fault: &ToolFault,
) -> u8
    ensures { result ≡ 1 }
{
    let alloc = rt.alloc();
    match fault {
        ToolFault::Memory => refuse(rt, errors, manifest, &no_memory(alloc)),
        ToolFault::LostOutput => refuse(rt, errors, manifest, &lost_output(alloc)),
        ToolFault::Plan(fault) => refuse(rt, errors, manifest, fault),
        ToolFault::Said(text) => {
            complain(alloc, errors, &[b"ninja: error: ", text.as_slice(), b"\n"]);
            REFUSED
        }
    }
}

/// Reports that a manifest has another `builddir` than before it was remade, and returns the exit status.
pub fn refuse_moved<E: Print>(alloc: Global, errors: &E, manifest: &[u8]) -> u8
    ensures { result ≡ 1 }
{
    complain(
        alloc,
        errors,
        &[
            b"ninja: error: '",
            manifest,
            b"' has another builddir than before, with another build record; build again\n",
        ],
    );
    REFUSED
}

/// Reports that the record at a path can't be used, and returns the exit status.
pub fn refuse_record<R: Files + Eprint + AllocGlobal, E: Print>(
    rt: &R,
    errors: &E,
    manifest: &[u8],
    record: &str,
    fault: OpenFault,
) -> u8
    ensures { result ≡ 1 }
{
    let fault = match fault {
        OpenFault::Memory => no_memory(rt.alloc()),
        OpenFault::Device => file_fault(rt.alloc(), record.as_bytes()),
    };
    refuse(rt, errors, manifest, &fault)
}

/// Reports a fault at a place, with the line of the place. If the file can't be read again, the line is left out.
fn point_at<R: Files + Eprint + AllocGlobal, E: Print>(
    rt: &R,
    errors: &E,
    place: Place<'_>,
    number: u8,
    rest: &[u8],
) {
    match error_text(rt, place, number) {
        Ok(Message { head, lines }) => complain_at(rt.alloc(), errors, &head, &lines, number),
        Err(_) => refuse_simply(rt.alloc(), errors, sentence_of(number), rest, number),
    }
}

/// Reports a fault without the line of its place.
fn refuse_simply<'a, E: Print>(
    alloc: Global,
    errors: &E,
    sentence: &'a [u8],
    rest: &'a [u8],
    number: u8,
) {
    let head: &[&[u8]] = &[b"ninja: error: ", &*sentence, &*rest];
    complain_with(alloc, errors, head, number);
}
