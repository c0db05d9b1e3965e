//! Requests of the command line.

use crate::commands::{RunWords, program_command, run_words};
use clap::error::ErrorKind;
use clap::{ArgMatches, Command, Error};
use std::alloc::{AllocError, Global};
use std::rt::Env;
use std::{env, io};
/// A request of the command line.
#[derive(Drop)]
pub enum Request<'a> {
    /// A command that only reads files, and prints or writes a result.
    Files(FileRequest<'a>),
    /// The command `run`, which runs an image.
    Run(RunWords<'a>),
}

/// A request that only involves files.
#[derive(Clone, Copy)]
pub enum FileRequest<'a> {
    /// Print the commands of the manifest at this path.
    Commands(&'a str),
    /// Compile the manifest at the first path into an image file at the second path.
    Compile(&'a str, &'a str),
    /// Print the listing of the image at this path.
    Dump(&'a str),
    /// Replay the run of the image at the first path, from the trace at the second path.
    Replay(&'a str, &'a str),
    /// Compare how two runs of the image at the first path end, from the traces at the second and the third path.
    Compare(&'a str, &'a str, &'a str),
    /// Check the image at this path.
    Verify(&'a str),
}

/// The outcome of a command line that makes no request.
#[derive(Drop)]
pub enum EarlyExit {
    /// Memory ran out while the words were read.
    Memory,
    /// The text of the help or the version, which was requested.
    Help(String),
    /// The reason why the words are refused.
    Refused(String),
}

/// Converts an error of clap. clap also returns help and version as errors.
fn no_request_of(alloc: Global, error: &Error) -> EarlyExit {
    if error.kind() == ErrorKind::OutOfMemory {
        return EarlyExit::Memory;
    }
    match format!(in alloc; "{error}") {
        Ok(text) if error.use_stderr() => EarlyExit::Refused(text),
        Ok(text) => EarlyExit::Help(text),
        Err(_) => EarlyExit::Memory,
    }
}

/// Creates clap's error for words that can't be read because one isn't valid UTF-8. Returns `AllocError` for any other
/// error.
fn words_error(alloc: Global, error: &io::Error) -> Result<Error, AllocError> {
    let mut command = program_command(alloc)?;
    match error.kind() {
        io::ErrorKind::InvalidData => {
            command.error(ErrorKind::InvalidValue, "an argument is not valid UTF-8")
        }
        _ => Err(AllocError),
    }
}

/// Returns the words of the command line, beginning with the program's own name.
///
/// # Errors
///
/// `Refused` if a word isn't valid UTF-8, `Memory` if memory runs out.
pub fn words_in<R: Env + AllocGlobal>(rt: &R) -> Result<Vec<String>, EarlyExit> {
    let alloc = rt.alloc();
    match env::args(rt) {
        Ok(words) => match words.collect(alloc) {
            Ok(words) => Ok(words),
            Err(_) => Err(EarlyExit::Memory),
        },
        Err(error) => match words_error(alloc, &error) {
            Ok(error) => Err(no_request_of(alloc, &error)),
            Err(_) => Err(EarlyExit::Memory),
        },
    }
}

/// Returns the request of `replay`: replay one trace or compare two. Returns `None` if a word is missing.
fn replay_request<'a>(found: &ArgMatches<'a>) -> Option<FileRequest<'a>> {
    let (image, trace) = (found.get_str("IMG")?, found.get_str("TRACE")?);
    match found.get_str("TRACE2") {
        Some(other) => Some(FileRequest::Compare(image, trace, other)),
        None => Some(FileRequest::Replay(image, trace)),
    }
}

/// Returns the request of a command that only involves files. Returns `None` for another command, or if a word is
/// missing.
fn file_request<'a>(name: &str, found: &ArgMatches<'a>) -> Option<FileRequest<'a>> {
    match name {
        "commands" => Some(FileRequest::Commands(found.get_str("FILE")?)),
        "compile" => Some(FileRequest::Compile(found.get_str("FILE")?, found.get_str("IMG")?)),
        "dump" => Some(FileRequest::Dump(found.get_str("IMG")?)),
        "replay" => replay_request(found),
        "verify" => Some(FileRequest::Verify(found.get_str("IMG")?)),
        _ => None,
    }
}

/// Returns the request of the words that clap found. Returns `None` if a word is missing.
fn found_request<'a>(
    alloc: Global,
    matches: &ArgMatches<'a>,
) -> Result<Option<Request<'a>>, AllocError> {
    match matches.subcommand() {
        Some(("run", found)) => Ok(run_words(alloc, found)?.map(Request::Run)),
        Some((name, found)) => Ok(file_request(name, found).map(Request::Files)),
        None => Ok(None),
    }
}

/// Parses the words by a command of clap and returns their request.
fn request_by<'a>(
    alloc: Global,
    command: &mut Command<'a>,
    words: &'a [String],
) -> Result<Request<'a>, Error> {
    let matches = command.try_get_matches_from_mut(words)?;
    match found_request(alloc, &matches)? {
        Some(request) => Ok(request),
        None => Err(command.error(ErrorKind::MissingRequiredArgument, "a file is missing")?),
    }
}

/// Parses the words by clap and returns their request.
fn parse<'a>(alloc: Global, words: &'a [String]) -> Result<Request<'a>, Error> {
    let mut command = program_command(alloc)?;
    request_by(alloc, &mut command, words)
}

/// Returns the request of the words of the command line, which begin with the program's own name.
///
/// # Errors
///
/// `Help` if the words ask for help or the version, `Refused` if clap refuses them, `Memory` if memory runs out.
pub fn request_in<'a>(alloc: Global, words: &'a [String]) -> Result<Request<'a>, EarlyExit> {
    match parse(alloc, words) {
        Ok(request) => Ok(request),
        Err(error) => Err(no_request_of(alloc, &error)),
    }
}
