//! The commands of the program and their arguments, as clap needs them, and what the arguments of `run` say.

use clap::{Arg, ArgAction, ArgMatches, Command, value_parser};
use std::alloc::{AllocError, Global};

/// The version that `--version` prints after the program's name.
const VERSION: &str = "0.2.0";

const ABOUT: &str =
    "A formally verified builder for Ninja manifests: compile them into plan images, and run those";

const COMMANDS_ABOUT: &str = "Print the commands of a manifest, in order";

const COMMANDS_LONG_ABOUT: &str = "\
Print the command of each `build` statement of a manifest (build.ninja) that is not a phony: one line each, in order, with all \
variables expanded. Run nothing.

If the manifest is refused, only the reason is printed, on standard error: `plan: NUMBER NAME FILE:OFFSET`. The offset is in \
bytes and starts at 0. The exit status is 2 then.";

const FILE_HELP: &str = "Manifest to read, for example build.ninja";

const COMPILE_ABOUT: &str = "Compile a manifest into a plan image";

const COMPILE_LONG_ABOUT: &str = "\
Compile a manifest (build.ninja) into a plan image of version 2. The code of each edge in the image says which files it checks, \
when its command runs, and what the build record keeps. Run nothing, and print nothing on success.

The image file is created at the first write, and replaced if it exists. If the manifest is refused, no file is created or \
changed. The reason is printed on standard error as for `commands`, and the exit status is 2.";

const OUTPUT_HELP: &str = "File to write the plan image to";

const DUMP_ABOUT: &str = "Print a plan image as text";

const DUMP_LONG_ABOUT: &str = "\
Print the tables and the code of a plan image of either version: one line for each text, file, pool, slot, body, edge and \
instruction. It does not check whether the image can be run; `verify` does.

If the bytes are not an image, only the reason is printed, on standard error: `plan: NUMBER NAME at OFFSET`. The offset is in \
bytes and starts at 0. The exit status is 2 then.";

const VERIFY_ABOUT: &str = "Check whether a plan image is safe to run";

const VERIFY_LONG_ABOUT: &str = "\
Check the tables of a plan image of either version, and the code of each edge. It is proved that a run of an accepted image \
never goes wrong. For such an image `ok EDGES BUDGET` is printed: the number of its edges, and the most events that a run of it \
can have, not counting those for the bytes of dependencies that it reads.

Otherwise only the first check that fails is printed, on standard error: `plan: NUMBER NAME at edge E place P`. The exit status \
is 2 then.";

const REPLAY_ABOUT: &str = "Print what happened in a recorded run, or compare two runs";

const REPLAY_LONG_ABOUT: &str = "\
Replay the events of a trace on a plan image, and print the status lines and how each edge ended. Run nothing, and look at no \
other file than these two.

A status line is `[N/M] LABEL` if a command succeeded: N is the number of commands that are settled so far, and M the number \
that the targets need. It is `FAILED NAME: CAUSE`, `SKIPPED NAME: needs NAME` or `STOPPED NAME` otherwise. After these lines \
comes a line `NUMBER NAME OUTCOME` for each edge.

With a second trace print only `same` or `different`. It is `same` if both runs ended, each edge ended alike in both (a skipped \
edge may name another edge) and the slots have the same values. Both traces must have the same first line, and no line `target`.

The exit status is 0 if all that the targets need succeeded, or if both runs end alike; else it is 1. It is 2 if the image, a \
trace or one of its events is refused. The reason is printed on standard error then, for example `plan: 110 NotEnabled at event \
N`. Events are counted from 0, through the first trace and then the second.";

const TRACE_HELP: &str = "Trace to replay, as `run --trace` writes it";

const TRACE2_HELP: &str = "Second trace: compare both runs";

const IMAGE_HELP: &str = "Plan image to read";

/// Creates an argument that is a file's path, and isn't optional.
fn file_argument<'a>(alloc: Global, name: &'a str, help: &'a str) -> Arg<'a> {
    Arg::new(alloc, name)
        .required(true)
        .action(ArgAction::Set)
        .help(help)
}

/// Creates a command that reads one file.
fn file_command<'a>(
    alloc: Global,
    name: &'a str,
    about: (&'a str, &'a str),
    argument: (&'a str, &'a str),
) -> Result<Command<'a>, AllocError> {
    Command::new(alloc, name)
        .about(about.0)
        .long_about(about.1)
        .arg(file_argument(alloc, argument.0, argument.1))
}

/// Creates the command that reads a manifest and writes a plan image.
fn compile_command<'a>(alloc: Global) -> Result<Command<'a>, AllocError> {
    let about = (COMPILE_ABOUT, COMPILE_LONG_ABOUT);
    let command = file_command(alloc, "compile", about, ("FILE", FILE_HELP))?;
    command.arg(
        file_argument(alloc, "IMG", OUTPUT_HELP)
            .short('o')
            .long("output"),
    )
}

/// Creates the command that reads an image and one or two traces.
fn replay_command<'a>(alloc: Global) -> Result<Command<'a>, AllocError> {
    let about = (REPLAY_ABOUT, REPLAY_LONG_ABOUT);
    let command = file_command(alloc, "replay", about, ("IMG", IMAGE_HELP))?;
    let command = command.arg(file_argument(alloc, "TRACE", TRACE_HELP))?;
    command.arg(
        Arg::new(alloc, "TRACE2")
            .action(ArgAction::Set)
            .help(TRACE2_HELP),
    )
}

/// Creates the command that prints the commands of a manifest.
fn commands_command<'a>(alloc: Global) -> Result<Command<'a>, AllocError> {
    let about = (COMMANDS_ABOUT, COMMANDS_LONG_ABOUT);
    file_command(alloc, "commands", about, ("FILE", FILE_HELP))
}

/// Creates the command that lists an image.
fn dump_command<'a>(alloc: Global) -> Result<Command<'a>, AllocError> {
    let about = (DUMP_ABOUT, DUMP_LONG_ABOUT);
    file_command(alloc, "dump", about, ("IMG", IMAGE_HELP))
}

/// Creates the command that checks an image.
fn verify_command<'a>(alloc: Global) -> Result<Command<'a>, AllocError> {
    let about = (VERIFY_ABOUT, VERIFY_LONG_ABOUT);
    file_command(alloc, "verify", about, ("IMG", IMAGE_HELP))
}

/// Adds a subcommand to a command if both could be created.
fn with_subcommand<'a>(
    command: Result<Command<'a>, AllocError>,
    added: Result<Command<'a>, AllocError>,
) -> Result<Command<'a>, AllocError> {
    command?.subcommand(added?)
}

/// Creates the program's command with all of its subcommands and their arguments.
pub fn program_command<'a>(alloc: Global) -> Result<Command<'a>, AllocError> {
    let program = Command::new(alloc, "plan_ninja")
        .about(ABOUT)
        .version(VERSION)
        .subcommand_required(true)
        .arg_required_else_help(true);
    let program = with_subcommand(Ok(program), commands_command(alloc));
    let program = with_subcommand(program, compile_command(alloc));
    let program = with_subcommand(program, dump_command(alloc));
    let program = with_subcommand(program, run_command(alloc, IMAGE_HELP));
    let program = with_subcommand(program, replay_command(alloc));
    with_subcommand(program, verify_command(alloc))
}

/// The request of `run`.
#[derive(Drop)]
pub struct RunWords<'a> {
    /// The path of the image.
    pub image: &'a str,
    /// The greatest number of commands that run at once, 1 to 64.
    pub jobs: u8,
    /// The number of failures after which no more commands are started. 0 means no limit.
    pub keep: u32,
    /// The path of the build record.
    pub record: &'a str,
    /// The path of the file to which the trace of the run is written, if there is one.
    pub trace: Option<&'a str>,
    /// The names of the targets. If there are none, the image's default targets are built.
    pub targets: Vec<&'a str>,
}

const RUN_ABOUT: &str = "Run a plan image: build its targets";

const RUN_LONG_ABOUT: &str = "\
Check a plan image as `verify` does, and build the targets that you name, or the manifest's default targets. A command runs \
by /bin/sh if the files or the build record say that an output is out of date.

A line is printed for each edge when its command succeeded, when it failed, was skipped or was stopped, while other commands \
run: `[n/m] LABEL`, `FAILED NAME: CAUSE`, `SKIPPED NAME: needs NAME`, `STOPPED NAME`. m is the number of all commands that the \
targets need, including those that are up to date; n is the number of those that are settled so far. The output of a command \
comes before its line.

The exit status is 0 if everything was built, 1 if an edge failed, was skipped or was stopped, and 2 if the run was refused. \
The reason for a refusal is printed on standard error: `plan: NUMBER NAME` and its place. A command that failed or was \
interrupted runs again the next time.";

const JOBS_HELP: &str = "Run up to N commands at once, 1 to 64";

const KEEP_HELP: &str = "Stop after K failures; 0 means no limit";

const RECORD_HELP: &str = "Build record to use; it is created if it is missing";

const RUN_TRACE_HELP: &str =
    "Write the trace of the run to this file when the last command has ended, for `replay`";

const TARGETS_HELP: &str = "Files to build, instead of the default targets";

/// Creates the option `-j`.
fn jobs_option<'a>(alloc: Global) -> Arg<'a> {
    Arg::new(alloc, "N")
        .short('j')
        .long("jobs")
        .value_parser(value_parser!(u8).range(1..=64))
        .default_value("4")
        .help(JOBS_HELP)
}

/// Creates the option `-k`.
fn keep_option<'a>(alloc: Global) -> Arg<'a> {
    Arg::new(alloc, "K")
        .short('k')
        .long("keep-going")
        .value_parser(value_parser!(u32))
        .default_value("1")
        .help(KEEP_HELP)
}

/// Creates the option `--record`.
fn record_option<'a>(alloc: Global) -> Arg<'a> {
    Arg::new(alloc, "F")
        .long("record")
        .default_value(".plan_record")
        .help(RECORD_HELP)
}

/// Creates the option `--trace`.
fn trace_option<'a>(alloc: Global) -> Arg<'a> {
    Arg::new(alloc, "T").long("trace").help(RUN_TRACE_HELP)
}

/// Adds the options of `run` to a command.
fn with_options<'a>(alloc: Global, command: Command<'a>) -> Result<Command<'a>, AllocError> {
    let command = command.arg(jobs_option(alloc))?;
    let command = command.arg(keep_option(alloc))?;
    let command = command.arg(record_option(alloc))?;
    command.arg(trace_option(alloc))
}

/// Creates the command `run` with its arguments.
pub fn run_command<'a>(alloc: Global, image_help: &'a str) -> Result<Command<'a>, AllocError> {
    let about = (RUN_ABOUT, RUN_LONG_ABOUT);
    let command = file_command(alloc, "run", about, ("IMG", image_help))?;
    let command = with_options(alloc, command)?;
    command.arg(
        Arg::new(alloc, "TARGET")
            .num_args(0..)
            .action(ArgAction::Append)
            .help(TARGETS_HELP),
    )
}

/// Returns the request of `run`. Returns `None` if a required word is missing.
pub fn run_words<'a>(
    alloc: Global,
    found: &ArgMatches<'a>,
) -> Result<Option<RunWords<'a>>, AllocError> {
    let (Some(image), Some(jobs), Some(keep), Some(record)) = (
        found.get_str("IMG"),
        found.get_one::<u8>("N"),
        found.get_one::<u32>("K"),
        found.get_str("F"),
    ) else {
        return Ok(None);
    };
    let targets = match found.get_strs("TARGET") {
        Some(targets) => Vec::from_slice(alloc, targets)?,
        None => Vec::new(alloc),
    };
    Ok(Some(RunWords {
        image,
        jobs,
        keep,
        record,
        trace: found.get_str("T"),
        targets,
    }))
}
