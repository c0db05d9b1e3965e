//! The tools that `-t` runs.

ghost use Rattle.std.specs.Prelude.{◌≡◌};

use crate::clean::{Manner, clean};
use crate::fault::ToolFault;
use crate::listing::list;
use crate::record::{clean_recorded, recompact_record, restat_record};
use crate::words::Request;
use plan_printing::{REFUSED, complain, say, status_after};
use plan_tools::closest;
use std::alloc::Global;
use std::rt::Clock;

/// A tool of ninja that this program has.
#[derive(Clone, Copy, PartialEq, Eq)]
pub enum Tool {
    /// Removes files that commands made.
    Clean,
    /// Lists the commands that targets need.
    Commands,
    /// Lists targets.
    Targets,
    /// Prints a compilation database.
    CompilationDatabase,
    /// Drops old entries of the record.
    Recompact,
    /// Records the files as they are now as the results of their commands.
    Restat,
    /// Removes outputs that the manifest no longer names.
    CleanDead,
    /// Says which commands would run, and why.
    Explain,
    /// Lists the tools.
    List,
}

/// The tools that `-t list` lists, in ninja's order. ninja doesn't have the last one.
const TOOLS: [Tool; 8] = [
    Tool::Clean,
    Tool::Commands,
    Tool::Targets,
    Tool::CompilationDatabase,
    Tool::Recompact,
    Tool::Restat,
    Tool::CleanDead,
    Tool::Explain,
];

impl Tool {
    /// Returns the name of the tool.
    pub fn name(self) -> &'static [u8] {
        match self {
            Tool::Clean => b"clean",
            Tool::Commands => b"commands",
            Tool::Targets => b"targets",
            Tool::CompilationDatabase => b"compdb",
            Tool::Recompact => b"recompact",
            Tool::Restat => b"restat",
            Tool::CleanDead => b"cleandead",
            Tool::Explain => b"explain",
            Tool::List => b"list",
        }
    }

    /// Returns the line for the tool in the list of tools.
    fn line(self) -> &'static [u8] {
        match self {
            Tool::Clean => b"      clean  clean built files\n",
            Tool::Commands => {
                b"   commands  list all commands required to rebuild given targets\n"
            }
            Tool::Targets => { b"    targets  list targets by their rule or depth in the DAG\n" }
            Tool::CompilationDatabase => {
                b"     compdb  dump JSON compilation database to stdout\n"
            }
            Tool::Recompact => b"  recompact  recompacts ninja-internal data structures\n",
            Tool::Restat => b"     restat  restats all outputs in the build log\n",
            Tool::CleanDead => {
                b"  cleandead  clean built files that are no longer produced by the manifest\n"
            }
            Tool::Explain => b"    explain  say which commands would run, and why\n",
            Tool::List => b"       list  list the tools\n",
        }
    }
}

/// Returns the tool with a name. None if there is no such tool.
pub fn tool_named(name: &[u8]) -> Option<Tool> {
    for tool in TOOLS {
        if tool.name() == name {
            return Some(tool);
        }
    }
    if name == Tool::List.name() {
        return Some(Tool::List);
    }
    None
}

/// Returns the name of the tool that is closest to an unknown name. Empty if no tool is close.
fn near_name(alloc: Global, name: &[u8]) -> &'static [u8] {
    let mut names: [&[u8]; 8] = [b""; 8];
    for at in 0..TOOLS.len() {
        names[at] = TOOLS[at].name();
    }
    match closest(alloc, &names, name) {
        Ok(Some(near)) => near,
        _ => b"",
    }
}

/// The names of the tools, as the end of a message.
const TOOL_NAMES: &[u8] =
    b"there are clean, commands, targets, compdb, recompact, restat, cleandead and explain\n";

/// Reports an unknown tool, and suggests the tool `near` unless it is empty.
fn say_unknown<'a, E: Print>(alloc: Global, errors: &E, name: &'a [u8], near: &'a [u8]) {
    if near.is_empty() {
        complain(
            alloc,
            errors,
            &[b"ninja: fatal: unknown tool '", &*name, b"'; ", TOOL_NAMES],
        );
    } else {
        complain(
            alloc,
            errors,
            &[
                b"ninja: fatal: unknown tool '",
                &*name,
                b"', did you mean '",
                &*near,
                b"'?\n",
            ],
        );
    }
}

/// Reports an unknown tool, and returns the exit status.
pub fn unknown_tool<E: Print>(alloc: Global, errors: &E, name: &[u8]) -> u8
    ensures { result ≡ 1 }
{
    say_unknown(alloc, errors, name, near_name(alloc, name));
    REFUSED
}

/// Prints the list of tools, and returns the exit status.
fn list_tools<R: Print + Clock + AllocGlobal, E: Print>(rt: &R, errors: &E) -> u8 {
    let mut lines: [&[u8]; 9] = [b"ninja subtools:\n"; 9];
    for at in 0..TOOLS.len() {
        lines[at + 1] = TOOLS[at].line();
    }
    status_after(say(rt, errors, &lines), 0)
}

/// The files of a build that a tool works on.
#[derive(Clone, Copy)]
pub struct BuildFiles<'a> {
    /// The path of the manifest.
    pub manifest: &'a [u8],
    /// The path of the record.
    pub record: &'a str,
}

/// Runs the tool of a request on the files of a build, and returns the exit status. Files are removed in this manner.
/// `-t explain` is a build, so this function lists the tools for it.
///
/// # Errors
/// The reason why the tool is refused. It isn't reported yet.
pub fn run_tool<E: Print>(
    rt: &HostRuntime,
    errors: &E,
    files: BuildFiles<'_>,
    manner: Manner,
    request: &Request<'_>,
) -> Result<u8, ToolFault> {
    let BuildFiles { manifest, record } = files;
    match request.tool {
        Tool::Explain | Tool::List => Ok(list_tools(rt, errors)),
        Tool::Clean => clean(rt, errors, manifest, manner, request),
        Tool::CleanDead => clean_recorded(rt, errors, files, manner),
        Tool::Recompact => recompact_record(rt, files),
        Tool::Restat => restat_record(rt, record, &request.names),
        Tool::Commands | Tool::CompilationDatabase | Tool::Targets => list(rt, manifest, request),
    }
}
