//! The words of the command line.

ghost use Rattle.std.specs.Prelude.{◌≡◌};
ghost use Rattle.plan_build.specs.Statuses as statuses;
ghost use Rattle.plan_build.specs.Statuses.{manifest_in};

use plan_build_tools::Manner;
use plan_options::{CommandLine, Flag, Setting};
use plan_progress::Style;
use plan_text::Memory;
use std::alloc::Global;
use std::rt::Env;
use std::{env, io};

/// The manifest that is read if none is named.
pub const MANIFEST: &[u8] = b"build.ninja";

/// The path of the build record, in the folder of the build.
pub const RECORD: &str = ".plan_record";

/// Returns the path of the manifest.
pub fn manifest_in(line: &CommandLine) -> &[u8]
    ensures { result.now ≡ manifest_in line.now }
{
    line.value(Setting::Manifest).unwrap_or(MANIFEST)
}

/// Returns the way in which a command line asks a tool to remove files. A dry run is always verbose.
pub fn manner_in(line: &CommandLine) -> Manner {
    let is_dry = line.is_dry_run();
    Manner {
        is_dry,
        is_verbose: is_dry || line.verbosity() == Some(Flag::Verbose),
    }
}

/// Checks whether the last option for verbosity is `--quiet`.
pub fn is_quiet(line: &CommandLine) -> bool {
    line.verbosity() == Some(Flag::Quiet)
}

/// Returns how commands are shown: by their labels, or as the last option for verbosity says.
pub fn style_in(line: &CommandLine) -> Style
    ensures { result ≡ statuses.style_in line.now }
{
    match line.verbosity() {
        Some(Flag::Verbose) => Style::Commands,
        Some(Flag::Quiet) => Style::Failures,
        _ => Style::Labels,
    }
}

/// Returns the words of the command line, the program's own name first.
///
/// # Errors
/// The reason as a text, if a word isn't UTF-8 or memory runs out.
pub fn words_in<R: Env + AllocGlobal>(rt: &R) -> Result<Vec<String>, &'static [u8]> {
    match env::args(rt) {
        Ok(words) => match words.collect(rt.alloc()) {
            Ok(words) => Ok(words),
            Err(_) => Err(b"out of memory"),
        },
        Err(error) => match error.kind() {
            io::ErrorKind::InvalidData => Err(b"an argument is not valid UTF-8"),
            _ => Err(b"out of memory"),
        },
    }
}

/// Returns the program's own name, or `ninja` if there are no words.
pub fn name_in(words: &[String]) -> &[u8] {
    match words {
        [name, ..] => name.as_bytes(),
        [] => b"ninja",
    }
}

/// Returns the words after the program's own name.
///
/// # Errors
/// `Memory` if memory runs out.
pub fn after_name(alloc: Global, words: &[String]) -> Result<Vec<&[u8]>, Memory> {
    let mut after = Vec::with_capacity(alloc, words.len())?;
    for word in words.iter().skip(1) {
        after.push(word.as_bytes())?;
    }
    Ok(after)
}
