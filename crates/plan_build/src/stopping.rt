//! Arguments that end the program before it does anything else.

use plan_options::{
    Argument, CommandLine, Flag, Misuse, Setting, Stop, flags_named, long_name_in, name_of, stop_of,
};
use plan_printing::{REFUSED, complain, concatenate, digits_in, say, status_after};
use plan_text::Memory;
use std::alloc::{AllocError, Global};
use std::rt::Clock;

/// The ninja version that `--version` prints. From 1.10 on, other programs would use dyndep, which isn't supported.
const VERSION: &[u8] = b"1.9.0\n";

const ABOUT: &[u8] = b"plan_build 0.2.0: a formally verified builder with ninja's command line.
It is proved: if a build ends with status 0, each wanted edge was up to date by the out-of-date rule, or its own command
was asked for once and the reply was exit status 0. GUARANTEE.md (share/doc/plan_ninja, or docs/) has all words and limits.
";

const USAGE_TO_JOBS: &[u8] = b"usage: ninja [options] [targets...]

if targets are unspecified, builds the 'default' target (see manual).

options:
  --version      print the ninja version whose features are supported (\"1.9.0\")
  --about        print what this program is: plan_build of plan_ninja
  -v, --verbose  show all command lines while building
  --quiet        show only commands that fail, with their output

  -C DIR   change to DIR before doing anything else
  -f FILE  specify input build file [default=build.ninja]

  -j N     run N jobs in parallel (0 means 1024, the most) [default=";

const USAGE_AFTER_JOBS: &[u8] = b" on this system]
  -k N     keep going until N jobs fail (0 means infinity) [default=1]
  -n       dry run (don't run commands but act like they succeeded)
  -d explain  explain what caused a command to execute

  -t TOOL  run a subtool (use '-t list' to list subtools)
    terminates toplevel options; further flags are passed to the tool

without effect, with a warning:
  -l N     do not start new jobs if the load average is greater than N
  -d MODE  enable other debugging (use '-d list' to list modes)
  -w FLAG  adjust warnings (use '-w list' to list warnings)
";

const MODES: &[u8] = b"debugging modes:
  stats        print operation counts/timing info
  explain      explain what caused a command to execute
  keepdepfile  don't delete depfiles after they're read by ninja
  keeprsp      don't delete @response files on success
multiple modes can be enabled via -d FOO -d BAR
";

const WARNINGS: &[u8] = b"warning flags:
  phonycycle={err,warn}  phony build statement references itself
";

/// Prints a line on what is wrong, and then the options, to standard error.
fn print_usage<E: Print>(alloc: Global, errors: &E, line: &[u8], jobs: u16) {
    let digits: Result<String, AllocError> = jobs.to_string(alloc);
    let default = digits_in(&digits);
    complain(
        alloc,
        errors,
        &[&*line, USAGE_TO_JOBS, &*default, USAGE_AFTER_JOBS],
    );
}

/// Appends ` '--NAME'` for each long option whose name begins with `front`.
fn append_possible(alloc: Global, text: &mut Vec<u8>, front: &[u8]) -> Result<(), Memory> {
    for flag in flags_named(alloc, front)? {
        text.extend_from_slice(b" '--")?;
        text.extend_from_slice(name_of(flag))?;
        text.push(b'\'')?;
    }
    Ok(())
}

/// Returns the reason why a word that begins several long options is refused, with these options.
fn ambiguous_text(alloc: Global, word: &[u8]) -> Result<Vec<u8>, Memory> {
    let mut text = concatenate(
        alloc,
        &[b"option '", word, b"' is ambiguous; possibilities:"],
    )?;
    append_possible(alloc, &mut text, long_name_in(word))?;
    Ok(text)
}

/// Returns the reason why a word is refused, in the words that C's getopt_long prints after the program's name.
fn misuse_text(alloc: Global, misuse: &Misuse) -> Result<Vec<u8>, Memory> {
    let text = match misuse {
        Misuse::Ambiguous(word) => return ambiguous_text(alloc, word.as_slice()),
        Misuse::UnknownLetter(letter) => {
            concatenate(alloc, &[b"invalid option -- '", &[*letter], b"'"])
        }
        Misuse::UnknownName(word) => {
            concatenate(alloc, &[b"unrecognized option '", word.as_slice(), b"'"])
        }
        Misuse::TakesNoValue(flag) => {
            let name = name_of(*flag);
            concatenate(
                alloc,
                &[b"option '--", name, b"' doesn't allow an argument"],
            )
        }
        Misuse::NeedsValue(setting) => {
            let letter = [setting.letter()];
            concatenate(alloc, &[b"option requires an argument -- '", &letter, b"'"])
        }
    };
    Ok(text?)
}

/// Reports what is wrong with an argument, if anything is, and prints the options.
fn refuse_misuse<E: Print>(
    alloc: Global,
    errors: &E,
    program: &[u8],
    jobs: u16,
    argument: &Argument,
) {
    let mut line = Vec::new(alloc);
    if let Argument::Misuse(misuse) = argument {
        if let Ok(text) = misuse_text(alloc, misuse) {
            let _ = line.extend_from_slice(program);
            let _ = line.extend_from_slice(b": ");
            let _ = line.extend_from_slice(&text);
            let _ = line.push(b'\n');
        }
    }
    print_usage(alloc, errors, &line, jobs);
}

/// Returns the value of an option. Empty if it takes none.
fn value_in(argument: &Argument) -> &[u8] {
    match argument {
        Argument::Setting(_, value) => value.as_slice(),
        _ => b"",
    }
}

/// Reports why the value of an option is refused.
fn refuse_value<E: Print>(alloc: Global, errors: &E, stop: Stop, value: &[u8]) {
    match stop {
        Stop::InvalidJobs => complain(alloc, errors, &[b"ninja: fatal: invalid -j parameter\n"]),
        Stop::InvalidFailures => complain(
            alloc,
            errors,
            &[b"ninja: fatal: -k parameter not numeric; did you mean -k 0?\n"],
        ),
        Stop::InvalidLoad => complain(
            alloc,
            errors,
            &[b"ninja: fatal: -l parameter not numeric: did you mean -l 0.0?\n"],
        ),
        Stop::UnknownMode => {
            complain(
                alloc,
                errors,
                &[b"ninja: error: unknown debug setting '", &*value, b"'\n"],
            )
        }
        Stop::UnknownWarning => {
            complain(
                alloc,
                errors,
                &[b"ninja: error: unknown warning flag '", &*value, b"'\n"],
            )
        }
        _ => {}
    }
}

/// Prints the answer to an argument that ends the program, or reports why it is refused. Returns the exit status.
pub fn stop_at<R: Print + Clock + AllocGlobal, E: Print>(
    rt: &R,
    errors: &E,
    program: &[u8],
    jobs: u16,
    argument: &Argument,
) -> u8 {
    let alloc = rt.alloc();
    match stop_of(argument) {
        Some(Stop::Version) => status_after(say(rt, errors, &[VERSION]), 0),
        Some(Stop::About) => status_after(say(rt, errors, &[ABOUT]), 0),
        Some(Stop::ModeList) => status_after(say(rt, errors, &[MODES]), REFUSED),
        Some(Stop::WarningList) => status_after(say(rt, errors, &[WARNINGS]), REFUSED),
        Some(Stop::Help) | Some(Stop::Misuse) | None => {
            refuse_misuse(alloc, errors, program, jobs, argument);
            REFUSED
        }
        Some(stop) => {
            refuse_value(alloc, errors, stop, value_in(argument));
            REFUSED
        }
    }
}

/// Checks whether a debugging mode is one that this program has.
fn has_mode(mode: &[u8]) -> bool {
    (mode == b"explain".as_slice()) | (mode == b"keepdepfile".as_slice())
}

/// Checks whether a warning is treated as this program always does: two build statements for one output are an error.
fn has_warning(warning: &[u8]) -> bool {
    warning == b"dupbuild=err".as_slice()
}

/// Returns the last value of an option, if it has no effect.
fn idle_value(line: &CommandLine, setting: Setting) -> Option<&[u8]> {
    match line.value(setting) {
        Some(value) => {
            if has_mode(value) | has_warning(value) {
                return None;
            }
            Some(value)
        }
        None => None,
    }
}

/// Reports on standard error that `-j` allows more commands at once than can run, if it does.
fn warn_of_jobs<E: Print>(alloc: Global, errors: &E, line: &CommandLine) {
    let Some(value) = line.value(Setting::Jobs) else {
        return;
    };
    if line.exceeds_jobs() {
        let begin = b"ninja: warning: -j ".as_slice();
        complain(
            alloc,
            errors,
            &[begin, value, b": no more than 1024 commands run at once\n"],
        );
    }
}

/// Reports on standard error which options have no effect, or less than they say.
pub fn warn<E: Print>(alloc: Global, errors: &E, line: &CommandLine) {
    warn_of_jobs(alloc, errors, line);
    if let Some(mode) = idle_value(line, Setting::Mode) {
        complain(
            alloc,
            errors,
            &[b"ninja: warning: -d ", &*mode, b" has no effect\n"],
        );
    }
    if let Some(load) = line.value(Setting::Load) {
        complain(
            alloc,
            errors,
            &[b"ninja: warning: -l ", &*load, b" has no effect\n"],
        );
    }
    if let Some(warning) = idle_value(line, Setting::Warning) {
        complain(
            alloc,
            errors,
            &[b"ninja: warning: -w ", &*warning, b" has no effect\n"],
        );
    }
}
