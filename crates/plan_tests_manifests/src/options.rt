//! Tests each public function on command lines that were also given to ninja 1.11.

use crate::outcome::value_of;
use plan_options::*;
use std::alloc::Global;
use std::test::Fail;

/// Checks whether two lists have the same texts in the same order.
fn are_texts(found: &[&[u8]], wanted: &[&[u8]]) -> bool {
    if found.len() != wanted.len() {
        return false;
    }
    for at in 0..found.len() {
        if found[at] != wanted[at] {
            return false;
        }
    }
    true
}

#[test]
fn line_with_options(rt: HostRuntime) -> Result<(), Fail> {
    let words: [&[u8]; 8] = [b"a", b"-vj3", b"-C", b"out", b"--qui", b"-k", b"-1", b"b"];
    let line = value_of(CommandLine::read(rt.alloc(), &words))?;
    assert_eq!(rt; line.arguments().len(), 7);
    assert!(rt; line.stop().is_none());
    assert!(rt; line.value(Setting::Folder) == Some(b"out".as_slice()));
    assert!(rt; line.value(Setting::Manifest).is_none());
    assert!(rt; line.verbosity() == Some(Flag::Quiet));
    assert_eq!(rt; line.jobs(), Some(3));
    assert!(rt; !line.exceeds_jobs());
    assert_eq!(rt; line.failures(), 0);
    assert!(rt; are_texts(&value_of(line.targets(rt.alloc()))?, &[b"a", b"b"]));
    Ok(())
}

/// Returns the number of commands at once that words allow, and whether they allow more than can run.
fn jobs_of(alloc: Global, words: &[&[u8]]) -> (Option<u16>, bool) {
    match CommandLine::read(alloc, words) {
        Ok(line) => (line.jobs(), line.exceeds_jobs()),
        Err(_) => (None, true),
    }
}

#[test]
fn jobs_are_at_most_1024(rt: HostRuntime) {
    assert!(rt; jobs_of(rt.alloc(), &[b"-j65"]) == (Some(65), false));
    assert!(rt; jobs_of(rt.alloc(), &[b"-j1024"]) == (Some(1024), false));
    assert!(rt; jobs_of(rt.alloc(), &[b"-j1025"]) == (Some(1024), true));
    assert!(rt; jobs_of(rt.alloc(), &[b"-j0"]) == (Some(1024), true));
    assert!(rt; jobs_of(rt.alloc(), &[b"-j0", b"-j7"]) == (Some(7), false));
    assert!(rt; jobs_of(rt.alloc(), &[b"a"]) == (None, false));
}

#[test]
fn line_with_a_tool(rt: HostRuntime) -> Result<(), Fail> {
    let words: [&[u8]; 5] = [b"-f", b"x.ninja", b"-tclean", b"-g", b"--version"];
    let line = value_of(CommandLine::read(rt.alloc(), &words))?;
    assert!(rt; line.stop().is_none());
    assert!(rt; line.value(Setting::Tool) == Some(b"clean".as_slice()));
    assert!(rt;
        are_texts(
            &value_of(line.tool_words(rt.alloc()))?,
            &[b"-g", b"--version"]
        )
    );
    assert!(rt; value_of(line.targets(rt.alloc()))?.is_empty());
    Ok(())
}

/// Returns the build that words ask for, or `None` if they ask for something else or memory runs out.
fn build_of(alloc: Global, words: &[&[u8]]) -> Option<Build> {
    let line = CommandLine::read(alloc, words).ok()?;
    match line.command() {
        Command::Build(build) => Some(build),
        _ => None,
    }
}

#[test]
fn builds_by_mode(rt: HostRuntime) {
    let alloc = rt.alloc();
    let real = Build::Targets(Mode::Real, Reasons::Hidden);
    assert!(rt; build_of(alloc, &[b"a", b"-k3"]) == Some(real));
    let dry = Build::Targets(Mode::Dry, Reasons::Hidden);
    assert!(rt; build_of(alloc, &[b"a", b"-vn"]) == Some(dry));
    let explained = Build::Targets(Mode::Real, Reasons::Shown);
    assert!(rt; build_of(alloc, &[b"-dexplain", b"a"]) == Some(explained));
    assert!(rt; build_of(alloc, &[b"-texplain", b"a"]) == Some(Build::Explain));
    assert!(rt; build_of(alloc, &[b"-n", b"-tclean"]).is_none());
    assert!(rt; build_of(alloc, &[b"a", b"--version"]).is_none());
}

/// Checks whether words ask for a tool.
fn has_tool(alloc: Global, words: &[&[u8]], tool: &[u8]) -> bool {
    match CommandLine::read(alloc, words) {
        Ok(line) => match line.command() {
            Command::Tool(name) => name == tool,
            _ => false,
        },
        Err(_) => false,
    }
}

#[test]
fn tools_by_name(rt: HostRuntime) {
    assert!(rt; has_tool(rt.alloc(), &[b"-n", b"-tclean", b"x"], b"clean"));
    assert!(rt; has_tool(rt.alloc(), &[b"-tclean", b"--version"], b"clean"));
    assert!(rt; !has_tool(rt.alloc(), &[b"--version", b"-tclean"], b"clean"));
}

#[test]
fn lines_that_end(rt: HostRuntime) -> Result<(), Fail> {
    for (word, stop) in [
        (b"--vers".as_slice(), Stop::Version),
        (b"--help".as_slice(), Stop::Help),
        (b"-vx".as_slice(), Stop::Misuse),
        (b"--ver".as_slice(), Stop::Misuse),
        (b"-j-1".as_slice(), Stop::InvalidJobs),
        (b"-kx".as_slice(), Stop::InvalidFailures),
        (b"-lx".as_slice(), Stop::InvalidLoad),
        (b"-dlist".as_slice(), Stop::ModeList),
        (b"-dnosuch".as_slice(), Stop::UnknownMode),
        (b"-wlist".as_slice(), Stop::WarningList),
        (b"-wnosuch".as_slice(), Stop::UnknownWarning),
    ] {
        let line = value_of(CommandLine::read(rt.alloc(), &[b"a", word]))?;
        let found = match line.stop() {
            Some(argument) => stop_of(argument),
            None => None,
        };
        assert!(rt; found == Some(stop));
    }
    Ok(())
}

#[test]
fn names_of_flags(rt: HostRuntime) -> Result<(), Fail> {
    let flags = value_of(flags_named(rt.alloc(), b"ve"))?;
    assert!(rt; flags.as_slice() == [Flag::Version, Flag::Verbose].as_slice());
    assert!(rt; name_of(Flag::Quiet) == b"quiet".as_slice());
    assert!(rt; long_name_in(b"--ver=1") == b"ver".as_slice());
    assert_eq!(rt; Setting::Tool.letter(), b't');
    Ok(())
}

#[test]
fn numbers(rt: HostRuntime) {
    for (text, wanted) in [
        (b"8".as_slice(), Some(Integer::AtLeastZero(8))),
        (b" +8".as_slice(), Some(Integer::AtLeastZero(8))),
        (b"".as_slice(), Some(Integer::AtLeastZero(0))),
        (b"-8".as_slice(), Some(Integer::Negative)),
        (
            b"99999999999999999999".as_slice(),
            Some(Integer::AtLeastZero(64)),
        ),
        (b"8x".as_slice(), None),
    ] {
        assert!(rt; integer_in(text, 64) == wanted);
    }
}

#[test]
fn words_of_tools(rt: HostRuntime) -> Result<(), Fail> {
    let words: [&[u8]; 6] = [b"-gr", b"a", b"-", b"-x", b"--", b"-g"];
    assert_eq!(rt;
        value_of(option_letters(rt.alloc(), &words))?.as_slice(),
        b"grx".as_slice()
    );
    assert!(rt;
        are_texts(
            &value_of(operands(rt.alloc(), &words))?,
            &[b"a", b"-", b"-g"]
        )
    );
    assert!(rt; value_of(CommandLine::read(rt.alloc(), &[b"-vn"]))?.is_dry_run());
    assert!(rt; !value_of(CommandLine::read(rt.alloc(), &[b"-t", b"clean", b"-n"]))?.is_dry_run());
    Ok(())
}

#[test]
fn explained(rt: HostRuntime) -> Result<(), Fail> {
    let words: [&[u8]; 4] = [b"-dexplain", b"a", b"-d", b"stats"];
    assert!(rt; value_of(CommandLine::read(rt.alloc(), &words))?.is_explained());
    assert!(rt; !value_of(CommandLine::read(rt.alloc(), &[b"-d", b"stats"]))?.is_explained());
    assert!(rt; !value_of(CommandLine::read(rt.alloc(), &[b"-w", b"explain"]))?.is_explained());
    Ok(())
}

#[test]
fn depfiles_kept(rt: HostRuntime) -> Result<(), Fail> {
    let words: [&[u8]; 4] = [b"-dkeepdepfile", b"a", b"-d", b"explain"];
    assert!(rt; value_of(CommandLine::read(rt.alloc(), &words))?.keeps_depfiles());
    assert!(rt; value_of(CommandLine::read(rt.alloc(), &words))?.is_explained());
    assert!(rt; !value_of(CommandLine::read(rt.alloc(), &[b"-d", b"explain"]))?.keeps_depfiles());
    assert!(rt;
        !value_of(CommandLine::read(rt.alloc(), &[b"-w", b"keepdepfile"]))?.keeps_depfiles()
    );
    Ok(())
}
