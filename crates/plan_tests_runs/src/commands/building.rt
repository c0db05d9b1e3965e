//! Builds of manifests in memory. In most worlds here, the edge that builds the manifest is out of date `rounds` times.

use crate::commands::fakes::{
    Failing, Generator, Listening, ReadBy, Reads, Settled, Shared, Touched, Versions,
};
use plan_commands::{Done, Listed, Order, Printer, do_build, do_dry_build};
use plan_lanes::World;
use plan_machine::Options;
use plan_printing::PlanFault;
use plan_status::StatusLines;
use plan_text::{Counted, Sink};
use std::alloc::{AllocError, Global};
use std::mem::forget;
use std::process::Abort;
use std::sync::Wait;
use std::sync::atomic::{AtomicBool, Ordering};
use std::test::Fail;
use std::thread::{Parker, Threads};

/// The output of a build, and how it ended or the line of its fault.
type Told = (Vec<u8>, Result<Done, Vec<u8>>);

/// A manifest that no edge builds.
const PLAIN: &[u8] = b"rule cc\n  command = cc $in -o $out\nbuild out: cc in\n";

/// A manifest whose edge has `deps`.
const WITH_DEPS: &[u8] =
    b"rule cc\n  command = cc $in -o $out\n  depfile = $out.d\n  deps = gcc\nbuild out: cc in\n";

/// A manifest whose edge has a second output.
const WITH_SECOND: &[u8] = b"rule cc\n  command = cc in -o out\nbuild out second: cc in\n";

/// A manifest whose edge has an implicit output.
const WITH_IMPLICIT: &[u8] = b"rule cc\n  command = cc in -o out\nbuild out | second: cc in\n";

/// A manifest whose edge has a second output, and is a generator.
const SECOND_BY_GENERATOR: &[u8] =
    b"rule cc\n  command = cc in -o out\n  generator = 1\nbuild out second: cc in\n";

/// A manifest that an edge builds.
const MADE: &[u8] =
    b"rule cc\n  command = cc $in -o $out\nbuild out: cc in\nrule make\n  command = make $out\n  generator = 1\nbuild build.ninja: make in\n";

/// The manifest with another target, built by another command.
const REMADE: &[u8] =
    b"rule cc\n  command = cc $in -o $out\nbuild other: cc in\nrule make\n  command = again $out\n  generator = 1\nbuild build.ninja: make in\n";

/// A manifest that an edge builds, and whose default target `done` is up to date.
const IDLE: &[u8] =
    b"rule make\n  command = make $out\n  generator = 1\nbuild build.ninja: make in\nbuild done: make in\ndefault done\n";

/// A manifest with another command than `cc in -o out`.
const OTHER_COMMAND: &[u8] = b"rule cc\n  command = cc -g $in -o $out\nbuild out: cc in\n";

/// A manifest that an edge makes by another command, and that isn't needed by its default.
const OTHER_MAKER: &[u8] =
    b"rule cc\n  command = cc $in -o $out\nbuild out: cc in\nrule make\n  command = make $out\nbuild build.ninja: make in\ndefault out\n";

/// A manifest with two commands that have `restat`, and one that doesn't.
const WITH_RESTAT: &[u8] =
    b"rule cc\n  command = cc $in -o $out\nrule gen\n  command = gen $out\n  restat = 1\nbuild a: gen in\nbuild b: cc a\nbuild c: gen b\n";

/// A manifest in which an edge makes `h`, which no other build line names, and `out` has a depfile.
const WITH_HEADER: &[u8] =
    b"rule cc\n  command = cc $in -o $out\n  depfile = d\nrule gen\n  command = gen $out\nbuild out: cc in\nbuild h: gen\n";

/// The same, but `h` is made of `out`.
const WITH_CYCLE: &[u8] =
    b"rule cc\n  command = cc $in -o $out\n  depfile = d\nrule gen\n  command = gen $out\nbuild out: cc in\nbuild h: gen out\n";

/// A manifest that names two files that are missing. `noy` comes first in the order in which ninja looks at files.
const LACKS_SOURCES: &[u8] =
    b"rule cc\n  command = cc $in -o $out\nbuild out: cc in\nbuild z: cc y nox\nbuild y: cc in || noy\ndefault out z\n";

/// A manifest whose maker needs a file that is missing.
const MAKER_LACKS_SOURCE: &[u8] =
    b"rule make\n  command = make $out\n  generator = 1\nbuild build.ninja: make in lost\nbuild out: make in\n";

/// Builds targets of a manifest that changes between its reads, and writes the lines to a sink.
fn build_to<
    'x,
    R: Threads + Wait + Sync + AllocGlobal,
    W: World + Send + Sync,
    O: Sink + Send + Drop,
>(
    rt: &R,
    texts: &'x [&'x [u8]],
    targets: &'x [&'x [u8]],
    world: &W,
    out: O,
) -> Result<(Result<Done, PlanFault>, O), Fail> {
    let mut source = Versions::new(texts);
    let Some(options) = Options::new(1, 1) else {
        return Err(Fail::from(AllocError));
    };
    let order = Order {
        manifest: b"build.ninja",
        options,
        targets,
    };
    let bell = Parker::new();
    let format = StatusLines::new();
    let printer = Printer { format, out };
    let (done, printer) = do_build(rt, rt.alloc(), &mut source, &order, world, &bell, printer);
    let Printer { out, .. } = printer;
    Ok((done, out))
}

/// Returns how a build ended, or the line of its fault.
fn line_of(alloc: Global, done: Result<Done, PlanFault>) -> Result<Result<Done, Vec<u8>>, Fail> {
    match done {
        Ok(done) => Ok(Ok(done)),
        Err(fault) => Ok(Err(fault.line(alloc)?)),
    }
}

/// Builds targets of a manifest that changes between its reads, and returns the lines and how the build ended.
fn built<'x, R: Threads + Wait + Sync + AllocGlobal, W: World + Send + Sync>(
    rt: &R,
    texts: &'x [&'x [u8]],
    targets: &'x [&'x [u8]],
    world: &W,
) -> Result<Told, Fail> {
    let out = Counted::new(Vec::new(rt.alloc()));
    let (done, out) = build_to(rt, texts, targets, world, out)?;
    Ok((out.into_writer(), line_of(rt.alloc(), done)?))
}

/// Builds the default targets of a manifest without running a command. Returns the numbers of commands that were
/// listed, too.
fn previewed<'x, R: Threads + Wait + Sync + AllocGlobal>(
    rt: &R,
    texts: &'x [&'x [u8]],
    world: &Generator,
) -> Result<(Told, Listed), Fail> {
    let mut source = Versions::new(texts);
    let Some(options) = Options::new(1, 1) else {
        return Err(Fail::from(AllocError));
    };
    let order = Order {
        manifest: b"build.ninja",
        options,
        targets: &[],
    };
    let bell = Parker::new();
    let printer = Printer {
        format: StatusLines::new(),
        out: Counted::new(Vec::new(rt.alloc())),
    };
    let (done, printer, listed) = do_dry_build(
        rt,
        rt.alloc(),
        &mut source,
        &order,
        world,
        &bell,
        printer,
    );
    let Printer { out, .. } = printer;
    Ok(((out.into_writer(), line_of(rt.alloc(), done)?), listed))
}

/// Checks that a dry build prints the commands that a build would run, and runs none.
#[test]
fn dry_build_runs_nothing(rt: HostRuntime) -> Result<(), Fail> {
    let world = Generator::new(0, 0);
    let ((text, done), _) = previewed(&rt, &[PLAIN], &world)?;
    assert_eq!(rt; text.as_slice(), b"[1/1] cc in -o out\n".as_slice());
    assert!(rt; matches!(&done, Ok(Done::Built)));
    assert!(rt; world.commands() == 0);
    let ((text, done), _) = previewed(&rt, &[IDLE], &world)?;
    assert!(rt; text.is_empty());
    assert!(rt; matches!(&done, Ok(Done::UpToDate)));
    Ok(())
}

/// Checks that a dry build counts the commands that it listed, and those with `restat` among them.
#[test]
fn dry_build_counts_restat_commands(rt: HostRuntime) -> Result<(), Fail> {
    let world = Generator::new(0, 0);
    let (told, listed) = previewed(&rt, &[WITH_RESTAT], &world)?;
    drop(told);
    assert!(rt; listed.commands == 3);
    assert!(rt; listed.restat == 2);
    let (told, listed) = previewed(&rt, &[PLAIN], &world)?;
    drop(told);
    assert!(rt; listed.commands == 1);
    assert!(rt; listed.restat == 0);
    Ok(())
}

/// Checks that a dry build of an outdated manifest prints only the command that builds it.
#[test]
fn dry_build_ends_behind_the_maker(rt: HostRuntime) -> Result<(), Fail> {
    let world = Generator::new(1, 0);
    let ((text, done), _) = previewed(&rt, &[MADE, REMADE], &world)?;
    assert_eq!(rt; text.as_slice(), b"[1/1] make build.ninja\n".as_slice());
    assert!(rt; matches!(&done, Ok(Done::Built)));
    assert!(rt; world.commands() == 0);
    Ok(())
}

/// Checks that the targets of a manifest that no edge builds are built.
#[test]
fn manifest_without_a_maker_is_built(rt: HostRuntime) -> Result<(), Fail> {
    let world = Generator::new(0, 0);
    let (text, done) = built(&rt, &[PLAIN], &[], &world)?;
    assert_eq!(rt; text.as_slice(), b"[1/1] cc in -o out\n".as_slice());
    assert!(rt; matches!(&done, Ok(Done::Built)));
    Ok(())
}

/// Checks that the command that builds the manifest doesn't run if the manifest is up to date.
#[test]
fn clean_maker_does_not_run(rt: HostRuntime) -> Result<(), Fail> {
    let world = Generator::new(0, 0);
    let (text, done) = built(&rt, &[MADE], &[b"out"], &world)?;
    assert_eq!(rt; text.as_slice(), b"[1/1] cc in -o out\n".as_slice());
    assert!(rt; matches!(&done, Ok(Done::Built)));
    assert!(rt; world.commands() == 1);
    Ok(())
}

/// Checks that a manifest is read again after the command that builds it ran, and that the targets of the new text are
/// built.
#[test]
fn remade_manifest_is_read_again(rt: HostRuntime) -> Result<(), Fail> {
    let world = Generator::new(1, 0);
    let (text, done) = built(&rt, &[MADE, REMADE], &[b"other"], &world)?;
    assert_eq!(rt;
        text.as_slice(),
        b"[1/1] make build.ninja\n[1/1] cc in -o other\n".as_slice()
    );
    assert!(rt; matches!(&done, Ok(Done::Built)));
    assert!(rt; world.commands() == 2);
    Ok(())
}

/// Checks that the new manifest, if it is out of date too, is built by its own command in the second round.
#[test]
fn manifest_is_remade_twice(rt: HostRuntime) -> Result<(), Fail> {
    let world = Generator::new(2, 0);
    let (text, done) = built(&rt, &[MADE, REMADE, IDLE], &[], &world)?;
    assert_eq!(rt;
        text.as_slice(),
        b"[1/1] make build.ninja\n[1/1] again build.ninja\n".as_slice()
    );
    assert!(rt; matches!(&done, Ok(Done::UpToDate)));
    Ok(())
}

/// Checks that a build that runs no command is up to date.
#[test]
fn nothing_to_do_is_up_to_date(rt: HostRuntime) -> Result<(), Fail> {
    let world = Generator::new(0, 0);
    let (text, done) = built(&rt, &[IDLE], &[], &world)?;
    assert!(rt; text.is_empty());
    assert!(rt; matches!(&done, Ok(Done::UpToDate)));
    assert!(rt; world.commands() == 0);
    Ok(())
}

/// Checks that a build with nothing to do, which names no targets, ends without a run.
#[test]
fn nothing_to_do_needs_no_run(rt: HostRuntime) -> Result<(), Fail> {
    let world = Settled::new(rt.alloc());
    let (text, done) = built(&rt, &[PLAIN], &[], &world)?;
    assert!(rt; text.is_empty());
    assert!(rt; matches!(&done, Ok(Done::UpToDate)));
    assert_eq!(rt; world.questions(), 0);
    Ok(())
}

/// Checks that edges are asked in a run if a target is named.
#[test]
fn named_target_is_run(rt: HostRuntime) -> Result<(), Fail> {
    let world = Settled::new(rt.alloc());
    let (text, done) = built(&rt, &[PLAIN], &[b"out"], &world)?;
    assert!(rt; text.is_empty());
    assert!(rt; matches!(&done, Ok(Done::UpToDate)));
    assert!(rt; world.questions() > 0);
    assert_eq!(rt; world.commands(), 0);
    Ok(())
}

/// Checks that a default, and the edge that makes the manifest, run if the record has another command for them.
#[test]
fn other_command_is_run(rt: HostRuntime) -> Result<(), Fail> {
    let world = Settled::new(rt.alloc());
    let (_text, done) = built(&rt, &[OTHER_COMMAND], &[], &world)?;
    assert!(rt; matches!(&done, Ok(Done::Built)));
    assert_eq!(rt; world.commands(), 1);
    let world = Settled::new(rt.alloc());
    let (_text, done) = built(&rt, &[OTHER_MAKER], &[], &world)?;
    assert!(rt; matches!(&done, Ok(Done::NeverSettles)));
    assert_eq!(rt; world.commands(), 100);
    Ok(())
}

/// Checks that an edge waits for the edge that makes a path which its last command read: by its entry, by its depfile,
/// or by the record of another builder.
#[test]
fn recorded_path_is_waited_for(rt: HostRuntime) -> Result<(), Fail> {
    for by in [ReadBy::Entry, ReadBy::Depfile, ReadBy::AnotherRecord] {
        let world = Reads {
            alloc: rt.alloc(),
            by,
        };
        let (text, done) = built(&rt, &[WITH_HEADER], &[b"out"], &world)?;
        assert_eq!(rt;
            text.as_slice(),
            b"[1/2] gen h\n[2/2] cc in -o out\n".as_slice()
        );
        assert!(rt; matches!(&done, Ok(Done::Built)));
    }
    Ok(())
}

/// Returns the world of a record with this stamp, in which another builder changed nothing but the dates of links.
fn shared(alloc: Global, record: u64) -> Shared {
    Shared {
        alloc,
        record,
        names_others: false,
        ran_another: false,
        ended: AtomicBool::new(false),
    }
}

/// Builds `out` where another builder may have built it. Returns whether its entry ended. If so, its command ran.
fn runs_again<R: Threads + Wait + Sync + AllocGlobal + Abort>(
    rt: &R,
    manifest: &[u8],
    world: Shared,
) -> Result<bool, Fail> {
    let (text, done) = built(rt, &[manifest], &[b"out"], &world)?;
    if !world.ended.load(Ordering::SeqCst) {
        assert!(rt; matches!(&done, Ok(Done::UpToDate)));
        return Ok(false);
    }
    assert_eq!(rt; text.as_slice(), b"[1/1] cc in -o out\n".as_slice());
    assert!(rt; matches!(&done, Ok(Done::Built)));
    Ok(true)
}

/// Checks that a command with `deps` runs again if another builder's record names other files for it.
#[test]
fn other_files_are_seen(rt: HostRuntime) -> Result<(), Fail> {
    for (manifest, names_others, runs) in [
        (WITH_DEPS, false, false),
        (WITH_DEPS, true, true),
        (PLAIN, true, false),
    ] {
        let world = Shared {
            names_others,
            ..shared(rt.alloc(), 9)
        };
        assert_eq!(rt; runs_again(&rt, manifest, world)?, runs);
    }
    Ok(())
}

/// Checks that a command with `deps` runs again if a link that it made is newer than the record. Without `deps`, links
/// don't count.
#[test]
fn newer_link_is_seen(rt: HostRuntime) -> Result<(), Fail> {
    assert!(rt; runs_again(&rt, WITH_DEPS, shared(rt.alloc(), 8))?);
    assert!(rt; !runs_again(&rt, WITH_DEPS, shared(rt.alloc(), 9))?);
    assert!(rt; !runs_again(&rt, PLAIN, shared(rt.alloc(), 8))?);
    Ok(())
}

/// Checks that a command runs again if another builder made one of its outputs by another command, but that of a
/// generator doesn't.
#[test]
fn other_command_is_seen(rt: HostRuntime) -> Result<(), Fail> {
    for (manifest, ran_another, runs) in [
        (WITH_SECOND, false, false),
        (WITH_SECOND, true, true),
        (WITH_IMPLICIT, true, true),
        (PLAIN, true, false),
        (SECOND_BY_GENERATOR, true, false),
    ] {
        let world = Shared {
            ran_another,
            ..shared(rt.alloc(), 9)
        };
        assert_eq!(rt; runs_again(&rt, manifest, world)?, runs);
    }
    Ok(())
}

/// Checks that a recorded path is left out if its maker waits for the edge.
#[test]
fn recorded_cycle_is_left_out(rt: HostRuntime) -> Result<(), Fail> {
    let world = Reads {
        alloc: rt.alloc(),
        by: ReadBy::Entry,
    };
    let (text, done) = built(&rt, &[WITH_CYCLE], &[b"h"], &world)?;
    assert_eq!(rt;
        text.as_slice(),
        b"[1/2] cc in -o out\n[2/2] gen h\n".as_slice()
    );
    assert!(rt; matches!(&done, Ok(Done::Built)));
    Ok(())
}

/// Checks that a command runs if its input is newer than the recorded basis, even if its output is newer than the
/// input.
#[test]
fn touched_output_hides_no_edit(rt: HostRuntime) -> Result<(), Fail> {
    let world = Touched {
        alloc: rt.alloc(),
        basis: 5,
    };
    let (text, done) = built(&rt, &[PLAIN], &[], &world)?;
    assert_eq!(rt; text.as_slice(), b"[1/1] cc in -o out\n".as_slice());
    assert!(rt; matches!(&done, Ok(Done::Built)));
    Ok(())
}

/// Checks that no command runs if the input isn't newer than the recorded basis.
#[test]
fn unchanged_input_is_up_to_date(rt: HostRuntime) -> Result<(), Fail> {
    let world = Touched {
        alloc: rt.alloc(),
        basis: 7,
    };
    let (text, done) = built(&rt, &[PLAIN], &[], &world)?;
    assert!(rt; text.is_empty());
    assert!(rt; matches!(&done, Ok(Done::UpToDate)));
    Ok(())
}

/// Checks that a build that runs only the command that builds the manifest is up to date.
#[test]
fn remaking_is_no_work(rt: HostRuntime) -> Result<(), Fail> {
    let world = Generator::new(1, 0);
    let (text, done) = built(&rt, &[IDLE], &[], &world)?;
    assert_eq!(rt; text.as_slice(), b"[1/1] make build.ninja\n".as_slice());
    assert!(rt; matches!(&done, Ok(Done::UpToDate)));
    Ok(())
}

/// Checks that a build fails if the command of a target fails.
#[test]
fn failed_command_fails_the_build(rt: HostRuntime) -> Result<(), Fail> {
    let world = Generator::new(0, 3);
    let (text, done) = built(&rt, &[MADE], &[b"out"], &world)?;
    assert_eq!(rt; text.as_slice(), b"FAILED out: exit 3\n".as_slice());
    assert!(rt; matches!(&done, Ok(Done::Failed)));
    Ok(())
}

/// Checks that no other command runs if the command that builds the manifest fails.
#[test]
fn failed_maker_ends_the_build(rt: HostRuntime) -> Result<(), Fail> {
    let world = Generator::new(1, 3);
    let (text, done) = built(&rt, &[MADE], &[], &world)?;
    assert_eq!(rt; text.as_slice(), b"FAILED build.ninja: exit 3\n".as_slice());
    assert!(rt; matches!(&done, Ok(Done::ManifestFails)));
    assert!(rt; world.commands() == 1);
    Ok(())
}

/// Checks that a build ends after 100 rounds if the manifest is still out of date.
#[test]
fn manifest_never_settles(rt: HostRuntime) -> Result<(), Fail> {
    let world = Generator::new(1_000, 0);
    let (text, done) = built(&rt, &[MADE], &[], &world)?;
    assert!(rt; text.len() == 100 * b"[1/1] make build.ninja\n".len());
    assert!(rt; matches!(&done, Ok(Done::NeverSettles)));
    assert!(rt; world.commands() == 100);
    Ok(())
}

/// Checks that a target is unknown if the manifest that was read last lacks it, even if an earlier one has it.
#[test]
fn unknown_target_is_named(rt: HostRuntime) -> Result<(), Fail> {
    let world = Generator::new(1, 0);
    let (text, done) = built(&rt, &[MADE, REMADE], &[b"other", b"out"], &world)?;
    assert_eq!(rt; text.as_slice(), b"[1/1] make build.ninja\n".as_slice());
    match done {
        Err(line) => assert_eq!(rt;
            line.as_slice(),
            b"plan: 132 UnknownTarget out\n".as_slice()
        ),
        Ok(_) => panic!(rt; "no refusal"),
    }
    Ok(())
}

/// Checks that a build of these targets is refused with this line, and that nothing was printed and no command ran.
fn is_refused<R: Threads + Wait + Sync + AllocGlobal>(
    rt: &R,
    text: &[u8],
    targets: &[&[u8]],
    line: &[u8],
) -> Result<bool, Fail> {
    let world = Generator::new(0, 0);
    let (printed, done) = built(rt, &[text], targets, &world)?;
    let is_so = match done {
        Err(found) => found.as_slice() == line,
        Ok(_) => false,
    };
    Ok(is_so && printed.is_empty() && world.commands() == 0)
}

/// Checks that a missing source refuses a build before its first command, and that the first one in ninja's order is
/// named.
#[test]
fn missing_source_refuses_the_build(rt: HostRuntime) -> Result<(), Fail> {
    let of_y = b"plan: 135 NoSource 'noy', needed by 'y', missing and no known rule to make it\n";
    assert!(rt; is_refused(&rt, LACKS_SOURCES, &[], of_y)?);
    assert!(rt; is_refused(&rt, LACKS_SOURCES, &[b"out", b"y"], of_y)?);
    let of_maker =
        b"plan: 136 NoSourceOfManifest 'lost', needed by 'build.ninja', missing and no known rule to make it\n";
    assert!(rt; is_refused(&rt, MAKER_LACKS_SOURCE, &[b"out"], of_maker)?);
    Ok(())
}

/// Checks that a missing source that the targets don't need refuses nothing.
#[test]
fn missing_source_of_others_is_left(rt: HostRuntime) -> Result<(), Fail> {
    let world = Generator::new(0, 0);
    let (text, done) = built(&rt, &[LACKS_SOURCES], &[b"out"], &world)?;
    assert_eq!(rt; text.as_slice(), b"[1/1] cc in -o out\n".as_slice());
    assert!(rt; matches!(&done, Ok(Done::Built)));
    Ok(())
}

/// Checks that a missing manifest is fault 20.
#[test]
fn missing_manifest_is_20(rt: HostRuntime) -> Result<(), Fail> {
    let world = Generator::new(0, 0);
    let (text, done) = built(&rt, &[], &[], &world)?;
    assert!(rt; text.is_empty());
    match done {
        Err(line) => {
            assert_eq!(rt;
                line.as_slice(),
                b"plan: 20 SourceMissing build.ninja:0\n".as_slice()
            )
        }
        Ok(_) => panic!(rt; "no refusal"),
    }
    Ok(())
}

/// Checks that no target is built if the manifest is refused when it is read again, and that its fault is returned.
#[test]
fn refused_remade_manifest_stops(rt: HostRuntime) -> Result<(), Fail> {
    let world = Generator::new(1, 0);
    let (text, done) = built(&rt, &[MADE, b"build out: cc in\n"], &[], &world)?;
    assert_eq!(rt; text.as_slice(), b"[1/1] make build.ninja\n".as_slice());
    match done {
        Err(line) => assert_eq!(rt;
            line.as_slice(),
            b"plan: 31 UnknownRule build.ninja:0\n".as_slice()
        ),
        Ok(_) => panic!(rt; "no refusal"),
    }
    assert!(rt; world.commands() == 1);
    Ok(())
}

/// Checks that a build ends with fault 133 if its lines can't be written.
#[test]
fn lost_lines_are_133(rt: HostRuntime) -> Result<(), Fail> {
    let world = Generator::new(1, 0);
    let (done, out) = build_to(&rt, &[MADE], &[], &world, Failing::new(0))?;
    forget(out);
    match line_of(rt.alloc(), done)? {
        Err(line) => assert_eq!(rt; line.as_slice(), b"plan: 133 FileFault -\n".as_slice()),
        Ok(_) => panic!(rt; "no refusal"),
    }
    Ok(())
}

/// Checks that a build that succeeded has exit status 0, and that any other end has status 1.
#[test]
fn ends_have_statuses(rt: HostRuntime) -> Result<(), Fail> {
    for (done, status) in [
        (Done::Built, 0),
        (Done::UpToDate, 0),
        (Done::Failed, 1),
        (Done::ManifestFails, 1),
        (Done::NeverSettles, 1),
    ] {
        assert!(rt; done.status() == status);
    }
    Ok(())
}

/// Builds `out` in a world that counts reasons. Checks that the world got this reason `times` times, and no other one.
fn is_told<R: Threads + Wait + Sync + AllocGlobal>(
    rt: &R,
    basis: u64,
    reason: &[u8],
    times: u64,
) -> Result<bool, Fail> {
    let world = Listening::new(rt.alloc(), basis, reason);
    let (_text, done) = built(rt, &[PLAIN], &[], &world)?;
    Ok(done.is_ok() && world.counts() == (times, 0))
}

/// Checks that the world gets the reason of a command before the command runs, and no reason if no command runs.
#[test]
fn commands_are_explained(rt: HostRuntime) -> Result<(), Fail> {
    let reason = b"input in is newer than what the last build read";
    assert!(rt; is_told(&rt, 3, reason, 1)?);
    assert!(rt; is_told(&rt, 7, b"", 0)?);
    Ok(())
}
