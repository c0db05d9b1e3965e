//! Tests of each command on files in memory: its output, its status, and its faults.

mod building;
mod fakes;

use crate::commands::fakes::{Failing, File, Files, Fresh};
use plan_commands::*;
use plan_machine::Options;
use plan_printing::{Buffer, PlanFault, ended, file_fault, lost_output, no_memory};
use plan_text::{Counted, Sink};
use std::alloc::Global;
use std::mem::forget;
use std::sync::Wait;
use std::test::Fail;
use std::thread::{Parker, Threads};

/// The output of a command, and its status or the line of its fault.
type Told = (Vec<u8>, Result<u8, Vec<u8>>);

const TREE: [File<'static>; 4] = [
    (b"build.ninja", b"include rules\nbuild out: cc in\n"),
    (b"rules", b"rule cc\n  command = cc $in -o $out\n"),
    (b"bad.ninja", b"rule cc\n  command = $!\n"),
    (b"read.ninja", b"include x/failing\n"),
];

/// Returns the bytes that a sink took, and the status or the line of the fault.
fn told(alloc: Global, out: Counted<Vec<u8>>, done: Result<u8, PlanFault>) -> Result<Told, Fail> {
    let done = match done {
        Ok(status) => Ok(status),
        Err(fault) => Err(fault.line(alloc)?),
    };
    Ok((out.into_writer(), done))
}

/// Writes the commands of the manifest at a path.
fn commands_of(alloc: Global, path: &[u8]) -> Result<Told, Fail> {
    let mut source = Files::new(&TREE);
    let mut out = Counted::new(Vec::new(alloc));
    let done = do_commands(alloc, &mut source, path, &mut out);
    told(alloc, out, done)
}

/// Writes the image of the manifest at a path.
fn compiled(alloc: Global, path: &[u8]) -> Result<Told, Fail> {
    let mut source = Files::new(&TREE);
    let mut out = Counted::new(Vec::new(alloc));
    let done = do_compile(alloc, &mut source, path, b"plan.img", &mut out);
    told(alloc, out, done)
}

/// Checks that the commands of a manifest and of its included files are written.
#[test]
fn commands_are_written(rt: HostRuntime) -> Result<(), Fail> {
    let (text, done) = commands_of(rt.alloc(), b"build.ninja")?;
    assert_eq!(rt; text.as_slice(), b"cc in -o out\n".as_slice());
    assert!(rt; matches!(&done, Ok(0)));
    Ok(())
}

/// Checks that a manifest that is refused, is missing or can't be read has no output.
#[test]
fn refusals_write_nothing(rt: HostRuntime) -> Result<(), Fail> {
    for (path, line) in [
        (
            b"bad.ninja".as_slice(),
            b"plan: 3 BadEscape bad.ninja:20\n".as_slice(),
        ),
        (b"none.ninja", b"plan: 20 SourceMissing none.ninja:0\n"),
        (b"read.ninja", b"plan: 20 SourceMissing x/failing:0\n"),
    ] {
        for (text, done) in [commands_of(rt.alloc(), path)?, compiled(rt.alloc(), path)?] {
            assert!(rt; text.is_empty());
            match done {
                Err(found) => assert_eq!(rt; found.as_slice(), line),
                Ok(_) => panic!(rt; "no refusal"),
            }
        }
    }
    Ok(())
}

/// Checks that a failed write to standard output is fault 133.
#[test]
fn failed_output_is_133(rt: HostRuntime) -> Result<(), Fail> {
    let mut source = Files::new(&TREE);
    let mut out = Failing::new(0);
    match do_commands(rt.alloc(), &mut source, b"build.ninja", &mut out) {
        Err(fault) => {
            let line = fault.line(rt.alloc())?;
            assert_eq!(rt; line.as_slice(), b"plan: 133 FileFault -\n".as_slice());
        }
        Ok(_) => panic!(rt; "no refusal"),
    }
    Ok(())
}

/// Verifies the image at a path. The only file is `plan.img`, which has these bytes.
fn verified(alloc: Global, image: &[u8], path: &[u8]) -> Result<Told, Fail> {
    let files = [(b"plan.img".as_slice(), image)];
    let mut source = Files::new(&files);
    let mut out = Counted::new(Vec::new(alloc));
    let done = do_verify(alloc, &mut source, path, &mut out);
    told(alloc, out, done)
}

/// Lists the image in these bytes.
fn listed(alloc: Global, image: &[u8]) -> Result<Told, Fail> {
    let files = [(b"plan.img".as_slice(), image)];
    let mut source = Files::new(&files);
    let mut out = Counted::new(Vec::new(alloc));
    let done = do_dump(alloc, &mut source, b"plan.img", &mut out);
    told(alloc, out, done)
}

/// Checks that the image that `compile` writes for `build.ninja` is verified and listed.
#[test]
fn image_is_verified_and_listed(rt: HostRuntime) -> Result<(), Fail> {
    let alloc = rt.alloc();
    let (image, _done) = compiled(alloc, b"build.ninja")?;
    assert!(rt; image.starts_with(b"PLANIMG\x02"));
    let (text, done) = verified(alloc, &image, b"plan.img")?;
    assert!(rt; text.starts_with(b"ok 1 "));
    assert!(rt; matches!(&done, Ok(0)));
    let (text, done) = listed(alloc, &image)?;
    assert!(rt; text.starts_with(b"text 0 "));
    assert!(rt; matches!(&done, Ok(0)));
    Ok(())
}

/// Runs the targets of an image, or its default targets if `targets` is empty. Each command exits with this status. The
/// lines and the trace go to these sinks.
fn run_to<'x, R: Threads + Wait + Sync + AllocGlobal, O: Sink + Send + Drop, T: Sink>(
    rt: &R,
    image: &'x [u8],
    targets: &'x [&'x [u8]],
    status: u8,
    out: O,
    trace: &mut T,
) -> Result<(Result<u8, PlanFault>, O), Fail> {
    let files = [(b"plan.img".as_slice(), image)];
    let mut source = Files::new(&files);
    let Some(options) = Options::new(2, 1) else {
        return Err(Fail::from(std::alloc::AllocError));
    };
    let build = Build {
        image: b"plan.img",
        options,
        targets,
        trace: Some(b"run.trace"),
    };
    let world = Fresh { status };
    let bell = Parker::new();
    Ok(do_run(
        rt,
        rt.alloc(),
        &mut source,
        &build,
        &world,
        &bell,
        out,
        trace,
    ))
}

/// Runs the targets of an image, or its default targets if `targets` is empty. Each command exits with this status.
/// Returns the lines, the status or the line of the fault, and the trace.
fn ran<'x, R: Threads + Wait + Sync + AllocGlobal>(
    rt: &R,
    image: &'x [u8],
    targets: &'x [&'x [u8]],
    status: u8,
) -> Result<(Told, Vec<u8>), Fail> {
    let alloc = rt.alloc();
    let out = Counted::new(Vec::new(alloc));
    let mut trace = Counted::new(Vec::new(alloc));
    let (done, out) = run_to(rt, image, targets, status, out, &mut trace)?;
    Ok((told(alloc, out, done)?, trace.into_writer()))
}

/// Checks that a replay of a run's trace prints the lines of the run, and then the outcome of each edge.
#[test]
fn run_is_printed_and_replayed(rt: HostRuntime) -> Result<(), Fail> {
    let alloc = rt.alloc();
    let (image, _done) = compiled(alloc, b"build.ninja")?;
    let ((text, done), trace) = ran(&rt, &image, &[b"out"], 0)?;
    assert_eq!(rt; text.as_slice(), b"[1/1] cc in -o out\n".as_slice());
    assert!(rt; matches!(&done, Ok(0)));
    assert!(rt; trace.starts_with(b"plan-trace 1 j 2 k 1\ntarget 0\n"));
    let images = [(b"plan.img".as_slice(), image.as_slice())];
    let traces = [(b"run.trace".as_slice(), trace.as_slice())];
    let mut source = Files::new(&images);
    let mut events = Files::new(&traces);
    let mut out = Counted::new(Vec::new(alloc));
    let replayed = do_replay(
        alloc,
        &mut source,
        b"plan.img",
        &mut events,
        b"run.trace",
        &mut out,
    );
    let (text, done) = told(alloc, out, replayed)?;
    assert_eq!(rt;
        text.as_slice(),
        b"[1/1] cc in -o out\n0 out Ran\n".as_slice()
    );
    assert!(rt; matches!(&done, Ok(0)));
    Ok(())
}

/// Checks that a run in which a command fails has status 1.
#[test]
fn failed_run_has_status_one(rt: HostRuntime) -> Result<(), Fail> {
    let (image, _done) = compiled(rt.alloc(), b"build.ninja")?;
    let ((text, done), _trace) = ran(&rt, &image, &[b"out"], 3)?;
    assert_eq!(rt; text.as_slice(), b"FAILED out: exit 3\n".as_slice());
    assert!(rt; matches!(&done, Ok(1)));
    Ok(())
}

/// Checks that a target that no edge builds is fault 132, and that nothing is printed or traced.
#[test]
fn unknown_target_runs_nothing(rt: HostRuntime) -> Result<(), Fail> {
    let (image, _done) = compiled(rt.alloc(), b"build.ninja")?;
    let ((text, done), trace) = ran(&rt, &image, &[b"in"], 0)?;
    assert!(rt; text.is_empty() & trace.is_empty());
    match done {
        Err(line) => assert_eq!(rt; line.as_slice(), b"plan: 132 UnknownTarget in\n".as_slice()),
        Ok(_) => panic!(rt; "no refusal"),
    }
    Ok(())
}

/// Checks that the trace is written completely even if the lines of the run can't be written.
#[test]
fn trace_of_a_run_without_its_lines(rt: HostRuntime) -> Result<(), Fail> {
    let alloc = rt.alloc();
    let (image, _done) = compiled(alloc, b"build.ninja")?;
    let (_told, whole) = ran(&rt, &image, &[], 0)?;
    let mut trace = Counted::new(Vec::new(alloc));
    let (done, out) = run_to(&rt, &image, &[], 0, Failing::new(0), &mut trace)?;
    forget(out);
    assert_eq!(rt; trace.into_writer().as_slice(), whole.as_slice());
    match done {
        Err(fault) => {
            let line = fault.line(alloc)?;
            assert_eq!(rt; line.as_slice(), b"plan: 133 FileFault -\n".as_slice());
        }
        Ok(_) => panic!(rt; "no refusal"),
    }
    Ok(())
}

/// Checks that a run whose trace can't be written still prints its lines, and ends with fault 133.
#[test]
fn lost_trace_is_133(rt: HostRuntime) -> Result<(), Fail> {
    let alloc = rt.alloc();
    let (image, _done) = compiled(alloc, b"build.ninja")?;
    let mut trace = Failing::new(2);
    let out = Counted::new(Vec::new(alloc));
    let (done, out) = run_to(&rt, &image, &[], 0, out, &mut trace)?;
    let (text, done) = told(alloc, out, done)?;
    assert_eq!(rt; text.as_slice(), b"[1/1] cc in -o out\n".as_slice());
    match done {
        Err(line) => {
            assert_eq!(rt;
                line.as_slice(),
                b"plan: 133 FileFault run.trace\n".as_slice()
            )
        }
        Ok(_) => panic!(rt; "no refusal"),
    }
    Ok(())
}

/// Compares two runs of an image by their traces.
fn compared<'x>(
    alloc: Global,
    image: &'x [u8],
    first: &'x [u8],
    second: &'x [u8],
) -> Result<Told, Fail> {
    let image = [(b"plan.img".as_slice(), image)];
    let first = [(b"one.trace".as_slice(), first)];
    let second = [(b"other.trace".as_slice(), second)];
    let mut images = Files::new(&image);
    let mut firsts = Files::new(&first);
    let mut seconds = Files::new(&second);
    let paths = Compared {
        image: b"plan.img",
        first: b"one.trace",
        second: b"other.trace",
    };
    let mut out = Counted::new(Vec::new(alloc));
    let done = do_compare(
        alloc,
        &mut images,
        &mut firsts,
        &mut seconds,
        &paths,
        &mut out,
    );
    told(alloc, out, done)
}

/// Checks that runs with the same outcomes are `same` with status 0, and that others are `different` with status 1.
#[test]
fn runs_are_compared(rt: HostRuntime) -> Result<(), Fail> {
    let alloc = rt.alloc();
    let (image, _done) = compiled(alloc, b"build.ninja")?;
    let (_told, well) = ran(&rt, &image, &[], 0)?;
    let (_told, failed) = ran(&rt, &image, &[], 3)?;
    let (text, done) = compared(alloc, &image, &well, &well)?;
    assert_eq!(rt; text.as_slice(), b"same\n".as_slice());
    assert!(rt; matches!(&done, Ok(0)));
    let (text, done) = compared(alloc, &image, &well, &failed)?;
    assert_eq!(rt; text.as_slice(), b"different\n".as_slice());
    assert!(rt; matches!(&done, Ok(1)));
    Ok(())
}

/// Checks that traces of runs with named targets aren't compared, and that a text that isn't a trace is fault 130.
#[test]
fn other_traces_are_not_compared(rt: HostRuntime) -> Result<(), Fail> {
    let alloc = rt.alloc();
    let (image, _done) = compiled(alloc, b"build.ninja")?;
    let (_told, trace) = ran(&rt, &image, &[b"out"], 0)?;
    let (text, done) = compared(alloc, &image, &trace, &trace)?;
    assert!(rt; text.is_empty());
    match done {
        Err(line) => assert_eq!(rt; line.as_slice(), b"plan: 134 TracesDiffer\n".as_slice()),
        Ok(_) => panic!(rt; "no refusal"),
    }
    let (text, done) = compared(alloc, &image, &trace, b"none")?;
    assert!(rt; text.is_empty());
    match done {
        Err(line) => {
            assert_eq!(rt;
                line.as_slice(),
                b"plan: 130 BadTrace at line 1\n".as_slice()
            )
        }
        Ok(_) => panic!(rt; "no refusal"),
    }
    Ok(())
}

/// Checks that `ended` writes the bytes that a buffer still holds, and that a failure of this write is fault 133.
#[test]
fn buffer_is_handed_on(rt: HostRuntime) -> Result<(), Fail> {
    let alloc = rt.alloc();
    for capacity in [0, 5, 100] {
        let mut source = Files::new(&TREE);
        let room = Vec::with_capacity(alloc, capacity)?;
        let mut out = Buffer::new(Counted::new(Vec::new(alloc)), room);
        let done = do_commands(alloc, &mut source, b"build.ninja", &mut out);
        let (done, out) = ended(alloc, done, out);
        let (text, done) = told(alloc, out, done)?;
        assert_eq!(rt; text.as_slice(), b"cc in -o out\n".as_slice());
        assert!(rt; matches!(&done, Ok(0)));
    }
    let mut source = Files::new(&TREE);
    let mut out = Buffer::new(Failing::new(0), Vec::with_capacity(alloc, 100)?);
    let done = do_commands(alloc, &mut source, b"build.ninja", &mut out);
    assert!(rt; matches!(&done, Ok(0)));
    let (done, out) = ended(alloc, done, out);
    forget(out);
    match done {
        Err(fault) => {
            let line = fault.line(alloc)?;
            assert_eq!(rt; line.as_slice(), b"plan: 133 FileFault -\n".as_slice());
        }
        Ok(_) => panic!(rt; "no refusal"),
    }
    Ok(())
}

/// Checks that the line of a fault has its number, its name, and its file if it has one.
#[test]
fn faults_have_lines(rt: HostRuntime) -> Result<(), Fail> {
    let alloc = rt.alloc();
    for (fault, line) in [
        (
            file_fault(alloc, b"a"),
            b"plan: 133 FileFault a\n".as_slice(),
        ),
        (lost_output(alloc), b"plan: 133 FileFault -\n"),
        (no_memory(alloc), b"plan: 131 Memory\n"),
    ] {
        assert_eq!(rt; fault.line(alloc)?.as_slice(), line);
    }
    Ok(())
}
