//! plan_ninja: a builder for Ninja manifests. This crate is the program. The crates that it depends on do the work.
#![tactic(auto)]

ghost use Rattle.std.specs.Prelude.{◌≡◌};

use plan_cli::{EarlyExit, FileRequest, Request, RunWords, request_in, words_in};
use plan_commands::{
    Build, Compared, do_commands, do_compare, do_compile, do_dump, do_replay, do_run, do_verify,
};
use plan_lanes::World;
use plan_machine::Options;
use plan_printing::{
    Buffer, FileSource, IMAGE_BYTES, MANIFEST_BYTES, NewFile, PlanFault, Screen, Standard,
    TRACE_BYTES, ended, file_fault, lost_output, no_memory, open_streams,
};
use plan_text::{Counted, Sink};
use plan_world::{OpenFault, RealWorld, SystemDisk, SystemShells};
use std::alloc::{AllocError, Global};
use std::mem::forget;
use std::process::ExitCode;
use std::rt::{Clock, Files};
use std::sync::{Mutex, Wait};
use std::thread::{Parker, Threads, join};

/// The exit status if a request is refused.
const REFUSED: u8 = 2;

/// The size of the output buffer in bytes.
const OUTPUT_BUFFER: usize = 65_536;

/// Writes the result of a request to a sink, or for `compile` to a new file. Returns the exit status.
fn answer<R: Files + Eprint + AllocGlobal, W: Sink>(
    rt: &R,
    request: FileRequest<'_>,
    out: &mut W,
) -> Result<u8, PlanFault> {
    let alloc = rt.alloc();
    let mut manifests = FileSource::new(rt, MANIFEST_BYTES);
    let mut images = FileSource::new(rt, IMAGE_BYTES);
    let mut traces = FileSource::new(rt, TRACE_BYTES);
    match request {
        FileRequest::Commands(path) => do_commands(alloc, &mut manifests, path.as_bytes(), out),
        FileRequest::Compile(path, output) => {
            let mut image = Counted::new(NewFile::new(rt, output));
            do_compile(
                alloc,
                &mut manifests,
                path.as_bytes(),
                output.as_bytes(),
                &mut image,
            )
        }
        FileRequest::Dump(path) => do_dump(alloc, &mut images, path.as_bytes(), out),
        FileRequest::Replay(image, trace) => do_replay(
            alloc,
            &mut images,
            image.as_bytes(),
            &mut traces,
            trace.as_bytes(),
            out,
        ),
        FileRequest::Compare(image, first, second) => {
            let mut others = FileSource::new(rt, TRACE_BYTES);
            let paths = Compared {
                image: image.as_bytes(),
                first: first.as_bytes(),
                second: second.as_bytes(),
            };
            do_compare(alloc, &mut images, &mut traces, &mut others, &paths, out)
        }
        FileRequest::Verify(path) => do_verify(alloc, &mut images, path.as_bytes(), out),
    }
}

/// Prints the result of a request, and returns the exit status.
fn print<R: Files + Print + Eprint + Clock + AllocGlobal>(
    rt: &R,
    request: FileRequest<'_>,
) -> Result<u8, PlanFault> {
    let alloc = rt.alloc();
    let Ok(room) = Vec::with_capacity(alloc, OUTPUT_BUFFER) else {
        return Err(no_memory(alloc));
    };
    let mut out = Buffer::new(Standard::new(rt), room);
    let status = answer(rt, request, &mut out);
    let (status, _out) = ended(alloc, status, out);
    status
}

/// Prints the line of a fault to standard error, and returns the exit status.
fn report<E: Print>(alloc: Global, errors: &E, fault: &PlanFault) -> u8
    ensures { result ≡ REFUSED }
{
    let _ = match fault.line(alloc) {
        Ok(line) => errors.write_all(&line),
        // The line of the fault `Memory`, without allocating it.
        Err(_) => errors.write_all(b"plan: 131 Memory\n"),
    };
    REFUSED
}

/// Prints the help to standard output, or to standard error the reason why the words are refused. Returns the exit
/// status.
fn show<R: Print + Eprint + AllocGlobal, E: Print>(rt: &R, errors: &E, told: &EarlyExit) -> u8 {
    match told {
        EarlyExit::Memory => report(rt.alloc(), errors, &no_memory(rt.alloc())),
        EarlyExit::Refused(text) => {
            let _ = rt.eprint(text);
            REFUSED
        }
        EarlyExit::Help(text) => match rt.print(text) {
            Ok(()) => 0,
            Err(_) => report(rt.alloc(), errors, &lost_output(rt.alloc())),
        },
    }
}

/// Returns the names of targets as bytes.
fn names_of<'a>(alloc: Global, targets: &[&'a str]) -> Result<Vec<&'a [u8]>, AllocError> {
    let mut names = Vec::with_capacity(alloc, targets.len())?;
    for target in targets {
        names.push(target.as_bytes())?;
    }
    Ok(names)
}

/// Returns a path as bytes. None if there is no path.
fn bytes_of(path: Option<&str>) -> Option<&[u8]> {
    match path {
        Some(path) => Some(path.as_bytes()),
        None => None,
    }
}

/// The world of real files and commands.
type SystemWorld = RealWorld<HostRuntime, SystemShells<HostRuntime>, SystemDisk<HostRuntime>>;

/// Returns the fault of a record that can't be used.
fn record_fault(alloc: Global, record: &str, fault: OpenFault) -> PlanFault {
    match fault {
        OpenFault::Memory => no_memory(alloc),
        OpenFault::Device => file_fault(alloc, record.as_bytes()),
    }
}

/// Opens the world of real files and commands, with the record at a path.
fn world_at(rt: &HostRuntime, record: &str) -> Result<SystemWorld, PlanFault> {
    let own: Result<HostRuntime, AllocError> = rt.clone();
    let other: Result<HostRuntime, AllocError> = rt.clone();
    let third: Result<HostRuntime, AllocError> = rt.clone();
    let (Ok(own), Ok(other), Ok(third)) = (own, other, third) else {
        return Err(no_memory(rt.alloc()));
    };
    match RealWorld::open(
        own,
        SystemShells::new(other),
        SystemDisk::new(third),
        record,
    ) {
        Ok(world) => Ok(world),
        Err(fault) => Err(record_fault(rt.alloc(), record, fault)),
    }
}

/// Runs an image in a world, and returns the exit status.
fn run_image<
    R: Threads + Wait + Sync + Files + Print + Eprint + Clock + AllocGlobal,
    W: World + Send + Sync,
>(
    rt: &R,
    asked: &RunWords<'_>,
    world: &W,
    screen: &Mutex<()>,
    parker: &Parker,
) -> Result<u8, PlanFault> {
    let alloc = rt.alloc();
    let file = NewFile::new(rt, asked.trace.unwrap_or(""));
    let (Some(options), Ok(targets), Ok(room)) = (
        Options::new(u16::from(asked.jobs), asked.keep),
        names_of(alloc, &asked.targets),
        Vec::with_capacity(alloc, OUTPUT_BUFFER),
    ) else {
        return Err(no_memory(alloc));
    };
    let build = Build {
        image: asked.image.as_bytes(),
        options,
        targets: &targets,
        trace: bytes_of(asked.trace),
    };
    let mut images = FileSource::new(rt, IMAGE_BYTES);
    let out = Screen::new(rt, screen);
    let mut trace = Buffer::new(Counted::new(file), room);
    let (ran, _out) = do_run(
        rt,
        alloc,
        &mut images,
        &build,
        world,
        parker,
        out,
        &mut trace,
    );
    let (written, _file) = trace.finish();
    match (ran, written) {
        (Ok(_), Err(_)) => Err(file_fault(alloc, build.trace.unwrap_or(b""))),
        (ran, _) => ran,
    }
}

/// The number of the fault that a file doesn't begin like an image.
const BAD_MAGIC: u8 = 60;

/// Prints a hint to standard error if a manifest was given instead of an image.
fn advise<R: Eprint>(rt: &R, image: &str, done: &Result<u8, PlanFault>) {
    match done {
        Err(fault) if fault.number == BAD_MAGIC && image.ends_with(".ninja") => {
            let _ = eprintln!(rt;
                "plan_ninja: {image} is a manifest, and no image: compile it first, by plan_ninja compile {image} -o plan.img"
            );
        }
        _ => {}
    }
}

/// Returns the exit status, and reports the fault if there is one.
fn status_of<E: Print>(alloc: Global, errors: &E, done: Result<u8, PlanFault>) -> u8 {
    match done {
        Ok(status) => status,
        Err(fault) => report(alloc, errors, &fault),
    }
}

fn main(rt: HostRuntime) -> ExitCode {
    let errors = rt.stderr();
    let Ok(_streams) = open_streams(&rt) else {
        let _ = errors.write_all(b"plan_ninja: /dev/null can't be opened\n");
        return ExitCode::from(REFUSED);
    };
    let words = match words_in(&rt) {
        Ok(words) => words,
        Err(told) => return ExitCode::from(show(&rt, &errors, &told)),
    };
    let done = match request_in(rt.alloc(), &words) {
        Ok(Request::Run(asked)) => match world_at(&rt, asked.record) {
            Ok(world) => {
                let (read, done) = join(
                    &rt,
                    || world.read_record(),
                    || run_image(&rt, &asked, &world, world.screen(), world.parker()),
                );
                advise(&rt, asked.image, &done);
                world.release();
                // The system frees its memory sooner than this program would.
                forget(world);
                match read {
                    Ok(()) => done,
                    Err(fault) => Err(record_fault(rt.alloc(), asked.record, fault)),
                }
            }
            Err(fault) => Err(fault),
        },
        Ok(Request::Files(asked)) => print(&rt, asked),
        Err(told) => return ExitCode::from(show(&rt, &errors, &told)),
    };
    ExitCode::from(status_of(rt.alloc(), &errors, done))
}
