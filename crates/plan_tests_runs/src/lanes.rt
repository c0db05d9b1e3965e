//! Runs of small images in worlds written for tests, and calls of the public functions.

pub(crate) mod boards;
mod chain;
mod recorded;
mod sweeps;

use plan_image::{Edge, EdgeCode, Edges, Image, Instr, Parts, Sort};
use plan_lanes::*;
use plan_machine::{Options, Outcome, Refused, Reply};
use plan_status::{StatusLines, ends_stay, live};
use plan_text::{Counted as Sinks, Items, RowList, Sink};
use plan_verify::{Refusal, Verified, VerifyFault, verify, verify_by};
use std::alloc::{AllocError, Global};
use std::mem::forget;
use std::process::Abort;
use std::rt::Clock;
use std::sync::Wait;
use std::sync::atomic::{AtomicU64, Ordering};
use std::test::*;
use std::thread;
use std::thread::Threads;
use std::time::Duration;

/// Code that asks for a stamp and drops it.
const LOOKS: [Instr; 2] = [Instr::Stat(0), Instr::Drop];

/// Code that runs a command.
const RUNS: [Instr; 5] = [
    Instr::Take,
    Instr::Text(0),
    Instr::Run,
    Instr::Release,
    Instr::End,
];

/// Returns code that asks for `looks` stamps and then runs a command.
fn code_of(alloc: Global, looks: u32) -> Result<Vec<Instr>, AllocError> {
    let mut code = Vec::new(alloc);
    for _ in 0..looks {
        code.extend_from_slice(LOOKS.as_slice())?;
    }
    code.extend_from_slice(RUNS.as_slice())?;
    Ok(code)
}

/// Returns an edge with rank n and output file n, which asks for `looks` stamps and then runs a command.
fn edge(alloc: Global, n: u32, waits: &[u32], looks: u32) -> Result<Edge, AllocError> {
    let outputs = Vec::from_slice(alloc, [n].as_slice())?;
    let waits = Vec::from_slice(alloc, waits)?;
    let code = code_of(alloc, looks)?;
    Ok(Edge {
        sort: Sort::Command,
        pool: None,
        rank: n,
        label: 0,
        outputs: Items::new(outputs),
        waits: Items::new(waits),
        code: EdgeCode::Own(Items::new(code)),
    })
}

/// Appends edges, and a file for each of them.
fn add_edges(
    alloc: Global,
    table: &mut Edges,
    files: &mut RowList<u8>,
    edges: &[Edge],
) -> Result<(), AllocError> {
    let mut n = 0u32;
    for edge in edges {
        files.push([(n % 250) as u8 + 1, (n / 250 % 250) as u8 + 1].as_slice())?;
        table.push(alloc, edge)?;
        n = n.saturating_add(1);
    }
    Ok(())
}

/// Returns the numbers of this many edges.
fn numbers(alloc: Global, count: usize) -> Result<Vec<u32>, AllocError> {
    let mut numbers = Vec::new(alloc);
    let mut n = 0u32;
    for _ in 0..count {
        numbers.push(n)?;
        n = n.saturating_add(1);
    }
    Ok(numbers)
}

/// Returns the tables of an image of these edges. All of them are built by default.
fn parts_of(alloc: Global, edges: &[Edge]) -> Result<Parts, AllocError> {
    let defaults = numbers(alloc, edges.len())?;
    let mut texts = RowList::new(alloc);
    texts.push(b"x")?;
    let mut files = RowList::new(alloc);
    let mut table = Edges::new(alloc);
    add_edges(alloc, &mut table, &mut files, edges)?;
    Ok(Parts {
        texts,
        files,
        pools: Items::empty(alloc),
        slots: Items::empty(alloc),
        bodies: None,
        edges: table,
        defaults: Items::new(defaults),
    })
}

/// Returns the image of these tables.
fn unverified(parts: Parts) -> Result<Image, Refused> {
    match Image::new(parts) {
        Ok(image) => Ok(image),
        Err((parts, _)) => {
            drop(parts);
            Err(Refused::BadTarget)
        }
    }
}

/// Returns the verified image of these edges.
fn image_of(alloc: Global, edges: &[Edge]) -> Result<Verified, Refused> {
    match verify(alloc, unverified(parts_of(alloc, edges)?)?) {
        Ok(verified) => Ok(verified),
        Err((image, _)) => {
            drop(image);
            Err(Refused::BadTarget)
        }
    }
}

/// Returns an edge with rank n that takes from an empty stack.
fn bad_edge(alloc: Global, n: u32) -> Result<Edge, AllocError> {
    let code = Vec::from_slice(alloc, [Instr::Drop].as_slice())?;
    let mut edge = edge(alloc, n, &[], 0)?;
    edge.code = EdgeCode::Own(Items::new(code));
    Ok(edge)
}

/// Code that keeps an entry without paths.
const KEEPS: [Instr; 5] = [
    Instr::Text(0),
    Instr::Zero,
    Instr::NoPaths,
    Instr::Keep,
    Instr::End,
];

/// Returns the verified image of an edge that keeps an entry.
pub(crate) fn keeping_edge(alloc: Global) -> Result<Verified, Refused> {
    let mut keeping = edge(alloc, 0, &[], 0)?;
    keeping.code = EdgeCode::Own(Items::new(Vec::from_slice(alloc, KEEPS.as_slice())?));
    let mut edges = Vec::new(alloc);
    edges.push(keeping)?;
    image_of(alloc, &edges)
}

/// Appends 300 edges. Those from `bad` on take from an empty stack.
fn add_bad_from(alloc: Global, edges: &mut Vec<Edge>, bad: u32) -> Result<(), AllocError> {
    for n in 0..300 {
        if n >= bad {
            edges.push(bad_edge(alloc, n)?)?;
        } else {
            edges.push(edge(alloc, n, &[], 0)?)?;
        }
    }
    Ok(())
}

/// Returns an image of 300 edges that isn't verified. The edges from `bad` on take from an empty stack.
fn edges_bad_from(alloc: Global, bad: u32) -> Result<Image, Refused> {
    let mut edges = Vec::new(alloc);
    add_bad_from(alloc, &mut edges, bad)?;
    unverified(parts_of(alloc, &edges)?)
}

/// Appends `count` edges. Edge n waits for edge n - `back`, or for none if `back` is 0 or above n.
fn add_waiting(
    alloc: Global,
    edges: &mut Vec<Edge>,
    count: u32,
    back: u32,
    looks: u32,
) -> Result<(), AllocError> {
    for n in 0..count {
        if back > 0 && n >= back {
            edges.push(edge(alloc, n, &[n - back], looks)?)?;
        } else {
            edges.push(edge(alloc, n, &[], looks)?)?;
        }
    }
    Ok(())
}

/// Returns a verified image of `count` edges. Edge n waits for edge n - `back`, or for none if `back` is 0 or above n.
pub(crate) fn edges_of(
    alloc: Global,
    count: u32,
    back: u32,
    looks: u32,
) -> Result<Verified, Refused> {
    let mut edges = Vec::new(alloc);
    add_waiting(alloc, &mut edges, count, back, looks)?;
    image_of(alloc, &edges)
}

/// A world in which each command waits until `all` commands have begun. A command that waits about 5 s exits with 99.
#[derive(Drop)]
struct Gate<C> {
    clock: C,
    all: u64,
    begun: AtomicU64,
}

impl<C: Clock> World for Gate<C> {
    ghost use Rattle.std.specs.Prelude.{⊤};

    ghost allows = { λ number request reply. ⊤ };

    fn keeps_journal() -> bool {
        false
    }

    fn observes() -> bool {
        false
    }

    fn stat(&self, _number: u64, _path: &[u8]) -> Result<Reply, AllocError> {
        Ok(Reply::Stamp(1))
    }

    fn recall(&self, _number: u64, _output: &[u8]) -> Result<Reply, AllocError> {
        Ok(Reply::Nothing)
    }

    fn run(
        &self,
        _number: u64,
        _outputs: &RowList<u8>,
        permit: Permit,
    ) -> Result<Reply, AllocError> {
        permit.spend();
        self.begun.fetch_add(1, Ordering::SeqCst);
        for _ in 0..5_000 {
            if self.begun.load(Ordering::SeqCst) >= self.all {
                return Ok(Reply::Exit(0));
            }
            thread::sleep(&self.clock, Duration::from_millis(1));
        }
        Ok(Reply::Exit(99))
    }

    fn read_depfile(&self, _number: u64, _path: &[u8]) -> Result<Reply, AllocError> {
        Ok(Reply::Nothing)
    }

    fn keep(&self, _number: u64, _order: &KeepOrder) -> Result<Reply, AllocError> {
        Ok(Reply::Kept)
    }
}

/// A world that counts its calls. After `most` calls it is out of memory. If `lies` is set, it replies to a command
/// with a stamp.
#[derive(Drop)]
pub(crate) struct Counted {
    most: u64,
    lies: bool,
    calls: AtomicU64,
    running: AtomicU64,
    crowd: AtomicU64,
}

impl Counted {
    fn new(most: u64, lies: bool) -> Counted {
        Counted {
            most,
            lies,
            calls: AtomicU64::new(0),
            running: AtomicU64::new(0),
            crowd: AtomicU64::new(0),
        }
    }

    /// Counts a call, and returns the reply.
    ///
    /// # Errors
    /// If there were `most` calls before this one.
    fn tell(&self, reply: Reply) -> Result<Reply, AllocError> {
        if self.calls.fetch_add(1, Ordering::SeqCst) >= self.most {
            return Err(AllocError);
        }
        Ok(reply)
    }
}

impl World for Counted {
    ghost use Rattle.std.specs.Prelude.{⊤};

    ghost allows = { λ number request reply. ⊤ };

    fn keeps_journal() -> bool {
        false
    }

    fn observes() -> bool {
        false
    }

    fn stat(&self, _number: u64, _path: &[u8]) -> Result<Reply, AllocError> {
        self.tell(Reply::Stamp(7))
    }

    fn recall(&self, _number: u64, _output: &[u8]) -> Result<Reply, AllocError> {
        self.tell(Reply::Nothing)
    }

    fn run(
        &self,
        _number: u64,
        _outputs: &RowList<u8>,
        permit: Permit,
    ) -> Result<Reply, AllocError> {
        permit.spend();
        let now = self.running.fetch_add(1, Ordering::SeqCst);
        self.crowd.fetch_max(now, Ordering::SeqCst);
        let reply = self.tell(if self.lies {
            Reply::Stamp(7)
        } else {
            Reply::Exit(0)
        });
        self.running.fetch_sub(1, Ordering::SeqCst);
        reply
    }

    fn read_depfile(&self, _number: u64, _path: &[u8]) -> Result<Reply, AllocError> {
        self.tell(Reply::Nothing)
    }

    fn keep(&self, _number: u64, _order: &KeepOrder) -> Result<Reply, AllocError> {
        self.tell(Reply::Kept)
    }
}

/// Returns the number of edges of a run that ran.
fn count_ran(report: &Report, edges: usize) -> usize {
    let mut well = 0usize;
    let mut n = 0u32;
    for _ in 0..edges {
        if report.state.outcome(n) == Some(Outcome::Ran) {
            well = well.saturating_add(1);
        }
        n = n.saturating_add(1);
    }
    well
}

/// Returns the report of a run and the number of its fault (0: none).
fn reported(ran: Result<Report, LaneFault>) -> Result<(u8, Report), Refused> {
    let fault = match ran {
        Ok(report) => return Ok((0, report)),
        Err(fault) => fault,
    };
    let number = fault.number();
    match fault {
        LaneFault::Opening(refused) => Err(refused),
        LaneFault::NotEnabled(report)
        | LaneFault::NoMemory(report)
        | LaneFault::NoLane(report)
        | LaneFault::OtherBoard(report) => Ok((number, report)),
    }
}

/// Runs an image. Returns the number of the fault (0: none), the number of events, and the number of edges that ran.
fn came_out<W: World + Send + Sync, R: Threads + Wait + Sync>(
    rt: &R,
    alloc: Global,
    image: &Verified,
    jobs: u16,
    world: &W,
) -> Result<(u8, usize, usize), Refused> {
    let Some(options) = Options::new(jobs, 0) else {
        return Err(Refused::Memory);
    };
    let (number, report) = reported(run_lanes(rt, alloc, image, options, &[], world))?;
    let well = count_ran(&report, image.image().parts().edges.len());
    let events = report.journal.len();
    drop(report);
    Ok((number, events, well))
}

/// Runs n edges in a world in which each command waits until all n have begun. Each edge asks for `looks` stamps first.
fn gated<R: Threads + Wait + Sync, C: Clock + Send + Sync + Drop>(
    rt: &R,
    alloc: Global,
    clock: C,
    n: u16,
    looks: u32,
) -> Result<(u8, usize, usize), Refused> {
    let gate = Gate {
        clock,
        all: u64::from(n),
        begun: AtomicU64::new(0),
    };
    let image = edges_of(alloc, u32::from(n), 0, looks)?;
    came_out(rt, alloc, &image, n, &gate)
}

/// If the jobs limit is n, n commands run at the same time: each command waits until all others have begun.
#[test]
fn all_at_once(rt: HostRuntime) -> Result<(), Fail> {
    for n in [2u16, 8, 64, 150] {
        for looks in [0u32, 3] {
            let events = (7 + 3 * looks as usize) * usize::from(n);
            assert!(rt;
                gated(&rt, rt.alloc(), rt.clone()?, n, looks) == Ok((0, events, usize::from(n)))
            );
        }
    }
    Ok(())
}

/// Returns the verified image of two edges. The first one asks for `looks` stamps, and the other one for 1 - `looks`.
fn uneven_image(alloc: Global, looks: u32) -> Result<Verified, Refused> {
    let mut edges = Vec::new(alloc);
    edges.push(edge(alloc, 0, &[], looks)?)?;
    edges.push(edge(alloc, 1, &[], 1u32.saturating_sub(looks))?)?;
    image_of(alloc, &edges)
}

/// Runs two uneven edges in a world in which each command waits for the other one.
fn gated_uneven<R: Threads + Wait + Sync, C: Clock + Send + Sync + Drop>(
    rt: &R,
    alloc: Global,
    clock: C,
    looks: u32,
) -> Result<(u8, usize, usize), Refused> {
    let gate = Gate {
        clock,
        all: 2,
        begun: AtomicU64::new(0),
    };
    let image = uneven_image(alloc, looks)?;
    came_out(rt, alloc, &image, 2, &gate)
}

/// Checks that a lane that has a stamp for one edge applies it before it runs the command of the other edge. Each
/// command waits for the other one. Both orders of the edges are tried.
#[test]
fn uneven(rt: HostRuntime) -> Result<(), Fail> {
    for looks in [0u32, 1] {
        assert!(rt; gated_uneven(&rt, rt.alloc(), rt.clone()?, looks) == Ok((0, 17, 2)));
    }
    Ok(())
}

/// Runs an image of 300 edges once for each jobs limit, and checks how often the world is called.
fn asks_once<R: Threads + Wait + Sync + Abort>(
    rt: &R,
    alloc: Global,
    image: &Verified,
    looks: u32,
) {
    for jobs in [1u16, 4, 64] {
        let world = Counted::new(u64::MAX, false);
        let events = (7 + 3 * looks as usize) * 300;
        let found = came_out(rt, alloc, image, jobs, &world);
        assert!(rt; found == Ok((0, events, 300)));
        let calls = world.calls.load(Ordering::SeqCst);
        assert_eq!(rt; calls, 300 * (u64::from(looks) + 1));
        assert!(rt; world.crowd.load(Ordering::SeqCst) < u64::from(jobs));
    }
}

/// Any number of lanes asks each question of each edge once, and runs at most `jobs` commands at the same time.
#[test]
fn each_edge_once(rt: HostRuntime) -> Result<(), Fail> {
    for (back, looks) in [(0u32, 2u32), (1, 1), (10, 0)] {
        let Ok(image) = edges_of(rt.alloc(), 300, back, looks) else {
            panic!(&rt; "no image");
        };
        asks_once(&rt, rt.alloc(), &image, looks);
        drop(image);
    }
    Ok(())
}

/// Returns the verdict of this many threads on 300 edges. The edges from `bad` on take from an empty stack.
fn verdict_by<R: Threads + Sync>(
    rt: &R,
    alloc: Global,
    threads: u8,
    bad: u32,
) -> Result<Result<u64, VerifyFault>, Refused> {
    match verify_by(rt, alloc, threads, edges_bad_from(alloc, bad)?) {
        Ok(verified) => {
            let budget = verified.budget();
            drop(verified);
            Ok(Ok(budget))
        }
        Err((image, fault)) => {
            drop(image);
            Ok(Err(fault))
        }
    }
}

/// Any number of threads returns the same verdict, which names the first bad edge.
#[test]
fn same_verdict_by_threads(rt: HostRuntime) -> Result<(), Fail> {
    for threads in [0u8, 1, 2, 4, 64] {
        for bad in [0u32, 74, 75, 149, 150, 225, 299, 300] {
            let wanted = if bad < 300 {
                Err(VerifyFault::Refused(Refusal::EmptyStack, bad, 0))
            } else {
                Ok(2_100)
            };
            assert!(rt; verdict_by(&rt, rt.alloc(), threads, bad) == Ok(wanted));
        }
    }
    Ok(())
}

/// Runs an image in worlds that are out of memory after some calls, and checks that the fault is 120.
fn runs_out<R: Threads + Wait + Sync + Abort>(rt: &R, alloc: Global, image: &Verified) {
    for jobs in [1u16, 4, 64] {
        for most in [0u64, 1, 2, 50, 299] {
            let world = Counted::new(most, false);
            match came_out(rt, alloc, image, jobs, &world) {
                Ok((number, ..)) => assert_eq!(rt; number, 120),
                Err(_) => panic!(rt; "not opened"),
            }
        }
    }
}

/// All lanes end if memory runs out at any call.
#[test]
fn memory_runs_out(rt: HostRuntime) -> Result<(), Fail> {
    let Ok(image) = edges_of(rt.alloc(), 100, 3, 2) else {
        panic!(&rt; "no image");
    };
    runs_out(&rt, rt.alloc(), &image);
    drop(image);
    Ok(())
}

/// Runs an image in a world whose replies don't fit, and checks that the fault is 110 and no edge runs.
fn does_not_fit<R: Threads + Wait + Sync + Abort>(rt: &R, alloc: Global, image: &Verified) {
    for jobs in [1u16, 4, 64] {
        let world = Counted::new(u64::MAX, true);
        match came_out(rt, alloc, image, jobs, &world) {
            Ok((number, _, well)) => assert_eq!(rt; (number, well), (110, 0)),
            Err(_) => panic!(rt; "not opened"),
        }
    }
}

/// All lanes end if a reply doesn't fit its question.
#[test]
fn replies_that_do_not_fit(rt: HostRuntime) -> Result<(), Fail> {
    let Ok(image) = edges_of(rt.alloc(), 100, 3, 2) else {
        panic!(&rt; "no image");
    };
    does_not_fit(&rt, rt.alloc(), &image);
    drop(image);
    Ok(())
}

/// Returns the number of the fault that a run ends with. None if it has no fault.
fn fault_of<R: Threads + Wait + Sync>(
    rt: &R,
    alloc: Global,
    image: &Verified,
    options: Options,
    targets: &[u32],
    world: &Counted,
) -> Option<u8> {
    let ran = run_lanes(rt, alloc, image, options, targets, world);
    let number = match &ran {
        Ok(_) => None,
        Err(fault) => Some(fault.number()),
    };
    forget(ran);
    number
}

/// Checks that a target that the image lacks is refused, and that the world isn't asked.
#[test]
fn target_outside(rt: HostRuntime) {
    let (Ok(image), Some(options)) = (edges_of(rt.alloc(), 2, 0, 0), Options::new(2, 0)) else {
        panic!(&rt; "no image");
    };
    let world = Counted::new(u64::MAX, false);
    assert_eq!(rt;
        fault_of(&rt, rt.alloc(), &image, options, &[2], &world),
        Some(112)
    );
    assert_eq!(rt; world.calls.load(Ordering::SeqCst), 0);
}

/// Runs an image, sends its marks through a ring for `room` marks, and settles the ring. Returns whether all marks were
/// put in while lanes ran, and whether all lines were written.
fn shown_run<R: Threads + Wait + Sync, O: Sink>(
    rt: &R,
    alloc: Global,
    image: &Verified,
    options: Options,
    room: usize,
    out: &mut O,
) -> Option<(bool, bool)> {
    ends_stay();
    let Ok((feed, tap)) = live(alloc, room) else {
        return None;
    };
    let world = Counted::new(u64::MAX, false);
    let (ran, feed) = run_lanes_shown(rt, alloc, image, options, &[], &world, feed);
    match ran {
        Ok(report) => {
            let total = report.state.total();
            let all = feed.shown() == report.marks.len();
            let mut format = StatusLines::new();
            let settled = tap.settle(feed, image, total, &report.marks, &mut format, out);
            Some((all, settled.is_ok()))
        }
        Err(_) => None,
    }
}

/// Checks the lines of a run for rings with room for no mark, for one, and for all.
fn shows_lines<R: Threads + Wait + Sync + Abort>(
    rt: &R,
    alloc: Global,
    image: &Verified,
    options: Options,
) {
    for (room, all) in [(0usize, false), (1, false), (256, true)] {
        let mut out = Sinks::new(Vec::new(alloc));
        let shown = shown_run(rt, alloc, image, options, room, &mut out);
        assert_eq!(rt; shown, Some((all, true)));
        let lines = out.into_writer();
        assert_eq!(rt; lines.as_slice(), b"[1/3] x\n[2/3] x\n[3/3] x\n".as_slice());
    }
}

/// All lines of a run are written, including those of marks for which the ring had no room while lanes ran.
#[test]
fn lines_are_shown(rt: HostRuntime) {
    let alloc = rt.alloc();
    let (Ok(image), Some(options)) = (edges_of(alloc, 3, 1, 0), Options::new(4, 0)) else {
        panic!(&rt; "no image");
    };
    shows_lines(&rt, alloc, &image, options);
    drop(image);
}
