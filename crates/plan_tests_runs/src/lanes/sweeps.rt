//! Runs of edges that sweep the paths of a depfile, in worlds that reply ahead for all paths, for most or for none.

use plan_depfile::Parsed;
use plan_image::{Edge, EdgeCode, Edges, Image, Instr, Parts, Sort};
use plan_lanes::*;
use plan_machine::{Depfile, Event, Options, Outcome, Refused, Reply};
use plan_text::{Items, RowList};
use plan_verify::{Cause, Verified, verify};
use std::alloc::{AllocError, Global};
use std::sync::Wait;
use std::sync::atomic::{AtomicU64, Ordering};
use std::test::*;
use std::thread::Threads;

/// Code that reads a depfile, asks for the stamp of each of its paths, and ends.
const SWEEPS: [Instr; 9] = [
    Instr::Zero,
    Instr::Flag(false),
    Instr::Text(0),
    Instr::Deps,
    Instr::Sweep,
    Instr::Drop,
    Instr::Drop,
    Instr::Drop,
    Instr::End,
];

/// Returns an edge with rank n and output file n, which sweeps the paths of a depfile.
fn edge(alloc: Global, n: u32) -> Result<Edge, AllocError> {
    let outputs = Vec::from_slice(alloc, [n].as_slice())?;
    let code = Vec::from_slice(alloc, SWEEPS.as_slice())?;
    Ok(Edge {
        sort: Sort::Command,
        pool: None,
        rank: n,
        label: 0,
        outputs: Items::new(outputs),
        waits: Items::empty(alloc),
        code: EdgeCode::Own(Items::new(code)),
    })
}

/// Appends `count` edges that sweep, a file for each of them, and their numbers.
fn add_edges(
    alloc: Global,
    edges: &mut Edges,
    files: &mut RowList<u8>,
    numbers: &mut Vec<u32>,
    count: u32,
) -> Result<(), AllocError> {
    for n in 0..count {
        files.push([u8::try_from(n).unwrap_or(0).saturating_add(1)].as_slice())?;
        edges.push(alloc, &edge(alloc, n)?)?;
        numbers.push(n)?;
    }
    Ok(())
}

/// Returns the tables of `count` edges that sweep. All of them are built by default.
fn parts_of(alloc: Global, count: u32) -> Result<Parts, AllocError> {
    let mut texts = RowList::new(alloc);
    texts.push(b"x")?;
    let mut files = RowList::new(alloc);
    let mut edges = Edges::new(alloc);
    let mut defaults = Vec::new(alloc);
    add_edges(alloc, &mut edges, &mut files, &mut defaults, count)?;
    Ok(Parts {
        texts,
        files,
        pools: Items::empty(alloc),
        slots: Items::empty(alloc),
        bodies: None,
        edges,
        defaults: Items::new(defaults),
    })
}

/// Returns the image of these tables.
fn unverified(parts: Parts) -> Result<Image, Refused> {
    match Image::new(parts) {
        Ok(image) => Ok(image),
        Err((parts, _)) => {
            drop(parts);
            Err(Refused::BadTarget)
        }
    }
}

/// Returns the verified image of `count` edges that sweep.
fn image_of(alloc: Global, count: u32) -> Result<Verified, Refused> {
    match verify(alloc, unverified(parts_of(alloc, count)?)?) {
        Ok(verified) => Ok(verified),
        Err((image, _)) => {
            drop(image);
            Err(Refused::BadTarget)
        }
    }
}

/// The paths that are answered ahead.
#[derive(Clone, Copy, PartialEq)]
enum Ahead {
    None,
    All,
    /// All except every fifth path.
    Most,
}

/// A world with one depfile. The stamp of path k is k + 1, but path `fault` has none. The world counts how often each
/// path is asked for.
#[derive(Drop)]
struct Files {
    alloc: Global,
    paths: usize,
    ahead: Ahead,
    fault: usize,
    asked: Vec<AtomicU64>,
}

/// Returns the number of a path of two letters, and 0 for any other path.
fn number_of(path: &[u8]) -> usize {
    match path {
        [high, low] => usize::from(high.wrapping_sub(b'a')) * 26
            + usize::from(low.wrapping_sub(b'a')),
        _ => 0,
    }
}

impl Files {
    /// Creates a world with a depfile of this many paths.
    fn new(alloc: Global, paths: usize, ahead: Ahead, fault: usize) -> Result<Files, AllocError> {
        let mut asked = Vec::new(alloc);
        for _ in 0..paths {
            asked.push(AtomicU64::new(0))?;
        }
        Ok(Files {
            alloc,
            paths,
            ahead,
            fault,
            asked,
        })
    }

    /// Counts a question for a path.
    fn count(&self, number: usize) {
        if let Some(count) = self.asked.get(number) {
            count.fetch_add(1, Ordering::SeqCst);
        }
    }

    /// Checks whether the first `first` paths were asked for `times` times each, and the others never.
    fn is_asked(&self, first: usize, times: u64) -> bool {
        for number in 0..self.asked.len() {
            let expected = if number < first { times } else { 0 };
            if self.asked[number].load(Ordering::SeqCst) != expected {
                return false;
            }
        }
        true
    }
}

/// Returns the reply with a depfile of this many paths, each of two letters.
fn depfile(alloc: Global, paths: usize) -> Result<Reply, AllocError> {
    let mut bytes = Vec::from_slice(alloc, b"o:")?;
    for number in 0..paths {
        let (high, low) = ((number / 26 % 26) as u8, (number % 26) as u8);
        bytes.extend_from_slice([
            b' ',
            high.wrapping_add(b'a'),
            low.wrapping_add(b'a'),
        ].as_slice())?;
    }
    bytes.push(b'\n')?;
    match Parsed::of(alloc, bytes) {
        Ok(parsed) => Ok(Reply::Bytes(Depfile::new(alloc, parsed)?)),
        Err(_) => Err(AllocError),
    }
}

impl World for Files {
    ghost use Rattle.std.specs.Prelude.{⊤};

    ghost allows = { λ number request reply. ⊤ };

    fn keeps_journal() -> bool {
        false
    }

    fn observes() -> bool {
        false
    }

    fn stat(&self, _number: u64, path: &[u8]) -> Result<Reply, AllocError> {
        let number = number_of(path);
        self.count(number);
        if number == self.fault {
            return Ok(Reply::Fault);
        }
        Ok(Reply::Stamp((number as u64).saturating_add(1)))
    }

    fn stat_ahead(&self, path: &[u8]) -> Option<u64> {
        let number = number_of(path);
        let silent = match self.ahead {
            Ahead::None => true,
            Ahead::All => false,
            Ahead::Most => number % 5 == 4,
        };
        if silent || number == self.fault {
            return None;
        }
        self.count(number);
        Some((number as u64).saturating_add(1))
    }

    fn recall(&self, _number: u64, _output: &[u8]) -> Result<Reply, AllocError> {
        Ok(Reply::Nothing)
    }

    fn run(
        &self,
        _number: u64,
        _outputs: &RowList<u8>,
        permit: Permit,
    ) -> Result<Reply, AllocError> {
        permit.spend();
        Ok(Reply::Exit(0))
    }

    fn read_depfile(&self, _number: u64, _path: &[u8]) -> Result<Reply, AllocError> {
        depfile(self.alloc, self.paths)
    }

    fn keep(&self, _number: u64, _order: &KeepOrder) -> Result<Reply, AllocError> {
        Ok(Reply::Kept)
    }
}

/// Runs `edges` edges that sweep, with at most `jobs` lanes.
fn ran<R: Threads + Wait + Sync, W: World + Send + Sync>(
    rt: &R,
    alloc: Global,
    edges: u32,
    jobs: u16,
    world: &W,
) -> Result<Report, Refused> {
    let Some(options) = Options::new(jobs, 0) else {
        return Err(Refused::BadTarget);
    };
    let image = image_of(alloc, edges)?;
    match run_lanes(rt, alloc, &image, options, &[], world) {
        Ok(report) => Ok(report),
        Err(fault) => {
            drop(fault);
            Err(Refused::NotEnabled)
        }
    }
}

/// Checks whether all edges of a run have this outcome.
fn came_out(report: &Report, edges: u32, outcome: Outcome) -> bool {
    for edge in 0..edges {
        if report.state.outcome(edge) != Some(outcome) {
            return false;
        }
    }
    true
}

/// The numbers of paths that a depfile has in these tests. A row has 64 paths.
const COUNTS: [usize; 9] = [1, 2, 3, 63, 64, 65, 66, 128, 200];

/// Runs 30 edges in a world of files. Checks whether the journal isn't kept and all edges are clean. Returns the number
/// of events, or `None` if not.
fn swept<R: Threads + Wait + Sync>(
    rt: &R,
    alloc: Global,
    jobs: u16,
    world: &Files,
) -> Result<Option<usize>, Refused> {
    let report = ran(rt, alloc, 30, jobs, world)?;
    let clean = report.kept.is_none() & came_out(&report, 30, Outcome::Clean);
    let events = report.journal.len();
    drop(report);
    Ok(if clean { Some(events) } else { None })
}

/// Runs 30 edges whose depfile has this many paths. Returns the number of events if all edges are clean, and whether
/// each path was asked for once for each edge.
fn sweeps_once<R: Threads + Wait + Sync>(
    rt: &R,
    alloc: Global,
    paths: usize,
    ahead: Ahead,
    jobs: u16,
) -> Result<(Option<usize>, bool), Refused> {
    let world = Files::new(alloc, paths, ahead, usize::MAX)?;
    let events = swept(rt, alloc, jobs, &world)?;
    Ok((events, world.is_asked(paths, 30)))
}

/// Each path of each edge is asked for once, whatever is answered ahead, by one lane and by four.
#[test]
fn each_path_of_each_edge(rt: HostRuntime) -> Result<(), Fail> {
    for ahead in [Ahead::None, Ahead::All, Ahead::Most] {
        for paths in COUNTS {
            for jobs in [1u16, 4] {
                let found = sweeps_once(&rt, rt.alloc(), paths, ahead, jobs);
                assert!(rt; found == Ok((Some((2 * paths + 11) * 30), true)));
            }
        }
    }
    Ok(())
}

/// Returns an event as a number: the stamp if the event has one, and otherwise a number for its kind.
fn plain(event: &Event) -> u64 {
    match event {
        Event::Start(_) => 1_000,
        Event::Skip(..) => 1_001,
        Event::Stop(_) => 1_002,
        Event::Step(_) => 1_003,
        Event::Reply(_, Reply::Stamp(stamp)) => *stamp,
        Event::Reply(..) => 1_004,
    }
}

/// Returns the events of a run whose journal is kept, each as a number.
fn plain_events(alloc: Global, report: &Report) -> Result<Vec<u64>, Refused> {
    let Some(journal) = &report.kept else {
        return Err(Refused::NotEnabled);
    };
    let mut numbers = Vec::new(alloc);
    let mut rest = journal.events();
    for _ in 0..journal.len() {
        match rest.split_first() {
            Some((event, behind)) => {
                numbers.push(plain(event.event()))?;
                rest = behind;
            }
            None => return Ok(numbers),
        }
    }
    Ok(numbers)
}

/// Runs one edge, and returns its journal with each event as a number. The journal is kept.
fn told<R: Threads + Wait + Sync>(
    rt: &R,
    alloc: Global,
    world: &Files,
) -> Result<Vec<u64>, Refused> {
    let report = ran(rt, alloc, 1, 1, &Journaled::new(world))?;
    plain_events(alloc, &report)
}

/// Returns the journal of one edge whose depfile has this many paths, each event as a number. Path `fault` has no
/// stamp.
fn told_of<R: Threads + Wait + Sync>(
    rt: &R,
    alloc: Global,
    paths: usize,
    ahead: Ahead,
    fault: usize,
) -> Result<Vec<u64>, Refused> {
    let world = Files::new(alloc, paths, ahead, fault)?;
    told(rt, alloc, &world)
}

/// Checks whether the journal of an edge is the same whether its paths are answered ahead or one by one.
fn tells_the_same<R: Threads + Wait + Sync>(
    rt: &R,
    alloc: Global,
    paths: usize,
    ahead: Ahead,
    fault: usize,
) -> Result<bool, Refused> {
    let single = told_of(rt, alloc, paths, Ahead::None, fault)?;
    let numbers = told_of(rt, alloc, paths, ahead, fault)?;
    Ok(numbers.as_slice() == single.as_slice())
}

/// Checks that the journal of an edge is the same whether its paths are answered ahead or one by one.
#[test]
fn rows_and_single_questions(rt: HostRuntime) -> Result<(), Fail> {
    for paths in COUNTS {
        for fault in [usize::MAX, 0, 1, 63, 64, 65] {
            for ahead in [Ahead::All, Ahead::Most] {
                assert!(rt; tells_the_same(&rt, rt.alloc(), paths, ahead, fault) == Ok(true));
            }
        }
    }
    Ok(())
}

/// Runs 8 edges whose depfile has 70 paths. Path `fault` has no stamp. Returns whether all edges failed for that
/// reason, and whether each edge asked once for each path up to `fault`, and for no later path.
fn fails_at<R: Threads + Wait + Sync>(
    rt: &R,
    alloc: Global,
    ahead: Ahead,
    fault: usize,
) -> Result<(bool, bool), Refused> {
    let world = Files::new(alloc, 70, ahead, fault)?;
    let report = ran(rt, alloc, 8, 2, &world)?;
    let failed = came_out(&report, 8, Outcome::Failed(Cause::StatFault));
    drop(report);
    Ok((failed, world.is_asked(fault.saturating_add(1), 8)))
}

/// Checks that an edge fails if a path has no stamp, and that it asks for no later path.
#[test]
fn path_without_a_stamp(rt: HostRuntime) -> Result<(), Fail> {
    for ahead in [Ahead::None, Ahead::Most] {
        for fault in [0usize, 1, 63, 64, 65] {
            assert!(rt; fails_at(&rt, rt.alloc(), ahead, fault) == Ok((true, true)));
        }
    }
    Ok(())
}
