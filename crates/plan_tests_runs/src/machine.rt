//! Tests the public functions on handmade images.

ghost use Rattle.plan_machine.specs.Kept.{IsStateOf};

mod ends;
mod places;
mod restat;

use crate::samples::{Plain, READS, RUNNING, SampleEdge, depfile, image_of, ran, three};
use plan_image::{Instr, Sort};
use plan_machine::*;
use plan_verify::Verified;
use std::alloc::Global;
use std::test::Fail;

/// Creates an image of one edge with this code and without a pool.
fn alone(alloc: Global, code: &[Instr]) -> Option<Verified> {
    let edge = SampleEdge {
        sort: Sort::Command,
        pool: None,
        label: 0,
        waits: &[],
        code,
    };
    image_of(alloc, &[edge], &[0])
}

/// Creates an image of four edges: edge 1 waits for edge 0, edge 2 waits for edge 1, and edge 3 waits for none.
fn chain(alloc: Global) -> Option<Verified> {
    let second = SampleEdge {
        waits: &[0],
        ..RUNNING
    };
    let third = SampleEdge {
        waits: &[1],
        ..RUNNING
    };
    image_of(alloc, &[RUNNING, second, third, RUNNING], &[2, 3])
}

/// In a pool of depth 1, an edge can take the job token only after the edge that holds it has released it.
#[test]
fn pool_of_one(rt: HostRuntime) {
    let alloc = rt.alloc();
    let Some(image) = three(alloc) else {
        panic!(&rt; "no image");
    };
    let all = [
        Plain::Start(0),
        Plain::Start(1),
        Plain::Start(2),
        Plain::Step(0),
        Plain::Step(0),
        Plain::Step(0),
        Plain::Exit(0, 0),
        Plain::Step(0),
        Plain::Step(1),
    ];
    assert!(rt; ran(alloc, &image, 4, 0, &all) == Ok((9, Some(Mark::Took(1)), false)));
    let early = [all[0], all[1], all[2], all[3], all[8]];
    assert!(rt; ran(alloc, &image, 4, 0, &early) == Err((4, Refused::NotEnabled)));
}

/// Checks that a stamp is refused as the reply to an edge that asked to run its command.
#[test]
fn wrong_replies(rt: HostRuntime) {
    let Some(image) = three(rt.alloc()) else {
        panic!(&rt; "no image");
    };
    let events = [
        Plain::Start(0),
        Plain::Step(0),
        Plain::Step(0),
        Plain::Step(0),
        Plain::Stamp(0, 1),
    ];
    assert!(rt; ran(rt.alloc(), &image, 4, 0, &events) == Err((4, Refused::NotEnabled)));
}

/// Edges that wait for a failed or a skipped edge can be skipped. Another edge can be stopped after the first failure
/// if the limit of failures is 1, but not if there is no limit.
#[test]
fn failures_and_skips(rt: HostRuntime) {
    let Some(image) = chain(rt.alloc()) else {
        panic!(&rt; "no image");
    };
    let all = [
        Plain::Start(0),
        Plain::Step(0),
        Plain::Step(0),
        Plain::Step(0),
        Plain::Exit(0, 2),
        Plain::Skip(1, 0),
        Plain::Skip(2, 1),
        Plain::Stop(3),
    ];
    assert!(rt; ran(rt.alloc(), &image, 1, 0, &all) == Err((7, Refused::NotEnabled)));
    assert!(rt; ran(rt.alloc(), &image, 1, 1, &all) == Ok((8, Some(Mark::Stopped(3)), true)));
}

/// The code of an edge that sweeps the paths of its depfile.
const SWEEPS: [Instr; 9] = [
    Instr::Zero,
    Instr::Flag(false),
    Instr::Text(0),
    Instr::Deps,
    Instr::Sweep,
    Instr::Drop,
    Instr::Drop,
    Instr::Drop,
    Instr::End,
];

/// Applies the events of `next` until there are none, and returns their number.
///
/// # Errors
/// Those of `next` and `apply`, and `NotEnabled` if there are 20 events or more.
fn go_on(alloc: Global, state: &mut State, image: &Verified, bytes: &[u8]) -> Result<usize, Refused>
    requires { IsStateOf image.now state.old }
{
    let mut count = 0usize;
    for _i in 0..20usize {
        match next(alloc, state, image, bytes)? {
            Some(event) => {
                let _ = state.apply(image, event)?;
                count += 1;
            }
            None => return Ok(count),
        }
    }
    Err(Refused::NotEnabled)
}

/// Returns the event that is picked or, if there is none, a reply to edge 0: a depfile of these bytes, the status 0 or
/// the stamp 7. Returns `None` if edge 0 doesn't await a reply either.
///
/// # Errors
/// `Memory`.
fn next(
    alloc: Global,
    state: &State,
    image: &Verified,
    bytes: &[u8],
) -> Result<Option<Event>, Refused>
    requires { IsStateOf image.now state.now }
{
    if let Some(event) = state.pick(image) {
        return Ok(Some(event));
    }
    match state.request(image, 0) {
        Some(Request::Deps(_)) => Ok(Some(Event::Reply(0, depfile(alloc, bytes)?))),
        Some(Request::Run(..)) => Ok(Some(Event::Reply(0, Reply::Exit(0)))),
        Some(_) => Ok(Some(Event::Reply(0, Reply::Stamp(7)))),
        None => Ok(None),
    }
}

/// Runs the only edge of an image, whose depfile has these bytes. Returns the number of events and the outcome.
///
/// # Errors
/// Those of `State::open` and `go_on`.
fn comes_to(
    alloc: Global,
    image: &Verified,
    bytes: &[u8],
) -> Result<(usize, Option<Outcome>), Refused> {
    let Some(options) = Options::new(1, 0) else {
        return Err(Refused::Memory);
    };
    let mut state = State::open(alloc, image, options, &[])?;
    let count = go_on(alloc, &mut state, image, bytes)?;
    Ok((count, state.outcome(0)))
}

#[test]
fn malformed_depfile(rt: HostRuntime) {
    let Some(image) = alone(rt.alloc(), &READS) else {
        panic!(&rt; "no image");
    };
    let failed = Outcome::Failed(Cause::DepfileMalformed(90, 0));
    assert_eq!(rt; image.budget(), 11);
    assert!(rt; comes_to(rt.alloc(), &image, b"out a.h") == Ok((9, Some(failed))));
}

#[test]
fn sweep(rt: HostRuntime) {
    let Some(image) = alone(rt.alloc(), &SWEEPS) else {
        panic!(&rt; "no image");
    };
    let clean = Some(Outcome::Clean);
    assert_eq!(rt; image.budget(), 11);
    assert!(rt; comes_to(rt.alloc(), &image, b"a:b") == Ok((13, clean)));
    assert!(rt; comes_to(rt.alloc(), &image, b"") == Ok((11, clean)));
    let words = b"out: a.h \\\n b.h ./a.h";
    assert!(rt; comes_to(rt.alloc(), &image, words) == Ok((15, clean)));
}

/// Checks that an edge whose depfile has 16,777,217 blanks fails at the first byte after the limit. The depfile has no
/// paths, so that the number of events stays within the budget of the image.
#[test]
fn depfile_of_blanks(rt: HostRuntime) -> Result<(), Fail> {
    let Some(image) = alone(rt.alloc(), &READS) else {
        panic!(&rt; "no image");
    };
    let blanks = vec![in rt.alloc(); b' '; 16_777_217]?;
    let failed = Outcome::Failed(Cause::DepfileMalformed(93, 16_777_216));
    assert_eq!(rt; image.budget(), 11);
    assert!(rt; comes_to(rt.alloc(), &image, &blanks) == Ok((9, Some(failed))));
    drop(image);
    Ok(())
}

/// Checks whether a depfile still has its bytes, and this many paths, in the form that a journal keeps. Returns false
/// if the depfile is malformed.
///
/// # Errors
/// `Memory`.
fn is_journaled(alloc: Global, bytes: &[u8], paths: u32) -> Result<bool, Refused> {
    match depfile(alloc, bytes)?.copy_for_journal(alloc)? {
        Reply::Bytes(kept) => match kept.result(alloc)? {
            Ok(found) => Ok(kept.bytes() == bytes && found.len() == paths),
            Err(_) => Ok(false),
        },
        _ => Ok(false),
    }
}

#[test]
fn journaled_depfile(rt: HostRuntime) {
    assert!(rt; is_journaled(rt.alloc(), b"out: a.h b.h ./a.h", 2) == Ok(true));
    assert!(rt; is_journaled(rt.alloc(), b"", 0) == Ok(true));
    assert!(rt; is_journaled(rt.alloc(), b"out a.h", 0) == Ok(false));
}

/// Applies the events that are picked, at most 20, and returns their number.
///
/// # Errors
/// Those of `apply`.
fn pick_all(state: &mut State, image: &Verified) -> Result<usize, Refused>
    requires { IsStateOf image.now state.old }
    ensures { IsStateOf image.now state.new }
{
    let mut count = 0usize;
    for _i in 0..20usize {
        match state.pick(image) {
            Some(event) => {
                let _ = state.apply(image, event)?;
                count += 1;
            }
            None => {}
        }
    }
    Ok(count)
}

/// Applies events while some can be picked. Returns their number, how many of the edges 0 to 2 then await a reply, and
/// the number of wanted edges with a command.
///
/// # Errors
/// Those of `State::open` and `pick_all`.
fn picked(alloc: Global, image: &Verified, jobs: u16) -> Result<(usize, usize, u64), Refused> {
    let Some(options) = Options::new(jobs, 0) else {
        return Err(Refused::Memory);
    };
    let mut state = State::open(alloc, image, options, &[])?;
    let count = pick_all(&mut state, image)?;
    let asking = state.request(image, 0).is_some() as usize
        + state.request(image, 1).is_some() as usize
        + state.request(image, 2).is_some() as usize;
    Ok((count, asking, state.total()))
}

#[test]
fn full_pool(rt: HostRuntime) {
    let Some(image) = three(rt.alloc()) else {
        panic!(&rt; "no image");
    };
    assert!(rt; picked(rt.alloc(), &image, 4) == Ok((6, 1, 3)));
}

/// Checks whether the step of edge 0 asks anything before the edge starts, and whether it asks for the stamp of `a`
/// after the start.
///
/// # Errors
/// Those of `apply`.
fn questions(image: &Verified, state: &mut State) -> Result<(bool, bool), Refused>
    requires { IsStateOf image.now state.old }
{
    let early = state.asks(image, &Event::Step(0)).is_some();
    let _ = state.apply(image, Event::Start(0))?;
    match state.asks(image, &Event::Step(0)) {
        Some(Request::Stat(path)) => Ok((early, path == b"a".as_slice())),
        _ => Ok((early, false)),
    }
}

/// Opens a run of one job and calls `questions`.
///
/// # Errors
/// Those of `State::open` and `questions`.
fn opened_questions(alloc: Global, image: &Verified) -> Result<(bool, bool), Refused> {
    let Some(options) = Options::new(1, 0) else {
        return Err(Refused::Memory);
    };
    let mut state = State::open(alloc, image, options, &[])?;
    questions(image, &mut state)
}

#[test]
fn questions_ahead(rt: HostRuntime) {
    let Some(image) = alone(rt.alloc(), &[Instr::Stat(0), Instr::Drop, Instr::End]) else {
        panic!(&rt; "no image");
    };
    assert!(rt; opened_questions(rt.alloc(), &image) == Ok((false, true)));
}

/// Starts edge 0, which asks for two stamps. Makes four local runs of it: one after the start, one after each of two
/// replies, and one more. Returns, for each local run, the number of steps that asked nothing, and whether one more
/// step asked.
///
/// # Errors
/// Those of `apply` and `follow`.
fn local_runs(image: &Verified, state: &mut State) -> Result<[(u32, bool); 4], Refused>
    requires { IsStateOf image.now state.old }
{
    let _ = state.apply(image, Event::Start(0))?;
    let first = state.run_locally(image, 0);
    let (_answered, asks) = state.follow(image, 0, Reply::Stamp(5))?;
    let (_again, ends) = state.follow(image, 0, Reply::Stamp(3))?;
    let still = state.run_locally(image, 0);
    Ok([
        (first.steps, first.asked),
        (asks.steps, asks.asked),
        (ends.steps, ends.asked),
        (still.steps, still.asked),
    ])
}

/// Opens a run of one job and calls `local_runs`.
///
/// # Errors
/// Those of `State::open` and `local_runs`.
fn opened_local_runs(alloc: Global, image: &Verified) -> Result<[(u32, bool); 4], Refused> {
    let Some(options) = Options::new(1, 0) else {
        return Err(Refused::Memory);
    };
    let mut state = State::open(alloc, image, options, &[])?;
    local_runs(image, &mut state)
}

/// Checks that a local run stops after a step that asks, or before the end of the code. Its count includes the step
/// that asks.
#[test]
fn edge_makes_local_runs(rt: HostRuntime) {
    let code = [
        Instr::Stat(0),
        Instr::Stat(0),
        Instr::Older,
        Instr::Drop,
        Instr::End,
    ];
    let Some(image) = alone(rt.alloc(), &code) else {
        panic!(&rt; "no image");
    };
    let gone = [(0, true), (0, true), (2, false), (0, false)];
    assert!(rt; opened_local_runs(rt.alloc(), &image) == Ok(gone));
    let counted = LocalRun {
        steps: 2,
        asked: true,
    };
    assert_eq!(rt; counted.count(), 3);
    assert_eq!(rt; counted.is_still(), false);
}

#[test]
fn numbers_of_refusals(rt: HostRuntime) {
    assert_eq!(rt; Refused::NotEnabled.number(), 110);
    assert_eq!(rt; Refused::Memory.number(), 111);
    assert_eq!(rt; Refused::BadTarget.number(), 112);
}

/// Checks that an event has 24 bytes, and that values, replies and marks have 16 bytes each.
#[test]
fn sizes(rt: HostRuntime) {
    assert_eq!(rt; std::mem::size_of::<plan_verify::Value>(), 16);
    assert_eq!(rt; std::mem::size_of::<Reply>(), 16);
    assert_eq!(rt; std::mem::size_of::<Event>(), 24);
    assert_eq!(rt; std::mem::size_of::<Mark>(), 16);
}

/// Returns the jobs and the limit of failures that options keep, or `None` if the options are refused.
fn kept(jobs: u16, keep: u32) -> Option<(u16, u32)> {
    match Options::new(jobs, keep) {
        Some(options) => Some((options.jobs(), options.keep())),
        None => None,
    }
}

#[test]
fn options_have_some_jobs(rt: HostRuntime) {
    assert_eq!(rt; kept(0, 1), None);
    assert_eq!(rt; kept(1, 7), Some((1, 7)));
    assert_eq!(rt; kept(65, 1), Some((65, 1)));
    assert_eq!(rt; kept(1024, 0), Some((1024, 0)));
    assert_eq!(rt; kept(1025, 1), None);
}

/// Opens a run for these targets. Returns the outcomes of edges 0 to 3, and whether the run has ended.
///
/// # Errors
/// Those of `State::open`.
fn opened(
    alloc: Global,
    image: &Verified,
    targets: &[u32],
) -> Result<([Option<Outcome>; 4], bool), Refused> {
    let Some(options) = Options::new(1, 0) else {
        return Err(Refused::Memory);
    };
    let state = State::open(alloc, image, options, targets)?;
    let outcomes = [
        state.outcome(0),
        state.outcome(1),
        state.outcome(2),
        state.outcome(3),
    ];
    Ok((outcomes, state.ended()))
}

/// Checks that the wanted edges are those that the targets need or, without targets, those that the defaults need. A
/// target that isn't an edge is refused.
#[test]
fn edges_that_the_targets_need(rt: HostRuntime) {
    let waiting = SampleEdge {
        waits: &[0],
        ..RUNNING
    };
    let Some(image) = image_of(rt.alloc(), &[RUNNING, waiting, RUNNING], &[1]) else {
        panic!(&rt; "no image");
    };
    let unwanted = Some(Outcome::NotWanted);
    assert!(rt; opened(rt.alloc(), &image, &[]) == Ok(([None, None, unwanted, None], false)));
    assert!(rt; opened(rt.alloc(), &image, &[2]) == Ok(([unwanted, unwanted, None, None], false)));
    assert!(rt; opened(rt.alloc(), &image, &[2, 0]) == Ok(([None, unwanted, None, None], false)));
    assert!(rt; opened(rt.alloc(), &image, &[0, 3]) == Err(Refused::BadTarget));
}

/// If nothing is built by default, a run without targets has ended when it opens. A target that isn't an edge is
/// refused.
#[test]
fn nothing_wanted(rt: HostRuntime) {
    let Some(image) = image_of(rt.alloc(), &[RUNNING], &[]) else {
        panic!(&rt; "no image");
    };
    let unwanted = Some(Outcome::NotWanted);
    assert!(rt; opened(rt.alloc(), &image, &[]) == Ok(([unwanted, None, None, None], true)));
    assert!(rt; opened(rt.alloc(), &image, &[1]) == Err(Refused::BadTarget));
}

/// Starts edge 0, which sweeps a depfile of the paths `b`, `c` and `d`, and offers it three rows of stamps: from the
/// second path on, from the first, and from the last. Returns three results:
///
/// - the number of paths with a stamp, before the first row and after the second row
/// - the number of stamps that are taken from each row
/// - the local run up to the request for the depfile
///
/// # Errors
/// Those of `apply` and `follow`, `Memory`, and `NotEnabled` if the edge doesn't sweep after the depfile.
fn sweeps(
    alloc: Global,
    image: &Verified,
    state: &mut State,
) -> Result<([u32; 2], [usize; 3], LocalRun), Refused>
    requires { IsStateOf image.now state.old }
{
    let _ = state.apply(image, Event::Start(0))?;
    let read = state.run_locally(image, 0);
    let _ = state.follow(image, 0, depfile(alloc, b"a: b c d\n")?)?;
    let (paths, begun) = match state.sweeping(image, 0) {
        Some((paths, place)) => (paths.copy()?, place),
        None => return Err(Refused::NotEnabled),
    };
    let second = state.sweep_row(image, 0, &paths, 1, &[5]);
    let first = state.sweep_row(image, 0, &paths, 0, &[5, 0, 7]);
    let swept = match state.sweeping(image, 0) {
        Some((_paths, place)) => place,
        None => 0,
    };
    let last = state.sweep_row(image, 0, &paths, 2, &[7]);
    let (_answered, _ends) = state.follow(image, 0, Reply::Stamp(7))?;
    Ok(([begun, swept], [second, first, last], read))
}

/// Opens a run of one job and calls `sweeps`.
///
/// # Errors
/// Those of `State::open` and `sweeps`.
fn opened_sweeps(
    alloc: Global,
    image: &Verified,
) -> Result<([u32; 2], [usize; 3], LocalRun), Refused> {
    let Some(options) = Options::new(1, 0) else {
        return Err(Refused::Memory);
    };
    let mut state = State::open(alloc, image, options, &[])?;
    sweeps(alloc, image, &mut state)
}

/// Checks that a row of stamps is taken only if it begins with the path that the edge asked for. The stamp of the last
/// path is never taken from a row.
#[test]
fn rows_of_a_sweep(rt: HostRuntime) {
    let code = [
        Instr::Zero,
        Instr::Flag(false),
        Instr::Text(0),
        Instr::Deps,
        Instr::Sweep,
        Instr::Drop,
        Instr::Drop,
        Instr::Drop,
        Instr::End,
    ];
    let Some(image) = alone(rt.alloc(), &code) else {
        panic!(&rt; "no image");
    };
    let read = LocalRun {
        steps: 3,
        asked: true,
    };
    let told = ([0, 2], [0, 2, 0], read);
    assert!(rt; opened_sweeps(rt.alloc(), &image) == Ok(told));
}
