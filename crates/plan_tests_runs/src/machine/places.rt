//! Tests job tokens of pools and failures, event by event, on images made by hand.

ghost use Rattle.plan_machine.specs.Kept.{IsStateOf};

use crate::samples::{
    Left, Plain, READS, RUNNING, SampleEdge, depfile, event_of, events_of, image_of, left_by, ran,
    run_of, three,
};
use plan_machine::*;
use plan_verify::Verified;
use std::alloc::Global;

/// Applies picked events until an edge takes or releases a job token, and returns that mark. Returns `None` if no event
/// is picked before, or if 20 events give no such mark.
fn next_place(state: &mut State, image: &Verified) -> Result<Option<Mark>, Refused>
    requires { IsStateOf image.now state.old }
    ensures { IsStateOf image.now state.new }
{
    for _i in 0..20usize {
        match state.pick(image) {
            Some(event) => {
                let mark = state.apply(image, event)?;
                if matches!(mark, Mark::Took(_) | Mark::Released(_)) {
                    return Ok(Some(mark));
                }
            }
            None => return Ok(None),
        }
    }
    Ok(None)
}

/// Checks whether an edge takes the job token of the pool, and another edge takes it only after the first has released
/// it.
fn are_in_turn(state: &mut State, image: &Verified) -> Result<bool, Refused>
    requires { IsStateOf image.now state.old }
{
    let Some(Mark::Took(first)) = next_place(state, image)? else {
        return Ok(false);
    };
    let meanwhile = next_place(state, image)?;
    let _ = state.apply(image, Event::Reply(first, Reply::Exit(0)))?;
    let back = next_place(state, image)?;
    let next = next_place(state, image)?;
    match (meanwhile, back, next) {
        (None, Some(Mark::Released(edge)), Some(Mark::Took(second))) => {
            Ok(edge == first && second != first)
        }
        _ => Ok(false),
    }
}

/// Like `are_in_turn`, but of a run of `image` with four jobs.
fn opened_in_turn(alloc: Global, image: &Verified) -> Result<bool, Refused> {
    let Some(options) = Options::new(4, 0) else {
        return Err(Refused::Memory);
    };
    let mut state = State::open(alloc, image, options, &[])?;
    are_in_turn(&mut state, image)
}

/// While an edge holds the only job token of the pool, no other edge takes one. After its release another edge takes
/// it.
#[test]
fn place_comes_back(rt: HostRuntime) {
    let Some(image) = three(rt.alloc()) else {
        panic!(&rt; "no image");
    };
    assert!(rt; opened_in_turn(rt.alloc(), &image) == Ok(true));
}

/// Starts all edges that can start, and returns how many, with the next edge that takes its job token.
fn first_to_take(state: &mut State, image: &Verified) -> Result<(u32, Option<Mark>), Refused>
    requires { IsStateOf image.now state.old }
{
    let mut starts = 0u32;
    for _i in 0..20usize {
        match state.pick_start(image) {
            Some(event) => {
                let _ = state.apply(image, event)?;
                starts = starts.saturating_add(1);
            }
            None => return Ok((starts, next_place(state, image)?)),
        }
    }
    Ok((starts, None))
}

/// Like `first_to_take`, of a run of `image` with one job.
fn opened_to_take(alloc: Global, image: &Verified) -> Result<(u32, Option<Mark>), Refused> {
    let Some(options) = Options::new(1, 0) else {
        return Err(Refused::Memory);
    };
    let mut state = State::open(alloc, image, options, &[])?;
    first_to_take(&mut state, image)
}

/// Checks that edges start before one takes a job token. The token goes to the edge with the longest chain of edges
/// that wait for it, and among equals to the first edge.
#[test]
fn long_chains_first(rt: HostRuntime) {
    let single = SampleEdge {
        pool: None,
        ..RUNNING
    };
    let after_one = SampleEdge {
        waits: &[1],
        ..single
    };
    let Some(chain) = image_of(rt.alloc(), &[single, single, after_one, single], &[0, 2, 3]) else {
        panic!(&rt; "no image");
    };
    assert!(rt; opened_to_take(rt.alloc(), &chain) == Ok((3, Some(Mark::Took(1)))));
    let Some(equal) = image_of(rt.alloc(), &[single, single, single], &[0, 1, 2]) else {
        panic!(&rt; "no image");
    };
    assert!(rt; opened_to_take(rt.alloc(), &equal) == Ok((3, Some(Mark::Took(0)))));
}

/// Returns the events `before`, a reply to edge 0 with a depfile that has no colon, and the events `after`.
fn around_depfile(alloc: Global, before: &[Plain], after: &[Plain]) -> Result<Vec<Event>, Refused> {
    let mut events = events_of(alloc, before)?;
    events.push(Event::Reply(0, depfile(alloc, b"out a.h")?))?;
    for event in after {
        events.push(event_of(*event))?;
    }
    Ok(events)
}

/// Runs edge 0 with one job until its depfile, which has no colon, is refused. Then applies the events `after`.
fn malformed(alloc: Global, image: &Verified, after: &[Plain]) -> Left {
    let before = [
        Plain::Start(0),
        Plain::Step(0),
        Plain::Step(0),
        Plain::Step(0),
        Plain::Exit(0, 0),
        Plain::Step(0),
        Plain::Step(0),
        Plain::Step(0),
    ];
    match around_depfile(alloc, &before, after) {
        Ok(events) => left_by(alloc, image, 1, 0, &events),
        Err(refused) => Err((0, refused)),
    }
}

/// After its depfile is refused, an edge holds no job token.
#[test]
fn malformed_depfile_holds_no_place(rt: HostRuntime) {
    let reading = SampleEdge {
        code: &READS,
        ..RUNNING
    };
    let Some(image) = image_of(rt.alloc(), &[reading, RUNNING], &[0, 1]) else {
        panic!(&rt; "no image");
    };
    let failed = Mark::Failed(0, Cause::DepfileMalformed(90, 0));
    assert!(rt; malformed(rt.alloc(), &image, &[]) == Ok((9, Some(failed), false)));
    assert!(rt;
        malformed(rt.alloc(), &image, &[Plain::Start(1), Plain::Step(1)])
            == Ok((11, Some(Mark::Took(1)), false))
    );
}

/// Runs edges 0, 1 and 2 with one job and then skips edge 3. The command of edge 0 fails.
fn failing(alloc: Global, image: &Verified, keep: u32) -> Left {
    let Ok(events) = run_of(alloc, &[(0, 2), (1, 0), (2, 0)], Some(Plain::Skip(3, 0))) else {
        return Err((0, Refused::Memory));
    };
    ran(alloc, image, 1, keep, &events)
}

/// After a failure, the other edges run if `keep` is 0 (any number may fail), and are stopped if it is 1.
#[test]
fn failure_beside_others(rt: HostRuntime) {
    let waiting = SampleEdge {
        waits: &[0],
        ..RUNNING
    };
    let Some(image) = image_of(
        rt.alloc(),
        &[RUNNING, RUNNING, RUNNING, waiting],
        &[1, 2, 3],
    ) else {
        panic!(&rt; "no image");
    };
    let skipped = Some(Mark::Skipped(3, 0));
    assert!(rt; failing(rt.alloc(), &image, 0) == Ok((20, skipped, true)));
    assert!(rt; failing(rt.alloc(), &image, 1) == Err((6, Refused::NotEnabled)));
    let stopped = [
        Plain::Start(0),
        Plain::Step(0),
        Plain::Step(0),
        Plain::Step(0),
        Plain::Exit(0, 2),
        Plain::Stop(1),
        Plain::Stop(2),
        Plain::Skip(3, 0),
    ];
    assert!(rt; ran(rt.alloc(), &image, 1, 1, &stopped) == Ok((8, skipped, true)));
    assert!(rt; ran(rt.alloc(), &image, 1, 0, &stopped) == Err((5, Refused::NotEnabled)));
}
