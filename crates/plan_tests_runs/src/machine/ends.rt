//! Tests `same_end`, which compares the ends of two runs, on handmade images.

use crate::samples::{Plain, RUNS, SampleEdge, events_of, image_of, run_of, three};
use plan_image::{Instr, Sort};
use plan_machine::{Options, Refused, same_end};
use plan_verify::Verified;
use std::alloc::Global;

/// Whether two runs end alike, or the place of the refused event and the reason.
type Answer = Result<bool, (usize, Refused)>;

/// Checks whether two lists of events end alike, with up to 4 jobs and no limit of failures.
///
/// # Errors
/// Those of `same_end`, and `Memory` at place 99 if memory runs out before it.
fn told(alloc: Global, image: &Verified, first: &[Plain], second: &[Plain]) -> Answer {
    let (Some(options), Ok(first), Ok(second)) = (
        Options::new(4, 0),
        events_of(alloc, first),
        events_of(alloc, second),
    ) else {
        return Err((99, Refused::Memory));
    };
    same_end(alloc, image, options, &first, &second)
}

/// Checks whether two runs end alike. The first one runs the edges 0, 1 and 2 in order, with the statuses 0, 2 and 0.
/// The second one runs the edges of `second` in order, each with its status.
///
/// # Errors
/// Those of `told`.
fn orders(alloc: Global, image: &Verified, second: &[(u32, u8)]) -> Answer {
    let (Ok(first), Ok(second)) = (
        run_of(alloc, &[(0, 0), (1, 2), (2, 0)], None),
        run_of(alloc, second, None),
    ) else {
        return Err((99, Refused::Memory));
    };
    told(alloc, image, &first, &second)
}

#[test]
fn orders_of_three(rt: HostRuntime) {
    let alloc = rt.alloc();
    let Some(image) = three(alloc) else {
        panic!(&rt; "no image");
    };
    assert!(rt; orders(alloc, &image, &[(2, 0), (1, 2), (0, 0)]) == Ok(true));
    assert!(rt; orders(alloc, &image, &[(2, 0), (1, 0), (0, 0)]) == Ok(false));
    assert!(rt; orders(alloc, &image, &[(2, 0), (1, 3), (0, 0)]) == Ok(false));
}

#[test]
fn unended_runs_differ(rt: HostRuntime) {
    let Some(image) = three(rt.alloc()) else {
        panic!(&rt; "no image");
    };
    let begun = [Plain::Start(0), Plain::Step(0)];
    assert!(rt; told(rt.alloc(), &image, &begun, &begun) == Ok(false));
}

/// Checks that the place of an event that is refused in the second run also counts the events of the first run.
#[test]
fn place_in_the_second(rt: HostRuntime) {
    let Some(image) = three(rt.alloc()) else {
        panic!(&rt; "no image");
    };
    let first = [Plain::Start(0), Plain::Step(0)];
    let second = [Plain::Start(2), Plain::Start(2)];
    assert!(rt; told(rt.alloc(), &image, &first, &second) == Err((3, Refused::NotEnabled)));
}

/// Creates an image of two edges that run a command, and a third one that waits for both.
fn both_waited_for(alloc: Global) -> Option<Verified> {
    let running = SampleEdge {
        sort: Sort::Command,
        pool: None,
        label: 0,
        waits: &[],
        code: &RUNS,
    };
    let last = SampleEdge {
        waits: &[0, 1],
        code: &[Instr::End],
        ..running
    };
    image_of(alloc, &[running, running, last], &[2])
}

/// Checks whether two runs end alike in which edges 0 and 1 fail and edge 2 is skipped. In the first run, edge 0 fails
/// with status 2, and edge 2 is skipped because of edge 0. In the second run, edge 0 fails with `status`, and edge 2 is
/// skipped because of `over`.
///
/// # Errors
/// Those of `told`.
fn skipped(alloc: Global, image: &Verified, status: u8, over: u32) -> Answer {
    let (Ok(first), Ok(second)) = (
        run_of(alloc, &[(0, 2), (1, 2)], Some(Plain::Skip(2, 0))),
        run_of(alloc, &[(1, 2), (0, status)], Some(Plain::Skip(2, over))),
    ) else {
        return Err((99, Refused::Memory));
    };
    told(alloc, image, &first, &second)
}

#[test]
fn skipped_over_either(rt: HostRuntime) {
    let Some(image) = both_waited_for(rt.alloc()) else {
        panic!(&rt; "no image");
    };
    assert!(rt; skipped(rt.alloc(), &image, 2, 1) == Ok(true));
    assert!(rt; skipped(rt.alloc(), &image, 3, 1) == Ok(false));
}
