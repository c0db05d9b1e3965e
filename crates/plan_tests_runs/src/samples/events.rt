//! Handmade events, images to run them on, and the results of such runs.

use crate::samples::making::{RUNS, SampleEdge, make_sample};
use plan_depfile::Parsed;
use plan_image::{Instr, Sort};
use plan_machine::{Depfile, Event, Mark, Options, Refused, Reply, replay};
use plan_verify::Verified;
use std::alloc::{AllocError, Global};

/// An event that holds no text and no list.
#[derive(Clone, Copy)]
pub enum Plain {
    /// An edge begins.
    Start(u32),
    /// An edge makes its next step.
    Step(u32),
    /// An edge is skipped because of an edge that it waits for (the second number).
    Skip(u32, u32),
    /// An edge is stopped.
    Stop(u32),
    /// The command of an edge ended with this status.
    Exit(u32, u8),
    /// An edge gets a stamp as its reply.
    Stamp(u32, u64),
}

/// Converts a plain event to an `Event`.
pub fn event_of(plain: Plain) -> Event {
    match plain {
        Plain::Start(edge) => Event::Start(edge),
        Plain::Step(edge) => Event::Step(edge),
        Plain::Skip(edge, over) => Event::Skip(edge, over),
        Plain::Stop(edge) => Event::Stop(edge),
        Plain::Exit(edge, status) => Event::Reply(edge, Reply::Exit(status)),
        Plain::Stamp(edge, stamp) => Event::Reply(edge, Reply::Stamp(stamp)),
    }
}

/// Converts plain events to `Event`s.
///
/// # Errors
/// Out of memory.
pub fn events_of(alloc: Global, plain: &[Plain]) -> Result<Vec<Event>, AllocError> {
    let mut events = Vec::with_capacity(alloc, plain.len())?;
    for event in plain {
        events.push(event_of(*event))?;
    }
    Ok(events)
}

/// An edge that runs a command in pool 0.
pub const RUNNING: SampleEdge<'static> = SampleEdge {
    sort: Sort::Command,
    pool: Some(0),
    label: 0,
    waits: &[],
    code: &RUNS,
};

/// Creates an image of these edges, with one pool of depth 1 and the text `x`.
/// Returns `None` if `make_sample` does.
pub fn image_of(alloc: Global, edges: &[SampleEdge<'_>], defaults: &[u32]) -> Option<Verified> {
    make_sample(
        alloc,
        &[b"x".as_slice()],
        &[(b"p".as_slice(), 1)],
        edges,
        defaults,
    )
}

/// Creates an image of three edges of the pool, which are all built by default.
pub fn three(alloc: Global) -> Option<Verified> {
    image_of(alloc, &[RUNNING, RUNNING, RUNNING], &[0, 1, 2])
}

/// The result of a run: the number of its marks, the last mark, and whether the run has ended. If an event is refused,
/// the result is the place of that event, from 0, and the reason.
pub type Left = Result<(usize, Option<Mark>, bool), (usize, Refused)>;

/// Runs events from the opening for the image's defaults, with at most `jobs` jobs. Failures are allowed until their
/// number reaches `keep`, and 0 means no limit.
///
/// # Errors
/// Those of `replay`, and `Memory` at place 0 if `jobs` isn't 1 to 1,024.
pub fn left_by(alloc: Global, image: &Verified, jobs: u16, keep: u32, events: &[Event]) -> Left {
    let Some(options) = Options::new(jobs, keep) else {
        return Err((0, Refused::Memory));
    };
    match replay(alloc, image, options, &[], events) {
        Ok((state, marks)) => Ok((marks.len(), marks.as_slice().last().copied(), state.ended())),
        Err(refused) => Err(refused),
    }
}

/// Like `left_by`, but takes plain events.
///
/// # Errors
/// Those of `left_by`, and `Memory` at place 0 if the events can't be converted.
pub fn ran(alloc: Global, image: &Verified, jobs: u16, keep: u32, plain: &[Plain]) -> Left {
    match events_of(alloc, plain) {
        Ok(events) => left_by(alloc, image, jobs, keep, &events),
        Err(_) => Err((0, Refused::Memory)),
    }
}

/// Creates the reply that brings a depfile with these bytes.
///
/// # Errors
/// `Memory`. A malformed depfile isn't an error here.
pub fn depfile(alloc: Global, bytes: &[u8]) -> Result<Reply, Refused> {
    let bytes = Vec::from_slice(alloc, bytes)?;
    match Parsed::of(alloc, bytes) {
        Ok(parsed) => Ok(Reply::Bytes(Depfile::new(alloc, parsed)?)),
        Err(_) => Err(Refused::Memory),
    }
}

/// The code of an edge that runs its command and reads its depfile.
pub const READS: [Instr; 8] = [
    Instr::Take,
    Instr::Text(0),
    Instr::Run,
    Instr::Release,
    Instr::Text(0),
    Instr::Deps,
    Instr::Drop,
    Instr::End,
];

/// Appends the events of an edge whose command ends with this status: 7 events if the status is 0, and 5 otherwise.
fn push_run(events: &mut Vec<Plain>, edge: u32, status: u8) -> Result<(), AllocError> {
    events.push(Plain::Start(edge))?;
    for _i in 0..3usize {
        events.push(Plain::Step(edge))?;
    }
    events.push(Plain::Exit(edge, status))?;
    if status == 0 {
        events.push(Plain::Step(edge))?;
        events.push(Plain::Step(edge))?;
    }
    Ok(())
}

/// Returns the events of a run of edges, one after another, and then the event `last`, if any. Each edge comes with the
/// status of its command.
///
/// # Errors
/// Out of memory.
pub fn run_of(
    alloc: Global,
    edges: &[(u32, u8)],
    last: Option<Plain>,
) -> Result<Vec<Plain>, AllocError> {
    let mut events = Vec::new(alloc);
    for (edge, status) in edges {
        push_run(&mut events, *edge, *status)?;
    }
    if let Some(event) = last {
        events.push(event)?;
    }
    Ok(events)
}
