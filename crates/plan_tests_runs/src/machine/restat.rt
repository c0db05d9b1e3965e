//! Runs the chain of the worked example `restat_chain` by the questions that its edges ask.

ghost use Rattle.plan_machine.specs.Kept.{IsStateOf};

use plan_image::{Edge, EdgeCode, Edges, Image, Instr, Kind, Parts, Slot, Sort};
use plan_machine::*;
use plan_text::{Items, RowList};
use plan_verify::{Verified, verify};
use std::alloc::{AllocError, Global};

/// The code of an edge that runs its command, and keeps the stamp of its output for the other edge.
const FIRST: [Instr; 7] = [
    Instr::Take,
    Instr::Text(0),
    Instr::Run,
    Instr::Release,
    Instr::Stat(0),
    Instr::Store(0),
    Instr::End,
];

/// The code of an edge that runs its command if its output is older than the output of the first edge, or as old.
const SECOND: [Instr; 9] = [
    Instr::Load(0),
    Instr::Stat(1),
    Instr::Before,
    Instr::JumpIf(8),
    Instr::Take,
    Instr::Text(0),
    Instr::Run,
    Instr::Release,
    Instr::End,
];

/// Returns an edge of a command without a pool. `number` is its rank and its only output.
fn edge(alloc: Global, number: u32, waits: &[u32], code: &[Instr]) -> Result<Edge, AllocError> {
    Ok(Edge {
        sort: Sort::Command,
        pool: None,
        rank: number,
        label: 0,
        outputs: Items::new(Vec::from_slice(alloc, [number].as_slice())?),
        waits: Items::new(Vec::from_slice(alloc, waits)?),
        code: EdgeCode::Own(Items::new(Vec::from_slice(alloc, code)?)),
    })
}

/// Returns the two edges.
fn edges_of_chain(alloc: Global) -> Result<Edges, AllocError> {
    let mut edges = Edges::new(alloc);
    edges.push(alloc, &edge(alloc, 0, &[], &FIRST)?)?;
    edges.push(alloc, &edge(alloc, 1, &[0], &SECOND)?)?;
    Ok(edges)
}

/// Returns the tables of the chain: the text `x`, the files `a` and `b`, and a slot of the first edge.
fn tables(alloc: Global) -> Result<Parts, AllocError> {
    let mut texts = RowList::new(alloc);
    texts.push(b"x")?;
    let mut files = RowList::new(alloc);
    files.push(b"a")?;
    files.push(b"b")?;
    let slot = Slot {
        owner: 0,
        kind: Kind::Stamp,
    };
    Ok(Parts {
        texts,
        files,
        pools: Items::empty(alloc),
        slots: Items::new(Vec::from_slice(alloc, [slot].as_slice())?),
        bodies: None,
        edges: edges_of_chain(alloc)?,
        defaults: Items::new(Vec::from_slice(alloc, [1u32].as_slice())?),
    })
}

/// Returns the image of the chain. None if it isn't accepted, or memory runs out.
fn chain(alloc: Global) -> Option<Verified> {
    let Ok(parts) = tables(alloc) else {
        return None;
    };
    let Ok(image) = Image::new(parts) else {
        return None;
    };
    match verify(alloc, image) {
        Ok(verified) => Some(verified),
        Err(_) => None,
    }
}

/// Returns the reply to a question of the chain: the command `x` succeeds, `a` has the stamp 5, and `b` has the stamp
/// 7. None if it is another question.
fn reply_to(request: &Request<'_>) -> Option<Reply> {
    match request {
        Request::Run(command, outputs) => {
            if (*command == b"x".as_slice()) & (outputs.len() == 1) {
                Some(Reply::Exit(0))
            } else {
                None
            }
        }
        Request::Stat(path) => {
            if *path == b"a".as_slice() {
                Some(Reply::Stamp(5))
            } else if *path == b"b".as_slice() {
                Some(Reply::Stamp(7))
            } else {
                None
            }
        }
        _ => None,
    }
}

/// Returns the event that is picked, or else a reply to the first edge that asks. None if nothing can happen, or an
/// edge asks another question.
fn next(state: &State, image: &Verified) -> Option<Event>
    requires { IsStateOf image.now state.now }
{
    if let Some(event) = state.pick(image) {
        return Some(event);
    }
    for edge in 0..2u32 {
        if let Some(request) = state.request(image, edge) {
            return Some(Event::Reply(edge, reply_to(&request)?));
        }
    }
    None
}

/// Applies events as long as there is one, but at most 40, and returns their marks.
///
/// # Errors
/// Those of `apply`, and `Memory`.
fn marks_of(alloc: Global, image: &Verified, state: &mut State) -> Result<Vec<Mark>, Refused>
    requires { IsStateOf image.now state.old }
{
    let mut marks = Vec::new(alloc);
    for _i in 0..40usize {
        match next(state, image) {
            Some(event) => marks.push(state.apply(image, event)?)?,
            None => return Ok(marks),
        }
    }
    Ok(marks)
}

/// Runs the chain with one job until one failure. Returns whether the second edge can start at once, the marks, and
/// whether the run has ended.
///
/// # Errors
/// Those of `State::open` and `marks_of`.
fn ran(alloc: Global, image: &Verified) -> Result<(bool, Vec<Mark>, bool), Refused> {
    let Some(options) = Options::new(1, 1) else {
        return Err(Refused::Memory);
    };
    let mut state = State::open(alloc, image, options, &[])?;
    let early = state.apply(image, Event::Start(1)).is_ok();
    let marks = marks_of(alloc, image, &mut state)?;
    Ok((early, marks, state.ended()))
}

/// The first edge runs its command, and its output keeps an old stamp. So the second edge, whose output is newer, runs
/// no command. The marks are those that the checker computes for `restat_chain`.
#[test]
fn restat_chain(rt: HostRuntime) {
    let Some(image) = chain(rt.alloc()) else {
        panic!(&rt; "no image");
    };
    let Ok((early, marks, ended)) = ran(rt.alloc(), &image) else {
        panic!(&rt; "refused");
    };
    let wanted = [
        Mark::Started(0),
        Mark::Took(0),
        Mark::Moved(0),
        Mark::Asked(0),
        Mark::Answered(0),
        Mark::Released(0),
        Mark::Asked(0),
        Mark::Answered(0),
        Mark::Moved(0),
        Mark::Ended(0, true),
        Mark::Started(1),
        Mark::Moved(1),
        Mark::Asked(1),
        Mark::Answered(1),
        Mark::Moved(1),
        Mark::Moved(1),
        Mark::Ended(1, false),
    ];
    assert!(rt; !early & ended);
    assert!(rt; marks.as_slice() == wanted.as_slice());
}
