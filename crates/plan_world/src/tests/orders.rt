//! Permits and orders to keep entries, from boards of images that have one edge.

use super::*;
use plan_image::{Edge, EdgeCode, Edges, Image, Instr, Parts, Pool, Sort};
use plan_lanes::{Advance, Board, KeepOrder, OwnedRequest, Permit, Question};
use plan_machine::{Options, Refused};
use plan_text::Items;
use plan_verify::{Verified, Words, verify};

/// Code that runs a command.
const RUNS: [Instr; 5] = [
    Instr::Take,
    Instr::Text(0),
    Instr::Run,
    Instr::Release,
    Instr::End,
];

/// Code that keeps an entry. Its command is a text, its basis is the greatest of the stamps that it asks for, and its
/// paths are those of the entry that it recalls.
const KEEPS: [Instr; 12] = [
    Instr::Text(0),
    Instr::Stat(0),
    Instr::Flag(false),
    Instr::Recall,
    Instr::Drop,
    Instr::Drop,
    Instr::Drop,
    Instr::Sweep,
    Instr::Swap,
    Instr::Drop,
    Instr::Keep,
    Instr::End,
];

/// A world that allows each reply. Only its boards are used.
#[derive(Drop)]
struct Allowing;

impl World for Allowing {
    ghost use Rattle.std.specs.Prelude.{⊤};

    ghost allows = { λ number request reply. ⊤ };

    fn keeps_journal() -> bool {
        false
    }

    fn observes() -> bool {
        false
    }

    fn stat(&self, _number: u64, _path: &[u8]) -> Result<Reply, AllocError> {
        Ok(Reply::Fault)
    }

    fn recall(&self, _number: u64, _output: &[u8]) -> Result<Reply, AllocError> {
        Ok(Reply::Fault)
    }

    fn run(
        &self,
        _number: u64,
        _outputs: &RowList<u8>,
        permit: Permit,
    ) -> Result<Reply, AllocError> {
        permit.spend();
        Ok(Reply::NotStarted)
    }

    fn read_depfile(&self, _number: u64, _path: &[u8]) -> Result<Reply, AllocError> {
        Ok(Reply::Fault)
    }

    fn keep(&self, _number: u64, _order: &KeepOrder) -> Result<Reply, AllocError> {
        Ok(Reply::Fault)
    }
}

/// Returns the tables of one edge with this code, in the pool `console` or in no pool. It makes `output`, and its only
/// text is `command`.
fn parts_of(
    alloc: Global,
    output: &[u8],
    command: &[u8],
    console: bool,
    code: &[Instr],
) -> Result<Parts, AllocError> {
    let mut texts = RowList::new(alloc);
    texts.push(command)?;
    let mut files = RowList::new(alloc);
    files.push(output)?;
    let mut pools = Vec::new(alloc);
    pools.push(Pool {
        name: Items::new(Vec::from_slice(alloc, b"console")?),
        depth: 1,
    })?;
    let edge = Edge {
        sort: Sort::Command,
        pool: if console { Some(0) } else { None },
        rank: 0,
        label: 0,
        outputs: Items::new(Vec::from_slice(alloc, &[0])?),
        waits: Items::empty(alloc),
        code: EdgeCode::Own(Items::new(Vec::from_slice(alloc, code)?)),
    };
    let mut edges = Edges::new(alloc);
    edges.push(alloc, &edge)?;
    Ok(Parts {
        texts,
        files,
        pools: Items::new(pools),
        slots: Items::empty(alloc),
        bodies: None,
        edges,
        defaults: Items::new(Vec::from_slice(alloc, &[0])?),
    })
}

/// Returns the verified image of these tables.
fn verified(alloc: Global, parts: Parts) -> Result<Verified, Refused> {
    let image = match Image::new(parts) {
        Ok(image) => image,
        Err((parts, _)) => {
            drop(parts);
            return Err(Refused::BadTarget);
        }
    };
    match verify(alloc, image) {
        Ok(verified) => Ok(verified),
        Err((image, _)) => {
            drop(image);
            Err(Refused::BadTarget)
        }
    }
}

/// Opens a board for an image.
fn board_of(alloc: Global, image: &Verified) -> Result<Board<'_, Allowing>, Refused> {
    match Options::new(1, 0) {
        Some(options) => Board::open(alloc, image, options, &[]),
        None => Err(Refused::Memory),
    }
}

/// Advances a board until its edge gets a permit.
fn first_permit(board: &mut Board<'_, Allowing>) -> Result<Option<Permit>, Refused> {
    for _ in 0..RUNS.len() {
        match board.advance()? {
            Advance::Job(_edge, question, permit) => {
                drop(question);
                return Ok(permit);
            }
            Advance::Moved => {}
            Advance::Wait | Advance::Ended => return Ok(None),
        }
    }
    Ok(None)
}

/// Returns the permit for a command.
fn permitted(alloc: Global, command: &[u8], console: bool) -> Result<Option<Permit>, Refused> {
    let image = verified(
        alloc,
        parts_of(alloc, b"out", command, console, RUNS.as_slice())?,
    )?;
    let mut board = board_of(alloc, &image)?;
    first_permit(&mut board)
}

/// Returns the permit for a command. `console` says whether its edge is a console edge.
pub(crate) fn permit_of(alloc: Global, command: &[u8], console: bool) -> Result<Permit, Fail> {
    match permitted(alloc, command, console) {
        Ok(Some(permit)) => Ok(permit),
        Ok(None) | Err(_) => Err(Fail::from(AllocError)),
    }
}

/// Returns the reply to a request: this stamp, or an entry with these paths.
fn reply_to(
    alloc: Global,
    request: &OwnedRequest,
    stamp: u64,
    paths: &PathList,
) -> Result<Reply, AllocError> {
    match request {
        OwnedRequest::Recall(_output) => {
            let command = Words::of(alloc, b"")?;
            Ok(Reply::Entry(Recorded::new(alloc, command, 0, paths.copy()?)?))
        }
        _ => Ok(Reply::Stamp(stamp)),
    }
}

/// Returns the order if a request is one to keep an entry, and otherwise the request.
fn order_in(request: OwnedRequest) -> Result<KeepOrder, OwnedRequest> {
    match request {
        OwnedRequest::Keep(order) => Ok(order),
        other => Err(other),
    }
}

/// Advances a board until its edge asks to keep an entry. Each stamp that it asks for is `stamp`, and the entry that it
/// recalls has these paths.
fn first_order(
    alloc: Global,
    board: &mut Board<'_, Allowing>,
    stamp: u64,
    paths: &PathList,
) -> Result<Option<KeepOrder>, Refused> {
    for _ in 0..1_000_000 {
        let (edge, question) = match board.advance()? {
            Advance::Job(edge, question, permit) => {
                if let Some(permit) = permit {
                    permit.spend();
                }
                (edge, question)
            }
            Advance::Moved => continue,
            Advance::Wait | Advance::Ended => return Ok(None),
        };
        let Question { number, request } = question;
        let request = match order_in(request) {
            Ok(order) => return Ok(Some(order)),
            Err(request) => request,
        };
        let reply = reply_to(alloc, &request, stamp, paths)?;
        board.answer(edge, Question { number, request }, reply)?;
    }
    Ok(None)
}

/// Returns the order to keep this entry.
fn ordered(
    alloc: Global,
    output: &[u8],
    command: &[u8],
    basis: u64,
    paths: &PathList,
) -> Result<Option<KeepOrder>, Refused> {
    let image = verified(
        alloc,
        parts_of(alloc, output, command, false, KEEPS.as_slice())?,
    )?;
    let mut board = board_of(alloc, &image)?;
    first_order(alloc, &mut board, basis, paths)
}

/// Returns the order to keep this entry.
pub(crate) fn order_of(
    alloc: Global,
    output: &[u8],
    command: &[u8],
    basis: u64,
    paths: &PathList,
) -> Result<KeepOrder, Fail> {
    match ordered(alloc, output, command, basis, paths) {
        Ok(Some(order)) => Ok(order),
        Ok(None) | Err(_) => Err(Fail::from(AllocError)),
    }
}
