//! Boards by hand: advances, answers, and what permits have observed.

ghost use Rattle.std.specs.Prelude.{ℕ};
ghost use Rattle.plan_machine.specs.declared.event.reply.Reply.{Reply as Answer};
ghost use Rattle.plan_verify.specs.Turn.{Request};

use crate::lanes::{Counted, edges_of, keeping_edge};
use plan_lanes::*;
use plan_machine::{Mark, Options, Refused, Reply};
use plan_text::Items;
use plan_verify::Verified;
use std::alloc::Global;
use std::test::*;

/// The kind of an advance. A job has its edge, the number of its question, and whether a permit came with it.
#[derive(Clone, Copy, PartialEq)]
enum Told {
    Moved,
    Job(u32, u64, bool),
    Wait,
    Ended,
}

/// Advances a board once. Returns the kind of the advance, and the question if it is a job.
fn advanced<W: World>(board: &mut Board<'_, W>) -> Result<(Told, Option<Question>), Refused> {
    match board.advance()? {
        Advance::Moved => Ok((Told::Moved, None)),
        Advance::Job(edge, question, permit) => {
            let leave = match permit {
                Some(permit) => {
                    permit.spend();
                    true
                }
                None => false,
            };
            let number = question.number;
            Ok((Told::Job(edge, number, leave), Some(question)))
        }
        Advance::Wait => Ok((Told::Wait, None)),
        Advance::Ended => Ok((Told::Ended, None)),
    }
}

/// Checks whether the next advances are of these kinds. Stops after the first one that differs.
fn tells<W: World>(board: &mut Board<'_, W>, expected: &[Told]) -> Result<bool, Refused> {
    for told in expected {
        let (next, _question) = advanced(board)?;
        if next != *told {
            return Ok(false);
        }
    }
    Ok(true)
}

/// Returns a question for the stamp of a path.
fn look(alloc: Global, number: u64, path: &[u8]) -> Result<Question, Refused> {
    Ok(Question {
        number,
        request: OwnedRequest::Stat(Items::new(Vec::from_slice(alloc, path)?)),
    })
}

/// Answers the question of an edge for the stamp of a path.
fn reply_to(
    alloc: Global,
    board: &mut Board<'_, Counted>,
    edge: u32,
    number: u64,
    path: &[u8],
    reply: Reply,
) -> Result<Mark, Refused> {
    let question = look(alloc, number, path)?;
    board.answer(edge, question, reply)
}

/// Opens a board for an image, with a limit of one job.
fn board_of(alloc: Global, image: &Verified) -> Result<Board<'_, Counted>, Refused> {
    match Options::new(1, 0) {
        Some(options) => Board::open(alloc, image, options, &[]),
        None => Err(Refused::Memory),
    }
}

/// Returns the results of six answers after edge 1 asked for a stamp under the number 1. The first four are for another
/// edge, under another number, for another path, and of a kind that doesn't fit. The fifth is right, and is repeated.
fn answers(alloc: Global, image: &Verified) -> Result<[Result<Mark, Refused>; 6], Refused> {
    let mut board = board_of(alloc, image)?;
    let _ = tells(&mut board, &[Told::Moved, Told::Job(1, 1, false)])?;
    let own = [1u8, 1];
    Ok([
        reply_to(alloc, &mut board, 0, 1, &own, Reply::Stamp(7)),
        reply_to(alloc, &mut board, 1, 0, &own, Reply::Stamp(7)),
        reply_to(alloc, &mut board, 1, 1, b"z", Reply::Stamp(7)),
        reply_to(alloc, &mut board, 1, 1, &own, Reply::Exit(0)),
        reply_to(alloc, &mut board, 1, 1, &own, Reply::Stamp(7)),
        reply_to(alloc, &mut board, 1, 1, &own, Reply::Stamp(7)),
    ])
}

/// Checks that a board refuses each answer that it doesn't wait for.
#[test]
fn only_what_is_awaited(rt: HostRuntime) {
    let Ok(image) = edges_of(rt.alloc(), 2, 0, 1) else {
        panic!(&rt; "no image");
    };
    let refused = Err(Refused::NotEnabled);
    assert!(rt;
        answers(rt.alloc(), &image)
            == Ok([
                refused,
                refused,
                refused,
                refused,
                Ok(Mark::Answered(1)),
                refused
            ])
    );
}

/// Runs one edge by hand, and checks whether each advance is of the expected kind.
fn goes_by_hand(alloc: Global, board: &mut Board<'_, Counted>) -> Result<bool, Refused> {
    let mut told = tells(board, &[Told::Moved, Told::Job(0, 1, false), Told::Wait])?;
    let _ = reply_to(alloc, board, 0, 1, &[1, 1], Reply::Stamp(7))?;
    told &= tells(board, &[Told::Moved, Told::Moved, Told::Moved])?;
    let (next, question) = advanced(board)?;
    told &= next == Told::Job(0, 6, true);
    if let Some(question) = question {
        told &= question.request.is_run();
        let _ = board.answer(0, question, Reply::Exit(0))?;
    }
    told &= tells(board, &[Told::Moved, Told::Moved, Told::Ended, Told::Ended])?;
    Ok(told)
}

/// Like `goes_by_hand`, but opens the board itself. Also returns whether the last mark says that the edge ran, the
/// number of events, and whether an event was enabled at first and at the end.
fn by_hand(alloc: Global, image: &Verified) -> Result<(bool, bool, usize, bool, bool), Refused> {
    let mut board = board_of(alloc, image)?;
    let first = board.can_advance();
    let told = goes_by_hand(alloc, &mut board)?;
    let last = board.can_advance();
    let report = board.into_report();
    let ran = report.marks.as_slice().last() == Some(&Mark::Ended(0, true));
    Ok((told, ran, report.journal.len(), first, last))
}

/// Checks that an edge that asks for one stamp and runs a command has ten events, and that no event is enabled after
/// them.
#[test]
fn one_edge_by_hand(rt: HostRuntime) {
    let Ok(image) = edges_of(rt.alloc(), 1, 0, 1) else {
        panic!(&rt; "no image");
    };
    assert!(rt; by_hand(rt.alloc(), &image) == Ok((true, true, 10, true, false)));
}

/// Returns the number of replies that the edge of a permit observed, and that of its slots. Returns None if the permit
/// has no observations.
fn seen_by(permit: &Permit) -> Option<(usize, usize)> {
    match permit.observed() {
        Some(observed) => Some((observed.replies.len(), observed.slots.len())),
        None => None,
    }
}

/// Advances a board, and returns what the edge of the permit that comes has observed.
fn seen_next<W: World>(board: &mut Board<'_, W>) -> Result<Option<(usize, usize)>, Refused> {
    match board.advance()? {
        Advance::Job(_edge, question, permit) => {
            drop(question);
            match permit {
                Some(permit) => {
                    let seen = seen_by(&permit);
                    permit.spend();
                    Ok(seen)
                }
                None => Ok(None),
            }
        }
        Advance::Moved => Ok(None),
        Advance::Wait => Ok(None),
        Advance::Ended => Ok(None),
    }
}

/// Runs an edge that asks for one stamp and then runs its command, in a world that allows all replies. Returns how much
/// the edge has observed. Returns None if the world doesn't observe edges.
fn seen_in<W: World>(alloc: Global, image: &Verified) -> Result<Option<(usize, usize)>, Refused>
    requires { (number : ℕ) (request : Request) (reply : Answer) → W.allows number request reply }
{
    let Some(options) = Options::new(1, 0) else {
        return Err(Refused::Memory);
    };
    let mut board: Board<'_, W> = Board::open(alloc, image, options, &[])?;
    let _ = tells(&mut board, &[Told::Moved, Told::Job(0, 1, false)])?;
    let question = look(alloc, 1, &[1, 1])?;
    let _ = board.answer(0, question, Reply::Stamp(7))?;
    let _ = tells(&mut board, &[Told::Moved, Told::Moved, Told::Moved])?;
    seen_next(&mut board)
}

/// Checks that a permit has the observations of its edge if and only if the world observes edges.
#[test]
fn permit_has_observations(rt: HostRuntime) {
    let Ok(image) = edges_of(rt.alloc(), 1, 0, 1) else {
        panic!(&rt; "no image");
    };
    let observed = seen_in::<Observing<'_, Counted>>(rt.alloc(), &image);
    let unobserved = seen_in::<Counted>(rt.alloc(), &image);
    assert!(rt; (observed, unobserved) == (Ok(Some((1, 0))), Ok(None)));
}

/// Advances a board until its edge asks, and returns the question and the permit.
fn asked_first<W: World>(
    board: &mut Board<'_, W>,
) -> Result<Option<(Question, Option<Permit>)>, Refused> {
    for _ in 0..8 {
        match board.advance()? {
            Advance::Job(_edge, question, permit) => return Ok(Some((question, permit))),
            Advance::Moved => {}
            Advance::Wait | Advance::Ended => return Ok(None),
        }
    }
    Ok(None)
}

/// Checks whether the permit of an edge that only runs its command has this command.
fn permits(alloc: Global, command: &[u8]) -> Result<bool, Refused> {
    let image = edges_of(alloc, 1, 0, 0)?;
    let mut board = board_of(alloc, &image)?;
    let Some((question, permit)) = asked_first(&mut board)? else {
        return Ok(false);
    };
    drop(question);
    let Some(permit) = permit else {
        return Ok(false);
    };
    let is_same = permit.command() == command;
    let spent = permit.into_command();
    Ok(is_same && spent.as_slice() == command)
}

/// Checks that a permit has the command of its edge.
#[test]
fn permit_has_its_command(rt: HostRuntime) {
    assert!(rt; permits(rt.alloc(), b"x") == Ok(true));
    assert!(rt; permits(rt.alloc(), b"y") == Ok(false));
}

/// Returns the order to keep an entry, if a question asks for that.
fn order_in(question: Question) -> Option<KeepOrder> {
    let Question { request, .. } = question;
    match request {
        OwnedRequest::Keep(order) => Some(order),
        _ => None,
    }
}

/// Returns the order of an edge that keeps an entry.
pub(crate) fn order_to_keep<W: World>(alloc: Global) -> Result<Option<KeepOrder>, Refused> {
    let image = keeping_edge(alloc)?;
    let Some(options) = Options::new(1, 0) else {
        return Ok(None);
    };
    let mut board: Board<'_, W> = Board::open(alloc, &image, options, &[])?;
    let Some((question, permit)) = asked_first(&mut board)? else {
        return Ok(None);
    };
    if let Some(permit) = permit {
        permit.spend();
    }
    Ok(order_in(question))
}

/// Checks that the order of an edge that keeps an entry has the output, the command, the basis and the paths of this
/// entry.
#[test]
fn order_to_keep_an_entry(rt: HostRuntime) {
    let Ok(Some(order)) = order_to_keep::<Counted>(rt.alloc()) else {
        panic!(&rt; "no order");
    };
    assert_eq!(rt; order.output(), [1u8, 1].as_slice());
    assert_eq!(rt; order.command(), b"x".as_slice());
    assert_eq!(rt; order.basis(), 0);
    assert_eq!(rt; order.paths().len(), 0);
}
