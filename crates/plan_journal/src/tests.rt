//! A journal of an event of each sort.

use crate::{JournalBuilder, Keeping, KeptJournal};
use plan_machine::{Event, Reply};
use std::alloc::{AllocError, Global};
use std::test::Fail;

/// What an event says.
#[derive(Clone, Copy, PartialEq, Eq)]
enum Said {
    Start(u32),
    Skip(u32, u32),
    Stop(u32),
    Step(u32),
    Stamp(u32, u64),
    Exit(u32, u8),
    Other(u32),
}

/// The events that are put into the journal.
const ALL: [Said; 8] = [
    Said::Start(0),
    Said::Step(0),
    Said::Stamp(0, 7),
    Said::Exit(1, 3),
    Said::Skip(2, 1),
    Said::Stop(3),
    Said::Stamp(4, 9),
    Said::Other(5),
];

/// Returns the event that says so.
fn event(said: Said) -> Event {
    match said {
        Said::Start(edge) => Event::Start(edge),
        Said::Skip(edge, wait) => Event::Skip(edge, wait),
        Said::Stop(edge) => Event::Stop(edge),
        Said::Step(edge) => Event::Step(edge),
        Said::Stamp(edge, stamp) => Event::Reply(edge, Reply::Stamp(stamp)),
        Said::Exit(edge, status) => Event::Reply(edge, Reply::Exit(status)),
        Said::Other(edge) => Event::Reply(edge, Reply::Nothing),
    }
}

/// Returns what an event says.
fn said_by(event: &Event) -> Said {
    match event {
        Event::Start(edge) => Said::Start(*edge),
        Event::Skip(edge, wait) => Said::Skip(*edge, *wait),
        Event::Stop(edge) => Said::Stop(*edge),
        Event::Step(edge) => Said::Step(*edge),
        Event::Reply(edge, Reply::Stamp(stamp)) => Said::Stamp(*edge, *stamp),
        Event::Reply(edge, Reply::Exit(status)) => Said::Exit(*edge, *status),
        Event::Reply(edge, _) => Said::Other(*edge),
    }
}

/// Journals of these tests are kept.
enum Kept {}

impl Keeping for Kept {
    ghost use Rattle.std.specs.Prelude.{false, true};

    ghost keeps = { true };

    fn keeps() -> bool {
        true
    }

    ghost observes = { false };

    fn observes() -> bool {
        false
    }
}

/// Events of these tests are only counted.
enum Counted {}

impl Keeping for Counted {
    ghost use Rattle.std.specs.Prelude.{false};

    ghost keeps = { false };

    fn keeps() -> bool {
        false
    }

    ghost observes = { false };

    fn observes() -> bool {
        false
    }
}

/// Events of these tests are only counted, but the replies of each edge are kept.
enum Observed {}

impl Keeping for Observed {
    ghost use Rattle.std.specs.Prelude.{false, true};

    ghost keeps = { false };

    fn keeps() -> bool {
        false
    }

    ghost observes = { true };

    fn observes() -> bool {
        true
    }
}

/// Returns a journal of all of them.
fn full<K: Keeping>(alloc: Global) -> Result<JournalBuilder<K>, AllocError> {
    let mut builder = JournalBuilder::new(alloc);
    for said in ALL {
        builder.push(&event(said))?;
    }
    Ok(builder)
}

/// Returns what the events of a kept journal say. Fails if it isn't kept.
fn read_kept(alloc: Global, builder: JournalBuilder<Kept>) -> Result<Vec<Said>, Fail> {
    let (journal, kept) = builder.finish();
    match kept {
        Some(kept) if kept.len() == journal.len() => Ok(read(alloc, &kept)?),
        _ => Err(Fail::new("the journal isn't kept")),
    }
}

/// Returns what the events of a journal say, read from the first on.
fn read(alloc: Global, journal: &KeptJournal) -> Result<Vec<Said>, AllocError> {
    let mut all = Vec::new(alloc);
    let mut rest = journal.events();
    for _ in 0..journal.len() {
        match rest.split_first() {
            Some((event, behind)) => {
                all.push(said_by(event.event()))?;
                rest = behind;
            }
            None => return Ok(all),
        }
    }
    Ok(all)
}

#[test]
fn events_come_back(rt: HostRuntime) -> Result<(), Fail> {
    let builder: JournalBuilder<Kept> = full(rt.alloc())?;
    assert_eq!(rt; builder.len(), 8);
    assert!(rt; read_kept(rt.alloc(), builder)?.as_slice() == ALL.as_slice());
    Ok(())
}

#[test]
fn steps_come_together(rt: HostRuntime) -> Result<(), Fail> {
    let mut builder: JournalBuilder<Kept> = JournalBuilder::new(rt.alloc());
    builder.push(&event(Said::Stamp(7, 3)))?;
    builder.reserve(3)?;
    builder.push_steps(7, 3);
    let said = [
        Said::Stamp(7, 3),
        Said::Step(7),
        Said::Step(7),
        Said::Step(7),
    ];
    assert!(rt; read_kept(rt.alloc(), builder)?.as_slice() == said.as_slice());
    Ok(())
}

#[test]
fn replies_come_back(rt: HostRuntime) -> Result<(), Fail> {
    let mut builder: JournalBuilder<Kept> = JournalBuilder::new(rt.alloc());
    builder.push_heard(4, &Reply::Stamp(9))?;
    builder.push_heard(5, &Reply::Exit(3))?;
    let said = [Said::Stamp(4, 9), Said::Exit(5, 3)];
    assert!(rt; read_kept(rt.alloc(), builder)?.as_slice() == said.as_slice());
    Ok(())
}

#[test]
fn stamps_of_a_row_come_with_their_steps(rt: HostRuntime) -> Result<(), Fail> {
    let mut builder: JournalBuilder<Kept> = JournalBuilder::new(rt.alloc());
    builder.push(&event(Said::Start(7)))?;
    builder.reserve_row(2)?;
    builder.push_row(7, &[3, 0]);
    let said = [
        Said::Start(7),
        Said::Stamp(7, 3),
        Said::Step(7),
        Said::Stamp(7, 0),
        Said::Step(7),
    ];
    assert!(rt; read_kept(rt.alloc(), builder)?.as_slice() == said.as_slice());
    Ok(())
}

#[test]
fn the_last_ones_leave(rt: HostRuntime) -> Result<(), Fail> {
    for left in 0..8 {
        let mut builder: JournalBuilder<Kept> = full(rt.alloc())?;
        for _ in left..8 {
            builder.remove_last();
        }
        assert_eq!(rt; builder.len(), left);
        assert!(rt; read_kept(rt.alloc(), builder)?.as_slice() == &ALL[..left]);
    }
    Ok(())
}

#[test]
fn nothing_is_left(rt: HostRuntime) -> Result<(), Fail> {
    let mut builder: JournalBuilder<Kept> = JournalBuilder::new(rt.alloc());
    builder.remove_last();
    assert_eq!(rt; builder.len(), 0);
    Ok(())
}

#[test]
fn another_takes_its_place(rt: HostRuntime) -> Result<(), Fail> {
    let mut builder: JournalBuilder<Kept> = full(rt.alloc())?;
    builder.remove_last();
    builder.remove_last();
    builder.push(&event(Said::Stamp(6, 11)))?;
    let all = read_kept(rt.alloc(), builder)?;
    assert!(rt; all.last() == Some(&Said::Stamp(6, 11)));
    assert_eq!(rt; all.len(), 7);
    Ok(())
}

#[test]
fn events_are_counted(rt: HostRuntime) -> Result<(), Fail> {
    let mut builder: JournalBuilder<Counted> = full(rt.alloc())?;
    builder.reserve(3)?;
    builder.push_steps(7, 3);
    builder.reserve_row(2)?;
    builder.push_row(7, &[3, 0]);
    builder.push_heard(5, &Reply::Exit(3))?;
    assert_eq!(rt; builder.len(), 16);
    builder.remove_last();
    let (journal, kept) = builder.finish();
    assert_eq!(rt; journal.len(), 15);
    assert!(rt; kept.is_none());
    Ok(())
}

#[test]
fn no_more_are_counted_than_a_number_holds(rt: HostRuntime) -> Result<(), Fail> {
    let mut builder: JournalBuilder<Counted> = full(rt.alloc())?;
    assert!(rt; builder.reserve(usize::MAX - 8).is_ok());
    assert!(rt; builder.reserve(usize::MAX - 7).is_err());
    assert!(rt; builder.reserve_row(usize::MAX / 2).is_err());
    assert_eq!(rt; builder.len(), 8);
    Ok(())
}

/// Returns the number of replies to an edge, and the stamp that the first one brings. Returns None if they aren't kept.
fn replies_of<K: Keeping>(
    builder: &JournalBuilder<K>,
    edge: u32,
) -> Result<Option<(usize, Option<u64>)>, AllocError> {
    match builder.replies_to(edge)? {
        Some(replies) => {
            let stamp = match replies.as_slice().first() {
                Some(Reply::Stamp(stamp)) => Some(*stamp),
                _ => None,
            };
            Ok(Some((replies.len(), stamp)))
        }
        None => Ok(None),
    }
}

/// Returns what `replies_of` returns for three edges.
fn replies_of_all<K: Keeping>(
    builder: &JournalBuilder<K>,
    edges: [u32; 3],
) -> Result<[Option<(usize, Option<u64>)>; 3], AllocError> {
    let [first, second, third] = edges;
    let first = replies_of(builder, first)?;
    let second = replies_of(builder, second)?;
    let third = replies_of(builder, third)?;
    Ok([first, second, third])
}

#[test]
fn replies_come_by_edge(rt: HostRuntime) -> Result<(), Fail> {
    let builder: JournalBuilder<Observed> = full(rt.alloc())?;
    assert_eq!(rt;
        replies_of_all(&builder, [0, 1, 2])?,
        [Some((1, Some(7))), Some((1, None)), Some((0, None))]
    );
    assert_eq!(rt;
        replies_of_all(&builder, [4, 5, 99])?,
        [Some((1, Some(9))), Some((1, None)), Some((0, None))]
    );
    Ok(())
}

/// Stamps of a row come before a reply that is pushed later.
#[test]
fn replies_of_a_row_come_by_edge(rt: HostRuntime) -> Result<(), Fail> {
    let mut builder: JournalBuilder<Observed> = JournalBuilder::new(rt.alloc());
    builder.reserve_row(2)?;
    builder.push_row(3, &[8, 9]);
    builder.push_heard(3, &Reply::Exit(0))?;
    assert_eq!(rt;
        replies_of_all(&builder, [2, 3, 4])?,
        [Some((0, None)), Some((3, Some(8))), Some((0, None))]
    );
    Ok(())
}

/// Replies aren't known when an event was removed.
#[test]
fn no_replies_after_a_removal(rt: HostRuntime) -> Result<(), Fail> {
    let mut builder: JournalBuilder<Observed> = full(rt.alloc())?;
    builder.remove_last();
    assert!(rt; builder.replies_to(0).is_err());
    Ok(())
}

#[test]
fn journal_has_no_replies_unasked(rt: HostRuntime) -> Result<(), Fail> {
    let counted: JournalBuilder<Counted> = full(rt.alloc())?;
    let kept: JournalBuilder<Kept> = full(rt.alloc())?;
    assert_eq!(rt;
        (replies_of(&counted, 0)?, replies_of(&kept, 0)?),
        (None, None)
    );
    Ok(())
}
