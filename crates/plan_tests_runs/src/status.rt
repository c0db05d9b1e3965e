//! Tests the status lines and outcomes of an image made by hand.

ghost use Rattle.plan_status.specs.Live.{AreEnds, IsFed, IsUnused};

use plan_image::{Edge, EdgeCode, Edges, Image, Instr, Parts, Pool, Sort};
use plan_machine::{Cause, Event, Mark, Options, State, replay};
use plan_status::*;
use plan_text::{Counted, Items, RowList, Sink};
use plan_verify::{Verified, verify};
use std::alloc::{AllocError, Global};
use std::io::{self, Write};
use std::rt::Clock;
use std::sync::Wait;
use std::sync::atomic::{AtomicBool, Ordering};
use std::test::Fail;
use std::thread;
use std::thread::{Threads, join};
use std::time::Duration;

/// Returns an edge that ends at once. `number` is its rank and its only output. Edge 0 is a console edge.
fn edge(
    alloc: Global,
    sort: Sort,
    number: u32,
    label: u32,
    waits: &[u32],
) -> Result<Edge, AllocError> {
    Ok(Edge {
        sort,
        pool: if number == 0 { Some(0) } else { None },
        rank: number,
        label,
        outputs: Items::new(Vec::from_slice(alloc, [number].as_slice())?),
        waits: Items::new(Vec::from_slice(alloc, waits)?),
        code: EdgeCode::Own(Items::new(Vec::from_slice(alloc, [Instr::End].as_slice())?)),
    })
}

/// Returns the command edges a, b, c and d, and the phony edge e. Edge d waits for a.
fn five_edges(alloc: Global) -> Result<Edges, AllocError> {
    let mut edges = Edges::new(alloc);
    for (number, sort, label) in [
        (0, Sort::Command, 0),
        (1, Sort::Command, 1),
        (2, Sort::Command, 1),
        (3, Sort::Command, 1),
        (4, Sort::Phony, 1),
    ] {
        let waits: &[u32] = if number == 3 { &[0] } else { &[] };
        edges.push(alloc, &edge(alloc, sort, number, label, waits)?)?;
    }
    Ok(edges)
}

/// Returns a list whose only pool is `console`.
fn console(alloc: Global) -> Result<Items<Pool>, AllocError> {
    let name = Items::new(Vec::from_slice(alloc, b"console".as_slice())?);
    let mut pools = Vec::new(alloc);
    pools.push(Pool { name, depth: 1 })?;
    Ok(Items::new(pools))
}

fn parts_of(alloc: Global) -> Result<Parts, AllocError> {
    let mut texts = RowList::new(alloc);
    texts.push(b"exit 2")?;
    texts.push(b"true")?;
    let mut files = RowList::new(alloc);
    for name in [b"a", b"b", b"c", b"d", b"e"] {
        files.push(name.as_slice())?;
    }
    Ok(Parts {
        texts,
        files,
        pools: console(alloc)?,
        slots: Items::empty(alloc),
        bodies: None,
        edges: five_edges(alloc)?,
        defaults: Items::new(Vec::from_slice(alloc, [0u32, 3].as_slice())?),
    })
}

fn image_of(alloc: Global) -> Option<Verified> {
    let Ok(parts) = parts_of(alloc) else {
        return None;
    };
    let Ok(image) = Image::new(parts) else {
        return None;
    };
    match verify(alloc, image) {
        Ok(verified) => Some(verified),
        Err(_) => None,
    }
}

/// Checks whether `status_lines` returns `text` for these marks, and `print` writes it.
fn tell(alloc: Global, marks: &[Mark], text: &[u8]) -> bool {
    let Some(image) = image_of(alloc) else {
        return false;
    };
    let mut out = Counted::new(Vec::new(alloc));
    let printed = print(alloc, &image, 4, marks, &mut out).is_ok();
    match status_lines(alloc, &image, 4, marks) {
        Ok(lines) => printed && lines.as_slice() == text && out.into_writer().as_slice() == text,
        Err(_) => false,
    }
}

/// Shows the marks, prints those that are in the ring, shows the marks again and settles. Returns whether all lines
/// were written.
fn settled<W: Sink>(image: &Verified, marks: &[Mark], ends: (Feed, Tap), out: &mut W) -> bool
    requires ends { AreEnds ends.0 ends.1 }
    requires unused { IsUnused ends.0 }
{
    marks_may_come();
    ends_stay();
    let (mut feed, mut tap) = ends;
    let mut format = StatusLines::new();
    feed.show(marks);
    tap.print(image, 4, &mut format, out);
    feed.show(marks);
    tap.settle(feed, image, 4, marks, &mut format, out).is_ok()
}

/// Rings for 0, 1, 2 and 256 marks give the same text.
#[test]
fn lines_through_a_ring(rt: HostRuntime) {
    let alloc = rt.alloc();
    let Some(image) = image_of(alloc) else {
        panic!(&rt; "no image");
    };
    let marks = [
        Mark::Started(0),
        Mark::Failed(0, Cause::Exit(2)),
        Mark::Ended(1, true),
        Mark::Ended(2, true),
        Mark::Skipped(3, 0),
    ];
    for room in [0usize, 1, 2, 256] {
        let Ok(ends) = live(alloc, room) else {
            panic!(&rt; "no ring");
        };
        let mut out = Counted::new(Vec::new(alloc));
        assert!(rt; settled(&image, &marks, ends, &mut out));
        assert_eq!(rt;
            out.into_writer().as_slice(),
            b"FAILED a: exit 2\n[2/4] true\n[3/4] true\nSKIPPED d: needs a\n".as_slice()
        );
    }
}

/// Puts marks into a ring, and looks for room again after a millisecond, for some seconds. Then sets the flag that no
/// more marks come. Returns the feed.
fn show_all<C: Clock>(clock: &C, feed: Feed, marks: &[Mark], is_over: &AtomicBool) -> Feed
    requires { IsFed marks.now feed }
{
    let mut feed = feed;
    for _ in 0..5_000u32 {
        feed.show(marks);
        if feed.shown() == marks.len() {
            break;
        }
        thread::sleep(clock, Duration::from_millis(1));
    }
    is_over.store(true, Ordering::SeqCst);
    feed
}

/// Prints marks as they come. Looks once more after the flag says that no more come. Returns the tap and the text.
fn print_all<C: Clock>(
    clock: &C,
    alloc: Global,
    image: &Verified,
    tap: Tap,
    is_over: &AtomicBool,
) -> (Tap, Vec<u8>) {
    let (mut tap, mut format) = (tap, StatusLines::new());
    let mut out = Counted::new(Vec::new(alloc));
    for _ in 0..10_000u32 {
        let last = is_over.load(Ordering::SeqCst);
        tap.print(image, 4, &mut format, &mut out);
        if last {
            break;
        }
        thread::sleep(clock, Duration::from_millis(1));
    }
    (tap, out.into_writer())
}

/// Shows marks through a ring of one while another thread prints them. Returns the number of marks that were put in,
/// and the text that the thread has printed. None if memory runs out.
fn printed_beside<R: Threads + Wait + Sync, C: Clock + Sync>(
    rt: &R,
    clock: &C,
    alloc: Global,
    image: &Verified,
    marks: &[Mark],
) -> Option<(usize, Vec<u8>)> {
    let Ok((feed, tap)) = live(alloc, 1) else {
        return None;
    };
    let is_over = AtomicBool::new(false);
    let ((tap, text), feed) = join(
        rt,
        || print_all(clock, alloc, image, tap, &is_over),
        || show_all(clock, feed, marks, &is_over),
    );
    drop(tap);
    Some((feed.shown(), text))
}

/// All lines go through a ring with room for one mark, since another thread makes room. None is left to settle.
#[test]
fn ring_of_one_and_another_thread(rt: HostRuntime) -> Result<(), Fail> {
    let Some(image) = image_of(rt.alloc()) else {
        panic!(&rt; "no image");
    };
    let marks = [
        Mark::Started(0),
        Mark::Failed(0, Cause::Exit(2)),
        Mark::Ended(1, true),
        Mark::Ended(2, true),
        Mark::Skipped(3, 0),
    ];
    let clock = rt.clone()?;
    let Some((shown, text)) = printed_beside(&rt, &clock, rt.alloc(), &image, &marks) else {
        panic!(&rt; "no ring");
    };
    assert_eq!(rt; shown, 5);
    assert_eq!(rt;
        text.as_slice(),
        b"FAILED a: exit 2\n[2/4] true\n[3/4] true\nSKIPPED d: needs a\n".as_slice()
    );
    drop(image);
    Ok(())
}

/// Checks whether the feed shows all marks and the tap prints `text`, without settling. Returns `None` if memory
/// runs out.
fn printed_meanwhile(alloc: Global, image: &Verified, marks: &[Mark], text: &[u8]) -> Option<bool> {
    marks_may_come();
    let Ok((mut feed, mut tap)) = live(alloc, 256) else {
        return None;
    };
    let mut out = Counted::new(Vec::new(alloc));
    let mut format = StatusLines::new();
    feed.show(marks);
    tap.print(image, 4, &mut format, &mut out);
    Some(feed.shown() == marks.len() && out.into_writer().as_slice() == text)
}

/// Marks are in the ring as soon as they are shown, and `print` writes their lines.
#[test]
fn lines_come_while_it_runs(rt: HostRuntime) {
    let alloc = rt.alloc();
    let Some(image) = image_of(alloc) else {
        panic!(&rt; "no image");
    };
    let marks = [Mark::Ended(1, true), Mark::Ended(2, true)];
    assert_eq!(rt;
        printed_meanwhile(
            alloc,
            &image,
            &marks,
            b"[1/4] true\n[2/4] true\n".as_slice()
        ),
        Some(true)
    );
}

/// If a write in `print` failed, `settle` returns the error, although no mark is left to print.
#[test]
fn failed_print_is_settled(rt: HostRuntime) {
    let alloc = rt.alloc();
    let (Some(image), Ok(ends)) = (image_of(alloc), live(alloc, 256)) else {
        panic!(&rt; "no image");
    };
    let marks = [Mark::Stopped(0), Mark::Stopped(1), Mark::Stopped(2)];
    let mut out = Counted::new(Failing { left: 1 });
    assert!(rt; !settled(&image, &marks, ends, &mut out));
}

/// Returns the number of marks, from the first on, whose lines may be printed while the run goes on.
fn free_of(alloc: Global, marks: &[Mark]) -> Option<usize> {
    let image = image_of(alloc)?;
    match free_marks(alloc, &image, marks) {
        Ok(free) => Some(free),
        Err(_) => None,
    }
}

#[test]
fn marks_behind_a_console_edge(rt: HostRuntime) {
    let marks = [
        Mark::Started(0),
        Mark::Started(1),
        Mark::Took(0),
        Mark::Took(1),
        Mark::Released(1),
        Mark::Ended(1, true),
        Mark::Released(0),
        Mark::Ended(0, true),
    ];
    assert_eq!(rt; free_of(rt.alloc(), &marks[..6]), Some(2));
    assert_eq!(rt; free_of(rt.alloc(), &marks), Some(8));
}

#[test]
fn console_edges(rt: HostRuntime) {
    let Some(image) = image_of(rt.alloc()) else {
        panic!(&rt; "no image");
    };
    assert!(rt; is_console(&image, 0));
    assert!(rt; !is_console(&image, 1));
    assert!(rt; !is_console(&image, 9));
}

#[test]
fn failures_and_skips(rt: HostRuntime) {
    let marks = [
        Mark::Started(0),
        Mark::Failed(0, Cause::Exit(2)),
        Mark::Ended(1, true),
        Mark::Ended(2, true),
        Mark::Skipped(3, 0),
    ];
    let text = b"FAILED a: exit 2\n[2/4] true\n[3/4] true\nSKIPPED d: needs a\n";
    assert!(rt; tell(rt.alloc(), &marks, text.as_slice()));
}

#[test]
fn marks_that_name_nothing(rt: HostRuntime) {
    let marks = [
        Mark::Ended(5, true),
        Mark::Failed(0, Cause::MissingInput(5)),
        Mark::Failed(5, Cause::Signal),
        Mark::Skipped(3, 5),
        Mark::Stopped(5),
        Mark::Ended(1, true),
    ];
    assert!(rt; tell(rt.alloc(), &marks, b"[1/4] true\n".as_slice()));
}

#[test]
fn clean_and_phony_edges(rt: HostRuntime) {
    let marks = [
        Mark::Ended(0, false),
        Mark::Stopped(4),
        Mark::Skipped(4, 0),
        Mark::Ended(4, true),
        Mark::Failed(4, Cause::Exit(1)),
        Mark::Stopped(2),
        Mark::Ended(1, true),
    ];
    let text = b"[1/4] true\nFAILED e: exit 1\nSTOPPED c\n[3/4] true\n";
    assert!(rt; tell(rt.alloc(), &marks, text.as_slice()));
}

#[test]
fn causes(rt: HostRuntime) {
    let marks = [
        Mark::Failed(0, Cause::MissingInput(1)),
        Mark::Failed(0, Cause::StatFault),
        Mark::Failed(0, Cause::Signal),
        Mark::Failed(0, Cause::NotStarted),
        Mark::Failed(0, Cause::DepfileFault),
        Mark::Failed(0, Cause::DepfileMalformed(90, 17)),
        Mark::Failed(0, Cause::RecordFault),
        Mark::Failed(0, Cause::TextTooLong),
    ];
    let text =
        b"FAILED a: missing input b\nFAILED a: stat fault\nFAILED a: signal\nFAILED a: not started\n\
        FAILED a: depfile fault\nFAILED a: depfile malformed 90 at 17\nFAILED a: record fault\nFAILED a: text too long\n";
    assert!(rt; tell(rt.alloc(), &marks, text.as_slice()));
}

/// A writer whose writes fail after `left` of them have succeeded.
#[derive(Drop)]
struct Failing {
    left: usize,
}

impl Write for Failing {
    fn write(&mut self, bytes: &[u8]) -> io::Result<usize> {
        match self.left.checked_sub(1) {
            Some(left) => self.left = left,
            None => return Err(io::Error::from(io::ErrorKind::BrokenPipe)),
        }
        Ok(bytes.len())
    }

    fn flush(&mut self) -> io::Result<()> {
        Ok(())
    }
}

/// Checks whether printing three lines fails with `Write` if `left` writes succeed.
fn stops(alloc: Global, left: usize) -> bool {
    let Some(image) = image_of(alloc) else {
        return false;
    };
    let marks = [Mark::Stopped(0), Mark::Stopped(1), Mark::Stopped(2)];
    let mut out = Counted::new(Failing { left });
    matches!(
        print(alloc, &image, 4, &marks, &mut out),
        Err(PrintFault::Write)
    )
}

#[test]
fn failed_writes(rt: HostRuntime) {
    assert!(rt; stops(rt.alloc(), 0));
    assert!(rt; stops(rt.alloc(), 1));
    assert!(rt; stops(rt.alloc(), 2));
    assert!(rt; !stops(rt.alloc(), 3));
}

/// Returns whether all wanted edges are done, or `None` if the printed outcomes of the state aren't `text`.
fn shown(alloc: Global, image: &Verified, state: &State, text: &[u8]) -> Option<bool> {
    let mut out = Counted::new(Vec::new(alloc));
    if print_outcomes(alloc, image, state, &mut out).is_err() {
        return None;
    }
    if out.into_writer().as_slice() != text {
        return None;
    }
    Some(all_done(image, state))
}

/// Like `shown`, but of the state after these events.
fn replayed(alloc: Global, image: &Verified, events: &[Event], text: &[u8]) -> Option<bool> {
    let options = Options::new(1, 0)?;
    match replay(alloc, image, options, &[], events) {
        Ok((state, _marks)) => shown(alloc, image, &state, text),
        Err(_) => None,
    }
}

/// Like `replayed`, but of the image that `image_of` returns.
fn come_out(alloc: Global, events: &[Event], text: &[u8]) -> Option<bool> {
    let image = image_of(alloc)?;
    replayed(alloc, &image, events, text)
}

#[test]
fn outcomes(rt: HostRuntime) {
    let begun = [Event::Start(0), Event::Step(0)];
    let text = b"0 a Clean\n1 b NotWanted\n2 c NotWanted\n3 d Unended\n4 e NotWanted\n";
    assert_eq!(rt; come_out(rt.alloc(), &begun, text.as_slice()), Some(false));
    let ended = [
        Event::Start(0),
        Event::Step(0),
        Event::Start(3),
        Event::Step(3),
    ];
    let text = b"0 a Clean\n1 b NotWanted\n2 c NotWanted\n3 d Clean\n4 e NotWanted\n";
    assert_eq!(rt; come_out(rt.alloc(), &ended, text.as_slice()), Some(true));
}
