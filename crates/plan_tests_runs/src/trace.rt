//! Tests `read_trace` and `write_trace` on texts made by hand.

use crate::outcome::value_of;
use plan_machine::{Event, Options, Reply};
use plan_text::{Counted, Items};
use plan_trace::*;
use std::alloc::Global;
use std::io::{self, Write};
use std::test::Fail;

/// A trace with an event and a reply of each sort.
const ALL: &[u8] = b"plan-trace 1 j 64 k 4294967295\n\
target 0\n\
target 4294967295\n\
start 0\n\
step 12\n\
skip 3 0\n\
stop 7\n\
reply 0 stamp 18446744073709551615\n\
reply 0 entry 7 63632061 622e68 632e68\n\
reply 0 entry 0 -\n\
reply 0 none\n\
reply 0 exit 255\n\
reply 0 signal\n\
reply 0 notstarted\n\
reply 0 bytes 6f757420612e68\n\
reply 0 bytes -\n\
reply 0 kept\n\
reply 0 fault\n";

/// Checks whether `text` is a trace with the given numbers of targets and events, and is written as it was read.
fn comes_back(alloc: Global, text: &[u8], targets: usize, events: usize) -> bool {
    let Ok(trace) = read_trace(alloc, text) else {
        return false;
    };
    let mut out = Counted::new(Vec::new(alloc));
    write_trace(&trace, &mut out).is_ok()
        && trace.targets.len() == targets
        && trace.events.len() == events
        && out.into_writer().as_slice() == text
}

#[test]
fn traces_come_back(rt: HostRuntime) {
    let short = b"plan-trace 1 j 4 k 1\ntarget 0\nstart 0\nstep 0\n";
    assert!(rt; comes_back(rt.alloc(), short.as_slice(), 1, 2));
    assert!(rt; comes_back(rt.alloc(), b"plan-trace 1 j 1 k 0\n".as_slice(), 0, 0));
    assert!(rt; comes_back(rt.alloc(), ALL, 2, 15));
}

/// Returns the number of the first bad line of `text`, or `None` if no line is refused.
fn bad_line(alloc: Global, text: &[u8]) -> Option<u64> {
    match read_trace(alloc, text) {
        Err(TraceFault::BadTrace(line)) => Some(line),
        _ => None,
    }
}

#[test]
fn bad_lines(rt: HostRuntime) {
    for (text, line) in [
        (b"".as_slice(), 1),
        (b"plan-trace 1 j 0 k 1\n".as_slice(), 1),
        (b"plan-trace 1 j 4 k 1".as_slice(), 1),
        (b"plan-trace 1 j 4 k 1\nreply 0 exit 256\n".as_slice(), 2),
        (b"plan-trace 1 j 4 k 1\nstart 00\n".as_slice(), 2),
        (b"plan-trace 1 j 4 k 1\nstart 0\ntarget 0\n".as_slice(), 3),
        (
            b"plan-trace 1 j 4 k 1\ntarget 0\nstart 0\nstep 0".as_slice(),
            4,
        ),
    ] {
        assert_eq!(rt; bad_line(rt.alloc(), text), Some(line));
    }
}

#[test]
fn what_lines_say(rt: HostRuntime) -> Result<(), Fail> {
    let text = b"plan-trace 1 j 4 k 7\ntarget 9\nskip 3 1\nreply 2 entry 5 6361 612e68\n";
    let trace = value_of(read_trace(rt.alloc(), text.as_slice()))?;
    assert_eq!(rt; trace.options.jobs(), 4);
    assert_eq!(rt; trace.options.keep(), 7);
    assert_eq!(rt; trace.targets.as_slice(), [9u32].as_slice());
    match trace.events.as_slice() {
        [Event::Skip(3, 1), Event::Reply(2, Reply::Entry(recorded))] => {
            assert_eq!(rt; recorded.basis(), 5);
            assert_eq!(rt; recorded.command().as_slice(), b"ca".as_slice());
            assert_eq!(rt; recorded.paths().path(0), b"a.h".as_slice());
        }
        _ => panic!(rt; "other events"),
    }
    Ok(())
}

/// A writer that takes at most `left` bytes. A write of more bytes than are left fails.
#[derive(Drop)]
struct Failing {
    left: usize,
}

impl Write for Failing {
    fn write(&mut self, bytes: &[u8]) -> io::Result<usize> {
        match self.left.checked_sub(bytes.len()) {
            Some(left) => self.left = left,
            None => return Err(io::Error::from(io::ErrorKind::BrokenPipe)),
        }
        Ok(bytes.len())
    }

    fn flush(&mut self) -> io::Result<()> {
        Ok(())
    }
}

/// Checks whether writing a trace of one target and one event fails if the writer takes at most `left` bytes.
fn stops(alloc: Global, left: usize) -> bool {
    let Some(options) = Options::new(1, 0) else {
        return false;
    };
    let (Ok(targets), Ok(events)) = (
        Vec::from_array(alloc, [0u32]),
        Vec::from_array(alloc, [Event::Start(0)]),
    ) else {
        return false;
    };
    let trace = Trace {
        options,
        targets: Items::new(targets),
        events: Items::new(events),
    };
    let mut out = Counted::new(Failing { left });
    write_trace(&trace, &mut out).is_err()
}

#[test]
fn failed_writes(rt: HostRuntime) {
    let text = b"plan-trace 1 j 1 k 0\ntarget 0\nstart 0\n".as_slice();
    assert!(rt; comes_back(rt.alloc(), text, 1, 1));
    assert!(rt; stops(rt.alloc(), 0));
    assert!(rt; stops(rt.alloc(), 20));
    assert!(rt; stops(rt.alloc(), 29));
    assert!(rt; stops(rt.alloc(), text.len() - 1));
    assert!(rt; !stops(rt.alloc(), text.len()));
}
