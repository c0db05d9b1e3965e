//! Runs of a chain of two edges, the first one with `restat`, in a world that fails one call.

use plan_image::read_image;
use plan_lanes::*;
use plan_machine::{Options, Outcome, Recorded, Reply};
use plan_status::status_lines;
use plan_text::RowList;
use plan_verify::{Cause, PathList, Verified, Words, verify};
use std::alloc::{AllocError, Global};
use std::process::Abort;
use std::sync::Wait;
use std::sync::atomic::{AtomicU64, Ordering};
use std::test::*;
use std::thread::Threads;

/// The image that `compile` writes of this manifest:
///
/// ```text
/// rule gen
///   command = sh gen.sh
///   restat = 1
/// rule use
///   command = cat $in > $out
/// build mid: gen src
/// build out: use mid
/// ```
const CHAIN: [u8; 443] =
    *b"PLANIMG\x02\0\0\0\x02\0\0\0\x09sh gen.sh\0\0\0\x0dcat mid > out\0\0\0\x03\0\x03mid\0\x03src\0\x03out\0\0\0\0\0\0\0\x06\0\0\0\0\x01\0\0\0\0\x01\0\0\0\0\x02\0\0\0\x01\x02\0\0\0\x01\x01\0\0\0\x01\x01\0\0\0\x02\0\0\02\x02\x04\x01\x04\x12\x1b\x0f\x11\x15\0\0\0\x12\x1c\x0d\x1c\x0c\0\x1c\x13\x1b\x1b\x14\0\0\0 \x1c\x03\x1c\x03\x09\x1c\x13\x1b\x15\0\0\0 \x07\x15\0\0\0\x22\x0c\0\x04\0\x1b\x1b\x16\x0f\x18\x17\x0f\x03\x0e\x1a\x03\x01\x04\x03\x08\x0b\x04\0\0\0\0,\x03\x04\x01\x04\x03\x03\x03\x09\x03\n\x12\x1b\x0f\x11\x15\0\0\0\x14\x1b\x13\x1b\x1b\x14\0\0\0\x1d\x1b\x13\x1b\x15\0\0\0\x1d\x07\x15\0\0\0\x1f\x0c\0\x04\0\x1b\x1b\x16\x0f\x18\x17\x0f\x03\x0e\x1a\x01\x04\x0c\x01\x04\0\0\0\0\x02\0\0\0\0\0\0\0\0\0\0\0\0\0\0\0\0\x01\0\0\0\0\0\0\0\0\0\0\0\0\0\0\0\x01\0\0\0\0\0\0\0\0\0\0\0\x01\0\0\0\0\0\0\0\0\0\0\0\x01\0\0\0\x02\0\0\0\0\0\0\0\0\0\0\0\0\0\0\0\x01\0\0\0\0\0\0\0\x01\0\0\0\x01\0\0\0\x02\0\0\0\0\0\0\0\0\x01\0\0\0\x01\0\0\0\x01\0\0\0\x02\0\0\0\x01\0\0\0\0\0\0\0\x01\0\0\0\x01\0\0\0\x04\0\0\0\x02\0\0\0\x05\0\0\0\x05\0\0\0\x04\0\0\0\x05\0\0\0\x02\0\0\0\x01\0\0\0\x03\0\0\0\x01\0\0\0\x01\0\0\0\x04\0\0\0\x02\0\0\0\x05\0\0\0\x03\0\0\0\x01\0\0\0\x01";

/// Returns the image of the chain.
fn chain(alloc: Global) -> Option<Verified> {
    let Ok(image) = read_image(alloc, CHAIN.as_slice()) else {
        return None;
    };
    match verify(alloc, image) {
        Ok(verified) => Some(verified),
        Err((image, _)) => {
            drop(image);
            None
        }
    }
}

/// A world of files that no command changes. `src` is newer than the recorded basis of `mid`. The world counts its
/// calls, and fails call number `failing`, counted from 1.
#[derive(Drop)]
struct Failing {
    alloc: Global,
    failing: u64,
    calls: AtomicU64,
}

impl Failing {
    /// Counts a call, and returns whether it fails.
    fn fails(&self) -> bool {
        self.calls.fetch_add(1, Ordering::SeqCst).wrapping_add(1) == self.failing
    }
}

/// Returns the stamp of a file of the chain.
fn stamp_of(path: &[u8]) -> u64 {
    match path {
        [b's', ..] => 50,
        [b'm', ..] => 30,
        _ => 40,
    }
}

/// Returns the reply with the record's entry for an output of the chain.
fn entry_of(alloc: Global, output: &[u8]) -> Result<Reply, AllocError> {
    let (command, basis) = match output {
        [b'm', ..] => (b"sh gen.sh".as_slice(), 20),
        _ => (b"cat mid > out".as_slice(), 30),
    };
    let command = Words::of(alloc, command)?;
    let paths = PathList::empty(alloc)?;
    Ok(Reply::Entry(Recorded::new(alloc, command, basis, paths)?))
}

impl World for Failing {
    ghost use Rattle.std.specs.Prelude.{⊤};

    ghost allows = { λ number request reply. ⊤ };

    fn keeps_journal() -> bool {
        false
    }

    fn observes() -> bool {
        false
    }

    fn stat(&self, _number: u64, path: &[u8]) -> Result<Reply, AllocError> {
        if self.fails() {
            return Ok(Reply::Fault);
        }
        Ok(Reply::Stamp(stamp_of(path)))
    }

    fn recall(&self, _number: u64, output: &[u8]) -> Result<Reply, AllocError> {
        if self.fails() {
            return Ok(Reply::Fault);
        }
        entry_of(self.alloc, output)
    }

    fn run(
        &self,
        _number: u64,
        _outputs: &RowList<u8>,
        permit: Permit,
    ) -> Result<Reply, AllocError> {
        permit.spend();
        if self.fails() {
            return Ok(Reply::NotStarted);
        }
        Ok(Reply::Exit(0))
    }

    fn read_depfile(&self, _number: u64, _path: &[u8]) -> Result<Reply, AllocError> {
        if self.fails() {
            return Ok(Reply::Fault);
        }
        Ok(Reply::Nothing)
    }

    fn keep(&self, _number: u64, _order: &KeepOrder) -> Result<Reply, AllocError> {
        if self.fails() {
            return Ok(Reply::Fault);
        }
        Ok(Reply::Kept)
    }
}

/// Runs the chain in a world, with at most `jobs` lanes and any number of failures. None if the run ends with a fault.
fn ran<R: Threads + Wait + Sync>(
    rt: &R,
    alloc: Global,
    image: &Verified,
    jobs: u16,
    world: &Failing,
) -> Option<Report> {
    let Some(options) = Options::new(jobs, 0) else {
        return None;
    };
    match run_lanes(rt, alloc, image, options, &[], world) {
        Ok(report) => Some(report),
        Err(_) => None,
    }
}

/// Checks whether the two edges of a run have these outcomes.
fn came_out(report: &Report, mid: Outcome, out: Outcome) -> bool {
    report.state.outcome(0) == Some(mid) && report.state.outcome(1) == Some(out)
}

/// Checks whether the status lines of a run are this text.
fn tells(alloc: Global, image: &Verified, report: &Report, text: &[u8]) -> bool {
    match status_lines(alloc, image, report.state.total(), &report.marks) {
        Ok(lines) => lines.as_slice() == text,
        Err(_) => false,
    }
}

/// Returns the outcomes of both edges if the call of this number fails.
fn outcomes_behind(failing: u64) -> (Outcome, Outcome) {
    match failing {
        1 | 2 | 6 => (Outcome::Failed(Cause::StatFault), Outcome::Skipped(0)),
        3 | 5 => (Outcome::Failed(Cause::RecordFault), Outcome::Skipped(0)),
        4 => (Outcome::Failed(Cause::NotStarted), Outcome::Skipped(0)),
        7 => (Outcome::Ran, Outcome::Failed(Cause::StatFault)),
        8 => (Outcome::Ran, Outcome::Failed(Cause::RecordFault)),
        _ => (Outcome::Ran, Outcome::Clean),
    }
}

/// Returns the status lines of a run in which the call of this number fails.
fn lines_behind(failing: u64) -> &'static [u8] {
    match failing {
        1 | 2 | 6 => b"FAILED mid: stat fault\nSKIPPED out: needs mid\n",
        3 | 5 => b"FAILED mid: record fault\nSKIPPED out: needs mid\n",
        4 => b"FAILED mid: not started\nSKIPPED out: needs mid\n",
        7 => b"[1/2] sh gen.sh\nFAILED out: stat fault\n",
        8 => b"[1/2] sh gen.sh\nFAILED out: record fault\n",
        _ => b"[1/2] sh gen.sh\n",
    }
}

/// Returns how often the world is called if the call of this number fails (0: no call fails).
fn calls_behind(failing: u64) -> u64 {
    if failing == 0 || failing > 8 {
        8
    } else {
        failing
    }
}

/// Checks a run of the chain with at most `jobs` lanes, in which the call of this number fails.
fn fails_once<R: Threads + Wait + Sync + Abort>(
    rt: &R,
    alloc: Global,
    image: &Verified,
    jobs: u16,
    failing: u64,
) {
    let world = Failing {
        alloc,
        failing,
        calls: AtomicU64::new(0),
    };
    let Some(report) = ran(rt, alloc, image, jobs, &world) else {
        panic!(rt; "no report");
    };
    let (mid, out) = outcomes_behind(failing);
    assert!(rt; came_out(&report, mid, out));
    assert!(rt; tells(alloc, image, &report, lines_behind(failing)));
    drop(report);
    assert_eq!(rt; world.calls.load(Ordering::SeqCst), calls_behind(failing));
}

/// Checks runs of the chain in which each of the eight calls fails, and then none.
fn fails_each<R: Threads + Wait + Sync + Abort>(rt: &R, alloc: Global, image: &Verified) {
    for jobs in [1u16, 4] {
        for failing in 0..10u64 {
            fails_once(rt, alloc, image, jobs, failing);
        }
    }
}

/// Checks that a failed call ends its edge, and that no call is repeated. The test fails each of the eight calls and
/// then none, with one lane and with four.
#[test]
fn each_call_fails_once(rt: HostRuntime) -> Result<(), Fail> {
    let Some(image) = chain(rt.alloc()) else {
        panic!(&rt; "no image");
    };
    fails_each(&rt, rt.alloc(), &image);
    drop(image);
    Ok(())
}
