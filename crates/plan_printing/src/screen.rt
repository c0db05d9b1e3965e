//! The standard streams, with and without a lock, and a sink that holds bytes back before it writes them.

ghost use Rattle.std.specs.Prelude.{◌≡◌, ◌≤◌, ◌+◌, ◌++◌, ◌⊎◌, [], Err, IfErr, IfOk, Ok, OnOk, drop, is_ok, length, if◌then◌else◌, vec_capacity, vec_len};
ghost use Rattle.std.specs.Io.KnownBytes.{Keeps, append_known};
ghost use Rattle.plan_printing.specs.Buffers.{buffered, seen};
ghost use Rattle.plan_printing.specs.Faults as defined;

use crate::fault::{PlanFault, lost_output};
use crate::waiting::write_whole;
use plan_text::{GhostCounter, Sink, SinkFault};
use std::alloc::Global;
use std::fs::File;
use std::marker::Model;
use std::os::fd::AsRawFd;
use std::rt::Clock;
use std::sync::{Mutex, Wait};
use std::{fs, io};

/// Standard output that is locked during each write. Each piece is written whole. So a write waits while a console
/// command runs, and doesn't split the output of another command.
#[derive(Drop)]
pub struct Screen<'a, R> {
    rt: &'a R,
    lock: &'a Mutex<()>,
    failures: GhostCounter,
}

impl<'a, R: Print + Wait + Clock> Screen<'a, R> {
    /// Creates a sink for the standard output of a runtime. Holds the lock during each write.
    pub fn new(rt: &'a R, lock: &'a Mutex<()>) -> Screen<'a, R>
        ensures { result.failures.count ≡ 0 }
    {
        Screen {
            rt,
            lock,
            failures: GhostCounter::new(),
        }
    }
}

impl<R: Print + Wait + Clock> Sink for Screen<'_, R> {
    ghost use Rattle.std.specs.Prelude.{None};

    ghost failures = { λ s. s.failures.count };

    ghost taken = { λ _. None };

    fn write(&mut self, bytes: &[u8]) -> Result<usize, SinkFault> {
        let guard = self.lock.lock(self.rt);
        let written = write_whole(self.rt, self.rt, bytes);
        drop(guard);
        match written {
            Ok(()) => Ok(bytes.len()),
            Err(_) => {
                self.failures = self.failures.next();
                Err(SinkFault)
            }
        }
    }
}

/// Standard output without a lock.
#[derive(Drop)]
pub struct Standard<'a, R> {
    rt: &'a R,
    failures: GhostCounter,
}

impl<'a, R: Print + Clock> Standard<'a, R> {
    /// Creates a sink for the standard output of a runtime.
    pub fn new(rt: &'a R) -> Standard<'a, R>
        ensures { result.failures.count ≡ 0 }
    {
        Standard {
            rt,
            failures: GhostCounter::new(),
        }
    }
}

impl<R: Print + Clock> Sink for Standard<'_, R> {
    ghost use Rattle.std.specs.Prelude.{None};

    ghost failures = { λ s. s.failures.count };

    ghost taken = { λ _. None };

    fn write(&mut self, bytes: &[u8]) -> Result<usize, SinkFault> {
        match write_whole(self.rt, self.rt, bytes) {
            Ok(()) => Ok(bytes.len()),
            Err(_) => {
                self.failures = self.failures.next();
                Err(SinkFault)
            }
        }
    }
}

/// The number of standard streams: input, output and error.
const STREAMS: i32 = 3;

/// Opens `/dev/null` for each standard stream that is closed when the program starts. Returns these files. The caller
/// must keep them until the program ends. So no file that is opened later gets the number of a stream, and no printed
/// text ends up in it. A write to such a stream fails, since the file is open only for reading.
///
/// # Errors
/// `/dev/null` can't be opened, or memory ran out.
pub fn open_streams(rt: &HostRuntime) -> io::Result<Vec<File>> {
    let mut opened = Vec::new(rt.alloc());
    for _ in 0..STREAMS {
        let file: File = fs::open(rt, "/dev/null")?;
        if file.as_raw_fd() >= STREAMS {
            return Ok(opened);
        }
        opened.push(file)?;
    }
    Ok(opened)
}

/// Appends bytes to a list that has room for them.
fn hold(held: &mut Vec<u8>, bytes: &[u8])
    requires { vec_len held.old + length bytes.now ≤ vec_capacity held.old }
    ensures { held.new.items ≡ held.old.items ++ bytes.now }
{
    let Ok(()) = held.extend_from_slice(bytes) else {
        unreachable!()
    };
}

/// Writes `bytes[start..]` to the sink, until a write fails. Returns the index of the first byte that the sink didn't
/// take, which is the length of `bytes` if it took all.
fn hand_on_from<W: Sink>(out: &mut W, bytes: &[u8], start: usize) -> (usize, Result<(), SinkFault>)
    requires { start ≤ length bytes.now }
    ensures taken { Keeps (append_known (W.taken out.old) (drop start bytes.now)) (append_known (W.taken out.new) (drop result.0 bytes.now)) }
    ensures inside { result.0 ≤ length bytes.now }
    ensures all { OnOk result.1 (result.0 ≡ length bytes.now) }
    ensures failures { W.failures out.new ≡ (if is_ok result.1 then W.failures out.old else W.failures out.old + 1) }
{
    let mut place = start;
    while place < bytes.len() {
        match out.write(&bytes[place..]) {
            Ok(count) => place += count,
            Err(fault) => return (place, Err(fault)),
        }
    }
    (place, Ok(()))
}

/// A sink that buffers bytes before it writes them to an inner sink. Bytes that don't fit into the free room are
/// written directly, after the held bytes. Contracts see the inner sink and the held bytes.
#[derive(Drop)]
pub struct Buffer<W> {
    out: W,
    /// The bytes that were appended since the room was last empty.
    room: Vec<u8>,
    /// The number of bytes of `room` that the inner sink has taken.
    start: usize,
}

impl<W> Model for Buffer<W> {
    ghost use Rattle.std.specs.Prelude.{◌≤◌, drop, length};
    ghost use Rattle.plan_printing.specs.Buffers.{Buffered, buffered};

    ghost Value = { Buffered W };

    ghost view = { λ b. buffered b.out (drop b.start b.room.items) };

    ghost invariant = { λ b. b.start ≤ length b.room.items };
}

impl<W: Sink> Buffer<W> {
    /// Creates an empty buffer for an inner sink. The capacity of `room` is the size of the buffer; its bytes are
    /// discarded.
    pub fn new(out: W, room: Vec<u8>) -> Buffer<W>
        ensures { result ≡ buffered out [] }
    {
        let mut room = room;
        room.clear();
        Buffer {
            out,
            room,
            start: 0,
        }
    }

    /// Writes the held bytes to the inner sink, until a write fails. Bytes that the inner sink didn't take stay held.
    fn hand_on(&mut self) -> Result<(), SinkFault>
        ensures taken { Keeps (seen W.taken self.old) (seen W.taken self.new) }
        ensures failures { W.failures self.new.out ≡ (if is_ok result then W.failures self.old.out else W.failures self.old.out + 1) }
        ensures emptied { OnOk result (self.new.held ≡ []) }
    {
        let (start, done) = hand_on_from(&mut self.out, &self.room, self.start);
        self.start = start;
        if done.is_ok() {
            self.room.clear();
            self.start = 0;
        }
        done
    }

    /// Writes the held bytes to the inner sink, and returns the result and the inner sink. If a write fails, the held
    /// bytes that weren't written are discarded.
    pub fn finish(self) -> (Result<(), SinkFault>, W)
        ensures taken { OnOk result.0 (Keeps (seen W.taken self) (W.taken result.1)) }
        ensures failures { W.failures result.1 ≡ (if is_ok result.0 then W.failures self.out else W.failures self.out + 1) }
    {
        let mut buffer = self;
        let done = buffer.hand_on();
        (done, buffer.into_sink())
    }
}

impl<W> Buffer<W> {
    /// Returns the inner sink, and discards the held bytes.
    fn into_sink(self) -> W
        ensures { result ≡ self.out }
    {
        let Buffer { out, .. } = self;
        out
    }
}

/// Finishes the output of a command that wrote to a buffer. If the command succeeded, writes the held bytes; if it
/// failed, discards them. Returns the status of the command, and the inner sink.
///
/// # Errors
/// - The fault of the command.
/// - 133 ` -`, or 131 if there is no memory for that fault: the command succeeded, but a write of the held bytes
///   failed.
pub fn ended<W: Sink>(
    alloc: Global,
    done: Result<u8, PlanFault>,
    out: Buffer<W>,
) -> (Result<u8, PlanFault>, W)
    ensures well { IfOk result.0 (λ status. (done ≡ Ok status) × ((W.failures result.1 ≡ W.failures out.out)
        × Keeps (seen W.taken out) (W.taken result.1))) }
    ensures refused { IfErr done (λ fault. result ≡ (Err fault, out.out)) }
    ensures lost { OnOk done (IfErr result.0 (λ fault. (W.failures result.1 ≡ W.failures out.out + 1) × ((fault ≡ defined.output_fault) ⊎ (fault ≡ defined.no_memory)))) }
{
    let status = match done {
        Ok(status) => status,
        Err(fault) => return (Err(fault), out.into_sink()),
    };
    match out.finish() {
        (Ok(()), out) => (Ok(status), out),
        (Err(_), out) => (Err(lost_output(alloc)), out),
    }
}

impl<W: Sink> Sink for Buffer<W> {
    ghost use Rattle.plan_printing.specs.Buffers.{seen};

    ghost failures = { λ b. W.failures b.out };

    ghost taken = { λ b. seen W.taken b };

    fn write(&mut self, bytes: &[u8]) -> Result<usize, SinkFault> {
        if bytes.len() <= self.room.capacity() - self.room.len() {
            hold(&mut self.room, bytes);
            return Ok(bytes.len());
        }
        self.hand_on()?;
        self.out.write(bytes)
    }
}
