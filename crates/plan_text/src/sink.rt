//! Targets of writes, and a wrapper for a writer of std that counts failed writes.

ghost use Rattle.std.specs.Prelude.{◌≡◌, ◌+◌, ◌<◌, ◌≤◌, ℕ, List, Option, length, IfOk, is_ok, if◌then◌else◌};
ghost use Rattle.std.specs.Io.KnownBytes.{WriteAppends};
ghost use Rattle.plan_text.specs.Sinks.{Writes};

use crate::ghost_counter::GhostCounter;
use std::io::Write;
use std::marker::Model;
use thiserror::Error;

/// A write failed, or a write of some bytes took none of them.
#[derive(Debug, Drop, Error)]
#[error("a write failed")]
pub struct SinkFault;

/// A target of writes. Its count of failures is for proofs, so that a program can be shown to handle each
/// failure.
pub trait Sink {
    /// The number of its writes that failed.
    ghost failures: { Self → ℕ };

    /// The bytes that it took, if they are known. They are known of a sink in memory, and unknown of a file or
    /// a terminal.
    ghost taken: { Self → Option (List ℕ) };

    /// Takes some bytes from the front and returns their number. Takes at least one byte unless `bytes` is
    /// empty.
    ///
    /// # Errors
    ///
    /// A failed write takes no byte and is counted.
    fn write(&mut self, bytes: &[u8]) -> Result<usize, SinkFault>
        ensures bound { IfOk result (λ n. n ≤ length bytes.now) }
        ensures some { IfOk result (λ n. 0 < length bytes.now → 0 < n) }
        ensures taken { WriteAppends (taken self.old) (taken self.new) result bytes.now }
        ensures failures { failures self.new ≡ (if is_ok result then failures self.old else failures self.old + 1) };
}

/// Writes all of the bytes.
///
/// # Errors
///
/// Stops at the first failed write. The sink then has taken the bytes before it.
pub fn write_all<W: Sink>(sink: &mut W, bytes: &[u8]) -> Result<(), SinkFault>
    ensures { Writes (is_ok result) (W.failures sink.old, W.taken sink.old) (W.failures sink.new, W.taken sink.new) bytes.now }
{
    let mut rest = bytes;
    while !rest.is_empty() {
        let n = sink.write(rest)?;
        rest = &rest[n..];
    }
    Ok(())
}

/// A writer of std, with a count of its failed writes that only proofs read. A contract sees it as the pair of
/// the writer and the count.
#[derive(Drop)]
pub struct Counted<W> {
    writer: W,
    failures: GhostCounter,
}

impl<W> Model for Counted<W> {
    ghost use Rattle.std.specs.Prelude.{ℕ};

    ghost Value = { W × ℕ };

    ghost view = { λ s. (s.writer, s.failures.count) };
}

impl<W> Counted<W> {
    /// Wraps a writer, with a count of 0 failures.
    pub fn new(writer: W) -> Counted<W>
        ensures { result ≡ (writer, 0) }
    {
        Counted {
            writer,
            failures: GhostCounter::new(),
        }
    }

    /// Returns the writer, for example to flush it at the end of a program.
    pub fn into_writer(self) -> W
        ensures { result ≡ self.0 }
    {
        let Counted { writer, .. } = self;
        writer
    }
}

impl<W: Write> Sink for Counted<W> {
    ghost failures = { λ s. s.1 };

    ghost taken = { λ s. W.contents s.0 };

    fn write(&mut self, bytes: &[u8]) -> Result<usize, SinkFault> {
        match self.writer.write(bytes) {
            Ok(n) if n > 0 || bytes.is_empty() => Ok(n),
            _ => {
                self.failures = self.failures.next();
                Err(SinkFault)
            }
        }
    }
}
