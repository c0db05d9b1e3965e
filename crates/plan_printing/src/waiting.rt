//! Writes to streams that may be in non-blocking mode.

use std::fmt::Display;
use std::io::{ErrorKind, Stderr};
use std::rt::Clock;
use std::time::Duration;
use std::{io, thread};

/// The longest time between two attempts to write, as a power of two in milliseconds: 32 ms.
const LONGEST_PAUSE: u32 = 5;

/// Waits before the next attempt to write: 1 ms after the first failed attempt, and each time twice as long, up to
/// 32 ms.
fn pause<R: Clock>(rt: &R, attempts: u32) {
    let millis = 1u64 << attempts.min(LONGEST_PAUSE);
    thread::sleep(rt, Duration::from_millis(millis));
}

/// Writes all bytes to a stream. If the stream is in non-blocking mode and full, waits and writes again. Other programs
/// that share a terminal or a pipe may set this mode at any time.
///
/// # Errors
/// If a write fails for another reason. Some of the bytes may have been written.
pub fn write_whole<R: Clock, P: Print>(rt: &R, stream: &P, bytes: &[u8]) -> io::Result<()> {
    let mut rest = bytes;
    let mut attempts = 0u32;
    for _ in 0..u64::MAX {
        if rest.is_empty() {
            return Ok(());
        }
        match stream.write_some(rest) {
            Ok(0) => return Err(io::Error::from(ErrorKind::WriteZero)),
            Ok(count) => {
                rest = rest.get(count..).unwrap_or(&[]);
                attempts = 0;
            }
            Err(error) => match error.kind() {
                ErrorKind::WouldBlock => {
                    pause(rt, attempts);
                    attempts = attempts.saturating_add(1);
                }
                ErrorKind::Interrupted => {}
                _ => return Err(error),
            },
        }
    }
    Ok(())
}

/// Standard error. If it is in non-blocking mode and full, a write of bytes waits and writes again.
#[derive(Drop)]
pub struct ErrorStream<'a, R> {
    rt: &'a R,
    stream: Stderr,
}

impl<'a, R: Clock> ErrorStream<'a, R> {
    /// Creates the stream of a runtime.
    pub fn new(rt: &'a R, stream: Stderr) -> ErrorStream<'a, R> {
        ErrorStream { rt, stream }
    }
}

impl<R: Clock> Print for ErrorStream<'_, R> {
    fn print<D: Display + Drop>(&self, value: D) -> io::Result<()> {
        self.stream.print(value)
    }

    fn println<D: Display + Drop>(&self, value: D) -> io::Result<()> {
        self.stream.println(value)
    }

    fn write_all(&self, bytes: &[u8]) -> io::Result<()> {
        write_whole(self.rt, &self.stream, bytes)
    }

    fn write_some(&self, bytes: &[u8]) -> io::Result<usize> {
        self.stream.write_some(bytes)
    }
}
