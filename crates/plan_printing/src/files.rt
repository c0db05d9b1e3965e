//! Files of the system, as sources and as outputs.

ghost use Rattle.std.specs.Prelude.{◌≡◌};
ghost use Rattle.std.specs.Io.{WritesAtMost};

use plan_image::MAX_IMAGE;
use plan_scope::{Source, SourceFault};
use plan_text::{GhostCounter, MAX_SOURCE};
use std::alloc::Global;
use std::fs::OpenFile;
use std::io::{ErrorKind, Read, Write};
use std::rt::Files;
use std::{fs, io, str};

/// The most bytes that are read of a manifest: one more than is allowed, so that a longer manifest is noticed.
pub const MANIFEST_BYTES: u64 = MAX_SOURCE as u64 + 1;

/// The most bytes that are read of an image: one more than is allowed, so that a longer image is noticed.
pub const IMAGE_BYTES: u64 = MAX_IMAGE as u64 + 1;

/// The most bytes that are read of a trace. A trace may have any length.
pub const TRACE_BYTES: u64 = u64::MAX;

/// The files of the system, by their paths. If a file can't be read, the cause is printed to standard error. It isn't
/// printed if a manifest is missing or memory ran out, since the fault already says so.
#[derive(Drop)]
pub struct FileSource<'a, R> {
    rt: &'a R,
    /// The most bytes that are read of a file.
    most: u64,
    failures: GhostCounter,
}

impl<'a, R: Files> FileSource<'a, R> {
    /// Creates a source of the files that the runtime reaches, which reads at most `most` bytes of each.
    pub fn new(rt: &'a R, most: u64) -> FileSource<'a, R>
        ensures { result.failures.count ≡ 0 }
    {
        FileSource {
            rt,
            most,
            failures: GhostCounter::new(),
        }
    }
}

/// Prints to standard error what can't be done with a file, and why. Prints nothing if memory ran out, since the fault
/// reports it.
fn say<R: Eprint>(rt: &R, what: &str, path: &str, error: &io::Error) {
    if error.kind() != ErrorKind::OutOfMemory {
        let _ = eprintln!(rt; "plan_ninja: can't {what} {path}: {error}");
    }
}

impl<R: Eprint> FileSource<'_, R> {
    /// Prints to standard error why a file can't be read.
    fn say(&self, path: &[u8], error: &io::Error) {
        say(
            self.rt,
            "read",
            str::from_utf8(path).unwrap_or("a file"),
            error,
        );
    }
}

/// Reads the file at a path, but at most `most` bytes. Reserves memory for the length that the system reports and one
/// byte more, so that the end of the file is found without growing.
fn read_file<R: Files>(rt: &R, alloc: Global, path: &[u8], most: u64) -> io::Result<Vec<u8>> {
    let Ok(path) = str::from_utf8(path) else {
        return Err(io::Error::from(ErrorKind::InvalidInput));
    };
    let file = fs::open(rt, path)?;
    let room = file.metadata()?.len().min(most).saturating_add(1);
    let mut bytes = Vec::with_capacity(alloc, usize::try_from(room).unwrap_or(0))?;
    file.take(most).read_to_end(&mut bytes)?;
    Ok(bytes)
}

impl<R: Files + Eprint> Source for FileSource<'_, R> {
    ghost use Rattle.std.specs.Prelude.{◌≡◌};

    ghost gives = { λ _ _ _. Unit {0} };

    ghost fails = { λ _ _. Unit {0} };

    ghost failures = { λ s. s.failures.count };

    fn read(&mut self, alloc: Global, path: &[u8]) -> Result<Vec<u8>, SourceFault> {
        match read_file(self.rt, alloc, path, self.most) {
            Ok(bytes) => Ok(bytes),
            Err(error) => match error.kind() {
                ErrorKind::NotFound | ErrorKind::NotADirectory => {
                    // A missing manifest has a fault of its own.
                    if self.most != MANIFEST_BYTES {
                        self.say(path, &error);
                    }
                    Err(SourceFault::Missing)
                }
                ErrorKind::OutOfMemory => Err(SourceFault::Memory),
                _ => {
                    say(
                        self.rt,
                        "read",
                        str::from_utf8(path).unwrap_or("a file"),
                        &error,
                    );
                    self.failures = self.failures.next();
                    Err(SourceFault::Failed)
                }
            },
        }
    }
}

/// A file that is created at the first write to it, or emptied if it exists. If it can't be written, the cause is
/// printed to standard error.
#[derive(Drop)]
pub struct NewFile<'a, R: Files> {
    rt: &'a R,
    path: &'a str,
    /// The open file, if there was a first write.
    file: Option<R::File>,
}

impl<'a, R: Files> NewFile<'a, R> {
    /// Creates a writer to the file at a path. The file isn't created yet.
    pub fn new(rt: &'a R, path: &'a str) -> NewFile<'a, R> {
        NewFile {
            rt,
            path,
            file: None,
        }
    }
}

impl<R: Files> NewFile<'_, R> {
    /// Writes to the file. Creates it if that isn't done yet.
    fn put(&mut self, bytes: &[u8]) -> io::Result<usize>
        ensures { WritesAtMost result bytes.now }
    {
        if let Some(made) = &mut self.file {
            return made.write(bytes);
        }
        let made = self.file.insert(fs::create(self.rt, self.path)?);
        made.write(bytes)
    }
}

impl<R: Files + Eprint> Write for NewFile<'_, R> {
    fn write(&mut self, bytes: &[u8]) -> io::Result<usize> {
        let written = self.put(bytes);
        if let Err(error) = &written {
            say(self.rt, "write", self.path, error);
        }
        written
    }

    fn flush(&mut self) -> io::Result<()> {
        Ok(())
    }
}
