//! Sources, sinks and worlds written for tests.

use plan_depfile::Parsed;
use plan_lanes::{KeepOrder, Permit, World};
use plan_machine::{Depfile, Recorded, Reply};
use plan_scope::{Source, SourceFault};
use plan_text::{GhostCounter, PathFilter, RowList, Sink, SinkFault};
use plan_verify::{PathList, Words};
use std::alloc::{AllocError, Global};
use std::sync::atomic::{AtomicBool, AtomicU64, Ordering};

/// A file in memory: its path and its bytes.
pub type File<'a> = (&'a [u8], &'a [u8]);

/// Files in memory. Each read of the path `x/failing` fails.
#[derive(Drop)]
pub struct Files<'a> {
    files: &'a [File<'a>],
    failures: GhostCounter,
}

impl<'a> Files<'a> {
    pub fn new(files: &'a [File<'a>]) -> Files<'a> {
        Files {
            files,
            failures: GhostCounter::new(),
        }
    }
}

impl Source for Files<'_> {
    ghost gives = { λ _ _ _. Unit {0} };

    ghost fails = { λ _ _. Unit {0} };

    ghost failures = { λ s. s.failures.count };

    fn read(&mut self, alloc: Global, path: &[u8]) -> Result<Vec<u8>, SourceFault> {
        if path == b"x/failing".as_slice() {
            self.failures = self.failures.next();
            return Err(SourceFault::Failed);
        }
        for (name, bytes) in self.files {
            if *name == path {
                return Vec::from_slice(alloc, bytes).map_err(|_| SourceFault::Memory);
            }
        }
        Err(SourceFault::Missing)
    }
}

/// A manifest in memory that changes: each read returns the next text, and the last text from then on. There is no
/// other file.
#[derive(Drop)]
pub struct Versions<'a> {
    texts: &'a [&'a [u8]],
    reads: usize,
    failures: GhostCounter,
}

impl<'a> Versions<'a> {
    pub fn new(texts: &'a [&'a [u8]]) -> Versions<'a> {
        Versions {
            texts,
            reads: 0,
            failures: GhostCounter::new(),
        }
    }

    /// Returns the text for the next read, or `None` if there are no texts.
    fn text(&self) -> Option<&'a [u8]> {
        match self.texts.get(self.reads) {
            Some(text) => Some(*text),
            None => self.texts.last().copied(),
        }
    }
}

impl Source for Versions<'_> {
    ghost gives = { λ _ _ _. Unit {0} };

    ghost fails = { λ _ _. Unit {0} };

    ghost failures = { λ s. s.failures.count };

    fn read(&mut self, alloc: Global, path: &[u8]) -> Result<Vec<u8>, SourceFault> {
        if path != b"build.ninja".as_slice() {
            return Err(SourceFault::Missing);
        }
        let Some(text) = self.text() else {
            return Err(SourceFault::Missing);
        };
        self.reads = self.reads.saturating_add(1);
        Vec::from_slice(alloc, text).map_err(|_| SourceFault::Memory)
    }
}

/// A sink that takes `left` writes and fails all later ones.
#[derive(Drop)]
pub struct Failing {
    left: u32,
    failures: GhostCounter,
}

impl Failing {
    pub fn new(left: u32) -> Failing {
        Failing {
            left,
            failures: GhostCounter::new(),
        }
    }
}

impl Sink for Failing {
    ghost use Rattle.std.specs.Prelude.{None};

    ghost failures = { λ s. s.failures.count };

    ghost taken = { λ _. None };

    fn write(&mut self, bytes: &[u8]) -> Result<usize, SinkFault> {
        if self.left == 0 {
            self.failures = self.failures.next();
            return Err(SinkFault);
        }
        self.left -= 1;
        Ok(bytes.len())
    }
}

/// A world in which the output `out` is missing and nothing is recorded. Each command exits with `status`.
#[derive(Drop)]
pub struct Fresh {
    pub status: u8,
}

impl World for Fresh {
    ghost use Rattle.std.specs.Prelude.{⊤};

    ghost allows = { λ number request reply. ⊤ };

    fn keeps_journal() -> bool {
        false
    }

    fn observes() -> bool {
        false
    }

    fn stat(&self, _number: u64, path: &[u8]) -> Result<Reply, AllocError> {
        Ok(Reply::Stamp(if path == b"out".as_slice() { 0 } else { 1 }))
    }

    fn recall(&self, _number: u64, _output: &[u8]) -> Result<Reply, AllocError> {
        Ok(Reply::Nothing)
    }

    fn run(
        &self,
        _number: u64,
        _outputs: &RowList<u8>,
        permit: Permit,
    ) -> Result<Reply, AllocError> {
        permit.spend();
        Ok(Reply::Exit(self.status))
    }

    fn read_depfile(&self, _number: u64, _path: &[u8]) -> Result<Reply, AllocError> {
        Ok(Reply::Nothing)
    }

    fn keep(&self, _number: u64, _order: &KeepOrder) -> Result<Reply, AllocError> {
        Ok(Reply::Kept)
    }
}

/// A world in which `build.ninja` is older than its input until `rounds` commands ran. The file `done` is new, no other
/// output exists, and nothing is recorded. Each command exits with `status`.
#[derive(Drop)]
pub struct Generator {
    /// The number of commands that run until `build.ninja` is up to date.
    pub rounds: u64,
    /// The number of commands that ran.
    pub commands: AtomicU64,
    pub status: u8,
}

impl Generator {
    pub fn new(rounds: u64, status: u8) -> Generator {
        Generator {
            rounds,
            commands: AtomicU64::new(0),
            status,
        }
    }

    /// Returns the number of commands that ran.
    pub fn commands(&self) -> u64 {
        self.commands.load(Ordering::SeqCst)
    }

    /// Returns the stamp of a file, which is 0 if the file is missing.
    fn stamp(&self, path: &[u8]) -> u64 {
        match path {
            b"build.ninja" if self.commands() < self.rounds => 1,
            b"build.ninja" | b"done" => 3,
            b"in" => 2,
            _ => 0,
        }
    }
}

impl World for Generator {
    ghost use Rattle.std.specs.Prelude.{⊤};

    ghost allows = { λ number request reply. ⊤ };

    fn keeps_journal() -> bool {
        false
    }

    fn observes() -> bool {
        false
    }

    fn stat(&self, _number: u64, path: &[u8]) -> Result<Reply, AllocError> {
        Ok(Reply::Stamp(self.stamp(path)))
    }

    fn recall(&self, _number: u64, _output: &[u8]) -> Result<Reply, AllocError> {
        Ok(Reply::Nothing)
    }

    fn run(
        &self,
        _number: u64,
        _outputs: &RowList<u8>,
        permit: Permit,
    ) -> Result<Reply, AllocError> {
        permit.spend();
        self.commands.fetch_add(1, Ordering::SeqCst);
        Ok(Reply::Exit(self.status))
    }

    fn read_depfile(&self, _number: u64, _path: &[u8]) -> Result<Reply, AllocError> {
        Ok(Reply::Nothing)
    }

    fn keep(&self, _number: u64, _order: &KeepOrder) -> Result<Reply, AllocError> {
        Ok(Reply::Kept)
    }
}

/// A world in which the file `in` has stamp 7 and each other file has stamp 9. Each output has an entry with the
/// command `cc in -o out` and the basis `basis`. Commands succeed.
#[derive(Drop)]
pub struct Touched {
    pub alloc: Global,
    pub basis: u64,
}

impl World for Touched {
    ghost use Rattle.std.specs.Prelude.{⊤};

    ghost allows = { λ number request reply. ⊤ };

    fn keeps_journal() -> bool {
        false
    }

    fn observes() -> bool {
        false
    }

    fn stat(&self, _number: u64, path: &[u8]) -> Result<Reply, AllocError> {
        Ok(Reply::Stamp(if path == b"in".as_slice() { 7 } else { 9 }))
    }

    fn recall(&self, _number: u64, _output: &[u8]) -> Result<Reply, AllocError> {
        let command = Words::of(self.alloc, b"cc in -o out".as_slice())?;
        let paths = PathList::empty(self.alloc)?;
        Ok(Reply::Entry(Recorded::new(self.alloc, command, self.basis, paths)?))
    }

    fn run(
        &self,
        _number: u64,
        _outputs: &RowList<u8>,
        permit: Permit,
    ) -> Result<Reply, AllocError> {
        permit.spend();
        Ok(Reply::Exit(0))
    }

    fn read_depfile(&self, _number: u64, _path: &[u8]) -> Result<Reply, AllocError> {
        Ok(Reply::Nothing)
    }

    fn keep(&self, _number: u64, _order: &KeepOrder) -> Result<Reply, AllocError> {
        Ok(Reply::Kept)
    }
}

/// A world in which another builder may have built `out`: `in` has the stamp 7, all other files are symbolic links with
/// the stamp 9, and each edge has an entry with the command `cc in -o out`, the basis 7 and the path `in`, until an
/// entry is ended. Commands succeed.
#[derive(Drop)]
pub struct Shared {
    pub alloc: Global,
    /// The stamp of the record.
    pub record: u64,
    /// Whether the other builder's record names a path of `out` that the entry doesn't have.
    pub names_others: bool,
    /// Whether the other builder made `second` by another command than the entry of `out` has.
    pub ran_another: bool,
    pub ended: AtomicBool,
}

impl World for Shared {
    ghost use Rattle.std.specs.Prelude.{⊤};

    ghost allows = { λ number request reply. ⊤ };

    fn keeps_journal() -> bool {
        false
    }

    fn observes() -> bool {
        false
    }

    fn stat(&self, _number: u64, path: &[u8]) -> Result<Reply, AllocError> {
        Ok(Reply::Stamp(if path == b"in".as_slice() { 7 } else { 9 }))
    }

    fn stat_ahead(&self, path: &[u8]) -> Option<u64> {
        if path == b"in".as_slice() {
            Some(7)
        } else {
            Some(9)
        }
    }

    fn recall(&self, _number: u64, _output: &[u8]) -> Result<Reply, AllocError> {
        if self.ended.load(Ordering::SeqCst) {
            return Ok(Reply::Nothing);
        }
        let command = Words::of(self.alloc, b"cc in -o out".as_slice())?;
        let mut rows = RowList::new(self.alloc);
        rows.push(b"in")?;
        let paths = PathList::new(self.alloc, rows)?;
        Ok(Reply::Entry(Recorded::new(self.alloc, command, 7, paths)?))
    }

    fn foreign_names_others(&self, output: &[u8]) -> Result<bool, AllocError> {
        Ok(self.names_others & (output == b"out".as_slice()))
    }

    fn foreign_ran_another(&self, output: &[u8], first: &[u8]) -> Result<bool, AllocError> {
        let is_second = (output == b"second".as_slice()) & (first == b"out".as_slice());
        Ok(self.ran_another & is_second)
    }

    fn record_stamp(&self) -> Option<u64> {
        Some(self.record)
    }

    fn now(&self) -> Option<u64> {
        Some(20)
    }

    fn is_file(&self, _path: &[u8]) -> bool {
        false
    }

    fn forget(&self, _output: &[u8], _reason: &[u8]) -> Result<(), AllocError> {
        self.ended.store(true, Ordering::SeqCst);
        Ok(())
    }

    fn run(
        &self,
        _number: u64,
        _outputs: &RowList<u8>,
        permit: Permit,
    ) -> Result<Reply, AllocError> {
        permit.spend();
        Ok(Reply::Exit(0))
    }

    fn read_depfile(&self, _number: u64, _path: &[u8]) -> Result<Reply, AllocError> {
        Ok(Reply::Nothing)
    }

    fn keep(&self, _number: u64, _order: &KeepOrder) -> Result<Reply, AllocError> {
        Ok(Reply::Kept)
    }
}

/// What says which paths the last command of an edge read.
#[derive(Clone, Copy, PartialEq, Eq)]
pub enum ReadBy {
    /// Its entry.
    Entry,
    /// Its depfile. It has no entry.
    Depfile,
    /// The record of another builder. It has neither an entry nor a depfile.
    AnotherRecord,
}

/// A world in which no output exists, and the command of `out` read `in` and `h` when it ran last. Commands succeed.
#[derive(Drop)]
pub struct Reads {
    pub alloc: Global,
    pub by: ReadBy,
}

impl Reads {
    /// Returns the paths that the command of `out` read.
    fn paths(&self) -> Result<RowList<u8>, AllocError> {
        let mut rows = RowList::new(self.alloc);
        rows.push(b"in")?;
        rows.push(b"h")?;
        Ok(rows)
    }
}

impl World for Reads {
    ghost use Rattle.std.specs.Prelude.{⊤};

    ghost allows = { λ number request reply. ⊤ };

    fn keeps_journal() -> bool {
        false
    }

    fn observes() -> bool {
        false
    }

    fn stat(&self, _number: u64, path: &[u8]) -> Result<Reply, AllocError> {
        Ok(Reply::Stamp(if path == b"in".as_slice() { 7 } else { 0 }))
    }

    fn recall(&self, _number: u64, output: &[u8]) -> Result<Reply, AllocError> {
        if self.by != ReadBy::Entry || output != b"out".as_slice() {
            return Ok(Reply::Nothing);
        }
        let command = Words::of(self.alloc, b"cc in -o out".as_slice())?;
        let paths = PathList::new(self.alloc, self.paths()?)?;
        let recorded = Recorded::new(self.alloc, command, 7, paths)?;
        Ok(Reply::Entry(recorded))
    }

    fn foreign_among(
        &self,
        _alloc: Global,
        output: &[u8],
        _wanted: &PathFilter,
        is_recorded: bool,
    ) -> Result<Option<RowList<u8>>, AllocError> {
        if is_recorded || self.by != ReadBy::AnotherRecord || output != b"out".as_slice() {
            return Ok(None);
        }
        Ok(Some(self.paths()?))
    }

    fn run(
        &self,
        _number: u64,
        _outputs: &RowList<u8>,
        permit: Permit,
    ) -> Result<Reply, AllocError> {
        permit.spend();
        Ok(Reply::Exit(0))
    }

    fn read_depfile(&self, _number: u64, _path: &[u8]) -> Result<Reply, AllocError> {
        if self.by == ReadBy::AnotherRecord {
            return Ok(Reply::Nothing);
        }
        let bytes = Vec::from_slice(self.alloc, b"out: in h\n")?;
        match Parsed::of(self.alloc, bytes) {
            Ok(parsed) => Ok(Reply::Bytes(Depfile::new(self.alloc, parsed)?)),
            Err(_) => Err(AllocError),
        }
    }

    fn keep(&self, _number: u64, _order: &KeepOrder) -> Result<Reply, AllocError> {
        Ok(Reply::Kept)
    }
}

/// A world in which each file has the stamp 7, and each edge has an entry with the command `cc in -o out` and the basis
/// 7. It counts the questions that edges ask in a run, which have numbers above 0.
#[derive(Drop)]
pub struct Settled {
    alloc: Global,
    questions: AtomicU64,
    /// How many commands ran.
    commands: AtomicU64,
}

impl Settled {
    pub fn new(alloc: Global) -> Settled {
        Settled {
            alloc,
            questions: AtomicU64::new(0),
            commands: AtomicU64::new(0),
        }
    }

    /// Returns how many questions edges asked in a run.
    pub fn questions(&self) -> u64 {
        self.questions.load(Ordering::SeqCst)
    }

    /// Returns how many commands ran.
    pub fn commands(&self) -> u64 {
        self.commands.load(Ordering::SeqCst)
    }

    fn count(&self, number: u64) {
        if number > 0 {
            self.questions.fetch_add(1, Ordering::SeqCst);
        }
    }
}

impl World for Settled {
    ghost use Rattle.std.specs.Prelude.{⊤};

    ghost allows = { λ number request reply. ⊤ };

    fn keeps_journal() -> bool {
        false
    }

    fn observes() -> bool {
        false
    }

    fn stat(&self, number: u64, _path: &[u8]) -> Result<Reply, AllocError> {
        self.count(number);
        Ok(Reply::Stamp(7))
    }

    fn stat_ahead(&self, _path: &[u8]) -> Option<u64> {
        Some(7)
    }

    fn recall(&self, number: u64, _output: &[u8]) -> Result<Reply, AllocError> {
        self.count(number);
        let command = Words::of(self.alloc, b"cc in -o out".as_slice())?;
        let paths = PathList::new(self.alloc, RowList::new(self.alloc))?;
        Ok(Reply::Entry(Recorded::new(self.alloc, command, 7, paths)?))
    }

    fn run(
        &self,
        _number: u64,
        _outputs: &RowList<u8>,
        permit: Permit,
    ) -> Result<Reply, AllocError> {
        permit.spend();
        self.commands.fetch_add(1, Ordering::SeqCst);
        Ok(Reply::Exit(0))
    }

    fn read_depfile(&self, _number: u64, _path: &[u8]) -> Result<Reply, AllocError> {
        Ok(Reply::Nothing)
    }

    fn keep(&self, _number: u64, _order: &KeepOrder) -> Result<Reply, AllocError> {
        Ok(Reply::Kept)
    }
}

/// The world `Touched`, whose runs keep their journals. It counts how often it gets a reason for which `out` is built.
#[derive(Drop)]
pub struct Listening<'a> {
    pub world: Touched,
    pub reason: &'a [u8],
    /// How often the world got this reason for `out`.
    pub told: AtomicU64,
    /// How often the world got another reason, or one for another edge.
    pub others: AtomicU64,
}

impl<'a> Listening<'a> {
    pub fn new(alloc: Global, basis: u64, reason: &'a [u8]) -> Listening<'a> {
        Listening {
            world: Touched { alloc, basis },
            reason,
            told: AtomicU64::new(0),
            others: AtomicU64::new(0),
        }
    }

    /// Returns how often the world got the reason for `out`, and how often it got anything else.
    pub fn counts(&self) -> (u64, u64) {
        (
            self.told.load(Ordering::SeqCst),
            self.others.load(Ordering::SeqCst),
        )
    }
}

impl World for Listening<'_> {
    ghost use Rattle.std.specs.Prelude.{◌≡◌, ⊤, false, true};

    ghost allows = { λ number request reply. ⊤ };

    ghost keeps = { false };

    fn keeps_journal() -> bool
        ensures { result ≡ false }
    {
        false
    }

    ghost observes = { true };

    fn observes() -> bool
        ensures { result ≡ true }
    {
        true
    }

    fn stat(&self, number: u64, path: &[u8]) -> Result<Reply, AllocError> {
        self.world.stat(number, path)
    }

    fn recall(&self, number: u64, output: &[u8]) -> Result<Reply, AllocError> {
        self.world.recall(number, output)
    }

    fn explain(&self, edge: &[u8], reason: &[u8]) {
        if edge == b"out".as_slice() && reason == self.reason {
            self.told.fetch_add(1, Ordering::SeqCst);
        } else {
            self.others.fetch_add(1, Ordering::SeqCst);
        }
    }

    fn run(&self, number: u64, outputs: &RowList<u8>, permit: Permit) -> Result<Reply, AllocError> {
        self.world.run(number, outputs, permit)
    }

    fn read_depfile(&self, number: u64, path: &[u8]) -> Result<Reply, AllocError> {
        self.world.read_depfile(number, path)
    }

    fn keep(&self, number: u64, order: &KeepOrder) -> Result<Reply, AllocError> {
        self.world.keep(number, order)
    }
}
