//! The record's file, while it is open.

ghost use Rattle.std.specs.Prelude.{◌≡◌, ◌≤◌, ◌+◌, ◌*◌, ◌++◌, ◌∷◌, [], false, true, IfOk, IfSome, OnOk, OnErr, get_or, map};
ghost use Rattle.std.specs.Io.KnownBytes.{Appends};
ghost use Rattle.std.specs.List.{flat_map};
ghost use Rattle.plan_record.specs.Among.{AreAmong};
ghost use Rattle.plan_record.specs.Compaction.{last_entries};
ghost use Rattle.plan_record.specs.Entries.{HasSpelling, IsGoodFront, last_of, spelling};
ghost use Rattle.plan_world.specs.StartRecorded.{AreBegun, AreStarted, IsBegun, ended, ended_for, paths_read};
ghost use Rattle.plan_world.specs.Recording.{Begins, Ends, EndsWith, Grows, IsWritten, TakesIn, edge_entry, is_path_len, may_begin};
ghost use Rattle.plan_world.specs.Rewriting.{has_grown};

use crate::builder_lock::{SharedFile, open_shared};
use crate::fault::DeviceFault;
use crate::record_sink::{
    RecordSink, begun_keeping_entry, bytes_of, entry_of, outputs_of, push_ended, push_others_begun,
    read_among,
};
use crate::stamp::stamp_at;
use plan_lanes::KeepOrder;
use plan_record::{Entry, Record, load, read_entries, spellings};
use plan_text::{PathFilter, RowList};
use std::alloc::Global;
use std::fs::{self, Metadata, OpenFile};
use std::io::{ErrorKind, Read, Seek, Write};
use std::marker::Model;
use std::os::unix::fs::MetadataExt;
use std::rt::Files;

/// A file that has no bytes.
const NO_BYTES: &str = "/dev/null";

/// A record with this many entries or fewer isn't compacted.
const FEW: usize = 100;

/// A record with this many entries or fewer for each output isn't compacted.
const MOST_EACH: u128 = 3;

/// A token: the record has the start entry of this output's edge. Nothing else creates one. Contracts see the output.
#[derive(Drop)]
pub(crate) struct StartRecorded<'a> {
    output: &'a [u8],
}

impl<'a> Model for StartRecorded<'a> {
    ghost use Rattle.std.specs.Prelude.{List, ℕ};

    ghost Value = { List ℕ };

    ghost view = { λ b. b.output.now };
}

/// A token: the record has the entry of an edge that ran. Nothing else creates one. Contracts see the entry.
#[derive(Drop)]
pub(crate) struct Kept<'a> {
    order: &'a KeepOrder,
    basis: u64,
}

impl<'a> Model for Kept<'a> {
    ghost use Rattle.plan_record.specs.Entries.{EntryData};
    ghost use Rattle.plan_world.specs.Recording.{edge_entry};

    ghost Value = { EntryData };

    ghost view = { λ k. edge_entry k.order.now.output k.order.now.command k.basis k.order.now.paths };
}

/// The record, open for more entries. Each entry of it is one that the file had when it was opened, one that this
/// builder appended, or one that another builder appended before that.
#[derive(Drop)]
pub(crate) struct RecordFile<F> {
    sink: RecordSink<F>,
    entries: Record,
}

impl<F> Model for RecordFile<F> {
    ghost use Rattle.plan_world.specs.Recording.{IsInStep, Recording, recording};

    ghost Value = { Recording F };

    ghost view = { λ r. recording r.sink.file r.entries r.sink.good r.sink.broken };

    ghost invariant = { λ r. IsInStep r.entries r.sink.good };
}

/// Returns all bytes of a file. Allocates room for them once, by the file's length.
pub(crate) fn read_all<F: Read + OpenFile>(
    alloc: Global,
    file: &mut F,
) -> Result<Vec<u8>, DeviceFault>
    ensures { IfOk result (λ bytes. IfSome (F.remaining file.old) (λ all. bytes.items ≡ all)) }
{
    let len = file.metadata()?.len();
    let room = usize::try_from(len).map_err(|_| DeviceFault::Memory)?;
    let mut bytes = Vec::with_capacity(alloc, room)?;
    file.read_to_end(&mut bytes)?;
    Ok(bytes)
}

/// Returns the byte at a place, or 0 if there is none.
fn byte_at(bytes: &[u8], place: usize) -> u8
    ensures { result ≡ get_or bytes.now place 0 }
{
    if place < bytes.len() { bytes[place] } else { 0 }
}

/// Checks whether the length of an output's path, as two bytes at the beginning of an entry's body, is 1 to 4,096.
fn has_path_len(high: u8, low: u8) -> bool
    ensures { result ≡ is_path_len (high * 256 + low) }
{
    let len = u32::from(high) * 256 + u32::from(low);
    (0 < len) & (len <= 4_096)
}

/// Checks whether these bytes, as far as they go, may be the first ones of an entry of less than 16 MiB.
fn may_begin(bytes: &[u8]) -> bool
    ensures { result ≡ may_begin bytes.now }
{
    let is_path = (bytes.len() < 6) | has_path_len(byte_at(bytes, 4), byte_at(bytes, 5));
    (byte_at(bytes, 0) == 0) & is_path
}

/// Refuses a file that has no whole entry at its beginning, unless its first bytes may begin one.
fn check_record(begins: bool, good: u64) -> Result<(), DeviceFault>
    ensures { OnOk result (good ≡ 0 → begins ≡ true) }
{
    if begins {
        return Ok(());
    }
    if good == 0 {
        return Err(DeviceFault::NoRecord);
    }
    Ok(())
}

/// Reads the record in a file, from the current position on: the longest prefix that consists of whole entries. Cuts
/// the file to that prefix if it may be written. The caller must hold the file's lock.
///
/// # Errors
/// `NoRecord` if the file isn't empty, no whole entry begins it, and its first bytes can't be those of an entry of less
/// than 16 MiB. The file is left as it is.
#[tactic(auto, using(crate::proofs::RecordingLemmas::front_spelled, crate::proofs::RecordingLemmas::is_record))]
pub(crate) fn load_file<F>(
    alloc: Global,
    file: F,
    unwritable: Option<ErrorKind>,
) -> Result<RecordFile<F>, DeviceFault>
where
    F: Read + OpenFile + Drop,
    ensures loaded { IfOk result (λ r. IfSome (F.remaining file) (λ bytes. IsGoodFront bytes r.entries r.good)) }
    ensures record { IfOk result (λ r. IfSome (F.remaining file) (λ bytes. r.good ≡ 0 → may_begin bytes ≡ true)) }
    ensures well { IfOk result (λ r. r.broken ≡ false) }
{
    let mut file = file;
    let bytes = read_all(alloc, &mut file)?;
    let len = bytes.len() as u64;
    let begins = may_begin(&bytes);
    let (entries, good) = load(alloc, bytes)?;
    check_record(begins, good)?;
    let mut sink = RecordSink::new(file, good, unwritable);
    if good < len && unwritable.is_none() {
        sink.cut()?;
    }
    Ok(RecordFile { sink, entries })
}

/// Opens the file at a path, or creates an empty one. If it may not be written, returns the reason too. Folders,
/// devices and pipes are refused, since they may have no end.
pub(crate) fn open_file<R: Files>(
    rt: &R,
    path: &str,
) -> Result<(R::File, Option<ErrorKind>), DeviceFault>
where
    R::File: OpenFile + Drop,
{
    let (file, unwritable) = open_shared(rt, path)?;
    if !file.metadata()?.is_file() {
        return Err(DeviceFault::System(ErrorKind::InvalidInput, 0));
    }
    Ok((file, unwritable))
}

/// Opens the record at a path, or creates an empty one, and cuts it to its whole entries. A record that may not be
/// written is only read. Folders, devices and pipes are refused.
pub(crate) fn open_record<R: Files + AllocGlobal>(
    rt: &R,
    path: &str,
) -> Result<RecordFile<R::File>, DeviceFault>
where
    R::File: Read + OpenFile + SharedFile + Drop,
    ensures well { IfOk result (λ r. r.broken ≡ false) }
{
    let (file, unwritable) = open_file(rt, path)?;
    file.lock()?;
    let record = load_file(rt.alloc(), file, unwritable)?;
    record.sink.unlock();
    Ok(record)
}

/// Opens the file at a path only to read it, or a file without bytes if it is missing. Folders, devices and pipes are
/// refused.
pub(crate) fn open_to_read<R: Files>(rt: &R, path: &str) -> Result<R::File, DeviceFault>
where
    R::File: OpenFile + Drop,
{
    match fs::open(rt, path) {
        Ok(file) => {
            if !file.metadata()?.is_file() {
                return Err(DeviceFault::System(ErrorKind::InvalidInput, 0));
            }
            Ok(file)
        }
        Err(error) => match error.kind() {
            ErrorKind::NotFound | ErrorKind::NotADirectory => Ok(fs::open(rt, NO_BYTES)?),
            _ => Err(DeviceFault::from(error)),
        },
    }
}

/// Opens the record at a path only to read it, as it is now. Takes no lock, creates nothing, and leaves an incomplete
/// entry at its end, which another builder may be about to append. A missing record has no entries. `unwritable` is the
/// reason why it isn't written.
pub(crate) fn read_as_is<R: Files + AllocGlobal>(
    rt: &R,
    path: &str,
    unwritable: ErrorKind,
) -> Result<RecordFile<R::File>, DeviceFault>
where
    R::File: Read + OpenFile + SharedFile + Drop,
    ensures well { IfOk result (λ r. r.broken ≡ false) }
{
    load_file(rt.alloc(), open_to_read(rt, path)?, Some(unwritable))
}

impl<F> RecordFile<F> {
    /// Returns the last entry of an output.
    pub(crate) fn last(&self, alloc: Global, output: &[u8]) -> Result<Option<Entry>, DeviceFault>
        ensures last { IfOk result (λ found. found ≡ last_of output.now self.now.entries) }
        ensures own { IfOk result (λ found. IfSome found (λ e. e.output ≡ output.now)) }
    {
        Ok(self.entries.entry(alloc, output)?)
    }

    /// Checks whether the record has grown enough to be compacted.
    pub(crate) fn has_grown(&self) -> bool
        ensures { result ≡ has_grown self.now.entries }
    {
        let count = self.entries.count();
        (count > FEW) & (count as u128 > MOST_EACH * self.entries.count_outputs() as u128)
    }

    /// Returns the last entry of each output, in the record's order.
    pub(crate) fn last_entries(&self, alloc: Global) -> Result<Vec<Entry>, DeviceFault>
        ensures { IfOk result (λ entries. entries.items ≡ last_entries self.now.entries) }
    {
        Ok(self.entries.last_entries(alloc)?)
    }

    /// Returns the bytes of the record with only the last entry of each output.
    pub(crate) fn compacted_bytes(&self, alloc: Global) -> Result<Vec<u8>, DeviceFault>
        ensures { IfOk result (λ bytes. bytes.items ≡ flat_map spelling (last_entries self.now.entries)) }
    {
        Ok(self.entries.compacted_bytes(alloc)?)
    }

    /// Returns the outputs that the record has entries of, each once, in the order of their last entries.
    pub(crate) fn outputs(&self, alloc: Global) -> Result<RowList<u8>, DeviceFault>
        ensures { IfOk result (λ rows. rows ≡ map (λ x. x.output) (last_entries self.now.entries)) }
    {
        Ok(outputs_of(alloc, &self.entries.last_entries(alloc)?)?)
    }

    /// Appends the first output of another edge which made this output before, if there is one, to others.
    fn push_ended_for(
        &self,
        alloc: Global,
        first: &[u8],
        output: &[u8],
        outputs: &mut RowList<u8>,
    ) -> Result<(), DeviceFault>
        ensures { OnOk result (outputs.new ≡ outputs.old ++ ended_for self.now.entries first.now output.now) }
    {
        match self.last(alloc, output)? {
            Some(last) => push_ended(first, &last, outputs),
            None => Ok(()),
        }
    }

    /// Returns the first outputs of other edges which made these files before.
    fn ended(&self, alloc: Global, outputs: &RowList<u8>) -> Result<RowList<u8>, DeviceFault>
        ensures { IfOk result (λ ends. ends ≡ ended self.now.entries (get_or outputs.now 0 []) outputs.now) }
    {
        let mut ends = RowList::new(alloc);
        for number in 0..outputs.len() {
            self.push_ended_for(alloc, outputs.row(0), outputs.row(number), &mut ends)?;
        }
        Ok(ends)
    }

    /// Returns those paths that may be in a set and that the last command of an edge read that succeeded, by the edge's
    /// first output.
    fn last_read(
        &self,
        alloc: Global,
        output: &[u8],
        wanted: &PathFilter,
    ) -> Result<RowList<u8>, DeviceFault>
        ensures { IfOk result (λ kept. AreAmong wanted.now (paths_read (last_of output.now self.now.entries)) kept) }
    {
        match self.last(alloc, output)? {
            Some(last) => read_among(alloc, &last, wanted),
            None => Ok(RowList::new(alloc)),
        }
    }

    /// Returns the start entry of a first output. It keeps those paths that the last command of its edge read and that
    /// may be in a set.
    #[tactic(auto, using(crate::proofs::RecordingLemmas::begun_of))]
    fn begun(&self, alloc: Global, output: &[u8], wanted: &PathFilter) -> Result<Entry, DeviceFault>
        ensures begun { IfOk result (λ x. IsBegun wanted.now self.now.entries x) }
        ensures output { IfOk result (λ x. x.output ≡ output.now) }
        ensures within { IfOk result (λ x. HasSpelling x) }
    {
        let kept = self.last_read(alloc, output, wanted)?;
        begun_keeping_entry(alloc, output, &kept)
    }

    /// Returns the start entries of these first outputs.
    #[tactic(auto, using(crate::proofs::RecordingLemmas::none_begun, crate::proofs::RecordingLemmas::next_begun, crate::proofs::RecordingLemmas::each_begun))]
    fn each_begun(
        &self,
        alloc: Global,
        outputs: &RowList<u8>,
        wanted: &PathFilter,
    ) -> Result<Vec<Entry>, DeviceFault>
        ensures { IfOk result (λ entries. AreBegun wanted.now self.now.entries outputs.now entries.items) }
    {
        let mut entries = Vec::new(alloc);
        for number in 0..outputs.len() {
            entries.push(self.begun(alloc, outputs.row(number), wanted)?)?;
        }
        Ok(entries)
    }

    /// Returns the start entries for the command of an edge that makes these files.
    fn started(
        &self,
        alloc: Global,
        outputs: &RowList<u8>,
        wanted: &PathFilter,
    ) -> Result<Vec<Entry>, DeviceFault>
        ensures { IfOk result (λ entries. AreStarted wanted.now self.now.entries outputs.now entries.items) }
    {
        let ends = self.ended(alloc, outputs)?;
        let mut entries = self.each_begun(alloc, &ends, wanted)?;
        push_others_begun(alloc, outputs, &mut entries)?;
        entries.push(self.begun(alloc, outputs.row(0), wanted)?)?;
        Ok(entries)
    }

    /// Adds an entry that is in the file.
    #[tactic(auto, using(crate::proofs::RecordingLemmas::one_more_spelled))]
    fn take_in(&mut self, alloc: Global, entry: &Entry) -> Result<(), DeviceFault>
        ensures taken { OnOk result (self.new.entries ≡ self.old.entries ++ entry.now ∷ []) }
        ensures unchanged { OnErr result (self.new ≡ self.old) }
        ensures file { self.new.file ≡ self.old.file }
        ensures well { self.new.broken ≡ self.old.broken }
    {
        let end = self.sink.end_of(bytes_of(alloc, entry)?.len())?;
        self.entries.add(alloc, entry)?;
        self.sink.accept(end);
        Ok(())
    }

    /// Adds these entries, which are in the file.
    fn take_in_each(&mut self, alloc: Global, others: &[Entry]) -> Result<(), DeviceFault>
        ensures taken { OnOk result (self.new.entries ≡ self.old.entries ++ others.now) }
        ensures grows { Grows self.old.entries self.new.entries }
        ensures file { self.new.file ≡ self.old.file }
        ensures well { self.new.broken ≡ self.old.broken }
    {
        for number in 0..others.len() {
            self.take_in(alloc, &others[number])?;
        }
        Ok(())
    }

    /// Adds the whole entries at the beginning of bytes that other builders appended. Returns the number of bytes of
    /// these entries.
    fn take_in_all(&mut self, alloc: Global, bytes: Vec<u8>) -> Result<u64, DeviceFault>
        ensures taken { IfOk result (λ len. TakesIn bytes.items len self.old.entries self.new.entries) }
        ensures grows { Grows self.old.entries self.new.entries }
        ensures well { self.new.broken ≡ self.old.broken }
    {
        let (others, len) = read_entries(alloc, bytes)?;
        self.take_in_each(alloc, &others)?;
        Ok(len)
    }
}

impl<F: SharedFile> RecordFile<F> {
    /// Waits for the file's lock and takes it, unless the file can't be written.
    pub(crate) fn lock(&self) -> Result<(), DeviceFault> {
        self.sink.lock()
    }

    /// Releases the file's lock.
    pub(crate) fn unlock(&self) {
        self.sink.unlock();
    }
}

impl<F: OpenFile> RecordFile<F> {
    /// Returns the metadata of the file.
    pub(crate) fn metadata(&self) -> Result<Metadata, DeviceFault> {
        self.sink.metadata()
    }

    /// Returns the stamp of the file. After an entry was appended, this is the current time of the file system's clock.
    pub(crate) fn stamp(&self) -> Result<u64, DeviceFault> {
        let found = self.metadata()?;
        Ok(stamp_at(found.mtime(), found.mtime_nsec()))
    }
}

impl<F: Read + Seek + OpenFile> RecordFile<F> {
    /// Adds the entries that other builders appended since this builder read or wrote the file. Cuts off an incomplete
    /// entry that a killed builder left. The caller must hold the file's lock.
    pub(crate) fn catch_up(&mut self, alloc: Global) -> Result<(), DeviceFault>
        ensures grows { Grows self.old.entries self.new.entries }
        ensures well { OnOk result (self.new.broken ≡ self.old.broken) }
    {
        let bytes = self.sink.unread(alloc)?;
        let len = bytes.len() as u64;
        if self.take_in_all(alloc, bytes)? < len {
            self.sink.cut()?;
        }
        Ok(())
    }
}

impl<F: Read + Write + Seek + OpenFile + SharedFile> RecordFile<F> {
    /// Appends an entry to the file, which ends with the last entry. If the write fails, cuts the file back.
    #[tactic(auto, using(crate::proofs::RecordingLemmas::one_more_spelled))]
    fn append(&mut self, alloc: Global, entry: Entry) -> Result<(), DeviceFault>
        ensures kept { OnOk result (self.new.entries ≡ self.old.entries ++ entry ∷ []) }
        ensures written { OnOk result (Appends (F.contents self.old.file) (F.contents self.new.file) (spelling entry)) }
        ensures unchanged { OnErr result (self.new.entries ≡ self.old.entries) }
        ensures well { OnOk result (self.new.broken ≡ self.old.broken) }
    {
        let bytes = bytes_of(alloc, &entry)?;
        let end = self.sink.put(&bytes)?;
        match self.entries.add(alloc, &entry) {
            Ok(()) => {
                self.sink.accept(end);
                Ok(())
            }
            Err(_) => {
                self.sink.cut()?;
                Err(DeviceFault::Memory)
            }
        }
    }

    /// Adds the entries that other builders appended meanwhile, and appends an entry. The caller must hold the file's
    /// lock.
    fn keep_last(&mut self, alloc: Global, entry: Entry) -> Result<(), DeviceFault>
        ensures kept { OnOk result (EndsWith self.old.entries self.new.entries entry) }
        ensures written { OnOk result (IsWritten F.contents self.new.file (spelling entry)) }
        ensures lost { OnErr result (Grows self.old.entries self.new.entries) }
        ensures well { OnOk result (self.new.broken ≡ self.old.broken) }
    {
        self.catch_up(alloc)?;
        self.append(alloc, entry)
    }

    /// Takes the file's lock, appends an entry, and releases the lock.
    fn keep(&mut self, alloc: Global, entry: Entry) -> Result<(), DeviceFault>
        ensures kept { OnOk result (EndsWith self.old.entries self.new.entries entry) }
        ensures written { OnOk result (IsWritten F.contents self.new.file (spelling entry)) }
        ensures lost { OnErr result (Grows self.old.entries self.new.entries) }
        ensures well { OnOk result ((self.old.broken ≡ false) × (self.new.broken ≡ false)) }
    {
        self.sink.lock()?;
        let kept = self.keep_last(alloc, entry);
        self.sink.unlock();
        kept
    }

    /// Appends the entry of an order, with a basis that is at most that of the order.
    pub(crate) fn keep_edge<'a>(
        &mut self,
        alloc: Global,
        order: &'a KeepOrder,
        basis: u64,
    ) -> Result<Kept<'a>, DeviceFault>
        requires { basis ≤ order.now.basis }
        ensures proof { IfOk result (λ k. k ≡ edge_entry order.now.output order.now.command basis order.now.paths) }
        ensures within { OnOk result (HasSpelling (edge_entry order.now.output order.now.command basis order.now.paths)) }
        ensures kept { OnOk result (EndsWith self.old.entries self.new.entries (edge_entry order.now.output order.now.command basis order.now.paths)) }
        ensures written { OnOk result (IsWritten F.contents self.new.file (spelling (edge_entry order.now.output order.now.command basis order.now.paths))) }
        ensures lost { OnErr result (Grows self.old.entries self.new.entries) }
        ensures well { OnOk result ((self.old.broken ≡ false) × (self.new.broken ≡ false)) }
    {
        let entry = entry_of(alloc, order.output(), order.command(), basis, order.paths())?;
        self.keep(alloc, entry)?;
        Ok(Kept { order, basis })
    }

    /// Appends entries to the file, which ends with the last entry, by one write. If it fails, cuts the file back.
    fn append_each(&mut self, alloc: Global, entries: &[Entry]) -> Result<(), DeviceFault>
        ensures kept { OnOk result (self.new.entries ≡ self.old.entries ++ entries.now) }
        ensures written { OnOk result (Appends (F.contents self.old.file) (F.contents self.new.file) (flat_map spelling entries.now)) }
        ensures lost { OnErr result (Grows self.old.entries self.new.entries) }
        ensures well { OnOk result (self.new.broken ≡ self.old.broken) }
    {
        let bytes = spellings(alloc, entries)?;
        self.sink.put(&bytes)?;
        match self.take_in_each(alloc, entries) {
            Ok(()) => Ok(()),
            Err(fault) => {
                self.sink.cut()?;
                Err(fault)
            }
        }
    }

    /// Adds the entries that other builders appended meanwhile, and appends the start entries of an edge. The caller
    /// must hold the file's lock.
    fn begin_last(
        &mut self,
        alloc: Global,
        outputs: &RowList<u8>,
        wanted: &PathFilter,
    ) -> Result<(), DeviceFault>
        ensures kept { OnOk result (Begins F.contents wanted.now self.old self.new outputs.now) }
        ensures lost { OnErr result (Grows self.old.entries self.new.entries) }
        ensures well { OnOk result (self.new.broken ≡ self.old.broken) }
    {
        self.catch_up(alloc)?;
        let entries = self.started(alloc, outputs, wanted)?;
        self.append_each(alloc, &entries)
    }

    /// Appends entries that say that the command of the edge that makes these files is about to start: one for each of
    /// them, and one for each other edge which made one of them before. So the entries of these edges end too. They keep
    /// the recorded paths that may be in a set.
    pub(crate) fn begin_all<'a>(
        &mut self,
        alloc: Global,
        outputs: &'a RowList<u8>,
        wanted: &PathFilter,
    ) -> Result<StartRecorded<'a>, DeviceFault>
        ensures proof { IfOk result (λ b. b ≡ get_or outputs.now 0 []) }
        ensures kept { OnOk result (Begins F.contents wanted.now self.old self.new outputs.now) }
        ensures lost { OnErr result (Grows self.old.entries self.new.entries) }
        ensures well { OnOk result ((self.old.broken ≡ false) × (self.new.broken ≡ false)) }
    {
        self.sink.lock()?;
        let kept = self.begin_last(alloc, outputs, wanted);
        self.sink.unlock();
        kept?;
        Ok(StartRecorded {
            output: outputs.row(0),
        })
    }

    /// Appends an entry that says that the command of this output's edge is about to start. It keeps the recorded paths
    /// that may be in a set.
    pub(crate) fn begin<'a>(
        &mut self,
        alloc: Global,
        output: &'a [u8],
        wanted: &PathFilter,
    ) -> Result<StartRecorded<'a>, DeviceFault>
        ensures proof { IfOk result (λ b. b ≡ output.now) }
        ensures kept { OnOk result (Ends F.contents wanted.now self.old self.new output.now) }
        ensures lost { OnErr result (Grows self.old.entries self.new.entries) }
        ensures well { OnOk result ((self.old.broken ≡ false) × (self.new.broken ≡ false)) }
    {
        let begun = self.begun(alloc, output, wanted)?;
        self.keep(alloc, begun)?;
        Ok(StartRecorded { output })
    }
}
