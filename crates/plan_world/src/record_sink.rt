//! The record's file as a sink, and conversions between the machine's and the record's forms of an entry. Other
//! builders append to the file too, under the file's lock.

ghost use Rattle.std.specs.Prelude.{◌≡◌, ◌≤◌, ◌+◌, ◌++◌, [], false, true, IfErr, IfOk, IfSome, OnErr, OnOk, Some, drop, get_or, length, is_none, ◌||◌, option_to_list, slice_get, ◌≢◌, map, IsTrue, ◌↔◌};
ghost use Rattle.std.specs.Io.KnownBytes.{Appends};
ghost use Rattle.plan_record.specs.Among.{AreAmong};
ghost use Rattle.plan_record.specs.Entries.{spelling, HasSpelling};
ghost use Rattle.plan_world.specs.StartRecorded.{begun, begun_keeping, begun_with, ended_by, first_named, kept_after, paths_read};
ghost use Rattle.plan_world.specs.Recording.{edge_entry};
ghost use Rattle.plan_world.specs.Rewriting.{is_begun};

use crate::builder_lock::SharedFile;
use crate::fault::DeviceFault;
use plan_machine::Recorded;
use plan_record::{Entry, Paths, append};
use plan_text::{Counted, Items, PathFilter, RowList};
use plan_verify::{PathList, Words};
use std::alloc::{AllocError, Global};
use std::fs::{Metadata, OpenFile};
use std::io::{ErrorKind, Read, Seek, SeekFrom, Write};
use std::os::unix::fs::MetadataExt;

/// Returns the bytes of an entry's spelling.
pub(crate) fn bytes_of(alloc: Global, entry: &Entry) -> Result<Vec<u8>, DeviceFault>
    ensures bytes { IfOk result (λ bytes. bytes.items ≡ spelling entry.now) }
    ensures memory { IfErr result (λ f. f ≡ DeviceFault.Memory) }
{
    let mut sink = Counted::new(Vec::new(alloc));
    match append(entry, &mut sink) {
        Ok(()) => Ok(sink.into_writer()),
        Err(_) => Err(DeviceFault::Memory),
    }
}

/// Writes all bytes by one write, so that other builders can't append anything between them.
pub(crate) fn write_at_once<F: Write>(file: &mut F, bytes: &[u8]) -> Result<(), DeviceFault>
    ensures { OnOk result (Appends (F.contents file.old) (F.contents file.new) bytes.now) }
{
    let count = file.write(bytes)?;
    if count < bytes.len() {
        return Err(DeviceFault::System(ErrorKind::WriteZero, 0));
    }
    Ok(())
}

/// The record's file, opened to append, or only to be read if it may not be written. Its first `good` bytes are whole
/// entries, which this builder has read or written. Bytes that other builders appended since then come after them.
#[derive(Drop)]
pub(crate) struct RecordSink<F> {
    file: F,
    /// The number of bytes at the beginning that this builder has read or written.
    good: u64,
    /// Whether a cut failed or the file was removed. If so, nothing more is written.
    broken: bool,
    /// The reason why the file may only be read. If there is one, nothing is written.
    unwritable: Option<ErrorKind>,
}

impl<F> RecordSink<F> {
    /// Returns the sink of a file whose first `good` bytes are whole entries that were read. If the file may not be
    /// written, `unwritable` says why.
    pub(crate) fn new(file: F, good: u64, unwritable: Option<ErrorKind>) -> RecordSink<F>
        ensures { (result.good ≡ good) × (result.broken ≡ false) }
    {
        RecordSink {
            file,
            good,
            broken: false,
            unwritable,
        }
    }

    /// Returns the number of good bytes with `len` bytes more.
    pub(crate) fn end_of(&self, len: usize) -> Result<u64, DeviceFault>
        ensures { IfOk result (λ end. end ≡ self.now.good + len) }
    {
        match self.good.checked_add(len as u64) {
            Some(end) => Ok(end),
            None => Err(DeviceFault::TooLong),
        }
    }

    /// Sets the number of good bytes, after the entry that follows them was read or written.
    pub(crate) fn accept(&mut self, end: u64)
        ensures { (self.new.file ≡ self.old.file) × (self.new.good ≡ end) × (self.new.broken ≡ self.old.broken) }
    {
        self.good = end;
    }
}

impl<F: SharedFile> RecordSink<F> {
    /// Waits for the file's lock and takes it, unless the file can't be written.
    pub(crate) fn lock(&self) -> Result<(), DeviceFault>
        ensures { OnOk result (self.now.broken ≡ false) }
    {
        if self.broken {
            return Err(DeviceFault::Lost);
        }
        if let Some(kind) = self.unwritable {
            return Err(DeviceFault::System(kind, 0));
        }
        self.file.lock()?;
        Ok(())
    }

    /// Releases the file's lock.
    pub(crate) fn unlock(&self) {
        let _ = self.file.unlock();
    }
}

impl<F: OpenFile> RecordSink<F> {
    /// Returns the metadata of the file.
    pub(crate) fn metadata(&self) -> Result<Metadata, DeviceFault> {
        Ok(self.file.metadata()?)
    }

    /// Cuts the file to its good bytes. If that fails, nothing more is written. The caller must hold the file's lock,
    /// since no other builder may write meanwhile.
    pub(crate) fn cut(&mut self) -> Result<(), DeviceFault>
        ensures file { self.new.file ≡ self.old.file }
        ensures good { self.new.good ≡ self.old.good }
        ensures well { OnOk result (self.new.broken ≡ self.old.broken) }
        ensures broken { OnErr result (self.new.broken ≡ true) }
    {
        match self.file.set_len(self.good) {
            Ok(()) => Ok(()),
            Err(error) => {
                self.broken = true;
                Err(DeviceFault::from(error))
            }
        }
    }

    /// Returns how many bytes the file has after its good bytes. If the file is shorter or was removed, the path no
    /// longer names this record, and nothing more is written.
    fn unread_len(&mut self) -> Result<u64, DeviceFault>
        ensures file { self.new.file ≡ self.old.file }
        ensures good { self.new.good ≡ self.old.good }
        ensures well { OnOk result (self.new.broken ≡ self.old.broken) }
    {
        let found = self.file.metadata()?;
        match found.len().checked_sub(self.good) {
            Some(len) if found.nlink() > 0 => Ok(len),
            _ => {
                self.broken = true;
                Err(DeviceFault::Lost)
            }
        }
    }
}

impl<F: Read + Seek + OpenFile> RecordSink<F> {
    /// Returns the bytes after the good bytes, which other builders appended.
    pub(crate) fn unread(&mut self, alloc: Global) -> Result<Vec<u8>, DeviceFault>
        ensures good { self.new.good ≡ self.old.good }
        ensures well { OnOk result (self.new.broken ≡ self.old.broken) }
    {
        let mut bytes = Vec::new(alloc);
        if self.unread_len()? > 0 {
            self.file.seek(SeekFrom::Start(self.good))?;
            self.file.read_to_end(&mut bytes)?;
        }
        Ok(bytes)
    }
}

impl<F: Write + OpenFile> RecordSink<F> {
    /// Appends bytes to the file, which ends with its good bytes, and returns the new length. The bytes count as good
    /// once they are accepted. If not all of them can be written, cuts the file to its good bytes.
    pub(crate) fn put(&mut self, bytes: &[u8]) -> Result<u64, DeviceFault>
        ensures written { OnOk result (Appends (F.contents self.old.file) (F.contents self.new.file) bytes.now) }
        ensures good { self.new.good ≡ self.old.good }
        ensures end { IfOk result (λ end. end ≡ self.old.good + length bytes.now) }
        ensures well { OnOk result (self.new.broken ≡ self.old.broken) }
    {
        let end = self.end_of(bytes.len())?;
        match write_at_once(&mut self.file, bytes) {
            Ok(()) => Ok(end),
            Err(fault) => {
                self.cut()?;
                Err(fault)
            }
        }
    }
}

/// The command of a start entry: one NUL byte, which no manifest's command has.
const BEGUN: [u8; 1] = [0];

/// A path that is always missing, since `/dev/null` is no folder.
const MISSING: [u8; 15] = *b"/dev/null/begun";

/// Returns the contents of an entry, except its output.
pub(crate) fn recorded_of(alloc: Global, entry: &Entry) -> Result<Recorded, DeviceFault>
    ensures said { IfOk result (λ r. r ≡ record { command = entry.now.command; basis = entry.now.basis; paths = entry.now.paths }) }
    ensures memory { IfErr result (λ f. f ≡ DeviceFault.Memory) }
{
    let command = Words::of(alloc, entry.command())?;
    let paths = PathList::of_shared_rows(alloc, entry.paths()?.into_rows(alloc)?)?;
    Ok(Recorded::new(alloc, command, entry.basis(), paths)?)
}

/// Returns these paths, each with its own bytes.
fn items_of(alloc: Global, paths: &PathList) -> Result<Vec<Items<u8>>, AllocError>
    ensures { IfOk result (λ items. items.items ≡ paths.now) }
{
    let mut items = Vec::new(alloc);
    for number in 0..paths.len() {
        items.push(Items::new(Vec::from_slice(alloc, paths.path(number))?))?;
    }
    Ok(items)
}

/// Returns the entry of an edge that ran.
pub(crate) fn entry_of(
    alloc: Global,
    output: &[u8],
    command: &[u8],
    basis: u64,
    paths: &PathList,
) -> Result<Entry, DeviceFault>
    ensures made { IfOk result (λ entry. entry ≡ edge_entry output.now command.now basis paths.now) }
    ensures within { OnOk result (HasSpelling (edge_entry output.now command.now basis paths.now)) }
    ensures outside { IfErr result (λ f. f ≢ DeviceFault.Memory → HasSpelling (edge_entry output.now command.now basis paths.now) → ⊥) }
{
    let paths = items_of(alloc, paths)?;
    Ok(Entry::new(alloc, output, command, basis, &paths)?)
}

/// Checks whether an entry is a start entry: its edge was begun.
pub(crate) fn is_begun(entry: &Entry) -> bool
    ensures { result ≡ is_begun entry.now }
{
    entry.command() == BEGUN.as_slice()
}

/// Returns the outputs of these entries.
pub(crate) fn outputs_of(alloc: Global, entries: &[Entry]) -> Result<RowList<u8>, AllocError>
    ensures { IfOk result (λ rows. rows ≡ map (λ x. x.output) entries.now) }
{
    let mut rows = RowList::new(alloc);
    for entry in entries {
        rows.push(entry.output())?;
    }
    Ok(rows)
}

/// Returns the entry of an edge whose command is about to start.
pub(crate) fn begun_entry(alloc: Global, output: &[u8]) -> Result<Entry, DeviceFault>
    ensures made { IfOk result (λ entry. entry ≡ begun output.now) }
    ensures within { OnOk result (HasSpelling (begun output.now)) }
    ensures outside { IfErr result (λ f. f ≢ DeviceFault.Memory → HasSpelling (begun output.now) → ⊥) }
{
    let mut paths = Vec::new(alloc);
    paths.push(Items::new(Vec::from_slice(alloc, &MISSING)?))?;
    Ok(Entry::new(alloc, output, &BEGUN, 0, &paths)?)
}

/// Returns the start entry of an output other than the first one of its edge.
fn begun_with_entry(alloc: Global, first: &[u8], output: &[u8]) -> Result<Entry, DeviceFault>
    ensures { IfOk result (λ entry. entry ≡ begun_with first.now output.now) }
{
    let mut paths = Vec::new(alloc);
    paths.push(Items::new(Vec::from_slice(alloc, &MISSING)?))?;
    paths.push(Items::new(Vec::from_slice(alloc, first)?))?;
    Ok(Entry::new(alloc, output, &BEGUN, 0, &paths)?)
}

/// Appends the start entries of the outputs of an edge, except the first one, to others.
pub(crate) fn push_others_begun(
    alloc: Global,
    outputs: &RowList<u8>,
    entries: &mut Vec<Entry>,
) -> Result<(), DeviceFault>
    ensures { OnOk result (entries.new.items ≡ entries.old.items ++ map (begun_with (get_or outputs.now 0 [])) (drop 1 outputs.now)) }
{
    for number in 1..outputs.len() {
        entries.push(begun_with_entry(alloc, outputs.row(0), outputs.row(number))?)?;
    }
    Ok(())
}

/// Appends these paths to others, each with its own bytes.
fn push_rows(
    alloc: Global,
    rows: &RowList<u8>,
    paths: &mut Vec<Items<u8>>,
) -> Result<(), AllocError>
    ensures { OnOk result (paths.new.items ≡ paths.old.items ++ rows.now) }
{
    for number in 0..rows.len() {
        paths.push(Items::new(Vec::from_slice(alloc, rows.row(number))?))?;
    }
    Ok(())
}

/// Appends an output and the paths that its start entry keeps to others, if there are any.
#[tactic(auto, using(crate::proofs::RecordingLemmas::none_kept, crate::proofs::RecordingLemmas::some_kept))]
fn push_kept(
    alloc: Global,
    output: &[u8],
    kept: &RowList<u8>,
    paths: &mut Vec<Items<u8>>,
) -> Result<(), AllocError>
    ensures { OnOk result (paths.new.items ≡ paths.old.items ++ kept_after output.now kept.now) }
{
    if kept.len() == 0 {
        return Ok(());
    }
    paths.push(Items::new(Vec::from_slice(alloc, output)?))?;
    push_rows(alloc, kept, paths)
}

/// Returns the start entry of a first output that keeps these paths.
pub(crate) fn begun_keeping_entry(
    alloc: Global,
    output: &[u8],
    kept: &RowList<u8>,
) -> Result<Entry, DeviceFault>
    ensures made { IfOk result (λ entry. entry ≡ begun_keeping output.now kept.now) }
    ensures within { OnOk result (HasSpelling (begun_keeping output.now kept.now)) }
{
    let mut paths = Vec::new(alloc);
    paths.push(Items::new(Vec::from_slice(alloc, &MISSING)?))?;
    push_kept(alloc, output, kept, &mut paths)?;
    Ok(Entry::new(alloc, output, &BEGUN, 0, &paths)?)
}

/// Skips the first two paths.
fn after_two(paths: Paths) -> Paths
    ensures { result ≡ drop 2 paths }
{
    let mut paths = paths;
    paths.advance();
    paths.advance();
    paths
}

/// Returns the paths that the last command of an edge read that succeeded, by the last entry of the edge's first output.
fn paths_read(entry: &Entry) -> Result<Paths, DeviceFault>
    ensures { IfOk result (λ paths. paths ≡ paths_read (Some entry.now)) }
{
    let paths = entry.paths()?;
    if is_begun(entry) {
        return Ok(after_two(paths));
    }
    Ok(paths)
}

/// Returns those paths that may be in a set and that the last command of an edge read that succeeded, by the last entry
/// of the edge's first output.
pub(crate) fn read_among(
    alloc: Global,
    entry: &Entry,
    wanted: &PathFilter,
) -> Result<RowList<u8>, DeviceFault>
    ensures { IfOk result (λ found. AreAmong wanted.now (paths_read (Some entry.now)) found) }
{
    let paths = paths_read(entry)?;
    Ok(paths.among(alloc, wanted)?)
}

/// Appends the first output of another edge to others, unless it is that of this edge.
fn push_other(first: &[u8], other: &[u8], outputs: &mut RowList<u8>) -> Result<(), AllocError>
    ensures { OnOk result (outputs.new ≡ outputs.old ++ ended_by first.now (Some other.now)) }
{
    if other == first {
        return Ok(());
    }
    outputs.push(other)
}

/// Appends the first output of another edge which made an output before, by the last entry of the output, to others.
/// Appends nothing if this entry isn't a start entry that names another edge.
pub(crate) fn push_ended(
    first: &[u8],
    last: &Entry,
    outputs: &mut RowList<u8>,
) -> Result<(), DeviceFault>
    ensures { OnOk result (outputs.new ≡ outputs.old ++ ended_by first.now (first_named last.now)) }
{
    if !is_begun(last) {
        return Ok(());
    }
    let mut paths = last.paths()?;
    paths.advance();
    match paths.first() {
        Some(other) => Ok(push_other(first, other, outputs)?),
        None => Ok(()),
    }
}

/// Checks whether an output was last made by the edge with this first output, as another one than that, by the last
/// entry of the output.
pub(crate) fn is_begun_with(first: &[u8], last: &Entry) -> Result<bool, DeviceFault>
    ensures { IfOk result (λ is. IsTrue is ↔ (first_named last.now ≡ Some first.now)) }
{
    if !is_begun(last) {
        return Ok(false);
    }
    let mut paths = last.paths()?;
    paths.advance();
    match paths.first() {
        Some(named) => Ok(named == first),
        None => Ok(false),
    }
}

/// Returns those paths of an entry that may be in a set. Returns None if it is a start entry, or if it has no paths.
pub(crate) fn entry_among(
    alloc: Global,
    entry: &Entry,
    wanted: &PathFilter,
) -> Result<Option<RowList<u8>>, DeviceFault>
    ensures among { IfOk result (λ found. IfSome found (λ paths. AreAmong wanted.now entry.now.paths paths)) }
    ensures none { IfOk result (λ found. is_none found ≡ (is_begun entry.now || is_none (slice_get entry.now.paths 0))) }
{
    let paths = entry.paths()?;
    if is_begun(entry) || paths.first().is_none() {
        return Ok(None);
    }
    let found = paths.among(alloc, wanted)?;
    Ok(Some(found))
}
