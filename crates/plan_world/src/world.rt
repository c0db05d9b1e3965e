//! The world of real files and commands.

ghost use Rattle.std.specs.Prelude.{◌≡◌, ◌≤◌, ℕ, [], IfOk, IfSome, IsUtf8, None, Ok, Some, get_or};
ghost use Rattle.plan_machine.specs.declared.event.reply.Reply.TheVariants as reply;
ghost use Rattle.plan_verify.specs.Turn.{Keep, Recall, Run};
ghost use Rattle.plan_world.specs.Answers.{IsAnswer, IsByShell, MayAnswer};
ghost use Rattle.plan_world.specs.Askable.{AreAskable};
ghost use Rattle.plan_world.specs.Recording.{edge_entry};
ghost use Rattle.plan_world.specs.Shells.{AreTexts};

use crate::begins::{Begins, basis_from, is_later};
use crate::builder_lock::{BuilderLock, SharedFile};
use crate::depfile::{count_named, read_depfile};
use crate::disk::Disk;
use crate::ended_entries::EndedEntries;
use crate::fault::{DeviceFault, OpenFault};
use crate::manifest_paths::ManifestPaths;
use crate::opening::{Opened, open_for_building, open_for_reading, open_locked};
use crate::read_depfiles::ReadDepfiles;
use crate::reasons::say;
use crate::recalling::{as_recalled, askable_among, if_askable, kept_among, recall_reply};
use crate::record_file::{Kept, RecordFile, StartRecorded};
use crate::record_sink::{begun_entry, is_begun, is_begun_with};
use crate::shell::{Shells, make_folders, run_shell};
use crate::stamp::{is_file, stat};
use plan_lanes::{KeepOrder, Permit, World};
use plan_machine::Reply;
use plan_record::Entry;
use plan_text::{PathFilter, RowList};
use std::alloc::{AllocError, Global};
use std::env::Env;
use std::fs::{self, OpenFile};
use std::io::{Read, Seek, Write};
use std::rt::Files;
use std::sync::{Mutex, Wait};
use std::thread::Parker;
use std::time::Clock;

/// Real files and commands, and a record file that is open. Several lanes may call it at the same time.
///
/// Before a command is started, the record says that its edge was begun. So an edge whose command failed or was
/// interrupted is out of date the next time. A program creates the world in `main`, with its own runtime.
#[derive(Drop)]
pub struct RealWorld<R: Files, S, D> {
    rt: R,
    /// Runs the shells of commands.
    shells: S,
    /// Looks at files, and reads depfiles.
    disk: D,
    /// Locked while the output of a command is written, and while a console command runs.
    screen: Mutex<()>,
    /// Unparked before a command is started.
    parker: Parker,
    /// The path of the record.
    path: String,
    /// The stamp that the record had when it was opened. None if it was missing or empty.
    opened: Option<u64>,
    /// The record, or None before it is read.
    record: Mutex<Option<RecordFile<R::File>>>,
    /// Keeps other builders from the record.
    lock: BuilderLock<R::File>,
    /// The commands that have begun. None unless this is a world of the stricter rule.
    begins: Option<Begins>,
    /// The outputs whose entries were ended for this build.
    ended: EndedEntries,
    /// What is known of the paths of the manifest.
    manifest: ManifestPaths,
    /// The depfiles that were read when a command had ended.
    depfiles: ReadDepfiles,
}

impl<R: Files + Env + Clock + Eprint + AllocGlobal, S, D> RealWorld<R, S, D>
where
    R::File: Read + Write + Seek + OpenFile + SharedFile + Drop,
{
    /// Opens the world of a runtime, of shells and of files, with the record at this path. Creates an empty record if
    /// it is missing. Its folder must exist. A record that may not be written is only read.
    ///
    /// Waits while another builder uses the record, or a command of a builder that was killed, and reports that on
    /// standard error after a second. A builder that was started by a command of that builder doesn't wait.
    ///
    /// A record of 64 KiB or more isn't read here, but by `read_record` or by the first call that needs it.
    ///
    /// # Errors
    /// `Device` if the record or its lock can't be created, read, locked or cut, if the lock is a symbolic link, or if
    /// the builder that holds it waits for this one in another folder, and `Memory`.
    pub fn open(rt: R, shells: S, disk: D, record: &str) -> Result<RealWorld<R, S, D>, OpenFault>
    where
        R: Clone + Drop,
        S: Drop,
        D: Drop,
    {
        RealWorld::open_with(rt, shells, disk, record, None)
    }

    /// Opens the world of the stricter rule, like `open`. In this world each output of an edge has a start entry before
    /// its command begins, and entries of other edges that made one of these files end. The basis of an entry is at
    /// most the stamp that a file would have got when the command began. So an input that is changed while the command
    /// runs makes the edge out of date in the next build.
    ///
    /// # Errors
    /// As for `open`.
    pub fn open_stricter(
        rt: R,
        shells: S,
        disk: D,
        record: &str,
    ) -> Result<RealWorld<R, S, D>, OpenFault>
    where
        R: Clone + Drop,
        S: Drop,
        D: Drop,
    {
        let begins = Begins::next_to(rt.alloc(), record)?;
        RealWorld::open_with(rt, shells, disk, record, Some(begins))
    }

    /// Opens the world of the stricter rule for a build that runs no commands. Reads the record, which may be missing,
    /// as it is now: takes no lock, waits for no other builder, and creates and writes nothing. No command is started,
    /// and no entry is kept.
    ///
    /// # Errors
    /// `Device` if the record can't be read, and `Memory`.
    pub fn open_reading(
        rt: R,
        shells: S,
        disk: D,
        record: &str,
    ) -> Result<RealWorld<R, S, D>, OpenFault>
    where
        R: Drop,
        S: Drop,
        D: Drop,
    {
        let begins = Begins::next_to(rt.alloc(), record)?;
        let opened = open_for_reading(&rt, record);
        RealWorld::with_opened(rt, shells, disk, record, Some(begins), opened)
    }

    /// Opens the world of a runtime, of shells and of files. If `begins` is given, it is a world of the stricter rule.
    fn open_with(
        rt: R,
        shells: S,
        disk: D,
        record: &str,
        begins: Option<Begins>,
    ) -> Result<RealWorld<R, S, D>, OpenFault>
    where
        R: Clone + Drop,
        S: Drop,
        D: Drop,
    {
        let opened = open_for_building(&rt, record, begins.is_some());
        RealWorld::with_opened(rt, shells, disk, record, begins, opened)
    }

    /// Returns the world with a record that was opened. If it couldn't be opened, reports the reason on standard error.
    fn with_opened(
        rt: R,
        shells: S,
        disk: D,
        record: &str,
        begins: Option<Begins>,
        opened: Result<Opened<R::File>, DeviceFault>,
    ) -> Result<RealWorld<R, S, D>, OpenFault>
    where
        R: Drop,
        S: Drop,
        D: Drop,
    {
        match with_paths(&rt, record, opened) {
            Ok((opened, manifest)) => {
                Ok(RealWorld::of(rt, shells, disk, begins, opened, manifest))
            }
            Err(fault) => Err(fault),
        }
    }

    /// Returns the world with these parts.
    fn of(
        rt: R,
        shells: S,
        disk: D,
        begins: Option<Begins>,
        opened: Opened<R::File>,
        manifest: ManifestPaths,
    ) -> RealWorld<R, S, D> {
        let alloc = rt.alloc();
        let Opened {
            path,
            lock,
            stamp,
            file,
        } = opened;
        RealWorld {
            rt,
            shells,
            disk,
            screen: Mutex::new(()),
            parker: Parker::new(),
            path,
            opened: stamp,
            record: Mutex::new(file),
            lock,
            begins,
            ended: EndedEntries::new(alloc),
            manifest,
            depfiles: ReadDepfiles::new(alloc),
        }
    }
}

/// Returns a record that was opened, with sets for the paths of a manifest. If it couldn't be opened, reports the
/// reason on standard error.
fn with_paths<R: Eprint + AllocGlobal, F: Drop>(
    rt: &R,
    record: &str,
    opened: Result<Opened<F>, DeviceFault>,
) -> Result<(Opened<F>, ManifestPaths), OpenFault> {
    match opened {
        Ok(opened) => {
            let manifest = ManifestPaths::new(rt.alloc())?;
            Ok((opened, manifest))
        }
        Err(fault) => {
            say(rt, "can't open the record", record.as_bytes(), fault);
            Err(OpenFault::from(fault))
        }
    }
}

/// Returns the path of a file from the root.
fn whole_path<R: Files + AllocGlobal>(rt: &R, path: &str) -> Result<String, DeviceFault> {
    if path.starts_with('/') {
        return Ok(String::from_str(rt.alloc(), path)?);
    }
    let folder = fs::canonicalize(rt, ".")?;
    let folder = folder.as_str();
    Ok(format!(in rt.alloc(); "{folder}/{path}")?)
}

impl<R: Files + Wait + Eprint + AllocGlobal, S, D> RealWorld<R, S, D>
where
    R::File: Read + Write + Seek + OpenFile + SharedFile + Drop,
{
    /// Reads the record and cuts it to its whole entries, unless that was done before. Compacts a record that has
    /// grown, if no builder above this one holds its lock. Lanes may call the world meanwhile. A call that needs the
    /// record waits.
    ///
    /// # Errors
    /// `Device` if the record can't be opened, read, locked or cut, and `Memory`. The reason is reported on standard
    /// error. A record that can't be compacted is used as it is. While the record can't be read, edges that need it
    /// fail, and no command is started.
    pub fn read_record(&self) -> Result<(), OpenFault> {
        let mut record = self.record.lock(&self.rt);
        match self.read_in(&mut record) {
            Ok(_) => Ok(()),
            Err(fault) => {
                say(
                    &self.rt,
                    "can't open the record",
                    self.path.as_bytes(),
                    fault,
                );
                Err(OpenFault::from(fault))
            }
        }
    }

    /// Checks whether the record was read: by `open`, by `read_record`, or by the first call that needed it.
    pub fn has_read_record(&self) -> bool {
        self.record.lock(&self.rt).is_some()
    }

    /// Returns the last entry of each output, in the record's order. Reads the record first if that wasn't done yet.
    ///
    /// # Errors
    /// As for `read_record`, and `Memory`.
    pub fn last_entries(&self) -> Result<Vec<Entry>, OpenFault> {
        self.read_record()?;
        let mut record = self.record.lock(&self.rt);
        let read = self.read_in(&mut record)?;
        Ok(read.last_entries(self.rt.alloc())?)
    }

    /// Returns the record, and reads it first if that wasn't done yet.
    fn read_in<'a>(
        &self,
        record: &'a mut Option<RecordFile<R::File>>,
    ) -> Result<&'a mut RecordFile<R::File>, DeviceFault> {
        if record.is_none() {
            *record = Some(open_locked(&self.rt, &self.path, &self.lock)?);
        }
        record.as_mut().ok_or(DeviceFault::Lost)
    }
}

impl<R: Files, S, D> RealWorld<R, S, D>
where
    R::File: SharedFile,
{
    /// Releases the lock of the record, also for processes that commands left running. A program calls this when its
    /// build has ended. If the program is killed before, its commands hold the lock until they end.
    pub fn release(&self) {
        self.lock.release();
    }
}

impl<R: Files, S, D> RealWorld<R, S, D> {
    /// Returns the lock of standard output. It is held while a command's output is written, and while a console command
    /// runs. Other writers to standard output must take it too.
    pub fn screen(&self) -> &Mutex<()> {
        &self.screen
    }

    /// Returns the parker of the thread that prints status lines. The world unparks it before it starts a command, so
    /// that the lines so far are printed before the command's output. Only one thread at a time may park on it.
    pub fn parker(&self) -> &Parker {
        &self.parker
    }
}

impl<R: Files + Print + Eprint + Wait + AllocGlobal, S: Shells, D: Disk> RealWorld<R, S, D>
where
    R::File: Read + Write + Seek + OpenFile + SharedFile + Drop,
{
    /// Runs the command of an edge that makes these files. The first of them names the edge in the record.
    pub(crate) fn start(&self, permit: Permit, outputs: &RowList<u8>) -> Result<Reply, AllocError>
        ensures suits { IfOk result (λ r. IsAnswer (Run permit.command outputs.now) r) }
        ensures no_output { outputs.now ≡ [] → result ≡ Ok reply.NotStarted }
        ensures no_path { ¬ (AreTexts outputs.now) → result ≡ Ok reply.NotStarted }
        ensures no_text { ¬ (IsUtf8 permit.command) → IfOk result (λ r. r ≡ reply.NotStarted) }
        ensures ran { IfOk result (λ r. IsByShell S.ended permit.command r) }
    {
        if outputs.len() == 0 || !make_folders(&self.rt, outputs) {
            permit.spend();
            return Ok(Reply::NotStarted);
        }
        self.parker.unpark();
        match self.begin(outputs) {
            Ok(begun) => run_shell(
                &self.rt,
                &self.screen,
                &self.shells,
                permit,
                outputs,
                &self.lock,
                begun,
            ),
            Err(fault) => {
                permit.spend();
                say(
                    &self.rt,
                    "can't start the command of",
                    outputs.row(0),
                    fault,
                );
                fault.or_reply(Reply::NotStarted)
            }
        }
    }

    /// Appends start entries to the record: the command of the edge that makes these files is about to start. The entry
    /// of the edge no longer counts, nor is it ended for this build.
    fn begin<'a>(&self, outputs: &'a RowList<u8>) -> Result<StartRecorded<'a>, DeviceFault>
        ensures { IfOk result (λ b. b ≡ get_or outputs.now 0 []) }
    {
        let mut record = self.record.lock(&self.rt);
        let record = self.read_in(&mut record)?;
        let begun = match self.begin_in(record, outputs) {
            Ok(begun) => begun,
            Err(fault) => {
                self.say_unwritten(fault);
                return Err(fault);
            }
        };
        if let Some(begins) = &self.begins {
            self.add_begin(begins, record, outputs)?;
        }
        self.ended.remove(&self.rt, outputs.row(0));
        Ok(begun)
    }

    /// Appends the start entries of an edge to the record. By the stricter rule these are entries of all its outputs,
    /// after those of the outputs whose entries were ended.
    fn begin_in<'a>(
        &self,
        record: &mut RecordFile<R::File>,
        outputs: &'a RowList<u8>,
    ) -> Result<StartRecorded<'a>, DeviceFault>
        ensures { IfOk result (λ b. b ≡ get_or outputs.now 0 []) }
    {
        let wanted = self.manifest.outputs(&self.rt);
        match &self.begins {
            Some(_) => {
                self.end_in_record(record, &wanted)?;
                record.begin_all(self.rt.alloc(), outputs, &wanted)
            }
            None => record.begin(self.rt.alloc(), outputs.row(0), &wanted),
        }
    }

    /// Adds the begin of the command of an edge, whose start entries were just written, to others. Marks its outputs
    /// for ninja.
    fn add_begin(
        &self,
        begins: &Begins,
        record: &RecordFile<R::File>,
        outputs: &RowList<u8>,
    ) -> Result<(), DeviceFault> {
        begins.add(&self.rt, outputs.row(0), record.stamp()?)?;
        begins.ninja_log().begin(&self.rt, outputs)
    }

    /// Reports on standard error that an entry can't be written to the record, with the folder of the record.
    fn say_unwritten(&self, fault: DeviceFault) {
        match whole_path(&self.rt, self.path.as_str()) {
            Ok(path) => say(&self.rt, "can't write", path.as_bytes(), fault),
            Err(_) => say(&self.rt, "can't write", self.path.as_bytes(), fault),
        }
    }

    /// Appends start entries for the outputs whose entries were ended for this build. When the record is written, its
    /// stamp no longer shows which outputs were changed before. So the next build wouldn't end those entries again that
    /// this one doesn't want, or doesn't reach.
    fn end_in_record(
        &self,
        record: &mut RecordFile<R::File>,
        wanted: &PathFilter,
    ) -> Result<(), DeviceFault> {
        let outputs = self.ended.take_unwritten(&self.rt);
        match begin_each(self.rt.alloc(), record, &outputs, wanted) {
            Ok(()) => Ok(()),
            Err(fault) => {
                self.ended.give_back(&self.rt, outputs);
                Err(fault)
            }
        }
    }

    /// Returns when the command of an edge began, if this is a world of the stricter rule. Can be asked once.
    fn begin_of(&self, output: &[u8]) -> Option<u64> {
        match &self.begins {
            Some(begins) => begins.take(&self.rt, output),
            None => None,
        }
    }

    /// Appends the entry of an order to the record. Its basis is at most the begin of its command, if that is given.
    fn append<'a>(&self, order: &'a KeepOrder, begin: Option<u64>) -> Result<Kept<'a>, DeviceFault>
        ensures { IfOk result (λ k. (kept : ℕ) × (kept ≤ order.now.basis) × (k ≡ edge_entry order.now.output order.now.command kept order.now.paths)) }
    {
        let mut record = self.record.lock(&self.rt);
        let record = self.read_in(&mut record)?;
        record.keep_edge(self.rt.alloc(), order, basis_from(begin, order.basis()))
    }

    /// Marks the outputs of an edge as made in ninja's log, if its command ran in this build. Its entry is kept after
    /// that: the log is later than the record only if ninja wrote in it.
    fn end_for_ninja(&self, order: &KeepOrder, begin: Option<u64>) {
        if let (Some(begins), Some(begin)) = (&self.begins, begin) {
            begins
                .ninja_log()
                .end(&self.rt, order.output(), order.command(), begin);
        }
    }

    /// Returns the stamp of the record, which was just written. Returns None if it can't be determined.
    fn stamp_now(&self) -> Option<u64> {
        let mut record = self.record.lock(&self.rt);
        match self.read_in(&mut record) {
            Ok(record) => record.stamp().ok(),
            Err(_) => None,
        }
    }

    /// Warns if an edge whose entry was just kept read a file of the future. It is asked only if something that the
    /// edge read is later than the begin of its command.
    fn warn_of_future(&self, order: &KeepOrder, begin: Option<u64>) {
        let (Some(begins), Some(begin)) = (&self.begins, begin) else {
            return;
        };
        if !is_later(order.basis(), begin) {
            return;
        }
        match self.stamp_now() {
            Some(now) if is_later(order.basis(), now) => {
                begins.warn(&self.rt, order.output(), order.paths(), now)
            }
            _ => {}
        }
    }

    /// Returns the last entry of an output as its edge recalls it, if there is one. If its entry was ended for this
    /// build, returns a start entry.
    fn last(&self, output: &[u8]) -> Result<Option<Entry>, DeviceFault>
        ensures { IfOk result (λ found. IfSome found (λ e. e.output ≡ output.now)) }
    {
        if self.ended.has(&self.rt, output) {
            return Ok(Some(begun_entry(self.rt.alloc(), output)?));
        }
        match self.last_recorded(output)? {
            Some(entry) => Ok(Some(as_recalled(self.rt.alloc(), output, entry)?)),
            None => Ok(None),
        }
    }

    /// Returns the last entry that the record has for an output, if there is one, whether or not it was ended for this
    /// build.
    fn last_recorded(&self, output: &[u8]) -> Result<Option<Entry>, DeviceFault>
        ensures { IfOk result (λ found. IfSome found (λ e. e.output ≡ output.now)) }
    {
        let mut record = self.record.lock(&self.rt);
        let record = self.read_in(&mut record)?;
        record.last(self.rt.alloc(), output)
    }

    /// Returns those paths of the last entry of an output that may be in a set, whether or not the entry was ended for
    /// this build. Returns None if there is no entry, or if it is a start entry, has no paths or is spoilt.
    fn last_among(
        &self,
        alloc: Global,
        output: &[u8],
        wanted: &PathFilter,
    ) -> Result<Option<RowList<u8>>, DeviceFault>
        ensures { IfOk result (λ found. IfSome found (λ paths. AreAskable paths)) }
    {
        match self.last_recorded(output)? {
            Some(entry) => askable_among(alloc, &entry, wanted),
            None => Ok(None),
        }
    }

    /// Returns those paths that the start entry of an output keeps and that may be in a set. Returns None if its last
    /// entry is no start entry, keeps no such paths, or is spoilt.
    fn last_begun_among(
        &self,
        alloc: Global,
        output: &[u8],
        wanted: &PathFilter,
    ) -> Result<Option<RowList<u8>>, DeviceFault>
        ensures { IfOk result (λ found. IfSome found (λ paths. AreAskable paths)) }
    {
        match self.last_recorded(output)? {
            Some(entry) => kept_among(alloc, &entry, wanted),
            None => Ok(None),
        }
    }

    /// Checks whether ninja's record of what its commands read is as late as the record was when it was opened.
    fn is_read_since(&self, begins: &Begins) -> bool {
        match self.opened {
            Some(opened) => begins.ninja_deps().file().stamp(&self.rt) >= opened,
            None => false,
        }
    }

    /// Checks whether ninja's log is later than the record was when it was opened. A builder of this project writes its
    /// lines there before its entries.
    fn is_run_since(&self, begins: &Begins) -> bool {
        match self.opened {
            Some(opened) => begins.ninja_runs().file().stamp(&self.rt) > opened,
            None => false,
        }
    }

    /// Checks whether ninja's record of what its commands read counts for an output, if this is a world of the stricter
    /// rule. If the output has an entry of a command that ended, ninja's record must be as late as the record was when
    /// it was opened. `is_recorded` says that there is such an entry, which names paths.
    fn counts_for_ninja(&self, output: &[u8], is_recorded: bool) -> Result<bool, DeviceFault> {
        let Some(begins) = &self.begins else {
            return Ok(false);
        };
        let is_later = self.is_read_since(begins);
        if is_later | is_recorded {
            return Ok(is_later);
        }
        match self.last_recorded(output)? {
            Some(last) => Ok(is_begun(&last)),
            None => Ok(true),
        }
    }

    /// Returns the paths that ninja's record names for an output and that may be in a set. Returns None if it names
    /// none.
    fn named_by_ninja(
        &self,
        output: &[u8],
        wanted: &PathFilter,
    ) -> Result<Option<RowList<u8>>, DeviceFault>
        ensures { IfOk result (λ found. IfSome found (λ paths. AreAskable paths)) }
    {
        let Some(begins) = &self.begins else {
            return Ok(None);
        };
        let found = begins.ninja_deps().named_among(&self.rt, output, wanted)?;
        if found.len() == 0 {
            return Ok(None);
        }
        Ok(if_askable(found))
    }

    /// Returns the paths that ninja's record names for an output, if it counts, and that may be in a set. Returns None
    /// if it names none.
    fn foreign_paths(
        &self,
        output: &[u8],
        wanted: &PathFilter,
        is_recorded: bool,
    ) -> Result<Option<RowList<u8>>, DeviceFault>
        ensures { IfOk result (λ found. IfSome found (λ paths. AreAskable paths)) }
    {
        if self.counts_for_ninja(output, is_recorded)? {
            return self.named_by_ninja(output, wanted);
        }
        Ok(None)
    }

    /// Returns the last entry of an edge, by its first output, if it is that of a command that ended before this build.
    fn last_ended(&self, begins: &Begins, first: &[u8]) -> Result<Option<Entry>, DeviceFault> {
        if begins.have(&self.rt, first) {
            return Ok(None);
        }
        match self.last_recorded(first)? {
            Some(last) if !is_begun(&last) => Ok(Some(last)),
            _ => Ok(None),
        }
    }

    /// Checks whether ninja's record of what its commands read is as late as the record, and names a path for an output
    /// that its last entry doesn't have.
    fn is_read_otherwise(&self, begins: &Begins, output: &[u8]) -> Result<bool, DeviceFault> {
        if !self.is_read_since(begins) {
            return Ok(false);
        }
        match self.last_ended(begins, output)? {
            Some(last) => begins.ninja_deps().names_others(&self.rt, &last),
            None => Ok(false),
        }
    }

    /// Checks whether ninja's log is later than the record, and says that ninja may have made an output after the last
    /// entry of its edge.
    fn is_run_otherwise(
        &self,
        begins: &Begins,
        output: &[u8],
        first: &[u8],
    ) -> Result<bool, DeviceFault> {
        if !self.is_run_since(begins) {
            return Ok(false);
        }
        let Some(command) = begins.ninja_runs().last(&self.rt, output)? else {
            return Ok(false);
        };
        match self.last_ended(begins, first)? {
            Some(last) => Ok(command.may_be_foreign(last.command())),
            None => Ok(false),
        }
    }

    /// Appends a start entry for the path of a depfile that was read, unless it has an entry. If that fails, the edge
    /// that has it runs once more.
    fn mark_read(&self, path: &[u8]) {
        if let Ok(None) = self.last_recorded(path) {
            let _ = self.begin_file(path);
        }
    }

    /// Lets all depfiles stay if a stamp can't be determined: an edge fails then, although it may have read its
    /// depfile.
    fn note_fault(&self, reply: &Result<Reply, AllocError>) {
        if let Ok(Reply::Fault) = reply {
            self.depfiles.keep_all();
        }
    }

    /// Notes that an edge has read a depfile, if this is a world of the stricter rule. If the depfile is missing or
    /// names nothing, appends a start entry for its path. If it names something, it may be removed when the build has
    /// ended.
    fn note_read(&self, number: u64, path: &[u8], reply: &Result<Reply, AllocError>) {
        if number == 0 || self.begins.is_none() {
            return;
        }
        if let Ok(reply) = reply {
            match count_named(self.rt.alloc(), reply) {
                Ok(Some(0)) => self.mark_read(path),
                Ok(Some(_)) => self.depfiles.add(&self.rt, path),
                _ => {}
            }
        }
    }

    /// Appends a start entry for a path.
    fn begin_file(&self, path: &[u8]) -> Result<(), DeviceFault> {
        let mut record = self.record.lock(&self.rt);
        let wanted = self.manifest.outputs(&self.rt);
        self.read_in(&mut record)?
            .begin(self.rt.alloc(), path, &wanted)?;
        Ok(())
    }

    /// Checks whether the last entry of an output is a start entry.
    fn is_last_begun(&self, output: &[u8]) -> Result<bool, DeviceFault> {
        match self.last_recorded(output)? {
            Some(last) => Ok(is_begun(&last)),
            None => Ok(false),
        }
    }

    /// Checks whether the last entry of an output is a start entry that names the edge with this first output.
    fn is_last_begun_with(&self, output: &[u8], first: &[u8]) -> Result<bool, DeviceFault> {
        match self.last_recorded(output)? {
            Some(last) => is_begun_with(first, &last),
            None => Ok(false),
        }
    }
}

/// Appends a start entry for each of these outputs, each by itself. It keeps the recorded paths that may be in a set.
fn begin_each<F: Read + Write + Seek + OpenFile + SharedFile>(
    alloc: Global,
    record: &mut RecordFile<F>,
    outputs: &RowList<u8>,
    wanted: &PathFilter,
) -> Result<(), DeviceFault> {
    for number in 0..outputs.len() {
        record.begin(alloc, outputs.row(number), wanted)?;
    }
    Ok(())
}

impl<R: Files + Print + Eprint + Wait + AllocGlobal, S: Shells, D: Disk> RealWorld<R, S, D>
where
    R::File: Read + Write + Seek + OpenFile + SharedFile + Drop,
{
    /// Returns the reply to a recall of an output: its last entry, if it isn't spoilt.
    #[tactic(auto, using(crate::proofs::AnswerLemmas::may_recall))]
    fn recall_last(&self, output: &[u8]) -> Result<Reply, DeviceFault>
        ensures { IfOk result (λ r. MayAnswer D.looked D.held S.ended (Recall output.now) r) }
    {
        let found = self.last(output)?;
        recall_reply(self.rt.alloc(), output, found)
    }
}

/// Returns an answer about another builder's record. It is no if a record can't be read.
fn unless_memory(answer: Result<bool, DeviceFault>) -> Result<bool, AllocError> {
    match answer {
        Ok(is_so) => Ok(is_so),
        Err(DeviceFault::Memory) => Err(AllocError),
        Err(_) => Ok(false),
    }
}

/// Returns the reply that the record has the entry of an edge.
fn keep_reply(kept: Kept<'_>, order: &KeepOrder) -> Reply
    requires { (least : ℕ) × (least ≤ order.now.basis) × (kept ≡ edge_entry order.now.output order.now.command least order.now.paths) }
    ensures suits { IsAnswer (Keep order.now.output order.now.command order.now.basis order.now.paths) result }
    ensures kept { result ≡ reply.Kept }
{
    Reply::Kept
}

/// Replies by `MayAnswer`. The kind of a reply suits its question, and a path or command that isn't UTF-8 is neither
/// looked up nor started. A stamp is of the time that a look at just this path found, and the bytes of a depfile were
/// read from just this path. The reply to a command is that it wasn't started, or the exit status of a shell that ran
/// exactly this command. No contract says what a file contains or what a command does.
impl<R: Files + Print + Eprint + Wait + AllocGlobal, S: Shells, D: Disk> World
    for RealWorld<R, S, D>
where
    R::File: Read + Write + Seek + OpenFile + SharedFile + Drop,
{
    ghost use Rattle.plan_world.specs.Answers.{MayAnswer};

    ghost allows = { λ _ question reply. MayAnswer D.looked D.held S.ended question reply };

    fn keeps_journal() -> bool {
        false
    }

    fn observes() -> bool {
        false
    }

    fn stat(&self, _number: u64, path: &[u8]) -> Result<Reply, AllocError> {
        let reply = stat(&self.disk, path);
        self.note_fault(&reply);
        reply
    }

    fn stat_ahead(&self, path: &[u8]) -> Option<u64> {
        match stat(&self.disk, path) {
            Ok(Reply::Stamp(stamp)) => Some(stamp),
            _ => None,
        }
    }

    fn recall(&self, _number: u64, output: &[u8]) -> Result<Reply, AllocError> {
        match self.recall_last(output) {
            Ok(reply) => Ok(reply),
            Err(fault) => fault.or_reply(Reply::Fault),
        }
    }

    fn recorded_among(
        &self,
        alloc: Global,
        output: &[u8],
        wanted: &PathFilter,
    ) -> Result<Option<RowList<u8>>, AllocError> {
        match self.last_among(alloc, output, wanted) {
            Ok(found) => Ok(found),
            Err(DeviceFault::Memory) => Err(AllocError),
            Err(_) => Ok(None),
        }
    }

    fn begun_among(
        &self,
        alloc: Global,
        output: &[u8],
        wanted: &PathFilter,
    ) -> Result<Option<RowList<u8>>, AllocError> {
        match self.last_begun_among(alloc, output, wanted) {
            Ok(kept) => Ok(kept),
            Err(DeviceFault::Memory) => Err(AllocError),
            Err(_) => Ok(None),
        }
    }

    /// The other record is that of ninja, by the stricter rule.
    fn foreign_among(
        &self,
        _alloc: Global,
        output: &[u8],
        wanted: &PathFilter,
        is_recorded: bool,
    ) -> Result<Option<RowList<u8>>, AllocError> {
        match self.foreign_paths(output, wanted, is_recorded) {
            Ok(named) => Ok(named),
            Err(DeviceFault::Memory) => Err(AllocError),
            Err(_) => Ok(None),
        }
    }

    fn foreign_names_others(&self, output: &[u8]) -> Result<bool, AllocError> {
        match &self.begins {
            Some(begins) => unless_memory(self.is_read_otherwise(begins, output)),
            None => Ok(false),
        }
    }

    /// Says yes for each command that ninja ran, also if its command line is that of the entry.
    fn foreign_ran_another(&self, output: &[u8], first: &[u8]) -> Result<bool, AllocError> {
        match &self.begins {
            Some(begins) => unless_memory(self.is_run_otherwise(begins, output, first)),
            None => Ok(false),
        }
    }

    fn take_outputs(&self, outputs: PathFilter) {
        self.manifest.take_outputs(&self.rt, outputs);
    }

    fn take_others(&self, others: Option<PathFilter>) {
        self.manifest.take_others(&self.rt, others);
    }

    /// Leaves all depfiles if an entry couldn't be kept in this build, or a stamp couldn't be determined: an edge may
    /// have failed after its depfile was read, which says what it depends on. Leaves files that can't be removed.
    fn remove_depfiles(&self) {
        self.depfiles.remove(&self.rt, &self.manifest);
    }

    fn record_stamp(&self) -> Option<u64> {
        self.opened
    }

    fn first_begin(&self) -> Option<u64> {
        match &self.begins {
            Some(begins) => begins.first(),
            None => None,
        }
    }

    /// Returns None if this builder doesn't hold the lock, or may not write its file.
    fn now(&self) -> Option<u64> {
        self.lock.now()
    }

    fn is_file(&self, path: &[u8]) -> bool {
        is_file(&self.rt, path)
    }

    /// Says yes by the specified rule, by which only the first output of an edge has entries, and if the record can't
    /// be read. The record says by the entry of the first output itself whether it ended.
    fn is_made_with(&self, output: &[u8], first: &[u8]) -> Result<bool, AllocError> {
        if self.begins.is_none() || output == first {
            return Ok(true);
        }
        match self.is_last_begun_with(output, first) {
            Ok(is_made) => Ok(is_made),
            Err(DeviceFault::Memory) => Err(AllocError),
            Err(_) => Ok(true),
        }
    }

    /// Leaves a start entry as it is, since its edge runs anyway.
    fn forget(&self, output: &[u8], reason: &[u8]) -> Result<(), AllocError> {
        match self.is_last_begun(output) {
            Ok(true) => Ok(()),
            Ok(false) => self.ended.add(&self.rt, output, reason),
            Err(DeviceFault::Memory) => Err(AllocError),
            Err(_) => Ok(()),
        }
    }

    fn explain(&self, edge: &[u8], reason: &[u8]) {
        let ended = self.ended.reason(&self.rt, edge);
        if ended.is_empty() {
            self.shells.explain(edge, reason);
        } else {
            self.shells.explain(edge, &ended);
        }
    }

    fn run(
        &self,
        _number: u64,
        outputs: &RowList<u8>,
        permit: Permit,
    ) -> Result<Reply, AllocError> {
        self.start(permit, outputs)
    }

    /// By the stricter rule, a depfile that is missing or names nothing has a start entry, once an edge has read it:
    /// the entry of that edge has no paths, and doesn't say so by itself. No edge asks under the number 0.
    fn read_depfile(&self, number: u64, path: &[u8]) -> Result<Reply, AllocError> {
        let reply = read_depfile(&self.disk, self.rt.alloc(), path);
        self.note_read(number, path, &reply);
        reply
    }

    fn keep(&self, _number: u64, order: &KeepOrder) -> Result<Reply, AllocError> {
        let begin = self.begin_of(order.output());
        self.end_for_ninja(order, begin);
        match self.append(order, begin) {
            Ok(kept) => {
                self.warn_of_future(order, begin);
                Ok(keep_reply(kept, order))
            }
            Err(fault) => {
                self.depfiles.keep_all();
                say(&self.rt, "can't keep the entry of", order.output(), fault);
                fault.or_reply(Reply::Fault)
            }
        }
    }
}
