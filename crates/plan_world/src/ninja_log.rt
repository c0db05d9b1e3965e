//! ninja's own build log, in which the outputs of commands of plan_build are marked.

ghost use Rattle.std.specs.Prelude.{◌≡◌, ◌++◌, IfOk, OnOk};
ghost use Rattle.plan_world.specs.NinjaLog.{log_line, log_lines};

use crate::fault::DeviceFault;
use crate::reasons::say;
use crate::record_sink::write_at_once;
use crate::stamp::stamp_of;
use indexmap::IndexMap;
use plan_text::RowList;
use std::alloc::Global;
use std::fs::{self, OpenFile, OpenOptions};
use std::io::{ErrorKind, Read, Seek, SeekFrom, Write};
use std::rt::Files;
use std::sync::{Mutex, Wait};

/// The first line of a log whose hashes are those of `hash_of`.
pub(crate) const FIRST_LINE: [u8; 15] = *b"# ninja log v5\n";

/// The seed of ninja's hash.
const SEED: u64 = 0xdeca_fbad_deca_fbad;

/// The factor of ninja's hash.
const FACTOR: u64 = 0xc6a4_a793_5bd1_e995;

/// Returns the byte at a place, or 0 if there is none.
fn byte_or_zero(bytes: &[u8], place: usize) -> u64 {
    if place < bytes.len() {
        u64::from(bytes[place])
    } else {
        0
    }
}

/// Returns at most eight bytes as a number, the lowest byte first.
fn word_of(bytes: &[u8]) -> u64 {
    let mut word = 0u64;
    for place in 0..8 {
        word = (word >> 8) | (byte_or_zero(bytes, place) << 56);
    }
    word
}

/// Returns what a piece of a command changes in the hash. A piece of eight bytes is mixed first.
fn change_of(piece: &[u8]) -> u64 {
    let word = word_of(piece);
    if piece.len() < 8 {
        return word;
    }
    let word = word.wrapping_mul(FACTOR);
    (word ^ (word >> 47)).wrapping_mul(FACTOR)
}

/// Returns the hash of a command line that a log of version 5 has: MurmurHash64A with ninja's seed.
pub(crate) fn hash_of(command: &[u8]) -> u64 {
    let mut hash = SEED ^ (command.len() as u64).wrapping_mul(FACTOR);
    for piece in command.chunks(8) {
        hash = (hash ^ change_of(piece)).wrapping_mul(FACTOR);
    }
    let hash = (hash ^ (hash >> 47)).wrapping_mul(FACTOR);
    hash ^ (hash >> 47)
}

/// Appends the line of an output: the text before it, its path, and the text after it.
fn push_line(
    lines: &mut Vec<u8>,
    before: &[u8],
    output: &[u8],
    after: &[u8],
) -> Result<(), DeviceFault>
    ensures { OnOk result (lines.new.items ≡ lines.old.items ++ log_line before.now after.now output.now) }
{
    lines.extend_from_slice(before)?;
    lines.extend_from_slice(output)?;
    lines.extend_from_slice(after)?;
    Ok(())
}

/// Returns a line for each output: the text before it, its path, and the text after it.
pub(crate) fn lines_of(
    alloc: Global,
    before: &[u8],
    outputs: &RowList<u8>,
    after: &[u8],
) -> Result<Vec<u8>, DeviceFault>
    ensures { IfOk result (λ lines. lines.items ≡ log_lines before.now after.now outputs.now) }
{
    let mut lines = Vec::new(alloc);
    for number in 0..outputs.len() {
        push_line(&mut lines, before, outputs.row(number), after)?;
    }
    Ok(lines)
}

/// Returns the first bytes of a file, at most as many as the first line of a log has.
fn front_of<F: Read>(alloc: Global, file: &mut F) -> Result<Vec<u8>, DeviceFault> {
    let mut front = vec![in alloc; 0u8; FIRST_LINE.len()]?;
    let count = file.read(&mut front)?;
    front.truncate(count);
    Ok(front)
}

/// Checks whether a file that was just opened begins as a log of version 5.
fn is_known<F: Read>(alloc: Global, file: &mut F) -> Result<bool, DeviceFault> {
    Ok(front_of(alloc, file)?.as_slice() == FIRST_LINE.as_slice())
}

/// Checks whether a file ends within a line, which a killed ninja left.
fn is_torn<F: Read + Seek + OpenFile>(alloc: Global, file: &mut F) -> Result<bool, DeviceFault> {
    if file.metadata()?.len() == 0 {
        return Ok(false);
    }
    file.seek(SeekFrom::End(-1))?;
    Ok(front_of(alloc, file)?.as_slice() != b"\n".as_slice())
}

/// Appends lines to a log, by one write. Ends a torn line first, so that it takes none of them in.
fn append_lines<F: Read + Write + Seek + OpenFile>(
    alloc: Global,
    file: &mut F,
    lines: &[u8],
) -> Result<(), DeviceFault> {
    if is_torn(alloc, file)? {
        write_at_once(file, b"\n")?;
    }
    write_at_once(file, lines)
}

/// Opens the log at a path to read it and to append to it. Returns None if it is missing or no file.
fn open_log<R: Files>(rt: &R, path: &str) -> Result<Option<R::File>, DeviceFault> {
    match fs::metadata(rt, path) {
        Ok(found) if found.is_file() => {}
        Ok(_) => return Ok(None),
        Err(error) => match error.kind() {
            ErrorKind::NotFound | ErrorKind::NotADirectory => return Ok(None),
            _ => return Err(DeviceFault::from(error)),
        },
    }
    Ok(Some(OpenOptions::new().read(true).append(true).open(rt, path)?))
}

/// Returns the folder of a path, with the slash after it. Returns no text if the path has no folder.
pub(crate) fn folder_of(path: &str) -> &str {
    match path.rsplit_once('/') {
        Some((folder, _)) => &path[..folder.len() + 1],
        None => "",
    }
}

/// Returns those of these outputs that ninja can't take for older ones, by their stamps, and whose paths fit in a line.
///
/// If ninja knows what an output was made of only by its own log of depfiles, it asks whether the output is newer than
/// its entry there. The stamp of that log is the newest that an entry can have.
fn newer_than<R: Files>(
    rt: &R,
    alloc: Global,
    outputs: &RowList<u8>,
    stamp: u64,
) -> Result<RowList<u8>, DeviceFault> {
    let mut newer = RowList::new(alloc);
    for number in 0..outputs.len() {
        if is_newer(rt, outputs.row(number), stamp)? {
            newer.push(outputs.row(number))?;
        }
    }
    Ok(newer)
}

/// Checks whether the file at a path has a later stamp than this one, and the path fits in a line.
fn is_newer<R: Files>(rt: &R, path: &[u8], stamp: u64) -> Result<bool, DeviceFault> {
    if path.contains(&b'\t') | path.contains(&b'\n') {
        return Ok(false);
    }
    Ok(stamp_of(rt, path)? > stamp)
}

/// The log of ninja in the folder of a record. It may be missing, and ninja may replace it.
#[derive(Drop)]
pub(crate) struct NinjaLog {
    alloc: Global,
    /// The path of the log.
    log: String,
    /// The path of ninja's log of depfiles.
    deps: String,
    /// The outputs of the edges whose commands have begun, by the first ones, if the log was there then.
    begun: Mutex<IndexMap<Vec<u8>, RowList<u8>>>,
}

impl NinjaLog {
    /// Returns the log in the folder of a record.
    pub(crate) fn next_to(alloc: Global, record: &str) -> Result<NinjaLog, DeviceFault> {
        let folder = folder_of(record);
        Ok(NinjaLog {
            alloc,
            log: format!(in alloc; "{folder}.ninja_log")?,
            deps: format!(in alloc; "{folder}.ninja_deps")?,
            begun: Mutex::new(IndexMap::new(alloc)),
        })
    }

    /// Adds the outputs of an edge whose command begins.
    fn add<R: Wait>(&self, rt: &R, outputs: &RowList<u8>) -> Result<(), DeviceFault> {
        let edge = Vec::from_slice(self.alloc, outputs.row(0))?;
        let outputs = outputs.copy(self.alloc)?;
        match self.begun.lock(rt).insert(edge, outputs) {
            Ok(_) => Ok(()),
            Err(_) => Err(DeviceFault::Memory),
        }
    }

    /// Appends the lines by which these outputs are out of date for ninja. Returns whether the log is there.
    pub(crate) fn mark<R: Files>(&self, rt: &R, outputs: &RowList<u8>) -> Result<bool, DeviceFault>
    where
        R::File: Read + Write + Seek + OpenFile + Drop,
    {
        let Some(file) = open_log(rt, self.log.as_str())? else {
            return Ok(false);
        };
        let mut file = file;
        let lines = lines_of(self.alloc, b"0\t0\t0\t", outputs, b"\t0\n")?;
        append_lines(self.alloc, &mut file, &lines)?;
        Ok(true)
    }

    /// Marks these outputs as out of date for ninja, and adds them to those whose command begins, if the log is there.
    fn append_begun<R: Files + Wait>(
        &self,
        rt: &R,
        outputs: &RowList<u8>,
    ) -> Result<(), DeviceFault>
    where
        R::File: Read + Write + Seek + OpenFile + Drop,
    {
        if self.mark(rt, outputs)? {
            return self.add(rt, outputs);
        }
        Ok(())
    }

    /// Marks the outputs of an edge, which has one, as out of date for ninja, if the log is there: the command of the
    /// edge is about to begin.
    pub(crate) fn begin<R: Files + Eprint + Wait>(
        &self,
        rt: &R,
        outputs: &RowList<u8>,
    ) -> Result<(), DeviceFault>
    where
        R::File: Read + Write + Seek + OpenFile + Drop,
    {
        match self.append_begun(rt, outputs) {
            Ok(()) => Ok(()),
            Err(fault) => {
                say(rt, "can't write", self.log.as_bytes(), fault);
                Err(fault)
            }
        }
    }

    /// Returns the lines by which these outputs are up to date for ninja.
    fn made_lines<R: Files>(
        &self,
        rt: &R,
        outputs: &RowList<u8>,
        command: &[u8],
        begin: u64,
    ) -> Result<Vec<u8>, DeviceFault> {
        let stamp = stamp_of(rt, self.deps.as_bytes())?;
        let newer = newer_than(rt, self.alloc, outputs, stamp)?;
        let hash = hash_of(command);
        let before = format!(in self.alloc; "0\t0\t{begin}\t")?;
        let after = format!(in self.alloc; "\t{hash:x}\n")?;
        lines_of(self.alloc, before.as_bytes(), &newer, after.as_bytes())
    }

    /// Appends the lines by which these outputs are up to date for ninja, if the log has version 5.
    fn append_made<R: Files>(
        &self,
        rt: &R,
        outputs: &RowList<u8>,
        command: &[u8],
        begin: u64,
    ) -> Result<(), DeviceFault>
    where
        R::File: Read + Write + Seek + OpenFile + Drop,
    {
        let Some(file) = open_log(rt, self.log.as_str())? else {
            return Ok(());
        };
        let mut file = file;
        if !is_known(self.alloc, &mut file)? {
            return Ok(());
        }
        let lines = self.made_lines(rt, outputs, command, begin)?;
        append_lines(self.alloc, &mut file, &lines)
    }

    /// Marks the outputs of an edge as made by its command, which began at a stamp. If that can't be done, they stay
    /// out of date for ninja.
    pub(crate) fn end<R: Files + Wait>(&self, rt: &R, edge: &[u8], command: &[u8], begin: u64)
    where
        R::File: Read + Write + Seek + OpenFile + Drop,
    {
        let begun = self.begun.lock(rt).swap_remove(edge);
        if let Some(outputs) = begun {
            let _ = self.append_made(rt, &outputs, command, begin);
        }
    }
}
