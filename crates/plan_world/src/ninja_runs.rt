//! The commands by which ninja made outputs.
//!
//! A line of the file `.ninja_log` has the begin and the end of a command in milliseconds, a stamp, an output, and the
//! hash of the command, with tabs between them. The last line of an output counts. The first line names the version, on
//! which the hash depends. Lines of this project's builders have the begin and the end 0: first one with the hash 0,
//! and in a log of version 5 another one with the hash of the command.

use crate::fault::DeviceFault;
use crate::ninja_file::NinjaFile;
use crate::ninja_log::{FIRST_LINE, hash_of};
use crate::record_file::{open_to_read, read_all};
use indexmap::IndexMap;
use std::alloc::Global;
use std::fs::OpenFile;
use std::io::Read;
use std::rt::Files;
use std::sync::{Mutex, Wait};

/// How a log of any version begins.
const LOG: &[u8] = b"# ninja log v";

/// What a log says of the command that made an output last.
#[derive(Clone, Copy)]
pub(crate) enum LastCommand {
    /// A builder of this project began it, and said no more.
    Begun,
    /// A builder of this project ran it, or ninja, which took less than a millisecond. It has this hash.
    Hashed(u64),
    /// ninja ran it.
    Foreign,
}

impl LastCommand {
    /// Checks whether ninja may have run it, after an entry with this command was kept.
    pub(crate) fn may_be_foreign(self, command: &[u8]) -> bool {
        match self {
            LastCommand::Begun => false,
            LastCommand::Hashed(hash) => hash_of(command) != hash,
            LastCommand::Foreign => true,
        }
    }
}

/// Returns the value of a hexadecimal digit in lower case.
fn digit_of(byte: u8) -> Option<u64> {
    match byte {
        b'0'..=b'9' => Some(u64::from(byte - b'0')),
        b'a'..=b'f' => Some(u64::from(byte - b'a') + 10),
        _ => None,
    }
}

/// Returns the number that hexadecimal digits in lower case spell, of which the last sixteen count. Returns None for
/// other bytes.
fn number_of(digits: &[u8]) -> Option<u64> {
    let mut number = 0u64;
    for digit in digits {
        number = (number << 4) | digit_of(*digit)?;
    }
    Some(number)
}

/// Returns the output of a line, and what the line says of its command. Returns None if the line is torn. `is_known`
/// says whether the hashes of the log are those of `hash_of`.
fn output_in(line: &[u8], is_known: bool) -> Option<(&[u8], LastCommand)> {
    let mut fields = line.split(|byte| *byte == b'\t');
    let (begin, end, _stamp) = (fields.next()?, fields.next()?, fields.next()?);
    let output = fields.next()?;
    let hash = number_of(fields.next()?)?;
    let is_own = begin == b"0".as_slice() && end == b"0".as_slice();
    let command = match hash {
        0 => LastCommand::Begun,
        hash if is_own && is_known => LastCommand::Hashed(hash),
        _ => LastCommand::Foreign,
    };
    Some((output, command))
}

/// The commands that made outputs last.
type Commands = IndexMap<Vec<u8>, LastCommand>;

/// Returns what the lines of a log say.
fn commands_in(alloc: Global, lines: &[u8], is_known: bool) -> Result<Commands, DeviceFault> {
    let mut commands = IndexMap::new(alloc);
    for line in lines.split(|byte| *byte == b'\n') {
        if let Some((output, command)) = output_in(line, is_known) {
            match commands.insert(Vec::from_slice(alloc, output)?, command) {
                Ok(_) => {}
                Err(_) => return Err(DeviceFault::Memory),
            }
        }
    }
    Ok(commands)
}

/// Reads the log at a path. A file that is missing or no log says nothing.
fn read_commands<R: Files>(rt: &R, alloc: Global, path: &str) -> Result<Commands, DeviceFault>
where
    R::File: Read + OpenFile + Drop,
{
    let mut file = open_to_read(rt, path)?;
    let bytes = read_all(alloc, &mut file)?;
    if !bytes.starts_with(LOG) {
        return Ok(IndexMap::new(alloc));
    }
    commands_in(alloc, &bytes, bytes.starts_with(&FIRST_LINE))
}

/// The file `.ninja_log` in the folder of a record, as it was before this build. It is read when it is first needed.
#[derive(Drop)]
pub(crate) struct NinjaRuns {
    alloc: Global,
    file: NinjaFile,
    commands: Mutex<Option<Commands>>,
}

impl NinjaRuns {
    /// Returns the file in the folder of a record.
    pub(crate) fn next_to(alloc: Global, record: &str) -> Result<NinjaRuns, DeviceFault> {
        Ok(NinjaRuns {
            alloc,
            file: NinjaFile::next_to(alloc, record, ".ninja_log")?,
            commands: Mutex::new(None),
        })
    }

    /// Returns the file.
    pub(crate) fn file(&self) -> &NinjaFile {
        &self.file
    }

    /// Returns what the log says of the command that made an output last. Returns None if it names none. A log that
    /// can't be read names none.
    pub(crate) fn last<R: Files + Wait>(
        &self,
        rt: &R,
        output: &[u8],
    ) -> Result<Option<LastCommand>, DeviceFault>
    where
        R::File: Read + OpenFile + Drop,
    {
        let mut commands = self.commands.lock(rt);
        if commands.is_none() {
            *commands = Some(self.read(rt)?);
        }
        match commands.as_ref() {
            Some(commands) => Ok(commands.get(output).copied()),
            None => Ok(None),
        }
    }

    /// Reads the file. If it can't be read, it says nothing.
    fn read<R: Files>(&self, rt: &R) -> Result<Commands, DeviceFault>
    where
        R::File: Read + OpenFile + Drop,
    {
        match read_commands(rt, self.alloc, self.file.path()) {
            Ok(commands) => Ok(commands),
            Err(DeviceFault::Memory) => Err(DeviceFault::Memory),
            Err(_) => Ok(IndexMap::new(self.alloc)),
        }
    }
}
