//! ninja's record of what its commands with `deps` read.
//!
//! ninja reads the depfile of such a command once and removes it (Ninja manual, "`deps`"). Then only the file
//! `.ninja_deps` says what the command read. Its front is followed by records of 4-byte numbers, the lowest byte first.
//! A record begins with its length. Those of paths number the paths from 0. Those of outputs have the number of an
//! output, its stamp, and the numbers of the paths that its command read. The last one of an output counts.

use crate::askable::is_askable;
use crate::fault::DeviceFault;
use crate::ninja_file::NinjaFile;
use crate::record_file::{open_to_read, read_all};
use indexmap::IndexMap;
use plan_record::Entry;
use plan_text::{PathFilter, RowList, SharedRows};
use std::alloc::Global;
use std::fs::OpenFile;
use std::io::Read;
use std::rt::Files;
use std::sync::{Mutex, Wait};

/// The front of a file of version 4, which ninja writes since its version 1.9.
const FRONT: [u8; 16] = *b"# ninjadeps\n\x04\0\0\0";

/// The bit of a record's length that says that the record is that of an output.
const IS_OUTPUT: u32 = 1 << 31;

/// The length of the number and the stamp of an output.
const OUTPUT: usize = 12;

/// Returns the number in the first four bytes, the lowest byte first. Returns 0 if there are fewer bytes.
fn number_of(bytes: &[u8]) -> u32 {
    match bytes.first_chunk::<4>() {
        Some(four) => u32::from_le_bytes(*four),
        None => 0,
    }
}

/// A record of the file.
#[derive(Clone, Copy)]
struct DepsRecord<'a> {
    is_output: bool,
    bytes: &'a [u8],
}

/// Parts bytes after the record at their beginning. Returns None if there is no whole record.
fn split_record(bytes: &[u8]) -> Option<(DepsRecord<'_>, &[u8])> {
    let rest = bytes.get(4..)?;
    let begin = number_of(bytes);
    let len = (begin & !IS_OUTPUT) as usize;
    let bytes = rest.get(..len)?;
    let is_output = begin & IS_OUTPUT != 0;
    Some((DepsRecord { is_output, bytes }, rest.get(len..)?))
}

/// Returns the path in a record, without the NUL bytes that fill up its last number. Returns None unless the record
/// ends with the check sum of the path's number.
fn path_of(bytes: &[u8], number: usize) -> Option<&[u8]> {
    let len = bytes.len().checked_sub(4)?;
    let number = u32::try_from(number).ok()?;
    if number_of(bytes.get(len..)?) != !number {
        return None;
    }
    let mut path = bytes.get(..len)?;
    for _ in 0..3 {
        path = path.strip_suffix(b"\0").unwrap_or(path);
    }
    Some(path)
}

/// What such a file says.
#[derive(Drop)]
struct NamedPaths {
    /// All paths, by their numbers.
    paths: RowList<u8>,
    /// The numbers of the paths that commands read.
    lists: RowList<u32>,
    /// The places of the outputs' last lists, by the outputs.
    places: IndexMap<Vec<u8>, usize>,
}

impl NamedPaths {
    /// Returns what a file without records says.
    fn new(alloc: Global) -> NamedPaths {
        NamedPaths {
            paths: RowList::new(alloc),
            lists: RowList::new(alloc),
            places: IndexMap::new(alloc),
        }
    }

    /// Adds the list of an output. Returns whether the record has one.
    fn add_output(&mut self, alloc: Global, bytes: &[u8]) -> Result<bool, DeviceFault> {
        let (Some(output), Some(numbers)) = (
            self.paths.get(number_of(bytes) as usize),
            bytes.get(OUTPUT..),
        ) else {
            return Ok(false);
        };
        let output = Vec::from_slice(alloc, output)?;
        let mut list = Vec::with_capacity(alloc, numbers.len() / 4)?;
        for number in numbers.chunks(4) {
            list.push(number_of(number))?;
        }
        let place = self.lists.len();
        self.lists.push(&list)?;
        match self.places.insert(output, place) {
            Ok(_) => Ok(true),
            Err(_) => Err(DeviceFault::Memory),
        }
    }

    /// Adds what a record says. Returns whether it is a good one.
    fn add(&mut self, alloc: Global, record: &DepsRecord<'_>) -> Result<bool, DeviceFault> {
        if record.is_output {
            return self.add_output(alloc, record.bytes);
        }
        match path_of(record.bytes, self.paths.len()) {
            Some(path) => {
                self.paths.push(path)?;
                Ok(true)
            }
            None => Ok(false),
        }
    }

    /// Adds what the records in these bytes say, up to the first one that is torn or damaged, as ninja does.
    fn add_all(&mut self, alloc: Global, bytes: &[u8]) -> Result<(), DeviceFault> {
        let mut rest = bytes;
        for _ in 0..bytes.len() {
            let Some((record, after)) = split_record(rest) else {
                return Ok(());
            };
            if !self.add(alloc, &record)? {
                return Ok(());
            }
            rest = after;
        }
        Ok(())
    }

    /// Returns the numbers of the paths that the command of an output read.
    fn list(&self, output: &[u8]) -> &[u32] {
        match self.places.get(output) {
            Some(place) => self.lists.row(*place),
            None => &[],
        }
    }

    /// Checks whether the command of an output read a path that isn't among these. Looks behind the last path that was
    /// found first, since most lists have one order.
    fn has_others(&self, output: &[u8], known: &SharedRows) -> bool {
        let mut place = 0usize;
        for number in self.list(output) {
            let path = self.paths.row(*number as usize);
            match place_after(known, place, path).or(place_after(known, 0, path)) {
                Some(next) => place = next,
                None => return true,
            }
        }
        false
    }

    /// Appends the paths that the command of an output read, if they may be in a set and the system can be asked about
    /// them.
    fn push_among(
        &self,
        output: &[u8],
        wanted: &PathFilter,
        found: &mut RowList<u8>,
    ) -> Result<(), DeviceFault> {
        for number in self.list(output) {
            let path = self.paths.row(*number as usize);
            if wanted.may_have(path) && is_askable(path) {
                found.push(path)?;
            }
        }
        Ok(())
    }
}

/// Returns the place after the first of these rows, from a place on, that is equal to a path.
fn place_after(rows: &SharedRows, from: usize, path: &[u8]) -> Option<usize> {
    for number in from..rows.len() {
        if rows.row(number) == path {
            return Some(number + 1);
        }
    }
    None
}

/// Reads the file at a path. A file that is missing or of another version says nothing.
fn read_named<R: Files>(rt: &R, alloc: Global, path: &str) -> Result<NamedPaths, DeviceFault>
where
    R::File: Read + OpenFile + Drop,
{
    let mut file = open_to_read(rt, path)?;
    let bytes = read_all(alloc, &mut file)?;
    let mut named = NamedPaths::new(alloc);
    if let Some(records) = bytes.strip_prefix(&FRONT) {
        named.add_all(alloc, records)?;
    }
    Ok(named)
}

/// The file `.ninja_deps` in the folder of a record. It is read when it is first needed.
#[derive(Drop)]
pub(crate) struct NinjaDeps {
    alloc: Global,
    file: NinjaFile,
    named: Mutex<Option<NamedPaths>>,
}

impl NinjaDeps {
    /// Returns the file in the folder of a record.
    pub(crate) fn next_to(alloc: Global, record: &str) -> Result<NinjaDeps, DeviceFault> {
        Ok(NinjaDeps {
            alloc,
            file: NinjaFile::next_to(alloc, record, ".ninja_deps")?,
            named: Mutex::new(None),
        })
    }

    /// Returns the file.
    pub(crate) fn file(&self) -> &NinjaFile {
        &self.file
    }

    /// Returns the paths that the file names for an output, if they may be in a set and the system can be asked about
    /// them. A file that can't be read names none.
    pub(crate) fn named_among<R: Files + Wait>(
        &self,
        rt: &R,
        output: &[u8],
        wanted: &PathFilter,
    ) -> Result<RowList<u8>, DeviceFault>
    where
        R::File: Read + OpenFile + Drop,
    {
        let mut found = RowList::new(self.alloc);
        let mut named = self.named.lock(rt);
        if named.is_none() {
            *named = Some(self.read(rt)?);
        }
        if let Some(named) = named.as_ref() {
            named.push_among(output, wanted, &mut found)?;
        }
        Ok(found)
    }

    /// Checks whether the file names a path for the output of an entry that the entry doesn't have. A file that can't
    /// be read names none.
    pub(crate) fn names_others<R: Files + Wait>(
        &self,
        rt: &R,
        entry: &Entry,
    ) -> Result<bool, DeviceFault>
    where
        R::File: Read + OpenFile + Drop,
    {
        let mut named = self.named.lock(rt);
        if named.is_none() {
            *named = Some(self.read(rt)?);
        }
        let known = entry.paths()?.into_rows(self.alloc)?;
        match named.as_ref() {
            Some(named) => Ok(named.has_others(entry.output(), &known)),
            None => Ok(false),
        }
    }

    /// Reads the file. If it can't be read, it says nothing.
    fn read<R: Files>(&self, rt: &R) -> Result<NamedPaths, DeviceFault>
    where
        R::File: Read + OpenFile + Drop,
    {
        match read_named(rt, self.alloc, self.file.path()) {
            Ok(named) => Ok(named),
            Err(DeviceFault::Memory) => Err(DeviceFault::Memory),
            Err(_) => Ok(NamedPaths::new(self.alloc)),
        }
    }
}
