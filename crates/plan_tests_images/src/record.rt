//! Calls each public function of plan_record on values, as another crate would.

use crate::outcome::value_of;
use byteorder::{BigEndian, ByteOrder};
use plan_record::*;
use plan_text::{Counted, Items, Memory, PathFilter, RowList};
use plan_verify::PathList;
use std::alloc::{AllocError, Global};
use std::io::{self, Write};
use std::process::Abort;
use std::test::Fail;

/// The entry of output `a` with the command `t`, the basis 7 and no paths.
const ENTRY: [u8; 24] = [
    0, 0, 0, 20, 0, 1, b'a', 0, 0, 0, 1, b't', 0, 0, 0, 0, 0, 0, 0, 7, 0, 0, 0, 0,
];

/// The entry of output `c` with the command `t`, the basis 9 and the path `y.h` twice.
const SHARED: [u8; 34] = [
    0, 0, 0, 30, 0, 1, b'c', 0, 0, 0, 1, b't', 0, 0, 0, 0, 0, 0, 0, 9, 0, 0, 0, 2, 0, 3, b'y',
    b'.', b'h', 0, 3, b'y', b'.', b'h',
];

/// Returns the bytes of an entry with one output, the command `t` and no path. Its lengths and its count of paths are
/// as given, right or wrong.
fn entry_bytes(body: u32, name: u16, output: u8, basis: u64, count: u32) -> [u8; 24] {
    let mut bytes = [0u8; 24];
    BigEndian::write_u32(&mut bytes[..], body);
    BigEndian::write_u16(&mut bytes[4..], name);
    bytes[6] = output;
    BigEndian::write_u32(&mut bytes[7..], 1);
    bytes[11] = b't';
    BigEndian::write_u64(&mut bytes[12..], basis);
    BigEndian::write_u32(&mut bytes[20..], count);
    bytes
}

/// Loads the record in some bytes.
fn record_of(alloc: Global, bytes: &[u8]) -> Result<(Record, u64), Memory> {
    let mut file = Vec::new(alloc);
    file.extend_from_slice(bytes)?;
    load(alloc, file)
}

/// Returns the number of entries of the record in some bytes, and their length in bytes.
fn front_of(alloc: Global, bytes: &[u8]) -> Result<(usize, u64), Memory> {
    let (record, len) = record_of(alloc, bytes)?;
    Ok((record.count(), len))
}

/// Returns the basis of the last entry of an output. Returns None if there is no entry.
fn basis_of(alloc: Global, record: &Record, output: &[u8]) -> Result<Option<u64>, Memory> {
    match record.entry(alloc, output)? {
        Some(entry) => Ok(Some(entry.basis())),
        None => Ok(None),
    }
}

/// Returns the bytes of an entry.
fn spelling_of(alloc: Global, entry: &Entry) -> Result<Vec<u8>, WriteFault> {
    let mut sink = Counted::new(Vec::new(alloc));
    append(entry, &mut sink)?;
    Ok(sink.into_writer())
}

/// Checks that an entry is that of `ENTRY`.
fn is_entry(rt: &impl Abort, entry: &Entry) -> Result<(), Memory> {
    assert_eq!(rt; entry.output(), b"a".as_slice());
    assert_eq!(rt; entry.command(), b"t".as_slice());
    assert_eq!(rt; entry.basis(), 7);
    assert!(rt; entry.paths()?.first().is_none());
    Ok(())
}

/// Checks that a record has the entry of `ENTRY` and no other one.
fn has_one_entry(rt: &impl Abort, alloc: Global, record: &Record) -> Result<(), Memory> {
    assert_eq!(rt; record.count(), 1);
    assert!(rt; record.entry(alloc, b"b")?.is_none());
    match record.entry(alloc, b"a")? {
        Some(entry) => is_entry(rt, &entry),
        None => panic!(rt; "no entry"),
    }
}

#[test]
fn entry_of_24_bytes(rt: HostRuntime) -> Result<(), Fail> {
    assert!(rt; entry_bytes(20, 1, b'a', 7, 0) == ENTRY);
    let (record, len) = value_of(record_of(rt.alloc(), &ENTRY))?;
    assert_eq!(rt; len, 24);
    value_of(has_one_entry(&rt, rt.alloc(), &record))?;
    Ok(())
}

/// Checks that the last entries of these outputs have these bases.
fn has_bases(
    rt: &impl Abort,
    alloc: Global,
    record: &Record,
    bases: &[(&[u8], u64)],
) -> Result<(), Memory> {
    for (output, basis) in bases {
        assert_eq!(rt; basis_of(alloc, record, output)?, Some(*basis));
    }
    Ok(())
}

#[test]
fn torn_entries(rt: HostRuntime) -> Result<(), Fail> {
    let mut file = Vec::new(rt.alloc());
    assert_eq!(rt; value_of(front_of(rt.alloc(), &file))?, (0, 0));
    file.extend_from_slice(&ENTRY)?;
    file.extend_from_slice(&ENTRY[..10])?;
    assert_eq!(rt; value_of(front_of(rt.alloc(), &file))?, (1, 24));
    file.truncate(24);
    file.extend_from_slice(&ENTRY)?;
    assert_eq!(rt; value_of(front_of(rt.alloc(), &file))?, (2, 48));
    assert_eq!(rt; value_of(front_of(rt.alloc(), &ENTRY[..23]))?, (0, 0));
    Ok(())
}

#[test]
fn bodies_of_another_length(rt: HostRuntime) -> Result<(), Fail> {
    let mut longer = Vec::new(rt.alloc());
    longer.extend_from_slice(&entry_bytes(21, 1, b'a', 7, 0))?;
    longer.push(0)?;
    assert_eq!(rt; value_of(front_of(rt.alloc(), &longer))?, (0, 0));
    let shorter = entry_bytes(19, 1, b'a', 7, 0);
    assert_eq!(rt; value_of(front_of(rt.alloc(), &shorter))?, (0, 0));
    let counted = entry_bytes(20, 1, b'a', 7, 1);
    assert_eq!(rt; value_of(front_of(rt.alloc(), &counted))?, (0, 0));
    let nameless = entry_bytes(20, 0, b'a', 7, 0);
    assert_eq!(rt; value_of(front_of(rt.alloc(), &nameless))?, (0, 0));
    Ok(())
}

#[test]
fn last_of_an_output(rt: HostRuntime) -> Result<(), Fail> {
    let mut file = Vec::new(rt.alloc());
    for (output, basis) in [(b'a', 1), (b'b', 2), (b'a', 3), (b'c', 4)] {
        file.extend_from_slice(&entry_bytes(20, 1, output, basis, 0))?;
    }
    let (record, len) = value_of(record_of(rt.alloc(), &file))?;
    assert_eq!(rt; len, 96);
    let bases = [
        (b"a".as_slice(), 3),
        (b"b".as_slice(), 2),
        (b"c".as_slice(), 4),
    ];
    value_of(has_bases(&rt, rt.alloc(), &record, bases.as_slice()))?;
    Ok(())
}

/// Returns the bytes of entries of these outputs, each with its basis.
fn file_of(alloc: Global, entries: &[(u8, u64)]) -> Result<Vec<u8>, AllocError> {
    let mut file = Vec::new(alloc);
    for (output, basis) in entries {
        file.extend_from_slice(&entry_bytes(20, 1, *output, *basis, 0))?;
    }
    Ok(file)
}

/// Checks that a record has three outputs and is compacted to these bytes.
fn compacts_to(rt: &impl Abort, alloc: Global, record: &Record, left: &[u8]) -> Result<(), Memory> {
    assert_eq!(rt; record.count_outputs(), 3);
    let last = record.last_entries(alloc)?;
    assert_eq!(rt; last.len(), 3);
    let bytes = record.compacted_bytes(alloc)?;
    assert_eq!(rt; bytes.as_slice(), left);
    Ok(())
}

/// Checks that the bytes of a record of three outputs are compacted to these.
fn is_compacted(rt: &impl Abort, alloc: Global, file: &[u8], left: &[u8]) -> Result<(), Memory> {
    let (record, _) = record_of(alloc, file)?;
    compacts_to(rt, alloc, &record, left)
}

/// Checks that all bytes are entries, which have these bytes as their spellings.
fn is_spelled_again(rt: &impl Abort, alloc: Global, file: &[u8]) -> Result<(), Memory> {
    let (entries, len) = read_entries(alloc, Vec::from_slice(alloc, file)?)?;
    assert_eq!(rt; len, file.len() as u64);
    assert_eq!(rt; spellings(alloc, &entries)?.as_slice(), file);
    Ok(())
}

/// Checks that the last entries stay in the order of the record, and that compacting a record twice changes nothing.
#[test]
fn compacted_record(rt: HostRuntime) -> Result<(), Fail> {
    let entries = [(b'a', 1), (b'b', 2), (b'a', 3), (b'c', 4), (b'a', 5)];
    let file = file_of(rt.alloc(), entries.as_slice())?;
    let left = file_of(rt.alloc(), [(b'b', 2), (b'c', 4), (b'a', 5)].as_slice())?;
    value_of(is_compacted(&rt, rt.alloc(), &file, &left))?;
    value_of(is_spelled_again(&rt, rt.alloc(), &file))?;
    value_of(is_compacted(&rt, rt.alloc(), &left, &left))?;
    Ok(())
}

/// Adds an entry of an output with the command `t`, a basis and no paths.
fn add_plain(alloc: Global, record: &mut Record, output: &[u8], basis: u64) -> Result<(), Fail> {
    let entry = value_of(Entry::new(alloc, output, b"t", basis, &[]))?;
    value_of(record.add(alloc, &entry))?;
    Ok(())
}

#[test]
fn added_behind_the_file(rt: HostRuntime) -> Result<(), Fail> {
    let (mut record, _) = value_of(record_of(rt.alloc(), &ENTRY))?;
    add_plain(rt.alloc(), &mut record, b"b", 8)?;
    add_plain(rt.alloc(), &mut record, b"a", 9)?;
    assert_eq!(rt; record.count(), 3);
    let bases = [(b"a".as_slice(), 9), (b"b".as_slice(), 8)];
    value_of(has_bases(&rt, rt.alloc(), &record, bases.as_slice()))?;
    Ok(())
}

/// Returns the entry of an output with the command `t`, a basis and two paths.
fn entry_of_two(
    alloc: Global,
    output: &[u8],
    basis: u64,
    first: &[u8],
    second: &[u8],
) -> Result<Entry, EntryFault> {
    let mut paths = Vec::new(alloc);
    paths.push(Items::new(Vec::from_slice(alloc, first)?))?;
    paths.push(Items::new(Vec::from_slice(alloc, second)?))?;
    Entry::new(alloc, output, b"t", basis, &paths)
}

/// Returns the spelling of entry `number`. Returns no bytes if there is no such entry.
fn spelling_at(alloc: Global, record: &Record, number: usize) -> Result<Vec<u8>, Fail> {
    match value_of(record.nth(alloc, number))? {
        Some(entry) => value_of(spelling_of(alloc, &entry)),
        None => Ok(Vec::new(alloc)),
    }
}

/// Adds the entry of an output with the command `t`, a basis and two paths.
fn add_of_two(
    alloc: Global,
    record: &mut Record,
    output: &[u8],
    basis: u64,
    first: &[u8],
    second: &[u8],
) -> Result<(), Fail> {
    let entry = value_of(entry_of_two(alloc, output, basis, first, second))?;
    value_of(record.add(alloc, &entry))?;
    Ok(())
}

/// Checks that a record has four entries of three outputs, that entry 0 is `ENTRY` and that entry 2 is `SHARED`.
fn has_shared_paths(rt: &impl Abort, alloc: Global, record: &Record) -> Result<(), Fail> {
    assert_eq!(rt; record.count(), 4);
    assert_eq!(rt; record.count_outputs(), 3);
    let entry = spelling_at(alloc, record, 0)?;
    assert_eq!(rt; entry.as_slice(), ENTRY.as_slice());
    let entry = spelling_at(alloc, record, 2)?;
    assert_eq!(rt; entry.as_slice(), SHARED.as_slice());
    assert!(rt; value_of(record.nth(alloc, 4))?.is_none());
    Ok(())
}

/// Checks that entries that share paths come back whole, next to one of the file.
#[test]
fn added_entries_that_share_paths(rt: HostRuntime) -> Result<(), Fail> {
    let alloc = rt.alloc();
    let (mut record, _) = value_of(record_of(alloc, &ENTRY))?;
    add_of_two(alloc, &mut record, b"b", 8, b"x.h", b"y.h")?;
    add_of_two(alloc, &mut record, b"c", 9, b"y.h", b"y.h")?;
    add_of_two(alloc, &mut record, b"b", 10, b"x.h", b"z.h")?;
    has_shared_paths(&rt, alloc, &record)?;
    assert_eq!(rt; value_of(basis_of(alloc, &record, b"b"))?, Some(10));
    assert_eq!(rt; value_of(basis_of(alloc, &record, b"d"))?, None);
    Ok(())
}

/// Returns the spelling of `ENTRY`, followed by the spelling of an entry with this output, a basis and two paths.
fn behind_entry(
    alloc: Global,
    output: &[u8],
    basis: u64,
    first: &[u8],
    second: &[u8],
) -> Result<Vec<u8>, Fail> {
    let last = value_of(entry_of_two(alloc, output, basis, first, second))?;
    let spelling = value_of(spelling_of(alloc, &last))?;
    let mut left = Vec::from_slice(alloc, &ENTRY)?;
    left.extend_from_slice(&spelling)?;
    Ok(left)
}

/// Checks that a compacted record has the last ones of the entries of the file and of those that were added.
#[test]
fn compacted_with_added_entries(rt: HostRuntime) -> Result<(), Fail> {
    let alloc = rt.alloc();
    let left = behind_entry(alloc, b"b", 10, b"x.h", b"z.h")?;
    let (mut record, _) = value_of(record_of(alloc, &ENTRY))?;
    add_of_two(alloc, &mut record, b"b", 8, b"x.h", b"y.h")?;
    add_of_two(alloc, &mut record, b"b", 10, b"x.h", b"z.h")?;
    assert_eq!(rt;
        value_of(record.compacted_bytes(alloc))?.as_slice(),
        left.as_slice()
    );
    Ok(())
}

/// Returns the entry of an output with the basis 9 and one path of this length.
fn entry_of_one(
    alloc: Global,
    output: &[u8],
    command: &[u8],
    path: usize,
) -> Result<Entry, EntryFault> {
    let mut paths = Vec::new(alloc);
    paths.push(Items::new(vec![in alloc; b'p'; path]?))?;
    Entry::new(alloc, output, command, 9, &paths)
}

/// Checks whether a record has an entry of an output with this command and the basis 9.
fn has_nine(alloc: Global, record: &Record, output: &[u8], command: &[u8]) -> Result<bool, Memory> {
    match record.entry(alloc, output)? {
        Some(read) => Ok(read.command() == command && read.basis() == 9),
        None => Ok(false),
    }
}

/// Checks whether the bytes are a whole record with an entry of an output with this command and the basis 9.
fn is_read(alloc: Global, bytes: Vec<u8>, output: &[u8], command: &[u8]) -> Result<bool, Memory> {
    let len = bytes.len() as u64;
    let (record, front) = load(alloc, bytes)?;
    let found = has_nine(alloc, &record, output, command)?;
    Ok(found && front == len)
}

/// Checks whether parts of these lengths make an entry that is read again as it is.
fn makes_entry(alloc: Global, output: usize, command: usize, path: usize) -> Result<bool, Fail> {
    let output = vec![in alloc; b'o'; output]?;
    let command = vec![in alloc; b'c'; command]?;
    match entry_of_one(alloc, &output, &command, path) {
        Ok(entry) => {
            let bytes = value_of(spelling_of(alloc, &entry))?;
            value_of(is_read(alloc, bytes, &output, &command))
        }
        Err(EntryFault::OutsideLimits) => Ok(false),
        Err(fault) => value_of(Err(fault)),
    }
}

#[test]
fn limits(rt: HostRuntime) -> Result<(), Fail> {
    assert!(rt; makes_entry(rt.alloc(), 1, 0, 1)?);
    assert!(rt; makes_entry(rt.alloc(), 4_096, 1_048_576, 4_096)?);
    assert!(rt; !makes_entry(rt.alloc(), 0, 0, 1)?);
    assert!(rt; !makes_entry(rt.alloc(), 4_097, 0, 1)?);
    assert!(rt; !makes_entry(rt.alloc(), 1, 1_048_577, 1)?);
    assert!(rt; !makes_entry(rt.alloc(), 1, 0, 0)?);
    assert!(rt; !makes_entry(rt.alloc(), 1, 0, 4_097)?);
    Ok(())
}

/// Returns a copy of the entry of `a.o` with the paths `a.h` and `b/c.h`.
fn entry_of_paths(alloc: Global) -> Result<Entry, Fail> {
    let mut named = Vec::new(alloc);
    for name in [b"a.h".as_slice(), b"b/c.h".as_slice()] {
        named.push(Items::new(Vec::from_slice(alloc, name)?))?;
    }
    let entry = value_of(Entry::new(alloc, b"a.o", b"cc -c a.c", 5, &named))?;
    value_of(entry.copy())
}

/// Returns the list that shares the paths of an entry.
fn shared_paths(alloc: Global, entry: &Entry) -> Result<PathList, Fail> {
    let rows = value_of(entry.paths())?.into_rows(alloc)?;
    Ok(PathList::of_shared_rows(alloc, rows)?)
}

/// Checks that the paths of an entry are these rows.
fn has_rows(rt: &impl Abort, alloc: Global, entry: &Entry) -> Result<(), Fail> {
    let rows = value_of(entry.paths())?.into_rows(alloc)?;
    assert_eq!(rt; rows.len(), 2);
    assert_eq!(rt; rows.row(1), b"b/c.h".as_slice());
    Ok(())
}

/// Checks the list of the paths of an entry.
fn has_list(rt: &impl Abort, alloc: Global, entry: &Entry) -> Result<(), Fail> {
    let again = shared_paths(alloc, entry)?;
    let list = again.copy()?;
    assert_eq!(rt; list.len(), 2);
    assert_eq!(rt; list.path(0), b"a.h".as_slice());
    assert_eq!(rt; list.path(2), b"".as_slice());
    assert!(rt; list.is_same(&again));
    let other = shared_paths(alloc, entry)?;
    assert!(rt; list.is_same(&other));
    let empty = PathList::empty(alloc)?;
    assert!(rt; !list.is_same(&empty));
    Ok(())
}

/// Checks whether the first path is this one.
fn is_first(paths: &Paths, path: &[u8]) -> bool {
    match paths.first() {
        Some(first) => first == path,
        None => false,
    }
}

#[test]
fn paths_one_by_one(rt: HostRuntime) -> Result<(), Fail> {
    let entry = entry_of_paths(rt.alloc())?;
    has_rows(&rt, rt.alloc(), &entry)?;
    has_list(&rt, rt.alloc(), &entry)?;
    let mut paths = value_of(entry.paths())?;
    assert!(rt; is_first(&paths, b"a.h"));
    paths.advance();
    assert!(rt; is_first(&paths, b"b/c.h"));
    paths.advance();
    assert!(rt; paths.first().is_none());
    paths.advance();
    assert!(rt; paths.first().is_none());
    Ok(())
}

/// Returns which paths of an entry are in the set of this path.
fn found_among(alloc: Global, paths: &Paths, path: &[u8]) -> Result<RowList<u8>, Fail> {
    let mut wanted = PathFilter::new(alloc, 1)?;
    wanted.add(path);
    Ok(paths.among(alloc, &wanted)?)
}

/// Checks which of the remaining paths are in a set.
#[test]
fn paths_in_a_set(rt: HostRuntime) -> Result<(), Fail> {
    let entry = entry_of_paths(rt.alloc())?;
    let mut paths = value_of(entry.paths())?;
    let found = found_among(rt.alloc(), &paths, b"a.h")?;
    assert_eq!(rt; found.len(), 1);
    assert_eq!(rt; found.row(0), b"a.h".as_slice());
    paths.advance();
    assert_eq!(rt; found_among(rt.alloc(), &paths, b"a.h")?.len(), 0);
    assert_eq!(rt; found_among(rt.alloc(), &paths, b"b/c.h")?.len(), 1);
    Ok(())
}

/// Returns a list that owns these two paths.
fn own(alloc: Global, first: &[u8], second: &[u8]) -> Result<PathList, Fail> {
    let mut rows = RowList::new(alloc);
    rows.push(first)?;
    rows.push(second)?;
    Ok(PathList::new(alloc, rows)?)
}

/// Checks whether a list has the same paths as one that owns these two, in both directions.
fn is_same(
    alloc: Global,
    list: &PathList,
    first: &[u8],
    second: &[u8],
) -> Result<(bool, bool), Fail> {
    let other = own(alloc, first, second)?;
    Ok((list.is_same(&other), other.is_same(list)))
}

/// Checks that lists of paths are compared by their paths, whether they own them or share them.
#[test]
fn same_lists_of_paths(rt: HostRuntime) -> Result<(), Fail> {
    let entry = entry_of_paths(rt.alloc())?;
    let shared = shared_paths(rt.alloc(), &entry)?;
    for (first, second, same) in [
        (b"a.h".as_slice(), b"b/c.h".as_slice(), true),
        (b"a.h".as_slice(), b"b/d.h".as_slice(), false),
        (b"b/c.h".as_slice(), b"a.h".as_slice(), false),
    ] {
        let found = is_same(rt.alloc(), &shared, first, second)?;
        assert_eq!(rt; found, (same, same));
    }
    Ok(())
}

/// A writer that takes at most `at_a_call` bytes a call, and fails after `left` bytes in all.
#[derive(Drop)]
struct Narrow {
    taken: Vec<u8>,
    at_a_call: usize,
    left: usize,
}

impl Write for Narrow {
    fn write(&mut self, bytes: &[u8]) -> io::Result<usize> {
        if self.left == 0 {
            return Err(io::Error::from(io::ErrorKind::BrokenPipe));
        }
        let n = bytes.len().min(self.at_a_call).min(self.left);
        self.taken.extend_from_slice(&bytes[..n])?;
        self.left -= n;
        Ok(n)
    }

    fn flush(&mut self) -> io::Result<()> {
        Ok(())
    }
}

/// Appends the entry of `ENTRY` to a writer. Returns what the writer took, and how the append ended.
fn appended(
    alloc: Global,
    at_a_call: usize,
    left: usize,
) -> Result<(Vec<u8>, Result<(), WriteFault>), Fail> {
    let entry = value_of(Entry::new(alloc, b"a", b"t", 7, &[]))?;
    let mut out = Counted::new(Narrow {
        taken: Vec::new(alloc),
        at_a_call,
        left,
    });
    let done = append(&entry, &mut out);
    Ok((out.into_writer().taken, done))
}

#[test]
fn writers_that_take_little(rt: HostRuntime) -> Result<(), Fail> {
    let (taken, done) = appended(rt.alloc(), 10, 10)?;
    assert!(rt; done == Err(WriteFault { written: 10 }));
    assert_eq!(rt; taken.as_slice(), &ENTRY[..10]);
    let (taken, done) = appended(rt.alloc(), 1, 24)?;
    assert!(rt; done == Ok(()));
    assert_eq!(rt; taken.as_slice(), ENTRY.as_slice());
    Ok(())
}
