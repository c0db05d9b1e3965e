//! Calls each public function of plan_text on values, as another crate would.

use crate::outcome::value_of;
use plan_text::*;
use std::alloc::Global;
use std::io::{self, Write};
use std::sync::Arc;
use std::test::Fail;

#[test]
fn canonical_paths(rt: HostRuntime) -> Result<(), Fail> {
    for (path, want) in [
        (b"a/../../b//./c/".as_slice(), b"../b/c".as_slice()),
        (b"/../x".as_slice(), b"/x".as_slice()),
        (b"a/..".as_slice(), b".".as_slice()),
        (b"out/obj/../foo.o".as_slice(), b"out/foo.o".as_slice()),
    ] {
        let found = value_of(canonical(rt.alloc(), path))?;
        assert_eq!(rt; found.as_slice(), want);
    }
    assert!(rt; matches!(canonical(rt.alloc(), b""), Err(TextFault::EmptyPath)));
    Ok(())
}

/// Checks whether the piece at a place of a list is a literal with these bytes.
fn has_literal(list: &PieceList, at: usize, bytes: &[u8]) -> bool {
    match list.as_slice().get(at) {
        Some(Piece::Literal(text)) => text.as_slice() == bytes,
        _ => false,
    }
}

/// Checks whether the piece at a place of a list is a reference with this name.
fn has_reference(list: &PieceList, at: usize, name: &[u8]) -> bool {
    match list.as_slice().get(at) {
        Some(Piece::Reference(text)) => text.as_slice() == name,
        _ => false,
    }
}

#[test]
fn pieces_of_text(rt: HostRuntime) -> Result<(), Fail> {
    let text = b"gcc\t$cflags-x -o ${out.d}$$ $\n    a$:b";
    let value = value_of(pieces(rt.alloc(), text.as_slice(), Mode::Value))?;
    assert_eq!(rt; value.as_slice().len(), 5);
    assert!(rt; has_literal(&value, 0, b"gcc\t"));
    assert!(rt; has_reference(&value, 1, b"cflags-x"));
    assert!(rt; has_literal(&value, 2, b" -o "));
    assert!(rt; has_reference(&value, 3, b"out.d"));
    assert!(rt; has_literal(&value, 4, b"$ a:b"));
    let path = value_of(pieces(rt.alloc(), b"$dir/other$ file.c", Mode::Path))?;
    assert_eq!(rt; path.as_slice().len(), 2);
    assert!(rt; has_reference(&path, 0, b"dir"));
    assert!(rt; has_literal(&path, 1, b"/other file.c"));
    Ok(())
}

#[test]
fn one_piece(rt: HostRuntime) -> Result<(), Fail> {
    let text = b"a/rather/long$ path/that/goes/on/behind/its$:escapes.c";
    let path = value_of(pieces(rt.alloc(), text.as_slice(), Mode::Path))?;
    let want = b"a/rather/long path/that/goes/on/behind/its:escapes.c";
    assert_eq!(rt; path.as_slice().len(), 1);
    assert!(rt; has_literal(&path, 0, want.as_slice()));
    assert_eq!(rt;
        value_of(pieces(rt.alloc(), b"$x", Mode::Path))?
            .as_slice()
            .len(),
        1
    );
    assert_eq!(rt;
        value_of(pieces(rt.alloc(), b"", Mode::Value))?
            .as_slice()
            .len(),
        0
    );
    assert_eq!(rt;
        value_of(pieces(rt.alloc(), b"$\n  ", Mode::Value))?
            .as_slice()
            .len(),
        0
    );
    let tab = value_of(pieces_at(rt.alloc(), b"a\tb", 40, Mode::Value))?;
    assert!(rt; has_literal(&tab, 0, b"a\tb"));
    Ok(())
}

#[test]
fn refused_pieces(rt: HostRuntime) {
    for (text, mode, fault) in [
        (b"a$!".as_slice(), Mode::Value, TextFault::BadEscape(41)),
        (b"a\tb".as_slice(), Mode::Path, TextFault::TabBlank(41)),
        (b"a\0b".as_slice(), Mode::Value, TextFault::NulByte(41)),
        (b"a$$b\0".as_slice(), Mode::Path, TextFault::NulByte(44)),
    ] {
        let refused = match pieces_at(rt.alloc(), text, 40, mode) {
            Ok(_) => None,
            Err(found) => Some(found),
        };
        assert!(rt; refused == Some(fault));
    }
}

#[test]
fn list_of_pieces(rt: HostRuntime) -> Result<(), Fail> {
    let name = SmallText::new(rt.alloc(), b"in")?;
    let one = PieceList::one(Piece::Reference(name));
    assert!(rt; has_reference(&one, 0, b"in"));
    let mut held = Vec::new(rt.alloc());
    held.push(Piece::Literal(SmallText::new(rt.alloc(), b"a")?))?;
    let list = PieceList::new(held);
    assert!(rt; has_literal(&list, 0, b"a"));
    assert_eq!(rt; PieceList::empty(rt.alloc()).as_slice().len(), 0);
    Ok(())
}

#[test]
fn short_and_long_texts(rt: HostRuntime) -> Result<(), Fail> {
    assert_eq!(rt; SmallText::empty().as_slice(), b"".as_slice());
    let full = SmallText::new(rt.alloc(), b"123456789 123456789 123456789 ")?;
    assert_eq!(rt; full.as_slice().len(), 30);
    let want = b"123456789 123456789 123456789 123";
    let long = SmallText::new(rt.alloc(), want.as_slice())?;
    assert_eq!(rt; long.as_slice(), want.as_slice());
    Ok(())
}

#[test]
fn logical_lines(rt: HostRuntime) -> Result<(), Fail> {
    let found = value_of(lines(rt.alloc(), b"x = $\n  1\n\n# c $\n  y = 2"))?;
    let first = Line {
        indent: 0,
        start: 0,
        end: 9,
    };
    let second = Line {
        indent: 2,
        start: 19,
        end: 24,
    };
    assert!(rt; found.as_slice() == [first, second].as_slice());
    let fault = lines(rt.alloc(), b"a\n \tb");
    assert!(rt; matches!(fault, Err(TextFault::TabBlank(3))));
    Ok(())
}

#[test]
fn refused_lines(rt: HostRuntime) -> Result<(), Fail> {
    let fault = lines(rt.alloc(), b"a\n# \0");
    assert!(rt; matches!(fault, Err(TextFault::NulByte(4))));
    let fault = lines(rt.alloc(), b"a\n  b\0");
    assert!(rt; matches!(fault, Err(TextFault::NulByte(5))));
    let fault = lines(rt.alloc(), b"a\n\t# \0");
    assert!(rt; matches!(fault, Err(TextFault::TabBlank(2))));
    let long = vec![in rt.alloc(); b'#'; 16_777_217]?;
    let fault = lines(rt.alloc(), &long);
    assert!(rt; matches!(fault, Err(TextFault::SourceTooLong(16_777_216))));
    assert!(rt; value_of(lines(rt.alloc(), &long[1..]))?.is_empty());
    Ok(())
}

#[test]
fn refused_texts(rt: HostRuntime) {
    for (text, mode, fault) in [
        (b"x = a$!".as_slice(), Mode::Value, TextFault::BadEscape(5)),
        (b"a${b".as_slice(), Mode::Path, TextFault::BadEscape(1)),
        (b"ab\tc".as_slice(), Mode::Path, TextFault::TabBlank(2)),
        (b"abc\0".as_slice(), Mode::Value, TextFault::NulByte(3)),
    ] {
        let refused = match pieces(rt.alloc(), text, mode) {
            Ok(_) => None,
            Err(found) => Some(found),
        };
        assert!(rt; refused == Some(fault));
    }
}

#[test]
fn numbers_in_digits(rt: HostRuntime) {
    assert_eq!(rt; number_in(b"1000000", 1_000_000), Some(1_000_000));
    assert_eq!(rt; number_in(b"1000001", 1_000_000), None);
    assert_eq!(rt; number_in(b"007", 7), Some(7));
    assert_eq!(rt; number_in(b"", 9), None);
    assert_eq!(rt; number_in(b"-1", 9), None);
    assert_eq!(rt;
        number_in(b"18446744073709551615", u64::MAX),
        Some(u64::MAX)
    );
    assert_eq!(rt; number_in(b"18446744073709551616", u64::MAX), None);
}

#[test]
fn canonical_already(rt: HostRuntime) {
    assert!(rt; is_canonical(b"/a/b.c"));
    assert!(rt; is_canonical(b"a"));
    assert!(rt; !is_canonical(b"a//b"));
    assert!(rt; !is_canonical(b"a/"));
    assert!(rt; !is_canonical(b""));
}

/// Returns two bytes. Its fault is the only one that `Memory` has.
fn two_bytes(alloc: Global) -> Result<Vec<u8>, Memory> {
    let mut bytes = Vec::from_slice(alloc, b"a")?;
    bytes.push(b'b')?;
    Ok(bytes)
}

#[test]
fn want_of_memory(rt: HostRuntime) {
    match two_bytes(rt.alloc()) {
        Ok(bytes) => assert_eq!(rt; bytes.as_slice(), b"ab".as_slice()),
        Err(fault) => assert!(rt; fault == Memory),
    }
}

#[test]
fn first_lines(rt: HostRuntime) {
    let (line, size) = split_line(b"a$\nb\r\nc");
    assert_eq!(rt; line, b"a$\nb".as_slice());
    assert_eq!(rt; size, 6);
    let (line, size) = split_line(b"\na");
    assert_eq!(rt; line.len(), 0);
    assert_eq!(rt; size, 1);
    let (line, size) = split_line(b" # b$");
    assert_eq!(rt; line.len(), 5);
    assert_eq!(rt; size, 5);
}

#[test]
fn bytes_found(rt: HostRuntime) {
    assert!(rt; begins(b"ab", b'a'));
    assert!(rt; !begins(b"", 0));
    assert_eq!(rt; nul_at(b"ab\0c\0"), 2);
    assert_eq!(rt; nul_at(b"ab"), 2);
}

#[test]
fn lengths(rt: HostRuntime) {
    assert_eq!(rt; gap_len(b"  $\n $\r\n\tx"), 8);
    assert_eq!(rt; indent_len(b"  $\n x"), 2);
    assert_eq!(rt; newline_len(b"\r\n\n"), 2);
    assert_eq!(rt; newline_len(b"\rx"), 0);
    assert_eq!(rt; logical_len(b"a$\nb\r\nc"), 4);
    assert_eq!(rt; logical_len(b" # b$\nc"), 5);
    assert_eq!(rt; name_len(b"a-B_9.x=1"), 7);
    assert_eq!(rt; escape_len(b"{a.b}c"), Some(5));
    assert_eq!(rt; escape_len(b"a.b"), Some(1));
    assert_eq!(rt; escape_len(b"\n  x"), Some(3));
    assert_eq!(rt; escape_len(b"{}"), None);
}

/// A unit of two bytes.
struct PairUnit;

impl Unit for PairUnit {
    ghost use Rattle.std.specs.Prelude.{ℕ, List, [], ◌∷◌};

    ghost size = { elim [ [] ↦ 0 | x ∷ [] ↦ 0 | x ∷ y ∷ rest ↦ 2 ] };

    fn unit_len(text: &[u8]) -> usize {
        match text {
            [_, _, ..] => 2,
            _ => 0,
        }
    }
}

#[test]
fn runs_of_pairs(rt: HostRuntime) {
    assert_eq!(rt; run_len::<PairUnit>(b"abcde"), 4);
}

#[test]
fn list_of_items(rt: HostRuntime) -> Result<(), Fail> {
    let mut held = Vec::new(rt.alloc());
    held.push(7)?;
    let items = Items::new(held);
    assert_eq!(rt; items.as_slice(), [7].as_slice());
    let mut held = items.into_vec();
    held.push(8)?;
    assert_eq!(rt; held.as_slice(), [7, 8].as_slice());
    let none: Items<u32> = Items::empty(rt.alloc());
    assert_eq!(rt; none.as_slice().len(), 0);
    Ok(())
}

#[test]
fn fault_numbers(rt: HostRuntime) {
    for (fault, number) in [
        (TextFault::TabBlank(9), 1),
        (TextFault::NulByte(9), 2),
        (TextFault::BadEscape(9), 3),
        (TextFault::SourceTooLong(9), 4),
        (TextFault::Memory, 5),
        (TextFault::EmptyPath, 6),
    ] {
        assert_eq!(rt; fault.number(), number);
    }
}

/// A writer that takes at most two bytes a call, and fails at one call.
#[derive(Drop)]
struct Faltering {
    taken: Vec<u8>,
    calls: u32,
    failing: u32,
}

impl Write for Faltering {
    fn write(&mut self, bytes: &[u8]) -> io::Result<usize> {
        self.calls = self.calls.saturating_add(1);
        if self.calls == self.failing {
            return Err(io::Error::from(io::ErrorKind::BrokenPipe));
        }
        let n = bytes.len().min(2);
        self.taken.extend_from_slice(&bytes[..n])?;
        Ok(n)
    }

    fn flush(&mut self) -> io::Result<()> {
        Ok(())
    }
}

#[test]
fn sinks(rt: HostRuntime) -> Result<(), Fail> {
    let mut sink = Counted::new(Vec::new(rt.alloc()));
    write_all(&mut sink, b"one ")?;
    write_all(&mut sink, b"two")?;
    let taken = sink.into_writer();
    assert_eq!(rt; taken.as_slice(), b"one two".as_slice());

    let mut sink = Counted::new(Faltering {
        taken: Vec::new(rt.alloc()),
        calls: 0,
        failing: 3,
    });
    let failed = write_all(&mut sink, b"abcdefg");
    assert!(rt; matches!(failed, Err(SinkFault)));
    assert_eq!(rt;
        format!(in rt.alloc(); "{SinkFault}")?.as_str(),
        "a write failed"
    );
    let mut writer = sink.into_writer();
    assert_eq!(rt; writer.taken.as_slice(), b"abcd".as_slice());
    writer.flush()?;
    let mut sink = Counted::new(writer);
    write_all(&mut sink, b"xyz")?;
    assert_eq!(rt; sink.into_writer().taken.as_slice(), b"abcdxyz".as_slice());
    Ok(())
}

#[test]
fn rows_of_items(rt: HostRuntime) -> Result<(), Fail> {
    let mut rows = RowList::new(rt.alloc());
    rows.push(b"ab".as_slice())?;
    rows.push(b"".as_slice())?;
    rows.push(b"c".as_slice())?;
    rows.truncate(2);
    rows.push(b"de".as_slice())?;
    rows.truncate(9);
    assert_eq!(rt; rows.len(), 3);
    assert_eq!(rt; rows.row(0), b"ab".as_slice());
    assert_eq!(rt; rows.row(1), b"".as_slice());
    assert_eq!(rt; rows.row(2), b"de".as_slice());
    assert!(rt; rows.get(3).is_none());
    let same = rows.copy(rt.alloc())?;
    assert_eq!(rt; same.row(2), b"de".as_slice());
    Ok(())
}

/// Checks that rows in shared bytes may overlap, and may be partly or wholly after the end of the bytes.
#[test]
fn rows_of_shared_bytes(rt: HostRuntime) -> Result<(), Fail> {
    let alloc = rt.alloc();
    let bytes = Arc::new(alloc, Vec::from_slice(alloc, b"..abcdef".as_slice())?)?;
    let mut places = Vec::new(alloc);
    for (start, len) in [(0, 2), (1, 3), (4, 9), (2, 0), (7, 1)] {
        places.push(Place::new(start, len)?)?;
    }
    let rows = SharedRows::new(bytes, 2, places);
    assert_eq!(rt; rows.len(), 5);
    for (number, row) in [b"ab".as_slice(), b"bcd", b"ef", b"", b"", b""]
        .into_iter()
        .enumerate()
    {
        assert_eq!(rt; rows.row(number), row);
    }
    assert!(rt; Place::new(0, 4_294_967_295).is_ok());
    assert!(rt; Place::new(4_294_967_296, 0).is_err());
    assert!(rt; Place::new(0, 4_294_967_296).is_err());
    Ok(())
}

/// Returns the rows at these places of a copy of the bytes, which count from the byte `first`.
fn shared(
    alloc: Global,
    bytes: &[u8],
    first: usize,
    places: &[(usize, usize)],
) -> Result<SharedRows, Fail> {
    let bytes = Arc::new(alloc, Vec::from_slice(alloc, bytes)?)?;
    let mut list = Vec::new(alloc);
    for (start, len) in places {
        list.push(Place::new(*start, *len)?)?;
    }
    Ok(SharedRows::new(bytes, first, list))
}

/// Checks that lists of shared rows are the same if their rows are, wherever these are.
#[test]
fn same_shared_rows(rt: HostRuntime) -> Result<(), Fail> {
    let alloc = rt.alloc();
    let rows = shared(alloc, b"..abcdef", 2, &[(0, 2), (1, 3), (4, 9), (2, 0)])?;
    for (bytes, first, places) in [
        (b"..abcdef".as_slice(), 2, [(0, 2), (1, 3), (4, 9), (2, 0)]),
        (b"abcdef".as_slice(), 0, [(0, 2), (1, 3), (4, 9), (2, 0)]),
        (
            b"....ef..bcd.ab".as_slice(),
            4,
            [(8, 2), (4, 3), (0, 2), (90, 1)],
        ),
    ] {
        assert!(rt; rows.is_same(&shared(alloc, bytes, first, &places)?));
    }
    for (bytes, first, places) in [
        (b"..abcdeg".as_slice(), 2, [(0, 2), (1, 3), (4, 9), (2, 0)]),
        (b"..abcdefg".as_slice(), 2, [(0, 2), (1, 3), (4, 9), (2, 0)]),
        (b"..abcdef".as_slice(), 1, [(0, 2), (1, 3), (4, 9), (2, 0)]),
        (b"..abcdef".as_slice(), 2, [(0, 2), (1, 3), (4, 9), (2, 1)]),
    ] {
        assert!(rt; !rows.is_same(&shared(alloc, bytes, first, &places)?));
    }
    assert!(rt; !rows.is_same(&shared(alloc, b"..abcdef", 2, &[(0, 2), (1, 3), (4, 9)])?));
    assert!(rt; shared(alloc, b"ab", 0, &[])?.is_same(&shared(alloc, b"", 7, &[])?));
    Ok(())
}

/// Checks that bytes between rows may differ, and bytes of a row before the last one may be the last of all.
#[test]
fn same_shared_rows_with_gaps(rt: HostRuntime) -> Result<(), Fail> {
    let alloc = rt.alloc();
    let rows = shared(alloc, b"ab.cdefgh", 0, &[(0, 2), (3, 6), (4, 2)])?;
    assert!(rt; rows.is_same(&shared(alloc, b"ab,cdefgh", 0, &[(0, 2), (3, 6), (4, 2)])?));
    assert!(rt; !rows.is_same(&shared(alloc, b"ab.cdefgx", 0, &[(0, 2), (3, 6), (4, 2)])?));
    Ok(())
}

/// Adds a path for each number below `count`.
fn add_paths(rt: &impl AllocGlobal, filter: &mut PathFilter, count: usize) -> Result<(), Fail> {
    for number in 0..count {
        let path = format!(in rt.alloc(); "CMakeFiles/app.dir/source/file_{number}.cpp.o")?;
        filter.add(path.as_bytes());
    }
    Ok(())
}

/// Counts the paths with a number below `count` and this ending that may be in a filter.
fn found(
    rt: &impl AllocGlobal,
    filter: &PathFilter,
    count: usize,
    ending: &str,
) -> Result<usize, Fail> {
    let mut found = 0;
    for number in 0..count {
        let path = format!(in rt.alloc(); "CMakeFiles/app.dir/source/file_{number}{ending}")?;
        found += filter.may_have(path.as_bytes()) as usize;
    }
    Ok(found)
}

/// Takes a value that threads may share.
fn is_shared<T: Send + Sync>(_value: &T) {}

#[test]
fn filter_of_paths(rt: HostRuntime) -> Result<(), Fail> {
    let mut filter = PathFilter::new(rt.alloc(), 1_000)?;
    is_shared(&filter);
    assert_eq!(rt; found(&rt, &filter, 1_000, ".cpp.o")?, 0);
    add_paths(&rt, &mut filter, 1_000)?;
    filter.add(b"");
    filter.add(b"a.o");
    assert_eq!(rt; found(&rt, &filter, 1_000, ".cpp.o")?, 1_000);
    assert!(rt; filter.may_have(b"") & filter.may_have(b"a.o"));
    assert!(rt; !filter.may_have(b"b.o"));
    assert!(rt; found(&rt, &filter, 1_000, ".cc.o")? < 100);
    assert_eq!(rt; found(&rt, &filter, 1_000, ".hpp")?, 0);
    assert!(rt; !filter.may_have(b"C") & !filter.may_have(b"o"));
    Ok(())
}
