//! Calls each public function of plan_depfile on values, as another crate would.

use crate::outcome::value_of;
use plan_depfile::*;
use plan_text::Memory;
use std::alloc::Global;
use std::test::Fail;

/// Checks whether the paths are these.
fn has_paths(found: &Paths, want: &[&[u8]]) -> bool {
    if found.len() != want.len() {
        return false;
    }
    for (number, path) in want.iter().enumerate() {
        if found.path(number) != *path {
            return false;
        }
    }
    true
}

/// Checks whether a depfile has no fault and these paths.
fn reads_as(parsed: &Parsed, want: &[&[u8]]) -> bool {
    match parsed.result() {
        Ok(paths) => has_paths(paths, want),
        Err(_) => false,
    }
}

/// Returns the paths that a reader finds in a text that comes in two pieces.
fn cut_at(alloc: Global, text: &[u8], at: usize) -> Result<Paths, DepFault> {
    let mut reader = Reader::new(alloc);
    let (front, rest) = text.split_at(at.min(text.len()));
    reader.feed(front)?;
    reader.feed(rest)?;
    match reader.finish() {
        Ok(paths) => Ok(paths),
        Err((_, fault)) => Err(fault),
    }
}

/// Returns the fault of a text, or `None` if it has none.
fn fault_of(alloc: Global, text: &[u8]) -> Option<DepFault> {
    match cut_at(alloc, text, text.len()) {
        Ok(_) => None,
        Err(fault) => Some(fault),
    }
}

/// Checks whether a text has these paths if it comes in two pieces.
fn has_paths_cut_at(
    alloc: Global,
    text: &[u8],
    at: usize,
    want: &[&[u8]],
) -> Result<bool, DepFault> {
    let paths = cut_at(alloc, text, at)?;
    Ok(has_paths(&paths, want))
}

/// A depfile with an escaped blank, an escaped newline, two dollars, a path that comes twice and an escaped colon.
const CUT: &[u8] = b"out: a\\ a.h \\\r\n $$b.h ./a\\ a.h a\\:b\nx:y";

/// Its paths.
const CUT_PATHS: [&[u8]; 4] = [b"a a.h", b"$b.h", b"a:b", b"y"];

#[test]
fn cut_at_each_byte(rt: HostRuntime) -> Result<(), Fail> {
    for at in 0..CUT.len() {
        let found = value_of(has_paths_cut_at(rt.alloc(), CUT, at, CUT_PATHS.as_slice()))?;
        assert!(rt; found, "cut at {at}");
    }
    Ok(())
}

#[test]
fn refused_texts(rt: HostRuntime) {
    for (text, fault) in [
        (b"out a.h".as_slice(), DepFault::NoColon(0)),
        (b"a: b\n : c".as_slice(), DepFault::NoTarget(6)),
        (b"a: $$$ b".as_slice(), DepFault::LoneDollar(5)),
    ] {
        assert!(rt; fault_of(rt.alloc(), text) == Some(fault));
    }
    assert!(rt; fault_of(rt.alloc(), b"# $\na:b") == None);
}

#[test]
fn longest_path(rt: HostRuntime) -> Result<(), Fail> {
    let mut text = vec![in rt.alloc(); b'x'; 4_099]?;
    text[1] = b':';
    text[2] = b' ';
    assert!(rt; fault_of(rt.alloc(), &text) == None);
    text.push(b'x')?;
    text.push(b'x')?;
    assert!(rt; fault_of(rt.alloc(), &text) == Some(DepFault::PathTooLong(3)));
    Ok(())
}

#[test]
fn longest_depfile(rt: HostRuntime) -> Result<(), Fail> {
    let mut text = vec![in rt.alloc(); b'a'; 16_777_217]?;
    text[16_777_216] = b':';
    assert!(rt; fault_of(rt.alloc(), &text[1..]) == None);
    assert!(rt; fault_of(rt.alloc(), &text) == Some(DepFault::TooLong(16_777_216)));
    text[16_777_215] = b'$';
    assert!(rt; fault_of(rt.alloc(), &text) == Some(DepFault::LoneDollar(16_777_215)));
    text[16_777_216] = b'$';
    assert!(rt; fault_of(rt.alloc(), &text) == Some(DepFault::TooLong(16_777_216)));
    Ok(())
}

/// Collects a text that comes in two pieces, and reads it.
fn gathered(alloc: Global, front: &[u8], rest: &[u8]) -> Result<Parsed, Memory> {
    let mut gather = Gather::new(alloc);
    gather.feed(front)?;
    gather.feed(rest)?;
    match gather.finish() {
        Ok(parsed) => Ok(parsed),
        Err((gather, memory)) => {
            drop(gather);
            Err(memory)
        }
    }
}

/// Returns a copy of a text that comes in two pieces, and is collected and read.
fn gathered_copy(alloc: Global, front: &[u8], rest: &[u8]) -> Result<Parsed, Memory> {
    let parsed = gathered(alloc, front, rest)?;
    let copy = parsed.copy(alloc);
    drop(parsed);
    copy
}

#[test]
fn gathered_and_copied(rt: HostRuntime) -> Result<(), Fail> {
    let copy = value_of(gathered_copy(rt.alloc(), b"out: a.h \\", b"\n b.h ./a.h"))?;
    assert_eq!(rt; copy.bytes(), b"out: a.h \\\n b.h ./a.h".as_slice());
    let want = [b"a.h".as_slice(), b"b.h".as_slice()];
    assert!(rt; reads_as(&copy, want.as_slice()));
    Ok(())
}

/// Collects the depfile that is cut at each byte, and copies what was read. Checks that the copy has the whole text and
/// its paths.
#[test]
fn copied_when_cut_at_each_byte(rt: HostRuntime) -> Result<(), Fail> {
    for at in 0..CUT.len() {
        let (front, rest) = CUT.split_at(at);
        let copy = value_of(gathered_copy(rt.alloc(), front, rest))?;
        assert!(rt; copy.bytes() == CUT, "bytes, cut at {at}");
        assert!(rt; reads_as(&copy, CUT_PATHS.as_slice()), "paths, cut at {at}");
    }
    Ok(())
}

#[test]
fn gathered_behind_a_fault(rt: HostRuntime) -> Result<(), Fail> {
    let parsed = value_of(gathered(rt.alloc(), b"out a.h\n", b"a:b"))?;
    assert_eq!(rt; parsed.bytes(), b"out a.h\na:b".as_slice());
    assert!(rt; matches!(parsed.result(), Err(DepFault::NoColon(0))));
    Ok(())
}

#[test]
fn parsed_of_bytes(rt: HostRuntime) -> Result<(), Fail> {
    let bytes = Vec::from_slice(rt.alloc(), b"a:b")?;
    let parsed = value_of(Parsed::of(rt.alloc(), bytes))?;
    assert!(rt; reads_as(&parsed, [b"b".as_slice()].as_slice()));
    Ok(())
}

#[test]
fn numbers_and_offsets(rt: HostRuntime) {
    assert_eq!(rt; DepFault::NoColon(7).number(), 90);
    assert_eq!(rt; DepFault::PathTooLong(7).number(), 94);
    assert_eq!(rt; DepFault::Memory.number(), 95);
    assert_eq!(rt; DepFault::TooLong(7).offset(), Some(7));
    assert_eq!(rt; DepFault::Memory.offset(), None);
}

/// Feeds a piece to a reader. Tries once more if memory was refused.
fn feed_again(reader: &mut Reader, piece: &[u8]) -> Result<(), DepFault> {
    match reader.feed(piece) {
        Err(DepFault::Memory) => reader.feed(piece),
        answer => answer,
    }
}

/// Returns the paths of a reader. Tries once more if memory was refused.
fn finish_again(reader: Reader) -> Result<Paths, DepFault> {
    let reader = match reader.finish() {
        Ok(paths) => return Ok(paths),
        Err((reader, DepFault::Memory)) => reader,
        Err((_, fault)) => return Err(fault),
    };
    match reader.finish() {
        Ok(paths) => Ok(paths),
        Err((_, fault)) => Err(fault),
    }
}

/// Reads a text piece by piece. Tries each call once more if memory was refused.
fn read_again(alloc: Global, text: &[u8]) -> Result<Paths, DepFault> {
    let mut reader = Reader::new(alloc);
    for piece in text.chunks(7) {
        feed_again(&mut reader, piece)?;
    }
    finish_again(reader)
}

/// Collects a text piece by piece. Tries each call once more if memory was refused.
fn feed_pieces(gather: &mut Gather, text: &[u8]) -> Result<(), Memory> {
    for piece in text.chunks(7) {
        match gather.feed(piece) {
            Ok(()) => {}
            Err(_) => gather.feed(piece)?,
        }
    }
    Ok(())
}

/// Collects a text and reads it. Tries each call once more if memory was refused.
fn gather_again(alloc: Global, text: &[u8]) -> Result<Parsed, Memory> {
    let mut gather = Gather::new(alloc);
    feed_pieces(&mut gather, text)?;
    match gather.finish() {
        Ok(parsed) => Ok(parsed),
        Err((gather, _)) => match gather.finish() {
            Ok(parsed) => Ok(parsed),
            Err((_, memory)) => Err(memory),
        },
    }
}

const REFUSED_ONCE: &[u8] =
    b"# x\nout: ./a\\ b.h \\\r\n $$b.h a\\ b.h ../c/./d.h\\:e\nx:/usr/include/y.h a/../z";

/// Checks a call whose allocation is refused by `rt try --test --fail-alloc N`: the call returns `Memory`, and nothing
/// is lost.
#[test]
fn reads_after_refused_memory(rt: HostRuntime) -> Result<(), Fail> {
    let want = [
        b"a b.h".as_slice(),
        b"$b.h".as_slice(),
        b"../c/d.h:e".as_slice(),
        b"/usr/include/y.h".as_slice(),
        b"z".as_slice(),
    ];
    let paths = value_of(read_again(rt.alloc(), REFUSED_ONCE))?;
    assert!(rt; has_paths(&paths, want.as_slice()));
    Ok(())
}

/// Copies a depfile. Tries once more if memory was refused.
fn copy_again(alloc: Global, parsed: &Parsed) -> Result<Parsed, Memory> {
    match parsed.copy(alloc) {
        Ok(copy) => Ok(copy),
        Err(_) => parsed.copy(alloc),
    }
}

/// Checks whether a depfile has these bytes and this number of paths.
fn has_bytes(parsed: &Parsed, bytes: &[u8], paths: usize) -> bool {
    match parsed.result() {
        Ok(found) => parsed.bytes() == bytes && found.len() == paths,
        Err(_) => false,
    }
}

/// Collects a text and copies it. Checks whether the copy has the text and this number of paths.
fn is_gathered(alloc: Global, text: &[u8], paths: usize) -> Result<bool, Memory> {
    let parsed = gather_again(alloc, text)?;
    let copied = copy_again(alloc, &parsed);
    drop(parsed);
    let copy = copied?;
    Ok(has_bytes(&copy, text, paths))
}

/// Checks the same for a text that is collected, and for a copy of it.
#[test]
fn gathers_after_refused_memory(rt: HostRuntime) -> Result<(), Fail> {
    assert!(rt; value_of(is_gathered(rt.alloc(), REFUSED_ONCE, 5))?);
    Ok(())
}
