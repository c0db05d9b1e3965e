//! Calls each public function of plan_image on values, as another crate would.

use crate::outcome::value_of;
use byteorder::{BigEndian, ByteOrder};
use plan_image::*;
use plan_text::{Counted, Items, RowList};
use std::alloc::Global;
use std::io::{self, Write};
use std::process::Abort;
use std::test::Fail;

/// An image of version 1 with one edge.
const ONE_EDGE: [u8; 74] =
    *b"PLANIMG\x01\0\0\0\x01\0\0\0\x01x\0\0\0\x01\0\x01a\0\0\0\0\0\0\0\0\0\0\0\x01\0\0\0\0\0\0\0\0\0\0\0\0\0\0\0\0\x01\0\0\0\0\0\0\0\0\0\0\0\x01\0\0\0\0\x01\0\0\0\0";

/// The same image in version 2.
const ONE_SHARED: [u8; 82] =
    *b"PLANIMG\x02\0\0\0\x01\0\0\0\x01x\0\0\0\x01\0\x01a\0\0\0\0\0\0\0\0\0\0\0\x01\0\0\0\x01\0\0\0\0\x01\0\0\0\0\0\0\0\0\0\0\0\0\0\0\0\0\x01\0\0\0\0\0\0\0\0\0\0\0\0\0\0\0\x01\0\0\0\0";

/// An image with a pool, a slot, two edges, and a body with open operands.
const OPEN: [u8; 161] =
    *b"PLANIMG\x02\0\0\0\0\0\0\0\x01\0\x02ab\0\0\0\x01\0\x01p\0\0\0\x02\0\0\0\x01\0\0\0\0\x02\0\0\0\x01\0\0\0\x06\x0c\x01\x04\x03\x14\0\0\0\x05\x02\x1b\0\0\0\x02\0\0\0\0\x01\0\0\0\x07\0\0\0\x09\0\0\0\x02\0\0\0\0\0\0\0\0\0\0\0\0\0\0\0\0\0\0\0\0\0\0\0\0\0\0\0\x0c\x01\0\0\0\0\0\0\0\x08\0\0\0\x09\0\0\0\0\0\0\0\x01\0\0\0\0\0\0\0\0\0\0\0\x01\0\0\0\x02\0\0\0\x03\0\0\0\x02\0\0\0\0\0\0\0\x01";

/// Returns the fault of bytes, or `None` if they are an image.
fn fault_of(alloc: Global, bytes: &[u8]) -> Option<ImageFault> {
    match read_image(alloc, bytes) {
        Ok(image) => {
            drop(image);
            None
        }
        Err(fault) => Some(fault),
    }
}

/// Checks whether an image is printed as these bytes by a buffer with this capacity.
fn is_printed(alloc: Global, image: &Image, room: usize, bytes: &[u8]) -> Result<bool, ImageFault> {
    let mut room = Vec::with_capacity(alloc, room)?;
    let mut out = Counted::new(Vec::new(alloc));
    let done = print_image(image, &mut room, &mut out).is_ok();
    let printed = out.into_writer();
    Ok(done && printed.as_slice() == bytes)
}

/// Checks whether the tables make an image that is printed as these bytes.
fn are_printed(alloc: Global, parts: Parts, bytes: &[u8]) -> Result<bool, ImageFault> {
    match Image::new(parts) {
        Ok(image) => {
            let printed = is_printed(alloc, &image, 65_536, bytes);
            drop(image);
            printed
        }
        Err((parts, fault)) => {
            drop(parts);
            Err(fault)
        }
    }
}

/// Checks whether an image that is read, taken apart and put together again is printed as it was.
fn comes_back(alloc: Global, bytes: &[u8]) -> Result<bool, ImageFault> {
    let image = read_image(alloc, bytes)?;
    let printed = is_printed(alloc, &image, 7, bytes);
    let again = are_printed(alloc, image.into_parts(), bytes);
    Ok(printed? && again?)
}

/// Checks whether an image has this listing.
fn has_listing(alloc: Global, image: &Image, text: &[u8]) -> bool {
    let mut out = Counted::new(Vec::new(alloc));
    let done = listing(image, &mut out).is_ok();
    let listed = out.into_writer();
    done && listed.as_slice() == text
}

/// Checks whether the bytes are an image with this listing.
fn is_listed(alloc: Global, bytes: &[u8], text: &[u8]) -> bool {
    let Ok(image) = read_image(alloc, bytes) else {
        return false;
    };
    let listed = has_listing(alloc, &image, text);
    drop(image);
    listed
}

#[test]
fn images_come_back(rt: HostRuntime) -> Result<(), Fail> {
    assert!(rt; value_of(comes_back(rt.alloc(), ONE_EDGE.as_slice()))?);
    assert!(rt; value_of(comes_back(rt.alloc(), ONE_SHARED.as_slice()))?);
    assert!(rt; value_of(comes_back(rt.alloc(), OPEN.as_slice()))?);
    let mut empty = Vec::new(rt.alloc());
    empty.extend_from_slice(b"PLANIMG\x01")?;
    empty.extend_from_slice([0; 24].as_slice())?;
    assert!(rt; value_of(comes_back(rt.alloc(), &empty))?);
    let mut empty = Vec::new(rt.alloc());
    empty.extend_from_slice(b"PLANIMG\x02")?;
    empty.extend_from_slice([0; 28].as_slice())?;
    assert!(rt; value_of(comes_back(rt.alloc(), &empty))?);
    Ok(())
}

#[test]
fn listings(rt: HostRuntime) {
    let text =
        b"text 0 78\nfile 0 61\nedge 0 command rank 0 pool - label 0 outputs 0 waits -\n  0 End\ndefault 0\n";
    assert!(rt; is_listed(rt.alloc(), ONE_EDGE.as_slice(), text.as_slice()));
    let text =
        b"text 0 78\nfile 0 61\nbody 0\n  0 End\nedge 0 command rank 0 pool - label 0 outputs 0 waits - body 0 operands -\ndefault 0\n";
    assert!(rt; is_listed(rt.alloc(), ONE_SHARED.as_slice(), text.as_slice()));
    let text =
        b"file 0 6162\npool 0 70 depth 2\nslot 0 owner 0 kind F\nbody 0\n  0 Flag 1\n  1 Store _\n  2 Load _\n  3 Jump 5\n  4 Need _\n  5 Drop\nedge 0 command rank 7 pool 0 label 9 outputs 0 0 waits - body 0 operands 0 0 12\nedge 1 phony rank 8 pool - label 9 outputs - waits 0 body 0 operands 1 2 3\ndefault 0 1\n";
    assert!(rt; is_listed(rt.alloc(), OPEN.as_slice(), text.as_slice()));
}

/// Checks what an image of one edge has.
fn has_one_edge(rt: &impl Abort, image: &Image) {
    assert_eq!(rt; edge_of(image, b"a"), Some(0));
    assert_eq!(rt; edge_of(image, b"b"), None);
    assert_eq!(rt; image.parts().files.row(0), b"a".as_slice());
    assert_eq!(rt; image.parts().texts.len(), 1);
}

/// Checks that the code of edge 0 is `End`, and that there is no edge 1.
fn has_code_end(rt: &impl Abort, image: &Image) {
    assert!(rt; image.instr(0, 0) == Some(Instr::End));
    assert!(rt; image.instr(0, 1) == None);
    assert_eq!(rt; image.edge_code(0).len(), 1);
    assert!(rt; image.edge_code(0).instr(0) == Some(Instr::End));
    assert!(rt; image.edge_code(0).instr(1) == None);
    assert_eq!(rt; image.edge_code(1).len(), 0);
}

#[test]
fn what_an_image_has(rt: HostRuntime) -> Result<(), Fail> {
    for bytes in [ONE_EDGE.as_slice(), ONE_SHARED.as_slice()] {
        let image = value_of(read_image(rt.alloc(), bytes))?;
        has_one_edge(&rt, &image);
        has_code_end(&rt, &image);
        drop(image);
    }
    Ok(())
}

#[test]
fn cut_at_each_length(rt: HostRuntime) {
    for bytes in [ONE_EDGE.as_slice(), ONE_SHARED.as_slice(), OPEN.as_slice()] {
        for at in 0..bytes.len() {
            let fault = fault_of(rt.alloc(), &bytes[..at]);
            assert!(rt; fault == Some(ImageFault::Truncated(at as u64)));
        }
    }
}

#[test]
fn each_bit_flipped(rt: HostRuntime) -> Result<(), Fail> {
    for bytes in [ONE_EDGE.as_slice(), ONE_SHARED.as_slice(), OPEN.as_slice()] {
        for bit in 0..bytes.len() * 8 {
            let mut turned = Vec::from_slice(rt.alloc(), bytes)?;
            turned[bit / 8] ^= 1 << (bit % 8);
            match fault_of(rt.alloc(), &turned) {
                None => assert!(rt; value_of(comes_back(rt.alloc(), &turned))?),
                Some(fault) => assert!(rt; fault.offset().is_some()),
            }
        }
    }
    Ok(())
}

/// Returns the fault of an image in which one byte is replaced.
fn with_byte(alloc: Global, bytes: &[u8], at: usize, byte: u8) -> Result<Option<ImageFault>, Fail> {
    let mut turned = Vec::from_slice(alloc, bytes)?;
    if let Some(place) = turned.get_mut(at) {
        *place = byte;
    }
    Ok(fault_of(alloc, &turned))
}

#[test]
fn refused_bytes(rt: HostRuntime) -> Result<(), Fail> {
    for (at, byte, fault) in [
        (0, b'p', ImageFault::BadMagic(0)),
        (7, 3, ImageFault::BadVersion(7)),
        (9, 64, ImageFault::Limit(8)),
        (12, 1, ImageFault::Limit(12)),
        (22, 0, ImageFault::Limit(21)),
        (36, 2, ImageFault::BadTag(36)),
        (65, 29, ImageFault::BadTag(65)),
        (69, 0, ImageFault::Trailing(70)),
    ] {
        let found = with_byte(rt.alloc(), ONE_EDGE.as_slice(), at, byte)?;
        assert!(rt; found == Some(fault));
    }
    let found = with_byte(rt.alloc(), ONE_SHARED.as_slice(), 73, 1)?;
    assert!(rt; found == Some(ImageFault::BadBody(70)));
    Ok(())
}

/// Returns the head of an image with this count of texts.
fn counted_texts(count: u32) -> [u8; 12] {
    let mut bytes = *b"PLANIMG\x01\0\0\0\0";
    BigEndian::write_u32(&mut bytes[8..], count);
    bytes
}

#[test]
fn refused_counts(rt: HostRuntime) {
    let fault = fault_of(rt.alloc(), &counted_texts(4_194_304));
    assert!(rt; fault == Some(ImageFault::Truncated(12)));
    let fault = fault_of(rt.alloc(), &counted_texts(4_194_305));
    assert!(rt; fault == Some(ImageFault::Limit(8)));
}

/// Creates tables of one edge without outputs, with this code and these defaults.
fn tables(alloc: Global, code: EdgeCode, defaults: &[u32]) -> Result<Parts, Fail> {
    let defaults = Vec::from_slice(alloc, defaults)?;
    let edge = Edge {
        sort: Sort::Phony,
        pool: None,
        rank: 0,
        label: 0,
        outputs: Items::empty(alloc),
        waits: Items::empty(alloc),
        code,
    };
    let mut edges = Edges::new(alloc);
    edges.push(alloc, &edge)?;
    Ok(Parts {
        texts: RowList::new(alloc),
        files: RowList::new(alloc),
        pools: Items::empty(alloc),
        slots: Items::empty(alloc),
        bodies: None,
        edges,
        defaults: Items::new(defaults),
    })
}

/// Returns the number of edges in tables that are refused and handed back, and the fault. Returns `None` if they are
/// accepted.
fn handed_back(parts: Parts) -> Option<(usize, ImageFault)> {
    match Image::new(parts) {
        Ok(image) => {
            drop(image);
            None
        }
        Err((parts, fault)) => {
            let edges = parts.edges.len();
            drop(parts);
            Some((edges, fault))
        }
    }
}

#[test]
fn tables_handed_back(rt: HostRuntime) -> Result<(), Fail> {
    let own = EdgeCode::Own(Items::empty(rt.alloc()));
    let parts = tables(rt.alloc(), own, [0, 0].as_slice())?;
    assert!(rt; matches!(parts.version(), Version::One));
    assert!(rt; handed_back(parts) == Some((1, ImageFault::BadOrder(0))));
    let shared = EdgeCode::Shared(0, Items::empty(rt.alloc()));
    let parts = tables(rt.alloc(), shared, [].as_slice())?;
    assert!(rt; handed_back(parts) == Some((1, ImageFault::BadBody(0))));
    let own = EdgeCode::Own(Items::empty(rt.alloc()));
    let mut parts = tables(rt.alloc(), own, [0, 0].as_slice())?;
    parts.files.push(b"")?;
    assert!(rt; handed_back(parts) == Some((1, ImageFault::Limit(0))));
    Ok(())
}

#[test]
fn bodies(rt: HostRuntime) -> Result<(), Fail> {
    let code = [
        Instr::Text(7),
        Instr::Flag(true),
        Instr::Load(9),
        Instr::End,
    ];
    let (body, numbers) = value_of(split(rt.alloc(), code.as_slice()))?;
    assert_eq!(rt; numbers.as_slice(), [7, 9].as_slice());
    assert_eq!(rt; body.len(), 4);
    assert_eq!(rt; body.open_count(), 2);
    assert_eq!(rt; body.filled_len(numbers.as_slice()), 4);
    assert!(rt; body.as_slice()[0] == BodyInstr::Open(Opening::Text));
    for (place, instr) in code.iter().enumerate() {
        assert!(rt; body.instr(numbers.as_slice(), place) == Some(*instr));
    }
    let same = value_of(Body::new(rt.alloc(), Vec::from_slice(rt.alloc(), body.as_slice())?))?;
    assert!(rt; same.instr(numbers.as_slice(), 4) == None);
    Ok(())
}

#[test]
fn faults(rt: HostRuntime) {
    for (fault, number) in [
        (ImageFault::BadMagic(1), 60),
        (ImageFault::BadVersion(1), 61),
        (ImageFault::Truncated(1), 62),
        (ImageFault::Trailing(1), 63),
        (ImageFault::BadTag(1), 64),
        (ImageFault::Limit(1), 65),
        (ImageFault::BadOrder(1), 67),
        (ImageFault::BadBody(1), 68),
    ] {
        assert_eq!(rt; fault.number(), number);
        assert_eq!(rt; fault.offset(), Some(1));
    }
    assert_eq!(rt; ImageFault::Memory.number(), 66);
    assert_eq!(rt; ImageFault::Memory.offset(), None);
}

/// A writer that fails after a number of writes.
#[derive(Drop)]
struct Failing {
    left: u32,
}

impl Write for Failing {
    fn write(&mut self, bytes: &[u8]) -> io::Result<usize> {
        match self.left.checked_sub(1) {
            Some(left) => self.left = left,
            None => return Err(io::Error::from(io::ErrorKind::BrokenPipe)),
        }
        Ok(bytes.len())
    }

    fn flush(&mut self) -> io::Result<()> {
        Ok(())
    }
}

/// Checks whether an image is listed to a writer that fails after `left` writes.
fn is_listed_to(image: &Image, left: u32) -> bool {
    let mut out = Counted::new(Failing { left });
    match listing(image, &mut out) {
        Ok(()) => true,
        Err(WriteFault) => false,
    }
}

#[test]
fn failed_writes(rt: HostRuntime) -> Result<(), Fail> {
    let image = value_of(read_image(rt.alloc(), ONE_EDGE.as_slice()))?;
    for left in 0..40 {
        assert!(rt; !is_listed_to(&image, left));
    }
    assert!(rt; is_listed_to(&image, 1000));
    drop(image);
    Ok(())
}

/// Checks whether an image is printed to a writer that fails after `left` writes.
fn is_printed_to(image: &Image, room: &mut Vec<u8>, left: u32) -> bool {
    let mut out = Counted::new(Failing { left });
    match print_image(image, room, &mut out) {
        Ok(()) => true,
        Err(WriteFault) => false,
    }
}

#[test]
fn failed_prints(rt: HostRuntime) -> Result<(), Fail> {
    let mut room = Vec::with_capacity(rt.alloc(), 16)?;
    let image = value_of(read_image(rt.alloc(), ONE_EDGE.as_slice()))?;
    for left in 0..5 {
        assert!(rt; !is_printed_to(&image, &mut room, left));
    }
    assert!(rt; is_printed_to(&image, &mut room, 5));
    drop(image);
    Ok(())
}

/// Checks that an image is printed as these bytes by a buffer with any capacity up to one above their number.
fn fills_room(rt: &impl Abort, alloc: Global, image: &Image, bytes: &[u8]) -> Result<(), Fail> {
    for room in 0..bytes.len().saturating_add(2) {
        assert!(rt; value_of(is_printed(alloc, image, room, bytes))?);
    }
    Ok(())
}

#[test]
fn room_is_filled(rt: HostRuntime) -> Result<(), Fail> {
    let image = value_of(read_image(rt.alloc(), OPEN.as_slice()))?;
    let filled = fills_room(&rt, rt.alloc(), &image, OPEN.as_slice());
    drop(image);
    filled
}

/// Checks edge 1 of two.
fn has_edge_one(rt: &impl Abort, edges: &Edges) -> Result<(), Fail> {
    let Some(edge) = edges.get(1) else {
        return Err(Fail::new("another edge"));
    };
    assert!(rt; edge.sort == Sort::Phony && edge.pool == None);
    assert_eq!(rt; (edge.rank, edge.label), (8, 9));
    assert_eq!(rt; edge.outputs.len(), 0);
    assert_eq!(rt; edge.waits, [0].as_slice());
    match edges.code(1) {
        Some(CodeRef::Shared(body, operands)) => {
            assert_eq!(rt; body, 0);
            assert_eq!(rt; operands, [1, 2, 3].as_slice());
            Ok(())
        }
        _ => Err(Fail::new("another code")),
    }
}

/// Checks the ranks of two edges, and that there is no third one.
fn has_ranks(rt: &impl Abort, edges: &Edges) {
    assert_eq!(rt; edges.len(), 2);
    let mut rank = None;
    for number in 0..edges.len() {
        rank = Some(edges.edge(number).rank);
    }
    assert_eq!(rt; rank, Some(8));
    assert!(rt; edges.get(2).is_none());
    assert_eq!(rt; edges.rank(0), Some(7));
    assert_eq!(rt; edges.rank(2), None);
    assert!(rt; edges.waits(2).is_none());
}

#[test]
fn lent_edges(rt: HostRuntime) -> Result<(), Fail> {
    let image = value_of(read_image(rt.alloc(), OPEN.as_slice()))?;
    has_ranks(&rt, &image.parts().edges);
    let seen = has_edge_one(&rt, &image.parts().edges);
    drop(image);
    seen
}

/// Checks that the code of edge 0 is its own, that it is this code, and that it ends with `End`.
fn has_code(rt: &impl Abort, edges: &Edges, code: &[Instr]) -> Result<(), Fail> {
    let Some(CodeRef::Own(instrs)) = edges.code(0) else {
        return Err(Fail::new("another code"));
    };
    assert_eq!(rt; instrs.len(), code.len());
    for (place, instr) in code.iter().enumerate() {
        assert!(rt; instrs.get(place) == Some(*instr));
    }
    assert!(rt; instrs.get(code.len()) == None);
    let mut end = None;
    for place in 0..instrs.len() {
        if instrs.instr(place) == Instr::End {
            end = Some(place);
        }
    }
    assert_eq!(rt; end, code.len().checked_sub(1));
    Ok(())
}

#[test]
fn lent_instructions(rt: HostRuntime) -> Result<(), Fail> {
    let code = [Instr::Stat(4_294_967_295), Instr::Flag(true), Instr::End];
    let own = EdgeCode::Own(Items::new(Vec::from_slice(rt.alloc(), code.as_slice())?));
    let parts = tables(rt.alloc(), own, [].as_slice())?;
    let seen = has_code(&rt, &parts.edges, code.as_slice());
    drop(parts);
    seen
}
