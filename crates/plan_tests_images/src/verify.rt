//! Calls each public function of plan_verify on images, as another crate would.

use plan_image::{
    Body, Edge, EdgeCode, Edges, Image, Instr, Kind, Parts, Pool, Slot, Sort, print_image, split,
};
use plan_text::{Counted, Items, Memory, RowList};
use plan_verify::*;
use std::alloc::{AllocError, Global};
use std::test::Fail;

/// Creates an edge with label 0 and output 0.
fn edge(alloc: Global, rank: u32, waits: &[u32], code: EdgeCode) -> Result<Edge, AllocError> {
    let outputs = Vec::from_slice(alloc, [0].as_slice())?;
    let waits = Vec::from_slice(alloc, waits)?;
    Ok(Edge {
        sort: Sort::Command,
        pool: None,
        rank,
        label: 0,
        outputs: Items::new(outputs),
        waits: Items::new(waits),
        code,
    })
}

/// Appends an edge with its own code.
fn push_edge(
    alloc: Global,
    edges: &mut Edges,
    rank: u32,
    waits: &[u32],
    code: &[Instr],
) -> Result<(), AllocError> {
    let own = EdgeCode::Own(Items::new(Vec::from_slice(alloc, code)?));
    let edge = edge(alloc, rank, waits, own)?;
    edges.push(alloc, &edge)
}

/// Sets text 0 to `x` and file 0 to `a`, and makes edge 0 a default.
fn fill(alloc: Global, parts: &mut Parts, slots: &[Slot]) -> Result<(), AllocError> {
    parts.texts.push(b"x")?;
    parts.files.push(b"a")?;
    parts.slots = Items::new(Vec::from_slice(alloc, slots)?);
    parts.defaults = Items::new(Vec::from_slice(alloc, [0].as_slice())?);
    Ok(())
}

/// Creates the tables of these edges. Text 0 is `x`, file 0 is `a`, and edge 0 is a default.
fn parts_of(alloc: Global, slots: &[Slot], edges: Edges) -> Result<Parts, AllocError> {
    let mut parts = Parts {
        texts: RowList::new(alloc),
        files: RowList::new(alloc),
        pools: Items::empty(alloc),
        slots: Items::empty(alloc),
        bodies: None,
        edges,
        defaults: Items::empty(alloc),
    };
    fill(alloc, &mut parts, slots)?;
    Ok(parts)
}

/// Returns the verifier's verdict on tables.
fn verdict_on(alloc: Global, parts: Parts) -> Result<u64, VerifyFault> {
    match Image::new(parts) {
        Ok(image) => verdict_on_image(alloc, image),
        Err((parts, _)) => {
            drop(parts);
            Err(VerifyFault::Memory)
        }
    }
}

/// Returns the verifier's verdict on an image.
fn verdict_on_image(alloc: Global, image: Image) -> Result<u64, VerifyFault> {
    match verify(alloc, image) {
        Ok(verified) => {
            let budget = verified.budget();
            drop(verified);
            Ok(budget)
        }
        Err((image, fault)) => {
            drop(image);
            Err(fault)
        }
    }
}

/// Returns the verifier's verdict on the code of one edge in version 1.
fn verdict(alloc: Global, code: &[Instr], slots: &[Slot]) -> Result<u64, VerifyFault> {
    let mut edges = Edges::new(alloc);
    push_edge(alloc, &mut edges, 0, &[], code)?;
    verdict_on(alloc, parts_of(alloc, slots, edges)?)
}

/// Returns the tables of one edge with this body, in version 2.
fn parts_of_body(
    alloc: Global,
    body: Body,
    operands: Items<u32>,
    slots: &[Slot],
) -> Result<Parts, AllocError> {
    let mut bodies = Vec::new(alloc);
    bodies.push(body)?;
    let edge = edge(alloc, 0, &[], EdgeCode::Shared(0, operands))?;
    let mut edges = Edges::new(alloc);
    edges.push(alloc, &edge)?;
    let mut parts = parts_of(alloc, slots, edges)?;
    parts.bodies = Some(Items::new(bodies));
    Ok(parts)
}

/// Returns the verifier's verdict on the code as a body in version 2.
fn verdict_on_body(alloc: Global, code: &[Instr], slots: &[Slot]) -> Result<u64, VerifyFault> {
    let Ok((body, operands)) = split(alloc, code) else {
        return Err(VerifyFault::Memory);
    };
    verdict_on(alloc, parts_of_body(alloc, body, operands, slots)?)
}

#[test]
fn accepted_code(rt: HostRuntime) {
    for (code, budget) in [
        ([Instr::End].as_slice(), 2),
        (
            [Instr::Flag(true), Instr::JumpIf(3), Instr::End, Instr::End].as_slice(),
            5,
        ),
        (
            [
                Instr::Take,
                Instr::Text(0),
                Instr::Run,
                Instr::Release,
                Instr::Text(0),
                Instr::Deps,
                Instr::Drop,
                Instr::End,
            ]
            .as_slice(),
            11,
        ),
        (
            [
                Instr::Zero,
                Instr::Flag(false),
                Instr::Text(0),
                Instr::Deps,
                Instr::Sweep,
                Instr::Drop,
                Instr::Drop,
                Instr::Drop,
                Instr::End,
            ]
            .as_slice(),
            11,
        ),
    ] {
        assert!(rt; verdict(rt.alloc(), code, &[]) == Ok(budget));
        assert!(rt; verdict_on_body(rt.alloc(), code, &[]) == Ok(budget));
    }
}

#[test]
fn refused_code(rt: HostRuntime) {
    for (code, refusal, place) in [
        ([].as_slice(), Refusal::FallsOff, 0),
        ([Instr::Or, Instr::End].as_slice(), Refusal::EmptyStack, 0),
        (
            [Instr::Zero, Instr::Not, Instr::End].as_slice(),
            Refusal::WrongKind,
            1,
        ),
        (
            [Instr::Load(0), Instr::Drop, Instr::End].as_slice(),
            Refusal::BadSlot,
            0,
        ),
        (
            [Instr::Flag(true), Instr::JumpIf(1), Instr::End].as_slice(),
            Refusal::BadJump,
            1,
        ),
        (
            [Instr::Flag(true), Instr::JumpIf(3), Instr::End].as_slice(),
            Refusal::BadJump,
            1,
        ),
        (
            [Instr::Flag(true), Instr::JumpIf(3), Instr::Zero, Instr::End].as_slice(),
            Refusal::ShapesDiffer,
            3,
        ),
        (
            [Instr::Text(0), Instr::Run, Instr::End].as_slice(),
            Refusal::NotHolding,
            1,
        ),
        ([Instr::Take, Instr::End].as_slice(), Refusal::Holding, 1),
        (
            [Instr::Stat(1), Instr::Drop, Instr::End].as_slice(),
            Refusal::BadFile,
            0,
        ),
        (
            [Instr::Text(1), Instr::Drop, Instr::End].as_slice(),
            Refusal::BadText,
            0,
        ),
        ([Instr::Zero, Instr::Drop].as_slice(), Refusal::FallsOff, 1),
        (
            [Instr::Jump(2), Instr::End, Instr::End].as_slice(),
            Refusal::DeadCode,
            1,
        ),
        ([Instr::Zero, Instr::End].as_slice(), Refusal::ValuesLeft, 1),
    ] {
        let fault = VerifyFault::Refused(refusal, 0, place);
        assert!(rt; verdict(rt.alloc(), code, &[]) == Err(fault));
        assert!(rt; verdict_on_body(rt.alloc(), code, &[]) == Err(fault));
    }
}

#[test]
fn own_slots(rt: HostRuntime) {
    let stamp = [Slot {
        owner: 0,
        kind: Kind::Stamp,
    }];
    let store = [Instr::Zero, Instr::Store(0), Instr::End];
    assert!(rt; verdict(rt.alloc(), store.as_slice(), stamp.as_slice()) == Ok(4));
    let load = [Instr::Load(0), Instr::Drop, Instr::End];
    assert!(rt;
        verdict(rt.alloc(), load.as_slice(), stamp.as_slice())
            == Err(VerifyFault::Refused(Refusal::UnsetSlot, 0, 0))
    );
    let end = [Instr::End];
    assert!(rt;
        verdict(rt.alloc(), end.as_slice(), stamp.as_slice())
            == Err(VerifyFault::Refused(Refusal::UnsetSlot, 0, 0))
    );
    let paths = [Slot {
        owner: 0,
        kind: Kind::Paths,
    }];
    assert!(rt;
        verdict(rt.alloc(), end.as_slice(), paths.as_slice())
            == Err(VerifyFault::Refused(Refusal::PathsInSlot, 0, 0))
    );
    let foreign = [Slot {
        owner: 1,
        kind: Kind::Stamp,
    }];
    assert!(rt;
        verdict(rt.alloc(), end.as_slice(), foreign.as_slice())
            == Err(VerifyFault::Refused(Refusal::BadSlot, 0, 0))
    );
}

#[test]
fn stack_of_65(rt: HostRuntime) -> Result<(), Fail> {
    let mut code = vec![in rt.alloc(); Instr::Zero; 65]?;
    code.push(Instr::End)?;
    assert!(rt;
        verdict(rt.alloc(), &code, &[]) == Err(VerifyFault::Refused(Refusal::TooDeep, 0, 64))
    );
    Ok(())
}

/// Returns the verifier's verdict on two edges. The second edge loads a slot of the first.
fn verdict_on_two(alloc: Global, rank: u32, waits: &[u32]) -> Result<u64, VerifyFault> {
    let store = [Instr::Zero, Instr::Store(0), Instr::End];
    let load = [Instr::Load(0), Instr::Drop, Instr::End];
    let mut edges = Edges::new(alloc);
    push_edge(alloc, &mut edges, 0, &[], store.as_slice())?;
    push_edge(alloc, &mut edges, rank, waits, load.as_slice())?;
    let slots = [Slot {
        owner: 0,
        kind: Kind::Stamp,
    }];
    verdict_on(alloc, parts_of(alloc, slots.as_slice(), edges)?)
}

#[test]
fn slots_of_waits(rt: HostRuntime) {
    assert!(rt; verdict_on_two(rt.alloc(), 1, &[0]) == Ok(8));
    assert!(rt;
        verdict_on_two(rt.alloc(), 1, &[]) == Err(VerifyFault::Refused(Refusal::BadSlot, 1, 0))
    );
    assert!(rt;
        verdict_on_two(rt.alloc(), 0, &[0]) == Err(VerifyFault::Refused(Refusal::BadWait, 1, 0))
    );
    assert!(rt;
        verdict_on_two(rt.alloc(), 1, &[2]) == Err(VerifyFault::Refused(Refusal::BadWait, 1, 0))
    );
}

/// Creates the tables of one edge with the code `End`.
fn plain_parts(alloc: Global) -> Result<Parts, AllocError> {
    let mut edges = Edges::new(alloc);
    push_edge(alloc, &mut edges, 0, &[], [Instr::End].as_slice())?;
    parts_of(alloc, &[], edges)
}

/// Returns the verifier's verdict on the tables of one edge with these defaults.
fn verdict_with_defaults(alloc: Global, defaults: &[u32]) -> Result<u64, VerifyFault> {
    let defaults = Vec::from_slice(alloc, defaults)?;
    let mut parts = plain_parts(alloc)?;
    parts.defaults = Items::new(defaults);
    verdict_on(alloc, parts)
}

/// Returns the verifier's verdict on the tables of one edge without texts.
fn verdict_without_texts(alloc: Global) -> Result<u64, VerifyFault> {
    let mut parts = plain_parts(alloc)?;
    parts.texts = RowList::new(alloc);
    verdict_on(alloc, parts)
}

/// Returns the verifier's verdict on the tables of one edge without files.
fn verdict_without_files(alloc: Global) -> Result<u64, VerifyFault> {
    let mut parts = plain_parts(alloc)?;
    parts.files = RowList::new(alloc);
    verdict_on(alloc, parts)
}

#[test]
fn tables_outside(rt: HostRuntime) {
    assert!(rt;
        verdict_with_defaults(rt.alloc(), [1].as_slice())
            == Err(VerifyFault::Refused(Refusal::BadWait, 0, 0))
    );
    assert!(rt;
        verdict_without_texts(rt.alloc()) == Err(VerifyFault::Refused(Refusal::BadText, 0, 0))
    );
    assert!(rt;
        verdict_without_files(rt.alloc()) == Err(VerifyFault::Refused(Refusal::BadFile, 0, 0))
    );
}

/// Appends an edge of pool 0 with its own code.
fn push_pooled(alloc: Global, edges: &mut Edges, code: &[Instr]) -> Result<(), AllocError> {
    let own = EdgeCode::Own(Items::new(Vec::from_slice(alloc, code)?));
    let mut edge = edge(alloc, 0, &[], own)?;
    edge.pool = Some(0);
    edges.push(alloc, &edge)
}

/// Appends three edges that take a job token of pool 0.
fn push_three(alloc: Global, edges: &mut Edges) -> Result<(), AllocError> {
    let code = [
        Instr::Take,
        Instr::Text(0),
        Instr::Run,
        Instr::Release,
        Instr::End,
    ];
    for _ in 0..3 {
        push_pooled(alloc, edges, code.as_slice())?;
    }
    Ok(())
}

/// Creates the tables of three edges that take a job token of pool 0. There are no pools.
fn pooled_parts(alloc: Global) -> Result<Parts, AllocError> {
    let mut edges = Edges::new(alloc);
    push_three(alloc, &mut edges)?;
    parts_of(alloc, &[], edges)
}

/// Creates the tables of three edges of pool 0, whose depth is 1.
fn parts_of_pool(alloc: Global) -> Result<Parts, AllocError> {
    let name = Vec::from_slice(alloc, b"p")?;
    let mut pools = Vec::new(alloc);
    pools.push(Pool {
        name: Items::new(name),
        depth: 1,
    })?;
    let mut parts = pooled_parts(alloc)?;
    parts.pools = Items::new(pools);
    Ok(parts)
}

#[test]
fn pool_of_one(rt: HostRuntime) -> Result<(), Fail> {
    let parts = parts_of_pool(rt.alloc())?;
    assert!(rt; verdict_on(rt.alloc(), parts) == Ok(21));
    let parts = pooled_parts(rt.alloc())?;
    assert!(rt; verdict_on(rt.alloc(), parts) == Err(VerifyFault::Refused(Refusal::BadPool, 0, 0)));
    Ok(())
}

/// Returns the bytes of the image that `verify` hands back, accepted or refused.
fn bytes_back(alloc: Global, parts: Parts) -> Result<Vec<u8>, Memory> {
    match Image::new(parts) {
        Ok(image) => verified_bytes(alloc, image),
        Err((parts, _)) => {
            drop(parts);
            Err(Memory)
        }
    }
}

/// Verifies an image. Returns its bytes, accepted or refused.
fn verified_bytes(alloc: Global, image: Image) -> Result<Vec<u8>, Memory> {
    match verify(alloc, image) {
        Ok(verified) => {
            let bytes = printed(alloc, verified.image());
            drop(verified);
            bytes
        }
        Err((image, _)) => {
            let bytes = printed(alloc, &image);
            drop(image);
            bytes
        }
    }
}

/// Prints an image and returns the bytes.
fn printed(alloc: Global, image: &Image) -> Result<Vec<u8>, Memory> {
    let mut room = Vec::with_capacity(alloc, 64)?;
    let mut out = Counted::new(Vec::new(alloc));
    match print_image(image, &mut room, &mut out) {
        Ok(()) => Ok(out.into_writer()),
        Err(_) => Err(Memory),
    }
}

#[test]
fn images_come_back(rt: HostRuntime) -> Result<(), Fail> {
    let image =
        b"PLANIMG\x01\0\0\0\x01\0\0\0\x01x\0\0\0\x01\0\x01a\0\0\0\0\0\0\0\0\0\0\0\x01\0\0\0\0\0\0\0\0\0\0\0\0\0\0\0\0\x01\0\0\0\0\0\0\0\0\0\0\0\x01\0\0\0\0\x01\0\0\0\0";
    let mut parts = plain_parts(rt.alloc())?;
    let Ok(bytes) = bytes_back(rt.alloc(), parts) else {
        panic!(rt; "no memory");
    };
    assert!(rt; bytes.as_slice() == image.as_slice());
    parts = plain_parts(rt.alloc())?;
    parts.defaults = Items::new(Vec::from_slice(rt.alloc(), [7].as_slice())?);
    let Ok(bytes) = bytes_back(rt.alloc(), parts) else {
        panic!(rt; "no memory");
    };
    assert!(rt; bytes.len() == image.len());
    Ok(())
}

#[test]
fn numbers(rt: HostRuntime) {
    let fault = VerifyFault::Refused(Refusal::ValuesLeft, 3, 5);
    assert_eq!(rt;
        (fault.number(), fault.edge(), fault.place()),
        (87, Some(3), Some(5))
    );
    let memory = VerifyFault::Memory;
    assert_eq!(rt;
        (memory.number(), memory.edge(), memory.place()),
        (86, None, None)
    );
    assert_eq!(rt; Refusal::EmptyStack.number(), 70);
}
