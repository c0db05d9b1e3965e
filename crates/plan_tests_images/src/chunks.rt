//! Calls each public function of plan_chunks on values, as another crate would.

use plan_chunks::Chunks;
use std::test::Fail;

#[test]
fn equal_chunks_are_held_once(rt: HostRuntime) -> Result<(), Fail> {
    let mut chunks = Chunks::new(rt.alloc());
    assert_eq!(rt; chunks.len(), 0);
    assert_eq!(rt; chunks.put(b"a.h")?, 0);
    assert_eq!(rt; chunks.put(b"b/c.h")?, 1);
    assert_eq!(rt; chunks.put(b"a.h")?, 0);
    assert_eq!(rt; chunks.put(b"")?, 2);
    assert_eq!(rt; chunks.len(), 3);
    assert_eq!(rt; chunks.chunk(0), b"a.h".as_slice());
    assert_eq!(rt; chunks.chunk(1), b"b/c.h".as_slice());
    assert_eq!(rt; chunks.chunk(2), b"".as_slice());
    assert_eq!(rt; chunks.chunk(3), b"".as_slice());
    Ok(())
}
