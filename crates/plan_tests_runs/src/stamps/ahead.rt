//! Tests of stamps that are asked for ahead of a build.

use crate::outcome::value_of;
use crate::stamps::cache::{asked_for, cache_of, keep_entry};
use plan_record::{Entry, EntryFault};
use plan_text::Items;
use std::alloc::{AllocError, Global};
use std::sync::atomic::AtomicBool;
use std::test::*;

/// Returns these paths, each with its own bytes.
fn items_of(alloc: Global, paths: &[&[u8]]) -> Result<Vec<Items<u8>>, AllocError> {
    let mut items = Vec::new(alloc);
    for path in paths {
        items.push(Items::new(Vec::from_slice(alloc, path)?))?;
    }
    Ok(items)
}

/// Returns the entry of an output whose command read these paths.
fn entry_of(alloc: Global, output: &[u8], paths: &[&[u8]]) -> Result<Entry, EntryFault> {
    Entry::new(alloc, output, b"true", 1, &items_of(alloc, paths)?)
}

/// Returns the entries of three outputs, of which two read the same header.
fn entries_in(alloc: Global) -> Result<Vec<Entry>, EntryFault> {
    let mut entries = Vec::new(alloc);
    entries.push(entry_of(alloc, b"a", &[b"a.c".as_slice(), b"header"])?)?;
    entries.push(entry_of(alloc, b"b", &[])?)?;
    entries.push(entry_of(alloc, b"c", &[b"header".as_slice(), b"c.c"])?)?;
    Ok(entries)
}

/// Any number of threads asks once for the stamps of outputs and of recorded paths. A build doesn't ask for them again.
#[test]
fn asked_once(rt: HostRuntime) -> Result<(), Fail> {
    let entries = value_of(entries_in(rt.alloc()))?;
    for threads in 1..4usize {
        let cache = cache_of(&rt, 64, 0)?;
        cache.ask_ahead(&entries, threads, &AtomicBool::new(false));
        assert_eq!(rt; cache.inner().asked(), 6);
        for path in [b"a".as_slice(), b"b", b"c", b"a.c", b"c.c", b"header"] {
            assert_eq!(rt; asked_for(&cache, path, 2)?, 0);
        }
        assert_eq!(rt; asked_for(&cache, b"another", 2)?, 1);
    }
    Ok(())
}

/// Checks that no stamp is asked for ahead after a command has begun, after the build has ended, or without a thread.
#[test]
fn nothing_is_asked(rt: HostRuntime) -> Result<(), Fail> {
    let entries = value_of(entries_in(rt.alloc()))?;
    let cache = cache_of(&rt, 64, 0)?;
    cache.ask_ahead(&entries, 2, &AtomicBool::new(true));
    cache.ask_ahead(&entries, 0, &AtomicBool::new(false));
    assert_eq!(rt; keep_entry(rt.alloc(), &cache)?, true);
    cache.ask_ahead(&entries, 2, &AtomicBool::new(false));
    assert_eq!(rt; cache.inner().asked(), 0);
    Ok(())
}
