//! Tests of how often a cache asks its inner world.

use crate::lanes::boards::order_to_keep;
use crate::stamps::worlds::{CountingWorld, STAMP};
use plan_lanes::World;
use plan_machine::Reply;
use plan_stamps::StampCache;
use std::alloc::{AllocError, Global};
use std::rt::Clock;
use std::sync::Wait;
use std::test::*;

/// The number of stamps after each command that aren't kept.
const SHORT: u64 = 1_024;

/// Returns a cache over a counting world in which `enough` questions are enough.
pub(crate) fn cache_of(
    rt: &HostRuntime,
    room: usize,
    enough: u64,
) -> Result<StampCache<'_, HostRuntime, CountingWorld<HostRuntime>>, AllocError> {
    let world = CountingWorld::new(rt.clone()?, enough);
    StampCache::new(rt, rt.alloc(), world, room)
}

/// Asks for the stamp of a path. None if the reply isn't a stamp.
fn stamp_in<W: World>(world: &W, path: &[u8]) -> Result<Option<u64>, AllocError> {
    match world.stat(0, path)? {
        Reply::Stamp(stamp) => Ok(Some(stamp)),
        _ => Ok(None),
    }
}

/// Asks for the stamp of a path `times` times, and returns how many of these questions reach the inner world.
pub(crate) fn asked_for<R: Wait, C: Clock + AllocGlobal>(
    cache: &StampCache<'_, R, CountingWorld<C>>,
    path: &[u8],
    times: u64,
) -> Result<u64, AllocError> {
    let before = cache.inner().asked();
    for _ in 0..times {
        let _ = stamp_in(cache, path)?;
    }
    Ok(cache.inner().asked().saturating_sub(before))
}

/// Keeps an entry, which counts like a command, and returns whether it is kept.
pub(crate) fn keep_entry<W: World>(alloc: Global, world: &W) -> Result<bool, AllocError> {
    let Ok(Some(order)) = order_to_keep::<W>(alloc) else {
        return Ok(false);
    };
    match world.keep(0, &order)? {
        Reply::Kept => Ok(true),
        _ => Ok(false),
    }
}

/// Until a command begins, the inner world is asked once for each path. The replies are those of the inner world.
#[test]
fn one_question_for_each_path(rt: HostRuntime) -> Result<(), Fail> {
    let cache = cache_of(&rt, 64, 0)?;
    for path in [b"a".as_slice(), b"b", b"ab", b"a"] {
        for _ in 0..5 {
            assert_eq!(rt; stamp_in(&cache, path)?, Some(STAMP));
        }
    }
    assert_eq!(rt; cache.inner().asked(), 3);
    Ok(())
}

/// After an entry is kept, which counts like a command, paths are asked for again.
#[test]
fn asked_again_after_each_command(rt: HostRuntime) -> Result<(), Fail> {
    let cache = cache_of(&rt, 64, 0)?;
    assert_eq!(rt; asked_for(&cache, b"a", 3)?, 1);
    for _ in 0..3 {
        assert_eq!(rt; keep_entry(rt.alloc(), &cache)?, true);
        assert_eq!(rt; asked_for(&cache, b"a", 1)?, 1);
    }
    Ok(())
}

/// After the first command, a stamp is kept only if many stamps were offered since the last command.
#[test]
fn many_questions_between_two_commands(rt: HostRuntime) -> Result<(), Fail> {
    let cache = cache_of(&rt, 64, 0)?;
    for _ in 0..2 {
        assert_eq!(rt; keep_entry(rt.alloc(), &cache)?, true);
        assert_eq!(rt; asked_for(&cache, b"a", SHORT)?, SHORT);
        assert_eq!(rt; asked_for(&cache, b"a", 9)?, 1);
        assert_eq!(rt; asked_for(&cache, b"b", 9)?, 1);
    }
    Ok(())
}

/// Checks that a fault isn't kept: its path is asked for each time.
#[test]
fn faults_are_asked_for_again(rt: HostRuntime) -> Result<(), Fail> {
    let cache = cache_of(&rt, 64, 0)?;
    for _ in 0..4 {
        assert_eq!(rt; stamp_in(&cache, b"")?, None);
    }
    assert_eq!(rt; cache.inner().asked(), 4);
    Ok(())
}

/// Checks that a table that was created with room 0 keeps few stamps, and that all replies are still right.
#[test]
fn full_table(rt: HostRuntime) -> Result<(), Fail> {
    let cache = cache_of(&rt, 0, 0)?;
    for _ in 0..2 {
        for first in 1..100u8 {
            assert_eq!(rt; stamp_in(&cache, [first].as_slice())?, Some(STAMP));
        }
    }
    assert_eq!(rt; cache.inner().asked(), 2 * 99 - 8);
    Ok(())
}

/// Checks that a stamp that is asked for ahead is kept, and that a kept stamp is returned ahead. After a command, paths
/// are asked for again. A path without a stamp is asked for each time.
#[test]
fn stamps_ahead(rt: HostRuntime) -> Result<(), Fail> {
    let cache = cache_of(&rt, 64, 0)?;
    assert_eq!(rt; stamp_in(&cache, b"a")?, Some(STAMP));
    for path in [b"a".as_slice(), b"b", b"ab", b"b"] {
        assert_eq!(rt; cache.stat_ahead(path), Some(STAMP));
        assert_eq!(rt; stamp_in(&cache, path)?, Some(STAMP));
    }
    assert_eq!(rt; cache.inner().asked(), 3);
    assert_eq!(rt; keep_entry(rt.alloc(), &cache)?, true);
    assert_eq!(rt; cache.stat_ahead(b"a"), Some(STAMP));
    assert_eq!(rt; cache.stat_ahead(b""), None);
    assert_eq!(rt; cache.stat_ahead(b""), None);
    assert_eq!(rt; cache.inner().asked(), 6);
    Ok(())
}
