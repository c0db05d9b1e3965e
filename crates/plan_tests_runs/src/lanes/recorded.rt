//! Calls of a world about its record, and worlds that pass them on.

use plan_lanes::*;
use plan_machine::{Recorded, Reply};
use plan_stamps::StampCache;
use plan_text::{PathFilter, RowList};
use plan_verify::{PathList, Words};
use std::alloc::{AllocError, Global};
use std::process::Abort;
use std::test::*;

/// A world with an entry of the output `out`, which names `a` and `b`, and one of `alone`, which names nothing. Another
/// builder recorded `c` for the output `out`, later. Its record has the stamp 7. Each output was last made by the edge of `out`. An entry can be ended only without a reason.
/// The first command began at 9, it is 11 now, and there is one folder, `a`.
#[derive(Drop)]
struct Remembers {
    alloc: Global,
}

/// Returns an entry that names these paths.
fn entry_of(alloc: Global, names: &[&[u8]]) -> Result<Reply, AllocError> {
    let command = Words::of(alloc, b"true")?;
    let mut paths = RowList::new(alloc);
    for name in names {
        paths.push(*name)?;
    }
    let paths = PathList::new(alloc, paths)?;
    Ok(Reply::Entry(Recorded::new(alloc, command, 1, paths)?))
}

impl World for Remembers {
    ghost use Rattle.std.specs.Prelude.{⊤};

    ghost allows = { λ number request reply. ⊤ };

    fn keeps_journal() -> bool {
        false
    }

    fn observes() -> bool {
        false
    }

    fn stat(&self, _number: u64, _path: &[u8]) -> Result<Reply, AllocError> {
        Ok(Reply::Stamp(1))
    }

    fn recall(&self, _number: u64, output: &[u8]) -> Result<Reply, AllocError> {
        if output == b"out".as_slice() {
            return entry_of(self.alloc, &[b"a", b"b"]);
        }
        if output == b"alone".as_slice() {
            return entry_of(self.alloc, &[]);
        }
        Ok(Reply::Nothing)
    }

    fn foreign_among(
        &self,
        alloc: Global,
        output: &[u8],
        wanted: &PathFilter,
        is_recorded: bool,
    ) -> Result<Option<RowList<u8>>, AllocError> {
        if !is_recorded || output != b"out".as_slice() || !wanted.may_have(b"c") {
            return Ok(None);
        }
        let mut paths = RowList::new(alloc);
        paths.push(b"c")?;
        Ok(Some(paths))
    }

    fn foreign_names_others(&self, output: &[u8]) -> Result<bool, AllocError> {
        Ok(output == b"out".as_slice())
    }

    fn foreign_ran_another(&self, output: &[u8], first: &[u8]) -> Result<bool, AllocError> {
        Ok((output == b"b".as_slice()) & (first == b"out".as_slice()))
    }

    fn record_stamp(&self) -> Option<u64> {
        Some(7)
    }

    fn first_begin(&self) -> Option<u64> {
        Some(9)
    }

    fn now(&self) -> Option<u64> {
        Some(11)
    }

    fn is_file(&self, path: &[u8]) -> bool {
        path == b"a".as_slice()
    }

    fn is_made_with(&self, _output: &[u8], first: &[u8]) -> Result<bool, AllocError> {
        Ok(first == b"out".as_slice())
    }

    fn forget(&self, _output: &[u8], reason: &[u8]) -> Result<(), AllocError> {
        if reason.is_empty() {
            Ok(())
        } else {
            Err(AllocError)
        }
    }

    fn run(
        &self,
        _number: u64,
        _outputs: &RowList<u8>,
        permit: Permit,
    ) -> Result<Reply, AllocError> {
        permit.spend();
        Ok(Reply::Exit(0))
    }

    fn read_depfile(&self, _number: u64, _path: &[u8]) -> Result<Reply, AllocError> {
        Ok(Reply::Nothing)
    }

    fn keep(&self, _number: u64, _order: &KeepOrder) -> Result<Reply, AllocError> {
        Ok(Reply::Kept)
    }
}

/// Checks that a world finds the recorded path `b` of the output `out`, and no entry with paths of another output.
fn finds_recorded<W: World>(rt: &impl Abort, alloc: Global, world: &W) -> Result<(), AllocError> {
    let mut wanted = PathFilter::new(alloc, 1)?;
    wanted.add(b"b");
    match world.recorded_among(alloc, b"out", &wanted)? {
        Some(found) => {
            assert_eq!(rt; found.len(), 1);
            assert_eq!(rt; found.row(0), b"b".as_slice());
        }
        None => panic!(rt; "no entry"),
    }
    assert!(rt; world.recorded_among(alloc, b"b", &wanted)?.is_none());
    assert!(rt; world.recorded_among(alloc, b"alone", &wanted)?.is_none());
    Ok(())
}

/// Checks that a world finds the path `c` that another builder recorded for the output `out`, and none elsewhere.
fn finds_foreign<W: World>(rt: &impl Abort, alloc: Global, world: &W) -> Result<(), AllocError> {
    let mut wanted = PathFilter::new(alloc, 1)?;
    assert!(rt; world.foreign_among(alloc, b"out", &wanted, true)?.is_none());
    wanted.add(b"c");
    match world.foreign_among(alloc, b"out", &wanted, true)? {
        Some(found) => {
            assert_eq!(rt; found.len(), 1);
            assert_eq!(rt; found.row(0), b"c".as_slice());
        }
        None => panic!(rt; "no other record"),
    }
    assert!(rt;
        world
            .foreign_among(alloc, b"out", &wanted, false)?
            .is_none()
    );
    assert!(rt; world.foreign_among(alloc, b"b", &wanted, true)?.is_none());
    assert!(rt; world.foreign_names_others(b"out")?);
    assert!(rt; !world.foreign_names_others(b"b")?);
    assert!(rt; world.foreign_ran_another(b"b", b"out")?);
    assert!(rt; !world.foreign_ran_another(b"out", b"b")?);
    Ok(())
}

/// Checks that a world finds the recorded paths `b` and `c`, and says the rest that `Remembers` says of its record.
fn says_what_is_recorded<W: World>(
    rt: &impl Abort,
    alloc: Global,
    world: &W,
) -> Result<(), AllocError> {
    finds_recorded(rt, alloc, world)?;
    finds_foreign(rt, alloc, world)?;
    assert_eq!(rt; world.record_stamp(), Some(7));
    assert_eq!(rt; world.first_begin(), Some(9));
    assert_eq!(rt; world.now(), Some(11));
    assert!(rt; world.is_file(b"a"));
    assert!(rt; !world.is_file(b"b"));
    assert!(rt; world.is_made_with(b"b", b"out")?);
    assert!(rt; !world.is_made_with(b"out", b"b")?);
    assert!(rt; world.forget(b"out", b"").is_ok());
    assert!(rt; world.forget(b"out", b"why").is_err());
    Ok(())
}

/// Checks the calls about the record of a world, and of worlds that wrap it.
#[test]
fn record_is_passed_on(rt: HostRuntime) -> Result<(), AllocError> {
    let world = Remembers { alloc: rt.alloc() };
    says_what_is_recorded(&rt, rt.alloc(), &world)?;
    says_what_is_recorded(&rt, rt.alloc(), &Journaled::new(&world))?;
    says_what_is_recorded(&rt, rt.alloc(), &Observing::new(&world))?;
    let cache = StampCache::new(&rt, rt.alloc(), world, 16)?;
    says_what_is_recorded(&rt, rt.alloc(), &cache)
}
