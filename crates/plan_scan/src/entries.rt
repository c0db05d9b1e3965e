//! What the record says of an edge, and the stamps of what its last command read.

ghost use Rattle.std.specs.Prelude.{◌≡◌, IfOk, length};
ghost use Rattle.plan_compile.specs.Rule.{paths_in};
ghost use Rattle.plan_reasons.specs.Observing.{entry_reply, file_exchanges};
ghost use Rattle.plan_reasons.specs.Replies.{entry_seen};
ghost use Rattle.plan_scan.specs.Scans.{AreAllowed, MayBe};
ghost use Rattle.plan_verify.specs.Turn.{Recall, Stat, StampIs};

use crate::doubt::Doubt;
use plan_lanes::World;
use plan_machine::{Recorded, Reply};
use plan_text::Items;
use plan_verify::PathList;
use std::alloc::Global;

/// Returns the entry that the record has for an output, if there is one.
pub(crate) fn entry_of<W: World>(world: &W, output: &[u8]) -> Result<Option<Recorded>, Doubt>
    ensures { IfOk result (λ entry. MayBe W.allows (Recall output.now) (entry_reply (entry_seen entry))) }
{
    match world.recall(0, output)? {
        Reply::Entry(recorded) => Ok(Some(recorded)),
        Reply::Nothing => Ok(None),
        _other => Err(Doubt::NotShown),
    }
}

/// Asks for the stamp of a path.
#[tactic(auto, using(crate::proofs::CommandLemmas::stamp_may_be))]
fn stamp_of<W: World>(world: &W, path: &[u8]) -> Result<u64, Doubt>
    ensures { IfOk result (λ stamp. MayBe W.allows (Stat path.now) (StampIs stamp)) }
{
    match world.stat_ahead(path) {
        Some(stamp) => Ok(stamp),
        None => Err(Doubt::NotShown),
    }
}

/// Asks for the stamps of paths.
#[tactic(auto, using(crate::proofs::CommandLemmas::one_more_path))]
fn stamps_of<W: World>(alloc: Global, world: &W, paths: &PathList) -> Result<Items<u64>, Doubt>
    ensures all { IfOk result (λ stamps. length stamps ≡ length paths.now) }
    ensures allowed { IfOk result (λ stamps. AreAllowed W.allows (file_exchanges paths.now stamps)) }
{
    let mut stamps = Vec::with_capacity(alloc, paths.len() as usize)?;
    for number in 0..paths.len() {
        let stamp = stamp_of(world, paths.path(number))?;
        stamps.push(stamp)?;
    }
    Ok(Items::new(stamps))
}

/// Asks for the stamps of the paths of an entry, if there is one.
pub(crate) fn recorded_stamps<W: World>(
    alloc: Global,
    world: &W,
    entry: &Option<Recorded>,
) -> Result<Items<u64>, Doubt>
    ensures all { IfOk result (λ stamps. length stamps ≡ length (paths_in (entry_seen entry.now))) }
    ensures allowed { IfOk result (λ stamps. AreAllowed W.allows (file_exchanges (paths_in (entry_seen entry.now)) stamps)) }
{
    match entry {
        Some(recorded) => stamps_of(alloc, world, recorded.paths()),
        None => Ok(Items::empty(alloc)),
    }
}
