//! Entries as the record recalls them, and their paths.

ghost use Rattle.std.specs.Prelude.{◌≡◌, IfErr, IfOk, IfSome, Some};
ghost use Rattle.plan_verify.specs.Turn.{Recall};
ghost use Rattle.plan_world.specs.Answers.{IsAnswer};
ghost use Rattle.plan_world.specs.Askable.{AreAskable, IsRecalled, RecallsAs};

use crate::askable::{are_askable, are_rows_askable};
use crate::fault::DeviceFault;
use crate::record_sink::{begun_entry, entry_among, is_begun, read_among, recorded_of};
use plan_machine::{Recorded, Reply};
use plan_record::Entry;
use plan_text::{PathFilter, RowList};
use std::alloc::Global;

/// Returns these paths. Returns None if the system can't be asked about one of them: then their entry is spoilt.
pub(crate) fn if_askable(paths: RowList<u8>) -> Option<RowList<u8>>
    ensures askable { IfSome result (λ all. AreAskable all) }
    ensures paths { AreAskable paths → result ≡ Some paths }
{
    if are_rows_askable(&paths) {
        return Some(paths);
    }
    None
}

/// Returns those paths of an entry that may be in a set. Returns None if it is a start entry, has no paths or is
/// spoilt.
pub(crate) fn askable_among(
    alloc: Global,
    entry: &Entry,
    wanted: &PathFilter,
) -> Result<Option<RowList<u8>>, DeviceFault>
    ensures { IfOk result (λ found. IfSome found (λ paths. AreAskable paths)) }
{
    match entry_among(alloc, entry, wanted)? {
        Some(paths) => Ok(if_askable(paths)),
        None => Ok(None),
    }
}

/// Returns those paths that a start entry keeps and that may be in a set. Returns None if the entry is no start entry,
/// keeps no such paths, or is spoilt.
pub(crate) fn kept_among(
    alloc: Global,
    entry: &Entry,
    wanted: &PathFilter,
) -> Result<Option<RowList<u8>>, DeviceFault>
    ensures { IfOk result (λ found. IfSome found (λ paths. AreAskable paths)) }
{
    if !is_begun(entry) {
        return Ok(None);
    }
    let kept = read_among(alloc, entry, wanted)?;
    if kept.len() == 0 {
        return Ok(None);
    }
    Ok(if_askable(kept))
}

/// Returns the reply to a recall that found an entry with these contents. If the system can't be asked about one of its
/// paths, the entry is spoilt. Then the reply is `Nothing`, so that the edge's command runs again.
fn replied_entry(recorded: Recorded) -> Reply
    ensures { RecallsAs recorded result }
{
    if are_askable(recorded.paths()) {
        Reply::Entry(recorded)
    } else {
        Reply::Nothing
    }
}

/// Returns an entry as its edge recalls it: a start entry without the paths that it keeps, which needn't be looked up.
pub(crate) fn as_recalled(alloc: Global, output: &[u8], entry: Entry) -> Result<Entry, DeviceFault>
    requires { entry.output ≡ output.now }
    ensures { IfOk result (λ e. e.output ≡ output.now) }
{
    if is_begun(&entry) {
        return begun_entry(alloc, output);
    }
    Ok(entry)
}

/// Returns the reply to a recall: the entry that was found for the output, if it isn't spoilt.
pub(crate) fn recall_reply(
    alloc: Global,
    output: &[u8],
    found: Option<Entry>,
) -> Result<Reply, DeviceFault>
    requires { IfSome found (λ e. e.output ≡ output.now) }
    ensures suits { IfOk result (λ r. IsAnswer (Recall output.now) r) }
    ensures recalled { IfOk result (λ r. IsRecalled found r) }
    ensures memory { IfErr result (λ f. f ≡ DeviceFault.Memory) }
{
    match found {
        Some(entry) => Ok(replied_entry(recorded_of(alloc, &entry)?)),
        None => Ok(Reply::Nothing),
    }
}
