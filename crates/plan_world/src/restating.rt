//! Restates entries: their bases become the stamps of their outputs.

ghost use Rattle.std.specs.Prelude.{◌≡◌, ◌&&◌, IfErr, IfOk, bytes_eq, length, not};
ghost use Rattle.std.specs.List.{list_any};
ghost use Rattle.plan_record.specs.Entries.{EntryData};
ghost use Rattle.plan_text.specs.Reducing.{texts};
ghost use Rattle.plan_world.specs.Rewriting.{is_begun, is_wanted, restated, restated_entry};

use crate::askable::is_askable;
use crate::fault::DeviceFault;
use crate::record_sink::{entry_of, is_begun, recorded_of};
use crate::stamp::stamp_of;
use plan_record::Entry;
use std::alloc::Global;
use std::rt::Files;

/// Checks whether a name is among these names.
fn is_among(names: &[&[u8]], wanted: &[u8]) -> bool
    ensures { result ≡ list_any (λ name. bytes_eq name wanted.now) (texts names.now) }
{
    for number in 0..names.len() {
        if names[number] == wanted {
            return true;
        }
    }
    false
}

/// Checks whether no output is named, or this output is among the named ones.
fn is_wanted(outputs: &[&[u8]], output: &[u8]) -> bool
    ensures { result ≡ is_wanted (texts outputs.now) output.now }
{
    (outputs.len() == 0) | is_among(outputs, output)
}

/// Checks whether an entry's basis becomes the stamp of its output.
fn is_restated(outputs: &[&[u8]], entry: &Entry) -> bool
    ensures { result ≡ (is_wanted (texts outputs.now) entry.now.output && not (is_begun entry.now)) }
{
    is_wanted(outputs, entry.output()) & !is_begun(entry)
}

/// Returns the same entry with another basis.
fn with_basis(alloc: Global, entry: &Entry, basis: u64) -> Result<Entry, DeviceFault>
    ensures { IfOk result (λ made. made ≡ record { output = entry.now.output; command = entry.now.command; basis = basis; paths = entry.now.paths }) }
{
    let said = recorded_of(alloc, entry)?;
    entry_of(
        alloc,
        entry.output(),
        said.command().as_slice(),
        basis,
        said.paths(),
    )
}

/// Returns an entry whose output has this stamp, restated if the output is wanted.
fn restated_entry(
    alloc: Global,
    outputs: &[&[u8]],
    stamp: u64,
    entry: &Entry,
) -> Result<Entry, DeviceFault>
    ensures { IfOk result (λ made. made ≡ restated_entry (texts outputs.now) stamp entry.now) }
{
    if is_restated(outputs, entry) {
        with_basis(alloc, entry, stamp)
    } else {
        Ok(entry.copy()?)
    }
}

/// Restates entries. There is one stamp for each entry: the basis of the entry becomes this stamp if its output is
/// wanted.
pub(crate) fn restate_entries(
    alloc: Global,
    outputs: &[&[u8]],
    stamps: &[u64],
    entries: &[Entry],
) -> Result<Vec<Entry>, DeviceFault>
    requires { length stamps.now ≡ length entries.now }
    ensures { IfOk result (λ made. made.items ≡ restated (texts outputs.now) stamps.now entries.now) }
{
    let mut made = Vec::new(alloc);
    for number in 0..entries.len() {
        made.push(restated_entry(alloc, outputs, stamps[number], &entries[number])?)?;
    }
    Ok(made)
}

/// Returns the current stamp of an entry's output if the entry is restated, and otherwise its basis. Also returns the
/// basis if the system can't be asked about the output, since then the entry is spoilt.
fn stamp_for<R: Files>(rt: &R, outputs: &[&[u8]], entry: &Entry) -> Result<u64, DeviceFault> {
    if is_restated(outputs, entry) & is_askable(entry.output()) {
        stamp_of(rt, entry.output())
    } else {
        Ok(entry.basis())
    }
}

/// Returns the stamps for these entries, one for each.
pub(crate) fn stamps_for<R: Files + AllocGlobal>(
    rt: &R,
    outputs: &[&[u8]],
    entries: &[Entry],
) -> Result<Vec<u64>, DeviceFault>
    ensures { IfOk result (λ stamps. length stamps.items ≡ length entries.now) }
{
    let mut stamps = Vec::new(rt.alloc());
    for entry in entries {
        stamps.push(stamp_for(rt, outputs, entry)?)?;
    }
    Ok(stamps)
}
