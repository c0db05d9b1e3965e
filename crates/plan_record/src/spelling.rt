//! Spells an entry from its parts, and appends it to a sink.

ghost use Rattle.std.specs.Prelude.{◌≡◌, ◌≢◌, ◌≤◌, ◌++◌, IfOk, IfErr, OnOk, length};
ghost use Rattle.std.specs.List.{flat_map, AllByRecursion};
ghost use Rattle.plan_record.specs.Entries.{path_spelling, command_spelling, body, spelling, IsPath, ArePartsFit, HasSpelling};
ghost use Rattle.plan_record.specs.declared.fault.EntryFault.TheVariants.{Memory};
ghost use Rattle.plan_record.specs.Appending.{AppendsSpelling};

use crate::entry::Entry;
use crate::fault::EntryFault;
use crate::reading::{MAX_COMMAND, MAX_PATH};
use plan_text::{Items, Sink};
use std::alloc::Global;

fn push_path(bytes: &mut Vec<u8>, path: &[u8]) -> Result<(), EntryFault>
    ensures pushed { OnOk result (bytes.new.items ≡ bytes.old.items ++ path_spelling path.now) }
    ensures within { OnOk result (IsPath path.now) }
    ensures outside { IfErr result (λ f. f ≢ Memory → IsPath path.now → ⊥) }
{
    if path.is_empty() {
        return Err(EntryFault::OutsideLimits);
    }
    if path.len() > usize::from(MAX_PATH) {
        return Err(EntryFault::OutsideLimits);
    }
    bytes.extend_from_slice(&(path.len() as u16).to_be_bytes())?;
    bytes.extend_from_slice(path)?;
    Ok(())
}

fn push_command(bytes: &mut Vec<u8>, command: &[u8]) -> Result<(), EntryFault>
    ensures pushed { OnOk result (bytes.new.items ≡ bytes.old.items ++ command_spelling command.now) }
    ensures within { OnOk result (length command.now ≤ 1048576) }
    ensures outside { IfErr result (λ f. f ≢ Memory → length command.now ≤ 1048576 → ⊥) }
{
    if command.len() > MAX_COMMAND as usize {
        return Err(EntryFault::OutsideLimits);
    }
    bytes.extend_from_slice(&(command.len() as u32).to_be_bytes())?;
    bytes.extend_from_slice(command)?;
    Ok(())
}

fn push_paths(bytes: &mut Vec<u8>, paths: &[Items<u8>]) -> Result<(), EntryFault>
    ensures pushed { OnOk result (bytes.new.items ≡ bytes.old.items ++ flat_map path_spelling paths.now) }
    ensures within { OnOk result (AllByRecursion IsPath paths.now) }
    ensures outside { IfErr result (λ f. f ≢ Memory → AllByRecursion IsPath paths.now → ⊥) }
{
    for path in paths {
        push_path(bytes, path.as_slice())?;
    }
    Ok(())
}

/// Returns the body of an entry.
fn spell_body(
    alloc: Global,
    output: &[u8],
    command: &[u8],
    basis: u64,
    paths: &[Items<u8>],
) -> Result<Vec<u8>, EntryFault>
    ensures spelled { IfOk result (λ bytes. bytes.items ≡ body (record { output = output.now; command = command.now; basis = basis; paths = paths.now })) }
    ensures within { OnOk result (ArePartsFit (record { output = output.now; command = command.now; basis = basis; paths = paths.now })) }
    ensures outside { IfErr result (λ f. f ≢ Memory → ArePartsFit (record { output = output.now; command = command.now; basis = basis; paths = paths.now }) → ⊥) }
{
    if paths.len() > u32::MAX as usize {
        return Err(EntryFault::OutsideLimits);
    }
    let mut bytes = Vec::new(alloc);
    push_path(&mut bytes, output)?;
    push_command(&mut bytes, command)?;
    bytes.extend_from_slice(&basis.to_be_bytes())?;
    bytes.extend_from_slice(&(paths.len() as u32).to_be_bytes())?;
    push_paths(&mut bytes, paths)?;
    Ok(bytes)
}

/// Returns the spelling of an entry.
#[tactic(auto, unfolding(crate::specs::Entries::spelling))]
pub(crate) fn spell(
    alloc: Global,
    output: &[u8],
    command: &[u8],
    basis: u64,
    paths: &[Items<u8>],
) -> Result<Vec<u8>, EntryFault>
    ensures spelled { IfOk result (λ bytes. bytes.items ≡ spelling (record { output = output.now; command = command.now; basis = basis; paths = paths.now })) }
    ensures within { OnOk result (HasSpelling (record { output = output.now; command = command.now; basis = basis; paths = paths.now })) }
    ensures outside { IfErr result (λ f. f ≢ Memory → HasSpelling (record { output = output.now; command = command.now; basis = basis; paths = paths.now }) → ⊥) }
{
    let body = spell_body(alloc, output, command, basis, paths)?;
    if body.len() > u32::MAX as usize {
        return Err(EntryFault::OutsideLimits);
    }
    let mut bytes = Vec::new(alloc);
    bytes.extend_from_slice(&(body.len() as u32).to_be_bytes())?;
    bytes.extend_from_slice(&body)?;
    Ok(bytes)
}

/// A write failed, or a write of some bytes took none of them.
#[derive(Clone, Copy, PartialEq, Eq)]
pub struct WriteFault {
    /// The number of bytes of the entry that were written. They are exactly the first ones of its spelling, and
    /// not all.
    pub written: u64,
}

/// Writes all of the bytes. If a write fails, the error holds how many bytes were written.
fn write_bytes<W: Sink>(bytes: &[u8], sink: &mut W) -> Result<(), WriteFault>
    ensures { AppendsSpelling result (W.failures sink.old, W.taken sink.old) (W.failures sink.new, W.taken sink.new) bytes.now }
{
    let mut written = 0usize;
    while written < bytes.len() {
        match sink.write(&bytes[written..]) {
            Ok(n) => written += n,
            Err(_) => {
                return Err(WriteFault {
                    written: written as u64,
                });
            }
        }
    }
    Ok(())
}

/// Writes an entry's spelling, with as many bytes at a time as the sink takes. Stops at the first failure.
pub fn append<W: Sink>(entry: &Entry, sink: &mut W) -> Result<(), WriteFault>
    ensures { AppendsSpelling result (W.failures sink.old, W.taken sink.old) (W.failures sink.new, W.taken sink.new) (spelling entry.now) }
{
    write_bytes(entry.spelling(), sink)
}
