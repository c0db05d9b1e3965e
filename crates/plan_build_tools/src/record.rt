//! The tools that read or change the record of builds.

use crate::clean::{Manner, dead_files, remove_files};
use crate::fault::ToolFault;
use crate::loaded::load_manifest;
use crate::path_lists::{set_of, without};
use crate::tool::BuildFiles;
use plan_printing::file_fault;
use plan_text::RowList;
use plan_tools::RemovableFiles;
use plan_world::{OpenFault, ReadingMode, recompact, recorded_outputs, recorded_paths, restat};
use std::alloc::{AllocError, Global};

/// Returns the fault of a record that can't be used.
fn record_fault(alloc: Global, record: &str, fault: OpenFault) -> ToolFault {
    match fault {
        OpenFault::Memory => ToolFault::Memory,
        OpenFault::Device => ToolFault::Plan(file_fault(alloc, record.as_bytes())),
    }
}

/// Rewrites the record with only the last entry of each output, and returns the exit status.
///
/// # Errors
/// If the manifest is refused, the record can't be read or written, or memory runs out.
pub fn recompact_record(rt: &HostRuntime, files: BuildFiles<'_>) -> Result<u8, ToolFault> {
    drop(load_manifest(rt, files.manifest)?);
    match recompact(rt, files.record) {
        Ok(()) => Ok(0),
        Err(fault) => Err(record_fault(rt.alloc(), files.record, fault)),
    }
}

/// Records the current stamps of outputs as the bases of their entries, for all outputs if none is named. Returns the
/// exit status.
///
/// # Errors
/// If the record can't be read or written, or memory runs out.
pub fn restat_record(rt: &HostRuntime, record: &str, outputs: &[&[u8]]) -> Result<u8, ToolFault> {
    match restat(rt, record, outputs) {
        Ok(()) => Ok(0),
        Err(fault) => Err(record_fault(rt.alloc(), record, fault)),
    }
}

/// Returns the outputs that the record has entries of.
fn outputs_recorded(
    rt: &HostRuntime,
    record: &str,
    mode: ReadingMode,
) -> Result<RowList<u8>, ToolFault> {
    match recorded_outputs(rt, record, mode) {
        Ok(outputs) => Ok(outputs),
        Err(fault) => Err(record_fault(rt.alloc(), record, fault)),
    }
}

/// Returns the outputs that aren't dead. The dead ones are in the order of the outputs.
fn living_outputs(
    alloc: Global,
    outputs: &RowList<u8>,
    dead: &RowList<u8>,
) -> Result<RowList<u8>, AllocError> {
    let mut living = RowList::new(alloc);
    let mut met = 0usize;
    for number in 0..outputs.len() {
        let output = outputs.row(number);
        if met < dead.len() && dead.row(met) == output {
            met += 1;
        } else {
            living.push(output)?;
        }
    }
    Ok(living)
}

/// Returns those dead outputs that no living output was made from, as far as its entry says: a header that was
/// generated once may be a source file now.
fn unused(
    rt: &HostRuntime,
    record: &str,
    mode: ReadingMode,
    outputs: &RowList<u8>,
    dead: &RemovableFiles,
) -> Result<RemovableFiles, ToolFault> {
    let alloc = rt.alloc();
    let living = living_outputs(alloc, outputs, dead.paths())?;
    let wanted = set_of(alloc, dead.paths())?;
    match recorded_paths(rt, record, mode, &living, &wanted) {
        Ok(used) => without(alloc, dead, &used),
        Err(fault) => Err(record_fault(alloc, record, fault)),
    }
}

/// Returns the outputs in the record that no build line names anymore, and that no other output was made from.
fn dead_in_record(
    rt: &HostRuntime,
    files: &BuildFiles<'_>,
    mode: ReadingMode,
) -> Result<RemovableFiles, ToolFault> {
    let outputs = outputs_recorded(rt, files.record, mode)?;
    let dead = dead_files(rt, files.manifest, &outputs)?;
    unused(rt, files.record, mode, &outputs, &dead)
}

/// Returns how the record is read: a dry run doesn't wait for a build.
fn mode_of(manner: Manner) -> ReadingMode {
    if manner.is_dry {
        ReadingMode::AsIs
    } else {
        ReadingMode::Waiting
    }
}

/// Removes the outputs in the record that no build line names anymore, and returns the exit status. What the last
/// command of another edge read stays.
///
/// # Errors
/// If the manifest is refused, the record can't be read, memory runs out, or standard output can't be written.
pub fn clean_recorded<E: Print>(
    rt: &HostRuntime,
    errors: &E,
    files: BuildFiles<'_>,
    manner: Manner,
) -> Result<u8, ToolFault> {
    let dead = dead_in_record(rt, &files, mode_of(manner))?;
    remove_files(rt, errors, manner, dead)
}
