//! The inputs of an edge, by what a scan has found of files.

ghost use Rattle.std.specs.Prelude.{◌≡◌, ◌∷◌, [], IfOk, map};
ghost use Rattle.std.specs.List.{list_any};
ghost use Rattle.plan_compile.specs.Rule.{some_changed};
ghost use Rattle.plan_reasons.specs.Facts.{named_input};
ghost use Rattle.plan_scan.specs.Scans.{found_of, given};
ghost use Rattle.plan_scan.specs.Steps.{input_stamp, is_missing, stamp_at};

use crate::found::Found;
use plan_graph::Graph;
use plan_reasons::NamedInput;
use plan_text::Items;
use std::alloc::{AllocError, Global};

/// Returns the stamp of a file, or 0 if there is no such number.
pub(crate) fn stamp_at(stamps: &[u64], file: u32) -> u64
    ensures { result ≡ stamp_at stamps.now file }
{
    match stamps.get(file as usize) {
        Some(stamp) => *stamp,
        None => 0,
    }
}

/// What was found of a number that no file has.
const NONE: Found = Found {
    stamp: 0,
    changed: false,
};

/// Returns what was found of a file.
pub(crate) fn found_at(found: &[Found], file: u32) -> Found
    ensures { result ≡ found_of found.now file }
{
    match found.get(file as usize) {
        Some(found) => *found,
        None => NONE,
    }
}

/// Checks whether a file is a source file that is missing.
fn is_missing<'a>(graph: &Graph<'a>, stamps: &[u64], file: u32) -> bool
    ensures { result ≡ is_missing graph.now stamps.now file }
{
    match graph.files.producer_at(file as usize) {
        Some(_) => false,
        None => stamp_at(stamps, file) == 0,
    }
}

/// Checks whether one of these files is a source file that is missing.
pub(crate) fn some_missing<'a>(graph: &Graph<'a>, stamps: &[u64], files: &[u32]) -> bool
    ensures { result ≡ list_any (is_missing graph.now stamps.now) files.now }
{
    for file in files {
        if is_missing(graph, stamps, *file) {
            return true;
        }
    }
    false
}

/// Returns an input for the reasons why an edge is out of date.
fn named_input<'a>(graph: &Graph<'a>, found: &[Found], file: u32) -> NamedInput
    ensures { result ≡ named_input (given graph.now found.now file) }
{
    match graph.files.producer_at(file as usize) {
        Some(_) => {
            let left = found_at(found, file);
            NamedInput::Made(left.stamp, left.changed)
        }
        None => NamedInput::SourceFile,
    }
}

/// Checks whether an input counts as changed.
pub(crate) fn is_changed<'a>(graph: &Graph<'a>, found: &[Found], file: u32) -> bool
    ensures { result ≡ some_changed (given graph.now found.now file ∷ []) }
{
    match graph.files.producer_at(file as usize) {
        Some(_) => found_at(found, file).changed,
        None => false,
    }
}

/// Returns inputs for the reasons why an edge is out of date.
pub(crate) fn named_inputs<'a>(
    alloc: Global,
    graph: &Graph<'a>,
    found: &[Found],
    files: &[u32],
) -> Result<Items<NamedInput>, AllocError>
    ensures { IfOk result (λ inputs. inputs ≡ map (λ f. named_input (given graph.now found.now f)) files.now) }
{
    let mut inputs = Vec::with_capacity(alloc, files.len())?;
    for file in files {
        inputs.push(named_input(graph, found, *file))?;
    }
    Ok(Items::new(inputs))
}

/// Returns the stamp of an input.
pub(crate) fn input_stamp<'a>(graph: &Graph<'a>, stamps: &[u64], found: &[Found], file: u32) -> u64
    ensures { result ≡ input_stamp graph.now stamps.now found.now file }
{
    match graph.files.producer_at(file as usize) {
        Some(_) => found_at(found, file).stamp,
        None => stamp_at(stamps, file),
    }
}

/// Returns the stamps of inputs.
pub(crate) fn input_stamps<'a>(
    alloc: Global,
    graph: &Graph<'a>,
    stamps: &[u64],
    found: &[Found],
    files: &[u32],
) -> Result<Items<u64>, AllocError>
    ensures { IfOk result (λ all. all ≡ map (input_stamp graph.now stamps.now found.now) files.now) }
{
    let mut all = Vec::with_capacity(alloc, files.len())?;
    for file in files {
        all.push(input_stamp(graph, stamps, found, *file))?;
    }
    Ok(Items::new(all))
}

/// Returns the stamps of files.
pub(crate) fn file_stamps(
    alloc: Global,
    stamps: &[u64],
    files: &[u32],
) -> Result<Items<u64>, AllocError>
    ensures { IfOk result (λ all. all ≡ map (stamp_at stamps.now) files.now) }
{
    let mut all = Vec::with_capacity(alloc, files.len())?;
    for file in files {
        all.push(stamp_at(stamps, *file))?;
    }
    Ok(Items::new(all))
}
