//! Finds the source of the stamp of each of an edge's inputs.

ghost use Rattle.std.specs.Prelude.{◌≡◌, ◌++◌, [], IfOk, IsTrue, List, OnOk, slice_get, ℕ};
ghost use Rattle.plan_image.specs.Spelling.{AscendsFrom};
ghost use Rattle.plan_verify.specs.Members.{is_member};
ghost use Rattle.plan_compile.specs.Means.{flags_of};
ghost use Rattle.plan_compile.specs.OutputTable.{found, inputs_in, outputs_in, sources_in};
ghost use Rattle.plan_compile.specs.Slots.{flags_once, input_by, members_from};

use crate::layout::{Input, Output};
use plan_text::Items;
use std::alloc::{AllocError, Global};

/// Returns the source of the stamp of a file: the slots of an output, or the file itself.
fn input(file: u32, output: Option<Output>) -> Input
    ensures { result ≡ input_by file output }
{
    match output {
        Some(output) => Input::Made(output.stamp, output.changed),
        None => Input::File(file),
    }
}

/// Returns the output that is this file. Returns None if it is a source file.
fn look(table: &[Option<Output>], file: u32) -> Option<Output>
    ensures { result ≡ found (slice_get table.now file) }
{
    match table.get(file as usize) {
        Some(output) => *output,
        None => None,
    }
}

/// Returns the sources of the stamps of inputs. The given list is overwritten.
pub(crate) fn inputs(
    mut inputs: Vec<Input>,
    table: &[Option<Output>],
    files: &[u32],
) -> Result<Items<Input>, AllocError>
    ensures { IfOk result (λ inputs. inputs ≡ inputs_in table.now files.now) }
{
    inputs.clear();
    inputs.reserve(files.len())?;
    for file in files {
        inputs.push(input(*file, look(table, *file)))?;
    }
    Ok(Items::new(inputs))
}

/// Sorts numbers in ascending order, and removes repetitions.
fn ascending(mut numbers: Vec<u32>) -> Vec<u32>
    ensures { result.items ≡ members_from [] numbers.items }
{
    numbers.sort_unstable();
    numbers.dedup();
    numbers
}

/// Returns whether a number is among ascending numbers.
fn has_number(numbers: &[u32], number: u32) -> bool
    requires { AscendsFrom 0 numbers.now }
    ensures { result ≡ is_member number numbers.now }
{
    match numbers.binary_search(&number) {
        Ok(_) => true,
        Err(_) => false,
    }
}

/// Returns the flag slots of inputs. The given list is overwritten.
fn all_flags(mut flags: Vec<u32>, inputs: &[Input]) -> Result<Vec<u32>, AllocError>
    ensures { IfOk result (λ flags. flags.items ≡ flags_of inputs.now) }
{
    flags.clear();
    for input in inputs {
        match *input {
            Input::Made(_stamp, changed) => flags.push(changed)?,
            Input::File(_file) => {}
        }
    }
    Ok(flags)
}

/// Returns the flag slots of inputs in ascending order, without repetitions. The given list is overwritten.
pub(crate) fn flags(flags: Vec<u32>, inputs: &[Input]) -> Result<Items<u32>, AllocError>
    ensures { IfOk result (λ flags. flags ≡ flags_once inputs.now) }
{
    let flags = all_flags(flags, inputs)?;
    Ok(Items::new(ascending(flags)))
}

/// Returns whether a file is a source file that isn't among ascending numbers.
fn is_other_source(table: &[Option<Output>], named: &[u32], file: u32) -> bool
    requires { AscendsFrom 0 named.now }
    ensures { result ≡ Rattle.plan_compile.specs.OutputTable.is_other_source table.now named.now file }
{
    match look(table, file) {
        Some(_output) => false,
        None => !has_number(named, file),
    }
}

/// Returns the order-only source files that aren't also named inputs. The named inputs must ascend. The given
/// list is overwritten.
fn other_sources(
    mut files: Vec<u32>,
    table: &[Option<Output>],
    named: &[u32],
    order_only: &[u32],
) -> Result<Items<u32>, AllocError>
    requires { AscendsFrom 0 named.now }
    ensures { IfOk result (λ files. files ≡ sources_in table.now named.now order_only.now) }
{
    files.clear();
    for file in order_only {
        if is_other_source(table, named, *file) {
            files.push(*file)?;
        }
    }
    Ok(Items::new(files))
}

/// Returns whether all of these files are outputs of edges.
fn are_made(table: &[Option<Output>], files: &[u32]) -> bool
    ensures { (named : List ℕ) → IsTrue result → sources_in table.now named files.now ≡ [] }
{
    for file in files {
        match look(table, *file) {
            Some(_output) => {}
            None => return false,
        }
    }
    true
}

/// Returns the order-only source files that aren't also named inputs. The given list is overwritten.
pub(crate) fn sources(
    alloc: Global,
    mut files: Vec<u32>,
    table: &[Option<Output>],
    named: &[u32],
    order_only: &[u32],
) -> Result<Items<u32>, AllocError>
    ensures { IfOk result (λ files. files ≡ sources_in table.now named.now order_only.now) }
{
    if are_made(table, order_only) {
        files.clear();
        return Ok(Items::new(files));
    }
    let named = ascending(Vec::from_slice(alloc, named)?);
    other_sources(files, table, &named, order_only)
}

/// Returns the outputs that are these files. The given list is overwritten.
pub(crate) fn outputs(
    mut outputs: Vec<Output>,
    table: &[Option<Output>],
    files: &[u32],
) -> Result<Items<Output>, AllocError>
    ensures { IfOk result (λ outputs. outputs ≡ outputs_in table.now files.now) }
{
    outputs.clear();
    outputs.reserve(files.len())?;
    for file in files {
        match look(table, *file) {
            Some(output) => outputs.push(output)?,
            None => {}
        }
    }
    Ok(Items::new(outputs))
}
