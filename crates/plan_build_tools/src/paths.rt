//! The paths that words name.

ghost use Rattle.std.specs.Prelude.{◌≡◌, ◌++◌, ◌∷◌, [], Ok, Some, IfOk, OnOk, map, option_map};
ghost use Rattle.std.specs.Option.{option_and_then};
ghost use Rattle.plan_text.specs.Path.{canonical_of};
ghost use Rattle.plan_scope.specs.Sources.{SameFiles};
ghost use Rattle.plan_graph.specs.Graph.{IsGraph};
ghost use Rattle.plan_graph.specs.declared.graph_data.Graph.{Graph};
ghost use Rattle.plan_build_tools.specs.Naming as defined;
ghost use Rattle.plan_build_tools.specs.Naming.{AreNamed, NamesTargets, number_in, named};

use crate::fault::{ToolFault, fault_of};
use crate::loaded::{Loaded, load_from};
use plan_graph::Graph;
use plan_scope::Source;
use plan_text::{RowList, TextFault, canonical};
use plan_tools::closest_path;
use std::alloc::{AllocError, Global};
use std::rt::Files;
use std::{fs, str};

/// Returns the canonical form of a path.
fn canonical_path(alloc: Global, word: &[u8]) -> Result<Vec<u8>, ToolFault>
    ensures { IfOk result (λ path. canonical_of word.now ≡ Ok path.items) }
{
    match canonical(alloc, word) {
        Ok(path) => Ok(path),
        Err(TextFault::Memory) => Err(ToolFault::Memory),
        Err(_) if word.is_empty() => Err(fault_of(alloc, &[b"empty path"])),
        Err(_) => Err(unknown_target(alloc, word, b"")),
    }
}

/// Returns the fault of a word that names no path, followed by a hint.
fn unknown_target(alloc: Global, word: &[u8], hint: &[u8]) -> ToolFault {
    fault_of(alloc, &[b"unknown target '", word, b"'", hint])
}

/// Returns the fault of a path that the graph lacks, with a suggestion if there is one.
fn unknown_path(alloc: Global, graph: &Graph<'_>, path: &[u8]) -> ToolFault {
    if path == b"clean".as_slice() {
        return unknown_target(alloc, path, b", did you mean 'ninja -t clean'?");
    }
    if path == b"help".as_slice() {
        return unknown_target(alloc, path, b", did you mean 'ninja -h'?");
    }
    match closest_path(alloc, graph, path) {
        Ok(Some(near)) => fault_of(
            alloc,
            &[b"unknown target '", path, b"', did you mean '", near, b"'?"],
        ),
        Ok(None) => unknown_target(alloc, path, b""),
        Err(_) => ToolFault::Memory,
    }
}

/// Returns the number of a path in the graph.
fn number_of(alloc: Global, graph: &Graph<'_>, path: &[u8]) -> Result<u32, ToolFault>
    ensures { IfOk result (λ number. number_in graph.now path.now ≡ Some number) }
{
    match graph.files.number(path) {
        Some(number) => match u32::try_from(number) {
            Ok(number) => Ok(number),
            Err(_) => Err(ToolFault::Memory),
        },
        None => Err(unknown_path(alloc, graph, path)),
    }
}

/// Returns the first output of an edge, if the edge takes a path as an input.
fn made_of(graph: &Graph<'_>, path: u32, edge: usize) -> Option<u32>
    ensures { result ≡ defined.made_of graph.now path edge }
{
    if graph.inputs.row(edge).contains(&path) {
        graph.outputs.row(edge).first().copied()
    } else {
        None
    }
}

/// Returns the first output of the first edge that takes a path as an input. None if no edge does.
#[tactic(auto, using(crate::proofs::NamingLemmas::first_found, crate::proofs::NamingLemmas::none_more))]
fn first_made(graph: &Graph<'_>, path: u32) -> Option<u32>
    ensures { result ≡ defined.first_made graph.now path }
{
    for edge in 0..graph.inputs.len() {
        if let Some(output) = made_of(graph, path, edge) {
            return Some(output);
        }
    }
    None
}

/// Returns the first output of the first edge that takes a path as an input.
///
/// # Errors
/// If the graph lacks the path or no edge takes it, or memory runs out.
fn first_made_of(alloc: Global, graph: &Graph<'_>, path: &[u8]) -> Result<u32, ToolFault>
    ensures { IfOk result (λ number. option_and_then (defined.first_made graph.now) (number_in graph.now path.now) ≡ Some number) }
{
    let number = number_of(alloc, graph, path)?;
    match first_made(graph, number) {
        Some(output) => Ok(output),
        None => Err(fault_of(alloc, &[b"'", path, b"' has no out edge"])),
    }
}

/// Returns the text before a `^` at the end of a path. None if the path ends otherwise.
#[tactic(auto, using(crate::proofs::NamingLemmas::caret_found, crate::proofs::NamingLemmas::caret_missed, crate::proofs::NamingLemmas::caret_of_none))]
fn before_caret(path: &[u8]) -> Option<&[u8]>
    ensures { option_map (λ front. front.now) result ≡ defined.before_caret path.now }
{
    match path.split_last() {
        Some((byte, front)) => { if *byte == b'^' { Some(front) } else { None } }
        None => None,
    }
}

/// Returns the number of the path that a word names, which needn't be in canonical form. `PATH^` names the first output
/// of the first edge that takes PATH as an input.
fn path_named(alloc: Global, graph: &Graph<'_>, word: &[u8]) -> Result<u32, ToolFault>
    ensures { IfOk result (λ number. named graph.now word.now ≡ Some number) }
{
    let path = canonical_path(alloc, word)?;
    match before_caret(&path) {
        Some(front) => first_made_of(alloc, graph, front),
        None => number_of(alloc, graph, &path),
    }
}

/// Returns the numbers of the paths that words name.
///
/// # Errors
/// If one of them names no path of the graph, or memory runs out.
pub fn paths_named(alloc: Global, graph: &Graph<'_>, words: &[&[u8]]) -> Result<Vec<u32>, ToolFault>
    ensures { IfOk result (λ numbers. map Some numbers.items ≡ map (named graph.now) (map (λ w. w.now) words.now)) }
{
    let mut paths = Vec::new(alloc);
    for word in words {
        paths.push(path_named(alloc, graph, word)?)?;
    }
    Ok(paths)
}

/// Returns the edges that make these paths, each once.
///
/// # Errors
/// If memory runs out.
pub fn makers_of(alloc: Global, graph: &Graph<'_>, paths: &[u32]) -> Result<Vec<u32>, ToolFault> {
    let mut makers = Vec::new(alloc);
    let mut is_there = vec![in alloc; false; graph.outputs.len()]?;
    for path in paths {
        if let Some(maker) = graph.files.producer_at(*path as usize) {
            if let Some(seen) = is_there.get_mut(maker as usize) {
                if !*seen {
                    makers.push(maker)?;
                }
                *seen = true;
            }
        }
    }
    Ok(makers)
}

/// Checks that the file of a path that no edge makes exists.
fn check_source<R: Files + AllocGlobal>(rt: &R, path: &[u8]) -> Result<(), ToolFault> {
    if fs::exists(rt, str::from_utf8(path).unwrap_or("")).unwrap_or(false) {
        return Ok(());
    }
    Err(fault_of(
        rt.alloc(),
        &[b"'", path, b"' missing and no known rule to make it"],
    ))
}

/// Returns the path with a number. Empty if there is none.
fn path_at<'a>(graph: &Graph<'a>, number: u32) -> &'a [u8]
    ensures { result.now ≡ defined.path_at graph.now number }
{
    match graph.files.path(number as usize) {
        Some(path) => path,
        None => b"",
    }
}

/// Appends a path to those that edges make, if an edge makes it. Otherwise checks that its file exists.
fn add_named<R: Files + AllocGlobal>(
    rt: &R,
    graph: &Graph<'_>,
    number: u32,
    targets: &mut RowList<u8>,
) -> Result<(), ToolFault>
    ensures { OnOk result (targets.new ≡ targets.old ++ defined.made_paths graph.now (number ∷ [])) }
{
    let path = path_at(graph, number);
    match graph.files.producer_at(number as usize) {
        Some(_) => Ok(targets.push(path)?),
        None => check_source(rt, path),
    }
}

/// Returns those of some paths that edges make. The files of the others exist.
fn targets_among<R: Files + AllocGlobal>(
    rt: &R,
    graph: &Graph<'_>,
    numbers: &[u32],
) -> Result<RowList<u8>, ToolFault>
    ensures { IfOk result (λ targets. targets ≡ defined.made_paths graph.now numbers.now) }
{
    let mut targets = RowList::new(rt.alloc());
    for number in numbers {
        add_named(rt, graph, *number, &mut targets)?;
    }
    Ok(targets)
}

/// Returns the targets that words name in a graph.
fn named_in_graph<R: Files + AllocGlobal>(
    rt: &R,
    graph: &Graph<'_>,
    words: &[&[u8]],
) -> Result<RowList<u8>, ToolFault>
    ensures { IfOk result (λ targets. AreNamed graph.now (map (λ w. w.now) words.now) targets) }
{
    let numbers = paths_named(rt.alloc(), graph, words)?;
    targets_among(rt, graph, &numbers)
}

/// Returns the targets that words name in the graph of a manifest.
fn named_in_manifest<R: Files + AllocGlobal>(
    rt: &R,
    loaded: &Loaded,
    words: &[&[u8]],
) -> Result<RowList<u8>, ToolFault>
    ensures { IfOk result (λ targets. (graph : Graph) × IsGraph loaded.now.manifest graph × AreNamed graph (map (λ w. w.now) words.now) targets) }
{
    let graph = loaded.graph(rt.alloc())?;
    named_in_graph(rt, &graph, words)
}

/// Returns the targets that words name in the manifest at a path of a source. The words that name no target name files
/// that no edge makes, and these exist.
///
/// # Errors
/// If the manifest is refused, a word names no path of its graph, the file of a source is missing, or memory runs out.
pub fn named_in<R: Files + AllocGlobal, S: Source>(
    rt: &R,
    source: &mut S,
    manifest: &[u8],
    words: &[&[u8]],
) -> Result<RowList<u8>, ToolFault>
    ensures named { IfOk result (λ targets. NamesTargets (S.gives source.old) (S.fails source.old) manifest.now (map (λ w. w.now) words.now) targets) }
    ensures same { SameFiles (S.gives source.new) (S.fails source.new) (S.gives source.old) (S.fails source.old) }
{
    let loaded = load_from(rt.alloc(), source, manifest)?;
    named_in_manifest(rt, &loaded, words)
}

/// Returns the rows of a list as slices.
///
/// # Errors
/// If memory runs out.
pub fn slices_of(alloc: Global, rows: &RowList<u8>) -> Result<Vec<&[u8]>, AllocError>
    ensures { IfOk result (λ slices. map (λ s. s.now) slices.items ≡ rows.now) }
{
    let mut slices = Vec::new(alloc);
    for number in 0..rows.len() {
        slices.push(rows.row(number))?;
    }
    Ok(slices)
}
