//! The files that `-t clean` removes.

ghost use Rattle.std.specs.Prelude.{◌≡◌, ◌++◌, IfOk, OnOk, Some, [], ◌∷◌, bytes_eq, filter, get_or, if◌then◌else◌, length, map, option_map, slice_get};
ghost use Rattle.std.specs.List.{list_any};
ghost use Rattle.plan_tools.specs.Cleaning as defined;
ghost use Rattle.plan_tools.specs.Commands.{text_or_none};
ghost use Rattle.plan_tools.specs.Listings.{path_at as path_of};

use crate::removable::RemovableFiles;
use crate::targets::path_at;
use plan_graph::Graph;
use plan_scope::{EdgeText, Manifest};
use plan_text::{Memory, RowList};
use std::alloc::Global;

/// Whether an edge has a command, and is no generator unless generators count; false if there is no such edge.
fn is_cleaned(manifest: &Manifest, edge: usize, generators: bool) -> bool
    ensures { result ≡ defined.holds_of (defined.is_cleaned generators) (slice_get manifest.now.edges edge) }
{
    if edge >= manifest.edges.len() {
        return false;
    }
    let edge = manifest.edges.edge(edge);
    !edge.is_phony() && (generators || !edge.is_generator())
}

/// Appends an edge if it is chosen.
fn add_if(chosen: bool, edge: usize, edges: &mut Vec<u32>) -> Result<(), Memory>
    ensures { OnOk result (edges.new.items ≡ edges.old.items ++ (if chosen then edge ∷ [] else [])) }
{
    if !chosen {
        return Ok(());
    }
    match u32::try_from(edge) {
        Ok(number) => edges.push(number)?,
        Err(_) => return Err(Memory),
    }
    Ok(())
}

/// Returns the edges that have a command, without generators unless these count, in the order of build lines.
fn command_edges(alloc: Global, manifest: &Manifest, generators: bool) -> Result<Vec<u32>, Memory>
    ensures { IfOk result (λ edges. edges.items ≡ defined.edges_with (defined.is_cleaned generators) manifest.now.edges) }
{
    let mut edges = Vec::new(alloc);
    for edge in 0..manifest.edges.len() {
        add_if(is_cleaned(manifest, edge, generators), edge, &mut edges)?;
    }
    Ok(edges)
}

/// Whether a text is among some.
fn is_among(names: &[&[u8]], text: &[u8]) -> bool
    ensures { result ≡ list_any (λ name. bytes_eq name text.now) (map (λ n. n.now) names.now) }
{
    for name in names {
        if *name == text {
            return true;
        }
    }
    false
}

/// Whether an edge has a command and one of these rules.
fn has_rule(manifest: &Manifest, rules: &RowList<u8>, names: &[&[u8]], edge: usize) -> bool
    ensures { result ≡ defined.has_rule rules.now (map (λ n. n.now) names.now) manifest.now.edges edge }
{
    is_cleaned(manifest, edge, true) && is_among(names, rules.row(edge))
}

/// Returns the edges that have a command and one of these rules, in the order of build lines.
fn edges_of_rules(
    alloc: Global,
    manifest: &Manifest,
    rules: &RowList<u8>,
    names: &[&[u8]],
) -> Result<Vec<u32>, Memory>
    ensures { IfOk result (λ edges. edges.items ≡ defined.edges_of_rules rules.now (map (λ n. n.now) names.now) manifest.now.edges) }
{
    let mut edges = Vec::new(alloc);
    for edge in 0..manifest.edges.len() {
        add_if(has_rule(manifest, rules, names, edge), edge, &mut edges)?;
    }
    Ok(edges)
}

/// Checks whether the path of a number counts. If there are no flags, all paths count.
fn is_counted(counted: Option<&[bool]>, number: u32) -> bool
    ensures { result ≡ defined.is_counted (option_map (λ c. c.now) counted.entry) number }
{
    match counted {
        None => true,
        Some(flags) => match flags.get(number as usize) {
            Some(flag) => *flag,
            None => false,
        },
    }
}

/// Appends a path if it counts.
fn add_output(
    graph: &Graph<'_>,
    counted: Option<&[bool]>,
    output: u32,
    files: &mut RowList<u8>,
) -> Result<(), Memory>
    ensures { OnOk result (files.new ≡ files.old ++ map (path_of graph.now) (filter (defined.is_counted (option_map (λ c. c.now) counted.entry)) (output ∷ []))) }
{
    if is_counted(counted, output) {
        files.push(path_at(graph, output))?;
    }
    Ok(())
}

/// Appends those outputs that count.
fn add_outputs(
    graph: &Graph<'_>,
    counted: Option<&[bool]>,
    outputs: &[u32],
    files: &mut RowList<u8>,
) -> Result<(), Memory>
    ensures { OnOk result (files.new ≡ files.old ++ map (path_of graph.now) (filter (defined.is_counted (option_map (λ c. c.now) counted.entry)) outputs.now)) }
{
    for output in outputs {
        add_output(graph, counted, *output, files)?;
    }
    Ok(())
}

/// Appends a path unless it is empty.
fn add_path(path: &[u8], files: &mut RowList<u8>) -> Result<(), Memory>
    ensures { OnOk result (files.new ≡ files.old ++ defined.unless_empty path.now) }
{
    match path {
        [] => {}
        [_, ..] => files.push(path)?,
    }
    Ok(())
}

/// Returns the depfile of an edge; none if there is no such edge.
fn depfile_at(manifest: &Manifest, edge: usize) -> Option<EdgeText<'_>>
    ensures { text_or_none result ≡ defined.depfile_of (slice_get manifest.now.edges edge) }
{
    if edge >= manifest.edges.len() {
        return None;
    }
    Some(manifest.edges.edge(edge).depfile())
}

/// Appends a text unless it is empty, or there is none.
fn add_text(
    alloc: Global,
    text: &Option<EdgeText<'_>>,
    files: &mut RowList<u8>,
) -> Result<(), Memory>
    ensures { OnOk result (files.new ≡ files.old ++ defined.unless_empty (text_or_none text.now)) }
{
    match text {
        Some(text) => {
            let joined = text.join(alloc)?;
            add_path(joined.as_slice(), files)
        }
        None => Ok(()),
    }
}

/// Appends the files of an edge.
fn add_files(
    alloc: Global,
    manifest: &Manifest,
    graph: &Graph<'_>,
    counted: Option<&[bool]>,
    edge: u32,
    files: &mut RowList<u8>,
) -> Result<(), Memory>
    ensures { OnOk result (files.new ≡ files.old ++ defined.files_of_edge manifest.now graph.now (option_map (λ c. c.now) counted.entry) edge) }
{
    add_outputs(graph, counted, graph.outputs.row(edge as usize), files)?;
    add_text(alloc, &depfile_at(manifest, edge as usize), files)
}

/// Returns the outputs of some edges, and their depfiles. If `counted` has flags, leaves out the outputs that don't
/// count.
fn files_of_edges(
    alloc: Global,
    manifest: &Manifest,
    graph: &Graph<'_>,
    counted: Option<&[bool]>,
    edges: &[u32],
) -> Result<RemovableFiles, Memory>
    ensures { IfOk result (λ files. files ≡ defined.files_of_edges manifest.now graph.now (option_map (λ c. c.now) counted.entry) edges.now) }
{
    let mut files = RowList::new(alloc);
    for edge in edges {
        add_files(alloc, manifest, graph, counted, *edge, &mut files)?;
    }
    Ok(RemovableFiles::of(files))
}

/// Returns the outputs and the depfiles of all edges that have a command, without generators unless these count, in the
/// order of build lines.
///
/// # Errors
/// If memory runs out.
pub fn files_of_commands(
    alloc: Global,
    manifest: &Manifest,
    graph: &Graph<'_>,
    generators: bool,
) -> Result<RemovableFiles, Memory>
    ensures { IfOk result (λ files. files ≡ defined.files_of_commands manifest.now graph.now generators) }
{
    let edges = command_edges(alloc, manifest, generators)?;
    files_of_edges(alloc, manifest, graph, None, &edges)
}

/// Returns the outputs and the depfiles of all edges that have a command and one of these rules, in the order of build
/// lines. `rules` has the rule of each edge.
///
/// # Errors
/// If memory runs out.
pub fn files_of_rules(
    alloc: Global,
    manifest: &Manifest,
    graph: &Graph<'_>,
    rules: &RowList<u8>,
    names: &[&[u8]],
) -> Result<RemovableFiles, Memory>
    ensures { IfOk result (λ files. files ≡ defined.files_of_rules manifest.now graph.now rules.now (map (λ n. n.now) names.now)) }
{
    let edges = edges_of_rules(alloc, manifest, rules, names)?;
    files_of_edges(alloc, manifest, graph, None, &edges)
}

/// Checks whether one of some outputs counts.
fn has_counted(counted: &[bool], outputs: &[u32]) -> bool
    ensures { result ≡ list_any (defined.is_counted (Some counted.now)) outputs.now }
{
    for output in outputs {
        if is_counted(Some(counted), *output) {
            return true;
        }
    }
    false
}

/// Checks whether an edge has a command, and an output that counts.
fn makes_counted(manifest: &Manifest, graph: &Graph<'_>, counted: &[bool], edge: usize) -> bool
    ensures { result ≡ defined.makes_counted manifest.now graph.now counted.now edge }
{
    is_cleaned(manifest, edge, true) && has_counted(counted, graph.outputs.row(edge))
}

/// Returns the edges that have a command and an output that counts, in the order of build lines.
fn edges_of_paths(
    alloc: Global,
    manifest: &Manifest,
    graph: &Graph<'_>,
    counted: &[bool],
) -> Result<Vec<u32>, Memory>
    ensures { IfOk result (λ edges. edges.items ≡ defined.edges_of_paths manifest.now graph.now counted.now) }
{
    let mut edges = Vec::new(alloc);
    for edge in 0..manifest.edges.len() {
        add_if(
            makes_counted(manifest, graph, counted, edge),
            edge,
            &mut edges,
        )?;
    }
    Ok(edges)
}

/// Returns the outputs that count of all edges that have a command, and the depfiles of edges that have such an output,
/// in the order of build lines. `counted` has a flag for each path of the graph.
///
/// # Errors
/// If memory runs out.
pub fn files_of_paths(
    alloc: Global,
    manifest: &Manifest,
    graph: &Graph<'_>,
    counted: &[bool],
) -> Result<RemovableFiles, Memory>
    ensures { IfOk result (λ files. files ≡ defined.files_of_paths manifest.now graph.now counted.now) }
{
    let edges = edges_of_paths(alloc, manifest, graph, counted)?;
    files_of_edges(alloc, manifest, graph, Some(counted), &edges)
}

/// Appends a path that no build line names.
fn add_dead(graph: &Graph<'_>, path: &[u8], dead: &mut RowList<u8>) -> Result<(), Memory>
    ensures { OnOk result (dead.new ≡ dead.old ++ defined.dead_outputs graph.now (path.now ∷ [])) }
{
    match graph.files.number(path) {
        Some(_) => {}
        None => dead.push(path)?,
    }
    Ok(())
}

/// Returns those of these paths that no build line names, neither as an output nor as an input.
///
/// # Errors
/// Memory runs out.
pub fn dead_outputs(
    alloc: Global,
    graph: &Graph<'_>,
    outputs: &RowList<u8>,
) -> Result<RemovableFiles, Memory>
    ensures { IfOk result (λ dead. dead ≡ defined.dead_outputs graph.now outputs.now) }
{
    let mut dead = RowList::new(alloc);
    for number in 0..outputs.len() {
        add_dead(graph, outputs.row(number), &mut dead)?;
    }
    Ok(RemovableFiles::of(dead))
}
