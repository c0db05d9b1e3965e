//! The tools that print parts of a manifest.

use crate::fault::{ToolFault, fault_of};
use crate::loaded::{Loaded, load_manifest};
use crate::paths::{makers_of, paths_named};
use crate::tool::Tool;
use crate::words::Request;
use plan_graph::Graph;
use plan_options::{Integer, integer_in};
use plan_printing::{Buffer, Standard};
use plan_text::Sink;
use plan_tools::{
    build_order, chosen_edges, closest, default_paths, root_paths, write_all_targets,
    write_build_commands, write_compilation_database, write_rule_targets, write_sources,
    write_target_tree,
};
use std::alloc::Global;
use std::env;
use std::rt::{Clock, Env, Files};

/// The size of the output buffer in bytes.
const OUTPUT_BUFFER: usize = 65_536;

/// Returns the paths that words name, or the default targets if there are no words.
fn wanted_paths(
    alloc: Global,
    loaded: &Loaded,
    graph: &Graph<'_>,
    words: &[&[u8]],
) -> Result<Vec<u32>, ToolFault> {
    if !words.is_empty() {
        return paths_named(alloc, graph, words);
    }
    let paths = default_paths(alloc, &loaded.manifest, graph)?;
    if paths.is_empty() && graph.outputs.len() > 0 {
        return Err(fault_of(alloc, &[b"could not determine root nodes of build graph"]));
    }
    Ok(paths)
}

/// Writes the commands that targets need, in build order. With `-s`, writes only the commands that make the targets.
fn write_commands<W: Sink>(
    alloc: Global,
    loaded: &Loaded,
    graph: &Graph<'_>,
    request: &Request<'_>,
    out: &mut W,
) -> Result<(), ToolFault> {
    let paths = wanted_paths(alloc, loaded, graph, &request.names)?;
    let makers = makers_of(alloc, graph, &paths)?;
    let edges = if request.has(b's') {
        makers
    } else {
        build_order(alloc, graph, &makers)?
    };
    write_build_commands(&loaded.manifest, &edges, out)?;
    Ok(())
}

/// Writes a compilation database of the commands of these rules, or of all commands if no rule is named.
fn write_database<R: Env + AllocGlobal, W: Sink>(
    rt: &R,
    loaded: &Loaded,
    graph: &Graph<'_>,
    request: &Request<'_>,
    out: &mut W,
) -> Result<(), ToolFault> {
    let alloc = rt.alloc();
    let Ok(folder) = env::current_dir(rt) else {
        return Err(fault_of(alloc, &[b"cannot determine working directory"]));
    };
    let edges = chosen_edges(alloc, graph, &loaded.rules, &request.names)?;
    let folder = folder.as_str().as_bytes();
    write_compilation_database(folder, &loaded.manifest, graph, &edges, out)?;
    Ok(())
}

/// Parses a depth. Returns 0, which is no limit, if the word isn't a number or is below 0.
fn depth_in(word: &[u8]) -> u32 {
    match integer_in(word, u32::MAX) {
        Some(Integer::AtLeastZero(depth)) => depth,
        _ => 0,
    }
}

/// Writes the trees of the targets that no edge uses, with `depth` levels. Depth 0 is no limit.
fn write_tree<W: Sink>(
    alloc: Global,
    loaded: &Loaded,
    graph: &Graph<'_>,
    depth: u32,
    out: &mut W,
) -> Result<(), ToolFault> {
    let roots = root_paths(alloc, graph)?;
    if roots.is_empty() && graph.outputs.len() > 0 {
        return Err(fault_of(alloc, &[b"could not determine root nodes of build graph"]));
    }
    write_target_tree(alloc, graph, &loaded.rules, &roots, depth, out)?;
    Ok(())
}

/// The number of modes of `targets`.
const MODES: usize = 3;

/// Returns the name of a mode of `targets`.
fn mode_name(number: usize) -> &'static [u8] {
    match number {
        0 => b"rule",
        1 => b"depth",
        _ => b"all",
    }
}

/// Returns the mode that is closest to a word. Empty if no mode is close.
fn near_mode(alloc: Global, word: &[u8]) -> &'static [u8] {
    let mut names: [&[u8]; MODES] = [b""; MODES];
    for at in 0..MODES {
        names[at] = mode_name(at);
    }
    match closest(alloc, &names, word) {
        Ok(Some(near)) => near,
        _ => b"",
    }
}

/// Returns the fault of a word that isn't a mode of `targets`. It suggests the mode `near` unless that is empty.
fn mode_fault<'a>(alloc: Global, word: &'a [u8], near: &'a [u8]) -> ToolFault {
    if near.is_empty() {
        return fault_of(alloc, &[b"unknown target tool mode '", &*word, b"'"]);
    }
    fault_of(
        alloc,
        &[
            b"unknown target tool mode '",
            &*word,
            b"', did you mean '",
            &*near,
            b"'?",
        ],
    )
}

/// Returns the fault of a word that isn't a mode of `targets`, with the closest mode as a suggestion.
fn unknown_mode(alloc: Global, word: &[u8]) -> ToolFault {
    mode_fault(alloc, word, near_mode(alloc, word))
}

/// Writes the targets that the words of a request select.
fn write_targets<W: Sink>(
    alloc: Global,
    loaded: &Loaded,
    graph: &Graph<'_>,
    request: &Request<'_>,
    out: &mut W,
) -> Result<(), ToolFault> {
    match request.names.as_slice() {
        [] => return write_tree(alloc, loaded, graph, 1, out),
        [b"all", ..] => write_all_targets(graph, &loaded.rules, out)?,
        [b"rule"] | [b"rule", b"", ..] => write_sources(graph, out)?,
        [b"rule", rule, ..] => write_rule_targets(alloc, graph, &loaded.rules, rule, out)?,
        [b"depth"] => return write_tree(alloc, loaded, graph, 1, out),
        [b"depth", depth, ..] => {
            return write_tree(alloc, loaded, graph, depth_in(depth), out);
        }
        [mode, ..] => return Err(unknown_mode(alloc, mode)),
    }
    Ok(())
}

/// Writes the listing of a tool.
fn write_listing<R: Env + AllocGlobal, W: Sink>(
    rt: &R,
    loaded: &Loaded,
    request: &Request<'_>,
    out: &mut W,
) -> Result<(), ToolFault> {
    let alloc = rt.alloc();
    let graph = loaded.graph(alloc)?;
    match request.tool {
        Tool::Commands => write_commands(alloc, loaded, &graph, request, out),
        Tool::CompilationDatabase => write_database(rt, loaded, &graph, request, out),
        _ => write_targets(alloc, loaded, &graph, request, out),
    }
}

/// Prints the listing of a tool to standard output. Returns the exit status.
fn print_listing<R: Files + Env + Print + Clock + AllocGlobal>(
    rt: &R,
    loaded: &Loaded,
    request: &Request<'_>,
) -> Result<u8, ToolFault> {
    let room = Vec::with_capacity(rt.alloc(), OUTPUT_BUFFER)?;
    let mut out = Buffer::new(Standard::new(rt), room);
    write_listing(rt, loaded, request, &mut out)?;
    let (written, _out) = out.finish();
    written?;
    Ok(0)
}

/// Prints the listing of a tool for the manifest at a path, and returns the exit status.
///
/// # Errors
/// If the manifest or a word is refused, memory runs out, or standard output can't be written.
pub fn list<R: Files + Env + Print + Eprint + Clock + AllocGlobal>(
    rt: &R,
    manifest: &[u8],
    request: &Request<'_>,
) -> Result<u8, ToolFault> {
    let loaded = load_manifest(rt, manifest)?;
    print_listing(rt, &loaded, request)
}
