//! The tools that remove files.

ghost use Rattle.std.specs.Prelude.{◌≡◌, ◌∷◌, [], IfOk, map};
ghost use Rattle.plan_graph.specs.Graph.{IsGraph};
ghost use Rattle.plan_graph.specs.declared.graph_data.Graph.{Graph};
ghost use Rattle.plan_tools.specs.Cleaning as chosen;
ghost use Rattle.plan_build_tools.specs.Cleaning.{AreOfTargets, Cleans, CleansIn, has};

use crate::fault::{ToolFault, fault_of};
use crate::loaded::{Loaded, load_from, load_manifest};
use crate::path_lists::{set_of, without};
use crate::paths::paths_named;
use crate::words::Request;
use indexmap::IndexMap;
use plan_graph::Graph;
use plan_printing::{
    Buffer, FileSource, MANIFEST_BYTES, REFUSED, Standard, complain_of, concatenate,
    reason_of_error,
};
use plan_scope::{Manifest, Source};
use plan_text::{PathFilter, RowList, Sink, write_all};
use plan_tools::{
    Removable, RemovableFiles, dead_outputs, files_of_commands, files_of_paths, files_of_rules,
    needed_paths,
};
use std::alloc::{AllocError, Global};
use std::io::{self, ErrorKind};
use std::rt::{Clock, Files};
use std::{fs, str};

/// The size of the output buffer in bytes.
const OUTPUT_BUFFER: usize = 4096;

/// Files that are removed together.
#[derive(Drop)]
struct Batch {
    /// The lines that are printed before the files if the tool is verbose.
    heading: Vec<u8>,
    files: RemovableFiles,
}

/// Returns the files of all commands. Files of generators are included if `generators` is set.
fn all_files(
    alloc: Global,
    loaded: &Loaded,
    graph: &Graph<'_>,
    generators: bool,
) -> Result<Batch, ToolFault>
    ensures { IfOk result (λ batch. batch.files ≡ chosen.files_of_commands loaded.now.manifest graph.now generators) }
{
    Ok(Batch {
        heading: Vec::new(alloc),
        files: files_of_commands(alloc, &loaded.manifest, graph, generators)?,
    })
}

/// Returns the lines that name targets.
fn heading_of_targets(alloc: Global, names: &[&[u8]]) -> Result<Vec<u8>, ToolFault> {
    let mut heading = Vec::new(alloc);
    for name in names {
        heading.extend_from_slice(b"Target ")?;
        heading.extend_from_slice(*name)?;
        heading.push(b'\n')?;
    }
    Ok(heading)
}

/// Returns the outputs that targets need, and the depfiles of their commands.
fn files_of_targets(
    alloc: Global,
    loaded: &Loaded,
    graph: &Graph<'_>,
    names: &[&[u8]],
) -> Result<Batch, ToolFault>
    ensures { IfOk result (λ batch. AreOfTargets loaded.now.manifest graph.now (map (λ n. n.now) names.now) batch.files) }
{
    let targets = paths_named(alloc, graph, names)?;
    let needed = needed_paths(alloc, graph, &targets)?;
    Ok(Batch {
        heading: heading_of_targets(alloc, names)?,
        files: files_of_paths(alloc, &loaded.manifest, graph, &needed)?,
    })
}

/// Returns the files of the commands of a rule.
fn files_of_rule(
    alloc: Global,
    loaded: &Loaded,
    graph: &Graph<'_>,
    name: &[u8],
) -> Result<Batch, ToolFault>
    ensures { IfOk result (λ batch. batch.files ≡ chosen.files_of_rules loaded.now.manifest graph.now loaded.now.rules (name.now ∷ [])) }
{
    Ok(Batch {
        heading: concatenate(alloc, &[b"Rule ", name, b"\n"])?,
        files: files_of_rules(alloc, &loaded.manifest, graph, &loaded.rules, &[name])?,
    })
}

/// Returns the files of the commands of rules, rule by rule.
fn files_of_each_rule(
    alloc: Global,
    loaded: &Loaded,
    graph: &Graph<'_>,
    names: &[&[u8]],
) -> Result<Vec<Batch>, ToolFault>
    ensures { IfOk result (λ batches. map (λ b. b.files) batches.items ≡ map (λ name. chosen.files_of_rules loaded.now.manifest graph.now loaded.now.rules (name ∷ [])) (map (λ n. n.now) names.now)) }
{
    let mut batches = Vec::new(alloc);
    for name in names {
        batches.push(files_of_rule(alloc, loaded, graph, name)?)?;
    }
    Ok(batches)
}

/// Returns a list of one batch.
fn only(alloc: Global, batch: Batch) -> Result<Vec<Batch>, ToolFault>
    ensures { IfOk result (λ batches. batches.items ≡ batch ∷ []) }
{
    let mut batches = Vec::new(alloc);
    batches.push(batch)?;
    Ok(batches)
}

/// Checks that each name is the name of a rule.
fn check_rules(alloc: Global, loaded: &Loaded, names: &[&[u8]]) -> Result<(), ToolFault> {
    for name in names {
        if !loaded.has_rule(name) {
            return Err(fault_of(alloc, &[b"unknown rule '", *name, b"'"]));
        }
    }
    Ok(())
}

/// Returns the files in a graph that a request asks to remove.
fn batches_in_graph(
    alloc: Global,
    loaded: &Loaded,
    graph: &Graph<'_>,
    request: &Request<'_>,
) -> Result<Vec<Batch>, ToolFault>
    ensures { IfOk result (λ batches. Cleans loaded.now.manifest graph.now loaded.now.rules (has request.now.letters.items 114) (has request.now.letters.items 103) (map (λ n. n.now) request.now.names.items) (map (λ b. b.files) batches.items)) }
{
    let names = request.names.as_slice();
    if request.has(b'r') {
        check_rules(alloc, loaded, names)?;
        return files_of_each_rule(alloc, loaded, graph, names);
    }
    match names {
        [] => only(alloc, all_files(alloc, loaded, graph, request.has(b'g'))?),
        [_, ..] => only(alloc, files_of_targets(alloc, loaded, graph, names)?),
    }
}

/// Returns the files in the graph of a manifest that a request asks to remove.
fn batches_in_manifest(
    alloc: Global,
    loaded: &Loaded,
    request: &Request<'_>,
) -> Result<Vec<Batch>, ToolFault>
    ensures { IfOk result (λ batches. (g : Graph) × IsGraph loaded.now.manifest g × Cleans loaded.now.manifest g loaded.now.rules (has request.now.letters.items 114) (has request.now.letters.items 103) (map (λ n. n.now) request.now.names.items) (map (λ b. b.files) batches.items)) }
{
    let graph = loaded.graph(alloc)?;
    batches_in_graph(alloc, loaded, &graph, request)
}

/// Returns the files in the manifest at a path of a source that a request asks to remove.
fn batches_in<S: Source>(
    alloc: Global,
    source: &mut S,
    manifest: &[u8],
    request: &Request<'_>,
) -> Result<Vec<Batch>, ToolFault>
    ensures { IfOk result (λ batches. CleansIn (S.gives source.old) (S.fails source.old) manifest.now request.now.letters.items (map (λ n. n.now) request.now.names.items) (map (λ b. b.files) batches.items)) }
{
    let loaded = load_from(alloc, source, manifest)?;
    batches_in_manifest(alloc, &loaded, request)
}

/// Returns the depfiles of edges that may be in a set.
fn depfiles_among(
    alloc: Global,
    manifest: &Manifest,
    wanted: &PathFilter,
) -> Result<RowList<u8>, AllocError> {
    let mut found = RowList::new(alloc);
    for number in 0..manifest.edges.len() {
        let depfile = manifest.edges.edge(number).depfile().join(alloc)?;
        if wanted.may_have(depfile.as_slice()) {
            found.push(depfile.as_slice())?;
        }
    }
    Ok(found)
}

/// Returns those files that are no depfile of an edge.
fn without_depfiles(
    alloc: Global,
    manifest: &Manifest,
    files: &RemovableFiles,
) -> Result<RemovableFiles, ToolFault> {
    let wanted = set_of(alloc, files.paths())?;
    let depfiles = depfiles_among(alloc, manifest, &wanted)?;
    without(alloc, files, &depfiles)
}

/// Returns the given outputs that a manifest doesn't name, neither in a build line nor as a depfile.
fn dead_in_manifest(
    alloc: Global,
    loaded: &Loaded,
    outputs: &RowList<u8>,
) -> Result<RemovableFiles, ToolFault> {
    let graph = loaded.graph(alloc)?;
    let dead = dead_outputs(alloc, &graph, outputs)?;
    without_depfiles(alloc, &loaded.manifest, &dead)
}

/// Returns the given outputs that the manifest at a path doesn't name, neither in a build line nor as a depfile, in
/// their order.
///
/// # Errors
/// If the manifest is refused or memory runs out.
pub fn dead_files<R: Files + Eprint + AllocGlobal>(
    rt: &R,
    manifest: &[u8],
    outputs: &RowList<u8>,
) -> Result<RemovableFiles, ToolFault> {
    let loaded = load_manifest(rt, manifest)?;
    dead_in_manifest(rt.alloc(), &loaded, outputs)
}

/// The way in which files are removed.
#[derive(Clone, Copy)]
pub struct Manner {
    /// Whether files are only counted, not removed.
    pub is_dry: bool,
    /// Whether the path of each removed file is printed.
    pub is_verbose: bool,
}

/// The reason why a file isn't removed.
#[derive(Drop)]
enum RemovalFault {
    /// Its path isn't UTF-8.
    Path,
    /// The system refused it.
    System(io::Error),
}

/// Returns the path of a file as the system's calls take it.
fn text_of<'a>(file: &'a Removable<'_>) -> Result<&'a str, RemovalFault> {
    match str::from_utf8(file.path()) {
        Ok(text) => Ok(text),
        Err(_) => Err(RemovalFault::Path),
    }
}

/// Removes a file or an empty folder, and returns whether there was one. No other function of a tool removes one.
fn remove<R: Files>(rt: &R, file: &Removable<'_>) -> Result<bool, RemovalFault> {
    let path = text_of(file)?;
    let removed = match fs::remove_file(rt, path) {
        Err(error) if error.kind() == ErrorKind::IsADirectory => fs::remove_dir(rt, path),
        removed => removed,
    };
    match removed {
        Ok(()) => Ok(true),
        Err(error) if error.kind() == ErrorKind::NotFound => Ok(false),
        Err(error) => Err(RemovalFault::System(error)),
    }
}

/// Checks whether a file exists. Returns false if that isn't known.
fn exists<R: Files>(rt: &R, file: &Removable<'_>) -> Result<bool, RemovalFault> {
    let path = text_of(file)?;
    Ok(fs::exists(rt, path).unwrap_or(false))
}

/// Reports why a file can't be removed, but not for a path that isn't UTF-8.
fn report<R: AllocGlobal, E: Print>(
    rt: &R,
    errors: &E,
    file: &Removable<'_>,
    fault: &RemovalFault,
) {
    if let RemovalFault::System(error) = fault {
        let reason = reason_of_error(error);
        complain_of(
            rt.alloc(),
            errors,
            b"ninja: error: remove(",
            file.path(),
            b"): ",
            reason,
        );
    }
}

/// The state of a removal.
#[derive(Drop)]
struct Removal {
    manner: Manner,
    /// The paths that were seen so far.
    met: IndexMap<Vec<u8>, ()>,
    /// The number of files that were removed, or that a dry run would remove.
    count: u64,
    /// Whether a file could not be removed.
    has_failed: bool,
}

impl Removal {
    /// Creates a removal that has removed nothing yet.
    fn new(alloc: Global, manner: Manner) -> Removal {
        Removal {
            manner,
            met: IndexMap::new(alloc),
            count: 0,
            has_failed: false,
        }
    }

    /// Removes a file, and returns whether it existed. A dry run only checks that. If the file can't be removed,
    /// reports the reason, but not for a path that isn't UTF-8.
    fn remove<R: Files + AllocGlobal, E: Print>(
        &mut self,
        rt: &R,
        errors: &E,
        file: &Removable<'_>,
    ) -> bool {
        let removed = if self.manner.is_dry {
            exists(rt, file)
        } else {
            remove(rt, file)
        };
        match removed {
            Ok(is_removed) => is_removed,
            Err(fault) => {
                report(rt, errors, file, &fault);
                self.has_failed = true;
                false
            }
        }
    }

    /// Removes a file, unless its path was seen before. Prints the path if the tool is verbose.
    fn remove_once<R: Files + AllocGlobal, E: Print, W: Sink>(
        &mut self,
        rt: &R,
        errors: &E,
        file: &Removable<'_>,
        out: &mut W,
    ) -> Result<(), ToolFault> {
        let (alloc, path) = (rt.alloc(), file.path());
        if self
            .met
            .insert(Vec::from_slice(alloc, path)?, ())?
            .is_some()
        {
            return Ok(());
        }
        if !self.remove(rt, errors, file) {
            return Ok(());
        }
        self.count = self.count.saturating_add(1);
        if self.manner.is_verbose {
            write_all(out, &concatenate(alloc, &[b"Remove ", path, b"\n"])?)?;
        }
        Ok(())
    }

    /// Removes the files of a batch.
    fn remove_batch<R: Files + AllocGlobal, E: Print, W: Sink>(
        &mut self,
        rt: &R,
        errors: &E,
        batch: &Batch,
        out: &mut W,
    ) -> Result<(), ToolFault> {
        if self.manner.is_verbose {
            write_all(out, &batch.heading)?;
        }
        for number in 0..batch.files.len() {
            if let Some(file) = batch.files.get(number) {
                self.remove_once(rt, errors, &file, out)?;
            }
        }
        Ok(())
    }

    /// Removes the files of batches. Writes their paths if the tool is verbose, and their number.
    fn remove_batches<R: Files + AllocGlobal, E: Print, W: Sink>(
        &mut self,
        rt: &R,
        errors: &E,
        batches: &[Batch],
        out: &mut W,
    ) -> Result<(), ToolFault> {
        let end: &[u8] = if self.manner.is_verbose { b"\n" } else { b" " };
        write_all(out, b"Cleaning...")?;
        write_all(out, end)?;
        for batch in batches {
            self.remove_batch(rt, errors, batch, out)?;
        }
        write_all(out, self.count.to_string(rt.alloc())?.as_bytes())?;
        write_all(out, b" files.\n")?;
        Ok(())
    }

    /// Returns the exit status of the tool.
    fn status(&self) -> u8 {
        if self.has_failed { REFUSED } else { 0 }
    }
}

/// Removes the files of batches, and prints the lines on them to standard output. Returns the exit status.
fn remove_printing<R: Files + Print + Clock + AllocGlobal, E: Print>(
    rt: &R,
    errors: &E,
    manner: Manner,
    batches: &[Batch],
) -> Result<u8, ToolFault> {
    let room = Vec::with_capacity(rt.alloc(), OUTPUT_BUFFER)?;
    let mut out = Buffer::new(Standard::new(rt), room);
    let mut removal = Removal::new(rt.alloc(), manner);
    let removed = removal.remove_batches(rt, errors, batches, &mut out);
    let (written, _out) = out.finish();
    written?;
    removed?;
    Ok(removal.status())
}

/// Removes files that commands made: all of them, those that targets need, or those of rules. Returns the exit status.
///
/// # Errors
/// If the manifest or a word is refused. Then nothing is removed. If memory runs out or standard output can't be
/// written. Then files may have been removed.
pub fn clean<R: Files + Print + Eprint + Clock + AllocGlobal, E: Print>(
    rt: &R,
    errors: &E,
    manifest: &[u8],
    manner: Manner,
    request: &Request<'_>,
) -> Result<u8, ToolFault> {
    if request.has(b'r') && request.names.is_empty() {
        return Err(fault_of(rt.alloc(), &[b"expected a rule to clean"]));
    }
    let mut files = FileSource::new(rt, MANIFEST_BYTES);
    let batches = batches_in(rt.alloc(), &mut files, manifest, request)?;
    remove_printing(rt, errors, manner, &batches)
}

/// Removes each of these files. Returns the exit status.
///
/// # Errors
/// If memory runs out or standard output can't be written. Then files may have been removed.
pub fn remove_files<R: Files + Print + Eprint + Clock + AllocGlobal, E: Print>(
    rt: &R,
    errors: &E,
    manner: Manner,
    files: RemovableFiles,
) -> Result<u8, ToolFault> {
    let heading = Vec::new(rt.alloc());
    remove_printing(rt, errors, manner, &[Batch { heading, files }])
}
