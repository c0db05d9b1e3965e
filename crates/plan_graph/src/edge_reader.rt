//! Reads the outputs and inputs of build lines, in the order of the manifest.

ghost use Rattle.std.specs.Prelude.{◌≡◌, ◌≢◌, ◌≤◌, ◌∷◌, [], ◌++◌, IfOk, Ok, OnOk, length};
ghost use Rattle.plan_text.specs.Outcome.{Meets};
ghost use Rattle.plan_graph.specs.Files.{file_of, number_of, numbers_past, paths_in, with_paths};
ghost use Rattle.plan_graph.specs.Graph.{targets_above, inputs_named, outputs_of};
ghost use Rattle.plan_graph.specs.Reading as reading;
ghost use Rattle.plan_graph.specs.Reading.{inputs_past, outputs_past};
ghost use Rattle.plan_graph.specs.declared.fault.GraphFault.TheVariants.{Memory, TwoProducers, UnknownDefault};

use crate::fault::GraphFault;
use crate::files::{File, Files, narrow};
use crate::graph_data::MAX_EDGES;
use plan_scope::{DefaultTarget, EdgeRef, Manifest, PathRange};
use plan_text::{Items, RowList};
use std::alloc::{AllocError, Global};

/// The facts collected from some build lines.
#[derive(Drop)]
pub struct EdgeTable<'a> {
    /// The paths that they name.
    pub files: Files<'a>,
    /// The numbers of the outputs of each edge.
    pub outputs: RowList<u32>,
    /// The numbers of the inputs of each edge.
    pub inputs: RowList<u32>,
    /// The row that is being read.
    row: Vec<u32>,
}

/// Returns a copy of a path.
fn copy_of(alloc: Global, path: &[u8]) -> Result<Items<u8>, AllocError>
    ensures { IfOk result (λ copy. copy ≡ path.now) }
{
    Ok(Items::new(Vec::from_slice(alloc, path)?))
}

/// Returns the fault of a path that already has a producer.
fn two_producers(alloc: Global, path: &[u8]) -> GraphFault
    ensures { result ≢ Memory → result ≡ TwoProducers path.now }
{
    match copy_of(alloc, path) {
        Ok(path) => GraphFault::TwoProducers(path),
        Err(_) => GraphFault::Memory,
    }
}

/// Adds an output of edge `number`, and returns the number of its path.
fn with_output<'a>(
    alloc: Global,
    files: &mut Files<'a>,
    number: u32,
    path: &'a [u8],
) -> Result<u32, GraphFault>
    ensures table { Meets Memory (λ _. files.new) result (reading.with_output files.old number path.now (file_of path.now files.old)) }
    ensures number { IfOk result (λ n. n ≡ number_of (paths_in files.old) path.now) }
{
    let at = files.intern(path)?;
    let place = narrow(at)?;
    let file = files.at(at);
    if file.producer.is_some() {
        return Err(two_producers(alloc, path));
    }
    let made = File {
        producer: Some(number),
        is_used: file.is_used,
    };
    files.set(at, made);
    Ok(place)
}

/// Adds outputs of edge `number`, and appends the numbers of their paths to a row.
fn with_outputs<'a>(
    alloc: Global,
    files: &mut Files<'a>,
    number: u32,
    outputs: &PathRange<'a>,
    row: &mut Vec<u32>,
) -> Result<(), GraphFault>
    ensures table { Meets Memory (λ _. files.new) result (reading.with_outputs files.old number outputs.now) }
    ensures row { OnOk result (row.new.items ≡ row.old.items ++ numbers_past (paths_in files.old) outputs.now) }
{
    for place in 0..outputs.len() {
        let at = with_output(alloc, files, number, outputs.path(place))?;
        row.push(at)?;
    }
    Ok(())
}

/// Returns whether the producer of a path is the edge itself.
pub fn is_own(producer: Option<u32>, own: Option<u32>) -> bool
    ensures { result ≡ reading.is_own producer own }
{
    match (producer, own) {
        (Some(producer), Some(own)) => producer == own,
        (Some(_), None) => false,
        (None, _) => false,
    }
}

/// Returns the edge itself if its own outputs do not count as its inputs, that is, if it is a phony. Returns
/// None otherwise.
pub fn own_of<'a>(number: u32, edge: &EdgeRef<'a>) -> Option<u32>
    ensures { result ≡ reading.own_of number edge.now }
{
    if edge.is_phony() { Some(number) } else { None }
}

/// Adds an input, and returns the number of its path.
fn with_input<'a>(
    files: &mut Files<'a>,
    own: Option<u32>,
    path: &'a [u8],
) -> Result<u32, GraphFault>
    ensures table { Meets Memory (λ _. files.new) result (Ok (reading.with_input own files.old path.now)) }
    ensures number { IfOk result (λ n. n ≡ number_of (paths_in files.old) path.now) }
{
    let at = files.intern(path)?;
    let place = narrow(at)?;
    let file = files.at(at);
    if file.is_used {
        return Ok(place);
    }
    let used = File {
        producer: file.producer,
        is_used: !is_own(file.producer, own),
    };
    files.set(at, used);
    Ok(place)
}

/// Adds inputs of one sort, and appends the numbers of their paths to a row.
fn with_inputs<'a>(
    files: &mut Files<'a>,
    own: Option<u32>,
    inputs: &PathRange<'a>,
    row: &mut Vec<u32>,
) -> Result<(), GraphFault>
    ensures table { Meets Memory (λ _. files.new) result (Ok (reading.with_inputs own files.old inputs.now)) }
    ensures row { OnOk result (row.new.items ≡ row.old.items ++ numbers_past (paths_in files.old) inputs.now) }
{
    for place in 0..inputs.len() {
        let at = with_input(files, own, inputs.path(place))?;
        row.push(at)?;
    }
    Ok(())
}

/// Adds the inputs of an edge, and appends the numbers of their paths to a row.
fn with_all_inputs<'a>(
    files: &mut Files<'a>,
    own: Option<u32>,
    edge: &EdgeRef<'a>,
    row: &mut Vec<u32>,
) -> Result<(), GraphFault>
    ensures table { Meets Memory (λ _. files.new) result (Ok (reading.with_inputs own files.old (inputs_named edge.now))) }
    ensures row { OnOk result (row.new.items ≡ row.old.items ++ numbers_past (paths_in files.old) (inputs_named edge.now)) }
{
    with_inputs(files, own, &edge.inputs(), row)?;
    with_inputs(files, own, &edge.implicit_inputs(), row)?;
    with_inputs(files, own, &edge.order_only_inputs(), row)?;
    Ok(())
}

/// Adds the outputs of an edge, and appends the numbers of their paths to a row.
fn with_all_outputs<'a>(
    alloc: Global,
    files: &mut Files<'a>,
    number: u32,
    edge: &EdgeRef<'a>,
    row: &mut Vec<u32>,
) -> Result<(), GraphFault>
    ensures table { Meets Memory (λ _. files.new) result (reading.with_outputs files.old number (outputs_of edge.now)) }
    ensures row { OnOk result (row.new.items ≡ row.old.items ++ numbers_past (paths_in files.old) (outputs_of edge.now)) }
{
    with_outputs(alloc, files, number, &edge.outputs(), row)?;
    with_outputs(alloc, files, number, &edge.implicit_outputs(), row)?;
    Ok(())
}

/// Adds the outputs of edge `number` as a new row.
fn read_outputs<'a>(
    alloc: Global,
    read: &mut EdgeTable<'a>,
    number: u32,
    edge: &EdgeRef<'a>,
) -> Result<(), GraphFault>
    ensures table { Meets Memory (λ _. read.new.files) result (reading.with_outputs read.old.files number (outputs_of edge.now)) }
    ensures outputs { OnOk result (read.new.outputs ≡ read.old.outputs ++ numbers_past (paths_in read.old.files) (outputs_of edge.now) ∷ []) }
    ensures inputs { read.new.inputs ≡ read.old.inputs }
{
    read.row.clear();
    with_all_outputs(alloc, &mut read.files, number, edge, &mut read.row)?;
    read.outputs.push(&read.row)?;
    Ok(())
}

/// Adds the inputs of an edge as a new row.
fn read_inputs<'a>(
    read: &mut EdgeTable<'a>,
    own: Option<u32>,
    edge: &EdgeRef<'a>,
) -> Result<(), GraphFault>
    ensures table { Meets Memory (λ _. read.new.files) result (Ok (reading.with_inputs own read.old.files (inputs_named edge.now))) }
    ensures inputs { OnOk result (read.new.inputs ≡ read.old.inputs ++ numbers_past (paths_in read.old.files) (inputs_named edge.now) ∷ []) }
    ensures outputs { read.new.outputs ≡ read.old.outputs }
{
    read.row.clear();
    with_all_inputs(&mut read.files, own, edge, &mut read.row)?;
    read.inputs.push(&read.row)?;
    Ok(())
}

/// Adds edge `number`.
fn read_edge<'a>(
    alloc: Global,
    read: &mut EdgeTable<'a>,
    number: u32,
    edge: &EdgeRef<'a>,
) -> Result<(), GraphFault>
    ensures table { Meets Memory (λ _. read.new.files) result (reading.with_edge read.old.files number edge.now) }
    ensures outputs { OnOk result (read.new.outputs ≡ read.old.outputs ++ numbers_past (paths_in read.old.files) (outputs_of edge.now) ∷ []) }
    ensures inputs { OnOk result (read.new.inputs ≡ read.old.inputs ++ numbers_past (with_paths (paths_in read.old.files) (outputs_of edge.now)) (inputs_named edge.now) ∷ []) }
{
    read_outputs(alloc, read, number, edge)?;
    if number as usize >= MAX_EDGES {
        return Err(GraphFault::TooManyEdges);
    }
    read_inputs(read, own_of(number, edge), edge)?;
    Ok(())
}

/// Returns the fault of a target that no edge above produces.
fn unknown_default(alloc: Global, path: &[u8]) -> GraphFault
    ensures { result ≢ Memory → result ≡ UnknownDefault path.now }
{
    match copy_of(alloc, path) {
        Ok(path) => GraphFault::UnknownDefault(path),
        Err(_) => GraphFault::Memory,
    }
}

/// Checks that each of these targets has a producer.
fn check_targets<'a>(
    alloc: Global,
    files: &Files<'a>,
    targets: &[DefaultTarget],
) -> Result<(), GraphFault>
    ensures { Meets Memory (λ _. files.now) result (reading.with_targets files.now targets.now) }
{
    for target in targets {
        let path = target.path.as_slice();
        if files.producer(path).is_none() {
            return Err(unknown_default(alloc, path));
        }
    }
    Ok(())
}

/// Returns how many of these targets are above the build line with this number.
fn targets_above(number: usize, defaults: &[DefaultTarget]) -> usize
    ensures len { result ≡ targets_above number defaults.now }
    ensures within { result ≤ length defaults.now }
{
    defaults
        .iter()
        .take_while(|target| target.edges_above <= number)
        .count()
}

/// Creates an empty table with room for `edges` edges.
fn no_edges<'a>(alloc: Global, edges: usize) -> Result<EdgeTable<'a>, AllocError>
    ensures { IfOk result (λ r. (r.files ≡ []) × (r.outputs ≡ []) × (r.inputs ≡ [])) }
{
    let mut files = Files::new(alloc);
    files.reserve(edges)?;
    let mut outputs = RowList::new(alloc);
    outputs.reserve(edges)?;
    let mut inputs = RowList::new(alloc);
    inputs.reserve(edges)?;
    Ok(EdgeTable {
        files,
        outputs,
        inputs,
        row: Vec::new(alloc),
    })
}

/// Reads the outputs and inputs of the build lines of a manifest.
pub fn read_edges<'a>(alloc: Global, manifest: &'a Manifest) -> Result<EdgeTable<'a>, GraphFault>
    ensures table { Meets Memory (λ r. r.files) result (reading.table_of manifest.now) }
    ensures outputs { IfOk result (λ r. r.outputs ≡ outputs_past [] manifest.now.edges) }
    ensures inputs { IfOk result (λ r. r.inputs ≡ inputs_past [] manifest.now.edges) }
{
    let edges = &manifest.edges;
    let count = narrow(edges.len())?;
    let mut read = no_edges(alloc, edges.len())?;
    let mut defaults = manifest.defaults.as_slice();
    for number in 0..count {
        let (due, rest) = defaults.split_at(targets_above(number as usize, defaults));
        check_targets(alloc, &read.files, due)?;
        read_edge(alloc, &mut read, number, &edges.edge(number as usize))?;
        defaults = rest;
    }
    check_targets(alloc, &read.files, defaults)?;
    Ok(read)
}
