//! The edges of a manifest, with their files by number.

ghost use Rattle.std.specs.Prelude.{◌≡◌, ◌<◌, IfOk, drop, filter, length, not, slice_get, slice_index, take};
ghost use Rattle.plan_scope.specs.Edge.{Edge as EdgeMeant};
ghost use Rattle.plan_graph.specs.Graph.{IsGraph};
ghost use Rattle.plan_graph.specs.Files.{producer_at};
ghost use Rattle.plan_image.specs.Spelling.{IsWord};
ghost use Rattle.plan_compile.specs.Builds.{build_at, builds_from, is_maker, without_made};
ghost use Rattle.plan_compile.specs.Rule.{baseline_by};

use crate::baseline::{Baseline, OutOfDateRule};
use crate::file_numbers::FileNumbers;
use plan_graph::{Files, Graph, files_complete, producers_numbered};
use plan_scope::{EdgeList, EdgeRef, Manifest};
use plan_text::Items;
use std::alloc::{AllocError, Global};
use std::marker::Model;

/// An edge with its files by number. A contract sees the edge and the numbers.
#[derive(Drop)]
pub(crate) struct Build<'a> {
    edges: &'a EdgeList,
    /// The number of the edge in the list.
    number: u32,
    outputs: &'a [u32],
    named: FileNumbers<'a>,
    order_only: FileNumbers<'a>,
    waits: &'a [u32],
    rank: u32,
    baseline: Baseline,
}

impl<'a> Model for Build<'a> {
    ghost use Rattle.std.specs.Prelude.{◌<◌, get_or, length};
    ghost use Rattle.plan_compile.specs.Builds.{Build, no_edge};

    ghost Value = { Build };

    ghost view = { λ b. record { edge = get_or b.edges.now b.number no_edge; outputs = b.outputs.now; named = b.named; order_only = b.order_only; waits = b.waits.now; rank = b.rank; baseline = b.baseline } };

    ghost invariant = { λ b. b.number < length b.edges.now };
}

impl<'a> Build<'a> {
    ghost use Rattle.std.specs.Prelude.{◌≡◌};

    /// Borrows the edge of the manifest.
    pub(crate) fn edge(&self) -> EdgeRef<'a>
        ensures { result ≡ self.now.edge }
    {
        self.edges.edge(self.number as usize)
    }

    /// Returns the numbers of its outputs.
    pub(crate) fn outputs(&self) -> &[u32]
        ensures { result.now ≡ self.now.outputs }
    {
        self.outputs
    }

    /// Returns the numbers of its explicit and implicit inputs.
    pub(crate) fn named(&self) -> &[u32]
        ensures { result.now ≡ self.now.named }
    {
        self.named.as_slice()
    }

    /// Returns the numbers of its order-only inputs.
    pub(crate) fn order_only(&self) -> &[u32]
        ensures { result.now ≡ self.now.order_only }
    {
        self.order_only.as_slice()
    }

    /// Returns the edges that it waits for.
    pub(crate) fn waits(&self) -> &[u32]
        ensures { result.now ≡ self.now.waits }
    {
        self.waits
    }

    /// Returns its rank.
    pub(crate) fn rank(&self) -> u32
        ensures { result ≡ self.now.rank }
    {
        self.rank
    }

    /// Returns its baseline.
    pub(crate) fn baseline(&self) -> Baseline
        ensures { result ≡ self.now.baseline }
    {
        self.baseline
    }
}

/// Converts a number that fits into 32 bits.
pub(crate) const fn word(number: usize) -> u32
    requires { IsWord number }
    ensures { result ≡ number }
{
    number as u32
}

/// Returns a copy of these numbers.
pub(crate) fn words(alloc: Global, numbers: &[u32]) -> Result<Items<u32>, AllocError>
    ensures { IfOk result (λ ws. ws ≡ numbers.now) }
{
    Ok(Items::new(Vec::from_slice(alloc, numbers)?))
}

/// Returns whether edge `edge` has a file as an output.
fn makes<'a>(files: &Files<'a>, edge: u32, file: u32) -> bool
    ensures { result ≡ is_maker (producer_at files.now file) edge }
{
    match files.producer_at(file as usize) {
        Some(producer) => producer == edge,
        None => false,
    }
}

/// Returns the numbers of files, except outputs of edge `edge`.
fn not_made_by<'a>(
    alloc: Global,
    files: &Files<'a>,
    edge: u32,
    numbers: &[u32],
) -> Result<Vec<u32>, AllocError>
    ensures { IfOk result (λ kept. kept.items ≡ filter (λ f. not (is_maker (producer_at files.now f) edge)) numbers.now) }
{
    let mut kept = Vec::with_capacity(alloc, numbers.len())?;
    for number in numbers {
        if !makes(files, edge, *number) {
            kept.push(*number)?;
        }
    }
    Ok(kept)
}

/// Returns the first `count` numbers, or all if there are fewer.
fn front(numbers: &[u32], count: usize) -> &[u32]
    ensures { result.now ≡ take count numbers.now }
{
    if count < numbers.len() {
        &numbers[..count]
    } else {
        numbers
    }
}

/// Returns the numbers after the first `count`, or none if there are fewer.
fn back(numbers: &[u32], count: usize) -> &[u32]
    ensures { result.now ≡ drop count numbers.now }
{
    if count < numbers.len() {
        &numbers[count..]
    } else {
        &[]
    }
}

/// Returns the number at a place, or 0 if there are fewer numbers.
fn number_at(numbers: &[u32], place: usize) -> u32
    ensures { result ≡ slice_index numbers.now place }
{
    match numbers.get(place) {
        Some(number) => *number,
        None => 0,
    }
}

/// Returns numbers of files. If the edge is a phony, its own outputs are left out.
fn kept<'a, 'b>(
    alloc: Global,
    files: &Files<'b>,
    edge: u32,
    phony: bool,
    numbers: &'a [u32],
) -> Result<FileNumbers<'a>, AllocError>
    ensures { IfOk result (λ kept. kept ≡ without_made files.now edge phony numbers.now) }
{
    if phony {
        let numbers = not_made_by(alloc, files, edge, numbers)?;
        Ok(FileNumbers::of_vec(numbers))
    } else {
        Ok(FileNumbers::of_slice(numbers))
    }
}

/// Returns the baseline of an edge under a rule.
fn baseline_by(restat: bool, generator: bool, rule: OutOfDateRule) -> Baseline
    ensures { result ≡ baseline_by restat generator rule }
{
    if restat {
        return Baseline::Basis;
    }
    if generator {
        return Baseline::Outputs;
    }
    match rule {
        OutOfDateRule::Specified => Baseline::Outputs,
        OutOfDateRule::Stricter => Baseline::OutputsAndBasis,
    }
}

/// Returns edge `number` of the manifest.
fn build_at_number<'a, 'b>(
    alloc: Global,
    manifest: &'a Manifest,
    graph: &'a Graph<'b>,
    rule: OutOfDateRule,
    number: usize,
) -> Result<Build<'a>, AllocError>
    requires graph { IsGraph manifest.now graph.now }
    requires inside { number < length manifest.now.edges }
    ensures { (edge : EdgeMeant) → slice_get manifest.now.edges number ≡ Some edge → IfOk result (λ b. b ≡ build_at rule graph.now number edge) }
{
    files_complete();
    producers_numbered();
    let edge = manifest.edges.edge(number);
    let phony = edge.is_phony();
    let own = word(number);
    let inputs = graph.inputs.row(number);
    let count = inputs.len().saturating_sub(edge.order_only_inputs().len());
    let named = kept(alloc, &graph.files, own, phony, front(inputs, count))?;
    let order_only = kept(alloc, &graph.files, own, phony, back(inputs, count))?;
    Ok(Build {
        edges: &manifest.edges,
        number: own,
        outputs: graph.outputs.row(number),
        named,
        order_only,
        waits: graph.waits.row(number),
        rank: number_at(graph.ranks.as_slice(), number),
        baseline: baseline_by(edge.has_restat(), edge.is_generator(), rule),
    })
}

/// Returns all edges of the manifest.
pub(crate) fn builds<'a, 'b>(
    alloc: Global,
    manifest: &'a Manifest,
    graph: &'a Graph<'b>,
    rule: OutOfDateRule,
) -> Result<Vec<Build<'a>>, AllocError>
    requires { IsGraph manifest.now graph.now }
    ensures { IfOk result (λ bs. bs.items ≡ builds_from rule graph.now 0 manifest.now.edges) }
{
    let count = manifest.edges.len();
    let mut builds = Vec::with_capacity(alloc, count)?;
    for number in 0..count {
        builds.push(build_at_number(alloc, manifest, graph, rule, number)?)?;
    }
    Ok(builds)
}
