//! Explanations of a build: the reason why each command runs.

ghost use Rattle.std.specs.Prelude.{◌≡◌, ◌++◌, IfOk, IfSome, OnOk, Some, option_map, slice_get};
ghost use Rattle.std.specs.Option.{IfNone};
ghost use Rattle.plan_scope.specs.Edge.{Edge as ManifestEdge};
ghost use Rattle.plan_scope.specs.Sound.{IsSound};
ghost use Rattle.plan_graph.specs.Graph.{IsGraph};
ghost use Rattle.plan_graph.specs.declared.graph_data.Graph.{Graph};
ghost use Rattle.plan_compile.specs.declared.baseline.OutOfDateRule.TheVariants.{Stricter};
ghost use Rattle.plan_compile.specs.declared.layout.CommandLayout.{CommandLayout as Layout};
ghost use Rattle.plan_compile.specs.declared.layout.EdgeLayout.TheVariants as layout_of;
ghost use Rattle.plan_compile.specs.Builds.{Build, builds};
ghost use Rattle.plan_compile.specs.Images as images;
ghost use Rattle.plan_compile.specs.Rule.{paths_in};
ghost use Rattle.plan_reasons.specs.Replies.{entry_seen, seen as observations};
ghost use Rattle.plan_commands.specs.Explaining.{Explains, Says, SaysReason, newer_in, value_in};

use crate::compile_fault::printed_compile_fault;
use crate::compiling::graph_of;
use plan_compile::{CommandLayout, EdgeLayout, OutOfDateRule, layouts};
use plan_lanes::{KeepOrder, Observed, Permit, World};
use plan_machine::{LoadedSlot, Recorded, Reply};
use plan_printing::PlanFault;
use plan_reasons::{Finding, LentSlots, Names, Observed as Seen, Reason, reason_for, sentence};
use plan_scope::{EdgeRef, Manifest, PathRange};
use plan_text::{PathFilter, RowList};
use plan_verify::{PathList, Value};
use std::alloc::{AllocError, Global};
use std::marker::Model;

/// Returns the value of a slot. Returns None if it isn't set.
fn value_of(loaded: &LoadedSlot) -> Option<&Value>
    ensures { option_map (λ v. v.now) result ≡ loaded.now.value }
{
    match &loaded.value {
        Some(value) => Some(value),
        None => None,
    }
}

/// Returns the value of the slot with this number. Returns None if it isn't among these slots, or isn't set.
fn value_in(slots: &[LoadedSlot], number: u32) -> Option<&Value>
    ensures { option_map (λ v. v.now) result ≡ value_in slots.now number }
{
    for loaded in slots {
        if loaded.number == number {
            return value_of(loaded);
        }
    }
    None
}

/// The slots that the code of an edge loads, as they were before its command.
#[derive(Drop)]
struct Loaded<'a> {
    slots: &'a [LoadedSlot],
}

impl LentSlots for Loaded<'_> {
    ghost use Rattle.plan_commands.specs.Explaining.{flag_in, stamp_in, value_in};

    ghost stamp_left = { λ loaded slot. stamp_in (value_in loaded.slots.now slot) };

    ghost flag_left = { λ loaded slot. flag_in (value_in loaded.slots.now slot) };

    fn stamp(&self, slot: u32) -> u64 {
        match value_in(self.slots, slot) {
            Some(Value::Stamp(stamp)) => *stamp,
            _ => 0,
        }
    }

    fn flag(&self, slot: u32) -> bool {
        match value_in(self.slots, slot) {
            Some(Value::Flag(flag)) => *flag,
            _ => false,
        }
    }
}

/// Appends paths of the manifest.
fn add_paths(rows: &mut RowList<u8>, paths: &PathRange<'_>) -> Result<(), AllocError>
    ensures { OnOk result (rows.new ≡ rows.old ++ paths.now) }
{
    for number in 0..paths.len() {
        rows.push(paths.path(number))?;
    }
    Ok(())
}

/// Appends recorded paths.
fn add_recorded(rows: &mut RowList<u8>, paths: &PathList) -> Result<(), AllocError>
    ensures { OnOk result (rows.new ≡ rows.old ++ paths.now) }
{
    for number in 0..paths.len() {
        rows.push(paths.path(number))?;
    }
    Ok(())
}

/// Returns the edge of a manifest with this number, and its layout among all layouts. Returns None if it has no
/// command.
fn command_edge<'a>(
    manifest: &'a Manifest,
    layouts: &'a [EdgeLayout],
    edge: u32,
) -> Option<(EdgeRef<'a>, &'a CommandLayout)>
    ensures edge { IfSome result (λ x. slice_get manifest.now.edges edge ≡ Some x.0) }
    ensures layout { IfSome result (λ x. slice_get layouts.now edge ≡ Some (layout_of.Command x.1.now)) }
    ensures none { IfNone result ((x : ManifestEdge) (w : Layout) → slice_get manifest.now.edges edge ≡ Some x → slice_get layouts.now edge ≡ Some (layout_of.Command w) → ⊥) }
{
    let number = edge as usize;
    if number >= manifest.edges.len() {
        return None;
    }
    match layouts.get(number) {
        Some(EdgeLayout::Command(layout)) => Some((manifest.edges.edge(number), layout)),
        _ => None,
    }
}

/// Returns the paths of a recorded entry.
fn recorded_paths(alloc: Global, entry: &Option<Recorded>) -> Result<RowList<u8>, AllocError>
    ensures { IfOk result (λ rows. rows ≡ paths_in (entry_seen entry.now)) }
{
    let mut rows = RowList::new(alloc);
    if let Some(entry) = entry {
        add_recorded(&mut rows, entry.paths())?;
    }
    Ok(rows)
}

/// Returns the named inputs of an edge, and after them the recorded paths.
fn inputs_of(
    alloc: Global,
    edge: &EdgeRef<'_>,
    entry: &Option<Recorded>,
) -> Result<RowList<u8>, AllocError>
    ensures { IfOk result (λ rows. rows ≡ edge.now.paths.inputs ++ (edge.now.paths.implicit_inputs ++ paths_in (entry_seen entry.now))) }
{
    let mut rows = RowList::new(alloc);
    add_paths(&mut rows, &edge.inputs())?;
    add_paths(&mut rows, &edge.implicit_inputs())?;
    if let Some(entry) = entry {
        add_recorded(&mut rows, entry.paths())?;
    }
    Ok(rows)
}

/// Returns the stamp of the input that is newer than the baseline, if that is the reason. Returns 0 for another reason.
fn newer_stamp(seen: &Seen, reason: Reason) -> u64
    ensures { result ≡ newer_in reason (observations seen.now) }
{
    let Reason::Newer(place, _) = reason else {
        return 0;
    };
    let named = seen.named.as_slice();
    if place < named.len() {
        return named[place];
    }
    match seen.recorded.as_slice().get(place - named.len()) {
        Some(stamp) => *stamp,
        None => 0,
    }
}

/// Returns the sentence on the reason that was found, or None without a reason.
fn sentence_on(
    alloc: Global,
    edge: &EdgeRef<'_>,
    outputs: &RowList<u8>,
    found: &Finding,
) -> Result<Option<Vec<u8>>, AllocError>
    ensures { (x : Build) → x.edge ≡ edge.now → IfOk result (λ text. Says x outputs.now (observations found.now.observed) found.now.reason (option_map (λ t. t.items) text)) }
{
    let Some(reason) = found.reason else {
        return Ok(None);
    };
    let seen = &found.observed;
    let inputs = inputs_of(alloc, edge, &seen.entry)?;
    let recorded = recorded_paths(alloc, &seen.entry)?;
    let names = Names {
        outputs,
        stamps: seen.outputs.as_slice(),
        inputs: &inputs,
        recorded: &recorded,
        newer: newer_stamp(seen, reason),
    };
    Ok(Some(sentence(alloc, &names, reason)?))
}

/// Returns the sentence that says why a command is going to run, by what its edge has observed. Returns None if there
/// is no reason: the edge is up to date, or has no command.
fn sentence_for(
    alloc: Global,
    manifest: &Manifest,
    layouts: &[EdgeLayout],
    edge: u32,
    command: &[u8],
    outputs: &RowList<u8>,
    observed: &Observed,
) -> Result<Option<Vec<u8>>, AllocError>
    requires { IsSound manifest.now }
    ensures { (g : Graph) → IsGraph manifest.now g → layouts.now ≡ images.layouts (builds Stricter manifest.now g).edges
        → IfOk result (λ text. SaysReason manifest.now g edge command.now outputs.now observed.now (option_map (λ t. t.items) text)) }
{
    let Some((edge, layout)) = command_edge(manifest, layouts, edge) else {
        return Ok(None);
    };
    let loaded = Loaded {
        slots: observed.slots.as_slice(),
    };
    let found = reason_for(alloc, &loaded, layout, command, observed.replies.as_slice())?;
    sentence_on(alloc, &edge, outputs, &found)
}

/// Explains the commands of a build: holds its manifest, and the layout of each edge. A contract sees the manifest.
#[derive(Drop)]
pub(crate) struct Explainer {
    manifest: Manifest,
    layouts: Vec<EdgeLayout>,
}

impl Model for Explainer {
    ghost use Rattle.plan_scope.specs.declared.manifest.Manifest.{Manifest as Read};
    ghost use Rattle.plan_commands.specs.Explaining.{AreLayouts};

    ghost Value = { Read };

    ghost view = { λ x. x.manifest };

    ghost invariant = { λ x. AreLayouts x.manifest x.layouts.items };
}

impl Explainer {
    /// Creates the explainer of a manifest.
    ///
    /// # Errors
    /// As for the image of the manifest.
    fn new(alloc: Global, manifest: Manifest) -> Result<Explainer, PlanFault>
        requires { IsSound manifest }
        ensures { IfOk result (λ x. x ≡ manifest) }
    {
        let graph = graph_of(alloc, &manifest)?;
        let layouts = match layouts(alloc, &manifest, &graph, OutOfDateRule::Stricter) {
            Ok(layouts) => layouts,
            Err(fault) => return Err(printed_compile_fault(alloc, fault)),
        };
        drop(graph);
        Ok(Explainer { manifest, layouts })
    }

    /// Returns the sentence that says why a command is going to run, by what its edge has observed. Returns None if
    /// there is no reason: the edge is up to date, or has no command.
    fn explain(
        &self,
        alloc: Global,
        edge: u32,
        command: &[u8],
        outputs: &RowList<u8>,
        observed: &Observed,
    ) -> Result<Option<Vec<u8>>, AllocError>
        ensures { IfOk result (λ text. Explains self.now edge command.now outputs.now observed.now (option_map (λ t. t.items) text)) }
    {
        let Explainer { manifest, layouts } = self;
        sentence_for(alloc, manifest, layouts, edge, command, outputs, observed)
    }
}

/// Sets the explainer to that of a manifest if the world observes edges. If memory runs out, no command is explained.
/// If the world doesn't observe edges, frees the manifest.
pub(crate) fn keep_to_explain<W: World>(
    alloc: Global,
    manifest: Manifest,
    explainer: &mut Option<Explainer>,
)
    requires { IsSound manifest }
{
    if W::observes() {
        *explainer = Explainer::new(alloc, manifest).ok();
    } else {
        drop(manifest);
    }
}

/// Wraps a world: passes all questions on, and passes the reason of each command to `World::explain` before it runs.
#[derive(Drop)]
pub(crate) struct Explained<'a, W> {
    alloc: Global,
    world: &'a W,
    explainer: &'a Explainer,
}

impl<'a, W: World> Explained<'a, W> {
    /// Wraps a world so that its commands are explained.
    pub(crate) fn new(alloc: Global, world: &'a W, explainer: &'a Explainer) -> Explained<'a, W>
        ensures { result.world.now ≡ world.now }
    {
        Explained {
            alloc,
            world,
            explainer,
        }
    }

    /// Passes the reason why a command is going to run to the world.
    fn tell(&self, outputs: &RowList<u8>, permit: &Permit) -> Result<(), AllocError> {
        let Some(observed) = permit.observed() else {
            return Ok(());
        };
        let edge = permit.edge();
        let reason = self
            .explainer
            .explain(self.alloc, edge, permit.command(), outputs, observed)?;
        if let Some(reason) = reason {
            self.world.explain(outputs.row(0), &reason);
        }
        Ok(())
    }
}

impl<W: World> World for Explained<'_, W> {
    ghost allows = { λ number question reply. W.allows number question reply };

    ghost keeps = { W.keeps };

    fn keeps_journal() -> bool {
        W::keeps_journal()
    }

    ghost observes = { W.observes };

    fn observes() -> bool {
        W::observes()
    }

    fn stat(&self, number: u64, path: &[u8]) -> Result<Reply, AllocError> {
        self.world.stat(number, path)
    }

    fn stat_ahead(&self, path: &[u8]) -> Option<u64> {
        self.world.stat_ahead(path)
    }

    fn recall(&self, number: u64, output: &[u8]) -> Result<Reply, AllocError> {
        self.world.recall(number, output)
    }

    fn recorded_among(
        &self,
        alloc: Global,
        output: &[u8],
        wanted: &PathFilter,
    ) -> Result<Option<RowList<u8>>, AllocError> {
        self.world.recorded_among(alloc, output, wanted)
    }

    fn begun_among(
        &self,
        alloc: Global,
        output: &[u8],
        wanted: &PathFilter,
    ) -> Result<Option<RowList<u8>>, AllocError> {
        self.world.begun_among(alloc, output, wanted)
    }

    fn foreign_among(
        &self,
        alloc: Global,
        output: &[u8],
        wanted: &PathFilter,
        is_recorded: bool,
    ) -> Result<Option<RowList<u8>>, AllocError> {
        self.world.foreign_among(alloc, output, wanted, is_recorded)
    }

    fn foreign_names_others(&self, output: &[u8]) -> Result<bool, AllocError> {
        self.world.foreign_names_others(output)
    }

    fn foreign_ran_another(&self, output: &[u8], first: &[u8]) -> Result<bool, AllocError> {
        self.world.foreign_ran_another(output, first)
    }

    fn take_outputs(&self, outputs: PathFilter) {
        self.world.take_outputs(outputs);
    }

    fn take_others(&self, others: Option<PathFilter>) {
        self.world.take_others(others);
    }

    fn remove_depfiles(&self) {
        self.world.remove_depfiles();
    }

    fn record_stamp(&self) -> Option<u64> {
        self.world.record_stamp()
    }

    fn first_begin(&self) -> Option<u64> {
        self.world.first_begin()
    }

    fn now(&self) -> Option<u64> {
        self.world.now()
    }

    fn is_file(&self, path: &[u8]) -> bool {
        self.world.is_file(path)
    }

    fn is_made_with(&self, output: &[u8], first: &[u8]) -> Result<bool, AllocError> {
        self.world.is_made_with(output, first)
    }

    fn forget(&self, output: &[u8], reason: &[u8]) -> Result<(), AllocError> {
        self.world.forget(output, reason)
    }

    fn explain(&self, edge: &[u8], reason: &[u8]) {
        self.world.explain(edge, reason);
    }

    fn run(&self, number: u64, outputs: &RowList<u8>, permit: Permit) -> Result<Reply, AllocError> {
        if let Err(error) = self.tell(outputs, &permit) {
            permit.spend();
            return Err(error);
        }
        self.world.run(number, outputs, permit)
    }

    fn read_depfile(&self, number: u64, path: &[u8]) -> Result<Reply, AllocError> {
        self.world.read_depfile(number, path)
    }

    fn keep(&self, number: u64, order: &KeepOrder) -> Result<Reply, AllocError> {
        self.world.keep(number, order)
    }
}
