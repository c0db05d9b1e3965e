//! Finds the first reason.

ghost use Rattle.std.specs.Prelude.{◌≡◌, ◌++◌, ◌&&◌, ◌<◌, IfOk, IfSome, List, length, Option, Some, map, nat_lt, not, option_map, slice_get, true, ℕ};
ghost use Rattle.plan_scope.specs.Sound.{IsSound};
ghost use Rattle.plan_scope.specs.declared.manifest.Manifest.{Manifest};
ghost use Rattle.plan_graph.specs.Graph.{IsGraph};
ghost use Rattle.plan_graph.specs.declared.graph_data.Graph.{Graph};
ghost use Rattle.plan_verify.specs.Turn.{Slots, earlier, same_text};
ghost use Rattle.plan_compile.specs.declared.baseline.OutOfDateRule.{OutOfDateRule};
ghost use Rattle.plan_compile.specs.declared.layout.EdgeLayout.TheVariants as layout_of;
ghost use Rattle.plan_compile.specs.Builds.{Build, builds};
ghost use Rattle.plan_compile.specs.Faithful.{IsEdge};
ghost use Rattle.plan_compile.specs.Images.{compiled, layouts};
ghost use Rattle.plan_compile.specs.Rule.{Command, baseline, is_new, least, least_from};
ghost use Rattle.plan_compile.specs.Told.{facts};
ghost use Rattle.plan_reasons.specs.Facts.{facts_of};
ghost use Rattle.plan_reasons.specs.Lent.{AreLent};
ghost use Rattle.plan_reasons.specs.Reasons.{command_reason, entry_reason, first_at, first_changed, is_changed, is_missing, is_start, newer_reason, or_else, path_reason, reason_by, reason_in};
ghost use Rattle.plan_reasons.specs.Replies.{entry_seen, observed, seen};
ghost use Rattle.plan_reasons.specs.declared.reason.Reason.TheVariants as reason;

use crate::facts::{Facts, NamedInput};
use crate::lent::{LentSlots, facts_by};
use crate::observed::Observed;
use crate::observing::observe;
use crate::reason::Reason;
use plan_compile::{
    Baseline, CommandLayout, inputs_are_loaded, layouts_are_facts, manifests_are_sound,
};
use plan_machine::{Recorded, Reply};
use std::alloc::{AllocError, Global};

/// Returns the position of the first stamp of a missing file.
fn first_missing(stamps: &[u64]) -> Option<usize>
    ensures { result ≡ first_at is_missing 0 stamps.now }
{
    for place in 0..stamps.len() {
        if stamps[place] == 0 {
            return Some(place);
        }
    }
    None
}

/// Returns the position of the first stamp that is later than a baseline.
fn first_later(baseline: u64, stamps: &[u64]) -> Option<usize>
    ensures first { result ≡ first_at (nat_lt baseline) 0 stamps.now }
    ensures inside { IfSome result (λ place. place < length stamps.now) }
{
    for place in 0..stamps.len() {
        if baseline < stamps[place] {
            return Some(place);
        }
    }
    None
}

/// Checks whether an edge changed a named input.
fn is_changed(input: NamedInput) -> bool
    ensures { result ≡ is_changed input }
{
    match input {
        NamedInput::SourceFile => false,
        NamedInput::Made(_stamp, changed) => changed,
    }
}

/// Returns the position of the first named input that an edge changed.
fn first_changed(named: &[NamedInput]) -> Option<usize>
    ensures { result ≡ first_changed 0 named.now }
{
    for place in 0..named.len() {
        if is_changed(named[place]) {
            return Some(place);
        }
    }
    None
}

/// Returns the earlier of two stamps.
fn earlier(first: u64, second: u64) -> u64
    ensures { result ≡ earlier first second }
{
    if first <= second { first } else { second }
}

/// Returns the least of a stamp and these.
fn least_from(stamp: u64, others: &[u64]) -> u64
    ensures { result ≡ least_from stamp others.now }
{
    let mut least = stamp;
    for other in others {
        least = earlier(least, *other);
    }
    least
}

/// Returns the least of these stamps, or 0 if there are none.
fn least(stamps: &[u64]) -> u64
    ensures { result ≡ least stamps.now }
{
    match stamps {
        [] => 0,
        [first, others @ ..] => least_from(*first, others),
    }
}

/// Returns the stamp that the newest input must not exceed.
fn baseline_of(kind: Baseline, outputs: &[u64], entry: &Option<Recorded>) -> u64
    ensures { result ≡ baseline kind outputs.now (entry_seen entry.now) }
{
    match entry {
        Some(recorded) => match kind {
            Baseline::Basis => recorded.basis(),
            Baseline::OutputsAndBasis => earlier(recorded.basis(), least(outputs)),
            Baseline::Outputs => least(outputs),
        },
        None => least(outputs),
    }
}

/// Checks whether two texts are equal.
#[tactic(auto, using(crate::proofs::FindLemmas::same_bytes))]
fn same_text(first: &[u8], second: &[u8]) -> bool
    ensures { result ≡ same_text first.now second.now }
{
    first == second
}

/// The command of a start entry.
const START: [u8; 1] = [0];

/// Checks whether there is no entry, or one with another command.
fn is_new(command: &[u8], entry: &Option<Recorded>) -> bool
    ensures { result ≡ is_new command.now (entry_seen entry.now) }
{
    match entry {
        Some(recorded) => !same_text(recorded.command().as_slice(), command),
        None => true,
    }
}

/// Checks whether an entry is a start entry.
fn is_start(recorded: &Recorded) -> bool
    ensures { result ≡ is_start (Rattle.plan_reasons.specs.Replies.recorded_in recorded.now) }
{
    same_text(recorded.command().as_slice(), &START)
}

/// Returns the reason that an entry gives, if it is not the entry of this command.
fn entry_reason(entry: &Option<Recorded>) -> Reason
    ensures { result ≡ entry_reason (entry_seen entry.now) }
{
    match entry {
        None => Reason::NeverBuilt,
        Some(recorded) => {
            if is_start(recorded) {
                Reason::NotFinished
            } else {
                Reason::OtherCommand
            }
        }
    }
}

/// Returns the reason that a missing recorded path gives.
fn path_reason(entry: &Option<Recorded>, place: usize) -> Reason
    ensures { result ≡ path_reason (entry_seen entry.now) place }
{
    match entry {
        None => Reason::PathMissing(place),
        Some(recorded) => {
            if is_start(recorded) {
                Reason::NotFinished
            } else {
                Reason::PathMissing(place)
            }
        }
    }
}

/// Returns the reason by the entry, unless the edge is a generator.
fn command_reason(facts: &Facts, entry: &Option<Recorded>) -> Option<Reason>
    ensures { result ≡ command_reason facts.now (entry_seen entry.now) }
{
    if !facts.generator & is_new(facts.command.as_slice(), entry) {
        Some(entry_reason(entry))
    } else {
        None
    }
}

/// Returns the position of the first stamp, in two lists one after the other, that is later than a baseline.
fn later_in_both(baseline: u64, named: &[u64], recorded: &[u64]) -> Option<usize>
    ensures { result ≡ first_at (nat_lt baseline) 0 (named.now ++ recorded.now) }
{
    match first_later(baseline, named) {
        Some(place) => Some(place),
        None => match first_later(baseline, recorded) {
            Some(place) => Some(named.len() + place),
            None => None,
        },
    }
}

/// Returns the reason that a file later than the baseline gives.
fn newer_reason(baseline: u64, named: &[u64], recorded: &[u64]) -> Option<Reason>
    ensures { result ≡ newer_reason baseline (named.now ++ recorded.now) }
{
    match later_in_both(baseline, named, recorded) {
        Some(place) => Some(Reason::Newer(place, baseline)),
        None => None,
    }
}

/// Returns the reason by the recorded paths, or by the stamps of the inputs.
fn stamp_reason(facts: &Facts, observed: &Observed) -> Option<Reason>
    ensures { result ≡ or_else (option_map (path_reason (entry_seen observed.now.entry)) (first_at is_missing 0 observed.now.recorded))
        (newer_reason (baseline facts.now.baseline observed.now.outputs (entry_seen observed.now.entry)) (observed.now.named ++ observed.now.recorded)) }
{
    match first_missing(observed.recorded.as_slice()) {
        Some(place) => Some(path_reason(&observed.entry, place)),
        None => {
            let baseline = baseline_of(
                facts.baseline,
                observed.outputs.as_slice(),
                &observed.entry,
            );
            newer_reason(
                baseline,
                observed.named.as_slice(),
                observed.recorded.as_slice(),
            )
        }
    }
}

/// Returns the reason by the entry, the recorded paths, or the stamps of the inputs.
fn later_reason(facts: &Facts, observed: &Observed) -> Option<Reason>
    ensures { result ≡ or_else (command_reason facts.now (entry_seen observed.now.entry))
        (or_else (option_map (path_reason (entry_seen observed.now.entry)) (first_at is_missing 0 observed.now.recorded))
        (newer_reason (baseline facts.now.baseline observed.now.outputs (entry_seen observed.now.entry)) (observed.now.named ++ observed.now.recorded))) }
{
    match command_reason(facts, &observed.entry) {
        Some(reason) => Some(reason),
        None => stamp_reason(facts, observed),
    }
}

/// Returns the first reason why an edge is dirty, by its facts and by what it observed. Returns None if it is clean.
pub fn first_reason(facts: &Facts, observed: &Observed) -> Option<Reason>
    ensures { result ≡ reason_by facts.now (seen observed.now).named (seen observed.now).outputs (seen observed.now).entry (seen observed.now).recorded }
{
    match first_missing(observed.outputs.as_slice()) {
        Some(place) => Some(Reason::OutputMissing(place)),
        None => match first_changed(facts.named.as_slice()) {
            Some(place) => Some(Reason::InputChanged(place)),
            None => later_reason(facts, observed),
        },
    }
}

/// The first reason why an edge is dirty, and what the edge observed.
#[derive(Drop)]
pub struct Finding {
    /// None if the edge is clean.
    pub reason: Option<Reason>,
    pub observed: Observed,
}

/// Returns the first reason why an edge is dirty, and what it observed, by its layout, its command, the slots that its
/// code loads, and the replies that it got before its command.
///
/// # Errors
///
/// Memory ran out.
pub fn reason_for<L: LentSlots>(
    alloc: Global,
    lent: &L,
    layout: &CommandLayout,
    command: &[u8],
    replies: &[Reply],
) -> Result<Finding, AllocError>
    ensures { (rule : OutOfDateRule) (m : Manifest) (g : Graph) → IsSound m → IsGraph m g → (e : ℕ) (x : Build) → IsEdge (builds rule m g) e x
        → slice_get (layouts (builds rule m g).edges) e ≡ Some (layout_of.Command layout.now) → command.now ≡ x.edge.command
        → (slots : Slots) → AreLent (L.stamp_left lent.now) (L.flag_left lent.now) (compiled rule m g) e slots
        → let facts = facts_of (facts (builds rule m g) slots x) in
        IfOk result (λ found. (found.reason ≡ reason_in facts replies.now) × (seen found.observed ≡ observed facts replies.now)) }
{
    manifests_are_sound();
    inputs_are_loaded();
    layouts_are_facts();
    let facts = facts_by(alloc, lent, layout, command)?;
    let observed = observe(alloc, &facts, replies)?;
    let reason = first_reason(&facts, &observed);
    Ok(Finding { reason, observed })
}
