//! The command `replay` with two traces.

ghost use Rattle.std.specs.Prelude.{◌≡◌, ◌⊎◌, IfOk, IfErr, OnOk, false, true};
ghost use Rattle.plan_scope.specs.Loading.{IsMissing};
ghost use Rattle.plan_commands.specs.Comparing as defined;
ghost use Rattle.plan_commands.specs.Comparing.{AreCompared, AreNotCompared, Compares, FailsToAnswer, IsAnswer, IsNotAnswered, LacksAnswer};
ghost use Rattle.plan_printing.specs.Faults.{no_memory, output_fault};
ghost use Rattle.plan_commands.specs.Faults.{traces_differ};
ghost use Rattle.plan_text.specs.Sinks.{Writes};

use crate::images::verified_at;
use crate::replay_fault::printed_refusal;
use crate::replaying::trace_at;
use plan_machine::same_end;
use plan_printing::{PlanFault, no_memory, output_fault};
use plan_scope::Source;
use plan_text::{Items, Sink, write_all};
use plan_trace::Trace;
use plan_verify::Verified;
use std::alloc::Global;
use std::mem::forget;

/// The paths of an image and of two traces to compare.
#[derive(Clone, Copy)]
pub struct Compared<'a> {
    /// The path of the image.
    pub image: &'a [u8],
    /// The path of the first trace.
    pub first: &'a [u8],
    /// The path of the second trace.
    pub second: &'a [u8],
}

/// Creates the fault that two traces have different first lines, or that one of them has targets.
fn traces_differ(alloc: Global) -> PlanFault
    ensures { result ≡ traces_differ }
{
    PlanFault {
        number: 134,
        rest: Items::empty(alloc),
    }
}

/// Checks whether two traces have the same first line, and no targets.
fn are_comparable(first: &Trace, second: &Trace) -> bool
    ensures { result ≡ defined.are_comparable first.now second.now }
{
    let (one, other) = (first.options, second.options);
    (one.jobs() == other.jobs() && one.keep() == other.keep())
        && (has_none(first.targets.as_slice()) && has_none(second.targets.as_slice()))
}

/// Checks whether there are no targets.
fn has_none(targets: &[u32]) -> bool
    ensures { result ≡ defined.has_none targets.now }
{
    match targets {
        [] => true,
        _ => false,
    }
}

/// Replays two traces, and checks whether both runs have ended with the same outcomes and the same slots.
fn compare_runs(
    alloc: Global,
    image: &Verified,
    first: &Trace,
    second: &Trace,
) -> Result<bool, PlanFault>
    ensures compared { IfOk result (λ same. AreCompared image.now first.now second.now same) }
    ensures refused { IfErr result (λ fault. AreNotCompared image.now first.now second.now fault) }
{
    if !are_comparable(first, second) {
        return Err(traces_differ(alloc));
    }
    let (events, others) = (first.events.as_slice(), second.events.as_slice());
    match same_end(alloc, image, first.options, events, others) {
        Ok(same) => Ok(same),
        Err((event, refused)) => Err(printed_refusal(alloc, event, refused)),
    }
}

/// Reads the traces at two paths, and checks whether their runs have ended with the same outcomes and the same slots.
fn answer_of<S: Source>(
    alloc: Global,
    image: &Verified,
    firsts: &mut S,
    seconds: &mut S,
    paths: &Compared<'_>,
) -> Result<bool, PlanFault>
    ensures answer { IfOk result (λ same. IsAnswer image.now (S.gives firsts.old) paths.now.first.now (S.gives seconds.old) paths.now.second.now same) }
    ensures read { OnOk result ((S.failures firsts.new ≡ S.failures firsts.old) × (S.failures seconds.new ≡ S.failures seconds.old)) }
    ensures refused { let no_first = IsMissing (S.gives firsts.old) (S.fails firsts.old) (S.failures firsts.old) (S.failures firsts.new) in
        let no_second = IsMissing (S.gives seconds.old) (S.fails seconds.old) (S.failures seconds.old) (S.failures seconds.new) in
        IfErr result (λ fault. LacksAnswer image.now (S.gives firsts.old) no_first paths.now.first.now (S.gives seconds.old) no_second paths.now.second.now fault) }
{
    let first = match trace_at(alloc, firsts, paths.first) {
        Ok(trace) => trace,
        Err(fault) => return Err(fault),
    };
    let second = match trace_at(alloc, seconds, paths.second) {
        Ok(trace) => trace,
        Err(fault) => return Err(fault),
    };
    let same = compare_runs(alloc, image, &first, &second);
    // The memory isn't freed, since the program ends soon.
    forget(first);
    forget(second);
    same
}

/// Writes `same` or `different`, and returns the status: 0 if the runs are the same, otherwise 1.
fn write_answer<W: Sink>(alloc: Global, same: bool, out: &mut W) -> Result<u8, PlanFault>
    ensures done { IfOk result (λ status. (status ≡ defined.answer_status same) × Writes true (W.failures out.old, W.taken out.old) (W.failures out.new, W.taken out.new) (defined.answer_line same)) }
    ensures refused { IfErr result (λ fault. ((out.new ≡ out.old) × (fault ≡ no_memory))
        ⊎ (Writes false (W.failures out.old, W.taken out.old) (W.failures out.new, W.taken out.new) (defined.answer_line same) × (fault ≡ output_fault))) }
{
    let Ok(failed) = output_fault(alloc) else {
        return Err(no_memory(alloc));
    };
    let line = if same {
        b"same\n".as_slice()
    } else {
        b"different\n".as_slice()
    };
    match write_all(out, line) {
        Ok(()) => Ok(if same { 0 } else { 1 }),
        Err(_) => Err(failed),
    }
}

/// Replays two traces of an image. Writes `same` if both runs have ended with the same outcomes and the same slots,
/// otherwise `different`. Skipped edges are the same, whichever edge they name. Returns the status: 0 for `same`, 1 for
/// `different`. Then no read and no write failed.
///
/// If any number of failures is allowed, and each edge got the same replies in both traces, two runs that have ended
/// are the same.
///
/// # Errors
/// The first that applies, with the cause and the place. Nothing is written, except if a write fails.
/// - The image is missing, isn't an image, or fails a check.
/// - The first trace is missing or isn't a trace, or else the second one.
/// - 134: the first lines of the traces differ, or one has targets.
/// - 110: an event isn't enabled.
/// - 133 ` -`: a write failed.
/// - 131 or the number of a lower layer, at any time: memory ran out.
pub fn do_compare<S: Source, W: Sink>(
    alloc: Global,
    images: &mut S,
    firsts: &mut S,
    seconds: &mut S,
    paths: &Compared<'_>,
    out: &mut W,
) -> Result<u8, PlanFault>
    ensures done { IfOk result (λ status. Compares (S.gives images.old) paths.now.image.now (S.gives firsts.old) paths.now.first.now (S.gives seconds.old) paths.now.second.now (W.failures out.old, W.taken out.old) (W.failures out.new, W.taken out.new) status) }
    ensures read { OnOk result ((S.failures images.new ≡ S.failures images.old) × ((S.failures firsts.new ≡ S.failures firsts.old) × (S.failures seconds.new ≡ S.failures seconds.old))) }
    ensures refused { let no_image = IsMissing (S.gives images.old) (S.fails images.old) (S.failures images.old) (S.failures images.new) in
        let no_first = IsMissing (S.gives firsts.old) (S.fails firsts.old) (S.failures firsts.old) (S.failures firsts.new) in
        let no_second = IsMissing (S.gives seconds.old) (S.fails seconds.old) (S.failures seconds.old) (S.failures seconds.new) in
        IfErr result (λ fault. ((out.new ≡ out.old) × IsNotAnswered (S.gives images.old) no_image paths.now.image.now (S.gives firsts.old) no_first paths.now.first.now (S.gives seconds.old) no_second paths.now.second.now fault)
        ⊎ FailsToAnswer (S.gives images.old) paths.now.image.now (S.gives firsts.old) paths.now.first.now (S.gives seconds.old) paths.now.second.now (W.failures out.old, W.taken out.old) (W.failures out.new, W.taken out.new) fault) }
{
    let image = match verified_at(alloc, images, paths.image) {
        Ok(image) => image,
        Err(fault) => return Err(fault),
    };
    let answer = answer_of(alloc, &image, firsts, seconds, paths);
    forget(image);
    match answer {
        Ok(same) => write_answer(alloc, same, out),
        Err(fault) => Err(fault),
    }
}
