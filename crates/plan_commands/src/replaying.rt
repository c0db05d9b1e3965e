//! The command `replay`.

ghost use Rattle.std.specs.Prelude.{◌≡◌, ◌⊎◌, None, IfOk, IfErr, OnOk};
ghost use Rattle.std.specs.Result.{result_err};
ghost use Rattle.plan_scope.specs.Loading.{IsMissing};
ghost use Rattle.plan_machine.specs.Kept.{IsStateOf};
ghost use Rattle.plan_machine.specs.Replaying.{IsReplayFault};
ghost use Rattle.plan_status.specs.Printing.{Prints};
ghost use Rattle.plan_printing.specs.Faults as defined;
ghost use Rattle.plan_commands.specs.Replaying.{FailsToReplay, FailsToTell, IsNotReplayed, IsRun, IsTraceAt, LacksRun, LacksTrace, Replays, StopsTelling, Tells, TellsNoEvents, run_status, run_text};

use crate::images::verified_at;
use crate::replay_fault::{printed_refusal, trace_fault};
use plan_machine::{Mark, State, replay};
use plan_printing::{PlanFault, file_fault, no_memory, output_fault};
use plan_scope::{Source, SourceFault};
use plan_status::{PrintFault, all_done, print, print_outcomes, prints_join};
use plan_text::Sink;
use plan_trace::{Trace, TraceFault, read_trace};
use plan_verify::Verified;
use std::alloc::Global;
use std::mem::forget;

/// Reads the trace at a path. Frees the bytes of the file.
pub(crate) fn trace_at<S: Source>(
    alloc: Global,
    source: &mut S,
    path: &[u8],
) -> Result<Trace, PlanFault>
    ensures trace { IfOk result (λ trace. IsTraceAt (S.gives source.old) path.now trace) }
    ensures read { OnOk result (S.failures source.new ≡ S.failures source.old) }
    ensures refused { let missing = IsMissing (S.gives source.old) (S.fails source.old) (S.failures source.old) (S.failures source.new) in
        IfErr result (λ fault. LacksTrace (S.gives source.old) missing path.now fault) }
{
    let text = match source.read(alloc, path) {
        Ok(text) => text,
        Err(SourceFault::Memory) => return Err(no_memory(alloc)),
        Err(SourceFault::Missing | SourceFault::Failed) => return Err(file_fault(alloc, path)),
    };
    match read_trace(alloc, &text) {
        Ok(trace) => Ok(trace),
        Err(TraceFault::BadTrace(line)) => Err(trace_fault(alloc, line)),
        Err(TraceFault::Memory) => Err(no_memory(alloc)),
    }
}

/// Replays a trace of an image, and returns the state at its end and its marks.
fn run_of(alloc: Global, image: &Verified, trace: &Trace) -> Result<(State, Vec<Mark>), PlanFault>
    ensures run { IfOk result (λ x. IsRun image.now trace.now x.1.items x.0.run_state.now) }
    ensures state { IfOk result (λ x. IsStateOf image.now x.0) }
    ensures refused { IfErr result (λ fault. TellsNoEvents image.now trace.now fault ⊎ (fault ≡ defined.no_memory)) }
{
    let targets = trace.targets.as_slice();
    match replay(
        alloc,
        image,
        trace.options,
        targets,
        trace.events.as_slice(),
    ) {
        Ok(run) => Ok(run),
        Err((event, refused)) => Err(printed_refusal(alloc, event, refused)),
    }
}

/// Writes the status lines of a run, and then the outcome of each edge.
fn print_run<W: Sink>(
    alloc: Global,
    image: &Verified,
    state: &State,
    marks: &[Mark],
    out: &mut W,
) -> Result<(), PrintFault>
    requires { IsStateOf image.now state.now }
    ensures { Prints (run_text image.now marks.now state.now.run_state.now) (result_err result) (W.failures out.old, W.taken out.old) (W.failures out.new, W.taken out.new) }
{
    prints_join();
    match print(alloc, image, state.total(), marks, out) {
        Ok(()) => print_outcomes(alloc, image, state, out),
        Err(fault) => Err(fault),
    }
}

/// Returns the status: 0 if all wanted edges succeeded, otherwise 1.
fn status_of(image: &Verified, state: &State) -> u8
    ensures { result ≡ run_status image.now state.now.run_state.now }
{
    if all_done(image, state) { 0 } else { 1 }
}

/// Writes the status lines and the outcomes of a run, and returns the status.
fn tell_run<W: Sink>(
    alloc: Global,
    image: &Verified,
    state: &State,
    marks: &[Mark],
    out: &mut W,
) -> Result<u8, PlanFault>
    requires { IsStateOf image.now state.now }
    ensures done { IfOk result (λ status. (status ≡ run_status image.now state.now.run_state.now)
        × Prints (run_text image.now marks.now state.now.run_state.now) None (W.failures out.old, W.taken out.old) (W.failures out.new, W.taken out.new)) }
    ensures stopped { IfErr result (λ fault. StopsTelling (run_text image.now marks.now state.now.run_state.now) (W.failures out.old, W.taken out.old) (W.failures out.new, W.taken out.new) fault) }
{
    let Ok(failed) = output_fault(alloc) else {
        return Err(no_memory(alloc));
    };
    match print_run(alloc, image, state, marks, out) {
        Ok(()) => Ok(status_of(image, state)),
        Err(PrintFault::Write) => Err(failed),
        Err(PrintFault::Memory) => Err(no_memory(alloc)),
    }
}

/// Replays the trace at a path with the image. Writes the status lines and the outcomes of the run, and returns the
/// status.
fn tell<S: Source, W: Sink>(
    alloc: Global,
    image: &Verified,
    source: &mut S,
    path: &[u8],
    out: &mut W,
) -> Result<u8, PlanFault>
    ensures done { IfOk result (λ status. Tells image.now (S.gives source.old) path.now (W.failures out.old, W.taken out.old) (W.failures out.new, W.taken out.new) status) }
    ensures read { OnOk result (S.failures source.new ≡ S.failures source.old) }
    ensures refused { let missing = IsMissing (S.gives source.old) (S.fails source.old) (S.failures source.old) (S.failures source.new) in
        IfErr result (λ fault. ((out.new ≡ out.old) × LacksRun image.now (S.gives source.old) missing path.now fault)
        ⊎ FailsToTell image.now (S.gives source.old) path.now (W.failures out.old, W.taken out.old) (W.failures out.new, W.taken out.new) fault) }
{
    let trace = trace_at(alloc, source, path)?;
    let (state, marks) = run_of(alloc, image, &trace)?;
    let told = tell_run(alloc, image, &state, &marks, out);
    // The memory isn't freed, since the program ends soon.
    forget(trace);
    forget(state);
    told
}

/// Replays a trace of an image. Writes the status lines of the run, and then the outcome of each edge. Returns the
/// status: 0 if all wanted edges succeeded, otherwise 1. Then no read and no write failed. The run follows the rules of
/// the machine: none of its events went wrong, its marks are orderly, and the number of its events is bounded.
///
/// # Errors
/// - The image is missing, isn't an image, or fails a check: the fault has the cause and the place. Nothing is written.
/// - The trace is missing or isn't a trace, one of its events isn't enabled, or one of its targets isn't an edge: the
///   fault has the cause and the place. Nothing is written.
/// - 133 ` -`: a write failed.
/// - 131 or the number of a lower layer: memory ran out.
pub fn do_replay<S: Source, W: Sink>(
    alloc: Global,
    images: &mut S,
    image: &[u8],
    traces: &mut S,
    trace: &[u8],
    out: &mut W,
) -> Result<u8, PlanFault>
    ensures done { IfOk result (λ status. Replays (S.gives images.old) image.now (S.gives traces.old) trace.now (W.failures out.old, W.taken out.old) (W.failures out.new, W.taken out.new) status) }
    ensures read { OnOk result ((S.failures images.new ≡ S.failures images.old) × (S.failures traces.new ≡ S.failures traces.old)) }
    ensures refused { let no_image = IsMissing (S.gives images.old) (S.fails images.old) (S.failures images.old) (S.failures images.new) in
        let no_trace = IsMissing (S.gives traces.old) (S.fails traces.old) (S.failures traces.old) (S.failures traces.new) in
        IfErr result (λ fault. ((out.new ≡ out.old) × IsNotReplayed (S.gives images.old) no_image image.now (S.gives traces.old) no_trace trace.now fault)
        ⊎ FailsToReplay (S.gives images.old) image.now (S.gives traces.old) trace.now (W.failures out.old, W.taken out.old) (W.failures out.new, W.taken out.new) fault) }
{
    let image = verified_at(alloc, images, image)?;
    let told = tell(alloc, &image, traces, trace, out);
    forget(image);
    told
}
