//! The command `run`.

ghost use Rattle.std.specs.Prelude.{◌≡◌, ◌⊎◌, Bool, Err, IfErr, IfNone, IfOk, IfSome, OnOk, Some, map, option_map, true};
ghost use Rattle.std.specs.Result.{result_err};
ghost use Rattle.plan_scope.specs.Loading.{IsMissing};
ghost use Rattle.plan_machine.specs.Kept.{IsStateOf};
ghost use Rattle.plan_machine.specs.State.{has_ended};
ghost use Rattle.plan_status.specs.Printing.{Prints};
ghost use Rattle.plan_lanes.specs.Faults as faults;
ghost use Rattle.plan_lanes.specs.Reports.{IsKeptBy, IsRunOf};
ghost use Rattle.plan_printing.specs.Faults.{no_memory};
ghost use Rattle.plan_commands.specs.Images.{SinkState};
ghost use Rattle.plan_commands.specs.Running as defined;
ghost use Rattle.plan_commands.specs.Running.{FailsToRun, IsKeptFor, IsNotBegun, IsOpened, Runs, Tells, TellsAll, Traces, WritesTrace, lines_in};

use crate::images::verified_by;
use crate::printed_runs::{Printer, RunResult, report_of, run_and_show};
use crate::targets::targets_of;
use plan_lanes::{Journaled, LaneFault, Report, World};
use plan_machine::Options;
use plan_printing::{PlanFault, file_fault, lost_output, no_memory};
use plan_scope::Source;
use plan_status::{PrintFault, StatusLines, all_done, lines_are_printed};
use plan_text::{Items, Sink};
use plan_trace::write_run;
use plan_verify::Verified;
use std::alloc::Global;
use std::mem::forget;
use std::sync::Wait;
use std::thread::{Parker, Threads};

/// A request to run an image.
#[derive(Clone, Copy)]
pub struct Build<'a> {
    /// The path of the image.
    pub image: &'a [u8],
    /// The number of commands that may run at once, and the number of failures after which no further command starts.
    pub options: Options,
    /// The names of the targets. If there are none, the defaults of the image are built.
    pub targets: &'a [&'a [u8]],
    /// The path of the file for the trace of the run, if a trace is written.
    pub trace: Option<&'a [u8]>,
}

/// Converts the reason why a text wasn't printed into the fault of the program.
pub fn printed_print_fault(alloc: Global, fault: PrintFault) -> PlanFault
    ensures { (result ≡ defined.printed_print_fault fault) ⊎ (result ≡ no_memory) }
{
    match fault {
        PrintFault::Memory => no_memory(alloc),
        PrintFault::Write => lost_output(alloc),
    }
}

/// Returns the status of a run that has ended, if its lines were printed.
fn tell(
    alloc: Global,
    image: &Verified,
    report: &Report,
    printed: Result<(), PrintFault>,
) -> Result<u8, PlanFault>
    requires { IsStateOf image.now report.now.state }
    ensures { (old new : SinkState) → Prints (lines_in image.now report.now) (result_err printed) old new → Tells image.now report.now old new result }
{
    match printed {
        Ok(()) => Ok(if all_done(image, &report.state) { 0 } else { 1 }),
        Err(fault) => Err(printed_print_fault(alloc, fault)),
    }
}

/// Writes the trace of a run of these targets to the file at a path. Writing takes no memory, so this fails only if a
/// write fails.
fn traced_at<T: Sink>(
    alloc: Global,
    path: &[u8],
    options: Options,
    targets: &[u32],
    report: &Report,
    trace: &mut T,
) -> Result<(), PlanFault>
    requires { report.now.kept ≡ Some report.now.journal }
    ensures { WritesTrace (Some path.now) options targets.now report.now (T.failures trace.old, T.taken trace.old) (T.failures trace.new, T.taken trace.new) result }
{
    let Some(journal) = &report.kept else {
        unreachable!()
    };
    match write_run(options, targets, journal, trace) {
        Ok(()) => Ok(()),
        Err(_) => Err(file_fault(alloc, path)),
    }
}

/// Writes the trace of a run of these targets, if the run is to have one.
fn write_trace_of<T: Sink>(
    alloc: Global,
    build: &Build<'_>,
    targets: &[u32],
    report: &Report,
    trace: &mut T,
) -> Result<(), PlanFault>
    requires { IsKeptFor (option_map (λ t. t.now) build.now.trace) report.now }
    ensures { WritesTrace (option_map (λ t. t.now) build.now.trace) build.now.options targets.now report.now (T.failures trace.old, T.taken trace.old) (T.failures trace.new, T.taken trace.new) result }
{
    match build.trace {
        Some(path) => traced_at(alloc, path, build.options, targets, report, trace),
        None => Ok(()),
    }
}

/// Writes the trace of a run that has ended, and returns its status.
fn tell_all<T: Sink>(
    alloc: Global,
    build: &Build<'_>,
    image: &Verified,
    targets: &[u32],
    report: &Report,
    printed: Result<(), PrintFault>,
    trace: &mut T,
) -> Result<u8, PlanFault>
    requires state { IsStateOf image.now report.now.state }
    requires kept { IsKeptFor (option_map (λ t. t.now) build.now.trace) report.now }
    ensures { (old new : SinkState) → Prints (lines_in image.now report.now) (result_err printed) old new → TellsAll (option_map (λ t. t.now) build.now.trace) image.now build.now.options targets.now report.now
        (old, (T.failures trace.old, T.taken trace.old)) (new, (T.failures trace.new, T.taken trace.new)) result }
{
    let told = tell(alloc, image, report, printed);
    match (told, write_trace_of(alloc, build, targets, report, trace)) {
        (Ok(_), Err(fault)) => Err(fault),
        (told, _) => told,
    }
}

/// Converts a fault of lanes into the fault of the program.
pub fn printed_lane_fault(alloc: Global, fault: &LaneFault) -> PlanFault
    ensures { result ≡ defined.printed_lane_fault fault.now }
{
    PlanFault {
        number: fault.number(),
        rest: Items::empty(alloc),
    }
}

/// The greatest number of threads that verify an image.
const MOST_VERIFIERS: u16 = 64;

/// Returns the number of threads that verify an image: as many as commands may run at once, but at most 64.
fn verifiers_for(jobs: u16) -> u8 {
    u8::try_from(jobs.min(MOST_VERIFIERS)).unwrap_or(1)
}

/// Reads the image at a path, and finds the edges that make the targets. Verifies the image with as many threads as
/// commands may run at once, but at most 64.
fn opened_at<S: Source, R: Threads + Sync>(
    rt: &R,
    alloc: Global,
    source: &mut S,
    build: &Build<'_>,
) -> Result<(Verified, Vec<u32>), PlanFault>
    ensures opened { let wanted = defined.wanted build.now.image.now build.now.options (map (λ n. n.now) build.now.targets.now) (option_map (λ t. t.now) build.now.trace) in
        IfOk result (λ x. IsOpened (S.gives source.old) wanted (record { parts = x.0; limits = build.now.options; targets = x.1.items })) }
    ensures read { OnOk result (S.failures source.new ≡ S.failures source.old) }
    ensures refused { let missing = IsMissing (S.gives source.old) (S.fails source.old) (S.failures source.old) (S.failures source.new) in
        let wanted = defined.wanted build.now.image.now build.now.options (map (λ n. n.now) build.now.targets.now) (option_map (λ t. t.now) build.now.trace) in
        IfErr result (λ fault. IsNotBegun (S.gives source.old) missing wanted fault) }
{
    let threads = verifiers_for(build.options.jobs());
    let image = match verified_by(rt, alloc, threads, source, build.image) {
        Ok(image) => image,
        Err(fault) => return Err(fault),
    };
    match targets_of(alloc, image.image(), build.targets) {
        Ok(targets) => Ok((image, targets)),
        Err(fault) => {
            forget(image);
            Err(fault)
        }
    }
}

/// Writes the trace of a run that has ended or has stopped. Returns its status, or the fault that stopped it.
#[tactic(auto, using(crate::proofs::RunningLemmas::kept_of))]
fn finish_run<T: Sink>(
    alloc: Global,
    build: &Build<'_>,
    image: &Verified,
    targets: &[u32],
    run_result: &RunResult,
    trace: &mut T,
) -> Result<u8, PlanFault>
    requires ok { IfOk run_result.now.ran (λ r. IsStateOf image.now r.state) }
    requires kept { IfSome (defined.report_in run_result.now.ran) (λ r. IsKeptFor (option_map (λ t. t.now) build.now.trace) r) }
    ensures ended { IfOk run_result.now.ran (λ r. (old new : SinkState) → Prints (lines_in image.now r) (result_err run_result.now.printed) old new → TellsAll (option_map (λ t. t.now) build.now.trace) image.now build.now.options targets.now r
        (old, (T.failures trace.old, T.taken trace.old)) (new, (T.failures trace.new, T.taken trace.new)) result) }
    ensures err { IfErr run_result.now.ran (λ f. result ≡ Err (defined.printed_lane_fault f)) }
    ensures some { IfErr run_result.now.ran (λ f. IfSome (faults.report_of f) (λ r. (whole : Bool) × Traces (option_map (λ t. t.now) build.now.trace) build.now.options targets.now r whole
        (T.failures trace.old, T.taken trace.old) (T.failures trace.new, T.taken trace.new))) }
    ensures none { IfErr run_result.now.ran (λ f. IfNone (faults.report_of f) (trace.new ≡ trace.old)) }
{
    match &run_result.ran {
        Ok(report) => tell_all(
            alloc,
            build,
            image,
            targets,
            report,
            run_result.printed,
            trace,
        ),
        Err(fault) => {
            if let Some(report) = report_of(fault) {
                let _traced = write_trace_of(alloc, build, targets, report, trace);
            }
            Err(printed_lane_fault(alloc, fault))
        }
    }
}

/// Runs an image, and prints its status lines while lanes work.
fn run_with_lines<W: World + Send + Sync, O: Sink + Send + Drop, R: Threads + Wait + Sync>(
    rt: &R,
    alloc: Global,
    image: &Verified,
    options: Options,
    targets: &[u32],
    world: &W,
    parker: &Parker,
    out: O,
) -> (RunResult, O)
    ensures run { IfOk result.0.ran (λ r. IsRunOf W.allows (record { parts = image.now; limits = options; targets = targets.now }) r) }
    ensures ended { IfOk result.0.ran (λ r. has_ended r.state.run_state.now ≡ true) }
    ensures fault { IfErr result.0.ran (λ f. faults.FaultReports W.allows (record { parts = image.now; limits = options; targets = targets.now }) f) }
    ensures printed { IfSome (defined.report_in result.0.ran) (λ r. Prints (lines_in image.now r) (result_err result.0.printed) (O.failures out, O.taken out) (O.failures result.1, O.taken result.1)) }
    ensures silent { IfNone (defined.report_in result.0.ran) (result.1 ≡ out) }
    ensures kept { IfSome (defined.report_in result.0.ran) (λ r. IsKeptBy W.keeps r) }
{
    lines_are_printed();
    let format = StatusLines::new();
    let printer = Printer { format, out };
    let (run_result, printer) = run_and_show(
        rt, alloc, image, options, targets, world, parker, printer,
    );
    let Printer { out, .. } = printer;
    (run_result, out)
}

/// Runs an image, and prints its lines while lanes work. Keeps the journal if the run is to have a trace.
#[tactic(auto, using(crate::proofs::RunningLemmas::nothing_kept))]
fn run_for_build<W: World + Send + Sync, O: Sink + Send + Drop, R: Threads + Wait + Sync>(
    rt: &R,
    alloc: Global,
    build: &Build<'_>,
    image: &Verified,
    targets: &[u32],
    world: &W,
    parker: &Parker,
    out: O,
) -> (RunResult, O)
    ensures run { IfOk result.0.ran (λ r. IsRunOf W.allows (record { parts = image.now; limits = build.now.options; targets = targets.now }) r) }
    ensures ended { IfOk result.0.ran (λ r. has_ended r.state.run_state.now ≡ true) }
    ensures fault { IfErr result.0.ran (λ f. faults.FaultReports W.allows (record { parts = image.now; limits = build.now.options; targets = targets.now }) f) }
    ensures printed { IfSome (defined.report_in result.0.ran) (λ r. Prints (lines_in image.now r) (result_err result.0.printed) (O.failures out, O.taken out) (O.failures result.1, O.taken result.1)) }
    ensures silent { IfNone (defined.report_in result.0.ran) (result.1 ≡ out) }
    ensures kept { IfSome (defined.report_in result.0.ran) (λ r. IsKeptFor (option_map (λ t. t.now) build.now.trace) r) }
{
    let options = build.options;
    match build.trace {
        Some(_) => {
            let journaled = Journaled::new(world);
            run_with_lines(rt, alloc, image, options, targets, &journaled, parker, out)
        }
        None => run_with_lines(rt, alloc, image, options, targets, world, parker, out),
    }
}

/// Runs the image at a path with as many threads as commands may run at once, and prints the status lines while they
/// work. Writes the trace if the run is to have one. Returns the status, and the sink. The status is 0 if all wanted
/// edges succeeded, otherwise 1. To print the lines that are ready, unpark `parker`.
///
/// If a run began, its whole trace is written, or a write of its file failed.
///
/// # Errors
/// - The image is missing or isn't accepted, or a target is unknown: the world isn't asked, and nothing is written.
/// - 110, 120 to 122: lanes stopped early. The lines of the work until then were printed, or a prefix of them.
/// - 133: a write of the lines (` -`) or of the trace failed.
/// - 111, 131 or the number of a lower layer: memory ran out.
pub fn do_run<
    S: Source,
    W: World + Send + Sync,
    O: Sink + Send + Drop,
    T: Sink,
    R: Threads + Wait + Sync,
>(
    rt: &R,
    alloc: Global,
    source: &mut S,
    build: &Build<'_>,
    world: &W,
    parker: &Parker,
    out: O,
    trace: &mut T,
) -> (Result<u8, PlanFault>, O)
    ensures done { let wanted = defined.wanted build.now.image.now build.now.options (map (λ n. n.now) build.now.targets.now) (option_map (λ t. t.now) build.now.trace) in
        IfOk result.0 (λ status. Runs (S.gives source.old) W.allows wanted
        ((O.failures out, O.taken out), (T.failures trace.old, T.taken trace.old)) ((O.failures result.1, O.taken result.1), (T.failures trace.new, T.taken trace.new)) status) }
    ensures read { OnOk result.0 (S.failures source.new ≡ S.failures source.old) }
    ensures refused { let missing = IsMissing (S.gives source.old) (S.fails source.old) (S.failures source.old) (S.failures source.new) in
        let wanted = defined.wanted build.now.image.now build.now.options (map (λ n. n.now) build.now.targets.now) (option_map (λ t. t.now) build.now.trace) in
        IfErr result.0 (λ fault. (((result.1 ≡ out) × (trace.new ≡ trace.old)) × IsNotBegun (S.gives source.old) missing wanted fault)
        ⊎ FailsToRun (S.gives source.old) W.allows wanted
        ((O.failures out, O.taken out), (T.failures trace.old, T.taken trace.old)) ((O.failures result.1, O.taken result.1), (T.failures trace.new, T.taken trace.new)) fault) }
{
    let (image, targets) = match opened_at(rt, alloc, source, build) {
        Ok(opened) => opened,
        Err(fault) => return (Err(fault), out),
    };
    let edges = targets.as_slice();
    let (run_result, out) = run_for_build(rt, alloc, build, &image, edges, world, parker, out);
    let status = finish_run(alloc, build, &image, edges, &run_result, trace);
    // The memory isn't freed, since the program ends soon.
    forget(run_result);
    forget(image);
    forget(targets);
    (status, out)
}
