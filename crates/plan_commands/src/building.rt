//! Builds the targets of a manifest: reads the manifest, remakes it if it is out of date, and runs its image.

ghost use Rattle.std.specs.Prelude.{◌≡◌, ◌⊎◌, IfErr, IfNone, IfOk, IfSome, None, OnOk, Ok, false, map, option_map, true, ◌∷◌, []};
ghost use Rattle.std.specs.Result.{result_err};
ghost use Rattle.plan_scope.specs.Loading.{IsMissing};
ghost use Rattle.plan_scope.specs.Sources.{SameFiles};
ghost use Rattle.plan_machine.specs.Kept.{IsStateOf};
ghost use Rattle.plan_machine.specs.State.{has_ended};
ghost use Rattle.plan_machine.specs.Wanted.{any_outside};
ghost use Rattle.plan_lanes.specs.Faults.{FaultReports};
ghost use Rattle.plan_lanes.specs.Reports.{IsRunOf};
ghost use Rattle.plan_printing.specs.Faults as faults;
ghost use Rattle.plan_commands.specs.Building as defined;
ghost use Rattle.plan_commands.specs.Building.{Builds, EndsAs, EndsRound, HasRun, HasRunNothing, IsLost, IsNotRead, IsNotRun, IsNotTried, IsReadAs, IsRoundOf, RoundStops, RunsTargets, Stops, TargetsStop};
ghost use Rattle.plan_commands.specs.NeededFiles.{HasSources};
ghost use Rattle.plan_commands.specs.Running.{EndsPrinted, report_in};
ghost use Rattle.plan_commands.specs.Showing.{IsShown, by_format};

use crate::commands::manifest_at;
use crate::explaining::{Explained, Explainer};
use crate::kept::Kept;
use crate::printed_runs::{Printer, RunResult, run_and_show};
use crate::recorded_image::{Prepared, image_recorded};
use crate::running::{printed_lane_fault, printed_print_fault};
use crate::sources::check_sources;
use crate::targets::targets_of;
use plan_image::{Image, edge_of};
use plan_lanes::{Report, World};
use plan_machine::{Options, Outcome};
use plan_printing::{PlanFault, no_memory};
use plan_scope::{Source, loaded_manifests_are_sound};
use plan_status::{Format, all_done};
use plan_text::{Sink, TextFault, canonical};
use plan_verify::Verified;
use std::alloc::Global;
use std::mem::forget;
use std::sync::Wait;
use std::thread::{Parker, Threads};

/// A request to build targets of a manifest.
#[derive(Clone, Copy)]
pub struct Order<'a> {
    /// The path of the manifest.
    pub manifest: &'a [u8],
    /// The number of commands that may run at once, and the number of failures after which no further command starts.
    pub options: Options,
    /// The names of the targets. If there are none, the defaults of the manifest are built.
    pub targets: &'a [&'a [u8]],
}

/// The end of a build.
#[derive(Clone, Copy, PartialEq, Eq)]
pub enum Done {
    /// All wanted edges succeeded, and the command of at least one edge ran.
    Built,
    /// All wanted edges were up to date: no command ran for the targets. Commands that remade the manifest don't count.
    UpToDate,
    /// A wanted edge failed, was skipped, or was stopped.
    Failed,
    /// The manifest isn't up to date: an edge that it needs failed, was skipped, or was stopped. The targets weren't
    /// run.
    ManifestFails,
    /// The manifest was remade 100 times, and may still be out of date. The targets weren't run.
    NeverSettles,
}

impl Done {
    /// Returns the exit status: 0 if all wanted edges succeeded, otherwise 1.
    pub fn status(self) -> u8
        ensures { result ≡ defined.exit_status self }
    {
        match self {
            Done::Built | Done::UpToDate => 0,
            Done::Failed | Done::ManifestFails | Done::NeverSettles => 1,
        }
    }
}

/// The largest number of times that a manifest is remade.
const MOST_ROUNDS: u32 = 100;

/// Returns the path of the manifest if no targets are named.
fn path_of_all<'a>(order: &Order<'a>) -> Option<&'a [u8]>
    ensures { option_map (λ p. p.now) result ≡ defined.path_of_all (defined.asked order.now.manifest.now order.now.options (map (λ n. n.now) order.now.targets.now)) }
{
    match order.targets {
        [] => Some(order.manifest),
        [_first, ..] => None,
    }
}

/// Reads the manifest of an order, adds what the record adds to it, and returns its image, unless nothing is to do. Keeps
/// the parts of the manifest that the build needs.
fn read_image<S: Source, W: World + Send + Sync, R: Threads + Sync>(
    rt: &R,
    alloc: Global,
    source: &mut S,
    order: &Order<'_>,
    world: &W,
    kept: &mut Kept,
) -> Result<Prepared, PlanFault>
    ensures read { let a = defined.asked order.now.manifest.now order.now.options (map (λ n. n.now) order.now.targets.now) in
        IfOk result (λ x. IsReadAs (S.gives source.old) W.allows a x) }
    ensures whole { OnOk result (S.failures source.new ≡ S.failures source.old) }
    ensures same { SameFiles (S.gives source.new) (S.fails source.new) (S.gives source.old) (S.fails source.old) }
    ensures refused { let missing = IsMissing (S.gives source.old) (S.fails source.old) (S.failures source.old) (S.failures source.new) in
        IfErr result (λ fault. IsNotRead (S.gives source.old) missing W.allows order.now.manifest.now fault) }
{
    let mut manifest = match manifest_at(alloc, source, order.manifest) {
        Ok(manifest) => manifest,
        Err(fault) => return Err(fault),
    };
    loaded_manifests_are_sound::<S>();
    let prepared = image_recorded(rt, alloc, world, &mut manifest, path_of_all(order));
    kept.keep::<W>(alloc, manifest);
    prepared
}

/// Returns the edge that makes the manifest at this path, if there is one.
fn maker_of(alloc: Global, image: &Image, path: &[u8]) -> Result<Option<u32>, PlanFault>
    ensures maker { IfOk result (λ m. m ≡ defined.maker_of image.now path.now) }
    ensures memory { IfErr result (λ fault. fault ≡ faults.no_memory) }
{
    let path = match canonical(alloc, path) {
        Ok(path) => path,
        Err(TextFault::Memory) => return Err(no_memory(alloc)),
        Err(_) => return Ok(None),
    };
    Ok(edge_of(image, &path))
}

/// Returns the report of a run that has ended, if all its marks were printed.
fn printed_run(alloc: Global, run_result: RunResult) -> Result<Report, PlanFault>
    ensures done { IfOk result (λ r. (run_result.ran ≡ Ok r) × (result_err run_result.printed ≡ None)) }
    ensures fault { IfErr result (λ fault. IsLost run_result.ran (result_err run_result.printed) fault) }
{
    match (run_result.ran, run_result.printed) {
        (Ok(report), Ok(())) => Ok(report),
        (Ok(report), Err(fault)) => {
            forget(report);
            Err(printed_print_fault(alloc, fault))
        }
        (Err(stopped), _) => {
            let fault = printed_lane_fault(alloc, &stopped);
            forget(stopped);
            Err(fault)
        }
    }
}

/// Runs an image like `run_and_show`. If there is an explainer, the world gets the reason of each command.
fn run_explained<
    W: World + Send + Sync,
    F: Format + Send + Drop,
    O: Sink + Send + Drop,
    R: Threads + Wait + Sync,
>(
    rt: &R,
    alloc: Global,
    image: &Verified,
    options: Options,
    edges: &[u32],
    world: &W,
    explainer: Option<&Explainer>,
    parker: &Parker,
    printer: Printer<F, O>,
) -> (RunResult, Printer<F, O>)
    ensures run { IfOk result.0.ran (λ r. IsRunOf W.allows (defined.opened image.now options edges.now) r) }
    ensures ended { IfOk result.0.ran (λ r. has_ended r.state.run_state.now ≡ true) }
    ensures fault { IfErr result.0.ran (λ f. FaultReports W.allows (defined.opened image.now options edges.now) f) }
    ensures printed { (kept : F.Kept) → F.kept printer.format ≡ kept
        → IfSome (report_in result.0.ran) (λ r. IsShown (by_format F.kept F.tells kept) image.now r (result_err result.0.printed) (O.failures printer.out, O.taken printer.out) (O.failures result.1.out, O.taken result.1.out)) }
    ensures silent { IfNone (report_in result.0.ran) (result.1.out ≡ printer.out) }
    ensures format { F.kept result.1.format ≡ F.kept printer.format }
{
    match explainer {
        Some(explainer) => {
            let explained = Explained::new(alloc, world, explainer);
            run_and_show(
                rt, alloc, image, options, edges, &explained, parker, printer,
            )
        }
        None => run_and_show(rt, alloc, image, options, edges, world, parker, printer),
    }
}

/// The numbers of the fault that a source is missing: one that the targets need, and one that the manifest needs.
const TARGET_SOURCE: u8 = 135;

const MAKER_SOURCE: u8 = 136;

/// Runs an image for the given edges, prints its marks, and returns its report and the printer.
fn run_edges<
    W: World + Send + Sync,
    F: Format + Send + Drop,
    O: Sink + Send + Drop,
    R: Threads + Wait + Sync,
>(
    rt: &R,
    alloc: Global,
    image: &Verified,
    options: Options,
    edges: &[u32],
    world: &W,
    explainer: Option<&Explainer>,
    parker: &Parker,
    printer: Printer<F, O>,
) -> (Result<Report, PlanFault>, Printer<F, O>)
    requires { any_outside image.now edges.now ≡ false }
    ensures ran { (kept : F.Kept) → F.kept printer.format ≡ kept → IfOk result.0 (λ r. EndsPrinted (by_format F.kept F.tells kept) W.allows (defined.opened image.now options edges.now) r (O.failures printer.out, O.taken printer.out) (O.failures result.1.out, O.taken result.1.out)) }
    ensures refused { (kept : F.Kept) → F.kept printer.format ≡ kept → IfErr result.0 (λ fault. IsNotRun (by_format F.kept F.tells kept) W.allows (defined.opened image.now options edges.now) (O.failures printer.out, O.taken printer.out) (O.failures result.1.out, O.taken result.1.out) fault) }
    ensures state { IfOk result.0 (λ r. IsStateOf image.now r.state) }
    ensures format { F.kept result.1.format ≡ F.kept printer.format }
{
    let (run_result, printer) = run_explained(
        rt, alloc, image, options, edges, world, explainer, parker, printer,
    );
    (printed_run(alloc, run_result), printer)
}

/// Runs an image for the given edges like `run_edges`, if no source is missing that they need. Otherwise returns the
/// fault of this number, and prints nothing.
fn run_with_sources<
    W: World + Send + Sync,
    F: Format + Send + Drop,
    O: Sink + Send + Drop,
    R: Threads + Wait + Sync,
>(
    rt: &R,
    alloc: Global,
    image: &Verified,
    options: Options,
    edges: &[u32],
    number: u8,
    world: &W,
    explainer: Option<&Explainer>,
    parker: &Parker,
    printer: Printer<F, O>,
) -> (Result<Report, PlanFault>, Printer<F, O>)
    requires { any_outside image.now edges.now ≡ false }
    ensures ran { (kept : F.Kept) → F.kept printer.format ≡ kept → IfOk result.0 (λ r. EndsPrinted (by_format F.kept F.tells kept) W.allows (defined.opened image.now options edges.now) r (O.failures printer.out, O.taken printer.out) (O.failures result.1.out, O.taken result.1.out)) }
    ensures sources { OnOk result.0 (HasSources W.allows image.now edges.now) }
    ensures refused { (kept : F.Kept) → F.kept printer.format ≡ kept → IfErr result.0 (λ fault. IsNotTried number (by_format F.kept F.tells kept) W.allows (defined.opened image.now options edges.now) (O.failures printer.out, O.taken printer.out) (O.failures result.1.out, O.taken result.1.out) fault) }
    ensures state { IfOk result.0 (λ r. IsStateOf image.now r.state) }
    ensures format { F.kept result.1.format ≡ F.kept printer.format }
{
    match check_sources(rt, alloc, image, edges, world, number) {
        Ok(()) => run_edges(
            rt, alloc, image, options, edges, world, explainer, parker, printer,
        ),
        Err(fault) => (Err(fault), printer),
    }
}

/// The end of a round.
pub(crate) enum Round {
    /// The manifest was remade. It has to be read again.
    Remade,
    /// The manifest's maker, or an edge that the maker needs, did not succeed.
    Failed,
    /// The manifest is up to date. This is its image.
    UpToDate(Verified),
    /// The manifest and all its default targets are up to date.
    NothingToDo,
}

/// Returns how a round ended, from the report of the run of the manifest's maker.
fn round_of(image: Verified, maker: u32, report: Report) -> Round
    requires { IsStateOf image report.state }
    ensures { IsRoundOf image maker report result }
{
    let well = all_done(&image, &report.state);
    let ran = report.state.outcome(maker) == Some(Outcome::Ran);
    forget(report);
    if !well {
        forget(image);
        return Round::Failed;
    }
    if !ran {
        return Round::UpToDate(image);
    }
    forget(image);
    Round::Remade
}

/// Reads the manifest, and runs the edge that makes it, if there is one, unless nothing is to do. Returns how the round
/// ended.
pub(crate) fn update_manifest<
    S: Source,
    W: World + Send + Sync,
    F: Format + Send + Drop,
    O: Sink + Send + Drop,
    R: Threads + Wait + Sync,
>(
    rt: &R,
    alloc: Global,
    source: &mut S,
    order: &Order<'_>,
    world: &W,
    kept: &mut Kept,
    parker: &Parker,
    printer: Printer<F, O>,
) -> (Result<Round, PlanFault>, Printer<F, O>)
    ensures round { let a = defined.asked order.now.manifest.now order.now.options (map (λ n. n.now) order.now.targets.now) in
        (kept : F.Kept) → F.kept printer.format ≡ kept → IfOk result.0 (λ r. EndsRound (S.gives source.old) (by_format F.kept F.tells kept) W.allows a (O.failures printer.out, O.taken printer.out) (O.failures result.1.out, O.taken result.1.out) r) }
    ensures whole { OnOk result.0 (S.failures source.new ≡ S.failures source.old) }
    ensures same { SameFiles (S.gives source.new) (S.fails source.new) (S.gives source.old) (S.fails source.old) }
    ensures refused { let a = defined.asked order.now.manifest.now order.now.options (map (λ n. n.now) order.now.targets.now) in
        let missing = IsMissing (S.gives source.old) (S.fails source.old) (S.failures source.old) (S.failures source.new) in
        (kept : F.Kept) → F.kept printer.format ≡ kept → IfErr result.0 (λ fault. RoundStops (S.gives source.old) missing (by_format F.kept F.tells kept) W.allows a (O.failures printer.out, O.taken printer.out) (O.failures result.1.out, O.taken result.1.out) fault) }
    ensures format { F.kept result.1.format ≡ F.kept printer.format }
{
    let image = match read_image::<S, W, R>(rt, alloc, source, order, world, kept) {
        Ok(Prepared::Image(image)) => image,
        Ok(Prepared::NothingToDo) => return (Ok(Round::NothingToDo), printer),
        Err(fault) => return (Err(fault), printer),
    };
    let maker = match maker_of(alloc, image.image(), order.manifest) {
        Ok(Some(maker)) => maker,
        Ok(None) => return (Ok(Round::UpToDate(image)), printer),
        Err(fault) => {
            forget(image);
            return (Err(fault), printer);
        }
    };
    let (ran, printer) = run_with_sources(
        rt,
        alloc,
        &image,
        order.options,
        &[maker],
        MAKER_SOURCE,
        world,
        kept.explainer(),
        parker,
        printer,
    );
    match ran {
        Ok(report) => (Ok(round_of(image, maker, report)), printer),
        Err(fault) => {
            forget(image);
            (Err(fault), printer)
        }
    }
}

/// Checks whether at least one edge of the image ran its command and succeeded in this run.
fn has_run(image: &Verified, report: &Report) -> bool
    requires { IsStateOf image.now report.now.state }
    ensures ran { result ≡ true → HasRun report.now }
    ensures idle { result ≡ false → HasRunNothing report.now }
{
    for edge in 0..image.image().parts().edges.len() {
        if report.state.outcome(edge as u32) == Some(Outcome::Ran) {
            return true;
        }
    }
    false
}

/// Returns how a build ends, from the report of its last run.
fn end_of(image: &Verified, report: &Report) -> Done
    requires { IsStateOf image.now report.now.state }
    ensures { EndsAs image.now report.now result }
{
    if !all_done(image, &report.state) {
        return Done::Failed;
    }
    if has_run(image, report) {
        return Done::Built;
    }
    Done::UpToDate
}

/// Builds the targets with the image of a manifest that is up to date, and returns how the build ended.
pub(crate) fn build_targets<
    W: World + Send + Sync,
    F: Format + Send + Drop,
    O: Sink + Send + Drop,
    R: Threads + Wait + Sync,
>(
    rt: &R,
    alloc: Global,
    image: Verified,
    order: &Order<'_>,
    world: &W,
    explainer: Option<&Explainer>,
    parker: &Parker,
    printer: Printer<F, O>,
) -> (Result<Done, PlanFault>, Printer<F, O>)
    ensures done { let a = defined.asked order.now.manifest.now order.now.options (map (λ n. n.now) order.now.targets.now) in
        (kept : F.Kept) → F.kept printer.format ≡ kept → IfOk result.0 (λ d. RunsTargets (by_format F.kept F.tells kept) W.allows a image (O.failures printer.out, O.taken printer.out) (O.failures result.1.out, O.taken result.1.out) d) }
    ensures refused { let a = defined.asked order.now.manifest.now order.now.options (map (λ n. n.now) order.now.targets.now) in
        (kept : F.Kept) → F.kept printer.format ≡ kept → IfErr result.0 (λ fault. TargetsStop (by_format F.kept F.tells kept) W.allows a image (O.failures printer.out, O.taken printer.out) (O.failures result.1.out, O.taken result.1.out) fault) }
    ensures format { F.kept result.1.format ≡ F.kept printer.format }
{
    let edges = match targets_of(alloc, image.image(), order.targets) {
        Ok(edges) => edges,
        Err(fault) => {
            forget(image);
            return (Err(fault), printer);
        }
    };
    let (ran, printer) = run_with_sources(
        rt,
        alloc,
        &image,
        order.options,
        &edges,
        TARGET_SOURCE,
        world,
        explainer,
        parker,
        printer,
    );
    match ran {
        Ok(report) => {
            let done = end_of(&image, &report);
            // The memory isn't freed, since the program ends soon.
            forget(report);
            forget(image);
            (Ok(done), printer)
        }
        Err(fault) => {
            forget(image);
            (Err(fault), printer)
        }
    }
}

/// Builds the targets of a manifest like `do_build`. What is kept for explanations serves all rounds.
fn build_in_rounds<
    S: Source,
    W: World + Send + Sync,
    F: Format + Send + Drop,
    O: Sink + Send + Drop,
    R: Threads + Wait + Sync,
>(
    rt: &R,
    alloc: Global,
    source: &mut S,
    order: &Order<'_>,
    world: &W,
    kept: &mut Kept,
    parker: &Parker,
    printer: Printer<F, O>,
) -> (Result<Done, PlanFault>, Printer<F, O>)
    ensures done { let a = defined.asked order.now.manifest.now order.now.options (map (λ n. n.now) order.now.targets.now) in
        IfOk result.0 (λ d. Builds (S.gives source.old) (by_format F.kept F.tells (F.kept printer.format)) W.allows a (O.failures printer.out, O.taken printer.out) (O.failures result.1.out, O.taken result.1.out) d) }
    ensures read { OnOk result.0 (S.failures source.new ≡ S.failures source.old) }
    ensures same { SameFiles (S.gives source.new) (S.fails source.new) (S.gives source.old) (S.fails source.old) }
    ensures refused { let a = defined.asked order.now.manifest.now order.now.options (map (λ n. n.now) order.now.targets.now) in
        let missing = IsMissing (S.gives source.old) (S.fails source.old) (S.failures source.old) (S.failures source.new) in
        IfErr result.0 (λ fault. Stops (S.gives source.old) missing (by_format F.kept F.tells (F.kept printer.format)) W.allows a (O.failures printer.out, O.taken printer.out) (O.failures result.1.out, O.taken result.1.out) fault) }
    ensures format { F.kept result.1.format ≡ F.kept printer.format }
{
    let mut printer = printer;
    for _ in 0..MOST_ROUNDS {
        let (round, left) = update_manifest(
            rt, alloc, source, order, world, &mut *kept, parker, printer,
        );
        printer = left;
        match round {
            Ok(Round::Remade) => {}
            Ok(Round::Failed) => return (Ok(Done::ManifestFails), printer),
            Ok(Round::NothingToDo) => return (Ok(Done::UpToDate), printer),
            Ok(Round::UpToDate(image)) => {
                return build_targets(
                    rt,
                    alloc,
                    image,
                    order,
                    world,
                    kept.explainer(),
                    parker,
                    printer,
                );
            }
            Err(fault) => return (Err(fault), printer),
        }
    }
    (Ok(Done::NeverSettles), printer)
}

/// Builds the targets of a manifest, and prints the marks of its runs by a format while commands run. Returns how the
/// build ended, and the printer. To print the marks that are ready, unpark `parker`.
///
/// The manifest is read and compiled. If an edge makes the manifest, that edge runs first, with all edges that it
/// needs. Each time that its command ran, the manifest is read again, at most 100 times (the Ninja manual, "The build
/// file": a build statement may have the manifest as its output). Then the image of the last manifest is run for the
/// targets. If the world observes edges, the world gets the reason of each command (`World::explain`). If no targets are
/// named, and the manifest and all its defaults are up to date, no image is compiled, and nothing runs.
///
/// # Errors
/// - The manifest, or a file that it includes, is missing or refused, or it has no graph or no image: as in
///   `do_compile`.
/// - 132, with the name of the first such target: no edge makes a target. The manifest is up to date.
/// - 135, or 136 if the edge that makes the manifest needs it: a file is missing that no edge makes and that a wanted
///   edge needs. No command of the run for the targets, or of the round, began.
/// - 110, 120 to 122: lanes stopped early. The marks until then were shown, or a prefix of them.
/// - 133 ` -`: a write of the text failed.
/// - 111, 131 or the number of a lower layer: memory ran out.
pub fn do_build<
    S: Source,
    W: World + Send + Sync,
    F: Format + Send + Drop,
    O: Sink + Send + Drop,
    R: Threads + Wait + Sync,
>(
    rt: &R,
    alloc: Global,
    source: &mut S,
    order: &Order<'_>,
    world: &W,
    parker: &Parker,
    printer: Printer<F, O>,
) -> (Result<Done, PlanFault>, Printer<F, O>)
    ensures done { let a = defined.asked order.now.manifest.now order.now.options (map (λ n. n.now) order.now.targets.now) in
        IfOk result.0 (λ d. Builds (S.gives source.old) (by_format F.kept F.tells (F.kept printer.format)) W.allows a (O.failures printer.out, O.taken printer.out) (O.failures result.1.out, O.taken result.1.out) d) }
    ensures read { OnOk result.0 (S.failures source.new ≡ S.failures source.old) }
    ensures same { SameFiles (S.gives source.new) (S.fails source.new) (S.gives source.old) (S.fails source.old) }
    ensures refused { let a = defined.asked order.now.manifest.now order.now.options (map (λ n. n.now) order.now.targets.now) in
        let missing = IsMissing (S.gives source.old) (S.fails source.old) (S.failures source.old) (S.failures source.new) in
        IfErr result.0 (λ fault. Stops (S.gives source.old) missing (by_format F.kept F.tells (F.kept printer.format)) W.allows a (O.failures printer.out, O.taken printer.out) (O.failures result.1.out, O.taken result.1.out) fault) }
    ensures format { F.kept result.1.format ≡ F.kept printer.format }
{
    let mut kept = Kept::new(false);
    build_in_rounds(rt, alloc, source, order, world, &mut kept, parker, printer)
}
