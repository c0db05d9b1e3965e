//! Runs that are shown while lanes work.

ghost use Rattle.std.specs.Prelude.{◌≡◌, ℕ, List, Option, IfErr, IfOk, IfNone, IfSome, is_some, option_map, true};
ghost use Rattle.std.specs.Result.{result_err};
ghost use Rattle.plan_machine.specs.Kept.{IsStateOf};
ghost use Rattle.plan_machine.specs.State.{has_ended};
ghost use Rattle.rtrb.specs.Ring.{received};
ghost use Rattle.plan_status.specs.Formats.{HasPrinted};
ghost use Rattle.plan_status.specs.Live.{AreEnds, IsFed, IsUntapped, IsUnused, SameFeed, SameTap};
ghost use Rattle.plan_lanes.specs.SharedRuns.{ReportIsFed};
ghost use Rattle.plan_lanes.specs.Faults as faults;
ghost use Rattle.plan_lanes.specs.Faults.{FaultReports};
ghost use Rattle.plan_lanes.specs.Reports.{IsKeptBy, IsRunOf};
ghost use Rattle.plan_commands.specs.Running as defined;
ghost use Rattle.plan_commands.specs.Showing.{IsShown, by_format};

use plan_lanes::{LaneFault, PrintedRun, Report, World, run_lanes};
use plan_machine::Options;
use plan_status::{Feed, Format, PrintFault, Tap, ends_stay, live, print_by};
use plan_text::Sink;
use plan_verify::Verified;
use std::alloc::Global;
use std::sync::Wait;
use std::sync::atomic::{AtomicBool, Ordering};
use std::thread::{Parker, Threads, join};
use std::time::Duration;

/// The largest number of marks that may wait to be printed while lanes work.
const MARKS: usize = 1024;

/// The longest pause of the printing thread before it looks for marks again, in milliseconds.
const PAUSE: u64 = 10;

/// A format, and the sink into which its texts are printed.
#[derive(Drop)]
pub struct Printer<F, O> {
    pub format: F,
    pub out: O,
}

/// The result of a run, and the result of printing its marks.
#[derive(Drop)]
pub struct RunResult {
    /// The report of the run, or the fault of lanes that stopped it.
    pub ran: Result<Report, LaneFault>,
    /// Whether all marks of the report were printed. `Ok` if there is no report.
    pub printed: Result<(), PrintFault>,
}

/// Returns the report that comes with a fault of lanes, if there is one.
pub fn report_of(fault: &LaneFault) -> Option<&Report>
    ensures { option_map (λ r. r.now) result ≡ faults.report_of fault.now }
{
    match fault {
        LaneFault::Opening(_) => None,
        LaneFault::NotEnabled(report)
        | LaneFault::NoMemory(report)
        | LaneFault::NoLane(report)
        | LaneFault::OtherBoard(report) => Some(report),
    }
}

/// Returns the report of a run that has ended, or of a run that has stopped, if there is one.
fn report_in(ran: &Result<Report, LaneFault>) -> Option<&Report>
    ensures { option_map (λ r. r.now) result ≡ defined.report_in ran.now }
{
    match ran {
        Ok(report) => Some(report),
        Err(fault) => report_of(fault),
    }
}

/// A flag that is set when lanes are done, and the parker of the thread that prints meanwhile.
#[derive(Drop)]
struct End<'a> {
    reached: AtomicBool,
    parker: &'a Parker,
}

impl<'a> End<'a> {
    /// Creates the flag. Lanes aren't done yet.
    fn new(parker: &'a Parker) -> End<'a> {
        End {
            reached: AtomicBool::new(false),
            parker,
        }
    }

    /// Checks whether lanes are done.
    fn is_reached(&self) -> bool {
        self.reached.load(Ordering::SeqCst)
    }

    /// Sets the flag, and wakes the thread that prints.
    fn reach(&self) {
        self.reached.store(true, Ordering::SeqCst);
        self.parker.unpark();
    }

    /// Parks the thread until it is unparked, but at most for `PAUSE` milliseconds.
    fn wait<R: Wait>(&self, rt: &R) {
        self.parker.park_timeout(rt, Duration::from_millis(PAUSE));
    }
}

/// Prints marks as they come, until lanes are done. Looks for marks once more after that.
fn print_along<R: Wait, F: Format, O: Sink>(
    rt: &R,
    end: &End<'_>,
    image: &Verified,
    total: u64,
    tap: &mut Tap,
    printer: &mut Printer<F, O>,
)
    ensures printed { (start : ℕ × Option (List ℕ))
        → HasPrinted (F.tells printer.old.format image.now total) (received tap.old.ring) tap.old.stop start (O.failures printer.old.out, O.taken printer.old.out)
        → HasPrinted (F.tells printer.new.format image.now total) (received tap.new.ring) tap.new.stop start (O.failures printer.new.out, O.taken printer.new.out) }
    ensures ring { SameTap tap.old tap.new }
    ensures same { F.kept printer.new.format ≡ F.kept printer.old.format }
{
    for _ in rt.forever() {
        let last = end.is_reached();
        tap.print(image, total, &mut printer.format, &mut printer.out);
        if last {
            return;
        }
        end.wait(rt);
    }
}

/// Like `print_along`, but takes the tap and the printer, and returns them.
fn print_till_end<R: Wait, F: Format + Drop, O: Sink + Drop>(
    rt: &R,
    end: &End<'_>,
    image: &Verified,
    total: u64,
    tap: Tap,
    printer: Printer<F, O>,
) -> (Tap, Printer<F, O>)
    ensures printed { (start : ℕ × Option (List ℕ))
        → HasPrinted (F.tells printer.format image.now total) (received tap.ring) tap.stop start (O.failures printer.out, O.taken printer.out)
        → HasPrinted (F.tells result.1.format image.now total) (received result.0.ring) result.0.stop start (O.failures result.1.out, O.taken result.1.out) }
    ensures ring { SameTap tap result.0 }
    ensures same { F.kept result.1.format ≡ F.kept printer.format }
{
    let (mut tap, mut printer) = (tap, printer);
    print_along(rt, end, image, total, &mut tap, &mut printer);
    (tap, printer)
}

/// Executes an opened run, and then sets the flag that lanes are done.
fn run_till_end<W: World + Send + Sync, R: Threads + Wait + Sync>(
    rt: &R,
    end: &End<'_>,
    run: PrintedRun<'_, W>,
    world: &W,
) -> (Result<Report, LaneFault>, Feed)
    ensures run { IfOk result.0 (λ r. IsRunOf W.allows run.entry.opened r) }
    ensures ended { IfOk result.0 (λ r. has_ended r.state.run_state.now ≡ true) }
    ensures fault { IfErr result.0 (λ f. FaultReports W.allows run.entry.opened f) }
    ensures begun { is_some (defined.report_in result.0) ≡ true }
    ensures kept { IfSome (defined.report_in result.0) (λ r. IsKeptBy W.keeps r) }
    ensures same { SameFeed run.entry.feed result.1 }
    ensures fed { IfSome (defined.report_in result.0) (λ r. ReportIsFed r result.1) }
{
    let ran = run.run(rt, world);
    end.reach();
    ran
}

/// Executes an opened run while a thread prints from the tap. If no thread can be started, prints afterwards.
fn run_and_print<
    W: World + Send + Sync,
    F: Format + Send + Drop,
    O: Sink + Send + Drop,
    R: Threads + Wait + Sync,
>(
    rt: &R,
    image: &Verified,
    total: u64,
    run: PrintedRun<'_, W>,
    world: &W,
    parker: &Parker,
    tap: Tap,
    printer: Printer<F, O>,
) -> ((Tap, Printer<F, O>), (Result<Report, LaneFault>, Feed))
    ensures run { IfOk result.1.0 (λ r. IsRunOf W.allows run.entry.opened r) }
    ensures ended { IfOk result.1.0 (λ r. has_ended r.state.run_state.now ≡ true) }
    ensures fault { IfErr result.1.0 (λ f. FaultReports W.allows run.entry.opened f) }
    ensures begun { is_some (defined.report_in result.1.0) ≡ true }
    ensures kept { IfSome (defined.report_in result.1.0) (λ r. IsKeptBy W.keeps r) }
    ensures same { SameFeed run.entry.feed result.1.1 }
    ensures fed { IfSome (defined.report_in result.1.0) (λ r. ReportIsFed r result.1.1) }
    ensures printed { (start : ℕ × Option (List ℕ))
        → HasPrinted (F.tells printer.format image.now total) (received tap.ring) tap.stop start (O.failures printer.out, O.taken printer.out)
        → HasPrinted (F.tells result.0.1.format image.now total) (received result.0.0.ring) result.0.0.stop start (O.failures result.0.1.out, O.taken result.0.1.out) }
    ensures ring { SameTap tap result.0.0 }
    ensures format { F.kept result.0.1.format ≡ F.kept printer.format }
{
    let end = End::new(parker);
    join(
        rt,
        || print_till_end(rt, &end, image, total, tap, printer),
        || run_till_end(rt, &end, run, world),
    )
}

/// Prints the marks that are left of a run that has ended or has stopped.
fn settle<F: Format, O: Sink>(
    image: &Verified,
    total: u64,
    ran: &Result<Report, LaneFault>,
    feed: Feed,
    tap: Tap,
    printer: &mut Printer<F, O>,
) -> Result<(), PrintFault>
    requires ends { AreEnds feed tap }
    requires fed { IfSome (defined.report_in ran.now) (λ r. IsFed r.marks.items feed) }
    requires begun { is_some (defined.report_in ran.now) ≡ true }
    ensures printed { IfSome (defined.report_in ran.now) (λ r. (start : ℕ × Option (List ℕ))
        → HasPrinted (F.tells printer.old.format image.now total) (received tap.ring) tap.stop start (O.failures printer.old.out, O.taken printer.old.out)
        → HasPrinted (F.tells printer.new.format image.now total) r.marks.items (result_err result) start (O.failures printer.new.out, O.taken printer.new.out)) }
    ensures same { F.kept printer.new.format ≡ F.kept printer.old.format }
{
    match report_in(ran) {
        Some(report) => {
            let Printer { format, out } = printer;
            tap.settle(feed, image, total, &report.marks, format, out)
        }
        None => unreachable!(),
    }
}

/// Runs an image, and prints its marks while lanes work. Prints nothing if the run can't be opened.
fn run_and_print_live<
    W: World + Send + Sync,
    F: Format + Send + Drop,
    O: Sink + Send + Drop,
    R: Threads + Wait + Sync,
>(
    rt: &R,
    alloc: Global,
    image: &Verified,
    options: Options,
    targets: &[u32],
    world: &W,
    parker: &Parker,
    ends: (Feed, Tap),
    printer: Printer<F, O>,
) -> (RunResult, Printer<F, O>)
    requires ends { AreEnds ends.0 ends.1 }
    requires begin { IsUnused ends.0 × IsUntapped ends.1 }
    ensures run { IfOk result.0.ran (λ r. IsRunOf W.allows (record { parts = image.now; limits = options; targets = targets.now }) r) }
    ensures ended { IfOk result.0.ran (λ r. has_ended r.state.run_state.now ≡ true) }
    ensures fault { IfErr result.0.ran (λ f. FaultReports W.allows (record { parts = image.now; limits = options; targets = targets.now }) f) }
    ensures printed { (kept : F.Kept) → F.kept printer.format ≡ kept
        → IfSome (defined.report_in result.0.ran) (λ r. IsShown (by_format F.kept F.tells kept) image.now r (result_err result.0.printed) (O.failures printer.out, O.taken printer.out) (O.failures result.1.out, O.taken result.1.out)) }
    ensures silent { IfNone (defined.report_in result.0.ran) (result.1.out ≡ printer.out) }
    ensures kept { IfSome (defined.report_in result.0.ran) (λ r. IsKeptBy W.keeps r) }
    ensures format { F.kept result.1.format ≡ F.kept printer.format }
{
    ends_stay();
    let (feed, tap) = ends;
    let run: PrintedRun<'_, W> = match PrintedRun::open(alloc, image, options, targets, feed) {
        Ok(run) => run,
        Err((refused, _feed)) => {
            let ran = Err(LaneFault::Opening(refused));
            let printed = Ok(());
            return (RunResult { ran, printed }, printer);
        }
    };
    let total = run.total();
    let mut printer = printer;
    printer.format.begin();
    let ((tap, printer), (ran, feed)) = run_and_print(
        rt, image, total, run, world, parker, tap, printer,
    );
    let mut printer = printer;
    let printed = settle(image, total, &ran, feed, tap, &mut printer);
    (RunResult { ran, printed }, printer)
}

/// Prints the marks of a run that has ended or has stopped. Prints nothing if there is no report.
fn print_all<F: Format, O: Sink>(
    alloc: Global,
    image: &Verified,
    ran: &Result<Report, LaneFault>,
    printer: &mut Printer<F, O>,
) -> Result<(), PrintFault>
    requires { IfSome (defined.report_in ran.now) (λ r. IsStateOf image.now r.state) }
    ensures printed { (kept : F.Kept) → F.kept printer.old.format ≡ kept
        → IfSome (defined.report_in ran.now) (λ r. IsShown (by_format F.kept F.tells kept) image.now r (result_err result) (O.failures printer.old.out, O.taken printer.old.out) (O.failures printer.new.out, O.taken printer.new.out)) }
    ensures silent { IfNone (defined.report_in ran.now) (printer.new ≡ printer.old) }
    ensures same { F.kept printer.new.format ≡ F.kept printer.old.format }
{
    match report_in(ran) {
        Some(report) => {
            let Printer { format, out } = printer;
            print_by(
                alloc,
                image,
                report.state.total(),
                &report.marks,
                format,
                out,
            )
        }
        None => Ok(()),
    }
}

/// Runs an image, and prints its marks after lanes are done.
fn run_then_print<
    W: World + Send + Sync,
    F: Format + Drop,
    O: Sink + Drop,
    R: Threads + Wait + Sync,
>(
    rt: &R,
    alloc: Global,
    image: &Verified,
    options: Options,
    targets: &[u32],
    world: &W,
    printer: Printer<F, O>,
) -> (RunResult, Printer<F, O>)
    ensures run { IfOk result.0.ran (λ r. IsRunOf W.allows (record { parts = image.now; limits = options; targets = targets.now }) r) }
    ensures ended { IfOk result.0.ran (λ r. has_ended r.state.run_state.now ≡ true) }
    ensures fault { IfErr result.0.ran (λ f. FaultReports W.allows (record { parts = image.now; limits = options; targets = targets.now }) f) }
    ensures printed { (kept : F.Kept) → F.kept printer.format ≡ kept
        → IfSome (defined.report_in result.0.ran) (λ r. IsShown (by_format F.kept F.tells kept) image.now r (result_err result.0.printed) (O.failures printer.out, O.taken printer.out) (O.failures result.1.out, O.taken result.1.out)) }
    ensures silent { IfNone (defined.report_in result.0.ran) (result.1.out ≡ printer.out) }
    ensures kept { IfSome (defined.report_in result.0.ran) (λ r. IsKeptBy W.keeps r) }
    ensures format { F.kept result.1.format ≡ F.kept printer.format }
{
    let mut printer = printer;
    let ran = run_lanes(rt, alloc, image, options, targets, world);
    let printed = print_all(alloc, image, &ran, &mut printer);
    (RunResult { ran, printed }, printer)
}

/// Runs an image with lanes, and prints its marks by a format. Prints them as they come if there is memory for that,
/// otherwise at the end. The printing thread looks for marks every `PAUSE` milliseconds, and when it is unparked.
pub fn run_and_show<
    W: World + Send + Sync,
    F: Format + Send + Drop,
    O: Sink + Send + Drop,
    R: Threads + Wait + Sync,
>(
    rt: &R,
    alloc: Global,
    image: &Verified,
    options: Options,
    targets: &[u32],
    world: &W,
    parker: &Parker,
    printer: Printer<F, O>,
) -> (RunResult, Printer<F, O>)
    ensures run { IfOk result.0.ran (λ r. IsRunOf W.allows (record { parts = image.now; limits = options; targets = targets.now }) r) }
    ensures ended { IfOk result.0.ran (λ r. has_ended r.state.run_state.now ≡ true) }
    ensures fault { IfErr result.0.ran (λ f. FaultReports W.allows (record { parts = image.now; limits = options; targets = targets.now }) f) }
    ensures printed { (kept : F.Kept) → F.kept printer.format ≡ kept
        → IfSome (defined.report_in result.0.ran) (λ r. IsShown (by_format F.kept F.tells kept) image.now r (result_err result.0.printed) (O.failures printer.out, O.taken printer.out) (O.failures result.1.out, O.taken result.1.out)) }
    ensures silent { IfNone (defined.report_in result.0.ran) (result.1.out ≡ printer.out) }
    ensures kept { IfSome (defined.report_in result.0.ran) (λ r. IsKeptBy W.keeps r) }
    ensures format { F.kept result.1.format ≡ F.kept printer.format }
{
    match live(alloc, MARKS) {
        Ok(ends) => run_and_print_live(
            rt, alloc, image, options, targets, world, parker, ends, printer,
        ),
        Err(_) => run_then_print(rt, alloc, image, options, targets, world, printer),
    }
}
