//! Runs whose marks are shown while lanes work, and the marks that report something.

ghost use Rattle.std.specs.Prelude.{◌≡◌, IfErr, IfOk, IfSome, is_some, true, ◌≤◌, ◌+◌, ◌++◌, ◌∷◌, [], vec_capacity, vec_len};
ghost use Rattle.plan_machine.specs.State.{has_ended};
ghost use Rattle.plan_status.specs.Live.{IsUnused, SameFeed};
ghost use Rattle.plan_lanes.specs.SharedRuns.{FaultIsFed, ReportIsFed};
ghost use Rattle.plan_lanes.specs.Faults.{FaultReports, report_of};
ghost use Rattle.plan_lanes.specs.Progress.{Opened, opened_with};
ghost use Rattle.plan_lanes.specs.Reports.{IsKeptBy, IsRunOf};
ghost use Rattle.plan_lanes.specs.ObservableMarks as defined;
ghost use Rattle.plan_lanes.specs.ObservableMarks.{TellAllLines, observable};

use crate::board::{Board, Report};
use crate::fault::LaneFault;
use crate::lanes::{run_named, to_result};
use crate::world::World;
use plan_machine::{Mark, Options, Refused};
use plan_status::{Feed, LineProgress};
use plan_verify::Verified;
use std::alloc::Global;
use std::marker::{Brand, Model};
use std::sync::Wait;
use std::thread::Threads;

/// A run that is open and has no events yet, with the feed that gets its marks. A contract sees the arguments of its
/// opening, and the feed.
#[derive(Drop)]
pub struct PrintedRun<'v, W: World> {
    alloc: Global,
    jobs: u16,
    board: Board<'v, W>,
    line_progress: LineProgress,
}

impl<'v, W: World> Model for PrintedRun<'v, W> {
    ghost use Rattle.std.specs.Prelude.{Some};
    ghost use Rattle.plan_lanes.specs.SharedRuns.{IsSharedRun, Ready, ready};

    ghost Value = { Ready };

    ghost view = { λ r. ready r.board.opened r.line_progress.feed };

    ghost invariant = { λ r. IsSharedRun r.board.opened (Some r.line_progress.feed) r.board (Some r.line_progress) };
}

impl<'v, W: World> PrintedRun<'v, W> {
    ghost use Rattle.std.specs.Prelude.{◌≡◌, IfErr, IfOk, IfSome, is_some, true};
    ghost use Rattle.plan_machine.specs.State.{has_ended};
    ghost use Rattle.plan_status.specs.Live.{IsUnused, SameFeed};
    ghost use Rattle.plan_lanes.specs.SharedRuns.{ReportIsFed, ready};
    ghost use Rattle.plan_lanes.specs.Faults.{FaultReports, report_of};
    ghost use Rattle.plan_lanes.specs.Reports.{IsKeptBy, IsRunOf, IsTotalOf};
    ghost use Rattle.plan_lanes.specs.declared.fault.LaneFault.TheVariants.{Opening};

    /// Opens a run of an image. Its marks will go into a feed. If there are no targets, the run is for the image's
    /// defaults. The world isn't asked.
    ///
    /// # Errors
    /// As for `Board::open`, and `Memory` if there is no memory to show the marks. The feed is returned.
    pub fn open(
        alloc: Global,
        image: &'v Verified,
        options: Options,
        targets: &[u32],
        feed: Feed,
    ) -> Result<PrintedRun<'v, W>, (Refused, Feed)>
        requires { IsUnused feed }
        ensures opens { IfOk result (λ r. r ≡ ready (opened_with image.now options targets.now) feed) }
        ensures refused { IfErr result (λ e. FaultReports W.allows (opened_with image.now options targets.now) (Opening e.0)) }
        ensures back { IfErr result (λ e. e.1 ≡ feed) }
    {
        let board: Board<'v, W> = match Board::open(alloc, image, options, targets) {
            Ok(board) => board,
            Err(refused) => return Err((refused, feed)),
        };
        match LineProgress::new(alloc, image, feed) {
            Ok(line_progress) => Ok(PrintedRun {
                alloc,
                jobs: options.jobs(),
                board,
                line_progress,
            }),
            Err(feed) => Err((Refused::Memory, feed)),
        }
    }

    /// Returns the number of wanted edges that have a command.
    pub fn total(&self) -> u64
        ensures { IsTotalOf W.allows self.now.opened result }
    {
        self.board.total()
    }
}

impl<W: World + Send + Sync> PrintedRun<'_, W> {
    ghost use Rattle.std.specs.Prelude.{◌≡◌, IfErr, IfOk, IfSome, is_some, true};
    ghost use Rattle.plan_machine.specs.State.{has_ended};
    ghost use Rattle.plan_status.specs.Live.{SameFeed};
    ghost use Rattle.plan_lanes.specs.SharedRuns.{ReportIsFed};
    ghost use Rattle.plan_lanes.specs.Faults.{FaultReports, report_of};
    ghost use Rattle.plan_lanes.specs.Reports.{IsKeptBy, IsRunOf};

    /// Executes the run like `run_lanes`. Puts each mark of the report into the feed before the lane of its event
    /// releases the lock, or as soon as there is room for it and no console command runs. Also returns the feed, which
    /// the caller should settle.
    ///
    /// # Errors
    /// The run so far, and why it hasn't ended.
    pub fn run<R: Threads + Wait + Sync>(
        self,
        rt: &R,
        world: &W,
    ) -> (Result<Report, LaneFault>, Feed)
        ensures run { IfOk result.0 (λ r. IsRunOf W.allows self.entry.opened r) }
        ensures ended { IfOk result.0 (λ r. has_ended r.state.run_state.now ≡ true) }
        ensures fault { IfErr result.0 (λ f. FaultReports W.allows self.entry.opened f) }
        ensures begun { IfErr result.0 (λ f. is_some (report_of f) ≡ true) }
        ensures kept { IfOk result.0 (λ r. IsKeptBy W.keeps r) }
        ensures kept_so_far { IfErr result.0 (λ f. IfSome (report_of f) (λ r. IsKeptBy W.keeps r)) }
        ensures same { SameFeed self.entry.feed result.1 }
        ensures fed { IfOk result.0 (λ r. ReportIsFed r result.1) }
        ensures fed_so_far { IfErr result.0 (λ f. IfSome (report_of f) (λ r. ReportIsFed r result.1)) }
    {
        let PrintedRun {
            alloc,
            jobs,
            board,
            line_progress,
        } = self;
        let (report, stopped, line_progress) = run_named::<Brand, W, R>(
            rt,
            alloc,
            jobs,
            board,
            Some(line_progress),
            world,
        );
        match line_progress {
            Some(line_progress) => (to_result(report, stopped), line_progress.into_feed()),
            None => unreachable!(),
        }
    }
}

/// Runs an image like `run_lanes`. Puts each mark of the report into a feed before the lane of its event releases the
/// lock, or as soon as there is room for it and no console command runs. The marks in the feed are the first ones of
/// the report. The feed is returned in any case, and the caller should settle it. The call never waits for the reader
/// of the feed.
///
/// # Errors
/// As for `run_lanes`, and `Opening` with `Memory` if there is no memory to show the marks.
pub fn run_lanes_shown<W: World + Send + Sync, R: Threads + Wait + Sync>(
    rt: &R,
    alloc: Global,
    image: &Verified,
    options: Options,
    targets: &[u32],
    world: &W,
    feed: Feed,
) -> (Result<Report, LaneFault>, Feed)
    requires { IsUnused feed }
    ensures run { IfOk result.0 (λ r. IsRunOf W.allows (opened_with image.now options targets.now) r) }
    ensures ended { IfOk result.0 (λ r. has_ended r.state.run_state.now ≡ true) }
    ensures fault { IfErr result.0 (λ f. FaultReports W.allows (opened_with image.now options targets.now) f) }
    ensures kept { IfOk result.0 (λ r. IsKeptBy W.keeps r) }
    ensures kept_so_far { IfErr result.0 (λ f. IfSome (report_of f) (λ r. IsKeptBy W.keeps r)) }
    ensures same { SameFeed feed result.1 }
    ensures fed { IfOk result.0 (λ r. ReportIsFed r result.1) }
    ensures fed_so_far { IfErr result.0 (λ f. FaultIsFed f result.1) }
{
    let run: PrintedRun<'_, W> = match PrintedRun::open(alloc, image, options, targets, feed) {
        Ok(run) => run,
        Err((refused, feed)) => return (Err(LaneFault::Opening(refused)), feed),
    };
    run.run(rt, world)
}

/// Checks whether a mark reports something: how an edge ended, or that it took or released a job token.
fn is_observable(mark: Mark) -> bool
    ensures { result ≡ defined.is_observable mark }
{
    !matches!(
        mark,
        Mark::Started(_) | Mark::Asked(_) | Mark::Moved(_) | Mark::Answered(_)
    )
}

/// Appends a mark if it reports something.
pub(crate) fn keep(marks: &mut Vec<Mark>, mark: Mark)
    requires { vec_len marks.old + 1 ≤ vec_capacity marks.old }
    ensures { marks.new.items ≡ marks.old.items ++ observable (mark ∷ []) }
{
    if is_observable(mark) {
        marks.push_reserved(mark);
    }
}

/// States that the status lines of a run's marks are those of the marks that report something.
pub fn lines_are_told()
    ensures { TellAllLines }
{}
