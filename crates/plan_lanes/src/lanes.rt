//! Lanes: threads that share one run.

ghost use Rattle.std.specs.Prelude.{◌≡◌, IfErr, IfOk, IfSome, OnOk, Some, is_some, true};
ghost use Rattle.plan_image.specs.declared.image.Parts.{Parts as Image};
ghost use Rattle.plan_machine.specs.Kept.{IsStateOf};
ghost use Rattle.plan_machine.specs.State.{has_ended};
ghost use Rattle.plan_lanes.specs.SharedRuns.{IsSharedRun, IsLeft};
ghost use Rattle.plan_lanes.specs.Faults.{FaultReports, fault_of, report_of};
ghost use Rattle.plan_lanes.specs.Batches.{Takes};
ghost use Rattle.plan_lanes.specs.Progress.{Opened, opened_with};
ghost use Rattle.plan_lanes.specs.Reports.{IsKeptBy, IsRunOf};

use crate::batch::{Batch, BatchItem};
use crate::board::{Advance, Board, Report};
use crate::fault::LaneFault;
use crate::run_order::RunOrder;
use crate::shared_run::{RunBrand, SharedRun, Stopped};
use crate::world::World;
use plan_machine::{Options, Refused};
use plan_status::LineProgress;
use plan_verify::Verified;
use std::alloc::Global;
use std::marker::Brand;
use std::sync::{Condvar, Mutex, MutexGuard, Wait};
use std::thread;
use std::thread::{Threads, yield_now};

/// The task of a lane after it released the lock.
enum NextTask {
    /// Ask the questions in the batch.
    Asks,
    /// Ask the questions in the batch, and then run a command.
    Runs(RunOrder),
    /// Return: the run has ended, or lanes stop.
    Nothing,
}

/// The reason why no more questions were added to a batch.
enum BatchEnd {
    /// The batch is full.
    Full,
    /// An edge would take a job token, but the batch has questions.
    AskFirst,
    /// An edge asks to run its command.
    Run(RunOrder),
    /// Nothing can be done before a reply comes.
    Wait,
    /// The run has ended.
    Ended,
    /// Memory ran out.
    NoMemory,
}

/// Runs an image by as many threads as the options have jobs, or by fewer if no more are needed. Each thread takes
/// questions from one board, asks the world, and applies its replies. If there are no targets, the run is for the
/// image's defaults. The call may wait for the world.
///
/// # Errors
/// As for `Board::open`, without a report. Otherwise the run so far, and why it hasn't ended. Which of these faults
/// comes is only tested: `NotEnabled` if a reply doesn't suit its question, `NoMemory`, or `NoLane` if no thread could
/// be started.
pub fn run_lanes<W: World + Send + Sync, R: Threads + Wait + Sync>(
    rt: &R,
    alloc: Global,
    image: &Verified,
    options: Options,
    targets: &[u32],
    world: &W,
) -> Result<Report, LaneFault>
    ensures run { IfOk result (λ r. IsRunOf W.allows (opened_with image.now options targets.now) r) }
    ensures ended { IfOk result (λ r. has_ended r.state.run_state.now ≡ true) }
    ensures fault { IfErr result (λ f. FaultReports W.allows (opened_with image.now options targets.now) f) }
    ensures kept { IfOk result (λ r. IsKeptBy W.keeps r) }
    ensures kept_so_far { IfErr result (λ f. IfSome (report_of f) (λ r. IsKeptBy W.keeps r)) }
{
    let board: Board<'_, W> = match Board::open(alloc, image, options, targets) {
        Ok(board) => board,
        Err(refused) => return Err(LaneFault::Opening(refused)),
    };
    let (report, stopped, _silent) = run_named::<Brand, W, R>(
        rt,
        alloc,
        options.jobs(),
        board,
        None,
        world,
    );
    to_result(report, stopped)
}

/// Returns the report if its run has ended, and otherwise the reason why lanes stopped.
pub(crate) fn to_result(report: Report, stopped: Stopped) -> Result<Report, LaneFault>
    ensures ok { IfOk result (λ r. r ≡ report) }
    ensures ended { (p : Image) → IsStateOf p report.state → IfOk result (λ r. has_ended r.state.run_state.now ≡ true) }
    ensures well { OnOk result (stopped ≡ Stopped.No) }
    ensures fault { IfErr result (λ f. report_of f ≡ Some report) }
    ensures cause { IfErr result (λ f. f ≡ fault_of stopped report) }
{
    match stopped {
        Stopped::NoLane => return Err(LaneFault::NoLane(report)),
        Stopped::Memory => return Err(LaneFault::NoMemory(report)),
        Stopped::Unfit => return Err(LaneFault::NotEnabled(report)),
        Stopped::No => {}
    }
    if !report.state.ended() {
        return Err(LaneFault::OtherBoard(report));
    }
    Ok(report)
}

/// Executes the run of a board by `count` lanes, and shows its marks if there is a `line_progress`. Returns the report
/// of the run, why its lanes stopped, and the `line_progress`.
pub(crate) fn run_named<
    J: RunBrand + Send + Sync,
    W: World + Send + Sync,
    R: Threads + Wait + Sync,
>(
    rt: &R,
    alloc: Global,
    count: u16,
    board: Board<'_, W>,
    line_progress: Option<LineProgress>,
    world: &W,
) -> (Report, Stopped, Option<LineProgress>)
    requires { IsSharedRun J.run J.feed board line_progress }
    ensures run { IsRunOf W.allows J.run result.0 }
    ensures kept { IsKeptBy W.keeps result.0 }
    ensures there { is_some result.2 ≡ is_some J.feed }
    ensures left { IfSome result.2 (λ s. IsLeft J.feed result.0 s) }
{
    let shared: Mutex<SharedRun<'_, W, J>> = Mutex::new(SharedRun::new(
        board,
        line_progress,
        count.min(FIRST_LANES),
    ));
    let signals = Signals::new();
    let started = start_lanes(rt, alloc, count, &shared, &signals, world);
    let (board, line_progress, stopped) = shared.into_inner().into_parts();
    let stopped = if started { stopped } else { Stopped::NoLane };
    (board.into_report(), stopped, line_progress)
}

/// The number of lanes that start at once. More start only when those run commands.
const FIRST_LANES: u16 = 16;

/// What lanes wake each other by.
#[derive(Drop)]
struct Signals {
    /// Notified when lanes that sleep may go on.
    moved: Condvar,
    /// Notified when one more lane is needed, and when a lane returns.
    short: Condvar,
}

impl Signals {
    /// Creates signals for which nobody waits.
    fn new() -> Signals {
        Signals {
            moved: Condvar::new(),
            short: Condvar::new(),
        }
    }
}

/// Waits until one more lane is needed. Returns false if no lane will be needed, because the run has ended or lanes
/// stop.
fn wait_until_short<J: RunBrand, W: World, R: Wait>(
    rt: &R,
    shared: &Mutex<SharedRun<'_, W, J>>,
    signals: &Signals,
) -> bool {
    let mut guard = shared.lock(rt);
    for _ in rt.forever() {
        if guard.is_over() {
            return false;
        }
        if guard.take_shortage() {
            return true;
        }
        guard = signals.short.wait(rt, guard);
    }
    false
}

/// Starts lanes, and waits for them. After the first ones, starts another lane whenever all are busy and one of them
/// begins a command. Returns whether at least one started.
fn start_lanes<J: RunBrand + Send + Sync, W: World + Send + Sync, R: Threads + Wait + Sync>(
    rt: &R,
    alloc: Global,
    count: u16,
    shared: &Mutex<SharedRun<'_, W, J>>,
    signals: &Signals,
    world: &W,
) -> bool {
    thread::scope(thread::scope_env(), rt, |scope| {
        let mut started = false;
        for number in 0..count {
            if number >= FIRST_LANES && (!started || !wait_until_short(rt, shared, signals)) {
                break;
            }
            if scope
                .spawn(move || {
                    lane(rt, alloc, shared, signals, world);
                    signals.short.notify_all();
                })
                .is_ok()
            {
                started = true;
            }
        }
        started
    })
}

/// Does the work of one lane, until the run has ended or lanes stop.
fn lane<J: RunBrand, W: World, R: Wait>(
    rt: &R,
    alloc: Global,
    shared: &Mutex<SharedRun<'_, W, J>>,
    signals: &Signals,
    world: &W,
) {
    let Ok(mut batch) = Batch::new(alloc) else {
        stop(rt, shared, signals);
        return;
    };
    for _ in rt.forever() {
        match visit(rt, shared, signals, &mut batch, world) {
            NextTask::Nothing => return,
            NextTask::Asks => {}
            NextTask::Runs(order) => {
                if !ask_out(rt, shared, signals, &mut batch, world) {
                    order.give_up();
                    return;
                }
                let pending = order.run(world);
                if !batch.push(pending) {
                    stop(rt, shared, signals);
                    return;
                }
            }
        }
    }
}

/// How often a lane tries to take the lock before it sleeps.
const TRIES: u32 = 50;

/// How often a lane lets other threads run between two tries. Each try takes a line of the cache from the lane that has
/// the lock.
const YIELDS: u32 = 4;

/// Lets other threads run.
fn let_others_run() {
    for _ in 0..YIELDS {
        yield_now();
    }
}

/// Takes the lock. If another lane has it, tries again for a while before it sleeps: lanes hold the lock for less time
/// than the system needs to wake a thread.
fn try_then_lock<'a, T, R: Wait>(rt: &R, shared: &'a Mutex<T>) -> MutexGuard<'a, T> {
    for _ in 0..TRIES {
        if let Some(guard) = shared.try_lock() {
            return guard;
        }
        let_others_run();
    }
    shared.lock(rt)
}

/// Releases the lock, and wakes a lane that sleeps if it can go on. If none sleeps, and the lane that had the lock is
/// going to run a command, asks for one more lane.
fn release<J: RunBrand, W: World>(
    guard: MutexGuard<'_, SharedRun<'_, W, J>>,
    signals: &Signals,
    is_leaving: bool,
) {
    let mut guard = guard;
    let has_sleepers = guard.has_sleepers();
    let is_short = is_leaving && guard.note_shortage();
    drop(guard);
    if has_sleepers {
        signals.moved.notify_one();
    }
    if is_short {
        signals.short.notify_one();
    }
}

/// Asks the world questions of the batch, and takes the lock. If another lane has the lock, asks more questions before
/// it tries again. Waits for the lock only when every question has been asked.
fn ask_and_lock<'a, 'v, J: RunBrand, W: World, R: Wait>(
    rt: &R,
    shared: &'a Mutex<SharedRun<'v, W, J>>,
    batch: &mut Batch<W>,
    world: &W,
) -> MutexGuard<'a, SharedRun<'v, W, J>> {
    for _ in rt.forever() {
        if !batch.ask_some(world) {
            return try_then_lock(rt, shared);
        }
        if let Some(guard) = shared.try_lock() {
            return guard;
        }
    }
    shared.lock(rt)
}

/// Asks the world the questions in the batch, applies the replies, adds the next questions until the batch is full, and
/// shows the new marks. Sleeps while the batch is empty and there is no question to add.
fn visit<J: RunBrand, W: World, R: Wait>(
    rt: &R,
    shared: &Mutex<SharedRun<'_, W, J>>,
    signals: &Signals,
    batch: &mut Batch<W>,
    world: &W,
) -> NextTask {
    let mut guard = ask_and_lock(rt, shared, batch, world);
    batch.follow(&mut guard);
    for _ in rt.forever() {
        if guard.stopped() != Stopped::No {
            signals.moved.notify_all();
            return NextTask::Nothing;
        }
        let taken = take(rt, &mut guard, batch);
        guard.show();
        let left = match taken {
            BatchEnd::Full | BatchEnd::AskFirst => NextTask::Asks,
            BatchEnd::Run(order) => NextTask::Runs(order),
            BatchEnd::Wait if batch.is_empty() => {
                guard.add_sleeper();
                guard = signals.moved.wait(rt, guard);
                guard.remove_sleeper();
                continue;
            }
            BatchEnd::Wait => NextTask::Asks,
            BatchEnd::Ended => {
                signals.moved.notify_all();
                return NextTask::Nothing;
            }
            BatchEnd::NoMemory => {
                guard.stop(Stopped::Memory);
                continue;
            }
        };
        release(guard, signals, matches!(left, NextTask::Runs(..)));
        batch.drop_applied();
        return left;
    }
    NextTask::Nothing
}

/// Asks the world and applies the replies until the batch is empty. Returns false if lanes stop.
fn ask_out<J: RunBrand, W: World, R: Wait>(
    rt: &R,
    shared: &Mutex<SharedRun<'_, W, J>>,
    signals: &Signals,
    batch: &mut Batch<W>,
    world: &W,
) -> bool {
    for _ in rt.forever() {
        if batch.is_empty() {
            return true;
        }
        batch.ask(world);
        if !apply_replies(rt, shared, signals, batch) {
            return false;
        }
    }
    false
}

/// Applies the replies in the batch, and shows the new marks. Adds no question except the next one of a sweep.
/// Returns false if lanes stop.
fn apply_replies<J: RunBrand, W: World, R: Wait>(
    rt: &R,
    shared: &Mutex<SharedRun<'_, W, J>>,
    signals: &Signals,
    batch: &mut Batch<W>,
) -> bool {
    let mut guard = try_then_lock(rt, shared);
    batch.apply_replies(&mut guard);
    guard.show();
    if guard.stopped() != Stopped::No {
        signals.moved.notify_all();
        return false;
    }
    release(guard, signals, false);
    batch.drop_applied();
    true
}

/// Advances the run and adds its questions to the batch, until the batch is full or has questions of this lane's share
/// of the edges, an edge asks to run its command, or no edge can go on without a reply. No edge takes a job token while
/// the batch has questions: their replies may end edges, whose marks should be shown before a command makes this lane
/// wait, and let others start.
fn take<J: RunBrand, W: World, R: Wait>(
    rt: &R,
    shared: &mut SharedRun<'_, W, J>,
    batch: &mut Batch<W>,
) -> BatchEnd
    ensures { Takes shared.old.run shared.new.run batch.old batch.new result }
{
    for _ in rt.forever() {
        if batch.is_full(shared.share()) {
            return BatchEnd::Full;
        }
        if !batch.is_empty() && shared.takes_next() {
            return BatchEnd::AskFirst;
        }
        match batch.advance(shared) {
            Ok(Advance::Moved) => {}
            Ok(Advance::Job(edge, question, permit)) => match permit {
                Some(permit) => return BatchEnd::Run(RunOrder::new(edge, question, permit)),
                None => {
                    if !batch.push(BatchItem::open(edge, question)) {
                        return BatchEnd::NoMemory;
                    }
                    shared.count_taken();
                }
            },
            Ok(Advance::Wait) => return BatchEnd::Wait,
            Ok(Advance::Ended) => return BatchEnd::Ended,
            Err(_refused) => return BatchEnd::NoMemory,
        }
    }
    BatchEnd::NoMemory
}

/// Stops all lanes, because memory ran out.
fn stop<J: RunBrand, W: World, R: Wait>(
    rt: &R,
    shared: &Mutex<SharedRun<'_, W, J>>,
    signals: &Signals,
) {
    shared.lock(rt).stop(Stopped::Memory);
    signals.moved.notify_all();
}
