//! The state that lanes share under their lock.

ghost use Rattle.std.specs.Prelude.{◌≡◌, ◌≢◌, ◌≤◌, ◌⊎◌, [], IfErr, IfOk, None, Ok, false, get_or, true};
ghost use Rattle.plan_verify.specs.Turn.{Stat};
ghost use Rattle.plan_machine.specs.declared.event.Event.TheVariants.{Reply as Hear};
ghost use Rattle.plan_machine.specs.declared.event.Mark.{Mark};
ghost use Rattle.plan_machine.specs.Requests.{asked_at};
ghost use Rattle.plan_lanes.specs.Boards.{Applies, IsOpen};
ghost use Rattle.plan_lanes.specs.SharedRuns.{IsSharedRun};
ghost use Rattle.plan_lanes.specs.Proceeds.{AnswersRow, AwaitsReply, Proceeds};
ghost use Rattle.plan_lanes.specs.Questions.{shown};
ghost use Rattle.plan_lanes.specs.LocalRuns.{GoesOn};

use crate::batch::Question;
use crate::board::{Advance, Board};
use crate::stamp_row::StampRow;
use crate::world::World;
use plan_machine::{Refused, Reply};
use plan_status::{LineProgress, ends_stay, marks_may_come};
use std::marker::{Brand, Model, PhantomData};

/// Names the run under a lock by the arguments of its opening, and by the feed that gets its marks, if there is one.
/// Each call of `run_lanes` picks the names.
pub trait RunBrand {
    ghost use Rattle.std.specs.Prelude.{Option};
    ghost use Rattle.plan_status.specs.declared.tap.Feed.{Feed};
    ghost use Rattle.plan_lanes.specs.Progress.{Opened};

    ghost run: { Opened };

    ghost feed: { Option Feed };
}

impl RunBrand for Brand {
    ghost use Rattle.std.specs.Prelude.{[], None};

    ghost feed = { None };

    ghost run = { record { parts = record { texts = []; files = []; pools = []; slots = []; bodies = None; edges = []; defaults = [] }; limits = record { jobs = 0; keep = 0 }; targets = [] } };
}

/// Whether lanes stop before the run has ended, and why.
#[derive(Clone, Copy, PartialEq, Eq)]
pub enum Stopped {
    /// They go on.
    No,
    /// Memory ran out, and a reply may be lost.
    Memory,
    /// A reply didn't suit its question.
    Unfit,
    /// No thread could be started.
    NoLane,
}

/// The least share of a lane, in edges.
const LEAST_SHARE: u64 = 8;

/// The greatest share of a lane, in edges.
const GREATEST_SHARE: u64 = 64;

/// Returns the share of a lane, which is the number of edges whose questions it may hold at once: a quarter of an equal
/// part of the edges that no lane has taken yet, within limits. An edge stays with its lane. Without a share, the first
/// lanes would take all edges of a small build, and then the others would wait for the slowest one.
fn share_of(untaken: u64, lanes: u16) -> usize
    ensures least { 8 ≤ result }
    ensures greatest { result ≤ 64 }
{
    let parts = (4 * u64::from(lanes)).max(1);
    (untaken / parts).max(LEAST_SHARE).min(GREATEST_SHARE) as usize
}

/// The state that lanes share under the lock: the board of the run that `J` names, the state of showing its marks, why
/// lanes stop, and how many of them sleep. A contract sees the run so far, and why lanes stop.
#[derive(Drop)]
pub struct SharedRun<'v, W: World, J: RunBrand> {
    board: Board<'v, W>,
    line_progress: Option<LineProgress>,
    stopped: Stopped,
    waiting: u32,
    /// The number of lanes that start at once.
    lanes: u16,
    /// Whether one more lane is needed.
    is_short: bool,
    /// The number of wanted commands, less the number of questions that lanes took with `advance`.
    untaken: u64,
    name: PhantomData<J>,
}

impl<'v, W: World, J: RunBrand> Model for SharedRun<'v, W, J> {
    ghost use Rattle.plan_lanes.specs.SharedRuns.{IsSharedRun, Shared};

    ghost Value = { Shared };

    ghost view = { λ d. record { run = d.board; stopped = d.stopped } };

    ghost invariant = { λ d. IsSharedRun J.run J.feed d.board d.line_progress };
}

impl<'v, W: World, J: RunBrand> SharedRun<'v, W, J> {
    /// Creates the shared state of a run from this board, for this many lanes that start at once. No lane sleeps yet.
    pub fn new(
        board: Board<'v, W>,
        line_progress: Option<LineProgress>,
        lanes: u16,
    ) -> SharedRun<'v, W, J>
        requires { IsSharedRun J.run J.feed board line_progress }
    {
        let untaken = board.total();
        SharedRun {
            board,
            line_progress,
            stopped: Stopped::No,
            waiting: 0,
            lanes,
            is_short: false,
            untaken,
            name: PhantomData,
        }
    }

    /// Puts the marks that may be reported into the feed, as far as there is room.
    pub fn show(&mut self)
        ensures { self.new ≡ self.old }
    {
        ends_stay();
        if let Some(line_progress) = &mut self.line_progress {
            line_progress.show(self.board.image(), self.board.marks());
        }
    }

    /// Applies the next event that needs no reply, if there is one.
    pub fn advance(&mut self) -> Result<Advance, Refused>
        ensures goes { GoesOn self.old.run self.new.run }
        ensures ok { IfOk result (λ a. Proceeds self.old.run self.new.run a) }
        ensures memory { IfErr result (λ r. r ≡ Refused.Memory) }
        ensures named { self.new.run.opened ≡ J.run }
        ensures stopped { self.new.stopped ≡ self.old.stopped }
    {
        marks_may_come();
        self.board.proceed()
    }

    /// Checks whether an advance would let an edge take a job token, to run its command.
    pub fn takes_next(&self) -> bool {
        self.board.takes_next()
    }

    /// Applies a reply that the world's rule allows. If the board refuses it, lanes stop.
    pub fn answer(&mut self, edge: u32, question: &Question, reply: Reply)
        requires { W.allows question.now.number (shown question.now.request) reply }
        ensures goes { GoesOn self.old.run self.new.run }
        ensures answered { (self.new.stopped ≢ Stopped.No) ⊎ ((told : Mark) × Applies self.old.run self.new.run (Hear edge reply) told × IsOpen self.old.run edge question.now.number (shown question.now.request)) }
    {
        marks_may_come();
        let answered = self.board.answer_to(edge, question, reply);
        match answered {
            Ok(_mark) => {}
            Err(Refused::Memory) => self.stop(Stopped::Memory),
            Err(_refused) => self.stop(Stopped::Unfit),
        }
    }

    /// Applies a reply that the world's rule allows, and makes the local steps of its edge. If the edge asks again,
    /// returns true, and `question` is its next question. If the board refuses the reply, lanes stop.
    pub fn follow(&mut self, edge: u32, question: &mut Question, reply: Reply) -> bool
        requires { W.allows question.old.number (shown question.old.request) reply }
        ensures goes { GoesOn self.old.run self.new.run }
        ensures asks { result ≡ true → IsOpen self.new.run edge question.new.number (shown question.new.request) }
        ensures rests { result ≡ false → (self.new.stopped ≢ Stopped.No) ⊎ (asked_at self.new.run.opened.parts self.new.run.state edge ≡ None) }
    {
        marks_may_come();
        let followed = self.board.follow(edge, question, reply);
        self.ask_on(edge, question, followed)
    }

    /// Applies the stamps of a row and makes the local steps of its edge, like `follow`.
    pub fn follow_row(&mut self, question: &mut Question, row: StampRow<W>) -> bool
        ensures goes { GoesOn self.old.run self.new.run }
        ensures asks { result ≡ true → IsOpen self.new.run row.edge question.new.number (shown question.new.request) }
        ensures rests { result ≡ false → (self.new.stopped ≢ Stopped.No) ⊎ (asked_at self.new.run.opened.parts self.new.run.state row.edge ≡ None) }
    {
        marks_may_come();
        let edge = row.edge();
        let followed = self.board.follow_row(row);
        self.ask_on(edge, question, followed)
    }

    /// Applies the stamps of a row, like `answer`. If its edge asks for the next path, returns true, and `question` is
    /// that question.
    pub fn answer_row(&mut self, question: &mut Question, row: StampRow<W>) -> bool
        ensures goes { GoesOn self.old.run self.new.run }
        ensures asks { result ≡ true → IsOpen self.new.run row.edge question.new.number (shown question.new.request) }
        ensures rests { result ≡ false → (self.new.stopped ≢ Stopped.No) ⊎ (AnswersRow self.old.run self.new.run row.edge row.stamps false × IsOpen self.old.run row.edge row.number (Stat (get_or row.paths row.from []))) }
    {
        marks_may_come();
        let edge = row.edge();
        let answered = self.board.answer_row(row);
        self.ask_on(edge, question, answered)
    }

    /// Handles the result of applying a reply to an edge. If the edge asks again, sets `question` to its next question
    /// and returns true. If the board refused the reply, lanes stop.
    fn ask_on(&mut self, edge: u32, question: &mut Question, heard: Result<bool, Refused>) -> bool
        requires { IfOk heard (λ again. again ≡ true → AwaitsReply self.old.run edge) }
        ensures run { self.new.run ≡ self.old.run }
        ensures asks { result ≡ true → IsOpen self.new.run edge question.new.number (shown question.new.request) }
        ensures rests { result ≡ false → (self.new.stopped ≢ Stopped.No) ⊎ (heard ≡ Ok false) }
    {
        match heard {
            Ok(true) => self.ask_again(edge, question),
            Ok(false) => false,
            Err(Refused::Memory) => {
                self.stop(Stopped::Memory);
                false
            }
            Err(_refused) => {
                self.stop(Stopped::Unfit);
                false
            }
        }
    }

    /// Sets `question` to the question whose reply an edge awaits, and returns true. If memory runs out, lanes stop.
    fn ask_again(&mut self, edge: u32, question: &mut Question) -> bool
        requires { AwaitsReply self.old.run edge }
        ensures run { self.new.run ≡ self.old.run }
        ensures asks { result ≡ true → IsOpen self.new.run edge question.new.number (shown question.new.request) }
        ensures stops { result ≡ false → self.new.stopped ≢ Stopped.No }
    {
        match self.board.ask_again(edge, question) {
            Ok(()) => true,
            Err(_error) => {
                self.stop(Stopped::Memory);
                false
            }
        }
    }

    /// Returns why lanes stop, if they do.
    pub fn stopped(&self) -> Stopped
        ensures { result ≡ self.now.stopped }
    {
        self.stopped
    }

    /// Returns the number of edges whose questions a lane may hold at once.
    pub fn share(&self) -> usize
        ensures { 8 ≤ result }
    {
        share_of(self.untaken, self.lanes)
    }

    /// Counts a question that a lane took with `advance`.
    pub fn count_taken(&mut self)
        ensures { self.new ≡ self.old }
    {
        self.untaken = self.untaken.saturating_sub(1);
    }

    /// Increments the number of lanes that sleep.
    pub fn add_sleeper(&mut self)
        ensures { self.new ≡ self.old }
    {
        self.waiting = self.waiting.saturating_add(1);
    }

    /// Decrements the number of lanes that sleep.
    pub fn remove_sleeper(&mut self)
        ensures { self.new ≡ self.old }
    {
        self.waiting = self.waiting.saturating_sub(1);
    }

    /// Returns the board, the state of showing its marks, and why lanes stopped.
    pub fn into_parts(self) -> (Board<'v, W>, Option<LineProgress>, Stopped)
        ensures { IsSharedRun J.run J.feed result.0 result.1 }
    {
        let SharedRun {
            board,
            line_progress,
            stopped,
            ..
        } = self;
        (board, line_progress, stopped)
    }

    /// Stops the lanes for this reason, unless they were stopped before.
    pub fn stop(&mut self, cause: Stopped)
        ensures run { self.new.run ≡ self.old.run }
        ensures stops { cause ≢ Stopped.No → self.new.stopped ≢ Stopped.No }
    {
        if self.stopped == Stopped::No {
            self.stopped = cause;
        }
    }

    /// Checks whether a lane sleeps although an event can be applied without a reply.
    pub fn has_sleepers(&self) -> bool {
        self.waiting > 0 && self.board.can_advance()
    }

    /// Notes that one more lane is needed, if no lane sleeps although an event can be applied without a reply. Returns
    /// whether one is needed.
    pub fn note_shortage(&mut self) -> bool
        ensures { self.new ≡ self.old }
    {
        if self.waiting == 0 && self.board.can_advance() {
            self.is_short = true;
        }
        self.is_short
    }

    /// Returns whether one more lane is needed, and forgets it.
    pub fn take_shortage(&mut self) -> bool
        ensures { self.new ≡ self.old }
    {
        let is_short = self.is_short;
        self.is_short = false;
        is_short
    }

    /// Checks whether lanes have nothing more to do: the run has ended, or they stop.
    pub fn is_over(&self) -> bool {
        self.stopped != Stopped::No || self.board.has_ended()
    }
}
