//! Many events of one edge at once.

ghost use Rattle.std.specs.Prelude.{ℕ, ◌≡◌, ◌≢◌, ◌<◌, ◌≤◌, ◌+◌, [], IfErr, IfOk, IfSome, None, OnErr, OnOk, Some, false, get_or, length, take, true};
ghost use Rattle.plan_verify.specs.Turn.{Stat};
ghost use Rattle.plan_machine.specs.declared.event.Event.TheVariants.{Reply as Hear};
ghost use Rattle.plan_machine.specs.declared.event.reply.Reply.TheVariants.{Stamp};
ghost use Rattle.plan_machine.specs.Depfile.{depfile};
ghost use Rattle.plan_machine.specs.Requests.{asked_at};
ghost use Rattle.plan_machine.specs.Step.{NotEnabled, step};
ghost use Rattle.plan_lanes.specs.Boards.{IsNumbered, IsOpen, MayJournal};
ghost use Rattle.plan_lanes.specs.declared.board.Advance.TheVariants.{Job};
ghost use Rattle.plan_lanes.specs.Observations.{Observes};
ghost use Rattle.plan_lanes.specs.Permits.{Permits};
ghost use Rattle.plan_lanes.specs.Proceeds.{AnswersRow, AwaitsReply, HearsAndGoesOn, HearsFront, HearsRow, Proceeds};
ghost use Rattle.plan_lanes.specs.Questions.{shown};
ghost use Rattle.plan_lanes.specs.LocalRuns.{Follows, GoesOn, Rushes, SweepsRow};

use super::{Advance, Board, Permit, owned_request, permit_for, put};
use crate::batch::{OwnedRequest, Question};
use crate::printed_run::keep;
use crate::stamp_row::StampRow;
use crate::world::World;
use plan_machine::{Event, LocalRun, Refused, Reply};
use plan_text::Items;
use std::alloc::AllocError;
use std::mem::replace;

/// The number of events of a reply and a local run, at most.
const ROOM: usize = 66;

impl<'v, W: World> Board<'v, W> {
    /// Makes the steps of an edge that ask nothing and touch no other edge, and appends them to the journal. Their
    /// marks report nothing.
    fn record_local_run(&mut self, edge: u32) -> Result<LocalRun, Refused>
        ensures ok { IfOk result (λ r. Rushes self.old self.new edge r) }
        ensures err { OnErr result (self.new ≡ self.old) }
        ensures memory { IfErr result (λ r. r ≡ Refused.Memory) }
    {
        self.journal_builder.reserve(ROOM)?;
        let local_run = self.state.run_locally(self.image, edge);
        if local_run.is_still() {
            return Ok(local_run);
        }
        self.journal_builder.push_steps(edge, local_run.count());
        let number = self.journal_builder.len() - 1;
        put(&mut self.numbers, edge as usize, number as u64);
        Ok(local_run)
    }

    /// Applies a reply, then makes steps as `record_local_run` does, and appends all that to the journal, and the mark
    /// of the reply if it reports something. If the reply is refused, nothing changes.
    fn record_reply(&mut self, edge: u32, reply: Reply) -> Result<LocalRun, Refused>
        requires { MayJournal W.allows self.old (Hear edge reply) }
        ensures ok { IfOk result (λ r. Follows self.old self.new edge reply r) }
        ensures err { OnErr result (self.new ≡ self.old) }
        ensures refused { IfErr result (λ r. r ≡ Refused.NotEnabled → step depfile self.old.opened.parts self.old.opened.limits self.old.state (Hear edge reply) ≡ NotEnabled) }
        ensures inside { IfErr result (λ r. r ≢ Refused.BadTarget) }
    {
        self.marks.reserve(1)?;
        self.journal_builder.reserve(ROOM)?;
        self.journal_builder.push_heard(edge, &reply)?;
        match self.state.follow(self.image, edge, reply) {
            Ok((mark, local_run)) => {
                self.journal_builder.push_steps(edge, local_run.count());
                keep(&mut self.marks, mark);
                let number = self.journal_builder.len() - 1;
                put(&mut self.numbers, edge as usize, number as u64);
                Ok(local_run)
            }
            Err(refused) => {
                self.journal_builder.remove_last();
                Err(refused)
            }
        }
    }

    /// Checks whether the last event of an edge is at this position.
    #[tactic(auto, using(crate::proofs::LocalRunLemmas::numbered_so))]
    fn is_numbered(&self, edge: u32, number: u64) -> bool
        ensures { result ≡ true → IsNumbered self.now edge number }
    {
        match self.numbers.get(edge as usize) {
            Some(last) => *last == number,
            None => false,
        }
    }

    /// Applies stamps of a row to an edge that awaits the reply to its question, each with the step that asks for the
    /// next path. Appends all that to the journal, and returns the number of stamps. None of these events reports
    /// anything. Stamps at the end of the row may be left, such as that of the last path.
    fn record_row(&mut self, row: &StampRow<W>) -> Result<usize, Refused>
        ensures ok { IfOk result (λ n. SweepsRow self.old self.new row.now.edge (take n row.now.stamps)) }
        ensures most { IfOk result (λ n. n ≤ length row.now.stamps) }
        ensures awaited { IfOk result (λ n. 0 < n → IsOpen self.old row.now.edge row.now.number (Stat (get_or row.now.paths row.now.from []))) }
        ensures asks { IfOk result (λ n. 0 < n → AwaitsReply self.new row.now.edge) }
        ensures err { OnErr result (self.new ≡ self.old) }
        ensures memory { IfErr result (λ r. r ≡ Refused.Memory) }
    {
        let edge = row.edge();
        if !self.is_numbered(edge, row.number()) {
            return Ok(0);
        }
        self.journal_builder.reserve_row(row.stamps().len())?;
        let count = self
            .state
            .sweep_row(self.image, edge, row.paths(), row.from(), row.stamps());
        if count == 0 {
            return Ok(0);
        }
        self.journal_builder.push_row(edge, &row.stamps()[..count]);
        let last = self.journal_builder.len() - 1;
        put(&mut self.numbers, edge as usize, last as u64);
        Ok(count)
    }

    /// Applies stamps of a row as `record_row` does. Returns the next stamp that is left, with the question for its
    /// path.
    fn take_row(&mut self, row: StampRow<W>) -> Result<Option<(Question, Reply)>, Refused>
        ensures goes { GoesOn self.old self.new }
        ensures some { IfOk result (λ o. IfSome o (λ x. (stamp : ℕ) × (x.1 ≡ Stamp stamp) × HearsFront self.old self.new row.edge row.stamps stamp)) }
        ensures allowed { IfOk result (λ o. IfSome o (λ x. W.allows x.0.number (shown x.0.request) x.1)) }
        ensures first { IfOk result (λ o. IfSome o (λ x. IsOpen self.new row.edge x.0.number (shown x.0.request) → IsOpen self.old row.edge row.number (Stat (get_or row.paths row.from [])))) }
        ensures none { IfOk result (λ o. o ≡ None → SweepsRow self.old self.new row.edge row.stamps × AwaitsReply self.new row.edge × IsOpen self.old row.edge row.number (Stat (get_or row.paths row.from []))) }
        ensures err { OnErr result (self.new ≡ self.old) }
        ensures memory { IfErr result (λ r. r ≡ Refused.Memory) }
    {
        let number = row.number();
        let count = self.record_row(&row)?;
        if count == 0 {
            return Ok(row.into_reply(0, number));
        }
        let last = self.journal_builder.len() as u64 - 1;
        Ok(row.into_reply(count, last))
    }

    /// Applies the stamps of a row to the edge of the row, one after another, and makes the local steps of the edge.
    /// Returns whether the edge then asks a question.
    pub(crate) fn follow_row(&mut self, row: StampRow<W>) -> Result<bool, Refused>
        ensures goes { GoesOn self.old self.new }
        ensures awaited { IfOk result (λ r. IsOpen self.old row.edge row.number (Stat (get_or row.paths row.from []))) }
        ensures hears { IfOk result (λ r. HearsRow self.old self.new row.edge row.stamps r) }
        ensures asks { IfOk result (λ r. r ≡ true → AwaitsReply self.new row.edge) }
        ensures inside { IfErr result (λ r. r ≢ Refused.BadTarget) }
        ensures rests { IfOk result (λ r. r ≡ false → asked_at self.new.opened.parts self.new.state row.edge ≡ None) }
    {
        let edge = row.edge();
        match self.take_row(row)? {
            Some((question, reply)) => self.follow(edge, &question, reply),
            None => Ok(true),
        }
    }

    /// Applies the stamps of a row like `follow_row`, but makes only the local steps up to the question for the next
    /// path. Returns whether the edge asks for the next path.
    pub(crate) fn answer_row(&mut self, row: StampRow<W>) -> Result<bool, Refused>
        ensures goes { GoesOn self.old self.new }
        ensures awaited { IfOk result (λ r. IsOpen self.old row.edge row.number (Stat (get_or row.paths row.from []))) }
        ensures hears { IfOk result (λ r. AnswersRow self.old self.new row.edge row.stamps r) }
        ensures asks { IfOk result (λ r. r ≡ true → AwaitsReply self.new row.edge) }
        ensures inside { IfErr result (λ r. r ≢ Refused.BadTarget) }
    {
        let edge = row.edge();
        match self.take_row(row)? {
            Some((question, reply)) => {
                self.answer_to(edge, &question, reply)?;
                Ok(false)
            }
            None => Ok(true),
        }
    }

    /// Applies a reply like `answer_to`, and makes the local steps of its edge. Returns whether the edge then asks a
    /// question.
    pub(crate) fn follow(
        &mut self,
        edge: u32,
        question: &Question,
        reply: Reply,
    ) -> Result<bool, Refused>
        requires { W.allows question.now.number (shown question.now.request) reply }
        ensures goes { GoesOn self.old self.new }
        ensures awaited { IfOk result (λ r. IsOpen self.old edge question.now.number (shown question.now.request)) }
        ensures hears { IfOk result (λ r. HearsAndGoesOn self.old self.new edge reply r) }
        ensures asks { IfOk result (λ r. r ≡ true → AwaitsReply self.new edge) }
        ensures err { OnErr result (self.new ≡ self.old) }
        ensures refused { IfErr result (λ r. r ≡ Refused.NotEnabled → IsOpen self.old edge question.now.number (shown question.now.request) → step depfile self.old.opened.parts self.old.opened.limits self.old.state (Hear edge reply) ≡ NotEnabled) }
        ensures inside { IfErr result (λ r. r ≢ Refused.BadTarget) }
        ensures rests { IfOk result (λ r. r ≡ false → asked_at self.new.opened.parts self.new.state edge ≡ None) }
    {
        if !self.is_open(edge, question) {
            return Err(Refused::NotEnabled);
        }
        let local_run = self.record_reply(edge, reply)?;
        Ok(local_run.asked)
    }

    /// Returns what an edge asks that awaits a reply. A copy of a path is in `room`.
    fn owned_request_of(&self, edge: u32, room: Vec<u8>) -> Result<OwnedRequest, AllocError>
        requires { AwaitsReply self.now edge }
        ensures { IfOk result (λ a. asked_at self.now.opened.parts self.now.state edge ≡ Some (shown a)) }
    {
        if let Some((paths, place)) = self.state.sweeping(self.image, edge) {
            return Ok(OwnedRequest::Sweep(paths.copy()?, place));
        }
        let Some(request) = self.state.request(self.image, edge) else {
            unreachable!()
        };
        owned_request(self.alloc, room, &request)
    }

    /// Returns the question whose reply an edge awaits. A copy of a path is in `room`.
    pub(crate) fn open_question(&self, edge: u32, room: Vec<u8>) -> Result<Question, AllocError>
        requires { AwaitsReply self.now edge }
        ensures { IfOk result (λ q. IsOpen self.now edge q.number (shown q.request)) }
    {
        match self.numbers.get(edge as usize) {
            Some(number) => Ok(Question {
                number: *number,
                request: self.owned_request_of(edge, room)?,
            }),
            None => unreachable!(),
        }
    }

    /// Replaces a question of an edge by the one whose reply the edge awaits. The new question uses the bytes of the
    /// old one. If memory runs out, the old question is lost.
    pub(crate) fn ask_again(&self, edge: u32, question: &mut Question) -> Result<(), AllocError>
        requires { AwaitsReply self.now edge }
        ensures { OnOk result (IsOpen self.now edge question.new.number (shown question.new.request)) }
    {
        let nothing = OwnedRequest::Stat(Items::empty(self.alloc));
        let before = replace(&mut question.request, nothing);
        *question = self.open_question(edge, before.into_room(self.alloc))?;
        Ok(())
    }

    /// Does what can be done next without a reply, like `advance`, but an edge starts before another one takes a job
    /// token. If it is a local step of an edge, makes all local steps of the edge.
    pub(crate) fn proceed(&mut self) -> Result<Advance, Refused>
        ensures goes { GoesOn self.old self.new }
        ensures ok { IfOk result (λ a. Proceeds self.old self.new a) }
        ensures observes { IfOk result (λ a. Observes W.observes self.new a) }
        ensures memory { IfErr result (λ r. r ≡ Refused.Memory) }
    {
        if let Some(event) = self.state.pick_start(self.image) {
            return self.go_on(event);
        }
        match self.state.pick(self.image) {
            Some(Event::Step(edge)) => self.proceed_with(edge),
            _ => self.advance_one(),
        }
    }

    /// Checks whether `proceed` would let an edge take a job token.
    pub(crate) fn takes_next(&self) -> bool {
        if self.state.pick_start(self.image).is_some() {
            return false;
        }
        match self.state.pick(self.image) {
            Some(Event::Step(edge)) => self.state.is_at_take(self.image, edge),
            _ => false,
        }
    }

    /// Makes the local steps of an edge, or applies one other event if there is no such step.
    fn proceed_with(&mut self, edge: u32) -> Result<Advance, Refused>
        ensures goes { GoesOn self.old self.new }
        ensures ok { IfOk result (λ a. Proceeds self.old self.new a) }
        ensures observes { IfOk result (λ a. Observes W.observes self.new a) }
        ensures memory { IfErr result (λ r. r ≡ Refused.Memory) }
    {
        let local_run = self.record_local_run(edge)?;
        if local_run.asked {
            let (question, permit) = self.ask_of(edge)?;
            return Ok(Advance::Job(edge, question, permit));
        }
        if local_run.is_still() {
            return self.advance_one();
        }
        Ok(Advance::Moved)
    }

    /// Returns the question of an edge that asked, and the permit to run its command if it asks for that.
    fn ask_of(&self, edge: u32) -> Result<(Question, Option<Permit>), AllocError>
        requires { AwaitsReply self.now edge }
        ensures awaited { IfOk result (λ x. IsOpen self.now edge x.0.number (shown x.0.request)) }
        ensures permit { IfOk result (λ x. Permits self.now.opened.parts edge (shown x.0.request) x.1) }
        ensures observes { IfOk result (λ x. Observes W.observes self.now (Job edge x.0 x.1)) }
    {
        let question = self.open_question(edge, Vec::new(self.alloc))?;
        let parts = self.parts_for(edge, &question.request)?;
        let permit = permit_for(self.image, edge, parts);
        Ok((question, permit))
    }
}
