//! An edge that has begun and not ended, and its steps and replies.

ghost use Rattle.std.specs.Prelude.{◌≡◌, ◌<◌, ◌+◌, ◌^◌, [], IfOk, IfSome, IsSome, OnErr, false, true, if◌then◌else◌, length};
ghost use Rattle.plan_image.specs.Code.{code};
ghost use Rattle.plan_verify.specs.Turn.{Goes, PlaceNotHeld, Released, Took, Wrong, act, branches, calculate, calculated, heard, holds, jumps, question, turn};
ghost use Rattle.plan_machine.specs.Depfile.{depfile};
ghost use Rattle.plan_machine.specs.Hearing.{IsHeard};
ghost use Rattle.plan_machine.specs.Kept.{phase_of};
ghost use Rattle.plan_machine.specs.Places.{at_take};
ghost use Rattle.plan_machine.specs.ParkedLocal.{parked_local};
ghost use Rattle.plan_machine.specs.State.{Active};
ghost use Rattle.plan_machine.specs.Step.{answer_of};
ghost use Rattle.plan_machine.specs.Turned.{IsMade, IsTurned};
ghost use Rattle.plan_machine.specs.Working.{IsPlain, IsSimple, Works};

use crate::edge::stack::{Slot, Stack};
use crate::edge::status::Parked;
use crate::edge::turns::{Heard, Turned};
use crate::event::reply::Reply;
use plan_image::{Image, Instr};
use plan_schedule::Phase;
use std::alloc::{AllocError, Global};
use std::marker::Model;

/// An edge that has begun and not ended: the place of its next instruction, whether it holds a job token,
/// whether its command ran, whether it awaits a reply, and its stack. It takes 16 bytes, and 1,048 more on the
/// heap for its stack.
#[derive(Drop)]
pub(crate) struct ActiveEdge {
    pub(crate) place: u32,
    pub(crate) holding: bool,
    pub(crate) ran: bool,
    pub(crate) asked: bool,
    pub(crate) stack: Stack,
}

impl Model for ActiveEdge {
    ghost use Rattle.plan_verify.specs.Turn.{Local};

    ghost Value = { Local };

    ghost view = { λ a. record { place = a.place; stack = a.stack; holding = a.holding; ran = a.ran; asked = a.asked } };
}

impl ActiveEdge {
    /// Returns whether its next instruction takes a job token.
    pub(crate) fn is_at_take(&self, image: &Image, edge: u32) -> bool
        ensures { result ≡ at_take image.now edge self.now }
    {
        matches!(image.instr(edge, self.place), Some(Instr::Take))
    }

    /// Returns its phase, which the schedule stores.
    pub(crate) fn phase(&self, image: &Image, edge: u32) -> Phase
        ensures { result ≡ phase_of image.now edge (Active self.now) }
    {
        if self.asked {
            return Phase::Waiting(self.holding);
        }
        if self.is_at_take(image, edge) {
            return Phase::AtTake(self.holding);
        }
        Phase::Runnable(self.holding)
    }

    /// Returns the same edge without a stack, if it awaits no reply and has no values. Returns None otherwise.
    pub(crate) fn rest(&self) -> Option<Parked>
        ensures { IfSome result (λ r. parked_local r ≡ self.now) }
    {
        if self.asked {
            return None;
        }
        if self.stack.len() > 0 {
            return None;
        }
        Some(Parked {
            place: self.place,
            holding: self.holding,
            ran: self.ran,
        })
    }

    /// Moves to the next place.
    fn go_on(&mut self)
        requires place { self.old.place + 1 < 2 ^ 32 }
        ensures { self.new ≡ record { place = self.old.place + 1; stack = self.old.stack; holding = self.old.holding; ran = self.old.ran; asked = false } }
    {
        self.place += 1;
        self.asked = false;
    }

    /// Calculates on the stack, and moves to the next place.
    #[inline(always)]
    pub(crate) fn calculate(&mut self, instr: Instr)
        requires place { self.old.place + 1 < 2 ^ 32 }
        requires plain { IsPlain instr }
        requires works { Works (calculated self.old (calculate instr self.old.stack)) }
        ensures { IsMade Turned.Moved self.old self.new (calculated self.old (calculate instr self.old.stack)) }
    {
        self.stack.calculate(instr);
        self.go_on();
    }

    /// Jumps to another place.
    pub(crate) fn jump(&mut self, _image: &Image, _edge: u32, to: u32)
        requires works { Works (jumps self.old (length (code _image.now _edge)) to self.old.stack) }
        ensures { IsMade Turned.Moved self.old self.new (jumps self.old (length (code _image.now _edge)) to self.old.stack) }
    {
        self.place = to;
        self.asked = false;
    }

    /// Pops a flag, and jumps to another place if the flag is true. Otherwise moves to the next place.
    pub(crate) fn branch(&mut self, image: &Image, edge: u32, to: u32)
        requires place { self.old.place + 1 < 2 ^ 32 }
        requires works { Works (branches self.old (length (code image.now edge)) to self.old.stack) }
        ensures { IsMade Turned.Moved self.old self.new (branches self.old (length (code image.now edge)) to self.old.stack) }
    {
        let on = self.stack.pop_flag();
        if on {
            self.jump(image, edge, to);
        } else {
            self.go_on();
        }
    }

    /// Releases the job token.
    fn release(&mut self)
        requires place { self.old.place + 1 < 2 ^ 32 }
        requires works { Works (if self.old.holding then holds Released self.old false else Wrong PlaceNotHeld) }
        ensures { IsMade Turned.Released self.old self.new (if self.old.holding then holds Released self.old false else Wrong PlaceNotHeld) }
    {
        self.holding = false;
        self.go_on();
    }

    /// Takes a job token.
    fn take(&mut self)
        requires place { self.old.place + 1 < 2 ^ 32 }
        ensures { holds Took self.old true ≡ Goes Took self.new }
    {
        self.holding = true;
        self.go_on();
    }

    /// Executes an instruction that reads no slot and takes no memory.
    fn act(&mut self, image: &Image, edge: u32, _slots: &[Slot], instr: Instr) -> Turned
        requires place { self.old.place + 1 < 2 ^ 32 }
        requires simple { IsSimple instr }
        requires works { Works (act image.now edge _slots.now self.old instr) }
        ensures { IsMade result self.old self.new (act image.now edge _slots.now self.old instr) }
    {
        match instr {
            Instr::End => Turned::Ended,
            Instr::Jump(to) => {
                self.jump(image, edge, to);
                Turned::Moved
            }
            Instr::JumpIf(to) => {
                self.branch(image, edge, to);
                Turned::Moved
            }
            Instr::Take => {
                self.take();
                Turned::Took
            }
            Instr::Release => {
                self.release();
                Turned::Released
            }
            Instr::Stat(_)
            | Instr::Need(_)
            | Instr::Recall
            | Instr::Run
            | Instr::Deps
            | Instr::Keep => {
                self.asked = true;
                Turned::Asked
            }
            _ => {
                self.calculate(instr);
                Turned::Moved
            }
        }
    }

    /// Executes an instruction.
    fn turn(
        &mut self,
        alloc: Global,
        image: &Image,
        edge: u32,
        slots: &mut Vec<Slot>,
        instr: Instr,
    ) -> Result<Turned, AllocError>
        requires place { self.old.place + 1 < 2 ^ 32 }
        requires table { length slots.old.items ≡ length image.now.slots }
        requires works { Works (act image.now edge slots.old.items self.old instr) }
        ensures ok { IfOk result (λ r. IsTurned r self.old self.new slots.old.items slots.new.items (act image.now edge slots.old.items self.old instr)) }
        ensures err { OnErr result ((self.new ≡ self.old) × (slots.new.items ≡ slots.old.items)) }
    {
        match instr {
            Instr::Store(slot) => Ok(self.store(image, edge, slots, slot)),
            Instr::Text(text) => self.write(alloc, image, text),
            Instr::NoPaths => self.no_paths(alloc),
            Instr::Load(slot) => self.load(slots, slot),
            Instr::Sweep => Ok(self.sweep()),
            Instr::Equal => {
                self.equal();
                Ok(Turned::Moved)
            }
            Instr::Join => self.join(alloc),
            _ => Ok(self.act(image, edge, slots, instr)),
        }
    }

    /// Executes one step.
    #[tactic(auto, using(crate::proofs::Applies::turn_is, crate::proofs::Applies::turn_none))]
    pub(crate) fn step(
        &mut self,
        alloc: Global,
        image: &Image,
        edge: u32,
        slots: &mut Vec<Slot>,
    ) -> Result<Turned, AllocError>
        requires short { length (code image.now edge) < 2 ^ 32 }
        requires place { self.old.place < length (code image.now edge) }
        requires table { length slots.old.items ≡ length image.now.slots }
        requires works { Works (turn image.now edge slots.old.items self.old) }
        ensures ok { IfOk result (λ r. IsTurned r self.old self.new slots.old.items slots.new.items (turn image.now edge slots.old.items self.old)) }
        ensures err { OnErr result ((self.new ≡ self.old) × (slots.new.items ≡ slots.old.items)) }
    {
        match image.instr(edge, self.place) {
            Some(instr) => self.turn(alloc, image, edge, slots, instr),
            None => unreachable!(),
        }
    }

    /// Receives a reply, and acts on it. Returns `Unfit` if the reply doesn't match the question.
    #[tactic(auto, using(crate::proofs::AskingLemmas::heard_unasked, crate::proofs::AskingLemmas::heard_in, crate::proofs::AskingLemmas::heard_out, crate::proofs::AskingLemmas::works_in, crate::proofs::AskingLemmas::sweeps_in, crate::proofs::AskingLemmas::fits_in))]
    pub(crate) fn hear(
        &mut self,
        alloc: Global,
        image: &Image,
        edge: u32,
        reply: Reply,
    ) -> Result<Heard, AllocError>
        requires short { length (code image.now edge) < 2 ^ 32 }
        requires place { self.old.place < length (code image.now edge) }
        requires asks { self.old.asked ≡ true → IsSome (question image.now edge [] self.old) }
        requires works { IfSome (heard depfile image.now edge self.old (answer_of reply)) Works }
        ensures ok { IfOk result (λ r. IsHeard r self.old self.new (heard depfile image.now edge self.old (answer_of reply))) }
        ensures fits { OnErr result (IsSome (heard depfile image.now edge self.old (answer_of reply))) }
        ensures err { OnErr result (self.new ≡ self.old) }
    {
        if !self.asked {
            return Ok(Heard::Unfit);
        }
        match image.instr(edge, self.place) {
            Some(instr) => self.hear_at(alloc, instr, reply),
            None => Ok(Heard::Unfit),
        }
    }
}
