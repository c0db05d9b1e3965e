//! Local steps, which an edge makes by itself. They depend on no other edge, take and release no job token, and
//! can't fail.

ghost use Rattle.std.specs.Prelude.{◌≡◌, ◌<◌, ◌≤◌, ◌+◌, ◌^◌, IfNone, IfOk, IfSome, OnErr, Some, length, true};
ghost use Rattle.plan_image.specs.Code.{code};
ghost use Rattle.plan_verify.specs.Turn.{Local, act};
ghost use Rattle.plan_machine.specs.Applying.{CanTurn};
ghost use Rattle.plan_machine.specs.LocalRuns.{CanStepLocally, HasMadeLocalStep, StandsOtherwise, IsLocalStep, StepsLocallyBy, is_local_step};
ghost use Rattle.plan_machine.specs.State.{Active};
ghost use Rattle.plan_machine.specs.ParkedLocal.{parked_local};
ghost use Rattle.plan_machine.specs.Turned.{IsMade, IsTurned};
ghost use Rattle.plan_machine.specs.Working.{IsSimple, Works};

use crate::edge::active_edge::ActiveEdge;
use crate::edge::stack::{Slot, Stack};
use crate::edge::status::{EdgeState, Parked, Status};
use crate::edge::turns::Turned;
use crate::run::local_runs::LocalRun;
use plan_image::{CodeView, Image, Instr};
use std::alloc::{AllocError, Global};

/// The most steps of a local run, not counting the one that asks.
const MOST: u32 = 64;

/// Returns whether the step of an instruction is a local one.
fn is_local_step(instr: Instr) -> bool
    ensures { result ≡ is_local_step instr }
{
    match instr {
        Instr::End | Instr::Join | Instr::Take | Instr::Release | Instr::Run => false,
        _ => true,
    }
}

impl ActiveEdge {
    /// Executes one instruction whose step is a local one.
    fn local_step_by(
        &mut self,
        alloc: Global,
        image: &Image,
        edge: u32,
        slots: &mut Vec<Slot>,
        instr: Instr,
    ) -> Result<Turned, AllocError>
        requires place { self.old.place + 1 < 2 ^ 32 }
        requires table { length slots.old.items ≡ length image.now.slots }
        requires local_step { is_local_step instr ≡ true }
        requires works { Works (act image.now edge slots.old.items self.old instr) }
        ensures local_step { IfOk result IsLocalStep }
        ensures made { IfOk result (λ r. IsTurned r self.old self.new slots.old.items slots.new.items (act image.now edge slots.old.items self.old instr)) }
        ensures err { OnErr result ((self.new ≡ self.old) × (slots.new.items ≡ slots.old.items)) }
    {
        match instr {
            Instr::Store(slot) => Ok(self.store(image, edge, slots, slot)),
            Instr::Text(text) => self.write(alloc, image, text),
            Instr::NoPaths => self.no_paths(alloc),
            Instr::Load(slot) => self.load(slots, slot),
            Instr::Sweep => Ok(self.sweep()),
            Instr::Equal => {
                self.equal();
                Ok(Turned::Moved)
            }
            _ => Ok(self.step_plainly(image, edge, slots, instr)),
        }
    }

    /// Executes one such instruction that reads no slot and takes no memory.
    fn step_plainly(&mut self, image: &Image, edge: u32, _slots: &[Slot], instr: Instr) -> Turned
        requires place { self.old.place + 1 < 2 ^ 32 }
        requires simple { IsSimple instr }
        requires local_step { is_local_step instr ≡ true }
        requires works { Works (act image.now edge _slots.now self.old instr) }
        ensures local_step { IsLocalStep result }
        ensures made { IsMade result self.old self.new (act image.now edge _slots.now self.old instr) }
    {
        match instr {
            Instr::Jump(to) => {
                self.jump(image, edge, to);
                Turned::Moved
            }
            Instr::JumpIf(to) => {
                self.branch(image, edge, to);
                Turned::Moved
            }
            Instr::Stat(_) | Instr::Need(_) | Instr::Recall | Instr::Deps | Instr::Keep => {
                self.asked = true;
                Turned::Asked
            }
            _ => {
                self.calculate(instr);
                Turned::Moved
            }
        }
    }

    /// Makes one step if it is a local one and memory doesn't run out.
    #[tactic(auto, using(crate::proofs::Applies::turn_is, crate::proofs::Applies::turn_none, crate::proofs::LocalRunLemmas::elsewhere_so))]
    fn local_step(
        &mut self,
        alloc: Global,
        image: &Image,
        edge: u32,
        view: &CodeView<'_>,
        slots: &mut Vec<Slot>,
    ) -> Option<Turned>
        requires short { length (code image.now edge) < 2 ^ 32 }
        requires view { view.now ≡ code image.now edge }
        requires turns { CanTurn image.now slots.old.items edge self.old }
        ensures some { IfSome result (λ r. HasMadeLocalStep image.now edge r self.old self.new slots.old.items slots.new.items) }
        ensures none { IfNone result ((self.new ≡ self.old) × (slots.new.items ≡ slots.old.items)) }
    {
        if self.asked {
            return None;
        }
        match view.instr(self.place) {
            Some(instr) => {
                if !is_local_step(instr) {
                    return None;
                }
                self.local_step_by(alloc, image, edge, slots, instr).ok()
            }
            None => unreachable!(),
        }
    }

    /// Makes local steps, up to one that asks. The code of the edge is looked up once for all of them.
    pub(crate) fn local_step_on(
        &mut self,
        alloc: Global,
        image: &Image,
        edge: u32,
        view: &CodeView<'_>,
        slots: &mut Vec<Slot>,
    ) -> LocalRun
        requires short { length (code image.now edge) < 2 ^ 32 }
        requires view { view.now ≡ code image.now edge }
        requires turns { CanStepLocally image.now edge self.old slots.old.items }
        ensures stepped_locally { StepsLocallyBy image.now edge result.steps result.asked self.old slots.old.items self.new slots.new.items }
        ensures most { result.steps ≤ 64 }
    {
        let mut steps = 0;
        for _turn in 0..MOST {
            match self.local_step(alloc, image, edge, view, slots) {
                None => {
                    return LocalRun {
                        steps,
                        asked: false,
                    };
                }
                Some(turned) => {
                    if turned.asks() {
                        return LocalRun { steps, asked: true };
                    }
                    steps += 1;
                }
            }
        }
        LocalRun {
            steps,
            asked: false,
        }
    }
}

impl Parked {
    /// Returns the same edge with an empty stack. Returns None if its next step isn't a local one or memory
    /// runs out.
    fn wake_for_local_step(
        self,
        alloc: Global,
        view: &CodeView<'_>,
        spare: &mut Vec<Stack>,
    ) -> Option<ActiveEdge>
        ensures { IfSome result (λ a. a ≡ parked_local self) }
    {
        match view.instr(self.place) {
            Some(instr) => {
                if !is_local_step(instr) {
                    return None;
                }
                match Stack::of_spare(alloc, spare) {
                    Ok(stack) => Some(self.wake(stack)),
                    Err(_) => None,
                }
            }
            None => None,
        }
    }
}

impl Status {
    /// Gives the edge a stack if it has none and its next step is a local one, unless memory runs out.
    fn wake_for_local_step(&mut self, alloc: Global, view: &CodeView<'_>, spare: &mut Vec<Stack>)
        ensures { self.new ≡ self.old }
    {
        match &self.stage {
            EdgeState::Parked(parked) => match parked.wake_for_local_step(alloc, view, spare) {
                Some(active_edge) => {
                    self.stage = EdgeState::Active(active_edge);
                }
                None => {}
            },
            _ => {}
        }
    }

    /// Makes local steps of the edge, which has begun and not ended, if it has a stack.
    fn step_awake(
        &mut self,
        alloc: Global,
        image: &Image,
        edge: u32,
        view: &CodeView<'_>,
        slots: &mut Vec<Slot>,
    ) -> LocalRun
        requires short { length (code image.now edge) < 2 ^ 32 }
        requires view { view.now ≡ code image.now edge }
        requires turns { (l : Local) × (self.old ≡ Active l) × CanStepLocally image.now edge l slots.old.items }
        ensures stepped_locally { StandsOtherwise image.now edge result self.old self.new slots.old.items slots.new.items }
        ensures most { result.steps ≤ 64 }
    {
        match &mut self.stage {
            EdgeState::Active(active_edge) => active_edge.local_step_on(
                alloc, image, edge, view, slots,
            ),
            _ => LocalRun {
                steps: 0,
                asked: false,
            },
        }
    }

    /// Makes local steps of the edge, which has begun and not ended, up to one that asks. If it needs a stack, takes
    /// a spare one.
    pub(crate) fn local_step_on(
        &mut self,
        alloc: Global,
        image: &Image,
        edge: u32,
        view: &CodeView<'_>,
        slots: &mut Vec<Slot>,
        spare: &mut Vec<Stack>,
    ) -> LocalRun
        requires short { length (code image.now edge) < 2 ^ 32 }
        requires view { view.now ≡ code image.now edge }
        requires turns { (l : Local) × (self.old ≡ Active l) × CanStepLocally image.now edge l slots.old.items }
        ensures stepped_locally { StandsOtherwise image.now edge result self.old self.new slots.old.items slots.new.items }
        ensures most { result.steps ≤ 64 }
    {
        self.wake_for_local_step(alloc, view, spare);
        self.step_awake(alloc, image, edge, view, slots)
    }
}
