//! Reasons why lanes return no complete run.

ghost use Rattle.std.specs.Prelude.{◌≡◌};
ghost use Rattle.plan_lanes.specs.Faults.{number_of};

use crate::board::Report;
use plan_machine::Refused;

/// The reason why lanes return no complete run. If the run was opened, the fault holds the run so far.
#[derive(Drop)]
pub enum LaneFault {
    /// The run wasn't opened: a target isn't an edge, or memory ran out.
    Opening(Refused),
    /// The machine refused a reply of the world, because the reply doesn't suit its question.
    NotEnabled(Report),
    /// Memory ran out, in a lane or in the world.
    NoMemory(Report),
    /// No thread could be started.
    NoLane(Report),
    /// All lanes returned, but the run hasn't ended.
    OtherBoard(Report),
}

impl LaneFault {
    /// Returns the number of the fault that a program prints: the number of the machine's refusal, 110 if a reply
    /// doesn't suit its question, or 120 to 122 in the order of the other variants. The numbers are this project's own.
    pub fn number(&self) -> u8
        ensures { result ≡ number_of self.now }
    {
        match self {
            LaneFault::Opening(refused) => refused.number(),
            LaneFault::NotEnabled(_report) => 110,
            LaneFault::NoMemory(_report) => 120,
            LaneFault::NoLane(_report) => 121,
            LaneFault::OtherBoard(_report) => 122,
        }
    }
}
