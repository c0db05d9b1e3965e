//! Questions to run commands, with their permits.

ghost use Rattle.std.specs.Prelude.{◌≡◌};
ghost use Rattle.plan_lanes.specs.Permits.{IsPermitted, permitted_run};
ghost use Rattle.plan_lanes.specs.Questions.{shown};

use crate::batch::{BatchItem, OwnedRequest, Question};
use crate::board::Permit;
use crate::world::World;
use std::marker::Model;

/// The question of an edge to run its command, with the permit for exactly this command.
pub(crate) struct RunOrder {
    edge: u32,
    question: Question,
    permit: Permit,
}

impl Model for RunOrder {
    ghost use Rattle.plan_lanes.specs.Permits.{IsPermitted, PermittedRun, permitted_run};
    ghost use Rattle.plan_lanes.specs.Questions.{shown};

    ghost Value = { PermittedRun };

    ghost view = { λ o. permitted_run o.edge o.question.number (shown o.question.request) o.permit.console };

    ghost invariant = { λ o. IsPermitted o.edge (shown o.question.request) o.permit };
}

impl RunOrder {
    /// Creates the order of a question and its permit.
    pub fn new(edge: u32, question: Question, permit: Permit) -> RunOrder
        requires { IsPermitted edge (shown question.request) permit }
        ensures { result ≡ permitted_run edge question.number (shown question.request) permit.console }
    {
        RunOrder {
            edge,
            question,
            permit,
        }
    }

    /// Runs the command. Returns the question with the reply, or without a reply if memory ran out.
    pub fn run<W: World>(self, world: &W) -> BatchItem<W>
        ensures edge { result.edge ≡ self.edge }
        ensures number { result.number ≡ self.number }
        ensures request { result.request ≡ self.request }
    {
        let RunOrder {
            edge,
            question,
            permit,
        } = self;
        let reply = match &question.request {
            OwnedRequest::Run(_command, outputs) => {
                world.run(question.number, outputs, permit).ok()
            }
            _ => {
                permit.spend();
                None
            }
        };
        BatchItem::with_reply(edge, question, reply)
    }

    /// Gives the order up: its command doesn't run.
    pub fn give_up(self) {
        let RunOrder {
            edge,
            question,
            permit,
        } = self;
        let _ = edge;
        drop(question);
        permit.spend();
    }
}
