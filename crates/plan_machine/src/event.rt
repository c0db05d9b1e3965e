//! Events, marks, outcomes of edges, and requests. An edge is named by its number in the image.

pub(crate) mod reply;

ghost use Rattle.std.specs.Prelude.{◌≡◌, IfOk, [], get_or, length};
ghost use Rattle.plan_machine.specs.Edges.{edge_of};

use crate::event::reply::Reply;
use plan_schedule::Phase;
use plan_text::RowList;
use plan_verify::{Cause, PathList};
use std::alloc::AllocError;
use std::marker::Model;

/// An event, which may be the next one of a run. It takes 24 bytes.
#[derive(Drop)]
pub enum Event {
    /// An edge begins.
    Start(u32),
    /// An edge is skipped because of an edge that it waits for (the second number).
    Skip(u32, u32),
    /// An edge is stopped, because the failure limit has been reached.
    Stop(u32),
    /// An edge makes its next step.
    Step(u32),
    /// An edge receives a reply to its question.
    Reply(u32, Reply),
}

impl Event {
    /// Returns the edge that the event changes.
    pub(crate) fn edge(&self) -> u32
        ensures { result ≡ edge_of self.now }
    {
        match self {
            Event::Start(edge)
            | Event::Skip(edge, _)
            | Event::Stop(edge)
            | Event::Step(edge)
            | Event::Reply(edge, _) => *edge,
        }
    }

    /// Returns a copy, which shares the contents of its reply.
    pub fn copy(&self) -> Result<Event, AllocError>
        ensures { IfOk result (λ e. e ≡ self.now) }
    {
        match self {
            Event::Start(edge) => Ok(Event::Start(*edge)),
            Event::Skip(edge, wait) => Ok(Event::Skip(*edge, *wait)),
            Event::Stop(edge) => Ok(Event::Stop(*edge)),
            Event::Step(edge) => Ok(Event::Step(*edge)),
            Event::Reply(edge, reply) => Ok(Event::Reply(*edge, reply.copy()?)),
        }
    }
}

/// The outcome of an edge.
#[derive(Clone, Copy, PartialEq, Eq)]
pub enum Outcome {
    /// It succeeded without running a command.
    Clean,
    /// It succeeded, and its command ran.
    Ran,
    /// It failed. Holds the cause.
    Failed(Cause),
    /// It was skipped. Holds the edge because of which it was skipped, for which it waits.
    Skipped(u32),
    /// It was stopped, because the failure limit had been reached.
    Stopped,
    /// No target needs it.
    NotWanted,
}

impl Outcome {
    ghost use Rattle.std.specs.Prelude.{◌≡◌};
    ghost use Rattle.plan_machine.specs.Kept.{phase_over};

    /// Returns the phase of an edge that has this outcome.
    pub(crate) fn phase(self) -> Phase
        ensures { result ≡ phase_over self }
    {
        match self {
            Outcome::Clean | Outcome::Ran => Phase::Succeeded,
            Outcome::Failed(_) => Phase::Failed,
            Outcome::Skipped(_) | Outcome::Stopped => Phase::Abandoned,
            Outcome::NotWanted => Phase::NotWanted,
        }
    }
}

/// The effect of an event. The first number is that of the edge.
#[derive(Clone, Copy, PartialEq, Eq)]
pub enum Mark {
    /// It began.
    Started(u32),
    /// It was skipped because of another edge (the second number).
    Skipped(u32, u32),
    /// It was stopped.
    Stopped(u32),
    /// It took a job token.
    Took(u32),
    /// It released its job token.
    Released(u32),
    /// It asked a question.
    Asked(u32),
    /// It made any other step.
    Moved(u32),
    /// It received a reply, and goes on.
    Answered(u32),
    /// It succeeded. The flag says whether its command ran.
    Ended(u32, bool),
    /// It failed. Holds the cause.
    Failed(u32, Cause),
}

/// The files that an edge creates. A contract sees their paths.
#[derive(Drop)]
pub struct Outputs<'a> {
    files: &'a RowList<u8>,
    numbers: &'a [u32],
}

impl<'a> Model for Outputs<'a> {
    ghost use Rattle.std.specs.Prelude.{List, ℕ};
    ghost use Rattle.plan_machine.specs.Lent.{paths_by};

    ghost Value = { List (List ℕ) };

    ghost view = { λ o. paths_by o.files.now o.numbers.now };
}

impl<'a> Outputs<'a> {
    ghost use Rattle.plan_machine.specs.Lent.{paths_by};

    /// Creates the list of the files with these numbers.
    pub(crate) fn new(files: &'a RowList<u8>, numbers: &'a [u32]) -> Outputs<'a>
        ensures { result ≡ paths_by files.now numbers.now }
    {
        Outputs { files, numbers }
    }

    /// Returns the number of files.
    pub fn len(&self) -> usize
        ensures { result ≡ length self.now }
    {
        self.numbers.len()
    }

    /// Returns path `number`, counted from 0. If there is no such path, returns an empty one.
    pub fn path(&self, number: usize) -> &[u8]
        ensures { result.now ≡ get_or self.now number [] }
    {
        match self.numbers.get(number) {
            Some(file) => self.files.row(*file as usize),
            None => &[],
        }
    }
}

/// A question of an edge to the outside.
#[derive(Drop)]
pub enum Request<'a> {
    /// Asks for the time at which the file with this path was last changed.
    Stat(&'a [u8]),
    /// Asks for the record's entry of this output.
    Recall(&'a [u8]),
    /// Asks to run this command, which creates these files.
    Run(&'a [u8], Outputs<'a>),
    /// Asks for the depfile with this path.
    Deps(&'a [u8]),
    /// Asks to store an entry in the record: an output, its command, its basis (the greatest stamp that the
    /// command read), and its dependencies.
    Keep(&'a [u8], &'a [u8], u64, &'a PathList),
}
