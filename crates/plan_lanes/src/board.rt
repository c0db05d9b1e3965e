//! The run so far, which lanes share.

ghost use Rattle.std.specs.Prelude.{◌≡◌, ◌≢◌, ◌⊎◌, ◌↔◌, ◌∷◌, [], ◌++◌, IfErr, IfOk, IfSome, IsTrue, OnErr, OnOk, false, is_some, length, slice_set, true};
ghost use Rattle.plan_image.specs.declared.image.Parts.{Parts};
ghost use Rattle.plan_machine.specs.declared.event.Event.TheVariants.{Reply as Hear};
ghost use Rattle.plan_machine.specs.Depfile.{depfile};
ghost use Rattle.plan_machine.specs.Edges.{edge_of};
ghost use Rattle.plan_machine.specs.NeverStuck.{CanGo, is_own};
ghost use Rattle.plan_machine.specs.Picking.{IsEnabled};
ghost use Rattle.plan_machine.specs.Requests.{Asks, shown as request_shown};
ghost use Rattle.plan_machine.specs.Step.{NotEnabled, step};
ghost use Rattle.plan_machine.specs.State.{has_ended};
ghost use Rattle.plan_machine.specs.Total.{total_of};
ghost use Rattle.plan_machine.specs.Wanted.{any_outside};
ghost use Rattle.plan_lanes.specs.Advances.{Advances, WouldAsk};
ghost use Rattle.plan_lanes.specs.Boards.{Applies, IsFresh, IsOpen, MayJournal};
ghost use Rattle.plan_lanes.specs.Journals.{IsLastOf};
ghost use Rattle.plan_lanes.specs.Observations.{Observes, observed_if};
ghost use Rattle.plan_lanes.specs.Permits.{AreParts, permit_of};
ghost use Rattle.plan_lanes.specs.Proceeds.{Proceeds};
ghost use Rattle.plan_lanes.specs.Progress.{Opened, opened_with, run_state_of};
ghost use Rattle.plan_lanes.specs.Questions.{shown};
ghost use Rattle.plan_lanes.specs.Reports.{IsKeptBy, IsRunOf, IsTotalOf};
ghost use Rattle.plan_lanes.specs.LocalRuns.{GoesOn};

pub(crate) mod local_runs;

use crate::batch::{OwnedRequest, Question, bytes_of, path_in, paths_of};
use crate::keeping_of::KeepingOf;
use crate::observed::Observed;
use crate::printed_run::keep;
use crate::world::World;
use plan_journal::{Journal, JournalBuilder, KeptJournal};
use plan_machine::{
    Event, Mark, Options, Refused, Reply, Request, State, depfiles_are_frugal, marks_are_orderly,
    never_wrong, stays_in_budget,
};
use plan_status::is_console;
use plan_text::Items;
use plan_verify::{PathList, Verified};
use std::alloc::{AllocError, Global};
use std::marker::{Model, PhantomData};

/// The permit to run one command, which it has. Only a board creates one, together with the question to run this
/// command. Nothing copies or drops a permit: the call that runs the command spends it.
pub struct Permit {
    edge: u32,
    console: bool,
    command: Items<u8>,
    observed: Option<Observed>,
}

/// The parts of a permit that take memory. A board has them before it applies the event that asks, and creates the
/// permit after that.
#[derive(Drop)]
struct PermitParts {
    command: Items<u8>,
    observed: Option<Observed>,
}

impl Permit {
    ghost use Rattle.std.specs.Prelude.{◌≡◌, option_map};
    ghost use Rattle.plan_lanes.specs.Permits.{permit_with};

    /// Creates the permit for the command of an edge. `console` says whether it is a console edge.
    fn new(edge: u32, console: bool, parts: PermitParts) -> Permit
        ensures { result ≡ permit_with edge console parts }
    {
        let PermitParts { command, observed } = parts;
        Permit {
            edge,
            console,
            command,
            observed,
        }
    }

    /// Returns the edge whose command it permits.
    pub fn edge(&self) -> u32
        ensures { result ≡ self.now.edge }
    {
        self.edge
    }

    /// Checks whether it is the permit of a console edge. The command of a console edge has the program's own standard
    /// input, output and error, and nothing else is printed while it runs (the Ninja manual, "The console pool").
    pub fn console(&self) -> bool
        ensures { result ≡ self.now.console }
    {
        self.console
    }

    /// Returns the command that it permits.
    pub fn command(&self) -> &[u8]
        ensures { result.now ≡ self.now.command }
    {
        self.command.as_slice()
    }

    /// Returns what the edge has observed up to here. Returns None if the world doesn't observe edges.
    pub fn observed(&self) -> Option<&Observed>
        ensures { option_map (λ o. o.now) result ≡ self.now.observed }
    {
        match &self.observed {
            Some(observed) => Some(observed),
            None => None,
        }
    }

    /// Spends the permit, and returns its command.
    pub fn into_command(self) -> Items<u8>
        ensures { result ≡ self.command }
    {
        let Permit {
            edge,
            console,
            command,
            observed,
        } = self;
        let _ = (edge, console);
        drop(observed);
        command
    }

    /// Spends the permit.
    pub fn spend(self) {
        drop(self.into_command());
    }
}

/// The order to keep one entry in the record. Only a board creates one, from the request of an edge that asks for
/// exactly this entry. Nothing copies it, and nothing changes it.
#[derive(Drop)]
pub struct KeepOrder {
    output: Items<u8>,
    command: Items<u8>,
    basis: u64,
    paths: PathList,
}

impl KeepOrder {
    ghost use Rattle.std.specs.Prelude.{◌≡◌};

    /// Returns the output whose entry it is.
    pub fn output(&self) -> &[u8]
        ensures { result.now ≡ self.now.output }
    {
        self.output.as_slice()
    }

    /// Returns the command of the entry.
    pub fn command(&self) -> &[u8]
        ensures { result.now ≡ self.now.command }
    {
        self.command.as_slice()
    }

    /// Returns the basis of the entry: the greatest stamp that the edge read.
    pub fn basis(&self) -> u64
        ensures { result ≡ self.now.basis }
    {
        self.basis
    }

    /// Returns the dependencies of the entry.
    pub fn paths(&self) -> &PathList
        ensures { result.now ≡ self.now.paths }
    {
        &self.paths
    }
}

/// Returns a copy of a request, with texts of its own. If it only has a path, its copy is in `room`.
fn owned_request(
    alloc: Global,
    room: Vec<u8>,
    request: &Request<'_>,
) -> Result<OwnedRequest, AllocError>
    ensures { IfOk result (λ asked. shown asked ≡ request_shown request.now) }
{
    match request {
        Request::Stat(path) => Ok(OwnedRequest::Stat(path_in(room, path)?)),
        Request::Recall(output) => Ok(OwnedRequest::Recall(path_in(room, output)?)),
        Request::Run(command, outputs) => Ok(OwnedRequest::Run(
            bytes_of(alloc, command)?,
            paths_of(alloc, outputs)?,
        )),
        Request::Deps(path) => Ok(OwnedRequest::Deps(path_in(room, path)?)),
        Request::Keep(output, command, basis, paths) => Ok(OwnedRequest::Keep(KeepOrder {
            output: bytes_of(alloc, output)?,
            command: bytes_of(alloc, command)?,
            basis: *basis,
            paths: paths.copy()?,
        })),
    }
}

/// The result of an advance.
pub enum Advance {
    /// An edge went on, and asked nothing.
    Moved,
    /// An edge asked: its number, the question, and a permit if it asks to run its command.
    Job(u32, Question, Option<Permit>),
    /// Nothing was done: no edge can go on before a reply comes.
    Wait,
    /// Nothing was done: the run has ended.
    Ended,
}

/// The state of a run, its events, and the marks that report something: how an edge ended, and that it took or released
/// a job token. Status lines report no other marks. The events can be read if the world of the run keeps its journal.
#[derive(Drop)]
pub struct Report {
    pub state: State,
    pub journal: Journal,
    pub kept: Option<KeptJournal>,
    pub marks: Vec<Mark>,
}

/// A run with its history. A contract sees the arguments of its opening, and its progress. Each change of a board is an
/// event of the machine. The world's rule allows each reply in its journal for the question.
#[derive(Drop)]
pub struct Board<'v, W: World> {
    alloc: Global,
    image: &'v Verified,
    targets: Vec<u32>,
    state: State,
    journal_builder: JournalBuilder<KeepingOf<W>>,
    marks: Vec<Mark>,
    /// The position of the last event of each edge.
    numbers: Vec<u64>,
    world: PhantomData<W>,
}

impl<'v, W: World> Model for Board<'v, W> {
    ghost use Rattle.plan_lanes.specs.Boards.{IsKept};
    ghost use Rattle.plan_lanes.specs.Progress.{Progress, progress};

    ghost Value = { Progress };

    ghost view = { λ b. progress b.image.now b.targets.items b.state.run_state b.journal_builder.events b.marks.items };

    ghost invariant = { λ b. IsKept W.allows b.numbers.items b.state (progress b.image.now b.targets.items b.state.run_state b.journal_builder.events b.marks.items) };
}

/// Returns the edge that an event changes.
fn edge_of(event: &Event) -> u32
    ensures { result ≡ edge_of event.now }
{
    match event {
        Event::Start(edge)
        | Event::Skip(edge, _)
        | Event::Stop(edge)
        | Event::Step(edge)
        | Event::Reply(edge, _) => *edge,
    }
}

/// Sets the number at an index, if there is one.
fn put(numbers: &mut Vec<u64>, at: usize, number: u64)
    ensures { numbers.new.items ≡ slice_set numbers.old.items at number }
{
    if at < numbers.len() {
        numbers[at] = number;
    }
}

/// Returns the permit of these parts for an edge's command, if there are parts.
fn permit_for(image: &Verified, edge: u32, parts: Option<PermitParts>) -> Option<Permit>
    ensures { result ≡ permit_of image.now edge parts }
{
    match parts {
        Some(parts) => Some(Permit::new(edge, is_console(image, edge), parts)),
        None => None,
    }
}

impl<'v, W: World> Board<'v, W> {
    /// Opens a run of an image. If there are no targets, the run is for the image's defaults. This call allocates all
    /// memory that the state needs.
    ///
    /// # Errors
    /// As for `State::open`: `Memory` if memory runs out, and otherwise `BadTarget` if and only if a target isn't an
    /// edge of the image.
    pub fn open(
        alloc: Global,
        image: &'v Verified,
        options: Options,
        targets: &[u32],
    ) -> Result<Board<'v, W>, Refused>
        ensures opens { IfOk result (λ b. IsFresh (opened_with image.now options targets.now) b) }
        ensures refused { IfErr result (λ r. ((r ≡ Refused.Memory) × (any_outside image.now targets.now ≡ false)) ⊎ ((r ≡ Refused.BadTarget) × (any_outside image.now targets.now ≡ true))) }
    {
        let state = State::open(alloc, image, options, targets)?;
        let numbers = vec![in alloc; 0; image.image().parts().edges.len()]?;
        let targets = Vec::from_slice(alloc, targets)?;
        Ok(Board {
            alloc,
            image,
            targets,
            state,
            journal_builder: JournalBuilder::new(alloc),
            marks: Vec::new(alloc),
            numbers,
            world: PhantomData,
        })
    }

    /// Returns the image.
    pub fn image(&self) -> &Verified
        ensures { result.now ≡ self.now.opened.parts }
    {
        self.image
    }

    /// Returns the marks of the events so far, as a report has them.
    pub fn marks(&self) -> &[Mark]
        ensures { result.now ≡ self.now.marks }
    {
        &self.marks
    }

    /// Returns the number of wanted edges that have a command.
    pub fn total(&self) -> u64
        ensures now { result ≡ total_of self.now.opened.parts self.now.state }
        ensures all { IsTotalOf W.allows self.now.opened result }
    {
        self.state.total()
    }

    /// Applies an event and appends it to the journal. Also keeps its mark if the mark reports something. If the event
    /// is refused, nothing changes.
    fn record(&mut self, event: Event) -> Result<Mark, Refused>
        requires { MayJournal W.allows self.old event }
        ensures ok { IfOk result (λ m. Applies self.old self.new event m) }
        ensures err { OnErr result (self.new ≡ self.old) }
        ensures refused { IfErr result (λ r. r ≡ Refused.NotEnabled → step depfile self.old.opened.parts self.old.opened.limits self.old.state event ≡ NotEnabled) }
        ensures inside { IfErr result (λ r. r ≢ Refused.BadTarget) }
    {
        let edge = edge_of(&event);
        let number = self.journal_builder.len() as u64;
        self.marks.reserve(1)?;
        self.journal_builder.push(&event)?;
        match self.state.apply(self.image, event) {
            Ok(mark) => {
                put(&mut self.numbers, edge as usize, number);
                keep(&mut self.marks, mark);
                Ok(mark)
            }
            Err(refused) => {
                self.journal_builder.remove_last();
                Err(refused)
            }
        }
    }

    /// Returns the request that an event would make, if the event is enabled and asks.
    fn question(&self, event: &Event) -> Result<Option<OwnedRequest>, AllocError>
        ensures { IfOk result (λ asked. WouldAsk self.now.opened.parts (run_state_of self.now) event.now asked) }
    {
        match self.state.asks(self.image, event) {
            Some(request) => Ok(Some(owned_request(self.alloc, Vec::new(self.alloc), &request)?)),
            None => Ok(None),
        }
    }

    /// Returns what an edge has observed, if the world observes edges.
    fn observed(&self, edge: u32) -> Result<Option<Observed>, AllocError>
        ensures { IfOk result (λ o. o ≡ observed_if W.observes self.now edge) }
    {
        let Some(replies) = self.journal_builder.replies_to(edge)? else {
            return Ok(None);
        };
        let slots = self.state.loads(self.image, edge)?;
        Ok(Some(Observed {
            replies: Items::new(replies),
            slots: Items::new(slots),
        }))
    }

    /// Returns the parts of a permit for an edge if it asks to run its command.
    fn parts_for(
        &self,
        edge: u32,
        request: &OwnedRequest,
    ) -> Result<Option<PermitParts>, AllocError>
        ensures { IfOk result (λ o. AreParts W.observes self.now edge (shown request.now) o) }
    {
        match request {
            OwnedRequest::Run(command, _outputs) => Ok(Some(PermitParts {
                command: bytes_of(self.alloc, command.as_slice())?,
                observed: self.observed(edge)?,
            })),
            _ => Ok(None),
        }
    }

    /// Returns the parts of a permit for an edge if it is about to ask to run its command.
    fn parts_before(
        &self,
        edge: u32,
        asked: &Option<OwnedRequest>,
    ) -> Result<Option<PermitParts>, AllocError>
        ensures { IfOk result (λ o. IfSome asked.now (λ a. AreParts W.observes self.now edge (shown a) o)) }
    {
        match asked {
            Some(request) => self.parts_for(edge, request),
            None => Ok(None),
        }
    }

    /// Applies an event that needs no reply, and returns what it asked.
    fn go_on(&mut self, event: Event) -> Result<Advance, Refused>
        requires own { is_own event ≡ true }
        requires enabled { IsEnabled self.old.opened.parts (run_state_of self.old) event }
        ensures goes { GoesOn self.old self.new }
        ensures ok { IfOk result (λ a. Advances self.old self.new a) }
        ensures proceeds { IfOk result (λ a. Proceeds self.old self.new a) }
        ensures observes { IfOk result (λ a. Observes W.observes self.new a) }
        ensures err { OnErr result (self.new ≡ self.old) }
        ensures memory { IfErr result (λ r. r ≡ Refused.Memory) }
    {
        let asked = self.question(&event)?;
        let image = self.image;
        let edge = edge_of(&event);
        let parts = self.parts_before(edge, &asked)?;
        let number = self.journal_builder.len() as u64;
        self.record(event)?;
        match asked {
            None => Ok(Advance::Moved),
            Some(request) => {
                let permit = permit_for(image, edge, parts);
                Ok(Advance::Job(edge, Question { number, request }, permit))
            }
        }
    }

    /// Applies the next event that needs no reply, or does nothing if no such event is enabled. The time doesn't depend
    /// on the number of edges, except on the number of edges that wait for an edge which ends.
    ///
    /// # Errors
    /// `Memory` if memory runs out. Then nothing has changed.
    pub fn advance(&mut self) -> Result<Advance, Refused>
        ensures ok { IfOk result (λ a. Advances self.old self.new a) }
        ensures observes { IfOk result (λ a. Observes W.observes self.new a) }
        ensures err { OnErr result (self.new ≡ self.old) }
        ensures memory { IfErr result (λ r. r ≡ Refused.Memory) }
    {
        self.advance_one()
    }

    /// Like `advance`, but its contract also has a clause about several events.
    pub(crate) fn advance_one(&mut self) -> Result<Advance, Refused>
        ensures goes { GoesOn self.old self.new }
        ensures ok { IfOk result (λ a. Advances self.old self.new a) }
        ensures proceeds { IfOk result (λ a. Proceeds self.old self.new a) }
        ensures observes { IfOk result (λ a. Observes W.observes self.new a) }
        ensures err { OnErr result (self.new ≡ self.old) }
        ensures memory { IfErr result (λ r. r ≡ Refused.Memory) }
    {
        let Some(event) = self.state.pick(self.image) else {
            if self.state.ended() {
                return Ok(Advance::Ended);
            }
            return Ok(Advance::Wait);
        };
        self.go_on(event)
    }

    /// Checks whether an advance would apply an event. The time doesn't depend on the image.
    pub fn can_advance(&self) -> bool
        ensures can { result ≡ true → CanGo depfile self.now.opened.parts self.now.opened.limits self.now.state }
        ensures cannot { result ≡ false → CanGo depfile self.now.opened.parts self.now.opened.limits self.now.state → ⊥ }
    {
        match self.state.pick(self.image) {
            Some(_event) => true,
            None => false,
        }
    }

    /// Checks whether each edge has an outcome.
    pub fn has_ended(&self) -> bool
        ensures { result ≡ has_ended self.now.state }
    {
        self.state.ended()
    }

    /// Checks whether an edge awaits the reply to this question.
    fn is_open(&self, edge: u32, question: &Question) -> bool
        ensures { IsTrue result ↔ IsOpen self.now edge question.now.number (shown question.now.request) }
    {
        let Some(request) = self.state.request(self.image, edge) else {
            return false;
        };
        match self.numbers.get(edge as usize) {
            Some(number) => *number == question.number && question.request.is_of(&request),
            None => false,
        }
    }

    /// Applies a reply that the world's rule allows for a question, and appends it to the journal.
    ///
    /// # Errors
    /// - `NotEnabled` if and only if the edge doesn't await the reply to this question, or the reply doesn't suit the
    ///   question, unless memory runs out first.
    /// - `Memory` if memory runs out.
    ///
    /// After an error nothing has changed.
    pub fn answer(&mut self, edge: u32, question: Question, reply: Reply) -> Result<Mark, Refused>
        requires { W.allows question.number (shown question.request) reply }
        ensures ok { IfOk result (λ m. Applies self.old self.new (Hear edge reply) m × IsOpen self.old edge question.number (shown question.request)) }
        ensures err { OnErr result (self.new ≡ self.old) }
        ensures refused { IfErr result (λ r. r ≡ Refused.NotEnabled → IsOpen self.old edge question.number (shown question.request) → step depfile self.old.opened.parts self.old.opened.limits self.old.state (Hear edge reply) ≡ NotEnabled) }
        ensures memory { IfErr result (λ r. r ≡ Refused.Memory → IsOpen self.old edge question.number (shown question.request)) }
        ensures inside { IfErr result (λ r. r ≢ Refused.BadTarget) }
    {
        self.answer_to(edge, &question, reply)
    }

    /// Like `answer`, but borrows the question.
    pub(crate) fn answer_to(
        &mut self,
        edge: u32,
        question: &Question,
        reply: Reply,
    ) -> Result<Mark, Refused>
        requires { W.allows question.now.number (shown question.now.request) reply }
        ensures goes { GoesOn self.old self.new }
        ensures ok { IfOk result (λ m. Applies self.old self.new (Hear edge reply) m × IsOpen self.old edge question.now.number (shown question.now.request)) }
        ensures err { OnErr result (self.new ≡ self.old) }
        ensures refused { IfErr result (λ r. r ≡ Refused.NotEnabled → IsOpen self.old edge question.now.number (shown question.now.request) → step depfile self.old.opened.parts self.old.opened.limits self.old.state (Hear edge reply) ≡ NotEnabled) }
        ensures memory { IfErr result (λ r. r ≡ Refused.Memory → IsOpen self.old edge question.now.number (shown question.now.request)) }
        ensures inside { IfErr result (λ r. r ≢ Refused.BadTarget) }
    {
        if !self.is_open(edge, question) {
            return Err(Refused::NotEnabled);
        }
        self.record(Event::Reply(edge, reply))
    }

    /// Returns the run so far. This takes no memory.
    pub fn into_report(self) -> Report
        ensures same { (result.state.run_state.now ≡ self.entry.state) × (result.journal ≡ self.entry.journal) × (result.marks.items ≡ self.entry.marks) }
        ensures run { IsRunOf W.allows self.entry.opened result }
        ensures kept { IsKeptBy W.keeps result }
    {
        never_wrong();
        marks_are_orderly();
        stays_in_budget();
        depfiles_are_frugal();
        let _tables = self.image.image();
        let Board {
            state,
            journal_builder,
            marks,
            ..
        } = self;
        let (journal, kept) = journal_builder.finish();
        Report {
            state,
            journal,
            kept,
            marks,
        }
    }
}
