//! The questions of edges, found without changing anything.

ghost use Rattle.std.specs.Prelude.{◌≡◌, if◌then◌else◌, option_map};
ghost use Rattle.plan_verify.specs.Tables.{first_output, outputs_of, path_of, paths_of};
ghost use Rattle.plan_verify.specs.Turn.{PlaceNotHeld, Recall, Stat, Wrong, act, asks_of, keeps, question, reads, request_of, runs, sweep, turn};
ghost use Rattle.plan_machine.specs.Requests.{is_asking, shown};
ghost use Rattle.plan_machine.specs.ParkedLocal.{parked_local};
ghost use Rattle.plan_machine.specs.Working.{Works};

use crate::edge::active_edge::ActiveEdge;
use crate::edge::stack::Slot;
use crate::edge::status::Parked;
use crate::edge::turns::outputs;
use crate::event::{Outputs, Request};
use plan_image::{Image, Instr};

/// Returns whether an instruction may ask a question.
fn is_asking(instr: Instr) -> bool
    ensures { result ≡ is_asking instr }
{
    match instr {
        Instr::Stat(_)
        | Instr::Need(_)
        | Instr::Recall
        | Instr::Sweep
        | Instr::Run
        | Instr::Deps
        | Instr::Keep => true,
        _ => false,
    }
}

/// Returns the question for a file's stamp.
fn stat<'a>(image: &'a Image, file: u32) -> Option<Request<'a>>
    ensures { option_map shown result ≡ request_of (asks_of (path_of image.now file) Stat) }
{
    match image.parts().files.get(file as usize) {
        Some(path) => Some(Request::Stat(path)),
        None => None,
    }
}

/// Returns the path of an edge's first output. Returns None if it has none.
fn first_output<'a>(image: &'a Image, edge: u32) -> Option<&'a [u8]>
    ensures { option_map (λ path. path.now) result ≡ first_output image.now edge }
{
    match outputs(image.parts(), edge) {
        [first, ..] => image.parts().files.get(*first as usize),
        [] => None,
    }
}

/// Returns the question for the record's entry of an edge's first output.
fn recall<'a>(image: &'a Image, edge: u32) -> Option<Request<'a>>
    ensures { option_map shown result ≡ request_of (asks_of (first_output image.now edge) Recall) }
{
    match first_output(image, edge) {
        Some(output) => Some(Request::Recall(output)),
        None => None,
    }
}

impl ActiveEdge {
    /// Returns the question for the stamp of the next path to be swept. Returns None if none is left.
    #[tactic(auto, using(crate::proofs::RequestLemmas::sweep_finds, crate::proofs::RequestLemmas::sweep_requests, crate::proofs::RequestLemmas::sweep_rests))]
    fn swept_request(&self) -> Option<Request<'_>>
        requires { Works (sweep self.now self.now.stack) }
        ensures { option_map shown result ≡ request_of (sweep self.now self.now.stack) }
    {
        let (swept, paths) = self.stack.paths_at();
        if swept < paths.len() {
            return Some(Request::Stat(paths.path(swept)));
        }
        None
    }

    /// Returns the question that runs a command.
    #[tactic(auto, using(crate::proofs::RequestLemmas::run_finds, crate::proofs::RequestLemmas::run_requests))]
    fn run_request<'a>(&'a self, image: &'a Image, edge: u32) -> Option<Request<'a>>
        requires { Works (if self.now.holding then runs (paths_of image.now (outputs_of image.now edge)) self.now.stack else Wrong PlaceNotHeld) }
        ensures { option_map shown result ≡ request_of (if self.now.holding then runs (paths_of image.now (outputs_of image.now edge)) self.now.stack else Wrong PlaceNotHeld) }
    {
        let command = self.stack.text_at(0);
        let parts = image.parts();
        let outputs = Outputs::new(&parts.files, outputs(parts, edge));
        Some(Request::Run(command, outputs))
    }

    /// Returns the question for a depfile.
    #[tactic(auto, using(crate::proofs::RequestLemmas::deps_finds, crate::proofs::RequestLemmas::deps_requests))]
    fn deps_request(&self) -> Option<Request<'_>>
        requires { Works (reads self.now.stack) }
        ensures { option_map shown result ≡ request_of (reads self.now.stack) }
    {
        Some(Request::Deps(self.stack.text_at(0)))
    }

    /// Returns the question that stores an entry in the record.
    #[tactic(auto, using(crate::proofs::RequestLemmas::keep_text, crate::proofs::RequestLemmas::keep_stamp, crate::proofs::RequestLemmas::keep_swept, crate::proofs::RequestLemmas::keep_requests))]
    fn keep_request<'a>(&'a self, image: &'a Image, edge: u32) -> Option<Request<'a>>
        requires { Works (keeps (first_output image.now edge) self.now.stack) }
        ensures { option_map shown result ≡ request_of (keeps (first_output image.now edge) self.now.stack) }
    {
        match first_output(image, edge) {
            Some(output) => {
                let command = self.stack.text_at(2);
                let basis = self.stack.stamp_at(1);
                let paths = self.stack.swept_at();
                Some(Request::Keep(output, command, basis, paths))
            }
            None => None,
        }
    }

    /// Returns the question of an instruction, whose turn must not be wrong. Returns None if it asks nothing.
    #[tactic(auto, using(crate::proofs::RequestLemmas::silent))]
    fn request_at<'a>(
        &'a self,
        image: &'a Image,
        edge: u32,
        _slots: &[Slot],
        instr: Instr,
    ) -> Option<Request<'a>>
        requires { Works (act image.now edge _slots.now self.now instr) }
        ensures { option_map shown result ≡ request_of (act image.now edge _slots.now self.now instr) }
    {
        if !is_asking(instr) {
            return None;
        }
        match instr {
            Instr::Stat(file) | Instr::Need(file) => stat(image, file),
            Instr::Recall => recall(image, edge),
            Instr::Sweep => self.swept_request(),
            Instr::Run => self.run_request(image, edge),
            Instr::Deps => self.deps_request(),
            Instr::Keep => self.keep_request(image, edge),
            _ => unreachable!(),
        }
    }

    /// Returns the question of the next step, which must not be wrong. Returns None if it asks nothing.
    #[tactic(auto, using(crate::proofs::Applies::turn_is, crate::proofs::Applies::turn_none))]
    pub(crate) fn request<'a>(
        &'a self,
        image: &'a Image,
        edge: u32,
        slots: &[Slot],
    ) -> Option<Request<'a>>
        requires { Works (turn image.now edge slots.now self.now) }
        ensures { option_map shown result ≡ question image.now edge slots.now self.now }
    {
        match image.instr(edge, self.place) {
            Some(instr) => self.request_at(image, edge, slots, instr),
            None => unreachable!(),
        }
    }
}

impl Parked {
    /// Returns the question of an instruction of an edge that has no values. Returns None if it asks nothing.
    #[tactic(auto, using(crate::proofs::RequestLemmas::silent, crate::proofs::RequestLemmas::run_bare, crate::proofs::RequestLemmas::keep_bare))]
    fn request_at<'a>(
        self,
        image: &'a Image,
        edge: u32,
        _slots: &[Slot],
        instr: Instr,
    ) -> Option<Request<'a>>
        ensures { option_map shown result ≡ request_of (act image.now edge _slots.now (parked_local self) instr) }
    {
        if !is_asking(instr) {
            return None;
        }
        match instr {
            Instr::Stat(file) | Instr::Need(file) => stat(image, file),
            Instr::Recall => recall(image, edge),
            Instr::Sweep | Instr::Deps => None,
            Instr::Run => None,
            Instr::Keep => None,
            _ => unreachable!(),
        }
    }

    /// Returns the question of the next step, which must not be wrong. Returns None if it asks nothing.
    #[tactic(auto, using(crate::proofs::Applies::turn_is, crate::proofs::Applies::turn_none))]
    pub(crate) fn request<'a>(
        self,
        image: &'a Image,
        edge: u32,
        slots: &[Slot],
    ) -> Option<Request<'a>>
        requires { Works (turn image.now edge slots.now (parked_local self)) }
        ensures { option_map shown result ≡ question image.now edge slots.now (parked_local self) }
    {
        match image.instr(edge, self.place) {
            Some(instr) => self.request_at(image, edge, slots, instr),
            None => unreachable!(),
        }
    }
}
