//! Rows of a sweep: the stamps of several paths, received at once by the edges of a run.

ghost use Rattle.std.specs.Prelude.{◌≡◌, ◌<◌, ◌≤◌, ◌+◌, ℕ, [], IfSome, IsSome, List, Some, drop, length, slice_get, take, true};
ghost use Rattle.plan_verify.specs.Turn.{Local, Stat, question};
ghost use Rattle.plan_machine.specs.Kept.{IsStateOf};
ghost use Rattle.plan_machine.specs.Replaying.{RunsTo};
ghost use Rattle.plan_machine.specs.Requests.{asked_at};
ghost use Rattle.plan_machine.specs.State.{Active};
ghost use Rattle.plan_machine.specs.Sweeping.{HasSweptTo, IsSweptAt, IsSweptRow, SweepsRow, row_events, row_marks};

use crate::laws::turn_laws;
use crate::run::machine::Machine;
use crate::run::state::State;
use plan_image::Image;
use plan_verify::{PathList, Verified};

impl Machine {
    /// Returns the paths of an edge's sweep and how many of them have a stamp, if the edge awaits the stamp of
    /// the next one. Returns None otherwise.
    pub(crate) fn sweeping(&self, image: &Image, edge: u32) -> Option<(&PathList, u32)>
        requires asks { (l : Local) → slice_get self.now.now.edges edge ≡ Some (Active l) → l.asked ≡ true → IsSome (question image.now edge [] l) }
        ensures some { IfSome result (λ r. HasSweptTo image.now self.now.now edge r.0.now r.1) }
        ensures must { IsSweptAt image.now self.now.now edge → IsSome result }
    {
        match self.edges.as_slice().get(edge as usize) {
            Some(status) => status.sweeping(image, edge),
            None => None,
        }
    }

    /// Takes the stamps of a row, and asks for the next path after each. Returns how many were taken.
    fn merge_row(
        &mut self,
        image: &Image,
        edge: u32,
        paths: &PathList,
        from: u32,
        stamps: &[u64],
    ) -> usize
        requires { IsSweptAt image.now self.old.now edge }
        ensures most { result ≤ length stamps.now }
        ensures row { SweepsRow image.now self.old edge (drop from paths.now) (take result stamps.now) self.new }
        ensures must { HasSweptTo image.now self.old.now edge paths.now from → result < length stamps.now → length paths.now ≡ from + result + 1 }
    {
        let status = &mut self.edges[edge as usize];
        status.merge_row(image, edge, paths, from, stamps)
    }
}

impl State {
    /// Returns the paths of an edge's sweep and how many of them have a stamp, if the edge awaits the stamp of
    /// the next one. Returns None otherwise.
    fn swept_paths(&self, image: &Image, edge: u32) -> Option<(&PathList, u32)>
        requires asks { (l : Local) → slice_get self.now.run_state.now.edges edge ≡ Some (Active l) → l.asked ≡ true → IsSome (question image.now edge [] l) }
        ensures some { IfSome result (λ r. HasSweptTo image.now self.now.run_state.now edge r.0.now r.1) }
        ensures must { IsSweptAt image.now self.now.run_state.now edge → IsSome result }
    {
        self.machine.sweeping(image, edge)
    }

    /// Takes the stamps of a row, and asks for the next path after each. Returns how many were taken.
    fn merge_row(
        &mut self,
        image: &Image,
        edge: u32,
        paths: &PathList,
        from: u32,
        stamps: &[u64],
    ) -> usize
        requires { IsSweptAt image.now self.old.run_state.now edge }
        ensures most { result ≤ length stamps.now }
        ensures row { SweepsRow image.now self.old.run_state edge (drop from paths.now) (take result stamps.now) self.new.run_state }
        ensures must { HasSweptTo image.now self.old.run_state.now edge paths.now from → result < length stamps.now → length paths.now ≡ from + result + 1 }
        ensures plan { self.new.plan ≡ self.old.plan }
        ensures schedule { self.new.schedule ≡ self.old.schedule }
        ensures total { self.new.total ≡ self.old.total }
    {
        self.machine.merge_row(image, edge, paths, from, stamps)
    }

    /// Returns the paths of an edge's sweep and how many of them have a stamp, if the edge awaits the stamp of
    /// the next one. Returns None otherwise. It takes no memory.
    pub fn sweeping(&self, image: &Verified, edge: u32) -> Option<(&PathList, u32)>
        requires { IsStateOf image.now self.now }
        ensures some { IfSome result (λ r. HasSweptTo image.now self.now.run_state.now edge r.0.now r.1) }
        ensures asked { IfSome result (λ r. (path : List ℕ) → slice_get r.0.now r.1 ≡ Some path → asked_at image.now self.now.run_state.now edge ≡ Some (Stat path)) }
        ensures inside { IfSome result (λ r. r.1 < length r.0.now) }
        ensures must { IsSweptAt image.now self.now.run_state.now edge → IsSome result }
    {
        turn_laws();
        let tables = image.image();
        self.swept_paths(tables, edge)
    }

    /// Applies the stamps of paths that an edge asks for in turn, from a place of their list on, and after each
    /// the step that asks for the next path. Returns how many stamps were taken.
    ///
    /// A stamp is only taken if the edge awaits the stamp of that path and another path is left. The reply for
    /// the last path must therefore be given to `follow`. If the list and the place are those of `sweeping`,
    /// all stamps except that of the last path are taken. For other lists it may take fewer. It takes no
    /// memory.
    pub fn sweep_row(
        &mut self,
        image: &Verified,
        edge: u32,
        paths: &PathList,
        from: u32,
        stamps: &[u64],
    ) -> usize
        requires { IsStateOf image.now self.old }
        ensures most { result ≤ length stamps.now }
        ensures row { IsSweptRow image.now self.old.run_state edge (drop from paths.now) (take result stamps.now) self.new.run_state }
        ensures runs { RunsTo image.now self.old.run_state (row_events edge (take result stamps.now)) (row_marks edge (take result stamps.now)) self.new.run_state }
        ensures must { HasSweptTo image.now self.old.run_state.now edge paths.now from → result < length stamps.now → length paths.now ≡ from + result + 1 }
        ensures next { HasSweptTo image.now self.old.run_state.now edge paths.now from → HasSweptTo image.now self.new.run_state.now edge paths.now (from + result) }
        ensures asked { HasSweptTo image.now self.old.run_state.now edge paths.now from → (path : List ℕ) → slice_get paths.now (from + result) ≡ Some path → asked_at image.now self.new.run_state.now edge ≡ Some (Stat path) }
        ensures state { IsStateOf image.now self.new }
    {
        if self.sweeping(image, edge).is_none() {
            return 0;
        }
        let tables = image.image();
        self.merge_row(tables, edge, paths, from, stamps)
    }
}
