//! Worlds whose runs keep their journals.

ghost use Rattle.std.specs.Prelude.{◌≡◌};

use crate::board::{KeepOrder, Permit};
use crate::world::World;
use plan_machine::Reply;
use plan_text::{PathFilter, RowList};
use std::alloc::{AllocError, Global};

/// Another world, whose runs keep their journals. It passes all questions on.
#[derive(Drop)]
pub struct Journaled<'a, W> {
    world: &'a W,
}

impl<'a, W> Journaled<'a, W> {
    /// Wraps a world so that its runs keep their journals.
    pub fn new(world: &'a W) -> Journaled<'a, W>
        ensures { result.world.now ≡ world.now }
    {
        Journaled { world }
    }
}

impl<W: World> World for Journaled<'_, W> {
    ghost use Rattle.std.specs.Prelude.{true};

    ghost allows = { λ number question reply. W.allows number question reply };

    ghost keeps = { true };

    fn keeps_journal() -> bool {
        true
    }

    ghost observes = { W.observes };

    fn observes() -> bool {
        W::observes()
    }

    fn stat(&self, number: u64, path: &[u8]) -> Result<Reply, AllocError> {
        self.world.stat(number, path)
    }

    fn stat_ahead(&self, path: &[u8]) -> Option<u64> {
        self.world.stat_ahead(path)
    }

    fn recall(&self, number: u64, output: &[u8]) -> Result<Reply, AllocError> {
        self.world.recall(number, output)
    }

    fn recorded_among(
        &self,
        alloc: Global,
        output: &[u8],
        wanted: &PathFilter,
    ) -> Result<Option<RowList<u8>>, AllocError> {
        self.world.recorded_among(alloc, output, wanted)
    }

    fn begun_among(
        &self,
        alloc: Global,
        output: &[u8],
        wanted: &PathFilter,
    ) -> Result<Option<RowList<u8>>, AllocError> {
        self.world.begun_among(alloc, output, wanted)
    }

    fn foreign_among(
        &self,
        alloc: Global,
        output: &[u8],
        wanted: &PathFilter,
        is_recorded: bool,
    ) -> Result<Option<RowList<u8>>, AllocError> {
        self.world.foreign_among(alloc, output, wanted, is_recorded)
    }

    fn foreign_names_others(&self, output: &[u8]) -> Result<bool, AllocError> {
        self.world.foreign_names_others(output)
    }

    fn foreign_ran_another(&self, output: &[u8], first: &[u8]) -> Result<bool, AllocError> {
        self.world.foreign_ran_another(output, first)
    }

    fn take_outputs(&self, outputs: PathFilter) {
        self.world.take_outputs(outputs);
    }

    fn take_others(&self, others: Option<PathFilter>) {
        self.world.take_others(others);
    }

    fn remove_depfiles(&self) {
        self.world.remove_depfiles();
    }

    fn record_stamp(&self) -> Option<u64> {
        self.world.record_stamp()
    }

    fn first_begin(&self) -> Option<u64> {
        self.world.first_begin()
    }

    fn now(&self) -> Option<u64> {
        self.world.now()
    }

    fn is_file(&self, path: &[u8]) -> bool {
        self.world.is_file(path)
    }

    fn is_made_with(&self, output: &[u8], first: &[u8]) -> Result<bool, AllocError> {
        self.world.is_made_with(output, first)
    }

    fn forget(&self, output: &[u8], reason: &[u8]) -> Result<(), AllocError> {
        self.world.forget(output, reason)
    }

    fn explain(&self, edge: &[u8], reason: &[u8]) {
        self.world.explain(edge, reason);
    }

    fn run(&self, number: u64, outputs: &RowList<u8>, permit: Permit) -> Result<Reply, AllocError> {
        self.world.run(number, outputs, permit)
    }

    fn read_depfile(&self, number: u64, path: &[u8]) -> Result<Reply, AllocError> {
        self.world.read_depfile(number, path)
    }

    fn keep(&self, number: u64, order: &KeepOrder) -> Result<Reply, AllocError> {
        self.world.keep(number, order)
    }
}
