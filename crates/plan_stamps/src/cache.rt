//! A world that caches the stamps of another world.

ghost use Rattle.std.specs.Prelude.{◌≡◌, IfOk};
ghost use Rattle.plan_stamps.specs.Stamps.{AllowsOnce};
ghost use Rattle.plan_verify.specs.Turn.{Keep, Run, Stat};

use crate::asked::{self, AskedReply, ask_in};
use crate::commands::{Commands, Moment, Running};
use crate::kept::{KeptStamp, StampTable};
use plan_lanes::{KeepOrder, Permit, World};
use plan_machine::Reply;
use plan_text::{PathFilter, RowList};
use std::alloc::{AllocError, Global};
use std::sync::Wait;

/// The inner world. It changes files only for a command that was counted.
#[derive(Drop)]
struct Inner<W> {
    world: W,
}

impl<W: World> Inner<W> {
    /// Asks for the stamp of a path. If there is no number, the question doesn't have one yet. In this case, returns
    /// `AllocError` if the path has no stamp.
    fn stat(&self, number: Option<u64>, path: &[u8]) -> Result<Reply, AllocError>
        ensures { IfOk result (λ r. AllowsOnce W.allows (Stat path.now) r) }
    {
        asked::stat(&self.world, number, path)
    }

    /// Asks for the stamp of a path in a moment, like `stat`.
    fn stat_in<'a>(
        &self,
        number: Option<u64>,
        path: &'a [u8],
        moment: &Moment,
    ) -> Result<AskedReply<'a, W>, AllocError>
        ensures { IfOk result (λ a. (a.path ≡ path.now) × (a.begun ≡ moment.now.begun)) }
    {
        ask_in(&self.world, number, path, moment)
    }

    /// Runs a command that was counted.
    fn run(
        &self,
        running: &Running,
        number: u64,
        outputs: &RowList<u8>,
        permit: Permit,
    ) -> Result<Reply, AllocError>
        ensures { IfOk result (λ r. AllowsOnce W.allows (Run permit.command outputs.now) r) }
    {
        let _ = running;
        self.world.run(number, outputs, permit)
    }

    /// Keeps the entry of an order in the record. The caller has counted this like a command.
    fn keep(&self, running: &Running, number: u64, order: &KeepOrder) -> Result<Reply, AllocError>
        ensures { IfOk result (λ r. AllowsOnce W.allows (Keep order.now.output order.now.command order.now.basis order.now.paths) r) }
    {
        let _ = running;
        self.world.keep(number, order)
    }
}

/// Wraps another world, and asks it for the stamp of a path only once while no command runs. Replies with a kept stamp
/// if no command is running and none has begun since the inner world was asked.
#[derive(Drop)]
pub struct StampCache<'a, R, W: World> {
    rt: &'a R,
    alloc: Global,
    inner: Inner<W>,
    commands: Commands,
    table: StampTable<W>,
}

impl<'a, R, W: World> StampCache<'a, R, W> {
    /// Wraps a world, with room for this many stamps.
    ///
    /// # Errors
    /// `AllocError` if memory runs out.
    pub fn new(
        rt: &'a R,
        alloc: Global,
        world: W,
        room: usize,
    ) -> Result<StampCache<'a, R, W>, AllocError>
    where
        W: Drop,
        ensures { IfOk result (λ c. c.inner.world ≡ world) }
    {
        Ok(StampCache {
            rt,
            alloc,
            inner: Inner { world },
            commands: Commands::new(),
            table: StampTable::new(alloc, room)?,
        })
    }

    /// Returns the runtime.
    pub(crate) fn rt(&self) -> &R {
        self.rt
    }

    /// Returns the allocator.
    pub(crate) fn alloc(&self) -> Global {
        self.alloc
    }

    /// Checks whether a command has begun.
    pub(crate) fn has_begun(&self) -> bool {
        self.commands.count() > 0
    }

    /// Returns the inner world.
    pub fn inner(&self) -> &W
        ensures { result.now ≡ self.now.inner.world }
    {
        &self.inner.world
    }
}

impl<R: Wait, W: World> StampCache<'_, R, W> {
    /// Keeps a stamp for later questions in the moment in which it was asked for. If memory runs out, the stamp isn't
    /// kept. A fault isn't kept.
    fn keep_stamp(&self, asked: &AskedReply<'_, W>) {
        if asked.stamp().is_none() || !self.table.is_wanted(asked.begun_count()) {
            return;
        }
        if let Ok(Some(kept)) = KeptStamp::of(self.alloc, asked) {
            self.table.add(self.rt, kept);
        }
    }

    /// Asks the inner world, and keeps the stamp that it replies.
    fn ask(&self, number: Option<u64>, path: &[u8], moment: &Moment) -> Result<Reply, AllocError>
        ensures { IfOk result (λ r. AllowsOnce W.allows (Stat path.now) r) }
    {
        let asked = self.inner.stat_in(number, path, moment)?;
        self.keep_stamp(&asked);
        Ok(asked.into_reply())
    }

    /// Returns the reply for a path: the stamp that was kept, or what the inner world replies.
    fn look(&self, number: Option<u64>, path: &[u8]) -> Result<Reply, AllocError>
        ensures { IfOk result (λ r. AllowsOnce W.allows (Stat path.now) r) }
    {
        let Some(moment) = self.commands.quiet() else {
            return self.inner.stat(number, path);
        };
        match self.table.find(path, &moment) {
            Some(kept) => Ok(Reply::Stamp(kept.stamp())),
            None => self.ask(number, path, &moment),
        }
    }
}

impl<R: Wait, W: World> World for StampCache<'_, R, W> {
    ghost use Rattle.plan_stamps.specs.Stamps.{AllowsOnce};

    ghost allows = { λ _ question reply. AllowsOnce W.allows question reply };

    ghost keeps = { W.keeps };

    fn keeps_journal() -> bool {
        W::keeps_journal()
    }

    ghost observes = { W.observes };

    fn observes() -> bool {
        W::observes()
    }

    fn stat(&self, number: u64, path: &[u8]) -> Result<Reply, AllocError> {
        self.look(Some(number), path)
    }

    fn stat_ahead(&self, path: &[u8]) -> Option<u64> {
        match self.look(None, path) {
            Ok(Reply::Stamp(stamp)) => Some(stamp),
            _ => None,
        }
    }

    fn recall(&self, number: u64, output: &[u8]) -> Result<Reply, AllocError> {
        self.inner.world.recall(number, output)
    }

    fn recorded_among(
        &self,
        alloc: Global,
        output: &[u8],
        wanted: &PathFilter,
    ) -> Result<Option<RowList<u8>>, AllocError> {
        self.inner.world.recorded_among(alloc, output, wanted)
    }

    fn begun_among(
        &self,
        alloc: Global,
        output: &[u8],
        wanted: &PathFilter,
    ) -> Result<Option<RowList<u8>>, AllocError> {
        self.inner.world.begun_among(alloc, output, wanted)
    }

    fn foreign_among(
        &self,
        alloc: Global,
        output: &[u8],
        wanted: &PathFilter,
        is_recorded: bool,
    ) -> Result<Option<RowList<u8>>, AllocError> {
        self.inner
            .world
            .foreign_among(alloc, output, wanted, is_recorded)
    }

    fn foreign_names_others(&self, output: &[u8]) -> Result<bool, AllocError> {
        self.inner.world.foreign_names_others(output)
    }

    fn foreign_ran_another(&self, output: &[u8], first: &[u8]) -> Result<bool, AllocError> {
        self.inner.world.foreign_ran_another(output, first)
    }

    fn take_outputs(&self, outputs: PathFilter) {
        self.inner.world.take_outputs(outputs);
    }

    fn take_others(&self, others: Option<PathFilter>) {
        self.inner.world.take_others(others);
    }

    fn remove_depfiles(&self) {
        self.inner.world.remove_depfiles();
    }

    fn record_stamp(&self) -> Option<u64> {
        self.inner.world.record_stamp()
    }

    fn first_begin(&self) -> Option<u64> {
        self.inner.world.first_begin()
    }

    fn now(&self) -> Option<u64> {
        self.inner.world.now()
    }

    fn is_file(&self, path: &[u8]) -> bool {
        self.inner.world.is_file(path)
    }

    fn is_made_with(&self, output: &[u8], first: &[u8]) -> Result<bool, AllocError> {
        self.inner.world.is_made_with(output, first)
    }

    fn forget(&self, output: &[u8], reason: &[u8]) -> Result<(), AllocError> {
        self.inner.world.forget(output, reason)
    }

    fn explain(&self, edge: &[u8], reason: &[u8]) {
        self.inner.world.explain(edge, reason);
    }

    fn run(&self, number: u64, outputs: &RowList<u8>, permit: Permit) -> Result<Reply, AllocError> {
        let running = self.commands.begin();
        let reply = self.inner.run(&running, number, outputs, permit);
        self.commands.end(running);
        reply
    }

    fn read_depfile(&self, number: u64, path: &[u8]) -> Result<Reply, AllocError> {
        self.inner.world.read_depfile(number, path)
    }

    fn keep(&self, number: u64, order: &KeepOrder) -> Result<Reply, AllocError> {
        let running = self.commands.begin();
        let reply = self.inner.keep(&running, number, order);
        self.commands.end(running);
        reply
    }
}
