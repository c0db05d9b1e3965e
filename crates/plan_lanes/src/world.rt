//! The world outside: files, commands, the record.

ghost use Rattle.std.specs.Prelude.{ℕ, ◌≡◌, IfOk, IfSome};
ghost use Rattle.plan_machine.specs.declared.event.reply.Reply.{Reply as Answer};
ghost use Rattle.plan_machine.specs.declared.event.reply.Reply.TheVariants.{Stamp};
ghost use Rattle.plan_verify.specs.Turn.{Deps, Keep, Recall, Request, Run, Stat};
ghost use Rattle.plan_lanes.specs.Recalled.{RecallsAmong};

use crate::board::{KeepOrder, Permit};
use crate::recalling::replied_among;
use plan_machine::Reply;
use plan_text::{PathFilter, RowList};
use std::alloc::{AllocError, Global};

/// The world outside a run. Each call returns the reply to a request of an edge. The number of the question is the
/// position in the journal of the event that asked. Lanes call the world from several threads at once, never under a
/// lock. A call fails only if memory runs out: the failure of a file or a command is a reply.
pub trait World {
    ghost use Rattle.std.specs.Prelude.{ℕ, Bool, false};
    ghost use Rattle.plan_machine.specs.declared.event.reply.Reply.{Reply as Answer};
    ghost use Rattle.plan_verify.specs.Turn.{Request};

    /// The rule of the world: this reply may be given to the question of this number.
    ghost allows: { ℕ → Request → Answer → Type 0 };

    /// The journals of runs in this world are kept.
    ghost keeps: { Bool } = { false };

    /// Checks whether the journal of a run in this world is kept, so that it can be read when the run is over. If it
    /// isn't, a run takes no memory for its events.
    fn keeps_journal() -> bool
        ensures { result ≡ Self.keeps };

    /// Permits have what their edges have observed.
    ghost observes: { Bool } = { false };

    /// Checks whether each permit to run a command has what its edge has observed. If it hasn't, a run takes no memory
    /// for that.
    fn observes() -> bool
        ensures { result ≡ Self.observes };

    /// Returns when the file of a path was last changed.
    fn stat(&self, number: u64, path: &[u8]) -> Result<Reply, AllocError>
        ensures { IfOk result (λ r. Self.allows number (Stat path.now) r) };

    /// Returns when the file of a path was last changed, if the rule allows that stamp for the path under every number.
    /// Lanes ask in this way for the paths of a sweep, one after another, before their questions have numbers. Returns
    /// None if the rule depends on numbers, the path has no stamp, or memory ran out. Then lanes call `stat`.
    fn stat_ahead(&self, _path: &[u8]) -> Option<u64>
        ensures { IfSome result (λ stamp. (number : ℕ) → Self.allows number (Stat _path.now) (Stamp stamp)) }
    {
        None
    }

    /// Returns the entry that the record has for an output.
    fn recall(&self, number: u64, output: &[u8]) -> Result<Reply, AllocError>
        ensures { IfOk result (λ r. Self.allows number (Recall output.now) r) };

    /// Returns the paths of the entry that the record has for an output, except those that are not in a set. The set
    /// may say too often that it has a path. Returns None if there is no entry of a command that ended, or if the entry
    /// has no paths: the depfile may say more then.
    ///
    /// # Errors
    /// `AllocError` if memory runs out.
    fn recorded_among(
        &self,
        alloc: Global,
        output: &[u8],
        wanted: &PathFilter,
    ) -> Result<Option<RowList<u8>>, AllocError>
        ensures { IfOk result (λ found. IfSome found (λ paths. RecallsAmong Self.allows wanted.now output.now paths)) }
    {
        let reply = self.recall(0, output)?;
        replied_among(alloc, &reply, wanted)
    }

    /// Returns the paths that the start entry of an output keeps, except those that are not in a set: what the last
    /// command of its edge read that succeeded, before another one began that didn't. The set may say too often that it
    /// has a path. Returns None if the last entry of the output is no start entry, or keeps no such paths. A world
    /// without start entries has none.
    ///
    /// # Errors
    /// `AllocError` if memory runs out.
    fn begun_among(
        &self,
        _alloc: Global,
        _output: &[u8],
        _wanted: &PathFilter,
    ) -> Result<Option<RowList<u8>>, AllocError>
        ensures { IfOk result (λ found. IfSome found (λ paths. RecallsAmong Self.allows _wanted.now _output.now paths)) }
    {
        Ok(None)
    }

    /// Returns the paths that the record of another builder names for an output, except those that are not in a set:
    /// what a command of that builder read. The set may say too often that it has a path. `is_recorded` says whether
    /// `recorded_among` returned paths for the output. If so, the other record counts only if it is as late as the
    /// record was when this build opened it. Returns None if the other record doesn't count or names nothing. A world
    /// that reads no records of other builders has none.
    ///
    /// # Errors
    /// `AllocError` if memory runs out.
    fn foreign_among(
        &self,
        _alloc: Global,
        _output: &[u8],
        _wanted: &PathFilter,
        _is_recorded: bool,
    ) -> Result<Option<RowList<u8>>, AllocError>
        ensures { IfOk result (λ found. IfSome found (λ paths. RecallsAmong Self.allows _wanted.now _output.now paths)) }
    {
        Ok(None)
    }

    /// Checks whether the record of another builder names a path for an output that the last entry of the output
    /// doesn't have: a command of that builder read another file. The other record counts only if it is as late as the
    /// record was when this build opened it. A world that reads no records of other builders says no.
    ///
    /// # Errors
    /// `AllocError` if memory runs out.
    fn foreign_names_others(&self, _output: &[u8]) -> Result<bool, AllocError> {
        Ok(false)
    }

    /// Checks whether the record of another builder says that a command of that builder made an output after the last
    /// entry of its edge, which has `first` as its first output. The other record counts only if it is later than the
    /// record was when this build opened it. A world that reads no records of other builders says no.
    ///
    /// # Errors
    /// `AllocError` if memory runs out.
    fn foreign_ran_another(&self, _output: &[u8], _first: &[u8]) -> Result<bool, AllocError> {
        Ok(false)
    }

    /// Takes the set of the paths that edges of the manifest make. Start entries keep such paths. The set may say too
    /// often that it has a path. A world without start entries does nothing.
    fn take_outputs(&self, _outputs: PathFilter) {}

    /// Takes the set of further paths of the manifest whose files stay when depfiles are removed. The set may say too
    /// often that it has a path. Without a set, all files stay. A world that removes no files does nothing.
    fn take_others(&self, _others: Option<PathFilter>) {}

    /// Removes the depfiles that commands of this build wrote and that it has read, except files with a path in one of
    /// the sets that it took last. Called when the build has ended. A world that removes no files does nothing.
    fn remove_depfiles(&self) {}

    /// Returns when the record was last written before this build opened it: the stamp of its file. Returns None if
    /// there was no record, or if this isn't known.
    fn record_stamp(&self) -> Option<u64> {
        None
    }

    /// Returns when the first command of this build began: the stamp that a file would have got then. Returns None if
    /// no command has begun, or if this isn't known.
    fn first_begin(&self) -> Option<u64> {
        None
    }

    /// Returns the time now, by the clock from which files get their stamps. Returns None if this isn't known.
    fn now(&self) -> Option<u64> {
        None
    }

    /// Checks whether a path is that of a file. Folders and symbolic links aren't files: their stamps change if other
    /// files do. A world that doesn't know says yes.
    fn is_file(&self, _path: &[u8]) -> bool {
        true
    }

    /// Checks whether an output was last made by the edge that has `first` as its first output, as far as the record
    /// tells. A world that doesn't know says yes.
    ///
    /// # Errors
    /// `AllocError` if memory runs out.
    fn is_made_with(&self, _output: &[u8], _first: &[u8]) -> Result<bool, AllocError> {
        Ok(true)
    }

    /// Ends the entry of an output for this build: its edge is out of date until its command has begun again. The
    /// record stays as it is. A world without a record does nothing. The world shows this reason in words when the
    /// command is going to run, instead of the reason that `explain` gets. If it is empty, it shows the latter.
    ///
    /// # Errors
    /// `AllocError` if memory runs out. The entry may not have ended then.
    fn forget(&self, _output: &[u8], _reason: &[u8]) -> Result<(), AllocError> {
        Ok(())
    }

    /// Shows the reason why the command of an edge is going to run. Called before `run`. `edge` is the first output of
    /// the edge. A world that shows no reasons does nothing.
    fn explain(&self, _edge: &[u8], _reason: &[u8]) {}

    /// Runs the command of a permit, which makes these files. May wait until the command ends.
    fn run(&self, number: u64, outputs: &RowList<u8>, permit: Permit) -> Result<Reply, AllocError>
        ensures { IfOk result (λ r. Self.allows number (Run permit.command outputs.now) r) };

    /// Returns the depfile at a path.
    fn read_depfile(&self, number: u64, path: &[u8]) -> Result<Reply, AllocError>
        ensures { IfOk result (λ r. Self.allows number (Deps path.now) r) };

    /// Keeps the entry of an order in the record.
    fn keep(&self, number: u64, order: &KeepOrder) -> Result<Reply, AllocError>
        ensures { IfOk result (λ r. Self.allows number (Keep order.now.output order.now.command order.now.basis order.now.paths) r) };
}
