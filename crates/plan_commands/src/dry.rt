//! Dry builds, which run no commands.

ghost use Rattle.std.specs.Prelude.{◌≡◌, IfErr, IfOk, OnOk, map};
ghost use Rattle.plan_scope.specs.Loading.{IsMissing};
ghost use Rattle.plan_scope.specs.Sources.{SameFiles};
ghost use Rattle.plan_commands.specs.Building as defined;
ghost use Rattle.plan_commands.specs.Dry.{DryStops, Previews, dry_rule};
ghost use Rattle.plan_commands.specs.Showing.{by_format};

use crate::building::{Done, Order, Round, build_targets, update_manifest};
use crate::kept::Kept;
use crate::printed_runs::Printer;
use crate::remade::Remade;
use plan_lanes::{KeepOrder, Permit, World};
use plan_machine::Reply;
use plan_printing::PlanFault;
use plan_scope::Source;
use plan_status::Format;
use plan_text::{PathFilter, RowList, Sink};
use std::alloc::{AllocError, Global};
use std::sync::{Mutex, Wait};
use std::thread::{Parker, Threads};

/// The numbers of commands that a dry build listed. A command that is listed for the manifest and for a target counts
/// twice.
#[derive(Clone, Copy, PartialEq, Eq)]
pub struct Listed {
    /// All commands.
    pub commands: u64,
    /// The commands of edges with `restat`. 0 if there was no memory to count them.
    pub restat: u64,
}

/// A world that runs no commands and keeps no entries. It asks another world for files and the record, and for the
/// depfiles that are read before a run. It replies to each command that it ended with status 0, to each read of its
/// depfile that it is missing, and to each entry that it is kept. The entry of an edge ends if its last command read a
/// file that a listed command makes: the file would change.
#[derive(Drop)]
struct DryWorld<'a, R, W> {
    rt: &'a R,
    world: &'a W,
    /// The edges whose commands were listed, in the order in which they asked.
    edges: Mutex<Vec<u32>>,
    remade: Remade,
}

impl<R: Wait, W: World> World for DryWorld<'_, R, W> {
    ghost use Rattle.plan_commands.specs.Dry.{dry_rule};

    ghost allows = { dry_rule W.allows };

    ghost keeps = { W.keeps };

    fn keeps_journal() -> bool {
        W::keeps_journal()
    }

    ghost observes = { W.observes };

    fn observes() -> bool {
        W::observes()
    }

    fn stat(&self, number: u64, path: &[u8]) -> Result<Reply, AllocError> {
        self.world.stat(number, path)
    }

    fn stat_ahead(&self, path: &[u8]) -> Option<u64> {
        self.world.stat_ahead(path)
    }

    /// No edge asks under the number 0.
    fn recall(&self, number: u64, output: &[u8]) -> Result<Reply, AllocError> {
        if number > 0 {
            self.end_if_remade(output)?;
        }
        self.world.recall(number, output)
    }

    fn recorded_among(
        &self,
        alloc: Global,
        output: &[u8],
        wanted: &PathFilter,
    ) -> Result<Option<RowList<u8>>, AllocError> {
        match self.world.recorded_among(alloc, output, wanted)? {
            Some(paths) => {
                self.remade.add_read(self.rt, output, &paths)?;
                Ok(Some(paths))
            }
            None => Ok(None),
        }
    }

    fn begun_among(
        &self,
        alloc: Global,
        output: &[u8],
        wanted: &PathFilter,
    ) -> Result<Option<RowList<u8>>, AllocError> {
        self.world.begun_among(alloc, output, wanted)
    }

    fn foreign_among(
        &self,
        alloc: Global,
        output: &[u8],
        wanted: &PathFilter,
        is_recorded: bool,
    ) -> Result<Option<RowList<u8>>, AllocError> {
        self.world.foreign_among(alloc, output, wanted, is_recorded)
    }

    fn foreign_names_others(&self, output: &[u8]) -> Result<bool, AllocError> {
        self.world.foreign_names_others(output)
    }

    fn foreign_ran_another(&self, output: &[u8], first: &[u8]) -> Result<bool, AllocError> {
        self.world.foreign_ran_another(output, first)
    }

    fn record_stamp(&self) -> Option<u64> {
        self.world.record_stamp()
    }

    fn first_begin(&self) -> Option<u64> {
        self.world.first_begin()
    }

    fn now(&self) -> Option<u64> {
        self.world.now()
    }

    fn is_file(&self, path: &[u8]) -> bool {
        self.world.is_file(path)
    }

    fn is_made_with(&self, output: &[u8], first: &[u8]) -> Result<bool, AllocError> {
        self.world.is_made_with(output, first)
    }

    fn forget(&self, output: &[u8], reason: &[u8]) -> Result<(), AllocError> {
        self.world.forget(output, reason)
    }

    fn explain(&self, edge: &[u8], reason: &[u8]) {
        self.world.explain(edge, reason);
    }

    fn run(
        &self,
        _number: u64,
        outputs: &RowList<u8>,
        permit: Permit,
    ) -> Result<Reply, AllocError> {
        let edge = permit.edge();
        permit.spend();
        self.remade.add_made(self.rt, outputs)?;
        self.edges.lock(self.rt).push(edge)?;
        Ok(Reply::Exit(0))
    }

    /// No edge asks under the number 0.
    fn read_depfile(&self, number: u64, path: &[u8]) -> Result<Reply, AllocError> {
        if number == 0 {
            return self.world.read_depfile(number, path);
        }
        Ok(Reply::Nothing)
    }

    fn keep(&self, _number: u64, _order: &KeepOrder) -> Result<Reply, AllocError> {
        Ok(Reply::Kept)
    }
}

/// The reason why an edge would run, after the path of a file that it reads.
const WILL_CHANGE: &[u8] = b" is made again by a command before this one";

impl<R: Wait, W: World> DryWorld<'_, R, W> {
    /// Ends the entry of an output's edge if its last command read a file that a listed command makes.
    fn end_if_remade(&self, output: &[u8]) -> Result<(), AllocError> {
        match self.remade.first_read(self.rt, output)? {
            Some(mut words) => {
                words.extend_from_slice(WILL_CHANGE)?;
                self.world.forget(output, &words)
            }
            None => Ok(()),
        }
    }
}

impl<R: Wait, W> DryWorld<'_, R, W> {
    /// Returns the numbers of commands that were listed, by what is kept of the manifest.
    fn listed(&self, kept: &Kept) -> Listed {
        let edges = self.edges.lock(self.rt);
        Listed {
            commands: edges.len() as u64,
            restat: kept.count_restat(&edges),
        }
    }
}

/// Builds the targets of a manifest in a dry world. Returns how the build ended, and the printer.
fn build_dry<
    S: Source,
    W: World + Send + Sync,
    F: Format + Send + Drop,
    O: Sink + Send + Drop,
    R: Threads + Wait + Sync,
>(
    rt: &R,
    alloc: Global,
    source: &mut S,
    order: &Order<'_>,
    dry: &DryWorld<'_, R, W>,
    kept: &mut Kept,
    parker: &Parker,
    printer: Printer<F, O>,
) -> (Result<Done, PlanFault>, Printer<F, O>)
    ensures done { let a = defined.asked order.now.manifest.now order.now.options (map (λ n. n.now) order.now.targets.now) in
        IfOk result.0 (λ d. Previews (S.gives source.old) (by_format F.kept F.tells (F.kept printer.format)) (dry_rule W.allows) a (O.failures printer.out, O.taken printer.out) (O.failures result.1.out, O.taken result.1.out) d) }
    ensures read { OnOk result.0 (S.failures source.new ≡ S.failures source.old) }
    ensures same { SameFiles (S.gives source.new) (S.fails source.new) (S.gives source.old) (S.fails source.old) }
    ensures refused { let a = defined.asked order.now.manifest.now order.now.options (map (λ n. n.now) order.now.targets.now) in
        let missing = IsMissing (S.gives source.old) (S.fails source.old) (S.failures source.old) (S.failures source.new) in
        IfErr result.0 (λ fault. DryStops (S.gives source.old) missing (by_format F.kept F.tells (F.kept printer.format)) (dry_rule W.allows) a (O.failures printer.out, O.taken printer.out) (O.failures result.1.out, O.taken result.1.out) fault) }
    ensures format { F.kept result.1.format ≡ F.kept printer.format }
{
    let (round, printer) = update_manifest(rt, alloc, source, order, dry, kept, parker, printer);
    match round {
        Ok(Round::Remade) => (Ok(Done::Built), printer),
        Ok(Round::Failed) => (Ok(Done::ManifestFails), printer),
        Ok(Round::NothingToDo) => (Ok(Done::UpToDate), printer),
        Ok(Round::UpToDate(image)) => build_targets(
            rt,
            alloc,
            image,
            order,
            dry,
            kept.explainer(),
            parker,
            printer,
        ),
        Err(fault) => (Err(fault), printer),
    }
}

/// Prints the marks of a build of a manifest's targets by a format, but runs no command and keeps no entry. Asks the
/// world only for files and the record. Each command counts as one that ended with status 0, and leaves its outputs as
/// they are. So an edge that uses outputs of a `restat` edge is listed only if it is out of date already, unless only
/// its entry names the output: then it is listed. Returns how the build ended, the printer, and the numbers of commands
/// that were listed.
///
/// If the command of the edge that makes the manifest would run, the build ends after it, as `Built`: the content of
/// the new manifest isn't known. The build never ends as `NeverSettles`.
///
/// # Errors
/// As in `do_build`.
pub fn do_dry_build<
    S: Source,
    W: World + Send + Sync,
    F: Format + Send + Drop,
    O: Sink + Send + Drop,
    R: Threads + Wait + Sync,
>(
    rt: &R,
    alloc: Global,
    source: &mut S,
    order: &Order<'_>,
    world: &W,
    parker: &Parker,
    printer: Printer<F, O>,
) -> (Result<Done, PlanFault>, Printer<F, O>, Listed)
    ensures done { let a = defined.asked order.now.manifest.now order.now.options (map (λ n. n.now) order.now.targets.now) in
        IfOk result.0 (λ d. Previews (S.gives source.old) (by_format F.kept F.tells (F.kept printer.format)) (dry_rule W.allows) a (O.failures printer.out, O.taken printer.out) (O.failures result.1.out, O.taken result.1.out) d) }
    ensures read { OnOk result.0 (S.failures source.new ≡ S.failures source.old) }
    ensures same { SameFiles (S.gives source.new) (S.fails source.new) (S.gives source.old) (S.fails source.old) }
    ensures refused { let a = defined.asked order.now.manifest.now order.now.options (map (λ n. n.now) order.now.targets.now) in
        let missing = IsMissing (S.gives source.old) (S.fails source.old) (S.failures source.old) (S.failures source.new) in
        IfErr result.0 (λ fault. DryStops (S.gives source.old) missing (by_format F.kept F.tells (F.kept printer.format)) (dry_rule W.allows) a (O.failures printer.out, O.taken printer.out) (O.failures result.1.out, O.taken result.1.out) fault) }
    ensures format { F.kept result.1.format ≡ F.kept printer.format }
{
    let dry = DryWorld {
        rt,
        world,
        edges: Mutex::new(Vec::new(alloc)),
        remade: Remade::new(alloc),
    };
    let mut kept = Kept::new(true);
    let (done, printer) = build_dry(rt, alloc, source, order, &dry, &mut kept, parker, printer);
    (done, printer, dry.listed(&kept))
}
