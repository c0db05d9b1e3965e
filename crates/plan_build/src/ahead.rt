//! Other threads read the record and ask for stamps while a build compiles its manifest.

ghost use Rattle.std.specs.Thread.{IsSend, IsSync};
ghost use Rattle.plan_stamps.specs.Stamps.{AllowsOnce};
ghost use Rattle.plan_build.specs.Statuses.{SaysBuilt, as_build, display_in};

use crate::building::Builder;
use crate::refusal::refuse_record;
use crate::watched_screen::WriteWatcher;
use crate::words::manifest_in;
use plan_lanes::World;
use plan_options::{CommandLine, Mode};
use plan_progress::{Outputs, Stopwatch};
use plan_record::Entry;
use plan_scope::Source;
use plan_stamps::StampCache;
use plan_world::{OpenFault, RealWorld, SharedFile};
use std::fs::OpenFile;
use std::io::{Read, Seek, Write};
use std::rt::{Clock, Files};
use std::sync::Wait;
use std::sync::atomic::{AtomicBool, Ordering};
use std::thread::{self, Threads};

/// A world with a record that is read when it is first needed. Threads read it through this trait, since the kit lets
/// threads use a trait of this crate as a bound, but not the bound `Files` of a runtime.
pub trait RecordedWorld {
    /// Reads the record, unless that was done before.
    ///
    /// # Errors
    /// The record can't be used. The reason is also reported on standard error.
    fn read_ahead(&self) -> Result<(), OpenFault>;

    /// Returns the last entry of each output. Reads the record first if that wasn't done yet.
    ///
    /// # Errors
    /// As for `read_ahead`.
    fn entries(&self) -> Result<Vec<Entry>, OpenFault>;
}

impl<R: Files + Wait + Eprint + AllocGlobal, S, D> RecordedWorld for RealWorld<R, S, D>
where
    R::File: Read + Write + Seek + OpenFile + SharedFile + Drop,
{
    fn read_ahead(&self) -> Result<(), OpenFault> {
        self.read_record()
    }

    fn entries(&self) -> Result<Vec<Entry>, OpenFault> {
        self.last_entries()
    }
}

/// Reads the record. Then this many threads ask for the stamps of its outputs and of their recorded dependencies, until
/// they have asked for all, a command begins, or the build is over.
///
/// # Errors
/// The record can't be used.
fn look_ahead<R: Threads + Wait + Sync, W: World + RecordedWorld + Send + Sync>(
    world: &StampCache<'_, R, W>,
    threads: usize,
    is_over: &AtomicBool,
) -> Result<(), OpenFault> {
    if threads == 0 {
        return world.inner().read_ahead();
    }
    let entries = world.inner().entries()?;
    world.ask_ahead(&entries, threads, is_over);
    Ok(())
}

/// Calls a function. Meanwhile another thread reads the record, and this many threads ask for stamps. Returns the
/// result of the function, and whether the record can be used.
fn while_looking_ahead<
    R: Threads + Wait + Sync,
    W: World + RecordedWorld + Send + Sync,
    T: Drop,
    F: FnOnce() -> T,
>(rt: &R, world: &StampCache<'_, R, W>, threads: usize, build: F) -> (T, Result<(), OpenFault>)
    requires { F.pre build }
    ensures { F.post build result.0 }
{
    let is_over = AtomicBool::new(false);
    let is_over = &is_over;
    thread::scope(
        thread::scope_env(),
        rt,
        move |scope| -> (T, Result<(), OpenFault>)
            requires { IsSync R.row × IsSend W.row × IsSync W.row × F.pre build }
            ensures { F.post build result.0 }
        {
            let ahead = scope.spawn(move || look_ahead(world, threads, is_over));
            let built = build();
            is_over.store(true, Ordering::SeqCst);
            match ahead {
                Ok(ahead) => (built, ahead.join(rt)),
                Err(_) => (built, Ok(())),
            }
        },
    )
}

impl<
    R: Threads + Wait + Sync + Files + Print + Eprint + Clock + AllocGlobal,
    E: Print,
    W: World + RecordedWorld + Send + Sync,
    H: Outputs + Stopwatch + WriteWatcher + Sync,
> Builder<'_, R, E, StampCache<'_, R, W>, H> {
    /// Builds like `build_line`. Meanwhile another thread reads the record, and this many threads ask for stamps. If
    /// the record can't be used, reports that when the build has ended. Returns the exit status.
    pub fn build_looking_ahead<S: Source>(
        &self,
        mode: Mode,
        source: &mut S,
        line: &CommandLine,
        jobs: u16,
        threads: usize,
    ) -> u8
        ensures { SaysBuilt mode S.gives S.fails source.old (as_build H H.taken H.showed (display_in line.now self.now.on_terminal self.now.colours self.now.template.now self.now.width)) (λ _ question reply. AllowsOnce W.allows question reply) line.now jobs result }
    {
        let (status, read) = while_looking_ahead(
            self.rt,
            self.world,
            threads,
            || -> u8
                ensures { SaysBuilt mode S.gives S.fails source.entry.now (as_build H H.taken H.showed (display_in line.entry.now self.entry.now.on_terminal self.entry.now.colours self.entry.now.template.now self.entry.now.width)) (λ _ question reply. AllowsOnce W.allows question reply) line.entry.now jobs result }
            { self.build_line(mode, source, line, jobs) },
        );
        match read {
            Ok(()) => status,
            Err(fault) => {
                let record = self.place.record();
                refuse_record(self.rt, self.errors, manifest_in(line), record, fault)
            }
        }
    }
}
