//! The build that a command line asks for.

ghost use Rattle.std.specs.Prelude.{◌≡◌, IfErr, IfOk, IfSome, Ok, map};
ghost use Rattle.plan_scope.specs.Sources.{SameFiles};
ghost use Rattle.plan_options.specs.declared.command.Mode.TheVariants as mode;
ghost use Rattle.plan_commands.specs.Building.{asked, exit_status};
ghost use Rattle.plan_commands.specs.declared.building.Done.{Done};
ghost use Rattle.plan_progress.specs.BuildLines.{look_of};
ghost use Rattle.plan_build.specs.Statuses as statuses;
ghost use Rattle.plan_build.specs.Statuses.{BuiltNamed, Ended, HasUnknownTarget, SaysBuilt, SaysExplained, as_build, display_in};

use crate::ending::{NOTHING, Tally, end_build, may_run_others, no_work, note_restat, tally_of};
use crate::record_place::RecordPlace;
use crate::refusal::{UNKNOWN_TARGET, refuse, refuse_moved, refuse_tool};
use crate::watched_screen::{WatchedScreen, WriteWatcher};
use crate::words::{is_quiet, manifest_in, style_in};
use plan_build_tools::{named_in, slices_of};
use plan_commands::{Done, Listed, Order, Printer, do_build, do_dry_build};
use plan_lanes::{Observing, World};
use plan_machine::Options;
use plan_options::{CommandLine, Mode};
use plan_printing::{PlanFault, no_memory};
use plan_progress::{BuildLines, Counts, Display, Outputs, Stopwatch};
use plan_scope::Source;
use std::rt::{Clock, Files};
use std::sync::{Mutex, Wait};
use std::thread::{Parker, Threads};

/// The printer of the runs of a build.
type BuildPrinter<'a, R, H> = Printer<BuildLines<'a, H>, WatchedScreen<'a, R, H>>;

/// Returns the options that a command line gives. If `-j` isn't given, they have this many jobs. None if no options may
/// have them.
fn options_in(line: &CommandLine, jobs: u16) -> Option<Options>
    ensures { IfSome result (λ options. options ≡ statuses.limits_of line.now jobs) }
{
    Options::new(line.jobs().unwrap_or(jobs), line.failures())
}

/// The environment of a build.
#[derive(Drop)]
pub struct Builder<'a, R, E, W, H> {
    /// The runtime.
    pub rt: &'a R,
    /// Standard error.
    pub errors: &'a E,
    /// The world that replies to the build's questions.
    pub world: &'a W,
    /// The place of the record that the world has.
    pub place: &'a RecordPlace,
    /// The outputs of commands that aren't shown yet, and the time.
    pub outputs: &'a H,
    /// Whether standard output is a terminal on which lines are written over.
    pub on_terminal: bool,
    /// Whether escape sequences are wanted, so that `FAILED:` is red.
    pub colours: bool,
    /// The template of the text before a label.
    pub template: &'a [u8],
    /// The number of columns of the terminal, or 0 if it isn't known.
    pub width: usize,
    /// The lock of standard output.
    pub screen: &'a Mutex<()>,
    /// Unparked before a command starts, so that the lines so far are printed first.
    pub parker: &'a Parker,
}

impl<'a, R, E, W, H> Builder<'a, R, E, W, H> {
    /// Creates the environment of a build.
    pub fn new(
        rt: &'a R,
        errors: &'a E,
        world: &'a W,
        place: &'a RecordPlace,
        outputs: &'a H,
        on_terminal: bool,
        colours: bool,
        template: &'a [u8],
        width: usize,
        screen: &'a Mutex<()>,
        parker: &'a Parker,
    ) -> Builder<'a, R, E, W, H> {
        Builder {
            rt,
            errors,
            world,
            place,
            outputs,
            on_terminal,
            colours,
            template,
            width,
            screen,
            parker,
        }
    }
}

impl<'a, R, E, W, H> Builder<'a, R, E, W, H> {
    /// Returns the same environment with another world.
    fn in_world<'b, V>(&'b self, world: &'b V) -> Builder<'b, R, E, V, H>
        ensures world { result.world.now ≡ world.now }
        ensures on_terminal { result.on_terminal ≡ self.now.on_terminal }
        ensures colours { result.colours ≡ self.now.colours }
        ensures template { result.template.now ≡ self.now.template.now }
        ensures width { result.width ≡ self.now.width }
    {
        let here = self;
        Builder {
            rt: here.rt,
            errors: here.errors,
            world,
            place: here.place,
            outputs: here.outputs,
            on_terminal: here.on_terminal,
            colours: here.colours,
            template: here.template,
            width: here.width,
            screen: here.screen,
            parker: here.parker,
        }
    }
}

impl<
    R: Threads + Wait + Sync + Files + Print + Eprint + Clock + AllocGlobal,
    E: Print,
    W: World + Send + Sync,
    H: Outputs + Stopwatch + WriteWatcher + Sync,
> Builder<'_, R, E, W, H> {
    /// Returns the printer of the runs of a build.
    fn printer(&self, line: &CommandLine) -> BuildPrinter<'_, R, H>
        ensures { look_of result.format.display ≡ display_in line.now self.now.on_terminal self.now.colours self.now.template.now self.now.width }
    {
        let display = Display {
            style: style_in(line),
            on_terminal: self.on_terminal,
            colours: self.colours,
            template: self.template,
            width: self.width,
        };
        Printer {
            format: BuildLines::new(self.rt.alloc(), self.outputs, display),
            out: WatchedScreen::new(self.rt, self.screen, self.outputs),
        }
    }

    /// Builds targets. Also returns how many edges failed, and how many were tried.
    fn run<S: Source>(
        &self,
        source: &mut S,
        line: &CommandLine,
        options: Options,
        targets: &[&[u8]],
    ) -> (Result<Done, PlanFault>, Tally)
        ensures same { SameFiles (S.gives source.new) (S.fails source.new) (S.gives source.old) (S.fails source.old) }
        ensures done { let a = asked (statuses.manifest_in line.now) options (map (λ n. n.now) targets.now) in
            IfOk result.0 (λ done. Ended mode.Real (S.gives source.old) (as_build H H.taken H.showed (display_in line.now self.now.on_terminal self.now.colours self.now.template.now self.now.width)) W.allows a done) }
        ensures unknown { let a = asked (statuses.manifest_in line.now) options (map (λ n. n.now) targets.now) in
            IfErr result.0 (λ fault. fault.number ≡ 132 → HasUnknownTarget mode.Real (S.gives source.old) (S.fails source.old) (as_build H H.taken H.showed (display_in line.now self.now.on_terminal self.now.colours self.now.template.now self.now.width)) W.allows a) }
    {
        let (rt, alloc) = (self.rt, self.rt.alloc());
        let order = Order {
            manifest: manifest_in(line),
            options,
            targets,
        };
        let printer = self.printer(line);
        let (done, printer) = do_build(rt, alloc, source, &order, self.world, self.parker, printer);
        if done.is_ok() && !line.keeps_depfiles() {
            self.world.remove_depfiles();
        }
        (done, tally_of(printer.format.counts()))
    }

    /// Notes on standard error that more commands may run than a dry build listed, unless `--quiet` is given. `counts`
    /// are the counts of its last run.
    fn note(&self, line: &CommandLine, listed: Listed, counts: Counts) {
        if !is_quiet(line) && may_run_others(listed, counts) {
            note_restat(self.rt.alloc(), self.errors, listed.restat);
        }
    }

    /// Prints the commands that a build would run, and notes if there may be more. Also returns how many edges
    /// would fail, and how many would be tried.
    fn preview<S: Source>(
        &self,
        source: &mut S,
        line: &CommandLine,
        options: Options,
        targets: &[&[u8]],
    ) -> (Result<Done, PlanFault>, Tally)
        ensures same { SameFiles (S.gives source.new) (S.fails source.new) (S.gives source.old) (S.fails source.old) }
        ensures done { let a = asked (statuses.manifest_in line.now) options (map (λ n. n.now) targets.now) in
            IfOk result.0 (λ done. Ended mode.Dry (S.gives source.old) (as_build H H.taken H.showed (display_in line.now self.now.on_terminal self.now.colours self.now.template.now self.now.width)) W.allows a done) }
        ensures unknown { let a = asked (statuses.manifest_in line.now) options (map (λ n. n.now) targets.now) in
            IfErr result.0 (λ fault. fault.number ≡ 132 → HasUnknownTarget mode.Dry (S.gives source.old) (S.fails source.old) (as_build H H.taken H.showed (display_in line.now self.now.on_terminal self.now.colours self.now.template.now self.now.width)) W.allows a) }
    {
        let (rt, alloc) = (self.rt, self.rt.alloc());
        let order = Order {
            manifest: manifest_in(line),
            options,
            targets,
        };
        let printer = self.printer(line);
        let (done, printer, listed) = do_dry_build(
            rt,
            alloc,
            source,
            &order,
            self.world,
            self.parker,
            printer,
        );
        let counts = printer.format.counts();
        if done.is_ok() {
            self.note(line, listed, counts);
        }
        (done, tally_of(counts))
    }

    /// Builds targets, or prints the commands that would run. Also returns how many edges failed, and how many were
    /// tried.
    fn build<S: Source>(
        &self,
        mode: Mode,
        source: &mut S,
        line: &CommandLine,
        options: Options,
        targets: &[&[u8]],
    ) -> (Result<Done, PlanFault>, Tally)
        ensures same { SameFiles (S.gives source.new) (S.fails source.new) (S.gives source.old) (S.fails source.old) }
        ensures done { let a = asked (statuses.manifest_in line.now) options (map (λ n. n.now) targets.now) in
            IfOk result.0 (λ done. Ended mode (S.gives source.old) (as_build H H.taken H.showed (display_in line.now self.now.on_terminal self.now.colours self.now.template.now self.now.width)) W.allows a done) }
        ensures unknown { let a = asked (statuses.manifest_in line.now) options (map (λ n. n.now) targets.now) in
            IfErr result.0 (λ fault. fault.number ≡ 132 → HasUnknownTarget mode (S.gives source.old) (S.fails source.old) (as_build H H.taken H.showed (display_in line.now self.now.on_terminal self.now.colours self.now.template.now self.now.width)) W.allows a) }
    {
        match mode {
            Mode::Real => self.run(source, line, options, targets),
            Mode::Dry => self.preview(source, line, options, targets),
        }
    }

    /// Prints how a build ended, and returns the exit status.
    fn end(&self, line: &CommandLine, done: Result<Done, PlanFault>, tally: Tally) -> u8
        ensures { result ≡ 0 → (d : Done) × (done ≡ Ok d) × (exit_status d ≡ 0) }
    {
        let manifest = manifest_in(line);
        match done {
            Err(_) if self.place.has_moved() => refuse_moved(
                self.rt.alloc(),
                self.errors,
                manifest,
            ),
            Ok(done) => {
                let allowed = line.failures();
                end_build(self.rt, self.errors, manifest, allowed, tally, done)
            }
            Err(fault) => refuse(self.rt, self.errors, manifest, &fault),
        }
    }

    /// Builds the targets that words name, after a build refused one of the words as a target. The word may be `PATH^`,
    /// a source, or a path not in canonical form. Sources that exist are up to date. Returns the exit status.
    fn build_named<S: Source>(
        &self,
        mode: Mode,
        source: &mut S,
        line: &CommandLine,
        options: Options,
        words: &[&[u8]],
    ) -> u8
        ensures { result ≡ 0 → BuiltNamed mode S.gives S.fails source.old (as_build H H.taken H.showed (display_in line.now self.now.on_terminal self.now.colours self.now.template.now self.now.width)) W.allows (statuses.manifest_in line.now) options (map (λ w. w.now) words.now) }
    {
        let alloc = self.rt.alloc();
        let paths = match named_in(self.rt, source, manifest_in(line), words) {
            Ok(paths) => paths,
            Err(fault) => return refuse_tool(self.rt, self.errors, manifest_in(line), &fault),
        };
        if paths.len() == 0 {
            return no_work(self.rt, self.errors);
        }
        match slices_of(alloc, &paths) {
            Ok(targets) => {
                let (done, tally) = self.build(mode, source, line, options, &targets);
                self.end(line, done, tally)
            }
            Err(_) => self.end(line, Err(no_memory(alloc)), NOTHING),
        }
    }

    /// Builds like `build_line`, and shows before each command why it runs. To do so, observes edges.
    /// Returns the exit status.
    pub fn build_explained<S: Source>(
        &self,
        mode: Mode,
        source: &mut S,
        line: &CommandLine,
        jobs: u16,
    ) -> u8
        ensures { SaysBuilt mode S.gives S.fails source.old (as_build H H.taken H.showed (display_in line.now self.now.on_terminal self.now.colours self.now.template.now self.now.width)) W.allows line.now jobs result }
    {
        let observing = Observing::new(self.world);
        self.in_world(&observing)
            .build_line(mode, source, line, jobs)
    }

    /// Prints which commands would run for the targets that are the words of a tool, but runs none. If there are no
    /// words, the targets are the defaults. Returns the exit status.
    fn preview_words<S: Source>(&self, source: &mut S, line: &CommandLine, jobs: u16) -> u8
        ensures { SaysExplained (S.gives source.old) (as_build H H.taken H.showed (display_in line.now self.now.on_terminal self.now.colours self.now.template.now self.now.width)) W.allows line.now jobs result }
    {
        let alloc = self.rt.alloc();
        let (Some(options), Ok(targets)) = (options_in(line, jobs), line.tool_words(alloc)) else {
            return self.end(line, Err(no_memory(alloc)), NOTHING);
        };
        let (done, tally) = self.preview(source, line, options, &targets);
        self.end(line, done, tally)
    }

    /// Prints which commands would run for the words of a tool, like `preview_words`, and why. Returns the exit status.
    pub fn explain<S: Source>(&self, source: &mut S, line: &CommandLine, jobs: u16) -> u8
        ensures { SaysExplained (S.gives source.old) (as_build H H.taken H.showed (display_in line.now self.now.on_terminal self.now.colours self.now.template.now self.now.width)) W.allows line.now jobs result }
    {
        let observing = Observing::new(self.world);
        self.in_world(&observing).preview_words(source, line, jobs)
    }

    /// Builds the targets of a command line, or prints the commands that would run. Reads the manifest from a source. At most `jobs` commands run at once if
    /// `-j` isn't given. Returns the exit status.
    pub fn build_line<S: Source>(
        &self,
        mode: Mode,
        source: &mut S,
        line: &CommandLine,
        jobs: u16,
    ) -> u8
        ensures { SaysBuilt mode S.gives S.fails source.old (as_build H H.taken H.showed (display_in line.now self.now.on_terminal self.now.colours self.now.template.now self.now.width)) W.allows line.now jobs result }
    {
        let alloc = self.rt.alloc();
        let (Some(options), Ok(targets)) = (options_in(line, jobs), line.targets(alloc)) else {
            return self.end(line, Err(no_memory(alloc)), NOTHING);
        };
        let (done, tally) = self.build(mode, source, line, options, &targets);
        match done {
            Err(fault) if fault.number == UNKNOWN_TARGET => {
                self.build_named(mode, source, line, options, &targets)
            }
            done => self.end(line, done, tally),
        }
    }
}
