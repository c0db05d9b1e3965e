//! plan_build: builds the targets of a Ninja manifest, with ninja's command line. This crate is the program. The crates
//! that it depends on do the work.
#![tactic(auto)]

ghost use Rattle.plan_options.specs.Commands.{asks_in};
ghost use Rattle.plan_stamps.specs.Stamps.{AllowsOnce};
ghost use Rattle.plan_build.specs.Statuses.{Executes, SaysDone, as_build, display_in};

mod ahead;
mod builddir;
mod building;
mod ending;
mod finding;
mod held_outputs;
mod including;
mod pointing;
mod record_place;
mod refusal;
mod sentences;
mod shells;
mod stopping;
mod template;
mod watched_screen;
mod watcher;
mod width;
mod words;

use crate::ahead::RecordedWorld;
use crate::building::Builder;
use crate::held_outputs::HeldOutputs;
use crate::record_place::{ManifestFiles, RecordPlace};
use crate::refusal::{refuse, refuse_loading, refuse_record, refuse_tool};
use crate::shells::{BuildShells, is_smart_terminal, shares_terminal, wants_escapes};
use crate::stopping::{stop_at, warn};
use crate::template::read_template;
use crate::watched_screen::WriteWatcher;
use crate::watcher::{STOP_COMMANDS, Watcher, stop_commands};
use crate::width::terminal_width;
use crate::words::{
    MANIFEST, RECORD, after_name, is_quiet, manifest_in, manner_in, name_in, words_in,
};
use plan_build_tools::{BuildFiles, Request, Tool, request_in, run_tool, tool_named, unknown_tool};
use plan_lanes::World;
use plan_options::{Build, Command, CommandLine, Mode, Reasons, Setting};
use plan_printing::{
    ErrorStream, REFUSED, complain, complain_of, no_memory, open_streams, reason_of_error, say,
};
use plan_progress::{Outputs, Stopwatch};
use plan_scope::Source;
use plan_stamps::StampCache;
use plan_world::{RealWorld, SystemDisk, SystemShells};
use std::alloc::{AllocError, Global};
use std::io::ErrorKind;
use std::mem::forget;
use std::process::ExitCode;
use std::rt::{Clock, Env, Files};
use std::sync::{Mutex, Wait};
use std::thread::{Parker, Threads};
use std::{env, fs, str, thread};

/// Returns how many commands run at once if `-j` isn't given, like ninja: two for one processor, three for two, and
/// otherwise two more than there are processors. The limit is 1,024.
fn default_jobs<R: Threads>(rt: &R) -> u16 {
    match thread::available_parallelism(rt) {
        Ok(processors) => match processors.get() {
            0 | 1 => 2,
            2 => 3,
            number => u16::try_from(number.min(1022) + 2).unwrap_or(1024),
        },
        Err(_) => 2,
    }
}

/// Checks whether a command line names no target, so that the defaults of the manifest are built.
fn names_no_target(alloc: Global, line: &CommandLine) -> bool {
    match line.targets(alloc) {
        Ok(targets) => targets.is_empty(),
        Err(_) => false,
    }
}

/// Returns how many threads ask for stamps ahead of a build: as many as there are processors that no job needs. If a
/// target is named, or if the number of processors is unknown, there are none.
fn threads_ahead<R: Threads + AllocGlobal>(rt: &R, line: &CommandLine, jobs: u16) -> usize {
    if !names_no_target(rt.alloc(), line) {
        return 0;
    }
    match thread::available_parallelism(rt) {
        Ok(processors) => processors.get().saturating_sub(usize::from(jobs)),
        Err(_) => 0,
    }
}

/// Changes to the folder that `-C` names, if any. Prints its name first, unless `-t` or `--quiet` is given.
///
/// # Errors
/// The exit status if the change or the output fails. The reason is reported on standard error.
fn enter<R: Env + Print + Eprint + Clock + AllocGlobal, E: Print>(
    rt: &R,
    errors: &E,
    line: &CommandLine,
) -> Result<(), u8> {
    let Some(folder) = line.value(Setting::Folder) else {
        return Ok(());
    };
    let is_silent = line.value(Setting::Tool).is_some() || is_quiet(line);
    if !is_silent {
        say(
            rt,
            errors,
            &[b"ninja: Entering directory `", &*folder, b"'\n"],
        )?;
    }
    match env::set_current_dir(rt, str::from_utf8(folder).unwrap_or("")) {
        Ok(()) => Ok(()),
        Err(error) => {
            let reason = reason_of_error(&error);
            let before = b"ninja: fatal: chdir to '";
            complain_of(rt.alloc(), errors, before, folder, b"' - ", reason);
            Err(REFUSED)
        }
    }
}

/// Returns the reason why a manifest can't be read, without opening it. None if no reason is found.
fn missing<R: Files>(rt: &R, manifest: &[u8]) -> Option<ErrorKind> {
    match fs::metadata(rt, str::from_utf8(manifest).unwrap_or("")) {
        Ok(found) => {
            if found.is_dir() {
                Some(ErrorKind::IsADirectory)
            } else {
                None
            }
        }
        Err(error) => Some(error.kind()),
    }
}

/// The world of real files and commands.
type SystemWorld<'a> = RealWorld<
    HostRuntime,
    BuildShells<'a, HostRuntime, SystemShells<HostRuntime>, Watcher<'a, HostRuntime>>,
    SystemDisk<HostRuntime>,
>;

/// Finds the place of the record of a manifest.
///
/// # Errors
/// The exit status if the manifest is missing or refused. The reason is reported on standard error.
fn place_of<R: Files + Eprint + AllocGlobal, E: Print>(
    rt: &R,
    errors: &E,
    manifest: &[u8],
) -> Result<RecordPlace, u8> {
    if let Some(kind) = missing(rt, manifest) {
        return Err(refuse_loading(rt.alloc(), errors, manifest, kind));
    }
    match RecordPlace::of(rt, manifest) {
        Ok(place) => Ok(place),
        Err(fault) => Err(refuse(rt, errors, manifest, &fault)),
    }
}

/// Checks whether a command line asks for no more than which commands would run.
fn only_reads(line: &CommandLine) -> bool {
    matches!(
        line.command(),
        Command::Build(Build::Explain | Build::Targets(Mode::Dry, _))
    )
}

/// Creates the folder of the record, and takes over the record of earlier builds that were in another folder.
///
/// # Errors
/// The exit status if the folder can't be created or the manifest is refused. The reason is reported on standard error.
fn prepare<E: Print>(
    rt: &HostRuntime,
    errors: &E,
    manifest: &[u8],
    place: &RecordPlace,
) -> Result<(), u8> {
    place.create_folder(rt, errors)?;
    match place.take_over(rt, manifest) {
        Ok(()) => Ok(()),
        Err(fault) => Err(refuse(rt, errors, manifest, &fault)),
    }
}

/// Opens the world of real files and commands, with the record at its place. The outputs of commands are held in
/// `outputs`. `watcher` stops them if this builder ends early. A dry build only reads the record.
///
/// # Errors
/// The exit status if the world can't be opened. The reason is reported on standard error.
fn open_world<'a, E: Print>(
    rt: &'a HostRuntime,
    errors: &E,
    line: &CommandLine,
    place: &RecordPlace,
    outputs: &'a HeldOutputs<'a, HostRuntime>,
    watcher: &'a Watcher<'a, HostRuntime>,
) -> Result<SystemWorld<'a>, u8> {
    let alloc = rt.alloc();
    let manifest = manifest_in(line);
    let own: Result<HostRuntime, AllocError> = rt.clone();
    let other: Result<HostRuntime, AllocError> = rt.clone();
    let third: Result<HostRuntime, AllocError> = rt.clone();
    let (Ok(own), Ok(other), Ok(third)) = (own, other, third) else {
        return Err(refuse(rt, errors, manifest, &no_memory(alloc)));
    };
    let shells = BuildShells::new(
        alloc,
        rt,
        SystemShells::new(other),
        outputs,
        wants_escapes(rt),
        shares_terminal(rt),
        watcher,
    );
    let disk = SystemDisk::new(third);
    let opened = if only_reads(line) {
        RealWorld::open_reading(own, shells, disk, place.record_to_read(rt))
    } else {
        prepare(rt, errors, manifest, place)?;
        RealWorld::open_stricter(own, shells, disk, place.record())
    };
    match opened {
        Ok(world) => Ok(world),
        Err(fault) => Err(refuse_record(rt, errors, manifest, place.record(), fault)),
    }
}

/// The smallest and the largest room, as numbers of stamps.
const LEAST_ROOM: usize = 16_384;

const GREATEST_ROOM: usize = 4_194_304;

/// Returns the room, as a number of stamps, for a manifest of this many bytes. In most manifests a path takes 16 bytes
/// or more, so there is room for at least twice as many stamps as paths.
fn room_for(bytes: u64) -> usize {
    usize::try_from(bytes / 8)
        .unwrap_or(GREATEST_ROOM)
        .clamp(LEAST_ROOM, GREATEST_ROOM)
}

/// Wraps a world in a cache that asks for the stamp of each path only once while no command runs.
///
/// # Errors
/// The exit status if memory runs out. That is reported on standard error.
fn cache_over<'a, R: Files + Eprint + AllocGlobal, E: Print, W: World + Drop>(
    rt: &'a R,
    errors: &E,
    line: &CommandLine,
    world: W,
) -> Result<StampCache<'a, R, W>, u8> {
    let manifest = manifest_in(line);
    let bytes = match fs::metadata(rt, str::from_utf8(manifest).unwrap_or("")) {
        Ok(found) => found.len(),
        Err(_) => 0,
    };
    match StampCache::new(rt, rt.alloc(), world, room_for(bytes)) {
        Ok(cache) => Ok(cache),
        Err(_) => Err(refuse(rt, errors, manifest, &no_memory(rt.alloc()))),
    }
}

/// Refuses targets before `-t`, because they aren't words of the tool.
///
/// # Errors
/// The exit status if there are targets. The first one is reported on standard error.
fn check_no_targets<E: Print>(alloc: Global, errors: &E, targets: &[&[u8]]) -> Result<(), u8> {
    if let [target, ..] = targets {
        complain(
            alloc,
            errors,
            &[
                b"ninja: fatal: '",
                *target,
                b"' comes before -t; it is no word of the tool\n",
            ],
        );
        return Err(REFUSED);
    }
    Ok(())
}

/// Checks whether a tool uses the record.
fn uses_record(tool: Tool) -> bool {
    matches!(tool, Tool::Recompact | Tool::Restat | Tool::CleanDead)
}

/// Runs the tool of a request, and returns the exit status. Reports why the tool is refused, if it is.
fn answer<E: Print>(rt: &HostRuntime, errors: &E, line: &CommandLine, request: &Request<'_>) -> u8 {
    let manifest = manifest_in(line);
    if !uses_record(request.tool) || missing(rt, manifest).is_some() {
        return answer_with(rt, errors, line, request, RECORD);
    }
    match place_of(rt, errors, manifest) {
        Ok(place) => answer_with(rt, errors, line, request, place.record_to_read(rt)),
        Err(status) => status,
    }
}

/// Runs the tool of a request like `answer`, with the record at a path.
fn answer_with<E: Print>(
    rt: &HostRuntime,
    errors: &E,
    line: &CommandLine,
    request: &Request<'_>,
    record: &str,
) -> u8 {
    let manifest = manifest_in(line);
    let files = BuildFiles { manifest, record };
    match run_tool(rt, errors, files, manner_in(line), request) {
        Ok(status) => status,
        Err(fault) => refuse_tool(rt, errors, manifest, &fault),
    }
}

/// Runs a tool in the folder that `-C` names.
///
/// # Errors
/// The exit status if the tool isn't run.
fn use_tool<E: Print>(
    rt: &HostRuntime,
    errors: &E,
    line: &CommandLine,
    name: &[u8],
) -> Result<u8, u8> {
    let alloc = rt.alloc();
    let Some(tool) = tool_named(name) else {
        return Err(unknown_tool(alloc, errors, name));
    };
    let (Ok(targets), Ok(words)) = (line.targets(alloc), line.tool_words(alloc)) else {
        return Err(refuse(rt, errors, MANIFEST, &no_memory(alloc)));
    };
    check_no_targets(alloc, errors, &targets)?;
    let request = request_in(rt, errors, tool, &words)?;
    enter(rt, errors, line)?;
    Ok(answer(rt, errors, line, &request))
}

/// Checks the words of the tool that explains, and changes to the folder of the build.
///
/// # Errors
/// The exit status if nothing is to be explained.
fn check_reasons<E: Print>(rt: &HostRuntime, errors: &E, line: &CommandLine) -> Result<(), u8> {
    let alloc = rt.alloc();
    let (Ok(targets), Ok(words)) = (line.targets(alloc), line.tool_words(alloc)) else {
        return Err(refuse(rt, errors, MANIFEST, &no_memory(alloc)));
    };
    check_no_targets(alloc, errors, &targets)?;
    request_in(rt, errors, Tool::Explain, &words)?;
    enter(rt, errors, line)
}

/// Reads the words after the program's name.
///
/// # Errors
/// The exit status if memory runs out. That is reported on standard error.
fn read_line<R: Files + Print + Eprint + Clock + AllocGlobal, E: Print>(
    rt: &R,
    errors: &E,
    words: &[String],
) -> Result<CommandLine, u8> {
    let alloc = rt.alloc();
    let read = match after_name(alloc, words) {
        Ok(after) => CommandLine::read(alloc, &after),
        Err(fault) => Err(fault),
    };
    match read {
        Ok(line) => Ok(line),
        Err(_) => Err(refuse(rt, errors, MANIFEST, &no_memory(alloc))),
    }
}

/// Does what a command line asks for if that is no build, and otherwise changes to the folder of the build. `name` is the
/// program's name.
///
/// # Errors
/// The exit status if there is nothing to build.
fn begin_build<E: Print>(
    rt: &HostRuntime,
    errors: &E,
    name: &[u8],
    line: &CommandLine,
    jobs: u16,
) -> Result<(), u8> {
    match line.command() {
        Command::Stop(argument) => Err(stop_at(rt, errors, name, jobs, argument)),
        Command::Tool(tool) => Err(match use_tool(rt, errors, line, tool) {
            Ok(status) | Err(status) => status,
        }),
        Command::Build(Build::Explain) => check_reasons(rt, errors, line),
        Command::Build(Build::Targets(_, _)) => {
            warn(rt.alloc(), errors, line);
            enter(rt, errors, line)
        }
    }
}

/// Reads the command line, and does what it asks for if that is no build. Otherwise changes to the folder of the build.
///
/// # Errors
/// The exit status if there is nothing to build.
fn order_in<E: Print>(rt: &HostRuntime, errors: &E, jobs: u16) -> Result<CommandLine, u8> {
    let words = match words_in(rt) {
        Ok(words) => words,
        Err(reason) => {
            complain(rt.alloc(), errors, &[b"ninja: fatal: ", &*reason, b"\n"]);
            return Err(REFUSED);
        }
    };
    let line = read_line(rt, errors, &words)?;
    begin_build(rt, errors, name_in(&words), &line, jobs)?;
    Ok(line)
}

/// Executes a build, and returns the exit status. If the build is likely to be long, threads ask for stamps ahead.
fn execute_build<
    R: Threads + Wait + Sync + Files + Print + Eprint + Clock + AllocGlobal,
    E: Print,
    W: World + RecordedWorld + Send + Sync,
    H: Outputs + Stopwatch + WriteWatcher + Sync,
    S: Source,
>(
    builder: &Builder<'_, R, E, StampCache<'_, R, W>, H>,
    source: &mut S,
    line: &CommandLine,
    build: Build,
    jobs: u16,
    is_long: bool,
) -> u8
    ensures { SaysDone build S.gives S.fails source.old (as_build H H.taken H.showed (display_in line.now builder.now.on_terminal builder.now.colours builder.now.template.now builder.now.width)) (λ _ question reply. AllowsOnce W.allows question reply) line.now jobs result }
{
    match build {
        Build::Explain => builder.explain(source, line, jobs),
        Build::Targets(mode, Reasons::Shown) => builder.build_explained(mode, source, line, jobs),
        Build::Targets(mode, Reasons::Hidden) => {
            if !is_long {
                return builder.build_line(mode, source, line, jobs);
            }
            let threads = threads_ahead(builder.rt, line, line.jobs().unwrap_or(jobs));
            builder.build_looking_ahead(mode, source, line, jobs, threads)
        }
    }
}

/// Executes the build that a command line asks for, and returns the exit status. Refuses a command line that asks for
/// something else.
fn execute<
    R: Threads + Wait + Sync + Files + Print + Eprint + Clock + AllocGlobal,
    E: Print,
    W: World + RecordedWorld + Send + Sync,
    H: Outputs + Stopwatch + WriteWatcher + Sync,
    S: Source,
>(
    builder: &Builder<'_, R, E, StampCache<'_, R, W>, H>,
    source: &mut S,
    line: &CommandLine,
    jobs: u16,
    is_long: bool,
) -> u8
    ensures { Executes (asks_in line.now) S.gives S.fails source.old (as_build H H.taken H.showed (display_in line.now builder.now.on_terminal builder.now.colours builder.now.template.now builder.now.width)) (λ _ question reply. AllowsOnce W.allows question reply) line.now jobs result }
{
    match line.command() {
        Command::Build(build) => execute_build(builder, source, line, build, jobs, is_long),
        Command::Stop(_) | Command::Tool(_) => REFUSED,
    }
}

/// Stops the commands of a builder that ended early, if the command line asks for that. Only this program itself starts
/// such a process. Returns whether it did.
fn has_stopped_commands(rt: &HostRuntime) -> bool {
    match words_in(rt) {
        Ok(words) => match words.as_slice() {
            [_, word, name] if word.as_str() == STOP_COMMANDS => {
                stop_commands(rt, name.as_str());
                true
            }
            _ => false,
        },
        Err(_) => false,
    }
}

/// Returns the number of columns of the terminal on which lines are written over. Returns 0 if it isn't known or there
/// is no such terminal.
fn width_of(rt: &HostRuntime) -> usize {
    if is_smart_terminal(rt) {
        terminal_width(rt)
    } else {
        0
    }
}

/// The terminal to which standard output goes.
#[derive(Clone, Copy)]
struct Terminal {
    /// Whether lines are written over on it.
    is_smart: bool,
    /// Whether escape sequences are wanted.
    escapes: bool,
    /// The number of columns, or 0 if it isn't known.
    width: usize,
}

/// Returns what is known of the terminal to which standard output goes, if it is one.
fn terminal_of(rt: &HostRuntime) -> Terminal {
    Terminal {
        is_smart: is_smart_terminal(rt),
        escapes: wants_escapes(rt),
        width: width_of(rt),
    }
}

/// The parts of a build that are known before its record is opened.
#[derive(Drop)]
struct Ordered {
    line: CommandLine,
    /// The template of the text before a label.
    template: String,
    place: RecordPlace,
    terminal: Terminal,
    /// The number of commands at once if `-j` isn't given.
    jobs: u16,
}

/// Reads the command line and the template of its labels, and finds the place of the record.
///
/// # Errors
/// The exit status if there is nothing to build, or nothing can be built. The reason is reported on standard error.
fn read_order<E: Print>(rt: &HostRuntime, errors: &E, jobs: u16) -> Result<Ordered, u8> {
    let line = order_in(rt, errors, jobs)?;
    let template = read_template(rt, errors)?;
    let place = place_of(rt, errors, manifest_in(&line))?;
    Ok(Ordered {
        line,
        template,
        place,
        terminal: terminal_of(rt),
        jobs,
    })
}

/// Explains or builds what is ordered, in a world, and returns the exit status.
fn build_in<
    R: Threads + Wait + Sync + Files + Print + Eprint + Clock + AllocGlobal,
    E: Print,
    W: World + RecordedWorld + Send + Sync,
    H: Outputs + Stopwatch + WriteWatcher + Sync,
>(
    rt: &R,
    errors: &E,
    world: &StampCache<'_, R, W>,
    order: &Ordered,
    outputs: &H,
    screen: &Mutex<()>,
    parker: &Parker,
    is_long: bool,
) -> u8 {
    let terminal = order.terminal;
    let builder = Builder::new(
        rt,
        errors,
        world,
        &order.place,
        outputs,
        terminal.is_smart,
        terminal.escapes,
        order.template.as_bytes(),
        terminal.width,
        screen,
        parker,
    );
    let mut manifests = ManifestFiles::new(rt, manifest_in(&order.line), &order.place);
    execute(&builder, &mut manifests, &order.line, order.jobs, is_long)
}

/// Reports that closed streams can't be replaced, and returns the exit code.
fn refuse_streams<E: Print>(rt: &HostRuntime, errors: &E) -> ExitCode {
    complain(
        rt.alloc(),
        errors,
        &[b"ninja: fatal: /dev/null can't be opened\n"],
    );
    ExitCode::from(REFUSED)
}

fn main(rt: HostRuntime) -> ExitCode {
    if has_stopped_commands(&rt) {
        return ExitCode::from(0);
    }
    let errors = ErrorStream::new(&rt, rt.stderr());
    let Ok(_streams) = open_streams(&rt) else {
        return refuse_streams(&rt, &errors);
    };
    let order = match read_order(&rt, &errors, default_jobs(&rt)) {
        Ok(order) => order,
        Err(status) => return ExitCode::from(status),
    };
    let (line, place) = (&order.line, &order.place);
    let outputs = HeldOutputs::new(rt.alloc(), &rt);
    let watcher = Watcher::new(&rt);
    let world = match open_world(&rt, &errors, line, place, &outputs, &watcher) {
        Ok(world) => world,
        Err(status) => return ExitCode::from(status),
    };
    let is_long = !world.has_read_record();
    let world = match cache_over(&rt, &errors, line, world) {
        Ok(world) => world,
        Err(status) => return ExitCode::from(status),
    };
    let inner = world.inner();
    let (screen, parker) = (inner.screen(), inner.parker());
    let status = build_in(
        &rt, &errors, &world, &order, &outputs, screen, parker, is_long,
    );
    watcher.end();
    inner.release();
    // The system frees its memory sooner than this program would.
    forget(world);
    ExitCode::from(status)
}
