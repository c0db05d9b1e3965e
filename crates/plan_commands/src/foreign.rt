//! Ends entries that don't count in a build, since something other than their commands made the outputs.

use crate::depfiles::{check_depfile, outputs_beside_depfiles};
use crate::recorded::first_output;
use plan_lanes::World;
use plan_machine::Reply;
use plan_scope::{EdgeList, EdgeRef, PathRange};
use plan_text::PathFilter;
use std::alloc::{AllocError, Global};
use std::thread::{Threads, join};

/// The time between the last write of the record before this build and the first command of this build, or now if none
/// has begun, as stamps. Each command of a builder ends with an entry, so none made an output with a stamp of this
/// time, unless it gave the output another date than that of its write.
#[derive(Clone, Copy)]
pub(crate) struct Pause {
    since: u64,
    /// When the first command began. None if none has begun, or if it isn't known.
    until: Option<u64>,
}

/// Checks whether a stamp that was read before is of the future. Says no if the time isn't known, or if the clock was
/// set back to a time before the pause.
fn is_ahead<W: World>(world: &W, since: u64, stamp: u64) -> bool {
    match world.now() {
        Some(now) => (since <= now) & (now < stamp),
        None => false,
    }
}

impl Pause {
    /// Returns the time without commands before this build. Returns None if it isn't known.
    fn before<W: World>(world: &W) -> Option<Pause> {
        match world.record_stamp() {
            Some(since) => Some(Pause {
                since,
                until: world.first_begin(),
            }),
            None => None,
        }
    }

    /// Checks whether a stamp that was just read is of this time. Asks what time it is only if the stamp is later than
    /// the begin of the pause.
    pub(crate) fn has<W: World>(&self, world: &W, stamp: u64) -> bool {
        if stamp <= self.since {
            return false;
        }
        match self.until {
            Some(until) => stamp < until,
            None => !is_ahead(world, self.since, stamp),
        }
    }
}

/// Returns the first of these outputs that was written in a pause. Folders and symbolic links count only for an edge
/// with `deps`, since their stamps change if other files do.
fn first_written<'a, W: World>(
    world: &W,
    pause: &Pause,
    outputs: &PathRange<'a>,
    has_deps: bool,
) -> Option<&'a [u8]> {
    for number in 0..outputs.len() {
        let path = outputs.path(number);
        if let Some(stamp) = world.stat_ahead(path) {
            if pause.has(world, stamp) && (has_deps || world.is_file(path)) {
                return Some(path);
            }
        }
    }
    None
}

/// Returns the first of these outputs that was last made by another edge than the one with this first output.
fn first_taken<'a, W: World>(
    world: &W,
    first: &[u8],
    outputs: &PathRange<'a>,
) -> Result<Option<&'a [u8]>, AllocError> {
    for number in 0..outputs.len() {
        let output = outputs.path(number);
        if output != first && !world.is_made_with(output, first)? {
            return Ok(Some(output));
        }
    }
    Ok(None)
}

/// Ends the entry of an edge, if there is one. The reason in words begins with a path.
pub(crate) fn forget<W: World>(
    alloc: Global,
    world: &W,
    first: &[u8],
    path: &[u8],
    reason: &[u8],
) -> Result<(), AllocError> {
    if matches!(world.recall(0, first)?, Reply::Nothing) {
        return Ok(());
    }
    let mut words = Vec::from_slice(alloc, path)?;
    words.extend_from_slice(reason)?;
    world.forget(first, &words)
}

/// Ends the entry of an edge if one of these outputs of it was written in a pause, or last made by another edge.
/// Returns whether the entry still counts.
fn check_outputs<'a, W: World>(
    alloc: Global,
    world: &W,
    pause: &Option<Pause>,
    edge: &EdgeRef<'a>,
    outputs: &PathRange<'a>,
) -> Result<bool, AllocError> {
    let first = first_output(edge);
    if let Some(pause) = pause {
        if let Some(path) = first_written(world, pause, outputs, edge.has_deps()) {
            let reason = b" was changed after its command made it";
            forget(alloc, world, first, path, reason)?;
            return Ok(false);
        }
    }
    match first_taken(world, first, outputs)? {
        Some(path) => {
            forget(
                alloc,
                world,
                first,
                path,
                b" was last made by another command",
            )?;
            Ok(false)
        }
        None => Ok(true),
    }
}

/// Lets a generator run that has a depfile but no entry: what only its depfile names isn't known.
fn check_generator<'a, W: World>(world: &W, edge: &EdgeRef<'a>) -> Result<(), AllocError> {
    if edge.depfile().is_empty() {
        return Ok(());
    }
    let first = first_output(edge);
    match world.recall(0, first)? {
        Reply::Nothing => world.forget(first, b"no earlier build is recorded"),
        _ => Ok(()),
    }
}

/// Ends the entry of an edge if its outputs were written by something else. Returns whether the entry still counts.
/// That of a generator counts: generators are also run by hand. But of one with `deps` nothing else says what it read
/// then.
fn check_all_outputs<'a, W: World>(
    alloc: Global,
    world: &W,
    pause: &Option<Pause>,
    edge: &EdgeRef<'a>,
) -> Result<bool, AllocError> {
    if edge.is_generator() & !edge.has_deps() {
        return Ok(true);
    }
    if check_outputs(alloc, world, pause, edge, &edge.outputs())? {
        return check_outputs(alloc, world, pause, edge, &edge.implicit_outputs());
    }
    Ok(false)
}

/// Returns the first of these outputs that a command of another builder made after the last entry of the edge with this
/// first output.
fn first_of_another_command<'a, W: World>(
    world: &W,
    first: &[u8],
    outputs: &PathRange<'a>,
) -> Result<Option<&'a [u8]>, AllocError> {
    for number in 0..outputs.len() {
        let output = outputs.path(number);
        if world.foreign_ran_another(output, first)? {
            return Ok(Some(output));
        }
    }
    Ok(None)
}

/// Ends the entry of an edge if a command of another builder made one of these outputs of it later. Returns whether the
/// entry still counts.
fn check_commands<'a, W: World>(
    alloc: Global,
    world: &W,
    edge: &EdgeRef<'a>,
    outputs: &PathRange<'a>,
) -> Result<bool, AllocError> {
    let first = first_output(edge);
    match first_of_another_command(world, first, outputs)? {
        Some(path) => {
            let reason = b" was last made by another builder, by another command";
            forget(alloc, world, first, path, reason)?;
            Ok(false)
        }
        None => Ok(true),
    }
}

/// Ends the entry of an edge with `deps` if a command of another builder read a file that the entry doesn't have.
fn check_read<'a, W: World>(
    alloc: Global,
    world: &W,
    edge: &EdgeRef<'a>,
) -> Result<(), AllocError> {
    let first = first_output(edge);
    if edge.has_deps() && world.foreign_names_others(first)? {
        let reason = b" was last made by another builder, whose command read other files";
        return forget(alloc, world, first, first, reason);
    }
    Ok(())
}

/// Ends the entry of an edge if it doesn't suit what another builder says of its own commands. The stamp of an output
/// doesn't always show that it made it: a command may make a link, or date its output. The command of a generator may
/// be another one.
fn check_foreign<'a, W: World>(
    alloc: Global,
    world: &W,
    edge: &EdgeRef<'a>,
) -> Result<(), AllocError> {
    if !edge.is_generator() {
        if !check_commands(alloc, world, edge, &edge.outputs())? {
            return Ok(());
        }
        if !check_commands(alloc, world, edge, &edge.implicit_outputs())? {
            return Ok(());
        }
    }
    check_read(alloc, world, edge)
}

/// Ends the entry of an edge if it doesn't count.
fn check_edge<'a, W: World>(
    alloc: Global,
    world: &W,
    pause: &Option<Pause>,
    outputs: &PathFilter,
    edge: &EdgeRef<'a>,
) -> Result<(), AllocError> {
    if edge.is_phony() {
        return Ok(());
    }
    if !check_all_outputs(alloc, world, pause, edge)? {
        return Ok(());
    }
    check_foreign(alloc, world, edge)?;
    check_depfile(alloc, world, pause, outputs, edge)?;
    if edge.is_generator() {
        return check_generator(world, edge);
    }
    Ok(())
}

/// What outputs and depfiles are compared with.
#[derive(Drop)]
struct Checks {
    pause: Option<Pause>,
    /// The outputs of all edges, if a depfile stands for itself.
    outputs: PathFilter,
}

impl Checks {
    /// Asks a world and a manifest for what outputs and depfiles are compared with.
    fn new<W: World>(alloc: Global, world: &W, edges: &EdgeList) -> Result<Checks, AllocError> {
        let outputs = outputs_beside_depfiles(alloc, edges)?;
        let pause = Pause::before(world);
        Ok(Checks { pause, outputs })
    }

    /// Ends the entries of those edges from one number up to another one that don't count.
    fn check<W: World>(
        &self,
        alloc: Global,
        world: &W,
        edges: &EdgeList,
        from: usize,
        to: usize,
    ) -> Result<(), AllocError> {
        for number in from..to.min(edges.len()) {
            let edge = edges.edge(number);
            check_edge(alloc, world, &self.pause, &self.outputs, &edge)?;
        }
        Ok(())
    }
}

/// Ends the entries of edges that don't count in this build:
///
/// - an output was written after the record was last written and before now, or before a command of this build began,
///   or it was last made by the command of another edge. Generators are also run by hand, so theirs count, and so do
///   folders and symbolic links, except those of edges with `deps`: what their commands read is known only of those
///   runs that the record has.
/// - another builder says that it made an output later, or that its command read a file for an edge with `deps` that the
///   entry doesn't have.
/// - a depfile that stands for itself is missing, or something else wrote it and it doesn't suit the entry.
///
/// A generator with a depfile and without an entry runs.
///
/// # Errors
///
/// `AllocError` if memory runs out.
pub(crate) fn check_entries<W: World>(
    alloc: Global,
    world: &W,
    edges: &EdgeList,
) -> Result<(), AllocError> {
    let checks = Checks::new(alloc, world, edges)?;
    checks.check(alloc, world, edges, 0, edges.len())
}

/// Ends the entries of those edges from one number up to another one that don't count, by two threads.
fn check_between<R: Threads + Sync, W: World + Send + Sync>(
    rt: &R,
    alloc: Global,
    world: &W,
    checks: &Checks,
    edges: &EdgeList,
    from: usize,
    to: usize,
) -> Result<(), AllocError> {
    let middle = from.saturating_add(to) / 2;
    let (first, second) = join(
        rt,
        || checks.check(alloc, world, edges, from, middle),
        || checks.check(alloc, world, edges, middle, to),
    );
    first?;
    second
}

/// Ends the entries of edges that don't count in this build like `check_entries`, by four threads.
///
/// # Errors
///
/// `AllocError` if memory runs out.
pub(crate) fn check_by_four<R: Threads + Sync, W: World + Send + Sync>(
    rt: &R,
    alloc: Global,
    world: &W,
    edges: &EdgeList,
) -> Result<(), AllocError> {
    let checks = Checks::new(alloc, world, edges)?;
    let (count, half) = (edges.len(), edges.len() / 2);
    let (first, second) = join(
        rt,
        || check_between(rt, alloc, world, &checks, edges, 0, half),
        || check_between(rt, alloc, world, &checks, edges, half, count),
    );
    first?;
    second
}
