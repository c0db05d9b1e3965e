//! Ends entries of edges whose depfiles don't suit them.
//!
//! An edge with `deps` has its depfile read once, when its command has ended. The depfile of an edge without `deps`
//! stands for itself (Ninja manual, "Depfile" and "`deps`"): ninja reads it before each build, and runs the command if
//! there is none.

use crate::foreign::{Pause, forget};
use crate::recorded::{filter_of, first_output};
use plan_lanes::World;
use plan_machine::{Depfile, Reply};
use plan_scope::{EdgeList, EdgeRef};
use plan_text::{PathFilter, RowList};
use plan_verify::PathList;
use std::alloc::{AllocError, Global};

const MISSING: &[u8] = b" is missing";

const EMPTY: &[u8] = b" is empty";

const UNREADABLE: &[u8] = b" can't be read";

const NAMES_OTHERS: &[u8] = b" names files that the last build didn't read";

const UNREAD: &[u8] = b" wasn't read by the last build";

/// Returns the set of some paths.
fn set_of(alloc: Global, paths: &PathList) -> Result<PathFilter, AllocError> {
    let mut set = PathFilter::new(alloc, paths.len() as usize)?;
    for number in 0..paths.len() {
        set.add(paths.path(number));
    }
    Ok(set)
}

/// Returns the place after the first of these paths, from a place on, that is equal to another path.
fn place_after(paths: &RowList<u8>, from: usize, path: &[u8]) -> Option<usize> {
    for number in from..paths.len() {
        if paths.row(number) == path {
            return Some(number + 1);
        }
    }
    None
}

/// Checks whether all paths are among others, in the same order.
fn are_among(paths: &PathList, all: &RowList<u8>) -> bool {
    let mut place = 0usize;
    for number in 0..paths.len() {
        match place_after(all, place, paths.path(number)) {
            Some(next) => place = next,
            None => return false,
        }
    }
    true
}

/// Checks whether the entry of an edge names all paths that its depfile names. An entry that was kept after the depfile
/// was written has them in their order.
fn has_entry_of<W: World>(
    alloc: Global,
    world: &W,
    first: &[u8],
    paths: &PathList,
) -> Result<bool, AllocError> {
    if paths.len() == 0 {
        return Ok(true);
    }
    let wanted = set_of(alloc, paths)?;
    match world.recorded_among(alloc, first, &wanted)? {
        Some(found) => Ok(are_among(paths, &found)),
        None => Ok(false),
    }
}

/// Checks whether the depfile of an edge stands for itself.
fn is_plain<'a>(edge: &EdgeRef<'a>) -> bool {
    !edge.is_phony() & !edge.depfile().is_empty() & !edge.has_deps()
}

/// Returns the reason why the entry of an edge doesn't suit its depfile, in words after the depfile's path. Returns
/// None if it suits.
fn reason_of<'a, W: World>(
    alloc: Global,
    world: &W,
    edge: &EdgeRef<'a>,
    depfile: &Depfile,
) -> Result<Option<&'static [u8]>, AllocError> {
    if depfile.bytes().is_empty() {
        return Ok(Some(EMPTY));
    }
    match depfile.result(alloc)? {
        Ok(paths) => {
            let has_all = has_entry_of(alloc, world, first_output(edge), &paths)?;
            Ok(if has_all { None } else { Some(NAMES_OTHERS) })
        }
        Err(_) => Ok(Some(UNREADABLE)),
    }
}

/// Ends the entry of an edge if it doesn't suit this depfile.
fn check_names<'a, W: World>(
    alloc: Global,
    world: &W,
    edge: &EdgeRef<'a>,
    path: &[u8],
    depfile: &Depfile,
) -> Result<(), AllocError> {
    match reason_of(alloc, world, edge, depfile)? {
        Some(reason) => forget(alloc, world, first_output(edge), path, reason),
        None => Ok(()),
    }
}

/// Ends the entry of an edge without recorded paths if its depfile isn't known to have named nothing: the edge has
/// `deps`, and the record has no entry for the path of its depfile.
fn check_unread<'a, W: World>(
    alloc: Global,
    world: &W,
    edge: &EdgeRef<'a>,
    path: &[u8],
) -> Result<(), AllocError> {
    if !edge.has_deps() {
        return Ok(());
    }
    match world.recall(0, path)? {
        Reply::Nothing => forget(alloc, world, first_output(edge), path, UNREAD),
        _ => Ok(()),
    }
}

/// Ends the entry of an edge without recorded paths if it doesn't suit the reply to a read of its depfile.
pub(crate) fn check_unrecorded<'a, W: World>(
    alloc: Global,
    world: &W,
    edge: &EdgeRef<'a>,
    path: &[u8],
    reply: &Reply,
) -> Result<(), AllocError> {
    match reply {
        Reply::Bytes(depfile) if !edge.has_deps() || !depfile.bytes().is_empty() => {
            check_names(alloc, world, edge, path, depfile)
        }
        Reply::Bytes(_) | Reply::Nothing => check_unread(alloc, world, edge, path),
        _ => Ok(()),
    }
}

/// Ends the entry of an edge if it doesn't suit the depfile at this path.
fn check_contents<'a, W: World>(
    alloc: Global,
    world: &W,
    edge: &EdgeRef<'a>,
    path: &[u8],
) -> Result<(), AllocError> {
    match world.read_depfile(0, path)? {
        Reply::Bytes(depfile) => check_names(alloc, world, edge, path, &depfile),
        _ => Ok(()),
    }
}

/// Checks whether something other than an edge's command may have written its depfile: the depfile was written in a
/// pause, or it is an output.
fn may_be_foreign<W: World>(
    world: &W,
    pause: &Option<Pause>,
    outputs: &PathFilter,
    path: &[u8],
    stamp: Option<u64>,
) -> bool {
    let is_later = match (pause, stamp) {
        (Some(pause), Some(stamp)) => pause.has(world, stamp),
        _ => true,
    };
    is_later | outputs.may_have(path)
}

/// Ends the entry of an edge if its depfile stands for itself, and is missing, or was written by something else and
/// doesn't suit the entry.
pub(crate) fn check_depfile<'a, W: World>(
    alloc: Global,
    world: &W,
    pause: &Option<Pause>,
    outputs: &PathFilter,
    edge: &EdgeRef<'a>,
) -> Result<(), AllocError> {
    if !is_plain(edge) {
        return Ok(());
    }
    let path = edge.depfile().join(alloc)?;
    let stamp = world.stat_ahead(path.as_slice());
    if stamp == Some(0) {
        return forget(alloc, world, first_output(edge), path.as_slice(), MISSING);
    }
    if may_be_foreign(world, pause, outputs, path.as_slice(), stamp) {
        return check_contents(alloc, world, edge, path.as_slice());
    }
    Ok(())
}

/// Returns the outputs of all edges if a depfile stands for itself, and none otherwise.
pub(crate) fn outputs_beside_depfiles(
    alloc: Global,
    edges: &EdgeList,
) -> Result<PathFilter, AllocError> {
    for number in 0..edges.len() {
        if is_plain(&edges.edge(number)) {
            return filter_of(alloc, edges);
        }
    }
    PathFilter::new(alloc, 0)
}
