//! Finds a missing source before a run: a file that no edge makes and that a wanted edge needs.

ghost use Rattle.std.specs.Prelude.{◌≡◌, ◌⊎◌, IfErr, IfNone, IfOk, IfSome, None, OnOk, Some, false, length, slice_get, true, ℕ};
ghost use Rattle.std.specs.Thread.{IsSend, IsSync};
ghost use Rattle.plan_image.specs.declared.body.Instr.TheVariants as op;
ghost use Rattle.plan_machine.specs.Wanted.{any_outside};
ghost use Rattle.plan_machine.specs.declared.event.reply.Reply.TheVariants as replies;
ghost use Rattle.plan_printing.specs.Faults as faults;
ghost use Rattle.plan_commands.specs.NeededFiles.{Finds, FindsAt, FindsBy, FindsFile, HasSources, IsLack, LacksSource, MayHave, MayLack, MayReply, name_in, path_in};

use crate::compiling::FEW_EDGES;
use crate::source_order::SourceOrder;
use plan_image::{Instr, Parts};
use plan_lanes::World;
use plan_machine::{Reply, wanted_edges};
use plan_printing::{PlanFault, no_memory, no_source};
use plan_verify::{Verified, codes_are_short};
use std::alloc::{AllocError, Global};
use std::thread::{Threads, join};

/// An edge, and a file that it needs and that is missing.
#[derive(Clone, Copy)]
pub(crate) struct Lack {
    edge: u32,
    file: u32,
}

/// Checks whether a reply says that a file is missing.
fn says_missing(reply: &Reply) -> bool
    ensures missing { result ≡ true → reply.now ≡ replies.Stamp 0 }
    ensures other { result ≡ false → reply.now ≡ replies.Stamp 0 → ⊥ }
{
    match reply {
        Reply::Stamp(stamp) => *stamp == 0,
        _ => false,
    }
}

/// Asks for the stamp of a path.
fn stamp_of<W: World>(world: &W, path: &[u8]) -> Result<Reply, AllocError>
    ensures { IfOk result (MayReply W.allows path.now) }
{
    match world.stat_ahead(path) {
        Some(stamp) => Ok(Reply::Stamp(stamp)),
        None => world.stat(0, path),
    }
}

/// Checks whether the file at a path is missing.
fn is_missing<W: World>(world: &W, path: &[u8]) -> Result<bool, AllocError>
    ensures lacks { IfOk result (λ missing. missing ≡ true → MayLack W.allows path.now) }
    ensures has { IfOk result (λ missing. missing ≡ false → MayHave W.allows path.now) }
{
    let reply = stamp_of(world, path)?;
    Ok(says_missing(&reply))
}

/// Returns a file if it is missing.
fn if_missing<W: World>(world: &W, parts: &Parts, file: u32) -> Result<Option<u32>, AllocError>
    ensures { IfOk result (FindsBy W.allows parts.now (Some (op.Need file))) }
{
    let missing = is_missing(world, parts.files.row(file as usize))?;
    if missing { Ok(Some(file)) } else { Ok(None) }
}

/// Returns the file that an instruction needs, if it is missing.
fn lacked_by<W: World>(
    world: &W,
    parts: &Parts,
    instr: Option<Instr>,
) -> Result<Option<u32>, AllocError>
    ensures { IfOk result (FindsBy W.allows parts.now instr) }
{
    match instr {
        Some(Instr::Need(file)) => if_missing(world, parts, file),
        _ => Ok(None),
    }
}

/// Checks whether an instruction stores a value.
fn is_store(instr: Option<Instr>) -> bool
    ensures { result ≡ true → (slot : ℕ) × (instr ≡ Some (op.Store slot)) }
{
    match instr {
        Some(Instr::Store(_)) => true,
        _ => false,
    }
}

/// Returns the first file that the code of an edge needs, before it stores a value, and that is missing.
#[tactic(auto, using(crate::proofs::SourcesLemmas::has_below_zero))]
fn lacked_of_edge<W: World>(
    world: &W,
    image: &Verified,
    edge: u32,
) -> Result<Option<u32>, AllocError>
    ensures { IfOk result (FindsFile W.allows image.now edge) }
{
    codes_are_short();
    let tables = image.image();
    let parts = tables.parts();
    let code = tables.edge_code(edge);
    for place in 0..code.len() as u32 {
        let instr = code.instr(place);
        if is_store(instr) {
            return Ok(None);
        }
        match lacked_by(world, parts, instr)? {
            Some(file) => return Ok(Some(file)),
            None => {}
        }
    }
    Ok(None)
}

/// Checks whether an edge is marked as wanted.
fn is_marked(wanted: &[bool], edge: u32) -> bool
    ensures yes { result ≡ true → slice_get wanted.now edge ≡ Some true }
    ensures no { result ≡ false → slice_get wanted.now edge ≡ Some true → ⊥ }
{
    match wanted.get(edge as usize) {
        Some(is_wanted) => *is_wanted,
        None => false,
    }
}

/// Returns an edge with a file, if there is one.
fn lack_with(edge: u32, file: Option<u32>) -> Option<Lack>
    ensures lacks { IfSome result (λ lack. (lack.edge ≡ edge) × (file ≡ Some lack.file)) }
    ensures none { IfNone result (file ≡ None) }
{
    match file {
        Some(file) => Some(Lack { edge, file }),
        None => None,
    }
}

/// Returns an edge with the first file that it needs and that is missing, if the edge is marked as wanted.
#[tactic(auto, using(crate::proofs::SourcesLemmas::finds_at))]
fn lack_of_edge<W: World>(
    world: &W,
    image: &Verified,
    wanted: &[bool],
    edge: u32,
) -> Result<Option<Lack>, AllocError>
    ensures { IfOk result (FindsAt W.allows image.now wanted.now edge) }
{
    if !is_marked(wanted, edge) {
        return Ok(None);
    }
    let file = lacked_of_edge(world, image, edge)?;
    Ok(lack_with(edge, file))
}

/// Returns the first edge from one number up to another one that is marked as wanted and lacks a file.
#[tactic(auto, using(crate::proofs::SourcesLemmas::have_none))]
fn lack_between<W: World>(
    world: &W,
    image: &Verified,
    wanted: &[bool],
    from: u32,
    to: u32,
) -> Result<Option<Lack>, AllocError>
    ensures { IfOk result (Finds W.allows image.now wanted.now from to) }
{
    for edge in from..to {
        match lack_of_edge(world, image, wanted, edge)? {
            Some(lack) => return Ok(Some(lack)),
            None => {}
        }
    }
    Ok(None)
}

/// Returns a number between two others.
fn middle_of(from: u32, to: u32) -> u32 {
    from / 2 + to / 2
}

/// Searches the edges below a number, and those from there on, by two threads.
fn lacks_apart<R: Threads, W: World + Send + Sync>(
    rt: &R,
    world: &W,
    image: &Verified,
    wanted: &[bool],
    from: u32,
    middle: u32,
    to: u32,
) -> (
    Result<Option<Lack>, AllocError>,
    Result<Option<Lack>, AllocError>,
)
    ensures first { IfOk result.0 (Finds W.allows image.now wanted.now from middle) }
    ensures second { IfOk result.1 (Finds W.allows image.now wanted.now middle to) }
{
    join(
        rt,
        || lack_between(world, image, wanted, from, middle),
        || lack_between(world, image, wanted, middle, to),
    )
}

/// Returns a lack like `lack_between`, by two threads.
fn lack_by_two<R: Threads, W: World + Send + Sync>(
    rt: &R,
    world: &W,
    image: &Verified,
    wanted: &[bool],
    from: u32,
    to: u32,
) -> Result<Option<Lack>, AllocError>
    ensures { IfOk result (Finds W.allows image.now wanted.now from to) }
{
    let middle = middle_of(from, to);
    let (first, second) = lacks_apart(rt, world, image, wanted, from, middle, to);
    match first? {
        Some(lack) => Ok(Some(lack)),
        None => second,
    }
}

/// Searches the edges below a number, and those from there on, by four threads.
fn lacks_farther<R: Threads + Sync, W: World + Send + Sync>(
    rt: &R,
    world: &W,
    image: &Verified,
    wanted: &[bool],
    middle: u32,
    to: u32,
) -> (
    Result<Option<Lack>, AllocError>,
    Result<Option<Lack>, AllocError>,
)
    ensures first { IfOk result.0 (Finds W.allows image.now wanted.now 0 middle) }
    ensures second { IfOk result.1 (Finds W.allows image.now wanted.now middle to) }
{
    join(
        rt,
        || -> Result<Option<Lack>, AllocError>
            requires { IsSync R.row × IsSend W.row × IsSync W.row }
            ensures { IfOk result (Finds W.allows image.entry.now wanted.entry.now 0 middle) }
        { lack_by_two(rt, world, image, wanted, 0, middle) },
        || -> Result<Option<Lack>, AllocError>
            requires { IsSync R.row × IsSend W.row × IsSync W.row }
            ensures { IfOk result (Finds W.allows image.entry.now wanted.entry.now middle to) }
        { lack_by_two(rt, world, image, wanted, middle, to) },
    )
}

/// Returns a lack like `lack_between`, by four threads.
fn lack_by_four<R: Threads + Sync, W: World + Send + Sync>(
    rt: &R,
    world: &W,
    image: &Verified,
    wanted: &[bool],
    to: u32,
) -> Result<Option<Lack>, AllocError>
    ensures { IfOk result (Finds W.allows image.now wanted.now 0 to) }
{
    let (first, second) = lacks_farther(rt, world, image, wanted, middle_of(0, to), to);
    match first? {
        Some(lack) => Ok(Some(lack)),
        None => second,
    }
}

/// Checks whether few edges are marked as wanted.
fn are_few(wanted: &[bool]) -> bool {
    let mut count = 0usize;
    for is_wanted in wanted {
        if *is_wanted {
            count = count.saturating_add(1);
        }
    }
    count < FEW_EDGES
}

/// Returns an edge that is marked as wanted and lacks a file, if there is one.
fn lack_of<R: Threads + Sync, W: World + Send + Sync>(
    rt: &R,
    world: &W,
    image: &Verified,
    wanted: &[bool],
) -> Result<Option<Lack>, AllocError>
    ensures { IfOk result (Finds W.allows image.now wanted.now 0 (length image.now.edges)) }
{
    let edges = image.image().parts().edges.len() as u32;
    if are_few(wanted) {
        lack_between(world, image, wanted, 0, edges)
    } else {
        lack_by_four(rt, world, image, wanted, edges)
    }
}

/// Returns the lack at a place of the code of an edge, if the edge is marked as wanted and needs a missing file there.
fn lack_at<W: World>(
    world: &W,
    image: &Verified,
    wanted: &[bool],
    edge: u32,
    place: u32,
) -> Result<Option<Lack>, AllocError>
    ensures { IfOk result (λ found. IfSome found (IsLack W.allows image.now wanted.now)) }
{
    if !is_marked(wanted, edge) {
        return Ok(None);
    }
    let image = image.image();
    let file = lacked_by(world, image.parts(), image.instr(edge, place))?;
    Ok(lack_with(edge, file))
}

/// Returns the first lack in the order in which ninja looks at files. Returns None if none is found any more.
fn first_lack<W: World>(
    alloc: Global,
    world: &W,
    image: &Verified,
    wanted: &[bool],
    targets: &[u32],
) -> Result<Option<Lack>, AllocError>
    ensures { IfOk result (λ found. IfSome found (IsLack W.allows image.now wanted.now)) }
{
    let mut order = SourceOrder::start(alloc, image.image(), targets)?;
    for _ in 0..u64::MAX {
        let Some((edge, place)) = order.next(image.image())? else {
            return Ok(None);
        };
        if let Some(lack) = lack_at(world, image, wanted, edge, place)? {
            return Ok(Some(lack));
        }
    }
    Ok(None)
}

/// Returns the first output of an edge, which is its name.
fn name_of(parts: &Parts, edge: u32) -> &[u8]
    ensures { result.now ≡ name_in parts.now edge }
{
    match parts.edges.get(edge as usize) {
        Some(edge) => match edge.outputs {
            [first, ..] => parts.files.row(*first as usize),
            [] => &[],
        },
        None => &[],
    }
}

/// Returns the first lack in ninja's order, or this one if none is found any more.
fn named_lack<W: World>(
    alloc: Global,
    world: &W,
    image: &Verified,
    wanted: &[bool],
    targets: &[u32],
    found: Lack,
) -> Lack
    requires { IsLack W.allows image.now wanted.now found }
    ensures { IsLack W.allows image.now wanted.now result }
{
    match first_lack(alloc, world, image, wanted, targets) {
        Ok(Some(first)) => first,
        _ => found,
    }
}

/// Returns the fault of this number that an edge lacks a file.
fn fault_of(alloc: Global, image: &Verified, lack: Lack, number: u8) -> PlanFault
    ensures { (result ≡ faults.no_memory) ⊎ (result ≡ faults.no_source number (path_in image.now lack.file) (name_in image.now lack.edge)) }
{
    let parts = image.image().parts();
    let path = parts.files.row(lack.file as usize);
    no_source(alloc, number, path, name_of(parts, lack.edge))
}

/// Checks that no file is missing that an edge needs, for the edges that these targets need. Asks the world for the
/// stamps of these files.
///
/// # Errors
/// - This number, with the file and the edge: a file is missing. If several are missing, it is the first one in the
///   order in which ninja looks at files.
/// - 131: memory ran out.
#[tactic(auto, using(crate::proofs::SourcesLemmas::source_lacks))]
pub(crate) fn check_sources<R: Threads + Sync, W: World + Send + Sync>(
    rt: &R,
    alloc: Global,
    image: &Verified,
    targets: &[u32],
    world: &W,
    number: u8,
) -> Result<(), PlanFault>
    requires { any_outside image.now targets.now ≡ false }
    ensures has { OnOk result (HasSources W.allows image.now targets.now) }
    ensures refused { IfErr result (λ fault. (fault ≡ faults.no_memory) ⊎ LacksSource W.allows image.now targets.now number fault) }
{
    let Ok(wanted) = wanted_edges(alloc, image.image().parts(), targets) else {
        return Err(no_memory(alloc));
    };
    match lack_of(rt, world, image, &wanted) {
        Ok(None) => Ok(()),
        Ok(Some(lack)) => {
            let lack = named_lack(alloc, world, image, &wanted, targets, lack);
            Err(fault_of(alloc, image, lack, number))
        }
        Err(_) => Err(no_memory(alloc)),
    }
}
