//! One pass over the code of an edge, from left to right, and the verdict on a range of edges, in one thread or in
//! several.

ghost use Rattle.std.specs.Prelude.{◌≡◌, ◌+◌, ◌*◌, ◌<◌, ◌≤◌, ◌^◌, None, Some, IfOk, OnOk, IfErr, length, slice_get};
ghost use Rattle.plan_image.specs.Code.{code};
ghost use Rattle.plan_image.specs.Spelling.{IsInOrder};
ghost use Rattle.plan_verify.specs.Tables.{own_slots};
ghost use Rattle.plan_verify.specs.Shape.{table_refusal};
ghost use Rattle.plan_verify.specs.WellShaped.{IsShapedEdge};
ghost use Rattle.plan_verify.specs.Budget.{edge_budget};
ghost use Rattle.plan_verify.specs.Pass.{Reached, IsCodeFault};
ghost use Rattle.std.specs.Thread.{IsSync};
ghost use Rattle.plan_image.specs.Columns.{lent};
ghost use Rattle.plan_verify.specs.OwnSlots.{AreOwnSlots, IsOwn};
ghost use Rattle.plan_verify.specs.Verdict.{IsEdgeFault, IsPart};

use crate::arrivals::{Arrival, Flow, falls_through, flow_at_start, jump, meet, no_arrivals};
use crate::fault::{CodeFault, Refusal, VerifyFault};
use crate::kinds::change;
use crate::place_checks::{OwnSlots, refusal_at};
use crate::table_checks::table_refusal;
use plan_image::{CodeView, EdgeRef, Image, Instr, Parts};
use std::alloc::Global;
use std::mem;
use std::thread::{Threads, join};

/// Checks one place, and updates the arrivals and the flow for the places after it.
fn pass_place(
    alloc: Global,
    parts: &Parts,
    edge: u32,
    own_len: usize,
    place: usize,
    instr: Instr,
    arrivals: &mut Vec<Arrival>,
    flow: &mut Flow,
) -> Result<(), CodeFault>
    requires order { IsInOrder parts.now }
    requires tables { table_refusal parts.now edge ≡ None }
    requires own { own_len ≡ length (own_slots parts.now edge) }
    requires short { length (code parts.now edge) < 2 ^ 32 }
    requires here { slice_get (code parts.now edge) place ≡ Some instr }
    requires long { length arrivals.old.items ≡ length (code parts.now edge) }
    requires reached { Reached parts.now edge place arrivals.old.items flow.old }
    ensures long { OnOk result (length arrivals.new.items ≡ length arrivals.old.items) }
    ensures ok { OnOk result (Reached parts.now edge (place + 1) arrivals.new.items flow.new) }
    ensures err { IfErr result (λ f. IsCodeFault parts.now edge f) }
{
    let len = arrivals.len();
    let arrival = mem::replace(&mut arrivals[place], Arrival::Nothing);
    if let Some(refusal) = meet(arrival, flow) {
        return Err(CodeFault::Refused(refusal, place as u32));
    }
    if let Some(refusal) = refusal_at(parts, edge, own_len, len, place, instr, &flow.shape) {
        return Err(CodeFault::Refused(refusal, place as u32));
    }
    change(alloc, parts, instr, &mut flow.shape)?;
    jump(alloc, arrivals, instr, &flow.shape)?;
    flow.falls = falls_through(instr);
    Ok(())
}

/// Returns the instruction at a place, which must be inside the code.
pub(crate) fn instr_at(view: &CodeView<'_>, place: usize) -> Instr
    requires place { place < length view.now }
    requires short { length view.now < 2 ^ 32 }
    ensures { slice_get view.now place ≡ Some result }
{
    match view.instr(place as u32) {
        Some(instr) => instr,
        None => unreachable!(),
    }
}

/// Returns the cost of an instruction, in events.
pub(crate) fn cost(instr: Instr) -> u64
    ensures value { result ≡ Rattle.plan_verify.specs.Budget.cost instr }
    ensures small { result ≤ 2 }
{
    match instr {
        Instr::Stat(_) | Instr::Need(_) | Instr::Recall | Instr::Run | Instr::Deps | Instr::Keep =>
            2,
        _ => 1,
    }
}

/// Returns the budget of an edge whose code has shapes, or the first place that is refused.
pub(crate) fn pass_code(
    alloc: Global,
    image: &Image,
    edge: u32,
    own_len: usize,
) -> Result<u64, CodeFault>
    requires tables { table_refusal image.now edge ≡ None }
    requires own { own_len ≡ length (own_slots image.now edge) }
    ensures ok { OnOk result (IsShapedEdge image.now edge) }
    ensures budget { IfOk result (λ b. b ≡ edge_budget image.now edge) }
    ensures small { IfOk result (λ b. b ≤ 2 ^ 28) }
    ensures err { IfErr result (λ f. IsCodeFault image.now edge f) }
{
    let parts = image.parts();
    let view = image.edge_code(edge);
    let len = view.len();
    if len == 0 {
        return Err(CodeFault::Refused(Refusal::FallsOff, 0));
    }
    let mut arrivals = no_arrivals(alloc, len)?;
    let mut flow = flow_at_start(alloc);
    let mut budget = 1u64;
    for place in 0..len {
        let instr = instr_at(&view, place);
        match pass_place(
            alloc,
            parts,
            edge,
            own_len,
            place,
            instr,
            &mut arrivals,
            &mut flow,
        ) {
            Ok(()) => {}
            Err(fault) => return Err(fault),
        }
        budget += cost(instr);
    }
    Ok(budget)
}

/// The least number of edges that is split in halves.
const FEW: usize = 128;

/// Converts a fault in an edge's code to one of the image.
fn fault_at(edge: u32, fault: CodeFault) -> VerifyFault
    ensures { result ≡ Rattle.plan_verify.specs.Verdict.fault_at edge fault }
{
    match fault {
        CodeFault::Refused(refusal, place) => VerifyFault::Refused(refusal, edge, place),
        CodeFault::Memory => VerifyFault::Memory,
    }
}

/// Returns the budget of an edge that has shapes, or its first check that fails.
fn verify_edge(
    alloc: Global,
    image: &Image,
    edge: u32,
    entry: EdgeRef<'_>,
    own: OwnSlots,
) -> Result<u64, VerifyFault>
    requires entry { slice_get image.now.edges edge ≡ Some (lent entry) }
    requires own { IsOwn image.now edge own }
    ensures ok { OnOk result (IsShapedEdge image.now edge) }
    ensures budget { IfOk result (λ b. b ≡ edge_budget image.now edge) }
    ensures small { IfOk result (λ b. b ≤ 2 ^ 28) }
    ensures err { IfErr result (λ f. IsEdgeFault image.now edge f) }
{
    if let Some(refusal) = table_refusal(image.parts(), edge, entry, own) {
        return Err(VerifyFault::Refused(refusal, edge, 0));
    }
    match pass_code(alloc, image, edge, own.count) {
        Ok(budget) => Ok(budget),
        Err(fault) => Err(fault_at(edge, fault)),
    }
}

/// Returns the budget of the edges in `from..to` if all of them have shapes, or else the first check that
/// fails.
pub(crate) fn verify_part(
    alloc: Global,
    image: &Image,
    owns: &[OwnSlots],
    from: usize,
    to: usize,
) -> Result<u64, VerifyFault>
    requires owns { AreOwnSlots image.now owns.now }
    requires order { from ≤ to }
    requires inside { to ≤ length image.now.edges }
    ensures { IsPart image.now from to result }
{
    let parts = image.parts();
    let mut budget = 0u64;
    for number in from..to {
        let entry = parts.edges.edge(number);
        match verify_edge(alloc, image, number as u32, entry, owns[number]) {
            Ok(more) => budget += more,
            Err(fault) => return Err(fault),
        }
    }
    Ok(budget)
}

/// Returns the same verdict as `verify_part`. The edges are split in halves `halvings` times, unless a part has
/// fewer than `FEW` edges, and the halves are verified in parallel.
pub(crate) fn verify_halves<R: Threads + Sync>(
    rt: &R,
    alloc: Global,
    image: &Image,
    owns: &[OwnSlots],
    from: usize,
    to: usize,
    halvings: u32,
) -> Result<u64, VerifyFault>
    requires owns { AreOwnSlots image.now owns.now }
    requires order { from ≤ to }
    requires inside { to ≤ length image.now.edges }
    ensures { IsPart image.now from to result }
{
    if halvings == 0 || to - from < FEW {
        return verify_part(alloc, image, owns, from, to);
    }
    let _parts = image.parts();
    let middle = from + (to - from) / 2;
    let left = halvings - 1;
    let (low, high) = join(
        rt,
        || -> Result<u64, VerifyFault>
            requires { IsSync R.row × AreOwnSlots image.now owns.now × (from ≤ middle) × (middle ≤ length image.now.edges) }
            ensures { IsPart image.entry.now from middle result }
        { verify_halves(rt, alloc, image, owns, from, middle, left) },
        || -> Result<u64, VerifyFault>
            requires { IsSync R.row × AreOwnSlots image.now owns.now × (middle ≤ to) × (to ≤ length image.now.edges) }
            ensures { IsPart image.entry.now middle to result }
        { verify_halves(rt, alloc, image, owns, middle, to, left) },
    );
    match (low, high) {
        (Ok(low), Ok(high)) => Ok(low + high),
        (Ok(_low), Err(fault)) => Err(fault),
        (Err(fault), _) => Err(fault),
    }
}

/// Returns how often edges are split in halves for this number of threads.
pub(crate) fn halvings(threads: u8) -> u32 {
    match threads {
        0 | 1 => 0,
        2 | 3 => 1,
        4..=7 => 2,
        _ => 3,
    }
}
