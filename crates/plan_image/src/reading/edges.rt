//! Reads edges and their code.

ghost use Rattle.plan_image.specs.Code.{body, instrs_of};
ghost use Rattle.plan_image.specs.Columns.{code_by, edge_by, instrs_by, lent};
ghost use Rattle.plan_image.specs.Reading.{Gives, items_at, instr_at, own_code_at, numbers_for, shared_code_at, code_at, edge_at, edges_at, used_after};
ghost use Rattle.plan_image.specs.Spelling.{most_code};
ghost use Rattle.std.specs.Prelude.{◌≡◌, ◌+◌, ◌^◌, ◌≤◌, [], length, IfOk, OnOk, Some, None};

use crate::body::Body;
use crate::edge_ref::{CodeRef, EdgeRef, Head, InstrsRef};
use crate::edges::Edges;
use crate::fault::Cause;
use crate::image::instr_count;
use crate::maxima::{MAX_EDGES, MAX_OWN_INSTRS, MAX_SHARED_INSTRS};
use crate::opcode::push_instr;
use crate::reading::bodies::read_instr;
use crate::reading::fields::{read_sort, read_u32, read_u32_up_to};
use crate::reading::items::{fill_ascending, fill_items, fill_numbers, room};
use crate::reading::stop::{ReadFault, stop_at};
use plan_text::Items;
use std::alloc::Global;

/// The lists of the edge that is being read. Each edge overwrites those of the edge before it.
#[derive(Drop)]
struct Lists {
    outputs: Vec<u32>,
    waits: Vec<u32>,
    opcodes: Vec<u8>,
    operands: Vec<u32>,
}

impl Lists {
    ghost use Rattle.std.specs.Prelude.{◌≡◌};
    ghost use Rattle.plan_image.specs.Columns.{edge_by, lent};

    fn new(alloc: Global) -> Lists {
        Lists {
            outputs: Vec::new(alloc),
            waits: Vec::new(alloc),
            opcodes: Vec::new(alloc),
            operands: Vec::new(alloc),
        }
    }

    /// Borrows the edge with this head and these lists.
    fn edge(&self, head: Head) -> EdgeRef<'_>
        ensures { lent result ≡ edge_by head self.now.outputs.items self.now.waits.items self.now.opcodes.items self.now.operands.items }
    {
        let code = match head.body {
            None => CodeRef::Own(InstrsRef {
                opcodes: &self.opcodes,
                operands: &self.operands,
            }),
            Some(body) => CodeRef::Shared(body, &self.operands),
        };
        EdgeRef {
            sort: head.sort,
            pool: head.pool,
            rank: head.rank,
            label: head.label,
            outputs: &self.outputs,
            waits: &self.waits,
            code,
        }
    }
}

/// Reads `count` instructions, as opcodes and operands, and overwrites the former ones.
fn fill_instrs<'a>(
    count: usize,
    opcodes: &mut Vec<u8>,
    operands: &mut Vec<u32>,
    bytes: &'a [u8],
) -> Result<&'a [u8], ReadFault>
    ensures instrs { Gives (λ rest. (instrs_by opcodes.new.items operands.new.items, rest.now)) result (items_at (λ (s : Unit {0}). instr_at) (λ s x. s) tt count bytes.now) }
    ensures len { OnOk result (length opcodes.new.items ≡ count) }
{
    opcodes.clear();
    operands.clear();
    opcodes.reserve(room(count, bytes, 1))?;
    operands.reserve(room(count, bytes, 1))?;
    let mut rest = bytes;
    for _ in 0..count {
        let (instr, after) = read_instr(rest)?;
        push_instr(opcodes, operands, instr)?;
        rest = after;
    }
    Ok(rest)
}

/// Reads instructions that are stored in the edge itself.
#[tactic(auto, unfolding(crate::specs::Reading::own_code_at))]
fn read_own_code<'a>(
    used: u64,
    opcodes: &mut Vec<u8>,
    operands: &mut Vec<u32>,
    bytes: &'a [u8],
) -> Result<&'a [u8], ReadFault>
    requires { used ≤ MAX_OWN_INSTRS }
    ensures code { Gives (λ rest. (code_by None opcodes.new.items operands.new.items, rest.now)) result (own_code_at used bytes.now) }
    ensures most { OnOk result (used + length opcodes.new.items ≤ MAX_OWN_INSTRS) }
{
    let most = MAX_OWN_INSTRS as u32 - used as u32;
    let (count, rest) = read_u32_up_to(most, bytes)?;
    fill_instrs(count as usize, opcodes, operands, rest)
}

/// Reads the operands of the open instructions of a body.
fn read_operands<'a>(
    alloc: Global,
    used: u64,
    number: u32,
    len: usize,
    count: usize,
    operands: &mut Vec<u32>,
    bytes: &[u8],
    rest: &'a [u8],
) -> Result<(u32, &'a [u8]), ReadFault>
    requires { used ≤ MAX_SHARED_INSTRS }
    ensures code { Gives (λ x. (code_by (Some x.0) [] operands.new.items, x.1.now)) result (numbers_for used number len count bytes.now rest.now) }
    ensures most { OnOk result (used + len ≤ MAX_SHARED_INSTRS) }
    ensures number { IfOk result (λ x. x.0 ≡ number) }
{
    let left = MAX_SHARED_INSTRS - used;
    if left < len as u64 {
        return Err(stop_at(Cause::Limit, bytes));
    }
    let rest = fill_items(alloc, count, operands, rest)?;
    Ok((number, rest))
}

/// Reads the number of a body, and the operands of its open instructions.
#[tactic(auto, unfolding(crate::specs::Reading::shared_code_at))]
fn read_shared_code<'a>(
    alloc: Global,
    bodies: &[Body],
    used: u64,
    operands: &mut Vec<u32>,
    bytes: &'a [u8],
) -> Result<(u32, &'a [u8]), ReadFault>
    requires { used ≤ MAX_SHARED_INSTRS }
    ensures code { Gives (λ x. (code_by (Some x.0) [] operands.new.items, x.1.now)) result (shared_code_at bodies.now used bytes.now) }
    ensures most { IfOk result (λ x. used + length (body (Some bodies.now) x.0) ≤ MAX_SHARED_INSTRS) }
{
    let (number, rest) = read_u32(bytes)?;
    match bodies.get(number as usize) {
        None => Err(stop_at(Cause::BadBody, bytes)),
        Some(body) => read_operands(
            alloc,
            used,
            number,
            body.len(),
            body.open_count(),
            operands,
            bytes,
            rest,
        ),
    }
}

/// Reads the code of an edge, in the form of the version.
fn read_code<'a>(
    alloc: Global,
    bodies: &Option<Items<Body>>,
    used: u64,
    opcodes: &mut Vec<u8>,
    operands: &mut Vec<u32>,
    bytes: &'a [u8],
) -> Result<(Option<u32>, &'a [u8]), ReadFault>
    requires { used ≤ most_code bodies.now }
    ensures code { Gives (λ x. (code_by x.0 opcodes.new.items operands.new.items, x.1.now)) result (code_at bodies.now used bytes.now) }
    ensures most { IfOk result (λ x. used + length (instrs_of bodies.now (code_by x.0 opcodes.new.items operands.new.items)) ≤ most_code bodies.now) }
{
    match bodies {
        None => {
            let rest = read_own_code(used, opcodes, operands, bytes)?;
            Ok((None, rest))
        }
        Some(bodies) => {
            let (body, rest) = read_shared_code(alloc, bodies.as_slice(), used, operands, bytes)?;
            Ok((Some(body), rest))
        }
    }
}

#[tactic(auto, unfolding(crate::specs::Reading::edge_at))]
fn read_edge<'a>(
    alloc: Global,
    bodies: &Option<Items<Body>>,
    used: u64,
    lists: &mut Lists,
    bytes: &'a [u8],
) -> Result<(Head, &'a [u8]), ReadFault>
    requires { used ≤ most_code bodies.now }
    ensures edge { Gives (λ x. (edge_by x.0 lists.new.outputs.items lists.new.waits.items lists.new.opcodes.items lists.new.operands.items, x.1.now)) result (edge_at bodies.now used bytes.now) }
    ensures most { IfOk result (λ x. used + length (instrs_of bodies.now (code_by x.0.body lists.new.opcodes.items lists.new.operands.items)) ≤ most_code bodies.now) }
{
    let (sort, rest) = read_sort(bytes)?;
    let (pool, rest) = read_u32(rest)?;
    let (rank, rest) = read_u32(rest)?;
    let (label, rest) = read_u32(rest)?;
    let rest = fill_numbers(alloc, &mut lists.outputs, rest)?;
    let rest = fill_ascending(alloc, &mut lists.waits, rest)?;
    let (body, rest) = read_code(
        alloc,
        bodies,
        used,
        &mut lists.opcodes,
        &mut lists.operands,
        rest,
    )?;
    let pool = pool.checked_sub(1);
    Ok((
        Head {
            sort,
            pool,
            rank,
            label,
            body,
        },
        rest,
    ))
}

/// Reads `count` edges, whose code may share these bodies.
fn read_each_edge<'a>(
    alloc: Global,
    bodies: &Option<Items<Body>>,
    count: u32,
    bytes: &'a [u8],
) -> Result<(Edges, &'a [u8]), ReadFault>
    ensures { Gives (λ x. (x.0, x.1.now)) result (items_at (edge_at bodies.now) (used_after bodies.now) 0 count bytes.now) }
{
    let mut edges = Edges::new(alloc);
    edges.reserve(room(count as usize, bytes, 25))?;
    let mut lists = Lists::new(alloc);
    let mut rest = bytes;
    let mut used = 0u64;
    for _ in 0..count {
        let (head, after) = read_edge(alloc, bodies, used, &mut lists, rest)?;
        let edge = lists.edge(head);
        edges.push_ref(edge)?;
        used += instr_count(bodies, edge.code) as u64;
        rest = after;
    }
    Ok((edges, rest))
}

#[tactic(auto, unfolding(crate::specs::Reading::edges_at))]
pub(crate) fn read_edges<'a>(
    alloc: Global,
    bodies: &Option<Items<Body>>,
    bytes: &'a [u8],
) -> Result<(Edges, &'a [u8]), ReadFault>
    ensures { Gives (λ x. (x.0, x.1.now)) result (edges_at bodies.now bytes.now) }
{
    let (count, rest) = read_u32_up_to(MAX_EDGES as u32, bytes)?;
    read_each_edge(alloc, bodies, count, rest)
}
