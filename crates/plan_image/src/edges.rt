//! The table of edges, stored in columns.

ghost use Rattle.std.specs.Prelude.{◌≡◌, ◌≤◌, ◌<◌, ◌+◌, ◌++◌, ◌∷◌, [], OnOk, OnErr, IfOk, Some, drop, get_or, is_some, length, option_map, slice_get, true};
ghost use Rattle.plan_image.specs.Columns.{AreSameBelow, code_at, code_by, instrs_by, lent, lent_code, shared_body, shared_operands};

use crate::body::{Instr, number_at};
use crate::edge_ref::{CodeRef, EdgeRef, Head, InstrsRef};
use crate::image::{Edge, EdgeCode};
use crate::opcode::push_instr;
use plan_text::RowList;
use std::alloc::{AllocError, Global};
use std::marker::Model;

/// The edges of an image. A contract sees a list of `Edge`. They are stored in columns: an edge takes 44 bytes,
/// four for each output, wait and operand, and five for each instruction of its own.
#[derive(Drop)]
pub struct Edges {
    heads: Vec<Head>,
    outputs: RowList<u32>,
    waits: RowList<u32>,
    opcodes: RowList<u8>,
    operands: RowList<u32>,
}

impl Model for Edges {
    ghost use Rattle.std.specs.Prelude.{List, ◌≤◌, length};
    ghost use Rattle.plan_image.specs.declared.image.Edge.{Edge};
    ghost use Rattle.plan_image.specs.Columns.{by_place, edge_with};

    ghost Value = { List Edge };

    ghost view = { λ e. by_place (edge_with e.outputs e.waits e.opcodes e.operands) 0 e.heads.items };

    // A refused push may have left rows after those of the last edge.
    ghost invariant = { λ e. (length e.heads.items ≤ length e.outputs) × (length e.heads.items ≤ length e.waits) × (length e.heads.items ≤ length e.opcodes) × (length e.heads.items ≤ length e.operands) };
}

/// Stores a row as row `number` and drops the rows after it. An error keeps the rows before it.
fn put_row<T: Copy>(rows: &mut RowList<T>, number: usize, row: &[T]) -> Result<(), AllocError>
    requires { number ≤ length rows.old }
    ensures put { OnOk result (get_or rows.new number [] ≡ row.now) }
    ensures more { OnOk result (length rows.new ≡ number + 1) }
    ensures least { number ≤ length rows.new }
    ensures above { AreSameBelow number rows.old rows.new }
{
    rows.truncate(number);
    rows.push(row)
}

/// Returns the body of a code, its opcodes and its operands, as the columns store them.
fn columns_of(code: CodeRef<'_>) -> (Option<u32>, &[u8], &[u32])
    ensures { code_by result.0 result.1.now result.2.now ≡ lent_code code.entry }
{
    match code {
        CodeRef::Own(instrs) => (None, instrs.opcodes, instrs.operands),
        CodeRef::Shared(body, operands) => (Some(body), &[], operands),
    }
}

/// Borrows the code of edge `number`, which has this body, or none.
fn code_in<'a>(
    body: Option<u32>,
    opcodes: &'a RowList<u8>,
    operands: &'a RowList<u32>,
    number: usize,
) -> CodeRef<'a>
    ensures { lent_code result ≡ code_by body (get_or opcodes.now number []) (get_or operands.now number []) }
{
    let operands = operands.row(number);
    match body {
        None => CodeRef::Own(InstrsRef {
            opcodes: opcodes.row(number),
            operands,
        }),
        Some(body) => CodeRef::Shared(body, operands),
    }
}

/// Splits instructions into opcodes and operands.
fn split_instrs(alloc: Global, instrs: &[Instr]) -> Result<(Vec<u8>, Vec<u32>), AllocError>
    ensures { IfOk result (λ x. instrs_by x.0.items x.1.items ≡ instrs.now) }
{
    let mut opcodes = Vec::with_capacity(alloc, instrs.len())?;
    let mut operands = Vec::with_capacity(alloc, instrs.len())?;
    for &instr in instrs {
        push_instr(&mut opcodes, &mut operands, instr)?;
    }
    Ok((opcodes, operands))
}

/// Borrows an edge, with this code instead of its own.
fn with_code<'a>(edge: &'a Edge, code: CodeRef<'a>) -> EdgeRef<'a>
    requires { lent_code code ≡ edge.now.code }
    ensures { lent result ≡ edge.now }
{
    EdgeRef {
        sort: edge.sort,
        pool: edge.pool,
        rank: edge.rank,
        label: edge.label,
        outputs: edge.outputs.as_slice(),
        waits: edge.waits.as_slice(),
        code,
    }
}

impl Edges {
    ghost use Rattle.std.specs.Prelude.{◌≡◌, ◌<◌, ◌+◌, ◌++◌, ◌∷◌, [], OnOk, OnErr, Some, drop, get_or, is_some, length, option_map, slice_get, true};
    ghost use Rattle.plan_image.specs.declared.image.Edge.{Edge};
    ghost use Rattle.plan_image.specs.Columns.{code_at, lent, lent_code, shared_body, shared_operands};

    /// Creates an empty table.
    pub fn new(alloc: Global) -> Edges
        ensures { result ≡ [] }
    {
        Edges {
            heads: Vec::new(alloc),
            outputs: RowList::new(alloc),
            waits: RowList::new(alloc),
            opcodes: RowList::new(alloc),
            operands: RowList::new(alloc),
        }
    }

    /// Reserves room for `edges` further edges, but not for their lists. An error changes nothing.
    pub fn reserve(&mut self, edges: usize) -> Result<(), AllocError>
        ensures { self.new ≡ self.old }
    {
        self.heads.reserve(edges)?;
        self.outputs.reserve(edges)?;
        self.waits.reserve(edges)?;
        self.opcodes.reserve(edges)?;
        self.operands.reserve(edges)
    }

    /// Appends an edge. An error changes nothing.
    pub fn push(&mut self, alloc: Global, edge: &Edge) -> Result<(), AllocError>
        ensures more { OnOk result (self.new ≡ self.old ++ edge.now ∷ []) }
        ensures refused { OnErr result (self.new ≡ self.old) }
    {
        match &edge.code {
            EdgeCode::Own(instrs) => self.push_own(alloc, edge, instrs.as_slice()),
            EdgeCode::Shared(body, operands) => {
                self.push_ref(with_code(edge, CodeRef::Shared(*body, operands.as_slice())))
            }
        }
    }

    /// Appends an edge that has these instructions of its own.
    fn push_own(&mut self, alloc: Global, edge: &Edge, instrs: &[Instr]) -> Result<(), AllocError>
        requires { edge.now.code ≡ EdgeCode.Own instrs.now }
        ensures more { OnOk result (self.new ≡ self.old ++ edge.now ∷ []) }
        ensures refused { OnErr result (self.new ≡ self.old) }
    {
        let (opcodes, operands) = split_instrs(alloc, instrs)?;
        let own = InstrsRef {
            opcodes: &opcodes,
            operands: &operands,
        };
        self.push_ref(with_code(edge, CodeRef::Own(own)))
    }

    /// Appends a borrowed edge. An error changes nothing.
    pub fn push_ref(&mut self, edge: EdgeRef<'_>) -> Result<(), AllocError>
        ensures more { OnOk result (self.new ≡ self.old ++ lent edge.entry ∷ []) }
        ensures refused { OnErr result (self.new ≡ self.old) }
    {
        let number = self.heads.len();
        let (body, opcodes, operands) = columns_of(edge.code);
        put_row(&mut self.outputs, number, edge.outputs)?;
        put_row(&mut self.waits, number, edge.waits)?;
        put_row(&mut self.opcodes, number, opcodes)?;
        put_row(&mut self.operands, number, operands)?;
        self.heads.push(Head {
            sort: edge.sort,
            pool: edge.pool,
            rank: edge.rank,
            label: edge.label,
            body,
        })?;
        Ok(())
    }

    /// Returns the number of edges.
    pub fn len(&self) -> usize
        ensures { result ≡ length self.now }
    {
        self.heads.len()
    }

    /// Returns edge `number`, counted from 0. Returns None if there is no such edge.
    pub fn get(&self, number: usize) -> Option<EdgeRef<'_>>
        ensures { option_map lent result ≡ slice_get self.now number }
    {
        if number >= self.len() {
            return None;
        }
        Some(self.edge(number))
    }

    /// Returns edge `number`, which must exist.
    #[inline(always)]
    pub fn edge(&self, number: usize) -> EdgeRef<'_>
        requires { number < length self.now }
        ensures found { slice_get self.now number ≡ Some (lent result) }
        ensures rest { drop number self.now ≡ lent result ∷ drop (number + 1) self.now }
    {
        let head = self.heads[number];
        EdgeRef {
            sort: head.sort,
            pool: head.pool,
            rank: head.rank,
            label: head.label,
            outputs: self.outputs.row(number),
            waits: self.waits.row(number),
            code: code_in(head.body, &self.opcodes, &self.operands, number),
        }
    }

    /// Returns the code of edge `number`. Returns None if there is no such edge.
    pub fn code(&self, number: usize) -> Option<CodeRef<'_>>
        ensures { option_map lent_code result ≡ option_map (λ (e : Edge). e.code) (slice_get self.now number) }
    {
        if number >= self.heads.len() {
            return None;
        }
        let body = self.heads[number].body;
        Some(code_in(body, &self.opcodes, &self.operands, number))
    }

    /// Returns the number of the body that edge `number` shares. Returns None if it shares none or does not
    /// exist.
    pub(crate) fn shared_body(&self, number: usize) -> Option<u32>
        ensures { result ≡ shared_body (code_at self.now number) }
    {
        if number >= self.heads.len() {
            return None;
        }
        self.heads[number].body
    }

    /// Returns the operand with this rank of an edge that shares a body, or 0 if it has fewer operands.
    pub(crate) fn operand(&self, number: usize, rank: usize) -> u32
        requires { is_some (shared_body (code_at self.now number)) ≡ true }
        ensures { result ≡ get_or (shared_operands (code_at self.now number)) rank 0 }
    {
        number_at(self.operands.row(number), rank)
    }

    /// Returns the rank of edge `number`. Returns None if there is no such edge.
    pub fn rank(&self, number: usize) -> Option<u32>
        ensures { result ≡ option_map (λ (e : Edge). e.rank) (slice_get self.now number) }
    {
        if number >= self.heads.len() {
            return None;
        }
        Some(self.heads[number].rank)
    }

    /// Returns the edges that edge `number` waits for. Returns None if there is no such edge.
    pub fn waits(&self, number: usize) -> Option<&[u32]>
        ensures { option_map (λ w. w.now) result ≡ option_map (λ (e : Edge). e.waits) (slice_get self.now number) }
    {
        if number >= self.heads.len() {
            return None;
        }
        Some(self.waits.row(number))
    }
}
