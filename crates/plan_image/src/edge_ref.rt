//! Borrowed edges, and the fixed-size part of an edge.

ghost use Rattle.std.specs.Prelude.{◌≡◌, ◌∷◌, ◌<◌, ◌+◌, Some, drop, length, slice_get};
ghost use Rattle.plan_image.specs.Columns.{lent_instrs};

use crate::body::Instr;
use crate::image::Sort;

/// The part of an edge that is not a list. If it names a body, the edge has operands, and otherwise the edge
/// has its own instructions.
#[derive(Clone, Copy)]
pub(crate) struct Head {
    pub sort: Sort,
    pub pool: Option<u32>,
    pub rank: u32,
    pub label: u32,
    pub body: Option<u32>,
}

/// Borrowed instructions: their opcodes and, at the same indices, their operands.
#[derive(Clone, Copy)]
pub struct InstrsRef<'a> {
    pub(crate) opcodes: &'a [u8],
    pub(crate) operands: &'a [u32],
}

impl<'a> InstrsRef<'a> {
    ghost use Rattle.std.specs.Prelude.{◌≡◌, ◌∷◌, ◌<◌, ◌+◌, Some, drop, length, slice_get};
    ghost use Rattle.plan_image.specs.Columns.{lent_instrs};

    /// Returns the number of instructions.
    pub fn len(&self) -> usize
        ensures { result ≡ length (lent_instrs self.now) }
    {
        self.opcodes.len()
    }

    /// Returns the instruction at a place, counted from 0. Returns None if there is no such instruction.
    pub fn get(&self, place: usize) -> Option<Instr>
        ensures { result ≡ slice_get (lent_instrs self.now) place }
    {
        if place >= self.len() {
            return None;
        }
        Some(self.instr(place))
    }

    /// Returns the instruction at a place, which must exist.
    pub fn instr(&self, place: usize) -> Instr
        requires { place < length (lent_instrs self.now) }
        ensures found { slice_get (lent_instrs self.now) place ≡ Some result }
        ensures rest { drop place (lent_instrs self.now) ≡ result ∷ drop (place + 1) (lent_instrs self.now) }
    {
        Instr::from_opcode(self.opcodes[place], operand_at(self.operands, place))
    }
}

/// Returns the operand at a place, or 0 if there is none.
fn operand_at(operands: &[u32], place: usize) -> u32
    ensures { result ≡ Rattle.std.specs.Prelude.get_or operands.now place 0 }
{
    match operands.get(place) {
        Some(operand) => *operand,
        None => 0,
    }
}

/// The borrowed code of an edge.
#[derive(Clone, Copy)]
pub enum CodeRef<'a> {
    /// Version 1: the edge's own instructions.
    Own(InstrsRef<'a>),
    /// Version 2: the number of a body, and an operand for each of its open instructions.
    Shared(u32, &'a [u32]),
}

/// A borrowed edge, with the same fields as `Edge`.
#[derive(Clone, Copy)]
pub struct EdgeRef<'a> {
    pub sort: Sort,
    pub pool: Option<u32>,
    pub rank: u32,
    pub label: u32,
    pub outputs: &'a [u32],
    pub waits: &'a [u32],
    pub code: CodeRef<'a>,
}
