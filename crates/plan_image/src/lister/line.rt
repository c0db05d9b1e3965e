//! Writes the lines of a listing.

ghost use Rattle.std.specs.Prelude.{is_ok};
ghost use Rattle.plan_text.specs.Sinks.{Writes};
ghost use Rattle.plan_image.specs.Columns.{lent, lent_instrs};
ghost use Rattle.plan_image.specs.Listing.{edge_lines, instr_line, numbered, open_line, shared_words};

use crate::body::{Body, BodyInstr, Instr, Opening};
use crate::edge_ref::{CodeRef, EdgeRef, InstrsRef};
use crate::edges::Edges;
use crate::image::{Pool, Slot};
use crate::lister::each::{Each, Listed};
use crate::lister::part::{Line, Number, Part, Spaced, Word, WriteFault, write_behind_space};
use crate::lister::value::{
    Hex, Members, Operand, PoolNumber, letter_of, name_of, operand_of, word_of,
};
use plan_text::{Sink, writes_join};

/// `pool N HEX depth D`
impl Listed for Pool {
    ghost use Rattle.plan_image.specs.Listing.{pool_line};

    ghost lines = { pool_line };

    fn write<W: Sink>(&self, number: usize, out: &mut W) -> Result<(), WriteFault> {
        let depth = Spaced(Word(b"depth"), Number(u64::from(self.depth)));
        let name = Spaced(Hex(self.name.as_slice()), depth);
        Line(Spaced(Word(b"pool"), Spaced(Number(number as u64), name))).write(out)
    }
}

/// `slot N owner E kind K`
impl Listed for Slot {
    ghost use Rattle.plan_image.specs.Listing.{slot_line};

    ghost lines = { slot_line };

    fn write<W: Sink>(&self, number: usize, out: &mut W) -> Result<(), WriteFault> {
        let kind = Spaced(Word(b"kind"), Word(letter_of(self.kind)));
        let owner = Spaced(Word(b"owner"), Spaced(Number(u64::from(self.owner)), kind));
        Line(Spaced(Word(b"slot"), Spaced(Number(number as u64), owner))).write(out)
    }
}

/// Writes the place, the name and the operand of an instruction.
fn write_instr<W: Sink>(place: usize, instr: Instr, out: &mut W) -> Result<(), WriteFault>
    ensures { Writes (is_ok result) (W.failures out.old, W.taken out.old) (W.failures out.new, W.taken out.new) (instr_line place instr) }
{
    let name = (Word(name_of(instr)), Operand(operand_of(instr)));
    (Word(b"  "), Line(Spaced(Number(place as u64), name))).write(out)
}

fn write_open<W: Sink>(place: usize, opening: Opening, out: &mut W) -> Result<(), WriteFault>
    ensures { Writes (is_ok result) (W.failures out.old, W.taken out.old) (W.failures out.new, W.taken out.new) (open_line place opening) }
{
    let name = Spaced(Word(name_of(opening.with_number(0))), Word(b"_"));
    (Word(b"  "), Line(Spaced(Number(place as u64), name))).write(out)
}

/// An instruction of a body: its place, its name and its operand, or `_` if the operand is open.
impl Listed for BodyInstr {
    ghost use Rattle.plan_image.specs.Listing.{body_instr_line};

    ghost lines = { body_instr_line };

    fn write<W: Sink>(&self, number: usize, out: &mut W) -> Result<(), WriteFault> {
        match *self {
            BodyInstr::Fixed(instr) => write_instr(number, instr, out),
            BodyInstr::Open(opening) => write_open(number, opening, out),
        }
    }
}

/// `body N`, and its instructions.
impl Listed for Body {
    ghost use Rattle.plan_image.specs.Listing.{body_lines};

    ghost lines = { body_lines };

    fn write<W: Sink>(&self, number: usize, out: &mut W) -> Result<(), WriteFault> {
        let head = Line(Spaced(Word(b"body"), Number(number as u64)));
        (head, Each(self.as_slice())).write(out)
    }
}

/// Writes an edge, and its own instructions.
pub(crate) fn write_edge<W: Sink>(
    number: usize,
    edge: EdgeRef<'_>,
    out: &mut W,
) -> Result<(), WriteFault>
    ensures { Writes (is_ok result) (W.failures out.old, W.taken out.old) (W.failures out.new, W.taken out.new) (edge_lines number (lent edge.entry)) }
{
    let waits = Spaced(Word(b"waits"), Members(edge.waits));
    let outputs = Spaced(Word(b"outputs"), Spaced(Members(edge.outputs), waits));
    let label = Spaced(
        Word(b"label"),
        Spaced(Number(u64::from(edge.label)), outputs),
    );
    let pool = Spaced(Word(b"pool"), Spaced(PoolNumber(edge.pool), label));
    let rank = Spaced(Word(b"rank"), Spaced(Number(u64::from(edge.rank)), pool));
    let sort = Spaced(Word(word_of(edge.sort)), rank);
    let head = Spaced(Word(b"edge"), Spaced(Number(number as u64), sort));
    (head, Code(edge.code)).write(out)
}

/// The end of an edge's line, and the lines below it.
#[derive(Drop)]
struct Code<'a>(CodeRef<'a>);

impl<'a> Part for Code<'a> {
    ghost use Rattle.plan_image.specs.Columns.{lent_code};
    ghost use Rattle.plan_image.specs.Listing.{code_words};

    ghost text = { λ c. code_words (lent_code c.0) };

    fn write<W: Sink>(&self, out: &mut W) -> Result<(), WriteFault> {
        match self.0 {
            CodeRef::Own(instrs) => (Word(b"\n"), EachInstr(instrs)).write(out),
            CodeRef::Shared(number, operands) => write_shared(number, operands, out),
        }
    }
}

/// The lines of instructions.
#[derive(Drop)]
struct EachInstr<'a>(InstrsRef<'a>);

impl<'a> Part for EachInstr<'a> {
    ghost use Rattle.plan_image.specs.Columns.{lent_instrs};
    ghost use Rattle.plan_image.specs.Listing.{instr_line, numbered};

    ghost text = { λ e. numbered instr_line 0 (lent_instrs e.0) };

    fn write<W: Sink>(&self, out: &mut W) -> Result<(), WriteFault> {
        write_instrs(self.0, out)
    }
}

fn write_instrs<W: Sink>(instrs: InstrsRef<'_>, out: &mut W) -> Result<(), WriteFault>
    ensures { Writes (is_ok result) (W.failures out.old, W.taken out.old) (W.failures out.new, W.taken out.new) (numbered instr_line 0 (lent_instrs instrs.entry)) }
{
    writes_join();
    for place in 0..instrs.len() {
        write_instr(place, instrs.instr(place), out)?;
    }
    Ok(())
}

/// Writes the lines of each edge.
pub(crate) fn write_edges<W: Sink>(edges: &Edges, out: &mut W) -> Result<(), WriteFault>
    ensures { Writes (is_ok result) (W.failures out.old, W.taken out.old) (W.failures out.new, W.taken out.new) (numbered edge_lines 0 edges.now) }
{
    writes_join();
    for number in 0..edges.len() {
        write_edge(number, edges.edge(number), out)?;
    }
    Ok(())
}

fn write_shared<W: Sink>(number: u32, operands: &[u32], out: &mut W) -> Result<(), WriteFault>
    ensures { Writes (is_ok result) (W.failures out.old, W.taken out.old) (W.failures out.new, W.taken out.new) (shared_words number operands.now) }
{
    let operands = Spaced(Word(b"operands"), Members(operands));
    let body = Spaced(Word(b"body"), Spaced(Number(u64::from(number)), operands));
    write_behind_space(&Line(body), out)
}
