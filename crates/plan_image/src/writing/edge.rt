//! Writes the spelling of edges.

ghost use Rattle.std.specs.Prelude.{◌≡◌, is_ok};
ghost use Rattle.std.specs.List.{AllByRecursion, flat_map};
ghost use Rattle.plan_image.specs.Columns.{lent_instrs};
ghost use Rattle.plan_image.specs.Printing.{Prints};
ghost use Rattle.plan_image.specs.Spelling.{edge, EdgeFits, instr, IsWord};

use crate::edge_ref::{CodeRef, EdgeRef, InstrsRef};
use crate::edges::Edges;
use crate::image::Sort;
use crate::lister::WriteFault;
use crate::writing::held::prints_join;
use crate::writing::part::{Each, Spelled, Table};
use plan_text::Sink;

/// Instructions, one after another.
#[derive(Drop)]
struct EachInstr<'a>(InstrsRef<'a>);

impl<'a> Spelled for EachInstr<'a> {
    ghost use Rattle.std.specs.List.{flat_map};
    ghost use Rattle.plan_image.specs.Columns.{lent_instrs};
    ghost use Rattle.plan_image.specs.Spelling.{instr};

    ghost spell = { λ e. flat_map instr (lent_instrs e.0) };

    ghost fits = { λ _. Unit {0} };

    fn print<W: Sink>(&self, held: &mut Vec<u8>, out: &mut W) -> Result<(), WriteFault> {
        print_instrs(self.0, held, out)
    }
}

fn print_instrs<W: Sink>(
    instrs: InstrsRef<'_>,
    held: &mut Vec<u8>,
    out: &mut W,
) -> Result<(), WriteFault>
    ensures { Prints (is_ok result) (held.old.items, (W.failures out.old, W.taken out.old)) (held.new.items, (W.failures out.new, W.taken out.new)) (flat_map instr (lent_instrs instrs.entry)) }
{
    prints_join();
    for place in 0..instrs.len() {
        instrs.instr(place).print(held, out)?;
    }
    Ok(())
}

/// The edge's own instructions, or the number of a body and a number for each open instruction.
impl<'a> Spelled for CodeRef<'a> {
    ghost use Rattle.plan_image.specs.Columns.{lent_code};
    ghost use Rattle.plan_image.specs.Spelling.{edge_code, CodeFits};

    ghost spell = { λ c. edge_code (lent_code c) };

    ghost fits = { λ c. CodeFits (lent_code c) };

    fn print<W: Sink>(&self, held: &mut Vec<u8>, out: &mut W) -> Result<(), WriteFault> {
        match *self {
            CodeRef::Own(instrs) => (instrs.len() as u32, EachInstr(instrs)).print(held, out),
            CodeRef::Shared(number, numbers) => (number, Each(numbers)).print(held, out),
        }
    }
}

const fn pool_number(pool: Option<u32>) -> u32
    requires { IsWord (Rattle.plan_image.specs.Spelling.pool_number pool) }
    ensures { result ≡ Rattle.plan_image.specs.Spelling.pool_number pool }
{
    match pool {
        None => 0,
        Some(pool) => pool + 1,
    }
}

const fn sort_byte(sort: Sort) -> u8
    ensures { result ≡ Rattle.plan_image.specs.Spelling.sort_byte sort }
{
    match sort {
        Sort::Command => 0,
        Sort::Phony => 1,
    }
}

impl<'a> Spelled for EdgeRef<'a> {
    ghost use Rattle.plan_image.specs.Columns.{lent};
    ghost use Rattle.plan_image.specs.Spelling.{edge, EdgeFits};

    ghost spell = { λ x. edge (lent x) };

    ghost fits = { λ x. EdgeFits (lent x) };

    fn print<W: Sink>(&self, held: &mut Vec<u8>, out: &mut W) -> Result<(), WriteFault> {
        let pool = (sort_byte(self.sort), pool_number(self.pool));
        let head = ((pool, self.rank), self.label);
        let waits = ((head, Table(self.outputs)), Table(self.waits));
        (waits, self.code).print(held, out)
    }
}

/// The number of edges, and then each edge.
#[derive(Drop)]
pub(crate) struct EdgeTable<'a>(pub &'a Edges);

impl<'a> Spelled for EdgeTable<'a> {
    ghost use Rattle.std.specs.Prelude.{◌<◌, ◌^◌, length};
    ghost use Rattle.std.specs.List.{AllByRecursion};
    ghost use Rattle.plan_image.specs.Spelling.{counted, edge, EdgeFits};

    ghost spell = { λ t. counted edge t.0.now };

    ghost fits = { λ t. (length t.0.now < 2 ^ 32) × AllByRecursion EdgeFits t.0.now };

    fn print<W: Sink>(&self, held: &mut Vec<u8>, out: &mut W) -> Result<(), WriteFault> {
        (self.0.len() as u32, EachEdge(self.0)).print(held, out)
    }
}

/// Edges, one after another.
#[derive(Drop)]
struct EachEdge<'a>(&'a Edges);

impl<'a> Spelled for EachEdge<'a> {
    ghost use Rattle.std.specs.List.{AllByRecursion, flat_map};
    ghost use Rattle.plan_image.specs.Spelling.{edge, EdgeFits};

    ghost spell = { λ e. flat_map edge e.0.now };

    ghost fits = { λ e. AllByRecursion EdgeFits e.0.now };

    fn print<W: Sink>(&self, held: &mut Vec<u8>, out: &mut W) -> Result<(), WriteFault> {
        print_edges(self.0, held, out)
    }
}

fn print_edges<W: Sink>(edges: &Edges, held: &mut Vec<u8>, out: &mut W) -> Result<(), WriteFault>
    requires { AllByRecursion EdgeFits edges.now }
    ensures { Prints (is_ok result) (held.old.items, (W.failures out.old, W.taken out.old)) (held.new.items, (W.failures out.new, W.taken out.new)) (flat_map edge edges.now) }
{
    prints_join();
    for number in 0..edges.len() {
        edges.edge(number).print(held, out)?;
    }
    Ok(())
}
