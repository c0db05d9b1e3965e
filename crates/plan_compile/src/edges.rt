//! The edges of an image, and the bodies that they share.

ghost use Rattle.std.specs.Prelude.{◌≡◌, ◌≤◌, ◌<◌, ◌+◌, ◌++◌, ◌∷◌, [], length, map, IfOk, OnOk, Some, slice_get};
ghost use Rattle.plan_image.specs.Bodies.{body_of};
ghost use Rattle.plan_image.specs.Columns.{lent};
ghost use Rattle.plan_image.specs.declared.image.EdgeCode.TheVariants.{Shared};
ghost use Rattle.plan_graph.specs.Graph.{max_edges};
ghost use Rattle.plan_compile.specs.Assembling.{AreCoded, codes_in, edge_in};
ghost use Rattle.plan_compile.specs.BodyKeys.{same_body};
ghost use Rattle.plan_compile.specs.Images.{shared, sort_of};
ghost use Rattle.plan_compile.specs.Numbering.{with_item};
ghost use Rattle.plan_compile.specs.Renumbering.{renumbered};

use crate::bodies::Bodies;
use crate::build::Build;
use crate::code::Code;
use crate::edge_layout::put_code;
use crate::fault::CompileFault;
use crate::layout::Output;
use crate::lists::Lists;
use crate::numbers::Numbers;
use plan_image::{CodeRef, EdgeRef, Edges, Sort};
use plan_text::Memory;
use std::alloc::{AllocError, Global};

/// Returns the sort of an edge.
fn sort_of(phony: bool) -> Sort
    ensures { result ≡ sort_of phony }
{
    if phony { Sort::Phony } else { Sort::Command }
}

/// Returns an edge with these numbers, this body and these operands.
fn edge_in<'a, 'b>(
    numbers: Numbers,
    body: u32,
    operands: &'b [u32],
    build: &'b Build<'a>,
) -> EdgeRef<'b>
    ensures { lent result ≡ edge_in numbers (Shared body operands.now) build.now }
{
    EdgeRef {
        sort: sort_of(build.edge().is_phony()),
        pool: numbers.pool,
        rank: build.rank(),
        label: numbers.label,
        outputs: build.outputs(),
        waits: build.waits(),
        code: CodeRef::Shared(body, operands),
    }
}

/// Appends an edge with these numbers and this code, whose body it shares.
fn push_edge<'a>(
    alloc: Global,
    edges: &mut Edges,
    bodies: &mut Bodies,
    numbers: Numbers,
    code: &Code,
    build: &Build<'a>,
) -> Result<(), Memory>
    requires { length bodies.old ≤ max_edges }
    ensures bodies { OnOk result (bodies.new ≡ with_item same_body bodies.old (body_of code.now)) }
    ensures edges { OnOk result (edges.new ≡ edges.old ++ edge_in numbers (shared bodies.new code.now) build.now ∷ []) }
    ensures few { OnOk result (length bodies.new ≤ length bodies.old + 1) }
{
    let number = bodies.put(alloc, code)?;
    edges.push_ref(edge_in(numbers, number, code.operands(), build))?;
    Ok(())
}

/// Returns the numbers of edge `number`.
pub(crate) fn numbers_at(numbers: &[Numbers], number: usize) -> Numbers
    requires { number < length numbers.now }
    ensures { slice_get numbers.now number ≡ Some result }
{
    numbers[number]
}

/// Returns the slot of the newest input of edge `number`.
fn slot_at(newest: &[u32], number: usize) -> u32
    requires { number < length newest.now }
    ensures { slice_get newest.now number ≡ Some result }
{
    newest[number]
}

/// Creates an empty list of edges with room for `count` edges.
fn room_for(alloc: Global, count: usize) -> Result<Edges, AllocError>
    ensures { IfOk result (λ edges. edges ≡ []) }
{
    let mut edges = Edges::new(alloc);
    edges.reserve(count)?;
    Ok(edges)
}

/// Generates the codes of these edges one after another. `newest` has the slot of each edge's newest input. Returns the
/// edges and their bodies. Fails if a code has more places than a body may have.
pub(crate) fn edges_of<'a>(
    alloc: Global,
    table: &[Option<Output>],
    newest: &[u32],
    numbers: &[Numbers],
    builds: &[Build<'a>],
) -> Result<(Edges, Bodies), CompileFault>
    requires long { length newest.now ≡ length builds.now }
    requires named { length numbers.now ≡ length builds.now }
    requires few { length builds.now ≤ max_edges }
    ensures { AreCoded numbers.now (codes_in table.now numbers.now newest.now builds.now) builds.now result }
{
    let mut edges = room_for(alloc, builds.len())?;
    let mut bodies = Bodies::new(alloc);
    let mut code = Code::new(alloc);
    let mut lists = Lists::new(alloc);
    for number in 0..builds.len() {
        let build = &builds[number];
        let named = numbers_at(numbers, number);
        let slot = slot_at(newest, number);
        lists = put_code(alloc, lists, &mut code, named, table, slot, build)?;
        push_edge(alloc, &mut edges, &mut bodies, named, &code, build)?;
    }
    Ok((edges, bodies))
}

/// Returns an edge with the new number of its body.
fn renumbered<'a>(edge: EdgeRef<'a>, numbers: &[u32]) -> EdgeRef<'a>
    ensures { lent result ≡ renumbered numbers.now (lent edge.entry) }
{
    match edge.code {
        CodeRef::Own(_) => edge,
        CodeRef::Shared(body, operands) => {
            let number = numbers.get(body as usize).copied().unwrap_or(0);
            EdgeRef {
                code: CodeRef::Shared(number, operands),
                ..edge
            }
        }
    }
}

/// Appends edges, with the new numbers of their bodies.
pub(crate) fn append_edges(
    edges: &mut Edges,
    more: &Edges,
    numbers: &[u32],
) -> Result<(), AllocError>
    ensures { OnOk result (edges.new ≡ edges.old ++ map (renumbered numbers.now) more.now) }
{
    edges.reserve(more.len())?;
    for number in 0..more.len() {
        edges.push_ref(renumbered(more.edge(number), numbers))?;
    }
    Ok(())
}
