//! Codes that several threads generate.

ghost use Rattle.std.specs.Prelude.{◌≡◌, ◌≤◌, ◌+◌, ◌++◌, IfErr, IfOk, OnOk, length, map};
ghost use Rattle.std.specs.Thread.{IsSync};
ghost use Rattle.plan_graph.specs.Graph.{max_edges};
ghost use Rattle.plan_compile.specs.declared.fault.CompileFault.TheVariants as CompileFault;
ghost use Rattle.plan_compile.specs.Assembling.{AreCoded, codes_in};
ghost use Rattle.plan_compile.specs.BodyKeys.{same_body};
ghost use Rattle.plan_compile.specs.Numbering.{number, with_items};
ghost use Rattle.plan_compile.specs.Renumbering.{renumbered};

use crate::bodies::Bodies;
use crate::build::Build;
use crate::edges::{append_edges, edges_of};
use crate::fault::CompileFault;
use crate::layout::Output;
use crate::numbers::Numbers;
use plan_image::Edges;
use std::alloc::Global;
use std::thread::{Threads, join};

/// The number of edges below which they aren't split, since starting a thread takes longer than it saves.
const FEW: usize = 500;

/// Appends the edges of a half to those before it. The bodies are numbered in the order of first use.
fn append_half(
    alloc: Global,
    edges: &mut Edges,
    bodies: &mut Bodies,
    half: (Edges, Bodies),
) -> Result<(), CompileFault>
    requires { length bodies.old + length half.1 ≤ max_edges }
    ensures bodies { OnOk result (bodies.new ≡ with_items same_body bodies.old half.1) }
    ensures edges { OnOk result (edges.new ≡ edges.old ++ map (renumbered (map (λ b. number same_body b bodies.new) half.1)) half.0) }
    ensures few { OnOk result (length bodies.new ≤ length bodies.old + length half.1) }
    ensures memory { IfErr result (λ fault. fault ≡ CompileFault.Memory) }
{
    let (more, others) = half;
    let numbers = bodies.put_all(alloc, others)?;
    append_edges(edges, &more, &numbers)?;
    Ok(())
}

/// Appends the edges of the second half to those of the first one. The bodies are numbered in the order of first use.
fn join_halves(
    alloc: Global,
    first: (Edges, Bodies),
    second: (Edges, Bodies),
) -> Result<(Edges, Bodies), CompileFault>
    requires { length first.1 + length second.1 ≤ max_edges }
    ensures bodies { IfOk result (λ r. r.1 ≡ with_items same_body first.1 second.1) }
    ensures edges { IfOk result (λ r. r.0 ≡ first.0 ++ map (renumbered (map (λ b. number same_body b r.1) second.1)) second.0) }
    ensures few { IfOk result (λ r. length r.1 ≤ length first.1 + length second.1) }
    ensures memory { IfErr result (λ fault. fault ≡ CompileFault.Memory) }
{
    let (mut edges, mut bodies) = first;
    append_half(alloc, &mut edges, &mut bodies, second)?;
    Ok((edges, bodies))
}

/// A type of edges whose codes can be generated.
pub(crate) trait HasCode {
    ghost use Rattle.std.specs.Prelude.{◌≡◌, ◌≤◌, length, map};
    ghost use Rattle.plan_graph.specs.Graph.{max_edges};
    ghost use Rattle.plan_compile.specs.Assembling.{AreCoded, codes_in};
    ghost use Rattle.plan_compile.specs.Builds.{Build};

    /// The edge of the manifest.
    ghost meant: { Self → Build };

    /// Generates the codes of these edges one after another. `newest` has the slot of each edge's newest input. Returns
    /// the edges and their bodies. Fails if a code has more places than a body may have.
    fn edges_of(
        alloc: Global,
        table: &[Option<Output>],
        newest: &[u32],
        numbers: &[Numbers],
        builds: &[Self],
    ) -> Result<(Edges, Bodies), CompileFault>
        requires long { length newest.now ≡ length builds.now }
        requires named { length numbers.now ≡ length builds.now }
        requires few { length builds.now ≤ max_edges }
        ensures { AreCoded numbers.now (codes_in table.now numbers.now newest.now (map Self.meant builds.now)) (map Self.meant builds.now) result };
}

impl<'a> HasCode for Build<'a> {
    ghost meant = { λ build. build };

    fn edges_of(
        alloc: Global,
        table: &[Option<Output>],
        newest: &[u32],
        numbers: &[Numbers],
        builds: &[Self],
    ) -> Result<(Edges, Bodies), CompileFault> {
        edges_of(alloc, table, newest, numbers, builds)
    }
}

/// Generates the codes of these edges like `edges_of`, with the same result. The edges are split in halves `halvings`
/// times, unless there are few, and the codes of the halves are generated side by side.
///
/// The type of the edges is a parameter: if a closure borrows values of a type with a lifetime, as `Build` is, its
/// contract says nothing.
pub(crate) fn edges_by_halves<R: Threads + Sync, B: HasCode + Sync>(
    rt: &R,
    alloc: Global,
    table: &[Option<Output>],
    newest: &[u32],
    numbers: &[Numbers],
    builds: &[B],
    halvings: u32,
) -> Result<(Edges, Bodies), CompileFault>
    requires long { length newest.now ≡ length builds.now }
    requires named { length numbers.now ≡ length builds.now }
    requires few { length builds.now ≤ max_edges }
    ensures { AreCoded numbers.now (codes_in table.now numbers.now newest.now (map B.meant builds.now)) (map B.meant builds.now) result }
{
    if halvings == 0 || builds.len() < FEW {
        return B::edges_of(alloc, table, newest, numbers, builds);
    }
    let middle = builds.len() / 2;
    let left = halvings - 1;
    let (newest, newest_after) = newest.split_at(middle);
    let (numbers, numbers_after) = numbers.split_at(middle);
    let (builds, builds_after) = builds.split_at(middle);
    let (first, second) = join(
        rt,
        || -> Result<(Edges, Bodies), CompileFault>
            requires { IsSync R.row × IsSync B.row × (length newest.now ≡ length builds.now) × (length numbers.now ≡ length builds.now) × (length builds.now ≤ max_edges) }
            ensures { AreCoded numbers.entry.now (codes_in table.entry.now numbers.entry.now newest.entry.now (map B.meant builds.entry.now)) (map B.meant builds.entry.now) result }
        { edges_by_halves(rt, alloc, table, newest, numbers, builds, left) },
        || -> Result<(Edges, Bodies), CompileFault>
            requires { IsSync R.row × IsSync B.row × (length newest_after.now ≡ length builds_after.now) × (length numbers_after.now ≡ length builds_after.now) × (length builds_after.now ≤ max_edges) }
            ensures { AreCoded numbers_after.entry.now (codes_in table.entry.now numbers_after.entry.now newest_after.entry.now (map B.meant builds_after.entry.now)) (map B.meant builds_after.entry.now) result }
        {
            edges_by_halves(
                rt,
                alloc,
                table,
                newest_after,
                numbers_after,
                builds_after,
                left,
            )
        },
    );
    join_halves(alloc, first?, second?)
}
