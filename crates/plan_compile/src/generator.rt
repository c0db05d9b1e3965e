//! The two ways to generate the codes of edges: one after another, or side by side.

ghost use Rattle.std.specs.Prelude.{◌≡◌, ◌≤◌, length};
ghost use Rattle.plan_graph.specs.Graph.{max_edges};
ghost use Rattle.plan_compile.specs.Assembling.{AreCoded, codes_in};

use crate::bodies::Bodies;
use crate::build::Build;
use crate::edges::edges_of;
use crate::fault::CompileFault;
use crate::halves::edges_by_halves;
use crate::layout::Output;
use crate::numbers::Numbers;
use plan_image::Edges;
use std::alloc::Global;
use std::thread::Threads;

/// A way to generate the codes of edges.
pub(crate) trait Generator {
    /// The generator can be used: what its threads share may be shared.
    ghost ready: { Type 0 };

    /// Generates the codes of these edges. `newest` has the slot of each edge's newest input. Returns the edges and
    /// their bodies. Fails if a code has more places than a body may have.
    fn edges<'a>(
        &self,
        alloc: Global,
        table: &[Option<Output>],
        newest: &[u32],
        numbers: &[Numbers],
        builds: &[Build<'a>],
    ) -> Result<(Edges, Bodies), CompileFault>
        requires ready { Self.ready }
        requires long { length newest.now ≡ length builds.now }
        requires named { length numbers.now ≡ length builds.now }
        requires few { length builds.now ≤ max_edges }
        ensures { AreCoded numbers.now (codes_in table.now numbers.now newest.now builds.now) builds.now result };
}

/// Generates codes one after another.
#[derive(Clone, Copy)]
pub(crate) struct InOrder;

impl Generator for InOrder {
    ghost ready = { Unit {0} };

    fn edges<'a>(
        &self,
        alloc: Global,
        table: &[Option<Output>],
        newest: &[u32],
        numbers: &[Numbers],
        builds: &[Build<'a>],
    ) -> Result<(Edges, Bodies), CompileFault> {
        edges_of(alloc, table, newest, numbers, builds)
    }
}

/// How often edges are split in halves: for four threads.
const HALVINGS: u32 = 2;

/// Generates codes in several threads.
#[derive(Clone, Copy)]
pub(crate) struct SideBySide<'r, R> {
    pub(crate) rt: &'r R,
}

impl<'r, R: Threads + Sync> Generator for SideBySide<'r, R> {
    ghost use Rattle.std.specs.Thread.{IsSync};

    ghost ready = { IsSync R.row };

    fn edges<'a>(
        &self,
        alloc: Global,
        table: &[Option<Output>],
        newest: &[u32],
        numbers: &[Numbers],
        builds: &[Build<'a>],
    ) -> Result<(Edges, Bodies), CompileFault> {
        edges_by_halves(self.rt, alloc, table, newest, numbers, builds, HALVINGS)
    }
}
