//! The edges of a manifest, held in rows with their paths.

ghost use Rattle.std.specs.Prelude.{◌≡◌, ◌<◌, Some, length, slice_get, [], IfOk, OnErr, OnOk};
ghost use Rattle.plan_scope.specs.EdgeRows.{AreWithin, edges_in};
ghost use Rattle.plan_scope.specs.Extended.{added, changed_at};
ghost use Rattle.plan_scope.specs.TextLists.{whole};
ghost use Rattle.plan_scope.specs.EdgePlaces.{ArePlaced, paths_at};

use crate::edge::addition::Addition;
use crate::edge::extending::add_paths;
use crate::edge::paths::PathRows;
use crate::edge::text_list::{EdgeText, TextList, TextPool};
use crate::scope::path_range::PathRange;
use plan_text::RowList;
use std::alloc::{AllocError, Global};
use std::marker::Model;

/// The edges of a manifest in the order of their build lines. Contracts see a list of edges. The paths and the texts of
/// all edges share rows: an edge takes 44 bytes, and 4 bytes for each path and each text that isn't empty, in addition
/// to the bytes of its paths and texts. Chunks that long texts share are held once.
#[derive(Drop)]
pub struct EdgeList {
    rows: EdgeRows,
}

impl Model for EdgeList {
    ghost use Rattle.std.specs.Prelude.{List};
    ghost use Rattle.plan_scope.specs.Edge.{Edge};
    ghost use Rattle.plan_scope.specs.EdgeRows.{AreWithin, edges_in};

    ghost Value = { List Edge };

    ghost view = { λ e. edges_in e.rows };

    ghost invariant = { λ e. AreWithin e.rows };
}

impl EdgeList {
    /// Creates the list of the edges in these rows.
    pub(crate) fn new(rows: EdgeRows) -> EdgeList
        requires { AreWithin rows }
        ensures { result ≡ edges_in rows }
    {
        EdgeList { rows }
    }

    /// Returns the number of edges.
    pub fn len(&self) -> usize
        ensures { result ≡ length self.now }
    {
        self.rows.marks.len()
    }

    /// Returns the edge with this number, counted from 0.
    pub fn edge(&self, number: usize) -> EdgeRef<'_>
        requires { number < length self.now }
        ensures { slice_get self.now number ≡ Some result }
    {
        let marks = self.rows.marks[number];
        EdgeRef {
            paths: EdgePaths::new(&self.rows.paths.rows, marks.paths),
            texts: &self.rows.texts,
            marks,
        }
    }

    /// Adds paths to the edge with the addition's number, if there is one. The paths that the edge has are copied, so
    /// that they and the new ones follow one another.
    ///
    /// # Errors
    ///
    /// `AllocError` if memory runs out, or if all edges then had more than 4,294,967,295 paths. The edges stay as they
    /// are.
    pub fn extend(&mut self, alloc: Global, addition: &Addition) -> Result<(), AllocError>
        ensures added { OnOk result (self.new ≡ changed_at addition.now.edge (added addition.now) self.old) }
        ensures same { OnErr result (self.new ≡ self.old) }
    {
        add_paths(alloc, &mut self.rows, addition)
    }
}

/// An edge of a manifest: the outputs and inputs of a build line, and how the outputs are built. Its paths are
/// canonical.
#[derive(Drop)]
pub struct EdgeRef<'a> {
    paths: EdgePaths<'a>,
    texts: &'a TextList,
    marks: EdgeMarks,
}

impl<'a> Model for EdgeRef<'a> {
    ghost use Rattle.plan_scope.specs.Edge.{Edge};
    ghost use Rattle.plan_scope.specs.EdgeRows.{edge_with};

    ghost Value = { Edge };

    ghost view = { λ e. edge_with e.paths e.texts.now e.marks };
}

impl<'a> EdgeRef<'a> {
    /// Returns its explicit outputs.
    pub fn outputs(&self) -> PathRange<'a>
        ensures { result ≡ self.now.paths.outputs }
    {
        self.paths.outputs()
    }

    /// Returns its implicit outputs. There is at least one output, explicit or implicit.
    pub fn implicit_outputs(&self) -> PathRange<'a>
        ensures { result ≡ self.now.paths.implicit_outputs }
    {
        self.paths.implicit_outputs()
    }

    /// Returns its explicit inputs.
    pub fn inputs(&self) -> PathRange<'a>
        ensures { result ≡ self.now.paths.inputs }
    {
        self.paths.inputs()
    }

    /// Returns its implicit inputs.
    pub fn implicit_inputs(&self) -> PathRange<'a>
        ensures { result ≡ self.now.paths.implicit_inputs }
    {
        self.paths.implicit_inputs()
    }

    /// Returns its order-only inputs.
    pub fn order_only_inputs(&self) -> PathRange<'a>
        ensures { result ≡ self.now.paths.order_only_inputs }
    {
        self.paths.order_only_inputs()
    }

    /// Returns its command, which is empty for a phony edge.
    pub fn command(&self) -> EdgeText<'a>
        ensures { whole result ≡ self.now.command }
    {
        self.texts.text(self.marks.command as usize)
    }

    /// Returns its description. If it isn't empty, it is shown instead of the command.
    pub fn description(&self) -> EdgeText<'a>
        ensures { whole result ≡ self.now.description }
    {
        self.texts.text(self.marks.description as usize)
    }

    /// Returns the expanded path of its depfile, or an empty text if it has none.
    pub fn depfile(&self) -> EdgeText<'a>
        ensures { whole result ≡ self.now.depfile }
    {
        self.texts.text(self.marks.depfile as usize)
    }

    /// Checks whether `deps` is set: the depfile is read once, when the command has ended, and what it names is kept in
    /// the record. Otherwise the depfile stands for itself, also if something else writes it later.
    pub fn has_deps(&self) -> bool
        ensures { result ≡ self.now.deps }
    {
        self.marks.deps
    }

    /// Returns the name of its pool, or an empty text if it has none.
    pub fn pool(&self) -> EdgeText<'a>
        ensures { whole result ≡ self.now.pool }
    {
        self.texts.text(self.marks.pool as usize)
    }

    /// Checks whether `restat` is set: outputs that the command leaves unchanged count as if they had never needed
    /// building.
    pub fn has_restat(&self) -> bool
        ensures { result ≡ self.now.restat }
    {
        self.marks.restat
    }

    /// Checks whether `generator` is set: the edge builds the manifest's own files, and a change of only its command
    /// doesn't run it again.
    pub fn is_generator(&self) -> bool
        ensures { result ≡ self.now.generator }
    {
        self.marks.generator
    }

    /// Checks whether the edge is phony: it runs nothing and only gives its inputs other names.
    pub fn is_phony(&self) -> bool
        ensures { result ≡ self.now.phony }
    {
        self.marks.phony
    }
}

/// The places of an edge's paths and texts in the rows of all edges, and the edge's flags.
#[derive(Clone, Copy, Drop)]
pub struct EdgeMarks {
    /// The places of its paths.
    pub paths: PathPlaces,
    /// The number of its command among the texts.
    pub command: u32,
    /// The number of its description among the texts.
    pub description: u32,
    /// The number of its depfile's path among the texts.
    pub depfile: u32,
    /// The number of its pool's name among the texts.
    pub pool: u32,
    /// Whether its depfile is read once, when its command has ended.
    pub deps: bool,
    /// Whether outputs that its command leaves unchanged count as if they had never needed building.
    pub restat: bool,
    /// Whether it builds the manifest's own files. A change of only its command then doesn't run it again.
    pub generator: bool,
    /// Whether it is phony: it runs nothing and only gives its inputs other names.
    pub phony: bool,
}

/// Edges in their order. The rows of their paths and texts are shared by all edges.
#[derive(Drop)]
pub struct EdgeRows {
    /// The paths of all edges.
    pub paths: PathRows,
    /// The texts of all edges that aren't empty, after one empty text.
    pub texts: TextList,
    /// The places and flags of each edge.
    pub marks: Vec<EdgeMarks>,
    /// The pool of buffers for texts that are joined.
    pub spare: TextPool,
}

impl EdgeRows {
    /// Creates rows without an edge, with capacity for `edges` edges.
    pub fn new(alloc: Global, edges: usize) -> Result<EdgeRows, AllocError>
        ensures none { IfOk result (λ rows. edges_in rows ≡ []) }
        ensures within { IfOk result (λ rows. AreWithin rows) }
        ensures marks { IfOk result (λ rows. rows.marks.items ≡ []) }
    {
        let mut texts = TextList::new(alloc);
        texts.push(&[])?;
        Ok(EdgeRows {
            paths: PathRows::new(alloc)?,
            texts,
            marks: Vec::with_capacity(alloc, edges)?,
            spare: TextPool::new(alloc),
        })
    }
}

/// The places of an edge's lists of paths in the rows of all edges. Each list ends where the next one begins.
#[derive(Clone, Copy, Drop)]
pub struct PathPlaces {
    /// The number of the first explicit output.
    pub outputs: u32,
    /// The number of the first implicit output.
    pub implicit_outputs: u32,
    /// The number of the first explicit input.
    pub inputs: u32,
    /// The number of the first implicit input.
    pub implicit_inputs: u32,
    /// The number of the first order-only input.
    pub order_only_inputs: u32,
    /// The number after that of the last path.
    pub end: u32,
}

/// The paths of an edge. Contracts see their lists.
#[derive(Drop)]
pub struct EdgePaths<'a> {
    rows: &'a RowList<u8>,
    places: PathPlaces,
}

impl<'a> Model for EdgePaths<'a> {
    ghost use Rattle.std.specs.Prelude.{List, length};
    ghost use Rattle.plan_parse.specs.declared.compact.PathLists.{PathLists};
    ghost use Rattle.plan_scope.specs.Scopes.{Text};
    ghost use Rattle.plan_scope.specs.EdgePlaces.{ArePlaced, paths_at};

    ghost Value = { PathLists (List Text) };

    ghost view = { λ p. paths_at p.rows.now p.places };

    ghost invariant = { λ p. ArePlaced (length p.rows.now) p.places };
}

impl<'a> EdgePaths<'a> {
    /// Creates the view of the paths at these places.
    pub(crate) fn new(rows: &'a RowList<u8>, places: PathPlaces) -> EdgePaths<'a>
        requires { ArePlaced (length rows.now) places }
        ensures { result ≡ paths_at rows.now places }
    {
        EdgePaths { rows, places }
    }

    /// Returns the explicit outputs.
    pub fn outputs(&self) -> PathRange<'a>
        ensures { result ≡ self.now.outputs }
    {
        let (start, end) = (self.places.outputs, self.places.implicit_outputs);
        PathRange::new(self.rows, start as usize, end as usize)
    }

    /// Returns the implicit outputs.
    pub fn implicit_outputs(&self) -> PathRange<'a>
        ensures { result ≡ self.now.implicit_outputs }
    {
        let (start, end) = (self.places.implicit_outputs, self.places.inputs);
        PathRange::new(self.rows, start as usize, end as usize)
    }

    /// Returns the explicit inputs.
    pub fn inputs(&self) -> PathRange<'a>
        ensures { result ≡ self.now.inputs }
    {
        let (start, end) = (self.places.inputs, self.places.implicit_inputs);
        PathRange::new(self.rows, start as usize, end as usize)
    }

    /// Returns the implicit inputs.
    pub fn implicit_inputs(&self) -> PathRange<'a>
        ensures { result ≡ self.now.implicit_inputs }
    {
        let (start, end) = (self.places.implicit_inputs, self.places.order_only_inputs);
        PathRange::new(self.rows, start as usize, end as usize)
    }

    /// Returns the order-only inputs.
    pub fn order_only_inputs(&self) -> PathRange<'a>
        ensures { result ≡ self.now.order_only_inputs }
    {
        let (start, end) = (self.places.order_only_inputs, self.places.end);
        PathRange::new(self.rows, start as usize, end as usize)
    }
}
