//! The paths that targets need.

ghost use Rattle.std.specs.Prelude.{◌≡◌, [], All, IfOk, IfSome, OnOk, false, get_or, slice_get};
ghost use Rattle.plan_tools.specs.Need as defined;
ghost use Rattle.plan_tools.specs.Need.{AreInputsMet, AreNeededFlags, IsExpanded, IsMet, IsPathNeeded, MeetsMore};

use plan_graph::Graph;
use plan_text::Memory;
use std::alloc::Global;
use std::marker::Model;

/// A search for the paths that targets need, breadth first.
#[derive(Drop)]
struct Search<'a, 'g> {
    graph: &'a Graph<'g>,
    targets: &'a [u32],
    /// Whether each path was met.
    met: Vec<bool>,
    /// The paths that were met, in this order.
    queue: Vec<u32>,
    /// Whether the inputs of each edge were met.
    read: Vec<bool>,
}

impl<'a, 'g> Model for Search<'a, 'g> {
    ghost use Rattle.plan_tools.specs.Need.{IsSearch, Reached};

    ghost Value = { Reached };

    ghost view = { λ s. record { graph = s.graph.now; targets = s.targets.now; met = s.met.items; queue = s.queue.items; read = s.read.items } };

    ghost invariant = { λ s. IsSearch (record { graph = s.graph.now; targets = s.targets.now; met = s.met.items; queue = s.queue.items; read = s.read.items }) };
}

impl<'a, 'g> Search<'a, 'g> {
    /// Creates a search that met no path.
    fn new(
        alloc: Global,
        graph: &'a Graph<'g>,
        targets: &'a [u32],
    ) -> Result<Search<'a, 'g>, Memory>
        ensures graph { IfOk result (λ search. search.graph ≡ graph.now) }
        ensures targets { IfOk result (λ search. search.targets ≡ targets.now) }
    {
        Ok(Search {
            graph,
            targets,
            met: vec![in alloc; false; graph.files.len()]?,
            queue: Vec::new(alloc),
            read: vec![in alloc; false; graph.inputs.len()]?,
        })
    }

    /// Meets a path, unless it was met.
    fn meet(&mut self, path: u32) -> Result<(), Memory>
        requires { IsPathNeeded self.old.graph self.old.targets path }
        ensures more { MeetsMore self.old self.new }
        ensures met { OnOk result (IsMet self.new path) }
    {
        let place = path as usize;
        if place >= self.met.len() || self.met[place] {
            return Ok(());
        }
        self.queue.push(path)?;
        self.met[place] = true;
        Ok(())
    }

    /// Meets some paths.
    fn meet_all(&mut self, paths: &[u32]) -> Result<(), Memory>
        requires { All (IsPathNeeded self.old.graph self.old.targets) paths.now }
        ensures more { MeetsMore self.old self.new }
        ensures met { OnOk result (All (IsMet self.new) paths.now) }
    {
        for path in paths {
            self.meet(*path)?;
        }
        Ok(())
    }

    /// Checks whether the inputs of an edge were met.
    fn is_read(&self, edge: u32) -> bool
        ensures { result ≡ get_or self.now.read edge false }
    {
        match self.read.get(edge as usize) {
            Some(flag) => *flag,
            None => false,
        }
    }

    /// Notes that the inputs of an edge were met.
    fn set_read(&mut self, edge: u32)
        requires { AreInputsMet self.old edge }
        ensures more { MeetsMore self.old self.new }
        ensures same { (self.new.met ≡ self.old.met) × (self.new.graph ≡ self.old.graph) }
    {
        let place = edge as usize;
        if place < self.read.len() {
            self.read[place] = true;
        }
    }

    /// Meets the inputs of an edge.
    fn read_edge(&mut self, edge: u32) -> Result<(), Memory>
        requires { All (IsPathNeeded self.old.graph self.old.targets) (get_or self.old.graph.inputs edge []) }
        ensures more { MeetsMore self.old self.new }
        ensures met { OnOk result (AreInputsMet self.new edge) }
    {
        if self.is_read(edge) {
            return Ok(());
        }
        let graph = self.graph;
        self.meet_all(graph.inputs.row(edge as usize))?;
        self.set_read(edge);
        Ok(())
    }

    /// Meets the inputs of the edge that makes a path.
    fn expand(&mut self, path: u32) -> Result<(), Memory>
        requires { IsPathNeeded self.old.graph self.old.targets path }
        ensures more { MeetsMore self.old self.new }
        ensures met { OnOk result (IsExpanded self.new path) }
    {
        match self.graph.files.producer_at(path as usize) {
            Some(edge) => self.read_edge(edge),
            None => Ok(()),
        }
    }

    /// Returns a path of the queue.
    fn queue_entry(&self, number: usize) -> Option<u32>
        ensures value { result ≡ slice_get self.now.queue number }
        ensures needed { IfSome result (λ path. IsPathNeeded self.now.graph self.now.targets path) }
    {
        self.queue.get(number).copied()
    }

    /// Meets the inputs of all edges that make a path which was met, or is.
    fn expand_all(&mut self) -> Result<(), Memory>
        ensures more { MeetsMore self.old self.new }
        ensures met { OnOk result (All (IsExpanded self.new) self.new.queue) }
    {
        for number in 0..usize::MAX {
            match self.queue_entry(number) {
                Some(path) => self.expand(path)?,
                None => return Ok(()),
            }
        }
        Err(Memory)
    }

    /// Returns the flags of the paths that were met, if these are all.
    fn into_flags(self) -> Vec<bool>
        requires targets { All (IsMet self) self.targets }
        requires queue { All (IsExpanded self) self.queue }
        ensures { AreNeededFlags self.entry.graph self.entry.targets result.items }
    {
        let Search { met, .. } = self;
        met
    }
}

/// Returns a flag for each path of the graph, set if targets need it: if it is one of them, or an input of an edge that
/// makes a path which they need.
///
/// # Errors
/// Memory runs out.
pub fn needed_paths(alloc: Global, graph: &Graph<'_>, targets: &[u32]) -> Result<Vec<bool>, Memory>
    ensures { IfOk result (λ flags. AreNeededFlags graph.now targets.now flags.items) }
{
    let mut search = Search::new(alloc, graph, targets)?;
    search.meet_all(targets)?;
    search.expand_all()?;
    Ok(search.into_flags())
}
