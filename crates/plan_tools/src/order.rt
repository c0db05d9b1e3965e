//! The order in which edges can be run one at a time.

ghost use Rattle.std.specs.Prelude.{◌≡◌, ◌<◌, ℕ, [], All, Contains, IfOk, IfSome, OnOk, Some, false, get_or, length};
ghost use Rattle.plan_graph.specs.Files.{producer_at};
ghost use Rattle.plan_tools.specs.Order as defined;
ghost use Rattle.plan_tools.specs.Order.{GoesOn, IsBuildOrder, IsNeeded};

use plan_graph::Graph;
use std::alloc::{AllocError, AllocFailed, Global};
use std::marker::Model;

/// Why there is no order.
#[derive(Clone, Copy, PartialEq, Eq)]
pub enum OrderFault {
    /// Memory ran out.
    Memory,
    /// A target is no edge, or edges wait for each other: neither occurs with targets of a manifest that has a graph.
    Unordered,
}

impl From<AllocError> for OrderFault {
    fn from(_fault: AllocError) -> OrderFault {
        OrderFault::Memory
    }
}

impl<T: Drop> From<AllocFailed<T>> for OrderFault {
    fn from(_fault: AllocFailed<T>) -> OrderFault {
        OrderFault::Memory
    }
}

/// A walk from targets to what they need, depth first.
#[derive(Drop)]
struct Walk<'a, 'g> {
    graph: &'a Graph<'g>,
    targets: &'a [u32],
    /// Whether each edge was met.
    met: Vec<bool>,
    /// How many inputs of each edge were passed.
    passed: Vec<usize>,
    /// Whether each edge is in the order.
    done: Vec<bool>,
    /// The edges that were left, in the order in which they were.
    order: Vec<u32>,
    /// The edges that were met and not left, each of which makes an input of the one before it.
    path: Vec<u32>,
}

impl<'a, 'g> Model for Walk<'a, 'g> {
    ghost use Rattle.plan_tools.specs.Order.{IsWalk, Walked};

    ghost Value = { Walked };

    ghost view = { λ w. record { graph = w.graph.now; targets = w.targets.now; done = w.done.items; order = w.order.items; path = w.path.items } };

    ghost invariant = { λ w. IsWalk (record { graph = w.graph.now; targets = w.targets.now; done = w.done.items; order = w.order.items; path = w.path.items }) };
}

/// Refuses an edge that isn't done.
fn check_done(edge: u32, done: &[bool]) -> Result<(), OrderFault>
    ensures { OnOk result (defined.is_done done.now edge) }
{
    match done.get(edge as usize) {
        Some(true) => Ok(()),
        Some(false) | None => Err(OrderFault::Unordered),
    }
}

/// Refuses edges not all of which are done.
fn check_all_done(edges: &[u32], done: &[bool]) -> Result<(), OrderFault>
    ensures { OnOk result (All (defined.is_done done.now) edges.now) }
{
    for edge in edges {
        check_done(*edge, done)?;
    }
    Ok(())
}

/// Refuses an edge that is done, and what is no edge.
fn check_left(edge: u32, done: &[bool]) -> Result<(), OrderFault>
    ensures within { OnOk result (edge < length done.now) }
    ensures fresh { OnOk result (get_or done.now edge false ≡ false) }
{
    match done.get(edge as usize) {
        Some(false) => Ok(()),
        Some(true) | None => Err(OrderFault::Unordered),
    }
}

/// The edge that makes an input of an edge: the one behind so many.
fn maker_of_input(graph: &Graph<'_>, edge: u32, passed: usize) -> Option<u32>
    ensures { IfSome result (λ w. (n : ℕ) × Contains (get_or graph.now.inputs edge []) n × (producer_at graph.now.files n ≡ Some w)) }
{
    let inputs = graph.inputs.row(edge as usize);
    if passed >= inputs.len() {
        return None;
    }
    match graph.files.producer_at(inputs[passed] as usize) {
        Some(maker) => Some(maker),
        None => None,
    }
}

impl<'a, 'g> Walk<'a, 'g> {
    /// A walk that has met no edge.
    fn new(
        alloc: Global,
        graph: &'a Graph<'g>,
        targets: &'a [u32],
    ) -> Result<Walk<'a, 'g>, AllocError>
        ensures { IfOk result (λ walk. (walk.graph ≡ graph.now) × (walk.targets ≡ targets.now)) }
    {
        let edges = graph.outputs.len();
        Ok(Walk {
            graph,
            targets,
            met: vec![in alloc; false; edges]?,
            passed: vec![in alloc; 0; edges]?,
            done: vec![in alloc; false; edges]?,
            order: Vec::new(alloc),
            path: Vec::new(alloc),
        })
    }

    /// Goes to an edge, unless it was met.
    fn enter(&mut self, edge: u32) -> Result<(), OrderFault>
        requires { IsNeeded self.old.graph self.old.targets edge }
        ensures { GoesOn self.old self.new }
    {
        let number = edge as usize;
        if number >= self.met.len() || self.met[number] {
            return Ok(());
        }
        self.path.push(edge)?;
        self.met[number] = true;
        Ok(())
    }

    /// Leaves the last edge of the path, and puts it behind the others.
    fn leave(&mut self, last: u32) -> Result<(), OrderFault>
        requires { IsNeeded self.old.graph self.old.targets last }
        ensures { GoesOn self.old self.new }
    {
        let _ = self.path.pop();
        check_left(last, &self.done)?;
        check_all_done(self.graph.waits.row(last as usize), &self.done)?;
        self.order.push(last)?;
        self.done[last as usize] = true;
        Ok(())
    }

    /// Goes on from the last edge of the path: to the edge that makes its next input, or back from it.
    fn step(&mut self, last: u32) -> Result<(), OrderFault>
        requires { IsNeeded self.old.graph self.old.targets last }
        ensures { GoesOn self.old self.new }
    {
        let number = last as usize;
        if number >= self.passed.len() {
            return Err(OrderFault::Unordered);
        }
        let passed = self.passed[number];
        if passed >= self.graph.inputs.row(number).len() {
            return self.leave(last);
        }
        self.passed[number] = passed + 1;
        match maker_of_input(self.graph, last, passed) {
            Some(maker) => self.enter(maker),
            None => Ok(()),
        }
    }

    /// The last edge of the path.
    fn last(&self) -> Option<u32>
        ensures { IfSome result (λ e. IsNeeded self.now.graph self.now.targets e) }
    {
        self.path.last().copied()
    }

    /// Goes through an edge and all that it needs.
    fn visit(&mut self, edge: u32) -> Result<(), OrderFault>
        requires { IsNeeded self.old.graph self.old.targets edge }
        ensures { GoesOn self.old self.new }
    {
        self.enter(edge)?;
        for _ in 0..u64::MAX {
            match self.last() {
                Some(last) => self.step(last)?,
                None => return Ok(()),
            }
        }
        Err(OrderFault::Unordered)
    }

    /// The order, if all targets are done.
    fn into_order(self) -> Result<Vec<u32>, OrderFault>
        ensures { IfOk result (λ order. IsBuildOrder self.entry.graph self.entry.targets order.items) }
    {
        check_all_done(self.targets, &self.done)?;
        let Walk { order, .. } = self;
        Ok(order)
    }
}

/// Returns the edges that some edges need, and these, in an order in which they can be run one at a time: each behind
/// all that it waits for. It is ninja's: depth first, along the inputs of an edge in the order in which its build line
/// names them.
///
/// # Errors
/// Memory runs out, or there is no such order.
pub fn build_order(
    alloc: Global,
    graph: &Graph<'_>,
    targets: &[u32],
) -> Result<Vec<u32>, OrderFault>
    ensures { IfOk result (λ order. IsBuildOrder graph.now targets.now order.items) }
{
    let mut walk = Walk::new(alloc, graph, targets)?;
    for target in targets {
        walk.visit(*target)?;
    }
    walk.into_order()
}
