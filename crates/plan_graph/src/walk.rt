//! A walk along waits, which computes the rank of each edge or finds a cycle.

ghost use Rattle.std.specs.Prelude.{◌≡◌, ◌≢◌, ◌<◌, ◌≤◌, ◌+◌, ◌++◌, ◌∷◌, [], ℕ, List, All, IfErr, IfOk, OnOk, Some, get_or, length, slice_get, slice_index, ◌^◌, IsFalse, IsTrue};
ghost use Rattle.plan_graph.specs.Graph.{max_edges};
ghost use Rattle.plan_graph.specs.Cycles.{AreRanks, Chain, rank_over};
ghost use Rattle.plan_graph.specs.Walking.{AllDone, DoneTo, GoesOn, HasMet, InRange, IsLast, IsNext, IsUntrodden, TellsCycle};
ghost use Rattle.plan_graph.specs.declared.walk.Mark.TheVariants as mark;

use crate::cycle::cycle_from;
use crate::fault::GraphFault;
use plan_text::{Items, RowList};
use std::alloc::{AllocError, Global};
use std::marker::Model;

/// A walk along waits. A contract sees the waits of each edge, the marks and the path.
#[derive(Drop)]
struct Walk<'a> {
    alloc: Global,
    /// The waits of each edge.
    waits: &'a RowList<u32>,
    /// The progress with each edge.
    marks: Vec<Mark>,
    /// For each edge, the number of its waits that were passed, which are done.
    passed: Vec<usize>,
    /// The rank of each edge that is done.
    ranks: Vec<u32>,
    /// The open edges, each of which waits for the next.
    path: Vec<usize>,
}

impl<'a> Model for Walk<'a> {
    ghost use Rattle.plan_graph.specs.Walking.{IsSound, State};

    ghost Value = { State };

    ghost view = { λ w. record { waits = w.waits.now; marks = w.marks.items; path = w.path.items } };

    ghost invariant = { λ w. IsSound w.waits.now w.marks.items w.passed.items w.ranks.items w.path.items };
}

/// Returns one more than the greatest rank of a row, or 0 if the row is empty.
fn rank_of(row: &[u32], ranks: &[u32]) -> u32
    requires within { All (λ w. w < length ranks.now) row.now }
    requires low { All (λ w. slice_index ranks.now w + 1 < 2 ^ 32) row.now }
    ensures { result ≡ rank_over ranks.now row.now }
{
    let mut greatest = 0;
    for wait in row {
        greatest = greatest.max(ranks[*wait as usize] + 1);
    }
    greatest
}

/// Returns the number of edges at the front of a row that are done. At least `known` are known to be done.
fn done_len(row: &[u32], marks: &[Mark], known: usize) -> usize
    requires range { All (λ w. w < length marks.now) row.now }
    requires known { (known ≤ length row.now) × DoneTo marks.now row.now known }
    ensures within { result ≤ length row.now }
    ensures done { DoneTo marks.now row.now result }
    ensures stops { result < length row.now → slice_get marks.now (slice_index row.now result) ≢ Some mark.Done }
{
    let mut len = known;
    while len < row.len() {
        if !is_done(marks[row[len] as usize]) {
            return len;
        }
        len += 1;
    }
    len
}

impl<'a> Walk<'a> {
    /// Creates a walk that has met no edge.
    fn new(alloc: Global, waits: &'a RowList<u32>) -> Result<Walk<'a>, AllocError>
        requires range { InRange waits.now }
        requires few { length waits.now ≤ max_edges }
        ensures { IfOk result (λ walk. IsUntrodden waits.now walk) }
    {
        let edges = waits.len();
        Ok(Walk {
            alloc,
            waits,
            marks: vec![in alloc; Mark::New; edges]?,
            passed: vec![in alloc; 0; edges]?,
            ranks: vec![in alloc; 0; edges]?,
            path: Vec::new(alloc),
        })
    }

    /// Returns the last edge of the path. Returns None if the path is empty.
    fn last(&self) -> Option<usize>
        ensures { IsLast self.now.path result }
    {
        self.path.last().copied()
    }

    /// Opens an edge that the last edge of the path waits for.
    fn open(&mut self, next: usize) -> Result<(), AllocError>
        requires fresh { slice_get self.old.marks next ≡ Some mark.New }
        requires waited { Chain self.old.waits (self.old.path ++ next ∷ []) }
        ensures goes_on { OnOk result (GoesOn self.old self.new) }
        ensures met { OnOk result (slice_get self.new.marks next ≢ Some mark.New) }
    {
        self.path.push(next)?;
        self.marks[next] = Mark::Open;
        Ok(())
    }

    /// Closes the last edge of the path, all of whose waits are done.
    fn close(&mut self, top: usize)
        requires last { (front : List ℕ) × (self.old.path ≡ front ++ top ∷ []) }
        requires done { AllDone self.old.marks (get_or self.old.waits top []) }
        ensures { GoesOn self.old self.new }
    {
        self.ranks[top] = rank_of(self.waits.row(top), &self.ranks);
        self.marks[top] = Mark::Done;
        let _ = self.path.pop();
    }

    /// Passes the waits of the last edge that are done. Returns the first one that isn't, or None if all are.
    fn pass(&mut self, top: usize) -> Option<usize>
        requires { (front : List ℕ) × (self.old.path ≡ front ++ top ∷ []) }
        ensures same { self.new ≡ self.old }
        ensures next { IsNext self.new top result }
    {
        let row = self.waits.row(top);
        let passed = done_len(row, &self.marks, self.passed[top]);
        self.passed[top] = passed;
        if passed == row.len() {
            return None;
        }
        Some(row[passed] as usize)
    }

    /// Returns the cycle that the path closes. Its last edge waits for an open edge.
    fn cycle(&self, next: usize) -> GraphFault
        requires opened { slice_get self.now.marks next ≡ Some mark.Open }
        requires waited { Chain self.now.waits (self.now.path ++ next ∷ []) }
        ensures { TellsCycle self.now.waits result }
    {
        cycle_from(self.alloc, self.waits, &self.path, next)
    }

    /// Opens an edge that the last edge of the path waits for. If it is already open, returns the cycle as an
    /// error.
    fn open_or_cycle(&mut self, next: usize) -> Result<(), GraphFault>
        requires here { next < length self.old.waits }
        requires undone { slice_get self.old.marks next ≢ Some mark.Done }
        requires waited { Chain self.old.waits (self.old.path ++ next ∷ []) }
        ensures goes_on { OnOk result (GoesOn self.old self.new) }
        ensures cycle { IfErr result (λ fault. TellsCycle self.old.waits fault) }
    {
        if !is_new(self.marks[next]) {
            return Err(self.cycle(next));
        }
        self.open(next)?;
        Ok(())
    }

    /// Makes one step from the last edge of the path: opens an edge that it waits for, or closes it.
    fn step(&mut self, top: usize) -> Result<(), GraphFault>
        requires { (front : List ℕ) × (self.old.path ≡ front ++ top ∷ []) }
        ensures goes_on { OnOk result (GoesOn self.old self.new) }
        ensures cycle { IfErr result (λ fault. TellsCycle self.old.waits fault) }
    {
        match self.pass(top) {
            Some(next) => self.open_or_cycle(next)?,
            None => self.close(top),
        }
        Ok(())
    }

    /// Walks from an edge until it and all edges that it waits for are done.
    fn visit(&mut self, start: usize) -> Result<(), GraphFault>
        requires empty { self.old.path ≡ [] }
        requires fresh { slice_get self.old.marks start ≡ Some mark.New }
        ensures met { OnOk result (HasMet start self.old self.new) }
        ensures cycle { IfErr result (λ fault. TellsCycle self.old.waits fault) }
    {
        self.open(start)?;
        while let Some(top) = self.last() {
            self.step(top)?;
        }
        Ok(())
    }

    /// Walks from an edge, unless the walk has met it.
    fn visit_unless_met(&mut self, edge: usize) -> Result<(), GraphFault>
        requires empty { self.old.path ≡ [] }
        requires here { edge < length self.old.waits }
        ensures met { OnOk result (HasMet edge self.old self.new) }
        ensures cycle { IfErr result (λ fault. TellsCycle self.old.waits fault) }
    {
        if is_new(self.marks[edge]) {
            self.visit(edge)?;
        }
        Ok(())
    }

    /// Returns the rank of each edge, when the walk has met all edges.
    fn into_ranks(self) -> Items<u32>
        requires empty { self.path ≡ [] }
        requires met { (e : ℕ) → e < length self.waits → slice_get self.marks e ≢ Some mark.New }
        ensures ranks { AreRanks self.entry.waits result }
        ensures low { All (λ rank. rank < length self.entry.waits) result }
    {
        let Walk { ranks, .. } = self;
        Items::new(ranks)
    }
}

/// Returns the rank of each edge, given its waits, or a cycle as an error.
pub fn ranks(alloc: Global, waits: &RowList<u32>) -> Result<Items<u32>, GraphFault>
    requires range { InRange waits.now }
    requires few { length waits.now ≤ max_edges }
    ensures ranks { IfOk result (λ r. AreRanks waits.now r) }
    ensures low { IfOk result (λ r. All (λ k. k < length waits.now) r) }
    ensures cycle { IfErr result (λ fault. TellsCycle waits.now fault) }
{
    let mut walk = Walk::new(alloc, waits)?;
    for edge in 0..waits.len() {
        walk.visit_unless_met(edge)?;
    }
    Ok(walk.into_ranks())
}

/// The progress of a walk with an edge.
#[derive(Clone, Copy, Drop)]
pub enum Mark {
    /// The walk has not met it.
    New,
    /// The walk has met it, and not yet finished its waits.
    Open,
    /// It has its rank.
    Done,
}

/// Returns whether an edge is done.
pub fn is_done(mark: Mark) -> bool
    ensures yes { IsTrue result → mark ≡ Mark.Done }
    ensures no { IsFalse result → mark ≢ Mark.Done }
{
    match mark {
        Mark::Done => true,
        Mark::New => false,
        Mark::Open => false,
    }
}

/// Returns whether the walk has not met an edge.
pub fn is_new(mark: Mark) -> bool
    ensures yes { IsTrue result → mark ≡ Mark.New }
    ensures no { IsFalse result → mark ≢ Mark.New }
{
    match mark {
        Mark::New => true,
        Mark::Open => false,
        Mark::Done => false,
    }
}
