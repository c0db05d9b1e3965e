//! Finds the wanted edges by a walk along waits, over the fixed data of an image.

ghost use Rattle.std.specs.Prelude.{◌≡◌, ℕ, ◌<◌, false, true, [], ◌∷◌, List, length, replicate, All, Some, IfOk, OnOk, slice_get, slice_set, ◌^◌, map};
ghost use Rattle.std.specs.List.{list_any};
ghost use Rattle.plan_verify.specs.WellShaped.{IsWellShaped};
ghost use Rattle.plan_machine.specs.Wanted.{AreWanted, any_outside, chosen};
ghost use Rattle.plan_machine.specs.Walk.{IsNext, meet, meet_all};
ghost use Rattle.plan_image.specs.declared.image.Pool.{Pool as Row};
ghost use Rattle.plan_image.specs.Spelling.{HasSpelling, pool_number};
ghost use Rattle.plan_verify.specs.Tables.{pool_of, waits_of};
ghost use Rattle.plan_machine.specs.Firsts.{first_of};
ghost use Rattle.plan_machine.specs.Kept.{IsPlanOf};

use crate::edge::turns::{edge_count, pool, waits};
use plan_image::{Parts, Pool};
use plan_schedule::{Numbers, Plan, plan_of};
use plan_verify::tables_are_in_range;
use std::alloc::{AllocError, Global};
use std::marker::Model;

/// The edges that a walk has met, and those from which it hasn't continued yet.
#[derive(Drop)]
struct Walk {
    met: Vec<bool>,
    ahead: Vec<u32>,
}

impl Model for Walk {
    ghost use Rattle.std.specs.Prelude.{reverse};
    ghost use Rattle.plan_machine.specs.Walk.{Walked};

    ghost Value = { Walked };

    ghost view = { λ w. record { met = w.met.items; ahead = reverse w.ahead.items } };
}

impl Walk {
    /// Creates a walk that has met no edge.
    fn start(alloc: Global, edges: usize) -> Result<Walk, AllocError>
        ensures { IfOk result (λ w. w ≡ record { met = replicate edges false; ahead = [] }) }
    {
        Ok(Walk {
            met: vec![in alloc; false; edges]?,
            ahead: Vec::new(alloc),
        })
    }

    /// Returns whether an edge was met.
    fn is_met(&self, e: u32) -> bool
        requires { e < length self.now.met }
        ensures { slice_get self.now.met e ≡ Some result }
    {
        self.met[e as usize]
    }

    /// Adds an edge that wasn't met before.
    fn add(&mut self, e: u32) -> Result<(), AllocError>
        requires { e < length self.old.met }
        ensures { OnOk result (self.new ≡ record { met = slice_set self.old.met e true; ahead = e ∷ self.old.ahead }) }
    {
        self.ahead.push(e)?;
        self.met[e as usize] = true;
        Ok(())
    }

    /// Adds an edge unless it was met before.
    #[tactic(auto, using(crate::proofs::WantedLemmas::meets_old, crate::proofs::WantedLemmas::meets_new))]
    fn meet(&mut self, e: u32) -> Result<(), AllocError>
        requires { e < length self.old.met }
        ensures { OnOk result (self.new ≡ meet self.old e) }
    {
        if self.is_met(e) {
            return Ok(());
        }
        self.add(e)
    }

    /// Adds each of these edges unless it was met before.
    #[tactic(auto, using(crate::proofs::WantedLemmas::meet_long))]
    fn meet_all(&mut self, edges: &[u32]) -> Result<(), AllocError>
        requires { All (λ e. e < length self.old.met) edges.now }
        ensures { OnOk result (self.new ≡ meet_all self.old edges.now) }
    {
        for e in edges {
            self.meet(*e)?;
        }
        Ok(())
    }

    /// Removes and returns an edge from which to continue. Returns None if none is left.
    fn next(&mut self) -> Option<u32>
        ensures { IsNext self.old result self.new }
    {
        self.ahead.pop()
    }

    /// Returns, for each edge, whether it was met.
    fn into_met(self) -> Vec<bool>
        ensures { result.items ≡ self.met }
    {
        self.met
    }
}

/// Returns the targets, or the image's defaults if there are no targets.
fn chosen_targets<'a>(parts: &'a Parts, targets: &'a [u32]) -> &'a [u32]
    ensures { result.now ≡ chosen parts.now targets.now }
{
    if targets.is_empty() {
        return parts.defaults.as_slice();
    }
    targets
}

/// Returns whether one of these is no edge of the image.
pub(crate) fn any_outside(parts: &Parts, targets: &[u32]) -> bool
    ensures { result ≡ any_outside parts.now targets.now }
{
    let edges = edge_count(parts);
    targets.iter().any(|e| edges <= *e as usize)
}

/// Returns, for each edge of a well-shaped image, whether it is wanted: whether it is a target, or a wanted edge waits
/// for it. If there are no targets, the image's defaults are used.
pub fn wanted_edges(alloc: Global, parts: &Parts, targets: &[u32]) -> Result<Vec<bool>, AllocError>
    requires shaped { IsWellShaped parts.now }
    requires inside { any_outside parts.now targets.now ≡ false }
    ensures { IfOk result (λ w. AreWanted parts.now targets.now w.items) }
{
    tables_are_in_range();
    let mut walk = Walk::start(alloc, edge_count(parts))?;
    walk.meet_all(chosen_targets(parts, targets))?;
    while let Some(e) = walk.next() {
        walk.meet_all(waits(parts, e))?;
    }
    Ok(walk.into_met())
}

/// Returns the waits of each edge.
fn all_waits(alloc: Global, parts: &Parts) -> Result<Vec<Numbers>, AllocError>
    requires { length parts.now.edges < 2 ^ 32 }
    ensures { IfOk result (λ v. v.items ≡ first_of (waits_of parts.now) (length parts.now.edges)) }
{
    let count = edge_count(parts);
    let mut rows = Vec::with_capacity(alloc, count)?;
    for edge in 0..count as u32 {
        rows.push(Numbers::of(alloc, waits(parts, edge))?)?;
    }
    Ok(rows)
}

/// Returns the number of a pool, counted from 1. Returns 0 for no pool.
fn pool_number(pool: Option<u32>) -> u32
    requires { pool_number pool < 2 ^ 32 }
    ensures { result ≡ pool_number pool }
{
    match pool {
        Some(pool) => pool + 1,
        None => 0,
    }
}

/// Returns the number of each edge's pool.
fn all_pools(alloc: Global, parts: &Parts) -> Result<Vec<u32>, AllocError>
    requires few { length parts.now.edges < 2 ^ 32 }
    requires small { (e : ℕ) → pool_number (pool_of parts.now e) < 2 ^ 32 }
    ensures { IfOk result (λ v. v.items ≡ first_of (λ e. pool_number (pool_of parts.now e)) (length parts.now.edges)) }
{
    let count = edge_count(parts);
    let mut numbers = Vec::with_capacity(alloc, count)?;
    for edge in 0..count as u32 {
        numbers.push(pool_number(pool(parts, edge)))?;
    }
    Ok(numbers)
}

/// Returns the depth of each pool, after a 0 for no pool.
fn all_depths(alloc: Global, pools: &[Pool]) -> Result<Vec<u32>, AllocError>
    ensures { IfOk result (λ v. v.items ≡ 0 ∷ map (λ (pool : Row). pool.depth) pools.now) }
{
    let mut depths = Vec::new(alloc);
    depths.push(0)?;
    for pool in pools {
        depths.push(pool.depth)?;
    }
    Ok(depths)
}

/// Returns the data of an image that the schedule needs.
pub(crate) fn image_plan(alloc: Global, parts: &Parts) -> Result<Plan, AllocError>
    requires shaped { IsWellShaped parts.now }
    requires spelled { HasSpelling parts.now }
    ensures { IfOk result (λ plan. IsPlanOf parts.now plan) }
{
    tables_are_in_range();
    let waits = all_waits(alloc, parts)?;
    let pools = all_pools(alloc, parts)?;
    let depths = all_depths(alloc, parts.pools.as_slice())?;
    plan_of(alloc, waits, pools, depths)
}
