//! The order in which edges take job tokens.

use crate::phase::Phase;
use crate::plan::Plan;
use std::alloc::{AllocError, Global};
use std::collections::BinaryHeap;

/// The edges at Take of each pool, by priority. First come those with the longest chain of edges behind them, as these
/// chains decide how long a build takes, and among these the first one of the image. It only says which edge is chosen
/// if several can take a job token: an edge that has left Take may still be listed, and a listed one may be missing.
#[derive(Drop)]
pub struct ReadyQueues {
    /// For each edge, the number of edges in the longest chain of edges that wait for it.
    heights: Vec<u32>,
    /// For each pool, the keys of edges that came to Take. The greatest key is taken first.
    queues: Vec<BinaryHeap<u64>>,
}

/// Checks whether an edge is at Take.
fn is_at_take(phases: &[Phase], edge: u32) -> bool {
    matches!(phases.get(edge as usize), Some(Phase::AtTake(_)))
}

/// Returns the key of an edge.
fn key_of(height: u32, edge: u32) -> u64 {
    (u64::from(height) << 32) | u64::from(u32::MAX - edge)
}

/// Returns the edge that has a key.
fn edge_of(key: u64) -> u32 {
    u32::MAX - (key & 0xffff_ffff) as u32
}

/// The edges of a plan, each of which is visited after all edges that wait for it.
#[derive(Drop)]
struct Walk {
    heights: Vec<u32>,
    /// For each edge, the number of edges that wait for it and weren't visited.
    unvisited: Vec<u32>,
    /// The edges that can be visited next.
    next: Vec<u32>,
}

impl Walk {
    /// Creates a walk that begins with the edges for which no edge waits.
    fn new(alloc: Global, plan: &Plan) -> Result<Walk, AllocError> {
        let edges = plan.dependents.len();
        let mut walk = Walk {
            heights: vec![in alloc; 0; edges]?,
            unvisited: Vec::with_capacity(alloc, edges)?,
            next: Vec::with_capacity(alloc, edges)?,
        };
        let mut edge = 0u32;
        for dependents in &plan.dependents {
            let count = dependents.as_slice().len();
            walk.unvisited
                .push(u32::try_from(count).unwrap_or(u32::MAX))?;
            if count == 0 {
                walk.next.push(edge)?;
            }
            edge = edge.saturating_add(1);
        }
        Ok(walk)
    }

    /// Notes that an edge which waits for `wait` was visited, and has this height.
    fn raise(&mut self, wait: u32, height: u32) -> Result<(), AllocError> {
        let at = wait as usize;
        if let Some(known) = self.heights.get_mut(at) {
            *known = (*known).max(height.saturating_add(1));
        }
        if let Some(left) = self.unvisited.get_mut(at) {
            *left = left.saturating_sub(1);
            if *left == 0 {
                self.next.push(wait)?;
            }
        }
        Ok(())
    }

    /// Visits an edge: raises the edges that it waits for.
    fn visit(&mut self, plan: &Plan, edge: u32) -> Result<(), AllocError> {
        let at = edge as usize;
        let height = self.heights.get(at).copied().unwrap_or(0);
        let Some(waits) = plan.waits.get(at) else {
            return Ok(());
        };
        for wait in waits.as_slice() {
            self.raise(*wait, height)?;
        }
        Ok(())
    }
}

/// Returns the height of each edge.
fn heights_of(alloc: Global, plan: &Plan) -> Result<Vec<u32>, AllocError> {
    let mut walk = Walk::new(alloc, plan)?;
    for _ in 0..plan.waits.len() {
        match walk.next.pop() {
            Some(edge) => walk.visit(plan, edge)?,
            None => return Ok(walk.heights),
        }
    }
    Ok(walk.heights)
}

/// Returns the number of edges of each pool.
fn sizes_of(alloc: Global, plan: &Plan) -> Result<Vec<usize>, AllocError> {
    let mut sizes = vec![in alloc; 0usize; plan.depths.len()]?;
    for pool in &plan.pools {
        if let Some(size) = sizes.get_mut(*pool as usize) {
            *size = size.saturating_add(1);
        }
    }
    Ok(sizes)
}

impl ReadyQueues {
    /// Creates empty queues for the edges of a plan, with room for each edge once.
    pub(crate) fn open(alloc: Global, plan: &Plan) -> Result<ReadyQueues, AllocError> {
        let heights = heights_of(alloc, plan)?;
        let sizes = sizes_of(alloc, plan)?;
        let mut queues = Vec::with_capacity(alloc, sizes.len())?;
        for size in &sizes {
            queues.push(BinaryHeap::with_capacity(alloc, *size)?)?;
        }
        Ok(ReadyQueues { heights, queues })
    }

    /// Lists an edge, if there is room. It takes no memory.
    fn add(&mut self, pool: u32, edge: u32) {
        let height = self.heights.get(edge as usize).copied().unwrap_or(0);
        if let Some(queue) = self.queues.get_mut(pool as usize) {
            if queue.len() < queue.capacity() {
                let _ = queue.push(key_of(height, edge));
            }
        }
    }

    /// Removes the first edges of a pool, up to one that is at Take.
    fn drop_stale(&mut self, pool: u32, phases: &[Phase]) {
        let Some(queue) = self.queues.get_mut(pool as usize) else {
            return;
        };
        for _ in 0..queue.len() {
            match queue.peek() {
                Some(key) if is_at_take(phases, edge_of(*key)) => return,
                _ => {
                    let _ = queue.pop();
                }
            }
        }
    }

    /// Follows a change of the phase of an edge of a pool. It takes no memory.
    pub(crate) fn update(&mut self, pool: u32, edge: u32, phases: &[Phase]) {
        if is_at_take(phases, edge) {
            self.add(pool, edge);
        }
        self.drop_stale(pool, phases);
    }

    /// Returns the edge of a pool that should take a job token first. It may not be at Take any more.
    pub(crate) fn first(&self, pool: u32) -> Option<u32> {
        let key = self.queues.get(pool as usize)?.peek()?;
        Some(edge_of(*key))
    }
}
