//! The reasons why a manifest has no graph.

ghost use Rattle.std.specs.Prelude.{◌≡◌};
ghost use Rattle.plan_graph.specs.Faults.{number_of};
ghost use Rattle.plan_graph.specs.declared.fault.GraphFault.TheVariants as graph;

use plan_text::Items;
use std::alloc::{AllocError, AllocFailed};

/// The reason why a manifest has no graph.
#[derive(Drop)]
pub enum GraphFault {
    /// This path is an output of two edges, or an output of one edge twice.
    TwoProducers(Items<u8>),
    /// A cycle of edges. Each waits for the next one, and the last for the first, which has the least number.
    Cycle(Items<usize>),
    /// No build line above a `default` statement produces this target.
    UnknownDefault(Items<u8>),
    /// The manifest has more than 1,048,576 edges.
    TooManyEdges,
    /// Memory ran out.
    Memory,
}

impl GraphFault {
    /// Returns the number that a program prints for the fault, from 50 to 54 in the order of the variants.
    pub fn number(&self) -> u8
        ensures { result ≡ number_of self.now }
    {
        match self {
            GraphFault::TwoProducers(_) => 50,
            GraphFault::Cycle(_) => 51,
            GraphFault::UnknownDefault(_) => 52,
            GraphFault::TooManyEdges => 53,
            GraphFault::Memory => 54,
        }
    }
}

impl From<AllocError> for GraphFault {
    ghost from_gives = { λ _ e. e ≡ graph.Memory };

    fn from(_e: AllocError) -> GraphFault {
        GraphFault::Memory
    }
}

impl<T: Drop> From<AllocFailed<T>> for GraphFault {
    ghost from_gives = { λ _ e. e ≡ graph.Memory };

    fn from(_e: AllocFailed<T>) -> GraphFault {
        GraphFault::Memory
    }
}
