//! Why there is no graph.

ghost use Rattle.std.specs.Prelude.{◌≡◌};
ghost use Rattle.dag_graph.specs.declared.fault.GraphFault.TheVariants.{Memory};

use dag_reader::Texts;
use std::alloc::{AllocError, AllocFailed};
use thiserror::Error;

/// Why there is no graph, or no answer about one.
#[derive(Debug, Drop, Error)]
pub enum GraphFault {
    /// A node is its own ancestor: the full names of a cycle, each a parent of the next and the
    /// last one of the first, from the node with the least number on.
    #[error("G1 Cycle{0}")]
    Cycle(Texts),

    /// Memory ran out.
    #[error("G2 Memory")]
    Memory,
}

impl From<AllocError> for GraphFault {
    ghost from_gives = { λ _ e. e ≡ Memory };

    fn from(_e: AllocError) -> GraphFault {
        GraphFault::Memory
    }
}

impl<T: Drop> From<AllocFailed<T>> for GraphFault {
    ghost from_gives = { λ _ e. e ≡ Memory };

    fn from(_e: AllocFailed<T>) -> GraphFault {
        GraphFault::Memory
    }
}
