//! The nodes in a topological order: parents first.

ghost use Rattle.std.specs.Prelude.{◌≡◌, IfOk, IfErr};
ghost use Rattle.dag_graph.specs.Graph.{IsOrderOf, all_parents_of};
ghost use Rattle.dag_graph.specs.Cycles.{IsCycleFault};

use crate::climb::Climb;
use crate::cycle::cycle_fault;
use crate::fault::GraphFault;
use crate::numbers::Numbers;
use splices_flat::FlatDag;
use std::alloc::Global;

/// The ordinary nodes in a topological order, or the names of a cycle.
pub(crate) fn order_of(
    alloc: Global,
    dag: &FlatDag,
    parents: &[Numbers],
) -> Result<Vec<u32>, GraphFault>
    requires { parents.now ≡ all_parents_of dag.now }
    ensures order { IfOk result (λ v. IsOrderOf dag.now v.items) }
    ensures cycle { IfErr result (IsCycleFault dag.now) }
{
    let _ = dag.nodes();
    let _ = dag.edges();
    let mut climb = Climb::new(alloc, parents.len())?;
    match climb.climb(parents)? {
        None => Ok(climb.into_order()),
        Some(parent) => Err(cycle_fault(alloc, dag, climb.path(), parent)),
    }
}
