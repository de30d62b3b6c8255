//! What holds of the definitions alone. No program calls these functions.

ghost use Rattle.std.specs.Prelude.{ℕ, List};
ghost use Rattle.splices_flat.specs.declared.flat.Edge.{Edge};
ghost use Rattle.dag_graph.specs.Graph.{IsAcyclic, IsCycle, RisesAlong};

/// Where each parent has a lower rank than its child, no node is its own ancestor.
pub fn ranked_is_acyclic()
    ensures { (rank : ℕ → ℕ) (edges : List Edge) → RisesAlong rank edges → IsAcyclic edges }
{}

/// Where there is a cycle, a node is its own ancestor.
pub fn cycle_is_cyclic()
    ensures { (edges : List Edge) (nodes : List ℕ) → IsCycle edges nodes → ¬ (IsAcyclic edges) }
{}
