//! What holds of the definitions alone. No program calls these functions.

ghost use Rattle.std.specs.Prelude.{◌≡◌, ℕ, List};
ghost use Rattle.dag_graph.specs.Graph.{Network};
ghost use Rattle.run_times.specs.declared.runs.PhaseRun.{PhaseRun};
ghost use Rattle.run_times.specs.Critical.{IsCriticalPath};

/// The phases of a graph have one critical path.
pub fn path_is_one()
    ensures { (graph : Network) (runs : List PhaseRun) (one other : List ℕ) → IsCriticalPath graph runs one → IsCriticalPath graph runs other → one ≡ other }
{}
