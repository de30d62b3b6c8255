//! The graph and the plan of the files of a DAG.

ghost use Rattle.std.specs.Prelude.{◌≡◌, IfOk, IfErr, Ok, Some};
ghost use Rattle.std.specs.Option.{option_map};
ghost use Rattle.splices_flat.specs.FileSet.{bytes_of, entries_of};
ghost use Rattle.splices_flat.specs.Opened.{dag_at};
ghost use Rattle.dag_graph.specs.Graph.{IsAcyclic};
ghost use Rattle.run_plan.specs.Submitted.{first_plan_fault, all_nodes};
ghost use Rattle.dag_main_check.specs.Checked.{IsCheckFault};
ghost use Rattle.dag_main_check.specs.Planned.{IsGraphOf, IsGraphFault, IsPlanOf, IsPlanBy, IsPlanByFault, IsPlanWith, IsPlanWithFault};

use crate::fault::RunFault;
use dag_graph::Graph;
use run_plan::Plan;
use splices::open_dag;
use splices_flat::FileSet;
use std::alloc::Global;

/// The graph of the files of this path.
///
/// # Errors
/// The first fault that opening the files meets, then a cycle; lack of memory.
pub fn graph_of(alloc: Global, files: &FileSet, path: &str) -> Result<Graph, RunFault>
    ensures graph { IfOk result (IsGraphOf (bytes_of files.now) path.now) }
    ensures refused { IfErr result (IsGraphFault (bytes_of files.now) path.now) }
{
    let dag = open_dag(alloc, files, path)?;
    let graph = Graph::build(alloc, dag)?;
    Ok(graph)
}

/// The plan of the files of this path, with no submit file read. With `always_post` the POST script
/// of a node runs after a PRE script that failed, too.
pub fn plan_of(
    alloc: Global,
    files: &FileSet,
    path: &str,
    always_post: bool,
) -> Result<Plan, RunFault>
    ensures plan { IfOk result (IsPlanOf always_post (bytes_of files.now) path.now) }
    ensures refused { IfErr result (IsGraphFault (bytes_of files.now) path.now) }
{
    let graph = graph_of(alloc, files, path)?;
    let Ok(plan) = Plan::build_bare(alloc, graph, None, always_post) else {
        return Err(RunFault::Memory);
    };
    // The order's clauses are what the proof needs of it: parents come before their children.
    let _order = plan.graph().order();
    Ok(plan)
}

/// The plan of the files of this path, with its submit files. What is checked does not depend on
/// whether POST always runs.
pub(crate) fn full_plan_of(alloc: Global, files: &FileSet, path: &str) -> Result<Plan, RunFault>
    ensures dag { IfOk result (λ plan. dag_at (bytes_of files.now) path.now ≡ Ok plan.graph.dag) }
    ensures acyclic { IfOk result (λ plan. IsAcyclic plan.graph.dag.edges) }
    ensures sound { IfOk result (λ plan. first_plan_fault (Some (bytes_of files.now)) (all_nodes plan.graph.dag) ≡ Ok tt) }
    ensures refused { IfErr result (IsCheckFault (bytes_of files.now) path.now) }
{
    let graph = graph_of(alloc, files, path)?;
    match Plan::build(alloc, graph, files, None, false) {
        Ok(plan) => Ok(plan),
        Err((_graph, fault)) => Err(RunFault::from(fault)),
    }
}

/// The plan of a graph, of its submit files and of a rescue file, if there is one. With `always_post`
/// the POST script of a node runs after a PRE script that failed, too.
pub fn plan_by(
    alloc: Global,
    graph: Graph,
    files: &FileSet,
    rescue: Option<&[u8]>,
    always_post: bool,
) -> Result<Plan, RunFault>
    ensures plan { IfOk result (IsPlanBy always_post (bytes_of files.now) (entries_of files.now) (option_map (λ b. b.now) rescue.entry) graph) }
    ensures refused { IfErr result (IsPlanByFault (bytes_of files.now) (entries_of files.now) (option_map (λ b. b.now) rescue.entry) graph) }
{
    match Plan::build(alloc, graph, files, rescue, always_post) {
        Ok(plan) => Ok(plan),
        Err((_graph, fault)) => Err(RunFault::from(fault)),
    }
}

/// The plan of the files of this path, with its submit files and a rescue file, if there is one, and
/// with `always_post` as in `plan_by`.
///
/// # Errors
/// Those of `graph_of`, then those of `plan_by`.
pub fn plan_with(
    alloc: Global,
    files: &FileSet,
    path: &str,
    rescue: Option<&[u8]>,
    always_post: bool,
) -> Result<Plan, RunFault>
    ensures plan { IfOk result (IsPlanWith always_post (bytes_of files.now) (entries_of files.now) path.now (option_map (λ b. b.now) rescue.entry)) }
    ensures refused { IfErr result (IsPlanWithFault (bytes_of files.now) (entries_of files.now) path.now (option_map (λ b. b.now) rescue.entry)) }
{
    let graph = graph_of(alloc, files, path)?;
    plan_by(alloc, graph, files, rescue, always_post)
}
