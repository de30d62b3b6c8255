//! What the rows are made of: sets of files, graphs and bare plans.

use anyhow::Result;
use dag_graph::Graph;
use run_plan::{Plan, PlanFault};
use splices::{FileSet, open_dag};
use std::alloc::Global;
use throttles::Limits;

/// A file: its name and its text.
pub type File = (&'static str, &'static str);

/// A diamond.
pub const DIAMOND: &str =
    "JOB A a.sub\nJOB B b.sub\nJOB C c.sub\nJOB D d.sub\nPARENT A CHILD B C\nPARENT B C CHILD D\n";

pub const NO_LIMITS: Limits = Limits {
    jobs: 0,
    pre: 0,
    post: 0,
    children: 0,
};

/// A set of these files.
pub fn files_of(alloc: Global, texts: &[File]) -> Result<FileSet> {
    let mut files = FileSet::new(alloc);
    for (name, text) in texts {
        files.add(alloc, name, text.as_bytes())?;
    }
    Ok(files)
}

/// The graph of a set whose top file has this name.
pub fn graph_of(alloc: Global, files: &FileSet, top: &str) -> Result<Graph> {
    let dag = open_dag(alloc, files, top)?;
    Ok(Graph::build(alloc, dag)?)
}

/// The fault of a plan that is refused.
// The graph that comes back is dropped by a call: a proof spells each of its parts where a block's end drops it.
pub fn fault_of(refused: (Graph, PlanFault)) -> PlanFault {
    let (graph, fault) = refused;
    drop(graph);
    fault
}

/// The plan of a DAG, with no submit file read.
pub fn bare_plan(alloc: Global, dag: &'static str) -> Result<Plan> {
    let files = files_of(alloc, &[("x.dag", dag)])?;
    let graph = graph_of(alloc, &files, "x.dag")?;
    match Plan::build_bare(alloc, graph, None, false) {
        Ok(plan) => Ok(plan),
        Err(refused) => Err(fault_of(refused).into()),
    }
}
