//! What `check` answers as JSON.

ghost use Rattle.std.specs.Prelude.{◌≡◌, IfOk, string_bytes};
ghost use Rattle.serde_json.specs.View.{view};
ghost use Rattle.dag_main_check.specs.CheckData.{check_data, check_json_of};

use dag_graph::Graph;
use serde_json::{Value, json};
use std::alloc::{AllocError, Global};

/// The path of the DAG file, the numbers of its nodes and its pairs, and whether it has a FINAL node.
fn value_of(alloc: Global, graph: &Graph, path: &str) -> Result<Value, AllocError>
    ensures { IfOk result (λ value. view value ≡ check_data path.now graph.now.dag) }
{
    let nodes = graph.flat().nodes().len();
    let edges = graph.edge_count();
    let last = graph.flat().final_node().is_some();
    json!(in alloc; {"dag": path, "edges": edges, "final": last, "nodes": nodes})
}

/// The graph of the DAG file of this path as JSON, in one line.
///
/// # Errors
/// Lack of memory, and nothing else.
pub(crate) fn check_json(alloc: Global, graph: &Graph, path: &str) -> Result<String, AllocError>
    ensures { IfOk result (λ text. string_bytes text ≡ check_json_of path.now graph.now.dag) }
{
    let mut text = value_of(alloc, graph, path)?.to_string(alloc)?;
    text.push_str("\n")?;
    Ok(text)
}
