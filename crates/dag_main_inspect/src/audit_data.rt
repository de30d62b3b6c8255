//! The audit of a run as JSON.

ghost use Rattle.std.specs.Prelude.{◌≡◌, ◌<◌, Ok, Err, length, IfOk, string_bytes};
ghost use Rattle.run_plan.specs.Plan.{Plan, count_of};
ghost use Rattle.serde_json.specs.View.{view, items_view};
ghost use Rattle.fate_audit.specs.Fates.{fate_at};
ghost use Rattle.dag_main_inspect.specs.AuditData.{fate_data, fates_data, passed_data, refused_data, audit_json_of};

use crate::status_data::{line_of, told_value};
use fate_audit::{AuditNo, Fate};
use run_plan::Plan;
use serde_json::{Value, json};
use status_report::status_of_state;
use std::alloc::{AllocError, Global};

/// A node and what it came to.
fn fate_value(alloc: Global, plan: &Plan, fates: &[Fate], node: u32) -> Result<Value, AllocError>
    requires many { length fates.now ≡ count_of plan.now }
    requires ordinary { node < count_of plan.now }
    ensures { IfOk result (λ value. view value ≡ fate_data plan.now (fate_at fates.now) node) }
{
    let fate = &fates[node as usize];
    let status = status_of_state(fate.state());
    told_value(
        alloc,
        plan.spec(node).name(),
        status,
        fate.attempts(),
        fate.value(),
    )
}

/// The ordinary nodes in plan order, each with what it came to.
fn fates_of(alloc: Global, plan: &Plan, fates: &[Fate]) -> Result<Vec<Value>, AllocError>
    requires { length fates.now ≡ count_of plan.now }
    ensures { IfOk result (λ nodes. items_view nodes.items ≡ fates_data plan.now (fate_at fates.now) (count_of plan.now)) }
{
    let mut nodes = Vec::new(alloc);
    for node in 0..plan.count() {
        nodes.push(fate_value(alloc, plan, fates, node)?)?;
    }
    Ok(nodes)
}

/// The path of the DAG file, the fates, and that the journal stands for them.
fn passed_value(alloc: Global, plan: &Plan, fates: &[Fate], path: &str) -> Result<Value, AllocError>
    requires { length fates.now ≡ count_of plan.now }
    ensures { IfOk result (λ value. view value ≡ passed_data path.now plan.now fates.now) }
{
    let nodes = fates_of(alloc, plan, fates)?;
    json!(in alloc; {"dag": path, "nodes": nodes, "ok": true})
}

/// Why the journal stands for none, and the path of the DAG file.
fn refused_value(alloc: Global, cause: AuditNo, path: &str) -> Result<Value, AllocError>
    ensures { IfOk result (λ value. view value ≡ refused_data path.now cause) }
{
    let words = format!(in alloc; "{cause}")?;
    json!(in alloc; {"cause": words, "dag": path, "ok": false})
}

/// The fates as JSON, in one line; the DAG file has this path.
///
/// # Errors
/// Lack of memory, and nothing else.
pub(crate) fn passed_json(
    alloc: Global,
    plan: &Plan,
    fates: &[Fate],
    path: &str,
) -> Result<String, AllocError>
    requires { length fates.now ≡ count_of plan.now }
    ensures { IfOk result (λ text. string_bytes text ≡ audit_json_of path.now plan.now (Ok fates.now)) }
{
    let value = passed_value(alloc, plan, fates, path)?;
    line_of(alloc, &value)
}

/// Why there are no fates as JSON, in one line; the DAG file has this path.
///
/// # Errors
/// Lack of memory, and nothing else.
pub(crate) fn refused_json(alloc: Global, cause: AuditNo, path: &str) -> Result<String, AllocError>
    ensures { IfOk result (λ text. (plan : Plan) → string_bytes text ≡ audit_json_of path.now plan (Err cause)) }
{
    let value = refused_value(alloc, cause, path)?;
    line_of(alloc, &value)
}
