//! The status of a run as JSON.

ghost use Rattle.std.specs.Prelude.{◌≡◌, ◌≤◌, ◌++◌, false, IfOk, string_bytes, codes};
ghost use Rattle.run_plan.specs.Plan.{count_of};
ghost use Rattle.status_report.specs.Text.{reported};
ghost use Rattle.serde_json.specs.View.{view, items_view};
ghost use Rattle.serde_json.specs.Written.{has_float, compact_text};
ghost use Rattle.dag_main_inspect.specs.StatusData.{value_data, told_data, node_data, nodes_data, status_data, status_json_of};

use sched_core::Core;
use serde_json::{Value, json};
use status_report::{Status, reported, status_at, status_word};
use std::alloc::{AllocError, Global};

/// The value of the last attempt that ended; null where none did.
pub fn value_of(value: Option<i32>) -> Value
    ensures { view result ≡ value_data value }
{
    match value {
        Some(value) => Value::from(value),
        None => Value::Null,
    }
}

/// What is told of a node of this name: how many of its attempts ended, its name, its state and its value.
pub(crate) fn told_value(
    alloc: Global,
    name: &str,
    status: Status,
    attempts: u64,
    value: Option<i32>,
) -> Result<Value, AllocError>
    ensures { IfOk result (λ told. view told ≡ told_data name.now status attempts value) }
{
    let state = status_word(status);
    let value = value_of(value);
    json!(in alloc; {"attempts": attempts, "name": name, "state": state, "value": value})
}

/// A node: how many of its attempts ended, its name, its state and its value.
///
/// # Errors
/// Lack of memory, and nothing else.
pub fn node_of(alloc: Global, core: &Core<'_>, node: u32) -> Result<Value, AllocError>
    requires { node ≤ count_of core.now.plan }
    ensures { IfOk result (λ value. view value ≡ node_data core.now.plan core.now.past node) }
{
    let attempts = core.attempts_ended(node);
    let name = core.plan().spec(node).name();
    let status = status_at(core, node);
    told_value(alloc, name, status, attempts, core.last_value(node))
}

/// All nodes in plan order, the FINAL node last.
fn nodes_of(alloc: Global, core: &Core<'_>) -> Result<Vec<Value>, AllocError>
    ensures { IfOk result (λ nodes. items_view nodes.items ≡ nodes_data core.now.plan core.now.past (reported core.now.plan)) }
{
    let mut nodes = Vec::new(alloc);
    for node in 0..reported(core) {
        nodes.push(node_of(alloc, core, node)?)?;
    }
    Ok(nodes)
}

/// The path of the DAG file, and all nodes.
fn value_in(alloc: Global, core: &Core<'_>, path: &str) -> Result<Value, AllocError>
    ensures { IfOk result (λ value. view value ≡ status_data path.now core.now.plan core.now.past) }
{
    let nodes = nodes_of(alloc, core)?;
    json!(in alloc; {"dag": path, "nodes": nodes})
}

/// A value that has no float, in one line.
///
/// # Errors
/// Lack of memory, and nothing else.
pub fn line_of(alloc: Global, value: &Value) -> Result<String, AllocError>
    requires { has_float (view value.now) ≡ false }
    ensures { IfOk result (λ text. string_bytes text ≡ compact_text (view value.now) ++ codes "\n") }
{
    let mut text = value.to_string(alloc)?;
    text.push_str("\n")?;
    Ok(text)
}

/// The status of a run as JSON, in one line; the DAG file has this path.
///
/// # Errors
/// Lack of memory, and nothing else.
pub(crate) fn status_json(alloc: Global, core: &Core<'_>, path: &str) -> Result<String, AllocError>
    ensures { IfOk result (λ text. string_bytes text ≡ status_json_of path.now core.now.plan core.now.past) }
{
    let value = value_in(alloc, core, path)?;
    line_of(alloc, &value)
}
