//! What is answered of nodes as JSON.

ghost use Rattle.std.specs.Prelude.{◌≡◌, ◌≤◌, map, IfOk, OnOk, string_bytes};
ghost use Rattle.run_plan.specs.Plan.{count_of};
ghost use Rattle.serde_json.specs.View.{view, members_view};
ghost use Rattle.failure_answers.specs.WhyData.{text_data, texts_data, command_data, took_data, outcome_word, outcome_exit_data, outcome_signal_data, with_phase_end, with_told, with_found, failed_data, found_data, why_data, why_json_of};

use dag_main_inspect::{json_line, node_json, value_json};
use failure_report::{FailedPhase, Failure, FoundNode};
use log_lines::phase_word;
use node_machine::{Ended, Outcome};
use sched_core::Core;
use serde_json::{Map, Value, json, put};
use status_report::{status_at, status_word};
use std::alloc::{AllocError, Global};

/// A text, or null where there is none.
fn text_value(alloc: Global, text: &Option<String>) -> Result<Value, AllocError>
    ensures { IfOk result (λ value. view value ≡ text_data text.now) }
{
    match text {
        Some(text) => Ok(Value::String(String::from_str(alloc, text.as_str())?)),
        None => Ok(Value::Null),
    }
}

/// These texts, each as a value.
fn text_values(alloc: Global, texts: &[String]) -> Result<Vec<Value>, AllocError>
    ensures { IfOk result (λ values. map view values.items ≡ texts_data texts.now) }
{
    let mut values = Vec::new(alloc);
    for text in texts {
        let copy = String::from_str(alloc, text.as_str())?;
        values.push(Value::String(copy))?;
    }
    Ok(values)
}

/// The words of a command, or null where there is none.
fn command_value(alloc: Global, command: &Option<Vec<String>>) -> Result<Value, AllocError>
    ensures { IfOk result (λ value. view value ≡ command_data command.now) }
{
    match command {
        Some(words) => Ok(Value::Array(text_values(alloc, words)?)),
        None => Ok(Value::Null),
    }
}

/// How many milliseconds a phase took, or null where the log doesn't say it.
fn took_value(took: Option<u64>) -> Value
    ensures { view result ≡ took_data took }
{
    match took {
        Some(took) => Value::from(took),
        None => Value::Null,
    }
}

/// How a phase ended, without a number.
fn outcome_word(outcome: Outcome) -> &'static str
    ensures { result.now ≡ outcome_word outcome }
{
    match outcome {
        Outcome::Exit(_) => "exit",
        Outcome::Signal(_) => "signal",
        Outcome::NoStart => "not started",
        Outcome::Untold => "untold",
    }
}

/// The exit code of a phase that exited, else null.
fn exit_code(outcome: Outcome) -> Value
    ensures { view result ≡ outcome_exit_data outcome }
{
    match outcome {
        Outcome::Exit(code) => Value::from(code),
        _ => Value::Null,
    }
}

/// The number of the signal that ended a phase, else null.
fn signal(outcome: Outcome) -> Value
    ensures { view result ≡ outcome_signal_data outcome }
{
    match outcome {
        Outcome::Signal(number) => Value::from(number),
        _ => Value::Null,
    }
}

/// Adds how a phase ended: the attempt of its node, the phase and how it ended.
fn put_ending(
    alloc: Global,
    members: &mut Map<String, Value>,
    end: &Ended,
) -> Result<(), AllocError>
    ensures { OnOk result (members_view members.new.entries ≡ with_phase_end end.now (members_view members.old.entries)) }
{
    let word = Value::try_from_str(alloc, outcome_word(end.outcome))?;
    let phase = Value::try_from_str(alloc, phase_word(end.phase))?;
    put(members, alloc, "attempt", Value::from(end.attempt))?;
    put(members, alloc, "ended", word)?;
    put(members, alloc, "exit_code", exit_code(end.outcome))?;
    put(members, alloc, "phase", phase)?;
    put(members, alloc, "signal", signal(end.outcome))
}

/// Adds what the status as JSON has of a node.
fn put_told(
    alloc: Global,
    members: &mut Map<String, Value>,
    core: &Core<'_>,
    node: u32,
) -> Result<(), AllocError>
    requires { node ≤ count_of core.now.plan }
    ensures { OnOk result (members_view members.new.entries ≡ with_told core.now.plan core.now.past node (members_view members.old.entries)) }
{
    let name = Value::try_from_str(alloc, core.plan().spec(node).name())?;
    let state = Value::try_from_str(alloc, status_word(status_at(core, node)))?;
    let value = value_json(core.last_value(node));
    put(
        members,
        alloc,
        "attempts",
        Value::from(core.attempts_ended(node)),
    )?;
    put(members, alloc, "name", name)?;
    put(members, alloc, "state", state)?;
    put(members, alloc, "value", value)
}

/// Adds what was found of a phase.
fn put_found(
    alloc: Global,
    members: &mut Map<String, Value>,
    phase: &FailedPhase,
) -> Result<(), AllocError>
    ensures { OnOk result (members_view members.new.entries ≡ with_found phase.now (members_view members.old.entries)) }
{
    let lines = Value::Array(text_values(alloc, &phase.last_lines)?);
    put(
        members,
        alloc,
        "command",
        command_value(alloc, &phase.command)?,
    )?;
    put(members, alloc, "error", text_value(alloc, &phase.error)?)?;
    put(members, alloc, "folder", text_value(alloc, &phase.folder)?)?;
    put(members, alloc, "last_lines", lines)?;
    put(members, alloc, "ms", took_value(phase.took))?;
    put(members, alloc, "output", text_value(alloc, &phase.output)?)?;
    put(members, alloc, "reason", text_value(alloc, &phase.reason)?)
}

/// A node in error whose last phase ended so.
fn failed_value(
    alloc: Global,
    core: &Core<'_>,
    failure: &Failure,
    end: &Ended,
    phase: &FailedPhase,
) -> Result<Value, AllocError>
    requires { failure.now.node ≤ count_of core.now.plan }
    ensures { IfOk result (λ value. view value ≡ failed_data core.now.plan core.now.past failure.now end.now phase.now) }
{
    let mut members = Map::new(alloc);
    put_ending(alloc, &mut members, end)?;
    put_told(alloc, &mut members, core, failure.node)?;
    put_found(alloc, &mut members, phase)?;
    let waiting = Value::from(failure.waiting);
    put(&mut members, alloc, "waiting", waiting)?;
    Ok(Value::Object(members))
}

/// A node of the plan; of one that is in error, how its last phase ended, if one did.
fn node_value(alloc: Global, core: &Core<'_>, node: &FoundNode) -> Result<Value, AllocError>
    ensures { IfOk result (λ value. view value ≡ found_data core.now.plan core.now.past node.now) }
{
    let number = match node {
        FoundNode::Failed(failure, _) => failure.node,
        FoundNode::Standing(number) => *number,
    };
    if number > core.plan().count() {
        return Ok(Value::Null);
    }
    match node {
        FoundNode::Failed(failure, phase) => match failure.end {
            Some(end) => failed_value(alloc, core, failure, &end, phase),
            None => node_json(alloc, core, number),
        },
        FoundNode::Standing(_) => node_json(alloc, core, number),
    }
}

/// These nodes, each as a value.
fn node_values(
    alloc: Global,
    core: &Core<'_>,
    nodes: &[FoundNode],
) -> Result<Vec<Value>, AllocError>
    ensures { IfOk result (λ values. map view values.items ≡ map (found_data core.now.plan core.now.past) nodes.now) }
{
    let mut values = Vec::new(alloc);
    for node in nodes {
        values.push(node_value(alloc, core, node)?)?;
    }
    Ok(values)
}

/// The path of the DAG file, and these nodes.
fn why_value(
    alloc: Global,
    core: &Core<'_>,
    path: &str,
    nodes: &[FoundNode],
) -> Result<Value, AllocError>
    ensures { IfOk result (λ value. view value ≡ why_data path.now core.now.plan core.now.past nodes.now) }
{
    let nodes = node_values(alloc, core, nodes)?;
    json!(in alloc; {"dag": path, "nodes": nodes})
}

/// What is found of nodes as JSON, in one line; the DAG file has this path.
///
/// # Errors
/// Lack of memory, and nothing else.
pub(crate) fn nodes_json(
    alloc: Global,
    core: &Core<'_>,
    path: &str,
    nodes: &[FoundNode],
) -> Result<String, AllocError>
    ensures { IfOk result (λ text. string_bytes text ≡ why_json_of path.now core.now.plan core.now.past nodes.now) }
{
    let value = why_value(alloc, core, path, nodes)?;
    json_line(alloc, &value)
}
