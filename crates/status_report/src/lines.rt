//! The lines of a status text.

ghost use Rattle.std.specs.Prelude.{◌≡◌, ◌≤◌, ◌+◌, ◌++◌, OnOk, IfOk, string_bytes};
ghost use Rattle.run_plan.specs.Plan.{count_of};
ghost use Rattle.status_report.specs.Text.{status_word, status_line, node_line, reported, status_text_of, run_text};

use crate::{Status, status_at};
use node_machine::Verdict;
use sched_core::Core;
use std::alloc::{AllocError, Global};

/// The word of a state, as its line has it.
pub fn status_word(status: Status) -> &'static str
    ensures { result.now ≡ status_word status }
{
    match status {
        Status::Done => "DONE",
        Status::Error => "ERROR",
        Status::PreRun => "PRERUN",
        Status::Submitted => "SUBMITTED",
        Status::PostRun => "POSTRUN",
        Status::Ready => "READY",
        Status::NotReady => "NOT_READY",
    }
}

/// Adds the line of a node: its name, where it is, how many of its attempts ended, and the value
/// of the last one.
pub fn push_line(
    text: &mut String,
    name: &str,
    status: Status,
    attempts: u64,
    value: Option<i32>,
) -> Result<(), AllocError>
    ensures { OnOk result (string_bytes text.new
        ≡ string_bytes text.old ++ status_line name.now status attempts value) }
{
    let word = status_word(status);
    match value {
        Some(value) => writeln!(text, "{name} {word} attempts={attempts} value={value}"),
        None => writeln!(text, "{name} {word} attempts={attempts} value=-"),
    }
}

/// Adds the line of the node of this number.
fn push_node(text: &mut String, core: &Core<'_>, node: u32) -> Result<(), AllocError>
    requires { node ≤ count_of core.now.plan }
    ensures { OnOk result (string_bytes text.new
        ≡ string_bytes text.old ++ node_line core.now.plan core.now.past node) }
{
    push_line(
        text,
        core.plan().spec(node).name(),
        status_at(core, node),
        core.attempts_ended(node),
        core.last_value(node),
    )
}

/// How many nodes have a line: the ordinary ones, and the FINAL node after them.
pub fn reported(core: &Core<'_>) -> u32
    ensures is { result ≡ reported core.now.plan }
    ensures few { result ≤ count_of core.now.plan + 1 }
{
    let plan = core.plan();
    if plan.has_final() {
        plan.count() + 1
    } else {
        plan.count()
    }
}

/// The status text of a run: a line `name STATUS attempts=n value=v` for each node in plan order, the
/// FINAL node last. n is how many attempts ended, v the value of the last of them, or `-`.
///
/// # Errors
/// Lack of memory, and nothing else.
pub fn status_text(alloc: Global, core: &Core<'_>) -> Result<String, AllocError>
    ensures { IfOk result (λ text. string_bytes text ≡ status_text_of core.now.plan core.now.past) }
{
    let mut text = String::new(alloc);
    for node in 0..reported(core) {
        push_node(&mut text, core, node)?;
    }
    Ok(text)
}

/// What a run prints that ends with this status: its status text, and `result N`.
///
/// # Errors
/// Lack of memory, and nothing else.
pub fn run_text(alloc: Global, core: &Core<'_>, status: Verdict) -> Result<String, AllocError>
    ensures { IfOk result (λ text. string_bytes text ≡ run_text core.now.plan core.now.past status) }
{
    let mut text = status_text(alloc, core)?;
    writeln!(text, "result {status}")?;
    Ok(text)
}
