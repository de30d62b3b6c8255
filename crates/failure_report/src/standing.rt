//! What is reported of a node that is not in error: that it runs, is done, is ready or waits, and for whom.

ghost use Rattle.std.specs.Prelude.{◌≤◌, IfOk, string_bytes};
ghost use Rattle.run_plan.specs.Plan.{count_of};
ghost use Rattle.failure_report.specs.Reported.{IsStandingBlock};

use crate::failed::is_in_error;
use crate::hanging::hung;
use crate::heads::{phase_words, push_attempt, push_ending};
use crate::reported::{Run, Story, push_story};
use log_lines::unquoted;
use node_machine::{Ended, Key, Phase};
use run_plan_node::NodeSpec;
use sched_core::Core;
use status_report::{Status, status_at};
use std::alloc::{AllocError, Global};
use std::fs::{self, File};
use std::rt::Files;

/// How many nodes are named for which one waits.
const NAMED: usize = 8;

/// The word for where a node stands for which another one waits.
fn state_word(status: Status) -> &'static str {
    match status {
        Status::Done => "DONE",
        Status::Error => "ERROR",
        Status::PreRun | Status::Submitted | Status::PostRun => "runs",
        Status::Ready => "READY",
        Status::NotReady => "NOT_READY",
    }
}

/// Adds the name of a node, and where it is.
fn push_named(text: &mut String, core: &Core<'_>, node: u32) -> Result<(), AllocError> {
    if node > core.plan().count() {
        return Ok(());
    }
    let name = core.plan().spec(node).name();
    let word = state_word(status_at(core, node));
    write!(text, "{name} ({word})")
}

/// Adds the names of nodes, the first of them where there are many.
fn push_names(text: &mut String, core: &Core<'_>, nodes: &[u32]) -> Result<(), AllocError> {
    let all = nodes.len();
    for (place, node) in nodes.iter().take(NAMED).enumerate() {
        if place > 0 {
            let last = place + 1 == all;
            text.push_str(if last { " and " } else { ", " })?;
        }
        push_named(text, core, *node)?;
    }
    if all > NAMED {
        let more = all - NAMED;
        write!(text, " and {more} more")?;
    }
    Ok(())
}

/// The parents of a node that are not done, in plan order.
fn undone_parents(alloc: Global, core: &Core<'_>, node: u32) -> Result<Vec<u32>, AllocError>
    requires { node ≤ count_of core.now.plan }
{
    let mut undone = Vec::new(alloc);
    for parent in core.plan().spec(node).parents() {
        if !core.is_done(*parent) {
            undone.push(*parent)?;
        }
    }
    Ok(undone)
}

/// Puts the nodes on a stack that were not met before.
fn meet(stack: &mut Vec<u32>, met: &mut [bool], nodes: &[u32]) -> Result<(), AllocError> {
    for node in nodes {
        let place = *node as usize;
        if place < met.len() && !met[place] {
            met[place] = true;
            stack.push(*node)?;
        }
    }
    Ok(())
}

/// The nodes in error for which these wait, in plan order.
fn causes_of(alloc: Global, core: &Core<'_>, from: &[u32]) -> Result<Vec<u32>, AllocError> {
    let count = core.plan().count();
    let mut met = vec![in alloc; false; count as usize + 1]?;
    let mut stack = Vec::new(alloc);
    let mut causes = Vec::new(alloc);
    meet(&mut stack, &mut met, from)?;
    for _ in 0..count + 1 {
        let Some(node) = stack.pop() else {
            break;
        };
        if node > count {
            continue;
        }
        if is_in_error(core, node) {
            causes.push(node)?;
        } else {
            meet(&mut stack, &mut met, &undone_parents(alloc, core, node)?)?;
        }
    }
    causes.sort()?;
    Ok(causes)
}

/// Adds for whom a node waits, and the nodes in error after that.
fn push_waits(
    alloc: Global,
    text: &mut String,
    core: &Core<'_>,
    node: u32,
) -> Result<(), AllocError>
    requires { node ≤ count_of core.now.plan }
{
    let parents = undone_parents(alloc, core, node)?;
    if parents.is_empty() {
        return text.push_str(
            "NOT_READY: it is FINAL, which begins once nothing else runs or may start\n",
        );
    }
    text.push_str("NOT_READY: waits for ")?;
    push_names(text, core, &parents)?;
    text.push('\n')?;
    let causes = causes_of(alloc, core, &parents)?;
    if causes.is_empty() || parents == causes {
        return Ok(());
    }
    text.push_str("because of ")?;
    push_names(text, core, &causes)?;
    text.push('\n')
}

/// Adds how a phase ended, and in which attempt.
fn push_end(text: &mut String, end: &Ended, retries: u32) -> Result<(), AllocError> {
    text.push_str(phase_words(end.phase))?;
    text.push(' ')?;
    push_ending(text, end.outcome, None)?;
    text.push_str(", ")?;
    push_attempt(text, end.attempt, retries)
}

/// Adds how a node came to be done.
fn push_done(text: &mut String, spec: &NodeSpec, end: Option<Ended>) -> Result<(), AllocError> {
    text.push_str("DONE: ")?;
    match end {
        Some(end) if !spec.is_done() => {
            push_end(text, &end, spec.course().retries)?;
            if end.phase == Phase::Pre {
                text.push_str(", which skips the rest (PRE_SKIP)")?;
            }
        }
        _ => text.push_str("it was done from the start, by its files or a rescue file")?,
    }
    text.push('\n')
}

/// Adds how the last attempt of a node ended, where there was one.
fn push_last(text: &mut String, end: Option<Ended>, retries: u32) -> Result<(), AllocError> {
    match end {
        Some(end) => {
            text.push_str("before that, ")?;
            push_end(text, &end, retries)?;
            text.push('\n')
        }
        None => Ok(()),
    }
}

/// Adds that a node may start.
fn push_ready(
    text: &mut String,
    run: &Run<'_, '_, '_>,
    spec: &NodeSpec,
    key: &Key,
) -> Result<(), AllocError> {
    let words = phase_words(key.phase);
    let retries = spec.course().retries;
    write!(text, "READY: {words} is next, ")?;
    push_attempt(text, key.attempt, retries)?;
    if run.core.aborted() && key.node < run.core.plan().count() {
        text.push_str("; the round was aborted, so it does not start")?;
    }
    text.push('\n')?;
    push_last(text, run.end_of(key.node), retries)
}

/// Whether the system has no process of this number.
fn is_gone<R: Files + AllocGlobal>(rt: &R, process: u32) -> Result<bool, AllocError> {
    let path = format!(in rt.alloc(); "/proc/{process}")?;
    Ok(!fs::exists(rt, path.as_str()).unwrap_or(true))
}

/// Adds since when a phase runs and as which process, where the log says it.
fn push_since<R: Files + AllocGlobal>(
    rt: &R,
    text: &mut String,
    run: &Run<'_, '_, '_>,
    key: &Key,
) -> Result<(), AllocError> {
    let notes = match run.notes_of(key) {
        Some(notes) if notes.outcome.is_none() => notes,
        _ => return text.push_str("\n"),
    };
    if let Some(since) = notes.since {
        let since = unquoted(rt.alloc(), since)?;
        let since = since.as_str();
        write!(text, ", since {since}")?;
    }
    let Some(process) = notes.process else {
        return text.push_str("\n");
    };
    writeln!(text, ", as process {process}")?;
    if is_gone(rt, process)? {
        writeln!(
            text,
            "process  {process} is not there any more: its manager has not told how it ended; where none works, dagrun run goes on with the round"
        )?;
    }
    Ok(())
}

/// Adds that a phase of a node runs.
fn push_running<R: Files<File = File> + AllocGlobal>(
    rt: &R,
    text: &mut String,
    run: &Run<'_, '_, '_>,
    word: &str,
    key: Key,
    retries: u32,
) -> Result<(), AllocError> {
    let words = phase_words(key.phase);
    write!(text, "{word}: {words} runs, ")?;
    push_attempt(text, key.attempt, retries)?;
    push_since(rt, text, run, &key)?;
    let story = Story {
        key,
        outcome: None,
        facts: run.facts_of(key.node),
    };
    push_story(rt, text, run, &story)?;
    match run.end_of(key.node) {
        Some(end) if end.attempt < key.attempt => push_last(text, Some(end), retries),
        _ => Ok(()),
    }
}

/// Adds what is reported of a node that is not in error, after its name.
fn push_standing<R: Files<File = File> + AllocGlobal>(
    rt: &R,
    text: &mut String,
    run: &Run<'_, '_, '_>,
    node: u32,
) -> Result<(), AllocError>
    requires { node ≤ count_of run.now.core.now.plan }
{
    let core = run.core;
    let spec = core.plan().spec(node);
    let retries = spec.course().retries;
    match (status_at(core, node), core.next(node)) {
        (Status::Done, _) => push_done(text, spec, run.end_of(node)),
        (Status::PreRun, Some(key)) => push_running(rt, text, run, "PRERUN", key, retries),
        (Status::Submitted, Some(key)) => push_running(rt, text, run, "SUBMITTED", key, retries),
        (Status::PostRun, Some(key)) => push_running(rt, text, run, "POSTRUN", key, retries),
        (Status::Ready, Some(key)) => push_ready(text, run, spec, &key),
        _ => push_waits(rt.alloc(), text, core, node),
    }
}

/// What is reported of a node that is not in error: its name, and how it is; lines after the first are indented.
///
/// # Errors
/// Lack of memory.
pub(crate) fn standing_block<R: Files<File = File> + AllocGlobal>(
    rt: &R,
    run: &Run<'_, '_, '_>,
    node: u32,
) -> Result<String, AllocError>
    ensures { IfOk result (λ block. IsStandingBlock run.now.core.now.plan node (string_bytes block)) }
{
    let mut text = String::new(rt.alloc());
    if node > run.core.plan().count() {
        return Ok(text);
    }
    let mut words = String::new(rt.alloc());
    push_standing(rt, &mut words, run, node)?;
    let name = run.core.plan().spec(node).name();
    write!(text, "{name} {words}")?;
    let block = hung(rt.alloc(), text.as_str())?;
    Ok(block)
}
