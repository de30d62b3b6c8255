//! What is found of nodes that are reported, as values: those of which the text of them is made.

ghost use Rattle.std.specs.Prelude.{◌≡◌, ◌≢◌, map, length, IfOk, string_bytes};
ghost use Rattle.failure_report.specs.Found.{reported_as, IsFoundOfAll, IsFoundOfNamed};

use crate::details::{Quote, SeenCommand};
use crate::failed::Failure;
use crate::numbers::{Named, numbers_of};
use crate::reported::{Run, Story, quote_at, reason_of, story_of};
use crate::why::{Reported, Surroundings, all_failed, all_named, run_of};
use dag_reader::Text;
use sched_core::Core;
use std::alloc::{AllocError, Global};
use std::fs::File;
use std::rt::Files;

/// What is found of the phase by which a node is in error.
#[derive(Drop)]
pub struct FailedPhase {
    /// The path of its program and its words; none where no child is started for it.
    pub command: Option<Vec<String>>,
    /// The folder in which its child runs, where it has one.
    pub folder: Option<String>,
    /// The path of the file that keeps its output, where one does.
    pub output: Option<String>,
    /// The path of the file that keeps its errors, where one does.
    pub error: Option<String>,
    /// Why it was not started, where the log says it: the path that was refused, and what the system said.
    pub reason: Option<String>,
    /// How many milliseconds it took, where the log says it.
    pub took: Option<u64>,
    /// The last lines of its error output, each as it may be shown; none where nothing is quoted.
    pub last_lines: Vec<String>,
}

/// A node, and what is found of it.
#[derive(Drop)]
pub enum FoundNode {
    /// It is in error.
    Failed(Failure, FailedPhase),
    /// The node of this number is not.
    Standing(u32),
}

/// What is found of nodes.
#[derive(Drop)]
pub enum Found {
    /// These are the nodes.
    Nodes(Vec<FoundNode>),
    /// A name is none of a node; this line says which.
    Unknown(String),
}

/// A copy of a text, where there is one.
fn copy_of(alloc: Global, text: &Option<Text>) -> Result<Option<String>, AllocError> {
    match text {
        Some(text) => Ok(Some(String::from_str(alloc, text.as_str())?)),
        None => Ok(None),
    }
}

/// A duration that the log has in seconds, with three digits after the point, in milliseconds.
fn milliseconds(seconds: &str) -> Option<u64> {
    let (whole, rest) = seconds.split_once('.')?;
    if rest.len() != 3 {
        return None;
    }
    let whole: u64 = whole.parse().ok()?;
    let rest: u64 = rest.parse().ok()?;
    whole.checked_mul(1000)?.checked_add(rest)
}

/// The last lines of an error output that are quoted.
fn lines_in(alloc: Global, quote: Option<Quote>) -> Vec<String> {
    match quote {
        Some(Quote::Lines(lines)) => lines,
        _ => Vec::new(alloc),
    }
}

/// Nothing is found of a phase but why it was not started.
fn without_child(alloc: Global, reason: Option<String>) -> FailedPhase {
    FailedPhase {
        command: None,
        folder: None,
        output: None,
        error: None,
        reason,
        took: None,
        last_lines: Vec::new(alloc),
    }
}

/// What is found of a phase whose child is started so.
fn with_child<R: Files<File = File> + AllocGlobal>(
    rt: &R,
    run: &Run<'_, '_, '_>,
    story: &Story,
    command: SeenCommand,
    reason: Option<String>,
) -> Result<FailedPhase, AllocError> {
    let alloc = rt.alloc();
    Ok(FailedPhase {
        folder: Some(String::from_str(alloc, command.folder.as_str())?),
        output: copy_of(alloc, &command.output)?,
        error: copy_of(alloc, &command.error)?,
        reason,
        took: run.seconds_at(story).and_then(milliseconds),
        last_lines: lines_in(alloc, quote_at(rt, story, &command)?),
        command: Some(command.parts),
    })
}

/// What is found of the phase by which a node is in error.
fn phase_of<R: Files<File = File> + AllocGlobal>(
    rt: &R,
    run: &Run<'_, '_, '_>,
    failure: &Failure,
) -> Result<FailedPhase, AllocError> {
    let alloc = rt.alloc();
    let Some(end) = failure.end else {
        return Ok(without_child(alloc, None));
    };
    let story = story_of(run, failure.node, &end);
    let reason = reason_of(alloc, run, &story)?;
    match run.seen_at(alloc, &story)? {
        Some(command) => with_child(rt, run, &story, command, reason),
        None => Ok(without_child(alloc, reason)),
    }
}

/// What is found of a node.
fn node_of<R: Files<File = File> + AllocGlobal>(
    rt: &R,
    run: &Run<'_, '_, '_>,
    one: &Reported,
) -> Result<FoundNode, AllocError>
    ensures { IfOk result (λ node. reported_as node ≡ one.now) }
{
    match one {
        Reported::Failed(failure) => Ok(FoundNode::Failed(*failure, phase_of(rt, run, failure)?)),
        Reported::Standing(node) => Ok(FoundNode::Standing(*node)),
    }
}

/// What is found of these nodes of a run.
fn nodes_of<R: Files<File = File> + AllocGlobal>(
    rt: &R,
    core: &Core<'_>,
    place: &Surroundings<'_>,
    reported: &[Reported],
) -> Result<Vec<FoundNode>, AllocError>
    ensures { IfOk result (λ nodes. map reported_as nodes.items ≡ reported.now) }
{
    let run = run_of(rt.alloc(), core, place, reported)?;
    let mut nodes = Vec::new(rt.alloc());
    for one in reported {
        nodes.push(node_of(rt, &run, one)?)?;
    }
    Ok(nodes)
}

/// What is found of the nodes of these names in their order; where there is no name, of all that are in error, those first for which
/// most nodes wait, and of as many in plan order. What the log and the files of jobs say is found as far as they can be read.
///
/// # Errors
/// Lack of memory, and nothing else.
pub fn why_found<R: Files<File = File> + AllocGlobal>(
    rt: &R,
    core: &Core<'_>,
    place: &Surroundings<'_>,
    names: &[&str],
) -> Result<Found, AllocError>
    // Where no node is named, these are all nodes in error.
    ensures all { length names.now ≡ 0 → IfOk result (IsFoundOfAll core.now.plan core.now.past) }
    ensures named { length names.now ≢ 0 →
        IfOk result (IsFoundOfNamed core.now.plan core.now.past place.now.top.now (map (λ n. n.now) names.now)) }
{
    let alloc = rt.alloc();
    if names.is_empty() {
        let reported = all_failed(alloc, core)?;
        return Ok(Found::Nodes(nodes_of(rt, core, place, &reported)?));
    }
    match numbers_of(alloc, core.plan(), place.top, names)? {
        Named::Nodes(numbers) => {
            let reported = all_named(alloc, core, &numbers)?;
            Ok(Found::Nodes(nodes_of(rt, core, place, &reported)?))
        }
        Named::Unknown(line) => Ok(Found::Unknown(line)),
    }
}
