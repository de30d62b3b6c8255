//! The text of nodes of a run.

ghost use Rattle.std.specs.Prelude.{◌≡◌, ◌≢◌, ◌<◌, map, length, IfSome, IfOk, OnOk, string_bytes};
ghost use Rattle.run_plan.specs.Plan.{count_of};
ghost use Rattle.failure_report.specs.Reaching.{nodes_in};
ghost use Rattle.failure_report.specs.Waiting.{AreChildrenLeft};
ghost use Rattle.failure_report.specs.Failures.{AreLastEnds};
ghost use Rattle.failure_report.specs.Reported.{IsBlock, HasBlock, HasBlocks, AreAllFailed};
ghost use Rattle.failure_report.specs.Grouped.{HasGroup, HasGroups, HasAllGrouped, HasAllBy, IsWhyOfAllBy};
ghost use Rattle.failure_report.specs.Named.{IsReportedOfNode, AreReported, IsWhyOfNamed};

use crate::failed::{Failure, failures, is_in_error, last_ends};
use crate::groups::{Group, groups_of};
use crate::launches::launch_facts;
use crate::notes::LogNotes;
use crate::numbers::{Named, numbers_of};
use crate::reported::{Run, failure_block};
use crate::same::group_block;
use crate::standing::standing_block;
use crate::waiting::{held_lists, waiting_for};
use log_lines::unquoted;
use node_machine::Ended;
use sched_core::Core;
use std::alloc::{AllocError, Global};
use std::fs::File;
use std::rt::Files;

/// Where a run is on the disk.
#[derive(Clone, Copy)]
pub struct Surroundings<'a> {
    /// The path of its DAG file.
    pub top: &'a str,
    /// The folder from which paths are taken, where the log doesn't say another one.
    pub folder: &'a str,
    /// The bytes of its log; none where there is no log.
    pub log: &'a [u8],
}

/// How all nodes in error are reported.
#[derive(Clone, Copy, Debug, PartialEq, Eq)]
pub enum Grouping {
    /// Those with one cause once: the first of them, and the names of the others.
    ByCause,
    /// Each by itself.
    Each,
}

/// What is reported of nodes.
#[derive(Drop)]
pub enum Why {
    /// This text.
    Reported(String),
    /// A name is none of a node; this line says which.
    Unknown(String),
}

/// A node that is reported.
#[derive(Clone, Copy)]
pub(crate) enum Reported {
    /// It is in error.
    Failed(Failure),
    /// It is not.
    Standing(u32),
}

/// These nodes in error, as they are reported.
fn as_reported(alloc: Global, failures: &[Failure]) -> Result<Vec<Reported>, AllocError>
    ensures { IfOk result (λ reported. reported.items ≡ map Reported.Failed failures.now) }
{
    let mut reported = Vec::new(alloc);
    for failure in failures {
        reported.push(Reported::Failed(*failure))?;
    }
    Ok(reported)
}

/// All nodes in error.
pub(crate) fn all_failed(alloc: Global, core: &Core<'_>) -> Result<Vec<Reported>, AllocError>
    ensures { IfOk result (λ reported. AreAllFailed core.now.plan core.now.past reported.items) }
{
    let failed = failures(alloc, core)?;
    let reported = as_reported(alloc, &failed)?;
    Ok(reported)
}

/// Whether a node is in error, and then how it failed and how many wait for it, where these are the newest
/// endings of all nodes and the children of each that are not done.
fn reported_of_node(
    alloc: Global,
    core: &Core<'_>,
    ends: &[Option<Ended>],
    held: &[Vec<u32>],
    node: u32,
) -> Result<Reported, AllocError>
    requires ends { AreLastEnds core.now.plan core.now.past ends.now }
    requires held { AreChildrenLeft core.now.plan core.now.past (nodes_in held.now) }
    ensures { IfOk result (IsReportedOfNode core.now.plan core.now.past node) }
{
    if node > core.plan().count() {
        return Ok(Reported::Standing(node));
    }
    if !is_in_error(core, node) {
        return Ok(Reported::Standing(node));
    }
    let waiting = waiting_for(alloc, core, held, node)?;
    let end = ends[node as usize];
    Ok(Reported::Failed(Failure { node, end, waiting }))
}

/// These nodes, in their order.
pub(crate) fn all_named(
    alloc: Global,
    core: &Core<'_>,
    nodes: &[u32],
) -> Result<Vec<Reported>, AllocError>
    ensures { IfOk result (λ reported. AreReported core.now.plan core.now.past nodes.now reported.items) }
{
    let ends = last_ends(alloc, core)?;
    let held = held_lists(alloc, core)?;
    let mut reported = Vec::new(alloc);
    for node in nodes {
        reported.push(reported_of_node(alloc, core, &ends, &held, *node)?)?;
    }
    Ok(reported)
}

/// Asks a log for the attempt of a node that is reported: its last one, or the one that runs.
fn ask(core: &Core<'_>, notes: &mut LogNotes<'_>, reported: &Reported) -> Result<(), AllocError> {
    match reported {
        Reported::Failed(failure) => match failure.end {
            Some(end) => notes.ask(failure.node, end.attempt),
            None => Ok(()),
        },
        Reported::Standing(node) if *node <= core.plan().count() => match core.next(*node) {
            Some(key) => notes.ask(*node, key.attempt),
            None => Ok(()),
        },
        Reported::Standing(_) => Ok(()),
    }
}

/// What a log says of the nodes that are reported.
fn notes_for<'l>(
    alloc: Global,
    core: &Core<'_>,
    reported: &[Reported],
    log: &'l [u8],
) -> Result<LogNotes<'l>, AllocError> {
    let mut notes = LogNotes::new(alloc, core.plan().count() as usize + 1)?;
    for one in reported {
        ask(core, &mut notes, one)?;
    }
    notes.read(core.plan(), log);
    Ok(notes)
}

/// The node whose value aborted the round: the first in plan order that has its abort value.
fn aborting(core: &Core<'_>) -> Option<u32>
    ensures { IfSome result (λ node. node < count_of core.now.plan) }
{
    for node in 0..core.plan().count() {
        let value = core.last_value(node);
        if value.is_some() && value == core.plan().spec(node).course().abort_on {
            return Some(node);
        }
    }
    None
}

/// Adds what is reported of the round as a whole: that none was begun, or that it was aborted.
fn push_round(text: &mut String, core: &Core<'_>) -> Result<(), AllocError> {
    if core.records().is_empty() {
        return text.push_str("no round was begun\n");
    }
    if !core.aborted() {
        return Ok(());
    }
    match aborting(core) {
        Some(node) => {
            let name = core.plan().spec(node).name();
            writeln!(
                text,
                "the round was aborted by {name}, whose value is that of its ABORT-DAG-ON line"
            )
        }
        None => text.push_str("the round was aborted\n"),
    }
}

/// What is between a text and the next node: an empty line, where something is before it.
fn gap_behind(text: &str) -> &'static str {
    if text.is_empty() { "" } else { "\n" }
}

/// What is reported of a node.
fn block_of<R: Files<File = File> + AllocGlobal>(
    rt: &R,
    run: &Run<'_, '_, '_>,
    one: &Reported,
) -> Result<String, AllocError>
    ensures { IfOk result (λ block. IsBlock run.now.core.now.plan one.now (string_bytes block)) }
{
    match one {
        Reported::Failed(failure) => failure_block(rt, run, failure),
        Reported::Standing(node) => standing_block(rt, run, *node),
    }
}

/// Adds what is reported of a node.
fn push_block<R: Files<File = File> + AllocGlobal>(
    rt: &R,
    text: &mut String,
    run: &Run<'_, '_, '_>,
    one: &Reported,
) -> Result<(), AllocError>
    ensures { OnOk result (HasBlock run.now.core.now.plan one.now (string_bytes text.old) (string_bytes text.new)) }
{
    let block = block_of(rt, run, one)?;
    text.push_str(gap_behind(text.as_str()))?;
    text.push_str(block.as_str())?;
    Ok(())
}

/// What is reported before all nodes.
fn front_of(alloc: Global, core: &Core<'_>, reported: &[Reported]) -> Result<String, AllocError> {
    let mut text = String::new(alloc);
    push_round(&mut text, core)?;
    if reported.is_empty() {
        text.push_str("no node is in error\n")?;
    }
    Ok(text)
}

/// The text of some nodes of a run.
fn text_of<R: Files<File = File> + AllocGlobal>(
    rt: &R,
    run: &Run<'_, '_, '_>,
    reported: &[Reported],
) -> Result<String, AllocError>
    ensures { IfOk result (λ text. HasBlocks run.now.core.now.plan reported.now (string_bytes text)) }
{
    let mut text = front_of(rt.alloc(), run.core, reported)?;
    for one in reported {
        push_block(rt, &mut text, run, one)?;
    }
    Ok(text)
}

/// Adds what is reported of a group of nodes in error.
fn push_group<R: Files<File = File> + AllocGlobal>(
    rt: &R,
    text: &mut String,
    run: &Run<'_, '_, '_>,
    group: &Group,
) -> Result<(), AllocError>
    ensures { OnOk result (HasGroup run.now.core.now.plan group.now (string_bytes text.old) (string_bytes text.new)) }
{
    let block = group_block(rt, run, group)?;
    text.push_str(gap_behind(text.as_str()))?;
    text.push_str(block.as_str())?;
    Ok(())
}

/// The text of nodes in error that are in groups, after what is reported before all nodes.
fn text_of_groups<R: Files<File = File> + AllocGlobal>(
    rt: &R,
    front: String,
    run: &Run<'_, '_, '_>,
    groups: &[Group],
) -> Result<String, AllocError>
    ensures { IfOk result (λ text. HasGroups run.now.core.now.plan groups.now (string_bytes text)) }
{
    let mut text = front;
    for group in groups {
        push_group(rt, &mut text, run, group)?;
    }
    Ok(text)
}

/// What is known of a run in which these nodes are reported.
pub(crate) fn run_of<'c, 'p, 'l>(
    alloc: Global,
    core: &'c Core<'p>,
    place: &Surroundings<'l>,
    reported: &[Reported],
) -> Result<Run<'c, 'p, 'l>, AllocError>
    ensures { IfOk result (λ run. run.core.now.plan ≡ core.now.plan) }
{
    let notes = notes_for(alloc, core, reported, place.log)?;
    let folder = match notes.folder {
        Some(value) => unquoted(alloc, value)?,
        None => String::from_str(alloc, place.folder)?,
    };
    Ok(Run {
        core,
        ends: last_ends(alloc, core)?,
        facts: launch_facts(alloc, core)?,
        notes,
        folder,
    })
}

/// What is reported of these nodes of a run.
fn reported_of<R: Files<File = File> + AllocGlobal>(
    rt: &R,
    core: &Core<'_>,
    place: &Surroundings<'_>,
    reported: &[Reported],
) -> Result<String, AllocError>
    ensures { IfOk result (λ text. HasBlocks core.now.plan reported.now (string_bytes text)) }
{
    let run = run_of(rt.alloc(), core, place, reported)?;
    let text = text_of(rt, &run, reported)?;
    Ok(text)
}

/// What is reported of all nodes in error, in groups.
fn grouped_text<R: Files<File = File> + AllocGlobal>(
    rt: &R,
    core: &Core<'_>,
    place: &Surroundings<'_>,
) -> Result<String, AllocError>
    ensures { IfOk result (λ text. HasAllGrouped core.now.plan core.now.past (string_bytes text)) }
{
    let alloc = rt.alloc();
    let failed = failures(alloc, core)?;
    let reported = as_reported(alloc, &failed)?;
    let run = run_of(alloc, core, place, &reported)?;
    let groups = groups_of(rt, &run, &failed)?;
    let front = front_of(alloc, core, &reported)?;
    let text = text_of_groups(rt, front, &run, &groups)?;
    Ok(text)
}

/// What is reported of all nodes in error.
fn all_text<R: Files<File = File> + AllocGlobal>(
    rt: &R,
    core: &Core<'_>,
    place: &Surroundings<'_>,
    grouping: Grouping,
) -> Result<String, AllocError>
    ensures { IfOk result (λ text. HasAllBy grouping core.now.plan core.now.past (string_bytes text)) }
{
    if grouping == Grouping::ByCause {
        return Ok(grouped_text(rt, core, place)?);
    }
    let reported = all_failed(rt.alloc(), core)?;
    Ok(reported_of(rt, core, place, &reported)?)
}

/// What is reported of the nodes of these names in their order; where there is no name, of all that are in
/// error, those first for which most nodes wait, and of as many in plan order. What the log and the files
/// of jobs say is reported as far as they can be read.
///
/// Where there is no name, those with one cause may be reported once, at the place of the first of them. A cause is the phase that
/// failed, its outcome, the reason where it was not started, and the last line that is quoted of its error output.
///
/// # Errors
/// Lack of memory, and nothing else.
pub fn why_text<R: Files<File = File> + AllocGlobal>(
    rt: &R,
    core: &Core<'_>,
    place: &Surroundings<'_>,
    names: &[&str],
    grouping: Grouping,
) -> Result<Why, AllocError>
    // Where no node is named, it is the text of all nodes in error, each with its line, or in groups.
    ensures all { length names.now ≡ 0 → IfOk result (IsWhyOfAllBy grouping core.now.plan core.now.past) }
    ensures named { length names.now ≢ 0 →
        IfOk result (IsWhyOfNamed core.now.plan core.now.past place.now.top.now (map (λ n. n.now) names.now)) }
{
    let alloc = rt.alloc();
    if names.is_empty() {
        return Ok(Why::Reported(all_text(rt, core, place, grouping)?));
    }
    match numbers_of(alloc, core.plan(), place.top, names)? {
        Named::Nodes(nodes) => {
            let reported = all_named(alloc, core, &nodes)?;
            Ok(Why::Reported(reported_of(rt, core, place, &reported)?))
        }
        Named::Unknown(line) => Ok(Why::Unknown(line)),
    }
}
