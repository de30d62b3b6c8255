//! Limits on how many phases run at once: which phases each counts, how many of these ran, and which limit held a phase back.

ghost use Rattle.std.specs.Prelude.{◌≡◌, filter, find, slice_get, IfOk, OnOk};
ghost use Rattle.run_times.specs.Limits.{is_category_named, is_in_category, counts_run, most_counted, IsAllowed, AreRoundLimits, runs_as, holds_run, holder_of};

use crate::critical::run_node_of;
use crate::load::most_running;
use crate::runs::PhaseRun;
use dag_graph::Graph;
use log_lines::{LogLine, read_line, whole_lines};
use node_machine::Phase;
use splices_flat::CategorySetting;
use std::alloc::{AllocError, Global};

/// Which phases a limit counts.
#[derive(Clone, Copy, Debug)]
pub enum Counted<'a> {
    /// Jobs.
    Jobs,
    /// PRE scripts.
    PreScripts,
    /// POST scripts.
    PostScripts,
    /// The jobs of the nodes of the category of this name.
    JobsOf(&'a str),
    /// All phases.
    Children,
}

/// A limit on how many phases run at once.
#[derive(Clone, Copy, Debug)]
pub struct Limit<'a> {
    /// Which phases it counts.
    pub counted: Counted<'a>,
    /// How many of these it allows.
    pub most: u64,
}

/// Whether a setting is that of a category of this name.
fn is_category_named(setting: &Option<CategorySetting>, name: &str) -> bool
    ensures { result ≡ is_category_named name.now setting.now }
{
    match setting {
        Some(setting) => setting.name.as_str() == name,
        None => false,
    }
}

/// Whether the node of a phase is in the category of this name.
fn is_in_category(graph: &Graph, run: &PhaseRun<'_>, name: &str) -> bool
    ensures { result ≡ is_in_category graph.now run.now name.now }
{
    match run_node_of(graph, run) {
        Some(number) => match graph.flat().nodes().get(number as usize) {
            Some(node) => is_category_named(&node.settings.category, name),
            None => false,
        },
        None => false,
    }
}

/// Whether a limit counts a phase.
fn counts(graph: &Graph, counted: Counted<'_>, run: &PhaseRun<'_>) -> bool
    ensures { result ≡ counts_run graph.now counted.entry run.now }
{
    match (counted, run.phase) {
        (Counted::Jobs, Phase::Job)
        | (Counted::PreScripts, Phase::Pre)
        | (Counted::PostScripts, Phase::Post)
        | (Counted::Children, _) => true,
        (Counted::JobsOf(name), Phase::Job) => is_in_category(graph, run, name),
        _ => false,
    }
}

/// The phases that a limit counts.
fn counted_in<'a>(
    alloc: Global,
    graph: &Graph,
    runs: &[PhaseRun<'a>],
    counted: Counted<'_>,
) -> Result<Vec<PhaseRun<'a>>, AllocError>
    ensures { IfOk result (λ found. found.items ≡ filter (counts_run graph.now counted.entry) runs.now) }
{
    let mut found = Vec::new(alloc);
    for run in runs {
        if counts(graph, counted, run) {
            found.push(*run)?;
        }
    }
    Ok(found)
}

/// How many of the phases that a limit counts ran at once, at most, when one of them began.
///
/// # Errors
/// Lack of memory.
pub fn most_counted(
    alloc: Global,
    graph: &Graph,
    runs: &[PhaseRun<'_>],
    counted: Counted<'_>,
) -> Result<usize, AllocError>
    ensures { IfOk result (λ most. most ≡ most_counted graph.now counted.entry runs.now) }
{
    let found = counted_in(alloc, graph, runs, counted)?;
    most_running(alloc, &found)
}

/// The limits of a manager on all phases of a kind; 0 is no limit.
#[derive(Clone, Copy, Default)]
struct ManagerLimits {
    jobs: u64,
    pre: u64,
    post: u64,
    children: u64,
}

/// The number of a detail of a line; 0 where it has none.
fn number_in(line: &LogLine<'_>, name: &str) -> u64 {
    line.detail(name)
        .and_then(|number| number.parse().ok())
        .unwrap_or(0)
}

/// The limits of the last manager that a log tells of.
fn manager_limits(log: &[u8]) -> ManagerLimits {
    let mut limits = ManagerLimits::default();
    for line in whole_lines(log).split(|byte| *byte == b'\n') {
        match read_line(line) {
            Some(line) if line.event == "life" => {
                limits = ManagerLimits {
                    jobs: number_in(&line, "jobs"),
                    pre: number_in(&line, "pre"),
                    post: number_in(&line, "post"),
                    children: number_in(&line, "children"),
                };
            }
            _ => {}
        }
    }
    limits
}

/// Whether a round has ended, by the last manager that its log tells of.
pub(crate) fn has_ended(log: &[u8]) -> bool {
    let mut ended = false;
    for line in whole_lines(log).split(|byte| *byte == b'\n') {
        match read_line(line) {
            Some(line) if line.event == "life" => ended = false,
            Some(line) if line.event == "finish" => ended = true,
            _ => {}
        }
    }
    ended
}

/// Adds a limit, where there is one.
fn push_limit<'a>(
    limits: &mut Vec<Limit<'a>>,
    graph: &Graph,
    counted: Counted<'a>,
    most: u64,
) -> Result<(), AllocError>
    requires limits { AreRoundLimits graph.now limits.old.items }
    requires allowed { IsAllowed graph.now counted most }
    ensures { OnOk result (AreRoundLimits graph.now limits.new.items) }
{
    if most > 0 {
        limits.push(Limit { counted, most })?;
    }
    Ok(())
}

/// The limits that the files of a graph have on categories.
fn category_limits<'a>(alloc: Global, graph: &'a Graph) -> Result<Vec<Limit<'a>>, AllocError>
    ensures { IfOk result (λ limits. AreRoundLimits graph.now limits.items) }
{
    let mut limits = Vec::new(alloc);
    for category in graph.flat().categories() {
        limits.push(Limit {
            counted: Counted::JobsOf(category.name.as_str()),
            most: u64::from(category.limit),
        })?;
    }
    Ok(limits)
}

/// The limits of a round: those that the files of its graph have on categories, and those of the last manager that its log tells of.
///
/// # Errors
/// Lack of memory.
pub fn limits_in<'a>(
    alloc: Global,
    graph: &'a Graph,
    log: &[u8],
) -> Result<Vec<Limit<'a>>, AllocError>
    ensures { IfOk result (λ limits. AreRoundLimits graph.now limits.items) }
{
    let manager = manager_limits(log);
    let mut limits = category_limits(alloc, graph)?;
    push_limit(&mut limits, graph, Counted::Jobs, manager.jobs)?;
    push_limit(&mut limits, graph, Counted::PreScripts, manager.pre)?;
    push_limit(&mut limits, graph, Counted::PostScripts, manager.post)?;
    push_limit(&mut limits, graph, Counted::Children, manager.children)?;
    Ok(limits)
}

/// Whether a phase runs at a moment, and is one that a limit counts.
fn runs_as(graph: &Graph, counted: Counted<'_>, time: u64, run: &PhaseRun<'_>) -> bool
    ensures { result ≡ runs_as graph.now counted.entry time run.now }
{
    counts(graph, counted, run) && run.begun <= time && time < run.end()
}

/// Whether a limit holds a phase back that it counts: it is full once the phase has begun.
fn holds(graph: &Graph, runs: &[PhaseRun<'_>], run: &PhaseRun<'_>, limit: &Limit<'_>) -> bool
    ensures { result ≡ holds_run graph.now runs.now run.now limit.now }
{
    let (counted, time) = (limit.counted, run.begun);
    let running = runs
        .iter()
        .filter(|other| runs_as(graph, counted, time, other))
        .count();
    counts(graph, counted, run) && limit.most <= running as u64
}

/// The first of these limits that holds a phase back, if one does.
fn holder_among<'a>(
    graph: &Graph,
    runs: &[PhaseRun<'_>],
    limits: &[Limit<'a>],
    run: &PhaseRun<'_>,
) -> Option<Limit<'a>>
    ensures { result ≡ find (holds_run graph.now runs.now run.now) limits.now }
{
    for limit in limits {
        if holds(graph, runs, run, limit) {
            return Some(*limit);
        }
    }
    None
}

/// The first limit that held back the phase at a place, if one did.
pub(crate) fn holder_of<'a>(
    graph: &Graph,
    runs: &[PhaseRun<'_>],
    limits: &[Limit<'a>],
    place: usize,
) -> Option<Limit<'a>>
    ensures { result ≡ holder_of graph.now runs.now limits.now (slice_get runs.now place) }
{
    match runs.get(place) {
        Some(run) => holder_among(graph, runs, limits, run),
        None => None,
    }
}
