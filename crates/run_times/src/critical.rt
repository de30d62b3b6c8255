//! Which phases the end of a run waited for.

ghost use Rattle.std.specs.Prelude.{◌≡◌, ◌+◌, ◌<◌, ℕ, length, vec_len, IfOk, OnOk, IfSome};
ghost use Rattle.run_times.specs.Critical.{run_node_of, run_node_at, run_end_at, later_of, latest_with, last_in, IsLatestOf, IsLastAmong, WaitsFor, IsCriticalPath, AreMarksOf};
ghost use Rattle.run_times.specs.Waits.{AreWaits, with_last};

use crate::runs::PhaseRun;
use dag_graph::Graph;
use std::alloc::{AllocError, Global};

/// For the first phases of a log: for which phase each waited, and what the next ones may wait for. Phases go by
/// their places.
#[derive(Drop)]
struct Waits {
    /// the last phase so far of each ordinary node
    last: Vec<Option<usize>>,
    /// the phase so far that ended last
    latest: Option<usize>,
    /// for each phase so far that for which it waited
    before: Vec<Option<usize>>,
}

/// The number of the ordinary node of a phase; none for FINAL, and where there is no such node.
#[tactic(auto, unfolding(crate::specs::Critical::run_node_of))]
pub(crate) fn run_node_of(graph: &Graph, run: &PhaseRun<'_>) -> Option<u32>
    ensures { result ≡ run_node_of graph.now run.now }
{
    match graph.node_named(run.node) {
        Some(node) if (node as usize) < graph.flat().nodes().len() => Some(node),
        _ => None,
    }
}

/// When the phase at a place ended; 0, where there is none.
pub(crate) fn run_end_at(runs: &[PhaseRun<'_>], place: usize) -> u64
    ensures { result ≡ run_end_at runs.now place }
{
    match runs.get(place) {
        Some(run) => run.end(),
        None => 0,
    }
}

/// The one of two phases that ended later; of two that ended in the same moment the one that comes later.
fn later_of(runs: &[PhaseRun<'_>], one: Option<usize>, other: usize) -> usize
    ensures { result ≡ later_of runs.now one other }
{
    match one {
        Some(first) => {
            let (end, other_end) = (run_end_at(runs, first), run_end_at(runs, other));
            if end < other_end {
                other
            } else if other_end < end {
                first
            } else {
                first.max(other)
            }
        }
        None => other,
    }
}

/// What a list of the last phases of nodes has for a node.
fn last_in(last: &[Option<usize>], node: u32) -> Option<usize>
    ensures { result ≡ last_in last.now node }
{
    match last.get(node as usize) {
        Some(found) => *found,
        None => None,
    }
}

/// The one of two phases that ended later, where there are both.
fn latest_with(runs: &[PhaseRun<'_>], latest: Option<usize>, found: Option<usize>) -> Option<usize>
    ensures { result ≡ latest_with runs.now latest found }
{
    match found {
        Some(place) => Some(later_of(runs, latest, place)),
        None => latest,
    }
}

/// The one of the last phases of these nodes that ended last.
fn latest_among(runs: &[PhaseRun<'_>], last: &[Option<usize>], parents: &[u32]) -> Option<usize>
    ensures { IsLatestOf runs.now (λ place. IsLastAmong last.now parents.now (length parents.now) place) result }
{
    let mut latest = None;
    for parent in parents {
        latest = latest_with(runs, latest, last_in(last, *parent));
    }
    latest
}

/// Notes the last phase of a node, if it is an ordinary one.
fn note_last(last: &mut Vec<Option<usize>>, node: Option<u32>, place: usize)
    requires { IfSome node (λ number. number < vec_len last.old) }
    ensures { last.new.items ≡ with_last last.old.items node place }
{
    if let Some(number) = node {
        last[number as usize] = Some(place);
    }
}

impl Waits {
    /// What is known before the first phase.
    fn new(alloc: Global, graph: &Graph, runs: &[PhaseRun<'_>]) -> Result<Waits, AllocError>
        ensures { IfOk result (λ waits. AreWaits graph.now runs.now waits 0) }
    {
        let last = vec![in alloc; None; graph.flat().nodes().len()]?;
        Ok(Waits {
            last,
            latest: None,
            before: Vec::new(alloc),
        })
    }

    /// For which phase the next one, of this node, waits.
    fn before_of(
        &self,
        graph: &Graph,
        runs: &[PhaseRun<'_>],
        place: usize,
        node: Option<u32>,
    ) -> Option<usize>
        requires waits { AreWaits graph.now runs.now self.now place }
        requires node { node ≡ run_node_at graph.now runs.now place }
        ensures { WaitsFor graph.now runs.now place result }
    {
        match node {
            Some(number) => match last_in(&self.last, number) {
                Some(last) => Some(last),
                None => latest_among(runs, &self.last, graph.parents(number)),
            },
            None => self.latest,
        }
    }

    /// Takes the next phase in.
    fn takes(
        &mut self,
        graph: &Graph,
        runs: &[PhaseRun<'_>],
        place: usize,
    ) -> Result<(), AllocError>
        requires waits { AreWaits graph.now runs.now self.old place }
        requires place { place < length runs.now }
        ensures { OnOk result (AreWaits graph.now runs.now self.new (place + 1)) }
    {
        let node = run_node_of(graph, &runs[place]);
        let before = self.before_of(graph, runs, place, node);
        self.before.push(before)?;
        note_last(&mut self.last, node, place);
        self.latest = Some(later_of(runs, self.latest, place));
        Ok(())
    }
}

/// The critical path of a log, from the last phase back: the one that ended last, the one for which that waited, and so on.
/// None of them could have taken longer without the end of the run coming later.
///
/// # Errors
/// Lack of memory.
pub(crate) fn critical_path(
    alloc: Global,
    graph: &Graph,
    runs: &[PhaseRun<'_>],
) -> Result<Vec<usize>, AllocError>
    ensures { IfOk result (λ path. IsCriticalPath graph.now runs.now path.items) }
{
    let mut waits = Waits::new(alloc, graph, runs)?;
    for place in 0..runs.len() {
        waits.takes(graph, runs, place)?;
    }
    path_of(alloc, graph, runs, &waits)
}

/// The phases from the latest back.
fn path_of(
    alloc: Global,
    _graph: &Graph,
    runs: &[PhaseRun<'_>],
    waits: &Waits,
) -> Result<Vec<usize>, AllocError>
    requires { AreWaits _graph.now runs.now waits.now (length runs.now) }
    ensures { IfOk result (λ path. IsCriticalPath _graph.now runs.now path.items) }
{
    let mut path = Vec::new(alloc);
    let mut next = waits.latest;
    while let Some(place) = next {
        path.push(place)?;
        next = waits.before[place];
    }
    Ok(path)
}

/// A mark for each of so many phases: whether it is on this path.
///
/// # Errors
/// Lack of memory.
pub(crate) fn marks_of(alloc: Global, path: &[usize], count: usize) -> Result<Vec<bool>, AllocError>
    ensures { IfOk result (λ marks. AreMarksOf path.now count marks.items) }
{
    let mut marks = vec![in alloc; false; count]?;
    for place in path {
        if *place < count {
            marks[*place] = true;
        }
    }
    Ok(marks)
}
