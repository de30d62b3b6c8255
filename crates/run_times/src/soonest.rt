//! How soon a run could have ended without limits.

ghost use Rattle.std.specs.Prelude.{◌≡◌, ◌<◌, ◌≤◌, length, IfOk, set, slice_index};
ghost use Rattle.run_times.specs.Soonest.{run_number_of, AreBusy, greatest_time, last_end_of, AreSoonest, IsSoonest};

use crate::critical::run_node_of;
use crate::runs::PhaseRun;
use dag_graph::Graph;
use std::alloc::{AllocError, Global};

/// The number of the ordinary node of a phase; their count, for FINAL and where there is no such node.
fn run_number_of(graph: &Graph, run: &PhaseRun<'_>) -> usize
    ensures { result ≡ run_number_of graph.now run.now }
{
    match run_node_of(graph, run) {
        Some(node) => node as usize,
        None => graph.flat().nodes().len(),
    }
}

/// How long the phases of each number took.
fn busy_of(alloc: Global, graph: &Graph, runs: &[PhaseRun<'_>]) -> Result<Vec<u64>, AllocError>
    ensures { IfOk result (λ busy. AreBusy graph.now runs.now busy.items) }
{
    let mut busy = vec![in alloc; 0u64; graph.flat().nodes().len() + 1]?;
    for run in runs {
        let number = run_number_of(graph, run);
        let total = number_at(&busy, number).saturating_add(run.took);
        set_number(&mut busy, number, total);
    }
    Ok(busy)
}

/// The number at a place; 0, where there is none.
fn number_at(numbers: &[u64], place: usize) -> u64
    ensures { result ≡ slice_index numbers.now place }
{
    match numbers.get(place) {
        Some(number) => *number,
        None => 0,
    }
}

/// Sets the number at a place, if there is one.
fn set_number(numbers: &mut Vec<u64>, place: usize, number: u64)
    ensures { numbers.new.items ≡ set numbers.old.items place number }
{
    if place < numbers.len() {
        numbers[place] = number;
    }
}

/// The greatest of some numbers; 0, where there are none.
fn greatest_time(numbers: &[u64]) -> u64
    ensures { result ≡ greatest_time numbers.now }
{
    let mut most: u64 = 0;
    for number in numbers {
        most = most.max(*number);
    }
    most
}

/// When the last of some nodes ends.
fn last_end_of(ends: &[u64], nodes: &[u32]) -> u64
    ensures { result ≡ last_end_of ends.now nodes.now }
{
    let mut last: u64 = 0;
    for node in nodes {
        last = last.max(number_at(ends, *node as usize));
    }
    last
}

/// When each ordinary node could have ended, by how long the phases of each took.
fn ends_of(
    alloc: Global,
    graph: &Graph,
    runs: &[PhaseRun<'_>],
    busy: &[u64],
) -> Result<Vec<u64>, AllocError>
    requires { AreBusy graph.now runs.now busy.now }
    ensures { IfOk result (λ ends. AreSoonest graph.now runs.now ends.items) }
{
    let mut ends = vec![in alloc; 0u64; graph.flat().nodes().len()]?;
    for node in graph.order() {
        let place = *node as usize;
        let parents = last_end_of(&ends, graph.parents(*node));
        set_number(
            &mut ends,
            place,
            parents.saturating_add(number_at(busy, place)),
        );
    }
    Ok(ends)
}

/// How long the run would have taken if each node had begun when the last of its parents ended, and FINAL after all: the
/// longest path through the graph by what the phases took. No limit and no wait of dagrun's counts.
///
/// # Errors
/// Lack of memory.
pub(crate) fn time_without_limits(
    alloc: Global,
    graph: &Graph,
    runs: &[PhaseRun<'_>],
) -> Result<u64, AllocError>
    ensures { IfOk result (IsSoonest graph.now runs.now) }
{
    let busy = busy_of(alloc, graph, runs)?;
    let ends = ends_of(alloc, graph, runs, &busy)?;
    let others = number_at(&busy, graph.flat().nodes().len());
    Ok(greatest_time(&ends).saturating_add(others))
}
