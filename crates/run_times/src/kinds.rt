//! The kinds of phases that took longest.

ghost use Rattle.std.specs.Prelude.{◌≡◌, ℕ, List, length, IfOk, OnOk, None, if◌then◌else◌};
ghost use Rattle.std.specs.Str.{bytes_eq};
ghost use Rattle.run_times.specs.Kinds.{file_in, file_of, kind_of, total_of, is_kind_among, longer_of, longest_with, IsLongestBesides, AreLongest};
ghost use Rattle.run_times.specs.Totals.{total_in, with_phase, AreTotals};

use crate::runs::PhaseRun;
use dag_graph::Graph;
use node_machine::Phase;
use splices_flat::FlatNode;
use std::alloc::{AllocError, Global};
use std::collections::HashMap;

/// How many kinds are reported.
const MOST: usize = 3;

/// What the kind of nodes is called that the files do not have.
const UNKNOWN: &str = "unknown nodes";

/// How many phases are of a kind, and how many milliseconds they took.
#[derive(Clone, Copy)]
pub(crate) struct Total {
    pub(crate) count: u64,
    pub(crate) took: u64,
}

/// A kind of phases.
#[derive(Clone, Copy)]
pub(crate) struct Kind<'a> {
    /// what it is called: the submit file of jobs, or the scripts of nodes
    pub(crate) name: &'a str,
    pub(crate) total: Total,
}

/// The submit file of the node of this number, or else of FINAL.
fn file_of<'a>(graph: &'a Graph, number: Option<u32>) -> &'a str
    ensures { result.now ≡ file_of graph.now.dag number }
{
    match number {
        Some(place) => match graph.flat().nodes().get(place as usize) {
            Some(node) => node.file.as_str(),
            None => final_file(graph),
        },
        None => UNKNOWN,
    }
}

/// The submit file of FINAL.
fn final_file<'a>(graph: &'a Graph) -> &'a str
    ensures { result.now ≡ file_in None graph.now.dag.final_node }
{
    match graph.flat().final_node() {
        Some(node) => node.file.as_str(),
        None => UNKNOWN,
    }
}

/// What the kind of a phase is called.
#[tactic(auto, unfolding(crate::specs::Kinds::kind_of))]
fn kind_of<'a>(graph: &'a Graph, run: &PhaseRun<'_>) -> &'a str
    ensures { result.now ≡ kind_of graph.now run.now }
{
    match run.phase {
        Phase::Pre => "PRE scripts",
        Phase::Job => file_of(graph, graph.node_named(run.node)),
        Phase::Post => "POST scripts",
    }
}

/// The total of a kind.
fn total_in(totals: &HashMap<&str, Total>, kind: &str) -> Total
    ensures { result ≡ total_in totals.now kind.now }
{
    match totals.get(kind) {
        Some(total) => *total,
        None => Total { count: 0, took: 0 },
    }
}

/// Adds what a phase of a kind took.
fn add<'a>(totals: &mut HashMap<&'a str, Total>, kind: &'a str, took: u64) -> Result<(), AllocError>
    ensures { OnOk result ((other : List ℕ) → total_in totals.new other ≡ (if bytes_eq kind.now other then with_phase (total_in totals.old other) took else total_in totals.old other)) }
{
    let before = total_in(totals, kind);
    let total = Total {
        count: before.count.saturating_add(1),
        took: before.took.saturating_add(took),
    };
    totals.insert(kind, total)?;
    Ok(())
}

/// The totals of all kinds.
fn totals_of<'a>(
    alloc: Global,
    graph: &'a Graph,
    runs: &[PhaseRun<'_>],
) -> Result<HashMap<&'a str, Total>, AllocError>
    ensures { IfOk result (AreTotals graph.now runs.now) }
{
    let mut totals = HashMap::new(alloc);
    for run in runs {
        add(&mut totals, kind_of(graph, run), run.took)?;
    }
    Ok(totals)
}

/// Whether a kind is among these.
fn is_kind_among(kinds: &[Kind<'_>], name: &str) -> bool
    ensures { result ≡ is_kind_among kinds.now name.now }
{
    kinds.iter().any(|kind| kind.name == name)
}

/// The one of two kinds that took longer; of two that took as long the first.
fn longer_of<'a>(one: Option<Kind<'a>>, other: Kind<'a>) -> Kind<'a>
    ensures { result ≡ longer_of one.entry other.entry }
{
    match one {
        Some(kind) if other.total.took <= kind.total.took => kind,
        _ => other,
    }
}

/// The longest kind of all besides these.
fn longest_besides<'a>(
    graph: &'a Graph,
    runs: &[PhaseRun<'_>],
    totals: &HashMap<&str, Total>,
    kinds: &[Kind<'a>],
) -> Option<Kind<'a>>
    requires { AreTotals graph.now runs.now totals.now }
    ensures { IsLongestBesides graph.now runs.now (length runs.now) kinds.now result }
{
    let mut longest = None;
    for run in runs {
        let name = kind_of(graph, run);
        longest = longest_with(totals, kinds, longest, name);
    }
    longest
}

/// The longer one of a kind and another, unless this is among some kinds.
fn longest_with<'a>(
    totals: &HashMap<&str, Total>,
    kinds: &[Kind<'_>],
    longest: Option<Kind<'a>>,
    name: &'a str,
) -> Option<Kind<'a>>
    ensures { result ≡ longest_with kinds.now longest.entry name.entry (total_in totals.now name.now) }
{
    if is_kind_among(kinds, name) {
        return longest;
    }
    let total = total_in(totals, name);
    Some(longer_of(longest, Kind { name, total }))
}

/// The kinds of phases that took longest, the longest first; at most three.
///
/// # Errors
/// Lack of memory.
pub(crate) fn longest_kinds<'a>(
    alloc: Global,
    graph: &'a Graph,
    runs: &[PhaseRun<'_>],
) -> Result<Vec<Kind<'a>>, AllocError>
    ensures { IfOk result (λ kinds. AreLongest graph.now runs.now kinds.items) }
{
    let totals = totals_of(alloc, graph, runs)?;
    let mut kinds = Vec::new(alloc);
    while kinds.len() < MOST {
        match longest_besides(graph, runs, &totals, &kinds) {
            Some(kind) => kinds.push(kind)?,
            None => return Ok(kinds),
        }
    }
    Ok(kinds)
}
