//! How full the limits on what runs at once were.

ghost use Rattle.std.specs.Prelude.{◌≡◌, IfOk};
ghost use Rattle.run_times.specs.Limits.{IsAllowed, AreRoundLimits};
ghost use Rattle.report_answers.specs.Limits.{counted_word, counted_category, IsLimitRow, AreLimitRows};

use dag_graph::Graph;
use report_page::LimitRow;
use run_times::{Counted, Limit, PhaseRun, most_counted};
use std::alloc::{AllocError, Global};

/// What a limit counts, in a word.
fn counted_word(counted: Counted<'_>) -> &'static str
    ensures { result.now ≡ counted_word counted.entry }
{
    match counted {
        Counted::Jobs | Counted::JobsOf(_) => "jobs",
        Counted::PreScripts => "PRE scripts",
        Counted::PostScripts => "POST scripts",
        Counted::Children => "phases",
    }
}

/// The category whose nodes' jobs a limit counts, where it counts no others.
fn counted_category<'a>(counted: Counted<'a>) -> Option<&'a str>
    ensures { result ≡ counted_category counted.entry }
{
    match counted {
        Counted::JobsOf(category) => Some(category),
        _ => None,
    }
}

/// The row of a limit.
fn row_of<'a>(
    alloc: Global,
    graph: &Graph,
    runs: &[PhaseRun<'_>],
    limit: &Limit<'a>,
) -> Result<LimitRow<'a>, AllocError>
    requires { IsAllowed graph.now limit.now.counted limit.now.most }
    ensures { IfOk result (IsLimitRow graph.now runs.now) }
{
    let most = most_counted(alloc, graph, runs, limit.counted)?;
    Ok(LimitRow {
        what: counted_word(limit.counted),
        category: counted_category(limit.counted),
        limit: limit.most,
        most: most as u64,
    })
}

/// Whether somebody has chosen a limit on these: that on all phases is always there.
fn is_chosen(counted: Counted<'_>) -> bool {
    match counted {
        Counted::Children => false,
        _ => true,
    }
}

/// The rows of the limits of a graph that somebody has chosen, with how many of the phases that each counts ran at once.
///
/// # Errors
/// Lack of memory.
pub(crate) fn rows_of_limits<'a>(
    alloc: Global,
    graph: &Graph,
    runs: &[PhaseRun<'_>],
    limits: &[Limit<'a>],
) -> Result<Vec<LimitRow<'a>>, AllocError>
    requires { AreRoundLimits graph.now limits.now }
    ensures { IfOk result (λ rows. AreLimitRows graph.now runs.now rows.items) }
{
    let mut rows = Vec::new(alloc);
    for limit in limits {
        if is_chosen(limit.counted) {
            rows.push(row_of(alloc, graph, runs, limit)?)?;
        }
    }
    Ok(rows)
}
