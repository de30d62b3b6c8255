//! A summary for a person: where the time went, and what would make it shorter.

ghost use Rattle.std.specs.Prelude.{◌≡◌, ◌++◌, false, replicate, slice_get, OnOk, IfOk, string_bytes};
ghost use Rattle.run_times.specs.Table.{seconds_text};
ghost use Rattle.run_times.specs.Critical.{IsCriticalPath};
ghost use Rattle.run_times.specs.Limits.{AreRoundLimits};
ghost use Rattle.run_plan.specs.Submitted.{bare_plan};
ghost use Rattle.run_times.specs.Gains.{AreGains};
ghost use Rattle.run_times.specs.Summary.{phases_text, summary_took_text, busy_text, limits_text, gain_text, gains_text, column_text, wait_text, counted_text, turn_text, waited_for, path_phase_text, path_row_text, parts_text, kind_text, kinds_text, busy_in, summary_opening, lists_text, summary_text_of, IsSummary};

use crate::canvas::latest_end;
use crate::critical::run_end_at;
use crate::gains::{Gain, gains_of};
use crate::kinds::{Kind, longest_kinds};
use crate::limits::{Counted, Limit, holder_of};
use crate::load::most_running;
use crate::parts::{begun_at, end_of_rest, lasted_at, lasted_in, waited_for_turn};
use crate::runs::PhaseRun;
use crate::soonest::time_without_limits;
use crate::table::push_seconds;
use dag_graph::Graph;
use log_lines::phase_word;
use run_plan::Plan;
use std::alloc::{AllocError, Global};

/// How many letters a column of numbers has.
const WIDTH: usize = 10;

/// The numbers of a summary; times are in milliseconds.
#[derive(Clone, Copy)]
struct Figures {
    /// how long the run took
    took: u64,
    /// how long the phases of the critical path took
    lasted: u64,
    /// how long all phases took
    busy: u64,
    /// how many phases there were
    count: usize,
    /// how many ran at once, at most
    most: usize,
    /// how long the run would have taken without limits
    soonest: u64,
}

/// How long all phases took.
fn busy_in(runs: &[PhaseRun<'_>]) -> u64
    ensures { result ≡ busy_in runs.now }
{
    let mut total: u64 = 0;
    for run in runs {
        total = total.saturating_add(run.took);
    }
    total
}

/// Adds a number of phases.
fn push_phases(text: &mut String, count: usize) -> Result<(), AllocError>
    ensures { OnOk result (string_bytes text.new ≡ string_bytes text.old ++ phases_text count) }
{
    if count == 1 {
        text.push_str("1 phase")
    } else {
        write!(text, "{count} phases")
    }
}

/// Adds how long the run took, and the phases of the critical path.
fn push_took(text: &mut String, took: u64, lasted: u64) -> Result<(), AllocError>
    ensures { OnOk result (string_bytes text.new ≡ string_bytes text.old ++ summary_took_text took lasted) }
{
    text.push_str("took ")?;
    push_seconds(text, took)?;
    text.push_str(" s, ")?;
    push_seconds(text, lasted)?;
    text.push_str(" s of it in the phases of the critical path\n")?;
    Ok(())
}

/// Adds how long all phases took, how many there were, and how many at once.
fn push_busy(text: &mut String, took: u64, count: usize, most: usize) -> Result<(), AllocError>
    ensures { OnOk result (string_bytes text.new ≡ string_bytes text.old ++ busy_text took count most) }
{
    text.push_str("busy ")?;
    push_seconds(text, took)?;
    text.push_str(" s in ")?;
    push_phases(text, count)?;
    write!(text, ", at most {most} at once\n")
}

/// Adds how long it would have taken without limits.
fn push_limits(text: &mut String, soonest: u64) -> Result<(), AllocError>
    ensures { OnOk result (string_bytes text.new ≡ string_bytes text.old ++ limits_text soonest) }
{
    text.push_str("without limits it would have taken at least ")?;
    push_seconds(text, soonest)?;
    text.push_str(" s\n")?;
    Ok(())
}

/// Adds how long it would have taken with no limit on something, and under all limits.
fn push_gain(text: &mut String, gain: &Gain<'_>) -> Result<(), AllocError>
    ensures { OnOk result (string_bytes text.new ≡ string_bytes text.old ++ gain_text gain.now) }
{
    text.push_str("with no limit on ")?;
    push_counted(text, gain.counted)?;
    text.push_str(" it would have taken ")?;
    push_seconds(text, gain.without)?;
    text.push_str(" s, ")?;
    push_seconds(text, gain.under_all)?;
    text.push_str(" s with all limits\n")?;
    Ok(())
}

/// Adds what more slots could gain.
fn push_gains(text: &mut String, gains: &[Gain<'_>]) -> Result<(), AllocError>
    ensures { OnOk result (string_bytes text.new ≡ string_bytes text.old ++ gains_text gains.now) }
{
    for gain in gains {
        push_gain(text, gain)?;
    }
    Ok(())
}

/// Adds a number that ends where its column does.
fn push_column(text: &mut String, number: &str) -> Result<(), AllocError>
    ensures { OnOk result (string_bytes text.new ≡ string_bytes text.old ++ column_text number.now) }
{
    push_spaces(text, WIDTH.saturating_sub(number.len()))?;
    text.push_str(number)
}

/// Adds so many spaces.
fn push_spaces(text: &mut String, count: usize) -> Result<(), AllocError>
    ensures { OnOk result (string_bytes text.new ≡ string_bytes text.old ++ replicate count 32) }
{
    for _column in 0..count {
        text.push(' ')?;
    }
    Ok(())
}

/// Adds milliseconds as seconds in a column.
fn push_time(alloc: Global, text: &mut String, milliseconds: u64) -> Result<(), AllocError>
    ensures { OnOk result (string_bytes text.new ≡ string_bytes text.old ++ column_text (seconds_text milliseconds)) }
{
    let mut number = String::new(alloc);
    push_seconds(&mut number, milliseconds)?;
    push_column(text, number.as_str())
}

/// How long a phase waited that could begin at one moment and began at another; with a minus, if it began first.
fn wait_text(alloc: Global, from: u64, until: u64) -> Result<String, AllocError>
    ensures { IfOk result (λ text. string_bytes text ≡ wait_text from until) }
{
    let mut text = String::new(alloc);
    if from <= until {
        push_seconds(&mut text, until - from)?;
    } else {
        text.push('-')?;
        push_seconds(&mut text, from - until)?;
    }
    Ok(text)
}

/// Adds what a limit counts.
fn push_counted(text: &mut String, counted: Counted<'_>) -> Result<(), AllocError>
    ensures { OnOk result (string_bytes text.new ≡ string_bytes text.old ++ counted_text counted.entry) }
{
    match counted {
        Counted::Jobs => text.push_str("jobs"),
        Counted::PreScripts => text.push_str("PRE scripts"),
        Counted::PostScripts => text.push_str("POST scripts"),
        Counted::JobsOf(category) => write!(text, "jobs of {category}"),
        Counted::Children => text.push_str("phases"),
    }
}

/// Adds for which limit a phase waited for its turn, if it did, and the end of its row.
fn push_turn(text: &mut String, limit: Option<Limit<'_>>) -> Result<(), AllocError>
    ensures { OnOk result (string_bytes text.new ≡ string_bytes text.old ++ turn_text limit.entry) }
{
    match limit {
        Some(limit) => {
            write!(text, "  for its turn: limit {} on ", limit.most)?;
            push_counted(text, limit.counted)?;
            text.push('\n')
        }
        None => text.push('\n'),
    }
}

/// The limit for which the phase at a place waited that could begin at a moment, if it waited for its turn.
fn waited_for<'a>(
    graph: &Graph,
    limits: &[Limit<'a>],
    runs: &[PhaseRun<'_>],
    place: usize,
    from: u64,
) -> Option<Limit<'a>>
    ensures { result ≡ waited_for graph.now limits.now runs.now place from }
{
    if waited_for_turn(runs, from, begun_at(runs, place)) {
        holder_of(graph, runs, limits, place)
    } else {
        None
    }
}

/// Adds what was run at a place, if there is such a phase.
fn push_run(text: &mut String, runs: &[PhaseRun<'_>], place: usize) -> Result<(), AllocError>
    ensures { OnOk result (string_bytes text.new ≡ string_bytes text.old ++ path_phase_text (slice_get runs.now place)) }
{
    match runs.get(place) {
        Some(run) => {
            let (node, phase) = (run.node, phase_word(run.phase));
            write!(text, "{node} {phase} {}", run.attempt)
        }
        None => Ok(()),
    }
}

/// The phases whose critical path a summary shows, with the graph of their nodes and the limits under which they ran.
#[derive(Clone, Copy)]
struct Shown<'a> {
    graph: &'a Graph,
    limits: &'a [Limit<'a>],
    runs: &'a [PhaseRun<'a>],
}

/// Adds the row of a phase of the critical path, by when that ended for which it waited.
fn push_part(
    alloc: Global,
    text: &mut String,
    shown: &Shown<'_>,
    place: usize,
    from: u64,
) -> Result<(), AllocError>
    ensures { OnOk result (string_bytes text.new ≡ string_bytes text.old
        ++ path_row_text shown.now.graph.now shown.now.limits.now shown.now.runs.now place from) }
{
    let Shown {
        graph,
        limits,
        runs,
    } = *shown;
    let waited = wait_text(alloc, from, begun_at(runs, place))?;
    push_column(text, waited.as_str())?;
    push_time(alloc, text, lasted_at(runs, place))?;
    text.push_str("  ")?;
    push_run(text, runs, place)?;
    push_turn(text, waited_for(graph, limits, runs, place, from))?;
    Ok(())
}

/// Adds the rows of a path, which has the last phase first.
fn push_parts(
    alloc: Global,
    text: &mut String,
    shown: &Shown<'_>,
    path: &[usize],
) -> Result<(), AllocError>
    ensures { OnOk result (string_bytes text.new ≡ string_bytes text.old
        ++ parts_text shown.now.graph.now shown.now.limits.now shown.now.runs.now path.now) }
{
    let mut place = path.len();
    while place > 0 {
        place -= 1;
        let from = end_of_rest(shown.runs, &path[place + 1..]);
        push_part(alloc, text, shown, path[place], from)?;
    }
    Ok(())
}

/// Adds the row of a kind.
fn push_kind(alloc: Global, text: &mut String, kind: &Kind<'_>) -> Result<(), AllocError>
    ensures { OnOk result (string_bytes text.new ≡ string_bytes text.old ++ kind_text kind.now) }
{
    push_time(alloc, text, kind.total.took)?;
    let (name, count) = (kind.name, kind.total.count);
    write!(text, " s  {count} of {name}\n")
}

/// Adds the rows of kinds.
fn push_kinds(alloc: Global, text: &mut String, kinds: &[Kind<'_>]) -> Result<(), AllocError>
    ensures { OnOk result (string_bytes text.new ≡ string_bytes text.old ++ kinds_text kinds.now) }
{
    for kind in kinds {
        push_kind(alloc, text, kind)?;
    }
    Ok(())
}

/// Adds the first lines.
fn push_opening(text: &mut String, figures: &Figures, gains: &[Gain<'_>]) -> Result<(), AllocError>
    ensures { OnOk result (string_bytes text.new ≡ string_bytes text.old ++ summary_opening figures.now gains.now) }
{
    push_took(text, figures.took, figures.lasted)?;
    push_busy(text, figures.busy, figures.count, figures.most)?;
    push_limits(text, figures.soonest)?;
    push_gains(text, gains)?;
    Ok(())
}

/// Adds the two lists.
fn push_lists(
    alloc: Global,
    text: &mut String,
    shown: &Shown<'_>,
    path: &[usize],
    kinds: &[Kind<'_>],
) -> Result<(), AllocError>
    ensures { OnOk result (string_bytes text.new ≡ string_bytes text.old
        ++ lists_text shown.now.graph.now shown.now.limits.now shown.now.runs.now path.now kinds.now) }
{
    text.push_str("\ncritical path\n    waited   seconds\n")?;
    push_parts(alloc, text, shown, path)?;
    text.push_str("\nlongest kinds\n")?;
    push_kinds(alloc, text, kinds)?;
    Ok(())
}

/// What a summary is of: a round, by its plan, its phases and the limits under which these ran, and whether it has ended.
#[derive(Clone, Copy)]
pub(crate) struct Round<'a> {
    pub(crate) plan: &'a Plan,
    pub(crate) limits: &'a [Limit<'a>],
    pub(crate) runs: &'a [PhaseRun<'a>],
    pub(crate) ended: bool,
}

/// What more slots could gain, where the round has ended.
fn gains_in<'a>(alloc: Global, round: &Round<'a>) -> Result<Vec<Gain<'a>>, AllocError>
    requires plan { round.now.plan.now ≡ bare_plan false round.now.plan.now.graph }
    ensures { IfOk result (λ gains. AreGains round.now.plan.now.graph round.now.runs.now round.now.limits.now gains.items) }
{
    if round.ended {
        gains_of(alloc, round.plan, round.limits, round.runs)
    } else {
        Ok(Vec::new(alloc))
    }
}

/// A summary of a round, with its critical path: how long the run took, how much of that the phases of the path; how long all phases took;
/// how long it would have taken without limits, and with no limit on each thing of which one was full; how long each phase of
/// the path waited and took, and for which limit; and the kinds of phases that took longest. Times are in seconds.
///
/// # Errors
/// Lack of memory.
pub(crate) fn summary_text(
    alloc: Global,
    round: &Round<'_>,
    path: &[usize],
) -> Result<String, AllocError>
    requires plan { round.now.plan.now ≡ bare_plan false round.now.plan.now.graph }
    requires path { IsCriticalPath round.now.plan.now.graph round.now.runs.now path.now }
    requires limits { AreRoundLimits round.now.plan.now.graph round.now.limits.now }
    ensures { IfOk result (λ text. IsSummary round.now.plan.now.graph round.now.runs.now path.now (string_bytes text)) }
{
    let (limits, runs) = (round.limits, round.runs);
    let graph = round.plan.graph();
    let kinds = longest_kinds(alloc, graph, runs)?;
    let figures = Figures {
        took: latest_end(runs),
        lasted: lasted_in(runs, path),
        busy: busy_in(runs),
        count: runs.len(),
        most: most_running(alloc, runs)?.max(1),
        soonest: time_without_limits(alloc, graph, runs)?,
    };
    let gains = gains_in(alloc, round)?;
    let mut text = String::new(alloc);
    if runs.is_empty() {
        text.push_str("no phase was run\n")?;
        return Ok(text);
    }
    let shown = Shown {
        graph,
        limits,
        runs,
    };
    push_opening(&mut text, &figures, &gains)?;
    push_lists(alloc, &mut text, &shown, path, &kinds)?;
    Ok(text)
}
