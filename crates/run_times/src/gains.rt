//! What more slots could gain, by replays of the phases that were run.

ghost use Rattle.std.specs.Prelude.{◌≡◌, false, map, filter, IfOk, IfSome, OnOk, IsTrue};
ghost use Rattle.node_machine.specs.declared.Key.{Key};
ghost use Rattle.node_machine.specs.Story.{is_possible};
ghost use Rattle.run_plan.specs.Submitted.{bare_plan};
ghost use Rattle.dag_main_rehearse.specs.Timed.{HasPossibleEnds, timings_of};
ghost use Rattle.run_times.specs.Gains.{signal_outcome, timing_of_run, timings_with, timings_in, core_number, with_number, core_limits, was_full, TakesUnder, TakesWithout, AreGains};

use crate::limits::{Counted, Limit, most_counted};
use crate::runs::{Ending, PhaseRun};
use crate::unlimited::plan_without_limit;
use dag_graph::Graph;
use dag_main_check::RunFault;
use dag_main_rehearse::{Timetable, Timing, replay_plan};
use node_machine::{Key, Outcome};
use run_plan::Plan;
use std::alloc::{AllocError, Global};
use throttles::Limits;

/// What a round would have taken with no limit on this, in milliseconds.
#[derive(Clone, Copy, Debug)]
pub(crate) struct Gain<'a> {
    /// which phases the limit counts that is left out
    pub(crate) counted: Counted<'a>,
    /// how long it takes without that limit
    pub(crate) without: u64,
    /// how long it takes under all limits
    pub(crate) under_all: u64,
}

/// How a phase ended that a signal ended; there are signals from 1 to 127.
fn signal_outcome(number: u8) -> Outcome
    ensures is { result ≡ signal_outcome number }
    ensures possible { IsTrue (is_possible result) }
{
    if 1 <= number && number <= 127 {
        Outcome::Signal(number)
    } else {
        Outcome::Untold
    }
}

/// How long a phase took, and how it ended.
fn timing_of(run: &PhaseRun<'_>) -> Timing
    ensures is { result ≡ timing_of_run run.now }
    ensures possible { IsTrue (is_possible result.outcome) }
{
    let outcome = match run.ending {
        Ending::Exit(code) => Outcome::Exit(code),
        Ending::Signal(number) => signal_outcome(number),
        Ending::NotStarted => Outcome::NoStart,
        Ending::Untold | Ending::Killed | Ending::Lost | Ending::Runs => Outcome::Untold,
    };
    Timing {
        took: run.took,
        outcome,
    }
}

/// Takes a phase that was run into a timetable.
fn add_run(
    alloc: Global,
    timetable: &mut Timetable,
    graph: &Graph,
    run: &PhaseRun<'_>,
) -> Result<(), AllocError>
    ensures timings { OnOk result ((key : Key) → timings_of timetable.new key ≡ timings_with graph.now run.now (timings_of timetable.old) key) }
    ensures possible { HasPossibleEnds (timings_of timetable.old) → OnOk result (HasPossibleEnds (timings_of timetable.new)) }
{
    match graph.node_named(run.node) {
        Some(node) => {
            let key = Key {
                node,
                attempt: run.attempt,
                phase: run.phase,
            };
            timetable.set(alloc, key, timing_of(run))
        }
        None => Ok(()),
    }
}

/// How long each phase took that was run, and how it ended; of those of one attempt the last counts.
fn timetable_of(
    alloc: Global,
    graph: &Graph,
    runs: &[PhaseRun<'_>],
) -> Result<Timetable, AllocError>
    ensures timings { IfOk result (λ timetable. (key : Key) → timings_of timetable key ≡ timings_in graph.now runs.now key) }
    ensures possible { IfOk result (λ timetable. HasPossibleEnds (timings_of timetable)) }
{
    let mut timetable = Timetable::new(alloc);
    for run in runs {
        add_run(alloc, &mut timetable, graph, run)?;
    }
    Ok(timetable)
}

/// A number of the core's, which has 32 bits.
fn core_number(most: u64) -> u32
    ensures { result ≡ core_number most }
{
    match u32::try_from(most) {
        Ok(number) => number,
        Err(_) => u32::MAX,
    }
}

/// The core's limits with this number for what is counted; those on categories are the plan's.
fn with_number(limits: Limits, counted: Counted<'_>, number: u32) -> Limits
    ensures { result ≡ with_number counted.entry number limits }
{
    match counted {
        Counted::Jobs => Limits {
            jobs: number,
            ..limits
        },
        Counted::PreScripts => Limits {
            pre: number,
            ..limits
        },
        Counted::PostScripts => Limits {
            post: number,
            ..limits
        },
        Counted::JobsOf(_) => limits,
        Counted::Children => Limits {
            children: number,
            ..limits
        },
    }
}

/// The limits of the core, of those of a round.
fn core_limits(limits: &[Limit<'_>]) -> Limits
    ensures { result ≡ core_limits limits.now }
{
    let mut all = Limits {
        jobs: 0,
        pre: 0,
        post: 0,
        children: 0,
    };
    for limit in limits {
        all = with_number(all, limit.counted, core_number(limit.most));
    }
    all
}

/// The limits that were full at some time.
fn full_limits<'a>(
    alloc: Global,
    graph: &Graph,
    limits: &[Limit<'a>],
    runs: &[PhaseRun<'_>],
) -> Result<Vec<Limit<'a>>, AllocError>
    ensures { IfOk result (λ full. full.items ≡ filter (was_full graph.now runs.now) limits.now) }
{
    let mut full = Vec::new(alloc);
    for limit in limits {
        let most = most_counted(alloc, graph, runs, limit.counted)?;
        if limit.most <= most as u64 {
            full.push(*limit)?;
        }
    }
    Ok(full)
}

/// How long a plan takes under these limits; none, where it is aborted or has too many records.
fn time_under(
    alloc: Global,
    plan: &Plan,
    limits: Limits,
    timetable: &Timetable,
) -> Result<Option<u64>, AllocError>
    requires possible { HasPossibleEnds (timings_of timetable.now) }
    ensures { IfOk result (λ time. IfSome time (TakesUnder limits plan.now (timings_of timetable.now))) }
{
    match replay_plan(alloc, plan, limits, timetable) {
        Ok(replay) if replay.aborted => Ok(None),
        Ok(replay) => Ok(Some(replay.time)),
        Err(RunFault::InManager(_)) => Ok(None),
        Err(_) => Err(AllocError),
    }
}

/// How long a plan takes with no limit on what is counted; none, where it is aborted or has too many records.
fn time_without(
    alloc: Global,
    plan: &Plan,
    limits: Limits,
    counted: Counted<'_>,
    timetable: &Timetable,
) -> Result<Option<u64>, AllocError>
    requires plan { plan.now ≡ bare_plan false plan.now.graph }
    requires possible { HasPossibleEnds (timings_of timetable.now) }
    ensures { IfOk result (λ time. IfSome time (TakesWithout plan.now.graph limits (timings_of timetable.now) counted.entry)) }
{
    match counted {
        Counted::JobsOf(category) => {
            let plan = plan_without_limit(alloc, plan.graph(), category)?;
            time_under(alloc, &plan, limits, timetable)
        }
        _ => time_under(alloc, plan, with_number(limits, counted, 0), timetable),
    }
}

/// What the limits on a round cost that were full at some time: how long it would have taken without each of them, and under all, by
/// replays of how long its phases took and how they ended. There are none where a replay is aborted or has too many records.
///
/// # Errors
/// Lack of memory.
pub(crate) fn gains_of<'a>(
    alloc: Global,
    plan: &Plan,
    limits: &[Limit<'a>],
    runs: &[PhaseRun<'_>],
) -> Result<Vec<Gain<'a>>, AllocError>
    requires plan { plan.now ≡ bare_plan false plan.now.graph }
    ensures { IfOk result (λ gains. AreGains plan.now.graph runs.now limits.now gains.items) }
{
    let mut gains = Vec::new(alloc);
    let full = full_limits(alloc, plan.graph(), limits, runs)?;
    if full.is_empty() {
        return Ok(gains);
    }
    let timetable = timetable_of(alloc, plan.graph(), runs)?;
    let all = core_limits(limits);
    let Some(under_all) = time_under(alloc, plan, all, &timetable)? else {
        return Ok(gains);
    };
    for limit in &full {
        let counted = limit.counted;
        let Some(without) = time_without(alloc, plan, all, counted, &timetable)? else {
            return Ok(Vec::new(alloc));
        };
        gains.push(Gain {
            counted,
            without,
            under_all,
        })?;
    }
    Ok(gains)
}
