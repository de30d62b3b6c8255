//! What a core keeps of each node, and what a record makes of it.

ghost use Rattle.std.specs.Prelude.{None, Some, true, false, IfOk, ◌≡◌, ◌+◌, ◌^◌, ◌<◌, ◌≤◌, ◌++◌, ◌∷◌, [], ◌==◌, ◌||◌, ◌&&◌, suc, map, length, slice_set, vec_len, vec_capacity, is_none, if◌then◌else◌};
ghost use Rattle.node_machine.specs.Story.{phase_number, is_possible, may_end_with};
ghost use Rattle.node_machine.specs.MachineState.{next_of};
ghost use Rattle.run_plan.specs.Plan.{node_at, count_of};
ghost use Rattle.sched_core.specs.Ahead.{ended_in};
ghost use Rattle.sched_core.specs.declared.CoreFault.TheVariants.{NotLawful, Finished};
ghost use Rattle.sched_core.specs.Run.{chronological, history, key_at, is_next, is_among, is_same, setting_is_met, is_over, is_open, abort_status};
ghost use Rattle.splices_flat.specs.declared.flat.CategoryLimit.{CategoryLimit};
ghost use Rattle.throttles.specs.Throttled.{all_in};
ghost use Rattle.sched_core.specs.Limits.{limits_of_categories, throttled_in, throttled_after, IsOfNode, IsCounted};
ghost use Rattle.sched_core.specs.Core.{AreFresh, run_at, jobs_after};
ghost use Rattle.sched_core.specs.Tally.{stop_status};
ghost use Rattle.sched_core.specs.Bound.{sum_below};

use crate::CoreFault;
use node_machine::{Ended, Key, NodeRun, Outcome, Phase, Record, State};
use run_plan::Plan;
use run_plan_node::NodeSpec;
use splices_flat::CategoryLimit;
use std::alloc::{AllocError, Global};
use throttles::{Limits, Throttles};

pub fn run_of(runs: &[NodeRun], node: u32) -> NodeRun
    requires { node < length runs.now }
    ensures { result ≡ run_at runs.now node }
{
    runs[node as usize]
}

pub fn set_run(runs: &mut [NodeRun], node: u32, run: NodeRun)
    requires { node < length runs.old }
    ensures { runs.new ≡ slice_set runs.old node run }
{
    runs[node as usize] = run;
}

pub fn is_job(phase: Phase) -> bool
    ensures { result ≡ (phase_number phase == 1) }
{
    match phase {
        Phase::Job => true,
        _ => false,
    }
}

pub fn is_same_phase(phase: Phase, other: Phase) -> bool
    ensures { result ≡ (phase_number phase == phase_number other) }
{
    match (phase, other) {
        (Phase::Pre, Phase::Pre) => true,
        (Phase::Job, Phase::Job) => true,
        (Phase::Post, Phase::Post) => true,
        _ => false,
    }
}

pub fn are_same(key: &Key, other: &Key) -> bool
    ensures { result ≡ is_same key.now other.now }
{
    key.node == other.node && key.attempt == other.attempt && is_same_phase(key.phase, other.phase)
}

pub fn is_key(next: Option<Key>, key: &Key) -> bool
    ensures { result ≡ is_next next key.now }
{
    match next {
        Some(other) => are_same(&other, key),
        None => false,
    }
}

/// Whether a phase is one of these.
pub fn is_among(keys: &[Key], key: &Key) -> bool
    ensures { result ≡ is_among key.now keys.now }
{
    let mut place = 0;
    while place < keys.len() {
        if are_same(key, &keys[place]) {
            return true;
        }
        place += 1;
    }
    false
}

/// Whether one of these endings is of this phase.
pub fn has_ended(ends: &[(Key, Outcome)], key: &Key) -> bool
    ensures { result ≡ is_among key.now (ended_in ends.now) }
{
    let mut place = 0;
    while place < ends.len() {
        if are_same(key, &ends[place].0) {
            return true;
        }
        place += 1;
    }
    false
}

/// These many and one more are a number.
pub fn count_both(keys: &[Key], records: &[Record]) -> u64
    ensures is { result ≡ length keys.now + length records.now + 1 }
    ensures small { length keys.now + length records.now + 1 < 2 ^ 64 }
{
    keys.len() as u64 + records.len() as u64 + 1
}

/// Whether the last attempt of a node was good and ended its story.
fn is_good(run: &NodeRun) -> bool
    ensures { result ≡ (is_none run.now.machine.phase && run.now.machine.good) }
{
    matches!(run.state(), State::Done)
}

pub fn is_done_at(spec: &NodeSpec, run: &NodeRun) -> bool
    ensures { result ≡ (spec.now.done || (is_none run.now.machine.phase && run.now.machine.good)) }
{
    spec.is_done() || is_good(run)
}

fn key_of(node: u32, next: Option<(u32, Phase)>) -> Option<Key>
    ensures { result ≡ key_at node next }
{
    match next {
        Some((attempt, phase)) => Some(Key {
            node,
            attempt,
            phase,
        }),
        None => None,
    }
}

pub fn next_at(spec: &NodeSpec, node: u32, run: &NodeRun) -> Option<Key>
    ensures { result ≡ (if spec.now.done then None
        else key_at node (next_of run.now.machine run.now.machine.phase)) }
{
    if spec.is_done() {
        None
    } else {
        key_of(node, run.wants())
    }
}

/// Whether Finish is the newest record, the last of these.
pub fn last_is_finish(records: &[Record]) -> bool
    ensures { result ≡ is_over (chronological records.now) }
{
    match records.last() {
        Some(Record::Finish(_)) => true,
        _ => false,
    }
}

/// Whether there are records and Finish is not the newest.
pub fn last_is_open(records: &[Record]) -> bool
    ensures { result ≡ is_open (chronological records.now) }
{
    match records.last() {
        None => false,
        Some(Record::Finish(_)) => false,
        _ => true,
    }
}

fn is_possible(outcome: Outcome) -> bool
    ensures { result ≡ is_possible outcome }
{
    match outcome {
        Outcome::Signal(number) => 1 <= number && number <= 127,
        _ => true,
    }
}

/// Whether the phase may end so: with an outcome that there is, and the job of a NOOP with Exit 0.
pub fn may_end(spec: &NodeSpec, phase: Phase, outcome: Outcome) -> bool
    ensures { result ≡ (is_possible outcome && may_end_with spec.now.course phase outcome) }
{
    is_possible(outcome)
        && (!(spec.course().noop && is_job(phase)) || matches!(outcome, Outcome::Exit(0)))
}

/// The exit status of an abort.
pub fn status_by(abort_return: Option<u8>, value: Option<i32>) -> u8
    ensures { result ≡ abort_status abort_return value }
{
    match abort_return {
        Some(status) => status,
        None => match value {
            Some(value) => {
                if value >= 0 && value < 256 {
                    value as u8
                } else {
                    1
                }
            }
            None => 1,
        },
    }
}

/// Whether a setting is there and has this value.
pub fn is_met_by(setting: Option<i32>, value: Option<i32>) -> bool
    ensures { result ≡ setting_is_met setting value }
{
    match (setting, value) {
        (Some(wanted), Some(given)) => wanted == given,
        _ => false,
    }
}

pub fn push_in_room(records: &mut Vec<Record>, entry: Record)
    requires { vec_len records.old < vec_capacity records.old }
    ensures items { records.new.items ≡ records.old.items ++ entry ∷ [] }
    ensures len { vec_len records.new ≡ vec_len records.old + 1 }
    ensures capacity { vec_capacity records.old ≤ vec_capacity records.new }
{
    let _ = records.push(entry);
}

/// The number of these records; one more is a number too.
pub fn count_and_one(records: &[Record]) -> u64
    ensures is { result ≡ length records.now + 1 }
    ensures small { length records.now + 1 < 2 ^ 64 }
{
    records.len() as u64 + 1
}

/// A count, one higher where this holds.
pub fn count_if(count: u32, holds: bool) -> u32
    requires { holds ≡ true → count + 1 < 2 ^ 32 }
    ensures { result ≡ (if holds then suc count else count) }
{
    if holds { count + 1 } else { count }
}

/// The exit status that an abort gives the run, where this record's end of a phase aborts it.
pub fn status_after(plan: &Plan, status: u8, aborts: bool, entry: Record) -> u8
    requires { IsOfNode plan.now entry }
    ensures { result ≡ (if aborts then stop_status plan.now status entry else status) }
{
    match entry {
        Record::End(key, _) => {
            if aborts {
                let spec = plan.spec(key.node);
                status_by(spec.abort_return(), spec.course().abort_on)
            } else {
                status
            }
        }
        _ => status,
    }
}

/// The number of a launch, where that of the next job is this.
pub fn number_of(phase: Phase, number: u64) -> u64
    ensures { result ≡ (if phase_number phase == 1 then number else 0) }
{
    if is_job(phase) { number } else { 0 }
}

/// The launches of jobs after one more record.
pub fn count_jobs(jobs: u64, entry: Record) -> u64
    requires { jobs + 1 < 2 ^ 64 }
    ensures { result ≡ jobs_after jobs entry }
{
    match entry {
        Record::Launch(key, _) => { if is_job(key.phase) { 1 + jobs } else { jobs } }
        _ => jobs,
    }
}

pub fn fault_by(over: bool) -> CoreFault
    ensures { result ≡ (if over then Finished else NotLawful) }
{
    if over {
        CoreFault::Finished
    } else {
        CoreFault::NotLawful
    }
}

/// All nodes before any record.
pub fn fresh_runs(alloc: Global, plan: &Plan) -> Result<Vec<NodeRun>, AllocError>
    ensures { IfOk result (λ runs. AreFresh plan.now runs.items) }
{
    let mut runs = Vec::new(alloc);
    for node in 0..plan.count() + 1 {
        runs.push(NodeRun::new(*plan.spec(node).course()))?;
    }
    Ok(runs)
}

/// The limits of the categories that have one.
fn category_limits(alloc: Global, limits: &[CategoryLimit]) -> Result<Vec<u32>, AllocError>
    ensures { IfOk result (λ v. v.items ≡ map (λ (l : CategoryLimit). l.limit) limits.now) }
{
    limits.iter().map(|l| l.limit).collect(alloc)
}

/// Nothing runs before any record. Throttles are refused for memory alone.
pub fn fresh_throttles(alloc: Global, plan: &Plan, limits: Limits) -> Result<Throttles, AllocError>
    ensures { IfOk result (λ t. t ≡ throttled_in limits plan.now []) }
{
    let categories = category_limits(alloc, plan.graph().flat().categories())?;
    match Throttles::new(alloc, limits, &categories) {
        Ok(throttles) => Ok(throttles),
        Err(_) => Err(AllocError),
    }
}

/// What a record makes of the throttles.
pub fn throttle(plan: &Plan, throttles: &mut Throttles, entry: Record, stops: bool)
    requires node { IsOfNode plan.now entry }
    requires categories { throttles.old.categories ≡ limits_of_categories plan.now }
    requires room { all_in throttles.old.running + 1 < 2 ^ 64 }
    requires counted { IsCounted plan.now throttles.old entry }
    ensures { throttles.new ≡ throttled_after plan.now throttles.old entry stops }
{
    match entry {
        Record::Life => throttles.clear(),
        Record::Launch(key, _) => {
            throttles.note(key.phase, plan.spec(key.node).category());
        }
        Record::End(key, _) => {
            if stops {
                throttles.clear();
            } else {
                let _ = throttles.end(key.phase, plan.spec(key.node).category());
            }
        }
        Record::Finish(_) => {}
    }
}

pub fn both(first: bool, second: bool) -> bool
    ensures { result ≡ (first && second) }
{
    first && second
}

pub fn either(first: bool, second: bool) -> bool
    ensures { result ≡ (first || second) }
{
    first || second
}

/// How many ordinary nodes are done from the start.
pub fn done_at_first(plan: &Plan) -> u32
    ensures { result ≡ sum_below (λ node. if (node_at plan.now node).done then 1 else 0) (count_of plan.now) }
{
    let mut done = 0;
    for node in 0..plan.count() {
        if plan.spec(node).is_done() {
            done += 1;
        }
    }
    done
}

/// The phases of a node that ended, the oldest first.
pub fn history_of(alloc: Global, records: &[Record], node: u32) -> Result<Vec<Ended>, AllocError>
    ensures { IfOk result (λ phases. phases.items ≡ history (chronological records.now) node) }
{
    let mut phases = Vec::new(alloc);
    for entry in records {
        if let Record::End(key, outcome) = entry {
            if key.node == node {
                phases.push(Ended {
                    attempt: key.attempt,
                    phase: key.phase,
                    outcome: *outcome,
                })?;
            }
        }
    }
    Ok(phases)
}
