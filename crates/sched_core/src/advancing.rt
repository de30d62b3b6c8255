//! What a record makes of the nodes, and of those that may start. It looks only at the states of the nodes that it touches.

ghost use Rattle.std.specs.Prelude.{◌≡◌, ℕ, ◌<◌, ◌≤◌, ◌+◌, ◌-◌, ◌&&◌, ◌||◌, ◌==◌, suc, false, length, map, slice_set, if◌then◌else◌};
ghost use Rattle.dag_graph.specs.Graph.{children_of};
ghost use Rattle.node_machine.specs.NodeRun.{started, stopped, ended_with};
ghost use Rattle.run_plan.specs.Plan.{count_of};
ghost use Rattle.sched_core.specs.Core.{TakesRecord, run_at, aborted_in, runs_after, aborted_after};
ghost use Rattle.sched_core.specs.Notes.{notes_at, notes_after, with_launch, with_phase_outcome};
ghost use Rattle.sched_core.specs.States.{AreMany, AreLeft, left_at};
ghost use Rattle.sched_core.specs.Queued.{IsQueued};
ghost use Rattle.sched_core.specs.Turns.{IsLent, IsEnding, IsIdleFinal, IsOfTurn, IsLentFor, times, done_by, stuck_by, has_abort_by, turn_of};
ghost use Rattle.sched_core.specs.Bound.{node_total};
ghost use Rattle.sched_core.specs.Looks.{further_looks};

use crate::nodes::{is_done_at, is_met_by};
use crate::notes::{with_end, with_launch};
use crate::ready::{ClassedQueue, is_ready_by, settle};
use crate::states::{Looked, States};
use node_machine::{Key, NodeRun, Outcome, Record, State};
use run_plan::Plan;

/// What the end of a phase makes of its node.
#[derive(Clone, Copy)]
pub struct Turn {
    /// an ordinary node whose abort value is there
    pub aborts: bool,
    /// an ordinary node that is done
    pub is_done: bool,
    /// an ordinary node in error
    pub is_stuck: bool,
}

/// No ordinary node aborts the run, is done or in error.
fn no_turn() -> Turn
    ensures { result ≡ record { aborts = false; is_done = false; is_stuck = false } }
{
    Turn {
        aborts: false,
        is_done: false,
        is_stuck: false,
    }
}

fn turn_of(plan: &Plan, node: u32, run: &NodeRun) -> Turn
    requires { node < suc (count_of plan.now) }
    ensures { result ≡ turn_of plan.now node run.now }
{
    if node < plan.count() {
        let spec = plan.spec(node);
        Turn {
            aborts: is_met_by(spec.course().abort_on, run.last_value()),
            is_done: is_done_at(spec, run),
            is_stuck: !spec.is_done() && matches!(run.state(), State::Error),
        }
    } else {
        no_turn()
    }
}

/// How many nodes there are, FINAL among them.
fn count_all(plan: &Plan) -> u32
    ensures is { result ≡ node_total plan.now }
    ensures most { result ≤ suc (count_of plan.now) }
{
    if plan.has_final() {
        plan.count() + 1
    } else {
        plan.count()
    }
}

/// A node's next phase is launched.
fn launch(
    plan: &Plan,
    aborted: bool,
    states: &mut States,
    queue: &mut ClassedQueue,
    looked: Looked,
    key: Key,
    number: u64,
)
    requires many { AreMany plan.now states.old }
    requires takes { TakesRecord plan.now states.old.runs (Record.Launch key number) }
    requires lent { IsLent plan.now aborted states.old key.node looked }
    requires queued { IsQueued plan.now aborted states.old.runs states.old.left queue.old }
    requires left { AreLeft plan.now aborted states.old.runs states.old.left }
    ensures runs { states.new.runs ≡ slice_set states.old.runs key.node (started (run_at states.old.runs key.node)) }
    ensures notes { states.new.notes ≡ slice_set states.old.notes key.node (with_launch (notes_at states.old.notes key.node) key number) }
    ensures looks { states.new.looks ≡ states.old.looks }
    ensures many { AreMany plan.now states.new }
    ensures queued { IsQueued plan.now aborted states.new.runs states.new.left queue.new }
    ensures left { AreLeft plan.now aborted states.new.runs states.new.left }
{
    let _graph = plan.graph();
    let was = is_ready_by(plan, aborted, key.node, &looked.state);
    let mut looked = looked;
    let _ = looked.state.run.launched(key.attempt, key.phase);
    looked.state.notes = with_launch(looked.state.notes, key, number);
    settle(plan, aborted, states, queue, was, looked);
}

/// What was launched is outstanding no more.
fn forget_launches(plan: &Plan, aborted: bool, states: &mut States, queue: &mut ClassedQueue)
    requires many { AreMany plan.now states.old }
    requires idle { IsIdleFinal plan.now states.old.runs }
    requires queued { IsQueued plan.now aborted states.old.runs states.old.left queue.old }
    requires left { AreLeft plan.now aborted states.old.runs states.old.left }
    ensures runs { states.new.runs ≡ map stopped states.old.runs }
    ensures notes { states.new.notes ≡ states.old.notes }
    ensures looks { states.new.looks ≤ states.old.looks + node_total plan.now }
    ensures many { AreMany plan.now states.new }
    ensures queued { IsQueued plan.now aborted states.new.runs states.new.left queue.new }
    ensures left { AreLeft plan.now aborted states.new.runs states.new.left }
{
    let _graph = plan.graph();
    for node in 0..count_all(plan) {
        let mut looked = states.look(node);
        let was = is_ready_by(plan, aborted, node, &looked.state);
        let _ = looked.state.run.forget_launch();
        settle(plan, aborted, states, queue, was, looked);
    }
}

/// What another node had launched is outstanding no more.
fn stop_other(plan: &Plan, states: &mut States, other: u32, node: u32)
    requires other { other < suc (count_of plan.now) }
    requires many { AreMany plan.now states.old }
    requires own { (run_at states.old.runs node).running ≡ false }
    ensures runs { states.new.runs ≡ slice_set states.old.runs other (stopped (run_at states.old.runs other)) }
    ensures notes { states.new.notes ≡ states.old.notes }
    ensures left { states.new.left ≡ states.old.left }
    ensures looks { states.new.looks + (if other == node then 1 else 0) ≤ states.old.looks + 1 }
    ensures many { AreMany plan.now states.new }
{
    let _plan = plan;
    if other == node {
        return;
    }
    let mut looked = states.look(other);
    let _ = looked.state.run.forget_launch();
    states.put(looked);
}

/// An abort: nothing is outstanding but what this node had, which ended.
fn stop_others(plan: &Plan, states: &mut States, node: u32)
    requires node { node < count_of plan.now }
    requires many { AreMany plan.now states.old }
    requires own { (run_at states.old.runs node).running ≡ false }
    requires idle { (run_at states.old.runs (count_of plan.now)).running ≡ false }
    ensures runs { states.new.runs ≡ map stopped states.old.runs }
    ensures notes { states.new.notes ≡ states.old.notes }
    ensures left { states.new.left ≡ states.old.left }
    ensures looks { states.new.looks ≤ states.old.looks + (count_of plan.now - 1) }
{
    for other in 0..plan.count() {
        stop_other(plan, states, other, node);
    }
}

/// A node is done: its children have a parent less that is not.
fn count_down(plan: &Plan, states: &mut States, queue: &mut ClassedQueue, node: u32)
    requires node { node < count_of plan.now }
    requires many { AreMany plan.now states.old }
    requires queued { IsQueued plan.now false states.old.runs states.old.left queue.old }
    requires enough { (child : ℕ) → times child (children_of plan.now.graph.dag node) ≤ left_at states.old.left child }
    ensures runs { states.new.runs ≡ states.old.runs }
    ensures notes { states.new.notes ≡ states.old.notes }
    ensures many { AreMany plan.now states.new }
    ensures queued { IsQueued plan.now false states.new.runs states.new.left queue.new }
    ensures left { (child : ℕ) → left_at states.new.left child + times child (children_of plan.now.graph.dag node)
        ≡ left_at states.old.left child }
    ensures looks { states.new.looks ≤ states.old.looks + length (children_of plan.now.graph.dag node) }
{
    let graph = plan.graph();
    for child in graph.children(node) {
        let mut looked = states.look(*child);
        let was = is_ready_by(plan, false, *child, &looked.state);
        looked.state.parents_left -= 1;
        settle(plan, false, states, queue, was, looked);
    }
}

/// A node's phase ends.
fn end(
    plan: &Plan,
    aborted: bool,
    states: &mut States,
    queue: &mut ClassedQueue,
    looked: Looked,
    key: Key,
    outcome: Outcome,
) -> Turn
    requires many { AreMany plan.now states.old }
    requires takes { TakesRecord plan.now states.old.runs (Record.End key outcome) }
    requires ending { IsEnding plan.now aborted states.old.runs key.node }
    requires lent { IsLent plan.now aborted states.old key.node looked }
    requires queued { IsQueued plan.now aborted states.old.runs states.old.left queue.old }
    requires left { AreLeft plan.now aborted states.old.runs states.old.left }
    ensures turn { result ≡ turn_of plan.now key.node (ended_with (run_at states.old.runs key.node) outcome) }
    ensures runs { states.new.runs ≡ (if result.aborts
        then map stopped (slice_set states.old.runs key.node (ended_with (run_at states.old.runs key.node) outcome))
        else slice_set states.old.runs key.node (ended_with (run_at states.old.runs key.node) outcome)) }
    ensures notes { states.new.notes ≡ slice_set states.old.notes key.node (with_phase_outcome (notes_at states.old.notes key.node) key.phase outcome) }
    ensures looks { states.new.looks ≤ states.old.looks + further_looks plan.now (Record.End key outcome) result.aborts }
    ensures many { AreMany plan.now states.new }
    ensures queued { IsQueued plan.now (aborted || result.aborts) states.new.runs states.new.left queue.new }
    ensures left { AreLeft plan.now (aborted || result.aborts) states.new.runs states.new.left }
{
    let was = is_ready_by(plan, aborted, key.node, &looked.state);
    let mut looked = looked;
    let _ = looked.state.run.ended(outcome);
    looked.state.notes = with_end(looked.state.notes, key.phase, outcome);
    let turn = turn_of(plan, key.node, &looked.state.run);
    let _graph = plan.graph();
    settle(plan, aborted, states, queue, was, looked);
    if turn.aborts {
        queue.clear(plan);
        stop_others(plan, states, key.node);
    } else if turn.is_done {
        count_down(plan, states, queue, key.node);
    }
    turn
}

/// What a record makes of the nodes, and of those that may start.
pub fn advance(
    plan: &Plan,
    aborted: bool,
    states: &mut States,
    queue: &mut ClassedQueue,
    looked: Option<Looked>,
    entry: Record,
) -> Turn
    requires many { AreMany plan.now states.old }
    requires takes { TakesRecord plan.now states.old.runs entry }
    requires turn { IsOfTurn plan.now aborted states.old.runs entry }
    requires lent { IsLentFor plan.now aborted states.old entry looked }
    requires flag { aborted ≡ aborted_in plan.now states.old.runs }
    requires queued { IsQueued plan.now aborted states.old.runs states.old.left queue.old }
    requires left { AreLeft plan.now aborted states.old.runs states.old.left }
    ensures runs { states.new.runs ≡ runs_after plan.now states.old.runs aborted entry }
    ensures notes { states.new.notes ≡ notes_after states.old.notes entry }
    ensures aborts { result.aborts ≡ has_abort_by plan.now states.new.runs entry }
    ensures flag { (aborted || result.aborts) ≡ aborted_after plan.now states.old.runs aborted entry }
    ensures is_done { result.is_done ≡ done_by plan.now states.new.runs entry }
    ensures is_stuck { result.is_stuck ≡ stuck_by plan.now states.new.runs entry }
    ensures looks { states.new.looks ≤ states.old.looks + further_looks plan.now entry result.aborts }
    ensures many { AreMany plan.now states.new }
    ensures queued { IsQueued plan.now (aborted || result.aborts) states.new.runs states.new.left queue.new }
    ensures left { AreLeft plan.now (aborted || result.aborts) states.new.runs states.new.left }
{
    match (entry, looked) {
        (Record::Life, _) => {
            forget_launches(plan, aborted, states, queue);
            no_turn()
        }
        (Record::Launch(key, number), Some(looked)) => {
            launch(plan, aborted, states, queue, looked, key, number);
            no_turn()
        }
        (Record::End(key, outcome), Some(looked)) => {
            end(plan, aborted, states, queue, looked, key, outcome)
        }
        (_, _) => no_turn(),
    }
}
