//! Fates by the recursion over parents.

ghost use Rattle.std.specs.Prelude.{◌≡◌, ◌<◌, nat_lt, length, Some, false, IsTrue, IfOk, OnOk};
ghost use Rattle.std.specs.List.{list_all};
ghost use Rattle.node_machine.specs.Story.{story, ends_with};
ghost use Rattle.node_machine.specs.MachineState.{next_of};
ghost use Rattle.node_machine.specs.NodeRun.{ended_with};
ghost use Rattle.node_machine.specs.OutcomeTable.{outcome_at};
ghost use Rattle.dag_graph.specs.Graph.{rank_in, IsOrderOf};
ghost use Rattle.run_plan.specs.Plan.{count_of, IsRankedBy};
ghost use Rattle.sched_core.specs.Fate.{is_done_state, fate_by_story, fate_by};
ghost use Rattle.fate_audit.specs.Fates.{table_by, fate_at, filled, AreFatesOf};

use crate::Fate;
use node_machine::{Course, Ended, NodeRun, Outcome, Phase, State, Table};
use run_plan::Plan;
use std::alloc::{AllocError, Global};

/// What a phase ends with where a table has this outcome: the job of a NOOP with Exit 0.
fn ending(course: &Course, phase: Phase, outcome: Outcome) -> Outcome
    ensures { result ≡ ends_with course.now phase outcome }
{
    if course.noop && matches!(phase, Phase::Job) {
        Outcome::Exit(0)
    } else {
        outcome
    }
}

/// The next phase is launched and ends.
fn end_next(run: &mut NodeRun, attempt: u32, phase: Phase, outcome: Outcome)
    requires idle { run.old.running ≡ false }
    requires next { next_of run.old.machine run.old.machine.phase ≡ Some (attempt, phase) }
    ensures { run.new ≡ ended_with run.old outcome }
{
    let _ = run.launched(attempt, phase);
    let _ = run.ended(outcome);
}

/// The fate of a node whose parents are all done: its story by the table.
fn play(alloc: Global, name: &str, course: &Course, table: &Table) -> Result<Fate, AllocError>
    ensures { IfOk result (λ fate. fate ≡ fate_by_story (story course.now (outcome_at table.now name.now))) }
{
    let mut run = NodeRun::new(*course);
    let mut history = Vec::new(alloc);
    loop {
        match run.wants() {
            None => {
                return Ok(Fate {
                    state: run.state(),
                    history,
                    attempts: run.attempts_ended(),
                    value: run.last_value(),
                });
            }
            Some((attempt, phase)) => {
                let outcome = table.get(name, attempt, phase);
                history.push(Ended {
                    attempt,
                    phase,
                    outcome: ending(course, phase, outcome),
                })?;
                end_next(&mut run, attempt, phase, outcome);
            }
        }
    }
}

/// Whether the fate of each of these nodes is that it is done.
fn are_done(fates: &[Fate], nodes: &[u32]) -> bool
    requires { IsTrue (list_all (λ node. nat_lt node (length fates.now)) nodes.now) }
    ensures { result ≡ list_all (λ node. is_done_state (fate_at fates.now node).state) nodes.now }
{
    for node in nodes {
        if !fates[*node as usize].is_done() {
            return false;
        }
    }
    true
}

/// The fate of a node by those of its parents.
fn fate_of(
    alloc: Global,
    plan: &Plan,
    table: &Table,
    fates: &[Fate],
    node: u32,
) -> Result<Fate, AllocError>
    requires node { node < count_of plan.now }
    requires many { length fates.now ≡ count_of plan.now }
    ensures { IfOk result (λ fate. fate
        ≡ fate_by plan.now (table_by plan.now table.now) (fate_at fates.now) node) }
{
    let spec = plan.spec(node);
    if spec.is_done() {
        Ok(Fate::without_attempts(alloc, State::Done))
    } else if are_done(fates, spec.parents()) {
        play(alloc, spec.name(), spec.course(), table)
    } else {
        Ok(Fate::without_attempts(alloc, State::NotRun))
    }
}

/// So many nodes that have not run.
fn waiting(alloc: Global, count: u32) -> Result<Vec<Fate>, AllocError>
    ensures { IfOk result (λ fates. length fates.items ≡ count) }
{
    let mut fates = Vec::new(alloc);
    for _ in 0..count {
        fates.push(Fate::without_attempts(alloc, State::NotRun))?;
    }
    Ok(fates)
}

/// Puts the fate of a node into a list in which those of its parents stand.
fn fill(
    alloc: Global,
    plan: &Plan,
    table: &Table,
    fates: &mut Vec<Fate>,
    node: u32,
) -> Result<(), AllocError>
    requires many { length fates.old.items ≡ count_of plan.now }
    ensures { OnOk result (fates.new.items
        ≡ filled plan.now (table_by plan.now table.now) fates.old.items node) }
{
    let place = node as usize;
    if place < fates.len() {
        let fate = fate_of(alloc, plan, table, fates, node)?;
        fates[place] = fate;
    }
    Ok(())
}

/// The fates of all ordinary nodes, in a topological order.
fn fates_in_order(
    alloc: Global,
    plan: &Plan,
    table: &Table,
    order: &[u32],
) -> Result<Vec<Fate>, AllocError>
    requires ranked { IsRankedBy (rank_in order.now) plan.now }
    requires order { IsOrderOf plan.now.graph.dag order.now }
    requires many { count_of plan.now ≡ length plan.now.graph.dag.nodes }
    ensures { IfOk result (λ fates.
        AreFatesOf plan.now (table_by plan.now table.now) fates.items) }
{
    let mut fates = waiting(alloc, plan.count())?;
    for node in order {
        fill(alloc, plan, table, &mut fates, *node)?;
    }
    Ok(fates)
}

/// What each ordinary node comes to in every run without abort whose phases end as a table says, in
/// plan order: a recursion over the parents. It takes time linear in the nodes, their parents and
/// the phases of their stories.
///
/// # Errors
/// Lack of memory, and nothing else.
pub fn predict(alloc: Global, plan: &Plan, table: &Table) -> Result<Vec<Fate>, AllocError>
    ensures { IfOk result (λ fates.
        AreFatesOf plan.now (table_by plan.now table.now) fates.items) }
{
    let graph = plan.graph();
    fates_in_order(alloc, plan, table, graph.order())
}
