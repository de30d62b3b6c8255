//! The states of the nodes. They are lent one at a time, and each loan is counted.

ghost use Rattle.std.specs.Prelude.{◌≡◌, ◌<◌, ◌≤◌, ◌+◌, min, length, nat_lt, slice_set, IsTrue, IfOk};
ghost use Rattle.run_plan.specs.Plan.{node_at, count_of};
ghost use Rattle.sched_core.specs.States.{NodeStates, IsStateAt, AreNew, AreLeftAtFirst, left_at, undone_in};
ghost use Rattle.std.specs.List.{list_all};

use crate::nodes::{fresh_runs, run_of, set_run};
use crate::notes::{AttemptNotes, fresh_notes, notes_of, set_notes};
use node_machine::NodeRun;
use run_plan::Plan;
use std::alloc::{AllocError, Global};
use std::marker::Model;

/// What a core keeps of a node.
#[derive(Clone, Copy)]
pub struct NodeState {
    pub run: NodeRun,
    pub notes: AttemptNotes,
    /// how many of its parents are not done
    pub parents_left: u32,
}

/// The state of a node, lent until it is put back.
#[derive(Drop)]
pub struct Looked {
    node: u32,
    pub state: NodeState,
}

impl Looked {
    /// The node whose state this is.
    pub fn node(&self) -> u32
        ensures { result ≡ self.now.node }
    {
        self.node
    }
}

/// The states of a plan's nodes, and of the FINAL node's place after them.
///
/// A state is changed only by `look` and `put`, and each `look` counts.
#[derive(Drop)]
pub struct States {
    runs: Vec<NodeRun>,
    notes: Vec<AttemptNotes>,
    left: Vec<u32>,
    looks: u64,
}

impl Model for States {
    ghost use Rattle.sched_core.specs.States.{NodeStates};

    ghost Value = { NodeStates };

    ghost view = { λ a. record { runs = a.runs.items; notes = a.notes.items; left = a.left.items; looks = a.looks } };
}

/// How many of these parents are not done from the start.
fn count_undone(plan: &Plan, parents: &[u32]) -> u32
    requires within { IsTrue (list_all (λ parent. nat_lt parent (count_of plan.now)) parents.now) }
    requires few { length parents.now ≤ count_of plan.now }
    ensures { result ≡ undone_in (λ parent. (node_at plan.now parent).done) parents.now }
{
    let _most = plan.count();
    let mut count = 0;
    for parent in parents {
        if !plan.spec(*parent).is_done() {
            count += 1;
        }
    }
    count
}

/// Of each node how many parents are not done from the start.
fn fresh_left(alloc: Global, plan: &Plan) -> Result<Vec<u32>, AllocError>
    ensures { IfOk result (λ left. AreLeftAtFirst plan.now left.items) }
{
    let _graph = plan.graph();
    let mut left = Vec::new(alloc);
    for node in 0..plan.count() {
        left.push(count_undone(plan, plan.spec(node).parents()))?;
    }
    left.push(0)?;
    Ok(left)
}

impl States {
    /// The states before any record.
    pub fn new(alloc: Global, plan: &Plan) -> Result<States, AllocError>
        ensures { IfOk result (λ states. AreNew plan.now states) }
    {
        let runs = fresh_runs(alloc, plan)?;
        let notes = fresh_notes(alloc, plan)?;
        let left = fresh_left(alloc, plan)?;
        Ok(States {
            runs,
            notes,
            left,
            looks: 0,
        })
    }

    /// How many states were lent; it stays at the greatest number.
    pub fn looks(&self) -> u64
        ensures { result ≡ self.now.looks }
    {
        self.looks
    }

    /// A node's state, for who changes nothing. It counts nothing.
    pub fn read(&self, node: u32) -> NodeState
        requires runs { node < length self.now.runs }
        requires notes { node < length self.now.notes }
        requires left { node < length self.now.left }
        ensures { IsStateAt self.now node result }
    {
        NodeState {
            run: run_of(&self.runs, node),
            notes: notes_of(&self.notes, node),
            parents_left: left_of(&self.left, node),
        }
    }

    /// Lends a node's state, and counts the look.
    pub fn look(&mut self, node: u32) -> Looked
        requires runs { node < length self.old.runs }
        requires notes { node < length self.old.notes }
        requires left { node < length self.old.left }
        ensures node { result.node ≡ node }
        ensures state { IsStateAt self.old node result.state }
        ensures looks { self.new.looks ≡ min (self.old.looks + 1) 18446744073709551615 }
        ensures others { self.new ≡ record self.old { looks = self.new.looks } }
    {
        self.looks = self.looks.saturating_add(1);
        let state = self.read(node);
        Looked { node, state }
    }

    /// Takes a node's state back, as it is now.
    pub fn put(&mut self, looked: Looked)
        requires runs { looked.node < length self.old.runs }
        requires notes { looked.node < length self.old.notes }
        requires left { looked.node < length self.old.left }
        ensures { self.new ≡ record {
          runs = slice_set self.old.runs looked.node looked.state.run;
          notes = slice_set self.old.notes looked.node looked.state.notes;
          left = slice_set self.old.left looked.node looked.state.parents_left;
          looks = self.old.looks;
        } }
    {
        let Looked { node, state } = looked;
        set_run(&mut self.runs, node, state.run);
        set_notes(&mut self.notes, node, state.notes);
        set_left(&mut self.left, node, state.parents_left);
    }
}

fn left_of(left: &[u32], node: u32) -> u32
    requires { node < length left.now }
    ensures { result ≡ left_at left.now node }
{
    left[node as usize]
}

fn set_left(left: &mut [u32], node: u32, now: u32)
    requires { node < length left.old }
    ensures { left.new ≡ slice_set left.old node now }
{
    left[node as usize] = now;
}
