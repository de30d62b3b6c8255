//! The nodes that may start, in a queue for each class, best first: since the limits let in all phases of a class or
//! none, what is to be done next is the head of a queue, and what is held costs nothing.

ghost use Rattle.std.specs.Prelude.{◌≡◌, ◌<◌, ◌≤◌, ◌+◌, ◌^◌, ◌==◌, ◌&&◌, ◌↔◌, ℕ, List, Option, suc, true, false, length, replicate, slice_get, slice_set, IsTrue, IfOk, IfErr, IfSome, []};
ghost use Rattle.std.specs.List.{Contains};
ghost use Rattle.node_machine.specs.NodeProgress.{NodeProgress};
ghost use Rattle.ready_queue.specs.declared.Member.{Member};
ghost use Rattle.run_plan.specs.Plan.{node_at, count_of};
ghost use Rattle.node_machine.specs.declared.Phase.{Phase};
ghost use Rattle.node_machine.specs.declared.Phase.TheVariants.{Job};
ghost use Rattle.throttles.specs.Throttled.{may_start};
ghost use Rattle.sched_core.specs.Bound.{sum_below};
ghost use Rattle.sched_core.specs.Limits.{member_of};
ghost use Rattle.sched_core.specs.States.{AreMany, is_ready_by, is_ready_at};
ghost use Rattle.sched_core.specs.Queued.{AreQueues, AreRooms, IsQueued, IsSet, class_of, class_by, classes_of, count_at, share, may_be_of, members_at, queue_at};
ghost use Rattle.sched_core.specs.Heads.{class_of_key};

use crate::CoreFault;
use crate::states::{Looked, NodeState, States};
use node_machine::{Key, NodeRun, Phase};
use ready_queue::{Member, ReadyQueue};
use run_plan::Plan;
use std::alloc::Global;
use std::marker::Model;
use throttles::Throttles;

fn member_of(plan: &Plan, node: u32) -> Member
    requires { node ≤ count_of plan.now }
    ensures { result ≡ member_of plan.now node }
{
    Member {
        node,
        priority: plan.spec(node).priority(),
    }
}

/// How many classes there are: PRE scripts, POST scripts, the jobs of nodes in no category with a
/// limit, and those of each category that has one.
fn count_classes(plan: &Plan) -> usize
    ensures { result ≡ classes_of plan.now }
{
    plan.graph().flat().categories().len() + 3
}

/// The class of a phase, by the place of its node's category.
fn class_of(phase: Phase, category: Option<usize>) -> usize
    requires { IfSome category (λ place. place + 3 < 2 ^ 64) }
    ensures { result ≡ class_of phase category }
{
    match (phase, category) {
        (Phase::Pre, _) => 0,
        (Phase::Post, _) => 1,
        (Phase::Job, None) => 2,
        (Phase::Job, Some(place)) => place + 3,
    }
}

/// The class of a node by the phase that comes next: 0 too where none does.
fn class_by(plan: &Plan, node: u32, run: &NodeRun) -> usize
    requires { node ≤ count_of plan.now }
    ensures is { result ≡ class_by run.now.machine.phase (node_at plan.now node).category }
    ensures within { result < classes_of plan.now }
    ensures may { may_be_of plan.now result node ≡ true }
{
    let _most = count_classes(plan);
    let category = plan.spec(node).category();
    match run.wants() {
        Some((_, phase)) => class_of(phase, category),
        None => 0,
    }
}

/// The class of a phase of a node.
pub fn class_of_key(plan: &Plan, key: &Key) -> usize
    requires { key.now.node ≤ count_of plan.now }
    ensures is { result ≡ class_of_key plan.now key.now }
    ensures within { result < classes_of plan.now }
{
    let _most = count_classes(plan);
    class_of(key.phase, plan.spec(key.node).category())
}

/// Whether limits let in the phases of a class.
pub fn lets_class(throttles: &Throttles, class: usize) -> bool
    requires { class < length throttles.now.categories + 3 }
    ensures { (phase : Phase) (category : Option ℕ) → class_of phase category ≡ class → result ≡ may_start throttles.now phase category }
{
    match class {
        0 => throttles.may_start(Phase::Pre, None),
        1 => throttles.may_start(Phase::Post, None),
        2 => throttles.may_start(Phase::Job, None),
        _ => throttles.may_start(Phase::Job, Some(class - 3)),
    }
}

/// Whether limits hold all phases, whatever their categories.
pub fn lets_none(throttles: &Throttles) -> bool
    ensures { IsTrue result → (phase : Phase) (category : Option ℕ) → may_start throttles.now phase category ≡ false }
{
    !throttles.may_start(Phase::Pre, None)
        && !throttles.may_start(Phase::Post, None)
        && !throttles.may_start(Phase::Job, None)
}

/// The class of a node's job.
fn class_of_job(plan: &Plan, node: u32) -> usize
    requires { node ≤ count_of plan.now }
    ensures is { result ≡ class_of Job (node_at plan.now node).category }
    ensures within { result < classes_of plan.now }
{
    let _most = count_classes(plan);
    class_of(Phase::Job, plan.spec(node).category())
}

/// One more of a class.
pub fn count(counts: &mut [u32], class: usize)
    requires class { class < length counts.old }
    requires room { count_at counts.old class + 1 < 2 ^ 32 }
    ensures many { length counts.new ≡ length counts.old }
    ensures more { (other : ℕ) → count_at counts.new other ≡ count_at counts.old other + share class other }
{
    counts[class] += 1;
}

/// Counts for each class the ordinary nodes whose jobs are of it.
fn count_jobs(plan: &Plan, counts: &mut [u32])
    requires { counts.old ≡ replicate (classes_of plan.now) 0 }
    ensures many { length counts.new ≡ classes_of plan.now }
    ensures counted { (class : ℕ) → count_at counts.new class
        ≡ sum_below (λ node. share (class_of Job (node_at plan.now node).category) class) (count_of plan.now) }
{
    let _most = plan.count();
    for node in 0..plan.count() {
        count(counts, class_of_job(plan, node));
    }
}

/// Counts for each class the nodes that may wait in its queue: all of them, where it is one of scripts.
fn count_candidates(plan: &Plan, counts: &mut [u32])
    requires { counts.old ≡ replicate (classes_of plan.now) 0 }
    ensures { AreRooms plan.now counts.new }
{
    count_jobs(plan, counts);
    counts[0] = plan.count();
    counts[1] = plan.count();
}

/// A queue without members, with room for so many and one more.
fn queue_with_room(alloc: Global, count: u32) -> Result<ReadyQueue, CoreFault>
    ensures ok { IfOk result (λ queue. (queue.members ≡ []) × (suc count ≤ queue.room)) }
    ensures err { IfErr result (λ fault. fault ≡ CoreFault.Memory) }
{
    let mut queue = ReadyQueue::new(alloc);
    if queue.reserve(count as usize + 1).is_err() {
        return Err(CoreFault::Memory);
    }
    Ok(queue)
}

/// The nodes that may start, in a queue for each class.
#[derive(Drop)]
pub struct ClassedQueue {
    queues: Vec<ReadyQueue>,
}

impl Model for ClassedQueue {
    ghost use Rattle.sched_core.specs.Queued.{Classed};

    ghost Value = { Classed };

    ghost view = { λ a. record { queues = a.queues.items } };
}

impl ClassedQueue {
    /// Queues without members, each with room for all nodes that may wait in it and one more.
    fn new(alloc: Global, plan: &Plan) -> Result<ClassedQueue, CoreFault>
        ensures are { IfOk result (λ queue. AreQueues plan.now queue.queues) }
        ensures none { IfOk result (λ queue. (class : ℕ) → class < classes_of plan.now → members_at queue.queues class ≡ []) }
        ensures err { IfErr result (λ fault. fault ≡ CoreFault.Memory) }
    {
        let mut counts = vec![in alloc; 0; count_classes(plan)]?;
        count_candidates(plan, &mut counts);
        let mut queues = Vec::new(alloc);
        for count in &counts {
            queues.push(queue_with_room(alloc, *count)?)?;
        }
        Ok(ClassedQueue { queues })
    }

    /// How many classes there are.
    pub fn classes(&self) -> usize
        ensures { result ≡ length self.now.queues }
    {
        self.queues.len()
    }

    /// The members of a class, best first.
    fn members(&self, class: usize) -> &[Member]
        requires { class < length self.now.queues }
        ensures { result.now ≡ members_at self.now.queues class }
    {
        self.queues[class].members()
    }

    /// The first member of a class that is not taken, where it is given of each class how many
    /// are, and 0 of those that are left out.
    pub fn head(&self, class: usize, taken: &[u32]) -> Option<Member>
        requires { class < length self.now.queues }
        ensures { result ≡ slice_get (members_at self.now.queues class) (count_at taken.now class) }
    {
        let count = match taken.get(class) {
            Some(count) => *count,
            None => 0,
        };
        match self.members(class).get(count as usize) {
            Some(member) => Some(*member),
            None => None,
        }
    }

    /// Whether there are no members.
    pub fn is_empty(&self) -> bool
        ensures { IsTrue result ↔ ((class : ℕ) → class < length self.now.queues → members_at self.now.queues class ≡ []) }
    {
        for class in 0..self.queues.len() {
            if !self.members(class).is_empty() {
                return false;
            }
        }
        true
    }

    /// The node is a member of a class from here on.
    fn enqueue(&mut self, plan: &Plan, class: usize, node: u32)
        requires class { class < classes_of plan.now }
        requires node { node < count_of plan.now }
        requires may { may_be_of plan.now class node ≡ true }
        requires are { AreQueues plan.now self.old.queues }
        requires absent { Contains (members_at self.old.queues class) (member_of plan.now node) → ⊥ }
        ensures are { AreQueues plan.now self.new.queues }
        ensures set { IsSet plan.now node true (members_at self.old.queues class) (members_at self.new.queues class) }
        ensures others { (other : ℕ) → (class ≡ other → ⊥) → queue_at self.new.queues other ≡ queue_at self.old.queues other }
    {
        let member = member_of(plan, node);
        let queue = &mut self.queues[class];
        let _ = queue.add(member);
        let _ = queue.members();
    }

    /// The node is no member of a class any more.
    fn dequeue(&mut self, plan: &Plan, class: usize, node: u32)
        requires class { class < classes_of plan.now }
        requires node { node < count_of plan.now }
        requires are { AreQueues plan.now self.old.queues }
        ensures are { AreQueues plan.now self.new.queues }
        ensures set { IsSet plan.now node false (members_at self.old.queues class) (members_at self.new.queues class) }
        ensures others { (other : ℕ) → (class ≡ other → ⊥) → queue_at self.new.queues other ≡ queue_at self.old.queues other }
    {
        let member = member_of(plan, node);
        let queue = &mut self.queues[class];
        let _ = queue.remove(member);
        let _ = queue.members();
    }

    /// The node is no member from here on, where it is given whether it was one and of which class.
    fn take_out(&mut self, plan: &Plan, node: u32, was: bool, class: usize)
        requires class { class < classes_of plan.now }
        requires node { node < count_of plan.now }
        requires are { AreQueues plan.now self.old.queues }
        requires only { (other : ℕ) → other < classes_of plan.now → Contains (members_at self.old.queues other) (member_of plan.now node)
            → (was ≡ true) × (class ≡ other) }
        ensures are { AreQueues plan.now self.new.queues }
        ensures set { (other : ℕ) → other < classes_of plan.now
            → IsSet plan.now node false (members_at self.old.queues other) (members_at self.new.queues other) }
    {
        if was {
            self.dequeue(plan, class, node);
        }
    }

    /// The node, which is no member, is one of this class from here on, where it is to be one.
    fn put_in(&mut self, plan: &Plan, node: u32, now: bool, class: usize)
        requires class { class < classes_of plan.now }
        requires node { node < count_of plan.now }
        requires may { may_be_of plan.now class node ≡ true }
        requires are { AreQueues plan.now self.old.queues }
        requires absent { (other : ℕ) → other < classes_of plan.now → Contains (members_at self.old.queues other) (member_of plan.now node) → ⊥ }
        ensures are { AreQueues plan.now self.new.queues }
        ensures set { (other : ℕ) → other < classes_of plan.now
            → IsSet plan.now node (now && (class == other)) (members_at self.old.queues other) (members_at self.new.queues other) }
    {
        if now {
            self.enqueue(plan, class, node);
        }
    }

    /// A node changes: whether it was a member and of which class is given, and whether it is one
    /// from here on and of which.
    fn change(&mut self, plan: &Plan, node: u32, was: bool, before: usize, now: bool, class: usize)
        requires node { node < count_of plan.now }
        requires before { before < classes_of plan.now }
        requires class { class < classes_of plan.now }
        requires may { may_be_of plan.now class node ≡ true }
        requires are { AreQueues plan.now self.old.queues }
        requires there { was ≡ true → Contains (members_at self.old.queues before) (member_of plan.now node) }
        requires only { (other : ℕ) → other < classes_of plan.now → Contains (members_at self.old.queues other) (member_of plan.now node)
            → (was ≡ true) × (before ≡ other) }
        ensures are { AreQueues plan.now self.new.queues }
        ensures set { (other : ℕ) → other < classes_of plan.now
            → IsSet plan.now node (now && (class == other)) (members_at self.old.queues other) (members_at self.new.queues other) }
    {
        if was == now && before == class {
            return;
        }
        self.take_out(plan, node, was, before);
        self.put_in(plan, node, now, class);
    }

    /// Takes the members of a class out.
    fn clear_class(&mut self, plan: &Plan, class: usize)
        requires class { class < classes_of plan.now }
        requires are { AreQueues plan.now self.old.queues }
        ensures are { AreQueues plan.now self.new.queues }
        ensures none { members_at self.new.queues class ≡ [] }
        ensures others { (other : ℕ) → (class ≡ other → ⊥) → queue_at self.new.queues other ≡ queue_at self.old.queues other }
    {
        let _plan = plan;
        let queue = &mut self.queues[class];
        queue.clear();
    }

    /// Takes all members out: after an abort no node may start.
    pub fn clear(&mut self, plan: &Plan)
        requires { AreQueues plan.now self.old.queues }
        ensures { (runs : List NodeProgress) (left : List ℕ) → IsQueued plan.now true runs left self.new }
    {
        for class in 0..count_classes(plan) {
            self.clear_class(plan, class);
        }
    }
}

/// Whether an ordinary node may be launched, by its state.
pub fn is_ready_by(plan: &Plan, aborted: bool, node: u32, state: &NodeState) -> bool
    requires { node ≤ count_of plan.now }
    ensures { result ≡ is_ready_by (node_at plan.now node).done aborted state.now.run state.now.parents_left }
{
    !aborted
        && state.parents_left == 0
        && !plan.spec(node).is_done()
        && state.run.wants().is_some()
        && !state.run.is_running()
}

/// A node's state is put back, and the queue follows it.
pub fn settle(
    plan: &Plan,
    aborted: bool,
    states: &mut States,
    queue: &mut ClassedQueue,
    was: bool,
    looked: Looked,
)
    requires node { looked.node < suc (count_of plan.now) }
    requires many { AreMany plan.now states.old }
    requires was { looked.node < count_of plan.now
        → was ≡ is_ready_at plan.now aborted states.old.runs states.old.left looked.node }
    requires queued { IsQueued plan.now aborted states.old.runs states.old.left queue.old }
    ensures states { states.new ≡ record {
      runs = slice_set states.old.runs looked.node looked.state.run;
      notes = slice_set states.old.notes looked.node looked.state.notes;
      left = slice_set states.old.left looked.node looked.state.parents_left;
      looks = states.old.looks;
    } }
    ensures many { AreMany plan.now states.new }
    ensures queued { IsQueued plan.now aborted states.new.runs states.new.left queue.new }
{
    let node = looked.node();
    if node < plan.count() {
        let before = class_by(plan, node, &states.read(node).run);
        let now = is_ready_by(plan, aborted, node, &looked.state);
        let class = class_by(plan, node, &looked.state.run);
        queue.change(plan, node, was, before, now, class);
        states.put(looked);
    } else {
        states.put(looked);
    }
}

fn enqueue_all(plan: &Plan, states: &States, queue: &mut ClassedQueue)
    requires many { AreMany plan.now states.now }
    requires are { AreQueues plan.now queue.old.queues }
    requires none { (class : ℕ) → class < classes_of plan.now → members_at queue.old.queues class ≡ [] }
    ensures queued { IsQueued plan.now false states.now.runs states.now.left queue.new }
{
    for node in 0..plan.count() {
        let state = states.read(node);
        let class = class_by(plan, node, &state.run);
        let now = is_ready_by(plan, false, node, &state);
        queue.change(plan, node, false, class, now, class);
    }
}

/// The queue before any record.
pub fn fresh_queue(alloc: Global, plan: &Plan, states: &States) -> Result<ClassedQueue, CoreFault>
    requires { AreMany plan.now states.now }
    ensures ok { IfOk result (λ queue. IsQueued plan.now false states.now.runs states.now.left queue) }
    ensures err { IfErr result (λ fault. fault ≡ CoreFault.Memory) }
{
    let mut queue = ClassedQueue::new(alloc, plan)?;
    enqueue_all(plan, states, &mut queue);
    Ok(queue)
}
