//! How many nodes of a run have come how far, by what is done with its children.

use crate::line::Counts;
use node_machine::{Key, NodeRun, Outcome, Phase, Record, State, value_of};
use run_plan::Plan;
use run_plan_node::NodeSpec;
use std::alloc::{AllocError, Global};

/// How far a node is, and how many of its parents are not done.
#[derive(Clone, Copy)]
struct NodeTally {
    run: NodeRun,
    parents_left: u32,
}

/// Where a node is counted.
#[derive(Clone, Copy, Debug, PartialEq, Eq)]
enum Place {
    Done,
    Failed,
    Ready,
    Nowhere,
}

/// What the end of a phase is for its node.
#[derive(Clone, Copy, Debug, PartialEq, Eq)]
pub(crate) enum Ending {
    /// The attempt goes on, though the phase failed.
    Suffered,
    /// The attempt goes on, or it was good.
    Good,
    /// The attempt failed, and the node is tried again.
    TriedAgain,
    /// The attempt failed, and it was the last one.
    Failed,
}

/// The nodes of a run. A NOOP, for which no child runs, counts as done as soon as nothing is before it.
#[derive(Drop)]
pub(crate) struct Tally {
    nodes: Vec<NodeTally>,
    counts: Counts,
    /// whether a job starts no child
    has_noops: bool,
}

/// How many of these nodes are not done from the start.
fn count_undone(plan: &Plan, parents: &[u32]) -> u32 {
    let mut count = 0u32;
    for parent in parents {
        if *parent <= plan.count() && !plan.spec(*parent).is_done() {
            count = count.saturating_add(1);
        }
    }
    count
}

/// A node before any of its phases.
fn fresh_node(plan: &Plan, node: u32) -> Option<NodeTally> {
    if node > plan.count() {
        return None;
    }
    let spec = plan.spec(node);
    Some(NodeTally {
        run: NodeRun::new(*spec.course()),
        parents_left: count_undone(plan, spec.parents()),
    })
}

/// What a plan says of the node of this number, FINAL being after the others; none where there is no such node.
fn spec_of(plan: &Plan, node: u32) -> Option<&NodeSpec> {
    if node > plan.count() {
        return None;
    }
    if node == plan.count() && !plan.has_final() {
        return None;
    }
    Some(plan.spec(node))
}

/// Where a node is counted.
fn place_of(plan: &Plan, node: u32, tally: &NodeTally) -> Place {
    let Some(spec) = spec_of(plan, node) else {
        return Place::Nowhere;
    };
    if spec.is_done() {
        return Place::Done;
    }
    match tally.run.state() {
        State::Done => Place::Done,
        State::Error => Place::Failed,
        State::NotRun if tally.run.is_running() || tally.parents_left > 0 => Place::Nowhere,
        State::NotRun if node == plan.count() => Place::Nowhere,
        State::NotRun => Place::Ready,
    }
}

/// Whether what comes next of a node is a job that starts no child.
fn is_noop_due(plan: &Plan, node: u32, tally: &NodeTally) -> bool {
    let Some(spec) = spec_of(plan, node) else {
        return false;
    };
    match tally.run.wants() {
        Some((_, Phase::Job)) => spec.course().noop && place_of(plan, node, tally) == Place::Ready,
        _ => false,
    }
}

/// The count to which a node at this place belongs.
fn count_at(counts: &mut Counts, place: Place) -> Option<&mut u32> {
    match place {
        Place::Done => Some(&mut counts.done),
        Place::Failed => Some(&mut counts.failed),
        Place::Ready => Some(&mut counts.ready),
        Place::Nowhere => None,
    }
}

/// A node goes from one place to another.
fn recount(counts: &mut Counts, before: Place, after: Place) {
    if let Some(count) = count_at(counts, before) {
        *count = count.saturating_sub(1);
    }
    if let Some(count) = count_at(counts, after) {
        *count = count.saturating_add(1);
    }
}

/// What the end of a phase was for its node, by its run before and after it.
fn ending_of(before: &NodeRun, after: &NodeRun, outcome: Outcome) -> Ending {
    if before.attempts_ended() == after.attempts_ended() {
        return match value_of(outcome) {
            0 => Ending::Good,
            _ => Ending::Suffered,
        };
    }
    match after.state() {
        State::Done => Ending::Good,
        State::NotRun => Ending::TriedAgain,
        State::Error => Ending::Failed,
    }
}

impl Tally {
    /// The nodes of a plan before any record.
    fn fresh(alloc: Global, plan: &Plan) -> Result<Tally, AllocError> {
        let counts = Counts {
            done: 0,
            kept: 0,
            total: plan.count() + u32::from(plan.has_final()),
            ready: 0,
            failed: 0,
        };
        let has_noops = plan.nodes().iter().any(|node| node.course().noop);
        let mut tally = Tally {
            nodes: Vec::new(alloc),
            counts,
            has_noops,
        };
        for node in 0..plan.count() + 1 {
            if let Some(fresh) = fresh_node(plan, node) {
                tally.nodes.push(fresh)?;
                recount(
                    &mut tally.counts,
                    Place::Nowhere,
                    place_of(plan, node, &fresh),
                );
            }
        }
        Ok(tally)
    }

    /// The nodes of a plan after the records of earlier managers. Those that are done by then are kept.
    ///
    /// # Errors
    /// Lack of memory.
    pub(crate) fn new(alloc: Global, plan: &Plan, records: &[Record]) -> Result<Tally, AllocError> {
        let mut tally = Tally::fresh(alloc, plan)?;
        for record in records {
            tally.apply(plan, record);
        }
        tally.forget_launches(plan);
        if tally.has_noops {
            tally.end_all_noops(alloc, plan)?;
        }
        tally.counts.kept = tally.counts.done;
        Ok(tally)
    }

    /// Whether the job of an ordinary node can start at once, in its first attempt.
    pub(crate) fn has_job_ready(&self, plan: &Plan, node: u32) -> bool {
        match self.node(node) {
            Some(tally) if place_of(plan, node, &tally) == Place::Ready => {
                matches!(tally.run.wants(), Some((0, Phase::Job)))
            }
            _ => false,
        }
    }

    /// How many nodes have come how far.
    pub(crate) fn counts(&self) -> Counts {
        self.counts
    }

    /// The state of a node.
    fn node(&self, node: u32) -> Option<NodeTally> {
        self.nodes.get(node as usize).copied()
    }

    /// Puts the state of a node, which was this one before.
    fn put(&mut self, plan: &Plan, node: u32, before: NodeTally, after: NodeTally) {
        if let Some(place) = self.nodes.get_mut(node as usize) {
            *place = after;
            let was = place_of(plan, node, &before);
            recount(&mut self.counts, was, place_of(plan, node, &after));
        }
    }

    /// A parent of this node is done.
    fn parent_done(&mut self, plan: &Plan, node: u32) {
        if let Some(before) = self.node(node) {
            let mut after = before;
            after.parents_left = after.parents_left.saturating_sub(1);
            self.put(plan, node, before, after);
        }
    }

    /// A parent of each child of this node is done.
    fn tell_children(&mut self, plan: &Plan, node: u32) {
        for child in plan.graph().children(node) {
            self.parent_done(plan, *child);
        }
    }

    /// What was launched and not recorded as ended is launched no more.
    fn forget_launches(&mut self, plan: &Plan) {
        for node in 0..plan.count() + 1 {
            if let Some(before) = self.node(node) {
                let mut after = before;
                let _ = after.run.forget_launch();
                self.put(plan, node, before, after);
            }
        }
    }

    /// Applies a record of an earlier manager.
    fn apply(&mut self, plan: &Plan, record: &Record) {
        match record {
            Record::Life => self.forget_launches(plan),
            Record::Launch(key, _) => {
                let _ = self.launched(plan, key);
            }
            Record::End(key, outcome) => {
                let _ = self.ends(plan, key, *outcome);
            }
            Record::Finish(_) => {}
        }
    }

    /// A phase is launched. Answers whether that is what was to come next of its node.
    pub(crate) fn launched(&mut self, plan: &Plan, key: &Key) -> bool {
        let Some(before) = self.node(key.node) else {
            return false;
        };
        let mut after = before;
        if after.run.launched(key.attempt, key.phase).is_err() {
            return false;
        }
        self.put(plan, key.node, before, after);
        true
    }

    /// A phase ends. Answers what that is for its node; none where it did not run.
    fn ends(&mut self, plan: &Plan, key: &Key, outcome: Outcome) -> Option<Ending> {
        let before = self.node(key.node)?;
        let mut after = before;
        after.run.ended(outcome).ok()?;
        self.put(plan, key.node, before, after);
        if after.run.state() == State::Done {
            self.tell_children(plan, key.node);
        }
        Some(ending_of(&before.run, &after.run, outcome))
    }

    /// A phase ends, and with it the jobs that start no child and come next. Answers what that is for its node; none
    /// where it did not run.
    ///
    /// # Errors
    /// Lack of memory.
    pub(crate) fn ended(
        &mut self,
        alloc: Global,
        plan: &Plan,
        key: &Key,
        outcome: Outcome,
    ) -> Result<Option<Ending>, AllocError> {
        let ending = self.ends(plan, key, outcome);
        if self.has_noops {
            self.end_noops_from(alloc, plan, key.node)?;
        }
        Ok(ending)
    }

    /// A phase that runs is taken as not launched.
    pub(crate) fn forget_launch(&mut self, plan: &Plan, key: &Key) {
        if let Some(before) = self.node(key.node) {
            let mut after = before;
            let _ = after.run.forget_launch();
            self.put(plan, key.node, before, after);
        }
    }

    /// The job of a node ends where it is due and starts no child. Answers whether it did.
    fn ends_noop(&mut self, plan: &Plan, node: u32) -> bool {
        let Some(tally) = self.node(node) else {
            return false;
        };
        if !is_noop_due(plan, node, &tally) {
            return false;
        }
        let Some((attempt, phase)) = tally.run.wants() else {
            return false;
        };
        let key = Key {
            node,
            attempt,
            phase,
        };
        self.launched(plan, &key) && self.ends(plan, &key, Outcome::Exit(0)).is_some()
    }

    /// Ends the jobs that are due and start no child, of all nodes.
    fn end_all_noops(&mut self, alloc: Global, plan: &Plan) -> Result<(), AllocError> {
        let mut due = Vec::new(alloc);
        for node in 0..plan.count() {
            due.push(node)?;
        }
        self.end_due(plan, due)
    }

    /// Ends the jobs that are due and start no child, of this node and its children, and of their children where one
    /// ended.
    fn end_noops_from(&mut self, alloc: Global, plan: &Plan, node: u32) -> Result<(), AllocError> {
        let mut due = Vec::new(alloc);
        due.push(node)?;
        due.extend_from_slice(plan.graph().children(node))?;
        self.end_due(plan, due)
    }

    /// Ends those of these jobs that are due and start no child, and those that come next to them.
    fn end_due(&mut self, plan: &Plan, due: Vec<u32>) -> Result<(), AllocError> {
        let mut due = due;
        // Each job ends once, and adds its children.
        for _ in 0..u64::MAX {
            let Some(node) = due.pop() else {
                return Ok(());
            };
            if self.ends_noop(plan, node) {
                due.extend_from_slice(plan.graph().children(node))?;
            }
        }
        Ok(())
    }
}
