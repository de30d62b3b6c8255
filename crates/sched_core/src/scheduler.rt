//! The scheduler's core: a run of a plan as a lawful list of records.

ghost use Rattle.std.specs.Prelude.{◌≡◌, Some, false, ◌+◌, ◌<◌, ◌≤◌, ◌∷◌, [], ◌==◌, ◌&&◌, ◌||◌, ◌↔◌, not, suc, length, IsTrue, IsOk, IfOk, IfErr, IfSome, OnOk, OnErr, is_none, nat_le};
ghost use Rattle.std.specs.List.{list_all};
ghost use Rattle.run_plan.specs.Plan.{node_at, count_of, all_below};
ghost use Rattle.sched_core.specs.Run.{chronological, history, next, is_done, is_in_error, attempts_in, value_in, is_aborted, outstanding, is_among, is_free, is_nothing, is_ready, is_final_ready, may_launch, job_launches, launch_number, status_of_abort, exit_status, is_over, is_open, may_follow, is_lawful, needs_rescue};
ghost use Rattle.sched_core.specs.Fate.{shown};
ghost use Rattle.ready_queue.specs.Queue.{comes_before};
ghost use Rattle.sched_core.specs.Core.{Progress, is_running, fault_after, better_of, AreDoneMarks, IsBestBelow, IsBestOf};
ghost use Rattle.sched_core.specs.States.{IsStateOf};
ghost use Rattle.sched_core.specs.Kept.{judged_place, IsLookedFor};
ghost use Rattle.sched_core.specs.Looks.{stops, most_looks, further_looks};
ghost use Rattle.sched_core.specs.Choices.{launchable, startable, IsChoice};
ghost use Rattle.sched_core.specs.Limits.{lets_in};
ghost use Rattle.sched_core.specs.Queued.{classes_of};
ghost use Rattle.sched_core.specs.Heads.{AreWaiting, AreHeadsTaken, IsNextHead, class_of_key, class_of_next};
ghost use Rattle.sched_core.specs.Ahead.{launch_of, launched, launches, may_launch_all, fitting, ends_of, AreChosen, NothingToStart};
ghost use Rattle.node_machine.specs.declared.Key.{Key};
ghost use Rattle.sched_core.specs.Limits.{IsBetter, member_of, throttled_in};
ghost use Rattle.sched_core.specs.Round.{IsRound};
ghost use Rattle.throttles.specs.Throttled.{with_one};
ghost use Rattle.sched_core.specs.Commands.{facts_in};

use crate::advancing::advance;
use crate::facts::noted_facts;
use crate::nodes::{
    both, count_and_one, count_both, count_if, count_jobs, done_at_first, either, fault_by,
    fresh_throttles, has_ended, history_of, is_among, is_done_at, is_job, is_key, is_met_by,
    last_is_finish, last_is_open, may_end, next_at, number_of, push_in_room, status_after,
    throttle,
};
use crate::ready::{
    ClassedQueue, class_of_key, count, fresh_queue, is_ready_by, lets_class, lets_none,
};
use crate::states::{Looked, NodeState, States};
use crate::{Choice, CoreFault};
use node_machine::{Ended, Key, Outcome, Record, State};
use run_plan::Plan;
use run_plan_node::PhaseFacts;
use std::alloc::Global;
use std::marker::Model;
use throttles::{Limits, Throttles};

/// A run of a plan: its records, and where each node is.
pub struct Core<'a> {
    plan: &'a Plan,
    records: Vec<Record>,
    states: States,
    aborted: bool,
    /// the exit status that an abort gave the run; 1 where there was none
    stop_status: u8,
    /// the launches of jobs
    jobs: u64,
    throttles: Throttles,
    /// the ordinary nodes in error, and those that are done
    failed: u32,
    done: u32,
    queue: ClassedQueue,
}

// Each function that drops a value calls this; a derived drop would be in each, part by part.
impl Drop for Core<'_> {
    fn drop(self) {
        let Core {
            plan: _,
            records: _,
            states: _,
            aborted: _,
            stop_status: _,
            jobs: _,
            throttles: _,
            failed: _,
            done: _,
            queue: _,
        } = self;
    }
}

impl<'a> Model for Core<'a> {
    ghost use Rattle.std.specs.Prelude.{◌-◌, vec_len, vec_capacity};
    ghost use Rattle.sched_core.specs.Run.{chronological};
    ghost use Rattle.sched_core.specs.Core.{Progress};
    ghost use Rattle.sched_core.specs.Kept.{IsKept};

    ghost Value = { Progress };

    ghost view = { λ a. record {
      plan = a.plan.now;
      limits = a.throttles.limits;
      past = chronological a.records.items;
      room = vec_capacity a.records - vec_len a.records;
      looks = a.states.looks;
    } };

    ghost invariant = { λ a. IsKept a.plan.now (chronological a.records.items) a.states a.aborted a.stop_status a.jobs a.throttles a.failed a.done a.queue };
}

/// Whether one node is better than another: of greater priority, or of the same and first in plan
/// order.
fn is_better(plan: &Plan, node: u32, other: u32) -> bool
    requires node { node ≤ count_of plan.now }
    requires other { other ≤ count_of plan.now }
    ensures { result ≡ comes_before (member_of plan.now node) (member_of plan.now other) }
{
    let own = plan.spec(node).priority();
    let its = plan.spec(other).priority();
    own > its || (own == its && node < other)
}

/// Whether a node comes before that of a phase, if there is one.
fn comes_first(plan: &Plan, node: u32, best: Option<Key>) -> bool
    requires node { node ≤ count_of plan.now }
    requires best { IfSome best (λ key. key.node ≤ count_of plan.now) }
    ensures { result ≡ false → (key : Key) × (best ≡ Some key) × (IsBetter plan.now node key.node → ⊥) }
{
    match best {
        Some(key) => is_better(plan, node, key.node),
        None => true,
    }
}

/// The better of two phases.
fn better_of(plan: &Plan, best: Option<Key>, next: Option<Key>) -> Option<Key>
    requires best { IfSome best (λ key. key.node ≤ count_of plan.now) }
    requires next { IfSome next (λ key. key.node ≤ count_of plan.now) }
    ensures { result ≡ better_of plan.now best next }
{
    match (best, next) {
        (Some(old), Some(new)) => {
            if is_better(plan, new.node, old.node) {
                Some(new)
            } else {
                Some(old)
            }
        }
        (Some(old), None) => Some(old),
        (None, next) => next,
    }
}

impl<'a> Core<'a> {
    /// The plan that was handed in.
    pub fn plan(&self) -> &'a Plan
        ensures { result.now ≡ self.now.plan }
    {
        self.plan
    }

    /// The records of a core are lawful at every moment.
    pub fn keeps_the_law(&self)
        ensures { IsTrue (is_lawful self.now.plan self.now.past) }
    {
        let _records = &self.records;
    }

    /// Whether an abort ended the run.
    pub fn aborted(&self) -> bool
        ensures { result ≡ is_aborted self.now.plan self.now.past }
    {
        self.aborted
    }

    /// The records, the oldest first.
    pub fn records(&self) -> &[Record]
        ensures { result.now ≡ chronological self.now.past }
    {
        &self.records
    }

    /// A node's state, for a call that changes none.
    fn state_of(&self, node: u32) -> NodeState
        requires { node ≤ count_of self.now.plan }
        ensures { IsStateOf self.now.plan self.now.past node result }
    {
        let _graph = self.plan.graph();
        self.states.read(node)
    }

    fn is_done_by(&self, node: u32, state: &NodeState) -> bool
        requires node { node ≤ count_of self.now.plan }
        requires state { IsStateOf self.now.plan self.now.past node state.now }
        ensures { result ≡ is_done self.now.plan self.now.past node }
    {
        self.keeps_the_law();
        is_done_at(self.plan().spec(node), &state.run)
    }

    fn next_by(&self, node: u32, state: &NodeState) -> Option<Key>
        requires node { node ≤ count_of self.now.plan }
        requires state { IsStateOf self.now.plan self.now.past node state.now }
        ensures { result ≡ next self.now.plan self.now.past node }
    {
        self.keeps_the_law();
        next_at(self.plan().spec(node), node, &state.run)
    }

    /// Whether a node is done, from the start or after a good last attempt.
    pub fn is_done(&self, node: u32) -> bool
        requires { node ≤ count_of self.now.plan }
        ensures { result ≡ is_done self.now.plan self.now.past node }
    {
        self.is_done_by(node, &self.state_of(node))
    }

    /// A node's next phase.
    pub fn next(&self, node: u32) -> Option<Key>
        requires { node ≤ count_of self.now.plan }
        ensures { result ≡ next self.now.plan self.now.past node }
    {
        self.next_by(node, &self.state_of(node))
    }

    /// The value of the last attempt of a node that ended.
    pub fn last_value(&self, node: u32) -> Option<i32>
        requires { node ≤ count_of self.now.plan }
        ensures { result ≡ value_in self.now.plan self.now.past node }
    {
        self.keeps_the_law();
        self.state_of(node).run.last_value()
    }

    /// How many attempts of a node ended.
    pub fn attempts_ended(&self, node: u32) -> u64
        requires { node ≤ count_of self.now.plan }
        ensures { result ≡ attempts_in self.now.plan self.now.past node }
    {
        self.keeps_the_law();
        self.state_of(node).run.attempts_ended()
    }

    /// Whether a phase of the node is outstanding.
    pub fn is_running(&self, node: u32) -> bool
        requires { node ≤ count_of self.now.plan }
        ensures { result ≡ is_running self.now.plan self.now.past node }
    {
        self.state_of(node).run.is_running()
    }

    /// How many states of nodes were looked at to apply records; it stays at the greatest number.
    pub fn looks(&self) -> u64
        ensures { result ≡ self.now.looks }
    {
        self.states.looks()
    }

    pub fn is_over(&self) -> bool
        ensures { result ≡ is_over self.now.past }
    {
        last_is_finish(&self.records)
    }

    pub fn is_open(&self) -> bool
        ensures { result ≡ is_open self.now.past }
    {
        last_is_open(&self.records)
    }

    /// The number of the next launch of a job.
    pub fn next_launch(&self) -> u64
        ensures { result ≡ suc (job_launches self.now.past) }
    {
        let _more = count_and_one(&self.records);
        self.jobs + 1
    }

    /// The number that a launch of this key has.
    pub fn launch_number(&self, key: &Key) -> u64
        ensures { result ≡ launch_number self.now.past key.now }
    {
        if is_job(key.phase) {
            self.next_launch()
        } else {
            0
        }
    }

    /// Whether all parents of a node are done.
    pub fn parents_done(&self, node: u32) -> bool
        requires { node ≤ count_of self.now.plan }
        ensures { result ≡ list_all (is_done self.now.plan self.now.past) (node_at self.now.plan node).parents }
    {
        for parent in self.plan().spec(node).parents() {
            if !self.is_done(*parent) {
                return false;
            }
        }
        true
    }

    /// Whether a node has a next phase, and it is not outstanding.
    fn is_free_by(&self, node: u32, state: &NodeState) -> bool
        requires node { node ≤ count_of self.now.plan }
        requires state { IsStateOf self.now.plan self.now.past node state.now }
        ensures { result ≡ is_free self.now.plan self.now.past (next self.now.plan self.now.past node) }
    {
        self.keeps_the_law();
        match self.next_by(node, state) {
            Some(_) => !state.run.is_running(),
            None => false,
        }
    }

    fn is_ready_by(&self, node: u32, state: &NodeState) -> bool
        requires node { node < count_of self.now.plan }
        requires state { IsStateOf self.now.plan self.now.past node state.now }
        ensures { result ≡ is_ready self.now.plan self.now.past node }
    {
        self.keeps_the_law();
        is_ready_by(self.plan(), self.aborted(), node, state)
    }

    /// The ordinary nodes that are ready, each in the queue of its next phase's class.
    fn queue(&self) -> &ClassedQueue
        ensures { AreWaiting self.now.plan self.now.past result.now.queues }
    {
        let _records = &self.records;
        let _graph = self.plan.graph();
        &self.queue
    }

    fn nothing_ready(&self) -> bool
        ensures { result ≡ all_below (λ node. not (is_ready self.now.plan self.now.past node)) (count_of self.now.plan) }
    {
        self.queue().is_empty()
    }

    /// Whether nothing is outstanding.
    pub fn nothing_running(&self) -> bool
        ensures { result ≡ is_nothing (outstanding self.now.plan self.now.past) }
    {
        let _records = &self.records;
        let _graph = self.plan.graph();
        self.throttles.is_idle()
    }

    /// Whether nothing of an ordinary node is outstanding, where nothing of the FINAL node is.
    fn no_ordinary_running(&self) -> bool
        requires { IsTrue (is_free self.now.plan self.now.past (next self.now.plan self.now.past (count_of self.now.plan))) }
        ensures { result ≡ list_all (λ key. nat_le (count_of self.now.plan) key.node) (outstanding self.now.plan self.now.past) }
    {
        self.keeps_the_law();
        self.nothing_running()
    }

    #[tactic(auto, unfolding(crate::specs::Run::is_final_ready))]
    fn is_final_ready_by(&self, state: &NodeState) -> bool
        requires { IsStateOf self.now.plan self.now.past (count_of self.now.plan) state.now }
        ensures { result ≡ is_final_ready self.now.plan self.now.past }
    {
        let plan = self.plan();
        plan.has_final()
            && self.is_free_by(plan.count(), state)
            && self.no_ordinary_running()
            && (self.aborted() || self.nothing_ready())
    }

    /// Whether the next phase of the FINAL node may be launched: it is its turn.
    pub fn is_final_ready(&self) -> bool
        ensures { result ≡ is_final_ready self.now.plan self.now.past }
    {
        self.is_final_ready_by(&self.state_of(self.plan().count()))
    }

    #[tactic(auto, unfolding(crate::specs::Run::may_launch))]
    fn may_launch_by(&self, node: u32, state: &NodeState) -> bool
        requires node { node ≤ count_of self.now.plan }
        requires state { IsStateOf self.now.plan self.now.past node state.now }
        ensures { result ≡ may_launch self.now.plan self.now.past node }
    {
        if node < self.plan().count() {
            self.is_ready_by(node, state)
        } else {
            self.is_final_ready_by(state)
        }
    }

    /// Whether this phase is outstanding.
    pub fn is_outstanding(&self, key: &Key) -> bool
        ensures is { result ≡ is_among key.now (outstanding self.now.plan self.now.past) }
        ensures within { IsTrue result → key.now.node ≤ count_of self.now.plan }
    {
        let _records = &self.records;
        if key.node > self.plan().count() {
            return false;
        }
        self.is_outstanding_by(key, &self.state_of(key.node))
    }

    fn is_outstanding_by(&self, key: &Key, state: &NodeState) -> bool
        requires node { key.now.node ≤ count_of self.now.plan }
        requires state { IsStateOf self.now.plan self.now.past key.now.node state.now }
        ensures { result ≡ is_among key.now (outstanding self.now.plan self.now.past) }
    {
        self.keeps_the_law();
        both(
            state.run.is_running(),
            is_key(self.next_by(key.node, state), key),
        )
    }

    /// A node's phase that may be launched.
    pub fn launchable(&self, node: u32) -> Option<Key>
        requires { node ≤ count_of self.now.plan }
        ensures is { result ≡ launchable self.now.plan self.now.past node }
        ensures node { IfSome result (λ key. key.node ≡ node) }
    {
        let state = self.state_of(node);
        if self.may_launch_by(node, &state) {
            self.next_by(node, &state)
        } else {
            None
        }
    }

    /// Whether nothing may be launched, by the state of FINAL's place.
    fn nothing_to_launch_by(&self, state: &NodeState) -> bool
        requires { IsStateOf self.now.plan self.now.past (count_of self.now.plan) state.now }
        ensures { result ≡ all_below (λ node. not (may_launch self.now.plan self.now.past node)) (suc (count_of self.now.plan)) }
    {
        both(!self.is_final_ready_by(state), self.nothing_ready())
    }

    fn all_done(&self) -> bool
        ensures { result ≡ all_below (is_done self.now.plan self.now.past) (count_of self.now.plan) }
    {
        let _records = &self.records;
        self.done == self.plan.count()
    }

    fn status_of_abort(&self) -> u8
        ensures { result ≡ status_of_abort self.now.plan self.now.past (count_of self.now.plan) }
    {
        let _records = &self.records;
        self.stop_status
    }

    /// The exit status of the run if it ends here, by the state of FINAL's place.
    fn verdict_by(&self, state: &NodeState) -> u8
        requires { IsStateOf self.now.plan self.now.past (count_of self.now.plan) state.now }
        ensures { result ≡ exit_status self.now.plan self.now.past }
    {
        let plan = self.plan();
        if plan.has_final() {
            if self.is_done_by(plan.count(), state) {
                0
            } else {
                1
            }
        } else if self.aborted() {
            self.status_of_abort()
        } else if self.all_done() {
            0
        } else {
            1
        }
    }

    /// The exit status of the run if it ends here.
    pub fn verdict(&self) -> u8
        ensures { result ≡ exit_status self.now.plan self.now.past }
    {
        self.verdict_by(&self.state_of(self.plan().count()))
    }

    /// Whether a node is not done, and no phase of it is to come.
    fn is_in_error(&self, node: u32) -> bool
        requires { node ≤ count_of self.now.plan }
        ensures { result ≡ is_in_error self.now.plan self.now.past node }
    {
        !self.is_done(node) && self.next(node).is_none()
    }

    /// Whether a rescue file is to be written: the run was aborted, an ordinary node is not done, or
    /// the FINAL node is in error.
    pub fn needs_rescue(&self) -> bool
        ensures { result ≡ needs_rescue self.now.plan self.now.past }
    {
        let plan = self.plan();
        self.aborted() || !self.all_done() || (plan.has_final() && self.is_in_error(plan.count()))
    }

    /// The place of the node that a record is judged by: its own, and FINAL's for the end of the run.
    fn place_of(&self, entry: &Record) -> u32
        ensures is { result ≡ judged_place self.now.plan entry.now }
        ensures within { result ≤ count_of self.now.plan }
    {
        let count = self.plan().count();
        match entry {
            Record::Launch(key, _) | Record::End(key, _) => {
                if key.node < count { key.node } else { count }
            }
            _ => count,
        }
    }

    /// Whether a record may follow, by the state of its place.
    #[tactic(auto, unfolding(crate::specs::Run::may_follow))]
    fn follows(&self, entry: &Record, state: &NodeState) -> bool
        requires { IsStateOf self.now.plan self.now.past (judged_place self.now.plan entry.now) state.now }
        ensures { result ≡ may_follow self.now.plan self.now.past entry.now }
    {
        match entry {
            Record::Life => !self.is_over(),
            Record::Launch(key, number) => self.launch_follows(key, *number, state),
            Record::End(key, outcome) => self.end_follows(key, *outcome, state),
            Record::Finish(status) => {
                self.is_open()
                    && self.nothing_running()
                    && self.nothing_to_launch_by(state)
                    && *status == self.verdict_by(state)
            }
        }
    }

    #[tactic(auto, unfolding(crate::specs::Run::may_follow))]
    fn launch_follows(&self, key: &Key, number: u64, state: &NodeState) -> bool
        requires { IsStateOf self.now.plan self.now.past (judged_place self.now.plan (Record.Launch key.now number)) state.now }
        ensures { result ≡ may_follow self.now.plan self.now.past (Record.Launch key.now number) }
    {
        if key.node > self.plan().count() {
            return false;
        }
        self.is_open()
            && self.may_launch_by(key.node, state)
            && is_key(self.next_by(key.node, state), key)
            && number == self.launch_number(key)
    }

    #[tactic(auto, unfolding(crate::specs::Run::may_follow))]
    fn end_follows(&self, key: &Key, outcome: Outcome, state: &NodeState) -> bool
        requires { IsStateOf self.now.plan self.now.past (judged_place self.now.plan (Record.End key.now outcome)) state.now }
        ensures { result ≡ may_follow self.now.plan self.now.past (Record.End key.now outcome) }
    {
        let _records = &self.records;
        if key.node > self.plan().count() {
            return false;
        }
        self.is_open()
            && self.is_outstanding_by(key, state)
            && may_end(self.plan().spec(key.node), key.phase, outcome)
    }

    /// Whether a record may follow.
    fn fits(&self, entry: &Record) -> bool
        ensures { result ≡ may_follow self.now.plan self.now.past entry.now }
    {
        self.follows(entry, &self.state_of(self.place_of(entry)))
    }

    /// Whether a record may follow, and else why not.
    pub fn accepts(&self, entry: &Record) -> Result<(), CoreFault>
        ensures ok { IsOk result ↔ IsTrue (may_follow self.now.plan self.now.past entry.now) }
        ensures err { IfErr result (λ fault. fault ≡ fault_after self.now.past) }
    {
        if self.fits(entry) {
            Ok(())
        } else {
            Err(fault_by(self.is_over()))
        }
    }

    /// Lends the state of a place, which is a look.
    fn look(&mut self, node: u32) -> Looked
        requires { node ≤ count_of self.old.plan }
        ensures node { result.node ≡ node }
        ensures state { IsStateOf self.old.plan self.old.past node result.state }
        ensures unchanged { self.new ≡ record self.old { looks = self.new.looks } }
        ensures looks { self.new.looks ≤ self.old.looks + 1 }
    {
        let _graph = self.plan.graph();
        self.states.look(node)
    }

    /// Adds a record that may follow, whose node's state was lent.
    fn keep(&mut self, looked: Option<Looked>, entry: Record)
        requires room { 0 < self.old.room }
        requires lawful { IsTrue (may_follow self.old.plan self.old.past entry) }
        requires looked { IsLookedFor self.old.plan self.old.past entry looked }
        ensures plan { self.new.plan ≡ self.old.plan }
        ensures limits { self.new.limits ≡ self.old.limits }
        ensures past { self.new.past ≡ entry ∷ self.old.past }
        ensures room { self.old.room ≤ self.new.room + 1 }
        ensures looks { self.new.looks ≤ self.old.looks + further_looks self.old.plan entry (stops self.old.plan self.old.past entry) }
    {
        let plan = self.plan;
        let _more = count_and_one(&self.records);
        let _graph = plan.graph();
        let _nodes = plan.count();
        self.jobs = count_jobs(self.jobs, entry);
        let turn = advance(
            plan,
            self.aborted,
            &mut self.states,
            &mut self.queue,
            looked,
            entry,
        );
        self.aborted = either(self.aborted, turn.aborts);
        self.stop_status = status_after(plan, self.stop_status, turn.aborts, entry);
        self.failed = count_if(self.failed, turn.is_stuck);
        self.done = count_if(self.done, turn.is_done);
        throttle(plan, &mut self.throttles, entry, turn.aborts);
        push_in_room(&mut self.records, entry);
    }

    /// Adds a record that is known to be one that may follow. It takes no memory.
    pub fn add(&mut self, entry: Record)
        requires room { 0 < self.old.room }
        requires lawful { IsTrue (may_follow self.old.plan self.old.past entry) }
        ensures plan { self.new.plan ≡ self.old.plan }
        ensures limits { self.new.limits ≡ self.old.limits }
        ensures past { self.new.past ≡ entry ∷ self.old.past }
        ensures room { self.old.room ≤ self.new.room + 1 }
        ensures looks { self.new.looks ≤ self.old.looks + most_looks self.old.plan self.old.past entry }
    {
        if let Record::Life = entry {
            self.keep(None, entry);
        } else {
            let place = self.place_of(&entry);
            let looked = self.look(place);
            self.keep(Some(looked), entry);
        }
    }

    /// Adds a record that may follow. It takes no memory. A record that is refused changes nothing
    /// but how many states were looked at.
    pub fn apply(&mut self, entry: Record) -> Result<(), CoreFault>
        requires { 0 < self.old.room }
        ensures lawful { IsOk result ↔ IsTrue (may_follow self.old.plan self.old.past entry) }
        ensures plan { self.new.plan ≡ self.old.plan }
        ensures limits { self.new.limits ≡ self.old.limits }
        ensures past { OnOk result (self.new.past ≡ entry ∷ self.old.past) }
        ensures room { OnOk result (self.old.room ≤ self.new.room + 1) }
        ensures unchanged { OnErr result (self.new ≡ record self.old { looks = self.new.looks }) }
        ensures err { IfErr result (λ fault. fault ≡ fault_after self.old.past) }
        // What a record looks at is bounded by what it touches.
        ensures looks { self.new.looks ≤ self.old.looks + most_looks self.old.plan self.old.past entry }
    {
        if let Record::Life = entry {
            if self.is_over() {
                return Err(CoreFault::Finished);
            }
            self.keep(None, entry);
            return Ok(());
        }
        let place = self.place_of(&entry);
        let looked = self.look(place);
        if !self.follows(&entry, &looked.state) {
            return Err(fault_by(self.is_over()));
        }
        self.keep(Some(looked), entry);
        Ok(())
    }

    /// Makes room for so many records more.
    pub fn reserve(&mut self, count: usize) -> Result<(), CoreFault>
        ensures plan { self.new.plan ≡ self.old.plan }
        ensures limits { self.new.limits ≡ self.old.limits }
        ensures past { self.new.past ≡ self.old.past }
        ensures looks { self.new.looks ≡ self.old.looks }
        ensures ok { OnOk result (count ≤ self.new.room) }
        ensures room { self.old.room ≤ self.new.room }
        ensures err { IfErr result (λ fault. fault ≡ CoreFault.Memory) }
    {
        self.records.reserve(count)?;
        Ok(())
    }

    /// A run with no records.
    pub fn new(alloc: Global, plan: &'a Plan, limits: Limits) -> Result<Core<'a>, CoreFault>
        ensures ok { IfOk result (λ core. (core.plan ≡ plan.now) × (core.limits ≡ limits) × (core.past ≡ []) × (core.looks ≡ 0)) }
        ensures err { IfErr result (λ fault. fault ≡ CoreFault.Memory) }
    {
        let _graph = plan.graph();
        let states = States::new(alloc, plan)?;
        let throttles = fresh_throttles(alloc, plan, limits)?;
        let queue = fresh_queue(alloc, plan, &states)?;
        Ok(Core {
            plan,
            records: Vec::new(alloc),
            states,
            aborted: false,
            stop_status: 1,
            jobs: 0,
            throttles,
            failed: 0,
            done: done_at_first(plan),
            queue,
        })
    }

    /// The limits that were handed in.
    pub fn limits(&self) -> Limits
        ensures { result ≡ self.now.limits }
    {
        self.throttles.limits()
    }

    /// Whether no limit that counts this phase is reached.
    fn lets_in(&self, key: &Key) -> bool
        requires { key.now.node ≤ count_of self.now.plan }
        ensures { result ≡ lets_in self.now.limits self.now.plan (outstanding self.now.plan self.now.past) key.now }
    {
        let plan = self.plan;
        let category = plan.spec(key.node).category();
        self.throttles.may_start(key.phase, category)
    }

    /// A node's phase that may be launched and is let in.
    fn startable(&self, node: u32) -> Option<Key>
        requires { node ≤ count_of self.now.plan }
        ensures { result ≡ startable self.now.limits self.now.plan self.now.past node }
    {
        match self.launchable(node) {
            Some(key) => { if self.lets_in(&key) { Some(key) } else { None } }
            None => None,
        }
    }

    /// A node's phase that may be launched and is let in, once these phases are launched, which
    /// these throttles count.
    fn startable_behind(&self, keys: &[Key], throttles: &Throttles, node: u32) -> Option<Key>
        requires node { node < count_of self.now.plan }
        requires counted { throttles.now ≡ throttled_in self.now.limits self.now.plan
            (outstanding self.now.plan (launched self.now.past keys.now)) }
        ensures { result ≡ startable self.now.limits self.now.plan (launched self.now.past keys.now) node }
    {
        let plan = self.plan;
        let _graph = plan.graph();
        match self.launchable(node) {
            Some(key) => {
                if is_among(keys, &key) {
                    return None;
                }
                if throttles.may_start(key.phase, plan.spec(key.node).category()) {
                    Some(key)
                } else {
                    None
                }
            }
            None => None,
        }
    }

    /// The better of the best of the classes before one, and of the head of this one: the first member
    /// that is not taken. It is looked at where it comes first, and where the limits let its class in.
    fn best_with_class(
        &self,
        queue: &ClassedQueue,
        class: usize,
        taken: &[u32],
        keys: &[Key],
        throttles: &Throttles,
        best: Option<Key>,
    ) -> Option<Key>
        requires class { class < classes_of self.now.plan }
        requires waiting { AreWaiting self.now.plan self.now.past queue.now.queues }
        requires taken { AreHeadsTaken self.now.limits self.now.plan self.now.past queue.now.queues keys.now taken.now }
        requires counted { throttles.now ≡ throttled_in self.now.limits self.now.plan
            (outstanding self.now.plan (launched self.now.past keys.now)) }
        requires best { IsBestOf self.now.limits self.now.plan (launched self.now.past keys.now)
            (λ node. (node < count_of self.now.plan) × (class_of_next self.now.plan self.now.past node < class)) best }
        requires head { IfSome best (λ key. IsNextHead queue.now.queues taken.now (class_of_key self.now.plan key) key.node) }
        ensures best { IsBestOf self.now.limits self.now.plan (launched self.now.past keys.now)
            (λ node. (node < count_of self.now.plan) × (class_of_next self.now.plan self.now.past node < class + 1)) result }
        ensures head { IfSome result (λ key. IsNextHead queue.now.queues taken.now (class_of_key self.now.plan key) key.node) }
    {
        match queue.head(class, taken) {
            None => best,
            Some(member) => {
                if !comes_first(self.plan(), member.node, best) {
                    return best;
                }
                if !lets_class(throttles, class) {
                    return best;
                }
                let next = self.startable_behind(keys, throttles, member.node);
                better_of(self.plan(), best, next)
            }
        }
    }

    /// Of the ordinary nodes the best whose phase may be launched and is let in, once these phases
    /// are launched, which these throttles count, and of each class so many members are taken.
    fn best_behind(
        &self,
        queue: &ClassedQueue,
        taken: &[u32],
        keys: &[Key],
        throttles: &Throttles,
    ) -> Option<Key>
        requires waiting { AreWaiting self.now.plan self.now.past queue.now.queues }
        requires taken { AreHeadsTaken self.now.limits self.now.plan self.now.past queue.now.queues keys.now taken.now }
        requires counted { throttles.now ≡ throttled_in self.now.limits self.now.plan
            (outstanding self.now.plan (launched self.now.past keys.now)) }
        ensures best { IsBestBelow self.now.limits self.now.plan (launched self.now.past keys.now) (count_of self.now.plan) result }
        ensures head { IfSome result (λ key. IsNextHead queue.now.queues taken.now (class_of_key self.now.plan key) key.node) }
    {
        if lets_none(throttles) {
            return None;
        }
        let mut best = None;
        for class in 0..queue.classes() {
            best = self.best_with_class(queue, class, taken, keys, throttles, best);
        }
        best
    }

    /// Of the ordinary nodes the best whose phase may be launched and is let in.
    fn best_ordinary(&self) -> Option<Key>
        ensures { IsBestBelow self.now.limits self.now.plan self.now.past (count_of self.now.plan) result }
    {
        let _records = &self.records;
        self.best_behind(self.queue(), &[], &[], &self.throttles)
    }

    /// The best phase that may be launched and is let in.
    fn best(&self) -> Option<Key>
        ensures { IsBestBelow self.now.limits self.now.plan self.now.past (suc (count_of self.now.plan)) result }
    {
        let count = self.plan().count();
        better_of(self.plan(), self.best_ordinary(), self.startable(count))
    }

    /// What is to be done next: of the phases that may be launched and that no limit holds, the
    /// one whose node has the greatest priority, and of these the first in plan order.
    pub fn choose(&self) -> Choice
        ensures { IsChoice self.now.limits self.now.plan self.now.past result }
    {
        match self.best() {
            Some(key) => Choice::Start(key),
            None => {
                if self.nothing_running() {
                    Choice::Finish(self.verdict())
                } else {
                    Choice::Wait
                }
            }
        }
    }

    /// Counts one launch more after these.
    fn count_launch(&self, keys: &[Key], throttles: &mut Throttles, key: Key)
        requires node { key.node < count_of self.now.plan }
        requires counted { throttles.old ≡ throttled_in self.now.limits self.now.plan
            (outstanding self.now.plan (launched self.now.past keys.now)) }
        ensures { throttles.new ≡ record throttles.old {
          running = with_one throttles.old.running key.phase (node_at self.now.plan key.node).category;
        } }
    {
        let plan = self.plan;
        let _graph = plan.graph();
        let _all = count_both(keys, &self.records);
        throttles.note(key.phase, plan.spec(key.node).category());
    }

    /// The ordinary phases that are to be started one after another, at most so many.
    fn ordinary_round(&self, alloc: Global, max: usize) -> Result<Vec<Key>, CoreFault>
        ensures ok { IfOk result (λ keys. IsRound self.now.limits self.now.plan self.now.past max keys.items) }
        ensures err { IfErr result (λ fault. fault ≡ CoreFault.Memory) }
    {
        let plan = self.plan();
        let _graph = plan.graph();
        let _nodes = plan.count();
        let queue = self.queue();
        let mut throttles = match self.throttles.copied(alloc) {
            Ok(throttles) => throttles,
            Err(_) => return Err(CoreFault::Memory),
        };
        let mut taken = vec![in alloc; 0; queue.classes()]?;
        let mut keys = Vec::new(alloc);
        while keys.len() < max {
            match self.best_behind(queue, &taken, &keys, &throttles) {
                None => return Ok(keys),
                Some(key) => {
                    self.count_launch(&keys, &mut throttles, key);
                    count(&mut taken, class_of_key(plan, &key));
                    if keys.push(key).is_err() {
                        return Err(CoreFault::Memory);
                    }
                }
            }
        }
        Ok(keys)
    }

    /// The phases that are to be started one after another, at most so many: each is what `choose`
    /// starts once those before it are launched. Fewer come only where nothing is to be started
    /// then.
    pub fn plan_round(&self, alloc: Global, max: usize) -> Result<Vec<Key>, CoreFault>
        ensures chosen { IfOk result (λ keys. AreChosen self.now.limits self.now.plan self.now.past keys.items) }
        ensures few { IfOk result (λ keys. length keys.items ≤ max) }
        ensures all { IfOk result (λ keys. length keys.items < max
            → NothingToStart self.now.limits self.now.plan (launched self.now.past keys.items)) }
        ensures err { IfErr result (λ fault. fault ≡ CoreFault.Memory) }
    {
        let _graph = self.plan().graph();
        let mut keys = self.ordinary_round(alloc, max)?;
        if !keys.is_empty() {
            return Ok(keys);
        }
        if max == 0 {
            return Ok(keys);
        }
        match self.startable(self.plan().count()) {
            None => Ok(keys),
            Some(key) => {
                if keys.push(key).is_err() {
                    return Err(CoreFault::Memory);
                }
                Ok(keys)
            }
        }
    }

    /// Whether a phase may be launched once these are.
    fn launch_fits(&self, keys: &[Key], key: &Key) -> bool
        requires { IsTrue (may_launch_all self.now.plan self.now.past keys.now) }
        ensures { result ≡ may_follow self.now.plan (launched self.now.past keys.now)
            (launch_of (launched self.now.past keys.now) key.now) }
    {
        let entry = Record::Launch(*key, self.launch_number(key));
        if keys.is_empty() {
            return self.fits(&entry);
        }
        if key.node >= self.plan().count() {
            return false;
        }
        if is_among(keys, key) {
            return false;
        }
        self.fits(&entry)
    }

    /// Whether these phases may be launched, one after another. It takes no memory.
    pub fn launches_fit(&self, keys: &[Key]) -> bool
        ensures { result ≡ may_launch_all self.now.plan self.now.past keys.now }
    {
        let mut place = 0;
        while place < keys.len() {
            let (front, _) = keys.split_at(place);
            if !self.launch_fits(front, &keys[place]) {
                return false;
            }
            place += 1;
        }
        true
    }

    /// Whether this end of a phase, which may be recorded, aborts the run.
    pub fn aborts_with(&self, key: &Key, outcome: Outcome) -> bool
        requires { IsTrue (may_follow self.now.plan self.now.past (Record.End key.now outcome)) }
        ensures { result ≡ stops self.now.plan self.now.past (Record.End key.now outcome) }
    {
        self.keeps_the_law();
        let plan = self.plan();
        if self.aborted() || key.node >= plan.count() {
            return false;
        }
        let mut run = self.state_of(key.node).run;
        let _ = run.ended(outcome);
        is_met_by(plan.spec(key.node).course().abort_on, run.last_value())
    }

    /// How many of these endings are recorded together: those up to and including the first that
    /// aborts the run. None where one of these may not follow those before it. It takes no memory.
    pub fn ends_fit(&self, ends: &[(Key, Outcome)]) -> Option<usize>
        ensures { result ≡ fitting self.now.plan self.now.past (ends_of ends.now) }
    {
        self.keeps_the_law();
        let mut place = 0;
        while place < ends.len() {
            let (key, outcome) = ends[place];
            let (front, _) = ends.split_at(place);
            if has_ended(front, &key) || !self.fits(&Record::End(key, outcome)) {
                return None;
            }
            place += 1;
            if self.aborts_with(&key, outcome) {
                return Some(place);
            }
        }
        Some(place)
    }

    /// The records of launches of these phases, one after another.
    pub fn launches(&self, alloc: Global, keys: &[Key]) -> Result<Vec<Record>, CoreFault>
        ensures ok { IfOk result (λ entries. entries.items ≡ launches self.now.past keys.now) }
        ensures err { IfErr result (λ fault. fault ≡ CoreFault.Memory) }
    {
        let _all = count_both(keys, &self.records);
        let mut entries = Vec::new(alloc);
        let mut number = self.next_launch();
        let mut place = 0;
        while place < keys.len() {
            let key = keys[place];
            let own = number_of(key.phase, number);
            if entries.push(Record::Launch(key, own)).is_err() {
                return Err(CoreFault::Memory);
            }
            number = count_jobs(number, Record::Launch(key, own));
            place += 1;
        }
        Ok(entries)
    }

    /// The phases of a node that ended, the oldest first.
    pub fn history(&self, alloc: Global, node: u32) -> Result<Vec<Ended>, CoreFault>
        ensures ok { IfOk result (λ phases. phases.items ≡ history self.now.past node) }
        ensures err { IfErr result (λ fault. fault ≡ CoreFault.Memory) }
    {
        Ok(history_of(alloc, &self.records, node)?)
    }

    /// What the records say of an outstanding phase at its launch: the facts that its command is
    /// made of. It takes no memory, and goes over nothing.
    pub fn facts(&self, key: &Key) -> PhaseFacts
        requires { IsTrue (is_among key.now (outstanding self.now.plan self.now.past)) }
        ensures { result ≡ facts_in self.now.plan self.now.past key.now }
    {
        self.keeps_the_law();
        let notes = self.states.read(key.node).notes;
        noted_facts(self.plan().spec(key.node), notes, self.aborted, self.failed)
    }

    /// What a node has come to.
    pub fn node_state(&self, node: u32) -> State
        requires { node ≤ count_of self.now.plan }
        ensures { result ≡ (shown self.now.plan self.now.past node).state }
    {
        if self.is_done(node) {
            State::Done
        } else if self.next(node).is_none() {
            State::Error
        } else {
            State::NotRun
        }
    }

    /// Which ordinary nodes are done.
    pub fn marks(&self, alloc: Global) -> Result<Vec<bool>, CoreFault>
        ensures ok { IfOk result (λ marks. AreDoneMarks self.now.plan self.now.past marks.items) }
        ensures err { IfErr result (λ fault. fault ≡ CoreFault.Memory) }
    {
        let mut marks = Vec::new(alloc);
        for node in 0..self.plan().count() {
            marks.push(self.is_done(node))?;
        }
        Ok(marks)
    }
}
