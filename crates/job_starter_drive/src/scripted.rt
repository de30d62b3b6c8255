//! A starter that starts nothing: a table says how each child ends.
ghost use Rattle.std.specs.Prelude.{◌≡◌, ◌≢◌, [], ◌<◌, IsTrue, IsFalse};
ghost use Rattle.node_machine.specs.Story.{is_possible};
ghost use Rattle.node_machine.specs.OutcomeTable.{HasPossibleOutcomes};
ghost use Rattle.job_starter_drive.specs.Calls.{running, is_halt_seen};
ghost use Rattle.job_starter_drive.specs.Scripts.{scripted_outcome, IsScripted};

use crate::keys::key_at;
use crate::log::CallLog;
use crate::refusals::{no_answer, no_memory, raise};
use crate::starter::Starter;
use crate::{Call, Killed, StartFault, Started};
use node_machine::{Key, Outcome, Table};
use run_plan::Plan;
use run_plan_node::ChildCommand;
use std::alloc::Global;

/// Which calls are made to fail, each by its number from 0, and where the next child ends.
#[derive(Drop)]
pub struct Script {
    /// For each wait in turn the place, among the running children in the order of their starts, of
    /// the one that ends; after the last of them where there are fewer. After the end of this list
    /// the oldest ends.
    pub places: Vec<usize>,
    /// The start that is refused for lack of memory (A1).
    pub failing_start: Option<u64>,
    /// The wait that is refused (A2).
    pub failing_wait: Option<u64>,
    /// Whether kills are refused.
    pub lets_go: bool,
}

/// A starter whose children end as a table says.
pub struct ScriptedStarter<'a> {
    plan: &'a Plan,
    table: &'a Table,
    script: Script,
    log: CallLog,
    starts: u64,
    waits: u64,
    faults: u64,
    ghost possible: { HasPossibleOutcomes table.now },
    // Nobody halts it.
    ghost unhalted: { IsFalse (is_halt_seen log.calls) },
}

// Each function that drops a value calls this; a derived drop would be in each, part by part.
impl Drop for ScriptedStarter<'_> {
    fn drop(self) {
        let ScriptedStarter {
            plan: _,
            table: _,
            script: _,
            log: _,
            starts: _,
            waits: _,
            faults: _,
        } = self;
    }
}

/// What comes of the start of a child that ends so.
fn answer_for(outcome: Outcome) -> Started
    ensures not_started { result ≡ Started.NotStarted → outcome ≡ Outcome.NoStart }
    ensures runs { result ≡ Started.Running → outcome ≢ Outcome.NoStart }
{
    match outcome {
        Outcome::NoStart => Started::NotStarted,
        _ => Started::Running,
    }
}

impl<'a> ScriptedStarter<'a> {
    /// A starter of no children. Where the table has no entry a child exits with 0.
    pub fn new(alloc: Global, plan: &'a Plan, table: &'a Table, script: Script) -> Self
        requires { HasPossibleOutcomes table.now }
        ensures nothing { result.log.calls ≡ [] }
        ensures plan { result.plan.now ≡ plan.now }
        ensures table { result.table.now ≡ table.now }
        ensures places { result.script.places.items ≡ script.places.items }
    {
        ScriptedStarter {
            plan,
            table,
            script,
            log: CallLog::new(alloc),
            starts: 0,
            waits: 0,
            faults: 0,
        }
    }

    /// How the table says that the child of a key ends.
    fn outcome_of(&self, key: &Key) -> Outcome
        ensures is { result ≡ scripted_outcome self.now.plan.now self.now.table.now key.now }
        ensures possible { IsTrue (is_possible result) }
    {
        if key.node > self.plan.count() {
            return Outcome::Exit(0);
        }
        let name = self.plan.spec(key.node).name();
        self.table.get(name, key.attempt, key.phase)
    }

    /// The place of the running child that ends next.
    fn next_place(&self, count: usize) -> usize
        requires { 0 < count }
        ensures within { result < count }
        ensures first { self.now.script.places.items ≡ [] → result ≡ 0 }
    {
        let Ok(wait) = usize::try_from(self.waits) else {
            return 0;
        };
        match self.script.places.get(wait) {
            Some(place) if *place < count => *place,
            Some(_) => count - 1,
            None => 0,
        }
    }
}

impl<'a> Starter for ScriptedStarter<'a> {
    ghost call_log = { λ s. s.log.calls };

    ghost may_return = { λ s. IsScripted s.plan.now s.table.now s.script.places.items };

    ghost faults = { λ s. s.faults };

    ghost prepared = { λ _. Unit {0} };

    fn start(&mut self, key: Key, command: &ChildCommand) -> Result<Started, StartFault> {
        let number = self.starts;
        raise(&mut self.starts);
        if self.script.failing_start == Some(number) {
            return Err(no_memory(&mut self.faults));
        }
        if self.log.make_room().is_err() {
            return Err(no_memory(&mut self.faults));
        }
        let answer = answer_for(self.outcome_of(&key));
        self.log.started(key, command, answer);
        Ok(answer)
    }

    fn wait_any(&mut self) -> Result<(Key, Outcome), StartFault> {
        let count = self.log.running().len();
        if count == 0 {
            return Err(StartFault::NoChild);
        }
        let place = self.next_place(count);
        let number = self.waits;
        raise(&mut self.waits);
        if self.script.failing_wait == Some(number) {
            return Err(no_answer(&mut self.faults));
        }
        let key = key_at(self.log.running(), place);
        let outcome = self.outcome_of(&key);
        self.log.ended(key, outcome);
        Ok((key, outcome))
    }

    fn take_ended(&mut self) -> Option<(Key, Outcome)> {
        None
    }

    fn will_record(&mut self) {}

    fn sees_halt(&mut self) -> bool {
        false
    }

    fn kill(&mut self, key: Key) -> Killed {
        self.log.killed(key);
        if self.script.lets_go {
            Killed::LetGo
        } else {
            Killed::Ended
        }
    }

    fn running(&self) -> &[Key] {
        self.log.running()
    }

    fn calls(&self) -> &[Call] {
        self.log.calls()
    }

    fn faults(&self) -> u64 {
        self.faults
    }
}
