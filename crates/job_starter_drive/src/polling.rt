//! A starter over a system whose children are asked one by one.
ghost use Rattle.std.specs.Prelude.{◌≡◌, ◌∷◌, ◌≤◌, None, IsTrue, IfOk, IfSome, OnOk, OnErr, IfErr};
ghost use Rattle.node_machine.specs.Story.{is_possible};
ghost use Rattle.sched_core.specs.Run.{is_among};
ghost use Rattle.job_starter_drive.specs.Calls.{running, AllowsNoMore, IsReportedEnding};
ghost use Rattle.job_starter_drive.specs.Causes.{IsAskFault};

use crate::keys::key_at;
use crate::starter::{Starter, System};
use crate::{Call, Killed, StartFault, Started};
use node_machine::{Key, Outcome};
use run_plan_node::ChildCommand;

/// Rounds of questions without an ending, before a blocking wait for the oldest child.
const ROUNDS: u32 = 1 << 20;

/// After so many rounds without an ending there is one more pause between two rounds. So the pauses grow with the silence, of which none
/// is more than about a thousandth, and all rounds last for months: jobs of days don't come to the blocking wait.
const ROUNDS_A_PAUSE: u32 = 1 << 11;

/// A starter over a system: each running child is asked in turn, in the order of the starts, with
/// a pause between two rounds.
#[derive(Drop)]
pub struct ProcessStarter<S: System + Drop> {
    system: S,
}

impl<S: System + Drop> ProcessStarter<S> {
    /// A starter over this system.
    pub fn new(system: S) -> ProcessStarter<S>
        ensures { result.system ≡ system }
    {
        ProcessStarter { system }
    }

    /// The first running child that the system tells to have ended, in the order of the starts.
    fn ask_each(&mut self) -> Result<Option<(Key, Outcome)>, StartFault>
        ensures ended { IfOk result (λ answer. IfSome answer
            (IsReportedEnding (S.may_return self.old.system) (S.call_log self.old.system) (S.call_log self.new.system))) }
        ensures runs { IfOk result (λ answer. answer ≡ None
            → S.call_log self.new.system ≡ S.call_log self.old.system) }
        ensures refused { OnErr result (S.call_log self.new.system ≡ S.call_log self.old.system) }
        ensures err { IfErr result
            (IsAskFault (S.faults self.old.system) (S.faults self.new.system)) }
        ensures counts { OnOk result (S.faults self.new.system ≡ S.faults self.old.system) }
        ensures later { S.faults self.old.system ≤ S.faults self.new.system }
        ensures may { AllowsNoMore (S.may_return self.old.system) (S.may_return self.new.system) }
    {
        for place in 0..self.system.running().len() {
            let key = key_at(self.system.running(), place);
            match self.system.ask(key) {
                Ok(Some(outcome)) => return Ok(Some((key, outcome))),
                Ok(None) => {}
                Err(fault) => return Err(fault),
            }
        }
        Ok(None)
    }

    /// Lets some time pass, after so many rounds without an ending.
    fn pause_after(&mut self, rounds: u32)
        ensures call_log { S.call_log self.new.system ≡ S.call_log self.old.system }
        ensures counts { S.faults self.new.system ≡ S.faults self.old.system }
        ensures may { AllowsNoMore (S.may_return self.old.system) (S.may_return self.new.system) }
    {
        for _ in 0..=rounds / ROUNDS_A_PAUSE {
            self.system.pause();
        }
    }
}

impl<S: System + Drop> Starter for ProcessStarter<S> {
    ghost call_log = { λ p. S.call_log p.system };

    ghost may_return = { λ p. S.may_return p.system };

    ghost faults = { λ p. S.faults p.system };

    ghost prepared = { λ p. S.prepared p.system };

    fn start(&mut self, key: Key, command: &ChildCommand) -> Result<Started, StartFault> {
        self.system.spawn(key, command)
    }

    fn wait_any(&mut self) -> Result<(Key, Outcome), StartFault> {
        if self.system.running().is_empty() {
            return Err(StartFault::NoChild);
        }
        for round in 0..ROUNDS {
            match self.ask_each() {
                Ok(Some(ended)) => return Ok(ended),
                Ok(None) => self.pause_after(round),
                Err(fault) => return Err(fault),
            }
        }
        let oldest = key_at(self.system.running(), 0);
        match self.system.wait(oldest) {
            Ok(outcome) => Ok((oldest, outcome)),
            Err(fault) => Err(fault),
        }
    }

    fn take_ended(&mut self) -> Option<(Key, Outcome)> {
        self.system.take_ended()
    }

    fn will_record(&mut self) {
        self.system.will_record();
    }

    fn sees_halt(&mut self) -> bool {
        self.system.sees_halt()
    }

    fn kill(&mut self, key: Key) -> Killed {
        self.system.kill(key)
    }

    fn running(&self) -> &[Key] {
        self.system.running()
    }

    fn calls(&self) -> &[Call] {
        self.system.calls()
    }

    fn faults(&self) -> u64 {
        self.system.faults()
    }
}
