//! A starter that starts nothing: by a clock of its own, each child takes as long as a timetable says, and the one that ends first is reported first.
ghost use Rattle.std.specs.Prelude.{◌≡◌, ◌≢◌, [], IsFalse};
ghost use Rattle.job_starter_drive.specs.Calls.{is_halt_seen};
ghost use Rattle.dag_main_rehearse.specs.Timed.{HasPossibleEnds, IsTimed, timings_of, moment_of, moment_after};

use crate::timeline::Timeline;
use crate::timetable::Timetable;
use job_starter_drive::{Call, CallLog, Killed, StartFault, Started, Starter, no_memory};
use node_machine::{Key, Outcome};
use run_plan_node::ChildCommand;
use std::alloc::Global;

/// What comes of the start of a child that ends so.
fn answer_for(outcome: Outcome) -> Started
    ensures not_started { result ≡ Started.NotStarted → outcome ≡ Outcome.NoStart }
    ensures runs { result ≡ Started.Running → outcome ≢ Outcome.NoStart }
{
    match outcome {
        Outcome::NoStart => Started::NotStarted,
        _ => Started::Running,
    }
}

/// A starter whose children take as long as a timetable says.
pub(crate) struct TimedStarter<'a> {
    timetable: &'a Timetable,
    timeline: Timeline,
    log: CallLog,
    faults: u64,
    ghost possible: { HasPossibleEnds (timings_of timetable.now) },
    // Nobody halts it.
    ghost unhalted: { IsFalse (is_halt_seen log.calls) },
    ghost in_time: { moment_of timeline ≡ moment_after (timings_of timetable.now) log.calls },
}

// Each function that drops a value calls this; a derived drop would be in each, part by part.
impl Drop for TimedStarter<'_> {
    fn drop(self) {
        let TimedStarter {
            timetable: _,
            timeline: _,
            log: _,
            faults: _,
        } = self;
    }
}

impl<'a> TimedStarter<'a> {
    /// A starter of no children, at time 0.
    pub(crate) fn new(alloc: Global, timetable: &'a Timetable) -> Self
        requires { HasPossibleEnds (timings_of timetable.now) }
        ensures nothing { result.log.calls ≡ [] }
        ensures timetable { result.timetable.now ≡ timetable.now }
    {
        TimedStarter {
            timetable,
            timeline: Timeline::new(alloc),
            log: CallLog::new(alloc),
            faults: 0,
        }
    }
}

impl<'a> Starter for TimedStarter<'a> {
    ghost call_log = { λ s. s.log.calls };

    ghost may_return = { λ s. IsTimed (timings_of s.timetable.now) };

    ghost faults = { λ s. s.faults };

    ghost prepared = { λ _. Unit {0} };

    fn start(&mut self, key: Key, command: &ChildCommand) -> Result<Started, StartFault> {
        if self.log.make_room().is_err() {
            return Err(no_memory(&mut self.faults));
        }
        let timing = self.timetable.timing(&key);
        let answer = answer_for(timing.outcome);
        if self.timeline.starts(key, timing.took, answer).is_err() {
            return Err(no_memory(&mut self.faults));
        }
        self.log.started(key, command, answer);
        Ok(answer)
    }

    fn wait_any(&mut self) -> Result<(Key, Outcome), StartFault> {
        let Some(child) = self.timeline.next() else {
            return Err(StartFault::NoChild);
        };
        let outcome = self.timetable.timing(&child.key).outcome;
        self.timeline.ends(&child.key);
        self.log.ended(child.key, outcome);
        Ok((child.key, outcome))
    }

    fn take_ended(&mut self) -> Option<(Key, Outcome)> {
        None
    }

    fn will_record(&mut self) {}

    fn sees_halt(&mut self) -> bool {
        false
    }

    fn kill(&mut self, key: Key) -> Killed {
        self.timeline.loses(&key);
        self.log.killed(key);
        Killed::Ended
    }

    fn running(&self) -> &[Key] {
        self.log.running()
    }

    fn calls(&self) -> &[Call] {
        self.log.calls()
    }

    fn faults(&self) -> u64 {
        self.faults
    }
}
