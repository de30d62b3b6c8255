//! What a starter of children is: what it is asked, and what its answers mean.
ghost use Rattle.std.specs.Prelude.{◌≡◌, ◌∷◌, [], ◌≤◌, ℕ, List, None, IsTrue, IsFalse, IfOk, IfErr, IfSome, OnOk, OnErr, IsErrOf, reverse};
ghost use Rattle.node_machine.specs.declared.Key.{Key};
ghost use Rattle.node_machine.specs.declared.Outcome.{Outcome};
ghost use Rattle.sched_core.specs.Run.{is_among};
ghost use Rattle.job_starter_drive.specs.declared.Call.{Call};
ghost use Rattle.job_starter_drive.specs.Calls.{running, is_halt_seen, snapshot_of, AsksForHalt, IsReportedEnding, MayRun, AllowsNoMore, Telling};
ghost use Rattle.job_starter_drive.specs.Causes.{IsStartFault, IsAskFault, IsWaitFault};

use crate::{Call, Killed, StartFault, Started};
use node_machine::{Key, Outcome};
use run_plan_node::ChildCommand;

/// Children that are started and waited for, of which whichever ends first is reported.
///
/// Each call that is answered is in a list, so that contracts can say what was handed over
/// and what was answered. A child runs from its start until its ending is reported or it is killed.
pub trait Starter {
    /// The calls that were answered, the newest first.
    ghost call_log: { Self → List Call };

    /// Which endings may be reported of the child of a key, after these calls; and whether those at hand may be gathered.
    ghost may_return: { Self → Telling };

    /// The count of the system's refusals, which stays at 2 ^ 64 - 1: each adds one. That no child runs
    /// counts as none, and so does a kill.
    ghost faults: { Self → ℕ };

    /// Nothing is left to do before the endings that were reported may be recorded, as to bring what the children wrote to the disk.
    ghost prepared: { Self → Type 0 };

    /// Starts a child. Room for its ending is taken here.
    ///
    /// # Errors
    /// `StartMemory` where memory for it is refused: none is started. A child that can't be started
    /// for another reason is an answer, `NotStarted`.
    fn start(&mut self, key: Key, command: &ChildCommand) -> Result<Started, StartFault>
        requires { IsFalse (is_among key (running (call_log self.old))) }
        ensures ok { IfOk result
            (λ answer. call_log self.new ≡ Call.Started key (snapshot_of command.now) answer ∷ call_log self.old) }
        ensures not_started { IfOk result (λ answer.
            answer ≡ Started.NotStarted → (may_return self.old).may_be (call_log self.old) key Outcome.NoStart) }
        ensures runs { IfOk result (λ answer.
            answer ≡ Started.Running → MayRun (may_return self.old) (call_log self.old) key) }
        ensures refused { OnErr result (call_log self.new ≡ call_log self.old) }
        ensures err { IfErr result (IsStartFault (faults self.old) (faults self.new)) }
        ensures counts { OnOk result (faults self.new ≡ faults self.old) }
        ensures later { faults self.old ≤ faults self.new }
        ensures may { AllowsNoMore (may_return self.old) (may_return self.new) };

    /// Waits until some child ends, and tells how. It takes no memory.
    ///
    /// # Errors
    /// `NoChild` exactly where none runs, and `WaitFault` where the system refuses the question or the
    /// wait: the children stay as they were.
    fn wait_any(&mut self) -> Result<(Key, Outcome), StartFault>
        ensures ended { IfOk result (IsReportedEnding (may_return self.old) (call_log self.old) (call_log self.new)) }
        ensures refused { OnErr result (call_log self.new ≡ call_log self.old) }
        ensures err { IfErr result
            (IsWaitFault (faults self.old) (faults self.new) (call_log self.old)) }
        ensures idle { running (call_log self.old) ≡ [] → IsErrOf result StartFault.NoChild }
        ensures counts { OnOk result (faults self.new ≡ faults self.old) }
        ensures later { faults self.old ≤ faults self.new }
        ensures may { AllowsNoMore (may_return self.old) (may_return self.new) };

    /// An ending that is at hand: of a child that was seen to have ended and whose ending was not reported. What it answers means what an
    /// answer of `wait_any` means; but it waits for nothing, asks nothing of the system, and can't be refused. It takes no memory.
    fn take_ended(&mut self) -> Option<(Key, Outcome)>
        ensures ended { IfSome result (IsReportedEnding (may_return self.old) (call_log self.old) (call_log self.new)) }
        ensures gathers { IfSome result (λ ended. (may_return self.old).gathers) }
        ensures none { result ≡ None → call_log self.new ≡ call_log self.old }
        ensures counts { faults self.new ≡ faults self.old }
        ensures may { AllowsNoMore (may_return self.old) (may_return self.new) };

    /// The endings that were reported are about to be recorded.
    fn will_record(&mut self)
        ensures prepared { prepared self.new }
        ensures call_log { call_log self.new ≡ call_log self.old }
        ensures counts { faults self.new ≡ faults self.old }
        ensures may { AllowsNoMore (may_return self.old) (may_return self.new) };

    /// Whether nothing more is to be launched, as where somebody asked for a halt. Once that was answered, it stays so, and the answer
    /// is among the calls.
    fn sees_halt(&mut self) -> bool
        ensures is { result ≡ is_halt_seen (call_log self.new) }
        ensures asked { AsksForHalt (may_return self.old) (call_log self.old) (call_log self.new) }
        ensures counts { faults self.new ≡ faults self.old }
        ensures may { AllowsNoMore (may_return self.old) (may_return self.new) };

    /// Kills a child, waits for it where the system lets it, and forgets it either way.
    fn kill(&mut self, key: Key) -> Killed
        requires { IsTrue (is_among key (running (call_log self.old))) }
        ensures call_log { call_log self.new ≡ Call.Killed key ∷ call_log self.old }
        ensures counts { faults self.new ≡ faults self.old }
        ensures may { AllowsNoMore (may_return self.old) (may_return self.new) };

    /// The keys of the children that run, in the order of their starts.
    fn running(&self) -> &[Key]
        ensures { reverse result.now ≡ running (call_log self.now) };

    /// The calls that were answered, in order.
    fn calls(&self) -> &[Call]
        ensures { reverse result.now ≡ call_log self.now };

    /// How often the system refused.
    fn faults(&self) -> u64
        ensures { result ≡ faults self.now };
}

/// Children of the operating system, or of something that stands for it: each is asked for by its
/// key.
pub trait System {
    /// The calls that were answered, the newest first.
    ghost call_log: { Self → List Call };

    /// Which endings may be reported of the child of a key, after these calls; and whether those at hand may be gathered.
    ghost may_return: { Self → Telling };

    /// The count of refusals, which stays at 2 ^ 64 - 1: each adds one. A kill counts as none.
    ghost faults: { Self → ℕ };

    /// Nothing is left to do before the endings that were reported may be recorded, as to bring what the children wrote to the disk.
    ghost prepared: { Self → Type 0 };

    /// Starts a child. Room for its ending is taken here.
    ///
    /// # Errors
    /// `StartMemory` where memory for it is refused: none is started.
    fn spawn(&mut self, key: Key, command: &ChildCommand) -> Result<Started, StartFault>
        requires { IsFalse (is_among key (running (call_log self.old))) }
        ensures ok { IfOk result
            (λ answer. call_log self.new ≡ Call.Started key (snapshot_of command.now) answer ∷ call_log self.old) }
        ensures not_started { IfOk result (λ answer.
            answer ≡ Started.NotStarted → (may_return self.old).may_be (call_log self.old) key Outcome.NoStart) }
        ensures runs { IfOk result (λ answer.
            answer ≡ Started.Running → MayRun (may_return self.old) (call_log self.old) key) }
        ensures refused { OnErr result (call_log self.new ≡ call_log self.old) }
        ensures err { IfErr result (IsStartFault (faults self.old) (faults self.new)) }
        ensures counts { OnOk result (faults self.new ≡ faults self.old) }
        ensures later { faults self.old ≤ faults self.new }
        ensures may { AllowsNoMore (may_return self.old) (may_return self.new) };

    /// Whether a child has ended, and how. It does not wait.
    ///
    /// # Errors
    /// `WaitFault` where the question is refused.
    fn ask(&mut self, key: Key) -> Result<Option<Outcome>, StartFault>
        requires { IsTrue (is_among key (running (call_log self.old))) }
        ensures ended { IfOk result (λ answer. IfSome answer
            (λ outcome. IsReportedEnding (may_return self.old) (call_log self.old) (call_log self.new) (key, outcome))) }
        ensures runs { IfOk result (λ answer. answer ≡ None → call_log self.new ≡ call_log self.old) }
        ensures refused { OnErr result (call_log self.new ≡ call_log self.old) }
        ensures err { IfErr result (IsAskFault (faults self.old) (faults self.new)) }
        ensures counts { OnOk result (faults self.new ≡ faults self.old) }
        ensures later { faults self.old ≤ faults self.new }
        ensures may { AllowsNoMore (may_return self.old) (may_return self.new) };

    /// Waits until a child ends, and tells how.
    ///
    /// # Errors
    /// `WaitFault` where the wait is refused.
    fn wait(&mut self, key: Key) -> Result<Outcome, StartFault>
        requires { IsTrue (is_among key (running (call_log self.old))) }
        ensures ended { IfOk result
            (λ outcome. IsReportedEnding (may_return self.old) (call_log self.old) (call_log self.new) (key, outcome)) }
        ensures refused { OnErr result (call_log self.new ≡ call_log self.old) }
        ensures err { IfErr result (IsAskFault (faults self.old) (faults self.new)) }
        ensures counts { OnOk result (faults self.new ≡ faults self.old) }
        ensures later { faults self.old ≤ faults self.new }
        ensures may { AllowsNoMore (may_return self.old) (may_return self.new) };

    /// An ending that is at hand: of a child that was seen to have ended and whose ending was not reported. What it answers means what an
    /// answer of `ask` or `wait` means; but it waits for nothing, asks nothing of the system, and can't be refused. It takes no memory.
    fn take_ended(&mut self) -> Option<(Key, Outcome)>
        ensures ended { IfSome result (IsReportedEnding (may_return self.old) (call_log self.old) (call_log self.new)) }
        ensures gathers { IfSome result (λ ended. (may_return self.old).gathers) }
        ensures none { result ≡ None → call_log self.new ≡ call_log self.old }
        ensures counts { faults self.new ≡ faults self.old }
        ensures may { AllowsNoMore (may_return self.old) (may_return self.new) };

    /// The endings that were reported are about to be recorded.
    fn will_record(&mut self)
        ensures prepared { prepared self.new }
        ensures call_log { call_log self.new ≡ call_log self.old }
        ensures counts { faults self.new ≡ faults self.old }
        ensures may { AllowsNoMore (may_return self.old) (may_return self.new) };

    /// Whether nothing more is to be launched, as where somebody asked for a halt. Once that was answered, it stays so, and the answer
    /// is among the calls.
    fn sees_halt(&mut self) -> bool
        ensures is { result ≡ is_halt_seen (call_log self.new) }
        ensures asked { AsksForHalt (may_return self.old) (call_log self.old) (call_log self.new) }
        ensures counts { faults self.new ≡ faults self.old }
        ensures may { AllowsNoMore (may_return self.old) (may_return self.new) };

    /// Kills a child, waits for it where that succeeded, and forgets it either way.
    fn kill(&mut self, key: Key) -> Killed
        requires { IsTrue (is_among key (running (call_log self.old))) }
        ensures call_log { call_log self.new ≡ Call.Killed key ∷ call_log self.old }
        ensures counts { faults self.new ≡ faults self.old }
        ensures may { AllowsNoMore (may_return self.old) (may_return self.new) };

    /// Lets some time pass between two rounds of questions.
    fn pause(&mut self)
        ensures call_log { call_log self.new ≡ call_log self.old }
        ensures counts { faults self.new ≡ faults self.old }
        ensures may { AllowsNoMore (may_return self.old) (may_return self.new) };

    /// The keys of the children that run, in the order of their starts.
    fn running(&self) -> &[Key]
        ensures { reverse result.now ≡ running (call_log self.now) };

    /// The calls that were answered, in order.
    fn calls(&self) -> &[Call]
        ensures { reverse result.now ≡ call_log self.now };

    /// How often a call was refused.
    fn faults(&self) -> u64
        ensures { result ≡ faults self.now };
}
