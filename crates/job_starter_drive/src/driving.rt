//! A run: each launch is handed over to a starter, and each ending recorded as it was reported.
ghost use Rattle.std.specs.Prelude.{◌≡◌, [], ◌∷◌, ◌≤◌, ◌<◌, length, None, IsTrue, IsFalse, IfOk, IfErr, IfSome, IfNone, OnOk, OnErr};
ghost use Rattle.std.specs.Vec.{vec_capacity};
ghost use Rattle.sched_core.specs.Run.{is_aborted, is_over, is_open, is_nothing, outstanding, may_follow, table_of};
ghost use Rattle.sched_core.specs.Fate.{AreFates, shown};
ghost use Rattle.node_machine.specs.declared.Key.{Key};
ghost use Rattle.sched_core.specs.declared.Choice.TheVariants.{Start};
ghost use Rattle.sched_core.specs.Choices.{IsChoice};
ghost use Rattle.recovery_manager.specs.Managed.{plan_of, past_of, KeepsDisk};
ghost use Rattle.job_starter_drive.specs.Calls.{running, AllowsNoMore};
ghost use Rattle.job_starter_drive.specs.Drives.{limits_of, most_at_once, At, at_rest, Goes, AreInStep, AreUnderWay, IsHeld, IsNearerEnd, IsTurn, final_verdict, Drives, Kills};
ghost use Rattle.job_starter_drive.specs.Causes.{IsStoppedFor};
ghost use Rattle.job_starter_drive.specs.Moments.{fault_in, IsMomentOfRun, IsLastMoment, AtAnyMoment, AtTheEnd, UnlessDiskFault, StaysAcknowledged, CountsOn};
ghost use Rattle.job_starter_drive.specs.Stretches.{WentOn, WasCutShort};

use crate::Starter;
use crate::keys::key_at;
use crate::records::{
    MOST_AT_ONCE, aborts_with, chosen, goes_on, is_aborted, keeps_the_law, record_reported,
};
use crate::rounds::{is_new, launch_rounds};
use event_journal_log::Disk;
use node_machine::{Key, Outcome, Record, Verdict};
use recovery_manager::{Manager, ManagerFault};
use run_plan::Plan;
use sched_core::Choice;
use std::alloc::Global;
use thiserror::Error;

/// Why a run stopped before its end.
#[derive(Clone, Copy, Debug, PartialEq, Eq, Error)]
pub enum DriveFault {
    /// The starter was refused memory for a child, whose phase is outstanding.
    #[error("A1 StartMemory")]
    StartMemory,
    /// The system refused the question or the wait.
    #[error("A2 WaitFault")]
    WaitFault,
    /// The manager refused.
    #[error("{0}")]
    Manager(ManagerFault),
    /// Memory was refused for a command, or for a list.
    #[error("A5 Memory")]
    Memory,
    /// The starter answered that nothing more is to be launched, and nothing runs any more.
    #[error("H1 Halted")]
    Halted,
}

/// How a run ended: nothing is outstanding and nothing can be launched.
#[derive(Clone, Copy, Debug, PartialEq, Eq)]
pub struct RunEnd {
    /// The exit status.
    pub verdict: Verdict,
    /// Whether an abort ended it.
    pub aborted: bool,
}

/// Kills each running child, the oldest first.
#[tactic(auto, using(crate::proofs::Running::fewer_left))]
fn kill_all<S: Starter>(starter: &mut S)
    ensures none_left { running (S.call_log starter.new) ≡ [] }
    ensures kills { Kills (S.call_log starter.old) (S.call_log starter.new) }
    ensures unrefused { S.faults starter.new ≡ S.faults starter.old }
    ensures may { AllowsNoMore (S.may_return starter.old) (S.may_return starter.new) }
{
    while !starter.running().is_empty() {
        let oldest = key_at(starter.running(), 0);
        let _ = starter.kill(oldest);
    }
}

/// Adds to the ending that is owed those that are at hand, up to the first that aborts the run, as many as are recorded together.
fn gather<D: Disk + Drop, S: Starter>(
    manager: &Manager<'_, D>,
    starter: &mut S,
    end: (Key, Outcome),
    owed: &mut Vec<(Key, Outcome)>,
)
    requires one { owed.old.items ≡ end ∷ [] }
    requires room { most_at_once ≤ vec_capacity owed.old }
    requires going { IsTrue (is_open (past_of manager.now)) }
    requires held { IsHeld (limits_of manager.now) (plan_of manager.now) (past_of manager.now) (S.call_log starter.old) }
    requires under_way { AreUnderWay (plan_of manager.now) (past_of manager.now) (S.call_log starter.old) [] owed.old.items }
    ensures room { vec_capacity owed.old ≤ vec_capacity owed.new }
    ensures some { 0 < length owed.new.items }
    ensures under_way { AreUnderWay (plan_of manager.now) (past_of manager.now) (S.call_log starter.new) [] owed.new.items }
    ensures steps { Goes (limits_of manager.now) (plan_of manager.now) (S.may_return starter.old)
        (At (past_of manager.now) (S.call_log starter.old) [] owed.old.items)
        (At (past_of manager.now) (S.call_log starter.new) [] owed.new.items) }
    ensures counts { S.faults starter.new ≡ S.faults starter.old }
    ensures may { AllowsNoMore (S.may_return starter.old) (S.may_return starter.new) }
{
    keeps_the_law(manager);
    let (first, how) = end;
    let mut aborts = aborts_with(manager, &first, how);
    while !aborts && owed.len() < MOST_AT_ONCE {
        match starter.take_ended() {
            Some((key, outcome)) => {
                aborts = aborts_with(manager, &key, outcome);
                owed.push((key, outcome)).unwrap();
            }
            None => return,
        }
    }
}

/// Waits until a child ends, and records that together with the endings that are at hand then. The list has room for them.
fn end_some<D: Disk + Drop, S: Starter>(
    alloc: Global,
    manager: &mut Manager<'_, D>,
    starter: &mut S,
    owed: &mut Vec<(Key, Outcome)>,
) -> Result<(), DriveFault>
    requires in_step { AreInStep (plan_of manager.old) (past_of manager.old) (S.call_log starter.old) }
    requires held { IsHeld (limits_of manager.old) (plan_of manager.old) (past_of manager.old) (S.call_log starter.old) }
    requires some { IsFalse (is_nothing (outstanding (plan_of manager.old) (past_of manager.old))) }
    requires going { IsTrue (is_open (past_of manager.old)) }
    requires room { most_at_once ≤ vec_capacity owed.old }
    ensures room { vec_capacity owed.old ≤ vec_capacity owed.new }
    ensures nearer { OnOk result (IsNearerEnd (plan_of manager.old) (past_of manager.old) (past_of manager.new)) }
    ensures turn { OnOk result (IsTurn (plan_of manager.old) (past_of manager.old) (past_of manager.new) (S.call_log starter.new)) }
    ensures went { OnOk result (WentOn D.Disk S.Starter manager.old manager.new starter.old starter.new
        (at_rest (past_of manager.old) (S.call_log starter.old)) (at_rest (past_of manager.new) (S.call_log starter.new))) }
    ensures cut { IfErr result (WasCutShort D.Disk S.Starter manager.old manager.new starter.old starter.new
        (at_rest (past_of manager.old) (S.call_log starter.old))) }
{
    keeps_the_law(manager);
    let end = match starter.wait_any() {
        Ok(end) => end,
        Err(_) => return Err(DriveFault::WaitFault),
    };
    owed.clear();
    owed.push(end).unwrap();
    gather(manager, starter, end, owed);
    starter.will_record();
    record_reported(alloc, manager, starter, owed)
}

/// The verdict of a choice to finish.
fn verdict_of(choice: Choice) -> Option<Verdict>
    ensures { result ≡ final_verdict choice }
{
    match choice {
        Choice::Finish(verdict) => Some(verdict),
        _ => None,
    }
}

/// Launches; or, where a halt is seen, waits until a child ends. Where none runs then, the run is halted.
fn launch_or_hold<D: Disk + Drop, S: Starter>(
    alloc: Global,
    manager: &mut Manager<'_, D>,
    starter: &mut S,
    owed: &mut Vec<(Key, Outcome)>,
) -> Result<(), DriveFault>
    requires in_step { AreInStep (plan_of manager.old) (past_of manager.old) (S.call_log starter.old) }
    requires going { IsTrue (is_open (past_of manager.old)) }
    requires room { most_at_once ≤ vec_capacity owed.old }
    ensures room { vec_capacity owed.old ≤ vec_capacity owed.new }
    ensures nearer { (key : Key) → IsChoice (limits_of manager.old) (plan_of manager.old) (past_of manager.old) (Start key)
        → OnOk result (IsNearerEnd (plan_of manager.old) (past_of manager.old) (past_of manager.new)) }
    ensures turn { OnOk result (IsTurn (plan_of manager.old) (past_of manager.old) (past_of manager.new) (S.call_log starter.new)) }
    ensures went { OnOk result (WentOn D.Disk S.Starter manager.old manager.new starter.old starter.new
        (at_rest (past_of manager.old) (S.call_log starter.old)) (at_rest (past_of manager.new) (S.call_log starter.new))) }
    ensures cut { IfErr result (WasCutShort D.Disk S.Starter manager.old manager.new starter.old starter.new
        (at_rest (past_of manager.old) (S.call_log starter.old))) }
{
    keeps_the_law(manager);
    if !starter.sees_halt() {
        return launch_rounds(alloc, manager, starter);
    }
    if starter.running().is_empty() {
        return Err(DriveFault::Halted);
    }
    end_some(alloc, manager, starter, owed)
}

/// Does what is chosen: launches, or waits.
fn act<D: Disk + Drop, S: Starter>(
    alloc: Global,
    manager: &mut Manager<'_, D>,
    starter: &mut S,
    owed: &mut Vec<(Key, Outcome)>,
    choice: Choice,
) -> Result<(), DriveFault>
    requires in_step { AreInStep (plan_of manager.old) (past_of manager.old) (S.call_log starter.old) }
    requires chosen { IsChoice (limits_of manager.old) (plan_of manager.old) (past_of manager.old) choice }
    requires unending { final_verdict choice ≡ None }
    requires going { IsTrue (is_open (past_of manager.old)) }
    requires room { most_at_once ≤ vec_capacity owed.old }
    ensures room { vec_capacity owed.old ≤ vec_capacity owed.new }
    ensures nearer { OnOk result (IsNearerEnd (plan_of manager.old) (past_of manager.old) (past_of manager.new)) }
    ensures turn { OnOk result (IsTurn (plan_of manager.old) (past_of manager.old) (past_of manager.new) (S.call_log starter.new)) }
    ensures went { OnOk result (WentOn D.Disk S.Starter manager.old manager.new starter.old starter.new
        (at_rest (past_of manager.old) (S.call_log starter.old)) (at_rest (past_of manager.new) (S.call_log starter.new))) }
    ensures cut { IfErr result (WasCutShort D.Disk S.Starter manager.old manager.new starter.old starter.new
        (at_rest (past_of manager.old) (S.call_log starter.old))) }
{
    match choice {
        Choice::Start(_) => launch_or_hold(alloc, manager, starter, owed),
        Choice::Wait => end_some(alloc, manager, starter, owed),
        Choice::Finish(_) => unreachable!(),
    }
}

/// Does what is chosen; where that ended the run by an abort, each running child is killed. At the end of the run it answers the
/// verdict.
fn turn<D: Disk + Drop, S: Starter>(
    alloc: Global,
    manager: &mut Manager<'_, D>,
    starter: &mut S,
    owed: &mut Vec<(Key, Outcome)>,
) -> Result<Option<Verdict>, DriveFault>
    requires in_step { AreInStep (plan_of manager.old) (past_of manager.old) (S.call_log starter.old) }
    requires going { IsTrue (is_open (past_of manager.old)) }
    requires room { most_at_once ≤ vec_capacity owed.old }
    ensures room { vec_capacity owed.old ≤ vec_capacity owed.new }
    ensures in_step { OnOk result
        (AreInStep (plan_of manager.old) (past_of manager.new) (S.call_log starter.new)) }
    ensures over { IfOk result (λ end. IfSome end (λ verdict.
        IsChoice (limits_of manager.old) (plan_of manager.old) (past_of manager.new) (Choice.Finish verdict))) }
    ensures still { IfOk result (λ end. IfSome end (λ verdict. IsTrue (is_open (past_of manager.new)))) }
    ensures nearer { IfOk result (λ end. IfNone end (
        IsNearerEnd (plan_of manager.old) (past_of manager.old) (past_of manager.new))) }
    ensures went { OnOk result (WentOn D.Disk S.Starter manager.old manager.new starter.old starter.new
        (at_rest (past_of manager.old) (S.call_log starter.old)) (at_rest (past_of manager.new) (S.call_log starter.new))) }
    ensures cut { IfErr result (WasCutShort D.Disk S.Starter manager.old manager.new starter.old starter.new
        (at_rest (past_of manager.old) (S.call_log starter.old))) }
{
    keeps_the_law(manager);
    let before = is_aborted(manager);
    let choice = chosen(manager);
    if let Some(verdict) = verdict_of(choice) {
        return Ok(Some(verdict));
    }
    if let Err(fault) = act(alloc, manager, starter, owed, choice) {
        return Err(fault);
    }
    if is_new(before, is_aborted(manager)) {
        keeps_the_law(manager);
        kill_all(starter);
    }
    Ok(None)
}

/// Takes steps until the run ends. Room for the endings that are recorded together is taken here, so that no wait takes any.
fn run<D: Disk + Drop, S: Starter>(
    alloc: Global,
    manager: &mut Manager<'_, D>,
    starter: &mut S,
) -> Result<Verdict, DriveFault>
    requires in_step { AreInStep (plan_of manager.old) (past_of manager.old) (S.call_log starter.old) }
    requires going { IsTrue (is_open (past_of manager.old)) }
    ensures none_left { OnOk result (running (S.call_log starter.new) ≡ []) }
    ensures over { IfOk result (λ verdict.
        IsChoice (limits_of manager.old) (plan_of manager.old) (past_of manager.new) (Choice.Finish verdict)) }
    ensures still { OnOk result (IsTrue (is_open (past_of manager.new))) }
    ensures went { OnOk result (WentOn D.Disk S.Starter manager.old manager.new starter.old starter.new
        (at_rest (past_of manager.old) (S.call_log starter.old)) (at_rest (past_of manager.new) (S.call_log starter.new))) }
    ensures cut { IfErr result (WasCutShort D.Disk S.Starter manager.old manager.new starter.old starter.new
        (at_rest (past_of manager.old) (S.call_log starter.old))) }
{
    keeps_the_law(manager);
    let Ok(mut owed) = Vec::with_capacity(alloc, MOST_AT_ONCE) else {
        return Err(DriveFault::Memory);
    };
    loop {
        match turn(alloc, manager, starter, &mut owed) {
            Ok(Some(verdict)) => return Ok(verdict),
            Ok(None) => {}
            Err(fault) => return Err(fault),
        }
    }
}

/// Runs a plan to its end: launches what may be launched, waits where nothing can be, and records
/// each ending as it was reported. At an abort and after a fault each running child is killed, so that
/// none runs when the call returns. Once a halt is seen nothing is launched: what runs is waited for.
///
/// # Errors
/// Those of `launch_round`; `WaitFault` where the system refuses the question or the wait; and `Halted` where a halt was seen, nothing
/// runs any more and something was to be launched. What was recorded stays; after `StartMemory` and `Memory` the last launch is outstanding though no child
/// was started, and the next life launches it again.
pub fn drive<D: Disk + Drop, S: Starter>(
    alloc: Global,
    manager: &mut Manager<'_, D>,
    plan: &Plan,
    starter: &mut S,
) -> Result<RunEnd, DriveFault>
    requires own { plan.now ≡ plan_of manager.old }
    requires in_step { AreInStep (plan_of manager.old) (past_of manager.old) (S.call_log starter.old) }
    requires unfinished { IsFalse (is_over (past_of manager.old)) }
    ensures plan { plan_of manager.new ≡ plan_of manager.old }
    ensures limits { limits_of manager.new ≡ limits_of manager.old }
    // What was recorded and handed over, one step after another.
    ensures steps { OnOk result (Drives (limits_of manager.old) (plan_of manager.old) (S.may_return starter.old)
        (past_of manager.old) (S.call_log starter.old) (past_of manager.new) (S.call_log starter.new)) }
    // The run's choice is to finish, with this verdict.
    ensures over { IfOk result (λ end.
        IsChoice (limits_of manager.old) (plan_of manager.old) (past_of manager.new) (Choice.Finish end.verdict)) }
    ensures aborted { IfOk result (λ end.
        end.aborted ≡ is_aborted (plan_of manager.old) (past_of manager.new)) }
    // The end of the run may be recorded now.
    ensures ready { IfOk result (λ end. IsTrue (may_follow (plan_of manager.old) (past_of manager.new)
        (Record.Finish end.verdict))) }
    // Without abort the run shows the fates that the recursion over parents reads from its endings.
    ensures fates { IfOk result (λ end. IsFalse end.aborted → AreFates (plan_of manager.old)
        (table_of (past_of manager.new)) (shown (plan_of manager.old) (past_of manager.new))) }
    // After a fault: steps to where this fault stops a run, and kills; and the cause, the starter's refusal or the manager's, who
    // refused the records that it was handed there.
    ensures stopped { IfErr result (IsStoppedFor D.Disk (S.faults starter.old) (S.faults starter.new) (S.may_return starter.old)
        manager.old manager.new (S.call_log starter.old) (S.call_log starter.new)) }
    // No child runs, however the call returns.
    ensures none_left { running (S.call_log starter.new) ≡ [] }
    // The starter's refusal alone is counted, once.
    ensures unrefused { OnOk result (S.faults starter.new ≡ S.faults starter.old) }
    ensures later { S.faults starter.old ≤ S.faults starter.new }
    // On an honest disk each image that a crash may leave meanwhile has what was recorded until some
    // moment of the call; where the disk refused a record, perhaps that one too.
    ensures any_moment { AtAnyMoment D.Disk
        manager.old manager.new (IsMomentOfRun (limits_of manager.old) (plan_of manager.old)
        (S.may_return starter.old) (past_of manager.old) (S.call_log starter.old) (fault_in result)
        (past_of manager.new) (S.call_log starter.new)) }
    // After a fault none of the records is missing in an image.
    ensures left { OnErr result (AtTheEnd D.Disk manager.old manager.new
        (IsLastMoment (limits_of manager.old) (plan_of manager.old)
        (S.may_return starter.old) (past_of manager.old) (S.call_log starter.old) (fault_in result)
        (past_of manager.new) (S.call_log starter.new))) }
    // What it recorded is in every later image, unless the disk refused a record.
    ensures acknowledged { UnlessDiskFault (fault_in result)
        (StaysAcknowledged D.Disk manager.old manager.new) }
    ensures disk { KeepsDisk D.Disk manager.old.journal manager.new.journal }
    ensures counts { OnOk result (CountsOn manager.old manager.new) }
{
    let _plan = plan;
    goes_on(manager);
    match run(alloc, manager, starter) {
        Ok(verdict) => {
            keeps_the_law(manager);
            Ok(RunEnd {
                verdict,
                aborted: is_aborted(manager),
            })
        }
        Err(fault) => {
            kill_all(starter);
            Err(fault)
        }
    }
}
