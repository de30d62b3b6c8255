//! A round of a run: phases that are launched together, handed over one after another, and the ends that come of that at once.
ghost use Rattle.std.specs.Prelude.{◌≡◌, ◌⊎◌, [], ◌+◌, ◌≤◌, ◌<◌, ◌&&◌, not, length, drop, IsTrue, IsFalse, IfOk, IfErr, OnOk, OnErr};
ghost use Rattle.std.specs.Vec.{vec_capacity};
ghost use Rattle.node_machine.specs.declared.Key.{Key};
ghost use Rattle.node_machine.specs.declared.Outcome.TheVariants.{NoStart};
ghost use Rattle.run_plan.specs.Plan.{node_at, count_of};
ghost use Rattle.run_plan_node.specs.Commands.{starts_child};
ghost use Rattle.sched_core.specs.Run.{is_among, is_aborted, is_over, is_open, outstanding};
ghost use Rattle.sched_core.specs.Choices.{IsChoice};
ghost use Rattle.sched_core.specs.declared.Choice.TheVariants.{Start};
ghost use Rattle.recovery_manager.specs.Managed.{Managed, plan_of, past_of};
ghost use Rattle.job_starter_drive.specs.Calls.{running, is_halt_seen, MayRun, AllowsNoMore};
ghost use Rattle.job_starter_drive.specs.Drives.{limits_of, At, at_rest, AreInStep, AreUnderWay, IsRoundOf, IsNearerEnd, IsSpawned, IsTurn, Starts, IsLaunched};
ghost use Rattle.job_starter_drive.specs.Causes.{IsDriveFault, IsUnspawned};
ghost use Rattle.job_starter_drive.specs.Stretches.{WentOn, WasCutShort};

use crate::records::{
    goes_on, is_aborted, keeps_the_law, next_round, record_ends, record_launches, starts_child,
};
use crate::{DriveFault, Started, Starter};
use event_journal_log::Disk;
use node_machine::{Key, Outcome};
use recovery_manager::Manager;
use run_plan::Plan;
use std::alloc::Global;

/// Hands a phase that was launched to the starter.
fn hand_over<D: Disk + Drop, S: Starter>(
    alloc: Global,
    manager: &Manager<'_, D>,
    starter: &mut S,
    key: Key,
) -> Result<Started, DriveFault>
    requires within { key.node ≤ count_of (plan_of manager.now) }
    requires allowed { key.attempt ≤ (node_at (plan_of manager.now) key.node).course.retries }
    requires child { IsTrue (starts_child (node_at (plan_of manager.now) key.node) key.phase) }
    requires outstanding { IsTrue (is_among key (outstanding (plan_of manager.now) (past_of manager.now))) }
    requires free { IsFalse (is_among key (running (S.call_log starter.old))) }
    ensures spawned { IfOk result (λ answer. IsSpawned (plan_of manager.now) (past_of manager.now)
        key answer (S.call_log starter.old) (S.call_log starter.new)) }
    ensures silent { OnErr result (S.call_log starter.new ≡ S.call_log starter.old) }
    ensures may_be { IfOk result (λ answer.
        answer ≡ Started.NotStarted → (S.may_return starter.old).may_be (S.call_log starter.old) key NoStart) }
    ensures may_run { IfOk result (λ answer.
        answer ≡ Started.Running → MayRun (S.may_return starter.old) (S.call_log starter.old) key) }
    ensures unrefused { OnOk result (S.faults starter.new ≡ S.faults starter.old) }
    ensures later { S.faults starter.old ≤ S.faults starter.new }
    ensures refused { (old : Managed D) → IfErr result (IsDriveFault D.Disk
        (S.faults starter.old) (S.faults starter.new) old manager.now []) }
    ensures unhanded { IfErr result IsUnspawned }
    ensures may { AllowsNoMore (S.may_return starter.old) (S.may_return starter.new) }
{
    let core = manager.core();
    let facts = core.facts(&key);
    let Ok(command) = core.plan().command(alloc, &key, &facts) else {
        return Err(DriveFault::Memory);
    };
    match starter.start(key, &command) {
        Ok(answer) => Ok(answer),
        Err(_) => Err(DriveFault::StartMemory),
    }
}

/// Hands the phase at a place of a round over, or notes at once how it ended.
fn hand_one<D: Disk + Drop, S: Starter>(
    alloc: Global,
    manager: &Manager<'_, D>,
    starter: &mut S,
    keys: &[Key],
    place: usize,
    owed: &mut Vec<(Key, Outcome)>,
) -> Result<(), DriveFault>
    requires there { place < length keys.now }
    requires room { length owed.old.items < vec_capacity owed.old }
    requires going { IsTrue (is_open (past_of manager.now)) }
    requires under_way { AreUnderWay (plan_of manager.now) (past_of manager.now) (S.call_log starter.old)
        (drop place keys.now) owed.old.items }
    ensures under_way { OnOk result (AreUnderWay (plan_of manager.now) (past_of manager.now) (S.call_log starter.new)
        (drop (place + 1) keys.now) owed.new.items) }
    ensures went { OnOk result (WentOn D.Disk S.Starter manager.now manager.now starter.old starter.new
        (At (past_of manager.now) (S.call_log starter.old) (drop place keys.now) owed.old.items)
        (At (past_of manager.now) (S.call_log starter.new) (drop (place + 1) keys.now) owed.new.items)) }
    ensures cut { IfErr result (WasCutShort D.Disk S.Starter manager.now manager.now starter.old starter.new
        (At (past_of manager.now) (S.call_log starter.old) (drop place keys.now) owed.old.items)) }
    ensures waits_for_none { Starts (S.call_log starter.old) (S.call_log starter.new) }
    ensures room { vec_capacity owed.old ≤ vec_capacity owed.new }
    ensures more { OnOk result (length owed.new.items ≤ length owed.old.items + 1) }
{
    keeps_the_law(manager);
    let key = keys[place];
    if !starts_child(manager, &key) {
        owed.push((key, Outcome::Exit(0))).unwrap();
        return Ok(());
    }
    match hand_over(alloc, manager, starter, key) {
        Ok(Started::Running) => Ok(()),
        Ok(Started::NotStarted) => {
            owed.push((key, Outcome::NoStart)).unwrap();
            Ok(())
        }
        Err(fault) => Err(fault),
    }
}

/// Hands the phases of a round over, the first of them first.
fn hand_all<D: Disk + Drop, S: Starter>(
    alloc: Global,
    manager: &Manager<'_, D>,
    starter: &mut S,
    keys: &[Key],
    owed: &mut Vec<(Key, Outcome)>,
) -> Result<(), DriveFault>
    requires none { owed.old.items ≡ [] }
    requires room { length keys.now ≤ vec_capacity owed.old }
    requires going { IsTrue (is_open (past_of manager.now)) }
    requires under_way { AreUnderWay (plan_of manager.now) (past_of manager.now) (S.call_log starter.old) keys.now [] }
    ensures under_way { OnOk result (AreUnderWay (plan_of manager.now) (past_of manager.now) (S.call_log starter.new)
        [] owed.new.items) }
    ensures went { OnOk result (WentOn D.Disk S.Starter manager.now manager.now starter.old starter.new
        (At (past_of manager.now) (S.call_log starter.old) keys.now [])
        (At (past_of manager.now) (S.call_log starter.new) [] owed.new.items)) }
    ensures cut { IfErr result (WasCutShort D.Disk S.Starter manager.now manager.now starter.old starter.new
        (At (past_of manager.now) (S.call_log starter.old) keys.now [])) }
    ensures waits_for_none { Starts (S.call_log starter.old) (S.call_log starter.new) }
{
    keeps_the_law(manager);
    let mut place = 0;
    while place < keys.len() {
        if let Err(fault) = hand_one(alloc, manager, starter, keys, place, owed) {
            return Err(fault);
        }
        place += 1;
    }
    Ok(())
}

/// Launches a round, hands it over, and records what ended at once.
fn start_round<D: Disk + Drop, S: Starter>(
    alloc: Global,
    manager: &mut Manager<'_, D>,
    starter: &mut S,
    keys: &[Key],
) -> Result<(), DriveFault>
    requires in_step { AreInStep (plan_of manager.old) (past_of manager.old) (S.call_log starter.old) }
    requires going { IsTrue (is_open (past_of manager.old)) }
    requires unhalted { IsFalse (is_halt_seen (S.call_log starter.old)) }
    requires round { IsRoundOf (limits_of manager.old) (plan_of manager.old) (past_of manager.old) keys.now }
    ensures nearer { OnOk result (IsNearerEnd (plan_of manager.old) (past_of manager.old) (past_of manager.new)) }
    ensures turn { OnOk result (IsTurn (plan_of manager.old) (past_of manager.old) (past_of manager.new) (S.call_log starter.new)) }
    ensures went { OnOk result (WentOn D.Disk S.Starter manager.old manager.new starter.old starter.new
        (at_rest (past_of manager.old) (S.call_log starter.old)) (at_rest (past_of manager.new) (S.call_log starter.new))) }
    ensures cut { IfErr result (WasCutShort D.Disk S.Starter manager.old manager.new starter.old starter.new
        (at_rest (past_of manager.old) (S.call_log starter.old))) }
    ensures waits_for_none { Starts (S.call_log starter.old) (S.call_log starter.new) }
{
    keeps_the_law(manager);
    let Ok(mut owed) = Vec::with_capacity(alloc, keys.len()) else {
        return Err(DriveFault::Memory);
    };
    if let Err(fault) = record_launches(alloc, manager, starter, keys) {
        return Err(fault);
    }
    keeps_the_law(manager);
    if let Err(fault) = hand_all(alloc, manager, starter, keys, &mut owed) {
        return Err(fault);
    }
    if owed.is_empty() {
        return Ok(());
    }
    record_ends(alloc, manager, starter, &owed)
}

/// What `launch_round` does where no halt was seen: it asks for one after each round.
pub(crate) fn launch_rounds<D: Disk + Drop, S: Starter>(
    alloc: Global,
    manager: &mut Manager<'_, D>,
    starter: &mut S,
) -> Result<(), DriveFault>
    requires in_step { AreInStep (plan_of manager.old) (past_of manager.old) (S.call_log starter.old) }
    requires unfinished { IsFalse (is_over (past_of manager.old)) }
    requires unhalted { IsFalse (is_halt_seen (S.call_log starter.old)) }
    ensures plan { plan_of manager.new ≡ plan_of manager.old }
    ensures limits { limits_of manager.new ≡ limits_of manager.old }
    ensures went { OnOk result (WentOn D.Disk S.Starter manager.old manager.new starter.old starter.new
        (at_rest (past_of manager.old) (S.call_log starter.old)) (at_rest (past_of manager.new) (S.call_log starter.new))) }
    ensures done { OnOk result (IsLaunched (limits_of manager.old) (plan_of manager.old)
        (past_of manager.old) (past_of manager.new) (S.call_log starter.new)) }
    ensures turn { OnOk result (IsTurn (plan_of manager.old) (past_of manager.old) (past_of manager.new) (S.call_log starter.new)) }
    ensures nearer { (key : Key) → IsChoice (limits_of manager.old) (plan_of manager.old) (past_of manager.old) (Start key)
        → OnOk result (IsNearerEnd (plan_of manager.old) (past_of manager.old) (past_of manager.new)) }
    ensures cut { IfErr result (WasCutShort D.Disk S.Starter manager.old manager.new starter.old starter.new
        (at_rest (past_of manager.old) (S.call_log starter.old))) }
    ensures waits_for_none { Starts (S.call_log starter.old) (S.call_log starter.new) }
{
    goes_on(manager);
    keeps_the_law(manager);
    loop {
        keeps_the_law(manager);
        let keys = match next_round(alloc, manager) {
            Ok(keys) => keys,
            Err(fault) => return Err(fault),
        };
        if keys.is_empty() {
            return Ok(());
        }
        let before = is_aborted(manager);
        if let Err(fault) = start_round(alloc, manager, starter, &keys) {
            return Err(fault);
        }
        if is_new(before, is_aborted(manager)) {
            return Ok(());
        }
        keeps_the_law(manager);
        if starter.sees_halt() {
            return Ok(());
        }
    }
}

/// Launches until nothing more is to be launched, an ending that was recorded aborts the run, or a halt is seen, for which the starter
/// is asked before each round: as many phases together as may be, 64 at most, after one gate of the journal; each is handed over in
/// its order; and how those ended that no child ran for is recorded after one gate, too. It waits for no child, and kills none.
///
/// # Errors
/// `StartMemory` where the starter is refused memory for a child, `Memory` where it is refused for a command or for a list: what was
/// launched is recorded, and that child and those after it in its round were not started. `Manager` where the manager refuses
/// records, for its disk or for memory. What was recorded stays.
pub fn launch_round<D: Disk + Drop, S: Starter>(
    alloc: Global,
    manager: &mut Manager<'_, D>,
    plan: &Plan,
    starter: &mut S,
) -> Result<(), DriveFault>
    requires own { plan.now ≡ plan_of manager.old }
    requires in_step { AreInStep (plan_of manager.old) (past_of manager.old) (S.call_log starter.old) }
    requires unfinished { IsFalse (is_over (past_of manager.old)) }
    ensures plan { plan_of manager.new ≡ plan_of manager.old }
    ensures limits { limits_of manager.new ≡ limits_of manager.old }
    // A stretch of the run from rest to rest.
    ensures went { OnOk result (WentOn D.Disk S.Starter manager.old manager.new starter.old starter.new
        (at_rest (past_of manager.old) (S.call_log starter.old)) (at_rest (past_of manager.new) (S.call_log starter.new))) }
    // Nothing more is let in, a halt was seen, or the newest record aborts the run, which was not aborted before.
    ensures done { OnOk result (IsLaunched (limits_of manager.old) (plan_of manager.old)
        (past_of manager.old) (past_of manager.new) (S.call_log starter.new)) }
    // The run goes on: the children that run are the outstanding phases, or it was aborted just now.
    ensures turn { OnOk result (IsTurn (plan_of manager.old) (past_of manager.old) (past_of manager.new) (S.call_log starter.new)) }
    // Where something was to be launched, fewer records are to come, but for a halt.
    ensures nearer { (key : Key) → IsChoice (limits_of manager.old) (plan_of manager.old) (past_of manager.old) (Start key)
        → OnOk result (IsNearerEnd (plan_of manager.old) (past_of manager.old) (past_of manager.new) ⊎ IsTrue (is_halt_seen (S.call_log starter.new))) }
    // After a fault: a stretch that this fault cut short.
    ensures cut { IfErr result (WasCutShort D.Disk S.Starter manager.old manager.new starter.old starter.new
        (at_rest (past_of manager.old) (S.call_log starter.old))) }
    ensures waits_for_none { Starts (S.call_log starter.old) (S.call_log starter.new) }
{
    let _plan = plan;
    goes_on(manager);
    keeps_the_law(manager);
    if starter.sees_halt() {
        return Ok(());
    }
    launch_rounds(alloc, manager, starter)
}

/// Whether an abort came between.
pub fn is_new(before: bool, now: bool) -> bool
    ensures { result ≡ (not before && now) }
{
    !before && now
}
