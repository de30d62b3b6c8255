//! What a run does with its manager alone: it looks where the run is, and records.
ghost use Rattle.std.specs.Prelude.{◌≡◌, [], length, ◌<◌, ◌≤◌, IsTrue, IsFalse, IfOk, IfErr, OnOk};
ghost use Rattle.run_plan.specs.Plan.{node_at, count_of};
ghost use Rattle.run_plan_node.specs.Commands.{starts_child};
ghost use Rattle.sched_core.specs.Run.{is_aborted, is_lawful, is_nothing, is_over, is_open, outstanding, may_follow};
ghost use Rattle.sched_core.specs.Looks.{stops};
ghost use Rattle.sched_core.specs.Ahead.{NothingToStart, launched, added, up_to_abort, ends_of};
ghost use Rattle.sched_core.specs.Choices.{IsChoice};
ghost use Rattle.recovery_manager.specs.Managed.{plan_of, past_of};
ghost use Rattle.recovery_manager.specs.declared.fault.ManagerFault.TheVariants.{Memory};
ghost use Rattle.job_starter_drive.specs.Calls.{is_halt_seen};
ghost use Rattle.job_starter_drive.specs.Drives.{limits_of, most_at_once, At, at_rest, AreInStep, MayEndAll, IsRoundOf, IsNearerEnd};
ghost use Rattle.job_starter_drive.specs.Stretches.{WentOn, WasCutShort};

use crate::{DriveFault, Starter};
use event_journal_log::Disk;
use node_machine::{Key, Outcome, Phase, Record};
use recovery_manager::{Manager, ManagerFault};
use sched_core::Choice;
use std::alloc::Global;

/// A round launches no more phases than this.
pub const MOST_AT_ONCE: usize = 64;

/// The records of a manager are lawful at every moment.
pub fn keeps_the_law<D: Disk + Drop>(manager: &Manager<'_, D>)
    ensures { IsTrue (is_lawful (plan_of manager.now) (past_of manager.now)) }
{
    manager.core().keeps_the_law();
}

/// What is to be done next.
pub fn chosen<D: Disk + Drop>(manager: &Manager<'_, D>) -> Choice
    ensures { IsChoice (limits_of manager.now) (plan_of manager.now) (past_of manager.now) result }
{
    manager.core().choose()
}

/// Whether an abort ended the run.
pub fn is_aborted<D: Disk + Drop>(manager: &Manager<'_, D>) -> bool
    ensures { result ≡ is_aborted (plan_of manager.now) (past_of manager.now) }
{
    manager.core().aborted()
}

/// Whether this ending, which may be recorded, aborts the run.
pub fn aborts_with<D: Disk + Drop>(manager: &Manager<'_, D>, key: &Key, outcome: Outcome) -> bool
    requires { IsTrue (may_follow (plan_of manager.now) (past_of manager.now) (Record.End key.now outcome)) }
    ensures { result ≡ stops (plan_of manager.now) (past_of manager.now) (Record.End key.now outcome) }
{
    manager.core().aborts_with(key, outcome)
}

/// Whether a phase starts a child: the job of a NOOP does not.
pub fn starts_child<D: Disk + Drop>(manager: &Manager<'_, D>, key: &Key) -> bool
    requires { key.now.node ≤ count_of (plan_of manager.now) }
    ensures { result ≡ starts_child (node_at (plan_of manager.now) key.now.node) key.now.phase }
{
    let course = manager.core().plan().spec(key.node).course();
    match key.phase {
        Phase::Pre => course.pre,
        Phase::Job => !course.noop,
        Phase::Post => course.post,
    }
}

/// A run that is not over goes on, since it has begun.
pub fn goes_on<D: Disk + Drop>(manager: &Manager<'_, D>)
    requires { IsFalse (is_over (past_of manager.now)) }
    ensures { IsTrue (is_open (past_of manager.now)) }
{
    let _core = manager.core();
}

/// The phases of the next round, at most so many.
///
/// Answers the manager's lack of memory.
pub fn next_round<D: Disk + Drop>(
    alloc: Global,
    manager: &Manager<'_, D>,
) -> Result<Vec<Key>, DriveFault>
    ensures round { IfOk result (λ keys. IsFalse (is_nothing keys.items) → IsRoundOf (limits_of manager.now) (plan_of manager.now)
        (past_of manager.now) keys.items) }
    ensures held { IfOk result (λ keys. IsTrue (is_nothing keys.items) → NothingToStart (limits_of manager.now) (plan_of manager.now)
        (past_of manager.now)) }
    ensures err { IfErr result (λ fault. fault ≡ DriveFault.Manager Memory) }
{
    match manager.plan_round(alloc, MOST_AT_ONCE) {
        Ok(keys) => Ok(keys),
        Err(_) => Err(DriveFault::Manager(ManagerFault::Memory)),
    }
}

/// Records the launches of a round.
pub fn record_launches<D: Disk + Drop, S: Starter>(
    alloc: Global,
    manager: &mut Manager<'_, D>,
    starter: &S,
    keys: &[Key],
) -> Result<(), DriveFault>
    requires round { IsRoundOf (limits_of manager.old) (plan_of manager.old) (past_of manager.old) keys.now }
    requires unhalted { IsFalse (is_halt_seen (S.call_log starter.now)) }
    requires going { IsTrue (is_open (past_of manager.old)) }
    requires in_step { AreInStep (plan_of manager.old) (past_of manager.old) (S.call_log starter.now) }
    ensures nearer { OnOk result (IsNearerEnd (plan_of manager.old) (past_of manager.old) (past_of manager.new)) }
    ensures went { OnOk result (WentOn D.Disk S.Starter manager.old manager.new starter.now starter.now
        (at_rest (past_of manager.old) (S.call_log starter.now))
        (At (launched (past_of manager.old) keys.now) (S.call_log starter.now) keys.now [])) }
    ensures cut { IfErr result (WasCutShort D.Disk S.Starter manager.old manager.new starter.now starter.now
        (at_rest (past_of manager.old) (S.call_log starter.now))) }
{
    let _starter = starter;
    keeps_the_law(manager);
    let _numbers = match manager.launch_batch(alloc, keys) {
        Ok(numbers) => numbers,
        Err(fault) => return Err(DriveFault::Manager(fault)),
    };
    Ok(())
}

/// Records how phases ended, in this order, up to the first that aborts the run.
pub fn record_ends<D: Disk + Drop, S: Starter>(
    alloc: Global,
    manager: &mut Manager<'_, D>,
    starter: &S,
    ends: &[(Key, Outcome)],
) -> Result<(), DriveFault>
    requires some { 0 < length ends.now }
    requires few { length ends.now ≤ most_at_once }
    requires ends { MayEndAll (plan_of manager.old) (outstanding (plan_of manager.old) (past_of manager.old)) ends.now }
    requires going { IsTrue (is_open (past_of manager.old)) }
    ensures nearer { OnOk result (IsNearerEnd (plan_of manager.old) (past_of manager.old) (past_of manager.new)) }
    ensures past { OnOk result (past_of manager.new ≡ added (past_of manager.old)
        (up_to_abort (plan_of manager.old) (past_of manager.old) (ends_of ends.now))) }
    ensures went { OnOk result (WentOn D.Disk S.Starter manager.old manager.new starter.now starter.now
        (At (past_of manager.old) (S.call_log starter.now) [] ends.now)
        (at_rest (past_of manager.new) (S.call_log starter.now))) }
    ensures cut { IfErr result (WasCutShort D.Disk S.Starter manager.old manager.new starter.now starter.now
        (At (past_of manager.old) (S.call_log starter.now) [] ends.now)) }
{
    let _starter = starter;
    keeps_the_law(manager);
    match manager.record_batch(alloc, ends) {
        Ok(_) => Ok(()),
        Err(fault) => Err(DriveFault::Manager(fault)),
    }
}

/// Records the endings that children were reported to have, in this order, up to the first that aborts the run. The starter was
/// told that they would be recorded.
pub fn record_reported<D: Disk + Drop, S: Starter>(
    alloc: Global,
    manager: &mut Manager<'_, D>,
    starter: &S,
    ends: &[(Key, Outcome)],
) -> Result<(), DriveFault>
    requires prepared { S.prepared starter.now }
    requires some { 0 < length ends.now }
    requires few { length ends.now ≤ most_at_once }
    requires ends { MayEndAll (plan_of manager.old) (outstanding (plan_of manager.old) (past_of manager.old)) ends.now }
    requires going { IsTrue (is_open (past_of manager.old)) }
    ensures nearer { OnOk result (IsNearerEnd (plan_of manager.old) (past_of manager.old) (past_of manager.new)) }
    ensures past { OnOk result (past_of manager.new ≡ added (past_of manager.old)
        (up_to_abort (plan_of manager.old) (past_of manager.old) (ends_of ends.now))) }
    ensures went { OnOk result (WentOn D.Disk S.Starter manager.old manager.new starter.now starter.now
        (At (past_of manager.old) (S.call_log starter.now) [] ends.now)
        (at_rest (past_of manager.new) (S.call_log starter.now))) }
    ensures cut { IfErr result (WasCutShort D.Disk S.Starter manager.old manager.new starter.now starter.now
        (At (past_of manager.old) (S.call_log starter.now) [] ends.now)) }
{
    record_ends(alloc, manager, starter, ends)
}
