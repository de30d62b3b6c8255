//! A manager that leads its run to the end.

ghost use Rattle.std.specs.Prelude.{◌≡◌, [], IsTrue, IsFalse, IfOk, IfErr, OnOk, OnErr, string_bytes};
ghost use Rattle.recovery_manager.specs.Managed.{plan_of, past_of, KeepsDisk};
ghost use Rattle.recovery_manager.specs.Seal.{IsSealOf, IsRescued, may_end, needs_rescue_now, sealed_disk};
ghost use Rattle.sched_core.specs.Run.{is_over};
ghost use Rattle.job_starter_drive.specs.Drives.{AreInStep, limits_of};
ghost use Rattle.job_starter_drive.specs.Calls.{running};
ghost use Rattle.job_starter_drive.specs.Spawned.{SpawnsAll, SpawnsAllButSome};
ghost use Rattle.job_starter_drive.specs.Moments.{AtAnyMoment, AtTheEnd, UnlessDiskFault, StaysAcknowledged};
ghost use Rattle.run_round.specs.Causes.{IsSealFault, IsRunToEndFault};
ghost use Rattle.run_round.specs.RunToEnd.{IsSuffix, IsRunToEnd, DrivesToEnd, StaysHonest};
ghost use Rattle.run_round.specs.Moments.{fault_behind, rescue_behind, IsMomentOfLead, IsLastOfLead};

use event_journal_log::Disk;
use job_starter_drive::{DriveFault, Starter, drive};
use node_machine::Verdict;
use recovery_manager::{Manager, ManagerFault, Sealed};
use run_plan::Plan;
use status_report::run_text;
use std::alloc::Global;

/// What a run prints that was led to its end, its exit status, and the disk of the rescue file, where
/// one was needed.
#[derive(Drop)]
pub struct RunToEnd<R: Disk + Drop> {
    pub text: String,
    pub status: Verdict,
    pub rescue: Option<R>,
}

/// Writes the rescue file where one is needed, and seals the run.
fn sealed<D: Disk + Drop, R: Disk + Drop>(
    alloc: Global,
    manager: &Manager<'_, D>,
    rescue: R,
) -> Result<Sealed<R>, (R, ManagerFault)>
    requires ends { IsTrue (may_end (plan_of manager.now) (past_of manager.now)) }
    ensures sealed { IfOk result (λ seal.
        IsSealOf R.Disk (plan_of manager.now) (past_of manager.now) seal) }
    ensures keeps { R.honest rescue → IfOk result (λ seal. StaysHonest R.Disk (sealed_disk seal)) }
    ensures refused { IfErr result (λ e.
        IsTrue (needs_rescue_now (plan_of manager.now) (past_of manager.now))
        × IsSealFault R.Disk (plan_of manager.now) (past_of manager.now) rescue e.0 e.1) }
{
    if manager.core().needs_rescue() {
        return manager.write_rescue(alloc, rescue);
    }
    match manager.no_rescue() {
        Ok(seal) => Ok(seal),
        Err(fault) => Err((rescue, fault)),
    }
}

/// Leads a run that was begun or recovered to its end: launches and waits until nothing is left, then
/// writes the rescue file on its disk where one is needed, and records the end.
///
/// # Errors
/// Those of `drive`; `Manager` with `Memory` or the fault of the disk where the rescue file that the
/// run needs can't be written, and with that of `Manager::finish`; `Memory` for the text. What was
/// recorded stays, and a later manager goes on from there; no child runs when the call returns. The
/// rescue file's disk comes back, but where the run came to its last step and needs none.
pub fn run_to_end<D: Disk + Drop, R: Disk + Drop, S: Starter>(
    alloc: Global,
    manager: &mut Manager<'_, D>,
    plan: &Plan,
    starter: &mut S,
    rescue: R,
) -> Result<RunToEnd<R>, (Option<R>, DriveFault)>
    requires own { plan.now ≡ plan_of manager.old }
    requires in_step { AreInStep (plan_of manager.old) (past_of manager.old) (S.call_log starter.old) }
    requires unfinished { IsFalse (is_over (past_of manager.old)) }
    ensures led { IfOk result (λ led.
        IsRunToEnd plan.now (past_of manager.old) (past_of manager.new) (string_bytes led.text) led.status) }
    // What was recorded and handed over, one step after another, and then the end.
    ensures steps { OnOk result (DrivesToEnd (limits_of manager.old) (plan_of manager.old)
        (S.may_return starter.old) (past_of manager.old) (S.call_log starter.old)
        (past_of manager.new) (S.call_log starter.new)) }
    // After a fault too the records went on, and no child runs; the commands of the own launches were
    // handed over once each and in their order, after a fault perhaps but the last, of one round.
    ensures plan { plan_of manager.new ≡ plan_of manager.old }
    ensures goes_on { IsSuffix (past_of manager.old) (past_of manager.new) }
    ensures spawns { OnOk result (SpawnsAll (plan_of manager.old) (past_of manager.old)
        (past_of manager.new) (S.call_log starter.old) (S.call_log starter.new)) }
    ensures hands_over_err { OnErr result (SpawnsAllButSome (plan_of manager.old) (past_of manager.old)
        (past_of manager.new) (S.call_log starter.old) (S.call_log starter.new)) }
    ensures none_left { running (S.call_log starter.new) ≡ [] }
    // A crash at any moment of the call leaves what makes it a life of the run (job_starter_drive's law
    // `stops`, and `stops_at_end`), and after it none of the records that are kept is missing.
    ensures any_moment { AtAnyMoment D.Disk
        manager.old manager.new (IsMomentOfLead R.Disk (rescue_behind result) (limits_of manager.old) (plan_of manager.old)
        (S.may_return starter.old) (past_of manager.old) (S.call_log starter.old) (fault_behind result)
        (past_of manager.new) (S.call_log starter.new)) }
    ensures left { AtTheEnd D.Disk manager.old manager.new
        (IsLastOfLead R.Disk (rescue_behind result) (limits_of manager.old) (plan_of manager.old)
        (S.may_return starter.old) (past_of manager.old) (S.call_log starter.old) (fault_behind result)
        (past_of manager.new) (S.call_log starter.new)) }
    ensures acknowledged { UnlessDiskFault (fault_behind result)
        (StaysAcknowledged D.Disk manager.old manager.new) }
    ensures disk { KeepsDisk D.Disk manager.old.journal manager.new.journal }
    ensures refused { IfErr result (λ e. IsRunToEndFault D.Disk R.Disk (S.faults starter.old) (S.faults starter.new) (S.may_return starter.old)
        manager.old manager.new (S.call_log starter.old) (S.call_log starter.new) rescue e.0 e.1) }
    // The rescue file that the run owes is on its disk.
    ensures rescued { IfOk result (λ led.
        IsRescued R.Disk plan.now (past_of manager.new) led.rescue) }
    ensures keeps { R.honest rescue → IfOk result (λ led. StaysHonest R.Disk led.rescue) }
{
    let end = match drive(alloc, manager, plan, starter) {
        Ok(end) => end,
        Err(fault) => return Err((Some(rescue), fault)),
    };
    manager.core().keeps_the_law();
    let seal = match sealed(alloc, manager, rescue) {
        Ok(seal) => seal,
        Err((rescue, fault)) => return Err((Some(rescue), DriveFault::Manager(fault))),
    };
    let rescue = match manager.finish(seal) {
        Ok(rescue) => rescue,
        Err((seal, fault)) => return Err((seal.into_disk(), DriveFault::Manager(fault))),
    };
    match run_text(alloc, manager.core(), end.verdict) {
        Ok(text) => Ok(RunToEnd {
            text,
            status: end.verdict,
            rescue,
        }),
        Err(_) => Err((rescue, DriveFault::Memory)),
    }
}
