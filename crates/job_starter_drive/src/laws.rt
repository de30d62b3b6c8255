//! What holds of the definitions alone. No program calls these functions.

ghost use Rattle.std.specs.Prelude.{◌≡◌, ℕ, List, [], ◌∷◌, Option};
ghost use Rattle.node_machine.specs.declared.Key.{Key};
ghost use Rattle.node_machine.specs.declared.Outcome.{Outcome};
ghost use Rattle.node_machine.specs.Story.{Table};
ghost use Rattle.node_machine.specs.OutcomeTable.{Entry};
ghost use Rattle.throttles.specs.declared.Limits.{Limits};
ghost use Rattle.run_plan.specs.Plan.{Plan};
ghost use Rattle.node_machine.specs.declared.Record.{Record};
ghost use Rattle.node_machine.specs.declared.Record.TheVariants.{Life};
ghost use Rattle.sched_core.specs.Lives.{HasOutcomesOf};
ghost use Rattle.sched_core.specs.Choices.{IsChoice};
ghost use Rattle.sched_core.specs.declared.Choice.TheVariants as choices;
ghost use Rattle.event_journal_log.specs.Image.{Header};
ghost use Rattle.recovery_manager.specs.Chain.{ReadsForInputs, LeavesRecords, life_records};
ghost use Rattle.recovery_manager.specs.Inputs.{IsHeaderOf};
ghost use Rattle.job_starter_drive.specs.declared.Call.{Call};
ghost use Rattle.job_starter_drive.specs.declared.driving.DriveFault.{DriveFault};
ghost use Rattle.job_starter_drive.specs.Calls.{running};
ghost use Rattle.job_starter_drive.specs.Drives.{AreInStep, Drives, IsHalted, IsHaltedBy, IsStopped};
ghost use Rattle.job_starter_drive.specs.Spawned.{SpawnsAll, SpawnsAllButSome};
ghost use Rattle.job_starter_drive.specs.Reported.{RecordsEach, RecordsEachButNewest};
ghost use Rattle.job_starter_drive.specs.Moments.{IsMomentOfRun, IsLastMoment, IsLifeAt};
ghost use Rattle.job_starter_drive.specs.Scripts.{IsScripted};

use crate::Starter;

/// What `drive` and `launch_round` ensure of their steps makes them hand over the commands of their
/// own launches, once each and in their order: all of them, or after a fault or a crash all but
/// perhaps the last, which are of one round.
pub fn hand_over<S: Starter>()
    ensures driven { (limits : Limits) (plan : Plan) (starter : S) (past : List Record)
        (call_log : List Call) (after : List Record) (last : List Call) →
        Drives limits plan (S.may_return starter) past call_log after last → SpawnsAll plan past after call_log last }
    ensures halted { (limits : Limits) (plan : Plan) (starter : S) (past : List Record)
        (call_log : List Call) (after : List Record) (last : List Call) →
        IsHalted limits plan (S.may_return starter) past call_log after last → SpawnsAllButSome plan past after call_log last }
    ensures halted_by { (limits : Limits) (plan : Plan) (starter : S) (past : List Record)
        (call_log : List Call) (fault : DriveFault) (refused after : List Record) (last : List Call) →
        IsHaltedBy limits plan (S.may_return starter) past call_log fault refused after last → SpawnsAllButSome plan past after call_log last }
    ensures stopped { (limits : Limits) (plan : Plan) (starter : S) (past : List Record)
        (call_log : List Call) (fault : DriveFault) (refused after : List Record) (last : List Call) →
        IsStopped limits plan (S.may_return starter) past call_log fault refused after last → SpawnsAllButSome plan past after call_log last }
{}

/// What `drive` and `launch_round` ensure of their steps makes them record each ending that a child was reported to have, in the
/// order of the reports: all of them, or after a fault or a crash all but perhaps the newest, 64 at most, which were to be
/// recorded together.
pub fn record_endings<S: Starter>()
    ensures driven { (limits : Limits) (plan : Plan) (starter : S) (past : List Record)
        (call_log : List Call) (after : List Record) (last : List Call) →
        Drives limits plan (S.may_return starter) past call_log after last → RecordsEach past after call_log last }
    ensures halted { (limits : Limits) (plan : Plan) (starter : S) (past : List Record)
        (call_log : List Call) (after : List Record) (last : List Call) →
        IsHalted limits plan (S.may_return starter) past call_log after last → RecordsEachButNewest past after call_log last }
    ensures halted_by { (limits : Limits) (plan : Plan) (starter : S) (past : List Record)
        (call_log : List Call) (fault : DriveFault) (refused after : List Record) (last : List Call) →
        IsHaltedBy limits plan (S.may_return starter) past call_log fault refused after last → RecordsEachButNewest past after call_log last }
    ensures stopped { (limits : Limits) (plan : Plan) (starter : S) (past : List Record)
        (call_log : List Call) (fault : DriveFault) (refused after : List Record) (last : List Call) →
        IsStopped limits plan (S.may_return starter) past call_log fault refused after last → RecordsEachButNewest past after call_log last }
{}

/// A run that a manager began or went on with stopped at some moment of `launch_round` or `drive`,
/// by a crash, or after a fault: what it recorded, what it handed over and the image that it left make it a life of
/// the run, of the bytes that the manager found.
pub fn stops<S: Starter>()
    ensures life { (limits : Limits) (plan : Plan) (starter : S) (past : List Record)
        (call_log : List Call) (fault : Option DriveFault) (kept : List Record) (last : List Call)
        (header : Header) (found image : List ℕ) →
        IsHeaderOf plan header → ReadsForInputs plan past found →
        (stop : IsMomentOfRun limits plan (S.may_return starter) (Life ∷ past) call_log fault kept last header image) →
        IsLifeAt past call_log found image stop }
    // After the call: by the records that it kept, an image is one that their life leaves.
    ensures leaves { (limits : Limits) (plan : Plan) (starter : S) (past : List Record)
        (call_log : List Call) (fault : Option DriveFault) (kept : List Record) (last : List Call)
        (header : Header) (image : List ℕ) → IsHeaderOf plan header →
        IsLastMoment limits plan (S.may_return starter) (Life ∷ past) call_log fault kept last header image →
        LeavesRecords plan (life_records past kept) image }
{}

/// A manager that began a run or went on with it is in step with a starter of no running child.
pub fn begins()
    ensures { (plan : Plan) (past : List Record) (call_log : List Call) →
        running call_log ≡ [] → AreInStep plan (Life ∷ past) call_log }
{}

/// Where a starter tells what a table says, and nothing else, the endings that a run records are the
/// table's: so the fates that `drive` shows at its end without abort are those of the table.
pub fn outcomes<S: Starter>()
    ensures { (limits : Limits) (plan : Plan) (starter : S) (table : Table)
        (past : List Record) (call_log : List Call) (after : List Record) (last : List Call) →
        ((calls : List Call) (key : Key) (outcome : Outcome) →
        (S.may_return starter).may_be calls key outcome → table key.node key.attempt key.phase ≡ outcome) →
        Drives limits plan (S.may_return starter) past call_log after last →
        HasOutcomesOf plan table past → HasOutcomesOf plan table after }
{}

/// A starter by a table leaves nothing open but the orders of kills, where the child that was started
/// first ends first: two runs that go on from the same records under the same limits, each until its
/// choice is to finish, have the same records, with abort or without.
pub fn one_script()
    ensures { (limits : Limits) (plan : Plan) (table : List Entry)
        (past after other : List Record) (call_log last later_log rest : List Call) (verdict status : ℕ) →
        Drives limits plan (IsScripted plan table []) past call_log after last →
        Drives limits plan (IsScripted plan table []) past later_log other rest →
        IsChoice limits plan after (choices.Finish verdict) →
        IsChoice limits plan other (choices.Finish status) → after ≡ other }
{}
