//! What holds of the definitions alone. No program calls this function.

ghost use Rattle.std.specs.Prelude.{ℕ, List, ◌∷◌, Option};
ghost use Rattle.throttles.specs.declared.Limits.{Limits};
ghost use Rattle.run_plan.specs.Plan.{Plan};
ghost use Rattle.node_machine.specs.declared.Record.{Record};
ghost use Rattle.node_machine.specs.declared.Record.TheVariants.{Life};
ghost use Rattle.event_journal_log.specs.Image.{Header};
ghost use Rattle.recovery_manager.specs.Chain.{ReadsForInputs, LeavesRecords, life_records};
ghost use Rattle.recovery_manager.specs.Inputs.{IsHeaderOf};
ghost use Rattle.job_starter_drive.specs.declared.Call.{Call};
ghost use Rattle.job_starter_drive.specs.declared.driving.DriveFault.{DriveFault};
ghost use Rattle.run_round.specs.Moments.{IsMomentOfEnd, IsLastOfLead, IsLifeAtEnd};

use event_journal_log::Disk;
use job_starter_drive::Starter;

/// A run that a manager began or went on with stopped while its end was recorded, by a crash or after
/// a fault: it is a life of the run, of the bytes that the manager found, as at each other moment
/// (job_starter_drive's law `stops`).
pub fn stops_at_end<S: Starter, R: Disk + Drop>()
    ensures life { (rescue : Option R) (limits : Limits) (plan : Plan) (starter : S) (past : List Record)
        (call_log : List Call) (fault : Option DriveFault) (kept : List Record) (last : List Call)
        (header : Header) (found image : List ℕ) →
        IsHeaderOf plan header → ReadsForInputs plan past found →
        (stop : IsMomentOfEnd R.Disk rescue limits plan (S.may_return starter) (Life ∷ past) call_log fault kept last header image) →
        IsLifeAtEnd past call_log found image stop }
    // After the call: by the records that it kept, an image is one that their life leaves.
    ensures leaves { (rescue : Option R) (limits : Limits) (plan : Plan) (starter : S) (past : List Record)
        (call_log : List Call) (fault : Option DriveFault) (kept : List Record) (last : List Call)
        (header : Header) (image : List ℕ) → IsHeaderOf plan header →
        IsLastOfLead R.Disk rescue limits plan (S.may_return starter) (Life ∷ past) call_log fault kept last header image →
        LeavesRecords plan (life_records past kept) image }
{}
