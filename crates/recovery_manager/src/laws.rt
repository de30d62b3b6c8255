//! Laws of the definitions alone. No program calls them.

ghost use Rattle.std.specs.Prelude.{ℕ, List, ◌≡◌, Some};
ghost use Rattle.node_machine.specs.declared.Record.{Record};
ghost use Rattle.run_plan.specs.Plan.{Plan};
ghost use Rattle.sched_core.specs.EveryRun.{AreAnyLives};
ghost use Rattle.recovery_manager.specs.Chain.{ManagerLife, AreManagerLives, ReadsForInputs, records_of_image, journal_way};

/// Lives on the bytes of a journal are lives on what has the records of these bytes, with the commands of the plan. So
/// the headline (`every_run` and `every_two_runs` of sched_core) holds for them. Bytes of a journal of a plan have one
/// list of records.
pub fn lives_on_bytes()
    ensures any { (plan : Plan) (lives : List ManagerLife) → AreManagerLives plan lives →
        AreAnyLives plan (journal_way plan) lives }
    ensures reads { (plan : Plan) (past : List Record) (image : List ℕ) → ReadsForInputs plan past image →
        records_of_image image ≡ Some past }
{}
