//! Lives of a run on the bytes of its journal, which show that no premise of a law is empty. No program
//! calls this function.

ghost use Rattle.std.specs.Prelude.{◌≡◌, true, false};
ghost use Rattle.run_plan_node.specs.Commands.{is_expandable, uses_whole_run};
ghost use Rattle.run_plan.specs.Plan.{node_at};
ghost use Rattle.sched_core.specs.Lives.{IsRunBy};
ghost use Rattle.recovery_manager.specs.Chain.{AreManagerLives};
ghost use Rattle.recovery_manager.specs.Example.{one_node, lives_on_bytes, third_held, all_good};

/// A run of three lives, by the bytes that each left: the first was cut short after a launch, and
/// the second while an ending was recorded. One of them handed its command over, and the run
/// finished without abort.
pub fn examples()
    ensures on_bytes { AreManagerLives one_node lives_on_bytes }
    ensures run { IsRunBy one_node all_good third_held }
    ensures sound { is_expandable (node_at one_node 0) ≡ true }
    ensures plain { uses_whole_run (node_at one_node 0) ≡ false }
{}
