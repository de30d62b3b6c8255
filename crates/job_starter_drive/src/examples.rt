//! A moment of a run, by the bytes of its journal, which shows that no premise of a law is empty. No
//! program calls this function.

ghost use Rattle.std.specs.Prelude.{[], ◌∷◌, None};
ghost use Rattle.node_machine.specs.declared.Record.TheVariants.{Life};
ghost use Rattle.recovery_manager.specs.Example.{one_node, its_header, end_of_a, first_held, second_held, second_left};
ghost use Rattle.job_starter_drive.specs.Example.{unlimited, exits_well, its_calls};
ghost use Rattle.job_starter_drive.specs.Moments.{IsMomentOfRun};

/// A life that found a launch whose child was lost launched it again, started its child and learned its
/// end: these bytes, which have the end, may be left of it.
pub fn examples()
    ensures moment { IsMomentOfRun unlimited one_node exits_well (Life ∷ first_held) []
        None (end_of_a ∷ second_held) its_calls its_header second_left }
{}
