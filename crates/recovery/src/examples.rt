//! Lives of a run, which show that no premise of a law is empty. No program calls this function.

ghost use Rattle.sched_core.specs.Example.{two_nodes};
ghost use Rattle.recovery.specs.RecordLives.{AreLives};
ghost use Rattle.recovery.specs.Example.{its_lives};

/// A run of two lives, of which the first ended in a crash after a launch.
pub fn examples()
    ensures two_lives { AreLives two_nodes its_lives }
{}
