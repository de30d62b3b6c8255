//! Runs that are lawful, which show that no premise of a law is empty, and records that are
//! refused.
//! No program calls these functions.

ghost use Rattle.std.specs.Prelude.{◌≡◌, ◌+◌, ◌*◌, length, [], ◌∷◌, map, drop, pos, codes, negsuc, Ok, true, false, IsTrue, IsFalse};
ghost use Rattle.node_machine.specs.declared.Record.TheVariants.{Life, Launch, End, Finish};
ghost use Rattle.node_machine.specs.declared.Phase.TheVariants.{Pre, Job, Post};
ghost use Rattle.node_machine.specs.declared.Outcome.TheVariants.{Exit, Signal};
ghost use Rattle.node_machine.specs.declared.State.TheVariants.{Done, Error, NotRun};
ghost use Rattle.run_plan.specs.Plan.{node_at, IsRankedBy};
ghost use Rattle.run_plan_node.specs.Commands.{bare_command, phase_command, is_expandable, uses_whole_run};
ghost use Rattle.sched_core.specs.Run.{is_finished, is_aborted, may_follow};
ghost use Rattle.sched_core.specs.Fate.{shown};
ghost use Rattle.sched_core.specs.Bound.{all_phases};
ghost use Rattle.sched_core.specs.Commands.{plain_facts, command_by, facts_in};
ghost use Rattle.sched_core.specs.Agree.{HaveSameCommands, Agree};
ghost use Rattle.sched_core.specs.Lives.{IsRunBy};
ghost use Rattle.sched_core.specs.Rounds.{AreRounds, AreCalm, is_marked};
ghost use Rattle.sched_core.specs.Example.{key, two_nodes, its_run, diamond, diamond_run, diamond_life, abort_plan, abort_run, always_plan, always_run, noop_plan, noop_table, noop_run, plan_p, plan_q, first_fails, round_of, stopped_round, next_round, told_attempt, told_failed, told_0, told_run, first_good};

/// Such plans and runs exist: each list is lawful and finished, and shows these states and values.
pub fn examples()
    ensures lost_launch { IsTrue (is_finished two_nodes its_run) }
    ensures lost_launch_calm { IsFalse (is_aborted two_nodes its_run) }
    ensures lost_launch_ranked { IsRankedBy (λ node. node) two_nodes }
    ensures diamond { IsTrue (is_finished diamond diamond_run) }
    ensures diamond_states { map (λ node. (shown diamond diamond_run node).state)
        (0 ∷ 1 ∷ 2 ∷ 3 ∷ []) ≡ Done ∷ Done ∷ Done ∷ Done ∷ [] }
    ensures abort { IsTrue (is_finished abort_plan abort_run) }
    ensures abort_aborted { IsTrue (is_aborted abort_plan abort_run) }
    ensures abort_states { map (λ node. (shown abort_plan abort_run node).state)
        (0 ∷ 1 ∷ 2 ∷ []) ≡ Error ∷ NotRun ∷ Done ∷ [] }
    // The bound on the records of a life is reached.
    ensures one_life { IsTrue (is_finished diamond diamond_life) }
    ensures one_life_bound { length diamond_life ≡ 2 * all_phases diamond + 2 }
    ensures namesakes { Agree plan_p (first_fails 1) plan_q (first_fails 2) 1 2 }
    ensures two_rounds { AreRounds (round_of (Exit 0) 0 ∷ round_of (Exit 1) 1 ∷ []) }
    ensures two_calm { AreCalm (round_of (Exit 0) 0 ∷ round_of (Exit 1) 1 ∷ []) }
    // A mark of a round that was aborted: A's.
    ensures stopped_round { AreRounds (next_round ∷ stopped_round ∷ []) }
    ensures stopped_mark { IsTrue (is_aborted stopped_round.plan stopped_round.records)
        × IsTrue (is_marked stopped_round 0) }
    // A script's command, and runs that agree on it.
    ensures told { IsTrue (is_finished told_attempt told_run) }
    ensures told_command { command_by told_attempt first_good 0 1 Pre
        ≡ Ok (bare_command (codes "work") (codes "work/check.sh") (codes "A" ∷ codes "1" ∷ [])) }
    ensures told_agree { Agree told_attempt first_good told_attempt first_good 0 0 }
    ensures noop { IsTrue (is_finished noop_plan noop_run) }
    ensures noop_outcomes { IsRunBy noop_plan noop_table noop_run }
    ensures noop_sound { is_expandable (node_at noop_plan 0) ≡ true }
    ensures noop_plain { uses_whole_run (node_at noop_plan 0) ≡ false }
    // After a PRE that failed, POST's value is the attempt's, and its words tell that no job ran.
    ensures always { IsTrue (is_finished always_plan always_run) }
    ensures always_values { map (λ node. (shown always_plan always_run node).value)
        (0 ∷ 1 ∷ []) ≡ Some (pos 0) ∷ Some (pos 0) ∷ [] }
    ensures always_facts { facts_in always_plan (drop 4 always_run) (key 0 0 Post)
        ≡ record (plain_facts (negsuc 1003) (pos 5)) { launch = 0 } }
    ensures noop_values { map (λ node. (shown noop_plan noop_run node).value)
        (0 ∷ 1 ∷ 2 ∷ []) ≡ Some (pos 2) ∷ None ∷ Some (pos 0) ∷ [] }
{}

/// What is no run: a child before its parent, a launch twice, an ending that nothing had, Finish while
/// a phase may be launched, another attempt after the last, a signal that there is not, a launch
/// after an abort. And what is no agreement.
pub fn refusals()
    ensures child_first { IsFalse (may_follow diamond (Life ∷ []) (Launch (key 1 0 Job) 1)) }
    ensures launched_twice { IsFalse (may_follow diamond
        (Launch (key 0 0 Job) 1 ∷ Life ∷ []) (Launch (key 0 0 Job) 2)) }
    ensures not_running { IsFalse (may_follow diamond
        (Life ∷ Launch (key 0 0 Job) 1 ∷ Life ∷ []) (End (key 0 0 Job) (Exit 0))) }
    ensures no_signal { IsFalse (may_follow diamond
        (Launch (key 0 0 Job) 1 ∷ Life ∷ []) (End (key 0 0 Job) (Signal 128))) }
    ensures too_early { IsFalse (may_follow diamond (Life ∷ []) (Finish 1)) }
    ensures no_retry { IsFalse (may_follow diamond
        (End (key 0 0 Job) (Exit 1) ∷ Launch (key 0 0 Job) 1 ∷ Life ∷ [])
        (Launch (key 0 1 Job) 2)) }
    ensures failed { IsTrue (may_follow diamond
        (End (key 0 0 Job) (Exit 1) ∷ Launch (key 0 0 Job) 1 ∷ Life ∷ []) (Finish 1)) }
    ensures after_abort { IsFalse (may_follow abort_plan
        (drop 3 abort_run) (Launch (key 1 0 Job) 3)) }
    // Where no launch has a number and no node failed, these two scripts have the same words; but
    // their nodes agree on no command, since one is given what the whole run knows.
    ensures same_at_0 { phase_command (node_at told_failed 0) 0 Pre (plain_facts (pos 0) (pos 0))
        ≡ phase_command (node_at told_0 0) 0 Pre (plain_facts (pos 0) (pos 0)) }
    ensures whole_run { HaveSameCommands told_failed told_0 0 0 → ⊥ }
{}
