//! The headline, as laws of the definitions alone. No program calls them. What keeps the records and what starts a
//! child are left open: the crate `recovery` has the same of the bytes of a journal and of the commands of a plan.

ghost use Rattle.std.specs.Prelude.{◌≡◌, ℕ, ◌<◌, ℤ, true, false, List, ◌∷◌, Some, is_some, IsTrue};
ghost use Rattle.std.specs.List.{Contains};
ghost use Rattle.node_machine.specs.declared.Key.{Key};
ghost use Rattle.node_machine.specs.declared.Phase.{Phase};
ghost use Rattle.node_machine.specs.declared.Record.{Record};
ghost use Rattle.run_plan.specs.Plan.{Plan, node_at, count_of, IsRankedBy};
ghost use Rattle.run_plan_node.specs.Commands.{is_expandable, uses_whole_run};
ghost use Rattle.sched_core.specs.Run.{is_done, is_lawful};
ghost use Rattle.sched_core.specs.Fate.{AreFates, final_fate, shown, is_done_state};
ghost use Rattle.sched_core.specs.Agree.{AgreeOnFates};
ghost use Rattle.sched_core.specs.Commands.{command_of_launch, plain_command};
ghost use Rattle.sched_core.specs.EveryRun.{key_of, IsGrown, Way, AnyLife, AnyRun, AreAnyLives, by_what_it_left, IsRunOver, ArePlain, plain_by, with_plain, HaveSamePlain};

/// In a finished run without abort, over any lives, each ordinary node's attempts, exit value, state and mark are those
/// of the recursion over its parents, read from the table of outcomes; and so is each command that any of the lives
/// handed over for a node whose commands are plain. The FINAL node comes to its story, whatever the others come to. The
/// last life holds what each one before it held.
pub fn every_run<I, C>()
    ensures fates { (run : AnyRun I C) → IsRunOver run →
        AreFates run.plan run.table (shown run.plan run.last.held) }
    ensures marks { (run : AnyRun I C) (node : ℕ) →
        is_done run.plan run.last.held node ≡ is_done_state (shown run.plan run.last.held node).state }
    ensures final_node { (run : AnyRun I C) → IsRunOver run → IsTrue (is_some run.plan.final_node) →
        shown run.plan run.last.held (count_of run.plan) ≡ final_fate run.plan run.table }
    ensures commands { (run : AnyRun I C) → IsRunOver run →
        (life : AnyLife I C) → Contains (run.last ∷ run.before) life →
        (plain : Key → ℤ × ℤ → C) (key : Key) (handed : C) → Contains life.handed (key, handed) →
        ArePlain run.plan run.last.held run.way.command plain key.node →
        handed ≡ plain_by run.plan run.table plain key }
    ensures grows { (plan : Plan) (way : Way I C)
        (last : AnyLife I C) (before : List (AnyLife I C)) → AreAnyLives plan way (last ∷ before) →
        (life : AnyLife I C) → Contains before life → IsGrown last.held life.held }
    // A record that the last life left without learning of it counts too, as the run's end: by what it
    // left these are lives as well.
    ensures left { (plan : Plan) (way : Way I C)
        (last : AnyLife I C) (before : List (AnyLife I C)) → AreAnyLives plan way (last ∷ before) →
        (kept : List Record) → way.read last.left ≡ Some kept →
        AreAnyLives plan way (by_what_it_left last kept ∷ before) }
{}

/// Two such runs, perhaps kept in different ways, whose plans and tables agree on a node and all above it, agree on that
/// node: on its attempts, its value, its state and its mark. Where it has the same plain commands in both, each phase
/// that ended has the same command, and what any life of the one handed over for a phase of an attempt is what any life
/// of the other did.
pub fn every_two_runs<I, J, C>()
    ensures fates { (run : AnyRun I C) (run' : AnyRun J C) → IsRunOver run → IsRunOver run' →
        (rank rank' : ℕ → ℕ) → IsRankedBy rank run.plan → IsRankedBy rank' run'.plan →
        (node node' : ℕ) → node < count_of run.plan → node' < count_of run'.plan →
        AgreeOnFates run.plan run.table run'.plan run'.table node node' →
        (shown run.plan run.last.held node ≡ shown run'.plan run'.last.held node')
        × (is_done run.plan run.last.held node ≡ is_done run'.plan run'.last.held node')
        × ((plain plain' : Key → ℤ × ℤ → C) → HaveSamePlain run.plan plain plain' node node' →
        with_plain run.plan run.table plain node (shown run.plan run.last.held node).history
        ≡ with_plain run'.plan run'.table plain' node' (shown run'.plan run'.last.held node').history) }
    ensures commands { (run : AnyRun I C) (run' : AnyRun J C) → IsRunOver run → IsRunOver run' →
        (node node' : ℕ) → AgreeOnFates run.plan run.table run'.plan run'.table node node' →
        (plain plain' : Key → ℤ × ℤ → C) → HaveSamePlain run.plan plain plain' node node' →
        ArePlain run.plan run.last.held run.way.command plain node →
        ArePlain run'.plan run'.last.held run'.way.command plain' node' →
        (life : AnyLife I C) → Contains (run.last ∷ run.before) life →
        (life' : AnyLife J C) → Contains (run'.last ∷ run'.before) life' →
        (attempt : ℕ) (phase : Phase) (handed handed' : C) →
        Contains life.handed (key_of node attempt phase, handed) →
        Contains life'.handed (key_of node' attempt phase, handed') → handed ≡ handed' }
{}

/// The commands of a plan are plain, in any lawful records, where the texts of the node's job can be expanded and no word
/// of its commands is known in a whole run alone.
pub fn plan_commands()
    ensures { (plan : Plan) (records : List Record) → IsTrue (is_lawful plan records) → (node : ℕ) →
        is_expandable (node_at plan node) ≡ true → uses_whole_run (node_at plan node) ≡ false →
        ArePlain plan records (command_of_launch plan) (plain_command plan) node }
{}
