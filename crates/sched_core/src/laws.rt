//! Laws of the definitions alone. No program calls them.

ghost use Rattle.std.specs.Prelude.{◌≡◌, ◌≢◌, ℕ, ◌<◌, ◌≤◌, ◌+◌, ◌*◌, length, true, false, List, [], ◌∷◌, ◌++◌, is_some, IsTrue, IsFalse};
ghost use Rattle.std.specs.List.{list_all, Contains};
ghost use Rattle.node_machine.specs.declared.Outcome.{Outcome};
ghost use Rattle.node_machine.specs.Story.{Table, story, phases_of, is_history, BeginsWith};
ghost use Rattle.node_machine.specs.declared.Record.{Record};
ghost use Rattle.sched_core.specs.declared.Choice.{Choice};
ghost use Rattle.sched_core.specs.declared.Choice.TheVariants as choices;
ghost use Rattle.throttles.specs.declared.Limits.{Limits};
ghost use Rattle.sched_core.specs.Choices.{IsChoice};
ghost use Rattle.sched_core.specs.Bound.{records_left, has_no_life, all_phases};
ghost use Rattle.node_machine.specs.declared.Record.TheVariants.{Life, Launch, End, Finish};
ghost use Rattle.run_plan.specs.Plan.{Plan, node_at, count_of, IsRankedBy};
ghost use Rattle.run_plan_node.specs.Commands.{phase_command, is_expandable, uses_whole_run};
ghost use Rattle.sched_core.specs.Run.{chronological, table_of, history, is_done, is_lawful, is_finished, is_aborted, is_launched, is_open, launch_number, may_follow};
ghost use Rattle.sched_core.specs.Fate.{Fate, AreFates, final_fate, shown, is_done_state};
ghost use Rattle.sched_core.specs.Agree.{AgreeOnFates, Agree};
ghost use Rattle.sched_core.specs.Commands.{command_by, with_commands, facts_in, is_launch};
ghost use Rattle.sched_core.specs.Lives.{HasOutcomesOf, IsRunBy, IsTurnOf};
ghost use Rattle.sched_core.specs.Rounds.{Round, AreRounds, AreCalm, RoundsAgree, WasMarked, is_marked};
ghost use Rattle.sched_core.specs.Example.{key};
ghost use Rattle.node_machine.specs.declared.Key.{Key};

/// At every moment each node has gone through the beginning of its story, and only nodes whose parents
/// are done have begun.
pub fn histories()
    ensures prefix { (plan : Plan) (records : List Record) → IsTrue (is_lawful plan records) →
        (node : ℕ) →
        BeginsWith (phases_of (story (node_at plan node).course (table_of records node)))
        (history records node) }
    ensures parents { (plan : Plan) (records : List Record) → IsTrue (is_lawful plan records) →
        (node : ℕ) → node < count_of plan → history records node ≢ [] →
        IsTrue (list_all (is_done plan records) (node_at plan node).parents) }
    ensures parents_fates { (plan : Plan) (rank : ℕ → ℕ) → IsRankedBy rank plan →
        (records : List Record) → IsTrue (is_lawful plan records) →
        (fates : ℕ → Fate) → AreFates plan (table_of records) fates →
        (node : ℕ) → node < count_of plan → history records node ≢ [] →
        (parent : ℕ) → Contains (node_at plan node).parents parent →
        IsTrue (is_done_state (fates parent).state) }
{}

/// A finished run without abort shows of each node the fate that the recursion over its parents
/// reads from its endings, and so from each table that has them, in whatever lives they were.
pub fn finished_runs()
    ensures fates { (plan : Plan) (records : List Record) →
        IsTrue (is_finished plan records) → IsFalse (is_aborted plan records) →
        AreFates plan (table_of records) (shown plan records) }
    ensures by_table { (plan : Plan) (table : Table) (records : List Record) →
        IsRunBy plan table records → AreFates plan table (shown plan records) }
    ensures marks { (plan : Plan) (records : List Record) (node : ℕ) →
        is_done plan records node ≡ is_done_state (shown plan records node).state }
    // With abort or without, FINAL comes to the end of its story.
    ensures final_node { (plan : Plan) (table : Table) (records : List Record) →
        IsTrue (is_finished plan records) → HasOutcomesOf plan table records → is_some plan.final_node ≡ true →
        shown plan records (count_of plan) ≡ final_fate plan table }
{}

/// The recursion over parents has one solution for each plan in which no node is its own ancestor.
pub fn one_solution()
    ensures some { (plan : Plan) (table : Table) (rank : ℕ → ℕ) → IsRankedBy rank plan →
        (fates : ℕ → Fate) × AreFates plan table fates }
    ensures only { (plan : Plan) (table : Table) (rank : ℕ → ℕ) → IsRankedBy rank plan →
        (fates other : ℕ → Fate) → AreFates plan table fates → AreFates plan table other →
        (node : ℕ) → node < count_of plan → fates node ≡ other node }
{}

/// Each launch, in whatever life, comes at its key's turn. Where the texts of its node's job can be
/// expanded and no word of the node's commands is known in a whole run alone, the launch is
/// started by the command that is read from the table.
pub fn launches()
    ensures turns { (plan : Plan) (table : Table) (newer past : List Record) (key : Key)
        (number : ℕ) → IsTrue (is_lawful plan (newer ++ Launch key number ∷ past)) →
        HasOutcomesOf plan table past → IsTurnOf plan table key (history past key.node) }
    ensures commands { (plan : Plan) (table : Table) (newer past : List Record) (key : Key)
        (number : ℕ) → IsTrue (is_lawful plan (newer ++ Launch key number ∷ past)) →
        HasOutcomesOf plan table past → is_expandable (node_at plan key.node) ≡ true →
        uses_whole_run (node_at plan key.node) ≡ false →
        phase_command (node_at plan key.node) key.attempt key.phase
        (facts_in plan (Launch key number ∷ past) key)
        ≡ command_by plan table key.node key.attempt key.phase }
    // Launches after it change nothing of what is known of a launch: several may be recorded, and then be handed over.
    ensures together { (plan : Plan) (others past : List Record) (key : Key) (number : ℕ) →
        IsTrue (is_lawful plan (others ++ Launch key number ∷ past)) → IsTrue (list_all is_launch others) →
        facts_in plan (others ++ Launch key number ∷ past) key ≡ facts_in plan (Launch key number ∷ past) key }
{}

/// Whether a run meets an abort follows from the plan and the table: where one finished run meets
/// none, no lawful list of records with the same outcomes does, whatever was chosen in it.
pub fn aborts()
    ensures { (plan : Plan) (table : Table) (rank : ℕ → ℕ) → IsRankedBy rank plan →
        (records other : List Record) → IsRunBy plan table records →
        IsTrue (is_lawful plan other) → HasOutcomesOf plan table other →
        IsFalse (is_aborted plan other) }
{}

/// Two runs whose plans and tables agree on a node and all above it agree on that node: on its fate,
/// for which commands don't matter, and on the command of each of its phases.
pub fn two_runs()
    ensures fates { (plan plan' : Plan) (table table' : Table) (rank rank' : ℕ → ℕ) →
        IsRankedBy rank plan → IsRankedBy rank' plan' →
        (fates fates' : ℕ → Fate) → AreFates plan table fates → AreFates plan' table' fates' →
        (node node' : ℕ) → node < count_of plan → node' < count_of plan' →
        AgreeOnFates plan table plan' table' node node' → fates node ≡ fates' node' }
    ensures commands { (plan plan' : Plan) (table table' : Table) (rank rank' : ℕ → ℕ) →
        IsRankedBy rank plan → IsRankedBy rank' plan' →
        (fates fates' : ℕ → Fate) → AreFates plan table fates → AreFates plan' table' fates' →
        (node node' : ℕ) → node < count_of plan → node' < count_of plan' →
        Agree plan table plan' table' node node' →
        with_commands plan table node (fates node).history
        ≡ with_commands plan' table' node' (fates' node').history }
    ensures runs { (plan plan' : Plan) (table table' : Table) (rank rank' : ℕ → ℕ) →
        IsRankedBy rank plan → IsRankedBy rank' plan' →
        (records records' : List Record) →
        IsRunBy plan table records → IsRunBy plan' table' records' →
        (node node' : ℕ) → node < count_of plan → node' < count_of plan' →
        AgreeOnFates plan table plan' table' node node' →
        shown plan records node ≡ shown plan' records' node' }
{}

/// Rounds without abort, over plans and tables that agree on a node and all above it, mark it alike.
/// A mark stays, also one of a round that was aborted: the node is not launched again.
pub fn rounds()
    ensures agree { (round round' : Round) (before before' : List Round) (rank rank' : ℕ → ℕ) →
        IsRankedBy rank round.plan → IsRankedBy rank' round'.plan →
        AreRounds (round ∷ before) → AreRounds (round' ∷ before') →
        AreCalm (round ∷ before) → AreCalm (round' ∷ before') →
        (node node' : ℕ) → node < count_of round.plan → node' < count_of round'.plan →
        (node_at round.plan node).name ≡ (node_at round'.plan node').name →
        RoundsAgree (round ∷ before) (round' ∷ before') node node' →
        is_marked round node ≡ is_marked round' node' }
    ensures stays { (round : Round) (before : List Round) → AreRounds (round ∷ before) →
        (node : ℕ) → node < count_of round.plan → WasMarked before node →
        IsTrue (is_marked round node) }
    ensures not_again { (round : Round) (before : List Round) → AreRounds (round ∷ before) →
        (node : ℕ) → node < count_of round.plan → WasMarked before node →
        IsFalse (is_launched round.records node) }
{}

/// A run ends: each launch and each ending that may follow leaves fewer records to come.
pub fn runs_end()
    ensures launch { (plan : Plan) (past : List Record) (key : Key) (number : ℕ) →
        IsTrue (is_lawful plan past) → IsTrue (may_follow plan past (Launch key number)) →
        records_left plan (Launch key number ∷ past) < records_left plan past }
    ensures end { (plan : Plan) (past : List Record) (key : Key) (outcome : Outcome) →
        IsTrue (is_lawful plan past) → IsTrue (may_follow plan past (End key outcome)) →
        records_left plan (End key outcome ∷ past) < records_left plan past }
{}

/// One life adds at most two records for each phase of each attempt that its nodes may have, and two
/// more: its Life, and the Finish of the run.
pub fn lives_are_short()
    ensures { (plan : Plan) (begun own : List Record) →
        IsTrue (is_lawful plan (own ++ Life ∷ begun)) → IsTrue (has_no_life own) →
        length (own ++ Life ∷ []) ≤ 2 * all_phases plan + 2 }
{}

/// What is to be done next is determined, and it may be done: a launch, or the end of the run.
pub fn choices()
    ensures one { (limits : Limits) (plan : Plan) (past : List Record) (choice other : Choice) →
        IsChoice limits plan past choice → IsChoice limits plan past other → choice ≡ other }
    ensures start { (limits : Limits) (plan : Plan) (past : List Record) (key : Key) → IsTrue (is_open past) →
        IsChoice limits plan past (choices.Start key) →
        IsTrue (may_follow plan past (Launch key (launch_number past key))) }
    ensures finish { (limits : Limits) (plan : Plan) (past : List Record) (status : ℕ) → IsTrue (is_open past) →
        IsChoice limits plan past (choices.Finish status) → IsTrue (may_follow plan past (Finish status)) }
{}

/// What is written begins with the oldest record, each newer one comes after it, and read from the
/// end it is the run's records again.
pub fn writing()
    ensures none { chronological [] ≡ [] }
    ensures newest { (newest : Record) (past : List Record) →
        chronological (newest ∷ past) ≡ chronological past ++ newest ∷ [] }
    ensures again { (past : List Record) → chronological (chronological past) ≡ past }
{}

/// In a lawful list the phases of a node that ended are a history: each is the next of the node's
/// story after those before.
pub fn ended_phases()
    ensures { (plan : Plan) (records : List Record) → IsTrue (is_lawful plan records) →
        (node : ℕ) → IsTrue (is_history (node_at plan node).course (history records node)) }
{}
