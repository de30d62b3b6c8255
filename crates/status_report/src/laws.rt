//! What holds of the definitions alone. No program calls these functions.

ghost use Rattle.std.specs.Prelude.{◌≡◌, ℕ, ◌<◌, true, List, is_some, IsTrue, IsFalse};
ghost use Rattle.node_machine.specs.Story.{Table};
ghost use Rattle.run_plan.specs.Plan.{Plan, count_of, IsRankedBy};
ghost use Rattle.node_machine.specs.declared.Record.{Record};
ghost use Rattle.sched_core.specs.Run.{is_finished, is_aborted};
ghost use Rattle.sched_core.specs.Fate.{Fate, AreFates, shown};
ghost use Rattle.sched_core.specs.Lives.{IsRunBy};
ghost use Rattle.status_report.specs.Status.{status_at, status_of_state};
ghost use Rattle.status_report.specs.Text.{lines_of, reported, status_text_of, fate_lines};

/// In a finished run nothing runs, and without abort nothing is ready: each node is as what the
/// records show of it. The FINAL node, where there is one, does so with abort too.
pub fn finished_runs()
    ensures status { (plan : Plan) (past : List Record) → IsTrue (is_finished plan past) →
        IsFalse (is_aborted plan past) → (node : ℕ) → node < count_of plan →
        status_at plan past node ≡ status_of_state (shown plan past node).state }
    ensures final_node { (plan : Plan) (past : List Record) → IsTrue (is_finished plan past) →
        is_some plan.final_node ≡ true →
        status_at plan past (count_of plan) ≡ status_of_state (shown plan past (count_of plan)).state }
{}

/// The lines of a finished run without abort are those of what the records show; and so those of the
/// ordinary nodes are the lines of the fates that the recursion over parents reads from the table.
pub fn finished_texts()
    ensures shown { (plan : Plan) (past : List Record) → IsTrue (is_finished plan past) →
        IsFalse (is_aborted plan past) →
        status_text_of plan past ≡ fate_lines plan (shown plan past) (reported plan) }
    ensures fates { (plan : Plan) (table : Table) (rank : ℕ → ℕ) → IsRankedBy rank plan →
        (past : List Record) → IsRunBy plan table past →
        (fates : ℕ → Fate) → AreFates plan table fates →
        lines_of plan past (count_of plan) ≡ fate_lines plan fates (count_of plan) }
{}
