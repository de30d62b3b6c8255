//! Laws of the definitions alone. No program calls them.

ghost use Rattle.std.specs.Prelude.{Bool, ◌≡◌, ◌≢◌, ℕ, ◌<◌, List, ◌∷◌, Option, Some, Ok, IsTrue};
ghost use Rattle.node_machine.specs.Story.{Table};
ghost use Rattle.splices_flat.specs.Opening.{Files};
ghost use Rattle.splices_flat.specs.Opened.{dag_at};
ghost use Rattle.dag_graph.specs.Graph.{Network};
ghost use Rattle.run_plan.specs.Plan.{Plan, node_at, count_of, IsRankedBy};
ghost use Rattle.run_plan.specs.Submitted.{plan_at};
ghost use Rattle.node_machine.specs.declared.Record.{Record};
ghost use Rattle.sched_core.specs.Run.{needs_rescue};
ghost use Rattle.sched_core.specs.Fate.{Fate, AreFates};
ghost use Rattle.sched_core.specs.Rounds.{Round, IsFinishedRound, IsRescuedBy, AreRounds};
ghost use Rattle.recovery_manager.specs.Rescue.{rescue_text_for};
ghost use Rattle.fate_audit.specs.Fates.{fate_at, AreFatesOf};
ghost use Rattle.fate_audit.specs.Audit.{AreSound, IsAuditOf, IsAuditNo};
ghost use Rattle.fate_audit.specs.declared.fault.AuditNo.{AuditNo};
ghost use Rattle.fate_audit.specs.declared.fault.AuditNo.TheVariants.{Memory};

/// The bytes of a journal have one answer, lack of memory apart: they are the journal of a finished
/// run without abort, and then with one list of fates, or there is one cause why they aren't.
pub fn one_answer()
    ensures sound { (plan : Plan) (bytes : List ℕ) (fates : List Fate) →
        IsAuditOf plan bytes fates → AreSound plan bytes }
    ensures apart { (plan : Plan) (bytes : List ℕ) (cause : AuditNo) → AreSound plan bytes →
        IsAuditNo plan bytes cause → cause ≡ Memory }
    ensures fates { (plan : Plan) (rank : ℕ → ℕ) → IsRankedBy rank plan →
        (bytes : List ℕ) (fates other : List Fate) →
        IsAuditOf plan bytes fates → IsAuditOf plan bytes other → fates ≡ other }
    ensures cause { (plan : Plan) (bytes : List ℕ) (cause other : AuditNo) →
        IsAuditNo plan bytes cause → IsAuditNo plan bytes other →
        cause ≢ Memory → other ≢ Memory → cause ≡ other }
{}

/// There is one list of the fates of a plan in which no node is its own ancestor, and it says what
/// each solution of the recursion over parents says.
pub fn one_list()
    ensures only { (plan : Plan) (table : Table) (rank : ℕ → ℕ) → IsRankedBy rank plan →
        (fates other : List Fate) → AreFatesOf plan table fates → AreFatesOf plan table other →
        fates ≡ other }
    ensures says { (plan : Plan) (table : Table) (rank : ℕ → ℕ) → IsRankedBy rank plan →
        (listed : List Fate) → AreFatesOf plan table listed →
        (fates : ℕ → Fate) → AreFates plan table fates →
        (node : ℕ) → node < count_of plan → fate_at listed node ≡ fates node }
{}

/// The rescue text of a run, read again with the same files and the same flag, gives a plan in which those ordinary
/// nodes are done that were done in the run, and no others. Nothing else changes of what the files say
/// of the nodes. So rounds whose plans are made in this way are rounds (law `rounds` of sched_core).
pub fn rescued()
    ensures read { (set : Files) (top : List ℕ) (graph : Network) → dag_at set top ≡ Ok graph.dag →
        (always_post : Bool) (files : Option Files) (rescue : Option (List ℕ)) (digest next : List ℕ) (plan : Plan) →
        plan_at always_post graph files rescue digest ≡ Ok plan → (past : List Record) →
        (again : Plan) × (plan_at always_post graph files (Some (rescue_text_for plan past)) next ≡ Ok again) }
    ensures marks { (set : Files) (top : List ℕ) (graph : Network) → dag_at set top ≡ Ok graph.dag →
        (always_post : Bool) (files : Option Files) (rescue : Option (List ℕ)) (digest next : List ℕ) (round : Round) →
        plan_at always_post graph files rescue digest ≡ Ok round.plan → (again : Plan) →
        plan_at always_post graph files (Some (rescue_text_for round.plan round.records)) next ≡ Ok again →
        IsRescuedBy round again }
    ensures launch_spec { (set : Files) (top : List ℕ) (graph : Network) → dag_at set top ≡ Ok graph.dag →
        (always_post : Bool) (files : Option Files) (rescue : Option (List ℕ)) (digest next : List ℕ) (plan : Plan) →
        plan_at always_post graph files rescue digest ≡ Ok plan → (past : List Record) → (again : Plan) →
        plan_at always_post graph files (Some (rescue_text_for plan past)) next ≡ Ok again →
        (node : ℕ) → (node_at again node).launch_spec ≡ (node_at plan node).launch_spec }
    ensures rounds { (set : Files) (top : List ℕ) (graph : Network) → dag_at set top ≡ Ok graph.dag →
        (always_post : Bool) (files : Option Files) (rescue : Option (List ℕ)) (digest next : List ℕ) (round last : Round)
        (before : List Round) → AreRounds (last ∷ before) →
        IsTrue (needs_rescue last.plan last.records) → IsFinishedRound round →
        plan_at always_post graph files rescue digest ≡ Ok last.plan →
        plan_at always_post graph files (Some (rescue_text_for last.plan last.records)) next ≡ Ok round.plan →
        AreRounds (round ∷ last ∷ before) }
{}
