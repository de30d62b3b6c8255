//! Laws of the definitions alone. No program calls them.

ghost use Rattle.std.specs.Prelude.{◌≡◌, ◌⊎◌, ℕ, ◌<◌, ◌≤◌, ◌^◌, true, false, List, [], ◌∷◌, ◌++◌, length, map, Ok, Some, None, IsTrue};
ghost use Rattle.std.specs.List.{Contains};
ghost use Rattle.node_machine.specs.declared.Key.{Key};
ghost use Rattle.node_machine.specs.declared.Phase.{Phase};
ghost use Rattle.node_machine.specs.Story.{Table};
ghost use Rattle.run_plan.specs.Plan.{Plan, node_at};
ghost use Rattle.run_plan_node.specs.Commands.{CommandOrFault, is_expandable, uses_whole_run};
ghost use Rattle.sched_core.specs.Run.{is_done, is_lawful};
ghost use Rattle.sched_core.specs.Fate.{AreFates, shown, is_done_state};
ghost use Rattle.sched_core.specs.Agree.{AgreeOnFates, Agree};
ghost use Rattle.sched_core.specs.Commands.{command_by, with_commands};
ghost use Rattle.sched_core.specs.EveryRun.{key_of, IsGrown, by_what_it_left};
ghost use Rattle.sched_core.specs.Lives.{IsRunBy};
ghost use Rattle.node_machine.specs.declared.Record.{Record};
ghost use Rattle.node_machine.specs.declared.Record.TheVariants.{Life};
ghost use Rattle.event_journal_log.specs.Fits.{Fits};
ghost use Rattle.event_journal_log.specs.Slot.{has_slot, slot_of, record_in};
ghost use Rattle.event_journal_log.specs.Image.{Header, Found, file_gate, header_bytes, replay_of};
ghost use Rattle.recovery.specs.Bytes.{IsSafe};
ghost use Rattle.event_journal_log.specs.Crashes.{CrashesLeave};
ghost use Rattle.recovery_manager.specs.Managed.{Managed, plan_of, past_of, disk_of, IsAcknowledged, ReadsBeforeOrAfter};
ghost use Rattle.recovery_manager.specs.Batched.{ReadsEither};
ghost use Rattle.recovery.specs.RecordLives.{AreLives};
ghost use Rattle.recovery.specs.Runs.{JournalRun, IsJournalRun, IsComparable};
ghost use Rattle.recovery.specs.Survival.{KeepsSince};
ghost use Rattle.recovery.specs.Recovery.{IsMomentOfBegin, IsMomentOfRecovery, IsRecovered};
ghost use Rattle.recovery_manager.specs.Lives.{LifeRecords};
ghost use Rattle.recovery_manager.specs.Chain.{Command, ManagerLife, IsLifeOf, AreManagerLives, Spawns, LeavesRecords, ReadsForInputs, life_records, life_of};
ghost use Rattle.recovery_manager.specs.Inputs.{IsHeaderOf, header_for};

use event_journal_log::Disk;

/// Lives on the bytes of a journal are lives on lists of records, and the last holds what each one
/// before it held. Over every list of lives, each on what the one before left, whose last finished the
/// run without abort: each ordinary node's attempts, exit value, state and mark are those of the recursion over
/// its parents, read from the table of outcomes; and so is each command that any of the lives handed
/// over, where the texts of its node can be expanded and hold no word of the whole run. It is the headline (`every_run`
/// of sched_core) of the bytes of a journal and the commands of a plan.
pub fn lives()
    ensures by_records { (plan : Plan) (lives : List ManagerLife) → AreManagerLives plan lives →
        AreLives plan (map (λ life. life_records life.begun life.held) lives) }
    ensures grows { (plan : Plan) (last : LifeRecords) (before : List LifeRecords) →
        AreLives plan (last ∷ before) → (earlier : LifeRecords) → Contains before earlier →
        (more : List Record) × (last.held ≡ more ++ earlier.held) }
    // A record that the last life left without learning of it counts too, as the run's end: by what it
    // left these are lives as well.
    ensures left { (plan : Plan) (last : ManagerLife) (before : List ManagerLife)
        (past : List Record) → AreManagerLives plan (last ∷ before) →
        ReadsForInputs plan past last.left →
        AreManagerLives plan (by_what_it_left last past ∷ before) }
    ensures fates { (plan : Plan) (table : Table) (last : ManagerLife) (before : List ManagerLife) →
        AreManagerLives plan (last ∷ before) → IsRunBy plan table last.held →
        AreFates plan table (shown plan last.held) }
    ensures marks { (plan : Plan) (last : ManagerLife) (node : ℕ) →
        is_done plan last.held node
        ≡ is_done_state (shown plan last.held node).state }
    ensures commands { (plan : Plan) (table : Table) (last : ManagerLife)
        (before : List ManagerLife) →
        AreManagerLives plan (last ∷ before) → IsRunBy plan table last.held →
        (life : ManagerLife) → Contains (last ∷ before) life →
        (key : Key) (command : CommandOrFault) → Contains life.handed (key, command) →
        is_expandable (node_at plan key.node) ≡ true → uses_whole_run (node_at plan key.node) ≡ false →
        command ≡ command_by plan table key.node key.attempt key.phase }
{}

/// What the calls of a manager ensure, after a fault as at their end, makes a life of the run, of
/// the bytes that it found: it began on a place that reads as Fresh, or it recovered, and then its
/// calls added records of its own.
pub fn one_life<D: Disk + Drop>()
    ensures begun { (disk : D) (manager now : Managed D) (own : List Record)
        (spawned : List Command) (left : List ℕ) → replay_of (D.seen disk) ≡ Ok None →
        past_of manager ≡ Life ∷ [] → past_of now ≡ own ++ past_of manager →
        IsTrue (is_lawful (plan_of now) (past_of now)) →
        Spawns (plan_of now) (life_records [] (past_of now)) spawned →
        LeavesRecords (plan_of now) (life_records [] (past_of now)) left →
        IsLifeOf (plan_of now) (life_of (D.seen disk) (life_records [] (past_of now)) spawned left) }
    ensures recovered { (disk : D) (manager now : Managed D) (past own : List Record)
        (spawned : List Command) (left : List ℕ) → IsRecovered D.Disk disk manager →
        past_of manager ≡ Life ∷ past → plan_of now ≡ plan_of manager →
        past_of now ≡ own ++ past_of manager → IsTrue (is_lawful (plan_of now) (past_of now)) →
        Spawns (plan_of now) (life_records past (past_of now)) spawned →
        LeavesRecords (plan_of now) (life_records past (past_of now)) left →
        IsLifeOf (plan_of now) (life_of (D.seen disk) (life_records past (past_of now)) spawned left) }
{}

/// A manager that stopped while it began a run, or went on with one, left an image from before its
/// call, so that it is no life; or it is a life that holds what it found. Where a call that adds a
/// record is cut short, or refused by the disk, the image is one that a life leaves.
pub fn stops<D: Disk + Drop>()
    ensures in_begin { (disk : D) (plan : Plan) (used next : ℕ) (image : List ℕ) →
        replay_of (D.seen disk) ≡ Ok None →
        IsMomentOfBegin (D.may_leave disk) (header_for used next plan) image →
        D.may_leave disk image
        ⊎ IsLifeOf plan (life_of (D.seen disk) (life_records [] []) [] image) }
    ensures in_recover { (disk : D) (plan : Plan) (image : List ℕ) →
        IsMomentOfRecovery plan (D.may_leave disk) (replay_of (D.seen disk)) image →
        D.may_leave disk image ⊎ ((past : List Record)
        × IsLifeOf plan (life_of (D.seen disk) (life_records past past) [] image)) }
    ensures in_a_call { (plan : Plan) (header : Header) (records : LifeRecords) (own : List Record)
        (entry : Record) (image : List ℕ) → IsHeaderOf plan header →
        records.held ≡ own ++ Life ∷ records.begun →
        IsTrue (is_lawful plan (entry ∷ records.held)) →
        ReadsBeforeOrAfter header records.held entry image → LeavesRecords plan records image }
{}

/// Two runs over such lives, whose plans and tables agree on a node and all above it, agree on that
/// node: on its attempts, its value, its state and its mark. Where they agree on its commands too, what
/// any life of the one handed over for a phase of an attempt is what any life of the other did; and
/// for each phase that ended and starts a child the recursion reads one command from both tables.
pub fn two_runs()
    ensures fates { (run run' : JournalRun) (node node' : ℕ) →
        IsComparable run node → IsComparable run' node' →
        AgreeOnFates run.plan run.table run'.plan run'.table node node' →
        shown run.plan run.last.held node ≡ shown run'.plan run'.last.held node' }
    ensures marks { (run run' : JournalRun) (node node' : ℕ) →
        IsComparable run node → IsComparable run' node' →
        AgreeOnFates run.plan run.table run'.plan run'.table node node' →
        is_done run.plan run.last.held node ≡ is_done run'.plan run'.last.held node' }
    ensures commands { (run run' : JournalRun) (node node' : ℕ) →
        IsComparable run node → IsComparable run' node' →
        Agree run.plan run.table run'.plan run'.table node node' →
        with_commands run.plan run.table node (shown run.plan run.last.held node).history
        ≡ with_commands run'.plan run'.table node' (shown run'.plan run'.last.held node').history }
    ensures spawned { (run run' : JournalRun) (node node' : ℕ) → IsJournalRun run → IsJournalRun run' →
        Agree run.plan run.table run'.plan run'.table node node' →
        is_expandable (node_at run.plan node) ≡ true → is_expandable (node_at run'.plan node') ≡ true →
        (life life' : ManagerLife) →
        Contains (run.last ∷ run.before) life → Contains (run'.last ∷ run'.before) life' →
        (attempt : ℕ) (phase : Phase) (command command' : CommandOrFault) →
        Contains life.handed (key_of node attempt phase, command) →
        Contains life'.handed (key_of node' attempt phase, command') → command ≡ command' }
{}

/// The bytes of a journal. A new journal's bytes read as its header and no records. What reads as a journal reads so
/// whatever comes after its last closed gate, and with all of the records that were written after that gate once it is
/// open. A record that fits its slot is read from it.
pub fn journal_bytes()
    ensures begins { (header : Header) → header.used < 2 ^ 16 → header.next < 2 ^ 16 → length header.digest ≡ 32 →
        replay_of (file_gate ∷ (header_bytes header ++ 0 ∷ []))
        ≡ Ok (Some (record { header = header; records = [] })) }
    ensures safe { (image : List ℕ) (found : Found) → replay_of image ≡ Ok (Some found) → IsSafe image found }
    ensures slot { (entry : Record) → Fits entry → IsTrue (has_slot entry) → record_in (slot_of entry) ≡ Some entry }
{}

/// What a manager acknowledged survives: from that moment on each image that a crash may leave of its disk, while it is
/// honest, reads as a journal of these inputs with these records. So it is between calls and during each one, however
/// that is answered or cut short; and the next life begins with the records of the image that it finds, and Life.
pub fn survival<D: Disk + Drop>()
    ensures acknowledged { (header : Header) (manager : Managed D) → D.honest (disk_of manager) →
        IsHeaderOf (plan_of manager) header → IsAcknowledged D.Disk header manager →
        KeepsSince D.Disk (D.moment (disk_of manager)) (plan_of manager) (past_of manager) (disk_of manager) }
    // A call that began with newer records leaves, at any moment, these or those with which it ends.
    ensures later { (plan : Plan) (header : Header) (past before now : List Record) (moment : ℕ) (earlier later : D) →
        KeepsSince D.Disk moment plan past earlier → moment ≤ D.moment earlier → IsHeaderOf plan header →
        IsGrown before past → IsGrown now past →
        CrashesLeave D.Disk earlier later (ReadsEither header before now) →
        KeepsSince D.Disk moment plan past later }
    ensures next_life { (disk : D) (manager : Managed D) (past : List Record) →
        ReadsForInputs (plan_of manager) past (D.seen disk) → IsRecovered D.Disk disk manager →
        past_of manager ≡ Life ∷ past }
{}
