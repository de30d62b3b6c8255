//! The last round of a DAG file: what is beside the file of it, and its plan.

ghost use Rattle.std.specs.Prelude.{◌≡◌, ◌⊎◌, ◌<◌, false, Some, IfOk, IfErr, IfSome, IsTrue};
ghost use Rattle.std.specs.Option.{option_map};
ghost use Rattle.sched_core.specs.Run.{chronological, is_lawful};
ghost use Rattle.dag_main_check.specs.declared.fault.RunFault.TheVariants.{Memory};
ghost use Rattle.dag_main_files.specs.Beside.{IsRefusalOf, IsRefusalHeld, journal_name_of};
ghost use Rattle.dag_main_files.specs.Opened.{changing, fixed};
ghost use Rattle.dag_main_inspect.specs.Statused.{journal_bytes, flag_by, records_in_bytes};
ghost use Rattle.dag_main_inspect.specs.LastRound.{used_by, has_ended_by, used_name, IsHead, IsLastRound, IsNoLastRound, IsOpenedRound, IsNotOpenedRound};
ghost use Rattle.dag_main_inspect.specs.Asked.{TellsOfNoRun};

use crate::journal::ReadJournal;
use crate::statuses::core_of;
use dag_main_check::RunFault;
use dag_main_files::{Folder, LAST_NUMBER, journal_path, named, plan_here, rescue_path};
use dag_reader::Text;
use run_plan::Plan;
use sched_core::Core;
use std::alloc::Global;

/// How often a journal that can't be read is looked at again, at most.
const MOST_LOOKS: usize = 100;

/// The journal of this path.
///
/// # Errors
/// `FileRefused` with the path of a journal that the system refuses to read, or that is no regular file; `Memory`.
fn read_once<F: Folder>(alloc: Global, folder: &F, path: &str) -> Result<ReadJournal, RunFault>
    ensures held { F.honest folder.now → IfOk result (λ journal. journal ≡ F.holds folder.now path.now) }
    ensures refused { IfErr result (IsRefusalOf path.now) }
    ensures unheld { F.honest folder.now → IfErr result (IsRefusalHeld (F.holds folder.now) path.now) }
{
    let bytes = folder.beside(alloc, path)?;
    let journal = ReadJournal::new(alloc, bytes)?;
    Ok(journal)
}

/// The journal beside a DAG file. One that can't be read may be one that a manager writes just then: as long as it grows, it is
/// looked at again.
///
/// # Errors
/// Those of `read_once`.
fn journal_of<F: Folder>(alloc: Global, folder: &F, top: &str) -> Result<ReadJournal, RunFault>
    ensures held { F.honest folder.now
        → IfOk result (λ journal. journal ≡ F.holds folder.now (journal_name_of top.now)) }
    ensures refused { IfErr result (IsRefusalOf (journal_name_of top.now)) }
    ensures unheld { F.honest folder.now → IfErr result (IsRefusalHeld (F.holds folder.now) (journal_name_of top.now)) }
{
    let path = journal_path(alloc, top)?;
    let mut found = read_once(alloc, folder, path.as_str())?;
    for _ in 0..MOST_LOOKS {
        if found.is_readable() {
            break;
        }
        let again = read_once(alloc, folder, path.as_str())?;
        let same = again.bytes().len() == found.bytes().len();
        found = again;
        if same {
            break;
        }
    }
    Ok(found)
}

/// The path of the rescue file that a run read, if it read one.
///
/// # Errors
/// `NotThere` with a number above 999; `Memory`.
fn used_path(alloc: Global, top: &str, used: u16) -> Result<Option<Text>, RunFault>
    ensures name { IfOk result (λ name. name ≡ used_name top.now used) }
    ensures number { IfErr result (λ fault. (fault ≡ Memory) ⊎ ((999 < used) × (fault ≡ RunFault.NotThere used))) }
{
    if used == 0 {
        return Ok(None);
    }
    if used > LAST_NUMBER {
        return Err(RunFault::NotThere(used));
    }
    Ok(Some(rescue_path(alloc, top, used)?))
}

/// What is beside a DAG file of its last round.
#[derive(Drop)]
pub struct LastRound {
    /// The journal.
    pub journal: ReadJournal,
    /// The path of the rescue file that the journal names; none where it names none.
    pub name: Option<Text>,
    /// The bytes of that file; none where it is missing.
    pub rescue: Option<Vec<u8>>,
    /// Whether POST scripts run after failed PRE scripts, as the journal's header says; not where there is none.
    pub always_post: bool,
    /// Whether the last record of the journal is the end of the run.
    pub has_ended: bool,
}

/// The last round of a DAG file.
///
/// # Errors
/// In this order: a journal that the system refuses to read (`FileRefused`), a number of a rescue file above 999 in
/// its header (`NotThere`), a rescue file that the system refuses to read. Where the header can't be read, no
/// rescue file is. Lack of memory may come before any.
pub fn last_round<F: Folder>(alloc: Global, folder: &F, top: &str) -> Result<LastRound, RunFault>
    ensures round { IfOk result (λ round. IsLastRound changing top.now
        round.journal (option_map (λ b. b.items) round.rescue)) }
    // The journal and the rescue file that its header names are those that the folder holds.
    ensures held { F.honest folder.now → IfOk result (λ round. IsLastRound (fixed (F.holds folder.now)) top.now
        round.journal (option_map (λ b. b.items) round.rescue)) }
    ensures name { IfOk result (λ round. round.name ≡ used_name top.now (used_by round.journal)) }
    ensures flag { IfOk result (λ round. round.always_post ≡ flag_by round.journal) }
    ensures ended { IfOk result (λ round. round.has_ended ≡ has_ended_by round.journal) }
    ensures refused { IfErr result (IsNoLastRound changing top.now) }
    // The refusal too is for what the folder holds.
    ensures refused_held { F.honest folder.now → IfErr result (IsNoLastRound (fixed (F.holds folder.now)) top.now) }
{
    let journal = journal_of(alloc, folder, top)?;
    let head = journal.head();
    let name = used_path(alloc, top, head.used)?;
    let rescue = match &name {
        Some(name) => folder.beside(alloc, name.as_str())?,
        None => None,
    };
    Ok(LastRound {
        journal,
        name,
        rescue,
        always_post: head.always_post,
        has_ended: head.finished,
    })
}

/// The last round of a DAG file, with its plan.
#[derive(Drop)]
pub struct OpenedRound {
    /// The plan of the files and of the rescue file that the journal names.
    pub plan: Plan,
    /// The journal.
    pub journal: ReadJournal,
}

impl LastRound {
    /// Opens the round: makes its plan, of the DAG file of this path, those of its splices and the submit files of its nodes.
    ///
    /// # Errors
    /// Those of `plan_here`, a fault in a line of the rescue file with its path.
    pub fn open<F: Folder>(
        self,
        alloc: Global,
        folder: &F,
        top: &str,
    ) -> Result<OpenedRound, RunFault>
        requires flag { self.always_post ≡ flag_by self.journal }
        requires name { self.name ≡ used_name top.now (used_by self.journal) }
        ensures opened { IsLastRound changing top.now self.journal (option_map (λ b. b.items) self.rescue)
            → IfOk result (λ round. IsOpenedRound changing top.now round.plan round.journal) }
        ensures held { F.honest folder.now
            → IsLastRound (fixed (F.holds folder.now)) top.now self.journal (option_map (λ b. b.items) self.rescue)
            → IfOk result (λ round. IsOpenedRound (fixed (F.holds folder.now)) top.now round.plan round.journal) }
        ensures refused { IsLastRound changing top.now self.journal (option_map (λ b. b.items) self.rescue)
            → IfErr result (IsNotOpenedRound changing top.now) }
        ensures refused_held { F.honest folder.now
            → IsLastRound (fixed (F.holds folder.now)) top.now self.journal (option_map (λ b. b.items) self.rescue)
            → IfErr result (IsNotOpenedRound (fixed (F.holds folder.now)) top.now) }
        // It is the round's own journal.
        ensures journal { IfOk result (λ round. round.journal ≡ self.journal) }
    {
        match plan_here(alloc, folder, top, self.rescue.as_deref(), self.always_post) {
            Ok(plan) => Ok(OpenedRound {
                plan,
                journal: self.journal,
            }),
            Err(fault) => Err(named(fault, self.name)),
        }
    }
}

/// The last round of a DAG file, with its plan.
///
/// # Errors
/// Those of `last_round`, then those of `LastRound::open`.
pub fn open_round<F: Folder>(alloc: Global, folder: &F, top: &str) -> Result<OpenedRound, RunFault>
    ensures opened { IfOk result (λ round. IsOpenedRound changing top.now round.plan round.journal) }
    // It is that of the files, the journal and the rescue file that the folder holds.
    ensures held { F.honest folder.now
        → IfOk result (λ round. IsOpenedRound (fixed (F.holds folder.now)) top.now round.plan round.journal) }
    ensures refused { IfErr result (IsNotOpenedRound changing top.now) }
    // The refusal too is for what the folder holds.
    ensures refused_held { F.honest folder.now → IfErr result (IsNotOpenedRound (fixed (F.holds folder.now)) top.now) }
{
    let round = last_round(alloc, folder, top)?;
    round.open(alloc, folder, top)
}

impl OpenedRound {
    /// The bytes of the journal; none where there is none.
    pub fn bytes(&self) -> &[u8]
        ensures { result.now ≡ journal_bytes self.now.journal }
    {
        self.journal.bytes()
    }

    /// The run as it is by the records of the journal.
    ///
    /// # Errors
    /// The fault of the journal, or its first record that may not follow those before it (`InManager`); `Memory`.
    pub fn core(&self, alloc: Global) -> Result<Core<'_>, RunFault>
        ensures plan { IfOk result (λ core. core.plan ≡ self.now.plan) }
        ensures records { IfOk result (λ core.
            records_in_bytes self.now.plan (journal_bytes self.now.journal) ≡ Some (chronological core.past)) }
        ensures lawful { IfOk result (λ core. IsTrue (is_lawful core.plan core.past)) }
        ensures refused { IfErr result (TellsOfNoRun self.now.plan self.now.journal) }
    {
        let bytes = self.bytes();
        let records = self.journal.records(alloc, &self.plan)?;
        let core = core_of(alloc, &self.plan, bytes, records.as_slice())?;
        core.keeps_the_law();
        Ok(core)
    }
}
