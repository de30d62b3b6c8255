//! The rescue file of a round that was cut short.

ghost use Rattle.std.specs.Prelude.{◌≡◌, IfOk, IfErr, string_bytes};
ghost use Rattle.std.specs.List.{count_by};
ghost use Rattle.event_journal_log.specs.Image.{replay_of};
ghost use Rattle.sched_core.specs.Run.{chronological};
ghost use Rattle.recovery_manager.specs.Rescue.{marks_of, rescue_text_for};
ghost use Rattle.dag_main_check.specs.declared.fault.RunFault.TheVariants.{Memory};
ghost use Rattle.salvage.specs.Salvaged.{IsReplayOf, IsSalvaged};
ghost use Rattle.salvage.specs.Refused.{IsUnsalvaged};

use crate::rounds::digest_in;
use dag_main_check::RunFault;
use dag_main_files::read_fault;
use event_journal_log::{read_journal, slot_of};
use node_machine::Record;
use recovery::replay;
use recovery_manager::ManagerFault;
use rescue_file::rescue_text;
use run_plan::Plan;
use sched_core::Core;
use std::alloc::Global;

/// The text of a rescue file, and how many nodes it marks.
#[derive(Drop)]
pub struct Salvaged {
    pub text: String,
    pub done: usize,
}

/// The records of a journal of these bytes, whatever it is a journal of, the oldest first; none where none
/// was begun. Whether POST scripts run after failed PRE scripts is asked of the plan.
///
/// # Errors
/// `InManager` with the fault of the journal, and `Memory`.
pub(crate) fn records_in(
    alloc: Global,
    plan: &Plan,
    journal: &[u8],
) -> Result<Vec<Record>, RunFault>
    ensures records { IfOk result (λ records. IsReplayOf (replay_of journal.now) records.items) }
    ensures refused { IfErr result (IsUnsalvaged plan.now journal.now) }
{
    match read_journal(alloc, journal, &digest_in(journal), plan.always_post()) {
        Ok(Some(records)) => Ok(records),
        Ok(None) => Ok(Vec::new(alloc)),
        Err(fault) => Err(read_fault(fault)),
    }
}

/// The core of a plan that has these records, which are those of a journal of these bytes.
///
/// # Errors
/// `InManager` with `Foreign` and the slot of the first record that may not follow those before it;
/// `Memory`.
pub(crate) fn core_of<'a>(
    alloc: Global,
    plan: &'a Plan,
    journal: &[u8],
    records: &[Record],
) -> Result<Core<'a>, RunFault>
    requires { IsReplayOf (replay_of journal.now) records.now }
    ensures plan { IfOk result (λ core. core.plan ≡ plan.now) }
    ensures records { IfOk result (λ core. records.now ≡ chronological core.past) }
    ensures refused { IfErr result (IsUnsalvaged plan.now journal.now) }
{
    match replay(alloc, plan, records) {
        Ok(core) => Ok(core),
        Err(ManagerFault::Foreign(place)) => {
            let slot = slot_of(journal, place as usize);
            Err(RunFault::InManager(ManagerFault::Foreign(slot)))
        }
        Err(_) => Err(RunFault::Memory),
    }
}

/// How many marks stand.
pub(crate) fn count_marks(marks: &[bool]) -> usize
    ensures { result ≡ count_by (λ mark. mark) marks.now }
{
    marks.iter().filter(|mark| **mark).count()
}

/// The rescue file of a run as it is.
fn text_of(alloc: Global, core: &Core<'_>) -> Result<Salvaged, RunFault>
    ensures text { IfOk result (λ salvaged. string_bytes salvaged.text
        ≡ rescue_text_for core.now.plan core.now.past) }
    ensures done { IfOk result (λ salvaged. salvaged.done
        ≡ count_by (λ mark. mark) (marks_of core.now.plan core.now.past)) }
    ensures err { IfErr result (λ fault. fault ≡ Memory) }
{
    let Ok(marks) = core.marks(alloc) else {
        return Err(RunFault::Memory);
    };
    let done = count_marks(&marks);
    match rescue_text(alloc, core.plan().graph(), &marks) {
        Ok(text) => Ok(Salvaged { text, done }),
        Err(_) => Err(RunFault::Memory),
    }
}

/// The text of the rescue file of a plan's round whose journal has these bytes, as the round would have
/// written it had it stopped there: it marks the nodes that are done by the records. Whose journal it is
/// isn't asked; whether POST scripts run after failed PRE scripts is asked of the plan.
///
/// # Errors
/// `InManager` with the fault of the journal, or with the slot of the first record that may not follow
/// those before it; `Memory`.
pub fn salvage_text(alloc: Global, plan: &Plan, journal: &[u8]) -> Result<Salvaged, RunFault>
    ensures salvaged { IfOk result (λ salvaged. IsSalvaged plan.now journal.now (string_bytes salvaged.text) salvaged.done) }
    ensures refused { IfErr result (IsUnsalvaged plan.now journal.now) }
{
    let records = records_in(alloc, plan, journal)?;
    let core = core_of(alloc, plan, journal, &records)?;
    core.keeps_the_law();
    text_of(alloc, &core)
}
