//! The status of a run, by its journal.

ghost use Rattle.std.specs.Prelude.{◌≡◌, Some, IfOk, IfErr, string_bytes};
ghost use Rattle.std.specs.Option.{option_map};
ghost use Rattle.sched_core.specs.Run.{chronological};
ghost use Rattle.dag_main_inspect.specs.declared.statuses.Form.TheVariants.{Json};
ghost use Rattle.dag_main_inspect.specs.Statused.{journal_bytes, records_in_bytes, bytes_fault, form_text, IsStatusBy, IsRecordsFault};
ghost use Rattle.dag_main_inspect.specs.Asked.{IsStatusSaid, TellsOfNoRun};

use crate::round::OpenedRound;
use crate::status_data::status_json;
use dag_main_check::{Answer, RunFault, warning_text};
use event_journal_log::{JournalFault, read_journal, slot_of};
use node_machine::Record;
use recovery::replay;
use recovery_manager::ManagerFault;
use run_plan::Plan;
use sched_core::Core;
use status_report::status_text;
use std::alloc::{AllocError, Global};

/// The form of an answer.
#[derive(Clone, Copy, Debug, PartialEq, Eq)]
pub enum Form {
    /// A line for each node.
    Lines,
    /// The same as JSON.
    Json,
}

/// The bytes of a journal; none where there is none.
pub(crate) fn bytes_in<'a>(journal: Option<&'a [u8]>) -> &'a [u8]
    ensures { result.now ≡ journal_bytes (option_map (λ b. b.now) journal.entry) }
{
    match journal {
        Some(bytes) => bytes,
        None => &[],
    }
}

/// The status of a round, in a form; the DAG file has this path.
///
/// # Errors
/// Those of `OpenedRound::core`.
pub(crate) fn status_in(
    alloc: Global,
    round: &OpenedRound,
    form: Form,
    path: &str,
) -> Result<Answer, RunFault>
    ensures status { IfOk result (λ answer. IsStatusSaid form path.now (string_bytes answer.text) (string_bytes answer.warnings) answer.status
        round.now.plan round.now.journal) }
    ensures refused { IfErr result (TellsOfNoRun round.now.plan round.now.journal) }
{
    let core = round.core(alloc)?;
    Ok(Answer {
        text: text_in(alloc, &core, form, path)?,
        warnings: warning_text(alloc, round.plan.graph().flat().warnings())?,
        status: 0,
    })
}

/// The status of the run of a plan whose journal has these bytes as JSON, in one line; the DAG file has this path.
///
/// # Errors
/// That of the journal or its first record that may not follow (`InManager`); `Memory`.
pub fn json_of_status(
    alloc: Global,
    plan: &Plan,
    bytes: &[u8],
    path: &str,
) -> Result<String, RunFault>
    ensures says { IfOk result (λ text. IsStatusBy (form_text Json path.now) plan.now bytes.now (string_bytes text) 0) }
    ensures refused { IfErr result (IsRecordsFault plan.now bytes.now) }
{
    let records = records_of(alloc, plan, bytes)?;
    let core = core_of(alloc, plan, bytes, &records)?;
    core.keeps_the_law();
    Ok(status_json(alloc, &core, path)?)
}

/// The text of a status in a form; the DAG file has this path.
fn text_in(alloc: Global, core: &Core<'_>, form: Form, path: &str) -> Result<String, AllocError>
    ensures { IfOk result (λ text. string_bytes text ≡ form_text form path.now core.now.plan core.now.past) }
{
    match form {
        Form::Lines => status_text(alloc, core),
        Form::Json => status_json(alloc, core, path),
    }
}

/// Why bytes that can't be read are refused.
pub(crate) fn in_journal(fault: JournalFault) -> RunFault
    ensures { result ≡ bytes_fault fault }
{
    match fault {
        JournalFault::Memory => RunFault::Memory,
        fault => RunFault::InManager(ManagerFault::Journal(fault)),
    }
}

/// The records of a journal of these bytes, which is that of a run of this plan, the oldest first; none
/// where the bytes are empty.
///
/// # Errors
/// The fault of the journal (`InManager`), or `Memory`.
pub(crate) fn records_of(alloc: Global, plan: &Plan, bytes: &[u8]) -> Result<Vec<Record>, RunFault>
    ensures ok { IfOk result (λ records. records_in_bytes plan.now bytes.now ≡ Some records.items) }
    ensures refused { IfErr result (IsRecordsFault plan.now bytes.now) }
{
    match read_journal(alloc, bytes, plan.digest(), plan.always_post()) {
        Ok(Some(records)) => Ok(records),
        Ok(None) => Ok(Vec::new(alloc)),
        Err(fault) => Err(in_journal(fault)),
    }
}

/// The core that has these records, which are those of a journal of these bytes.
///
/// # Errors
/// `InManager` with `Foreign` and the slot of the first record that may not follow those before it;
/// `Memory`.
pub(crate) fn core_of<'a>(
    alloc: Global,
    plan: &'a Plan,
    bytes: &[u8],
    records: &[Record],
) -> Result<Core<'a>, RunFault>
    requires { records_in_bytes plan.now bytes.now ≡ Some records.now }
    ensures plan { IfOk result (λ core. core.plan ≡ plan.now) }
    ensures records { IfOk result (λ core. records.now ≡ chronological core.past) }
    ensures refused { IfErr result (IsRecordsFault plan.now bytes.now) }
{
    match replay(alloc, plan, records) {
        Ok(core) => Ok(core),
        Err(ManagerFault::Foreign(place)) => {
            let slot = slot_of(bytes, place as usize);
            Err(RunFault::InManager(ManagerFault::Foreign(slot)))
        }
        Err(_) => Err(RunFault::Memory),
    }
}
