//! The run of a plan at the outcomes of a table.

ghost use Rattle.std.specs.Prelude.{◌≡◌, ◌⊎◌, [], ◌∷◌, IfOk, IfErr, string_bytes};
ghost use Rattle.node_machine.specs.OutcomeTable.{HasPossibleOutcomes};
ghost use Rattle.sched_core.specs.Run.{exit_status};
ghost use Rattle.recovery_manager.specs.Managed.{plan_of, past_of};
ghost use Rattle.job_starter_drive.specs.Drives.{limits_of};
ghost use Rattle.status_report.specs.Text.{run_text};
ghost use Rattle.event_journal_log.specs.Journal.{journal_count, journal_limit};
ghost use Rattle.job_starter_drive.specs.declared.driving.DriveFault.TheVariants as drives;
ghost use Rattle.dag_main_rehearse.specs.Rehearsal.{IsRehearsed};
ghost use Rattle.dag_main_rehearse.specs.TooLong.{most_slots, no_slot, IsTableRunFault};
ghost use Rattle.dag_main_check.specs.declared.fault.RunFault.TheVariants.{InManager, Memory};

use dag_main_check::RunFault;
use event_journal::MemDisk;
use event_journal_log::JournalFault;
use job_starter_drive::{DriveFault, Script, ScriptedStarter};
use node_machine::{Record, Table, Verdict};
use recovery_manager::{Manager, ManagerFault};
use run_plan::Plan;
use run_round::{MOST_RECORDS, run_to_end};
use sched_core::Core;
use std::alloc::Global;
use throttles::Limits;

/// The bytes of a journal of as many slots, with its header and its last gate.
pub(crate) const CAPACITY: usize = 65 + 32 * (MOST_RECORDS as usize);

/// A run that was led to its end: its manager, what it prints, and its exit status.
pub struct Rehearsal<'a> {
    pub(crate) manager: Manager<'a, MemDisk>,
    pub(crate) text: String,
    pub(crate) status: Verdict,
}

// Each function that drops a value calls this; a derived drop would be in each, part by part.
impl Drop for Rehearsal<'_> {
    fn drop(self) {
        let Rehearsal {
            manager: _,
            text: _,
            status: _,
        } = self;
    }
}

impl<'a> Rehearsal<'a> {
    /// The core, with the records of the run.
    pub fn core(&self) -> &Core<'a>
        ensures { result.now ≡ self.now.manager.core }
    {
        self.manager.core()
    }
}

/// A run that has begun, with its journal in memory.
pub(crate) fn begin<'a>(
    alloc: Global,
    plan: &'a Plan,
    limits: Limits,
) -> Result<Manager<'a, MemDisk>, RunFault>
    ensures plan { IfOk result (λ manager. plan_of manager ≡ plan.now) }
    ensures limits { IfOk result (λ manager. limits_of manager ≡ limits) }
    ensures past { IfOk result (λ manager. past_of manager ≡ Record.Life ∷ []) }
    ensures slots { IfOk result (λ manager. journal_limit manager.journal ≡ most_slots) }
    ensures count { IfOk result (λ manager. journal_count manager.journal ≡ 1) }
    ensures err { IfErr result (λ fault. fault ≡ Memory) }
{
    let journal = MemDisk::new(alloc, CAPACITY);
    match recovery::begin(alloc, journal, plan, 0, 1, MOST_RECORDS, limits) {
        Ok(manager) => Ok(manager),
        Err((_journal, _fault)) => Err(RunFault::Memory),
    }
}

/// What is returned for a run that was stopped: that it has more records than its journal has slots; else memory was refused, since a
/// rehearsal and a replay want nothing else.
pub(crate) fn told(fault: DriveFault) -> RunFault
    ensures { (result ≡ Memory) ⊎ ((fault ≡ drives.Manager no_slot) × (result ≡ InManager no_slot)) }
{
    match fault {
        DriveFault::Manager(ManagerFault::Journal(JournalFault::SlotsFull)) => {
            RunFault::InManager(ManagerFault::Journal(JournalFault::SlotsFull))
        }
        _ => RunFault::Memory,
    }
}

/// The script by which children end in the order of their starts, and no call is refused.
fn in_order(alloc: Global) -> Script
    ensures { result.places.items ≡ [] }
{
    Script {
        places: Vec::new(alloc),
        failing_start: None,
        failing_wait: None,
        lets_go: false,
    }
}

/// Runs a plan at the outcomes of a table, as a run with children goes, but with its journal in memory
/// and children that the table stands for: whatever may be launched and is let in by the limits is
/// launched, the greatest priority first and then in plan order; where nothing more is let in, the child
/// that was started first ends as the table says. The job of a NOOP ends at once, and so does a phase
/// whose child the table says can't be started.
///
/// # Errors
/// `InManager` of `SlotsFull`, where the run has more records than its journal has slots, 2^24; `Memory`, wherever in
/// the run it was refused.
pub fn run_table<'a>(
    alloc: Global,
    plan: &'a Plan,
    table: &Table,
    limits: Limits,
) -> Result<Rehearsal<'a>, RunFault>
    requires possible { HasPossibleOutcomes table.now }
    ensures plan { IfOk result (λ run. plan_of run.manager ≡ plan.now) }
    ensures run { IfOk result (λ run. IsRehearsed limits plan.now table.now (past_of run.manager)) }
    ensures text { IfOk result (λ run.
        string_bytes run.text ≡ run_text plan.now (past_of run.manager) run.status) }
    ensures status { IfOk result (λ run. run.status ≡ exit_status plan.now (past_of run.manager)) }
    ensures refused { IfErr result (IsTableRunFault limits plan.now table.now) }
{
    let mut manager = begin(alloc, plan, limits)?;
    let mut starter = ScriptedStarter::new(alloc, plan, table, in_order(alloc));
    let rescue = MemDisk::new(alloc, CAPACITY);
    match run_to_end(alloc, &mut manager, plan, &mut starter, rescue) {
        Ok(led) => Ok(Rehearsal {
            manager,
            text: led.text,
            status: led.status,
        }),
        Err((_rescue, fault)) => Err(told(fault)),
    }
}
