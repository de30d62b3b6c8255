//! The report of a rehearsal.

ghost use Rattle.std.specs.Prelude.{◌≡◌, ◌++◌, List, IfOk, IfErr, string_bytes};
ghost use Rattle.std.specs.Option.{option_map};
ghost use Rattle.node_machine.specs.OutcomeTable.{Entry, SameOutcomes, HasPossibleOutcomes};
ghost use Rattle.splices_flat.specs.FileSet.{bytes_of};
ghost use Rattle.dag_main_check.specs.Warnings.{warning_lines};
ghost use Rattle.dag_main_rehearse.specs.Report.{rescue_part};
ghost use Rattle.dag_main_rehearse.specs.Rehearsed.{HasEntries, IsRehearsalOf, IsRehearsalFault};
ghost use Rattle.dag_main_rehearse.specs.Refusals.{ReportsRun, IsTableFault};
ghost use Rattle.dag_main_rehearse.specs.TooLong.{IsTableRunFault};
ghost use Rattle.dag_main_check.specs.declared.fault.RunFault.TheVariants.{Memory};

use crate::table_runs::run_table;
use dag_main_check::{Answer, RunFault, plan_of, warning_text};
use node_machine::{Table, TableFault, read_table};
use rescue_file::rescue_text;
use run_plan::Plan;
use sched_core::Core;
use splices_flat::FileSet;
use std::alloc::Global;
use throttles::Limits;

/// Rehearses the DAG file of this path and those of its splices, which stand in the file set: runs
/// the nodes at the outcomes of a table under these limits, as a run with children goes, with no child
/// and with its journal in memory.
///
/// `outcomes` is the text of the table; without it each phase ends with Exit 0. The report has a
/// line for each node in plan order, `name STATE attempts=n value=v`, then `result N`, N the exit
/// status, and the text of the rescue file where the run was aborted, a node is not done, or FINAL
/// failed. No submit file is read. With `always_post` the POST script of a node runs after a PRE
/// script that failed, too.
///
/// # Errors
/// The first fault that opening the files meets (`InFiles`), a cycle (`Cycle`), the first bad line
/// of the table (`InTable`), in this order; then more records than the journal of a run has slots (`InManager`
/// of `SlotsFull`); and lack of memory. After a missing file the caller may add it and ask again.
pub fn rehearse_text(
    alloc: Global,
    files: &FileSet,
    path: &str,
    outcomes: Option<&[u8]>,
    limits: Limits,
    always_post: bool,
) -> Result<Answer, RunFault>
    // The report is that of a run, which without abort shows the fates (`laws::calm_reports`).
    ensures report { IfOk result (λ answer. IsRehearsalOf always_post (bytes_of files.now) path.now
        (option_map (λ b. b.now) outcomes.entry) limits
        (string_bytes answer.text) (string_bytes answer.warnings) answer.status) }

    // It is refused only where an input is, where this run needs more slots than there are, or for lack of memory.
    ensures refused { IfErr result (IsRehearsalFault always_post (bytes_of files.now) path.now
        (option_map (λ b. b.now) outcomes.entry) limits) }
{
    let plan = plan_of(alloc, files, path, always_post)?;
    let table = table_of(alloc, outcomes)?;
    rehearse_plan(alloc, &plan, &table, limits)
}

/// The report of a plan at the outcomes of a table.
fn rehearse_plan(
    alloc: Global,
    plan: &Plan,
    table: &Table,
    limits: Limits,
) -> Result<Answer, RunFault>
    requires possible { HasPossibleOutcomes table.now }
    ensures run { IfOk result (λ answer.
        ReportsRun limits plan.now table.now (string_bytes answer.text) answer.status) }
    ensures warnings { IfOk result (λ answer.
        string_bytes answer.warnings ≡ warning_lines plan.now.graph.dag.warnings) }
    ensures refused { IfErr result (IsTableRunFault limits plan.now table.now) }
{
    let run = run_table(alloc, plan, table, limits)?;
    Ok(Answer {
        text: with_rescue(alloc, run.text.as_str(), run.core())?,
        warnings: warning_text(alloc, plan.graph().flat().warnings())?,
        status: run.status,
    })
}

/// The table of a text of outcomes; without a text each phase ends with Exit 0.
fn table_of(alloc: Global, outcomes: Option<&[u8]>) -> Result<Table, RunFault>
    ensures entries { IfOk result (λ table. (entries : List Entry)
        × HasEntries (option_map (λ b. b.now) outcomes.entry) entries × SameOutcomes table entries) }
    ensures possible { IfOk result HasPossibleOutcomes }
    ensures refused { IfErr result (IsTableFault (option_map (λ b. b.now) outcomes.entry)) }
{
    match outcomes {
        None => Ok(Table::empty(alloc)),
        Some(bytes) => match read_table(alloc, bytes) {
            Ok(table) => Ok(table),
            Err(TableFault::Memory) => Err(RunFault::Memory),
            Err(TableFault::BadLine(line)) => { Err(RunFault::InTable(TableFault::BadLine(line))) }
        },
    }
}

/// The text of the rescue file, where one is needed.
fn rescue_part(alloc: Global, core: &Core<'_>) -> Result<String, RunFault>
    ensures ok { IfOk result (λ text. string_bytes text ≡ rescue_part core.now.plan core.now.past) }
    ensures err { IfErr result (λ fault. fault ≡ Memory) }
{
    if !core.needs_rescue() {
        return Ok(String::new(alloc));
    }
    let Ok(marks) = core.marks(alloc) else {
        return Err(RunFault::Memory);
    };
    match rescue_text(alloc, core.plan().graph(), marks.as_slice()) {
        Ok(text) => Ok(text),
        Err(_) => Err(RunFault::Memory),
    }
}

/// What a run prints, and the text of the rescue file after it, where one is needed.
fn with_rescue(alloc: Global, text: &str, core: &Core<'_>) -> Result<String, RunFault>
    ensures ok { IfOk result (λ whole.
        string_bytes whole ≡ text.now ++ rescue_part core.now.plan core.now.past) }
    ensures err { IfErr result (λ fault. fault ≡ Memory) }
{
    let mut whole = String::from_str(alloc, text)?;
    let rescue = rescue_part(alloc, core)?;
    whole.push_str(rescue.as_str())?;
    Ok(whole)
}
