//! The report of a run that has ended, by its journal.

ghost use Rattle.std.specs.Prelude.{◌≡◌, IfOk, IfErr, IfSome, IfNone, string_bytes};
ghost use Rattle.std.specs.Option.{option_map};
ghost use Rattle.sched_core.specs.Run.{exit_status};
ghost use Rattle.status_report.specs.Text.{run_text};
ghost use Rattle.dag_main_check.specs.Warnings.{warning_lines};
ghost use Rattle.dag_main_check.specs.declared.fault.RunFault.TheVariants.{Memory};
ghost use Rattle.dag_main_inspect.specs.Statused.{journal_bytes};
ghost use Rattle.dag_main_inspect.specs.Asked.{TellsOfNoRun};
ghost use Rattle.dag_main_inspect.specs.Reported.{HasNotEnded, IsReportSaid};

use crate::round::OpenedRound;
use dag_main_check::{Answer, RunFault, warning_text};
use run_plan::Plan;
use sched_core::Core;
use status_report::run_text;
use std::alloc::Global;

/// What a round printed at its end, and the exit status with which it ended; none where it has not ended.
///
/// # Errors
/// Those of `OpenedRound::core`.
pub(crate) fn report_in(alloc: Global, round: &OpenedRound) -> Result<Option<Answer>, RunFault>
    ensures report { IfOk result (λ answer. IfSome answer (λ answer. IsReportSaid (string_bytes answer.text) (string_bytes answer.warnings) answer.status
        round.now.plan round.now.journal)) }
    ensures none { IfOk result (λ answer. IfNone answer (HasNotEnded round.now.plan (journal_bytes round.now.journal))) }
    ensures refused { IfErr result (TellsOfNoRun round.now.plan round.now.journal) }
{
    let core = round.core(alloc)?;
    if !core.is_over() {
        return Ok(None);
    }
    Ok(Some(report(alloc, &round.plan, &core)?))
}

/// What was printed of a core that is over.
fn report(alloc: Global, plan: &Plan, core: &Core<'_>) -> Result<Answer, RunFault>
    requires { core.now.plan ≡ plan.now }
    ensures text { IfOk result (λ answer. string_bytes answer.text ≡ run_text core.now.plan core.now.past (exit_status core.now.plan core.now.past)) }
    ensures status { IfOk result (λ answer. answer.status ≡ exit_status core.now.plan core.now.past) }
    ensures warnings { IfOk result (λ answer. string_bytes answer.warnings ≡ warning_lines plan.now.graph.dag.warnings) }
    ensures refused { IfErr result (λ fault. fault ≡ Memory) }
{
    let status = core.verdict();
    Ok(Answer {
        text: run_text(alloc, core, status)?,
        warnings: warning_text(alloc, plan.graph().flat().warnings())?,
        status,
    })
}
