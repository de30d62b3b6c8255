//! What `times` answers.

ghost use Rattle.std.specs.Prelude.{◌≡◌, ◌++◌, false, codes, Some, IfOk, IfErr, option_map, string_bytes};
ghost use Rattle.dag_main_files.specs.Beside.{IsRefusalOf, IsRefusalHeld};
ghost use Rattle.dag_main_files.specs.Opened.{changing, fixed, IsUnreadable};
ghost use Rattle.run_times.specs.Critical.{IsCriticalPath};
ghost use Rattle.run_times.specs.Limits.{AreRoundLimits};
ghost use Rattle.run_plan.specs.Submitted.{bare_plan};
ghost use Rattle.run_times.specs.Rounds.{two_logs};
ghost use Rattle.run_times.specs.declared.form.Form.TheVariants.{Rounds};
ghost use Rattle.run_times.specs.Answered.{log_name_of, old_log_name_of, IsLogBefore, IsShownWith, IsTimes, IsNoTimes};

use crate::critical::{critical_path, marks_of};
use crate::form::Form;
use crate::limits::{has_ended, limits_in};
use crate::picture::picture_text;
use crate::reader::runs_in;
use crate::rounds::{Logs, rounds_text};
use crate::summary::{Round, summary_text};
use crate::table::table_text;
use crate::times_data::times_json;
use dag_main_check::{Answer, RunFault, warning_text};
use dag_main_files::{Folder, bare_plan_here};
use dag_reader::Text;
use std::alloc::{AllocError, Global};

/// When each phase of the last round of the DAG file of this path began, of the files in this folder, and how long
/// it took, by the log that is beside it: a table with a row for each phase, in the order in which they
/// began, a picture, JSON, or a summary of where the time went. Or when each round began of which there is a log, and how long it took, by the log
/// of the round before, too, where it is there.
///
/// # Errors
/// Those of `bare_plan_here`; then a log that is missing, that the system refuses to read or that may be another user's (`FileRefused` with
/// its path), and lack of memory; for rounds then the log of the round before, which may be missing. Submit files are not read.
pub fn times_here<F: Folder>(
    alloc: Global,
    folder: &F,
    top: &str,
    form: Form,
) -> Result<Answer, RunFault>
    ensures answered { IfOk result (λ answer.
        IsTimes changing top.now form (string_bytes answer.text) (string_bytes answer.warnings) answer.status) }
    // These are the files and the logs that the folder holds.
    ensures held { F.honest folder.now → IfOk result (λ answer. IsTimes (fixed (F.holds folder.now)) top.now form
        (string_bytes answer.text) (string_bytes answer.warnings) answer.status) }
    ensures refused { IfErr result (IsNoTimes changing top.now form) }
    // The refusal too is for what the folder holds.
    ensures refused_held { F.honest folder.now → IfErr result (IsNoTimes (fixed (F.holds folder.now)) top.now form) }
{
    let plan = bare_plan_here(alloc, folder, top, false)?;
    let graph = plan.graph();
    let log = log_of(alloc, folder, top)?;
    let before = log_before(alloc, folder, top, form)?;
    let logs = Logs {
        last: log.as_slice(),
        before: before.as_deref(),
    };
    let runs = runs_in(alloc, logs.last)?;
    let path = critical_path(alloc, graph, &runs)?;
    let limits = limits_in(alloc, graph, logs.last)?;
    let round = Round {
        plan: &plan,
        limits: &limits,
        runs: &runs,
        ended: has_ended(logs.last),
    };
    Ok(Answer {
        text: text_of(alloc, &logs, &round, &path, form)?,
        warnings: warning_text(alloc, graph.flat().warnings())?,
        status: 0,
    })
}

/// What is printed of a round, with its critical path, or of these logs, in this form.
fn text_of(
    alloc: Global,
    logs: &Logs<'_>,
    round: &Round<'_>,
    path: &[usize],
    form: Form,
) -> Result<String, AllocError>
    requires plan { round.now.plan.now ≡ bare_plan false round.now.plan.now.graph }
    requires path { IsCriticalPath round.now.plan.now.graph round.now.runs.now path.now }
    requires limits { AreRoundLimits round.now.plan.now.graph round.now.limits.now }
    ensures { IfOk result (λ text. IsShownWith (two_logs logs.now) round.now.plan.now.graph round.now.runs.now path.now form (string_bytes text)) }
{
    let each = marks_of(alloc, path, round.runs.len())?;
    let (runs, marks) = (round.runs, each.as_slice());
    match form {
        Form::Table => table_text(alloc, runs, marks),
        Form::Picture => picture_text(alloc, runs, marks),
        Form::Json => times_json(alloc, runs, marks),
        Form::Summary => summary_text(alloc, round, path),
        Form::Rounds => rounds_text(alloc, logs),
    }
}

/// The bytes of the log beside a DAG file.
fn log_of<F: Folder>(alloc: Global, folder: &F, top: &str) -> Result<Vec<u8>, RunFault>
    ensures held { F.honest folder.now → IfOk result (λ log. F.holds folder.now (log_name_of top.now) ≡ Some log.items) }
    ensures refused { IfErr result (IsRefusalOf (log_name_of top.now)) }
    // A log that is refused isn't held.
    ensures unheld { F.honest folder.now → IfErr result (IsRefusalHeld (F.holds folder.now) (log_name_of top.now)) }
{
    let path = Text::joined(alloc, top, ".log")?;
    if let Some(log) = folder.beside(alloc, path.as_str())? {
        return Ok(log);
    }
    Err(RunFault::FileRefused(String::from_str(alloc, path.as_str())?))
}

/// The bytes of the file beside a DAG file that has this ending after its name, where it is there.
fn file_beside<F: Folder>(
    alloc: Global,
    folder: &F,
    top: &str,
    ending: &str,
) -> Result<Option<Vec<u8>>, RunFault>
    ensures held { F.honest folder.now → IfOk result (λ bytes. option_map (λ b. b.items) bytes ≡ F.holds folder.now (top.now ++ ending.now)) }
    ensures refused { IfErr result (IsRefusalOf (top.now ++ ending.now)) }
    ensures unheld { F.honest folder.now → IfErr result (IsRefusalHeld (F.holds folder.now) (top.now ++ ending.now)) }
{
    let path = Text::joined(alloc, top, ending)?;
    folder.beside(alloc, path.as_str())
}

/// The bytes of the log of the round before, where it is there and rounds are asked for.
fn log_before<F: Folder>(
    alloc: Global,
    folder: &F,
    top: &str,
    form: Form,
) -> Result<Option<Vec<u8>>, RunFault>
    ensures before { IfOk result (λ log. IsLogBefore changing form top.now (option_map (λ b. b.items) log)) }
    ensures held { F.honest folder.now → IfOk result (λ log. IsLogBefore (fixed (F.holds folder.now)) form top.now (option_map (λ b. b.items) log)) }
    ensures refused { IfErr result (λ fault. (form ≡ Rounds) × IsUnreadable changing (old_log_name_of top.now) fault) }
    ensures unheld { F.honest folder.now → IfErr result (λ fault. (form ≡ Rounds) × IsUnreadable (fixed (F.holds folder.now)) (old_log_name_of top.now) fault) }
{
    match form {
        Form::Rounds => file_beside(alloc, folder, top, ".log.old"),
        Form::Table | Form::Picture | Form::Json | Form::Summary => Ok(None),
    }
}
