//! What `report` answers.

ghost use Rattle.std.specs.Prelude.{◌≡◌, IfOk, IfErr, string_bytes};
ghost use Rattle.dag_main_check.specs.declared.fault.RunFault.TheVariants.{Memory};
ghost use Rattle.dag_main_files.specs.Opened.{changing, fixed};
ghost use Rattle.failure_answers.specs.Answered.{IsNoWhy};
ghost use Rattle.report_answers.specs.Answered.{IsPageAnswer, IsReportPage};

use crate::pages::{Wanted, page_of};
use dag_main_check::{Answer, RunFault};
use dag_main_files::{Folder, Place};
use dag_main_inspect::last_round;
use failure_answers::{has_own_log, log_of};
use sched_core::Core;
use std::fs::File;
use std::rt::Files;

/// What is answered of a run.
fn answer_of<R: Files<File = File> + AllocGlobal>(
    rt: &R,
    place: &Place<'_>,
    core: &Core<'_>,
    begun: bool,
    wanted: &Wanted<'_>,
) -> Result<Answer, RunFault>
    ensures answered { IfOk result (λ answer. IsPageAnswer core.now.plan core.now.past place.now.top.now wanted.now.version.now begun wanted.now.reloads
        (string_bytes answer.text) (string_bytes answer.warnings) answer.status) }
    ensures refused { IfErr result (λ fault. fault ≡ Memory) }
{
    let log = log_of(rt, place)?;
    Ok(page_of(rt, place, core, &log, begun, wanted)?)
}

/// A page of the last round of a DAG file, in HTML: by the files and the journal of this folder, and by the log and the files of
/// jobs that the system has at its place. Its rows are those of `status`, and its failures those of `why`.
///
/// # Errors
/// As `why_here`: in this order a journal that the system refuses to read, a number of a rescue file above 999 in its
/// header, a rescue file that the system refuses to read; then a log that may be another user's (`FileRefused`); then
/// those of `status_of`, a fault in a line of the rescue file with its path. Lack of memory may come before any.
pub fn page_here<R: Files<File = File> + AllocGlobal, F: Folder>(
    rt: &R,
    folder: &F,
    place: &Place<'_>,
    wanted: &Wanted<'_>,
    trust_owner: bool,
) -> Result<Answer, RunFault>
    ensures answered { IfOk result (λ answer. IsReportPage changing place.now.top.now wanted.now.version.now wanted.now.reloads
        (string_bytes answer.text) (string_bytes answer.warnings) answer.status) }
    // It is that of the files, the journal and the rescue file that the folder holds.
    ensures held { F.honest folder.now → IfOk result (λ answer.
        IsReportPage (fixed (F.holds folder.now)) place.now.top.now wanted.now.version.now wanted.now.reloads
        (string_bytes answer.text) (string_bytes answer.warnings) answer.status) }
    ensures refused { IfErr result (IsNoWhy changing place.now.top.now) }
    // The refusal too is for what the folder holds.
    ensures refused_held { F.honest folder.now → IfErr result (IsNoWhy (fixed (F.holds folder.now)) place.now.top.now) }
{
    let alloc = rt.alloc();
    let round = last_round(alloc, folder, place.top)?;
    has_own_log(rt, place, trust_owner)?;
    let opened = round.open(alloc, folder, place.top)?;
    let core = opened.core(alloc)?;
    answer_of(rt, place, &core, opened.journal.is_there(), wanted)
}
