//! What `check`, `check --all` and `rehearse` answer of the files of a folder.
#![tactic(auto)]

ghost use Rattle.std.specs.Prelude.{◌≡◌, None, Some, IfOk, IfErr, string_bytes};
ghost use Rattle.std.specs.Option.{option_map};
ghost use Rattle.dag_main_check.specs.Checked.{IsCheckOf};
ghost use Rattle.fault_list.specs.FaultPlaces.{fault_place};
ghost use Rattle.folder_answers.specs.Answered.{IsCheckOfAllSome, IsCheckOfAllFrom, IsCheckOfSome, IsCheckRefusal, IsCheckRefusalFrom, IsRehearsalOfSome, IsRehearsalRefusal, IsRehearsalRefusalFrom};
ghost use Rattle.dag_main_rehearse.specs.Rehearsed.{IsRehearsalOf};

mod reading;

use crate::reading::all_files_of;
use dag_main_check::{Answer, CheckForm, RunFault, check_text};
use dag_main_files::{Folder, Reading, files_of, read_missing};
use dag_main_rehearse::rehearse_text;
use fault_list::check_all;
use splices_flat::FileSet;
use std::alloc::Global;
use throttles::Limits;

/// How many files are read one by one that came while others were read; far more than a DAG has.
const MOST_COME: usize = 1 << 20;

/// What `check` answers of the DAG file of this path: `ok nodes=N edges=E final=yes` or `final=no`, or the same as JSON, with
/// the warnings of its files.
///
/// # Errors
/// Standard input that is asked for and can't be read (`FileRefused`); the first fault that opening the files meets
/// (`InFiles`), a cycle (`Cycle`), the first fault of the submit files and the texts of jobs, in plan order (`InPlan`);
/// lack of memory.
pub fn check_here<F: Folder>(
    alloc: Global,
    folder: &F,
    top: &str,
    form: CheckForm,
) -> Result<Answer, RunFault>
    ensures checked { IfOk result (λ answer. IsCheckOfSome form top.now
        (string_bytes answer.text) (string_bytes answer.warnings) answer.status) }
    ensures refused { IfErr result (IsCheckRefusal top.now) }
    // It is the answer for what the folder holds, and the refusal too.
    ensures held { F.honest folder.now → IfOk result (λ answer. IsCheckOf form (F.holds folder.now) top.now
        (string_bytes answer.text) (string_bytes answer.warnings) answer.status) }
    ensures refused_held { F.honest folder.now → IfErr result (IsCheckRefusalFrom (F.holds folder.now) top.now) }
{
    let mut files = files_of(alloc, folder, top, Reading::SubmitFilesToo)?;
    for _ in 0..MOST_COME {
        match check_text(alloc, &files, top, form) {
            Ok(answer) => return Ok(answer),
            Err(fault) => read_missing(alloc, folder, &mut files, fault)?,
        }
    }
    Err(RunFault::Memory)
}

/// What `check --all` answers of the DAG file of this path: what `check` does; or, where a line is wrong, no text, as warnings the
/// lines of all faults of lines, in the order in which they are found, and status 125. Each is found once the lines of those before
/// it are empty, in memory alone; at most 100 are.
///
/// # Errors
/// Those of `check_here` that name no line.
pub fn check_all_here<F: Folder>(
    alloc: Global,
    folder: &F,
    top: &str,
    form: CheckForm,
) -> Result<Answer, RunFault>
    ensures checked { IfOk result (λ answer. IsCheckOfAllSome form top.now
        (string_bytes answer.text) (string_bytes answer.warnings) answer.status) }
    ensures refused { IfErr result (IsCheckRefusal top.now) }
    ensures has_no_line { IfErr result (λ fault. fault_place fault ≡ None) }
    // It is the answer for what the folder holds, and the refusal too.
    ensures held { F.honest folder.now → IfOk result (λ answer. IsCheckOfAllFrom form (F.holds folder.now) top.now
        (string_bytes answer.text) (string_bytes answer.warnings) answer.status) }
    ensures refused_held { F.honest folder.now → IfErr result (IsCheckRefusalFrom (F.holds folder.now) top.now) }
{
    let mut found = folder.top(alloc, top)?;
    for _ in 0..MOST_COME {
        let files = all_files_of(alloc, folder, top, found.as_deref())?;
        match check_all(alloc, files, top, form) {
            Ok(answer) => return Ok(answer),
            Err(refusal) => read_missing(alloc, folder, &mut FileSet::new(alloc), refusal)?,
        }
        if found.is_none() {
            found = folder.top(alloc, top)?;
        }
    }
    Err(RunFault::Memory)
}

/// What `rehearse` answers of the DAG file of this path: the report of a run at the outcomes of a table, where
/// there is one, under these limits. Submit files are not read.
///
/// # Errors
/// Standard input that is asked for and can't be read (`FileRefused`); then those of `rehearse_text`.
pub fn rehearse_here<F: Folder>(
    alloc: Global,
    folder: &F,
    top: &str,
    table: Option<&[u8]>,
    limits: Limits,
    always_post: bool,
) -> Result<Answer, RunFault>
    ensures report { IfOk result (λ answer. IsRehearsalOfSome always_post top.now (option_map (λ b. b.now) table.entry) limits
        (string_bytes answer.text) (string_bytes answer.warnings) answer.status) }
    ensures refused { IfErr result (IsRehearsalRefusal always_post top.now (option_map (λ b. b.now) table.entry) limits) }
    // It is that of what the folder holds, and the refusal too.
    ensures held { F.honest folder.now → IfOk result (λ answer. IsRehearsalOf always_post (F.holds folder.now) top.now
        (option_map (λ b. b.now) table.entry) limits (string_bytes answer.text) (string_bytes answer.warnings) answer.status) }
    ensures refused_held { F.honest folder.now
        → IfErr result (IsRehearsalRefusalFrom always_post (F.holds folder.now) top.now (option_map (λ b. b.now) table.entry) limits) }
{
    let mut files = files_of(alloc, folder, top, Reading::SplicesAlone)?;
    for _ in 0..MOST_COME {
        match rehearse_text(alloc, &files, top, table, limits, always_post) {
            Ok(answer) => return Ok(answer),
            Err(fault) => read_missing(alloc, folder, &mut files, fault)?,
        }
    }
    Err(RunFault::Memory)
}
