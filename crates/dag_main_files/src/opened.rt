//! The plan of the files of a folder: a file that a fault tells of as missing is asked for once more, so that none is
//! missing that the folder holds.

ghost use Rattle.std.specs.Prelude.{◌≡◌, ℕ, List, None, IfOk, IfErr, OnOk};
ghost use Rattle.std.specs.Option.{option_map};
ghost use Rattle.dag_main_files.specs.Folder.{IsReadFrom};
ghost use Rattle.dag_main_files.specs.Opened.{IsStill, changing, fixed, IsOfFiles, IsRefusedFor, HasBarePlan, HasNoGraph, HasPlan, HasNoPlan};

use crate::folder::Folder;
use crate::loading::{Reading, files_of};
use dag_main_check::{RunFault, missing_in, plan_of, plan_with};
use run_plan::Plan;
use splices_flat::FileSet;
use std::alloc::Global;

/// How many files are read one by one that came while others were read; far more than a DAG has.
const MOST_COME: usize = 1 << 20;

/// Reads the file of which a fault tells that it is missing, so that the caller may ask again.
///
/// # Errors
/// The fault, where it tells of none, and where that file is not there; `Memory`.
pub fn read_missing<F: Folder>(
    alloc: Global,
    folder: &F,
    files: &mut FileSet,
    fault: RunFault,
) -> Result<(), RunFault>
    ensures read { F.honest folder.now → (top : List ℕ) → IsReadFrom (F.holds folder.now) top files.old
        → OnOk result (IsReadFrom (F.holds folder.now) top files.new) }
    ensures refused { IfErr result (IsStill (λ _. None) fault) }
    ensures refused_held { F.honest folder.now → IfErr result (IsStill (F.holds folder.now) fault) }
{
    let Some(path) = missing_in(&fault) else {
        return Err(fault);
    };
    match folder.input(alloc, path)? {
        Some(bytes) => {
            files.add_owned(alloc, path, bytes)?;
            Ok(())
        }
        None => Err(fault),
    }
}

/// The plan of the DAG file of this path, with those of its splices and of theirs, with no submit file read. With `always_post` the
/// POST script of a node runs after a PRE script that failed, too.
///
/// # Errors
/// `FileRefused` with `-` where standard input is asked for and can't be read, of a folder in which `-` is standard input; then those of
/// `plan_of` for the files that the folder holds.
pub fn bare_plan_here<F: Folder>(
    alloc: Global,
    folder: &F,
    top: &str,
    always_post: bool,
) -> Result<Plan, RunFault>
    ensures plan { IfOk result (λ plan. IsOfFiles changing top.now (HasBarePlan always_post top.now plan)) }
    // It is the plan of the files that the folder holds, and what is refused is refused for these.
    ensures held { F.honest folder.now → IfOk result (λ plan. IsOfFiles (fixed (F.holds folder.now)) top.now (HasBarePlan always_post top.now plan)) }
    ensures refused { IfErr result (IsRefusedFor changing top.now (HasNoGraph top.now)) }
    ensures refused_held { F.honest folder.now → IfErr result (IsRefusedFor (fixed (F.holds folder.now)) top.now (HasNoGraph top.now)) }
{
    let mut files = files_of(alloc, folder, top, Reading::SplicesAlone)?;
    for _ in 0..MOST_COME {
        match plan_of(alloc, &files, top, always_post) {
            Ok(plan) => return Ok(plan),
            Err(fault) => read_missing(alloc, folder, &mut files, fault)?,
        }
    }
    Err(RunFault::Memory)
}

/// The plan of the DAG file of this path, with those of its splices and of theirs and the submit files of its nodes, and with a rescue
/// file, if there is one. With `always_post` the POST script of a node runs after a PRE script that failed, too.
///
/// # Errors
/// As `bare_plan_here`, but those of `plan_with` for the files that the folder holds.
pub fn plan_here<F: Folder>(
    alloc: Global,
    folder: &F,
    top: &str,
    rescue: Option<&[u8]>,
    always_post: bool,
) -> Result<Plan, RunFault>
    ensures plan { IfOk result (λ plan. IsOfFiles changing top.now (HasPlan always_post top.now (option_map (λ b. b.now) rescue.entry) plan)) }
    // It is the plan of the files that the folder holds, and what is refused is refused for these.
    ensures held { F.honest folder.now → IfOk result (λ plan.
        IsOfFiles (fixed (F.holds folder.now)) top.now (HasPlan always_post top.now (option_map (λ b. b.now) rescue.entry) plan)) }
    ensures refused { IfErr result (IsRefusedFor changing top.now (HasNoPlan top.now (option_map (λ b. b.now) rescue.entry))) }
    ensures refused_held { F.honest folder.now
        → IfErr result (IsRefusedFor (fixed (F.holds folder.now)) top.now (HasNoPlan top.now (option_map (λ b. b.now) rescue.entry))) }
{
    let mut files = files_of(alloc, folder, top, Reading::SubmitFilesToo)?;
    for _ in 0..MOST_COME {
        match plan_with(alloc, &files, top, rescue, always_post) {
            Ok(plan) => return Ok(plan),
            Err(fault) => read_missing(alloc, folder, &mut files, fault)?,
        }
    }
    Err(RunFault::Memory)
}
