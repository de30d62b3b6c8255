//! What `check` answers, with hints and without.

ghost use Rattle.std.specs.Prelude.{◌≡◌, ◌⊎◌, ◌||◌, ◌++◌, Bool, true, IfOk, IfErr, string_bytes};
ghost use Rattle.dag_main_args.specs.Requests.{checks};
ghost use Rattle.folder_answers.specs.Answered.{IsCheckRefusal, IsCheckRefusalFrom};
ghost use Rattle.dagrun.specs.Answered.{check_form, checks_some, checks_in, checks_from, IsCheckWith, IsCheckRefusalHeld, AreHints};

use dag_main_check::{Answer, CheckForm, Console, RunFault};
use dag_main_files::{Folder, Reading, files_of};
use dag_main_run::Screen;
use file_hints::{Wanted, hints_of};
use folder_answers::{check_all_here, check_here};
use std::alloc::Global;
use std::fs::File;
use std::rt::Files;

/// How `check` answers: in a line, or as JSON.
pub(crate) fn check_form(json: bool) -> CheckForm
    ensures { result ≡ check_form json }
{
    if json {
        CheckForm::Json
    } else {
        CheckForm::Line
    }
}

/// What a check of the files of a folder answers in a form: of the first fault, or of all faults of lines.
fn checked<F: Folder>(
    alloc: Global,
    folder: &F,
    dag: &str,
    all: bool,
    form: CheckForm,
) -> Result<Answer, RunFault>
    ensures answered { IfOk result (λ answer. checks_some all form dag.now
        (string_bytes answer.text) (string_bytes answer.warnings) answer.status) }
    ensures held { F.honest folder.now → IfOk result (λ answer. checks_in all form (F.holds folder.now) dag.now
        (string_bytes answer.text) (string_bytes answer.warnings) answer.status) }
    ensures refused { IfErr result (IsCheckRefusal dag.now) }
    ensures refused_held { F.honest folder.now → IfErr result (IsCheckRefusalFrom (F.holds folder.now) dag.now) }
{
    if all {
        check_all_here(alloc, folder, dag, form)
    } else {
        check_here(alloc, folder, dag, form)
    }
}

/// What `check` answers, with hints after its warnings where they are asked for; where all faults of lines are asked for, these.
///
/// # Errors
/// Those of `check_here`, or of `check_all_here`.
pub(crate) fn check<R: Files<File = File> + Screen + AllocGlobal, C: Console, F: Folder>(
    rt: &R,
    console: &mut C,
    folder: &F,
    dag: &str,
    all: bool,
    form: CheckForm,
    wanted: Wanted,
) -> Result<Answer, RunFault>
    ensures answered { IfOk result (λ answer. IsCheckWith (checks_some all form dag.now) (wanted.hints || wanted.condor)
        (string_bytes answer.text) (string_bytes answer.warnings) answer.status) }
    ensures held { F.honest folder.now → IfOk result (λ answer. IsCheckWith (checks_from all form (wanted.hints || wanted.condor) (F.holds folder.now) dag.now) (wanted.hints || wanted.condor)
        (string_bytes answer.text) (string_bytes answer.warnings) answer.status) }
    ensures refused { IfErr result (IsCheckRefusal dag.now) }
    ensures refused_held { F.honest folder.now → IfErr result (IsCheckRefusalHeld (wanted.hints || wanted.condor) (F.holds folder.now) dag.now) }
    ensures hinted { (json : Bool) → C.honest console.new → AreHints (checks dag.now all json (wanted.hints || wanted.condor)) result (C.shown console.old) (C.shown console.new) }
    ensures back { C.honest console.new → C.honest console.old }
{
    if wanted.any() {
        check_with_hints(rt, console, folder, dag, all, form, wanted)
    } else {
        checked(rt.alloc(), folder, dag, all, form)
    }
}

/// The answer to a check of files that are read once, with hints; where it is refused, they are displayed at once, and
/// so before the refusal.
fn check_with_hints<R: Files<File = File> + Screen + AllocGlobal, C: Console, F: Folder>(
    rt: &R,
    console: &mut C,
    folder: &F,
    dag: &str,
    all: bool,
    form: CheckForm,
    wanted: Wanted,
) -> Result<Answer, RunFault>
    ensures checked { IfOk result (λ answer. IsCheckWith (checks_some all form dag.now) true
        (string_bytes answer.text) (string_bytes answer.warnings) answer.status) }
    ensures held { F.honest folder.now → IfOk result (λ answer. IsCheckWith (checks_from all form true (F.holds folder.now) dag.now) true
        (string_bytes answer.text) (string_bytes answer.warnings) answer.status) }
    ensures refused { IfErr result (IsCheckRefusal dag.now) }
    ensures refused_held { F.honest folder.now → IfErr result (IsCheckRefusalHeld true (F.holds folder.now) dag.now) }
    ensures hinted { (json : Bool) → C.honest console.new → AreHints (checks dag.now all json true) result (C.shown console.old) (C.shown console.new) }
    ensures back { C.honest console.new → C.honest console.old }
{
    let alloc = rt.alloc();
    let files = files_of(alloc, folder, dag, Reading::SubmitFilesToo)?;
    let reply = checked(alloc, &files, dag, all, form);
    let hints = match hints_of(rt, &files, dag, wanted) {
        Ok(hints) => hints,
        Err(_) => String::new(alloc),
    };
    match reply {
        Ok(answer) => Ok(with_hints(answer, hints.as_str())),
        Err(fault) => {
            console.warn(hints.as_str());
            Err(fault)
        }
    }
}

/// An answer with hints after its warnings, as far as there is memory for them.
fn with_hints(mut answer: Answer, hints: &str) -> Answer
    ensures text { string_bytes result.text ≡ string_bytes answer.text }
    ensures status { result.status ≡ answer.status }
    ensures warnings { (string_bytes result.warnings ≡ string_bytes answer.warnings ++ hints.now)
        ⊎ (string_bytes result.warnings ≡ string_bytes answer.warnings) }
{
    let _ = answer.warnings.push_str(hints);
    answer
}
