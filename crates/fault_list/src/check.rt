//! What `check --all` answers.

ghost use Rattle.std.specs.Prelude.{IfOk, IfErr, string_bytes};
ghost use Rattle.fault_list.specs.LineFaults.{IsCheckOfAll, IsRefusalOfAll};

use crate::faults::{fault_lines, line_faults};
use crate::places::fault_place;
use dag_main_check::{Answer, CheckForm, REFUSED, RunFault, check_text};
use splices_flat::FileSet;
use std::alloc::Global;

/// Checks the DAG file of this path, those of its splices and the submit files of its nodes, which stand in the file set, as
/// `check_text` does, in a form. Where these are refused for a fault that names a line, the answer has no text, status 125, and as warnings
/// the lines of all faults of lines: each found once those before it are empty, at most 100.
///
/// A fault of names (S5, S9, S10, S11) ends the list once a line is empty for another fault, since it may follow from that.
///
/// # Errors
/// Those of `check_text` that name no line, lack of memory among them.
pub fn check_all(
    alloc: Global,
    files: FileSet,
    path: &str,
    form: CheckForm,
) -> Result<Answer, RunFault>
    ensures checked { IfOk result (λ answer. IsCheckOfAll form files path.now
        (string_bytes answer.text) (string_bytes answer.warnings) answer.status) }
    ensures refused { IfErr result (IsRefusalOfAll files path.now) }
{
    let first = match check_text(alloc, &files, path, form) {
        Ok(answer) => return Ok(answer),
        Err(fault) => fault,
    };
    if fault_place(&first).is_none() {
        return Err(first);
    }
    let faults = line_faults(alloc, files, path, first)?;
    Ok(Answer {
        text: String::new(alloc),
        warnings: fault_lines(alloc, faults.as_slice())?,
        status: REFUSED,
    })
}
