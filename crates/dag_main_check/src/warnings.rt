//! What commands print.

ghost use Rattle.std.specs.Prelude.{◌≡◌, ◌++◌, OnOk, IfOk, string_bytes};
ghost use Rattle.dag_main_check.specs.Warnings.{warning_line, warning_lines};

use node_machine::Verdict;
use splices_flat::DagWarning;
use std::alloc::{AllocError, Global};

/// What a command prints on standard output and, as warnings, on standard error, and its exit
/// status.
#[derive(Debug, Drop)]
pub struct Answer {
    pub text: String,
    pub warnings: String,
    pub status: Verdict,
}

fn push_warning(text: &mut String, warning: &DagWarning) -> Result<(), AllocError>
    ensures { OnOk result (string_bytes text.new ≡ string_bytes text.old ++ warning_line warning.now) }
{
    match warning {
        DagWarning::Ignored(path, line) => {
            let path = path.as_str();
            writeln!(text, "warning: {path}:{line} ignored")
        }
        DagWarning::Overridden(path, line) => {
            let path = path.as_str();
            writeln!(text, "warning: {path}:{line} overridden")
        }
    }
}

/// The lines of the warnings, each as `warning: FILE:LINE` and what happens to the line.
pub fn warning_text(alloc: Global, warnings: &[DagWarning]) -> Result<String, AllocError>
    ensures { IfOk result (λ text. string_bytes text ≡ warning_lines warnings.now) }
{
    let mut text = String::new(alloc);
    for warning in warnings {
        push_warning(&mut text, warning)?;
    }
    Ok(text)
}
