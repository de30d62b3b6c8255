//! The faults of lines of the files of a DAG, one after the other.

ghost use Rattle.std.specs.Prelude.{◌≡◌, ◌++◌, ◌<◌, Some, true, is_some, length, IfOk, IfErr, OnOk, string_bytes};
ghost use Rattle.splices_flat.specs.FileSet.{bytes_of};
ghost use Rattle.dag_main_check.specs.declared.fault.RunFault.TheVariants.{Memory};
ghost use Rattle.dag_main_check.specs.Consoles.{refusal_line};
ghost use Rattle.fault_list.specs.FaultPlaces.{fault_place};
ghost use Rattle.fault_list.specs.LineFaults.{AreLineFaults, IsCheckedTo, IsEmptiedAt, fault_lines, most_faults};

use crate::emptying::without_line;
use crate::places::{LinePlace, is_of_names, listed_place};
use dag_main_check::{CheckForm, RunFault, check_text};
use splices_flat::FileSet;
use std::alloc::{AllocError, Global};

/// How many faults are listed at most.
const MOST_FAULTS: usize = 100;

/// The faults of lines of the files of this path, the first of which is this one.
pub(crate) fn line_faults(
    alloc: Global,
    mut files: FileSet,
    path: &str,
    first: RunFault,
) -> Result<Vec<RunFault>, RunFault>
    requires refused { IsCheckedTo (bytes_of files) path.now (Some first) }
    requires placed { is_some (fault_place first) ≡ true }
    ensures faults { IfOk result (λ faults. AreLineFaults path.now true most_faults files faults.items) }
    ensures some { IfOk result (λ faults. 0 < length faults.items) }
    ensures err { IfErr result (λ fault. fault ≡ Memory) }
{
    let mut faults = Vec::new(alloc);
    let mut names_count = true;
    let mut fault = first;
    while faults.len() < MOST_FAULTS {
        let Some(place) = listed_place(&fault, names_count) else {
            return Ok(faults);
        };
        empty_line(alloc, &mut files, place)?;
        names_count = names_count && is_of_names(&fault);
        faults.push(fault)?;
        match refused_for(alloc, &files, path)? {
            Some(next) => fault = next,
            None => return Ok(faults),
        }
    }
    Ok(faults)
}

/// What the files of this path are refused for; none where they are not.
fn refused_for(alloc: Global, files: &FileSet, path: &str) -> Result<Option<RunFault>, RunFault>
    ensures fault { IfOk result (IsCheckedTo (bytes_of files.now) path.now) }
    ensures err { IfErr result (λ fault. fault ≡ Memory) }
{
    match check_text(alloc, files, path, CheckForm::Line) {
        Ok(_) => Ok(None),
        Err(RunFault::Memory) => Err(RunFault::Memory),
        Err(fault) => Ok(Some(fault)),
    }
}

/// Empties a line, with those that continue it. All other lines stay, and all other files.
fn empty_line(alloc: Global, files: &mut FileSet, place: LinePlace<'_>) -> Result<(), AllocError>
    ensures { OnOk result (IsEmptiedAt files.old (place.entry.path.now, place.entry.line) files.new) }
{
    let Some(text) = files.get(place.path) else {
        return Ok(());
    };
    let copy = without_line(alloc, text, place.line)?;
    files.add_owned(alloc, place.path, copy)
}

/// The lines of these faults, each as it is displayed where a command is refused for it.
pub(crate) fn fault_lines(alloc: Global, faults: &[RunFault]) -> Result<String, AllocError>
    ensures { IfOk result (λ text. string_bytes text ≡ fault_lines faults.now) }
{
    let mut text = String::new(alloc);
    for fault in faults {
        push_fault(&mut text, fault)?;
    }
    Ok(text)
}

/// Adds the line of a fault.
fn push_fault(text: &mut String, fault: &RunFault) -> Result<(), AllocError>
    ensures { OnOk result (string_bytes text.new ≡ string_bytes text.old ++ refusal_line fault.now) }
{
    writeln!(text, "dagrun: {fault}")
}
