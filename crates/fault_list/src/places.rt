//! The line that a fault names.

ghost use Rattle.std.specs.Prelude.{◌≡◌};
ghost use Rattle.std.specs.Option.{option_map};
ghost use Rattle.fault_list.specs.FaultPlaces.{dag_place, is_of_names, is_name_fault, listed_place, fault_place};

use dag_main_check::RunFault;
use run_plan::PlanFault;
use splices_flat::DagFault;
use submit_file::SubmitFault;

/// The line of this number, from 1, of the file of this path.
#[derive(Clone, Copy)]
pub(crate) struct LinePlace<'a> {
    pub(crate) path: &'a str,
    pub(crate) line: usize,
}

/// The line of a fault as far as the list has it: a fault of names counts only where asked for.
pub(crate) fn listed_place(fault: &RunFault, names_count: bool) -> Option<LinePlace<'_>>
    ensures { option_map (λ place. (place.path.now, place.line)) result ≡ listed_place names_count fault.now }
{
    if !names_count && is_of_names(fault) {
        return None;
    }
    fault_place(fault)
}

/// The line that a fault names: one of the DAG file, of a splice or of a submit file.
pub(crate) fn fault_place(fault: &RunFault) -> Option<LinePlace<'_>>
    ensures { option_map (λ place. (place.path.now, place.line)) result ≡ fault_place fault.now }
{
    match fault {
        RunFault::InFiles(fault) => dag_place(fault),
        RunFault::InPlan(PlanFault::InSubmit(path, SubmitFault::InLine(line, _))) => {
            Some(LinePlace {
                path: path.as_str(),
                line: *line,
            })
        }
        _ => None,
    }
}

/// The line that a fault of the DAG file or of a splice names.
fn dag_place(fault: &DagFault) -> Option<LinePlace<'_>>
    ensures { option_map (λ place. (place.path.now, place.line)) result ≡ dag_place fault.now }
{
    let (path, span) = match fault {
        DagFault::InFile(path, fault) => (path, fault.span()),
        DagFault::DuplicateName(path, span)
        | DagFault::UnknownNode(path, span)
        | DagFault::FinalInSplice(path, span)
        | DagFault::SpliceSetting(path, span)
        | DagFault::EmptySpliceEdge(path, span)
        | DagFault::FinalSetting(path, span) => (path, *span),
        DagFault::MissingFile(_)
        | DagFault::Loop(_)
        | DagFault::TooDeep(_)
        | DagFault::TooManyNodes => return None,
    };
    Some(LinePlace {
        path: path.as_str(),
        line: span.line,
    })
}

/// Whether a fault is one of names.
pub(crate) fn is_of_names(fault: &RunFault) -> bool
    ensures { result ≡ is_of_names fault.now }
{
    match fault {
        RunFault::InFiles(fault) => is_name_fault(fault),
        _ => false,
    }
}

/// Whether a line names what no line declares, or what can't be there.
fn is_name_fault(fault: &DagFault) -> bool
    ensures { result ≡ is_name_fault fault.now }
{
    match fault {
        DagFault::UnknownNode(_, _)
        | DagFault::SpliceSetting(_, _)
        | DagFault::EmptySpliceEdge(_, _)
        | DagFault::FinalSetting(_, _) => true,
        _ => false,
    }
}
