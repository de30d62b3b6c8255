//! The file of which a fault tells that it is missing.

ghost use Rattle.std.specs.Prelude.{◌≡◌};
ghost use Rattle.std.specs.Option.{option_map};
ghost use Rattle.dag_main_check.specs.Missing.{missing_in};

use crate::fault::RunFault;
use run_plan::PlanFault;
use splices_flat::DagFault;

/// The path of the file of which a fault tells that it is missing: the DAG file, that of a splice or a submit file. None for a fault of
/// another kind.
pub fn missing_in(fault: &RunFault) -> Option<&str>
    ensures { option_map (λ path. path.now) result ≡ missing_in fault.now }
{
    match fault {
        RunFault::InFiles(DagFault::MissingFile(path)) => Some(path.as_str()),
        RunFault::InPlan(PlanFault::MissingFile(path)) => Some(path.as_str()),
        _ => None,
    }
}
