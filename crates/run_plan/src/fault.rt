//! Why there is no plan, or no command.

ghost use Rattle.std.specs.Prelude.{◌≡◌};
ghost use Rattle.run_plan.specs.PlanAnswers.{is_memory};
ghost use Rattle.run_plan.specs.declared.fault.PlanFault.TheVariants.{Memory};

use dag_reader::Text;
use rescue_file::RescueFault;
use std::alloc::{AllocError, AllocFailed};
use std::fmt;
use submit_file::SubmitFault;
use thiserror::Error;
use vars_macros::MacroFault;

/// Why there is no plan. It is displayed as its code, its name and its place.
#[derive(Error)]
pub enum PlanFault {
    /// There is no submit file of this path.
    MissingFile(Text),

    /// The submit file of this path can't be read.
    InSubmit(Text, SubmitFault),

    /// A text of the job of the node of this name can't be expanded or split.
    InMacro(Text, MacroFault),

    /// The job of this node has no executable, or an empty one.
    NoExecutable(Text),

    /// The job of this node has a universe other than vanilla, local and scheduler.
    BadUniverse(Text),

    /// The rescue file can't be read.
    InRescue(RescueFault),

    /// Memory was refused.
    Memory,
}

// Each function that drops a value calls this; a derived drop would be in each, part by part.
impl Drop for PlanFault {
    fn drop(self) {
        match self {
            PlanFault::MissingFile(_path) => {}
            PlanFault::InSubmit(_path, _fault) => {}
            PlanFault::InMacro(_node, _fault) => {}
            PlanFault::NoExecutable(_node) => {}
            PlanFault::BadUniverse(_node) => {}
            PlanFault::InRescue(_fault) => {}
            PlanFault::Memory => {}
        }
    }
}

impl PlanFault {
    /// Whether memory was refused, and nothing is wrong with the files as far as they were read.
    pub fn is_memory(&self) -> bool
        ensures { result ≡ is_memory self.now }
    {
        match self {
            PlanFault::Memory => true,
            PlanFault::MissingFile(_)
            | PlanFault::InSubmit(_, _)
            | PlanFault::InMacro(_, _)
            | PlanFault::NoExecutable(_)
            | PlanFault::BadUniverse(_)
            | PlanFault::InRescue(_) => false,
        }
    }
}

impl fmt::Display for PlanFault {
    ghost use Rattle.std.specs.Prelude.{Some};
    ghost use Rattle.run_plan.specs.Displayed.{plan_fault_text};

    ghost output = { λ fault. Some (plan_fault_text fault) };

    fn fmt<W: fmt::Write>(&self, f: &mut fmt::Formatter<W>) -> fmt::Result {
        match self {
            PlanFault::MissingFile(path) => write!(f, "P1 MissingFile {path}"),
            PlanFault::InSubmit(path, SubmitFault::InLine(line, fault)) => {
                write!(f, "{fault} {path}:{line}")
            }
            PlanFault::InSubmit(path, fault) => write!(f, "{fault} {path}"),
            PlanFault::InMacro(node, fault) => write!(f, "{fault} {node}"),
            PlanFault::NoExecutable(node) => write!(f, "P4 NoExecutable {node}"),
            PlanFault::BadUniverse(node) => write!(f, "P5 BadUniverse {node}"),
            PlanFault::InRescue(fault) => write!(f, "{fault}"),
            PlanFault::Memory => write!(f, "P7 Memory"),
        }
    }
}

// A derived one goes over each part; the line that a user reads says as much.
impl fmt::Debug for PlanFault {
    fn fmt<W: fmt::Write>(&self, f: &mut fmt::Formatter<W>) -> fmt::Result {
        fmt::Display::fmt(self, f)
    }
}

impl From<AllocError> for PlanFault {
    ghost from_gives = { λ _ fault. fault ≡ Memory };

    fn from(_e: AllocError) -> PlanFault {
        PlanFault::Memory
    }
}

impl<T: Drop> From<AllocFailed<T>> for PlanFault {
    ghost from_gives = { λ _ fault. fault ≡ Memory };

    fn from(_e: AllocFailed<T>) -> PlanFault {
        PlanFault::Memory
    }
}
