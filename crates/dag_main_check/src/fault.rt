//! Why a command is refused.

ghost use Rattle.std.specs.Prelude.{◌≡◌};
ghost use Rattle.dag_main_check.specs.Checked.{in_plan};
ghost use Rattle.dag_main_check.specs.Displayed.{line_in};
ghost use Rattle.dag_main_check.specs.Planned.{in_files, in_graph};
ghost use Rattle.dag_main_check.specs.declared.fault.RunFault.TheVariants.{Memory};

use dag_graph::GraphFault;
use dag_reader::{Text, Texts};
use node_machine::TableFault;
use recovery_manager::ManagerFault;
use rescue_file::RescueFault;
use run_plan::PlanFault;
use splices_flat::{DagFault, SpliceFault};
use std::alloc::{AllocError, AllocFailed};
use std::fmt;
use thiserror::Error;

/// Why a command is refused. It is displayed as `CODE Name detail`, the line that the user reads
/// after `dagrun: `.
#[derive(Drop, Error)]
pub enum RunFault {
    /// The files of the DAG are refused.
    InFiles(DagFault),
    /// A node is its own ancestor: the names of a cycle, each a parent of the next.
    Cycle(Texts),
    /// A submit file, or a text of a node's job, is refused.
    InPlan(PlanFault),
    /// A line of the table of outcomes is not spelled rightly.
    InTable(TableFault),
    /// A line of the rescue file of this path can't be read, or names no node that may be done.
    InRescue(Text, RescueFault),
    /// There is no rescue file of this number: they go from 1 to 999, or the one that is asked for is
    /// missing.
    NotThere(u16),
    /// The run that the journal tells of has not ended, so it can't go back to an earlier round.
    Unfinished,
    /// The journal or the manager of the run refuses.
    InManager(ManagerFault),
    /// Memory was refused for a child.
    StartMemory,
    /// The system refuses the question how a child does.
    WaitFault,
    /// Nothing more was to be launched, and nothing runs any more: what asked for that is this file beside the DAG file, or this option.
    Halted(Text),
    /// The system refuses the file of this path.
    FileRefused(String),
    /// Memory was refused.
    Memory,
}

/// The line of a rescue file that a fault tells of.
fn line_of(fault: &RescueFault) -> Option<usize>
    ensures { result ≡ line_in fault.now }
{
    match fault {
        RescueFault::BadLine(line)
        | RescueFault::UnknownNode(line)
        | RescueFault::FinalDone(line) => Some(*line),
        RescueFault::NotThere(_) | RescueFault::Memory => None,
    }
}

impl fmt::Display for RunFault {
    ghost use Rattle.std.specs.Prelude.{Some};
    ghost use Rattle.dag_main_check.specs.Displayed.{run_fault_text};

    ghost output = { λ fault. Some (run_fault_text fault) };

    fn fmt<W: fmt::Write>(&self, f: &mut fmt::Formatter<W>) -> fmt::Result {
        match self {
            RunFault::InFiles(fault) => write!(f, "{fault}"),
            RunFault::Cycle(names) => write!(f, "G1 Cycle{names}"),
            RunFault::InPlan(fault) => write!(f, "{fault}"),
            RunFault::InTable(fault) => write!(f, "{fault}"),
            RunFault::InRescue(path, fault) => match line_of(fault) {
                Some(line) => write!(f, "{fault} {path}:{line}"),
                None => write!(f, "{fault}"),
            },
            RunFault::NotThere(number) => write!(f, "E4 NotThere {number}"),
            RunFault::Unfinished => write!(f, "E6 Unfinished"),
            RunFault::InManager(fault) => write!(f, "{fault}"),
            RunFault::StartMemory => write!(f, "A1 StartMemory"),
            RunFault::WaitFault => write!(f, "A2 WaitFault"),
            RunFault::Halted(asked) => write!(f, "H1 Halted {asked}"),
            RunFault::FileRefused(path) => write!(f, "X2 FileRefused {path}"),
            RunFault::Memory => write!(f, "X1 Memory"),
        }
    }
}

// A derived one goes over each part; the line that a user reads says as much.
impl fmt::Debug for RunFault {
    fn fmt<W: fmt::Write>(&self, f: &mut fmt::Formatter<W>) -> fmt::Result {
        fmt::Display::fmt(self, f)
    }
}

impl From<SpliceFault> for RunFault {
    ghost from_gives = { λ refusal fault. fault ≡ in_files refusal };

    fn from(refusal: SpliceFault) -> RunFault {
        match refusal {
            SpliceFault::Dag(fault) => RunFault::InFiles(fault),
            SpliceFault::Memory => RunFault::Memory,
        }
    }
}

impl From<GraphFault> for RunFault {
    ghost from_gives = { λ refusal fault. fault ≡ in_graph refusal };

    fn from(refusal: GraphFault) -> RunFault {
        match refusal {
            GraphFault::Cycle(names) => RunFault::Cycle(names),
            GraphFault::Memory => RunFault::Memory,
        }
    }
}

impl From<PlanFault> for RunFault {
    ghost from_gives = { λ refusal fault. fault ≡ in_plan refusal };

    fn from(refusal: PlanFault) -> RunFault {
        if refusal.is_memory() {
            return RunFault::Memory;
        }
        RunFault::InPlan(refusal)
    }
}

impl From<AllocError> for RunFault {
    ghost from_gives = { λ _ fault. fault ≡ Memory };

    fn from(_e: AllocError) -> RunFault {
        RunFault::Memory
    }
}

impl<T: Drop> From<AllocFailed<T>> for RunFault {
    ghost from_gives = { λ _ fault. fault ≡ Memory };

    fn from(_e: AllocFailed<T>) -> RunFault {
        RunFault::Memory
    }
}
