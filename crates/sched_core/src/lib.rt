//! Runs of a plan as lists of records: which record may follow, what is to be done next, and
//! what each node comes to.
//!
//! The rules are those of the HTCondor manual, DAGMan workflows, as docs/MANUAL.md states them.
#![tactic(auto)]

ghost use Rattle.std.specs.Prelude.{◌≡◌};
ghost use Rattle.sched_core.specs.declared.CoreFault.TheVariants.{Memory};

mod advancing;
pub mod every_run;
pub mod examples;
mod facts;
pub mod laws;
mod nodes;
mod notes;
mod ready;
mod scheduler;
mod states;

use node_machine::Key;
pub use node_machine::{Record, Verdict};
pub use scheduler::Core;
use std::alloc::{AllocError, AllocFailed};
use thiserror::Error;

/// What is to be done next.
#[derive(Clone, Copy, Debug, PartialEq, Eq)]
pub enum Choice {
    /// This phase is to be launched.
    Start(Key),
    /// Something is outstanding, and a limit holds whatever may be launched.
    Wait,
    /// Nothing is outstanding and nothing can be launched: the run ends with this verdict.
    Finish(Verdict),
}

/// Why a call of a core is refused.
#[derive(Clone, Copy, Debug, PartialEq, Eq, Error)]
pub enum CoreFault {
    /// The record may not follow those that are there.
    #[error("C1 NotLawful")]
    NotLawful,
    /// The run is finished: no record follows its Finish.
    #[error("C2 Finished")]
    Finished,
    /// Memory was refused.
    #[error("C3 Memory")]
    Memory,
}

impl From<AllocError> for CoreFault {
    ghost from_gives = { λ _ fault. fault ≡ Memory };

    fn from(_e: AllocError) -> CoreFault {
        CoreFault::Memory
    }
}

impl<T: Drop> From<AllocFailed<T>> for CoreFault {
    ghost from_gives = { λ _ fault. fault ≡ Memory };

    fn from(_e: AllocFailed<T>) -> CoreFault {
        CoreFault::Memory
    }
}
