//! The children of a run: started, waited for, killed; and the run itself, each launch handed over
//! to a starter and each ending recorded as the starter reported it. Two starters are here: one whose children end as a table says,
//! and one over a system that starts them, which it asks for each of them in turn.
//!
//! The rules are those of the HTCondor manual, DAGMan workflows, as docs/MANUAL.md states them.
#![tactic(auto)]

mod driving;
pub mod examples;
mod keys;
pub mod laws;
mod log;
mod polling;
mod records;
mod refusals;
mod rounds;
mod scripted;
mod starter;

pub use child_watcher::Killed;
pub use driving::{DriveFault, RunEnd, drive};
pub use keys::{are_same, key_at};
pub use log::CallLog;
use node_machine::{Key, Outcome};
pub use polling::ProcessStarter;
pub use refusals::{no_answer, no_memory, raise};
pub use rounds::launch_round;
use run_plan_node::ChildCommand;
pub use scripted::{Script, ScriptedStarter};
pub use starter::{Starter, System};
use std::snapshot::Snapshot;
use thiserror::Error;

/// What came of a start.
#[derive(Clone, Copy, Debug, PartialEq, Eq)]
pub enum Started {
    /// The child runs.
    Running,
    /// It could not be started.
    NotStarted,
}

/// A call that was answered. Of a command nothing is kept but for contracts to read.
pub enum Call {
    /// A child was to be started by this command, with this answer.
    Started(Key, Snapshot<ChildCommand>, Started),
    /// A child was reported to have ended.
    Ended(Key, Outcome),
    /// A child was killed.
    Killed(Key),
    /// It was asked whether nothing more is to be launched, and from there on it is so.
    HaltSeen,
}

// Each function that drops a value calls this; a derived drop would be in each, part by part.
impl Drop for Call {
    fn drop(self) {
        match self {
            Call::Started(_, _, _) => {}
            Call::Ended(_, _) => {}
            Call::Killed(_) => {}
            Call::HaltSeen => {}
        }
    }
}

/// Why a call of a starter is refused.
#[derive(Clone, Copy, Debug, PartialEq, Eq, Error)]
pub enum StartFault {
    /// Memory for the child was refused. None was started.
    #[error("A1 StartMemory")]
    StartMemory,
    /// The system refused the question or the wait. The children stay as they were.
    #[error("A2 WaitFault")]
    WaitFault,
    /// No child runs.
    #[error("A4 NoChild")]
    NoChild,
}
