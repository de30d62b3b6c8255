//! How a manager begins, with a run or by going on with one after a crash, and what holds of all the
//! lives of a run.
//!
//! The rules are those of the HTCondor manual, DAGMan workflows, "DAG recovery" and "The rescue
//! DAG", as docs/MANUAL.md states them.
#![tactic(auto)]

pub mod examples;
pub mod laws;
mod opening;
mod replays;

pub use opening::{begin, recover};
pub use recovery_manager::{Manager, ManagerFault, Sealed};
pub use replays::replay;
