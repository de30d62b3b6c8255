//! What the files say of a node, and the commands that start the children of its phases.
//!
//! The rules are those of the HTCondor manual, DAGMan workflows and condor_submit, as
//! docs/MANUAL.md states them.
#![tactic(auto)]

mod categories;
mod command;
mod job;
mod launch_spec;
pub mod laws;
mod requests;
mod script;
mod spec;

pub use categories::Categories;
pub use command::{ChildCommand, PhaseFacts};
pub use job::{JobFault, check_universe, job_command};
pub use launch_spec::{Job, Source};
pub use spec::{NodeSpec, retries_of};
