//! The status text of a run: a line for each node, at any moment.
//!
//! The words are those of HTCondor's manual, DAGMan workflows, "Status information for the DAG in a
//! file", as docs/MANUAL.md states them.
#![tactic(auto)]

pub mod laws;
mod lines;
mod status;

pub use lines::{push_line, reported, run_text, status_text, status_word};
pub use status::{Status, status_at, status_of_state};
