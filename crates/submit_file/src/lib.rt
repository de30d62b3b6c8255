//! Reads a submit description, as the chapter "condor_submit" of the HTCondor manual has it.
#![tactic(auto)]

mod fault;
mod line;
mod lines;
mod placed;
mod submit;

pub use fault::{LineFault, SubmitFault};
pub use placed::{PlacedAssignment, placed_assignments};
pub use submit::{Assignment, Submit, read_submit};
