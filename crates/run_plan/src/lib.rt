//! The plan of a run: its nodes in plan order, and what the files say of each.
#![tactic(auto)]

mod digest;
mod fault;
pub mod laws;
mod plan;
mod submitted;

pub use fault::PlanFault;
pub use plan::Plan;
pub use run_plan_node::{ChildCommand, NodeSpec, PhaseFacts};
