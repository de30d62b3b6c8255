//! What each node of a run comes to: by a recursion over its parents, and by the journal of a run.
//!
//! The rules are those of the HTCondor manual, DAGMan workflows, as docs/MANUAL.md states them.
#![tactic(auto)]

mod audits;
mod fate;
mod fault;
pub mod laws;
mod predictions;

pub use audits::audit;
pub use fate::Fate;
pub use fault::AuditNo;
pub use predictions::predict;
