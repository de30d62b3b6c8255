//! The manager of a run: a core and a journal that agree, record by record.
//!
//! The rules are those of the HTCondor manual, DAGMan workflows, "DAG recovery" and "The rescue
//! DAG", as docs/MANUAL.md states them.
#![tactic(auto)]

mod batches;
mod calls;
pub mod examples;
mod fault;
pub mod laws;
mod manager;
mod seal;

pub use calls::append;
pub use fault::ManagerFault;
pub use manager::Manager;
pub use seal::Sealed;
