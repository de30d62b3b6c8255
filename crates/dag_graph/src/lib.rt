//! The graph of a DAG: a topological order, or a cycle; parents, children and ancestors.
#![tactic(auto)]

mod climb;
mod cycle;
mod fault;
mod graph;
pub mod laws;
mod names;
mod numbers;
mod order;
mod relatives;
mod search;

pub use fault::GraphFault;
pub use graph::Graph;
pub use search::Search;
