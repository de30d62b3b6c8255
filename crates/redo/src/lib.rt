//! Nodes of a round that are to run again: the rescue file that marks what else is done.
#![tactic(auto)]

mod again;
mod here;
mod marks;
mod numbers;

pub use here::redo_here;
