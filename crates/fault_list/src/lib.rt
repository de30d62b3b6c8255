//! `check --all`: all faults of lines of the files of a DAG.
#![tactic(auto)]

mod check;
mod emptying;
mod faults;
pub mod laws;
mod places;

pub use check::check_all;
