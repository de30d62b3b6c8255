//! A run from its first record to its last: a journal that is begun or gone on with, driven to the
//! run's end, the rescue file that it owes, and the end recorded.
#![tactic(auto)]

pub mod laws;
mod leading;
mod rounds;

pub use leading::{RunToEnd, run_to_end};
pub use rounds::{MOST_RECORDS, Start, open_round, run_round};
