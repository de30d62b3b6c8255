//! What is displayed at a terminal after the line of a refusal, and after an answer.
#![tactic(auto)]

mod changes;
mod declared;
mod disks;
mod hints;
mod locks;
mod paths;
mod postscript;
mod reports;
mod seen;
mod workers;

pub use hints::{display_hint, display_hint_of_answer};
pub use postscript::{Postscript, display_postscript};
