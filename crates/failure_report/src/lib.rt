//! Why nodes of a run are in error, and for whom others wait: by its records, its log and the files of its
//! jobs.
//!
//! Which nodes are in error, how each of them failed and how many wait for it are values (`failures`), the
//! line of each is made of them, and after it is what is found by looking (`why_text`; as values: `why_found`). Those with one cause
//! are reported once, in groups.
#![tactic(auto)]

mod causes;
mod details;
mod earlier;
mod failed;
mod found;
mod groups;
mod hanging;
mod heads;
mod launches;
mod looking;
mod notes;
mod numbers;
mod quotes;
mod reaching;
mod reported;
mod same;
mod standing;
mod waiting;
mod why;

pub use failed::{Failure, failures};
pub use found::{FailedPhase, Found, FoundNode, why_found};
pub use numbers::{Named, numbers_of};
pub use reaching::reached_from;
pub use why::{Grouping, Surroundings, Why, why_text};
