//! How far a run is, shown on standard error while it goes on.
//!
//! Nothing that is promised of a run rests on what is shown.
#![tactic(auto)]

mod columns;
mod doomed;
mod errors;
mod failures;
mod line;
mod processors;
mod shown;
mod tally;
mod terminal;
mod watcher;

pub use columns::fits;
pub use errors::ErrorWatcher;
pub use line::{Counts, ProgressLine, RunningNode, line_text, painted};
pub use processors::processor_count;
pub use terminal::{Screen, Way, way_of};
pub use watcher::{ProgressWatcher, Watched};
