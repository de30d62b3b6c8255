//! The rehearsal of a DAG: its run at the outcomes of a table, with no child and no disk; and the replay of a run, whose children take
//! as long as is said.
#![tactic(auto)]

pub mod laws;
mod replays;
mod report;
mod table_runs;
mod timed;
mod timeline;
mod timetable;

pub use replays::{Replay, replay_plan};
pub use report::rehearse_text;
pub use table_runs::{Rehearsal, run_table};
pub use timetable::{Timetable, Timing};
