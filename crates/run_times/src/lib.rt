//! When each phase of a run began, how long it took, and which phases the end of the run waited for: by the log of a
//! round, docs/LOG.md.
#![tactic(auto)]

mod bars;
mod canvas;
mod classes;
mod critical;
mod form;
mod gains;
mod here;
mod kinds;
pub mod laws;
mod limits;
mod load;
mod names;
mod parts;
mod picture;
mod reader;
mod rounds;
mod runs;
mod slots;
mod soonest;
mod style;
mod summary;
mod table;
mod ticks;
mod times_data;
mod unlimited;

pub use form::Form;
pub use here::times_here;
pub use limits::{Counted, Limit, limits_in, most_counted};
pub use reader::runs_in;
pub use rounds::{Logs, rounds_text};
pub use runs::{Ending, PhaseRun};
pub use table::table_text;
pub use times_data::times_json;
