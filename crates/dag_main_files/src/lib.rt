//! The files of a DAG on the system's disk: those that its lines name, and its journal, its rescue files and its lock,
//! which stand beside it.
#![tactic(auto)]

mod beside;
mod changes;
mod folder;
mod headers;
mod inputs;
mod loading;
mod locking;
mod opened;
mod owners;
mod rescues;
mod rounds;

pub use beside::{LAST_NUMBER, Place, journal_path, refused, rescue_path};
pub use changes::{Change, Changes, Noted};
pub use folder::{Folder, SystemFolder};
pub use headers::{peek_in, read_fault};
pub use inputs::{MOST_BYTES, read_input};
pub use loading::{Reading, files_of};
pub use locking::Lock;
pub use opened::{bare_plan_here, plan_here, read_missing};
pub use rescues::numbers_above;
pub use rounds::{Journaled, Round, journal_disk, named, rescue_disk, rescue_of, round_of};
