//! Writes, reads and names rescue files, as the chapter "The rescue DAG" of the HTCondor manual
//! has it.
#![tactic(auto)]

mod fault;
pub mod laws;
mod names;
mod reader;
mod text;

pub use fault::RescueFault;
pub use names::{pick_number, rescue_name};
pub use reader::read_rescue;
pub use text::rescue_text;
