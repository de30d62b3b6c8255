//! What a round was begun with, written as it begins, and read again: `x.dag.inputs`, the sums of its files, and
//! `x.dag.begun`, the files.
#![tactic(auto)]

mod as_begun;
mod begun;
mod fault;
mod inputs;
mod listing;
mod reading;

pub use as_begun::{AsBegun, ByFiles, seen_by};
pub use begun::{Begun, begun_in, begun_text};
pub use fault::BadBytes;
pub use inputs::{Inputs, Listed, inputs_of, inputs_text, list_file};
pub use listing::{MOST_OF_BEGUN, begun_path, inputs_path, write_begun, write_inputs};
pub use reading::inputs_in;
