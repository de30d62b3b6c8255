//! What is odd in the files of a DAG though nothing is wrong with them, and what would be otherwise under
//! `condor_submit_dag`: each with the place and with what to write instead.
#![tactic(auto)]

mod commands;
mod counted;
mod findings;
mod hint;
mod job_outputs;
mod jobs;
mod looking;
mod macros;
mod meant;
mod names;
mod notes;
mod opened;
mod outputs;
mod programs;
mod quotes;
mod scripts;
mod shell_path;
mod submit;
mod told;
mod written;

pub use commands::dag_notes;
pub use hint::{Finding, Hint, finding_line};
pub use looking::{folder_of, look_at_folder, look_at_program};
pub use macros::{Reference, references};
pub use meant::{with_meant, with_meant_macros};
pub use names::{CommandNames, command_names};
pub use notes::{comment_notes, submit_notes};
pub use outputs::{Clash, Writer, clashes};
pub use programs::{ProgramState, folder_hint, program_hint, state_by};
pub use quotes::quote_hint;
pub use submit::submit_hints;
pub use told::{Wanted, hints_of};
pub use written::{is_own_ending, written_hint};
