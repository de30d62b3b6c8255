//! A run of a DAG file at a site: a folder with the disks of its journal and of its rescue file, and children; the system's is
//! `SystemFolder`. The program, dagrun, has it beside the calls over texts of dag_main_check and the rehearsals of dag_main_rehearse.
#![tactic(auto)]

mod beginning;
mod halting;
mod launching;
mod progress;
mod rounds;
mod runs;
mod site;
mod status_file;

pub use dag_main_args::RunOptions;
pub use dag_main_check::{Answer, RunFault};
pub use run_progress::{Screen, processor_count};
pub use runs::run_dag;
pub use site::Site;
