//! Who works on a DAG file, and how to go on.

use crate::changes::{changed_files, has_ended, quoted};
use dag_main_files::{Place, read_input};
use log_lines::{read_line, whole_lines};
use std::alloc::AllocError;
use std::fs::File;
use std::rt::Files;

/// Who works on a DAG file where no manager does.
pub(crate) const NOBODY: &str = "no manager";

/// The process of the last manager that began to work, by the log of the DAG file of this place; none where it may be
/// another user's, as `Place::trusts` tells it.
pub(crate) fn manager_in_log<R: Files + AllocGlobal>(
    rt: &R,
    place: &Place<'_>,
    trusts_owner: bool,
) -> Option<u32> {
    let dag = place.top;
    let path = format!(in rt.alloc(); "{dag}.log").ok()?;
    place.trusts(rt, path.as_str(), trusts_owner).ok()?;
    let log = read_input(rt, path.as_str(), false).ok()?;
    let lives = whole_lines(&log)
        .rsplit(|byte| *byte == b'\n')
        .filter_map(|line| read_line(line));
    for line in lives {
        if line.event == "life" {
            return line.process;
        }
    }
    None
}

/// Who works on this DAG file: no manager, a process, or a manager of which the log doesn't tell.
pub(crate) fn worker_of<R: Files<File = File> + AllocGlobal>(
    rt: &R,
    dag: &str,
    trusts_owner: bool,
) -> Result<String, AllocError> {
    let alloc = rt.alloc();
    let here = Place {
        folder: "",
        top: dag,
    };
    if !here.is_at_work(rt) {
        return String::from_str(alloc, NOBODY);
    }
    match manager_in_log(rt, &here, trusts_owner) {
        Some(process) => format!(in alloc; "process {process}"),
        None => String::from_str(alloc, "a manager"),
    }
}

/// How to go on, where nobody works on this DAG file and its last round has not ended: otherwise where files are changed since it began.
fn going_on_text<R: Files<File = File> + Input + AllocGlobal + Copy + Drop>(
    rt: &R,
    dag: &str,
    trusts_owner: bool,
    worker: &str,
    are_changed: bool,
) -> Result<String, AllocError> {
    let alloc = rt.alloc();
    if worker != NOBODY || has_ended(rt, dag, trusts_owner) != Some(false) {
        return Ok(String::new(alloc));
    }
    let word = quoted(alloc, dag)?;
    if are_changed {
        return format!(in alloc;
            "; the round was cut short: dagrun salvage {word} keeps what is done"
        );
    }
    format!(in alloc; "; the round was cut short: dagrun run {word} goes on")
}

/// Who works on this DAG file, and on what, and how to go on; then which files are changed since its last round began.
pub(crate) fn standing_text<R: Files<File = File> + Input + AllocGlobal + Copy + Drop>(
    rt: &R,
    dag: &str,
    trusts_owner: bool,
    what: &str,
) -> Result<String, AllocError> {
    let worker = worker_of(rt, dag, trusts_owner)?;
    let changes = changed_files(rt, dag)?;
    let further = going_on_text(rt, dag, trusts_owner, worker.as_str(), changes.is_some())?;
    match changes {
        Some(changes) => format!(in rt.alloc(); "{worker} works on {what}{further}\n{changes}\n"),
        None => format!(in rt.alloc(); "{worker} works on {what}{further}\n"),
    }
}
