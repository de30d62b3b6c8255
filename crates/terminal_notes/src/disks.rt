//! Why a call on a journal or a rescue file was refused.

use crate::seen::{kind_of, other_owner};
use dag_main_files::{Place, read_input};
use log_lines::{read_line, unquoted, whole_lines};
use std::alloc::AllocError;
use std::fs;
use std::rt::Files;

/// What the last line of the log of a DAG file says of a call that the system refused; nothing where the log may be another user's.
fn reason_in_log<R: Files + AllocGlobal>(rt: &R, dag: &str) -> Result<Option<String>, AllocError> {
    let alloc = rt.alloc();
    let path = format!(in alloc; "{dag}.log")?;
    let here = Place {
        folder: "",
        top: dag,
    };
    if here.trusts(rt, path.as_str(), false).is_err() {
        return Ok(None);
    }
    let Ok(log) = read_input(rt, path.as_str(), false) else {
        return Ok(None);
    };
    let Some(last) = whole_lines(&log).rsplit(|byte| *byte == b'\n').next() else {
        return Ok(None);
    };
    match read_line(last) {
        Some(line) if line.event == "stop" => match line.detail("reason") {
            Some(reason) => Ok(Some(unquoted(alloc, reason)?)),
            None => Ok(None),
        },
        _ => Ok(None),
    }
}

/// What a look at the journal of a DAG file finds: it is no regular file, or another user's, who alone may write it.
fn reason_at_journal<R: Files + AllocGlobal>(
    rt: &R,
    dag: &str,
) -> Result<Option<String>, AllocError> {
    let alloc = rt.alloc();
    let path = format!(in alloc; "{dag}.journal")?;
    let Ok(found) = fs::symlink_metadata(rt, path.as_str()) else {
        return Ok(None);
    };
    if let Some(kind) = kind_of(&found) {
        return Ok(Some(format!(in alloc; "{path} is {kind}, no regular file")?));
    }
    match other_owner(rt, &found) {
        Some(user) => Ok(Some(format!(in alloc;
            "{path} belongs to user {user}: have it given to you (chown), with the other files beside {dag}"
        )?)),
        None => Ok(None),
    }
}

/// Why a call on the journal or the rescue file of a DAG file was refused: the log says it, where it could be written.
pub(crate) fn reason_of_disk<R: Files + AllocGlobal>(
    rt: &R,
    dag: &str,
) -> Result<Option<String>, AllocError> {
    match reason_in_log(rt, dag)? {
        Some(reason) => Ok(Some(reason)),
        None => reason_at_journal(rt, dag),
    }
}
