//! Which files are changed since a round began, and what follows from it.

use crate::workers::{NOBODY, worker_of};
use dag_main_files::{Folder, LAST_NUMBER, Place, SystemFolder, read_input, rescue_path};
use event_journal_log::Peek;
use log_lines::push_word;
use round_inputs::{Inputs, Listed, inputs_in, list_file};
use std::alloc::{AllocError, Global};
use std::fs::File;
use std::rt::Files;

/// How many changed files are named.
const MOST_CHANGED: usize = 5;

/// A path as a shell reads it, for a command that is proposed.
pub(crate) fn quoted(alloc: Global, path: &str) -> Result<String, AllocError> {
    let mut text = String::new(alloc);
    push_word(&mut text, path)?;
    Ok(text)
}

/// Whether the file of this path is another one than that with which a round began, or can't be read.
fn is_changed<R: Files + AllocGlobal>(rt: &R, file: &Listed) -> Result<bool, AllocError> {
    let path = file.path.as_str();
    match read_input(rt, path, false) {
        Ok(bytes) => Ok(list_file(rt.alloc(), path, &bytes)?.sum != file.sum),
        Err(_) => Ok(true),
    }
}

/// What the last round of a DAG file was begun with, as the file beside it says; none where that may be another user's.
fn inputs_of<R: Files + AllocGlobal>(rt: &R, dag: &str) -> Option<Inputs> {
    let path = format!(in rt.alloc(); "{dag}.inputs").ok()?;
    let here = Place {
        folder: "",
        top: dag,
    };
    here.trusts(rt, path.as_str(), false).ok()?;
    let bytes = read_input(rt, path.as_str(), false).ok()?;
    inputs_in(rt.alloc(), &bytes).ok()
}

/// Which files are changed since the last round of a DAG file began, at most five of them; nothing where none is, or it is not known.
pub(crate) fn changed_files<R: Files + AllocGlobal>(
    rt: &R,
    dag: &str,
) -> Result<Option<String>, AllocError> {
    let Some(inputs) = inputs_of(rt, dag) else {
        return Ok(None);
    };
    let mut text = String::from_str(rt.alloc(), "changed since the round began")?;
    let mut count = 0usize;
    for file in inputs.files.iter() {
        if is_changed(rt, file)? {
            count = count.saturating_add(1);
            if count <= MOST_CHANGED {
                let front = if count == 1 { ": " } else { ", " };
                write!(text, "{front}{}", file.path.as_str())?;
            }
        }
    }
    if count == 0 {
        return Ok(None);
    }
    if count > MOST_CHANGED {
        write!(text, " and {} more", count - MOST_CHANGED)?;
    }
    Ok(Some(text))
}

/// What the journal of the last round of a DAG file says; none where there is none, or it can't be read.
fn peek_of<R: Files<File = File> + Input + AllocGlobal + Copy + Drop>(
    rt: &R,
    dag: &str,
    trusts_owner: bool,
) -> Option<Peek> {
    let alloc = rt.alloc();
    let here = SystemFolder {
        rt,
        seat: String::new(alloc),
        has_input: false,
        trusts_owner,
    };
    here.journal(alloc, dag).ok()?
}

/// Whether the last round of a DAG file has ended; none where there is none, or its journal can't be read.
pub(crate) fn has_ended<R: Files<File = File> + Input + AllocGlobal + Copy + Drop>(
    rt: &R,
    dag: &str,
    trusts_owner: bool,
) -> Option<bool> {
    let peek = peek_of(rt, dag, trusts_owner)?;
    Some(peek.finished)
}

/// The path of the rescue file by which the next round of a DAG file begins, where one is there of the number that the last round
/// was to write, or of a higher one.
fn rescue_left<R: Files<File = File> + Input + AllocGlobal + Copy + Drop>(
    rt: &R,
    dag: &str,
    number: u16,
) -> Option<String> {
    let here = Place {
        folder: "",
        top: dag,
    };
    let highest = here.highest(rt).ok()?;
    if highest < 1 || highest > LAST_NUMBER || highest < number {
        return None;
    }
    let path = rescue_path(rt.alloc(), dag, highest).ok()?;
    String::from_str(rt.alloc(), path.as_str()).ok()
}

/// How the next round of a DAG file begins, where the last one has ended and was to write the rescue file of this number. It is by a
/// rescue file that is there, with what is done; or anew, unless what is done is kept first.
fn next_round_text<R: Files<File = File> + Input + AllocGlobal + Copy + Drop>(
    rt: &R,
    dag: &str,
    number: u16,
) -> Result<String, AllocError> {
    let alloc = rt.alloc();
    let word = quoted(alloc, dag)?;
    match rescue_left(rt, dag, number) {
        Some(rescue) => format!(in alloc;
            "dagrun run {word} begins the next round by {rescue}, with what is done, and --as-begun shows the last one"
        ),
        None => format!(in alloc;
            "dagrun run {word} begins a new round, dagrun salvage --ended {word} keeps what is done for it, and --as-begun shows the last one; to run nodes of it again, put the files back, call dagrun redo, and change them again"
        ),
    }
}

/// That the DAG file had another path as its last round began, where the file beside it lists none of this path.
fn other_path<R: Files + AllocGlobal>(rt: &R, dag: &str) -> Result<Option<String>, AllocError> {
    let Some(inputs) = inputs_of(rt, dag) else {
        return Ok(None);
    };
    if inputs.files.iter().any(|file| file.path.as_str() == dag) {
        return Ok(None);
    }
    let text = format!(in rt.alloc();
        "the round began with another path of the DAG file, which {dag}.inputs lists: call dagrun with that path"
    )?;
    Ok(Some(text))
}

/// Which files are changed since the last round of a DAG file began, and who works on it; or what keeps what is done, or how the next round
/// begins. Or that the DAG file had another path.
pub(crate) fn changed_since<R: Files<File = File> + Input + AllocGlobal + Copy + Drop>(
    rt: &R,
    dag: &str,
) -> Result<Option<String>, AllocError> {
    let Some(files) = changed_files(rt, dag)? else {
        return other_path(rt, dag);
    };
    let alloc = rt.alloc();
    let worker = worker_of(rt, dag, false)?;
    if worker.as_str() != NOBODY {
        let text = format!(in alloc;
            "{files}; {worker} works on the round, which goes by the files as they were: --as-begun shows it, and the next one goes by what was changed"
        )?;
        return Ok(Some(text));
    }
    let text = match peek_of(rt, dag, false) {
        Some(peek) if peek.finished => {
            let next = next_round_text(rt, dag, peek.next)?;
            format!(in alloc; "{files}; {next}")?
        }
        _ => {
            let word = quoted(alloc, dag)?;
            format!(in alloc;
                "{files}; dagrun salvage {word} keeps what is done, and --as-begun shows the round"
            )?
        }
    };
    Ok(Some(text))
}
