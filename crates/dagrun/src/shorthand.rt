//! Short words of a command line, which stand for others.

use dag_main_run::processor_count;
use std::alloc::{AllocError, Global};
use std::rt::Files;

/// The short form of `--maxjobs`, as make and ninja have it.
const JOBS: &str = "-j";

/// The word of `-j` that stands for the number of processors.
const PROCESSORS: &str = "cpus";

/// Whether the words call for a command that knows `-j`.
fn takes_jobs(words: &[String]) -> bool {
    match words {
        [_, command, ..] => matches!(command.as_str(), "run" | "rehearse"),
        _ => false,
    }
}

/// `--maxjobs` with this number, which may be that of the processors.
fn jobs_option<R: Files + AllocGlobal>(rt: &R, number: &str) -> Result<String, AllocError> {
    if number != PROCESSORS {
        return format!(in rt.alloc(); "--maxjobs={number}");
    }
    let processors = processor_count(rt).unwrap_or(1);
    format!(in rt.alloc(); "--maxjobs={processors}")
}

/// Takes the number of `-j` out of a word, `-j4`; none where it is no such word.
fn number_behind(word: &str) -> Option<&str> {
    match word.strip_prefix(JOBS) {
        Some("") | None => None,
        number => number,
    }
}

/// The words with `--maxjobs=N` in place of `-j N` and `-jN`; what comes after `--` stays.
fn with_jobs<R: Files + AllocGlobal>(
    rt: &R,
    words: Vec<String>,
) -> Result<Vec<String>, AllocError> {
    let mut read = Vec::new(rt.alloc());
    let (mut is_open, mut wants_number) = (true, false);
    for word in words {
        if wants_number {
            read.push(jobs_option(rt, word.as_str())?)?;
            wants_number = false;
        } else if is_open && word.as_str() == JOBS {
            wants_number = true;
        } else if let (true, Some(number)) = (is_open, number_behind(word.as_str())) {
            read.push(jobs_option(rt, number)?)?;
        } else {
            is_open = is_open && word.as_str() != "--";
            read.push(word)?;
        }
    }
    if wants_number {
        read.push(String::from_str(rt.alloc(), JOBS)?)?;
    }
    Ok(read)
}

/// `version` in place of `--version` and `-V`, where that is all that is asked for.
fn with_version(alloc: Global, words: Vec<String>) -> Result<Vec<String>, AllocError> {
    let is_version = match words.as_slice() {
        [_, word] => matches!(word.as_str(), "--version" | "-V"),
        _ => false,
    };
    let mut read = Vec::new(alloc);
    for word in words {
        if is_version && !read.is_empty() {
            read.push(String::from_str(alloc, "version")?)?;
        } else {
            read.push(word)?;
        }
    }
    Ok(read)
}

/// The words of a command line with those in place of the short ones that these stand for: of a run and of a rehearsal `-j N` is
/// `--maxjobs N`, and `-j cpus` as many as there are processors for this process; `--version` and `-V` are `version`.
///
/// # Errors
/// Lack of memory.
pub(crate) fn spelled_out<R: Files + AllocGlobal>(
    rt: &R,
    words: Vec<String>,
) -> Result<Vec<String>, AllocError> {
    if takes_jobs(words.as_slice()) {
        return with_jobs(rt, words);
    }
    with_version(rt.alloc(), words)
}
