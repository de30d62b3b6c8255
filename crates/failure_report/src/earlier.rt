//! How earlier attempts of a node ended, by the log.

use crate::heads::{phase_words, push_ending};
use crate::quotes::{last_lines, push_all_shown};
use log_lines::unquoted;
use node_machine::{Outcome, Phase};
use std::alloc::{AllocError, Global};

/// A phase that did not end well, in an attempt before the one that is reported.
#[derive(Clone, Copy)]
pub(crate) struct EarlierEnd<'a> {
    pub(crate) node: u32,
    pub(crate) attempt: u32,
    pub(crate) phase: Phase,
    pub(crate) outcome: Outcome,
    /// How many seconds it ran.
    pub(crate) seconds: Option<&'a str>,
    /// The end of its error output; each is a value as it is in the log.
    pub(crate) errors: Option<&'a str>,
}

/// How many earlier phases are reported, the newest ones.
const MOST: usize = 5;

/// How many of the last lines of their error output are quoted.
const LINES: usize = 2;

/// Adds the last lines of an error output.
fn push_errors(alloc: Global, text: &mut String, errors: &str) -> Result<(), AllocError> {
    let errors = unquoted(alloc, errors)?;
    let lines = last_lines(alloc, errors.as_str().as_bytes(), false)?;
    for line in lines.iter().skip(lines.len().saturating_sub(LINES)) {
        writeln!(text, "    {line}")?;
    }
    Ok(())
}

/// Adds an earlier phase: in which attempt, how it ended, how long it ran, and the last lines of its error output.
fn push_end(alloc: Global, text: &mut String, end: &EarlierEnd<'_>) -> Result<(), AllocError> {
    let words = phase_words(end.phase);
    let attempt = end.attempt.saturating_add(1);
    write!(text, "earlier  attempt {attempt}: {words} ")?;
    push_ending(text, end.outcome, None)?;
    if let Some(seconds) = end.seconds {
        text.push_str(" after ")?;
        push_all_shown(text, seconds)?;
        text.push_str(" s")?;
    }
    text.push('\n')?;
    match end.errors {
        Some(errors) => push_errors(alloc, text, errors),
        None => Ok(()),
    }
}

/// Adds the phases of a node that did not end well in earlier attempts: the five newest, and how many there were before them.
///
/// # Errors
/// Lack of memory.
pub(crate) fn push_earlier(
    alloc: Global,
    text: &mut String,
    ends: &[EarlierEnd<'_>],
    node: u32,
) -> Result<(), AllocError> {
    let count = ends.iter().filter(|end| end.node == node).count();
    let skipped = count.saturating_sub(MOST);
    if skipped > 0 {
        writeln!(text, "earlier  {skipped} before these")?;
    }
    for end in ends.iter().filter(|end| end.node == node).skip(skipped) {
        push_end(alloc, text, end)?;
    }
    Ok(())
}
