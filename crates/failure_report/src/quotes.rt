//! The last lines of a file, so that a terminal may show them.

use std::alloc::{AllocError, Global};

/// How many lines are quoted.
const LINES: usize = 5;

/// How many characters of a line are quoted.
const WIDTH: usize = 160;

/// What stands for the part of a line that is left out.
const CUT: &str = "[cut]";

/// Adds a character as it may be shown: one that a terminal might obey is escaped.
fn push_shown(text: &mut String, character: char) -> Result<(), AllocError> {
    match character {
        '\t' => text.push_str("\\t"),
        '\r' => text.push_str("\\r"),
        control if control.is_control() => write!(text, "\\x{:02x}", u32::from(control)),
        other => text.push(other),
    }
}

/// Adds the first characters of a line, and a mark where more of them follow.
fn push_front(text: &mut String, line: &str) -> Result<(), AllocError> {
    for character in line.chars().take(WIDTH) {
        push_shown(text, character)?;
    }
    if line.chars().nth(WIDTH).is_some() {
        text.push(' ')?;
        text.push_str(CUT)?;
    }
    Ok(())
}

/// Adds a text as it may be shown.
pub(crate) fn push_all_shown(text: &mut String, words: &str) -> Result<(), AllocError> {
    for character in words.chars() {
        push_shown(text, character)?;
    }
    Ok(())
}

/// A text without the LF at its end.
fn without_end(text: &str) -> &str {
    match text.strip_suffix('\n') {
        Some(body) => body,
        None => text,
    }
}

/// The last lines of the end of a file, each as it may be shown. Where the file begins before these
/// bytes, so may the first of them, which is marked.
///
/// # Errors
/// Lack of memory.
pub(crate) fn last_lines(
    alloc: Global,
    bytes: &[u8],
    begins_before: bool,
) -> Result<Vec<String>, AllocError> {
    let text = String::from_utf8_lossy(alloc, bytes)?;
    let body = without_end(text.as_str());
    let skipped = body.split('\n').count().saturating_sub(LINES);
    let mut shown = Vec::new(alloc);
    for line in body.split('\n').skip(skipped) {
        let mut one = String::new(alloc);
        if begins_before && skipped == 0 && shown.is_empty() {
            one.push_str(CUT)?;
            one.push(' ')?;
        }
        push_front(&mut one, line)?;
        shown.push(one)?;
    }
    Ok(shown)
}
