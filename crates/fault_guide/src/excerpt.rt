//! A line of a file, with a caret below a place of it.

use crate::refusal::SourcePlace;
use std::alloc::AllocError;
use std::str;
use unicode_width::UnicodeWidthChar;

/// How many columns of a line are shown at most.
const WIDTH: usize = 100;

/// How many of them stand before the place, where more do.
const BEFORE: usize = 60;

/// The line of this number, from 1, of a text that is UTF-8.
fn line_of(source: &[u8], number: usize) -> Option<&str> {
    let line = source
        .split(|byte| *byte == b'\n')
        .nth(number.checked_sub(1)?)?;
    str::from_utf8(line).ok()
}

/// What is shown of a character: one that moves the cursor otherwise, or none, is shown as a blank.
fn shown(character: char) -> char {
    match character.width() {
        Some(0) | None => ' ',
        Some(_) => character,
    }
}

/// How many columns what is shown of a character takes.
fn columns(character: char) -> usize {
    shown(character).width().unwrap_or(1)
}

/// A part of a line, and how many of its columns stand before the place.
#[derive(Clone, Copy)]
struct Part {
    /// where its first character is among the bytes of the line
    from: usize,
    caret: usize,
}

/// The part of a line that is shown with a place of so many bytes before it.
fn part_around(line: &str, place: usize) -> Part {
    let mut part = Part { from: 0, caret: 0 };
    for (at, character) in line.char_indices().take_while(|(at, _)| *at < place) {
        part.caret = part.caret.saturating_add(columns(character));
        if part.caret > BEFORE {
            part = Part {
                from: at.saturating_add(character.len_utf8()),
                caret: 0,
            };
        }
    }
    part
}

/// Adds what is shown of a line from a byte on.
fn push_shown(text: &mut String, line: &str, from: usize) -> Result<(), AllocError> {
    let mut taken = 0usize;
    for (at, character) in line.char_indices() {
        if at >= from && taken.saturating_add(columns(character)) <= WIDTH {
            text.push(shown(character))?;
            taken = taken.saturating_add(columns(character));
        }
    }
    Ok(())
}

/// Adds so many blanks.
fn push_blanks(text: &mut String, count: usize) -> Result<(), AllocError> {
    for _ in 0..count {
        text.push(' ')?;
    }
    Ok(())
}

/// Adds the line of a place, after its number, and below it a caret where the place has a column. Of a long
/// line a part around the place is shown. Nothing is added where there is no such line, or it is no text.
///
/// # Errors
/// Lack of memory.
pub(crate) fn push_excerpt(
    text: &mut String,
    source: &[u8],
    place: &SourcePlace<'_>,
) -> Result<(), AllocError> {
    let Some(line) = line_of(source, place.line) else {
        return Ok(());
    };
    let part = part_around(line, place.column.unwrap_or(1).saturating_sub(1));
    let before = text.len();
    write!(text, "    {} | ", place.line)?;
    let margin = text.len().saturating_sub(before);
    push_shown(text, line, part.from)?;
    text.push('\n')?;
    if place.column.is_some() {
        push_blanks(text, margin.saturating_add(part.caret))?;
        text.push_str("^\n")?;
    }
    Ok(())
}
