//! Texts as a terminal may show them.

use crate::columns::fits;
use std::alloc::{AllocError, Global};
use unicode_width::UnicodeWidthChar;

/// Adds a byte as `\xHH`.
fn push_byte(text: &mut String, byte: u8) -> Result<(), AllocError> {
    write!(text, "\\x{byte:02x}")
}

/// Adds a character: a control character as `\t`, or its number as `\xHH`.
fn push_character(text: &mut String, character: char) -> Result<(), AllocError> {
    if character == '\t' {
        return text.push_str("\\t");
    }
    match character.width() {
        Some(_) => text.push(character),
        None => write!(text, "\\x{:02x}", u32::from(character)),
    }
}

/// Adds a text, in which control characters stand as `\t` and `\xHH`, so that it is shown in one line and tells the
/// terminal nothing.
///
/// # Errors
/// Lack of memory; a part of it may have been added.
pub(crate) fn push_shown(text: &mut String, shown: &str) -> Result<(), AllocError> {
    for character in shown.chars() {
        push_character(text, character)?;
    }
    Ok(())
}

/// Adds bytes as `push_shown` does their text; those that are none stand as `\xHH`.
///
/// # Errors
/// Lack of memory; a part of it may have been added.
pub(crate) fn push_bytes(text: &mut String, bytes: &[u8]) -> Result<(), AllocError> {
    for chunk in bytes.utf8_chunks() {
        push_shown(text, chunk.valid())?;
        for byte in chunk.invalid() {
            push_byte(text, *byte)?;
        }
    }
    Ok(())
}

/// A text as a terminal may show it.
///
/// # Errors
/// Lack of memory.
pub(crate) fn shown(alloc: Global, text: &str) -> Result<String, AllocError> {
    let mut made = String::new(alloc);
    push_shown(&mut made, text)?;
    Ok(made)
}

/// How many columns a text takes.
pub(crate) fn columns_of(text: &str) -> usize {
    let mut columns = 0usize;
    for character in text.chars() {
        columns = columns.saturating_add(character.width().unwrap_or(0));
    }
    columns
}

/// How many of the first characters of a text take no more columns than this.
fn count_fitting(text: &str, width: usize) -> usize {
    let mut room = width;
    let mut count = 0usize;
    for character in text.chars() {
        let own = character.width().unwrap_or(0);
        if room < own {
            break;
        }
        room -= own;
        count = count.saturating_add(1);
    }
    count
}

/// Adds a text where it takes no more columns than this, and else its beginning and `..`.
///
/// # Errors
/// Lack of memory; a part of it may have been added.
pub(crate) fn push_cut(text: &mut String, shown: &str, width: usize) -> Result<(), AllocError> {
    if fits(shown, width) {
        return text.push_str(shown);
    }
    let count = count_fitting(shown, width.saturating_sub(2));
    for character in shown.chars().take(count) {
        text.push(character)?;
    }
    text.push_str("..")
}
