//! The lines of a submit description, those that are continued joined with what is below them.

ghost use Rattle.std.specs.Prelude.{◌≡◌, ◌+◌, ◌<◌, ◌≤◌, ◌∷◌, ℕ, length, IfOk};
ghost use Rattle.std.specs.Str.Lines.{lines};
ghost use Rattle.submit_file.specs.Lines.{is_continued, statements};
ghost use Rattle.submit_file.specs.Fronts.{BeginsWithBlanks, HasBlanks};

use crate::line::{begins_with, is_blank};
use dag_reader::split_line;
use std::alloc::{AllocError, Global};

/// A line joined with those that continue it, how many lines those are together, and the text
/// after them.
#[derive(Drop)]
pub(crate) struct Joined<'a> {
    pub(crate) text: Vec<u8>,
    pub(crate) lines: usize,
    pub(crate) rest: &'a [u8],
}

/// The first line, joined with those that it is continued by.
pub(crate) fn first_statement(alloc: Global, text: &[u8]) -> Result<Joined<'_>, AllocError>
    requires { 0 < length text.now }
    ensures first { IfOk result (λ j. (n : ℕ) → statements n (lines text.now)
        ≡ record { number = n; text = j.text.items } ∷ statements (n + j.lines) (lines j.rest.now)) }
    ensures some { IfOk result (λ j. 0 < j.lines) }
    ensures shorter { IfOk result (λ j. j.lines + length j.rest.now ≤ length text.now) }
{
    let (line, after) = split_line(text);
    let mut joined = Vec::from_slice(alloc, line)?;
    let mut rest = after;
    let mut lines = 1usize;
    // Blanks at the front stay there, whatever is joined: they are gone over once.
    let mut blanks = blanks_end(joined.as_slice(), 0);
    while is_continued(joined.as_slice(), blanks) && !rest.is_empty() {
        let (below, after) = split_line(rest);
        joined.pop();
        joined.extend_from_slice(below)?;
        blanks = blanks_end(joined.as_slice(), blanks);
        rest = after;
        lines += 1;
    }
    if is_continued(joined.as_slice(), blanks) {
        joined.pop();
    }
    Ok(Joined {
        text: joined,
        lines,
        rest,
    })
}

/// How many blanks are at the front of a text whose first `from` bytes are blanks.
fn blanks_end(text: &[u8], from: usize) -> usize
    requires { BeginsWithBlanks from text.now }
    ensures { HasBlanks result text.now }
{
    let mut end = from;
    while end < text.len() && is_blank(text[end]) {
        end += 1;
    }
    end
}

/// Whether a line with so many blanks at its front is continued.
#[tactic(auto, unfolding(crate::specs::Lines::is_continued, crate::specs::Lines::is_comment_line))]
fn is_continued(text: &[u8], blanks: usize) -> bool
    requires { HasBlanks blanks text.now }
    ensures { result ≡ is_continued text.now }
{
    match text.last() {
        Some(last) => *last == b'\\' && !begins_with(b'#', &text[blanks..]),
        None => false,
    }
}
