//! A line of a text is emptied.

ghost use Rattle.std.specs.Prelude.{◌≡◌, ℕ, ◌∷◌, ◌++◌, List, [], IfOk, OnOk, map, if◌then◌else◌};
ghost use Rattle.std.specs.List.{flat_map};
ghost use Rattle.fault_list.specs.Emptied.{goes_on_below, lines_emptied, lines_in, without_line};
ghost use Rattle.fault_list.specs.Emptying.{with_line_feed, left_by};

use std::alloc::{AllocError, Global};

/// How far the lines of a text are gone over, one of which is emptied with those that continue it.
#[derive(Drop)]
struct Emptying {
    /// How many lines are still above the one that is emptied.
    above: usize,
    /// Whether all are emptied that are to be.
    is_over: bool,
}

impl Emptying {
    /// Goes over the next line, and says whether it is emptied.
    fn empties(&mut self, line: &[u8]) -> bool
        ensures { (below : List (List ℕ)) → left_by self.old (line.now ∷ below)
            ≡ (if result then [] else line.now) ∷ left_by self.new below }
    {
        if self.is_over {
            return false;
        }
        if self.above > 0 {
            self.above -= 1;
            return false;
        }
        self.is_over = !goes_on_below(line);
        true
    }
}

/// Whether a backslash at its end continues a line, also one before a carriage return.
fn goes_on_below(line: &[u8]) -> bool
    ensures { result ≡ goes_on_below line.now }
{
    line.ends_with(b"\\") || line.ends_with(b"\\\r")
}

/// A copy of a text in which the line of this number, from 1, is empty, and with it the lines that continue it. All other
/// lines stay as they are, and keep their numbers.
pub(crate) fn without_line(alloc: Global, text: &[u8], number: usize) -> Result<Vec<u8>, AllocError>
    ensures { IfOk result (λ copy. copy.items ≡ without_line number text.now) }
{
    let lines = lines_of(alloc, text)?;
    let mut copy = joined_without(alloc, lines.as_slice(), number.saturating_sub(1))?;
    // The last line is with_line_feed by nothing.
    copy.pop();
    Ok(copy)
}

/// The lines of a text, each without the line feed at its end.
fn lines_of(alloc: Global, text: &[u8]) -> Result<Vec<&[u8]>, AllocError>
    ensures { IfOk result (λ lines. map (λ line. line.now) lines.items ≡ lines_in text.now) }
{
    text.split(|byte| *byte == b'\n').collect(alloc)
}

/// These lines, each with a line feed, one of them emptied that is below so many others.
fn joined_without(alloc: Global, lines: &[&[u8]], above: usize) -> Result<Vec<u8>, AllocError>
    ensures { IfOk result (λ text. text.items ≡ flat_map with_line_feed (lines_emptied above (map (λ line. line.now) lines.now))) }
{
    let mut text = Vec::new(alloc);
    let mut emptying = Emptying {
        above,
        is_over: false,
    };
    for line in lines {
        let is_emptied = emptying.empties(line);
        push_line(&mut text, line, is_emptied)?;
    }
    Ok(text)
}

/// Adds a line with its line feed, or this alone.
fn push_line(text: &mut Vec<u8>, line: &[u8], is_emptied: bool) -> Result<(), AllocError>
    ensures { OnOk result (text.new.items ≡ text.old.items ++ with_line_feed (if is_emptied then [] else line.now)) }
{
    if !is_emptied {
        text.extend_from_slice(line)?;
    }
    text.push(b'\n')?;
    Ok(())
}
