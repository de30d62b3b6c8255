//! Places in a text.

use std::fmt;

/// A place in a text: the line, from 1, and the bytes of that line from `start` up to `stop`.
///
/// It is displayed as `LINE:COLUMN`, both from 1.
#[derive(Clone, Copy, Debug, PartialEq, Eq)]
pub struct Span {
    pub line: usize,
    pub start: usize,
    pub stop: usize,
}

impl fmt::Display for Span {
    ghost use Rattle.std.specs.Prelude.{Some};
    ghost use Rattle.dag_reader.specs.Fault.{span_text};

    ghost output = { λ span. Some (span_text span) };

    fn fmt<W: fmt::Write>(&self, f: &mut fmt::Formatter<W>) -> fmt::Result {
        let line = self.line;
        // No place is too far right for it.
        let column = self.start as u128 + 1;
        write!(f, "{line}:{column}")
    }
}
