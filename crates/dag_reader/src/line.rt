//! The words of a line, one after the other.

ghost use Rattle.std.specs.Prelude.{◌≡◌, ◌≤◌, ◌<◌, ◌+◌, length};
ghost use Rattle.std.specs.Prelude.{true, false};
ghost use Rattle.std.specs.Str.{IsCharBoundary};
ghost use Rattle.dag_reader.specs.Words.{is_blank, RunEnds};

use crate::span::Span;
use crate::token::Token;

/// A line whose words are read from left to right.
///
/// Words are runs of bytes that are no blanks; blanks are the space and the tab.
#[derive(Drop)]
pub struct LineReader<'a> {
    number: usize,
    text: &'a str,
    at: usize,
    ghost cut: { IsCharBoundary text.now at },
}

impl<'a> LineReader<'a> {
    ghost use Rattle.dag_reader.specs.LineReader.{left_of, word_of, first_left, Takes};
    ghost use Rattle.dag_reader.specs.Words.{last_of};

    /// A line of which no word is read yet. Its number, from 1, is in each word's span.
    pub fn new(number: usize, text: &'a str) -> LineReader<'a>
        ensures { left_of result ≡ first_left number text.now }
    {
        LineReader {
            number,
            text,
            at: 0,
        }
    }

    /// The place of the line's end.
    pub(crate) fn end(&self) -> Span
        ensures { result ≡ (left_of self.now).end }
    {
        Span {
            line: self.number,
            start: self.text.len(),
            stop: self.text.len(),
        }
    }

    /// Takes the next word; none is left at the line's end.
    pub fn next_word(&mut self) -> Option<Token<'a>>
        ensures { Takes result (left_of self.old) (left_of self.new) }
    {
        let bytes = self.text.as_bytes();
        let start = blanks_end(bytes, self.at);
        let stop = word_end(bytes, start);
        if start == stop {
            return None;
        }
        let span = Span {
            line: self.number,
            start,
            stop,
        };
        self.at = stop;
        Some(Token {
            text: &self.text[start..stop],
            span,
        })
    }

    /// The last word of the line, of which `first` was read last.
    pub(crate) fn last_word(&mut self, first: Token<'a>) -> Token<'a>
        ensures { word_of result ≡ last_of (word_of first.entry) (left_of self.old).words }
    {
        let mut last = first;
        while let Some(word) = self.next_word() {
            last = word;
        }
        last
    }
}

/// Where the blanks from `at` on end.
fn blanks_end(bytes: &[u8], at: usize) -> usize
    requires { at ≤ length bytes.now }
    ensures { RunEnds true bytes.now at result }
{
    let mut end = at;
    while end < bytes.len() && is_blank(bytes[end]) {
        end += 1;
    }
    end
}

/// Where the word from `at` on ends.
fn word_end(bytes: &[u8], at: usize) -> usize
    requires { at ≤ length bytes.now }
    ensures { RunEnds false bytes.now at result }
{
    let mut end = at;
    while end < bytes.len() && !is_blank(bytes[end]) {
        end += 1;
    }
    end
}

pub(crate) fn is_blank(byte: u8) -> bool
    ensures { result ≡ is_blank byte }
{
    byte == b' ' || byte == b'\t'
}
