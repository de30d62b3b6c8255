//! The macros of a VARS line, read byte by byte after the node's word.

ghost use Rattle.std.specs.Prelude.{◌≡◌, ◌<◌, ◌≤◌, ◌+◌, IfOk, IfSome, length, drop, position, string_bytes};
ghost use Rattle.std.specs.List.{list_all};
ghost use Rattle.dag_reader.specs.Macros.{is_text, is_macro_start, is_macro_byte, is_macro_name, begins_with_queue, begins_escape, closing_quote, unquoted, place_of, is_ink, ends_name, is_backslash};

use crate::command::{Macro, Macros, Placement};
use crate::fault::{LineFault, ReadFault};
use crate::line::is_blank;
use crate::span::Span;
use crate::token::Token;
use crate::word::Word;
use std::alloc::{AllocError, Global};

/// What is ahead in a line.
#[derive(Clone, Copy)]
pub(crate) struct MacroReader<'a> {
    line: usize,
    text: &'a str,
    at: usize,
    ghost within: { at ≤ length text.now },
}

/// The name of one macro, and its text as it is between the quotes.
#[derive(Clone, Copy)]
pub(crate) struct Pair<'a> {
    name: Token<'a>,
    quoted: Token<'a>,
}

impl<'a> MacroReader<'a> {
    ghost use Rattle.dag_reader.specs.LineReader.{word_of};
    ghost use Rattle.dag_reader.specs.Keywords.{begins_with};
    ghost use Rattle.dag_reader.specs.Reading.{Reads, Answers, Gives};
    ghost use Rattle.dag_reader.specs.MacroReading.{behind, skip_blanks, has_bytes, run_of, after_run, here, is_assigned, placement_ahead, name_ahead, equals_ahead, quoted_ahead, pair_end_ahead, pair_ahead, macros_ahead};
    ghost use Rattle.dag_reader.specs.MacroReader.{ahead_of, pair_of};

    /// What comes after a word of a line.
    pub(crate) fn new(text: &'a str, word: Span) -> MacroReader<'a>
        ensures { ahead_of result ≡ behind word text.now }
    {
        MacroReader {
            line: word.line,
            text,
            at: word.stop.min(text.len()),
        }
    }

    /// The bytes that are ahead.
    fn rest(&self) -> &'a [u8]
        ensures value { result.now ≡ (ahead_of self.now).bytes }
        ensures within { self.now.at + length result.now ≡ length self.now.text.now }
    {
        &self.text.as_bytes()[self.at..]
    }

    fn skip_blanks(&mut self)
        ensures ahead { ahead_of self.new ≡ skip_blanks (ahead_of self.old) }
        ensures text { self.new.text ≡ self.old.text }
    {
        self.at += blanks_len(self.rest());
    }

    /// Passes over blanks, and says whether a byte follows.
    fn has_more(&mut self) -> bool
        ensures ahead { ahead_of self.new ≡ skip_blanks (ahead_of self.old) }
        ensures more { result ≡ has_bytes (ahead_of self.new).bytes }
    {
        self.skip_blanks();
        !self.rest().is_empty()
    }

    /// The next byte's place, or no bytes at the line's end.
    fn here(&self) -> Span
        ensures { result ≡ here (ahead_of self.now) }
    {
        Span {
            line: self.line,
            start: self.at,
            stop: (self.at + 1).min(self.text.len()),
        }
    }

    /// Whether this byte is next.
    fn next_is(&self, byte: u8) -> bool
        ensures { result ≡ begins_with byte (ahead_of self.now).bytes }
    {
        match self.rest() {
            [next, ..] => *next == byte,
            [] => false,
        }
    }

    /// Takes the bytes up to a blank, an equals sign or the line's end.
    fn run(&mut self) -> &'a [u8]
        ensures value { result.now ≡ run_of (ahead_of self.old) }
        ensures ahead { ahead_of self.new ≡ after_run (ahead_of self.old) }
        ensures text { self.new.text ≡ self.old.text }
        ensures line { self.new.line ≡ self.old.line }
        ensures at { self.new.at ≡ self.old.at + length result.now }
    {
        let rest = self.rest();
        let count = name_len(rest);
        self.at += count;
        &rest[..count]
    }

    /// Whether an equals sign is next, after blanks or none.
    fn is_assigned(&self) -> bool
        ensures { result ≡ is_assigned (ahead_of self.now) }
    {
        let mut ahead = *self;
        ahead.skip_blanks();
        ahead.next_is(b'=')
    }

    /// Takes the keyword that says where the macros go, unless an equals sign follows it.
    #[tactic(auto, unfolding(crate::specs::MacroReading::placement_ahead))]
    pub(crate) fn placement(&mut self) -> Placement
        ensures { placement_ahead (ahead_of self.old) ≡ (result, ahead_of self.new) }
    {
        let mut ahead = *self;
        ahead.skip_blanks();
        let word = ahead.run();
        if ahead.is_assigned() {
            return Placement::Prepend;
        }
        if is_text(word, b"PREPEND") {
            *self = ahead;
            return Placement::Prepend;
        }
        if is_text(word, b"APPEND") {
            *self = ahead;
            return Placement::Append;
        }
        Placement::Prepend
    }

    /// Takes a macro's name.
    #[tactic(auto, unfolding(crate::specs::MacroReading::name_ahead))]
    fn name(&mut self) -> Result<Token<'a>, LineFault>
        ensures { Reads word_of result (ahead_of self.new) (name_ahead (ahead_of self.old)) }
    {
        let start = self.at;
        let name = self.run();
        let span = Span {
            line: self.line,
            start,
            stop: self.at,
        };
        if !is_macro_name(name) {
            return Err(LineFault::BadName(span));
        }
        Ok(Token {
            text: &self.text[start..self.at],
            span,
        })
    }

    /// Takes an equals sign, and the blanks before it.
    #[tactic(auto, unfolding(crate::specs::MacroReading::equals_ahead))]
    fn equals(&mut self) -> Result<(), LineFault>
        ensures { Reads (λ _. tt) result (ahead_of self.new) (equals_ahead (ahead_of self.old)) }
    {
        self.skip_blanks();
        if !self.next_is(b'=') {
            return Err(LineFault::BadQuote(self.here()));
        }
        self.at += 1;
        Ok(())
    }

    /// Takes a text between quotes, and the blanks before it. The quotes belong to its span.
    #[tactic(auto, unfolding(crate::specs::MacroReading::quoted_ahead))]
    fn quoted(&mut self) -> Result<Token<'a>, LineFault>
        ensures { Reads word_of result (ahead_of self.new) (quoted_ahead (ahead_of self.old)) }
    {
        self.skip_blanks();
        if !self.next_is(b'"') {
            return Err(LineFault::BadQuote(self.here()));
        }
        let start = self.at + 1;
        let Some(count) = closing_quote(&self.text.as_bytes()[start..]) else {
            return Err(LineFault::BadQuote(self.here()));
        };
        let span = Span {
            line: self.line,
            start: self.at,
            stop: start + count + 1,
        };
        self.at = start + count + 1;
        Ok(Token {
            text: &self.text[start..start + count],
            span,
        })
    }

    /// Sees that a blank or the line's end is next.
    #[tactic(auto, unfolding(crate::specs::MacroReading::pair_end_ahead))]
    fn pair_end(&self) -> Result<(), LineFault>
        ensures { Answers (λ _. tt) result (pair_end_ahead (ahead_of self.now)) }
    {
        match self.rest() {
            [next, ..] if !is_blank(*next) => Err(LineFault::BadQuote(self.here())),
            _ => Ok(()),
        }
    }

    /// Takes `name="text"`.
    #[tactic(auto, unfolding(crate::specs::MacroReading::pair_ahead, crate::specs::MacroReading::pair_end_ahead))]
    fn pair(&mut self) -> Result<Pair<'a>, LineFault>
        ensures { Reads pair_of result (ahead_of self.new) (pair_ahead (ahead_of self.old)) }
    {
        let name = self.name()?;
        self.equals()?;
        let quoted = self.quoted()?;
        self.pair_end()?;
        Ok(Pair { name, quoted })
    }

    /// Takes the macros up to the line's end.
    pub(crate) fn macros(&mut self, alloc: Global) -> Result<Macros, ReadFault>
        ensures { Gives (λ ms. ms) result (macros_ahead (ahead_of self.old)) }
    {
        let mut macros = Macros::new(alloc);
        'pairs: while self.has_more() {
            let pair = self.pair()?;
            macros.push(pair.to_macro(alloc)?)?;
        }
        Ok(macros)
    }
}

impl Pair<'_> {
    ghost use Rattle.dag_reader.specs.MacroReader.{pair_of};

    /// The macro, with texts of its own.
    fn to_macro(&self, alloc: Global) -> Result<Macro, AllocError>
        ensures { IfOk result (λ m. m ≡ pair_of self.now) }
    {
        let text = unquoted(alloc, self.quoted.text)?;
        Ok(Macro {
            name: self.name.to_word(alloc)?,
            text: Word::from_string(text, self.quoted.span),
        })
    }
}

/// How many blanks are at the front.
fn blanks_len(bytes: &[u8]) -> usize
    ensures value { result ≡ place_of is_ink bytes.now }
    ensures within { result ≤ length bytes.now }
{
    first_ink(bytes).unwrap_or(bytes.len())
}

fn first_ink(bytes: &[u8]) -> Option<usize>
    ensures { result ≡ position is_ink bytes.now }
{
    bytes.iter().position(|b| !is_blank(*b))
}

/// How many bytes come before the first blank or equals sign.
fn name_len(bytes: &[u8]) -> usize
    ensures value { result ≡ place_of ends_name bytes.now }
    ensures within { result ≤ length bytes.now }
{
    first_name_end(bytes).unwrap_or(bytes.len())
}

fn first_name_end(bytes: &[u8]) -> Option<usize>
    ensures { result ≡ position ends_name bytes.now }
{
    bytes.iter().position(|b| is_blank(*b) || *b == b'=')
}

/// Whether the bytes are this text, in any case of ASCII letters.
#[tactic(auto, unfolding(crate::specs::Macros::is_text))]
fn is_text(bytes: &[u8], text: &[u8]) -> bool
    ensures { result ≡ is_text text.now bytes.now }
{
    bytes.eq_ignore_ascii_case(text)
}

fn is_macro_start(byte: u8) -> bool
    ensures { result ≡ is_macro_start byte }
{
    byte.is_ascii_alphabetic() || byte == b'_' || byte == b'+'
}

fn is_macro_byte(byte: u8) -> bool
    ensures { result ≡ is_macro_byte byte }
{
    byte.is_ascii_alphanumeric() || byte == b'_' || byte == b'.'
}

fn begins_with_queue(name: &[u8]) -> bool
    ensures { result ≡ begins_with_queue name.now }
{
    name.len() >= 5 && is_text(&name[..5], b"queue")
}

/// Whether the bytes can name a macro.
#[tactic(auto, unfolding(crate::specs::Macros::is_macro_name))]
fn is_macro_name(name: &[u8]) -> bool
    ensures { result ≡ is_macro_name name.now }
{
    match name {
        [first, others @ ..] => {
            is_macro_start(*first) && all_macro_bytes(others) && !begins_with_queue(name)
        }
        [] => false,
    }
}

fn all_macro_bytes(bytes: &[u8]) -> bool
    ensures { result ≡ list_all is_macro_byte bytes.now }
{
    bytes.iter().all(|b| is_macro_byte(*b))
}

/// Whether a backslash before a quote or a backslash is next.
fn begins_escape(bytes: &[u8]) -> bool
    ensures { result ≡ begins_escape bytes.now }
{
    match bytes {
        [b'\\', b'"', ..] => true,
        [b'\\', b'\\', ..] => true,
        _ => false,
    }
}

/// How many bytes come before the first quote that is not escaped.
fn closing_quote(bytes: &[u8]) -> Option<usize>
    ensures value { result ≡ closing_quote bytes.now }
    ensures within { IfSome result (λ n. n < length bytes.now) }
{
    let mut at = 0usize;
    while at < bytes.len() {
        if bytes[at] == b'"' {
            return Some(at);
        }
        at += if begins_escape(&bytes[at..]) { 2 } else { 1 };
    }
    None
}

/// The text between quotes, without the backslashes of its escapes.
fn unquoted(alloc: Global, quoted: &str) -> Result<String, AllocError>
    ensures { IfOk result (λ s. string_bytes s ≡ unquoted quoted.now) }
{
    let mut text = String::new(alloc);
    let mut at = 0usize;
    while at < quoted.len() {
        let start = if begins_escape(&quoted.as_bytes()[at..]) {
            at + 1
        } else {
            at
        };
        let end = plain_end(quoted.as_bytes(), start + 1);
        text.push_str(&quoted[start..end])?;
        at = end;
    }
    Ok(text)
}

/// Where the next backslash is from `at` on, or the end.
fn plain_end(bytes: &[u8], at: usize) -> usize
    requires { at ≤ length bytes.now }
    ensures value { result ≡ at + place_of is_backslash (drop at bytes.now) }
    ensures within { result ≤ length bytes.now }
{
    at + plain_len(&bytes[at..])
}

/// How many bytes come before the first backslash.
fn plain_len(bytes: &[u8]) -> usize
    ensures value { result ≡ place_of is_backslash bytes.now }
    ensures within { result ≤ length bytes.now }
{
    first_backslash(bytes).unwrap_or(bytes.len())
}

fn first_backslash(bytes: &[u8]) -> Option<usize>
    ensures { result ≡ position is_backslash bytes.now }
{
    bytes.iter().position(|b| *b == b'\\')
}
