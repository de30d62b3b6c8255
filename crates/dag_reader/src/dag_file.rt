//! The lines of a text, and what each says.

ghost use Rattle.std.specs.Prelude.{◌≡◌, ◌<◌, ◌≤◌, ◌∷◌, length, position, IfOk, IfErr, IsTrue, List, Ok};
ghost use Rattle.std.specs.Str.Lines.{lines, strip_carriage_return};
ghost use Rattle.std.specs.Str.Lossy.{utf8_valid_len};
ghost use Rattle.dag_reader.specs.LineReader.{left_of, word_of};
ghost use Rattle.dag_reader.specs.Lines.{text_len, is_control, ends_with_backslash};
ghost use Rattle.dag_reader.specs.declared.command.Command.{Command};
ghost use Rattle.dag_reader.specs.Grammar.{SayAll, IsFirstBad};
ghost use Rattle.dag_reader.specs.Reading.{Gives, Answers, text_of, said_at, line_at, commands_of, text_at};

use crate::command::{Command, DagFile};
use crate::fault::{LineFault, ReadFault};
use crate::line::LineReader;
use crate::reading::command;
use crate::span::Span;
use crate::token::Token;
use crate::values::Values;
use memchr::memchr;
use std::alloc::Global;
use std::str;

const LONGEST_LINE: usize = 65_536;

/// Reads a DAG file, as the chapter "DAG input file commands" of the HTCondor manual has it.
///
/// Each line is a comment, holds no word, or is one command, those that have no effect here among
/// them. The commands are in the order of the lines.
///
/// # Errors
/// The fault of the first line that is none of these, or `Memory` where memory runs out.
pub fn read_dag(alloc: Global, text: &[u8]) -> Result<DagFile, ReadFault>
    // The lines say what is read.
    ensures found { IfOk result (λ file. SayAll 1 (lines text.now) file.commands.items) }

    // Where the lines say commands, these are read, unless memory runs out.
    ensures only { (cs : List Command) → SayAll 1 (lines text.now) cs → Gives commands_of result (Ok cs) }

    // A fault is that of the first bad line.
    ensures first_bad { IfErr result (λ e. IsFirstBad (lines text.now) e) }

    // The same in one equation.
    ensures exact { Gives commands_of result (text_at text.now) }
{
    read_lines(alloc, text)
}

fn read_lines(alloc: Global, text: &[u8]) -> Result<DagFile, ReadFault>
    ensures { Gives commands_of result (text_at text.now) }
{
    let mut commands = Vec::new(alloc);
    let mut values = Values::new(alloc);
    let mut rest = text;
    let mut number = 1usize;
    while !rest.is_empty() {
        let (line, after) = split_line(rest);
        let said = read_line(alloc, number, line, &mut values)?;
        if let Some(command) = said {
            commands.push(command)?;
        }
        rest = after;
        number += 1;
    }
    Ok(DagFile { commands })
}

/// What one line says, if it says anything.
#[tactic(auto, unfolding(crate::specs::Reading::line_at))]
fn read_line<'a>(
    alloc: Global,
    number: usize,
    bytes: &'a [u8],
    values: &mut Values<'a>,
) -> Result<Option<Command>, ReadFault>
    ensures { Gives (λ c. c) result (line_at number bytes.now) }
{
    let text = line_text(number, bytes)?;
    let mut line = LineReader::new(number, text);
    let Some(first) = line.next_word() else {
        return Ok(None);
    };
    read_words(alloc, text, first, &mut line, values)
}

/// What the words of a line say, whose first is this one and whose text is this.
#[tactic(auto, unfolding(crate::specs::Reading::said_at))]
fn read_words<'a>(
    alloc: Global,
    text: &str,
    first: Token<'a>,
    line: &mut LineReader<'a>,
    values: &mut Values<'a>,
) -> Result<Option<Command>, ReadFault>
    ensures { Gives (λ c. c) result (said_at text.now (word_of first.entry) (left_of line.old)) }
{
    if first.is_comment() {
        return Ok(None);
    }
    if ends_with_backslash(text.as_bytes()) {
        let last = line.last_word(first);
        return Err(ReadFault::Line(LineFault::Unsupported(last.span)));
    }
    Ok(Some(command(alloc, text, first, line, values)?))
}

/// The bytes of a line as a text. The line's number, from 1, is in the fault's span.
///
/// # Errors
/// `TooLong` where the line has over 65,536 bytes, and else `NotText` at the first byte that is a
/// control character other than the tab or begins a sequence that is not UTF-8.
#[tactic(auto, unfolding(crate::specs::Reading::text_of))]
pub fn line_text(number: usize, bytes: &[u8]) -> Result<&str, LineFault>
    ensures { Answers (λ s. s.now) result (text_of number bytes.now) }
{
    if bytes.len() > LONGEST_LINE {
        return Err(LineFault::TooLong(Span {
            line: number,
            start: LONGEST_LINE,
            stop: bytes.len(),
        }));
    }
    let end = text_len(bytes);
    let fault = LineFault::NotText(Span {
        line: number,
        start: end,
        stop: end + 1,
    });
    match str::from_utf8(bytes) {
        Ok(text) => {
            if end == bytes.len() {
                Ok(text)
            } else {
                Err(fault)
            }
        }
        Err(_) => Err(fault),
    }
}

/// How many bytes at the front are text without control characters.
#[tactic(auto, unfolding(crate::specs::Lines::text_len))]
fn text_len(bytes: &[u8]) -> usize
    ensures value { result ≡ text_len bytes.now }
    ensures within { result ≤ utf8_valid_len bytes.now }
    ensures in_line { result ≤ length bytes.now }
{
    let valid = valid_len(bytes);
    first_control(&bytes[..valid]).unwrap_or(valid)
}

/// Where the first control character is.
fn first_control(bytes: &[u8]) -> Option<usize>
    ensures { result ≡ position is_control bytes.now }
{
    bytes.iter().position(|b| is_control(*b))
}

/// How many bytes at the front are UTF-8.
fn valid_len(bytes: &[u8]) -> usize
    ensures value { result ≡ utf8_valid_len bytes.now }
    ensures within { result ≤ length bytes.now }
{
    match str::from_utf8(bytes) {
        Ok(_) => bytes.len(),
        Err(e) => e.valid_up_to(),
    }
}

fn is_control(byte: u8) -> bool
    ensures { result ≡ is_control byte }
{
    (byte < 32 && byte != b'\t') || byte == 127
}

#[tactic(auto, unfolding(crate::specs::Lines::ends_with_backslash))]
fn ends_with_backslash(bytes: &[u8]) -> bool
    ensures value { result ≡ ends_with_backslash bytes.now }
    ensures some { IsTrue result → 0 < length bytes.now }
{
    match bytes {
        [.., last] => *last == b'\\',
        [] => false,
    }
}

/// The first line of a text without its end, and the text after it.
///
/// A line is ended by LF, and a CR just before it belongs to the end. What follows the last LF is
/// a line of its own, if it isn't empty, and a CR at its end is a byte of the line.
pub fn split_line(text: &[u8]) -> (&[u8], &[u8])
    requires { 0 < length text.now }
    ensures first { lines text.now ≡ result.0.now ∷ lines result.1.now }
    ensures shorter { length result.1.now < length text.now }
{
    match memchr(b'\n', text) {
        Some(end) => (without_carriage_return(&text[..end]), &text[end + 1..]),
        None => (text, &text[text.len()..]),
    }
}

fn without_carriage_return(line: &[u8]) -> &[u8]
    ensures { result.now ≡ strip_carriage_return line.now }
{
    match line {
        [front @ .., b'\r'] => front,
        _ => line,
    }
}
