//! One command from the words of a line.

ghost use Rattle.dag_reader.specs.LineReader.{left_of, word_of};
ghost use Rattle.dag_reader.specs.Reading.{Gives, vars_of, command_at};

use crate::command::Command;
use crate::fault::{LineFault, ReadFault};
use crate::layout::layout_of;
use crate::line::LineReader;
use crate::macro_reader::MacroReader;
use crate::pass::read_by;
use crate::token::Token;
use crate::values::Values;
use std::alloc::Global;

/// The command that begins with the word `first`.
#[tactic(auto, unfolding(crate::specs::Reading::command_at))]
pub(crate) fn command<'a>(
    alloc: Global,
    text: &str,
    first: Token<'a>,
    line: &mut LineReader<'a>,
    values: &mut Values<'a>,
) -> Result<Command, ReadFault>
    ensures { Gives (λ c. c) result (command_at text.now (word_of first.entry) (left_of line.old)) }
{
    if first.is_ignored() {
        return Ok(Command::Ignored(first.span));
    }
    if let Some(layout) = layout_of(&first) {
        return read_by(alloc, layout, line, values);
    }
    if first.is("VARS") {
        return vars(alloc, text, line);
    }
    if first.is_left_out() {
        return Err(ReadFault::Line(LineFault::Unsupported(first.span)));
    }
    Err(ReadFault::Line(LineFault::UnknownCommand(first.span)))
}

#[tactic(auto, unfolding(crate::specs::Reading::vars_of))]
fn vars(alloc: Global, text: &str, line: &mut LineReader<'_>) -> Result<Command, ReadFault>
    ensures { Gives (λ c. c) result (vars_of text.now (left_of line.old).words (left_of line.old).end) }
{
    let Some(word) = line.next_word() else {
        return Err(ReadFault::Line(LineFault::MissingWord(line.end())));
    };
    let node = word.node()?;
    let mut ahead = MacroReader::new(text, node.span);
    let placement = ahead.placement();
    let macros = ahead.macros(alloc)?;
    if macros.is_empty() {
        return Err(ReadFault::Line(LineFault::MissingWord(line.end())));
    }
    Ok(Command::Vars {
        node: node.to_target(alloc)?,
        placement,
        macros,
    })
}
