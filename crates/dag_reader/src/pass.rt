//! A pass over the words of a line by its layout.

ghost use Rattle.std.specs.Prelude.{◌≡◌, []};
ghost use Rattle.dag_reader.specs.LineReader.{left_of, word_of};
ghost use Rattle.dag_reader.specs.Layouts.{state, further, step, may_stop, reading, command_of};
ghost use Rattle.dag_reader.specs.LayoutViews.{HasRow, ending_of, state_of, values_of, Leaves};
ghost use Rattle.dag_reader.specs.Reading.{Gives};

use crate::command::Command;
use crate::fault::{LineFault, ReadFault};
use crate::layout::{Ending, Field, Layout};
use crate::line::LineReader;
use crate::token::Token;
use crate::values::Values;
use std::alloc::Global;

/// How far a line is read: the words that it still wants, and what may come after them.
#[derive(Clone, Copy)]
pub(crate) struct Pass {
    fields: &'static [Field],
    ending: Ending,
}

/// What the words after the first say, in a line of this layout. Whatever the values were before
/// is forgotten.
pub(crate) fn read_by<'a>(
    alloc: Global,
    layout: &Layout,
    line: &mut LineReader<'a>,
    values: &mut Values<'a>,
) -> Result<Command, ReadFault>
    requires { HasRow layout.now }
    ensures { Gives (λ c. c) result
        (command_of layout.now.kind (left_of line.old).words (left_of line.old).end) }
{
    values.clear(alloc);
    fill(alloc, layout, line, values)?;
    Ok(values.command(alloc, layout.kind)?)
}

/// Notes what the words after the first say, each in a place of its own.
fn fill<'a>(
    alloc: Global,
    layout: &Layout,
    line: &mut LineReader<'a>,
    values: &mut Values<'a>,
) -> Result<(), ReadFault>
    ensures { Leaves result (values_of values.new)
        (reading (state layout.now.fields.now (ending_of layout.now.ending) (values_of values.old))
        (left_of line.old).words (left_of line.old).end) }
{
    let mut pass = Pass {
        fields: layout.fields,
        ending: layout.ending,
    };
    while let Some(word) = line.next_word() {
        pass.step(alloc, word, values)?;
    }
    if !pass.may_stop() {
        return Err(ReadFault::Line(LineFault::MissingWord(line.end())));
    }
    Ok(())
}

impl Pass {
    /// Takes the next word.
    fn step<'a>(
        &mut self,
        alloc: Global,
        word: Token<'a>,
        values: &mut Values<'a>,
    ) -> Result<(), ReadFault>
        ensures { Leaves result (state_of self.new (values_of values.new))
            (step (state_of self.old (values_of values.old)) (word_of word.entry)) }
    {
        match self.fields {
            [field, fields @ ..] => {
                values.put(alloc, *field, word)?;
                self.fields = fields;
                Ok(())
            }
            [] => self.further(alloc, word, values),
        }
    }

    /// Takes a word where the line wants no more.
    #[tactic(auto, unfolding(crate::specs::Layouts::further))]
    fn further<'a>(
        &mut self,
        alloc: Global,
        word: Token<'a>,
        values: &mut Values<'a>,
    ) -> Result<(), ReadFault>
        requires { self.old.fields.now ≡ [] }
        ensures { Leaves result (state_of self.new (values_of values.new))
            (further (ending_of self.old.ending) (word_of word.entry) (values_of values.old)) }
    {
        match self.ending {
            Ending::Brackets(brackets) => {
                let Some(bracket) = values.bracket_of(brackets, &word) else {
                    return Err(ReadFault::Line(LineFault::UnexpectedWord(word.span)));
                };
                values.mark(bracket);
                self.fields = bracket.fields();
            }
            Ending::Many(field) => values.put(alloc, field, word)?,
            Ending::Children => {
                if word.is("CHILD") {
                    self.fields = &[Field::Child];
                    self.ending = Ending::Many(Field::Child);
                } else {
                    values.put(alloc, Field::Parent, word)?;
                }
            }
        }
        Ok(())
    }

    /// Whether the line may end.
    fn may_stop(&self) -> bool
        ensures { result ≡ may_stop self.now.fields.now (ending_of self.now.ending) }
    {
        match (self.fields, self.ending) {
            ([], Ending::Brackets(_) | Ending::Many(_)) => true,
            _ => false,
        }
    }
}
