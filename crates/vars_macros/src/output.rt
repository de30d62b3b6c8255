//! What an expansion has written and counted.

ghost use Rattle.std.specs.Prelude.{◌≡◌, ◌∷◌, ◌≤◌, [], map, false, vec_len, Ok};
ghost use Rattle.std.specs.Str.{IsUtf8};
ghost use Rattle.vars_macros.specs.Answers.{Gives};
ghost use Rattle.vars_macros.specs.Expansion.{no_tally, finished, Wrote, Replaced};

use crate::fault::MacroFault;
use crate::machine::Event;
use dag_reader::Text;
use std::alloc::Global;
use std::str;

/// How many bytes a text may stand for.
pub(crate) const LONGEST_TEXT: usize = 65_536;

const MOST_REFERENCES: usize = 65_536;

/// What a text stands for. `whole_run` says that a reference was replaced by what is known in a
/// whole run alone.
#[derive(Debug, Drop)]
pub struct Expanded {
    pub text: Text,
    pub whole_run: bool,
}

/// What was written and counted so far.
#[derive(Drop)]
pub(crate) struct Output {
    written: Vec<u8>,
    replaced: usize,
    whole: bool,
    ghost short: { vec_len written ≤ 65536 },
}

impl Output {
    ghost use Rattle.vars_macros.specs.Output.{expansion_of, tally_of, Counts};
    ghost use Rattle.vars_macros.specs.Machine.{event_of};

    /// Nothing yet.
    pub(crate) fn new(alloc: Global) -> Output
        ensures { tally_of result ≡ no_tally }
    {
        Output {
            written: Vec::new(alloc),
            replaced: 0,
            whole: false,
        }
    }

    /// Counts what is met.
    pub(crate) fn count(&mut self, event: Event<'_>) -> Result<(), MacroFault>
        ensures { Counts result (tally_of self.old) (event_of event.entry) (tally_of self.new) }
    {
        match event {
            Event::Byte(byte) => {
                if self.written.len() >= LONGEST_TEXT {
                    return Err(MacroFault::TooLong);
                }
                self.written.push(byte)?;
                Ok(())
            }
            Event::Fixed { whole, text } => {
                self.replace(whole)?;
                self.write(text)
            }
            Event::Opened => self.replace(false),
            Event::Refused(fault) => Err(fault),
        }
    }

    /// Counts a reference.
    fn replace(&mut self, whole: bool) -> Result<(), MacroFault>
        ensures { Counts result (tally_of self.old) (Replaced whole ∷ []) (tally_of self.new) }
    {
        if self.replaced >= MOST_REFERENCES {
            return Err(MacroFault::TooLong);
        }
        self.replaced += 1;
        self.whole |= whole;
        Ok(())
    }

    /// Writes a text as it is.
    fn write(&mut self, text: &[u8]) -> Result<(), MacroFault>
        ensures { Counts result (tally_of self.old) (map Wrote text.now) (tally_of self.new) }
    {
        if text.len() > LONGEST_TEXT - self.written.len() {
            return Err(MacroFault::TooLong);
        }
        self.written.extend_from_slice(text)?;
        Ok(())
    }

    /// What was written, as a text.
    pub(crate) fn finish(self, alloc: Global) -> Result<Expanded, MacroFault>
        requires { IsUtf8 self.written.items }
        ensures { Gives expansion_of result (Ok (finished (tally_of self))) }
    {
        let whole_run = self.whole;
        let text = text_of(alloc, self.written.as_slice())?;
        Ok(Expanded { text, whole_run })
    }
}

/// The bytes as a text.
pub(crate) fn text_of(alloc: Global, bytes: &[u8]) -> Result<Text, MacroFault>
    requires { IsUtf8 bytes.now }
    ensures { Gives (λ t. t) result (Ok bytes.now) }
{
    match str::from_utf8(bytes) {
        Ok(text) => Ok(Text::new(alloc, text)?),
        Err(_) => Err(MacroFault::BadQuote),
    }
}
