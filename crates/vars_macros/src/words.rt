//! Words that are gathered letter by letter.

ghost use Rattle.std.specs.Prelude.{◌≡◌, Ok, IfOk};
ghost use Rattle.std.specs.Str.{IsUtf8};
ghost use Rattle.vars_macros.specs.Answers.{Gives};

use crate::fault::MacroFault;
use crate::output::text_of;
use dag_reader::Texts;
use std::alloc::Global;
use std::mem;

/// What a byte of a text says: a byte of a word, that a word is there, that a word is over, or
/// what no text may say.
#[derive(Clone, Copy)]
pub(crate) enum Symbol {
    Letter(u8),
    Mark,
    Gap,
    Broken,
}

/// The words that are over, and the word that has begun.
#[derive(Drop)]
pub(crate) struct Words {
    words: Texts,
    word: Vec<u8>,
    begun: bool,
}

impl Words {
    ghost use Rattle.vars_macros.specs.Gathered.{gathering_of, no_words, word_closed, taken};
    ghost use Rattle.vars_macros.specs.declared.words.Symbol.TheVariants.{Gap};

    /// No words.
    pub(crate) fn new(alloc: Global) -> Words
        ensures { gathering_of result ≡ no_words }
    {
        Words {
            words: Texts::new(alloc),
            word: Vec::new(alloc),
            begun: false,
        }
    }

    /// Takes the next symbol in.
    pub(crate) fn take(&mut self, alloc: Global, symbol: Symbol) -> Result<(), MacroFault>
        requires { symbol ≡ Gap → IsUtf8 self.old.word.items }
        ensures { Gives (λ _. gathering_of self.new) result (taken (gathering_of self.old) symbol) }
    {
        match symbol {
            Symbol::Letter(byte) => {
                self.word.push(byte)?;
                self.begun = true;
                Ok(())
            }
            Symbol::Mark => {
                self.begun = true;
                Ok(())
            }
            Symbol::Gap => self.close(alloc),
            Symbol::Broken => Err(MacroFault::BadQuote),
        }
    }

    /// Ends the word, if one has begun.
    fn close(&mut self, alloc: Global) -> Result<(), MacroFault>
        requires { IsUtf8 self.old.word.items }
        ensures text { IfOk result (λ _. IsUtf8 self.new.word.items) }
        ensures closed { Gives (λ _. gathering_of self.new) result (Ok (word_closed (gathering_of self.old))) }
    {
        if self.begun {
            let word = mem::replace(&mut self.word, Vec::new(alloc));
            self.begun = false;
            self.words.push(text_of(alloc, word.as_slice())?)?;
        }
        Ok(())
    }

    /// The words, the last of them ended.
    pub(crate) fn finish(mut self, alloc: Global) -> Result<Texts, MacroFault>
        requires { IsUtf8 self.word.items }
        ensures { Gives (λ words. words) result (Ok (word_closed (gathering_of self)).words) }
    {
        self.close(alloc)?;
        Ok(self.words)
    }
}
