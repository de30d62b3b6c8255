//! What the words of a line say.

ghost use Rattle.std.specs.Prelude.{◌≡◌, IfOk};
ghost use Rattle.std.specs.Option.{option_map};
ghost use Rattle.dag_reader.specs.LineReader.{word_of};

use crate::command::{Command, ScriptKind};
use crate::fault::ReadFault;
use crate::layout::{Bracket, Field, LineKind};
use crate::span::Span;
use crate::token::Token;
use crate::word::{Word, Words};
use std::alloc::{AllocError, Global};

/// What the words of a line say, each in a place of its own.
pub(crate) struct Values<'a> {
    name: Token<'a>,
    node: Token<'a>,
    file: Token<'a>,
    when: ScriptKind,
    count: u32,
    number: i32,
    dir: Option<Token<'a>>,
    noop: bool,
    done: bool,
    unless_exit: Option<i32>,
    status: Option<u8>,
    parents: Words,
    words: Words,
}

// Each function that drops a value calls this; a derived drop would be in each, part by part.
impl Drop for Values<'_> {
    fn drop(self) {
        let Values {
            name: _,
            node: _,
            file: _,
            when: _,
            count: _,
            number: _,
            dir: _,
            noop: _,
            done: _,
            unless_exit: _,
            status: _,
            parents: _,
            words: _,
        } = self;
    }
}

impl<'a> Values<'a> {
    ghost use Rattle.dag_reader.specs.Blanks.{begun};
    ghost use Rattle.dag_reader.specs.Layouts.{nothing, bracket, put, bracket_of, layout};
    ghost use Rattle.dag_reader.specs.LayoutViews.{values_of, Leaves};
    ghost use Rattle.dag_reader.specs.declared.layout.LineKind.TheVariants.{Job, Script, Final, Splice};

    /// Nothing is said so far.
    pub(crate) fn new(alloc: Global) -> Values<'a>
        ensures { values_of result ≡ nothing }
    {
        let blank = Token {
            text: "",
            span: Span {
                line: 0,
                start: 0,
                stop: 0,
            },
        };
        Values {
            name: blank,
            node: blank,
            file: blank,
            when: ScriptKind::Pre,
            count: 0,
            number: 0,
            dir: None,
            noop: false,
            done: false,
            unless_exit: None,
            status: None,
            parents: Words::new(alloc),
            words: Words::new(alloc),
        }
    }

    /// Forgets the options, the flags and the lists of the line before. Its words and numbers stay,
    /// and no command of another line has them.
    pub(crate) fn clear(&mut self, alloc: Global)
        ensures { values_of self.new ≡ begun (values_of self.old) }
    {
        self.dir = None;
        self.noop = false;
        self.done = false;
        self.unless_exit = None;
        self.status = None;
        self.parents = Words::new(alloc);
        self.words = Words::new(alloc);
    }

    /// Takes a word, which has to be this field.
    #[tactic(auto, unfolding(crate::specs::Layouts::put))]
    pub(crate) fn put(
        &mut self,
        alloc: Global,
        field: Field,
        word: Token<'a>,
    ) -> Result<(), ReadFault>
        ensures { Leaves result (values_of self.new) (put field (word_of word.entry) (values_of self.old)) }
    {
        match field {
            Field::Name => self.name = word.name()?,
            Field::Node => self.node = word.node()?,
            Field::SubmitFile => self.file = word.submit_file()?,
            Field::AnyWord => self.file = word,
            Field::When => self.when = word.script_kind()?,
            Field::CategoryName => self.name = word.category()?,
            Field::Count(least, most) => self.count = word.count_from(least, most)?,
            Field::Integer => self.number = word.any_integer()?,
            Field::NonZero => self.number = word.nonzero()?,
            Field::Folder => self.dir = Some(word),
            Field::ExitValue => self.unless_exit = Some(word.any_integer()?),
            Field::ExitStatus => self.status = Some(word.byte()?),
            Field::Parent => self.parents.push(word.name()?.to_word(alloc)?)?,
            Field::Child => self.words.push(word.name()?.to_word(alloc)?)?,
            Field::Argument => self.words.push(word.to_word(alloc)?)?,
        }
        Ok(())
    }

    /// Which of these brackets the word opens, of those that are not yet in the line.
    pub(crate) fn bracket_of(&self, brackets: &[Bracket], word: &Token<'_>) -> Option<Bracket>
        ensures { result ≡ bracket_of brackets.now (word_of word.now) (values_of self.now) }
    {
        brackets
            .iter()
            .copied()
            .find(|b| word.is(b.keyword()) && !self.has(*b))
    }

    /// Whether the bracket is already in the line.
    fn has(&self, one: Bracket) -> bool
        ensures { result ≡ (bracket one).taken (values_of self.now) }
    {
        match one {
            Bracket::Dir => self.dir.is_some(),
            Bracket::NoOp => self.noop,
            Bracket::Done => self.done,
            Bracket::UnlessExit => self.unless_exit.is_some(),
            Bracket::Return => self.status.is_some(),
        }
    }

    /// Notes the keyword of a bracket that has no words of its own.
    pub(crate) fn mark(&mut self, one: Bracket)
        ensures { values_of self.new ≡ (bracket one).marked (values_of self.old) }
    {
        match one {
            Bracket::NoOp => self.noop = true,
            Bracket::Done => self.done = true,
            Bracket::Dir | Bracket::UnlessExit | Bracket::Return => {}
        }
    }

    /// The command that they make in a line of this kind. Lists of words are taken out.
    pub(crate) fn command(&mut self, alloc: Global, kind: LineKind) -> Result<Command, AllocError>
        ensures { IfOk result (λ c. c ≡ (layout kind).command (values_of self.old)) }
    {
        Ok(match kind {
            LineKind::Job => self.job(alloc)?,
            LineKind::Parent => Command::ParentChild {
                parents: self.parents.take(alloc),
                children: self.words.take(alloc),
            },
            LineKind::Script => self.script(alloc)?,
            LineKind::Retry => Command::Retry {
                node: self.node.to_target(alloc)?,
                retries: self.count,
                unless_exit: self.unless_exit,
            },
            LineKind::PreSkip => Command::PreSkip {
                node: self.node.to_target(alloc)?,
                value: self.number,
            },
            LineKind::Priority => Command::Priority {
                node: self.node.to_target(alloc)?,
                priority: self.number,
            },
            LineKind::Category => Command::Category {
                node: self.node.to_target(alloc)?,
                category: self.name.to_word(alloc)?,
            },
            LineKind::MaxJobs => Command::MaxJobs {
                category: self.name.to_word(alloc)?,
                limit: self.count,
            },
            LineKind::AbortDagOn => Command::AbortDagOn {
                node: self.node.to_target(alloc)?,
                value: self.number,
                status: self.status,
            },
            LineKind::Final => self.final_node(alloc)?,
            LineKind::Splice => self.splice(alloc)?,
        })
    }

    fn script(&mut self, alloc: Global) -> Result<Command, AllocError>
        ensures { IfOk result (λ c. c ≡ (layout Script).command (values_of self.old)) }
    {
        Ok(Command::Script {
            kind: self.when,
            node: self.node.to_target(alloc)?,
            program: self.file.to_word(alloc)?,
            arguments: self.words.take(alloc),
        })
    }

    fn job(&self, alloc: Global) -> Result<Command, AllocError>
        ensures { IfOk result (λ c. c ≡ (layout Job).command (values_of self.now)) }
    {
        Ok(Command::Job {
            name: self.name.to_word(alloc)?,
            file: self.file.to_word(alloc)?,
            dir: to_words(alloc, self.dir)?,
            noop: self.noop,
            done: self.done,
        })
    }

    fn final_node(&self, alloc: Global) -> Result<Command, AllocError>
        ensures { IfOk result (λ c. c ≡ (layout Final).command (values_of self.now)) }
    {
        Ok(Command::Final {
            name: self.name.to_word(alloc)?,
            file: self.file.to_word(alloc)?,
            dir: to_words(alloc, self.dir)?,
            noop: self.noop,
        })
    }

    fn splice(&self, alloc: Global) -> Result<Command, AllocError>
        ensures { IfOk result (λ c. c ≡ (layout Splice).command (values_of self.now)) }
    {
        Ok(Command::Splice {
            name: self.name.to_word(alloc)?,
            file: self.file.to_word(alloc)?,
            dir: to_words(alloc, self.dir)?,
        })
    }
}

/// The word with a text of its own, if there is one.
fn to_words(alloc: Global, word: Option<Token<'_>>) -> Result<Option<Word>, AllocError>
    ensures { IfOk result (λ w. w ≡ option_map word_of word.entry) }
{
    match word {
        Some(word) => Ok(Some(word.to_word(alloc)?)),
        None => Ok(None),
    }
}
