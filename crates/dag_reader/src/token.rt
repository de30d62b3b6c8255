//! A word that is still part of its line, and what it can be.

ghost use Rattle.std.specs.Prelude.{◌≡◌, IfOk};

use crate::command::{ScriptKind, Target};
use crate::fault::LineFault;
use crate::span::Span;
use crate::word::Word;
use std::alloc::{AllocError, Global};

/// The most bytes of a name or a category.
const LONGEST_NAME: usize = 255;

/// A word that is still part of its line, and its place.
#[derive(Clone, Copy, Debug)]
pub struct Token<'a> {
    pub text: &'a str,
    pub span: Span,
}

impl<'a> Token<'a> {
    ghost use Rattle.dag_reader.specs.LineReader.{word_of};
    ghost use Rattle.std.specs.Prelude.{length};
    ghost use Rattle.std.specs.List.{list_any};
    ghost use Rattle.dag_reader.specs.Layouts.{target_of};
    ghost use Rattle.dag_reader.specs.Numbers.{integer, count, at_least, nonzero};
    ghost use Rattle.dag_reader.specs.Reading.{Answers};
    ghost use Rattle.dag_reader.specs.Layouts.{name_in, node_in, submit_file_in, category_in, script_kind_in, number_in};
    ghost use Rattle.dag_reader.specs.Keywords.{is_keyword, joins_names, is_left_out, is_one_of, left_out_files, left_out_services, left_out_settings, is_ignored, ignored_keywords, is_left_out_script, left_out_scripts, is_category, is_name, is_target, is_inline, is_comment};

    /// Whether the word is this keyword, in any case of ASCII letters.
    #[tactic(auto, unfolding(crate::specs::Keywords::is_keyword))]
    pub fn is(&self, keyword: &str) -> bool
        ensures { result ≡ is_keyword keyword.now (word_of self.now) }
    {
        self.text.eq_ignore_ascii_case(keyword)
    }

    /// Whether the word is a command that this program leaves out.
    #[tactic(auto, unfolding(crate::specs::Keywords::is_left_out))]
    pub(crate) fn is_left_out(&self) -> bool
        ensures { result ≡ is_left_out (word_of self.now) }
    {
        self.is_one_of_files() || self.is_one_of_services() || self.is_one_of_settings()
    }

    fn is_one_of_files(&self) -> bool
        ensures { result ≡ is_one_of left_out_files (word_of self.now) }
    {
        self.is("SUBDAG")
            || self.is("INCLUDE")
            || self.is("CONFIG")
            || self.is("ENV")
            || self.is("SUBMIT-DESCRIPTION")
    }

    fn is_one_of_services(&self) -> bool
        ensures { result ≡ is_one_of left_out_services (word_of self.now) }
    {
        self.is("PROVISIONER")
            || self.is("SERVICE")
            || self.is("CONNECT")
            || self.is("PIN_IN")
            || self.is("PIN_OUT")
    }

    fn is_one_of_settings(&self) -> bool
        ensures { result ≡ is_one_of left_out_settings (word_of self.now) }
    {
        self.is("SAVE_POINT_FILE") || self.is("REJECT") || self.is("DONE")
    }

    /// Whether a line that begins with the word is read and has no effect.
    #[tactic(auto, unfolding(crate::specs::Keywords::is_ignored))]
    pub(crate) fn is_ignored(&self) -> bool
        ensures { result ≡ is_ignored (word_of self.now) }
    {
        self.is("DOT")
            || self.is("JOBSTATE_LOG")
            || self.is("NODE_STATUS_FILE")
            || self.is("SET_JOB_ATTR")
    }

    /// Whether the word is a kind of script that this program leaves out.
    #[tactic(auto, unfolding(crate::specs::Keywords::is_left_out_script))]
    pub(crate) fn is_left_out_script(&self) -> bool
        ensures { result ≡ is_left_out_script (word_of self.now) }
    {
        self.is("HOLD") || self.is("DEFER") || self.is("DEBUG")
    }

    /// Whether the word can name a category.
    #[tactic(auto, unfolding(crate::specs::Keywords::is_category))]
    pub(crate) fn is_category(&self) -> bool
        ensures { result ≡ is_category (word_of self.now) }
    {
        self.text.len() <= LONGEST_NAME
    }

    /// Whether the word can name a node.
    #[tactic(auto, unfolding(crate::specs::Keywords::is_name))]
    pub(crate) fn is_name(&self) -> bool
        ensures { result ≡ is_name (word_of self.now) }
    {
        self.text.len() <= LONGEST_NAME
            && !self.joins_names()
            && !self.is("PARENT")
            && !self.is("CHILD")
            && !self.is("ALL_NODES")
    }

    /// Whether the word can stand for a node or for all nodes.
    #[tactic(auto, unfolding(crate::specs::Keywords::is_target))]
    pub(crate) fn is_target(&self) -> bool
        ensures { result ≡ is_target (word_of self.now) }
    {
        self.is_name() || self.is("ALL_NODES")
    }

    /// What the word stands for.
    pub(crate) fn to_target(&self, alloc: Global) -> Result<Target, AllocError>
        ensures { IfOk result (λ t. t ≡ target_of (word_of self.now)) }
    {
        if self.is("ALL_NODES") {
            return Ok(Target::AllNodes(self.span));
        }
        Ok(Target::Node(self.to_word(alloc)?))
    }

    /// Whether a full stop or a plus is in the word.
    fn joins_names(&self) -> bool
        ensures { result ≡ list_any joins_names (word_of self.now).text }
    {
        self.text
            .as_bytes()
            .iter()
            .any(|b| *b == b'.' || *b == b'+')
    }

    /// Whether the word begins a submit description within the line.
    #[tactic(auto, unfolding(crate::specs::Keywords::is_inline))]
    pub(crate) fn is_inline(&self) -> bool
        ensures { result ≡ is_inline (word_of self.now) }
    {
        match self.text.as_bytes() {
            [b'{', ..] => true,
            [b'@', b'=', ..] => true,
            _ => false,
        }
    }

    /// Whether a line that begins with the word is a comment: it begins with `#`.
    #[tactic(auto, unfolding(crate::specs::Keywords::is_comment))]
    pub fn is_comment(&self) -> bool
        ensures { result ≡ is_comment (word_of self.now) }
    {
        match self.text.as_bytes() {
            [b'#', ..] => true,
            _ => false,
        }
    }

    /// The number from 0 to `most` that the word spells, if it spells one.
    ///
    /// A number is one sign or none, and then decimal digits, leading zeros among them.
    pub fn count(&self, most: u32) -> Option<u32>
        ensures { result ≡ count most (word_of self.now).text }
    {
        match self.integer() {
            Some(n) if n >= 0 && n as u32 <= most => Some(n as u32),
            _ => None,
        }
    }

    /// The `i32` that the word spells, if it isn't 0.
    pub(crate) fn nonzero_integer(&self) -> Option<i32>
        ensures { result ≡ nonzero (integer (word_of self.now).text) }
    {
        match self.integer() {
            Some(n) if n != 0 => Some(n),
            _ => None,
        }
    }

    /// The `i32` that the word spells, if it spells one.
    ///
    /// A number is one sign or none, and then decimal digits, leading zeros among them.
    pub fn integer(&self) -> Option<i32>
        ensures { result ≡ integer (word_of self.now).text }
    {
        self.text.parse::<i32>().ok()
    }

    /// The word, which has to be a name.
    pub(crate) fn name(self) -> Result<Token<'a>, LineFault>
        ensures { Answers word_of result (name_in (word_of self.entry)) }
    {
        if !self.is_name() {
            return Err(LineFault::BadName(self.span));
        }
        Ok(self)
    }

    /// The word, which has to be a name or the keyword for all nodes.
    pub(crate) fn node(self) -> Result<Token<'a>, LineFault>
        ensures { Answers word_of result (node_in (word_of self.entry)) }
    {
        if !self.is_target() {
            return Err(LineFault::BadName(self.span));
        }
        Ok(self)
    }

    /// The word, which has to be the name of a submit file.
    pub(crate) fn submit_file(self) -> Result<Token<'a>, LineFault>
        ensures { Answers word_of result (submit_file_in (word_of self.entry)) }
    {
        if self.is_inline() {
            return Err(LineFault::Unsupported(self.span));
        }
        Ok(self)
    }

    /// The word, which has to be the name of a category.
    pub(crate) fn category(self) -> Result<Token<'a>, LineFault>
        ensures { Answers word_of result (category_in (word_of self.entry)) }
    {
        if !self.is_category() {
            return Err(LineFault::BadName(self.span));
        }
        Ok(self)
    }

    /// The kind of script that the word names.
    pub(crate) fn script_kind(self) -> Result<ScriptKind, LineFault>
        ensures { Answers (λ kind. kind) result (script_kind_in (word_of self.entry)) }
    {
        if self.is("PRE") {
            return Ok(ScriptKind::Pre);
        }
        if self.is("POST") {
            return Ok(ScriptKind::Post);
        }
        if self.is_left_out_script() {
            return Err(LineFault::Unsupported(self.span));
        }
        Err(LineFault::UnexpectedWord(self.span))
    }

    /// The number from `least` to `most` that the word has to spell.
    pub(crate) fn count_from(self, least: u32, most: u32) -> Result<u32, LineFault>
        ensures { Answers (λ n. n) result (number_in (at_least least (count most (word_of self.entry).text)) (word_of self.entry)) }
    {
        match self.count(most) {
            Some(n) if n >= least => Ok(n),
            _ => Err(LineFault::BadNumber(self.span)),
        }
    }

    /// The number from 0 to 255 that the word has to spell.
    pub(crate) fn byte(self) -> Result<u8, LineFault>
        ensures { Answers (λ n. n) result (number_in (count 255 (word_of self.entry).text) (word_of self.entry)) }
    {
        match self.count(255) {
            Some(n) => Ok(n as u8),
            None => Err(LineFault::BadNumber(self.span)),
        }
    }

    /// The `i32` that the word has to spell.
    pub(crate) fn any_integer(self) -> Result<i32, LineFault>
        ensures { Answers (λ n. n) result (number_in (integer (word_of self.entry).text) (word_of self.entry)) }
    {
        match self.integer() {
            Some(n) => Ok(n),
            None => Err(LineFault::BadNumber(self.span)),
        }
    }

    /// The `i32` other than 0 that the word has to spell.
    pub(crate) fn nonzero(self) -> Result<i32, LineFault>
        ensures { Answers (λ n. n) result (number_in (nonzero (integer (word_of self.entry).text)) (word_of self.entry)) }
    {
        match self.nonzero_integer() {
            Some(n) => Ok(n),
            None => Err(LineFault::BadNumber(self.span)),
        }
    }

    /// The word with a text of its own.
    pub(crate) fn to_word(&self, alloc: Global) -> Result<Word, AllocError>
        ensures { IfOk result (λ w. w ≡ word_of self.now) }
    {
        Word::new(alloc, self.text, self.span)
    }
}
