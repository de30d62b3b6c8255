//! A submit description.

ghost use Rattle.std.specs.Prelude.{◌≡◌, List, Ok, Err, IfOk, IfErr, option_copied};
ghost use Rattle.std.specs.Str.{IsUtf8};
ghost use Rattle.submit_file.specs.Forms.{line_says};
ghost use Rattle.submit_file.specs.Readings.{reading_of};
ghost use Rattle.submit_file.specs.Submit.{Gives, submit_of, with_submit_line, with_assignment, SaysAssignments, IsTextFault};
ghost use Rattle.submit_file.specs.declared.submit.Assignment.{Assignment};
ghost use Rattle.submit_file.specs.declared.fault.SubmitFault.TheVariants.{NotText};

use crate::fault::SubmitFault;
use crate::line::{Saying, is_word, line_says};
use crate::lines::first_statement;
use dag_reader::Text;
use std::alloc::Global;
use std::str;

/// A name and what is assigned to it.
#[derive(Debug, Drop)]
pub struct Assignment {
    pub name: Text,
    pub value: Text,
}

/// A submit description: its assignments above the queue line, in their order.
#[derive(Debug, Drop)]
pub struct Submit {
    assigned: Vec<Assignment>,
}

/// The assignments so far, and whether the queue line was read.
#[derive(Drop)]
struct Reader {
    assigned: Vec<Assignment>,
    queued: bool,
}

impl Reader {
    /// Takes one line more.
    fn read(&mut self, alloc: Global, number: usize, text: &[u8]) -> Result<(), SubmitFault>
        requires { IsUtf8 text.now }
        ensures { Gives (λ _. reading_of self.new) result (with_submit_line (reading_of self.old) number (line_says self.old.queued text.now)) }
    {
        match line_says(text, self.queued) {
            Saying::Silent => Ok(()),
            Saying::Assigns(name, value) => self.assign(alloc, name, value),
            Saying::Queues => {
                self.queued = true;
                Ok(())
            }
            Saying::Wrong(fault) => Err(SubmitFault::InLine(number, fault)),
        }
    }

    /// Adds an assignment, unless the queue line was read.
    fn assign(&mut self, alloc: Global, name: &[u8], value: &[u8]) -> Result<(), SubmitFault>
        requires name { IsUtf8 name.now }
        requires value { IsUtf8 value.now }
        ensures { Gives (λ _. reading_of self.new) result (Ok (with_assignment (reading_of self.old) name.now value.now)) }
    {
        if !self.queued {
            let name = text_of(alloc, name)?;
            let value = text_of(alloc, value)?;
            self.assigned.push(Assignment { name, value })?;
        }
        Ok(())
    }
}

/// The bytes as a text.
pub(crate) fn text_of(alloc: Global, bytes: &[u8]) -> Result<Text, SubmitFault>
    requires { IsUtf8 bytes.now }
    ensures { Gives (λ t. t) result (Ok bytes.now) }
{
    match str::from_utf8(bytes) {
        Ok(text) => Ok(Text::new(alloc, text)?),
        Err(_) => Err(SubmitFault::NotText),
    }
}

/// Reads a submit description.
///
/// Each line assigns a value to a name, queues the job, is a comment or holds no word. A backslash
/// at a line's end joins it with the line below as it is, but a comment is never continued.
/// One line queues the job; what is assigned after it has no effect.
///
/// # Errors
/// `NotText` where the bytes are not UTF-8. Else `InLine` of the first line that can't be read: its
/// first word begins an unsupported statement, it queues with other words or another count than 1, it
/// queues once more, or it is no assignment. Else `NoQueue` where no line queues the job. `Memory`
/// where memory runs out.
pub fn read_submit(alloc: Global, text: &[u8]) -> Result<Submit, SubmitFault>
    // The lines say the assignments that are read.
    ensures found { IfOk result (λ s. SaysAssignments text.now s.assigned.items) }

    // Where the lines say assignments, these are read, unless memory runs out.
    ensures only { (pairs : List Assignment) → SaysAssignments text.now pairs → Gives (λ s. s.assigned.items) result (Ok pairs) }

    // A fault is that of the first line that can't be read, or of the whole text.
    ensures fault { IfErr result (λ e. IsTextFault text.now e) }

    // Which fault it is: that which reading the lines from the first meets first.
    ensures exact { IsUtf8 text.now → Gives (λ s. s.assigned.items) result (submit_of text.now) }
    ensures not_text { ¬ (IsUtf8 text.now) → result ≡ Err NotText }
{
    match str::from_utf8(text) {
        Ok(_) => read_lines(alloc, text),
        Err(_) => Err(SubmitFault::NotText),
    }
}

fn read_lines(alloc: Global, text: &[u8]) -> Result<Submit, SubmitFault>
    requires { IsUtf8 text.now }
    ensures { Gives (λ s. s.assigned.items) result (submit_of text.now) }
{
    let mut reader = Reader {
        assigned: Vec::new(alloc),
        queued: false,
    };
    let mut rest = text;
    let mut number = 1usize;
    while !rest.is_empty() {
        let first = first_statement(alloc, rest)?;
        reader.read(alloc, number, first.text.as_slice())?;
        number += first.lines;
        rest = first.rest;
    }
    if !reader.queued {
        return Err(SubmitFault::NoQueue);
    }
    Ok(Submit {
        assigned: reader.assigned,
    })
}

impl Submit {
    ghost use Rattle.submit_file.specs.Submit.{last_value};

    /// The assignments, in their order.
    pub fn assignments(&self) -> &[Assignment]
        ensures { result.now ≡ self.now.assigned.items }
    {
        self.assigned.as_slice()
    }

    /// The value that was assigned last to the name, in any case of ASCII letters.
    pub fn last(&self, name: &str) -> Option<&Text>
        ensures { option_copied result ≡ last_value self.now.assigned.items name.now }
    {
        let mut found = None;
        for one in &self.assigned {
            if is_word(one.name.as_str().as_bytes(), name.as_bytes()) {
                found = Some(&one.value);
            }
        }
        found
    }
}
