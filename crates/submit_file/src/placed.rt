//! The assignments of a submit description with the places where they are.

ghost use Rattle.std.specs.Prelude.{◌≡◌, List, Ok, Err, IfOk};
ghost use Rattle.std.specs.Str.{IsUtf8};
ghost use Rattle.submit_file.specs.Forms.{line_says};
ghost use Rattle.submit_file.specs.Placings.{placing_of};
ghost use Rattle.submit_file.specs.Placed.{with_placed, placed_of, effective_assignments};
ghost use Rattle.submit_file.specs.Submit.{Gives, SaysAssignments};
ghost use Rattle.submit_file.specs.declared.submit.Assignment.{Assignment};
ghost use Rattle.submit_file.specs.declared.fault.SubmitFault.TheVariants.{NotText};

use crate::fault::SubmitFault;
use crate::line::{Saying, line_says};
use crate::lines::first_statement;
use crate::submit::{Assignment, text_of};
use std::alloc::Global;
use std::str;

/// An assignment, and where it is.
#[derive(Debug, Drop)]
pub struct PlacedAssignment {
    /// The number of its line, from 1; of joined lines that of the first.
    pub line: usize,
    /// Whether it counts: what is below the queue line has no effect.
    pub counts: bool,
    pub assignment: Assignment,
}

/// The assignments so far, and whether the queue line was read.
#[derive(Drop)]
struct Placer {
    placed: Vec<PlacedAssignment>,
    queued: bool,
}

impl Placer {
    /// Takes one line more.
    fn place(&mut self, alloc: Global, number: usize, text: &[u8]) -> Result<(), SubmitFault>
        requires { IsUtf8 text.now }
        ensures { Gives (λ _. placing_of self.new) result (Ok (with_placed (placing_of self.old) number (line_says self.old.queued text.now))) }
    {
        match line_says(text, self.queued) {
            Saying::Silent | Saying::Wrong(_) => {}
            Saying::Queues => self.queued = true,
            Saying::Assigns(name, value) => {
                let name = text_of(alloc, name)?;
                let value = text_of(alloc, value)?;
                self.placed.push(PlacedAssignment {
                    line: number,
                    counts: !self.queued,
                    assignment: Assignment { name, value },
                })?;
            }
        }
        Ok(())
    }
}

/// The assignments of a submit description with their lines, in their order, above and below its queue line. Lines that
/// can't be read are passed over, so that what the others say is known of a description that `read_submit` refuses.
///
/// # Errors
/// `NotText` where the bytes are not UTF-8; `Memory`.
pub fn placed_assignments(alloc: Global, text: &[u8]) -> Result<Vec<PlacedAssignment>, SubmitFault>
    ensures placed { IsUtf8 text.now → Gives (λ found. found.items) result (Ok (placed_of text.now)) }
    ensures not_text { ¬ (IsUtf8 text.now) → result ≡ Err NotText }

    // Those that count are what `read_submit` reads.
    ensures same { (pairs : List Assignment) → SaysAssignments text.now pairs → IfOk result (λ found. effective_assignments found.items ≡ pairs) }
{
    match str::from_utf8(text) {
        Ok(_) => place_lines(alloc, text),
        Err(_) => Err(SubmitFault::NotText),
    }
}

fn place_lines(alloc: Global, text: &[u8]) -> Result<Vec<PlacedAssignment>, SubmitFault>
    requires { IsUtf8 text.now }
    ensures { Gives (λ found. found.items) result (Ok (placed_of text.now)) }
{
    let mut placer = Placer {
        placed: Vec::new(alloc),
        queued: false,
    };
    let mut rest = text;
    let mut number = 1usize;
    while !rest.is_empty() {
        let first = first_statement(alloc, rest)?;
        placer.place(alloc, number, first.text.as_slice())?;
        number += first.lines;
        rest = first.rest;
    }
    Ok(placer.placed)
}
