//! The lines of a text of outcomes.
//!
//! A line says what a phase of an attempt of a node comes to, by the node's name: `A 0 JOB 1`.

ghost use Rattle.std.specs.Prelude.{◌≡◌, ◌⊎◌, ◌++◌, ℕ, List, Option, Some, Ok, Err, IfOk, IfErr, OnOk, MatchResult};
ghost use Rattle.std.specs.Option.{option_map, option_to_list};
ghost use Rattle.std.specs.Str.Lines.{lines};
ghost use Rattle.dag_reader.specs.LineReader.{left_of, word_of};
ghost use Rattle.node_machine.specs.declared.outcomes.TableFault.TheVariants.{BadLine, Memory};
ghost use Rattle.node_machine.specs.OutcomeTable.{Entry, SameOutcomes, HasPossibleOutcomes};
ghost use Rattle.node_machine.specs.TableMaps.{entry_of};
ghost use Rattle.node_machine.specs.OutcomesFile.{SayEntries, IsFirstBadEntry};
ghost use Rattle.node_machine.specs.OutcomesReading.{phase_in, ending_in, signal_in, spelled_outcome};
ghost use Rattle.node_machine.specs.OutcomesReading.{entry_in, entry_at, entries_at, IsFaultOf, IsLineFault};

use crate::table::{NamedOutcome, Table};
use crate::{Outcome, Phase};
use dag_reader::{LineReader, Token, line_text, split_line};
use std::alloc::{AllocError, AllocFailed, Global};
use std::fmt;
use thiserror::Error;

/// The greatest number of an attempt, which is the greatest number of retries.
const LAST_ATTEMPT: u32 = 1_000_000;

/// Why a text of outcomes could not be read.
#[derive(Clone, Copy, Debug, PartialEq, Eq, Error)]
pub enum TableFault {
    /// The line of this number, from 1, is the first that says neither an entry nor nothing.
    BadLine(usize),

    /// No memory was left for the table.
    Memory,
}

impl fmt::Display for TableFault {
    ghost use Rattle.std.specs.Prelude.{Some};
    ghost use Rattle.node_machine.specs.Displayed.{table_fault_text};

    ghost output = { λ fault. Some (table_fault_text fault) };

    fn fmt<W: fmt::Write>(&self, f: &mut fmt::Formatter<W>) -> fmt::Result {
        match self {
            TableFault::BadLine(number) => write!(f, "N3 BadLine {number}"),
            TableFault::Memory => f.write_str("N4 Memory"),
        }
    }
}

impl From<AllocError> for TableFault {
    ghost from_gives = { λ _ e. e ≡ Memory };

    fn from(_e: AllocError) -> TableFault {
        TableFault::Memory
    }
}

/// The table of a text of outcomes.
///
/// A line is `name attempt PRE|JOB|POST code`, with a code from 0 to 255, or has in place of the
/// code `signal n`, with n from 1 to 127, `nostart` or `untold`. An attempt is a number from 0 to
/// 1,000,000, keywords are in any case, and a name is any word, whether a node has it or not. Of
/// the lines of one name, attempt and phase the last one counts. Lines, words, numbers, comments
/// and empty lines are those of a DAG file.
///
/// # Errors
/// `BadLine` with the number, from 1, of the first line that is none of these: also one that has
/// over 65,536 bytes, is not UTF-8, or holds a control character other than the tab, comments
/// included. `Memory` where memory runs out.
pub fn read_table(alloc: Global, text: &[u8]) -> Result<Table, TableFault>
    // Each line of a text that is read says an entry or nothing, and the last entry of a key counts.
    ensures found { IfOk result (λ table. (entries : List Entry)
        × SayEntries 1 (lines text.now) entries × SameOutcomes table entries) }

    // A table that is read has outcomes that there are: no signal but 1 to 127.
    ensures possible { IfOk result HasPossibleOutcomes }

    // Each such text is read, unless memory runs out.
    ensures only { (entries : List Entry) → SayEntries 1 (lines text.now) entries
        → MatchResult result (λ table. SameOutcomes table entries) (λ e. e ≡ Memory) }

    // The line that a fault names is the first bad one.
    ensures bad_line { (n : ℕ) → result ≡ Err (BadLine n) → IsFirstBadEntry (lines text.now) n }

    // The first bad line is refused, unless memory runs out before.
    ensures refused { (n : ℕ) → IsFirstBadEntry (lines text.now) n
        → (result ≡ Err (BadLine n)) ⊎ (result ≡ Err Memory) }
{
    read_lines(alloc, text)
}

fn read_lines(alloc: Global, text: &[u8]) -> Result<Table, TableFault>
    ensures ok { IfOk result (λ table. (entries : List Entry)
        × (entries_at 1 (lines text.now) ≡ Ok entries) × SameOutcomes table entries) }
    ensures err { IfErr result (IsFaultOf (entries_at 1 (lines text.now))) }
{
    let mut table = Table::empty(alloc);
    let mut rest = text;
    let mut number = 1usize;
    while !rest.is_empty() {
        let (line, after) = split_line(rest);
        read_line(alloc, number, line, &mut table)?;
        rest = after;
        number += 1;
    }
    Ok(table)
}

/// Puts what the line of this number says, if anything, at the end of the table.
#[tactic(auto, unfolding(crate::specs::OutcomesReading::entry_at))]
fn read_line(
    alloc: Global,
    number: usize,
    bytes: &[u8],
    table: &mut Table,
) -> Result<(), TableFault>
    ensures ok { OnOk result ((o : Option Entry) × (entry_at number bytes.now ≡ Some o)
        × SameOutcomes table.new (table.old ++ option_to_list o)) }
    ensures err { IfErr result (IsLineFault number (entry_at number bytes.now)) }
{
    let Ok(text) = line_text(number, bytes) else {
        return Err(TableFault::BadLine(number));
    };
    let mut line = LineReader::new(number, text);
    let Some(name) = line.next_word() else {
        return Ok(());
    };
    if name.is_comment() {
        return Ok(());
    }
    let Some(entry) = read_entry(&name, &mut line) else {
        return Err(TableFault::BadLine(number));
    };
    table.push(alloc, &entry)?;
    Ok(())
}

/// The entry of this name, if the rest of the line spells one.
fn read_entry<'a>(name: &Token<'a>, line: &mut LineReader<'a>) -> Option<NamedOutcome<'a>>
    ensures { option_map entry_of result ≡ entry_in (word_of name.now) (left_of line.old).words }
{
    let attempt = line.next_word()?.count(LAST_ATTEMPT)?;
    let phase = phase(&line.next_word()?)?;
    let outcome = read_outcome(line)?;
    Some(NamedOutcome {
        name: name.text,
        attempt,
        phase,
        outcome,
    })
}

#[tactic(auto, unfolding(crate::specs::OutcomesReading::phase_in))]
fn phase(word: &Token<'_>) -> Option<Phase>
    ensures { result ≡ phase_in (word_of word.now) }
{
    if word.is("PRE") {
        Some(Phase::Pre)
    } else if word.is("JOB") {
        Some(Phase::Job)
    } else if word.is("POST") {
        Some(Phase::Post)
    } else {
        None
    }
}

/// How the phase ended, if the rest of the line spells it.
fn read_outcome(line: &mut LineReader<'_>) -> Option<Outcome>
    ensures { result ≡ spelled_outcome (left_of line.old).words }
{
    let first = line.next_word()?;
    let Some(second) = line.next_word() else {
        return ending(&first);
    };
    match line.next_word() {
        Some(_) => None,
        None => signal(&first, &second),
    }
}

/// An exit code, or a phase that was not started or whose ending was not reported.
#[tactic(auto, unfolding(crate::specs::OutcomesReading::ending_in))]
fn ending(word: &Token<'_>) -> Option<Outcome>
    ensures { result ≡ ending_in (word_of word.now) }
{
    if word.is("NOSTART") {
        return Some(Outcome::NoStart);
    }
    if word.is("UNTOLD") {
        return Some(Outcome::Untold);
    }
    let code = u8::try_from(word.count(255)?).ok()?;
    Some(Outcome::Exit(code))
}

/// The keyword and the number of a signal.
#[tactic(auto, unfolding(crate::specs::OutcomesReading::signal_in))]
fn signal(word: &Token<'_>, number: &Token<'_>) -> Option<Outcome>
    ensures { result ≡ signal_in (word_of word.now) (word_of number.now) }
{
    if !word.is("SIGNAL") {
        return None;
    }
    let number = u8::try_from(number.count(127)?).ok()?;
    if 1 <= number {
        Some(Outcome::Signal(number))
    } else {
        None
    }
}
