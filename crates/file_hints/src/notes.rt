//! What would be otherwise under `condor_submit_dag`.

ghost use Rattle.std.specs.Prelude.{◌≡◌, ◌++◌, IfOk, OnOk};
ghost use Rattle.std.specs.Str.Lines.{lines};
ghost use Rattle.file_hints.specs.References.{references};
ghost use Rattle.submit_file.specs.Lines.{trim_start};
ghost use Rattle.file_hints.specs.Notes.{stays_here, has_own_universe, is_of_one_machine, is_launch_name, launch_notes, submit_notes, comment_notes, is_continued_comment};

use crate::hint::{Finding, Hint};
use crate::macros::references;
use crate::submit::{has_name, is_word, push_hint};
use dag_reader::{Text, split_line};
use std::alloc::{AllocError, Global};
use submit_file::PlacedAssignment;

/// What would be otherwise of a submit file with these assignments: it names no log; its job gets no environment of
/// dagrun's; its job runs in a folder of its own; a reference to the number of the launch. What the file lacks is said
/// of its first line.
///
/// # Errors
/// Lack of memory.
pub fn submit_notes(alloc: Global, placed: &[PlacedAssignment]) -> Result<Vec<Finding>, AllocError>
    ensures { IfOk result (λ found. found.items ≡ submit_notes placed.now) }
{
    let mut found = Vec::new(alloc);
    if !has_name(placed, "log") {
        push_hint(&mut found, 1, Some(Hint::NoLog))?;
    }
    if !has_name(placed, "getenv") {
        push_hint(&mut found, 1, Some(Hint::NoEnvironment))?;
    }
    if !stays_here(placed) {
        push_hint(&mut found, 1, Some(Hint::OwnFolder))?;
    }
    for one in placed {
        if one.counts {
            push_launch_notes(alloc, &mut found, one)?;
        }
    }
    Ok(found)
}

/// Whether the job sees the files where they are, or has them moved.
fn stays_here(placed: &[PlacedAssignment]) -> bool
    ensures { result ≡ stays_here placed.now }
{
    has_own_universe(placed) || has_name(placed, "transfer_input_files")
}

/// Whether the job is one of the machine from which it is queued.
fn has_own_universe(placed: &[PlacedAssignment]) -> bool
    ensures { result ≡ has_own_universe placed.now }
{
    placed
        .iter()
        .any(|one| one.counts && is_of_one_machine(one))
}

/// Whether an assignment says that the job is one of the machine from which it is queued.
fn is_of_one_machine(one: &PlacedAssignment) -> bool
    ensures { result ≡ is_of_one_machine one.now }
{
    let value = one.assignment.value.as_str();
    is_word(one.assignment.name.as_str(), "universe")
        && (is_word(value, "local") || is_word(value, "scheduler"))
}

/// Adds what would be otherwise of the references of a value.
fn push_launch_notes(
    alloc: Global,
    found: &mut Vec<Finding>,
    one: &PlacedAssignment,
) -> Result<(), AllocError>
    ensures { OnOk result (found.new.items ≡ found.old.items
        ++ launch_notes one.now.line (references one.now.assignment.value)) }
{
    let referred = references(alloc, one.assignment.value.as_str())?;
    for reference in &referred {
        let name = reference.name.as_str();
        if is_launch_name(name) {
            found.push(Finding {
                line: one.line,
                hint: Hint::LaunchNumber(Text::new(alloc, name)?),
            })?;
        }
    }
    Ok(())
}

fn is_launch_name(name: &str) -> bool
    ensures { result ≡ is_launch_name name.now }
{
    is_word("Cluster", name) || is_word("ClusterId", name)
}

/// Comments of a submit file that end with a backslash.
///
/// # Errors
/// Lack of memory.
pub fn comment_notes(alloc: Global, text: &[u8]) -> Result<Vec<Finding>, AllocError>
    ensures { IfOk result (λ found. found.items ≡ comment_notes 1 (lines text.now)) }
{
    let mut found = Vec::new(alloc);
    let mut rest = text;
    let mut number = 1usize;
    while !rest.is_empty() {
        let (line, behind) = split_line(rest);
        if is_continued_comment(line) {
            push_hint(&mut found, number, Some(Hint::ContinuedComment))?;
        }
        rest = behind;
        number += 1;
    }
    Ok(found)
}

/// Whether a line is a comment that ends with a backslash.
fn is_continued_comment(line: &[u8]) -> bool
    ensures { result ≡ is_continued_comment line.now }
{
    matches!(trim_start(line), [b'#', .., b'\\'])
}

/// The text without the blanks at its front.
fn trim_start(text: &[u8]) -> &[u8]
    ensures { result.now ≡ trim_start text.now }
{
    let mut rest = text;
    while let [byte, behind @ ..] = rest {
        if *byte != b' ' && *byte != b'\t' {
            return rest;
        }
        rest = behind;
    }
    rest
}
