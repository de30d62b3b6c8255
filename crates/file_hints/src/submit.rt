//! What is odd in a submit file.

ghost use Rattle.std.specs.Prelude.{◌≡◌, ◌++◌, ◌==◌, ◌≤◌, length, not, IfOk, OnOk};
ghost use Rattle.std.specs.Option.{option_map};
ghost use Rattle.std.specs.List.{list_any, take_while};
ghost use Rattle.file_hints.specs.References.{references};
ghost use Rattle.file_hints.specs.Submitted.{is_same_word, is_word_listed, advice_in, is_attribute, is_referred, is_meant, name_hint, has_name, is_macro_assigned, is_empty_reference, findings_at, macro_findings, placed_references, assigned_references, submit_findings};

use crate::hint::{Finding, Hint};
use crate::macros::{Reference, begins_with, push_references, references};
use crate::names::CommandNames;
use dag_reader::Text;
use std::alloc::{AllocError, Global};
use submit_file::{Assignment, PlacedAssignment};

/// What is odd in a submit file with these assignments, for nodes whose VARS lines assign those: names of no command
/// and no macro that is referred to; commands that are passed over; what is below the queue line; macros that
/// are referred to without a default, and assigned nowhere. It is in the order of the lines.
///
/// # Errors
/// Lack of memory.
pub fn submit_hints(
    alloc: Global,
    names: &CommandNames<'_>,
    placed: &[PlacedAssignment],
    vars: &[Assignment],
) -> Result<Vec<Finding>, AllocError>
    ensures { IfOk result (λ found. found.items ≡ submit_findings names.now placed.now vars.now) }
{
    let referred = all_references(alloc, placed, vars)?;
    let mut found = Vec::new(alloc);
    for one in placed {
        let hint = name_hint(alloc, names, &referred, one)?;
        push_hint(&mut found, one.line, hint)?;
        if one.counts {
            push_macro_hints(alloc, &mut found, names, placed, vars, one)?;
        }
    }
    Ok(found)
}

/// The references of all values.
fn all_references(
    alloc: Global,
    placed: &[PlacedAssignment],
    vars: &[Assignment],
) -> Result<Vec<Reference>, AllocError>
    ensures { IfOk result (λ found. found.items ≡ placed_references placed.now ++ assigned_references vars.now) }
{
    let mut found = Vec::new(alloc);
    push_placed(alloc, &mut found, placed)?;
    push_assigned(alloc, &mut found, vars)?;
    Ok(found)
}

fn push_placed(
    alloc: Global,
    found: &mut Vec<Reference>,
    placed: &[PlacedAssignment],
) -> Result<(), AllocError>
    ensures { OnOk result (found.new.items ≡ found.old.items ++ placed_references placed.now) }
{
    for one in placed {
        push_references(alloc, found, one.assignment.value.as_str())?;
    }
    Ok(())
}

fn push_assigned(
    alloc: Global,
    found: &mut Vec<Reference>,
    vars: &[Assignment],
) -> Result<(), AllocError>
    ensures { OnOk result (found.new.items ≡ found.old.items ++ assigned_references vars.now) }
{
    for one in vars {
        push_references(alloc, found, one.value.as_str())?;
    }
    Ok(())
}

/// Adds a hint on a line, if there is one.
pub(crate) fn push_hint(
    found: &mut Vec<Finding>,
    line: usize,
    hint: Option<Hint>,
) -> Result<(), AllocError>
    ensures { OnOk result (found.new.items ≡ found.old.items ++ findings_at line hint) }
{
    if let Some(hint) = hint {
        found.push(Finding { line, hint })?;
    }
    Ok(())
}

/// What is odd in the name of an assignment.
fn name_hint(
    alloc: Global,
    names: &CommandNames<'_>,
    referred: &[Reference],
    one: &PlacedAssignment,
) -> Result<Option<Hint>, AllocError>
    ensures { IfOk result (λ hint. hint ≡ name_hint names.now referred.now one.now) }
{
    let name = one.assignment.name.as_str();
    if !one.counts {
        return Ok(Some(Hint::BelowQueue(Text::new(alloc, name)?)));
    }
    if let Some(advice) = advice_in(names.passed_over, name) {
        return Ok(Some(Hint::PassedOver {
            name: Text::new(alloc, name)?,
            instead: Text::new(alloc, advice)?,
        }));
    }
    if is_meant(names, referred, name) {
        return Ok(None);
    }
    Ok(Some(Hint::UnknownName(Text::new(alloc, name)?)))
}

/// What the first row of a name says.
fn advice_in<'a>(rows: &[(&'a str, &'a str)], name: &str) -> Option<&'a str>
    ensures { option_map (λ advice. advice.now) result ≡ advice_in rows.now name.now }
{
    for row in rows {
        if is_word(row.0, name) {
            return Some(row.1);
        }
    }
    None
}

/// Whether a name is known, or something refers to it.
fn is_meant(names: &CommandNames<'_>, referred: &[Reference], name: &str) -> bool
    ensures { result ≡ is_meant names.now referred.now name.now }
{
    (is_listed(names.read, name) || is_listed(names.harmless, name))
        || (is_attribute(name) || is_referred(referred, name))
}

fn is_listed(words: &[&str], name: &str) -> bool
    ensures { result ≡ is_word_listed words.now name.now }
{
    words.iter().any(|word| is_word(word, name))
}

fn is_attribute(name: &str) -> bool
    ensures { result ≡ is_attribute name.now }
{
    let bytes = name.as_bytes();
    begins_with(b'+', bytes) || is_same_word(&bytes[..dot_in(bytes)], b"my")
}

/// Where the first full stop is, or the end.
fn dot_in(bytes: &[u8]) -> usize
    ensures value { result ≡ length (take_while (λ b. not (b == 46)) bytes.now) }
    ensures within { result ≤ length bytes.now }
{
    bytes.iter().take_while(|byte| **byte != b'.').count()
}

fn is_referred(referred: &[Reference], name: &str) -> bool
    ensures { result ≡ is_referred referred.now name.now }
{
    referred.iter().any(|one| is_word(one.name.as_str(), name))
}

pub(crate) fn is_word(word: &str, text: &str) -> bool
    ensures { result ≡ is_same_word word.now text.now }
{
    is_same_word(word.as_bytes(), text.as_bytes())
}

#[tactic(auto, unfolding(crate::specs::Submitted::is_same_word))]
fn is_same_word(word: &[u8], text: &[u8]) -> bool
    ensures { result ≡ is_same_word word.now text.now }
{
    word.eq_ignore_ascii_case(text)
}

/// Adds what is odd in the references of a value.
fn push_macro_hints(
    alloc: Global,
    found: &mut Vec<Finding>,
    names: &CommandNames<'_>,
    placed: &[PlacedAssignment],
    vars: &[Assignment],
    one: &PlacedAssignment,
) -> Result<(), AllocError>
    ensures { OnOk result (found.new.items ≡ found.old.items
        ++ macro_findings names.now placed.now vars.now one.now.line (references one.now.assignment.value)) }
{
    let referred = references(alloc, one.assignment.value.as_str())?;
    for reference in &referred {
        if is_empty_reference(names, placed, vars, reference) {
            let name = Text::new(alloc, reference.name.as_str())?;
            found.push(Finding {
                line: one.line,
                hint: Hint::Unassigned(name),
            })?;
        }
    }
    Ok(())
}

/// Whether nothing stands for a reference.
fn is_empty_reference(
    names: &CommandNames<'_>,
    placed: &[PlacedAssignment],
    vars: &[Assignment],
    reference: &Reference,
) -> bool
    ensures { result ≡ is_empty_reference names.now placed.now vars.now reference.now }
{
    let name = reference.name.as_str();
    !((reference.has_default || is_listed(names.given, name)) || is_assigned(placed, vars, name))
}

/// Whether a name is assigned above the queue line or by a VARS line.
fn is_assigned(placed: &[PlacedAssignment], vars: &[Assignment], name: &str) -> bool
    ensures { result ≡ is_macro_assigned placed.now vars.now name.now }
{
    has_name(placed, name) || is_set(vars, name)
}

/// Whether a name is assigned above the queue line.
pub(crate) fn has_name(placed: &[PlacedAssignment], name: &str) -> bool
    ensures { result ≡ has_name placed.now name.now }
{
    placed.iter().any(|one| one.counts && is_word(one.assignment.name.as_str(), name))
}

fn is_set(vars: &[Assignment], name: &str) -> bool
    ensures { result ≡ list_any (λ a. is_same_word a.name name.now) vars.now }
{
    vars.iter().any(|one| is_word(one.name.as_str(), name))
}
