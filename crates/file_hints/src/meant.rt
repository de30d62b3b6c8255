//! The command or the macro that may have been meant.

ghost use Rattle.std.specs.Prelude.{◌≡◌, map, option_map, IfOk, string_bytes};
ghost use Rattle.std.specs.Str.{str_to_ascii_lowercase};
ghost use Rattle.file_hints.specs.Meant.{known_names, IsBetterHint, AreBetter, names_above, macro_names, first_same, IsNearestInAnyCase, IsBetterMacro, AreBetterMacros};

use crate::hint::{Finding, Hint};
use crate::names::CommandNames;
use crate::submit::is_word;
use dag_reader::Text;
use fault_guide::nearest;
use std::alloc::{AllocError, Global};
use submit_file::{Assignment, PlacedAssignment};

/// The findings, in which a name of nothing has the nearest command beside it, where one is near.
///
/// # Errors
/// Lack of memory.
pub fn with_meant(
    alloc: Global,
    names: &CommandNames<'_>,
    found: Vec<Finding>,
) -> Result<Vec<Finding>, AllocError>
    ensures { IfOk result (λ better. AreBetter (known_names names.now) found.items better.items) }
{
    let known = known_names(alloc, names)?;
    let mut better = Vec::new(alloc);
    for finding in found {
        let Finding { line, hint } = finding;
        let hint = better_hint(alloc, &known, hint)?;
        better.push(Finding { line, hint })?;
    }
    Ok(better)
}

/// The names of all commands.
fn known_names<'a>(alloc: Global, names: &CommandNames<'a>) -> Result<Vec<&'a str>, AllocError>
    ensures { IfOk result (λ known. map (λ w. w.now) known.items ≡ known_names names.now) }
{
    let mut known = Vec::new(alloc);
    known.extend_from_slice(names.read)?;
    for row in names.passed_over {
        known.push(row.0)?;
    }
    known.extend_from_slice(names.harmless)?;
    Ok(known)
}

/// A hint, of a name of nothing with the nearest of these commands, where one is near.
fn better_hint(alloc: Global, known: &[&str], hint: Hint) -> Result<Hint, AllocError>
    ensures { IfOk result (IsBetterHint (map (λ w. w.now) known.now) hint) }
{
    let Hint::UnknownName(name) = hint else {
        return Ok(hint);
    };
    let lower = name.as_str().to_ascii_lowercase(alloc)?;
    match nearest(alloc, lower.as_str(), known)? {
        Some(meant) => Ok(Hint::Misspelled {
            name,
            meant: Text::new(alloc, meant)?,
        }),
        None => Ok(Hint::UnknownName(name)),
    }
}

/// The findings of a submit file with these assignments, for nodes whose VARS lines assign those, in which a macro that is
/// assigned nowhere has the nearest one beside it, where one is near, whatever the case of its letters.
///
/// # Errors
/// Lack of memory.
pub fn with_meant_macros<'a>(
    alloc: Global,
    names: &CommandNames<'a>,
    placed: &'a [PlacedAssignment],
    vars: &'a [Assignment],
    found: Vec<Finding>,
) -> Result<Vec<Finding>, AllocError>
    ensures { IfOk result (λ better. AreBetterMacros names.now placed.now vars.now found.items better.items) }
{
    let mut better = Vec::new(alloc);
    for finding in found {
        let Finding { line, hint } = finding;
        let macros = macro_names(alloc, names, placed, vars, line)?;
        let hint = better_macro(alloc, &macros, hint)?;
        better.push(Finding { line, hint })?;
    }
    Ok(better)
}

/// The macros that a value on this line may refer to.
fn macro_names<'a>(
    alloc: Global,
    names: &CommandNames<'a>,
    placed: &'a [PlacedAssignment],
    vars: &'a [Assignment],
    line: usize,
) -> Result<Vec<&'a str>, AllocError>
    ensures { IfOk result (λ macros. map (λ w. w.now) macros.items ≡ macro_names names.now placed.now vars.now line) }
{
    let mut macros = names_above(alloc, placed, line)?;
    for one in vars {
        macros.push(one.name.as_str())?;
    }
    macros.extend_from_slice(names.given)?;
    Ok(macros)
}

/// The names to which something is assigned above the queue line, but on this line.
fn names_above<'a>(
    alloc: Global,
    placed: &'a [PlacedAssignment],
    line: usize,
) -> Result<Vec<&'a str>, AllocError>
    ensures { IfOk result (λ above. map (λ w. w.now) above.items ≡ names_above line placed.now) }
{
    let mut above = Vec::new(alloc);
    for one in placed {
        if one.counts && one.line != line {
            above.push(one.assignment.name.as_str())?;
        }
    }
    Ok(above)
}

/// A hint, of a macro that is assigned nowhere with the nearest of these, where one is near.
fn better_macro(alloc: Global, macros: &[&str], hint: Hint) -> Result<Hint, AllocError>
    ensures { IfOk result (IsBetterMacro (map (λ w. w.now) macros.now) hint) }
{
    let Hint::Unassigned(name) = hint else {
        return Ok(hint);
    };
    match nearest_in_any_case(alloc, name.as_str(), macros)? {
        Some(meant) => Ok(Hint::MisspelledMacro {
            name,
            meant: Text::new(alloc, meant)?,
        }),
        None => Ok(Hint::Unassigned(name)),
    }
}

/// The nearest of some words whatever their case, where one is near.
fn nearest_in_any_case<'a>(
    alloc: Global,
    word: &str,
    words: &[&'a str],
) -> Result<Option<&'a str>, AllocError>
    ensures { IfOk result (λ found. IsNearestInAnyCase word.now (map (λ w. w.now) words.now) (option_map (λ w. w.now) found)) }
{
    let word = word.to_ascii_lowercase(alloc)?;
    let lower_words = in_lower_case(alloc, words)?;
    let lower_words = texts_of(alloc, &lower_words)?;
    match nearest(alloc, word.as_str(), &lower_words)? {
        Some(lower) => Ok(first_same(words, lower)),
        None => Ok(None),
    }
}

/// Words with their letters in lower case.
fn in_lower_case(alloc: Global, words: &[&str]) -> Result<Vec<String>, AllocError>
    ensures { IfOk result (λ lower. map string_bytes lower.items ≡ map str_to_ascii_lowercase (map (λ w. w.now) words.now)) }
{
    let mut lower = Vec::new(alloc);
    for word in words {
        lower.push(word.to_ascii_lowercase(alloc)?)?;
    }
    Ok(lower)
}

/// The texts of strings.
fn texts_of<'a>(alloc: Global, strings: &'a [String]) -> Result<Vec<&'a str>, AllocError>
    ensures { IfOk result (λ texts. map (λ t. t.now) texts.items ≡ map string_bytes strings.now) }
{
    let mut texts = Vec::new(alloc);
    for string in strings {
        texts.push(string.as_str())?;
    }
    Ok(texts)
}

/// The first of some words that is this one in any case.
fn first_same<'a>(words: &[&'a str], word: &str) -> Option<&'a str>
    ensures { option_map (λ w. w.now) result ≡ first_same (map (λ w. w.now) words.now) word.now }
{
    for one in words {
        if is_word(one, word) {
            return Some(*one);
        }
    }
    None
}
