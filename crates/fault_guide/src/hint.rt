//! What is displayed after a refusal.

ghost use Rattle.std.specs.Prelude.{◌≡◌, ◌++◌, [], true, false, is_some, option_map, IfOk, IfSome, OnOk, string_bytes, codes};
ghost use Rattle.std.specs.Str.{bytes_eq};
ghost use Rattle.fault_guide.specs.Told.{reason_line, tells_what_to_write, guide_text, IsGuideText, IsAdvice, IsHint};

use crate::excerpt::push_excerpt;
use crate::left_out::instead_of;
use crate::near::nearest;
use crate::refusal::{Refusal, SourcePlace};
use crate::{Fault, fault_of, faults};
use log_lines::push_word;
use std::alloc::{AllocError, Global};
use std::str;

/// The first words of lines of a DAG file.
const COMMANDS: [&str; 12] = [
    "JOB",
    "PARENT",
    "SCRIPT",
    "RETRY",
    "PRE_SKIP",
    "VARS",
    "PRIORITY",
    "CATEGORY",
    "MAXJOBS",
    "ABORT-DAG-ON",
    "FINAL",
    "SPLICE",
];

/// What some editors write before the first character of a file, and nobody sees.
const BYTE_ORDER_MARK: char = '\u{feff}';

/// What is known beside the line of a refusal.
#[derive(Clone, Copy)]
pub struct Evidence<'a> {
    /// The bytes of the file whose place it names, where it can be read.
    pub source: Option<&'a [u8]>,
    /// What the system said to a look at the path that it names, or to a call of the journal.
    pub reason: Option<&'a str>,
}

/// The word of a line that begins at a place.
fn word_at<'a>(source: &'a [u8], place: &SourcePlace<'_>) -> Option<&'a str> {
    let line = source
        .split(|byte| *byte == b'\n')
        .nth(place.line.checked_sub(1)?)?;
    let line = str::from_utf8(line).ok()?;
    let front = line.get(place.column?.checked_sub(1)?..)?;
    front.split_whitespace().next()
}

/// Whether a word begins a line that declares a node or a splice.
fn declares(word: &str) -> bool {
    ["JOB", "FINAL", "SPLICE"]
        .iter()
        .any(|command| command.eq_ignore_ascii_case(word))
}

/// The name that a line declares.
fn declared(line: &str) -> Option<&str> {
    let mut words = line.split_whitespace();
    if declares(words.next()?) {
        words.next()
    } else {
        None
    }
}

/// The command that may have been meant by a first word.
fn near_command(alloc: Global, word: &str) -> Result<Option<&'static str>, AllocError> {
    let upper = word.to_ascii_uppercase(alloc)?;
    nearest(alloc, upper.as_str(), &COMMANDS)
}

/// The name that a text declares and that may have been meant by a word.
fn near_name<'a>(
    alloc: Global,
    word: &str,
    source: &'a str,
) -> Result<Option<&'a str>, AllocError> {
    let mut names: Vec<&'a str> = Vec::new(alloc);
    for line in source.lines() {
        if let Some(name) = declared(line) {
            names.push(name)?;
        }
    }
    nearest(alloc, word, names.as_slice())
}

/// The word that may have been meant in place of the one that is refused.
fn meant<'a>(
    alloc: Global,
    refusal: &Refusal<'_>,
    word: &str,
    source: &'a str,
) -> Result<Option<&'a str>, AllocError> {
    match refusal.code {
        "L2" => near_command(alloc, word),
        "S5" => near_name(alloc, word, source),
        _ => Ok(None),
    }
}

/// Adds how a byte order mark is taken away from the file of this path.
fn push_byte_order_mark(text: &mut String, path: &str) -> Result<(), AllocError> {
    text.push_str("    a byte order mark is before it: sed -i '1s/^\\xEF\\xBB\\xBF//' ")?;
    // So that it is no option.
    if path.starts_with('-') {
        text.push_str("./")?;
    }
    push_word(text, path)?;
    text.push('\n')
}

/// Adds what may have been meant at a place.
fn push_meant(
    alloc: Global,
    text: &mut String,
    refusal: &Refusal<'_>,
    source: &[u8],
    place: &SourcePlace<'_>,
) -> Result<(), AllocError> {
    let Ok(lines) = str::from_utf8(source) else {
        return Ok(());
    };
    if place.line == 1 && lines.starts_with(BYTE_ORDER_MARK) {
        return push_byte_order_mark(text, place.path);
    }
    let Some(word) = word_at(source, place) else {
        return Ok(());
    };
    if let Some(other) = meant(alloc, refusal, word, lines)? {
        writeln!(text, "    is {other} meant?")?;
    }
    Ok(())
}

/// What is said of the place that a refusal names: the line of the file, and what may have been meant there.
fn about_place(
    alloc: Global,
    refusal: &Refusal<'_>,
    evidence: &Evidence<'_>,
) -> Result<String, AllocError>
    ensures { is_some evidence.now.source ≡ false → IfOk result (λ text. string_bytes text ≡ []) }
{
    let mut text = String::new(alloc);
    let Some(source) = evidence.source else {
        return Ok(text);
    };
    if let Some(place) = refusal.place() {
        push_excerpt(&mut text, source, &place)?;
        push_meant(alloc, &mut text, refusal, source, &place)?;
    }
    Ok(text)
}

/// Adds what the system said.
fn push_reason(text: &mut String, reason: Option<&str>) -> Result<(), AllocError>
    ensures { OnOk result (string_bytes text.new ≡ string_bytes text.old ++ reason_line (option_map (λ r. r.now) reason.entry)) }
{
    match reason {
        Some(reason) => writeln!(text, "    {reason}"),
        None => Ok(()),
    }
}

/// Whether what is to be written instead is displayed at once.
fn tells_what_to_write(code: &str) -> bool
    ensures { result ≡ tells_what_to_write code.now }
{
    matches!(
        code,
        "L3" | "U4" | "U5" | "V2" | "V4" | "P1" | "P4" | "J5" | "H1"
    )
}

/// Adds what the guide says of a fault of this code, if there is one: all of it for those of which one wants to
/// know what to write instead, else where it is to be found.
fn push_fault(text: &mut String, code: &str, fault: Option<&Fault>) -> Result<(), AllocError>
    ensures { OnOk result (string_bytes text.new ≡ string_bytes text.old ++ guide_text code.now (option_map (λ f. f.now) fault.entry)) }
{
    match fault {
        Some(fault) if tells_what_to_write(code) => text.push_str(fault.advice),
        Some(_) => writeln!(text, "    dagrun explain {code} says more"),
        None => Ok(()),
    }
}

/// Adds what the guide says of the fault of this code, if it has one.
fn push_guide(alloc: Global, text: &mut String, code: &str) -> Result<(), AllocError>
    ensures { OnOk result (IsGuideText code.now (string_bytes text.old) (string_bytes text.new)) }
{
    let faults = faults(alloc)?;
    push_fault(text, code, fault_of(&faults, code))
}

/// What to write in place of a word of DAGMan's that is left out, where the file has that word at the place of the refusal.
fn instead_at(refusal: &Refusal<'_>, evidence: &Evidence<'_>) -> Option<&'static str>
    ensures code { IfSome result (λ instead. bytes_eq refusal.now.code.now (codes "L3") ≡ true) }
    ensures source { IfSome result (λ instead. is_some evidence.now.source ≡ true) }
{
    if refusal.code != "L3" {
        return None;
    }
    match (evidence.source, refusal.place()) {
        (Some(source), Some(place)) => instead_of(word_at(source, &place)?),
        _ => None,
    }
}

/// Adds what to do.
fn push_advice(
    alloc: Global,
    text: &mut String,
    refusal: &Refusal<'_>,
    evidence: &Evidence<'_>,
) -> Result<(), AllocError>
    ensures { OnOk result (IsAdvice refusal.now.code.now (is_some evidence.now.source) (string_bytes text.old) (string_bytes text.new)) }
{
    match instead_at(refusal, evidence) {
        Some(instead) => writeln!(text, "{instead}    docs/FROM_DAGMAN.md has an example."),
        None => push_guide(alloc, text, refusal.code),
    }
}

/// What is displayed after the line of a refusal, each line of it after four blanks: the line of the file at
/// the place that it names, what may have been meant there, what the system said, and what to do.
///
/// # Errors
/// Lack of memory.
pub fn hint_text(
    alloc: Global,
    refusal: &Refusal<'_>,
    evidence: &Evidence<'_>,
) -> Result<String, AllocError>
    ensures { IfOk result (λ text. IsHint refusal.now.code.now (option_map (λ r. r.now) evidence.now.reason) (is_some evidence.now.source)
        (string_bytes text)) }
{
    let mut text = about_place(alloc, refusal, evidence)?;
    push_reason(&mut text, evidence.reason)?;
    push_advice(alloc, &mut text, refusal, evidence)?;
    Ok(text)
}
