//! Splits arguments into words.

ghost use Rattle.std.specs.Prelude.{◌≡◌, ◌==◌, ◌||◌, ◌&&◌, ◌<◌, ◌-◌, ◌∷◌, ℕ, List, Ok, not, false, length, slice_get, option_map, unwrap_or, IsTrue, if◌then◌else◌};
ghost use Rattle.std.specs.Str.{IsUtf8};
ghost use Rattle.vars_macros.specs.Answers.{Gives};
ghost use Rattle.vars_macros.specs.Cut.{begins_with};
ghost use Rattle.vars_macros.specs.ArgumentGrammar.{is_space_or_tab, SpellsNewPart, SpellsOldPart, SpellsWords, SpellsArguments, IsSplit};
ghost use Rattle.vars_macros.specs.declared.words.Symbol.TheVariants.{Letter, Mark, Gap, Broken};

use crate::cut::begins_with;
use crate::fault::MacroFault;
use crate::words::{Symbol, Words};
use dag_reader::Texts;
use std::alloc::Global;

/// Splits a text of arguments, already expanded, into words.
///
/// A text that begins with a double quote is new style: a double quote ends it, and between the two
/// words are separated by blanks, single quotes open and close a group whose blanks are bytes of the
/// word, two single quotes within a group are one, two double quotes are one, and an empty group is
/// an empty word. Any other text is old style: words are separated by blanks, and a double quote
/// after a backslash is a double quote.
///
/// # Errors
/// `BadQuote` of a text in new style that no double quote ends, in which another is unpaired, or
/// whose group is open at its end. `Memory` where memory runs out.
pub fn split_arguments(alloc: Global, text: &str) -> Result<Texts, MacroFault>
    // The words are those that the text spells, and it is refused where it spells none.
    ensures spelled { IsSplit (SpellsArguments text.now) result }

    // Where the text spells words, these are given, unless memory runs out.
    ensures only { (words : List (List ℕ)) → SpellsArguments text.now words → Gives (λ given. given) result (Ok words) }
{
    split_bytes(alloc, text.as_bytes())
}

fn split_bytes(alloc: Global, text: &[u8]) -> Result<Texts, MacroFault>
    requires { IsUtf8 text.now }
    ensures { IsSplit (SpellsArguments text.now) result }
{
    if begins_with(b'"', text) {
        split_quoted(alloc, &text[1..])
    } else {
        split_old(alloc, text)
    }
}

/// The words up to the double quote at the end.
fn split_quoted(alloc: Global, behind: &[u8]) -> Result<Texts, MacroFault>
    requires { IsUtf8 behind.now }
    ensures { IsSplit (SpellsArguments (34 ∷ behind.now)) result }
{
    if !is_last(b'"', behind) {
        return Err(MacroFault::BadQuote);
    }
    split_new(alloc, &behind[..behind.len() - 1])
}

fn is_last(byte: u8, text: &[u8]) -> bool
    ensures value { result ≡ unwrap_or (option_map (λ b. b == byte) (slice_get text.now (length text.now - 1))) false }
    ensures some { IsTrue result → 0 < length text.now }
{
    match text.last() {
        Some(last) => *last == byte,
        None => false,
    }
}

fn split_new(alloc: Global, text: &[u8]) -> Result<Texts, MacroFault>
    requires { IsUtf8 text.now }
    ensures { IsSplit (SpellsWords SpellsNewPart text.now) result }
{
    let mut words = Words::new(alloc);
    let mut paired = false;
    let mut grouped = false;
    let mut rest = text;
    while let Some((byte, after)) = rest.split_first() {
        if paired {
            paired = false;
        } else {
            words.take(alloc, new_symbol(grouped, *byte, after))?;
            paired = is_pair(grouped, *byte, after);
            grouped = grouped_after(grouped, *byte, after);
        }
        rest = after;
    }
    if grouped {
        return Err(MacroFault::BadQuote);
    }
    words.finish(alloc)
}

fn is_pair(grouped: bool, byte: u8, after: &[u8]) -> bool
    ensures { result ≡ ((byte == 34 || (byte == 39 && grouped)) && begins_with byte after.now) }
{
    (byte == b'"' || byte == b'\'' && grouped) && begins_with(byte, after)
}

fn new_symbol(grouped: bool, byte: u8, after: &[u8]) -> Symbol
    ensures { result ≡ (if (byte == 34 || (byte == 39 && grouped)) && begins_with byte after.now then Letter byte
        else if byte == 34 then Broken
        else if byte == 39 then Mark
        else if is_space_or_tab byte && not grouped then Gap
        else Letter byte) }
{
    if is_pair(grouped, byte, after) {
        return Symbol::Letter(byte);
    }
    match byte {
        b'"' => Symbol::Broken,
        b'\'' => Symbol::Mark,
        _ if is_blank(byte) && !grouped => Symbol::Gap,
        _ => Symbol::Letter(byte),
    }
}

fn grouped_after(grouped: bool, byte: u8, after: &[u8]) -> bool
    ensures { result ≡ (if byte == 39 && not ((byte == 34 || (byte == 39 && grouped)) && begins_with byte after.now) then not grouped else grouped) }
{
    if byte == b'\'' && !is_pair(grouped, byte, after) {
        !grouped
    } else {
        grouped
    }
}

fn split_old(alloc: Global, text: &[u8]) -> Result<Texts, MacroFault>
    requires { IsUtf8 text.now }
    ensures { IsSplit (SpellsWords SpellsOldPart text.now) result }
{
    let mut words = Words::new(alloc);
    let mut escaped = false;
    let mut rest = text;
    while let Some((byte, after)) = rest.split_first() {
        if escaped {
            escaped = false;
        } else {
            words.take(alloc, old_symbol(*byte, after))?;
            escaped = is_escape(*byte, after);
        }
        rest = after;
    }
    words.finish(alloc)
}

fn is_escape(byte: u8, after: &[u8]) -> bool
    ensures { result ≡ (byte == 92 && begins_with 34 after.now) }
{
    byte == b'\\' && begins_with(b'"', after)
}

fn old_symbol(byte: u8, after: &[u8]) -> Symbol
    ensures { result ≡ (if byte == 92 && begins_with 34 after.now then Letter 34 else if is_space_or_tab byte then Gap else Letter byte) }
{
    if is_escape(byte, after) {
        return Symbol::Letter(b'"');
    }
    if is_blank(byte) {
        Symbol::Gap
    } else {
        Symbol::Letter(byte)
    }
}

fn is_blank(byte: u8) -> bool
    ensures { result ≡ is_space_or_tab byte }
{
    byte == b' ' || byte == b'\t'
}
