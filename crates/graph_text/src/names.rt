//! Names in a picture.

ghost use Rattle.std.specs.Prelude.{◌≡◌, ◌++◌, map, flat_map, chars, OnOk, IfOk, string_bytes};
ghost use Rattle.graph_text.specs.Names.{escaped_label, quoted_label, parts_of, splices_among, own_in};

use std::alloc::{AllocError, Global};

/// Adds what stands for a character between quotes.
fn push_escaped(text: &mut String, character: char) -> Result<(), AllocError>
    ensures { OnOk result (string_bytes text.new ≡ string_bytes text.old ++ escaped_label character) }
{
    match character {
        '"' => text.push_str("\\\""),
        '\\' => text.push_str("\\\\"),
        '&' => text.push_str("&amp;"),
        other => text.push(other),
    }
}

/// Adds what stands for the characters of a text.
fn push_all_escaped(text: &mut String, name: &str) -> Result<(), AllocError>
    ensures { OnOk result (string_bytes text.new ≡ string_bytes text.old ++ flat_map escaped_label (chars name.now)) }
{
    for character in name.chars() {
        push_escaped(text, character)?;
    }
    Ok(())
}

/// Adds a text between quotes, so that a reader of DOT reads just this text.
pub(crate) fn push_quoted(text: &mut String, name: &str) -> Result<(), AllocError>
    ensures { OnOk result (string_bytes text.new ≡ string_bytes text.old ++ quoted_label name.now) }
{
    text.push_str("\"")?;
    push_all_escaped(text, name)?;
    text.push_str("\"")
}

/// The parts of a full name: the splices in which the node is, the outermost first, and its own
/// name.
pub(crate) fn parts_of<'a>(alloc: Global, name: &'a str) -> Result<Vec<&'a str>, AllocError>
    ensures { IfOk result (λ parts. map (λ part. part.now) parts.items ≡ parts_of name.now) }
{
    name.split('+').collect(alloc)
}

/// The splices among the parts of a name.
pub(crate) fn scope_in<'s, 'a>(parts: &'s [&'a str]) -> &'s [&'a str]
    ensures { map (λ part. part.now) result.now ≡ splices_among (map (λ part. part.now) parts.now) }
{
    match parts.len() {
        0 => parts,
        count => &parts[..count - 1],
    }
}

/// A node's own name, the last part.
pub(crate) fn own_in<'a>(parts: &[&'a str]) -> &'a str
    ensures { result.now ≡ own_in (map (λ part. part.now) parts.now) }
{
    match parts.last() {
        Some(part) => *part,
        None => "",
    }
}
