//! The macros to which a text refers.

ghost use Rattle.std.specs.Prelude.{◌≡◌, ◌≤◌, ◌++◌, length, IfOk, OnOk};
ghost use Rattle.std.specs.Option.{option_to_list};
ghost use Rattle.std.specs.List.{take_while};
ghost use Rattle.std.specs.Str.{IsUtf8};
ghost use Rattle.file_hints.specs.References.{references, reference_in, is_reference_byte, begins_with};

use dag_reader::Text;
use std::alloc::{AllocError, Global};
use std::str;

/// A reference `$(name)` or `$(name:default)`.
#[derive(Drop)]
pub struct Reference {
    pub name: Text,
    pub has_default: bool,
}

/// The references of a text, in their order, those within defaults among them. What follows two dollar signs is none.
///
/// # Errors
/// Lack of memory.
pub fn references(alloc: Global, text: &str) -> Result<Vec<Reference>, AllocError>
    ensures { IfOk result (λ found. found.items ≡ references text.now) }
{
    let mut found = Vec::new(alloc);
    push_references(alloc, &mut found, text)?;
    Ok(found)
}

/// Adds the references of a text.
pub(crate) fn push_references(
    alloc: Global,
    found: &mut Vec<Reference>,
    text: &str,
) -> Result<(), AllocError>
    ensures { OnOk result (found.new.items ≡ found.old.items ++ references text.now) }
{
    let mut rest = text.as_bytes();
    let mut dollar = false;
    while let [byte, behind @ ..] = rest {
        if dollar {
            push_reference(alloc, found, rest)?;
        }
        dollar = !dollar && *byte == b'$';
        rest = behind;
    }
    Ok(())
}

/// Adds the reference that begins in front of a text, after a dollar sign, if there is one.
fn push_reference(alloc: Global, found: &mut Vec<Reference>, text: &[u8]) -> Result<(), AllocError>
    ensures { OnOk result (found.new.items ≡ found.old.items ++ reference_in text.now) }
{
    if let Some(reference) = reference_in(alloc, text)? {
        found.push(reference)?;
    }
    Ok(())
}

/// The reference that begins in front of a text with its parenthesis, after a dollar sign.
fn reference_in(alloc: Global, text: &[u8]) -> Result<Option<Reference>, AllocError>
    ensures { IfOk result (λ found. option_to_list found ≡ reference_in text.now) }
{
    let [b'(', behind @ ..] = text else {
        return Ok(None);
    };
    let (name, after) = behind.split_at(name_length(behind));
    let has_default = begins_with(b':', after);
    if !has_default && !begins_with(b')', after) {
        return Ok(None);
    }
    Ok(Some(Reference {
        name: text_of(alloc, name)?,
        has_default,
    }))
}

/// How many bytes of a name stand in front.
fn name_length(text: &[u8]) -> usize
    ensures value { result ≡ length (take_while is_reference_byte text.now) }
    ensures within { result ≤ length text.now }
{
    text.iter().take_while(|byte| is_name_byte(**byte)).count()
}

fn is_name_byte(byte: u8) -> bool
    ensures { result ≡ is_reference_byte byte }
{
    byte.is_ascii_alphanumeric() || byte == b'_' || byte == b'.'
}

pub(crate) fn begins_with(byte: u8, text: &[u8]) -> bool
    ensures { result ≡ begins_with byte text.now }
{
    match text {
        [] => false,
        [first, ..] => *first == byte,
    }
}

/// The bytes as a text.
fn text_of(alloc: Global, bytes: &[u8]) -> Result<Text, AllocError>
    requires { IsUtf8 bytes.now }
    ensures { IfOk result (λ text. text ≡ bytes.now) }
{
    match str::from_utf8(bytes) {
        Ok(text) => Text::new(alloc, text),
        Err(_) => unreachable!(),
    }
}
