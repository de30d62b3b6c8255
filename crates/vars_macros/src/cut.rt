//! Cuts a text from the left.

ghost use Rattle.std.specs.Prelude.{◌≡◌, ◌<◌, ◌≤◌, Some, None, false, length, take, drop, slice_get, IfSome, IfNone, option_copied, option_map, if◌then◌else◌, codes};
ghost use Rattle.std.specs.List.{list_all, take_while};
ghost use Rattle.vars_macros.specs.Names.{is_reference_name, is_name_byte, same_name};
ghost use Rattle.vars_macros.specs.Cut.{closing, is_foreign, first_piece, after_dollar, reference_to, colon_in, reference_name, default_of, begins_with};
ghost use Rattle.vars_macros.specs.NamePlaces.{IsNameOf};
ghost use Rattle.vars_macros.specs.Pieces.{piece_of, PieceHasNames, IsNamedIn};
ghost use Rattle.vars_macros.specs.Scopes.{text_of_part};
ghost use Rattle.vars_macros.specs.declared.cut.Naming.TheVariants.{Numbered};

use crate::fault::MacroFault;
use crate::meaning::same_name;
use crate::naming::Name;
use crate::part::Part;

/// What comes first in a text, and the text after it.
pub(crate) enum Piece<'a> {
    End,
    Plain(u8, Part<'a>),
    Reference(Part<'a>, Part<'a>),
    Bad(MacroFault),
}

/// Cuts the first piece off.
#[tactic(auto, unfolding(crate::specs::Cut::first_piece))]
pub(crate) fn first_piece(text: Part<'_>) -> Piece<'_>
    ensures piece { piece_of result ≡ first_piece text.entry.bytes.now }
    ensures names { PieceHasNames text.entry.names.now result }
{
    match text.bytes() {
        [] => Piece::End,
        [b'$', ..] => after_dollar(text.behind(1)),
        [byte, ..] => Piece::Plain(*byte, text.behind(1)),
    }
}

/// The first piece of a text that a dollar sign begins, which is left out.
fn after_dollar(text: Part<'_>) -> Piece<'_>
    ensures piece { piece_of result ≡ after_dollar text.entry.bytes.now }
    ensures names { PieceHasNames text.entry.names.now result }
{
    if begins_with(b'(', text.bytes()) {
        return reference(text);
    }
    if is_foreign(text.bytes()) {
        return Piece::Bad(MacroFault::BadReference);
    }
    Piece::Plain(b'$', text)
}

/// The reference that a text begins with, after its dollar sign.
fn reference(text: Part<'_>) -> Piece<'_>
    requires { slice_get text.bytes.now 0 ≡ Some 40 }
    ensures piece { piece_of result ≡ reference_to (closing (drop 1 text.entry.bytes.now)) (drop 1 text.entry.bytes.now) }
    ensures names { PieceHasNames text.entry.names.now result }
{
    match text.closing() {
        Some(n) => {
            let behind = text.behind(1);
            Piece::Reference(behind.first(n), behind.behind(n + 1))
        }
        None => Piece::Bad(MacroFault::Unclosed),
    }
}

/// Whether another dollar sign or a word comes first, and then an opening parenthesis.
#[tactic(auto, unfolding(crate::specs::Cut::is_foreign))]
fn is_foreign(text: &[u8]) -> bool
    ensures { result ≡ is_foreign text.now }
{
    match text {
        [] => false,
        [b'$', rest @ ..] => begins_with(b'(', rest),
        [byte, ..] => is_name_byte(*byte) && begins_with(b'(', &text[word_len(text)..]),
    }
}

/// How many bytes at the front may be in a name.
pub(crate) fn word_len(text: &[u8]) -> usize
    ensures value { result ≡ length (take_while is_name_byte text.now) }
    ensures within { result ≤ length text.now }
{
    text.iter().take_while(|b| is_name_byte(**b)).count()
}

/// Whether this byte comes first.
pub(crate) fn begins_with(byte: u8, text: &[u8]) -> bool
    ensures { result ≡ begins_with byte text.now }
{
    match text {
        [] => false,
        [first, ..] => *first == byte,
    }
}

/// How the name of a reference is known: by its number, or only as a text.
#[derive(Clone, Copy)]
pub(crate) enum Naming<'a> {
    Numbered(usize),
    Spelled(&'a str),
}

/// What a reference names, and its default.
#[derive(Clone, Copy)]
pub(crate) struct Named<'a> {
    pub(crate) name: &'a [u8],
    pub(crate) naming: Naming<'a>,
    pub(crate) default: Option<Part<'a>>,
}

/// The reference between whose parentheses this is, if it may have its name.
pub(crate) fn reference_in(inside: Part<'_>) -> Option<Named<'_>>
    ensures some { IfSome result (λ named. IsNamedIn inside.entry named) }
    ensures none { IfNone result (is_reference_name (reference_name inside.entry.bytes.now) ≡ false) }
{
    match inside.name() {
        Some(name) => known_reference(inside, name),
        None => spelled_reference(inside),
    }
}

/// The same where the name that comes first is known.
fn known_reference(inside: Part<'_>, name: Name) -> Option<Named<'_>>
    requires { IsNameOf inside.names.now inside.bytes.now name }
    ensures some { IfSome result (λ named. IsNamedIn inside.entry named) }
    ensures none { IfNone result (is_reference_name (reference_name inside.entry.bytes.now) ≡ false) }
{
    let rest = inside.behind(name.len).bytes();
    if rest.is_empty() {
        return Some(numbered(inside, name, None));
    }
    if begins_with(b':', rest) {
        let default = inside.behind(name.len + 1);
        return Some(numbered(inside, name, Some(default)));
    }
    spelled_reference(inside)
}

fn numbered<'a>(inside: Part<'a>, name: Name, default: Option<Part<'a>>) -> Named<'a>
    requires { name.len ≤ length inside.bytes.now }
    ensures name { result.name.now ≡ take name.len inside.entry.bytes.now }
    ensures naming { result.naming ≡ Numbered name.number }
    ensures default { result.default ≡ default.entry }
{
    Named {
        name: inside.first(name.len).bytes(),
        naming: Naming::Numbered(name.number),
        default,
    }
}

/// The same where all is read from the bytes.
fn spelled_reference(inside: Part<'_>) -> Option<Named<'_>>
    ensures some { IfSome result (λ named. IsNamedIn inside.entry named) }
    ensures none { IfNone result (is_reference_name (reference_name inside.entry.bytes.now) ≡ false) }
{
    let (name, default) = name_and_default(inside);
    let name = lawful_name(name)?;
    Some(Named {
        name: name.as_bytes(),
        naming: Naming::Spelled(name),
        default,
    })
}

/// The name of a reference, which is what comes before a colon between its parentheses, and the
/// default after it.
fn name_and_default(inside: Part<'_>) -> (&[u8], Option<Part<'_>>)
    ensures name { result.0.now ≡ reference_name inside.entry.bytes.now }
    ensures default { option_map text_of_part result.1 ≡ default_of inside.entry.bytes.now }
    ensures names { IfSome result.1 (λ default. default.names.now ≡ inside.entry.names.now) }
{
    match colon_in(inside.bytes()) {
        Some(n) => (inside.first(n).bytes(), Some(inside.behind(n + 1))),
        None => (inside.bytes(), None),
    }
}

fn colon_in(inside: &[u8]) -> Option<usize>
    ensures value { result ≡ colon_in inside.now }
    ensures within { IfSome result (λ n. n < length inside.now) }
{
    inside.iter().position(|b| *b == b':')
}

#[tactic(auto, unfolding(crate::specs::Names::is_name_byte))]
fn is_name_byte(byte: u8) -> bool
    ensures { result ≡ is_name_byte byte }
{
    byte.is_ascii_alphanumeric() || byte == b'_' || byte == b'.'
}

/// The name, if a reference may have it.
#[tactic(auto, unfolding(crate::specs::Names::is_reference_name))]
pub(crate) fn lawful_name(name: &[u8]) -> Option<&str>
    ensures { option_copied result ≡ (if is_reference_name name.now then Some name.now else None) }
{
    if name.is_empty() || !has_name_bytes(name) {
        return None;
    }
    match str::from_utf8(name) {
        Ok(name) => unless_dollar(name),
        Err(_) => None,
    }
}

fn unless_dollar(name: &str) -> Option<&str>
    ensures { option_copied result ≡ (if same_name name.now (codes "DOLLAR") then None else Some name.now) }
{
    if same_name(name.as_bytes(), b"DOLLAR") {
        None
    } else {
        Some(name)
    }
}

fn has_name_bytes(name: &[u8]) -> bool
    ensures { result ≡ list_all is_name_byte name.now }
{
    name.iter().all(|b| is_name_byte(*b))
}
