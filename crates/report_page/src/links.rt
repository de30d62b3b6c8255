//! Links to files.

ghost use Rattle.std.specs.Prelude.{◌≡◌, ◌++◌, OnOk, string_bytes};
ghost use Rattle.report_page.specs.Links.{is_absolute, is_kept, linked_byte, link_to};

use percent_encoding::percent_encode_byte;
use std::alloc::AllocError;

/// Whether a path begins at the root.
pub(crate) fn is_absolute(path: &str) -> bool
    ensures { result ≡ is_absolute path.now }
{
    match path.as_bytes().first() {
        Some(first) => *first == b'/',
        None => false,
    }
}

/// Whether a byte of a path is in a link as it is.
fn is_kept(byte: u8) -> bool
    ensures { result ≡ is_kept byte }
{
    byte.is_ascii_alphanumeric()
        || byte == b'/'
        || byte == b'-'
        || byte == b'.'
        || byte == b'_'
        || byte == b'~'
}

/// Adds a byte of a path, as a link has it.
fn push_byte(text: &mut String, byte: u8) -> Result<(), AllocError>
    ensures { OnOk result (string_bytes text.new ≡ string_bytes text.old ++ linked_byte byte) }
{
    if is_kept(byte) {
        text.push(char::from(byte))
    } else {
        text.push_str(percent_encode_byte(byte))
    }
}

/// Adds where a link to the file of an absolute path leads.
#[tactic(auto, unfolding(crate::specs::Links::link_to))]
pub(crate) fn push_link(text: &mut String, path: &str) -> Result<(), AllocError>
    ensures { OnOk result (string_bytes text.new ≡ string_bytes text.old ++ link_to path.now) }
{
    text.push_str("file://")?;
    for byte in path.bytes() {
        push_byte(text, byte)?;
    }
    Ok(())
}
