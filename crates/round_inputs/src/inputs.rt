//! What a round was begun with, and the text that says it.

ghost use Rattle.std.specs.Prelude.{◌≡◌, ◌++◌, map, IfOk, OnOk};
ghost use Rattle.std.specs.List.{list_any};
ghost use Rattle.std.specs.Option.{option_map};
ghost use Rattle.hex.specs.Hex.{encode_lower};
ghost use Rattle.splices_flat.specs.FileSet.{entries_of};
ghost use Rattle.round_inputs.specs.Inputs.{listed_of, rescue_entry, needs_escape, escape_mark, escaped_byte, escaped_path, listed_line, inputs_head, inputs_text_of};

use dag_reader::Text;
use sha2::{Digest, Sha256};
use splices_flat::FileSet;
use std::alloc::{AllocError, Global};

/// A file and its SHA-256 sum.
#[derive(Drop)]
pub struct Listed {
    /// The sum of its bytes.
    pub sum: [u8; 32],
    /// Its path, as the round saw it from the folder in which `run` was called.
    pub path: Text,
}

/// What a round was begun with: the digest of its plan, and each file that this is a digest of.
#[derive(Drop)]
pub struct Inputs {
    /// The digest, as it is in the header of the round's journal.
    pub digest: [u8; 32],
    /// The files in the order of the bytes of their paths, and then the rescue file that the round read.
    pub files: Vec<Listed>,
}

/// A file of these bytes.
pub fn list_file(alloc: Global, path: &str, bytes: &[u8]) -> Result<Listed, AllocError>
    ensures { IfOk result (λ file. file ≡ listed_of (path.now, bytes.now)) }
{
    Ok(Listed {
        sum: Sha256::digest(bytes),
        path: Text::new(alloc, path)?,
    })
}

/// The files of a set with their sums.
fn listed_files(alloc: Global, files: &FileSet) -> Result<Vec<Listed>, AllocError>
    ensures { IfOk result (λ found. found.items ≡ map listed_of (entries_of files.now)) }
{
    let mut found = Vec::new(alloc);
    for (path, bytes) in files.iter() {
        found.push(list_file(alloc, path.as_str(), bytes.as_slice())?)?;
    }
    Ok(found)
}

/// What a round was begun with that has this digest: the files of its set, and the rescue file that it read,
/// with its path, if it read one.
pub fn inputs_of(
    alloc: Global,
    digest: &[u8; 32],
    files: &FileSet,
    rescue: Option<(&str, &[u8])>,
) -> Result<Inputs, AllocError>
    ensures digest { IfOk result (λ inputs. inputs.digest ≡ digest.now) }
    ensures files { IfOk result (λ inputs. inputs.files.items
        ≡ map listed_of (entries_of files.now
        ++ rescue_entry (option_map (λ file. (file.0.now, file.1.now)) rescue.entry))) }
{
    let mut found = listed_files(alloc, files)?;
    if let Some((path, bytes)) = rescue {
        found.push(list_file(alloc, path, bytes)?)?;
    }
    Ok(Inputs {
        digest: *digest,
        files: found,
    })
}

/// Whether `sha256sum` writes this byte of a name in another way.
fn needs_escape(byte: u8) -> bool
    ensures { result ≡ needs_escape byte }
{
    byte == b'\\' || byte == b'\n' || byte == b'\r'
}

/// Adds a byte of a name, as `sha256sum` writes it.
fn push_byte(text: &mut Vec<u8>, byte: u8) -> Result<(), AllocError>
    ensures { OnOk result (text.new.items ≡ text.old.items ++ escaped_byte byte) }
{
    match byte {
        b'\\' => text.extend_from_slice(b"\\\\"),
        b'\n' => text.extend_from_slice(b"\\n"),
        b'\r' => text.extend_from_slice(b"\\r"),
        byte => {
            text.push(byte)?;
            Ok(())
        }
    }
}

/// Adds a name.
fn push_name(text: &mut Vec<u8>, name: &[u8]) -> Result<(), AllocError>
    ensures { OnOk result (text.new.items ≡ text.old.items ++ escaped_path name.now) }
{
    for byte in name {
        push_byte(text, *byte)?;
    }
    Ok(())
}

/// Adds bytes as hex digits.
pub(crate) fn push_hex(alloc: Global, text: &mut Vec<u8>, bytes: &[u8]) -> Result<(), AllocError>
    ensures { OnOk result (text.new.items ≡ text.old.items ++ encode_lower bytes.now) }
{
    let digits = hex::encode(alloc, bytes)?;
    text.extend_from_slice(digits.as_bytes())
}

/// Whether a name has such a byte.
fn has_escapes(name: &[u8]) -> bool
    ensures { result ≡ list_any needs_escape name.now }
{
    name.iter().any(|byte| needs_escape(*byte))
}

/// Adds the backslash before the line of a name that is written in another way.
fn push_mark(text: &mut Vec<u8>, name: &[u8]) -> Result<(), AllocError>
    ensures { OnOk result (text.new.items ≡ text.old.items ++ escape_mark name.now) }
{
    if has_escapes(name) {
        text.push(b'\\')?;
    }
    Ok(())
}

/// Adds the line of a file, as `sha256sum` writes it.
fn push_line(alloc: Global, text: &mut Vec<u8>, file: &Listed) -> Result<(), AllocError>
    ensures { OnOk result (text.new.items ≡ text.old.items ++ listed_line file.now) }
{
    let name = file.path.as_str().as_bytes();
    push_mark(text, name)?;
    push_hex(alloc, text, &file.sum[..])?;
    text.extend_from_slice(b"  ")?;
    push_name(text, name)?;
    text.extend_from_slice(b"\n")
}

/// Adds the comment that tells the digest.
fn push_head(alloc: Global, text: &mut Vec<u8>, digest: &[u8; 32]) -> Result<(), AllocError>
    ensures { OnOk result (text.new.items ≡ text.old.items ++ inputs_head digest.now) }
{
    text.extend_from_slice(b"# dagrun inputs, digest ")?;
    push_hex(alloc, text, &digest[..])?;
    text.extend_from_slice(b"\n")
}

/// The text of `x.dag.inputs`: a comment with the digest, and a line for each file, as `sha256sum` writes
/// and reads it. In a name a backslash, a line feed and a carriage return stand as `\\`, `\n` and `\r`, and
/// such a line begins with a backslash.
pub fn inputs_text(alloc: Global, inputs: &Inputs) -> Result<Vec<u8>, AllocError>
    ensures { IfOk result (λ text. text.items ≡ inputs_text_of inputs.now.digest inputs.now.files.items) }
{
    let mut text = Vec::new(alloc);
    push_head(alloc, &mut text, &inputs.digest)?;
    for file in inputs.files.iter() {
        push_line(alloc, &mut text, file)?;
    }
    Ok(text)
}
