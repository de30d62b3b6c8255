//! Reading what a round was begun with.

ghost use Rattle.std.specs.Prelude.{◌≡◌, IfOk, find};
ghost use Rattle.std.specs.Option.{option_map};
ghost use Rattle.std.specs.Str.{bytes_eq};
ghost use Rattle.round_inputs.specs.Inputs.{inputs_text_of};

use crate::fault::BadBytes;
use crate::inputs::{Inputs, Listed, inputs_text};
use dag_reader::Text;
use hex::FromHex;
use std::alloc::{AllocError, Global};

/// A sum or a digest, if these are its digits.
fn sum_in(digits: &str) -> Option<[u8; 32]> {
    <[u8; 32] as FromHex>::from_hex(digits).ok()
}

/// The character that comes after a backslash for another one.
fn unescaped(c: char) -> char {
    match c {
        'n' => '\n',
        'r' => '\r',
        c => c,
    }
}

/// The name that is written with backslashes.
fn name_in(alloc: Global, written: &str) -> Result<Text, AllocError> {
    let mut name = String::new(alloc);
    let mut is_behind = false;
    for c in written.chars() {
        if is_behind {
            name.push(unescaped(c))?;
            is_behind = false;
        } else if c == '\\' {
            is_behind = true;
        } else {
            name.push(c)?;
        }
    }
    Text::new(alloc, name.as_str())
}

/// The path of a line, of which this comes after the sum.
fn path_in(alloc: Global, written: &str, has_mark: bool) -> Result<Text, AllocError> {
    if has_mark {
        return name_in(alloc, written);
    }
    Text::new(alloc, written)
}

/// The file of a line.
fn file_in(alloc: Global, line: &str) -> Result<Listed, BadBytes> {
    let (has_mark, rest) = match line.strip_prefix('\\') {
        Some(rest) => (true, rest),
        None => (false, line),
    };
    let Some((digits, written)) = rest.split_once("  ") else {
        return Err(BadBytes::NotSpelled);
    };
    let Some(sum) = sum_in(digits) else {
        return Err(BadBytes::NotSpelled);
    };
    Ok(Listed {
        sum,
        path: path_in(alloc, written, has_mark)?,
    })
}

/// The digest of the first line.
fn digest_in(line: &str) -> Option<[u8; 32]> {
    sum_in(line.strip_prefix("# dagrun inputs, digest ")?)
}

/// The files of lines.
fn files_in(alloc: Global, text: &str) -> Result<Vec<Listed>, BadBytes> {
    let mut files = Vec::new(alloc);
    for line in text.lines() {
        files.push(file_in(alloc, line)?)?;
    }
    Ok(files)
}

/// What lines say, however they are spelled.
fn lines_in(alloc: Global, bytes: &[u8]) -> Result<Inputs, BadBytes> {
    let Ok(text) = str::from_utf8(bytes) else {
        return Err(BadBytes::NotSpelled);
    };
    let Some((first, rest)) = text.split_once('\n') else {
        return Err(BadBytes::NotSpelled);
    };
    let Some(digest) = digest_in(first) else {
        return Err(BadBytes::NotSpelled);
    };
    Ok(Inputs {
        digest,
        files: files_in(alloc, rest)?,
    })
}

/// What these bytes, which are those of a file `x.dag.inputs`, say that a round was begun with.
///
/// # Errors
/// `NotSpelled` where `inputs_text` spells nothing so, and `Memory`.
pub fn inputs_in(alloc: Global, bytes: &[u8]) -> Result<Inputs, BadBytes>
    // What is read is spelled by just these bytes.
    ensures { IfOk result (λ inputs. inputs_text_of inputs.digest inputs.files.items ≡ bytes.now) }
{
    let inputs = lines_in(alloc, bytes)?;
    let text = inputs_text(alloc, &inputs)?;
    if text.as_slice() != bytes {
        return Err(BadBytes::NotSpelled);
    }
    Ok(inputs)
}

impl Inputs {
    /// The sum of the file of this path, if it is one of those that the round was begun with.
    pub fn sum_of(&self, path: &str) -> Option<[u8; 32]>
        // It is that of the first file of this path.
        ensures { result ≡ option_map (λ file. file.sum) (find (λ file. bytes_eq path.now file.path) self.now.files.items) }
    {
        let found = self.files.iter().find(|file| path == file.path.as_str())?;
        Some(found.sum)
    }
}
