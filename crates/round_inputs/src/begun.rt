//! The files that a round was begun with, as a text that keeps them byte for byte.

ghost use Rattle.std.specs.Prelude.{◌≡◌, ◌++◌, ◌<◌, ◌≤◌, ℕ, List, codes, decimal, length, IfOk, IfSome, OnOk};
ghost use Rattle.std.specs.List.{flat_map};
ghost use Rattle.std.specs.Option.{option_map};
ghost use Rattle.hex.specs.Hex.{encode_lower};
ghost use Rattle.splices_flat.specs.FileSet.{entries_of};
ghost use Rattle.round_inputs.specs.Begun.{begun_head, begun_sizes, begun_piece, begun_file, begun_rescue, rescue_kept, begun_text_of};

use crate::fault::BadBytes;
use crate::inputs::push_hex;
use dag_reader::Text;
use hex::FromHex;
use itoa::Buffer;
use memchr::memchr;
use splices_flat::FileSet;
use std::alloc::{AllocError, Global};

/// What a round was begun with.
#[derive(Drop)]
pub struct Begun {
    /// The digest of its plan, as it is in the header of the round's journal.
    pub digest: [u8; 32],
    /// The DAG file, the files of its splices and the submit files, by their paths as the round saw them.
    pub files: FileSet,
    /// The path and the bytes of the rescue file that the round read, if it read one.
    pub rescue: Option<(Text, Vec<u8>)>,
}

/// Adds a digest, and a line feed.
fn push_digest(alloc: Global, text: &mut Vec<u8>, digest: &[u8; 32]) -> Result<(), AllocError>
    ensures { OnOk result (text.new.items ≡ text.old.items ++ (encode_lower digest.now ++ codes "\n")) }
{
    push_hex(alloc, text, &digest[..])?;
    text.extend_from_slice(b"\n")
}

/// Adds the comment with the digest.
pub(crate) fn push_begun_head(
    alloc: Global,
    text: &mut Vec<u8>,
    digest: &[u8; 32],
) -> Result<(), AllocError>
    ensures { OnOk result (text.new.items ≡ text.old.items ++ begun_head digest.now) }
{
    text.extend_from_slice(b"# dagrun begun, digest ")?;
    push_digest(alloc, text, digest)?;
    Ok(())
}

/// Adds a number in decimal.
fn push_number(text: &mut Vec<u8>, number: usize) -> Result<(), AllocError>
    ensures { OnOk result (text.new.items ≡ text.old.items ++ decimal number) }
{
    let mut digits = Buffer::new();
    text.extend_from_slice(digits.format(number).as_bytes())
}

/// Adds the line of a file: a word, and how many bytes its path and it have.
fn push_sizes(text: &mut Vec<u8>, word: &[u8], path: usize, bytes: usize) -> Result<(), AllocError>
    ensures { OnOk result (text.new.items ≡ text.old.items ++ begun_sizes word.now path bytes) }
{
    text.extend_from_slice(word)?;
    push_number(text, path)?;
    text.extend_from_slice(b" ")?;
    push_number(text, bytes)?;
    text.extend_from_slice(b"\n")
}

/// Adds a file under this word.
fn push_piece(text: &mut Vec<u8>, word: &[u8], path: &[u8], bytes: &[u8]) -> Result<(), AllocError>
    ensures { OnOk result (text.new.items ≡ text.old.items ++ begun_piece word.now (path.now, bytes.now)) }
{
    push_sizes(text, word, path.len(), bytes.len())?;
    text.extend_from_slice(path)?;
    text.extend_from_slice(b"\n")?;
    text.extend_from_slice(bytes)?;
    text.extend_from_slice(b"\n")
}

/// Adds the files of a set.
fn push_files(text: &mut Vec<u8>, files: &FileSet) -> Result<(), AllocError>
    ensures { OnOk result (text.new.items ≡ text.old.items ++ flat_map begun_file (entries_of files.now)) }
{
    for (path, bytes) in files.iter() {
        push_piece(text, b"file ", path.as_bytes(), bytes.as_slice())?;
    }
    Ok(())
}

/// Adds the rescue file that the round read, if it read one.
fn push_rescue(text: &mut Vec<u8>, rescue: Option<(&str, &[u8])>) -> Result<(), AllocError>
    ensures { OnOk result (text.new.items
        ≡ text.old.items ++ begun_rescue (option_map (λ file. (file.0.now, file.1.now)) rescue.entry)) }
{
    match rescue {
        Some((path, bytes)) => push_piece(text, b"rescue ", path.as_bytes(), bytes),
        None => Ok(()),
    }
}

/// The text of `x.dag.begun`: a comment with the digest, and each file of the set in its order, and then the
/// rescue file. A file is the word `file` or `rescue`, how many bytes its path has and how many it has, in
/// decimal, in a line, and its path and its bytes with a line feed after each. So no byte needs another spelling.
/// The last line is `end`.
pub fn begun_text(
    alloc: Global,
    digest: &[u8; 32],
    files: &FileSet,
    rescue: Option<(&str, &[u8])>,
) -> Result<Vec<u8>, AllocError>
    ensures { IfOk result (λ text. text.items ≡ begun_text_of digest.now (entries_of files.now)
        (option_map (λ file. (file.0.now, file.1.now)) rescue.entry)) }
{
    let mut text = Vec::new(alloc);
    push_begun_head(alloc, &mut text, digest)?;
    push_files(&mut text, files)?;
    push_rescue(&mut text, rescue)?;
    text.extend_from_slice(b"end\n")?;
    Ok(text)
}

/// A file as the text has it.
#[derive(Clone, Copy)]
struct Piece<'a> {
    is_rescue: bool,
    path: &'a str,
    bytes: &'a [u8],
}

/// The bytes before the first line feed, and those after it.
fn line_in(bytes: &[u8]) -> Option<(&[u8], &[u8])>
    ensures { IfSome result (λ parts. length parts.1.now < length bytes.now) }
{
    let end = memchr(b'\n', bytes)?;
    Some((&bytes[..end], &bytes[end + 1..]))
}

/// So many bytes, and those after the one which is after these.
fn part_in(bytes: &[u8], count: usize) -> Option<(&[u8], &[u8])>
    ensures { IfSome result (λ parts. length parts.1.now ≤ length bytes.now) }
{
    if count >= bytes.len() {
        return None;
    }
    Some((&bytes[..count], &bytes[count + 1..]))
}

/// What the line of a file says: whether it is the rescue file, and the sizes of its path and of it.
fn sizes_in(line: &[u8]) -> Option<(bool, usize, usize)> {
    let line = str::from_utf8(line).ok()?;
    let (word, sizes) = line.split_once(' ')?;
    let (path, bytes) = sizes.split_once(' ')?;
    Some((word == "rescue", path.parse().ok()?, bytes.parse().ok()?))
}

/// The first file of bytes, and what is after it.
fn piece_in(bytes: &[u8]) -> Option<(Piece<'_>, &[u8])>
    ensures { IfSome result (λ parts. length parts.1.now < length bytes.now) }
{
    let (line, rest) = line_in(bytes)?;
    let (is_rescue, path, size) = sizes_in(line)?;
    let (path, rest) = part_in(rest, path)?;
    let (bytes, rest) = part_in(rest, size)?;
    let piece = Piece {
        is_rescue,
        path: str::from_utf8(path).ok()?,
        bytes,
    };
    Some((piece, rest))
}

impl Begun {
    /// Adds a file.
    fn add(&mut self, alloc: Global, piece: Piece<'_>) -> Result<(), AllocError> {
        if piece.is_rescue {
            let path = Text::new(alloc, piece.path)?;
            self.rescue = Some((path, Vec::from_slice(alloc, piece.bytes)?));
            return Ok(());
        }
        self.files.add(alloc, piece.path, piece.bytes)
    }

    /// The bytes of the rescue file that the round read, if it read one.
    pub fn rescue_bytes(&self) -> Option<&[u8]>
        ensures { option_map (λ b. b.now) result ≡ option_map {U = List ℕ} (λ file. file.1) (rescue_kept self.now.rescue) }
    {
        match &self.rescue {
            Some((_, bytes)) => Some(bytes.as_slice()),
            None => None,
        }
    }

    /// The path and the bytes of the rescue file that the round read, if it read one.
    pub fn rescue_file(&self) -> Option<(&str, &[u8])>
        ensures { option_map {U = List ℕ × List ℕ} (λ file. (file.0.now, file.1.now)) result ≡ rescue_kept self.now.rescue }
    {
        match &self.rescue {
            Some((path, bytes)) => Some((path.as_str(), bytes.as_slice())),
            None => None,
        }
    }
}

/// The digest of the first line.
fn digest_in(line: &[u8]) -> Option<[u8; 32]> {
    let line = str::from_utf8(line).ok()?;
    let digits = line.strip_prefix("# dagrun begun, digest ")?;
    <[u8; 32] as FromHex>::from_hex(digits).ok()
}

/// What bytes keep, however they are spelled.
fn pieces_in(alloc: Global, bytes: &[u8]) -> Result<Begun, BadBytes> {
    let Some((first, mut rest)) = line_in(bytes) else {
        return Err(BadBytes::NotSpelled);
    };
    let Some(digest) = digest_in(first) else {
        return Err(BadBytes::NotSpelled);
    };
    let mut begun = Begun {
        digest,
        files: FileSet::new(alloc),
        rescue: None,
    };
    let end: &[u8] = b"end\n";
    while rest != end {
        let Some((piece, behind)) = piece_in(rest) else {
            return Err(BadBytes::NotSpelled);
        };
        begun.add(alloc, piece)?;
        rest = behind;
    }
    Ok(begun)
}

/// What these bytes, which are those of a file `x.dag.begun`, keep of what a round was begun with.
///
/// # Errors
/// `NotSpelled` where `begun_text` spells nothing so, and `Memory`.
pub fn begun_in(alloc: Global, bytes: &[u8]) -> Result<Begun, BadBytes>
    // What is read is spelled by just these bytes.
    ensures { IfOk result (λ begun. begun_text_of begun.digest (entries_of begun.files)
        (rescue_kept begun.rescue) ≡ bytes.now) }
{
    let begun = pieces_in(alloc, bytes)?;
    let text = begun_text(alloc, &begun.digest, &begun.files, begun.rescue_file())?;
    if text.as_slice() != bytes {
        return Err(BadBytes::NotSpelled);
    }
    Ok(begun)
}
