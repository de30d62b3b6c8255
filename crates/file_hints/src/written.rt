//! Files that no job should write, since they are emptied as it starts: those of the DAG itself, and its own input.

ghost use Rattle.std.specs.Prelude.{◌≡◌, IfOk};
ghost use Rattle.file_hints.specs.Written.{written_hint, is_unnumbered_ending, is_rescue_number, is_rescue_ending, is_own_ending};

use crate::hint::Hint;
use dag_reader::Text;
use splices_flat::FileSet;
use std::alloc::{AllocError, Global};

/// The files that a DAG is read from, and the path of the first of them.
#[derive(Clone, Copy)]
pub(crate) struct DagFiles<'a> {
    pub(crate) files: &'a FileSet,
    pub(crate) top: &'a str,
}

impl DagFiles<'_> {
    /// Whether a path is that of one of these files, or of one of dagrun's own beside the first. What is read from standard input
    /// is no file.
    fn has(&self, path: &str) -> bool {
        if path == "-" {
            return false;
        }
        match path.strip_prefix(self.top) {
            Some(ending) if is_own_ending(ending) => true,
            _ => self.files.get(path).is_some(),
        }
    }
}

/// What is odd in the file of this path, which a job of a DAG with these files writes, and which may be its input, too.
///
/// # Errors
/// Lack of memory.
pub(crate) fn look_at_written(
    alloc: Global,
    dag: DagFiles<'_>,
    input: &Option<Text>,
    path: &str,
) -> Result<Option<Hint>, AllocError> {
    // What is there is no file.
    if path.starts_with("/dev/") {
        return Ok(None);
    }
    let is_input = match input {
        Some(input) => input.as_str() == path,
        None => false,
    };
    written_hint(alloc, path, dag.has(path), is_input)
}

/// What is odd in a file of this path that a job writes: it is one of the DAG itself, or the input of the job.
///
/// # Errors
/// Lack of memory.
pub fn written_hint(
    alloc: Global,
    path: &str,
    is_of_dag: bool,
    is_input: bool,
) -> Result<Option<Hint>, AllocError>
    ensures { IfOk result (λ hint. hint ≡ written_hint path.now is_of_dag is_input) }
{
    if is_of_dag {
        return Ok(Some(Hint::OwnFile(Text::new(alloc, path)?)));
    }
    if is_input {
        return Ok(Some(Hint::InputWritten(Text::new(alloc, path)?)));
    }
    Ok(None)
}

/// Whether a name that goes on with this after that of the DAG file is its own, or that of one of dagrun's own files, of which rescue
/// files are apart.
fn is_unnumbered_ending(ending: &str) -> bool
    ensures { result ≡ is_unnumbered_ending ending.now }
{
    matches!(
        ending,
        "" | ".journal"
            | ".journal.old"
            | ".lock"
            | ".round"
            | ".round.new"
            | ".children"
            | ".inputs"
            | ".inputs.new"
            | ".begun"
            | ".begun.new"
            | ".log"
            | ".log.old"
            | ".halt"
            | ".scripts"
    )
}

/// Whether this is the number of a rescue file, as its name has it, and maybe the ending of a draft, or of one that was put away.
fn is_rescue_number(number: &[u8]) -> bool
    ensures { result ≡ is_rescue_number number.now }
{
    match number {
        [hundreds, tens, units, rest @ ..] => {
            let is_number = hundreds.is_ascii_digit()
                && tens.is_ascii_digit()
                && units.is_ascii_digit();
            is_number && matches!(rest, b"" | b".new" | b".old")
        }
        _ => false,
    }
}

/// Whether a name that goes on with this after that of the DAG file is that of a rescue file, of its draft, or of one that was put away.
fn is_rescue_ending(ending: &str) -> bool
    ensures { result ≡ is_rescue_ending ending.now }
{
    match ending.as_bytes().strip_prefix(b".rescue") {
        Some(number) => is_rescue_number(number),
        None => false,
    }
}

/// Whether a name that goes on with this after that of the DAG file is its own, or that of one of dagrun's own files.
pub fn is_own_ending(ending: &str) -> bool
    ensures { result ≡ is_own_ending ending.now }
{
    is_unnumbered_ending(ending) || is_rescue_ending(ending)
}
