//! What is odd in a program or a folder, by what the system says of it.

ghost use Rattle.std.specs.Prelude.{◌≡◌, IfOk};
ghost use Rattle.file_hints.specs.Programs.{program_hint, folder_hint, program_state_by, ends_with_return};

use crate::hint::Hint;
use crate::shell_path::shell_path;
use dag_reader::Text;
use std::alloc::{AllocError, Global};

/// What is at the path of a program.
#[derive(Clone, Copy, Debug, PartialEq, Eq)]
pub enum ProgramState {
    /// A file that may be run.
    Runs,
    /// Nothing.
    Missing,
    /// A folder.
    Folder,
    /// A pipe, a device or a socket.
    Special,
    /// A file that nobody may run.
    NotExecutable,
    /// One whose first line says what reads it, and ends with a carriage return.
    CarriageReturn,
}

/// What is odd in the program of this path.
///
/// # Errors
/// Lack of memory.
pub fn program_hint(
    alloc: Global,
    path: &str,
    state: ProgramState,
) -> Result<Option<Hint>, AllocError>
    ensures { IfOk result (λ hint. hint ≡ program_hint path.now state) }
{
    let word = shell_path(alloc, path)?;
    let path = Text::new(alloc, path)?;
    Ok(match state {
        ProgramState::Runs => None,
        ProgramState::Missing => Some(Hint::MissingProgram(path)),
        ProgramState::Folder => Some(Hint::FolderAsProgram(path)),
        ProgramState::Special => Some(Hint::SpecialAsProgram(path)),
        ProgramState::NotExecutable => Some(Hint::NotExecutable { path, word }),
        ProgramState::CarriageReturn => Some(Hint::CarriageReturn { path, word }),
    })
}

/// What is odd in the folder of this path, which is there or not.
///
/// # Errors
/// Lack of memory.
pub fn folder_hint(alloc: Global, path: &str, is_there: bool) -> Result<Option<Hint>, AllocError>
    ensures { IfOk result (λ hint. hint ≡ folder_hint path.now is_there) }
{
    if is_there {
        return Ok(None);
    }
    let word = shell_path(alloc, path)?;
    let path = Text::new(alloc, path)?;
    Ok(Some(Hint::MissingFolder { path, word }))
}

/// The state of a file, by whether somebody may run it and by the bytes that it begins with.
pub fn state_by(is_executable: bool, beginning: &[u8]) -> ProgramState
    ensures { result ≡ program_state_by is_executable beginning.now }
{
    if !is_executable {
        return ProgramState::NotExecutable;
    }
    match beginning {
        [b'#', b'!', line @ ..] if ends_with_return(line) => ProgramState::CarriageReturn,
        _ => ProgramState::Runs,
    }
}

/// Whether the first carriage return of some bytes is at the end of their first line.
fn ends_with_return(bytes: &[u8]) -> bool
    ensures { result ≡ ends_with_return bytes.now }
{
    let mut rest = bytes;
    while let [byte, behind @ ..] = rest {
        if *byte == b'\n' {
            return false;
        }
        if *byte == b'\r' {
            return matches!(behind, [b'\n', ..]);
        }
        rest = behind;
    }
    false
}
