//! What the system says of programs and folders.

use crate::{Hint, ProgramState, folder_hint, program_hint, state_by};
use dag_reader::Text;
use splices_flat::path_in;
use std::alloc::AllocError;
use std::fs::{self, File, Metadata};
use std::io::ErrorKind;
use std::os::unix::fs::{FileExt, MetadataExt};
use std::rt::{Env, Files};
use std::{env, str};

/// How many bytes of the beginning of a program are read.
const HEAD: usize = 256;

/// The first bytes of a regular file, as far as the system gives them.
fn beginning_of<R: Files<File = File> + AllocGlobal>(rt: &R, path: &str) -> Option<Vec<u8>> {
    let file = File::open(rt, path).ok()?;
    let mut bytes = vec![in rt.alloc(); 0u8; HEAD].ok()?;
    let count = file.read_at(&mut bytes, 0).ok()?;
    bytes.truncate(count);
    Some(bytes)
}

/// The program that is to read a file with this beginning, as its first line says it by an absolute path.
fn reader_in(beginning: &[u8]) -> Option<&str> {
    let line = beginning.strip_prefix(b"#!".as_slice())?;
    let end = line.iter().position(|byte| *byte == b'\n')?;
    let reader = str::from_utf8(&line[..end])
        .ok()?
        .split_whitespace()
        .next()?;
    if reader.starts_with('/') {
        Some(reader)
    } else {
        None
    }
}

/// Whether a folder or nothing has this path.
fn lacks_program<R: Files>(rt: &R, path: &str) -> bool {
    match fs::metadata(rt, path) {
        Ok(found) => found.is_dir(),
        Err(error) => is_missing(error.kind()),
    }
}

/// What is odd in the first line of a program that may be run and begins so: there is no program of the path that it names.
fn reader_hint<R: Files + AllocGlobal>(
    rt: &R,
    path: &str,
    beginning: &[u8],
) -> Result<Option<Hint>, AllocError> {
    match reader_in(beginning) {
        Some(reader) if lacks_program(rt, reader) => Ok(Some(Hint::MissingReader {
            path: Text::new(rt.alloc(), path)?,
            reader: Text::new(rt.alloc(), reader)?,
        })),
        _ => Ok(None),
    }
}

/// What is odd in the regular file of this path, which is opened.
fn file_hint<R: Files<File = File> + AllocGlobal>(
    rt: &R,
    path: &str,
    is_executable: bool,
) -> Result<Option<Hint>, AllocError> {
    let alloc = rt.alloc();
    let Some(beginning) = beginning_of(rt, path) else {
        return program_hint(alloc, path, state_by(is_executable, &[]));
    };
    match state_by(is_executable, &beginning) {
        ProgramState::Runs => reader_hint(rt, path, &beginning),
        state => program_hint(alloc, path, state),
    }
}

/// What is odd in what is at the path of a program. Only a regular file is opened: a pipe would wait for what is written.
fn found_hint<R: Files<File = File> + AllocGlobal>(
    rt: &R,
    path: &str,
    found: &Metadata,
) -> Result<Option<Hint>, AllocError> {
    if found.is_file() {
        return file_hint(rt, path, found.mode() & 0o111 != 0);
    }
    let state = if found.is_dir() {
        ProgramState::Folder
    } else {
        ProgramState::Special
    };
    program_hint(rt.alloc(), path, state)
}

/// Whether the system says that nothing is there.
fn is_missing(kind: ErrorKind) -> bool {
    kind == ErrorKind::NotFound || kind == ErrorKind::NotADirectory
}

/// The path of a program of this name in the first folder of PATH that has one.
fn found_in_path<R: Files + Env + AllocGlobal>(
    rt: &R,
    name: &str,
) -> Result<Option<Text>, AllocError> {
    let alloc = rt.alloc();
    let Ok(folders) = env::var(rt, "PATH") else {
        return Ok(None);
    };
    for folder in folders.as_str().split(':') {
        let path = path_in(alloc, folder, name)?;
        if let Ok(found) = fs::metadata(rt, path.as_str()) {
            if found.is_file() && found.mode() & 0o111 != 0 {
                return Ok(Some(path));
            }
        }
    }
    Ok(None)
}

/// The last part of a path.
fn name_in(path: &str) -> &str {
    match path.rsplit_once('/') {
        Some((_, name)) => name,
        None => path,
    }
}

/// The path of a program: this one, where a file is there, or that of one of its name in a folder of PATH.
fn program_at<R: Files + Env + AllocGlobal>(
    rt: &R,
    path: &str,
) -> Result<Option<Text>, AllocError> {
    match fs::metadata(rt, path) {
        Ok(found) if found.is_file() => Ok(Some(Text::new(rt.alloc(), path)?)),
        _ => found_in_path(rt, name_in(path)),
    }
}

/// Whether the path of a program, which is not there, has the words of that program after its first blank.
fn words_in_program<R: Files + Env + AllocGlobal>(
    rt: &R,
    path: &str,
) -> Result<Option<Hint>, AllocError> {
    let Some((program, words)) = path.split_once(' ') else {
        return Ok(None);
    };
    let Some(program) = program_at(rt, program)? else {
        return Ok(None);
    };
    Ok(Some(Hint::WordsInProgram {
        path: Text::new(rt.alloc(), path)?,
        program,
        words: Text::new(rt.alloc(), words)?,
    }))
}

/// What is odd in a program of this path, which is not there.
fn missing_program<R: Files + Env + AllocGlobal>(
    rt: &R,
    path: &str,
) -> Result<Option<Hint>, AllocError> {
    let with_words = words_in_program(rt, path)?;
    if with_words.is_some() {
        return Ok(with_words);
    }
    match found_in_path(rt, name_in(path))? {
        Some(found) => Ok(Some(Hint::Elsewhere {
            path: Text::new(rt.alloc(), path)?,
            found,
        })),
        None => program_hint(rt.alloc(), path, ProgramState::Missing),
    }
}

/// What is odd in the program of this path.
///
/// # Errors
/// Lack of memory.
pub fn look_at_program<R: Files<File = File> + Env + AllocGlobal>(
    rt: &R,
    path: &str,
) -> Result<Option<Hint>, AllocError> {
    match fs::metadata(rt, path) {
        Ok(found) => found_hint(rt, path, &found),
        Err(error) if is_missing(error.kind()) => missing_program(rt, path),
        Err(_) => Ok(None),
    }
}

/// The folder of the file of this path, which is empty where that is the folder of the call.
pub fn folder_of(path: &str) -> &str {
    match path.rsplit_once('/') {
        Some(("", _)) => "/",
        Some((folder, _)) => folder,
        None => "",
    }
}

/// What is odd in the folder of this path.
///
/// # Errors
/// Lack of memory.
pub fn look_at_folder<R: Files + AllocGlobal>(
    rt: &R,
    path: &str,
) -> Result<Option<Hint>, AllocError> {
    let is_there = path.is_empty()
        || match fs::metadata(rt, path) {
            Ok(_) => true,
            Err(error) => !is_missing(error.kind()),
        };
    folder_hint(rt.alloc(), path, is_there)
}
