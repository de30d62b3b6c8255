//! What a look at a path that was refused finds.

use crate::locks::wrong_with_lock;
use crate::seen::{ROOT, seen_at};
use dag_main_files::read_input;
use std::alloc::AllocError;
use std::env;
use std::fs::{self, File, OpenOptions};
use std::io::{self, ErrorKind};
use std::os::unix::fs::{FileExt, MetadataExt};
use std::rt::{Env, Files};

/// The permission by which the owner of a folder writes there, and those by which others do.
const OWNER_WRITES: u32 = 0o200;

const OTHERS_WRITE: u32 = 0o022;

/// What is wrong with the list of the processes of a round, or with its identifier, by the bytes of that file.
fn wrong_with_processes(bytes: &[u8]) -> &'static str {
    if str::from_utf8(bytes).is_ok() {
        "a process of the round still runs, which the log names with done=refused: end it, or see --orphans"
    } else {
        "it is no text"
    }
}

/// What is wrong with a regular file of this user's that can be read, by its name.
fn wrong_with<R: Files<File = File> + AllocGlobal>(
    rt: &R,
    path: &str,
    bytes: &[u8],
) -> Result<Option<String>, AllocError> {
    let words = if path.ends_with(".begun") {
        "it is not as it was written: remove it; without --as-begun the round is then shown by the files as they are"
    } else if path.ends_with(".children") || path.ends_with(".round") {
        wrong_with_processes(bytes)
    } else {
        return Ok(None);
    };
    Ok(Some(String::from_str(rt.alloc(), words)?))
}

/// The folder of a file of this path, `.` where its path has none.
fn folder_of(path: &str) -> &str {
    match path.rsplit_once('/') {
        Some(("", _)) => "/",
        Some((folder, _)) => folder,
        None => ".",
    }
}

/// Whether the permissions of a folder forbid its owner, who is this user, or all others to write there.
fn is_closed<R: Files>(rt: &R, folder: &str) -> bool {
    let (Ok(own), Ok(found)) = (fs::metadata(rt, "/proc/self"), fs::metadata(rt, folder)) else {
        return false;
    };
    let bits = if found.uid() == own.uid() {
        OWNER_WRITES
    } else {
        OTHERS_WRITE
    };
    found.is_dir() && own.uid() != ROOT && found.mode() & bits == 0
}

/// Whether this is the path of a file that dagrun makes beside a DAG file before it goes on: a lock, or a rescue file.
fn is_made_first(path: &str) -> bool {
    let number = match path.rsplit_once(".rescue") {
        Some((_, number)) => number,
        None => "",
    };
    path.ends_with(".lock") || number.parse::<u16>().is_ok()
}

/// Makes a file of this path, which is not there, writes a byte into it, and removes it.
///
/// # Errors
/// What the system says where it refuses to make or to write it.
fn try_file<R: Files<File = File>>(rt: &R, path: &str) -> io::Result<()> {
    let file = OpenOptions::new()
        .write(true)
        .create_new(true)
        .open(rt, path)?;
    let written = file.write_all_at(b"\n".as_slice(), 0);
    let _ = fs::remove_file(rt, path);
    written
}

/// Why the file of this path, at which nothing is, could not be made: what the system says of one with another name in its folder.
fn not_made_text<R: Files<File = File> + AllocGlobal>(
    rt: &R,
    path: &str,
) -> Result<String, AllocError> {
    let alloc = rt.alloc();
    let other = format!(in alloc; "{path}.try")?;
    match try_file(rt, other.as_str()) {
        Err(error) if error.kind() != ErrorKind::AlreadyExists => {
            format!(in alloc; "dagrun can't make {path}: {error}")
        }
        _ => format!(in alloc;
            "{path} could not be written, and can be by now: call dagrun again; the file system may have been full"
        ),
    }
}

/// What is said of a path at which nothing is: why no file could be made there, where one was to be made, or from which folder
/// the path is seen.
fn missing_at<R: Files<File = File> + Env + AllocGlobal>(
    rt: &R,
    path: &str,
    is_made: bool,
    error: &io::Error,
) -> Result<String, AllocError> {
    let alloc = rt.alloc();
    let folder = folder_of(path);
    if is_made && is_closed(rt, folder) {
        return format!(in alloc; "you may not write in the folder {folder}");
    }
    if is_made && is_made_first(path) {
        return not_made_text(rt, path);
    }
    match env::current_dir(rt) {
        Ok(here) if !path.starts_with('/') => {
            format!(in alloc; "{path}: {error}, seen from {}", here.as_str())
        }
        _ => format!(in alloc; "{path}: {error}"),
    }
}

/// Why the folder in which dagrun is called can't be named: its path is no text, say, or it was removed.
fn reason_of_here<R: Env + AllocGlobal>(rt: &R) -> Result<Option<String>, AllocError> {
    match env::current_dir(rt) {
        Ok(_here) => Ok(None),
        Err(error) => Ok(Some(format!(in rt.alloc();
            "the path of this folder can't be used: {error}; call dagrun in another one"
        )?)),
    }
}

/// What a look at a path that was refused finds; `is_made` says whether dagrun would make a file there.
pub(crate) fn reason_of_path<R: Files<File = File> + Env + AllocGlobal>(
    rt: &R,
    path: &str,
    is_made: bool,
) -> Result<Option<String>, AllocError> {
    if path == "." {
        return reason_of_here(rt);
    }
    if let Some(seen) = seen_at(rt, path)? {
        return Ok(Some(seen));
    }
    if path.ends_with(".lock") {
        if let Some(reason) = wrong_with_lock(rt, path)? {
            return Ok(Some(reason));
        }
    }
    let alloc = rt.alloc();
    match read_input(rt, path, false) {
        Ok(bytes) => wrong_with(rt, path, &bytes),
        Err(error) if error.kind() == ErrorKind::NotFound => {
            Ok(Some(missing_at(rt, path, is_made, &error)?))
        }
        Err(error) => Ok(Some(format!(in alloc; "{path}: {error}")?)),
    }
}
