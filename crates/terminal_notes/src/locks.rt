//! Why the lock of a DAG file could not be had.

use crate::seen::seen_at;
use crate::workers::manager_in_log;
use dag_main_files::Place;
use std::alloc::AllocError;
use std::fs::{self, File, OpenOptions, TryLockError};
use std::io::ErrorKind;
use std::rt::Files;

/// What is said of a lock that could not be had, which may be opened for writing: another manager has it, or its file system takes none.
fn taken_text<R: AllocGlobal>(rt: &R, path: &str, file: &File) -> Result<String, AllocError> {
    match file.try_lock_shared() {
        Err(TryLockError::Error(error)) => format!(in rt.alloc();
            "the file system of {path} takes no locks (flock): {error}; keep the DAG file on one that does, or have it mounted so"
        ),
        _ => String::from_str(rt.alloc(), "another `dagrun run` works on this DAG"),
    }
}

/// Whether another process has locked the journal that is beside the lock of this path.
fn is_journal_locked<R: Files<File = File> + AllocGlobal>(rt: &R, path: &str) -> bool {
    let Some(dag) = path.strip_suffix(".lock") else {
        return false;
    };
    let Ok(journal) = format!(in rt.alloc(); "{dag}.journal") else {
        return false;
    };
    if !matches!(seen_at(rt, journal.as_str()), Ok(None)) {
        return false;
    }
    match File::open(rt, journal.as_str()) {
        Ok(file) => matches!(file.try_lock_shared(), Err(TryLockError::WouldBlock)),
        Err(_) => false,
    }
}

/// Whether the manager that began to work last on the DAG file of this lock is still there, by its log.
fn is_manager_there<R: Files + AllocGlobal>(rt: &R, path: &str) -> bool {
    let Some(top) = path.strip_suffix(".lock") else {
        return false;
    };
    let Some(process) = manager_in_log(rt, &Place { folder: "", top }, false) else {
        return false;
    };
    match format!(in rt.alloc(); "/proc/{process}") {
        Ok(path) => fs::metadata(rt, path.as_str()).is_ok(),
        Err(_) => false,
    }
}

/// Why the lock of this path could not be had, which is no file of another kind or of another user; none where nothing is there, and
/// no manager works.
pub(crate) fn wrong_with_lock<R: Files<File = File> + AllocGlobal>(
    rt: &R,
    path: &str,
) -> Result<Option<String>, AllocError> {
    let alloc = rt.alloc();
    match OpenOptions::new().write(true).open(rt, path) {
        Ok(file) => Ok(Some(taken_text(rt, path, &file)?)),
        Err(error) if error.kind() != ErrorKind::NotFound => Ok(Some(format!(in alloc;
            "{path}: {error}; remove it, where no `dagrun run` works on this DAG"
        )?)),
        Err(_) if is_journal_locked(rt, path) || is_manager_there(rt, path) => {
            Ok(Some(String::from_str(
                alloc,
                "another `dagrun run` works on this DAG, whose lock was removed",
            )?))
        }
        Err(_) => Ok(None),
    }
}
