//! The lock of a DAG.

use event_journal::{PERMISSIONS, require_regular};
use std::fs::{self, File, OpenOptions};
use std::os::unix::fs::{MetadataExt, OpenOptionsExt};
use std::rt::Files;
use std::time::{Clock, Duration};
use std::{io, thread};

/// How often a lock that another process has is tried again.
const TRIES: u32 = 33;

/// How long it is waited in between, in milliseconds.
const PAUSE: u64 = 10;

/// A lock that is held, of the file that is named for it and of the journal.
#[derive(Drop)]
pub struct Lock {
    file: File,
    journal: Option<File>,
}

impl Lock {
    /// The lock that this file is, which is locked.
    pub(crate) fn of(file: File) -> Lock {
        Lock {
            file,
            journal: None,
        }
    }

    /// It holds a journal too, which is locked.
    pub(crate) fn holds(&mut self, journal: File) {
        self.journal = Some(journal);
    }

    /// It holds no journal any more: who holds one can't lock it once more.
    pub(crate) fn frees_journal(&mut self) {
        self.journal = None;
    }

    /// Removes the file of this path, where it is the one that is locked.
    pub(crate) fn remove_file<R: Files>(&self, rt: &R, path: &str) {
        if names(rt, path, &self.file) {
            let _ = fs::remove_file(rt, path);
        }
    }
}

/// Whether a file comes to be locked by this process, tried every ten milliseconds for a third of a
/// second.
pub(crate) fn lock_opened<R: Clock>(rt: &R, file: &File) -> bool {
    for _ in 0..TRIES {
        if file.try_lock().is_ok() {
            return true;
        }
        thread::sleep(rt, Duration::from_millis(PAUSE));
    }
    file.try_lock().is_ok()
}

/// Whether the file of this path is there and another process has locked it. A pipe or a device is no lock: opening one may take for ever.
pub(crate) fn is_locked<R: Files<File = File>>(rt: &R, path: &str) -> bool {
    if require_regular(rt, path).is_err() {
        return false;
    }
    match File::open(rt, path) {
        Ok(file) => file.try_lock_shared().is_err(),
        Err(_) => false,
    }
}

/// Whether a path names this file.
fn names<R: Files>(rt: &R, path: &str, file: &File) -> bool {
    match (fs::symlink_metadata(rt, path), file.metadata()) {
        (Ok(named), Ok(own)) => named.dev() == own.dev() && named.ino() == own.ino(),
        _ => false,
    }
}

/// The file of this path, which is made where it is missing, if it can be locked. It can't where another
/// process has it, or where the path names another file by then: who gives a lock back removes its file.
fn lock_named<R: Files<File = File>>(rt: &R, path: &str) -> io::Result<Option<File>> {
    require_regular(rt, path)?;
    let file = OpenOptions::new()
        .write(true)
        .create(true)
        .mode(PERMISSIONS)
        .open(rt, path)?;
    if file.try_lock().is_err() || !names(rt, path, &file) {
        return Ok(None);
    }
    Ok(Some(file))
}

/// The same, tried every ten milliseconds for a third of a second.
pub(crate) fn lock_in_time<R: Files<File = File> + Clock>(
    rt: &R,
    path: &str,
) -> io::Result<Option<File>> {
    for _ in 0..TRIES {
        if let Some(file) = lock_named(rt, path)? {
            return Ok(Some(file));
        }
        thread::sleep(rt, Duration::from_millis(PAUSE));
    }
    lock_named(rt, path)
}
