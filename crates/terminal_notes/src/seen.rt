//! What is at a path, which is not opened.

use std::alloc::AllocError;
use std::fs::{self, Metadata};
use std::os::unix::fs::{FileTypeExt, MetadataExt};
use std::rt::Files;

/// The number of root.
pub(crate) const ROOT: u32 = 0;

/// What is in the place of a regular file, in words; none where it is one.
pub(crate) fn kind_of(found: &Metadata) -> Option<&'static str> {
    let kind = found.file_type();
    if kind.is_symlink() {
        Some("a symbolic link")
    } else if kind.is_fifo() {
        Some("a pipe")
    } else if kind.is_dir() {
        Some("a folder")
    } else if kind.is_file() {
        None
    } else {
        Some("a device or a socket")
    }
}

/// The number of the user to whom something belongs, where that is another one than this.
pub(crate) fn other_owner<R: Files>(rt: &R, found: &Metadata) -> Option<u32> {
    match fs::metadata(rt, "/proc/self") {
        Ok(own) if own.uid() != found.uid() => Some(found.uid()),
        _ => None,
    }
}

/// What is wrong with what is at a path, which is not opened: it is no regular file, or another user's.
pub(crate) fn seen_at<R: Files + AllocGlobal>(
    rt: &R,
    path: &str,
) -> Result<Option<String>, AllocError> {
    let alloc = rt.alloc();
    let Ok(found) = fs::symlink_metadata(rt, path) else {
        return Ok(None);
    };
    if let Some(kind) = kind_of(&found) {
        return Ok(Some(format!(in alloc; "{path} is {kind}, no regular file")?));
    }
    match other_owner(rt, &found) {
        Some(user) => Ok(Some(foreign_text(rt, path, user)?)),
        None => Ok(None),
    }
}

/// What is said of a file that belongs to another user, of whose round it may be: root may trust it, and others may trust root; nobody is to
/// remove it, since a manager may work by it.
fn foreign_text<R: Files + AllocGlobal>(
    rt: &R,
    path: &str,
    user: u32,
) -> Result<String, AllocError> {
    let alloc = rt.alloc();
    let is_root = matches!(fs::metadata(rt, "/proc/self"), Ok(own) if own.uid() == ROOT);
    if is_root || user == ROOT {
        return format!(in alloc;
            "{path} belongs to user {user}, whose round it may be: see --trust-owner"
        );
    }
    format!(in alloc;
        "{path} belongs to user {user}, whose round it may be: they can show it by dagrun status, or by run --status-file"
    )
}
