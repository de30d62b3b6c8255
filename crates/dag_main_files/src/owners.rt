//! Whose files stand beside a DAG file.

use std::fs;
use std::os::unix::fs::MetadataExt;
use std::rt::Files;

/// The permissions of a folder by which others than its owner may put files there.
const OTHERS_WRITE: u32 = 0o022;

/// The number of root.
const ROOT: u32 = 0;

/// The user as whom this process works; none where the system doesn't tell.
fn own_user<R: Files>(rt: &R) -> Option<u32> {
    match fs::metadata(rt, "/proc/self") {
        Ok(process) => Some(process.uid()),
        Err(_) => None,
    }
}

/// Whether others than this user may put files into a folder. Where the system doesn't tell, they may.
fn others_may_write<R: Files>(rt: &R, folder: &str, user: u32) -> bool {
    match fs::metadata(rt, folder) {
        Ok(found) => found.uid() != user || found.mode() & OTHERS_WRITE != 0,
        Err(_) => true,
    }
}

/// Whether the file of a path in this folder is to be trusted: it is missing or can't be looked at, or it is this
/// user's own, or nobody else may put files there. Where root trusts, or is trusted, the file of another user is, too.
pub(crate) fn is_trusted<R: Files>(rt: &R, folder: &str, path: &str, trusts_root: bool) -> bool {
    let Some(user) = own_user(rt) else {
        return true;
    };
    match fs::symlink_metadata(rt, path) {
        Ok(found) => {
            found.uid() == user
                || (trusts_root && (user == ROOT || found.uid() == ROOT))
                || !others_may_write(rt, folder, user)
        }
        // Whoever opens it learns why it can't be looked at.
        Err(_) => true,
    }
}
