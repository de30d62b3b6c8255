//! The files of the streams of children, which are brought to the disk before the endings of these are recorded.

use dag_reader::Text;
use node_machine::Key;
use run_plan_node::ChildCommand;
use splices_flat::path_in;
use std::alloc::{AllocError, Global};
use std::fs::{self, File};
use std::io;
use std::rt::Files;

/// A file that takes a stream of a child.
#[derive(Drop)]
pub(crate) struct StreamFile {
    /// whose stream
    pub(crate) key: Key,
    path: Text,
    /// whether its name is to be brought to the disk, too: the file was made for the child
    new_name: bool,
}

/// Brings a file to the disk, where it is a regular file, and answers whether it is; what is none, as a pipe, stays as it is.
fn sync_file<R: Files<File = File>>(rt: &R, path: &str) -> io::Result<bool> {
    let is_file = fs::metadata(rt, path)?.is_file();
    if is_file {
        File::open(rt, path)?.sync_all()?;
    }
    Ok(is_file)
}

impl StreamFile {
    /// Its absolute path.
    pub(crate) fn path(&self) -> &str {
        self.path.as_str()
    }

    /// The folder that its name is in.
    pub(crate) fn folder(&self) -> &str {
        match self.path().rsplit_once('/') {
            Some(("", _)) | None => "/",
            Some((folder, _)) => folder,
        }
    }

    /// Whether its name is to be brought to the disk.
    pub(crate) fn has_new_name(&self) -> bool {
        self.new_name
    }

    /// Whether all that is to be brought to the disk of the other is to be brought there of this one.
    fn covers(&self, other: &StreamFile) -> bool {
        self.path() == other.path() && (self.new_name || !other.new_name)
    }

    /// Brings it to the disk, but not its name, which then stays as it is where the file is no regular one, or is refused.
    pub(crate) fn sync<R: Files<File = File>>(&mut self, rt: &R) -> io::Result<()> {
        let synced = sync_file(rt, self.path());
        self.new_name &= matches!(synced, Ok(true));
        synced?;
        Ok(())
    }

    /// Brings the names in its folder to the disk.
    pub(crate) fn sync_folder<R: Files<File = File>>(&self, rt: &R) -> io::Result<()> {
        File::open(rt, self.folder())?.sync_all()
    }
}

/// Drops those files of which all that is to be brought to the disk is to be brought there of these.
pub(crate) fn leave_out(files: &mut Vec<StreamFile>, these: &[StreamFile]) {
    files.retain(|file| !these.iter().any(|other| other.covers(file)));
}

/// Adds the file of this path, where there is one, as seen from the folder.
fn add_file<R: Files>(
    alloc: Global,
    rt: &R,
    folder: &str,
    key: &Key,
    path: &Option<Text>,
    files: &mut Vec<StreamFile>,
) -> Result<(), AllocError> {
    if let Some(path) = path {
        let path = path_in(alloc, folder, path.as_str())?;
        let new_name = !fs::exists(rt, path.as_str()).unwrap_or(false);
        let key = *key;
        let file = StreamFile {
            key,
            path,
            new_name,
        };
        if !files.iter().any(|other| other.covers(&file)) {
            files.push(file)?;
        }
    }
    Ok(())
}

/// The files of a child that is about to be started with this command, as seen from the folder; one that takes both of its streams is
/// there once.
pub(crate) fn stream_files<R: Files>(
    alloc: Global,
    rt: &R,
    folder: &str,
    key: &Key,
    command: &ChildCommand,
) -> Result<Vec<StreamFile>, AllocError> {
    let mut files = Vec::new(alloc);
    add_file(alloc, rt, folder, key, &command.output, &mut files)?;
    add_file(alloc, rt, folder, key, &command.error, &mut files)?;
    Ok(files)
}
