//! The DAG files that are opened, with the folders from which their paths are taken.

use dag_reader::{Command, DagFile, ReadFault, Text, Word, read_dag};
use splices_flat::{FileSet, NameTable, path_in};
use std::alloc::{AllocError, Global};

/// How many files are opened at most: the DAG file and its splices.
const MOST_FILES: usize = 4_097;

/// A DAG file, and the folder from which its paths are taken.
#[derive(Drop)]
pub(crate) struct Opened {
    pub(crate) path: Text,
    pub(crate) folder: Text,
}

/// What the lines of a DAG file say, where it is there and can be read.
pub(crate) fn lines_of(
    alloc: Global,
    files: &FileSet,
    path: &str,
) -> Result<Option<DagFile>, AllocError> {
    let Some(bytes) = files.get(path) else {
        return Ok(None);
    };
    match read_dag(alloc, bytes) {
        Ok(file) => Ok(Some(file)),
        Err(ReadFault::Memory) => Err(AllocError),
        Err(_) => Ok(None),
    }
}

/// The folder that DIR gives, which is empty where it is missing.
pub(crate) fn dir_text(dir: &Option<Word>) -> &str {
    match dir {
        Some(word) => word.text(),
        None => "",
    }
}

/// The files of the splices of a DAG file.
fn splices_of(alloc: Global, files: &FileSet, one: &Opened) -> Result<Vec<Opened>, AllocError> {
    let mut found = Vec::new(alloc);
    let Some(lines) = lines_of(alloc, files, one.path.as_str())? else {
        return Ok(found);
    };
    for command in lines.commands.iter() {
        if let Command::Splice { file, dir, .. } = command {
            let folder = path_in(alloc, one.folder.as_str(), dir_text(dir))?;
            let path = path_in(alloc, folder.as_str(), file.text())?;
            found.push(Opened { path, folder })?;
        }
    }
    Ok(found)
}

/// The DAG files, each once for each folder from which its paths are taken.
pub(crate) fn opened_files(
    alloc: Global,
    files: &FileSet,
    top: &str,
) -> Result<Vec<Opened>, AllocError> {
    let mut known = NameTable::new(alloc);
    let mut opened = Vec::new(alloc);
    opened.push(Opened {
        path: Text::new(alloc, top)?,
        folder: Text::new(alloc, "")?,
    })?;
    for at in 0..MOST_FILES {
        let inner = match opened.get(at) {
            Some(one) => splices_of(alloc, files, one)?,
            None => break,
        };
        push_new(alloc, &mut known, &mut opened, inner)?;
    }
    Ok(opened)
}

/// Adds those files that are not there yet.
fn push_new(
    alloc: Global,
    known: &mut NameTable,
    opened: &mut Vec<Opened>,
    inner: Vec<Opened>,
) -> Result<(), AllocError> {
    for one in inner {
        let front = Text::joined(alloc, one.folder.as_str(), "\n")?;
        let key = Text::joined(alloc, front.as_str(), one.path.as_str())?;
        if !known.has(key.as_str()) {
            known.add(alloc, key.as_str())?;
            opened.push(one)?;
        }
    }
    Ok(())
}
