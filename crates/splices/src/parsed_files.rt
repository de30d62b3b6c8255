//! The files of a set as they are read.

ghost use Rattle.std.specs.Prelude.{◌≡◌, IfOk, OnOk};
ghost use Rattle.std.specs.HashMap.{get_by_text};
ghost use Rattle.dag_reader.specs.Reading.{commands_of};
ghost use Rattle.splices.specs.Adds.{Gives};
ghost use Rattle.splices_flat.specs.FileSet.{bytes_of};
ghost use Rattle.splices.specs.SaidFiles.{AreSaid};
ghost use Rattle.splices_flat.specs.Opening.{says_at};

use crate::acting::without_idle;
use dag_reader::{DagFile, ReadFault, Text, read_dag};
use indexmap::IndexMap;
use splices_flat::{DagFault, FileSet, SpliceFault};
use std::alloc::{AllocError, Global};

/// The files of a set, and what those say that are DAG files: each is read once, however often it
/// is opened, and its lines that say nothing are not kept.
#[derive(Drop)]
pub(crate) struct ParsedFiles<'a> {
    files: &'a FileSet,
    said: IndexMap<String, DagFile>,
    ghost sound: { AreSaid (bytes_of files.now) (get_by_text said) },
}

/// A file that was read: one of a library, or one that was read anew.
#[derive(Drop)]
pub(crate) enum FileRead<'a> {
    Kept(&'a DagFile),
    New(DagFile),
}

impl FileRead<'_> {
    ghost use Rattle.splices.specs.ParsedFiles.{commands_of_file};

    /// The file.
    pub(crate) fn file(&self) -> &DagFile
        ensures { commands_of result.now ≡ commands_of_file self.now }
    {
        match self {
            FileRead::Kept(file) => file,
            FileRead::New(file) => file,
        }
    }
}

impl<'a> ParsedFiles<'a> {
    ghost use Rattle.splices.specs.ParsedFiles.{files_in, ReadsFile};

    /// The files of a set.
    pub(crate) fn new(alloc: Global, files: &'a FileSet) -> Result<ParsedFiles<'a>, AllocError>
        ensures { IfOk result (λ parsed_files. files_in parsed_files ≡ bytes_of files.now) }
    {
        let mut said = IndexMap::new(alloc);
        for (path, _) in files.iter() {
            keep(alloc, files, path.as_str(), &mut said)?;
        }
        Ok(ParsedFiles { files, said })
    }

    /// What the file of this path says, without the lines that say nothing.
    pub(crate) fn read(&self, alloc: Global, path: &str) -> Result<FileRead<'_>, SpliceFault>
        ensures { ReadsFile result (says_at path.now (files_in self.now path.now)) }
    {
        match self.said.get(path) {
            Some(file) => Ok(FileRead::Kept(file)),
            None => {
                let file = read_file(alloc, self.files, path)?;
                Ok(FileRead::New(without_idle(file)))
            }
        }
    }
}

/// Reads the file of this path, and keeps it where it is a DAG file.
fn keep(
    alloc: Global,
    files: &FileSet,
    path: &str,
    said: &mut IndexMap<String, DagFile>,
) -> Result<(), AllocError>
    requires { AreSaid (bytes_of files.now) (get_by_text said.old) }
    ensures { OnOk result (AreSaid (bytes_of files.now) (get_by_text said.new)) }
{
    if let Ok(file) = read_file(alloc, files, path) {
        said.insert(String::from_str(alloc, path)?, without_idle(file))?;
    }
    Ok(())
}

/// What the file of this path says.
fn read_file(alloc: Global, files: &FileSet, path: &str) -> Result<DagFile, SpliceFault>
    ensures { Gives commands_of result (says_at path.now (bytes_of files.now path.now)) }
{
    let Some(bytes) = files.get(path) else {
        return Err(SpliceFault::Dag(DagFault::MissingFile(Text::new(alloc, path)?)));
    };
    match read_dag(alloc, bytes) {
        Ok(file) => Ok(file),
        Err(ReadFault::Memory) => Err(SpliceFault::Memory),
        Err(ReadFault::Line(fault)) => Err(SpliceFault::Dag(DagFault::InFile(
            Text::new(alloc, path)?,
            fault,
        ))),
    }
}
