//! All files that lines name which can be read, also where other lines can't.

ghost use Rattle.std.specs.Prelude.{◌≡◌, false, None, IfOk, IfErr, OnOk};
ghost use Rattle.std.specs.Option.{option_map};
ghost use Rattle.dag_main_check.specs.declared.fault.RunFault.TheVariants.{Memory};
ghost use Rattle.dag_main_files.specs.Folder.{AreHeld, IsReadFrom};

use dag_main_check::RunFault;
use dag_main_files::{Folder, Reading, files_of};
use dag_reader::{ReadFault, read_dag};
use event_journal_log::Peek;
use splices_flat::FileSet;
use std::alloc::Global;

/// A folder whose files lack the lines that can't be read: by these, `files_of` finds the files that all other lines name. Only
/// the names are used, so nothing is promised of the bytes.
#[derive(Drop)]
struct Readable<'a, F> {
    folder: &'a F,
    /// The bytes of the DAG file, which may be standard input, and so is not read again.
    top: &'a [u8],
}

impl<'a, F: Folder> Folder for Readable<'a, F> {
    ghost holds = { λ _ _. None };

    ghost has = { λ _ _. false };

    ghost streams = { λ _. ⊥ };

    ghost honest = { λ _. ⊥ };

    fn top(&self, alloc: Global, _path: &str) -> Result<Option<Vec<u8>>, RunFault> {
        Ok(Some(readable_lines(alloc, self.top)?))
    }

    fn input(&self, alloc: Global, path: &str) -> Result<Option<Vec<u8>>, RunFault> {
        match self.folder.input(alloc, path)? {
            Some(bytes) => Ok(Some(readable_lines(alloc, bytes.as_slice())?)),
            None => Ok(None),
        }
    }

    fn beside(&self, alloc: Global, path: &str) -> Result<Option<Vec<u8>>, RunFault> {
        self.folder.beside(alloc, path)
    }

    fn is_there(&self, alloc: Global, path: &str) -> Result<bool, RunFault> {
        self.folder.is_there(alloc, path)
    }

    fn highest(&self, alloc: Global, top: &str) -> Result<u16, RunFault> {
        self.folder.highest(alloc, top)
    }

    fn journal(&self, alloc: Global, top: &str) -> Result<Option<Peek>, RunFault> {
        self.folder.journal(alloc, top)
    }
}

/// The lines of a text that can be read as those of a DAG file.
fn readable_lines(alloc: Global, text: &[u8]) -> Result<Vec<u8>, RunFault>
    ensures { IfErr result (λ fault. fault ≡ Memory) }
{
    let mut kept = Vec::new(alloc);
    for line in text.split_inclusive(|byte| *byte == b'\n') {
        match read_dag(alloc, line) {
            Ok(_) => kept.extend_from_slice(line)?,
            Err(ReadFault::Line(_)) => {}
            Err(ReadFault::Memory) => return Err(RunFault::Memory),
        }
    }
    Ok(kept)
}

/// The DAG file of this path and of these bytes, if it could be read, with the files of its splices and of theirs, and the submit files of all
/// nodes but NOOPs: those that are named by lines which can be read. A file that can't be read stays missing.
///
/// # Errors
/// `Memory` alone.
pub(crate) fn all_files_of<F: Folder>(
    alloc: Global,
    folder: &F,
    top: &str,
    bytes: Option<&[u8]>,
) -> Result<FileSet, RunFault>
    ensures read { F.honest folder.now → option_map (λ b. b.now) bytes.entry ≡ F.holds folder.now top.now
        → IfOk result (IsReadFrom (F.holds folder.now) top.now) }
    ensures err { IfErr result (λ fault. fault ≡ Memory) }
{
    let Some(bytes) = bytes else {
        return Ok(FileSet::new(alloc));
    };
    let mut files = named_in(alloc, folder, top, bytes)?;
    files.add(alloc, top, bytes)?;
    Ok(files)
}

/// The files that are named by the lines of the DAG file of these bytes, and by those of its splices, as far as they can be read.
fn named_in<F: Folder>(
    alloc: Global,
    folder: &F,
    top: &str,
    bytes: &[u8],
) -> Result<FileSet, RunFault>
    ensures held { F.honest folder.now → IfOk result (AreHeld (F.holds folder.now)) }
    ensures err { IfErr result (λ fault. fault ≡ Memory) }
{
    let lines = Readable { folder, top: bytes };
    let named = files_of(alloc, &lines, top, Reading::SubmitFilesToo)?;
    let mut files = FileSet::new(alloc);
    for (path, _) in named.iter() {
        add_from(alloc, folder, &mut files, path.as_str())?;
    }
    Ok(files)
}

/// Adds the file of this path, if it can be read.
fn add_from<F: Folder>(
    alloc: Global,
    folder: &F,
    files: &mut FileSet,
    path: &str,
) -> Result<(), RunFault>
    ensures held { F.honest folder.now → AreHeld (F.holds folder.now) files.old → OnOk result (AreHeld (F.holds folder.now) files.new) }
    ensures err { IfErr result (λ fault. fault ≡ Memory) }
{
    if let Some(bytes) = folder.input(alloc, path)? {
        files.add_owned(alloc, path, bytes)?;
    }
    Ok(())
}
