//! The files of a DAG: those that its lines name.

ghost use Rattle.std.specs.Prelude.{◌≡◌, Some, IfOk, IfErr, OnOk};
ghost use Rattle.std.specs.Option.{option_map};
ghost use Rattle.dag_main_check.specs.declared.fault.RunFault.TheVariants.{Memory};
ghost use Rattle.dag_main_files.specs.Beside.{IsInputFault};
ghost use Rattle.dag_main_files.specs.Folder.{AreHeld, KeepsFiles, IsReadFrom};

use crate::folder::Folder;
use dag_main_check::RunFault;
use dag_reader::{Command, ReadFault, Text, Word, read_dag};
use splices_flat::{FileSet, NameTable, path_in};
use std::alloc::{AllocError, Global};

/// How many lines that name a file are followed at most: far more than may be opened.
const MOST_WANTED: usize = 1 << 20;

/// How many splices a DAG has at most; of one with more the first are read, which is enough to refuse it.
const MOST_SPLICES: usize = 4_096;

/// How deep a file may lie in others; one that lies deeper is refused unread.
const MOST_DEPTH: u32 = 32;

/// A file that a line names: that of a splice, with the folder that its own lines are seen from and how many
/// files it lies in, or a submit file.
#[derive(Drop)]
enum Wanted {
    Splice {
        folder: Text,
        path: Text,
        depth: u32,
    },
    Submit {
        path: Text,
    },
}

/// Which files are read beside those of splices.
#[derive(Clone, Copy, PartialEq, Eq)]
pub enum Reading {
    /// The files of splices, and of theirs.
    SplicesAlone,
    /// Those, and the submit files of nodes.
    SubmitFilesToo,
}

/// What is still to be read: the files that lines name, the first of them last; and the splices that were
/// followed, by the folder and the path of each.
#[derive(Drop)]
struct ToRead {
    reading: Reading,
    wanted: Vec<Wanted>,
    followed: NameTable,
}

/// The DAG file of this path with the files of its splices and of theirs, and, if asked for, the submit files
/// of all nodes but NOOPs. A file that can't be read stays missing.
///
/// # Errors
/// `FileRefused` with `-` where standard input is asked for and can't be read, of a folder in which `-` is standard
/// input; `Memory`, also for a file of more than 256 MiB.
pub fn files_of<F: Folder>(
    alloc: Global,
    folder: &F,
    top: &str,
    reading: Reading,
) -> Result<FileSet, RunFault>
    // Each is a file that the folder holds, and the DAG file is among them if it holds that.
    ensures read { F.honest folder.now → IfOk result (IsReadFrom (F.holds folder.now) top.now) }
    ensures refused { IfErr result (IsInputFault top.now) }
    ensures unstreamed { ¬ (F.streams folder.now) → IfErr result (λ fault. fault ≡ Memory) }
{
    let bytes = folder.top(alloc, top)?;
    files_from(alloc, folder, top, bytes, reading)
}

/// The DAG file of these bytes, if it could be read, and the files that its lines name.
fn files_from<F: Folder>(
    alloc: Global,
    folder: &F,
    top: &str,
    bytes: Option<Vec<u8>>,
    reading: Reading,
) -> Result<FileSet, RunFault>
    ensures read { F.honest folder.now → option_map (λ b. b.items) bytes ≡ F.holds folder.now top.now
        → IfOk result (IsReadFrom (F.holds folder.now) top.now) }
    ensures err { IfErr result (λ fault. fault ≡ Memory) }
{
    let mut files = FileSet::new(alloc);
    let Some(bytes) = bytes else {
        return Ok(files);
    };
    let mut rest = ToRead {
        reading,
        wanted: Vec::new(alloc),
        followed: NameTable::new(alloc),
    };
    rest.want_all(alloc, "", bytes.as_slice(), 0)?;
    files.add_owned(alloc, top, bytes)?;
    read_rest(alloc, folder, &mut files, &mut rest)?;
    Ok(files)
}

/// Reads the files that are wanted, and those that their lines name.
fn read_rest<F: Folder>(
    alloc: Global,
    folder: &F,
    files: &mut FileSet,
    rest: &mut ToRead,
) -> Result<(), RunFault>
    ensures held { F.honest folder.now → AreHeld (F.holds folder.now) files.old → OnOk result (AreHeld (F.holds folder.now) files.new) }
    ensures kept { OnOk result (KeepsFiles files.old files.new) }
    ensures err { IfErr result (λ fault. fault ≡ Memory) }
{
    for _ in 0..MOST_WANTED {
        if rest.followed.len() > MOST_SPLICES {
            break;
        }
        match rest.wanted.pop() {
            Some(next) => read_next(alloc, folder, files, &next, rest)?,
            None => break,
        }
    }
    Ok(())
}

/// Reads a file that is not there, and wants those that its lines name where it is that of a splice.
fn read_next<F: Folder>(
    alloc: Global,
    folder: &F,
    files: &mut FileSet,
    next: &Wanted,
    rest: &mut ToRead,
) -> Result<(), RunFault>
    ensures held { F.honest folder.now → AreHeld (F.holds folder.now) files.old → OnOk result (AreHeld (F.holds folder.now) files.new) }
    ensures kept { OnOk result (KeepsFiles files.old files.new) }
    ensures err { IfErr result (λ fault. fault ≡ Memory) }
{
    match next {
        Wanted::Submit { path } => read_file(alloc, folder, files, path.as_str()),
        Wanted::Splice {
            folder: inner,
            path,
            depth,
        } => {
            read_file(alloc, folder, files, path.as_str())?;
            match files.get(path.as_str()) {
                Some(bytes) => rest.follow(alloc, inner.as_str(), path.as_str(), bytes, *depth),
                None => Ok(()),
            }
        }
    }
}

/// Reads the file of this path, unless that was done.
fn read_file<F: Folder>(
    alloc: Global,
    folder: &F,
    files: &mut FileSet,
    path: &str,
) -> Result<(), RunFault>
    ensures held { F.honest folder.now → AreHeld (F.holds folder.now) files.old → OnOk result (AreHeld (F.holds folder.now) files.new) }
    ensures kept { OnOk result (KeepsFiles files.old files.new) }
    ensures err { IfErr result (λ fault. fault ≡ Memory) }
{
    if files.get(path).is_some() {
        return Ok(());
    }
    if let Some(bytes) = folder.input(alloc, path)? {
        files.add_owned(alloc, path, bytes)?;
    }
    Ok(())
}

impl ToRead {
    /// Wants the files that the lines of a splice's file name, seen from this folder, unless they are.
    fn follow(
        &mut self,
        alloc: Global,
        folder: &str,
        path: &str,
        bytes: &[u8],
        depth: u32,
    ) -> Result<(), RunFault>
        ensures { IfErr result (λ fault. fault ≡ Memory) }
    {
        let from = Text::joined(alloc, folder, "\n")?;
        let splice = Text::joined(alloc, from.as_str(), path)?;
        if self.followed.has(splice.as_str()) {
            return Ok(());
        }
        self.followed.add(alloc, splice.as_str())?;
        self.want_all(alloc, folder, bytes, depth)
    }

    /// Wants the files that the lines of a DAG file in this folder name, which lies in so many others.
    fn want_all(
        &mut self,
        alloc: Global,
        folder: &str,
        bytes: &[u8],
        depth: u32,
    ) -> Result<(), RunFault>
        ensures { IfErr result (λ fault. fault ≡ Memory) }
    {
        for line in bytes.rsplit(|byte| *byte == b'\n') {
            if may_name_a_file(line) {
                self.want_of_line(alloc, folder, without_carriage_return(line), depth)?;
            }
        }
        Ok(())
    }

    /// Wants the file that a line names; none where the line is no command.
    fn want_of_line(
        &mut self,
        alloc: Global,
        folder: &str,
        line: &[u8],
        depth: u32,
    ) -> Result<(), RunFault>
        ensures { IfErr result (λ fault. fault ≡ Memory) }
    {
        let file = match read_dag(alloc, line) {
            Ok(file) => file,
            Err(ReadFault::Memory) => return Err(RunFault::Memory),
            Err(_) => return Ok(()),
        };
        match file.commands.first() {
            Some(command) => Ok(self.want(alloc, folder, command, depth)?),
            None => Ok(()),
        }
    }

    /// Wants the file that a line names.
    fn want(
        &mut self,
        alloc: Global,
        folder: &str,
        command: &Command,
        depth: u32,
    ) -> Result<(), AllocError> {
        match command {
            Command::Splice { file, dir, .. } if depth < MOST_DEPTH => {
                let folder = path_in(alloc, folder, dir_text(dir))?;
                let path = path_in(alloc, folder.as_str(), file.text())?;
                self.wanted.push(Wanted::Splice {
                    folder,
                    path,
                    depth: depth + 1,
                })?;
            }
            Command::Job {
                file,
                dir,
                noop,
                ..
            }
            | Command::Final {
                file,
                dir,
                noop,
                ..
            } if !*noop && self.reading == Reading::SubmitFilesToo => {
                let folder = path_in(alloc, folder, dir_text(dir))?;
                let path = path_in(alloc, folder.as_str(), file.text())?;
                self.wanted.push(Wanted::Submit { path })?;
            }
            _ => (),
        }
        Ok(())
    }
}

/// Whether a line may be one of JOB, FINAL or SPLICE, by the first letter of its first word: most lines of a large DAG are others, and aren't
/// read twice.
fn may_name_a_file(line: &[u8]) -> bool {
    let first = line.iter().find(|byte| !matches!(byte, b' ' | b'\t'));
    matches!(first, Some(b'J' | b'j' | b'F' | b'f' | b'S' | b's'))
}

/// A line without the carriage return before its end.
fn without_carriage_return(line: &[u8]) -> &[u8] {
    match line {
        [front @ .., b'\r'] => front,
        _ => line,
    }
}

/// The folder that DIR gives, which is empty where it is missing.
fn dir_text(dir: &Option<Word>) -> &str {
    match dir {
        Some(word) => word.text(),
        None => "",
    }
}
