//! Where what scripts print is kept: in a file each beside the DAG file, which is removed where the script ends with 0.

ghost use Rattle.std.specs.Prelude.{◌≡◌, Some, IfOk, IfSome};

use crate::launching::copy_of;
use dag_reader::Text;
use log_lines::phase_word;
use node_machine::{Key, Outcome};
use run_plan_node::ChildCommand;
use std::alloc::{AllocError, Global};
use std::fs::{self, File};
use std::io::{self, ErrorKind};
use std::os::unix::fs::FileExt;
use std::rt::Files;

/// How many bytes are kept of what a script prints: its end.
const MOST_BYTES: u64 = 1 << 16;

/// Adds the name of a node as a part of a file's name: a slash is written as `%2F`, and a percent sign as `%25`.
fn push_name(text: &mut String, name: &str) -> Result<(), AllocError> {
    for character in name.chars() {
        match character {
            '/' => text.push_str("%2F")?,
            '%' => text.push_str("%25")?,
            other => text.push(other)?,
        }
    }
    Ok(())
}

/// The folder of these files for the DAG file of this path.
fn folder_of(alloc: Global, dag: &str) -> Result<String, AllocError> {
    format!(in alloc; "{dag}.scripts")
}

/// The path of the file that keeps what a script of a node of this name prints: that of the DAG file, `.scripts/`, the name, the
/// phase and the attempt.
///
/// # Errors
/// Lack of memory.
fn kept_path(alloc: Global, dag: &str, name: &str, key: &Key) -> Result<String, AllocError> {
    let mut path = folder_of(alloc, dag)?;
    path.push('/')?;
    push_name(&mut path, name)?;
    write!(path, ".{}.{}", phase_word(key.phase), key.attempt)?;
    Ok(path)
}

/// Makes an empty file, and its folder where that is missing.
fn make_file<R: Files<File = File>>(rt: &R, folder: &str, path: &str) -> io::Result<()> {
    match File::create(rt, path) {
        Err(error) if error.kind() == ErrorKind::NotFound => {
            fs::create_dir(rt, folder)?;
            let _ = File::create(rt, path)?;
            Ok(())
        }
        Err(error) => Err(error),
        Ok(_) => Ok(()),
    }
}

/// A command whose output and errors go into the file of this path.
fn printing_to(
    alloc: Global,
    path: &str,
    command: &ChildCommand,
) -> Result<ChildCommand, AllocError>
    ensures { IfOk result (λ other. other ≡ record command.now { output = Some path.now; error = Some path.now }) }
{
    Ok(ChildCommand {
        program: Text::new(alloc, command.program.as_str())?,
        words: command.words.from_place(alloc, 0)?,
        folder: Text::new(alloc, command.folder.as_str())?,
        input: copy_of(alloc, &command.input)?,
        output: Some(Text::new(alloc, path)?),
        error: Some(Text::new(alloc, path)?),
        environment: command.environment.from_place(alloc, 0)?,
    })
}

/// The command of a script that prints into a file of its own, which is made; none where the system refuses that file, so that what it
/// prints is dropped.
///
/// # Errors
/// Lack of memory.
pub(crate) fn kept_command<R: Files<File = File>>(
    alloc: Global,
    rt: &R,
    dag: &str,
    name: &str,
    key: &Key,
    command: &ChildCommand,
) -> Result<Option<ChildCommand>, AllocError>
    // It differs in these two files alone.
    ensures { IfOk result (λ kept. IfSome kept (λ other. other ≡ record command.now { output = other.output; error = other.error })) }
{
    let folder = folder_of(alloc, dag)?;
    let path = kept_path(alloc, dag, name, key)?;
    match make_file(rt, folder.as_str(), path.as_str()) {
        Ok(()) => Ok(Some(printing_to(alloc, path.as_str(), command)?)),
        Err(_) => Ok(None),
    }
}

/// Leaves the last bytes of a file that has more than are kept.
fn shorten<R: Files<File = File>>(alloc: Global, rt: &R, path: &str) -> io::Result<()> {
    let size = fs::metadata(rt, path)?.len();
    if size <= MOST_BYTES {
        return Ok(());
    }
    let file = File::open(rt, path)?;
    let mut bytes = vec![in alloc; 0u8; MOST_BYTES as usize]?;
    let count = file.read_at(&mut bytes, size - MOST_BYTES)?;
    bytes.truncate(count);
    fs::write(rt, path, bytes.as_slice())
}

/// A script has ended so: the file that keeps what it printed is removed where it ended with 0, and its folder with the last one;
/// else its end is left. What the system refuses is passed over.
pub(crate) fn settle_kept<R: Files<File = File>>(
    alloc: Global,
    rt: &R,
    dag: &str,
    name: &str,
    key: &Key,
    outcome: Outcome,
) {
    let (Ok(folder), Ok(path)) = (folder_of(alloc, dag), kept_path(alloc, dag, name, key)) else {
        return;
    };
    if matches!(outcome, Outcome::Exit(0) | Outcome::NoStart) {
        let _ = fs::remove_file(rt, path.as_str());
        let _ = fs::remove_dir(rt, folder.as_str());
    } else {
        let _ = shorten(alloc, rt, path.as_str());
    }
}
