//! The bytes of inputs.

ghost use Rattle.std.specs.Prelude.{◌≡◌, codes, IfErr};
ghost use Rattle.dag_main_check.specs.declared.fault.RunFault.TheVariants.{Memory};
ghost use Rattle.dag_main_files.specs.Beside.{IsInputFault};

use dag_main_check::RunFault;
use splices_flat::path_in;
use std::alloc::Global;
use std::fs::{self, Metadata, OpenOptions};
use std::io::{self, ErrorKind, Read};
use std::os::unix::fs::{FileTypeExt, MetadataExt};
use std::rt::Files;

/// The greatest size of an input in bytes, 256 MiB.
pub const MOST_BYTES: u64 = 1 << 28;

/// Whether a file is one of the system's own texts, as those of /proc are, which have no size.
fn is_of_system<R: Files>(rt: &R, found: &Metadata) -> bool {
    match fs::metadata(rt, "/proc") {
        Ok(system) => found.len() == 0 && found.dev() == system.dev(),
        Err(_) => false,
    }
}

/// Whether a file is one that is read: a regular one, or a pipe where these are.
fn is_input<R: Files>(rt: &R, found: &Metadata, pipes: bool) -> bool {
    (found.is_file() && !is_of_system(rt, found)) || (pipes && found.file_type().is_fifo())
}

/// The bytes of the file of this path, which is an input; where pipes are, it may be one, too.
///
/// # Errors
/// `InvalidInput` for a file that is no regular one, as a folder or a device, nor such a pipe;
/// `OutOfMemory` for one of more than 256 MiB; else what the system says.
pub fn read_input<R: Files + AllocGlobal>(rt: &R, path: &str, pipes: bool) -> io::Result<Vec<u8>> {
    let found = fs::metadata(rt, path)?;
    if !is_input(rt, &found, pipes) {
        return Err(io::Error::new(ErrorKind::InvalidInput, "it is no file that is read"));
    }
    if found.len() > MOST_BYTES {
        return Err(io::Error::from(ErrorKind::OutOfMemory));
    }
    let mut options = OpenOptions::new();
    let file = options.read(true).open(rt, path)?;
    read_at_most(rt.alloc(), file)
}

/// What can be read from here on.
///
/// # Errors
/// `OutOfMemory` for more than 256 MiB; else what the system says.
fn read_at_most<T: Read + Drop>(alloc: Global, source: T) -> io::Result<Vec<u8>> {
    let mut bytes = Vec::new(alloc);
    source.take(MOST_BYTES + 1).read_to_end(&mut bytes)?;
    if bytes.len() as u64 > MOST_BYTES {
        return Err(io::Error::from(ErrorKind::OutOfMemory));
    }
    Ok(bytes)
}

/// The bytes of a file as seen from a folder, unless it can't be read; where pipes are read, it may be
/// one. More than 256 MiB are answered as if there were no memory for them.
///
/// # Errors
/// `Memory` alone.
pub(crate) fn read_named<R: Files + AllocGlobal>(
    alloc: Global,
    rt: &R,
    seat: &str,
    path: &str,
    pipes: bool,
) -> Result<Option<Vec<u8>>, RunFault>
    ensures { IfErr result (λ fault. fault ≡ Memory) }
{
    let place = path_in(alloc, seat, path)?;
    match read_input(rt, place.as_str(), pipes) {
        Ok(bytes) => Ok(Some(bytes)),
        Err(error) if error.kind() == ErrorKind::OutOfMemory => Err(RunFault::Memory),
        Err(_) => Ok(None),
    }
}

/// The bytes of standard input.
///
/// # Errors
/// `FileRefused` with `-` where it can't be read; `Memory`, also for more than 256 MiB.
pub(crate) fn read_standard_input<R: Input>(alloc: Global, rt: &R) -> Result<Vec<u8>, RunFault>
    ensures { IfErr result (IsInputFault (codes "-")) }
{
    match read_at_most(alloc, rt.reader()) {
        Ok(bytes) => Ok(bytes),
        Err(error) if error.kind() == ErrorKind::OutOfMemory => Err(RunFault::Memory),
        Err(_) => Err(RunFault::FileRefused(String::from_str(alloc, "-")?)),
    }
}
