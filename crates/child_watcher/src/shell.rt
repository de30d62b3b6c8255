//! Signals to processes that need not be children of this one, by a shell, since each system has one.

use std::alloc::Global;
use std::io;
use std::process::{Command, Processes, Stdio};

/// Has a shell run these words, as `kill -TERM 17 18`, and waits until it has: without input, and what it prints is dropped.
///
/// # Errors
/// What the system says where no shell can be started, and lack of memory. How the words ended is not asked.
pub fn run_shell<R: Processes>(alloc: Global, rt: &R, words: &str) -> io::Result<()> {
    let mut command = Command::new(alloc, "/bin/sh")?;
    command.arg("-c")?.arg(words)?;
    command
        .stdin(Stdio::null())
        .stdout(Stdio::null())
        .stderr(Stdio::null());
    command.status(rt)?;
    Ok(())
}
