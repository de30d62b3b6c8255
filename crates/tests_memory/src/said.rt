//! What is printed of a call.

use anyhow::Result;
use std::alloc::{AllocError, Global};

/// Whether a line says that memory is out: a call's fault, or that of a disk in memory, which says that it failed.
fn wants_memory(line: &str) -> bool {
    line.ends_with("Memory") || line.ends_with("Device")
}

/// Prints what a call came to; whether it is to be made again.
pub fn say(rt: HostRuntime, line: Result<String, AllocError>) -> Result<bool> {
    match line {
        Ok(line) => {
            println!(rt; "{line}")?;
            Ok(wants_memory(line.as_str()))
        }
        Err(_) => {
            println!(rt; "Memory")?;
            Ok(true)
        }
    }
}

/// These words, a bar after each.
pub fn barred<T: std::fmt::Display>(alloc: Global, words: &[T]) -> Result<String, AllocError> {
    let mut text = String::new(alloc);
    for word in words {
        write!(&mut text, "{word}|")?;
    }
    Ok(text)
}
