//! How what is reported of a node is indented.

ghost use Rattle.std.specs.Prelude.{◌≡◌, map, IfOk, string_bytes};
ghost use Rattle.std.specs.Str.Lines.{lines};
ghost use Rattle.failure_report.specs.Hanging.{hung};

use std::alloc::{AllocError, Global};

/// The lines of a text.
fn lines_of(alloc: Global, text: &str) -> Result<Vec<&str>, AllocError>
    ensures { IfOk result (λ found. map (λ line. line.now) found.items ≡ lines text.now) }
{
    text.lines().collect(alloc)
}

/// A text whose lines after the first are indented by four blanks.
///
/// # Errors
/// Lack of memory.
pub(crate) fn hung(alloc: Global, text: &str) -> Result<String, AllocError>
    ensures { IfOk result (λ block. string_bytes block ≡ hung text.now) }
{
    let mut block = lines_of(alloc, text)?.join(alloc, "\n    ")?;
    block.push_str("\n")?;
    Ok(block)
}
