//! Paths in the shell commands that hints propose.

ghost use Rattle.std.specs.Prelude.{◌≡◌, ◌++◌, IfOk, OnOk, codes, string_bytes};
ghost use Rattle.log_lines.specs.Words.{word_text};
ghost use Rattle.file_hints.specs.ShellPath.{below_here, shell_path};

use crate::macros::begins_with;
use dag_reader::Text;
use log_lines::push_word;
use std::alloc::{AllocError, Global};

/// A path that no command takes for an option: one that begins with `-` has `./` before it.
fn below_here(alloc: Global, path: &str) -> Result<Text, AllocError>
    ensures { IfOk result (λ below. below ≡ below_here path.now) }
{
    if begins_with(b'-', path.as_bytes()) {
        return Text::joined(alloc, "./", path);
    }
    Text::new(alloc, path)
}

/// A path as a shell reads it after the name of a command.
///
/// # Errors
/// Lack of memory.
pub(crate) fn shell_path(alloc: Global, path: &str) -> Result<Text, AllocError>
    ensures { IfOk result (λ word. word ≡ shell_path path.now) }
{
    let below = below_here(alloc, path)?;
    let mut word = String::new(alloc);
    push_word(&mut word, below.as_str())?;
    Text::new(alloc, word.as_str())
}
