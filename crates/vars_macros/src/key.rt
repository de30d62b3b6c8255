//! How names are distinguished.

ghost use Rattle.std.specs.Prelude.{IfOk};
ghost use Rattle.vars_macros.specs.NameTable.{IsKeyOf};

use crate::numbering::Names;
use std::alloc::{AllocError, Global};

/// What is the same of two names just where they are the same in any case of ASCII letters: the
/// number, or the bytes in lower case of a name that has none.
#[derive(PartialEq, Eq, Hash)]
pub(crate) enum Key {
    Numbered(usize),
    Spelled(String),
}

// Each function that drops a value calls this; a derived drop would be in each, part by part.
impl Drop for Key {
    fn drop(self) {
        match self {
            Key::Numbered(_) => {}
            Key::Spelled(_) => {}
        }
    }
}

/// The key of a name.
pub(crate) fn key_of(alloc: Global, names: &Names, name: &str) -> Result<Key, AllocError>
    ensures { IfOk result (λ key. IsKeyOf names.now name.now key) }
{
    let lower = name.to_ascii_lowercase(alloc)?;
    match names.number(lower.as_str()) {
        Some(number) => Ok(Key::Numbered(number)),
        None => Ok(Key::Spelled(lower)),
    }
}
