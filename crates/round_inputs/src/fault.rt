//! Why the files that say what a round was begun with can't be used.

ghost use Rattle.std.specs.Prelude.{◌≡◌};
ghost use Rattle.round_inputs.specs.declared.fault.BadBytes.TheVariants.{Memory};

use std::alloc::{AllocError, AllocFailed};

/// Why bytes don't say what a round was begun with.
#[derive(Clone, Copy, Debug, PartialEq, Eq)]
pub enum BadBytes {
    /// They are not spelled as `begun_text` or `inputs_text` spells them.
    NotSpelled,
    /// Memory was refused.
    Memory,
}

impl From<AllocError> for BadBytes {
    ghost from_gives = { λ _ fault. fault ≡ Memory };

    fn from(_e: AllocError) -> BadBytes {
        BadBytes::Memory
    }
}

impl<T: Drop> From<AllocFailed<T>> for BadBytes {
    ghost from_gives = { λ _ fault. fault ≡ Memory };

    fn from(_e: AllocFailed<T>) -> BadBytes {
        BadBytes::Memory
    }
}
