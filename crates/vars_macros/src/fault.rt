//! Why a text could not be expanded or split.

ghost use Rattle.std.specs.Prelude.{◌≡◌};
ghost use Rattle.vars_macros.specs.declared.fault.MacroFault.TheVariants.{Memory};

use std::alloc::{AllocError, AllocFailed};
use std::fmt;
use thiserror::Error;

/// Why a text could not be expanded or split.
///
/// It is displayed as its code and its name: whoever knows the node adds it.
#[derive(Clone, Copy, Debug, PartialEq, Eq, Error)]
pub enum MacroFault {
    /// A parenthesis after a dollar sign is not closed.
    Unclosed,

    /// A name is referred to within its own expansion.
    Loop,

    /// More than 65,536 bytes are written, or more than 65,536 references replaced.
    TooLong,

    /// A double quote is unpaired, or a group is not closed.
    BadQuote,

    /// A reference whose name is empty, has other bytes than letters, digits, `_` and `.`, or is
    /// `DOLLAR`; or a parenthesis after two dollar signs, or after a dollar sign and a word.
    BadReference,

    /// Memory ran out.
    Memory,
}

impl fmt::Display for MacroFault {
    ghost use Rattle.std.specs.Prelude.{Some};
    ghost use Rattle.vars_macros.specs.Displayed.{macro_fault_name};

    ghost output = { λ fault. Some (macro_fault_name fault) };

    fn fmt<W: fmt::Write>(&self, f: &mut fmt::Formatter<W>) -> fmt::Result {
        f.write_str(match self {
            MacroFault::Unclosed => "V1 Unclosed",
            MacroFault::Loop => "V2 Loop",
            MacroFault::TooLong => "V3 TooLong",
            MacroFault::BadQuote => "V4 BadQuote",
            MacroFault::BadReference => "V5 BadReference",
            MacroFault::Memory => "V6 Memory",
        })
    }
}

impl From<AllocError> for MacroFault {
    ghost from_gives = { λ _ e. e ≡ Memory };

    fn from(_e: AllocError) -> MacroFault {
        MacroFault::Memory
    }
}

impl<T: Drop> From<AllocFailed<T>> for MacroFault {
    ghost from_gives = { λ _ e. e ≡ Memory };

    fn from(_e: AllocFailed<T>) -> MacroFault {
        MacroFault::Memory
    }
}
