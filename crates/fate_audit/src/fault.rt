//! Why an audit says no.

ghost use Rattle.std.specs.Prelude.{◌≡◌, Some};
ghost use Rattle.fate_audit.specs.Audit.{no_text};
ghost use Rattle.fate_audit.specs.declared.fault.AuditNo.TheVariants.{Memory};

use std::alloc::AllocError;
use std::fmt;
use thiserror::Error;

/// Why a journal is not that of a finished run without abort. It is displayed as
/// `CODE Name detail`.
#[derive(Clone, Copy, Debug, PartialEq, Eq, Error)]
pub enum AuditNo {
    /// The bytes are no journal of these inputs, or none was begun.
    NotAJournal,
    /// The record in the slot of this number, from 0, may not follow those before it.
    NotARun(u64),
    /// The records are those of a run, and Finish is not there.
    Unfinished,
    /// Memory was refused.
    Memory,
    /// The run is finished, and an abort ended it.
    Aborted,
}

// By hand, since a derived one has no contract: what is printed of it is proved.
impl fmt::Display for AuditNo {
    ghost output = { λ cause. Some (no_text cause) };

    fn fmt<W: fmt::Write>(&self, f: &mut fmt::Formatter<W>) -> fmt::Result {
        match self {
            AuditNo::NotAJournal => write!(f, "F1 NotAJournal"),
            AuditNo::NotARun(slot) => write!(f, "F2 NotARun {slot}"),
            AuditNo::Unfinished => write!(f, "F3 Unfinished"),
            AuditNo::Memory => write!(f, "F4 Memory"),
            AuditNo::Aborted => write!(f, "F5 Aborted"),
        }
    }
}

impl From<AllocError> for AuditNo {
    ghost from_gives = { λ _ cause. cause ≡ Memory };

    fn from(_e: AllocError) -> AuditNo {
        AuditNo::Memory
    }
}
