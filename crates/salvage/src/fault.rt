//! Why a round is not salvaged.

ghost use Rattle.std.specs.Prelude.{◌≡◌, IsTrue, IfOk, IfErr, is_some};
ghost use Rattle.dag_main_check.specs.declared.fault.RunFault.TheVariants.{Memory};
ghost use Rattle.salvage.specs.Faults.{fault_text};
ghost use Rattle.salvage.specs.declared.fault.SalvageFault.TheVariants.{Refused};

use dag_main_check::RunFault;
use dag_reader::Text;
use std::alloc::{AllocError, AllocFailed};
use std::fmt;
use thiserror::Error;

/// Why a round is not salvaged. It is displayed as `CODE Name PATH`, the line that the user reads after
/// `dagrun: `.
#[derive(Drop, Error)]
pub enum SalvageFault {
    /// As `run` would tell it.
    Refused(RunFault),
    /// There is no journal of this path, or none was begun: no round was cut short.
    NoJournal(Text),
    /// The journal of this path is that of a round that has ended.
    Ended(Text),
    /// There is no file of this path that says what the round was begun with.
    NoInputs(Text),
    /// The file of this path doesn't say it in the way in which it is written.
    BadInputs(Text),
    /// The file of this path says it of another round than the journal's.
    OtherRound(Text),
    /// The DAG file, the file of a splice or the rescue file of this path is not as it was when the round
    /// began, or it is missing.
    Changed(Text),
    /// The DAG file, the file of a splice or the rescue file of this path is none of the files that the
    /// round was begun with.
    NotListed(Text),
}

// What is printed of a fault that no other command has is proved.
impl fmt::Display for SalvageFault {
    ghost output = { λ fault. fault_text fault };

    fn fmt<W: fmt::Write>(&self, f: &mut fmt::Formatter<W>) -> fmt::Result {
        match self {
            SalvageFault::Refused(fault) => write!(f, "{fault}"),
            SalvageFault::NoJournal(path) => write!(f, "R1 NoJournal {}", path.as_str()),
            SalvageFault::Ended(path) => write!(f, "R2 Ended {}", path.as_str()),
            SalvageFault::NoInputs(path) => write!(f, "R3 NoInputs {}", path.as_str()),
            SalvageFault::BadInputs(path) => write!(f, "R4 BadInputs {}", path.as_str()),
            SalvageFault::OtherRound(path) => write!(f, "R5 OtherRound {}", path.as_str()),
            SalvageFault::Changed(path) => write!(f, "R6 Changed {}", path.as_str()),
            SalvageFault::NotListed(path) => write!(f, "R7 NotListed {}", path.as_str()),
        }
    }
}

impl SalvageFault {
    /// This fault, where it is one that no other command has.
    ///
    /// # Errors
    /// The fault of another command that it is, where it is one.
    pub fn own(self) -> Result<SalvageFault, RunFault>
        ensures own { IfOk result (λ fault. (fault ≡ self) × IsTrue (is_some (fault_text fault))) }
        ensures other { IfErr result (λ fault. self ≡ Refused fault) }
    {
        match self {
            SalvageFault::Refused(fault) => Err(fault),
            SalvageFault::NoJournal(path) => Ok(SalvageFault::NoJournal(path)),
            SalvageFault::Ended(path) => Ok(SalvageFault::Ended(path)),
            SalvageFault::NoInputs(path) => Ok(SalvageFault::NoInputs(path)),
            SalvageFault::BadInputs(path) => Ok(SalvageFault::BadInputs(path)),
            SalvageFault::OtherRound(path) => Ok(SalvageFault::OtherRound(path)),
            SalvageFault::Changed(path) => Ok(SalvageFault::Changed(path)),
            SalvageFault::NotListed(path) => Ok(SalvageFault::NotListed(path)),
        }
    }
}

// A derived one goes over each part; the line that a user reads says as much.
impl fmt::Debug for SalvageFault {
    fn fmt<W: fmt::Write>(&self, f: &mut fmt::Formatter<W>) -> fmt::Result {
        fmt::Display::fmt(self, f)
    }
}

impl From<RunFault> for SalvageFault {
    ghost from_gives = { λ fault told. told ≡ Refused fault };

    fn from(fault: RunFault) -> SalvageFault {
        SalvageFault::Refused(fault)
    }
}

impl From<AllocError> for SalvageFault {
    ghost from_gives = { λ _ told. told ≡ Refused Memory };

    fn from(_e: AllocError) -> SalvageFault {
        SalvageFault::Refused(RunFault::Memory)
    }
}

impl<T: Drop> From<AllocFailed<T>> for SalvageFault {
    ghost from_gives = { λ _ told. told ≡ Refused Memory };

    fn from(_e: AllocFailed<T>) -> SalvageFault {
        SalvageFault::Refused(RunFault::Memory)
    }
}
