// The faults of a manager.
ghost use Rattle.std.specs.Prelude.{◌≡◌};
ghost use Rattle.recovery_manager.specs.Faults.{manager_fault};

use event_journal_log::JournalFault;
use std::fmt;
use thiserror::Error;

/// Why a call of a manager was refused.
#[derive(Clone, Copy, Debug, PartialEq, Eq, Error)]
pub enum ManagerFault {
    /// The journal refused. After a writing call the record may be on the disk or not; the core
    /// is unchanged. In `write_rescue` it was the disk of the rescue file.
    Journal(JournalFault),
    /// The record in the slot of this number, from 0, may not follow those before it.
    Foreign(u64),
    /// The phase may not be launched or ended now, or the run may not end now, or the seal is of
    /// another number of records. Nothing was written.
    NotLawful,
    /// Memory was refused. Nothing was written.
    Memory,
    /// The run is finished.
    AlreadyFinished,
}

impl fmt::Display for ManagerFault {
    ghost use Rattle.std.specs.Prelude.{Some};
    ghost use Rattle.recovery_manager.specs.Displayed.{manager_fault_text};

    ghost output = { λ fault. Some (manager_fault_text fault) };

    fn fmt<W: fmt::Write>(&self, f: &mut fmt::Formatter<W>) -> fmt::Result {
        match self {
            ManagerFault::Journal(fault) => write!(f, "{fault}"),
            ManagerFault::Foreign(number) => write!(f, "M2 Foreign {number}"),
            ManagerFault::NotLawful => f.write_str("M3 NotLawful"),
            ManagerFault::Memory => f.write_str("M4 Memory"),
            ManagerFault::AlreadyFinished => f.write_str("M5 AlreadyFinished"),
        }
    }
}

impl From<JournalFault> for ManagerFault {
    ghost from_gives = { λ refusal fault. fault ≡ manager_fault refusal };

    fn from(refusal: JournalFault) -> ManagerFault {
        match refusal {
            JournalFault::Memory => ManagerFault::Memory,
            fault => ManagerFault::Journal(fault),
        }
    }
}
