//! Why a rescue file is not read, written or named.

ghost use Rattle.std.specs.Prelude.{◌≡◌};
ghost use Rattle.rescue_file.specs.declared.fault.RescueFault.TheVariants.{Memory};

use std::alloc::{AllocError, AllocFailed};
use std::fmt;
use thiserror::Error;

/// Why a rescue file is not read, written or named.
///
/// It is displayed as its code and its name: who knows the file's path adds it, and the number of
/// the line after a colon, as in `E2 UnknownNode x.dag.rescue001:7`.
#[derive(Clone, Copy, Debug, PartialEq, Eq, Error)]
pub enum RescueFault {
    /// The line of this number, from 1, is no comment, holds words, and is not `DONE` and a name;
    /// or its bytes are no text.
    BadLine(usize),

    /// The line of this number, from 1, names no node of the graph.
    UnknownNode(usize),

    /// The line of this number, from 1, names the FINAL node, which runs each time.
    FinalDone(usize),

    /// There is no rescue file of this number: they go from 1 to 999.
    NotThere(u16),

    /// Memory ran out.
    Memory,
}

impl fmt::Display for RescueFault {
    ghost use Rattle.std.specs.Prelude.{Some};
    ghost use Rattle.rescue_file.specs.Displayed.{rescue_fault_name};

    ghost output = { λ fault. Some (rescue_fault_name fault) };

    fn fmt<W: fmt::Write>(&self, f: &mut fmt::Formatter<W>) -> fmt::Result {
        match self {
            RescueFault::BadLine(_) => f.write_str("E1 BadLine"),
            RescueFault::UnknownNode(_) => f.write_str("E2 UnknownNode"),
            RescueFault::FinalDone(_) => f.write_str("E3 FinalDone"),
            RescueFault::NotThere(number) => write!(f, "E4 NotThere {number}"),
            RescueFault::Memory => f.write_str("E5 Memory"),
        }
    }
}

impl From<AllocError> for RescueFault {
    ghost from_gives = { λ _ e. e ≡ Memory };

    fn from(_e: AllocError) -> RescueFault {
        RescueFault::Memory
    }
}

impl<T: Drop> From<AllocFailed<T>> for RescueFault {
    ghost from_gives = { λ _ e. e ≡ Memory };

    fn from(_e: AllocFailed<T>) -> RescueFault {
        RescueFault::Memory
    }
}
