//! Why a submit description could not be read.

ghost use Rattle.std.specs.Prelude.{◌≡◌};
ghost use Rattle.submit_file.specs.declared.fault.SubmitFault.TheVariants.{Memory};

use std::alloc::{AllocError, AllocFailed};
use std::fmt;
use thiserror::Error;

/// What is wrong with a line.
#[derive(Clone, Copy, Debug, PartialEq, Eq, Error)]
pub enum LineFault {
    /// There is no equals sign, or the name before it is empty or holds a blank.
    BadLine,

    /// A queue line with a count that isn't 1, or a second queue line.
    QueueCount,

    /// Other words after `queue`; or the first word is `if`, `elif`, `else`, `endif` or `include`
    /// and no equals sign follows it.
    Unsupported,
}

impl fmt::Display for LineFault {
    ghost use Rattle.std.specs.Prelude.{Some};
    ghost use Rattle.submit_file.specs.Displayed.{submit_line_fault_name};

    ghost output = { λ fault. Some (submit_line_fault_name fault) };

    fn fmt<W: fmt::Write>(&self, f: &mut fmt::Formatter<W>) -> fmt::Result {
        f.write_str(match self {
            LineFault::BadLine => "U2 BadLine",
            LineFault::QueueCount => "U4 QueueCount",
            LineFault::Unsupported => "U5 Unsupported",
        })
    }
}

/// Why a submit description could not be read.
///
/// It is displayed as its code and its name: whoever knows the file's path adds it, and the line of
/// `InLine` after a colon, as in `U2 BadLine a.sub:3`.
#[derive(Clone, Copy, Debug, PartialEq, Eq, Error)]
pub enum SubmitFault {
    /// The bytes are not UTF-8.
    NotText,

    /// No line queues the job.
    NoQueue,

    /// The number of the first line that can't be read, from 1, and what is wrong with it. Lines
    /// that are joined have the number of their first.
    InLine(usize, LineFault),

    /// Memory ran out.
    Memory,
}

impl fmt::Display for SubmitFault {
    ghost use Rattle.std.specs.Prelude.{Some};
    ghost use Rattle.submit_file.specs.Displayed.{submit_fault_name};

    ghost output = { λ fault. Some (submit_fault_name fault) };

    fn fmt<W: fmt::Write>(&self, f: &mut fmt::Formatter<W>) -> fmt::Result {
        match self {
            SubmitFault::NotText => f.write_str("U1 NotText"),
            SubmitFault::NoQueue => f.write_str("U3 NoQueue"),
            SubmitFault::InLine(_, fault) => write!(f, "{fault}"),
            SubmitFault::Memory => f.write_str("U6 Memory"),
        }
    }
}

impl From<AllocError> for SubmitFault {
    ghost from_gives = { λ _ e. e ≡ Memory };

    fn from(_e: AllocError) -> SubmitFault {
        SubmitFault::Memory
    }
}

impl<T: Drop> From<AllocFailed<T>> for SubmitFault {
    ghost from_gives = { λ _ e. e ≡ Memory };

    fn from(_e: AllocFailed<T>) -> SubmitFault {
        SubmitFault::Memory
    }
}
