//! Why a text could not be read.

ghost use Rattle.std.specs.Prelude.{◌≡◌};
ghost use Rattle.dag_reader.specs.declared.fault.ReadFault.TheVariants.{Memory, Line};

use crate::span::Span;
use std::alloc::{AllocError, AllocFailed};
use std::fmt;
use thiserror::Error;

/// What is wrong with a line, and where.
///
/// It is displayed as its code and its name, without the place: who knows the file's name writes
/// `{fault} {file}:{}` of `fault.span()`, as in `L4 MissingWord a.dag:3:6`.
#[derive(Clone, Copy, Debug, PartialEq, Eq, Error)]
pub enum LineFault {
    /// A control character, or bytes that are not UTF-8: the first byte that is no text.
    NotText(Span),

    /// The first word is no command.
    UnknownCommand(Span),

    /// A word of the DAGMan language that this program leaves out, or the line's last word where
    /// it ends with a backslash as the line's last byte.
    Unsupported(Span),

    /// The line ends where a word is wanted: no bytes, at the line's end.
    MissingWord(Span),

    /// A word that has no place there.
    UnexpectedWord(Span),

    /// A word that can't be the name that is wanted.
    BadName(Span),

    /// A word that is no number, or a number out of its range.
    BadNumber(Span),

    /// The text of a macro is not opened, closed or followed as it has to be.
    BadQuote(Span),

    /// The line has over 65,536 bytes: those that are too many.
    TooLong(Span),
}

impl fmt::Display for LineFault {
    ghost use Rattle.std.specs.Prelude.{Some};
    ghost use Rattle.dag_reader.specs.Fault.{line_fault_name};

    ghost output = { λ fault. Some (line_fault_name fault) };

    fn fmt<W: fmt::Write>(&self, f: &mut fmt::Formatter<W>) -> fmt::Result {
        f.write_str(match self {
            LineFault::NotText(_) => "L1 NotText",
            LineFault::UnknownCommand(_) => "L2 UnknownCommand",
            LineFault::Unsupported(_) => "L3 Unsupported",
            LineFault::MissingWord(_) => "L4 MissingWord",
            LineFault::UnexpectedWord(_) => "L5 UnexpectedWord",
            LineFault::BadName(_) => "L6 BadName",
            LineFault::BadNumber(_) => "L7 BadNumber",
            LineFault::BadQuote(_) => "L8 BadQuote",
            LineFault::TooLong(_) => "L9 TooLong",
        })
    }
}

impl LineFault {
    ghost use Rattle.dag_reader.specs.Fault.{span_of};

    /// Where the fault is.
    pub fn span(&self) -> Span
        ensures { result ≡ span_of self.now }
    {
        match *self {
            LineFault::NotText(span) => span,
            LineFault::UnknownCommand(span) => span,
            LineFault::Unsupported(span) => span,
            LineFault::MissingWord(span) => span,
            LineFault::UnexpectedWord(span) => span,
            LineFault::BadName(span) => span,
            LineFault::BadNumber(span) => span,
            LineFault::BadQuote(span) => span,
            LineFault::TooLong(span) => span,
        }
    }
}

/// Why a text could not be read.
#[derive(Debug, Drop, Error)]
pub enum ReadFault {
    /// Memory ran out.
    #[error("L10 Memory")]
    Memory,

    /// The first line that can't be read, and what is wrong with it.
    #[error("{0}")]
    Line(LineFault),
}

impl From<LineFault> for ReadFault {
    ghost from_gives = { λ f e. e ≡ Line f };

    fn from(fault: LineFault) -> ReadFault {
        ReadFault::Line(fault)
    }
}

impl From<AllocError> for ReadFault {
    ghost from_gives = { λ _ e. e ≡ Memory };

    fn from(_e: AllocError) -> ReadFault {
        ReadFault::Memory
    }
}

impl<T: Drop> From<AllocFailed<T>> for ReadFault {
    ghost from_gives = { λ _ e. e ≡ Memory };

    fn from(_e: AllocFailed<T>) -> ReadFault {
        ReadFault::Memory
    }
}
