//! Why the files of a DAG are refused.

ghost use Rattle.std.specs.Prelude.{◌≡◌};
ghost use Rattle.splices_flat.specs.declared.fault.SpliceFault.TheVariants.{Memory};

use dag_reader::{LineFault, Span, Text, Texts};
use std::alloc::{AllocError, AllocFailed};
use std::fmt;
use thiserror::Error;

/// What is wrong with the files of a DAG: its code, its name and its place. Where there is a span,
/// the text is the path of the file that it is in.
#[derive(Error)]
pub enum DagFault {
    /// There is no file of this path.
    MissingFile(Text),

    /// A line of the file of this path is not spelled rightly.
    InFile(Text, LineFault),

    /// A file lies in itself: the paths from the first file of the loop to the one whose SPLICE
    /// line would open it again.
    Loop(Texts),

    /// A name of a node, a splice or FINAL that a line above in the same file declares too, or a
    /// second FINAL.
    DuplicateName(Text, Span),

    /// A name that no line of the same file declares.
    UnknownNode(Text, Span),

    /// The file of this path lies in 33 others.
    TooDeep(Text),

    /// Over 65,536 nodes, FINAL among them, or over 4,096 splices.
    TooManyNodes,

    /// A FINAL line in the file of a splice.
    FinalInSplice(Text, Span),

    /// A setting for a splice.
    SpliceSetting(Text, Span),

    /// A splice with no nodes in a PARENT line.
    EmptySpliceEdge(Text, Span),

    /// FINAL in a PARENT line, or in a line of CATEGORY, PRIORITY or ABORT-DAG-ON.
    FinalSetting(Text, Span),
}

// Each function that drops a value calls this; a derived drop would be in each, part by part.
impl Drop for DagFault {
    fn drop(self) {
        match self {
            DagFault::MissingFile(_path) => {}
            DagFault::InFile(_path, _fault) => {}
            DagFault::Loop(_paths) => {}
            DagFault::DuplicateName(_path, _span) => {}
            DagFault::UnknownNode(_path, _span) => {}
            DagFault::TooDeep(_path) => {}
            DagFault::TooManyNodes => {}
            DagFault::FinalInSplice(_path, _span) => {}
            DagFault::SpliceSetting(_path, _span) => {}
            DagFault::EmptySpliceEdge(_path, _span) => {}
            DagFault::FinalSetting(_path, _span) => {}
        }
    }
}

impl fmt::Display for DagFault {
    ghost use Rattle.std.specs.Prelude.{Some};
    ghost use Rattle.splices_flat.specs.Displayed.{dag_fault_text};

    ghost output = { λ fault. Some (dag_fault_text fault) };

    fn fmt<W: fmt::Write>(&self, f: &mut fmt::Formatter<W>) -> fmt::Result {
        let (name, path, span) = match self {
            DagFault::MissingFile(path) => return write!(f, "S1 MissingFile {path}"),
            DagFault::InFile(path, fault) => {
                let span = fault.span();
                return write!(f, "{fault} {path}:{span}");
            }
            DagFault::Loop(paths) => return write!(f, "S3 Loop{paths}"),
            DagFault::DuplicateName(path, span) => ("S4 DuplicateName", path, span),
            DagFault::UnknownNode(path, span) => ("S5 UnknownNode", path, span),
            DagFault::TooDeep(path) => return write!(f, "S6 TooDeep {path}"),
            DagFault::TooManyNodes => return f.write_str("S7 TooManyNodes"),
            DagFault::FinalInSplice(path, span) => ("S8 FinalInSplice", path, span),
            DagFault::SpliceSetting(path, span) => ("S9 SpliceSetting", path, span),
            DagFault::EmptySpliceEdge(path, span) => ("S10 EmptySpliceEdge", path, span),
            DagFault::FinalSetting(path, span) => ("S11 FinalSetting", path, span),
        };
        write!(f, "{name} {path}:{span}")
    }
}

// A derived one goes over each part; the line that a user reads says as much.
impl fmt::Debug for DagFault {
    fn fmt<W: fmt::Write>(&self, f: &mut fmt::Formatter<W>) -> fmt::Result {
        fmt::Display::fmt(self, f)
    }
}

/// Why no DAG is given.
#[derive(Debug, Drop, Error)]
pub enum SpliceFault {
    /// Memory was refused.
    #[error("S12 Memory")]
    Memory,

    /// The files are refused.
    #[error("{0}")]
    Dag(DagFault),
}

impl From<AllocError> for SpliceFault {
    ghost from_gives = { λ _ e. e ≡ Memory };

    fn from(_e: AllocError) -> SpliceFault {
        SpliceFault::Memory
    }
}

impl<T: Drop> From<AllocFailed<T>> for SpliceFault {
    ghost from_gives = { λ _ e. e ≡ Memory };

    fn from(_e: AllocFailed<T>) -> SpliceFault {
        SpliceFault::Memory
    }
}
