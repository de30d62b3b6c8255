//! The forms of what `check` answers.

/// The form of what `check` answers.
#[derive(Clone, Copy, Debug, PartialEq, Eq)]
pub enum CheckForm {
    /// The line `ok nodes=N edges=E final=yes` or `final=no`.
    Line,
    /// The same as JSON, with the path of the DAG file.
    Json,
}
