//! The forms of what `why` answers.

use failure_report::Grouping;

/// The form of what `why` answers.
#[derive(Clone, Copy, Debug, PartialEq, Eq)]
pub enum WhyForm {
    /// A text; where no node is named, the nodes in error with one cause once, or each by itself.
    Text(Grouping),
    /// JSON, each node by itself.
    Json,
}
