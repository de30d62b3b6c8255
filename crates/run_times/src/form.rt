//! The forms in which phases are printed.

/// The form in which phases are printed.
#[derive(Clone, Copy, Debug, PartialEq, Eq)]
pub enum Form {
    /// A table with a row for each phase.
    Table,
    /// A picture with a bar for each phase, as SVG.
    Picture,
    /// JSON with an object for each phase.
    Json,
    /// A text for a person: where the time went, and what would make it shorter.
    Summary,
    /// A table with a row for each round of which there is a log.
    Rounds,
}
