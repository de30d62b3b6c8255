//! What `status`, `audit` and `graph` answer, and `run --resume` of a run that has ended: what is answered of a run by its
//! journal.
#![tactic(auto)]

mod audit_data;
mod audits;
mod by_journal;
mod graphs;
mod journal;
mod reports;
mod round;
mod status_data;
mod statuses;

pub use by_journal::{Question, answer_here, report_here};
pub use graphs::Shape;
pub use journal::ReadJournal;
pub use round::{LastRound, OpenedRound, last_round, open_round};
pub use status_data::{line_of as json_line, node_of as node_json, value_of as value_json};
pub use statuses::{Form, json_of_status};
