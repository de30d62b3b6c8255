//! What each fault of dagrun says, with an example of it, and what to do. And what is displayed at a terminal after the line of a
//! refusal: the line of the file that it names, with a caret below the place; the nearest word that would do; what the system said; and what to
//! write instead.
#![tactic(auto)]

mod excerpt;
mod files;
mod guide;
mod hint;
mod inner;
mod jobs;
mod left_out;
mod lines;
mod near;
mod refusal;
mod rounds;
mod running;

pub use guide::{Fault, fault_of, faults, list_text, page_text};
pub use hint::{Evidence, hint_text};
pub use near::nearest;
pub use refusal::{Refusal, SourcePlace};
