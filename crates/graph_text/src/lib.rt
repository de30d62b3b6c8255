//! The picture of a DAG, as a text in DOT, the language of graphviz.
//!
//! The language is that of graphviz's page "DOT Language", and what its attributes mean that of "Attributes".
#![tactic(auto)]

mod boxes;
mod checking;
mod classes;
mod clusters;
mod names;
mod picture;
mod refining;
mod tally;

pub use boxes::folded_text;
pub use checking::folding_of;
pub use classes::class_at;
pub use picture::{Drawn, dot_text};
