//! A page of a round, in HTML: what a browser shows of it.
//!
//! The elements and attributes are those of the WHATWG's page "HTML", and what a style says is by the W3C's pages on CSS.
#![tactic(auto)]

mod drawings;
mod escaped;
mod fitting;
mod graph;
mod groups;
mod heads;
mod levels;
mod limits;
mod links;
mod placing;
mod rows;
mod script;
mod shapes;
mod style;
mod texts;
mod ticks;
mod timeline;
mod times;
mod values;

pub use shapes::{Align, Bend, Caption, Drawing, Label, Omission, Panel, Rule, Shape, Unit};
pub use texts::page_text;
pub use values::{LimitRow, Look, NodeState, Page, PhaseBar, PhaseEnd, RoundState, Row};
