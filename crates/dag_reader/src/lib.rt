//! Reads the lines of a DAGMan input file.
#![tactic(auto)]

mod command;
mod dag_file;
mod fault;
pub mod laws;
mod layout;
mod line;
mod macro_reader;
mod pass;
mod reading;
mod span;
mod text;
mod token;
mod values;
mod word;

pub use command::{Command, DagFile, Macro, Macros, Placement, ScriptKind, Target};
pub use dag_file::{line_text, read_dag, split_line};
pub use fault::{LineFault, ReadFault};
pub use line::LineReader;
pub use span::Span;
pub use text::{Text, Texts};
pub use token::Token;
pub use word::{Word, Words};
