//! Macros and what texts that refer to them stand for, as the chapter "condor_submit" of the
//! HTCondor manual has it.
#![tactic(auto)]

mod arguments;
mod assignment;
mod cut;
mod expanding;
mod fault;
mod key;
pub mod laws;
mod machine;
mod macros;
mod meaning;
mod naming;
mod numbering;
mod output;
mod pairs;
mod part;
mod scope;
mod script;
mod words;

pub use arguments::split_arguments;
pub use assignment::Macro;
pub use expanding::{Attempt, expand, expand_vars};
pub use fault::MacroFault;
pub use macros::Macros;
pub use output::Expanded;
pub use script::{ScriptFacts, script_words, uses_whole_run};
