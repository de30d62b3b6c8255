//! The command line of dagrun: what its words ask for.
#![tactic(auto)]

mod commands;
pub mod examples;
mod launchers;
mod pages;
mod request;

pub use request::{
    FoldRule, OrphanRule, ProgressRule, Request, RunOptions, ShownRound, VERSION, View, WordsFault,
    read_words,
};
