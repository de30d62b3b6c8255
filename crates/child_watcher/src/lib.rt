//! Who is informed of what is done with the children of a run, the words that display what was refused of one, what they inherit, and
//! how a shell sends signals to them.
//!
//! A round has an identifier that no other one has. Each process that it starts has it in its environment, and so has whatever that
//! process starts in turn, under whatever program: `timeout`, `setsid`, `nice`, `env` or the launcher of a cluster. The words of a
//! command, a parent and a group tell less: two rounds may have the same words, and a process may leave its group.
#![tactic(auto)]

mod inherited;
mod refused;
mod shell;
mod watching;

pub use inherited::{RoundIdentity, is_of_round, value_of};
pub use refused::refused_part;
pub use shell::run_shell;
pub use watching::{ChildWatcher, CommandPart, Killed, Unwatched};
