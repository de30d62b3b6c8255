//! One node: its phases and their outcomes, its attempts, and where it is among them.
//!
//! The rules are those of the HTCondor manual, DAGMan workflows, "Node success or failure",
//! "PRE_SKIP" and "Retrying failed nodes", as docs/MANUAL.md states them.
#![tactic(auto)]

ghost use Rattle.std.specs.Prelude.{◌≡◌};
ghost use Rattle.node_machine.specs.Story.{value_of};

pub mod laws;
mod outcomes;
mod runs;
mod steps;
mod table;

pub use outcomes::{TableFault, read_table};
pub use runs::{NodeFault, NodeRun};
pub use table::Table;

/// A phase of an attempt, in the order in which an attempt runs them.
#[derive(Clone, Copy, Debug, PartialEq, Eq)]
pub enum Phase {
    /// The PRE script.
    Pre,
    /// The job itself.
    Job,
    /// The POST script.
    Post,
}

/// How a phase ended.
#[derive(Clone, Copy, Debug, PartialEq, Eq)]
pub enum Outcome {
    /// It exited with this code.
    Exit(u8),
    /// A signal of this number ended it: 1 to 127.
    Signal(u8),
    /// It could not be started.
    NoStart,
    /// It ended, and the system reported neither an exit code nor a signal.
    Untold,
}

/// A phase of an attempt of a node: the node's number in its plan, the attempt from 0.
#[derive(Clone, Copy, Debug, PartialEq, Eq)]
pub struct Key {
    pub node: u32,
    pub attempt: u32,
    pub phase: Phase,
}

/// A record of a run.
#[derive(Clone, Copy, Debug, PartialEq, Eq)]
pub enum Record {
    /// A manager begins, or goes on after another one stopped.
    Life,
    /// A phase is launched. Launches of jobs are numbered from 1, others have number 0.
    Launch(Key, u64),
    /// A phase ends.
    End(Key, Outcome),
    /// The run ends with this exit status.
    Finish(Verdict),
}

/// The exit status of a run.
pub type Verdict = u8;

/// A phase of a node that ended: the attempt from 0, the phase, and how it ended.
#[derive(Clone, Copy, Debug, PartialEq, Eq)]
pub struct Ended {
    pub attempt: u32,
    pub phase: Phase,
    pub outcome: Outcome,
}

/// What the files say of a node's attempts.
#[derive(Clone, Copy, Debug, PartialEq, Eq)]
pub struct Course {
    /// A PRE script runs first.
    pub pre: bool,
    /// The job is a NOOP: no child is started, and it ends with Exit 0.
    pub noop: bool,
    /// A POST script runs last, and its value alone is the attempt's.
    pub post: bool,
    /// The POST script, if there is one, runs after a PRE script that failed, too.
    pub always_post: bool,
    /// How often a failed attempt is repeated at most.
    pub retries: u32,
    /// A failed attempt of this value is not repeated.
    pub unless_exit: Option<i32>,
    /// Where PRE exits with this value, the job and POST are skipped and the attempt is good.
    pub pre_skip: Option<i32>,
    /// An attempt that ends with this value aborts the run, and is not repeated.
    pub abort_on: Option<i32>,
}

/// What a node has come to.
#[derive(Clone, Copy, Debug, PartialEq, Eq)]
pub enum State {
    /// Its last attempt was good, or it was done from the start.
    Done,
    /// Its last attempt was not good, and no further one is allowed.
    Error,
    /// Neither: it has not run, or phases are still to come.
    NotRun,
}

/// Where a node is: the attempt and the phase that come next, if any, and what the last
/// attempt that ended came to.
#[derive(Clone, Copy, Debug, PartialEq, Eq)]
pub struct MachineState {
    pub attempt: u32,
    pub phase: Option<Phase>,
    pub value: Option<i32>,
    pub good: bool,
}

/// The value of an outcome: an exit's code, a signal's number below zero, -1001 for a phase that
/// could not be started, -1000 for one whose ending was not reported.
pub fn value_of(outcome: Outcome) -> i32
    ensures { result ≡ value_of outcome }
{
    match outcome {
        Outcome::Exit(code) => i32::from(code),
        Outcome::Signal(number) => -i32::from(number),
        Outcome::NoStart => -1001,
        Outcome::Untold => -1000,
    }
}
