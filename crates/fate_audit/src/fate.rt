//! What a node comes to.

ghost use Rattle.std.specs.Prelude.{◌≡◌, OnOk};
ghost use Rattle.sched_core.specs.Fate.{is_done_state, without_attempts};
ghost use Rattle.fate_audit.specs.Shown.{with_ended};

use node_machine::{Ended, State};
use std::alloc::{AllocError, Global};
use std::marker::Model;

/// What a node comes to: its state, its phases that ended, the oldest first, how many attempts these
/// are, and the value of the last of them.
#[derive(Debug, Drop)]
pub struct Fate {
    pub(crate) state: State,
    pub(crate) history: Vec<Ended>,
    pub(crate) attempts: u64,
    pub(crate) value: Option<i32>,
}

impl Model for Fate {
    ghost use Rattle.sched_core.specs.Fate.{Fate as FateValue};

    ghost Value = { FateValue };

    ghost view = { λ a. record { state = a.state; history = a.history.items; attempts = a.attempts; value = a.value } };
}

impl Fate {
    /// What the node came to.
    pub fn state(&self) -> State
        ensures { result ≡ self.now.state }
    {
        self.state
    }

    /// Its phases that ended, the oldest first.
    pub fn history(&self) -> &[Ended]
        ensures { result.now ≡ self.now.history }
    {
        &self.history
    }

    /// How many of its attempts ended.
    pub fn attempts(&self) -> u64
        ensures { result ≡ self.now.attempts }
    {
        self.attempts
    }

    /// The value of the last of them.
    pub fn value(&self) -> Option<i32>
        ensures { result ≡ self.now.value }
    {
        self.value
    }

    /// Whether the node is done.
    pub fn is_done(&self) -> bool
        ensures { result ≡ is_done_state self.now.state }
    {
        matches!(self.state, State::Done)
    }

    /// One more phase ended.
    pub(crate) fn push(&mut self, ended: Ended) -> Result<(), AllocError>
        ensures { OnOk result (self.new ≡ with_ended self.old ended) }
    {
        self.history.push(ended)?;
        Ok(())
    }

    /// That of a node of this state that has no attempts.
    pub(crate) fn without_attempts(alloc: Global, state: State) -> Fate
        ensures { result ≡ without_attempts state }
    {
        Fate {
            state,
            history: Vec::new(alloc),
            attempts: 0,
            value: None,
        }
    }
}
