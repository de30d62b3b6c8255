//! One node's run.

ghost use Rattle.std.specs.Prelude.{◌≡◌, ◌↔◌, true, false, None, Some, List, [], OnOk, IfErr, IsOk, is_none};
ghost use Rattle.node_machine.specs.declared.Ended.{Ended};
ghost use Rattle.node_machine.specs.Story.{next_after, value_after, state_after, attempts_ended_after};
ghost use Rattle.node_machine.specs.MachineState.{next_of, attempts_ended, state_by, machine_before};
ghost use Rattle.node_machine.specs.NodeRun.{IsStateAfter, with_phase_ended, started, stopped, ended_with};

use crate::steps::{after_ending, ended_at, first_stand, next_at, state_at};
use crate::{Course, MachineState, Outcome, Phase, State};
use std::marker::Model;
use thiserror::Error;

/// Why a call of a node's run is refused.
#[derive(Clone, Copy, Debug, PartialEq, Eq, Error)]
pub enum NodeFault {
    /// A phase is launched that is not the next one, or while one runs.
    #[error("N1 NotWanted")]
    NotWanted,
    /// A phase ends, or its launch is forgotten, while none runs.
    #[error("N2 NotRunning")]
    NotRunning,
}

/// One node's run: its course, where it is, and whether its next phase runs.
///
/// It keeps no list of the phases that ended. A contract says what it answers for every list of
/// ended phases that leads to its state (`IsStateAfter`).
#[derive(Clone, Copy, Debug)]
pub struct NodeRun {
    course: Course,
    machine: MachineState,
    running: bool,
}

impl Model for NodeRun {
    ghost use Rattle.node_machine.specs.NodeProgress.{NodeProgress, IsPossible};

    ghost Value = { NodeProgress };

    ghost view = { λ r. record { course = r.course; machine = r.machine; running = r.running } };

    ghost invariant = { λ r. IsPossible (record { course = r.course; machine = r.machine; running = r.running }) };

    ghost inverse = { λ r. record { course = r.course; machine = r.machine; running = r.running } };
}

impl NodeRun {
    /// A node of this course before its first attempt.
    pub fn new(course: Course) -> Self
        ensures is { result ≡ record { course = course; machine = machine_before course 0 None false; running = false } }
        ensures fresh { IsStateAfter result [] }
    {
        NodeRun {
            course,
            machine: first_stand(&course),
            running: false,
        }
    }

    /// The attempt and the phase that come next, if any. A phase that runs is still the next.
    pub fn wants(&self) -> Option<(u32, Phase)>
        ensures next { (es : List Ended) → IsStateAfter self.now es → result ≡ next_after self.now.course es }
        ensures is { result ≡ next_of self.now.machine self.now.machine.phase }
    {
        next_at(self.machine)
    }

    /// Whether the next phase runs.
    pub fn is_running(&self) -> bool
        ensures { result ≡ self.now.running }
    {
        self.running
    }

    /// This phase is launched.
    ///
    /// `NotWanted` for another phase than the next one, and while one runs; nothing changes then.
    pub fn launched(&mut self, attempt: u32, phase: Phase) -> Result<(), NodeFault>
        ensures wanted { IsOk result ↔ ((self.old.running ≡ false)
            × (next_of self.old.machine self.old.machine.phase ≡ Some (attempt, phase))) }
        ensures starts { OnOk result (self.new ≡ started self.old) }
        ensures refused { IfErr result (λ fault. (fault ≡ NodeFault.NotWanted) × (self.new ≡ self.old)) }
    {
        if self.running || self.wants() != Some((attempt, phase)) {
            return Err(NodeFault::NotWanted);
        }
        self.running = true;
        Ok(())
    }

    /// The phase that runs ends so. The job of a NOOP ends with Exit 0, whatever is handed in.
    ///
    /// `NotRunning` where none runs; nothing changes then.
    pub fn ended(&mut self, outcome: Outcome) -> Result<(), NodeFault>
        ensures running { IsOk result ↔ (self.old.running ≡ true) }
        ensures adds { (es : List Ended) → IsStateAfter self.old es →
            OnOk result (IsStateAfter self.new (with_phase_ended self.old.course es outcome)) }
        ensures steps { OnOk result (self.new ≡ ended_with self.old outcome) }
        ensures refused { IfErr result (λ fault. (fault ≡ NodeFault.NotRunning) × (self.new ≡ self.old)) }
    {
        if !self.running {
            return Err(NodeFault::NotRunning);
        }
        self.machine = after_ending(&self.course, self.machine, outcome);
        self.running = false;
        Ok(())
    }

    /// The phase that runs is taken as not launched: its ending will never be reported.
    ///
    /// `NotRunning` where none runs; nothing changes then.
    pub fn forget_launch(&mut self) -> Result<(), NodeFault>
        ensures running { IsOk result ↔ (self.old.running ≡ true) }
        ensures stops { self.new ≡ stopped self.old }
        ensures refused { IfErr result (λ fault. (fault ≡ NodeFault.NotRunning) × (self.new ≡ self.old)) }
    {
        if self.running {
            self.running = false;
            Ok(())
        } else {
            Err(NodeFault::NotRunning)
        }
    }

    /// What the node has come to.
    pub fn state(&self) -> State
        ensures story { (es : List Ended) → IsStateAfter self.now es → result ≡ state_after self.now.course es }
        ensures is { result ≡ state_by self.now.machine }
    {
        state_at(self.machine)
    }

    /// The value of the last attempt that ended, if one did.
    pub fn last_value(&self) -> Option<i32>
        ensures story { (es : List Ended) → IsStateAfter self.now es → result ≡ value_after self.now.course es }
        ensures is { result ≡ self.now.machine.value }
    {
        self.machine.value
    }

    /// How many attempts ended.
    pub fn attempts_ended(&self) -> u64
        ensures story { (es : List Ended) → IsStateAfter self.now es → result ≡ attempts_ended_after self.now.course es }
        ensures is { result ≡ attempts_ended self.now.machine }
    {
        ended_at(self.machine)
    }
}
