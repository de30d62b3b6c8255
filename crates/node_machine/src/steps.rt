//! The step of a node at each phase that ends.

ghost use Rattle.std.specs.Prelude.{◌≡◌, ◌≤◌, Some, None, false};
ghost use Rattle.node_machine.specs.Story.{is_set_to, skips, is_exit_0, ends_with};
ghost use Rattle.node_machine.specs.NodeRun.{counted_at};
ghost use Rattle.node_machine.specs.MachineState.{machine_step, machine_step_at, attempt_closed, pre_failed, machine_before, first_phase_of, next_of, state_by, attempts_ended};

use crate::{Course, MachineState, Outcome, Phase, State, value_of};

fn is_set(setting: Option<i32>, value: i32) -> bool
    ensures { result ≡ is_set_to setting value }
{
    match setting {
        Some(wanted) => wanted == value,
        None => false,
    }
}

fn is_skip(course: &Course, outcome: &Outcome) -> bool
    ensures { result ≡ skips course.now outcome.now }
{
    match outcome {
        Outcome::Exit(code) => is_set(course.pre_skip, i32::from(*code)),
        _ => false,
    }
}

fn is_exit_0(outcome: &Outcome) -> bool
    ensures { result ≡ is_exit_0 outcome.now }
{
    match outcome {
        Outcome::Exit(code) => *code == 0,
        _ => false,
    }
}

/// Where a node is before its first attempt.
pub(crate) fn first_stand(course: &Course) -> MachineState
    ensures { result ≡ machine_before course.now 0 None false }
{
    MachineState {
        attempt: 0,
        phase: Some(first_phase(course)),
        value: None,
        good: false,
    }
}

fn first_phase(course: &Course) -> Phase
    ensures { result ≡ first_phase_of course.now }
{
    if course.pre { Phase::Pre } else { Phase::Job }
}

/// An attempt ends with this value: it is the last, or one more follows.
fn close(course: &Course, attempt: u32, value: i32, good: bool) -> MachineState
    requires { attempt ≤ course.now.retries }
    ensures { result ≡ attempt_closed course.now attempt value good }
{
    if good
        || is_set(course.unless_exit, value)
        || is_set(course.abort_on, value)
        || attempt == course.retries
    {
        MachineState {
            attempt,
            phase: None,
            value: Some(value),
            good,
        }
    } else {
        MachineState {
            attempt: attempt + 1,
            phase: Some(first_phase(course)),
            value: Some(value),
            good,
        }
    }
}

/// PRE fails: POST runs all the same where it always does, else the attempt ends.
fn after_failed_pre(course: &Course, machine: MachineState, outcome: Outcome) -> MachineState
    requires { machine.attempt ≤ course.now.retries }
    ensures { result ≡ pre_failed course.now machine outcome }
{
    if course.always_post && course.post {
        MachineState {
            phase: Some(Phase::Post),
            ..machine
        }
    } else {
        close(course, machine.attempt, value_of(outcome), false)
    }
}

fn after_pre(course: &Course, machine: MachineState, outcome: Outcome) -> MachineState
    requires { machine.attempt ≤ course.now.retries }
    ensures { result ≡ machine_step_at course.now machine (Some Phase.Pre) outcome }
{
    if is_skip(course, &outcome) {
        close(course, machine.attempt, 0, true)
    } else if is_exit_0(&outcome) {
        MachineState {
            phase: Some(Phase::Job),
            ..machine
        }
    } else {
        after_failed_pre(course, machine, outcome)
    }
}

/// The attempt ends with what this outcome is worth.
fn decide(course: &Course, machine: MachineState, outcome: Outcome) -> MachineState
    requires { machine.attempt ≤ course.now.retries }
    ensures { result ≡ machine_step_at course.now machine (Some Phase.Post) outcome }
{
    let value = value_of(outcome);
    close(course, machine.attempt, value, value == 0)
}

fn after_job(course: &Course, machine: MachineState, outcome: Outcome) -> MachineState
    requires { machine.attempt ≤ course.now.retries }
    ensures { result ≡ machine_step_at course.now machine (Some Phase.Job) outcome }
{
    if course.post {
        MachineState {
            phase: Some(Phase::Post),
            ..machine
        }
    } else {
        decide(course, machine, outcome)
    }
}

/// What this phase ends with, where this outcome is given: the job of a NOOP ends with Exit 0.
fn counted(course: &Course, phase: Phase, outcome: Outcome) -> Outcome
    ensures { result ≡ ends_with course.now phase outcome }
{
    match phase {
        Phase::Job => {
            if course.noop {
                Outcome::Exit(0)
            } else {
                outcome
            }
        }
        _ => outcome,
    }
}

/// The phase that comes next ends.
pub(crate) fn after_ending(course: &Course, machine: MachineState, outcome: Outcome) -> MachineState
    requires { machine.attempt ≤ course.now.retries }
    ensures { result ≡ machine_step course.now machine (counted_at course.now machine.phase outcome) }
{
    match machine.phase {
        None => machine,
        Some(Phase::Pre) => after_pre(course, machine, outcome),
        Some(Phase::Job) => after_job(course, machine, counted(course, Phase::Job, outcome)),
        Some(Phase::Post) => decide(course, machine, outcome),
    }
}

/// The attempt and the phase that come next, if any.
pub(crate) fn next_at(machine: MachineState) -> Option<(u32, Phase)>
    ensures { result ≡ next_of machine machine.phase }
{
    match machine.phase {
        Some(phase) => Some((machine.attempt, phase)),
        None => None,
    }
}

/// What a node in this state has come to.
pub(crate) fn state_at(machine: MachineState) -> State
    ensures { result ≡ state_by machine }
{
    match machine.phase {
        None => {
            if machine.good {
                State::Done
            } else {
                State::Error
            }
        }
        Some(_) => State::NotRun,
    }
}

/// How many attempts ended.
pub(crate) fn ended_at(machine: MachineState) -> u64
    ensures { result ≡ attempts_ended machine }
{
    match machine.phase {
        None => u64::from(machine.attempt) + 1,
        Some(_) => u64::from(machine.attempt),
    }
}
