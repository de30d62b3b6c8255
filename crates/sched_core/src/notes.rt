//! What a core notes of each node's newest attempt.

ghost use Rattle.std.specs.Prelude.{◌≡◌, ◌<◌, [], length, slice_set, is_none, if◌then◌else◌, IfOk};
ghost use Rattle.sched_core.specs.Notes.{AreNotes, no_notes, notes_at, with_launch, with_phase_outcome};

use crate::nodes::is_job;
use node_machine::{Key, Outcome, Phase};
use run_plan::Plan;
use std::alloc::{AllocError, Global};

/// What the records say of a node's newest attempt.
#[derive(Clone, Copy)]
pub struct AttemptNotes {
    /// The attempt of the node's newest launch, from 0.
    pub attempt: u32,
    /// The number of that launch.
    pub launch: u64,
    /// The number of the newest launch of the attempt's job; 0 where there is none.
    pub job_launch: u64,
    /// How the attempt's PRE and its job ended, where they did.
    pub pre: Option<Outcome>,
    pub job: Option<Outcome>,
}

/// An attempt of which nothing is launched.
fn no_notes(attempt: u32) -> AttemptNotes
    ensures { result ≡ no_notes attempt }
{
    AttemptNotes {
        attempt,
        launch: 0,
        job_launch: 0,
        pre: None,
        job: None,
    }
}

/// What was found before, or else what is found now.
fn earlier(before: Option<Outcome>, now: Option<Outcome>) -> Option<Outcome>
    ensures { result ≡ (if is_none before then now else before) }
{
    match before {
        Some(outcome) => Some(outcome),
        None => now,
    }
}

/// What the launch of a phase makes of the notes.
pub fn with_launch(notes: AttemptNotes, key: Key, number: u64) -> AttemptNotes
    ensures { result ≡ with_launch notes key number }
{
    let now = if key.attempt == notes.attempt {
        notes
    } else {
        no_notes(key.attempt)
    };
    let job_launch = if is_job(key.phase) {
        number
    } else {
        now.job_launch
    };
    AttemptNotes {
        launch: number,
        job_launch,
        ..now
    }
}

/// What the end of a phase makes of the notes.
pub fn with_end(notes: AttemptNotes, phase: Phase, outcome: Outcome) -> AttemptNotes
    ensures { result ≡ with_phase_outcome notes phase outcome }
{
    match phase {
        Phase::Pre => AttemptNotes {
            pre: earlier(notes.pre, Some(outcome)),
            ..notes
        },
        Phase::Job => AttemptNotes {
            job: earlier(notes.job, Some(outcome)),
            ..notes
        },
        Phase::Post => notes,
    }
}

pub fn notes_of(notes: &[AttemptNotes], node: u32) -> AttemptNotes
    requires { node < length notes.now }
    ensures { result ≡ notes_at notes.now node }
{
    notes[node as usize]
}

pub fn set_notes(notes: &mut [AttemptNotes], node: u32, now: AttemptNotes)
    requires { node < length notes.old }
    ensures { notes.new ≡ slice_set notes.old node now }
{
    notes[node as usize] = now;
}

/// Notes before any record.
pub fn fresh_notes(alloc: Global, plan: &Plan) -> Result<Vec<AttemptNotes>, AllocError>
    ensures { IfOk result (λ notes. AreNotes plan.now [] notes.items) }
{
    vec![in alloc; no_notes(0); plan.count() as usize + 1]
}
