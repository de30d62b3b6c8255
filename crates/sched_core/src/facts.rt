//! What a phase's command is made of at its launch.

ghost use Rattle.std.specs.Prelude.{◌≡◌, ◌==◌, unwrap_or, if◌then◌else◌};
ghost use Rattle.node_machine.specs.declared.Outcome.TheVariants.{Exit};
ghost use Rattle.sched_core.specs.AttemptValues.{is_without_job, job_value_of, pre_value_of};
ghost use Rattle.sched_core.specs.Notes.{noted_facts};

use crate::notes::AttemptNotes;
use node_machine::{Outcome, value_of};
use run_plan_node::{NodeSpec, PhaseFacts};

/// The outcome of a phase; Exit 0 where it did not end.
fn outcome_of(ended: Option<Outcome>) -> Outcome
    ensures { result ≡ unwrap_or ended (Exit 0) }
{
    match ended {
        Some(outcome) => outcome,
        None => Outcome::Exit(0),
    }
}

/// The value of PRE, which has this outcome; -1 where the node has no PRE.
fn pre_value(spec: &NodeSpec, outcome: Outcome) -> i32
    ensures { result ≡ pre_value_of spec.now.course outcome }
{
    if spec.course().pre {
        value_of(outcome)
    } else {
        -1
    }
}

/// Whether no job runs in an attempt whose PRE has this outcome.
fn is_without_job(spec: &NodeSpec, pre: Outcome) -> bool
    ensures { result ≡ is_without_job spec.now.course pre }
{
    spec.course().pre && !matches!(pre, Outcome::Exit(0))
}

/// The value of the job, where PRE and it have these outcomes; -1004 where no job runs after a PRE
/// script that failed.
fn job_value(spec: &NodeSpec, pre: Outcome, job: Outcome) -> i32
    ensures { result ≡ job_value_of spec.now.course pre job }
{
    if is_without_job(spec, pre) {
        -1004
    } else {
        value_of(job)
    }
}

/// The state of the DAG: 3 where it was aborted, else 2 where nodes are in error, else 0.
fn dag_status(aborted: bool, failed: u32) -> u8
    ensures { result ≡ (if aborted then 3 else if failed == 0 then 0 else 2) }
{
    if aborted {
        3
    } else if failed == 0 {
        0
    } else {
        2
    }
}

/// The facts of a launch, by what is noted of its attempt.
pub fn noted_facts(spec: &NodeSpec, notes: AttemptNotes, aborted: bool, failed: u32) -> PhaseFacts
    ensures { result ≡ noted_facts spec.now.course notes aborted failed }
{
    PhaseFacts {
        launch: notes.launch,
        job_launch: notes.job_launch,
        job_value: job_value(spec, outcome_of(notes.pre), outcome_of(notes.job)),
        pre_value: pre_value(spec, outcome_of(notes.pre)),
        dag_status: dag_status(aborted, failed),
        failed,
    }
}
