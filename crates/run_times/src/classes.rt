//! How phases ended, as a picture tells it by colours.

ghost use Rattle.std.specs.Prelude.{◌≡◌};
ghost use Rattle.std.specs.List.{list_any};
ghost use Rattle.run_times.specs.Classes.{is_post, accepts, is_accepted, class_of_failed, class_of_run, class_name};

use crate::runs::{Ending, PhaseRun};
use node_machine::Phase;

/// How a phase ended, as far as a picture tells it.
#[derive(Clone, Copy, Debug, PartialEq, Eq)]
pub(crate) enum Class {
    /// With 0.
    Good,
    /// With another value, or it could not be started.
    Bad,
    /// By a signal.
    Signalled,
    /// As one of these two, and a POST script of its node and attempt ended with 0 after it.
    Accepted,
    /// It was killed or lost, or it was not reported how it ended.
    Gone,
    /// It has not ended.
    Running,
}

/// Whether a phase is a POST script.
fn is_post(phase: Phase) -> bool
    ensures { result ≡ is_post phase }
{
    match phase {
        Phase::Pre | Phase::Job => false,
        Phase::Post => true,
    }
}

/// Whether a phase is a POST script that accepts the value of another phase: one of the same node and attempt that
/// ended with 0.
fn accepts(post: &PhaseRun<'_>, run: &PhaseRun<'_>) -> bool
    ensures { result ≡ accepts post.now run.now }
{
    is_post(post.phase)
        && post.ending == Ending::Exit(0)
        && post.attempt == run.attempt
        && post.node == run.node
}

/// Whether one of these phases accepts the value of a phase.
fn is_accepted_in(run: &PhaseRun<'_>, later: &[PhaseRun<'_>]) -> bool
    ensures { result ≡ list_any (λ post. accepts post run.now) later.now }
{
    later.iter().any(|post| accepts(post, run))
}

/// Whether one of the phases that began after a phase, which is no POST script, accepts its value.
fn is_accepted(run: &PhaseRun<'_>, later: &[PhaseRun<'_>]) -> bool
    ensures { result ≡ is_accepted run.now later.now }
{
    !is_post(run.phase) && is_accepted_in(run, later)
}

/// The class of a phase that failed: this one, unless one of those that began after it accepts its value.
fn class_of_failed(class: Class, run: &PhaseRun<'_>, later: &[PhaseRun<'_>]) -> Class
    ensures { result ≡ class_of_failed class run.now later.now }
{
    if is_accepted(run, later) {
        Class::Accepted
    } else {
        class
    }
}

/// The class of a phase, by those that began after it.
pub(crate) fn class_of(run: &PhaseRun<'_>, later: &[PhaseRun<'_>]) -> Class
    ensures { result ≡ class_of_run run.now later.now }
{
    match run.ending {
        Ending::Exit(0) => Class::Good,
        Ending::Exit(_) | Ending::NotStarted => class_of_failed(Class::Bad, run, later),
        Ending::Signal(_) => class_of_failed(Class::Signalled, run, later),
        Ending::Untold | Ending::Killed | Ending::Lost => Class::Gone,
        Ending::Runs => Class::Running,
    }
}

/// The name of a class in the picture's style.
pub(crate) fn class_name(class: Class) -> &'static str
    ensures { result.now ≡ class_name class }
{
    match class {
        Class::Good => "good",
        Class::Bad => "bad",
        Class::Signalled => "signal",
        Class::Accepted => "accepted",
        Class::Gone => "gone",
        Class::Running => "runs",
    }
}
