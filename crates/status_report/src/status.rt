//! Where a node is in a run.

ghost use Rattle.std.specs.Prelude.{◌≡◌, ◌≤◌};
ghost use Rattle.run_plan.specs.Plan.{count_of};
ghost use Rattle.sched_core.specs.Run.{outstanding};
ghost use Rattle.status_report.specs.Status.{phase_of, running_status, is_due, status_at, status_of_state};

use node_machine::{Phase, State};
use sched_core::Core;

/// Where a node is in a run.
#[derive(Clone, Copy, Debug, PartialEq, Eq)]
pub enum Status {
    /// It is done, from the start or after a good last attempt.
    Done,
    /// Its last attempt was not good, and no further one is allowed.
    Error,
    /// Its PRE script runs.
    PreRun,
    /// Its job runs.
    Submitted,
    /// Its POST script runs.
    PostRun,
    /// Nothing of it runs, and each of its parents is done; or it is the FINAL node's turn.
    Ready,
    /// It waits for a parent; or the FINAL node waits for its turn.
    NotReady,
}

/// The status of a node a phase of which runs.
fn running_in(phase: Phase) -> Status
    ensures { result ≡ running_status phase }
{
    match phase {
        Phase::Pre => Status::PreRun,
        Phase::Job => Status::Submitted,
        Phase::Post => Status::PostRun,
    }
}

/// The phase of a node that is outstanding, if one is.
fn running_phase(core: &Core<'_>, node: u32) -> Option<Phase>
    requires { node ≤ count_of core.now.plan }
    ensures { result ≡ phase_of node (outstanding core.now.plan core.now.past) }
{
    core.keeps_the_law();
    if !core.is_running(node) {
        return None;
    }
    match core.next(node) {
        Some(key) => Some(key.phase),
        None => None,
    }
}

/// Whether each parent of an ordinary node is done; of the FINAL node, whether it is its turn.
fn is_due(core: &Core<'_>, node: u32) -> bool
    requires { node ≤ count_of core.now.plan }
    ensures { result ≡ is_due core.now.plan core.now.past node }
{
    if node < core.plan().count() {
        core.parents_done(node)
    } else {
        core.is_final_ready()
    }
}

/// Where a node is. It takes no memory.
pub fn status_at(core: &Core<'_>, node: u32) -> Status
    requires { node ≤ count_of core.now.plan }
    ensures { result ≡ status_at core.now.plan core.now.past node }
{
    match core.node_state(node) {
        State::Done => Status::Done,
        State::Error => Status::Error,
        State::NotRun => match running_phase(core, node) {
            Some(phase) => running_in(phase),
            None => {
                if is_due(core, node) {
                    Status::Ready
                } else {
                    Status::NotReady
                }
            }
        },
    }
}

/// The status of a node that came to this state in a run that is over, or of a fate.
pub fn status_of_state(state: State) -> Status
    ensures { result ≡ status_of_state state }
{
    match state {
        State::Done => Status::Done,
        State::Error => Status::Error,
        State::NotRun => Status::NotReady,
    }
}
