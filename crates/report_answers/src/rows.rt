//! The rows of a page.

ghost use Rattle.std.specs.Prelude.{◌≡◌, ◌≤◌, ◌+◌, IfOk, slice_index};
ghost use Rattle.run_plan.specs.Plan.{count_of};
ghost use Rattle.status_report.specs.Text.{reported};
ghost use Rattle.report_answers.specs.Rows.{page_state_of, IsRowOf, AreRows, round_state_of};

use crate::jobs::Seen;
use graph_text::{class_at, folding_of};
use indexmap::IndexMap;
use report_page::{NodeState, RoundState, Row};
use run_plan::Plan;
use sched_core::Core;
use status_report::{Status, status_at};
use std::alloc::{AllocError, Global};

/// Where a node is, in the words of a page.
fn state_of(status: Status) -> NodeState
    ensures { result ≡ page_state_of status }
{
    match status {
        Status::Done => NodeState::Done,
        Status::Error => NodeState::Error,
        Status::PreRun => NodeState::PreRun,
        Status::Submitted => NodeState::Submitted,
        Status::PostRun => NodeState::PostRun,
        Status::Ready => NodeState::Ready,
        Status::NotReady => NodeState::NotReady,
    }
}

/// The row of a node, of which a log may say something, where nodes are folded by these classes.
fn row_of<'a>(core: &Core<'a>, classes: &[u32], node: u32, seen: Option<&Seen<'a>>) -> Row<'a>
    requires { node ≤ count_of core.now.plan }
    ensures { IsRowOf core.now.plan core.now.past (slice_index classes.now) node result }
{
    let plan = core.plan();
    let spec = plan.spec(node);
    Row {
        name: spec.name(),
        state: state_of(status_at(core, node)),
        attempts: core.attempts_ended(node),
        value: core.last_value(node),
        began: seen.map(|seen| seen.began),
        took: seen.map(|seen| seen.took()),
        command: seen.and_then(|seen| seen.command),
        folder: seen.and_then(|seen| seen.folder),
        output: seen.and_then(|seen| seen.output),
        error: seen.and_then(|seen| seen.error),
        parents: spec.parents(),
        is_final: node == plan.count(),
        alike: class_at(classes, node),
    }
}

/// How many nodes have a row: the ordinary ones, and the FINAL node after them.
fn reported(plan: &Plan) -> u32
    ensures is { result ≡ reported plan.now }
    ensures few { result ≤ count_of plan.now + 1 }
{
    if plan.has_final() {
        plan.count() + 1
    } else {
        plan.count()
    }
}

/// The rows of all nodes in plan order, the FINAL node last.
pub(crate) fn rows_of<'a>(
    alloc: Global,
    core: &Core<'a>,
    seen: &IndexMap<&'a str, Seen<'a>>,
) -> Result<Vec<Row<'a>>, AllocError>
    ensures { IfOk result (λ rows. AreRows core.now.plan core.now.past rows.items) }
{
    let classes = folding_of(alloc, core.plan())?;
    let mut rows = Vec::new(alloc);
    for node in 0..reported(core.plan()) {
        let name = core.plan().spec(node).name();
        rows.push(row_of(core, &classes, node, seen.get(name)))?;
    }
    Ok(rows)
}

/// How a round is, of which it is known whether it has a journal and whether a manager runs it.
pub(crate) fn round_of(core: &Core<'_>, begun: bool, at_work: bool) -> RoundState
    ensures { result ≡ round_state_of core.now.plan core.now.past begun at_work }
{
    if core.is_over() {
        RoundState::Ended(core.verdict())
    } else if at_work {
        RoundState::Runs
    } else if begun {
        RoundState::CutShort
    } else {
        RoundState::NotBegun
    }
}
