//! How many nodes wait for one.

ghost use Rattle.std.specs.Prelude.{◌≡◌, ◌≤◌, IfOk};
ghost use Rattle.run_plan.specs.Plan.{count_of};
ghost use Rattle.failure_report.specs.Reaching.{nodes_in};
ghost use Rattle.failure_report.specs.Waiting.{held_by, AreChildrenLeft, IsWaitingCount};

use crate::reaching::count_from;
use sched_core::Core;
use std::alloc::{AllocError, Global};

/// The children of a node that are not done.
fn held_by(alloc: Global, core: &Core<'_>, node: u32) -> Result<Vec<u32>, AllocError>
    requires { node ≤ count_of core.now.plan }
    ensures { IfOk result (λ held. held.items ≡ held_by core.now.plan core.now.past node) }
{
    let mut held = Vec::new(alloc);
    for child in core.plan().graph().children(node) {
        if !core.is_done(*child) {
            held.push(*child)?;
        }
    }
    Ok(held)
}

/// Of each node, FINAL's place after the others, the children that are not done.
pub(crate) fn held_lists(alloc: Global, core: &Core<'_>) -> Result<Vec<Vec<u32>>, AllocError>
    ensures { IfOk result (λ lists. AreChildrenLeft core.now.plan core.now.past (nodes_in lists.items)) }
{
    let mut lists = Vec::new(alloc);
    for node in 0..core.plan().count() + 1 {
        lists.push(held_by(alloc, core, node)?)?;
    }
    Ok(lists)
}

/// How many nodes wait for one, where these are the children of each that are not done.
///
/// # Errors
/// Lack of memory.
pub(crate) fn waiting_for(
    alloc: Global,
    core: &Core<'_>,
    held: &[Vec<u32>],
    node: u32,
) -> Result<u32, AllocError>
    requires node { node ≤ count_of core.now.plan }
    requires held { AreChildrenLeft core.now.plan core.now.past (nodes_in held.now) }
    ensures { IfOk result (IsWaitingCount core.now.plan core.now.past node) }
{
    let _graph = core.plan().graph();
    let _nodes = core.plan().count();
    let count = count_from(alloc, held, node)?;
    Ok(count)
}
