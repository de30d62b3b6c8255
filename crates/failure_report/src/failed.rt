//! The nodes in error: how each of them failed, and how many nodes wait for it.

ghost use Rattle.std.specs.Prelude.{◌≡◌, ◌≤◌, ◌<◌, ◌+◌, ℕ, None, length, slice_index_or, suc, IfOk};
ghost use Rattle.run_plan.specs.Plan.{count_of};
ghost use Rattle.sched_core.specs.Run.{is_in_error};
ghost use Rattle.failure_report.specs.Failures.{noted_end, rank_of, AreFailures, AreInPlanOrder, AreLastEnds};

use crate::waiting::{held_lists, waiting_for};
use node_machine::{Ended, Record};
use sched_core::Core;
use std::alloc::{AllocError, Global};

/// A node in error.
#[derive(Clone, Copy, Debug, PartialEq, Eq)]
pub struct Failure {
    /// Its number in the plan.
    pub node: u32,
    /// How its last phase ended, by which its last attempt failed.
    pub end: Option<Ended>,
    /// How many nodes wait for it.
    pub waiting: u32,
}

/// Notes the end of a phase as the newest of its node.
fn note_end(ends: &mut Vec<Option<Ended>>, entry: &Record)
    ensures len { length ends.new.items ≡ length ends.old.items }
    ensures each { (node : ℕ) → node < length ends.old.items →
        slice_index_or ends.new.items node None ≡ noted_end (slice_index_or ends.old.items node None) entry.now node }
{
    if let Record::End(key, outcome) = entry {
        let place = key.node as usize;
        if place < ends.len() {
            ends[place] = Some(Ended {
                attempt: key.attempt,
                phase: key.phase,
                outcome: *outcome,
            });
        }
    }
}

/// Of each node, FINAL's place after the others, the newest phase that ended.
///
/// # Errors
/// Lack of memory.
pub(crate) fn last_ends(alloc: Global, core: &Core<'_>) -> Result<Vec<Option<Ended>>, AllocError>
    ensures { IfOk result (λ ends. AreLastEnds core.now.plan core.now.past ends.items) }
{
    let count = core.plan().count() as usize + 1;
    let mut ends = vec![in alloc; None; count]?;
    for entry in core.records() {
        note_end(&mut ends, entry);
    }
    Ok(ends)
}

/// Whether a node is in error: it is not done, and no phase of it is to come.
pub(crate) fn is_in_error(core: &Core<'_>, node: u32) -> bool
    requires { node ≤ count_of core.now.plan }
    ensures { result ≡ is_in_error core.now.plan core.now.past node }
{
    !core.is_done(node) && core.next(node).is_none()
}

/// The nodes in error in plan order, FINAL last.
fn in_plan_order(alloc: Global, core: &Core<'_>) -> Result<Vec<Failure>, AllocError>
    ensures { IfOk result (λ found. AreInPlanOrder core.now.plan core.now.past (suc (count_of core.now.plan)) found.items) }
{
    let ends = last_ends(alloc, core)?;
    let held = held_lists(alloc, core)?;
    let mut found = Vec::new(alloc);
    for node in 0..core.plan().count() + 1 {
        if is_in_error(core, node) {
            let waiting = waiting_for(alloc, core, &held, node)?;
            found.push(Failure {
                node,
                end: ends[node as usize],
                waiting,
            })?;
        }
    }
    Ok(found)
}

/// Where a node in error is among the others: those for which more nodes wait come first, and of
/// those for which as many wait that which comes first in the plan.
fn rank_of(failure: &Failure) -> u64
    ensures { result ≡ rank_of failure.now }
{
    u64::from(u32::MAX - failure.waiting) * (1 << 32) + u64::from(failure.node)
}

/// The nodes in error, FINAL among them, those first for which most nodes wait, and of as many in plan
/// order.
///
/// It goes over the nodes that wait, and their children, for each node in error.
///
/// # Errors
/// Lack of memory, and nothing else.
pub fn failures(alloc: Global, core: &Core<'_>) -> Result<Vec<Failure>, AllocError>
    ensures { IfOk result (λ found. AreFailures core.now.plan core.now.past found.items) }
{
    let mut found = in_plan_order(alloc, core)?;
    found.sort_by_key(|failure| rank_of(failure))?;
    Ok(found)
}
