//! Which nodes run again.

ghost use Rattle.std.specs.Prelude.{◌≡◌, suc, length, map, IfOk};
ghost use Rattle.std.specs.List.{range_with_len};
ghost use Rattle.run_plan.specs.Plan.{count_of};
ghost use Rattle.failure_report.specs.Reaching.{nodes_in};
ghost use Rattle.redo.specs.Redone.{ordinary_ones, next_again, AreAgain};

use failure_report::reached_from;
use run_plan::Plan;
use std::alloc::{AllocError, Global};

/// Those of some nodes that are ordinary.
fn ordinary_of(alloc: Global, plan: &Plan, named: &[u32]) -> Result<Vec<u32>, AllocError>
    ensures { IfOk result (λ nodes. nodes.items ≡ ordinary_ones plan.now named.now) }
{
    let count = plan.count();
    let mut nodes = Vec::new(alloc);
    for node in named {
        if *node < count {
            nodes.push(*node)?;
        }
    }
    Ok(nodes)
}

/// Which nodes come next to a node in the search for those that run again; it begins at the place of FINAL, next to which the
/// named ones come.
fn next_of(
    alloc: Global,
    plan: &Plan,
    only: bool,
    named: &[u32],
    node: u32,
) -> Result<Vec<u32>, AllocError>
    ensures { IfOk result (λ next. next.items ≡ next_again plan.now only named.now node) }
{
    if node >= plan.count() {
        return ordinary_of(alloc, plan, named);
    }
    if only {
        return Ok(Vec::new(alloc));
    }
    Vec::from_slice(alloc, plan.graph().children(node))
}

/// The same of each node, and of FINAL's place.
fn lists_of(
    alloc: Global,
    plan: &Plan,
    only: bool,
    named: &[u32],
) -> Result<Vec<Vec<u32>>, AllocError>
    ensures { IfOk result (λ lists. nodes_in lists.items
        ≡ map (next_again plan.now only named.now) (range_with_len 0 (suc (count_of plan.now)))) }
{
    let mut lists = Vec::new(alloc);
    for node in 0..plan.count() + 1 {
        lists.push(next_of(alloc, plan, only, named, node)?)?;
    }
    Ok(lists)
}

/// Which nodes run again where these are named: the ordinary ones of them and, unless these `only` do, all that come after
/// one.
///
/// # Errors
/// Lack of memory.
pub(crate) fn again_of(
    alloc: Global,
    plan: &Plan,
    only: bool,
    named: &[u32],
) -> Result<Vec<bool>, AllocError>
    ensures many { IfOk result (λ again. length again.items ≡ suc (count_of plan.now)) }
    ensures are { IfOk result (λ again. AreAgain plan.now only named.now again.items) }
{
    let _graph = plan.graph();
    let place = plan.count();
    let lists = lists_of(alloc, plan, only, named)?;
    let again = reached_from(alloc, &lists, place)?;
    Ok(again)
}
