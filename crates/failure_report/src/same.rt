//! What is reported of a group of nodes in error.

ghost use Rattle.std.specs.Prelude.{◌≡◌, ◌++◌, IfOk, OnOk, string_bytes};
ghost use Rattle.run_plan.specs.Plan.{node_at};
ghost use Rattle.failure_report.specs.Grouped.{failed_names, listed_names, same_front, more_words, same_line, IsGroupBlock};

use crate::failed::Failure;
use crate::groups::Group;
use crate::reported::{Run, failure_block};
use log_lines::push_word;
use run_plan::Plan;
use std::alloc::AllocError;
use std::fs::File;
use std::rt::Files;

/// How many of the others are named.
const MOST_NAMED: usize = 20;

/// The name of a node; a number after FINAL's is FINAL's.
fn name_of(plan: &Plan, node: u32) -> &str
    ensures { result.now ≡ (node_at plan.now node).name }
{
    plan.spec(node.min(plan.count())).name()
}

/// Adds the names of nodes in error, with a comma between two.
fn push_listed(text: &mut String, plan: &Plan, failures: &[Failure]) -> Result<(), AllocError>
    ensures { OnOk result (string_bytes text.new ≡ string_bytes text.old ++ listed_names (failed_names plan.now failures.now)) }
{
    let Some((first, others)) = failures.split_first() else {
        return Ok(());
    };
    push_word(text, name_of(plan, first.node))?;
    for other in others {
        text.push_str(", ")?;
        push_word(text, name_of(plan, other.node))?;
    }
    Ok(())
}

/// Adds how many others there are.
fn push_front(text: &mut String, all: usize) -> Result<(), AllocError>
    ensures { OnOk result (string_bytes text.new ≡ string_bytes text.old ++ same_front all) }
{
    write!(text, "    the same of {all} more: ")
}

/// Adds how many more there are than are named.
fn push_more(text: &mut String, more: usize) -> Result<(), AllocError>
    ensures { OnOk result (string_bytes text.new ≡ string_bytes text.old ++ more_words more) }
{
    match more {
        0 => Ok(()),
        _ => write!(text, ", and {more} more"),
    }
}

/// Adds the line that names the others of a group, where there are some.
fn push_same(text: &mut String, plan: &Plan, same: &[Failure]) -> Result<(), AllocError>
    ensures { OnOk result (string_bytes text.new ≡ string_bytes text.old ++ same_line (failed_names plan.now same.now)) }
{
    let all = same.len();
    if all == 0 {
        return Ok(());
    }
    push_front(text, all)?;
    push_listed(text, plan, &same[..all.min(MOST_NAMED)])?;
    push_more(text, all.saturating_sub(MOST_NAMED))?;
    text.push_str("\n")?;
    Ok(())
}

/// What is reported of a group: what is of its first, and the line that names the others.
///
/// # Errors
/// Lack of memory.
pub(crate) fn group_block<R: Files<File = File> + AllocGlobal>(
    rt: &R,
    run: &Run<'_, '_, '_>,
    group: &Group,
) -> Result<String, AllocError>
    ensures { IfOk result (λ block. IsGroupBlock run.now.core.now.plan group.now (string_bytes block)) }
{
    let mut text = failure_block(rt, run, &group.first)?;
    push_same(&mut text, run.core.plan(), &group.same)?;
    Ok(text)
}
