//! What was known at the newest launch of each node, of which its command is made.

use node_machine::Record;
use run_plan_node::PhaseFacts;
use sched_core::Core;
use std::alloc::{AllocError, Global};

/// Takes a record into a core, and notes the facts of the launch, where it is one.
fn step(
    again: &mut Core<'_>,
    entry: Record,
    facts: &mut [Option<PhaseFacts>],
) -> Result<(), AllocError> {
    if again.reserve(1).is_err() {
        return Err(AllocError);
    }
    let _ = again.apply(entry);
    if let Record::Launch(key, _) = entry {
        let place = key.node as usize;
        if place < facts.len() && again.is_outstanding(&key) {
            facts[place] = Some(again.facts(&key));
        }
    }
    Ok(())
}

/// Of each node, FINAL's place after the others, the facts of its newest launch, if it has one. The
/// records are gone through once more.
///
/// # Errors
/// Lack of memory.
pub(crate) fn launch_facts(
    alloc: Global,
    core: &Core<'_>,
) -> Result<Vec<Option<PhaseFacts>>, AllocError> {
    let count = core.plan().count() as usize + 1;
    let mut facts = vec![in alloc; None; count]?;
    let Ok(mut again) = Core::new(alloc, core.plan(), core.limits()) else {
        return Err(AllocError);
    };
    for entry in core.records() {
        step(&mut again, *entry, &mut facts)?;
    }
    Ok(facts)
}
