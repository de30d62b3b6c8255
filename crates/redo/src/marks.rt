//! What the rescue file marks.

ghost use Rattle.std.specs.Prelude.{◌≡◌, ◌<◌, suc, length, IfOk, IfErr, string_bytes};
ghost use Rattle.std.specs.List.{count_by};
ghost use Rattle.run_plan.specs.Plan.{count_of};
ghost use Rattle.dag_main_check.specs.declared.fault.RunFault.TheVariants.{Memory};
ghost use Rattle.redo.specs.Redone.{stays_done, marks_kept, IsRedone};

use crate::again::again_of;
use dag_main_check::RunFault;
use rescue_file::rescue_text;
use sched_core::Core;
use std::alloc::{AllocError, Global};

/// The text of a rescue file, and how many nodes it marks.
#[derive(Drop)]
pub(crate) struct Redone {
    pub text: String,
    pub done: usize,
}

/// Whether a node is done and doesn't run again.
fn stays_done(core: &Core<'_>, again: &[bool], node: u32) -> bool
    requires many { length again.now ≡ suc (count_of core.now.plan) }
    requires node { node < count_of core.now.plan }
    ensures { result ≡ stays_done core.now.plan core.now.past again.now node }
{
    let runs = again[node as usize];
    core.is_done(node) && !runs
}

/// A mark for each ordinary node: whether it is done and doesn't run again.
fn marks_of(alloc: Global, core: &Core<'_>, again: &[bool]) -> Result<Vec<bool>, AllocError>
    requires { length again.now ≡ suc (count_of core.now.plan) }
    ensures { IfOk result (λ marks. marks.items ≡ marks_kept core.now.plan core.now.past again.now) }
{
    let mut marks = Vec::new(alloc);
    for node in 0..core.plan().count() {
        marks.push(stays_done(core, again, node))?;
    }
    Ok(marks)
}

/// How many marks are there.
fn count_marks(marks: &[bool]) -> usize
    ensures { result ≡ count_by (λ mark. mark) marks.now }
{
    marks.iter().filter(|mark| **mark).count()
}

/// The rescue file of a run as it is now, without these nodes and, unless these `only` run again, without all that come after
/// them.
///
/// # Errors
/// `Memory` alone.
pub(crate) fn redone_text(
    alloc: Global,
    core: &Core<'_>,
    only: bool,
    named: &[u32],
) -> Result<Redone, RunFault>
    ensures redone { IfOk result (λ redone.
        IsRedone core.now.plan core.now.past only named.now (string_bytes redone.text) redone.done) }
    ensures err { IfErr result (λ fault. fault ≡ Memory) }
{
    let again = again_of(alloc, core.plan(), only, named)?;
    let marks = marks_of(alloc, core, &again)?;
    let done = count_marks(&marks);
    match rescue_text(alloc, core.plan().graph(), &marks) {
        Ok(text) => Ok(Redone { text, done }),
        Err(_) => Err(RunFault::Memory),
    }
}
