//! Slots: phases that follow each other share a row of the picture.

ghost use Rattle.std.specs.Prelude.{◌≡◌, ◌≤◌, vec_len, IfOk, OnOk};
ghost use Rattle.run_times.specs.Slots.{AreSlots, IsFreeSlot, occupied};

use crate::runs::PhaseRun;
use std::alloc::{AllocError, Global};

/// The slot of each phase, and how many slots there are.
#[derive(Drop)]
pub(crate) struct Slots {
    pub(crate) of: Vec<usize>,
    pub(crate) count: usize,
}

/// The first slot that is free from a time on, by when each comes free; a new one where none is.
fn free_slot(free: &[u64], from: u64) -> usize
    ensures { IsFreeSlot free.now from result }
{
    for slot in 0..free.len() {
        if free[slot] <= from {
            return slot;
        }
    }
    free.len()
}

/// Notes that a slot, which may be a new one, comes free at a time.
fn occupy(free: &mut Vec<u64>, slot: usize, until: u64) -> Result<(), AllocError>
    requires { slot ≤ vec_len free.old }
    ensures { OnOk result (free.new.items ≡ occupied free.old.items slot until) }
{
    if slot < free.len() {
        free[slot] = until;
    } else {
        free.push(until)?;
    }
    Ok(())
}

/// Gives each phase the first slot that is free when it begins.
///
/// # Errors
/// Lack of memory.
pub(crate) fn slots_of(alloc: Global, runs: &[PhaseRun<'_>]) -> Result<Slots, AllocError>
    ensures { IfOk result (λ slots. AreSlots runs.now slots.of.items slots.count) }
{
    let mut free = Vec::new(alloc);
    let mut of = Vec::new(alloc);
    for run in runs {
        let slot = free_slot(&free, run.begun);
        occupy(&mut free, slot, run.end())?;
        of.push(slot)?;
    }
    Ok(Slots {
        of,
        count: free.len(),
    })
}
