//! How many phases ran at each moment.

ghost use Rattle.std.specs.Prelude.{◌≡◌, ◌-◌, map, length, IfOk};
ghost use Rattle.std.specs.List.Sorted.{IsNonDecreasingBy};
ghost use Rattle.run_times.specs.Slots.{run_end};
ghost use Rattle.run_times.specs.Load.{AreInOrder, count_until, AreLevels, most_running};
ghost use Rattle.run_times.specs.Picture.{peak_of};

use crate::runs::PhaseRun;
use std::alloc::{AllocError, Global};

/// How many phases ran from a moment on.
#[derive(Clone, Copy)]
pub(crate) struct Level {
    pub(crate) moment: u64,
    pub(crate) running: usize,
}

/// When phases began, in order.
fn begins_of(alloc: Global, runs: &[PhaseRun<'_>]) -> Result<Vec<u64>, AllocError>
    ensures { IfOk result (λ times. AreInOrder (map (λ run. run.begun) runs.now) times.items) }
{
    let mut times = Vec::new(alloc);
    for run in runs {
        times.push(run.begun)?;
    }
    times.sort()?;
    Ok(times)
}

/// When phases ended, in order.
fn ends_of(alloc: Global, runs: &[PhaseRun<'_>]) -> Result<Vec<u64>, AllocError>
    ensures { IfOk result (λ times. AreInOrder (map run_end runs.now) times.items) }
{
    let mut times = Vec::new(alloc);
    for run in runs {
        times.push(run.end())?;
    }
    times.sort()?;
    Ok(times)
}

/// How many of these times, which are in order, are no later than a time.
fn count_until(times: &[u64], time: u64) -> usize
    requires { IsNonDecreasingBy (λ one. one) times.now }
    ensures { result ≡ count_until times.now time }
{
    times.partition_point(|one| *one <= time)
}

/// How many phases ran at a moment: those that had begun, without those that had ended.
fn running_at(begins: &[u64], ends: &[u64], time: u64) -> usize
    requires begins { IsNonDecreasingBy (λ one. one) begins.now }
    requires ends { IsNonDecreasingBy (λ one. one) ends.now }
    ensures { result ≡ count_until begins.now time - count_until ends.now time }
{
    count_until(begins, time).saturating_sub(count_until(ends, time))
}

/// The moments at which a phase began or ended, in order.
fn moments_of(alloc: Global, begins: &[u64], ends: &[u64]) -> Result<Vec<u64>, AllocError> {
    let mut moments = Vec::from_slice(alloc, begins)?;
    moments.extend_from_slice(ends)?;
    moments.sort()?;
    moments.dedup();
    Ok(moments)
}

/// How many phases ran from each moment on at which a phase began or ended, in order.
///
/// # Errors
/// Lack of memory.
pub(crate) fn levels_of(alloc: Global, runs: &[PhaseRun<'_>]) -> Result<Vec<Level>, AllocError>
    ensures { IfOk result (λ levels. AreLevels runs.now levels.items) }
{
    let begins = begins_of(alloc, runs)?;
    let ends = ends_of(alloc, runs)?;
    let moments = moments_of(alloc, &begins, &ends)?;
    let mut levels = Vec::new(alloc);
    for moment in moments.as_slice() {
        let running = running_at(&begins, &ends, *moment);
        levels.push(Level {
            moment: *moment,
            running,
        })?;
    }
    Ok(levels)
}

/// The highest number of phases that ran at one moment.
pub(crate) fn peak_of(levels: &[Level]) -> usize
    ensures { result ≡ peak_of levels.now (length levels.now) }
{
    let mut peak = 0;
    for level in levels {
        peak = peak.max(level.running);
    }
    peak
}

/// How many phases ran at once, at most, when one of them began.
///
/// # Errors
/// Lack of memory.
pub(crate) fn most_running(alloc: Global, runs: &[PhaseRun<'_>]) -> Result<usize, AllocError>
    ensures { IfOk result (λ most. most ≡ most_running runs.now (length runs.now)) }
{
    let begins = begins_of(alloc, runs)?;
    let ends = ends_of(alloc, runs)?;
    let mut most: usize = 0;
    for run in runs {
        most = most.max(running_at(&begins, &ends, run.begun));
    }
    Ok(most)
}
