//! The replay of a run: its plan, with children that take as long as is said.

ghost use Rattle.std.specs.Prelude.{IfOk, IfErr};
ghost use Rattle.dag_main_rehearse.specs.Timed.{HasPossibleEnds, timings_of};
ghost use Rattle.dag_main_rehearse.specs.Replay.{IsReplay, IsNoReplay};

use crate::table_runs::{CAPACITY, begin, told};
use crate::timed::TimedStarter;
use crate::timeline::time_after;
use crate::timetable::Timetable;
use dag_main_check::RunFault;
use event_journal::MemDisk;
use job_starter_drive::Starter;
use run_plan::Plan;
use run_round::run_to_end;
use std::alloc::Global;
use throttles::Limits;

/// What came of a replay.
#[derive(Clone, Copy, Debug, PartialEq, Eq)]
pub struct Replay {
    /// How long it took, in the unit of the timetable.
    pub time: u64,
    /// Whether a value of ABORT-DAG-ON ended it.
    pub aborted: bool,
}

/// Runs a plan under these limits, as a run with children goes, but with its journal in memory and children that a timetable stands for:
/// each takes as long and ends as it says, and whatever the limits let in begins at once. So it takes none of dagrun's own time.
///
/// # Errors
/// `InManager` of `SlotsFull`, where the run has more records than its journal has slots, 2^24; `Memory`, wherever in
/// the run it was refused.
pub fn replay_plan(
    alloc: Global,
    plan: &Plan,
    limits: Limits,
    timetable: &Timetable,
) -> Result<Replay, RunFault>
    requires possible { HasPossibleEnds (timings_of timetable.now) }
    ensures replayed { IfOk result (IsReplay limits plan.now (timings_of timetable.now)) }
    ensures refused { IfErr result (IsNoReplay limits plan.now (timings_of timetable.now)) }
{
    let mut manager = begin(alloc, plan, limits)?;
    let mut starter = TimedStarter::new(alloc, timetable);
    let rescue = MemDisk::new(alloc, CAPACITY);
    match run_to_end(alloc, &mut manager, plan, &mut starter, rescue) {
        Ok(_led) => {
            let time = time_after(alloc, timetable, starter.calls())?;
            Ok(Replay {
                time,
                aborted: manager.core().aborted(),
            })
        }
        Err((_rescue, fault)) => Err(told(fault)),
    }
}
