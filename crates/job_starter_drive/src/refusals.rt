//! The count of a system's refusals.
ghost use Rattle.std.specs.Prelude.{◌≤◌, List};
ghost use Rattle.job_starter_drive.specs.declared.Call.{Call};
ghost use Rattle.event_journal_log.specs.Disk.{IsOneMore};
ghost use Rattle.job_starter_drive.specs.Causes.{IsStartFault, IsAskFault, IsWaitFault};

use crate::StartFault;

/// One more. The count stays at its end.
pub fn raise(count: &mut u64)
    ensures later { count.old ≤ count.new }
    ensures one_more { IsOneMore count.old count.new }
{
    if *count < u64::MAX {
        *count += 1;
    }
}

/// Memory for a child is refused.
pub fn no_memory(faults: &mut u64) -> StartFault
    ensures later { faults.old ≤ faults.new }
    ensures refused { IsStartFault faults.old faults.new result }
{
    raise(faults);
    StartFault::StartMemory
}

/// A question or a wait is refused.
pub fn no_answer(faults: &mut u64) -> StartFault
    ensures later { faults.old ≤ faults.new }
    ensures asked { IsAskFault faults.old faults.new result }
    ensures waited { (call_log : List Call) → IsWaitFault faults.old faults.new call_log result }
{
    raise(faults);
    StartFault::WaitFault
}
