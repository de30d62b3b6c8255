//! The phases of a round, as a page shows them.

use log_lines::phase_word;
use report_page::{PhaseBar, PhaseEnd};
use run_times::{Ending, PhaseRun};
use std::alloc::{AllocError, Global};

/// How a phase ended, in the words of a page.
fn end_of(ending: Ending) -> PhaseEnd {
    match ending {
        Ending::Exit(code) => PhaseEnd::Exit(code),
        Ending::Signal(number) => PhaseEnd::Signal(number),
        Ending::Untold => PhaseEnd::Unknown,
        Ending::NotStarted => PhaseEnd::NotStarted,
        Ending::Killed => PhaseEnd::Killed,
        Ending::Lost => PhaseEnd::Lost,
        Ending::Runs => PhaseEnd::Runs,
    }
}

/// The bars of phases, in their order.
pub(crate) fn bars_of<'a>(
    alloc: Global,
    runs: &[PhaseRun<'a>],
) -> Result<Vec<PhaseBar<'a>>, AllocError> {
    let mut bars = Vec::new(alloc);
    for run in runs {
        bars.push(PhaseBar {
            node: run.node,
            phase: phase_word(run.phase),
            attempt: run.attempt,
            began: run.begun,
            took: run.took,
            end: end_of(run.ending),
        })?;
    }
    Ok(bars)
}

/// How long a round took by its phases: from the first event of its log to the last ending of a phase; none where
/// no phase ran.
pub(crate) fn length_of(runs: &[PhaseRun<'_>]) -> Option<u64> {
    runs.iter().map(|run| run.end()).max()
}
