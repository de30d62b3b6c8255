//! The parts of the critical path: how long each of its phases waited, and how long it took.

ghost use Rattle.std.specs.Prelude.{◌≡◌, ◌+◌, ◌-◌};
ghost use Rattle.std.specs.List.{list_any};
ghost use Rattle.run_times.specs.Canvas.{within};
ghost use Rattle.run_times.specs.Critical.{run_end_at};
ghost use Rattle.run_times.specs.Parts.{begun_at, end_of_rest, waited_in, lasted_in, early_in, made_way, waited_for_turn};

use crate::critical::run_end_at;
use crate::runs::PhaseRun;

/// A phase that begins within so many milliseconds begins promptly.
const PROMPT: u64 = 20;

/// When the phase at a place began; 0, where there is none.
pub(crate) fn begun_at(runs: &[PhaseRun<'_>], place: usize) -> u64
    ensures { result ≡ begun_at runs.now place }
{
    match runs.get(place) {
        Some(run) => run.begun,
        None => 0,
    }
}

/// When the first phase of the rest of a path ended; 0, where there is none.
pub(crate) fn end_of_rest(runs: &[PhaseRun<'_>], rest: &[usize]) -> u64
    ensures { result ≡ end_of_rest runs.now rest.now }
{
    match rest {
        [place, ..] => run_end_at(runs, *place),
        [] => 0,
    }
}

/// How long the phase at a place took, by when it began and ended.
pub(crate) fn lasted_at(runs: &[PhaseRun<'_>], place: usize) -> u64
    ensures is { result ≡ run_end_at runs.now place - begun_at runs.now place }
    ensures after { result + begun_at runs.now place ≡ run_end_at runs.now place }
{
    match runs.get(place) {
        Some(run) => run.end() - run.begun,
        None => 0,
    }
}

/// How long the phases of a path took, all together. How long they waited and took sums to when the last of them
/// ended, and to how much some began before that ended for which they waited.
pub(crate) fn lasted_in(runs: &[PhaseRun<'_>], path: &[usize]) -> u64
    ensures is { result ≡ within (lasted_in runs.now path.now) }
    ensures whole { waited_in runs.now path.now + lasted_in runs.now path.now ≡ end_of_rest runs.now path.now + early_in runs.now path.now }
{
    let mut total: u64 = 0;
    let mut place = path.len();
    while place > 0 {
        place -= 1;
        total = total.saturating_add(lasted_at(runs, path[place]));
    }
    total
}

/// Whether a phase that could begin at one moment and began at another waited for its turn: it didn't begin promptly,
/// and began when another one had made way.
pub(crate) fn waited_for_turn(runs: &[PhaseRun<'_>], from: u64, until: u64) -> bool
    ensures { result ≡ waited_for_turn runs.now from until }
{
    until.saturating_sub(from) > PROMPT && is_way_made(runs, until)
}

/// Whether one of these phases made way at a moment.
fn is_way_made(runs: &[PhaseRun<'_>], until: u64) -> bool
    ensures { result ≡ list_any (made_way until) runs.now }
{
    runs.iter().any(|run| made_way(run, until))
}

/// Whether a phase ended at a moment or promptly before it.
fn made_way(run: &PhaseRun<'_>, until: u64) -> bool
    ensures { result ≡ made_way until run.now }
{
    run.end() <= until && until - run.end() <= PROMPT
}
