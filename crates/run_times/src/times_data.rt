//! The phases that were run as JSON, for programs.

ghost use Rattle.std.specs.Prelude.{◌≡◌, length, IfOk, string_bytes};
ghost use Rattle.serde_json.specs.View.{view, items_view};
ghost use Rattle.run_times.specs.TimesData.{ended_word, exit_code_data, signal_data, phase_data, phases_data, times_data, times_json_of};

use crate::runs::{Ending, PhaseRun};
use log_lines::phase_word;
use serde_json::{Value, json};
use std::alloc::{AllocError, Global};

/// How a phase ended, without a number.
fn ended_word(ending: Ending) -> &'static str
    ensures { result.now ≡ ended_word ending }
{
    match ending {
        Ending::Exit(_) => "exit",
        Ending::Signal(_) => "signal",
        Ending::Untold => "untold",
        Ending::NotStarted => "not started",
        Ending::Killed => "killed",
        Ending::Lost => "lost",
        Ending::Runs => "runs",
    }
}

/// The exit code of a phase that exited, else null.
fn exit_code(ending: Ending) -> Value
    ensures { view result ≡ exit_code_data ending }
{
    match ending {
        Ending::Exit(code) => Value::from(code),
        _ => Value::Null,
    }
}

/// The number of the signal that ended a phase, else null.
fn signal(ending: Ending) -> Value
    ensures { view result ≡ signal_data ending }
{
    match ending {
        Ending::Signal(number) => Value::from(number),
        _ => Value::Null,
    }
}

/// A phase, and whether it is on the critical path.
fn phase_value(alloc: Global, run: &PhaseRun<'_>, mark: bool) -> Result<Value, AllocError>
    ensures { IfOk result (λ value. view value ≡ phase_data run.now mark) }
{
    json!(in alloc; {
        "attempt": run.attempt,
        "begin_ms": run.begun,
        "critical": mark,
        "ended": ended_word(run.ending),
        "exit_code": exit_code(run.ending),
        "ms": run.took,
        "node": run.node,
        "phase": phase_word(run.phase),
        "signal": signal(run.ending),
    })
}

/// The phases in order, each with its mark.
fn phase_values(
    alloc: Global,
    runs: &[PhaseRun<'_>],
    marks: &[bool],
) -> Result<Vec<Value>, AllocError>
    requires { length marks.now ≡ length runs.now }
    ensures { IfOk result (λ values. items_view values.items ≡ phases_data runs.now marks.now) }
{
    let mut values = Vec::new(alloc);
    for place in 0..runs.len() {
        values.push(phase_value(alloc, &runs[place], marks[place])?)?;
    }
    Ok(values)
}

/// All phases, as the one member of an object.
fn times_value(alloc: Global, runs: &[PhaseRun<'_>], marks: &[bool]) -> Result<Value, AllocError>
    requires { length marks.now ≡ length runs.now }
    ensures { IfOk result (λ value. view value ≡ times_data runs.now marks.now) }
{
    let phases = Value::Array(phase_values(alloc, runs, marks)?);
    json!(in alloc; {"phases": phases})
}

/// These phases as JSON on one line, with a mark for each: whether it is on the critical path.
///
/// # Errors
/// Lack of memory.
pub fn times_json(
    alloc: Global,
    runs: &[PhaseRun<'_>],
    marks: &[bool],
) -> Result<String, AllocError>
    requires { length marks.now ≡ length runs.now }
    ensures { IfOk result (λ text. string_bytes text ≡ times_json_of runs.now marks.now) }
{
    let value = times_value(alloc, runs, marks)?;
    let mut text = value.to_string(alloc)?;
    text.push('\n')?;
    Ok(text)
}
