//! A table of the phases that were run, for a spreadsheet.

ghost use Rattle.std.specs.Prelude.{◌≡◌, ◌++◌, length, OnOk, IfOk, string_bytes};
ghost use Rattle.run_times.specs.Table.{seconds_text, ending_text, mark_text, when_text, row_text, table_text_of};

use crate::runs::{Ending, PhaseRun};
use log_lines::phase_word;
use std::alloc::{AllocError, Global};

/// Adds milliseconds as seconds, with three digits after the point.
pub(crate) fn push_seconds(text: &mut String, milliseconds: u64) -> Result<(), AllocError>
    ensures { OnOk result (string_bytes text.new ≡ string_bytes text.old ++ seconds_text milliseconds) }
{
    let (tenths, hundredths) = (milliseconds / 100 % 10, milliseconds / 10 % 10);
    write!(
        text,
        "{}.{tenths}{hundredths}{}",
        milliseconds / 1000,
        milliseconds % 10
    )
}

/// Adds how a phase ended.
pub(crate) fn push_ending(text: &mut String, ending: Ending) -> Result<(), AllocError>
    ensures { OnOk result (string_bytes text.new ≡ string_bytes text.old ++ ending_text ending) }
{
    match ending {
        Ending::Exit(code) => write!(text, "exit {code}"),
        Ending::Signal(number) => write!(text, "signal {number}"),
        Ending::Untold => text.push_str("untold"),
        Ending::NotStarted => text.push_str("not started"),
        Ending::Killed => text.push_str("killed"),
        Ending::Lost => text.push_str("lost"),
        Ending::Runs => text.push_str("runs"),
    }
}

/// Adds the fields of a phase that say when it ran.
fn push_when(text: &mut String, run: &PhaseRun<'_>) -> Result<(), AllocError>
    ensures { OnOk result (string_bytes text.new ≡ string_bytes text.old ++ when_text run.now) }
{
    push_seconds(text, run.begun)?;
    text.push('\t')?;
    push_seconds(text, run.took)?;
    text.push('\t')
}

/// Adds the row of a phase.
fn push_row(text: &mut String, run: &PhaseRun<'_>, mark: bool) -> Result<(), AllocError>
    ensures { OnOk result (string_bytes text.new ≡ string_bytes text.old ++ row_text run.now mark) }
{
    let (node, phase) = (run.node, phase_word(run.phase));
    write!(text, "{node}\t{phase}\t{}\t", run.attempt)?;
    push_when(text, run)?;
    push_ending(text, run.ending)?;
    push_mark(text, mark)
}

/// Adds whether a phase is on the critical path, and the end of its row.
fn push_mark(text: &mut String, mark: bool) -> Result<(), AllocError>
    ensures { OnOk result (string_bytes text.new ≡ string_bytes text.old ++ mark_text mark) }
{
    if mark {
        text.push_str("\t*\n")
    } else {
        text.push_str("\t-\n")
    }
}

/// A table of these phases, with a mark for each: whether it is on the critical path.
///
/// # Errors
/// Lack of memory.
pub fn table_text(
    alloc: Global,
    runs: &[PhaseRun<'_>],
    marks: &[bool],
) -> Result<String, AllocError>
    requires { length marks.now ≡ length runs.now }
    ensures { IfOk result (λ text. string_bytes text ≡ table_text_of runs.now marks.now) }
{
    let mut text = String::new(alloc);
    text.push_str("node\tphase\tattempt\tbegin\tseconds\tended\tpath\n")?;
    for place in 0..runs.len() {
        push_row(&mut text, &runs[place], marks[place])?;
    }
    Ok(text)
}
