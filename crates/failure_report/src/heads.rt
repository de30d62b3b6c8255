//! The line that says of a node in error how it failed.

ghost use Rattle.std.specs.Prelude.{◌≡◌, ◌++◌, None, option_map, OnOk, string_bytes};
ghost use Rattle.failure_report.specs.Heads.{phase_words, ending_words, waiting_words, attempt_words, failed_words, rest_words, head_line};

use log_lines::signal_name;
use node_machine::{Ended, Outcome, Phase};
use std::alloc::AllocError;

/// What a phase is called.
pub(crate) fn phase_words(phase: Phase) -> &'static str
    ensures { result.now ≡ phase_words phase }
{
    match phase {
        Phase::Pre => "its PRE script",
        Phase::Job => "its job",
        Phase::Post => "its POST script",
    }
}

/// Adds that a signal ended a phase.
fn push_signal(text: &mut String, number: u8) -> Result<(), AllocError>
    ensures { OnOk result (string_bytes text.new ≡ string_bytes text.old ++ ending_words (Outcome.Signal number) None) }
{
    match signal_name(number) {
        Some(name) => write!(text, "ended with signal {number} ({name})"),
        None => write!(text, "ended with signal {number}"),
    }
}

/// Adds that a phase was not started, and why, where that is known.
fn push_no_start(text: &mut String, reason: Option<&str>) -> Result<(), AllocError>
    ensures { OnOk result (string_bytes text.new ≡ string_bytes text.old
        ++ ending_words Outcome.NoStart (option_map (λ r. r.now) reason.entry)) }
{
    match reason {
        Some(reason) => write!(text, "was not started: {reason}"),
        None => text.push_str("was not started"),
    }
}

/// Adds how a phase ended: with which exit or signal, or why it was not started.
pub(crate) fn push_ending(
    text: &mut String,
    outcome: Outcome,
    reason: Option<&str>,
) -> Result<(), AllocError>
    ensures { OnOk result (string_bytes text.new ≡ string_bytes text.old
        ++ ending_words outcome (option_map (λ r. r.now) reason.entry)) }
{
    match outcome {
        Outcome::Exit(code) => write!(text, "ended with exit {code}"),
        Outcome::Signal(number) => push_signal(text, number),
        Outcome::NoStart => push_no_start(text, reason),
        Outcome::Untold => text.push_str("ended, and the system did not tell how"),
    }
}

/// Adds how many nodes wait.
fn push_waiting(text: &mut String, waiting: u32) -> Result<(), AllocError>
    ensures { OnOk result (string_bytes text.new ≡ string_bytes text.old ++ waiting_words waiting) }
{
    match waiting {
        0 => text.push_str("no node waits for it"),
        1 => text.push_str("1 node waits for it"),
        _ => write!(text, "{waiting} nodes wait for it"),
    }
}

/// Adds which attempt of how many it was.
pub(crate) fn push_attempt(text: &mut String, attempt: u32, retries: u32) -> Result<(), AllocError>
    ensures { OnOk result (string_bytes text.new ≡ string_bytes text.old ++ attempt_words attempt retries) }
{
    let number = u64::from(attempt) + 1;
    let all = u64::from(retries) + 1;
    write!(text, "in attempt {number} of {all}")
}

/// Adds the name of a node in error, and which phase of it ended how.
fn push_failed(
    text: &mut String,
    name: &str,
    end: &Ended,
    reason: Option<&str>,
) -> Result<(), AllocError>
    ensures { OnOk result (string_bytes text.new ≡ string_bytes text.old
        ++ failed_words name.now end.now (option_map (λ r. r.now) reason.entry)) }
{
    let phase = phase_words(end.phase);
    write!(text, "{name} ERROR: {phase} ")?;
    push_ending(text, end.outcome, reason)
}

/// Adds in which attempt it failed, and how many nodes wait for it.
fn push_rest(text: &mut String, attempt: u32, retries: u32, waiting: u32) -> Result<(), AllocError>
    ensures { OnOk result (string_bytes text.new ≡ string_bytes text.old ++ rest_words attempt retries waiting) }
{
    text.push_str(", ")?;
    push_attempt(text, attempt, retries)?;
    text.push_str("; ")?;
    push_waiting(text, waiting)?;
    text.push_str("\n")
}

/// Adds the line of a node in error: its name, which phase failed and how, in which attempt of how many,
/// and how many nodes wait for it. The reason counts where the phase was not started.
///
/// # Errors
/// Lack of memory, and nothing else.
pub(crate) fn push_head(
    text: &mut String,
    name: &str,
    end: &Ended,
    reason: Option<&str>,
    retries: u32,
    waiting: u32,
) -> Result<(), AllocError>
    ensures { OnOk result (string_bytes text.new ≡ string_bytes text.old
        ++ head_line name.now end.now (option_map (λ r. r.now) reason.entry) retries waiting) }
{
    push_failed(text, name, end, reason)?;
    push_rest(text, end.attempt, retries, waiting)
}
