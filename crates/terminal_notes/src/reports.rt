//! What is displayed after a status and after a run, by their texts.

use crate::changes::quoted;
use std::alloc::{AllocError, Global};
use std::time::Duration;

/// The states of nodes in a status, in the order in which they are counted.
const STATES: [&str; 7] = [
    "DONE",
    "ERROR",
    "PRERUN",
    "SUBMITTED",
    "POSTRUN",
    "READY",
    "NOT_READY",
];

/// How many nodes that are not done are named after a run.
const MOST_NAMED: usize = 20;

/// How many lines of a status tell of a node in this state.
fn count_of(status: &str, state: &str) -> usize {
    status
        .lines()
        .filter(|line| line.split(' ').nth(1) == Some(state))
        .count()
}

/// How many nodes stand in which state, by the lines of a status: `47 DONE, 1 ERROR, 112 READY`.
pub(crate) fn totals_of(alloc: Global, status: &str) -> Result<String, AllocError> {
    let mut text = String::new(alloc);
    for state in &STATES {
        let count = count_of(status, state);
        if count > 0 {
            let comma = if text.is_empty() { "" } else { ", " };
            write!(text, "{comma}{count} {state}")?;
        }
    }
    Ok(text)
}

/// The name and the state that a line of a report says of a node; none for the line of its result.
fn node_in(line: &str) -> Option<(&str, &str)> {
    let mut words = line.split(' ');
    let (name, state) = (words.next()?, words.next()?);
    if STATES.contains(&state) {
        Some((name, state))
    } else {
        None
    }
}

/// The names of the nodes that are not done by a report, at most twenty, and how many more there are; empty where all are done.
fn undone_text(alloc: Global, report: &str) -> Result<String, AllocError> {
    let mut text = String::new(alloc);
    let mut count = 0usize;
    for line in report.lines() {
        if let Some((name, state)) = node_in(line) {
            if state != "DONE" {
                count = count.saturating_add(1);
                if count <= MOST_NAMED {
                    let front = if count == 1 { "not done: " } else { ", " };
                    write!(text, "{front}{name} {state}")?;
                }
            }
        }
    }
    if count > MOST_NAMED {
        write!(text, " and {} more", count - MOST_NAMED)?;
    }
    if count > 0 {
        text.push('\n')?;
    }
    Ok(text)
}

/// How long something took: in seconds with a tenth, and from a minute on as `m:ss` or `h:mm:ss`.
fn span_text(alloc: Global, span: Duration) -> Result<String, AllocError> {
    let seconds = span.as_secs();
    if seconds < 60 {
        return format!(in alloc; "{seconds}.{} s", span.subsec_millis() / 100);
    }
    let (minutes, rest) = (seconds / 60, seconds % 60);
    let tens = if rest < 10 { "0" } else { "" };
    if minutes < 60 {
        return format!(in alloc; "{minutes}:{tens}{rest}");
    }
    let zero = if minutes % 60 < 10 { "0" } else { "" };
    format!(in alloc; "{}:{zero}{}:{tens}{rest}", minutes / 60, minutes % 60)
}

/// What is displayed after the report of a run of this DAG file, which took so long.
pub(crate) fn ended_text(
    alloc: Global,
    dag: &str,
    report: &str,
    span: Duration,
) -> Result<String, AllocError> {
    let mut text = undone_text(alloc, report)?;
    let nodes = report.lines().filter_map(|line| node_in(line)).count();
    let (done, failed) = (count_of(report, "DONE"), count_of(report, "ERROR"));
    write!(text, "{done} done")?;
    if failed > 0 {
        write!(text, ", {failed} failed")?;
    }
    let waiting = nodes.saturating_sub(done).saturating_sub(failed);
    if waiting > 0 {
        write!(text, ", {waiting} waiting")?;
    }
    write!(text, ", {}", span_text(alloc, span)?)?;
    if failed > 0 {
        write!(text, "; dagrun why {} says why", quoted(alloc, dag)?)?;
    }
    text.push('\n')?;
    Ok(text)
}
