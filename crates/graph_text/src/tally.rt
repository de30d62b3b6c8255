//! How many nodes of a box stand where, and what is shown of it.

ghost use Rattle.std.specs.Prelude.{◌≡◌, ◌++◌, OnOk, IfOk, string_bytes, count_by, is_some};
ghost use Rattle.graph_text.specs.Tallies.{is_seen_done, is_seen_failed, is_seen_running, is_seen_ready, box_tally_of, colour_text, box_part_text, box_counts_text, box_label};

use status_report::Status;
use std::alloc::{AllocError, Global};

/// How many nodes a box has, of how many something is known, and how many of these are done, in error,
/// run and are ready.
#[derive(Clone, Copy)]
pub(crate) struct Tally {
    pub(crate) nodes: usize,
    pub(crate) seen: usize,
    pub(crate) done: usize,
    pub(crate) failed: usize,
    pub(crate) running: usize,
    pub(crate) ready: usize,
}

/// Whether a node is done.
fn is_done(state: Option<Status>) -> bool
    ensures { result ≡ is_seen_done state }
{
    match state {
        Some(Status::Done) => true,
        _ => false,
    }
}

/// Whether a node is in error.
fn is_failed(state: Option<Status>) -> bool
    ensures { result ≡ is_seen_failed state }
{
    match state {
        Some(Status::Error) => true,
        _ => false,
    }
}

/// Whether a script of a node or its job runs.
fn is_running(state: Option<Status>) -> bool
    ensures { result ≡ is_seen_running state }
{
    match state {
        Some(Status::PreRun | Status::Submitted | Status::PostRun) => true,
        _ => false,
    }
}

/// Whether a node is ready.
fn is_ready(state: Option<Status>) -> bool
    ensures { result ≡ is_seen_ready state }
{
    match state {
        Some(Status::Ready) => true,
        _ => false,
    }
}

/// How many of these states are known.
fn count_seen(states: &[Option<Status>]) -> usize
    ensures { result ≡ count_by is_some states.now }
{
    states.iter().filter(|state| state.is_some()).count()
}

/// How many of these nodes are done.
fn count_done(states: &[Option<Status>]) -> usize
    ensures { result ≡ count_by is_seen_done states.now }
{
    states.iter().filter(|state| is_done(**state)).count()
}

/// How many of these nodes are in error.
fn count_failed(states: &[Option<Status>]) -> usize
    ensures { result ≡ count_by is_seen_failed states.now }
{
    states.iter().filter(|state| is_failed(**state)).count()
}

/// How many of these nodes run.
fn count_running(states: &[Option<Status>]) -> usize
    ensures { result ≡ count_by is_seen_running states.now }
{
    states.iter().filter(|state| is_running(**state)).count()
}

/// How many of these nodes are ready.
fn count_ready(states: &[Option<Status>]) -> usize
    ensures { result ≡ count_by is_seen_ready states.now }
{
    states.iter().filter(|state| is_ready(**state)).count()
}

/// How many of these states there are, and how many of each kind.
pub(crate) fn box_tally_of(states: &[Option<Status>]) -> Tally
    ensures { result ≡ box_tally_of states.now }
{
    Tally {
        nodes: states.len(),
        seen: count_seen(states),
        done: count_done(states),
        failed: count_failed(states),
        running: count_running(states),
        ready: count_ready(states),
    }
}

/// The colour of a box, by a name that graphviz knows: that of the worst that one of its nodes came to.
pub(crate) fn colour_text(tally: &Tally) -> &'static str
    ensures { result.now ≡ colour_text tally.now }
{
    if tally.seen == 0 {
        ""
    } else if tally.failed > 0 {
        ", fillcolor=lightcoral"
    } else if tally.running > 0 {
        ", fillcolor=lightskyblue"
    } else if tally.done == tally.nodes {
        ", fillcolor=palegreen"
    } else if tally.ready > 0 {
        ", fillcolor=khaki"
    } else {
        ", fillcolor=white"
    }
}

/// Adds how many nodes stand there, unless none does; `leads` says that this is the first such part.
fn push_part(text: &mut String, leads: bool, count: usize, word: &str) -> Result<(), AllocError>
    ensures { OnOk result (string_bytes text.new ≡ string_bytes text.old ++ box_part_text leads count word.now) }
{
    if count == 0 {
        return Ok(());
    }
    text.push_str(if leads { ": " } else { ", " })?;
    write!(text, "{count}{word}")
}

/// Adds how many nodes are done, in error and run.
fn push_counts(text: &mut String, tally: &Tally) -> Result<(), AllocError>
    ensures { OnOk result (string_bytes text.new ≡ string_bytes text.old ++ box_counts_text tally.now) }
{
    let none_done = tally.done == 0;
    let none_failed = tally.failed == 0;
    push_part(text, true, tally.done, " done")?;
    push_part(text, none_done, tally.failed, " failed")?;
    push_part(text, none_done && none_failed, tally.running, " run")
}

/// The label of a box: the name of its node; if it has several, the name of the first, how many there
/// are, and how many of them stand where.
pub(crate) fn box_label(alloc: Global, name: &str, tally: &Tally) -> Result<String, AllocError>
    ensures { IfOk result (λ text. string_bytes text ≡ box_label name.now tally.now) }
{
    let mut text = String::from_str(alloc, name)?;
    if tally.nodes != 1 {
        write!(text, " x {}", tally.nodes)?;
        push_counts(&mut text, tally)?;
    }
    Ok(text)
}
