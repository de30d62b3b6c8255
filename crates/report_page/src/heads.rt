//! What a page says of a round as a whole.

ghost use Rattle.std.specs.Prelude.{◌≡◌, ◌≤◌, ◌++◌, length, OnOk, string_bytes};
ghost use Rattle.std.specs.Fmt.{decimal};
ghost use Rattle.report_page.specs.States.{look_class};
ghost use Rattle.report_page.specs.Heads.{round_text, look_of_round, begin_text, began_text, length_text, took_text, reloads_text, title_text, one_in, count_in, count_text, some_count_text, count_text_of, ended_counts, running_counts, waiting_counts, total_text, counts_text, heading_text, preformatted_text, lines_text, warnings_text, why_text};

use crate::escaped::{push_class, push_escaped, push_own, push_state_class, push_word};
use crate::times::push_duration;
use crate::values::{Look, NodeState, Page, RoundState, Row};
use std::alloc::AllocError;

/// Adds how a round is, in words.
#[tactic(auto, unfolding(crate::specs::Heads::round_text))]
fn push_round(text: &mut String, round: RoundState) -> Result<(), AllocError>
    ensures { OnOk result (string_bytes text.new ≡ string_bytes text.old ++ round_text round) }
{
    match round {
        RoundState::NotBegun => text.push_str("No round has begun."),
        RoundState::Runs => {
            text.push_str("The round runs. The page shows how far it was when the page was made.")
        }
        RoundState::Ended(status) => write!(text, "The round ended with exit status {status}."),
        RoundState::CutShort => {
            text.push_str("The round was cut short: it has no end, and no manager runs it.")
        }
    }
}

/// How a round looks.
fn look_of_round(round: RoundState) -> Look
    ensures { result ≡ look_of_round round }
{
    match round {
        RoundState::NotBegun => Look::Waits,
        RoundState::Runs => Look::Runs,
        RoundState::Ended(0) => Look::Done,
        RoundState::Ended(_) | RoundState::CutShort => Look::Error,
    }
}

/// Adds the class by which the style shows how a round is.
fn push_round_class(text: &mut String, round: RoundState) -> Result<(), AllocError>
    ensures { OnOk result (string_bytes text.new ≡ string_bytes text.old ++ look_class (look_of_round round)) }
{
    push_class(text, look_of_round(round))
}

/// Adds when a round began.
#[tactic(auto, unfolding(crate::specs::Heads::begin_text))]
fn push_begin(text: &mut String, time: &str) -> Result<(), AllocError>
    ensures { OnOk result (string_bytes text.new ≡ string_bytes text.old ++ begin_text time.now) }
{
    push_own(text, "<p>It began at <b>")?;
    push_escaped(text, time)?;
    push_own(text, "</b>.</p>\n")
}

/// Adds the same where that is known.
#[tactic(auto, unfolding(crate::specs::Heads::began_text))]
fn push_began(text: &mut String, began: Option<&str>) -> Result<(), AllocError>
    ensures { OnOk result (string_bytes text.new ≡ string_bytes text.old ++ began_text began.entry) }
{
    match began {
        Some(began) => push_begin(text, began),
        None => Ok(()),
    }
}

/// Adds how long a round took by its log.
#[tactic(auto, unfolding(crate::specs::Heads::length_text))]
fn push_length(text: &mut String, milliseconds: u64) -> Result<(), AllocError>
    ensures { OnOk result (string_bytes text.new ≡ string_bytes text.old ++ length_text milliseconds) }
{
    push_own(text, "<p>By its log it took <b>")?;
    push_duration(text, milliseconds)?;
    push_own(text, "</b>.</p>\n")
}

/// Adds the same where that is known.
#[tactic(auto, unfolding(crate::specs::Heads::took_text))]
fn push_took(text: &mut String, took: Option<u64>) -> Result<(), AllocError>
    ensures { OnOk result (string_bytes text.new ≡ string_bytes text.old ++ took_text took) }
{
    match took {
        Some(took) => push_length(text, took),
        None => Ok(()),
    }
}

/// Adds that a page loads itself anew, where it does.
#[tactic(auto, unfolding(crate::specs::Heads::reloads_text))]
fn push_reloads(text: &mut String, reloads: bool) -> Result<(), AllocError>
    ensures { OnOk result (string_bytes text.new ≡ string_bytes text.old ++ reloads_text reloads) }
{
    if reloads {
        text.push_str("<p>The page loads itself anew every 5 seconds.</p>\n")
    } else {
        Ok(())
    }
}

/// Adds the head of a page.
#[tactic(auto, unfolding(crate::specs::Heads::title_text))]
pub(crate) fn push_title(text: &mut String, page: &Page<'_>) -> Result<(), AllocError>
    ensures { OnOk result (string_bytes text.new ≡ string_bytes text.old ++ title_text page.now) }
{
    push_own(text, "<h1>")?;
    push_escaped(text, page.path)?;
    push_own(text, "</h1>\n<p id=\"round\" class=\"")?;
    push_round_class(text, page.round)?;
    push_own(text, "\">")?;
    push_round(text, page.round)?;
    push_own(text, "</p>\n")?;
    push_began(text, page.began)?;
    push_took(text, page.took)?;
    push_reloads(text, page.reloads)
}

/// Whether a node is in a state, as a number.
#[tactic(auto, unfolding(crate::specs::Heads::one_in))]
fn one_in(row: &Row<'_>, state: NodeState) -> usize
    ensures is { result ≡ one_in state row.now }
    ensures small { result ≤ 1 }
{
    if row.state.number() == state.number() {
        1
    } else {
        0
    }
}

/// How many nodes are in a state.
fn count_in(rows: &[Row<'_>], state: NodeState) -> usize
    ensures { result ≡ count_in rows.now state (length rows.now) }
{
    let mut count = 0;
    for place in 0..rows.len() {
        count += one_in(&rows[place], state);
    }
    count
}

/// Adds a number.
fn push_number(text: &mut String, number: usize) -> Result<(), AllocError>
    ensures { OnOk result (string_bytes text.new ≡ string_bytes text.old ++ decimal number) }
{
    write!(text, "{number}")
}

/// Adds that so many nodes are in a state.
#[tactic(auto, unfolding(crate::specs::Heads::count_text))]
fn push_state_count(text: &mut String, state: NodeState, count: usize) -> Result<(), AllocError>
    ensures { OnOk result (string_bytes text.new ≡ string_bytes text.old ++ count_text state count) }
{
    push_own(text, "<li class=\"")?;
    push_state_class(text, state)?;
    push_own(text, "\"><b>")?;
    push_number(text, count)?;
    push_own(text, "</b> ")?;
    push_word(text, state)?;
    push_own(text, "</li>\n")
}

/// Adds the same where there is one.
#[tactic(auto, unfolding(crate::specs::Heads::some_count_text))]
fn push_some_count(text: &mut String, state: NodeState, count: usize) -> Result<(), AllocError>
    ensures { OnOk result (string_bytes text.new ≡ string_bytes text.old ++ some_count_text state count) }
{
    if count == 0 {
        Ok(())
    } else {
        push_state_count(text, state, count)
    }
}

/// Adds how many nodes are in a state, where one is.
#[tactic(auto, unfolding(crate::specs::Heads::count_text_of))]
fn push_count(text: &mut String, rows: &[Row<'_>], state: NodeState) -> Result<(), AllocError>
    ensures { OnOk result (string_bytes text.new ≡ string_bytes text.old ++ count_text_of rows.now state) }
{
    push_some_count(text, state, count_in(rows, state))
}

/// Adds how many are done, and in error.
#[tactic(auto, unfolding(crate::specs::Heads::ended_counts))]
fn push_ended(text: &mut String, rows: &[Row<'_>]) -> Result<(), AllocError>
    ensures { OnOk result (string_bytes text.new ≡ string_bytes text.old ++ ended_counts rows.now) }
{
    push_count(text, rows, NodeState::Done)?;
    push_count(text, rows, NodeState::Error)
}

/// Adds how many run.
#[tactic(auto, unfolding(crate::specs::Heads::running_counts))]
fn push_running(text: &mut String, rows: &[Row<'_>]) -> Result<(), AllocError>
    ensures { OnOk result (string_bytes text.new ≡ string_bytes text.old ++ running_counts rows.now) }
{
    push_count(text, rows, NodeState::PreRun)?;
    push_count(text, rows, NodeState::Submitted)?;
    push_count(text, rows, NodeState::PostRun)
}

/// Adds how many may start, and how many wait.
#[tactic(auto, unfolding(crate::specs::Heads::waiting_counts))]
fn push_waiting(text: &mut String, rows: &[Row<'_>]) -> Result<(), AllocError>
    ensures { OnOk result (string_bytes text.new ≡ string_bytes text.old ++ waiting_counts rows.now) }
{
    push_count(text, rows, NodeState::Ready)?;
    push_count(text, rows, NodeState::NotReady)
}

/// Adds how many nodes there are.
#[tactic(auto, unfolding(crate::specs::Heads::total_text))]
fn push_total(text: &mut String, count: usize) -> Result<(), AllocError>
    ensures { OnOk result (string_bytes text.new ≡ string_bytes text.old ++ total_text count) }
{
    push_own(text, "<ul>\n<li class=\"plain\"><b>")?;
    push_number(text, count)?;
    push_own(text, "</b> nodes</li>\n")
}

/// Adds how many nodes there are, and how many are in each state.
#[tactic(auto, unfolding(crate::specs::Heads::counts_text))]
pub(crate) fn push_counts(text: &mut String, rows: &[Row<'_>]) -> Result<(), AllocError>
    ensures { OnOk result (string_bytes text.new ≡ string_bytes text.old ++ counts_text rows.now) }
{
    push_total(text, rows.len())?;
    push_ended(text, rows)?;
    push_running(text, rows)?;
    push_waiting(text, rows)?;
    push_own(text, "</ul>\n")
}

/// Adds a heading.
#[tactic(auto, unfolding(crate::specs::Heads::heading_text))]
fn push_heading(text: &mut String, heading: &str) -> Result<(), AllocError>
    ensures { OnOk result (string_bytes text.new ≡ string_bytes text.old ++ heading_text heading.now) }
{
    push_own(text, "<h2>")?;
    push_own(text, heading)?;
    push_own(text, "</h2>\n")
}

/// Adds a text of some lines, as it is.
#[tactic(auto, unfolding(crate::specs::Heads::preformatted_text))]
fn push_preformatted(text: &mut String, lines: &str) -> Result<(), AllocError>
    ensures { OnOk result (string_bytes text.new ≡ string_bytes text.old ++ preformatted_text lines.now) }
{
    push_own(text, "<pre>")?;
    push_escaped(text, lines)?;
    push_own(text, "</pre>\n")
}

/// Adds a text of some lines, as it is, below a heading.
#[tactic(auto, unfolding(crate::specs::Heads::lines_text))]
fn push_lines(text: &mut String, heading: &str, lines: &str) -> Result<(), AllocError>
    ensures { OnOk result (string_bytes text.new ≡ string_bytes text.old ++ lines_text heading.now lines.now) }
{
    push_heading(text, heading)?;
    push_preformatted(text, lines)
}

/// Adds the warnings of the files, where there are any.
#[tactic(auto, unfolding(crate::specs::Heads::warnings_text))]
pub(crate) fn push_warnings(text: &mut String, warnings: &str) -> Result<(), AllocError>
    ensures { OnOk result (string_bytes text.new ≡ string_bytes text.old ++ warnings_text warnings.now) }
{
    if warnings.is_empty() {
        return Ok(());
    }
    push_lines(text, "Warnings", warnings)
}

/// Adds what `why` prints.
#[tactic(auto, unfolding(crate::specs::Heads::why_text))]
pub(crate) fn push_why(text: &mut String, why: &str) -> Result<(), AllocError>
    ensures { OnOk result (string_bytes text.new ≡ string_bytes text.old ++ why_text why.now) }
{
    if why.is_empty() {
        return Ok(());
    }
    push_lines(text, "Failures", why)
}
