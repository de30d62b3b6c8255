//! The text of a page.

ghost use Rattle.std.specs.Prelude.{◌≡◌, ◌++◌, OnOk, IfOk, string_bytes};
ghost use Rattle.report_page.specs.Pages.{first_text, refresh_text, window_text, styled_text, page_head, timeline_text, nodes_text, confirmed_text, shown_digest, last_text, closing_text, page_of, IsPageText};

use crate::drawings::push_drawing;
use crate::escaped::{push_escaped, push_own};
use crate::graph::graph_drawing;
use crate::heads::{push_counts, push_title, push_warnings, push_why};
use crate::limits::push_limits;
use crate::rows::push_table;
use crate::script::push_script;
use crate::shapes::Drawing;
use crate::style::push_style;
use crate::timeline::timeline_drawing;
use crate::values::{Page, PhaseBar};
use std::alloc::{AllocError, Global};

/// What comes first: the language and the characters of the page, and the rule that it loads nothing from anywhere.
const FIRST: &str =
    "<!DOCTYPE html>\n<html lang=\"en\">\n<head>\n<meta charset=\"utf-8\">\n<meta name=\"viewport\" content=\"width=device-width, initial-scale=1\">\n<meta http-equiv=\"Content-Security-Policy\" content=\"default-src 'none'; style-src 'unsafe-inline'; script-src 'unsafe-inline'\">\n";

/// Adds what comes first.
#[tactic(auto, unfolding(crate::specs::Pages::first_text))]
fn push_first(text: &mut String) -> Result<(), AllocError>
    ensures { OnOk result (string_bytes text.new ≡ string_bytes text.old ++ first_text) }
{
    push_own(text, FIRST)
}

/// Adds that a page loads itself anew, where it does.
#[tactic(auto, unfolding(crate::specs::Pages::refresh_text))]
fn push_refresh(text: &mut String, reloads: bool) -> Result<(), AllocError>
    ensures { OnOk result (string_bytes text.new ≡ string_bytes text.old ++ refresh_text reloads) }
{
    if reloads {
        text.push_str("<meta http-equiv=\"refresh\" content=\"5\">\n")
    } else {
        Ok(())
    }
}

/// Adds the title of the page's window.
#[tactic(auto, unfolding(crate::specs::Pages::window_text))]
fn push_window(text: &mut String, path: &str) -> Result<(), AllocError>
    ensures { OnOk result (string_bytes text.new ≡ string_bytes text.old ++ window_text path.now) }
{
    push_own(text, "<title>")?;
    push_escaped(text, path)?;
    push_own(text, "</title>\n")
}

/// Adds the style as an element, and the end of the head.
#[tactic(auto, unfolding(crate::specs::Pages::styled_text))]
fn push_styled(text: &mut String) -> Result<(), AllocError>
    ensures { OnOk result (string_bytes text.new ≡ string_bytes text.old ++ styled_text) }
{
    push_own(text, "<style>\n")?;
    push_style(text)?;
    push_own(text, "</style>\n</head>\n<body>\n")
}

/// Adds what a browser reads before it shows a page.
#[tactic(auto, unfolding(crate::specs::Pages::page_head))]
fn push_head(text: &mut String, page: &Page<'_>) -> Result<(), AllocError>
    ensures { OnOk result (string_bytes text.new ≡ string_bytes text.old ++ page_head page.now) }
{
    push_first(text)?;
    push_refresh(text, page.reloads)?;
    push_window(text, page.path)?;
    push_styled(text)
}

/// Adds the timeline of the phases, where one is known.
#[tactic(auto, unfolding(crate::specs::Pages::timeline_text))]
fn push_timeline(
    text: &mut String,
    phases: &[PhaseBar<'_>],
    drawing: &Drawing<'_>,
) -> Result<(), AllocError>
    ensures { OnOk result (string_bytes text.new ≡ string_bytes text.old ++ timeline_text phases.now drawing.now) }
{
    if phases.is_empty() {
        text.push_str("<p>No phase is known to have run.</p>\n")
    } else {
        push_drawing(text, "timeline", drawing)
    }
}

/// Adds the graph, the timeline, how full the limits were, and the table of the nodes.
#[tactic(auto, unfolding(crate::specs::Pages::nodes_text))]
fn push_nodes(
    alloc: Global,
    text: &mut String,
    page: &Page<'_>,
    graph: &Drawing<'_>,
    timeline: &Drawing<'_>,
) -> Result<(), AllocError>
    ensures { OnOk result (string_bytes text.new ≡ string_bytes text.old ++ nodes_text page.now graph.now timeline.now) }
{
    push_own(text, "<h2>Graph</h2>\n")?;
    push_drawing(text, "graph", graph)?;
    push_own(text, "<h2>Timeline</h2>\n")?;
    push_timeline(text, page.phases, timeline)?;
    push_limits(text, page.limits)?;
    push_own(text, "<h2>Nodes</h2>\n")?;
    push_table(alloc, text, page.rows)
}

/// Adds what `audit` says of a round that has ended.
#[tactic(auto, unfolding(crate::specs::Pages::confirmed_text))]
fn push_confirmed(text: &mut String, confirmed: Option<bool>) -> Result<(), AllocError>
    ensures { OnOk result (string_bytes text.new ≡ string_bytes text.old ++ confirmed_text confirmed) }
{
    match confirmed {
        Some(true) => text.push_str(
            "<p><code>dagrun audit</code> confirms this round: by its journal alone its nodes came to these states.</p>\n",
        ),
        Some(false) => text.push_str(
            "<p><code>dagrun audit</code> does not confirm this round: it was aborted.</p>\n",
        ),
        None => Ok(()),
    }
}

/// Adds the digest of the files by which the round is.
#[tactic(auto, unfolding(crate::specs::Pages::shown_digest))]
fn push_digest(text: &mut String, digest: &str) -> Result<(), AllocError>
    ensures { OnOk result (string_bytes text.new ≡ string_bytes text.old ++ shown_digest digest.now) }
{
    push_own(text, "<p>The digest of its files is <code>")?;
    push_escaped(text, digest)?;
    push_own(text, "</code>.</p>\n")
}

/// Adds the version of the program, and the script.
#[tactic(auto, unfolding(crate::specs::Pages::last_text))]
fn push_last(text: &mut String, version: &str) -> Result<(), AllocError>
    ensures { OnOk result (string_bytes text.new ≡ string_bytes text.old ++ last_text version.now) }
{
    text.push_str("<p>Made by ")?;
    push_escaped(text, version)?;
    text.push_str("</p>\n<script>\n")?;
    push_script(text)?;
    text.push_str("</script>\n</body>\n</html>\n")
}

/// Adds what comes after the nodes.
#[tactic(auto, unfolding(crate::specs::Pages::closing_text))]
fn push_end(text: &mut String, page: &Page<'_>) -> Result<(), AllocError>
    ensures { OnOk result (string_bytes text.new ≡ string_bytes text.old ++ closing_text page.now) }
{
    push_confirmed(text, page.confirmed)?;
    push_digest(text, page.digest)?;
    push_last(text, page.version)
}

/// The text of a page, with these drawings of its graph and of its timeline.
#[tactic(auto, unfolding(crate::specs::Pages::page_of))]
fn text_with(
    alloc: Global,
    page: &Page<'_>,
    graph: &Drawing<'_>,
    timeline: &Drawing<'_>,
) -> Result<String, AllocError>
    ensures { IfOk result (λ text. string_bytes text ≡ page_of page.now graph.now timeline.now) }
{
    let mut text = String::new(alloc);
    push_head(&mut text, page)?;
    push_title(&mut text, page)?;
    push_counts(&mut text, page.rows)?;
    push_why(&mut text, page.why)?;
    push_warnings(&mut text, page.warnings)?;
    push_nodes(alloc, &mut text, page, graph, timeline)?;
    push_end(&mut text, page)?;
    Ok(text)
}

/// The text of a page in HTML: a file of its own, which loads nothing. It has the path of the DAG file, how the round is,
/// how many nodes are in each state, what failed, the graph, a timeline of the phases, how full the limits were, and
/// a row for each node in plan order.
///
/// # Errors
/// Lack of memory, and nothing else.
pub fn page_text(alloc: Global, page: &Page<'_>) -> Result<String, AllocError>
    ensures { IfOk result (λ text. IsPageText page.now (string_bytes text)) }
{
    let graph = graph_drawing(alloc, page.rows)?;
    let timeline = timeline_drawing(alloc, page.phases)?;
    text_with(alloc, page, &graph, &timeline)
}
