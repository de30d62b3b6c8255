//! The rows of the table of nodes.

ghost use Rattle.std.specs.Prelude.{◌≡◌, ◌++◌, length, OnOk, string_bytes};
ghost use Rattle.log_lines.specs.Words.{unquoted_of};
ghost use Rattle.report_page.specs.Rows.{value_shown, code_text, linked_text, path_text, command_text, some_command_text, labelled_text, job_place_text, job_text, status_cells, time_cells, node_row, node_rows, table_head, table_text};

use crate::escaped::{push_escaped, push_own, push_state_class};
use crate::links::{is_absolute, push_link};
use crate::times::push_some_seconds;
use crate::values::Row;
use log_lines::unquoted;
use std::alloc::{AllocError, Global};

/// The field for a part of a name and the choice of a state, which the script shows, and the heads of the columns.
const TABLE_HEAD: &str =
    "<div id=\"find\" hidden><input id=\"part\" type=\"search\" placeholder=\"part of a name\" aria-label=\"part of a name\"><select id=\"which\" aria-label=\"state\"><option value=\"\">all states</option></select><span id=\"shown\"></span></div>\n<table id=\"nodes\"><thead><tr><th>Node</th><th>State</th><th>Attempts</th><th>Value</th><th>Began (s)</th><th>Took (s)</th><th>Job</th></tr></thead><tbody>\n";

/// Adds the value of the last attempt.
fn push_value(text: &mut String, value: Option<i32>) -> Result<(), AllocError>
    ensures { OnOk result (string_bytes text.new ≡ string_bytes text.old ++ value_shown value) }
{
    match value {
        Some(value) => write!(text, "{value}"),
        None => text.push_str("-"),
    }
}

/// Adds a command or a path.
#[tactic(auto, unfolding(crate::specs::Rows::code_text))]
fn push_code(text: &mut String, shown: &str) -> Result<(), AllocError>
    ensures { OnOk result (string_bytes text.new ≡ string_bytes text.old ++ code_text shown.now) }
{
    push_own(text, "<code>")?;
    push_escaped(text, shown)?;
    push_own(text, "</code>")
}

/// Adds a path as a log quotes it, with a link to its file, which has this path.
#[tactic(auto, unfolding(crate::specs::Rows::linked_text))]
fn push_linked(text: &mut String, shown: &str, path: &str) -> Result<(), AllocError>
    requires { path.now ≡ unquoted_of shown.now }
    ensures { OnOk result (string_bytes text.new ≡ string_bytes text.old ++ linked_text shown.now) }
{
    push_own(text, "<a href=\"")?;
    push_link(text, path)?;
    push_own(text, "\">")?;
    push_code(text, shown)?;
    push_own(text, "</a>")
}

/// Adds the same, with a link if the path is absolute.
#[tactic(auto, unfolding(crate::specs::Rows::path_text))]
fn push_path(alloc: Global, text: &mut String, shown: &str) -> Result<(), AllocError>
    ensures { OnOk result (string_bytes text.new ≡ string_bytes text.old ++ path_text shown.now) }
{
    let path = unquoted(alloc, shown)?;
    if is_absolute(path.as_str()) {
        push_linked(text, shown, path.as_str())
    } else {
        push_code(text, shown)
    }
}

/// Adds the command of the job of a node.
#[tactic(auto, unfolding(crate::specs::Rows::command_text))]
fn push_command(text: &mut String, command: &str) -> Result<(), AllocError>
    ensures { OnOk result (string_bytes text.new ≡ string_bytes text.old ++ command_text command.now) }
{
    push_own(text, "<p>")?;
    push_code(text, command)?;
    push_own(text, "</p>")
}

/// Adds the same where it is known.
#[tactic(auto, unfolding(crate::specs::Rows::some_command_text))]
fn push_some_command(text: &mut String, command: Option<&str>) -> Result<(), AllocError>
    ensures { OnOk result (string_bytes text.new ≡ string_bytes text.old ++ some_command_text command.entry) }
{
    match command {
        Some(command) => push_command(text, command),
        None => Ok(()),
    }
}

/// Adds a path that belongs to the job of a node, after its label.
#[tactic(auto, unfolding(crate::specs::Rows::labelled_text))]
fn push_labelled(
    alloc: Global,
    text: &mut String,
    label: &str,
    path: &str,
) -> Result<(), AllocError>
    ensures { OnOk result (string_bytes text.new ≡ string_bytes text.old ++ labelled_text label.now path.now) }
{
    push_own(text, "<p>")?;
    push_own(text, label)?;
    push_path(alloc, text, path)?;
    push_own(text, "</p>")
}

/// Adds the same where it is known.
#[tactic(auto, unfolding(crate::specs::Rows::job_place_text))]
fn push_place(
    alloc: Global,
    text: &mut String,
    label: &str,
    place: Option<&str>,
) -> Result<(), AllocError>
    ensures { OnOk result (string_bytes text.new ≡ string_bytes text.old ++ job_place_text label.now place.entry) }
{
    match place {
        Some(place) => push_labelled(alloc, text, label, place),
        None => Ok(()),
    }
}

/// Adds what is known of the job of a node.
#[tactic(auto, unfolding(crate::specs::Rows::job_text))]
fn push_job(alloc: Global, text: &mut String, row: &Row<'_>) -> Result<(), AllocError>
    ensures { OnOk result (string_bytes text.new ≡ string_bytes text.old ++ job_text row.now) }
{
    push_some_command(text, row.command)?;
    push_place(alloc, text, "folder ", row.folder)?;
    push_place(alloc, text, "output ", row.output)?;
    push_place(alloc, text, "errors ", row.error)
}

/// Adds the fields of a row that say how its node is.
#[tactic(auto, unfolding(crate::specs::Rows::status_cells))]
fn push_status_cells(text: &mut String, row: &Row<'_>) -> Result<(), AllocError>
    ensures { OnOk result (string_bytes text.new ≡ string_bytes text.old ++ status_cells row.now) }
{
    text.push_str("<td>")?;
    push_escaped(text, row.name)?;
    let state = row.state.word();
    write!(text, "</td><td>{state}</td><td>{}</td><td>", row.attempts)?;
    push_value(text, row.value)?;
    text.push_str("</td>")
}

/// Adds those that say when its last attempt began, and how long it took.
#[tactic(auto, unfolding(crate::specs::Rows::time_cells))]
fn push_time_cells(text: &mut String, row: &Row<'_>) -> Result<(), AllocError>
    ensures { OnOk result (string_bytes text.new ≡ string_bytes text.old ++ time_cells row.now) }
{
    text.push_str("<td>")?;
    push_some_seconds(text, row.began)?;
    text.push_str("</td><td>")?;
    push_some_seconds(text, row.took)?;
    text.push_str("</td>")
}

/// Adds the row of a node.
#[tactic(auto, unfolding(crate::specs::Rows::node_row))]
fn push_row(alloc: Global, text: &mut String, row: &Row<'_>) -> Result<(), AllocError>
    ensures { OnOk result (string_bytes text.new ≡ string_bytes text.old ++ node_row row.now) }
{
    push_own(text, "<tr class=\"")?;
    push_state_class(text, row.state)?;
    push_own(text, "\">")?;
    push_status_cells(text, row)?;
    push_time_cells(text, row)?;
    push_own(text, "<td>")?;
    push_job(alloc, text, row)?;
    push_own(text, "</td></tr>\n")
}

/// Adds the rows of all nodes.
#[tactic(auto, unfolding(crate::specs::Rows::node_rows))]
fn push_rows(alloc: Global, text: &mut String, rows: &[Row<'_>]) -> Result<(), AllocError>
    ensures { OnOk result (string_bytes text.new ≡ string_bytes text.old ++ node_rows rows.now (length rows.now)) }
{
    for place in 0..rows.len() {
        push_row(alloc, text, &rows[place])?;
    }
    Ok(())
}

/// Adds the table of all nodes, in plan order.
#[tactic(auto, unfolding(crate::specs::Rows::table_text, crate::specs::Rows::table_head))]
pub(crate) fn push_table(
    alloc: Global,
    text: &mut String,
    rows: &[Row<'_>],
) -> Result<(), AllocError>
    ensures { OnOk result (string_bytes text.new ≡ string_bytes text.old ++ table_text rows.now) }
{
    text.push_str(TABLE_HEAD)?;
    push_rows(alloc, text, rows)?;
    text.push_str("</tbody></table>\n")
}
