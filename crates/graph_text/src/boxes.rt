//! The picture of a DAG whose nodes are folded: a box for each class, and its edges.

ghost use Rattle.std.specs.Prelude.{◌≡◌, ◌<◌, ◌≤◌, ◌++◌, [], length, map, OnOk, IfOk, string_bytes, flat_map, slice_index, slice_index_or};
ghost use Rattle.std.specs.List.{All};
ghost use Rattle.run_plan.specs.Plan.{count_of};
ghost use Rattle.status_report.specs.Text.{reported};
ghost use Rattle.graph_text.specs.Picture.{drawn_plan, states_of, edge_line};
ghost use Rattle.graph_text.specs.Folding.{IsFolding};
ghost use Rattle.graph_text.specs.Folded.{members_below, box_line, box_at, box_lines, box_children, box_edges_at, box_edges, folded_text_of, IsFoldedText};

use crate::checking::folding_of;
use crate::classes::{Members, class_at, classes_among, members_of};
use crate::names::push_quoted;
use crate::picture::{Drawn, drawn_nodes, frame_text, push_attributes, push_edge};
use crate::tally::{box_label, box_tally_of, colour_text};
use run_plan::Plan;
use status_report::Status;
use std::alloc::{AllocError, Global};

/// Where each of these nodes is, if that is to be seen.
fn states_among(
    alloc: Global,
    drawn: &Drawn<'_>,
    members: &[u32],
) -> Result<Vec<Option<Status>>, AllocError>
    requires { All (λ n. n ≤ count_of (drawn_plan drawn.now)) members.now }
    ensures { IfOk result (λ states. states.items ≡ map (states_of drawn.now) members.now) }
{
    let mut states = Vec::new(alloc);
    for node in members {
        states.push(drawn.status(*node))?;
    }
    Ok(states)
}

/// Adds the line of the box of these nodes.
fn push_box(
    alloc: Global,
    text: &mut String,
    drawn: &Drawn<'_>,
    first: u32,
    members: &[u32],
) -> Result<(), AllocError>
    requires first { first ≤ count_of (drawn_plan drawn.now) }
    requires members { All (λ n. n ≤ count_of (drawn_plan drawn.now)) members.now }
    ensures { OnOk result (string_bytes text.new ≡ string_bytes text.old ++ box_line (drawn_plan drawn.now) (states_of drawn.now) first members.now) }
{
    let plan = drawn.plan();
    let name = plan.spec(first).name();
    let states = states_among(alloc, drawn, members)?;
    let tally = box_tally_of(&states);
    let label = box_label(alloc, name, &tally)?;
    text.push_str("    ")?;
    push_quoted(text, name)?;
    push_attributes(
        text,
        label.as_str(),
        frame_text(plan, first),
        colour_text(&tally),
    )
}

/// Adds the box of a node, if a class is named by it.
fn push_box_at(
    alloc: Global,
    text: &mut String,
    drawn: &Drawn<'_>,
    classes: &[u32],
    lists: &[Members],
    node: u32,
) -> Result<(), AllocError>
    requires within { node < reported (drawn_plan drawn.now) }
    requires len { length lists.now ≡ reported (drawn_plan drawn.now) }
    requires members { slice_index_or lists.now node [] ≡ members_below (slice_index classes.now) (reported (drawn_plan drawn.now)) node }
    ensures { OnOk result (string_bytes text.new ≡ string_bytes text.old ++ box_at (drawn_plan drawn.now) (slice_index classes.now) (states_of drawn.now) node) }
{
    if class_at(classes, node) != node {
        return Ok(());
    }
    push_box(alloc, text, drawn, node, lists[node as usize].as_slice())
}

/// Adds the boxes of all classes, in the order of their first nodes.
fn push_boxes(
    alloc: Global,
    text: &mut String,
    drawn: &Drawn<'_>,
    classes: &[u32],
) -> Result<(), AllocError>
    requires { IsFolding (drawn_plan drawn.now) (slice_index classes.now) }
    ensures { OnOk result (string_bytes text.new ≡ string_bytes text.old
        ++ box_lines (drawn_plan drawn.now) (slice_index classes.now) (states_of drawn.now) (reported (drawn_plan drawn.now))) }
{
    let count = drawn_nodes(drawn.plan());
    let lists = members_of(alloc, classes, count)?;
    for node in 0..count {
        push_box_at(alloc, text, drawn, classes, &lists, node)?;
    }
    Ok(())
}

/// The classes that have a child of this one, ascending and each once.
fn box_children(
    alloc: Global,
    plan: &Plan,
    classes: &[u32],
    first: u32,
) -> Result<Members, AllocError>
    requires within { first < count_of plan.now }
    requires first { slice_index classes.now first ≡ first }
    requires folding { IsFolding plan.now (slice_index classes.now) }
    ensures { IfOk result (λ children. children ≡ box_children plan.now (slice_index classes.now) first) }
{
    classes_among(alloc, classes, plan.graph().children(first))
}

/// Adds the edges from a class to these classes.
fn push_edges_to(
    text: &mut String,
    plan: &Plan,
    first: u32,
    children: &[u32],
) -> Result<(), AllocError>
    requires first { first < count_of plan.now }
    requires children { All (λ c. c < count_of plan.now) children.now }
    ensures { OnOk result (string_bytes text.new ≡ string_bytes text.old ++ flat_map (edge_line plan.now first) children.now) }
{
    for child in children {
        push_edge(text, plan, first, *child)?;
    }
    Ok(())
}

/// Adds the edges of a node, if a class is named by it: those from its class.
fn push_edges_at(
    alloc: Global,
    text: &mut String,
    plan: &Plan,
    classes: &[u32],
    node: u32,
) -> Result<(), AllocError>
    requires within { node < count_of plan.now }
    requires folding { IsFolding plan.now (slice_index classes.now) }
    ensures { OnOk result (string_bytes text.new ≡ string_bytes text.old ++ box_edges_at plan.now (slice_index classes.now) node) }
{
    if class_at(classes, node) != node {
        return Ok(());
    }
    let children = box_children(alloc, plan, classes, node)?;
    push_edges_to(text, plan, node, children.as_slice())
}

/// Adds each edge between two classes once, those from one class together, in plan order.
fn push_box_edges(
    alloc: Global,
    text: &mut String,
    plan: &Plan,
    classes: &[u32],
) -> Result<(), AllocError>
    requires { IsFolding plan.now (slice_index classes.now) }
    ensures { OnOk result (string_bytes text.new ≡ string_bytes text.old ++ box_edges plan.now (slice_index classes.now) (count_of plan.now)) }
{
    for node in 0..plan.count() {
        push_edges_at(alloc, text, plan, classes, node)?;
    }
    Ok(())
}

/// The picture of a DAG that is folded by these classes.
fn text_by(alloc: Global, drawn: &Drawn<'_>, classes: &[u32]) -> Result<String, AllocError>
    requires { IsFolding (drawn_plan drawn.now) (slice_index classes.now) }
    ensures { IfOk result (λ text. string_bytes text ≡ folded_text_of (drawn_plan drawn.now) (slice_index classes.now) (states_of drawn.now)) }
{
    let mut text = String::new(alloc);
    text.push_str("digraph dag {\n    node [shape=box, style=filled, fillcolor=white];\n")?;
    push_boxes(alloc, &mut text, drawn, classes)?;
    push_box_edges(alloc, &mut text, drawn.plan(), classes)?;
    text.push_str("}\n")?;
    Ok(text)
}

/// The picture of a DAG as a graph in DOT, in which nodes of one shape are one box: those with the same
/// submit file and the same folder whose parents are in the same boxes and whose children are in the same
/// boxes. A box of several nodes has the name of the first, and says how many there are; where a run is drawn, how many of them
/// are done, failed and run, and its colour is that of the worst. An edge is between two boxes that have a
/// node and a child of it.
///
/// A graph that takes many rounds to be folded is drawn with a box for each node.
///
/// # Errors
/// Lack of memory, and nothing else.
pub fn folded_text(alloc: Global, drawn: &Drawn<'_>) -> Result<String, AllocError>
    ensures { IfOk result (λ text. IsFoldedText (drawn_plan drawn.now) (states_of drawn.now) (string_bytes text)) }
{
    let classes = folding_of(alloc, drawn.plan())?;
    text_by(alloc, drawn, &classes)
}
