//! The picture of a DAG: its nodes, within the clusters of their splices, and its edges.

ghost use Rattle.std.specs.Prelude.{◌≡◌, ◌<◌, ◌≤◌, ◌+◌, ◌++◌, map, OnOk, IfOk, string_bytes, flat_map};
ghost use Rattle.run_plan.specs.Plan.{node_at, count_of};
ghost use Rattle.dag_graph.specs.Graph.{children_of};
ghost use Rattle.status_report.specs.Text.{reported};
ghost use Rattle.graph_text.specs.Names.{parts_of, splices_among};
ghost use Rattle.graph_text.specs.Picture.{drawn_plan, states_of, status_text, state_text, frame_text, attributes_text, drawn_node, all_drawn, edge_line, edge_lines, dot_text_of};
ghost use Rattle.graph_text.specs.Clusters.{moved};

use crate::clusters::{push_closings, push_indent, push_move};
use crate::names::{own_in, parts_of, push_quoted, scope_in};
use run_plan::Plan;
use sched_core::Core;
use status_report::{Status, status_at};
use std::alloc::{AllocError, Global};

/// What is drawn.
#[derive(Clone, Copy)]
pub enum Drawn<'a> {
    /// A plan, of whose nodes nothing is known.
    Bare(&'a Plan),
    /// The plan of a run, with where each node is.
    Run(&'a Core<'a>),
}

impl<'a> Drawn<'a> {
    /// The plan that is drawn.
    pub fn plan(&self) -> &'a Plan
        ensures { result.now ≡ drawn_plan self.now }
    {
        match self {
            Drawn::Bare(plan) => *plan,
            Drawn::Run(core) => core.plan(),
        }
    }

    /// Where a node is, if that is to be seen.
    pub(crate) fn status(&self, node: u32) -> Option<Status>
        requires { node ≤ count_of (drawn_plan self.now) }
        ensures { result ≡ states_of self.now node }
    {
        match self {
            Drawn::Bare(_) => None,
            Drawn::Run(core) => Some(status_at(core, node)),
        }
    }
}

/// The colour of a node that is so, by a name that graphviz knows, and where it is in words, which
/// are shown where a pointer rests on it.
fn status_text(status: Status) -> &'static str
    ensures { result.now ≡ status_text status }
{
    match status {
        Status::Done => ", fillcolor=palegreen, tooltip=\"done\"",
        Status::Error => ", fillcolor=lightcoral, tooltip=\"in error\"",
        Status::PreRun => ", fillcolor=lightskyblue, tooltip=\"its PRE script runs\"",
        Status::Submitted => ", fillcolor=lightskyblue, tooltip=\"its job runs\"",
        Status::PostRun => ", fillcolor=lightskyblue, tooltip=\"its POST script runs\"",
        Status::Ready => ", fillcolor=khaki, tooltip=\"ready\"",
        Status::NotReady => ", fillcolor=white, tooltip=\"waits\"",
    }
}

/// What is displayed of where a node is, if that is to be seen.
fn state_text(status: Option<Status>) -> &'static str
    ensures { result.now ≡ state_text status }
{
    match status {
        Some(status) => status_text(status),
        None => "",
    }
}

/// What the frame of a node has: that of the FINAL node is double.
pub(crate) fn frame_text(plan: &Plan, node: u32) -> &'static str
    ensures { result.now ≡ frame_text plan.now node }
{
    if node == plan.count() {
        ", peripheries=2"
    } else {
        ""
    }
}

/// Adds what is shown of a node: its own name, its frame, and where it is.
pub(crate) fn push_attributes(
    text: &mut String,
    own: &str,
    frame: &str,
    state: &str,
) -> Result<(), AllocError>
    ensures { OnOk result (string_bytes text.new ≡ string_bytes text.old ++ attributes_text own.now frame.now state.now) }
{
    text.push_str(" [label=")?;
    push_quoted(text, own)?;
    text.push_str(frame)?;
    text.push_str(state)?;
    text.push_str("];\n")
}

/// Adds the line of a node.
fn push_node(
    text: &mut String,
    drawn: &Drawn<'_>,
    node: u32,
    parts: &[&str],
) -> Result<(), AllocError>
    requires node { node ≤ count_of (drawn_plan drawn.now) }
    requires parts { map (λ part. part.now) parts.now ≡ parts_of (node_at (drawn_plan drawn.now) node).name }
    ensures { OnOk result (string_bytes text.new ≡ string_bytes text.old ++ drawn_node (drawn_plan drawn.now) (states_of drawn.now node) node) }
{
    let plan = drawn.plan();
    let frame = frame_text(plan, node);
    let state = state_text(drawn.status(node));
    push_indent(text, scope_in(parts).len() + 1)?;
    push_quoted(text, plan.spec(node).name())?;
    push_attributes(text, own_in(parts), frame, state)
}

/// Adds a node after the one before it, each of which is in the splices among these parts.
fn push_next(
    text: &mut String,
    drawn: &Drawn<'_>,
    node: u32,
    before: &[&str],
    parts: &[&str],
) -> Result<(), AllocError>
    requires node { node ≤ count_of (drawn_plan drawn.now) }
    requires parts { map (λ part. part.now) parts.now ≡ parts_of (node_at (drawn_plan drawn.now) node).name }
    ensures { OnOk result (string_bytes text.new ≡ string_bytes text.old
        ++ (moved node (splices_among (map (λ part. part.now) before.now)) (splices_among (map (λ part. part.now) parts.now))
        ++ drawn_node (drawn_plan drawn.now) (states_of drawn.now node) node)) }
{
    push_move(text, node, scope_in(before), scope_in(parts))?;
    push_node(text, drawn, node, parts)
}

/// How many nodes are drawn: the ordinary ones, and the FINAL node after them.
pub(crate) fn drawn_nodes(plan: &Plan) -> u32
    ensures is { result ≡ reported plan.now }
    ensures few { result ≤ count_of plan.now + 1 }
{
    if plan.has_final() {
        plan.count() + 1
    } else {
        plan.count()
    }
}

/// Adds all nodes in plan order, each within the clusters of its splices.
fn push_nodes(alloc: Global, text: &mut String, drawn: &Drawn<'_>) -> Result<(), AllocError>
    ensures { OnOk result (string_bytes text.new ≡ string_bytes text.old ++ all_drawn (drawn_plan drawn.now) (states_of drawn.now)) }
{
    let plan = drawn.plan();
    let mut before = Vec::new(alloc);
    for node in 0..drawn_nodes(plan) {
        let parts = parts_of(alloc, plan.spec(node).name())?;
        push_next(text, drawn, node, &before, &parts)?;
        before = parts;
    }
    push_closings(text, 0, scope_in(&before).len())?;
    Ok(())
}

/// Adds the line of an edge.
pub(crate) fn push_edge(
    text: &mut String,
    plan: &Plan,
    parent: u32,
    child: u32,
) -> Result<(), AllocError>
    requires { (parent ≤ count_of plan.now) × (child ≤ count_of plan.now) }
    ensures { OnOk result (string_bytes text.new ≡ string_bytes text.old ++ edge_line plan.now parent child) }
{
    text.push_str("    ")?;
    push_quoted(text, plan.spec(parent).name())?;
    text.push_str(" -> ")?;
    push_quoted(text, plan.spec(child).name())?;
    text.push_str(";\n")
}

/// Adds the edges from a node to its children.
fn push_edges_from(text: &mut String, plan: &Plan, parent: u32) -> Result<(), AllocError>
    requires { parent < count_of plan.now }
    ensures { OnOk result (string_bytes text.new
        ≡ string_bytes text.old ++ flat_map (edge_line plan.now parent) (children_of plan.now.graph.dag parent)) }
{
    for child in plan.graph().children(parent) {
        push_edge(text, plan, parent, *child)?;
    }
    Ok(())
}

/// Adds all edges, those of one parent together, in plan order.
fn push_edges(text: &mut String, plan: &Plan) -> Result<(), AllocError>
    ensures { OnOk result (string_bytes text.new ≡ string_bytes text.old ++ edge_lines plan.now (count_of plan.now)) }
{
    for parent in 0..plan.count() {
        push_edges_from(text, plan, parent)?;
    }
    Ok(())
}

/// The picture of a DAG as a graph in DOT: each node with its own name as label, within a cluster for
/// each splice in which it is, the FINAL node with a double frame; and an edge from each node to
/// each of its children. Where a run is drawn, a node's colour says where it is in it.
///
/// # Errors
/// Lack of memory, and nothing else.
pub fn dot_text(alloc: Global, drawn: &Drawn<'_>) -> Result<String, AllocError>
    ensures { IfOk result (λ text. string_bytes text ≡ dot_text_of (drawn_plan drawn.now) (states_of drawn.now)) }
{
    let mut text = String::new(alloc);
    text.push_str("digraph dag {\n    node [shape=box, style=filled, fillcolor=white];\n")?;
    push_nodes(alloc, &mut text, drawn)?;
    push_edges(&mut text, drawn.plan())?;
    text.push_str("}\n")?;
    Ok(text)
}
