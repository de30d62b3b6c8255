//! The classes by which the nodes of a plan are folded.

ghost use Rattle.std.specs.Prelude.{◌≡◌, ◌<◌, IfOk, IsTrue, slice_index, slice_get};
ghost use Rattle.std.specs.List.{range_with_len};
ghost use Rattle.std.specs.Option.{option_map};
ghost use Rattle.status_report.specs.Text.{reported};
ghost use Rattle.graph_text.specs.Folding.{kind_of_flat, kind_at, IsFolding, IsLikeFirst, IsAround, AreArounds};

use crate::classes::{Members, class_at, classes_among};
use crate::picture::drawn_nodes;
use crate::refining::refined;
use run_plan::Plan;
use splices_flat::FlatNode;
use std::alloc::{AllocError, Global};

/// The classes of a node's parents and of its children, ascending and each once.
#[derive(Drop)]
struct Around {
    parents: Members,
    children: Members,
}

/// The classes of the parents and of the children of a node.
fn around_of(alloc: Global, plan: &Plan, classes: &[u32], node: u32) -> Result<Around, AllocError>
    ensures { IfOk result (IsAround plan.now (slice_index classes.now) node) }
{
    let graph = plan.graph();
    let parents = classes_among(alloc, classes, graph.parents(node))?;
    let children = classes_among(alloc, classes, graph.children(node))?;
    Ok(Around { parents, children })
}

/// The same of each node that is drawn.
fn arounds_of(alloc: Global, plan: &Plan, classes: &[u32]) -> Result<Vec<Around>, AllocError>
    ensures { IfOk result (λ arounds. AreArounds plan.now (slice_index classes.now) (reported plan.now) arounds.items) }
{
    let mut arounds = Vec::new(alloc);
    for node in 0..drawn_nodes(plan) {
        arounds.push(around_of(alloc, plan, classes, node)?)?;
    }
    Ok(arounds)
}

/// What the files say of an ordinary node; nothing of the FINAL node.
fn flat_at(plan: &Plan, node: u32) -> Option<&FlatNode>
    ensures { option_map (λ flat. flat.now) result ≡ slice_get plan.now.graph.dag.nodes node }
{
    plan.graph().flat().nodes().get(node as usize)
}

/// Whether two nodes have the same submit file and the same folder.
fn is_same_flat(a: &FlatNode, b: &FlatNode) -> bool
    ensures { IsTrue result → kind_of_flat a.now ≡ kind_of_flat b.now }
{
    a.file.as_str() == b.file.as_str() && a.folder.as_str() == b.folder.as_str()
}

/// Whether two ordinary nodes have the same submit file and the same folder, or both are the FINAL node.
fn is_same_kind(plan: &Plan, a: u32, b: u32) -> bool
    ensures { IsTrue result → kind_at plan.now a ≡ kind_at plan.now b }
{
    match flat_at(plan, a) {
        Some(one) => match flat_at(plan, b) {
            Some(other) => is_same_flat(one, other),
            None => false,
        },
        None => flat_at(plan, b).is_none(),
    }
}

/// Whether two nodes have parents of the same classes and children of the same classes.
fn is_same_around(a: &Around, b: &Around) -> bool
    ensures { IsTrue result → (a.now.parents ≡ b.now.parents) × (a.now.children ≡ b.now.children) }
{
    a.parents.as_slice() == b.parents.as_slice() && a.children.as_slice() == b.children.as_slice()
}

/// Whether a node is like the first of its class, and this one is named by itself.
fn is_like_first(plan: &Plan, classes: &[u32], arounds: &[Around], node: u32) -> bool
    requires within { node < reported plan.now }
    requires arounds { AreArounds plan.now (slice_index classes.now) (reported plan.now) arounds.now }
    ensures { IsTrue result → IsLikeFirst plan.now (slice_index classes.now) node }
{
    let first = class_at(classes, node);
    if first > node || class_at(classes, first) != first {
        return false;
    }
    is_same_kind(plan, node, first)
        && is_same_around(&arounds[node as usize], &arounds[first as usize])
}

/// Whether the nodes may be folded by these classes.
fn is_folding(alloc: Global, plan: &Plan, classes: &[u32]) -> Result<bool, AllocError>
    ensures { IfOk result (λ is. IsTrue is → IsFolding plan.now (slice_index classes.now)) }
{
    let arounds = arounds_of(alloc, plan, classes)?;
    for node in 0..drawn_nodes(plan) {
        if !is_like_first(plan, classes, &arounds, node) {
            return Ok(false);
        }
    }
    Ok(true)
}

/// The classes by which each node is alone.
fn unfolded(alloc: Global, count: u32) -> Result<Vec<u32>, AllocError>
    ensures { IfOk result (λ classes. classes.items ≡ range_with_len 0 count) }
{
    (0..count).collect(alloc)
}

/// The classes by which the nodes of a plan are folded, of each node the number of the first node of its class: the coarsest, or, where
/// these were not found in few rounds, those by which each node is alone.
///
/// # Errors
/// Lack of memory, and nothing else.
pub fn folding_of(alloc: Global, plan: &Plan) -> Result<Vec<u32>, AllocError>
    ensures { IfOk result (λ classes. IsFolding plan.now (slice_index classes.items)) }
{
    let classes = refined(alloc, plan)?;
    if is_folding(alloc, plan, &classes)? {
        return Ok(classes);
    }
    unfolded(alloc, drawn_nodes(plan))
}
