//! How the coarsest classes are found: nodes of one kind are one class, and in rounds those are parted that
//! differ by the classes of their parents or of their children. What is found is checked elsewhere.

use crate::classes::{class_at, classes_among};
use crate::picture::drawn_nodes;
use run_plan::Plan;
use std::alloc::{AllocError, Global};
use std::collections::BTreeMap;

/// After as many rounds what was found is taken as it is. A round goes through the whole graph in topological
/// order and back, so that most graphs need two or three.
const MOST_ROUNDS: usize = 64;

/// Towards which neighbours nodes are told apart.
#[derive(Clone, Copy)]
enum Side {
    Parents,
    Children,
}

/// The first node with this key: the given one, unless there is one before it.
fn first_with<K: Ord + Drop>(
    firsts: &mut BTreeMap<K, u32>,
    key: K,
    node: u32,
) -> Result<u32, AllocError> {
    if let Some(first) = firsts.get(&key) {
        return Ok(*first);
    }
    firsts.insert(key, node)?;
    Ok(node)
}

/// What a node runs, as a text: its folder and its submit file.
fn kind_text(alloc: Global, plan: &Plan, node: u32) -> Result<String, AllocError> {
    match plan.graph().flat().nodes().get(node as usize) {
        Some(flat) => format!(in alloc; "{}\n{}", flat.folder, flat.file),
        None => Ok(String::new(alloc)),
    }
}

/// The classes by kind alone; the FINAL node is alone.
fn kinds(alloc: Global, plan: &Plan) -> Result<Vec<u32>, AllocError> {
    let mut firsts = BTreeMap::new(alloc);
    let mut classes = Vec::new(alloc);
    for node in 0..drawn_nodes(plan) {
        let kind = kind_text(alloc, plan, node)?;
        classes.push(first_with(&mut firsts, kind, node)?)?;
    }
    Ok(classes)
}

/// The classes parted by those of the parents, which are parted before, or by those of the children; and how
/// many there are then of ordinary nodes.
fn parted(
    alloc: Global,
    plan: &Plan,
    side: Side,
    classes: Vec<u32>,
) -> Result<(Vec<u32>, usize), AllocError> {
    let order = plan.graph().order();
    let mut classes = classes;
    let mut firsts = BTreeMap::new(alloc);
    for index in 0..order.len() {
        let node = match side {
            Side::Parents => order[index],
            Side::Children => order[order.len() - 1 - index],
        };
        let key = key_of(alloc, plan, side, &classes, node)?;
        let class = first_with(&mut firsts, key, node)?;
        if let Some(place) = classes.get_mut(node as usize) {
            *place = class;
        }
    }
    Ok((classes, firsts.len()))
}

/// By what a node is told from others: its own class, and those of its parents or of its children.
fn key_of(
    alloc: Global,
    plan: &Plan,
    side: Side,
    classes: &[u32],
    node: u32,
) -> Result<Vec<u32>, AllocError> {
    let neighbours = match side {
        Side::Parents => plan.graph().parents(node),
        Side::Children => plan.graph().children(node),
    };
    let among = classes_among(alloc, classes, neighbours)?;
    let mut key = Vec::new(alloc);
    key.push(class_at(classes, node))?;
    key.extend_from_slice(among.as_slice())?;
    Ok(key)
}

/// The classes, each named by its first node in plan order.
fn named(alloc: Global, classes: &[u32], count: u32) -> Result<Vec<u32>, AllocError> {
    let mut firsts = BTreeMap::new(alloc);
    let mut named = Vec::new(alloc);
    for node in 0..count {
        named.push(first_with(&mut firsts, class_at(classes, node), node)?)?;
    }
    Ok(named)
}

/// The coarsest classes that were found in few rounds.
pub(crate) fn refined(alloc: Global, plan: &Plan) -> Result<Vec<u32>, AllocError> {
    let mut classes = kinds(alloc, plan)?;
    let mut count = 0;
    for _ in 0..MOST_ROUNDS {
        let (down, _) = parted(alloc, plan, Side::Parents, classes)?;
        let (up, found) = parted(alloc, plan, Side::Children, down)?;
        classes = up;
        if found == count {
            break;
        }
        count = found;
    }
    named(alloc, &classes, drawn_nodes(plan))
}
